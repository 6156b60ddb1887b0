//! The modules of object files and libraries, as a program takes them: one that the check refuses by its lowering. What is refused is left out, with a line on why.

ghost use Rattle.std.specs.Prelude.{◌≡◌, ◌++◌, ◌∷◌, [], IfOk, List, OnOk};
ghost use Rattle.omf_find.specs.Gathered.{Adds, AreTaken, IsTakenOf, Sourced};

use crate::part::after;
use crate::source::name_of;
use omf_check::{Checked, Profile};
use omf_frame::{Framer, Place, is_header};
use omf_host::put_quoted;
use omf_library::{LibraryFault, Span, SpanFault, read_header, spans_in};
use omf_making::{Judgement, Refusal, judge_taken};
use std::alloc::{AllocError, Global};
use std::fmt::Write;

/// The type of the record that a library begins with.
const LIBRARY: u8 = 0xF0;

/// Where a module comes from: the number of its file, and its number in the file, each from 0.
#[derive(Clone, Copy)]
pub struct Origin {
    pub file: usize,
    pub member: usize,
}

/// The modules of files, each with its origin, and a line for each part of the files that is left out.
#[derive(Drop)]
pub struct Gathered {
    pub modules: Vec<Checked>,
    pub origins: Vec<Origin>,
    pub left_out: String,
    /// It frames the records of each module, so that its memory is taken once.
    framer: Framer,
}

/// Appends what is left out: `left out: file NAME`.
fn put_head(text: &mut String, name: &str) -> Result<(), AllocError> {
    text.push_str("left out: file ")?;
    put_quoted(text, name.as_bytes())
}

/// Appends the line of a member that is refused.
fn put_refused(
    text: &mut String,
    name: &str,
    member: usize,
    bytes: &[u8],
    why: Refusal,
) -> Result<(), AllocError> {
    let Refusal { reason, place } = why;
    let code = reason.number();
    let reason = reason.name();
    let Place {
        number,
        start,
        within,
    } = place;
    put_head(text, name)?;
    write!(text, " member {member} ")?;
    put_quoted(text, name_of(bytes))?;
    write!(
        text,
        ", refused {code} {reason} record {number} at {start} within {within}\n"
    )
}

/// Appends the line of what follows the last member of a library.
fn put_end(text: &mut String, name: &str, fault: SpanFault) -> Result<(), AllocError> {
    let (offset, what) = match fault {
        SpanFault::NoMember { offset, .. } => (offset, "no member and no end of the library"),
        SpanFault::MemberCut { offset, .. } => (offset, "a record that is cut"),
        SpanFault::NoEnd { offset, .. } => (offset, "the end of the file in a library"),
    };
    put_head(text, name)?;
    write!(text, " from {offset} on, {what}\n")
}

/// Appends the line of a file that begins as a library and is none.
fn put_no_library(text: &mut String, name: &str, fault: LibraryFault) -> Result<(), AllocError> {
    put_head(text, name)?;
    write!(text, ", no library: {fault}\n")
}

/// Appends the line of what is no module in a file.
fn put_rest(text: &mut String, name: &str, offset: usize) -> Result<(), AllocError> {
    put_head(text, name)?;
    write!(text, " from {offset} on, neither a module nor padding\n")
}

/// Bytes without those of this value at their front.
fn without(bytes: &[u8], value: u8) -> &[u8] {
    let mut left = bytes;
    while let Some((first, rest)) = left.split_first() {
        if *first != value {
            return left;
        }
        left = rest;
    }
    left
}

/// Bytes without the padding at their front: bytes of one value, 00H or 1AH.
fn unpadded(bytes: &[u8]) -> &[u8] {
    match bytes {
        [0x00, ..] => without(bytes, 0x00),
        [0x1A, ..] => without(bytes, 0x1A),
        _ => bytes,
    }
}

impl Gathered {
    /// No modules.
    pub fn new(alloc: Global) -> Gathered {
        Gathered {
            modules: Vec::new(alloc),
            origins: Vec::new(alloc),
            left_out: String::new(alloc),
            framer: Framer::new(alloc),
        }
    }

    /// Takes memory for this many modules more.
    fn reserve(&mut self, count: usize) -> Result<(), AllocError>
        ensures modules { OnOk result (self.new.modules.items ≡ self.old.modules.items) }
        ensures origins { OnOk result (self.new.origins.items ≡ self.old.origins.items) }
    {
        self.origins.reserve(count)?;
        self.modules.reserve(count)?;
        Ok(())
    }

    /// Takes a module.
    fn push(&mut self, origin: Origin, module: Checked) -> Result<(), AllocError>
        ensures modules { OnOk result (self.new.modules.items ≡ self.old.modules.items ++ «module» ∷ []) }
        ensures origins { OnOk result (self.new.origins.items ≡ self.old.origins.items ++ origin ∷ []) }
    {
        self.origins.push(origin)?;
        self.modules.push(module)?;
        Ok(())
    }

    /// Takes the module that bytes begin with, or appends why it is left out. Returns the module's length, if it is taken.
    fn take(
        &mut self,
        profile: Profile,
        origin: Origin,
        name: &str,
        bytes: &[u8],
    ) -> Result<Option<usize>, AllocError>
        ensures { OnOk result ((own : List Sourced) × IsTakenOf profile origin bytes.now own × Adds self.old self.new own) }
    {
        let alloc = *self.left_out.allocator();
        match judge_taken(alloc, &mut self.framer, profile, bytes)? {
            Judgement::Taken(taken) => {
                let length = taken.length;
                self.push(origin, taken.module)?;
                Ok(Some(length))
            }
            Judgement::Refused(why) => {
                put_refused(&mut self.left_out, name, origin.member, bytes, why)?;
                Ok(None)
            }
        }
    }

    /// Takes the members of a library.
    fn take_members(
        &mut self,
        profile: Profile,
        file: usize,
        name: &str,
        members: &[Span<'_>],
    ) -> Result<(), AllocError>
        ensures { OnOk result ((own : List Sourced) × AreTaken profile file 0 members.now own × Adds self.old self.new own) }
    {
        for (member, span) in members.iter().enumerate() {
            let origin = Origin { file, member };
            let _ = self.take(profile, origin, name, span.bytes)?;
        }
        Ok(())
    }

    /// Takes the members of a file that begins as a library.
    fn take_library(
        &mut self,
        profile: Profile,
        file: usize,
        name: &str,
        bytes: &[u8],
    ) -> Result<(), AllocError> {
        let alloc = *self.left_out.allocator();
        match read_header(bytes) {
            Ok(header) => {
                let spans = spans_in(alloc, bytes, header.page as usize)?;
                self.reserve(spans.members.len())?;
                self.take_members(profile, file, name, &spans.members)?;
                match spans.end {
                    Ok(_) => Ok(()),
                    Err(fault) => put_end(&mut self.left_out, name, fault),
                }
            }
            Err(fault) => put_no_library(&mut self.left_out, name, fault),
        }
    }

    /// Takes the modules of a file, each with the padding after it, up to the first that is refused.
    fn take_modules(
        &mut self,
        profile: Profile,
        file: usize,
        name: &str,
        bytes: &[u8],
    ) -> Result<(), AllocError> {
        let mut rest = bytes;
        for member in 0..usize::MAX {
            let origin = Origin { file, member };
            let Some(length) = self.take(profile, origin, name, rest)? else {
                return Ok(());
            };
            rest = unpadded(after(length, rest));
            match rest {
                [] => return Ok(()),
                [kind, ..] if is_header(*kind) => {}
                _ => {
                    let offset = bytes.len().saturating_sub(rest.len());
                    return put_rest(&mut self.left_out, name, offset);
                }
            }
        }
        Ok(())
    }

    /// Takes the modules of a file, or the members of a library.
    ///
    /// # Errors
    ///
    /// `AllocError` if memory runs out.
    pub fn take_file(
        &mut self,
        profile: Profile,
        file: usize,
        name: &str,
        bytes: &[u8],
    ) -> Result<(), AllocError> {
        match bytes {
            [first, ..] if *first == LIBRARY => self.take_library(profile, file, name, bytes),
            _ => self.take_modules(profile, file, name, bytes),
        }
    }
}
