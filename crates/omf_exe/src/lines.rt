//! Lines of faults of programs, by the names of files, modules and segments.

ghost use Rattle.std.specs.Prelude.{◌≡◌, ◌++◌, IfOk, IfSome, codes, decimal, is_some, slice_get, string_bytes};
ghost use Rattle.omf_frame.specs.Bytes.{AddsText};
ghost use Rattle.omf_check.specs.Module.{recs_of};
ghost use Rattle.omf_exe.specs.Listing.{file_text, member_text, origin_at, title_text};
ghost use Rattle.omf_exe.specs.Refusing.{AreTwiceLines, HaveNamesTwice};

use crate::clashing::put_clashes;
use crate::input::{Origin, is_library};
use crate::ordering::OrderingFault;
use crate::sharing::SharingFault;
use omf_aliases::{FollowingFault, circle_lines};
use omf_check::{Checked, entry_of};
use omf_cmd::{RunFault, fault_line};
use omf_combining::CodePart;
use omf_externals::{put_own, repeated_text, unresolved_text};
use omf_frame::Place;
use omf_layout::own::{CommunalReason, CommunalsFault, OrderFault};
use omf_library::LibraryFault;
use omf_lines::{
    Labeled, high_line, miss_of, put_owner, put_part, put_stray, reach_line, starts_line,
};
use omf_linking::InputFile;
use omf_linking::locator::module_name;
use omf_linking::space::Owner;
use omf_output::exe::{ComFault, ExeFault, FarAddress};
use omf_output::near::Stray;
use omf_output::stacks::Interval;
use omf_placement::{DeriveFault, Placement};
use omf_reloc::{Cause, ReachFault};
use omf_text::print_quoted;
use omf_warnings::{FarMember, Finding, Range, put_line, put_range};
use std::alloc::{AllocError, Global};
use std::fmt::Write;

/// The line of segments that end too high.
const TOO_HIGH: &str = "the program ends after 1048576";

/// What is wrong with an offset in a frame that is not the segment of a .COM file.
const OTHER_FRAME: &str =
    ": counts from another frame: a .COM file has one segment, put code and data in one group";

/// What a linker finds in the modules of a program.
#[derive(Clone, Copy)]
pub(crate) enum Found {
    /// Two parts of one segment, of which one is 16-bit and the other 32-bit.
    Mixed(CodePart, CodePart),
    /// A segment, or a member of a group, that ends too far from its frame.
    Long(FarMember),
    /// A near reference into another frame.
    Near(Stray),
    /// A segment between the parts of the stack.
    Between(Interval),
}

/// A program's modules with their origins, and the files.
#[derive(Clone, Copy)]
pub(crate) struct Origins<'a> {
    pub(crate) files: &'a [InputFile],
    pub(crate) modules: &'a [Checked],
    pub(crate) from: &'a [Option<Origin>],
}

/// Appends a file's name: `file "NAME"`.
fn put_file(text: &mut String, files: &[InputFile], file: usize) -> Result<(), AllocError>
    ensures { AddsText result (string_bytes text.old) (string_bytes text.new) (file_text files.now file) }
{
    text.push_str("file ")?;
    match files.get(file) {
        Some(file) => print_quoted(text, file.name()),
        None => text.push_str("-"),
    }
}

/// Appends a module, by its number in its file, from 1: `file "NAME" module 1`.
pub(crate) fn put_origin(
    text: &mut String,
    files: &[InputFile],
    file: usize,
    module: u64,
) -> Result<(), AllocError>
    ensures { AddsText result (string_bytes text.old) (string_bytes text.new) (file_text files.now file ++ codes " module " ++ decimal «module») }
{
    put_file(text, files, file)?;
    write!(text, " module {module}")
}

/// Where the module of a number comes from, from 1; one that the linker added has no origin.
pub(crate) fn origin_at(from: &[Option<Origin>], number: usize) -> Option<Origin>
    ensures { result ≡ origin_at from.now number }
{
    entry_of(from, number)?
}

/// Appends the name of a module after its number in its file, if that is a library: ` "NAME"`.
fn put_member(
    text: &mut String,
    files: &[InputFile],
    file: usize,
    module: &Checked,
) -> Result<(), AllocError>
    ensures { AddsText result (string_bytes text.old) (string_bytes text.new) (member_text (slice_get files.now file) (recs_of «module».now.bytes)) }
{
    match files.get(file) {
        Some(file) if is_library(file.bytes()) => {
            text.push_str(" ")?;
            print_quoted(text, module_name(module))
        }
        _ => Ok(()),
    }
}

/// Appends what a module is called: its origin, and its name if it is a member of a library; without an origin its name.
pub(crate) fn put_title(
    text: &mut String,
    files: &[InputFile],
    from: Option<Origin>,
    module: &Checked,
) -> Result<(), AllocError>
    ensures { AddsText result (string_bytes text.old) (string_bytes text.new) (title_text files.now from (recs_of «module».now.bytes)) }
{
    match from {
        Some(origin) => {
            put_origin(text, files, origin.file, origin.number as u64)?;
            put_member(text, files, origin.file, module)
        }
        None => print_quoted(text, module_name(module)),
    }
}

impl<'a> Origins<'a> {
    /// What each module of the program is called.
    fn labels(&self, alloc: Global) -> Result<Vec<String>, AllocError> {
        let mut labels = Vec::new(alloc);
        for (before, module) in self.modules.iter().enumerate() {
            let mut label = String::new(alloc);
            let from = origin_at(self.from, before.saturating_add(1));
            put_title(&mut label, self.files, from, module)?;
            labels.push(label)?;
        }
        Ok(labels)
    }

    /// The lines of the names that more than one public has, in ascending order, and after them those of the COMDATs that are not left out; none if there are no such names.
    /// Out of memory if there are 2^32 modules or more.
    pub(crate) fn repeated_lines(&self, alloc: Global) -> Result<Option<String>, AllocError>
        ensures found { IfOk result (λ lines. HaveNamesTwice self.now.modules.now (is_some lines)) }
        ensures lines { IfOk result (λ lines. IfSome lines (λ text. AreTwiceLines self.now.modules.now (string_bytes text))) }
    {
        if self.modules.len() > u32::MAX as usize {
            return Err(AllocError);
        }
        let numbered = repeated_text(alloc, &[], self.modules)?;
        if numbered.is_empty() {
            return Ok(None);
        }
        let labels = self.labels(alloc)?;
        let mut lines = repeated_text(alloc, &labels, self.modules)?;
        put_clashes(alloc, &mut lines, &labels, self.modules)?;
        Ok(Some(lines))
    }

    /// The line of what a linker finds.
    pub(crate) fn found_line(&self, alloc: Global, found: Found) -> Result<String, AllocError> {
        let labels = self.labels(alloc)?;
        let named = Labeled {
            labels: &labels,
            modules: self.modules,
        };
        let mut text = String::new(alloc);
        put_found(&mut text, named, found)?;
        Ok(text)
    }

    /// The lines of the names that no module or more than one defines, of the COMDATs that are not left out, and of circles of aliases.
    pub(crate) fn undefined_lines(&self, alloc: Global) -> Result<String, AllocError> {
        let labels = self.labels(alloc)?;
        let named = Labeled {
            labels: &labels,
            modules: self.modules,
        };
        let mut lines = unresolved(alloc, named)?;
        lines.push_str(circle_lines(alloc, self.modules)?.as_str())?;
        Ok(lines)
    }

    /// The lines of externals without a place.
    pub(crate) fn external_lines(
        &self,
        alloc: Global,
        fault: DeriveFault,
    ) -> Result<String, AllocError> {
        let labels = self.labels(alloc)?;
        let named = Labeled {
            labels: &labels,
            modules: self.modules,
        };
        external_lines(alloc, named, fault)
    }

    /// The line of a fault of the modules at these placements.
    pub(crate) fn fault_line(
        &self,
        alloc: Global,
        placements: &[Placement],
        fault: ComFault,
    ) -> Result<String, AllocError> {
        let labels = self.labels(alloc)?;
        let named = Labeled {
            labels: &labels,
            modules: self.modules,
        };
        com_line(alloc, named, placements, fault)
    }
}

/// Appends a segment, and whether it is 16-bit or 32-bit.
fn put_code_part(text: &mut String, named: Labeled<'_>, part: CodePart) -> Result<(), AllocError> {
    let owner = Owner {
        module: part.module,
        segment: part.segment,
    };
    put_owner(text, named, owner)?;
    text.push_str(if part.is_use32 {
        " is 32-bit"
    } else {
        " is 16-bit"
    })
}

/// Appends the line of what a linker finds.
fn put_found(text: &mut String, named: Labeled<'_>, found: Found) -> Result<(), AllocError> {
    match found {
        Found::Mixed(first, second) => {
            text.push_str("mixed: ")?;
            put_code_part(text, named, first)?;
            text.push_str(", ")?;
            put_code_part(text, named, second)?;
            text.push_str("\n")
        }
        Found::Long(far) => put_line(text, named, Finding::Group(far)),
        Found::Near(stray) => put_stray(text, named, stray),
        Found::Between(part) => {
            text.push_str("stack: ")?;
            put_range(text, named, range_of(part))?;
            text.push_str(" is between its parts\n")
        }
    }
}

/// A segment and its addresses, as lines show them.
fn range_of(found: Interval) -> Range {
    Range {
        owner: Owner {
            module: found.module,
            segment: found.segment,
        },
        first: found.first.min(u128::from(u32::MAX)) as u32,
        end: found.end,
    }
}

/// A line of these words.
fn line(alloc: Global, words: &str) -> Result<String, AllocError> {
    let mut text = String::new(alloc);
    text.push_str(words)?;
    text.push('\n')?;
    Ok(text)
}

/// The line of modules that have no room.
pub(crate) fn too_high_line(alloc: Global) -> Result<String, AllocError> {
    line(alloc, TOO_HIGH)
}

/// The line of a part of a module, with what is wrong with it.
fn part_line(
    alloc: Global,
    named: Labeled<'_>,
    module: u32,
    place: Place,
    what: &str,
) -> Result<String, AllocError> {
    let mut text = String::new(alloc);
    put_part(&mut text, named, module, place, what)?;
    text.push('\n')?;
    Ok(text)
}

/// The line of a module, with what is wrong with it.
fn module_line(
    alloc: Global,
    named: Labeled<'_>,
    module: u32,
    what: &str,
) -> Result<String, AllocError> {
    let mut text = String::new(alloc);
    put_own(&mut text, named.labels, module)?;
    text.push_str(what)?;
    text.push('\n')?;
    Ok(text)
}

/// The lines of the names that no module or more than one defines, and of the COMDATs that are not left out. Out of memory if there are 2^32 modules or more.
fn unresolved(alloc: Global, named: Labeled<'_>) -> Result<String, AllocError> {
    if named.modules.len() > u32::MAX as usize {
        return Err(AllocError);
    }
    let mut lines = unresolved_text(alloc, named.labels, named.modules, &[])?;
    put_clashes(alloc, &mut lines, named.labels, named.modules)?;
    Ok(lines)
}

/// The lines of externals without a place: one for each name that no module or more than one defines; or that of an address too high.
fn external_lines(
    alloc: Global,
    named: Labeled<'_>,
    fault: DeriveFault,
) -> Result<String, AllocError> {
    match fault {
        DeriveFault::Memory => line(alloc, "memory"),
        DeriveFault::Undefined { .. } | DeriveFault::Twice { .. } => unresolved(alloc, named),
        DeriveFault::TooHigh { module, external } => high_line(alloc, named, module, external),
    }
}

/// By how many bytes a reference of a module at its placement does not fit; none if that is not known.
fn miss_in(
    modules: &[Checked],
    placements: &[Placement],
    module: u32,
    place: Place,
    cause: Cause,
) -> Option<u64> {
    let number = module as usize;
    miss_of(modules.get(number)?, placements.get(number)?, place, cause)
}

/// A line with the number of bytes that a reference misses by.
fn with_miss(alloc: Global, line: &str, bytes: u64) -> Result<String, AllocError> {
    let (front, _) = line.split_once('\n').unwrap_or((line, ""));
    let mut text = String::new(alloc);
    write!(text, "{front}, {bytes} bytes too far\n")?;
    Ok(text)
}

/// The line of a module that does not reach, and by how much. A location that is not in the frame of its target is one of a near reference into another frame.
fn far_line(
    alloc: Global,
    named: Labeled<'_>,
    placements: &[Placement],
    module: u32,
    fault: ReachFault,
) -> Result<String, AllocError> {
    let ReachFault::TooFar {
        number,
        within,
        cause,
    } = fault
    else {
        return reach_line(alloc, named, module, fault);
    };
    let place = Place {
        number,
        start: 0,
        within,
    };
    if matches!(cause, Cause::Location) {
        let mut text = String::new(alloc);
        put_stray(&mut text, named, Stray { module, place })?;
        return Ok(text);
    }
    let line = reach_line(alloc, named, module, fault)?;
    match miss_in(named.modules, placements, module, place, cause) {
        Some(bytes) => with_miss(alloc, &line, bytes),
        None => Ok(line),
    }
}

/// The line of a fault of the modules at their placements.
fn exe_line(
    alloc: Global,
    named: Labeled<'_>,
    placements: &[Placement],
    fault: ExeFault,
) -> Result<String, AllocError> {
    match fault {
        ExeFault::Memory => line(alloc, "memory"),
        ExeFault::Reach { module, fault } => far_line(alloc, named, placements, module, fault),
        ExeFault::Movers { module } => module_line(alloc, named, module, " movers"),
        ExeFault::Stays { module, place } => {
            part_line(
                alloc,
                named,
                module,
                place,
                ": does not move with the program",
            )
        }
        ExeFault::NoStart => line(alloc, "no start: no main module names one"),
        ExeFault::Starts { first, second } => starts_line(alloc, named.labels, first, second),
        ExeFault::FarStart { module } => {
            module_line(alloc, named, module, " start: its offset is over 65535")
        }
        ExeFault::TooHigh => line(alloc, TOO_HIGH),
        ExeFault::FarStack => line(alloc, "the end of the stack is not in its frame"),
        ExeFault::Overlap { module, place } => {
            part_line(alloc, named, module, place, ": overlaps a relocation word")
        }
        ExeFault::TooMany => line(alloc, "more than 65535 relocation words"),
    }
}

/// The line of a start that is not that of a .COM file.
fn start_line(alloc: Global, start: FarAddress) -> Result<String, AllocError> {
    let FarAddress { selector, offset } = start;
    let mut text = String::new(alloc);
    write!(
        text,
        "the start is {selector:04X}:{offset:04X}, in a .COM file it is 0000:0100\n"
    )?;
    Ok(text)
}

/// The line of a program that has no room in the segment of a .COM file.
fn long_line(alloc: Global, end: u64, stack: u64) -> Result<String, AllocError> {
    let mut text = String::new(alloc);
    write!(
        text,
        "the program ends at {end}, and its stack needs {stack} bytes: a .COM file has room up to 65534\n"
    )?;
    Ok(text)
}

/// The line of a fault of the modules at their placements; those of an .EXE program are among those of a .COM program.
fn com_line(
    alloc: Global,
    named: Labeled<'_>,
    placements: &[Placement],
    fault: ComFault,
) -> Result<String, AllocError> {
    match fault {
        ComFault::Memory => line(alloc, "memory"),
        ComFault::Exe(fault) => exe_line(alloc, named, placements, fault),
        ComFault::Start(start) => start_line(alloc, start),
        ComFault::Low { module, place } => {
            part_line(
                alloc,
                named,
                module,
                place,
                ": data below 100H, where a .COM file begins",
            )
        }
        ComFault::Words { module, place } => {
            part_line(
                alloc,
                named,
                module,
                place,
                ": a .COM file has no relocation words",
            )
        }
        ComFault::Frame { module, place } => part_line(alloc, named, module, place, OTHER_FRAME),
        ComFault::TooLong { end, stack } => long_line(alloc, end, stack),
    }
}

/// Appends what is wrong with a library.
fn put_library(
    alloc: Global,
    text: &mut String,
    files: &[InputFile],
    file: usize,
    fault: LibraryFault,
) -> Result<(), AllocError> {
    if let LibraryFault::Refused {
        member,
        reason,
        place,
        ..
    } = fault
    {
        put_origin(text, files, file, member.saturating_add(1))?;
        text.push_str(" ")?;
        return text.push_str(fault_line(alloc, &RunFault::Refused { reason, place })?.as_str());
    }
    put_file(text, files, file)?;
    write!(text, " library: {fault}")
}

/// The line of a file that begins with F0H and is no library.
pub(crate) fn library_line(
    alloc: Global,
    files: &[InputFile],
    file: usize,
    fault: LibraryFault,
) -> Result<String, AllocError> {
    let mut text = String::new(alloc);
    put_library(alloc, &mut text, files, file, fault)?;
    text.push('\n')?;
    Ok(text)
}

/// Appends what is wrong with communals.
fn put_communals(text: &mut String, fault: &CommunalsFault<'_>) -> Result<(), AllocError> {
    match fault {
        CommunalsFault::Communal { name, reason } => {
            text.push_str("communal ")?;
            print_quoted(text, name)?;
            text.push_str(match reason {
                CommunalReason::Mixed => ": near in one module and far in another",
                CommunalReason::TooLong => ": more than 4294967295 bytes",
            })
        }
        CommunalsFault::TooMany => text.push_str("communals: more than 32766"),
        CommunalsFault::TooLarge => text.push_str(
            "communals: more than 4294967295 bytes of near ones",
        ),
        CommunalsFault::Memory => text.push_str("memory"),
    }
}

/// The line of communals that are not shared.
pub(crate) fn sharing_line(alloc: Global, fault: &SharingFault<'_>) -> Result<String, AllocError> {
    let mut text = String::new(alloc);
    match fault {
        SharingFault::Communals(fault) => put_communals(&mut text, fault)?,
        SharingFault::Refused { reason, place } => {
            text.push_str("communals ")?;
            let refused = RunFault::Refused {
                reason: *reason,
                place: *place,
            };
            text.push_str(fault_line(alloc, &refused)?.as_str())?;
        }
    }
    text.push('\n')?;
    Ok(text)
}

/// The line of modules that are not put in DOS order.
pub(crate) fn ordering_line(alloc: Global, fault: OrderingFault) -> Result<String, AllocError> {
    let mut text = String::new(alloc);
    match fault {
        OrderingFault::Order(OrderFault::TooMany) => text.push_str(
            "order: more than 16383 segments of different classes or names",
        )?,
        OrderingFault::Order(OrderFault::Memory) => text.push_str("memory")?,
        OrderingFault::Refused { reason, place } => {
            text.push_str("order ")?;
            text.push_str(fault_line(alloc, &RunFault::Refused { reason, place })?.as_str())?;
        }
    }
    text.push('\n')?;
    Ok(text)
}

/// The line of the fault of modules whose aliases are not followed.
pub(crate) fn following_line(alloc: Global, fault: FollowingFault) -> Result<String, AllocError> {
    let mut text = String::new(alloc);
    match fault {
        FollowingFault::Memory => text.push_str("memory")?,
        FollowingFault::TooMany => {
            text.push_str("aliases: more than 32767 externals in a module")?
        }
        FollowingFault::Refused { reason, place } => {
            text.push_str("aliases ")?;
            text.push_str(fault_line(alloc, &RunFault::Refused { reason, place })?.as_str())?;
        }
    }
    text.push('\n')?;
    Ok(text)
}
