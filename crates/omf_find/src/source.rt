//! Where modules come from, in a line of a map.

ghost use Rattle.std.specs.Prelude.{◌≡◌, map, option_map, slice_get, string_bytes};
ghost use Rattle.omf_frame.specs.Bytes.{AddsText};
ghost use Rattle.omf_check.specs.Module.{recs_of};
ghost use Rattle.omf_find.specs.Origin.{class_text, file_text, member_text, name_of, names_text, origin_text, segment_text, text_of_module};

use crate::fields::{Format, name, number};
use crate::part::first;
use crate::reading::{Gathered, Origin};
use omf_check::{Checked, SegInfo};
use omf_frame::Name;
use std::alloc::AllocError;

/// The modules, with the names of their files.
#[derive(Clone, Copy)]
pub struct Source<'a> {
    /// The names of the files.
    pub files: &'a [String],
    pub gathered: &'a Gathered,
}

/// The name in the first record of a module, which is a THEADR or an LHEADR.
pub fn name_of(module: &[u8]) -> &[u8]
    ensures { result.now ≡ name_of «module».now }
{
    match module {
        [_, _, _, length, rest @ ..] => first(usize::from(*length), rest),
        _ => &[],
    }
}

/// Appends a file and the number of a module in it, from 0.
fn put_member(
    text: &mut Vec<u8>,
    format: Format,
    file: Option<&String>,
    member: usize,
) -> Result<(), AllocError>
    ensures { AddsText result text.old.items text.new.items (member_text format (option_map (λ s. string_bytes s.now) file.entry) member) }
{
    match file {
        Some(file) => {
            name(text, format, "file", file.as_bytes())?;
            number(text, format, "member", member as u64)
        }
        None => Ok(()),
    }
}

/// Appends the file of an origin, and the number in it.
fn put_file(
    text: &mut Vec<u8>,
    format: Format,
    files: &[String],
    origin: Option<&Origin>,
) -> Result<(), AllocError>
    ensures { AddsText result text.old.items text.new.items (file_text format (map string_bytes files.now) (option_map (λ o. o.now) origin.entry)) }
{
    match origin {
        Some(origin) => put_member(text, format, files.get(origin.file), origin.member),
        None => Ok(()),
    }
}

/// Appends the name of a module.
fn put_module(
    text: &mut Vec<u8>,
    format: Format,
    module: Option<&Checked>,
) -> Result<(), AllocError>
    ensures { AddsText result text.old.items text.new.items (text_of_module format (option_map (λ m. m.now) «module».entry)) }
{
    match module {
        Some(module) => name(text, format, "module", name_of(module.bytes())),
        None => Ok(()),
    }
}

/// Appends a name under a key, if there is one.
pub fn put_own(
    text: &mut Vec<u8>,
    format: Format,
    key: &str,
    own: Option<Name<'_>>,
) -> Result<(), AllocError>
    ensures { AddsText result text.old.items text.new.items (class_text format key.now own.entry) }
{
    match own {
        Some(own) => name(text, format, key, own.0),
        None => Ok(()),
    }
}

/// Appends the name and the class of a segment, if it has these.
fn put_names(
    text: &mut Vec<u8>,
    format: Format,
    module: &Checked,
    segment: Option<SegInfo>,
) -> Result<(), AllocError>
    ensures { AddsText result text.old.items text.new.items (names_text format (recs_of «module».now.bytes) segment) }
{
    match segment {
        Some(segment) => {
            put_own(text, format, "name", module.name(segment.name))?;
            put_own(text, format, "class", module.name(segment.class))
        }
        None => Ok(()),
    }
}

impl<'a> Source<'a> {
    /// The modules.
    pub fn modules(&self) -> &'a [Checked]
        ensures { result.now ≡ self.now.gathered.now.modules.items }
    {
        &self.gathered.modules
    }

    /// The module of a number.
    pub fn module(&self, number: usize) -> Option<&'a Checked>
        ensures { option_map (λ m. m.now) result ≡ slice_get self.now.gathered.now.modules.items number }
    {
        self.gathered.modules.get(number)
    }

    /// The origin of the module of a number.
    fn origin(&self, number: usize) -> Option<&'a Origin>
        ensures { option_map (λ o. o.now) result ≡ slice_get self.now.gathered.now.origins.items number }
    {
        self.gathered.origins.get(number)
    }

    /// Appends where a module comes from: its file, its number in it from 0, and its name.
    pub fn put_origin(
        &self,
        text: &mut Vec<u8>,
        format: Format,
        module: usize,
    ) -> Result<(), AllocError>
        ensures { AddsText result text.old.items text.new.items (origin_text format (map string_bytes self.now.files.now) self.now.gathered.now «module») }
    {
        put_file(text, format, self.files, self.origin(module))?;
        put_module(text, format, self.module(module))
    }

    /// Appends the index of a segment, its name and its class.
    pub fn put_segment(
        &self,
        text: &mut Vec<u8>,
        format: Format,
        module: usize,
        index: u16,
    ) -> Result<(), AllocError>
        ensures { AddsText result text.old.items text.new.items (segment_text format self.now.gathered.now «module» index) }
    {
        number(text, format, "index", u64::from(index))?;
        match self.module(module) {
            Some(module) => put_names(text, format, module, module.segment(index)),
            None => Ok(()),
        }
    }
}
