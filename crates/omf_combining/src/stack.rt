//! The module that gives the stack of a program its length.

ghost use Rattle.std.specs.Prelude.{◌≡◌, ◌<◌, ◌≤◌, ◌^◌, ◌++◌, IfOk, OnOk, filter, flat_map, fold, length, map, option_map};
ghost use Rattle.omf_frame.specs.Bytes.{last};
ghost use Rattle.omf_check.specs.Module.{typed_modules};
ghost use Rattle.omf_layout.specs.Own.Written.{written};
ghost use Rattle.omf_layout.specs.Several.Portions.{name_at};
ghost use Rattle.omf_layout.specs.Own.Order.{module_at};
ghost use Rattle.omf_combining.specs.Stack.{attribute_of, even, is_stack_part, missing, more_records, next_part, part_records, stack_bytes, stack_length, stack_parts, with_part};

use omf_check::Checked;
use omf_frame::{Index, Name};
use omf_layout::own::records::{Segment, put_end, put_header, put_name, put_segment};
use omf_layout::own::stack_module;
use omf_layout::several::{Portion, runs_of};
use std::alloc::{AllocError, Global};

/// A length in bytes, rounded up to an even one: a stack has words.
pub fn even(size: u16) -> u32
    ensures { result ≡ even size }
{
    (u32::from(size) + 1) / 2 * 2
}

/// The attribute byte of a segment of modules; 0 if there is no such segment.
fn attribute_of(modules: &[Checked], portion: &Portion) -> u8
    ensures { result ≡ attribute_of (typed_modules modules.now) portion.now }
{
    let Some(module) = modules.get(portion.module as usize) else {
        return 0;
    };
    match module.attribute(portion.index) {
        Some(attribute) => attribute,
        None => 0,
    }
}

/// Whether a segment is a part of the stack (TIS OMF 1.1, "SEGDEF", C field: combination 5).
fn is_stack_part(modules: &[Checked], portion: &Portion) -> bool
    ensures { result ≡ is_stack_part (typed_modules modules.now) portion.now }
{
    portion.segment.absolute.is_none() && attribute_of(modules, portion) / 4 % 8 == 5
}

/// Appends those of segments that are parts of the stack.
fn add_parts(
    modules: &[Checked],
    run: &[Portion],
    parts: &mut Vec<Portion>,
) -> Result<(), AllocError>
    ensures { OnOk result (parts.new.items ≡ parts.old.items ++ filter (is_stack_part (typed_modules modules.now)) run.now) }
{
    for portion in run {
        if is_stack_part(modules, portion) {
            parts.push(*portion)?;
        }
    }
    Ok(())
}

/// The parts of the stack in runs of segments.
fn parts_in(
    alloc: Global,
    modules: &[Checked],
    runs: &[Vec<Portion>],
) -> Result<Vec<Portion>, AllocError>
    ensures { IfOk result (λ v. v.items ≡ flat_map (λ run. filter (is_stack_part (typed_modules modules.now)) run) (map (λ r. r.items) runs.now)) }
{
    let mut parts = Vec::new(alloc);
    for run in runs {
        add_parts(modules, run, &mut parts)?;
    }
    Ok(parts)
}

/// The parts of the stack of modules, in the order in which they are laid.
fn stack_parts(alloc: Global, modules: &[Checked]) -> Result<Vec<Portion>, AllocError>
    requires { length modules.now < 2 ^ 32 }
    ensures { IfOk result (λ v. v.items ≡ stack_parts (typed_modules modules.now)) }
{
    let runs = runs_of(alloc, modules)?;
    parts_in(alloc, modules, &runs)
}

/// The length of a stack with one more part, at its alignment. More than 65,536 bytes count as 65,536.
fn with_part(length: u64, part: &Portion) -> u64
    requires { length ≤ 65536 }
    ensures value { result ≡ with_part length part.now }
    ensures low { result ≤ 65536 }
{
    let alignment = u64::from(part.alignment.bytes());
    let from = (length + (alignment - 1)) / alignment * alignment;
    from.saturating_add(part.segment.length).min(65536)
}

/// The length of a stack of these parts in bytes.
fn stack_length(parts: &[Portion]) -> u64
    ensures value { result ≡ stack_length parts.now }
    ensures low { result ≤ 65536 }
{
    let mut length = 0;
    for part in parts {
        length = with_part(length, part);
    }
    length
}

/// The bytes that a stack of these parts lacks.
fn missing(parts: &[Portion], size: u16) -> u32
    ensures { result ≡ missing parts.now size }
{
    let own = stack_length(parts) as u32;
    let length = own.max(u32::from(size));
    (length + 1) / 2 * 2 - own
}

/// A part of the stack that is added: the names of its class and its own, its attribute byte, and its length in bytes.
#[derive(Drop)]
pub(crate) struct StackPart<'a> {
    pub(crate) class: Name<'a>,
    pub(crate) name: Name<'a>,
    pub(crate) attribute: u8,
    pub(crate) size: u32,
}

/// The name of an index in one of modules; the empty name for index 0.
pub(crate) fn name_in<'a>(modules: &'a [Checked], module: u32, index: u16) -> Name<'a>
    ensures { result ≡ name_at (module_at (typed_modules modules.entry.now) «module») index }
{
    let Some(module) = modules.get(module as usize) else {
        return Name(b"");
    };
    match module.name(index) {
        Some(name) => name,
        None => Name(b""),
    }
}

/// The part of this many bytes that follows another one directly.
fn next_part<'a>(modules: &'a [Checked], last: &Portion, size: u32) -> StackPart<'a>
    ensures { result ≡ next_part (typed_modules modules.entry.now) last.now size }
{
    StackPart {
        class: name_in(modules, last.module, last.segment.class),
        name: name_in(modules, last.module, last.segment.name),
        attribute: 0x34 + attribute_of(modules, last) % 2,
        size,
    }
}

/// The bytes of the module of a part.
fn part_module(alloc: Global, part: &StackPart<'_>) -> Result<Vec<u8>, AllocError>
    ensures { IfOk result (λ v. v.items ≡ written (part_records part.now)) }
{
    let mut out = Vec::new(alloc);
    put_header(alloc, &mut out, &Name(b"stack"))?;
    put_name(alloc, &mut out, &part.class)?;
    put_name(alloc, &mut out, &part.name)?;
    let segment = Segment {
        attribute: part.attribute,
        size: part.size,
        name: Index(2),
        class: Index(1),
    };
    put_segment(alloc, &mut out, &segment)?;
    put_end(&mut out)?;
    Ok(out)
}

/// The last of these parts.
fn last_of(parts: &[Portion]) -> Option<Portion>
    ensures { result ≡ last parts.now }
{
    let mut last = None;
    for part in parts {
        last = Some(*part);
    }
    last
}

/// The bytes of a module with `more` bytes of stack after a part, or of a stack of its own.
fn more_module(
    alloc: Global,
    modules: &[Checked],
    last: Option<Portion>,
    more: u32,
) -> Result<Vec<u8>, AllocError>
    ensures { IfOk result (λ v. v.items ≡ written (more_records (typed_modules modules.now) last more)) }
{
    match last {
        Some(part) => part_module(alloc, &next_part(modules, &part, more)),
        None => stack_module(alloc, more),
    }
}

/// The bytes of the module that makes the stack of modules one of `size` bytes or more, of an even number. If the modules have parts of the stack
/// (TIS OMF 1.1, "SEGDEF", C field: combination 5), it has the part after the last of them, with the names of its segment and its class and aligned to
/// bytes; else a segment `STACK` of class `STACK`. None if the stack is so without.
///
/// # Errors
///
/// `AllocError` if memory runs out.
pub fn stack_bytes(
    alloc: Global,
    modules: &[Checked],
    size: u16,
) -> Result<Option<Vec<u8>>, AllocError>
    requires { length modules.now < 2 ^ 32 }
    ensures { IfOk result (λ o. option_map (λ v. v.items) o ≡ stack_bytes (typed_modules modules.now) size) }
{
    let parts = stack_parts(alloc, modules)?;
    let more = missing(&parts, size);
    if more == 0 {
        return Ok(None);
    }
    let bytes = more_module(alloc, modules, last_of(&parts), more)?;
    Ok(Some(bytes))
}
