//! The names of modules and of the entries of their tables, and how a key has them (this profile's rule).

ghost use Rattle.std.specs.Prelude.{◌≡◌, ◌<◌, ◌≤◌, ◌++◌, IfOk, OnOk, flat_map, option_map, true};
ghost use Rattle.std.specs.Fmt.{digit_glyph};
ghost use Rattle.omf_records.specs.Inner.Seen.{contents_seen};
ghost use Rattle.omf_check.specs.Module.{recs_of};
ghost use Rattle.omf_placement.specs.Quoted.{escaped, is_plain};
ghost use Rattle.omf_reloc.specs.Reach.{entries};
ghost use Rattle.omf_reloc.specs.declared.fault.Kind.TheVariants.{Group};
ghost use Rattle.omf_linking.specs.Locator.Keys.{class_name, entry_name, header_name, module_name};
ghost use Rattle.omf_linking.specs.Inner.KeyTables.{written};

use omf_check::Checked;
use omf_frame::Name;
use omf_records::Rec;
use omf_reloc::Kind;
use std::alloc::{AllocError, Global};

/// The hexadecimal digits.
const DIGITS: &[u8; 16] = b"0123456789ABCDEF";

/// Returns the name in a THEADR or an LHEADR.
fn header_name<'a>(rec: &Rec<'a>) -> &'a [u8]
    ensures { result.now ≡ header_name (contents_seen rec.now) }
{
    let Rec::Header { name, .. } = rec else {
        return &[];
    };
    name.0
}

/// Returns the name of a module: that of its first record, a THEADR or an LHEADR.
pub fn module_name(module: &Checked) -> &[u8]
    ensures { result.now ≡ module_name (recs_of «module».now.bytes) }
{
    match module.records().next() {
        Some((_, rec)) => header_name(&rec),
        None => &[],
    }
}

/// Returns the name of a group.
fn group_name(module: &Checked, index: u16) -> Option<Name<'_>>
    ensures { result ≡ entry_name (recs_of «module».now.bytes) Group index }
{
    let Rec::Group { name, .. } = module.group(index)? else {
        return None;
    };
    module.name(name.item.0)
}

/// Returns the name of the segment, group or external with this index, from 1. `None` if there is no such entry, or its name index is 0.
pub fn entry_name(module: &Checked, kind: Kind, index: u16) -> Option<Name<'_>>
    ensures { result ≡ entry_name (recs_of «module».now.bytes) kind index }
{
    match kind {
        Kind::Segment => module.name(module.segment(index)?.name),
        Kind::Group => group_name(module, index),
        Kind::External => module.external(index),
    }
}

/// Returns the name of a segment's class. `None` if there is no such segment, or its class index is 0.
pub fn class_name(module: &Checked, index: u16) -> Option<Name<'_>>
    ensures { result ≡ class_name (recs_of «module».now.bytes) index }
{
    module.name(module.segment(index)?.class)
}

/// Returns the number of segments, groups or externals of a module.
pub fn entry_count(module: &Checked, kind: Kind) -> u16
    ensures count { result ≡ entries (recs_of «module».now.bytes) kind }
    ensures bounded { result ≤ 32767 }
{
    match kind {
        Kind::Segment => module.segments(),
        Kind::Group => module.groups(),
        Kind::External => module.externals(),
    }
}

/// Returns whether a byte of a name is written as itself.
fn is_plain(byte: u8) -> bool
    ensures { result ≡ is_plain byte }
{
    byte >= 0x20 && byte <= 0x7E && byte != b'"' && byte != b'\\'
}

/// Returns the hexadecimal digit of a number below 16.
fn digit(number: u8) -> u8
    requires { number < 16 }
    ensures { result ≡ digit_glyph true number }
{
    DIGITS[usize::from(number)]
}

/// Appends a byte of a name as it is written in quotes.
fn put_byte(text: &mut Vec<u8>, byte: u8) -> Result<(), AllocError>
    ensures { OnOk result (text.new.items ≡ text.old.items ++ escaped byte) }
{
    if is_plain(byte) {
        text.push(byte)?;
        return Ok(());
    }
    let digits = [b'\\', b'x', digit(byte / 16), digit(byte % 16)];
    text.extend_from_slice(&digits)?;
    Ok(())
}

/// Returns a name as it is written in quotes, without these.
pub(crate) fn spelled(alloc: Global, name: &[u8]) -> Result<Vec<u8>, AllocError>
    ensures { IfOk result (λ text. text.items ≡ flat_map escaped name.now) }
{
    let mut text = Vec::new(alloc);
    for byte in name {
        put_byte(&mut text, *byte)?;
    }
    Ok(text)
}

/// Returns a name as it is written in quotes, if there is one.
pub(crate) fn written(alloc: Global, name: Option<Name<'_>>) -> Result<Option<Vec<u8>>, AllocError>
    ensures { IfOk result (λ text. option_map (λ t. t.items) text ≡ written name.entry) }
{
    match name {
        Some(name) => {
            let text = spelled(alloc, name.0)?;
            Ok(Some(text))
        }
        None => Ok(None),
    }
}
