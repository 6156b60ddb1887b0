//! The records that give defaults to the externals of a module, and those of a module that asks for names.

ghost use Rattle.std.specs.Prelude.{◌≡◌, ◌+◌, ◌≤◌, ◌++◌, ◌∷◌, [], IfSome, OnOk, drop, length, map, take};
ghost use Rattle.omf_layout.specs.Own.Written.{framed, written};
ghost use Rattle.omf_aliases.specs.Aliases.{default_records, external_record, weak_record};
ghost use Rattle.omf_aliases.specs.Inner.Aliases.{IsSplit};

use crate::defaults::ExternalDefault;
use omf_check::{Checked, put_record, split_record};
use omf_frame::{Field, Index, Name};
use std::alloc::{AllocError, Global};

/// The type byte of a COMENT that other programs keep, and the class of weak externals.
const KEPT: u8 = 0x80;

const WEAK: u8 = 0xA8;

/// Appends an EXTDEF with one name (TIS OMF 1.1, "EXTDEF").
fn put_external(alloc: Global, out: &mut Vec<u8>, name: &Name<'_>) -> Result<(), AllocError>
    ensures { OnOk result (out.new.items ≡ out.old.items ++ framed (external_record name.now)) }
{
    let mut body = Vec::new(alloc);
    name.put(&mut body)?;
    Index(0).put(&mut body)?;
    put_record(out, 0x8C, &body)
}

/// Appends an EXTDEF for each of these names.
pub(crate) fn put_externals(
    alloc: Global,
    out: &mut Vec<u8>,
    names: &[Name<'_>],
) -> Result<(), AllocError>
    ensures { OnOk result (out.new.items ≡ out.old.items ++ written (map external_record names.now)) }
{
    for name in names {
        put_external(alloc, out, name)?;
    }
    Ok(())
}

/// Appends a COMENT that pairs a weak external with its default (TIS OMF 1.1, "COMENT", class A8H).
fn put_weak(alloc: Global, out: &mut Vec<u8>, weak: Index, default: Index) -> Result<(), AllocError>
    ensures { OnOk result (out.new.items ≡ out.old.items ++ framed (weak_record weak default)) }
{
    let mut body = Vec::new(alloc);
    body.push(KEPT)?;
    body.push(WEAK)?;
    weak.put(&mut body)?;
    default.put(&mut body)?;
    put_record(out, 0x88, &body)
}

/// Appends the records of a default, an external with this index.
fn put_default(
    alloc: Global,
    out: &mut Vec<u8>,
    default: &ExternalDefault<'_>,
    index: Index,
) -> Result<(), AllocError>
    ensures { OnOk result (out.new.items ≡ out.old.items ++ written (external_record default.now.name ∷ weak_record default.now.external index ∷ [])) }
{
    put_external(alloc, out, &default.name)?;
    put_weak(alloc, out, default.external, index)
}

/// Appends the records of defaults, in a module with `count` externals before.
pub(crate) fn put_defaults(
    alloc: Global,
    out: &mut Vec<u8>,
    count: u16,
    defaults: &[ExternalDefault<'_>],
) -> Result<(), AllocError>
    requires { count + length defaults.now ≤ 32767 }
    ensures { OnOk result (out.new.items ≡ out.old.items ++ written (default_records count defaults.now)) }
{
    let mut before = count;
    for default in defaults {
        before += 1;
        put_default(alloc, out, default, Index(before))?;
    }
    Ok(())
}

/// The offset of the last record of a module. None if it has no record, which is not met.
pub(crate) fn last_at(module: &Checked) -> Option<usize>
    ensures split { IfSome result (λ at. IsSplit «module».now.bytes (take at «module».now.bytes) (drop at «module».now.bytes)) }
    ensures within { IfSome result (λ at. at ≤ length «module».now.bytes) }
{
    let bytes = module.bytes();
    let mut rest = bytes;
    'records: while !rest.is_empty() {
        let (_record, after) = split_record(rest);
        if after.is_empty() {
            return Some(bytes.len() - rest.len());
        }
        rest = after;
    }
    None
}
