//! Modules without the comments that ask for DOS order, for a file in which the segments are in order.

ghost use Rattle.std.specs.Prelude.{◌≡◌, ◌++◌, [], OnOk, if◌then◌else◌};
ghost use Rattle.omf_exe.specs.Joined.{asks_order, without_order};

use omf_check::{Checked, split_record};
use std::alloc::AllocError;

/// The type of a COMENT.
const COMENT: u8 = 0x88;

/// The class of a comment that asks for DOS order (TIS OMF 1.1, "COMENT").
const DOSSEG: u8 = 0x9E;

/// Whether a record of this type with these contents is a comment that asks for DOS order.
fn asks_order(kind: u8, body: &[u8]) -> bool
    ensures { result ≡ asks_order kind body.now }
{
    match body {
        [_, class, ..] => kind == COMENT && *class == DOSSEG,
        _ => false,
    }
}

/// Appends the bytes of a record, unless it asks for DOS order.
fn put_unless(out: &mut Vec<u8>, kind: u8, body: &[u8], bytes: &[u8]) -> Result<(), AllocError>
    ensures { OnOk result (out.new.items ≡ out.old.items ++ (if asks_order kind body.now then [] else bytes.now)) }
{
    if asks_order(kind, body) {
        return Ok(());
    }
    Ok(out.extend_from_slice(bytes)?)
}

/// Appends the bytes of a module without the comments that ask for DOS order.
pub(crate) fn put_unordered(out: &mut Vec<u8>, module: &Checked) -> Result<(), AllocError>
    ensures { OnOk result (out.new.items ≡ out.old.items ++ without_order «module».now.bytes) }
{
    let mut left = module.bytes();
    'records: while !left.is_empty() {
        let (raw, after) = split_record(left);
        let size = left.len() - after.len();
        put_unless(out, raw.kind, raw.body, &left[..size])?;
        left = after;
    }
    Ok(())
}
