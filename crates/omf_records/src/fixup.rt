//! Writing fixups and references, with one allocation for each (TIS OMF 1.1, "FIXUPP").
ghost use Rattle.std.specs.Prelude.{◌≡◌, ◌++◌, ◌+◌, ◌<◌, ◌≤◌, OnOk, OnErr, length, vec_len, vec_capacity};
ghost use Rattle.byteorder.specs.Endian.{little_bytes};
ghost use Rattle.omf_records.specs.Inner.Begins.{Grows};
ghost use Rattle.omf_records.specs.Shortest.{option_bytes, datum_bytes, reference_bytes, subrecord_bytes};
ghost use Rattle.omf_records.specs.Values.{Fixup, width};

use crate::at::At;
use crate::bits::Locat;
use crate::subrecord::Reference;
use omf_frame::Index;
use std::alloc::AllocError;

/// The largest size of a reference in bytes: the fix data byte, two indices and a displacement.
const REFERENCE_LIMIT: usize = 9;

/// The largest size of a FIXUP in bytes: 2 of the location, and the reference.
pub const FIXUP_LIMIT: usize = 11;

/// Appends bytes. The room for them is reserved.
#[inline(always)]
pub(crate) fn push_bytes(out: &mut Vec<u8>, bytes: &[u8])
    requires { vec_len out.old + length bytes.now ≤ vec_capacity out.old }
    ensures items { out.new.items ≡ out.old.items ++ bytes.now }
    ensures len { vec_len out.new ≡ vec_len out.old + length bytes.now }
    ensures capacity { vec_capacity out.old ≤ vec_capacity out.new }
{
    match out.extend_from_slice(bytes) {
        Ok(()) => {}
        Err(_) => unreachable!(),
    }
}

/// Appends an index, if there is one. The room for it is reserved.
#[inline(always)]
pub(crate) fn push_index(out: &mut Vec<u8>, index: &Option<At<Index>>)
    requires { vec_len out.old + 2 ≤ vec_capacity out.old }
    ensures items { out.new.items ≡ out.old.items ++ option_bytes datum_bytes index.now }
    ensures len { vec_len out.new ≤ vec_len out.old + 2 }
    ensures capacity { vec_capacity out.new ≡ vec_capacity out.old }
{
    if let Some(index) = index {
        let number = index.item.0;
        if number < 128 {
            out.push_reserved(number as u8);
        } else {
            out.push_reserved((number / 256 + 128) as u8);
            out.push_reserved((number % 256) as u8);
        }
    }
}

/// Appends a displacement in a record of a type, if there is one. There is room for it.
#[inline(always)]
pub(crate) fn push_displacement(out: &mut Vec<u8>, kind: u8, displacement: &Option<u32>)
    requires { vec_len out.old + 4 ≤ vec_capacity out.old }
    ensures items { out.new.items ≡ out.old.items ++ option_bytes (little_bytes (width kind)) displacement.now }
    ensures len { vec_len out.new ≤ vec_len out.old + 4 }
    ensures capacity { vec_capacity out.old ≤ vec_capacity out.new }
{
    if let Some(displacement) = displacement {
        let [lowest, second, third, highest] = (*displacement).to_le_bytes();
        if kind % 2 == 1 {
            push_bytes(out, &[lowest, second, third, highest]);
        } else {
            push_bytes(out, &[lowest, second]);
        }
    }
}

/// Appends a reference in a record of type `kind`. The room for it is reserved.
#[inline(always)]
fn push_reference(out: &mut Vec<u8>, kind: u8, reference: &Reference)
    requires { vec_len out.old + 9 ≤ vec_capacity out.old }
    ensures items { out.new.items ≡ out.old.items ++ reference_bytes kind reference.now }
    ensures capacity { vec_capacity out.old ≤ vec_capacity out.new }
{
    out.push_reserved(reference.fix.item.byte());
    push_index(out, &reference.frame);
    push_index(out, &reference.target);
    push_displacement(out, kind, &reference.displacement);
}

/// Appends a fixup in a FIXUPP of type `kind`. The room for it is reserved.
#[inline(always)]
fn push_fixup(out: &mut Vec<u8>, kind: u8, location: Locat, reference: &Reference)
    requires { vec_len out.old + 11 ≤ vec_capacity out.old }
    ensures items { out.new.items ≡ out.old.items ++ subrecord_bytes kind (Fixup location reference.now) }
    ensures capacity { vec_capacity out.old ≤ vec_capacity out.new }
{
    let number = location.number();
    out.push_reserved((number / 256) as u8);
    out.push_reserved((number % 256) as u8);
    push_reference(out, kind, reference);
}

/// Appends a reference in its shortest encoding, in a record of type `kind`.
///
/// # Errors
///
/// `AllocError` if out of memory and `out` has no room for the largest size. Nothing is appended then.
#[tactic(auto, using(crate::specs::Inner::Begins::begins_itself, crate::specs::Inner::Begins::begins_more))]
pub fn put_reference(out: &mut Vec<u8>, kind: u8, reference: &Reference) -> Result<(), AllocError>
    ensures put { OnOk result (out.new.items ≡ out.old.items ++ reference_bytes kind reference.now) }
    ensures err { OnErr result (out.new.items ≡ out.old.items) }
    ensures full { OnErr result (vec_capacity out.old < vec_len out.old + 9) }
    ensures grows { Grows out.old out.new }
{
    out.reserve(REFERENCE_LIMIT)?;
    push_reference(out, kind, reference);
    Ok(())
}

/// Appends a fixup in its shortest encoding, in a FIXUPP of type `kind`.
///
/// # Errors
///
/// `AllocError` if out of memory and `out` has no room for the largest size. Nothing is appended then.
#[inline(always)]
#[tactic(auto, using(crate::specs::Inner::Begins::begins_itself, crate::specs::Inner::Begins::begins_more))]
pub fn put_fixup(
    out: &mut Vec<u8>,
    kind: u8,
    location: Locat,
    reference: &Reference,
) -> Result<(), AllocError>
    ensures put { OnOk result (out.new.items ≡ out.old.items ++ subrecord_bytes kind (Fixup location reference.now)) }
    ensures err { OnErr result (out.new.items ≡ out.old.items) }
    ensures full { OnErr result (vec_capacity out.old < vec_len out.old + 11) }
    ensures grows { Grows out.old out.new }
{
    out.reserve(FIXUP_LIMIT)?;
    push_fixup(out, kind, location, reference);
    Ok(())
}
