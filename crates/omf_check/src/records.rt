//! Iteration over the records of a checked module.

ghost use Rattle.std.specs.Prelude.{◌≡◌, ◌≤◌, ◌++◌, OnOk, length};
ghost use Rattle.omf_frame.specs.Framing.{front_record, present, after_front, raw_bytes, raw_of};
ghost use Rattle.omf_records.specs.Inner.Reading.{typed};
ghost use Rattle.omf_records.specs.Inner.Seen.{rec_seen};
ghost use Rattle.omf_check.specs.Listed.{StartsWithRecord, AreListed, placed_from};
ghost use Rattle.omf_check.specs.Module.{records_in};

use omf_frame::{Place, RawRecord, checksum};
use omf_records::{Rec, view_known};
use std::alloc::AllocError;
use std::marker::Model;

/// Appends a record of a type with these contents and its computed checksum byte (TIS OMF 1.1, "Record Format"). It fails if memory runs out.
pub fn put_record(out: &mut Vec<u8>, kind: u8, body: &[u8]) -> Result<(), AllocError>
    requires { length body.now ≤ 65534 }
    ensures { OnOk result (out.new.items ≡ out.old.items ++ raw_bytes (raw_of kind body.now)) }
{
    let [low, high] = ((body.len() + 1) as u16).to_le_bytes();
    out.reserve(body.len() + 4)?;
    out.push_reserved(kind);
    out.push_reserved(low);
    out.push_reserved(high);
    out.extend_from_slice(body)?;
    Ok(out.push(checksum(kind, body))?)
}

/// Splits `bytes` into their first record, and the bytes after it. The record's `number` and `start` are 0. The bytes must begin with
/// a whole record of a known type.
pub fn split_record<'a>(bytes: &'a [u8]) -> (RawRecord<'a>, &'a [u8])
    requires { StartsWithRecord bytes.now }
    ensures kind { result.0.kind ≡ (front_record (present bytes.entry.now)).kind }
    ensures body { result.0.body.now ≡ (front_record (present bytes.entry.now)).body }
    ensures number { result.0.number ≡ 0 }
    ensures start { result.0.start ≡ 0 }
    ensures rest { result.1.now ≡ after_front bytes.entry.now }
{
    match bytes {
        [kind, low, high, rest @ ..] => {
            let size = usize::from(*low) + 256 * usize::from(*high);
            let (contents, after) = rest.split_at(size);
            let raw = RawRecord {
                kind: *kind,
                body: &contents[..size - 1],
                number: 0,
                start: 0,
            };
            (raw, after)
        }
        _ => unreachable!(),
    }
}

/// Splits `bytes` into their first record, typed, and the bytes after it.
pub(crate) fn first_record<'a>(bytes: &'a [u8]) -> (Rec<'a>, &'a [u8])
    requires { StartsWithRecord bytes.now }
    ensures rec { rec_seen result.0 ≡ typed (front_record (present bytes.entry.now)) }
    ensures rest { result.1.now ≡ after_front bytes.entry.now }
{
    let (raw, rest) = split_record(bytes);
    (view_known(raw), rest)
}

/// Iterator over the remaining records of a module, each with its place; `within` is 0.
#[derive(Drop)]
pub struct Records<'a> {
    bytes: &'a [u8],
    number: u32,
    start: u64,
}

impl<'a> Model for Records<'a> {
    ghost use Rattle.std.specs.Prelude.{List};
    ghost use Rattle.omf_frame.specs.declared.fault.Place.{Place as PlaceModel};
    ghost use Rattle.omf_records.specs.Values.{Rec as Typed};
    ghost use Rattle.omf_check.specs.Listed.{AreListed, placed_from};
    ghost use Rattle.omf_check.specs.Module.{records_in};

    ghost Value = { List (PlaceModel × Typed) };

    ghost view = { λ r. placed_from r.number r.start (records_in r.bytes.now) };

    ghost invariant = { λ r. AreListed r.bytes.now r.number r.start };
}

impl<'a> Records<'a> {
    /// The records of `bytes`.
    pub(crate) fn new(bytes: &'a [u8]) -> Records<'a>
        requires { AreListed bytes.now 0 0 }
        ensures { result ≡ placed_from 0 0 (records_in bytes.entry.now) }
    {
        Records {
            bytes,
            number: 0,
            start: 0,
        }
    }
}

impl<'a> Iterator for Records<'a> {
    ghost use Rattle.std.specs.Iterator.{YieldsFirstBy, item_count};
    ghost use Rattle.omf_records.specs.Inner.Seen.{rec_seen as seen};

    type Item = (Place, Rec<'a>);

    ghost next_gives = { YieldsFirstBy (λ x. (x.0, seen x.1)) (λ s. s) };

    ghost remaining = { item_count (λ s. s) };

    fn next(&mut self) -> Option<(Place, Rec<'a>)> {
        if self.bytes.is_empty() {
            return None;
        }
        let (rec, rest) = first_record(self.bytes);
        let place = Place {
            number: self.number,
            start: self.start,
            within: 0,
        };
        self.number += 1;
        self.start += (self.bytes.len() - rest.len()) as u64;
        self.bytes = rest;
        Some((place, rec))
    }
}
