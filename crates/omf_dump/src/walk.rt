//! The records of a module one after another.

ghost use Rattle.std.specs.Prelude.{◌≡◌, [], List, OnOk};
ghost use Rattle.omf_frame.specs.Device.{Writes};
ghost use Rattle.omf_frame.specs.Framing.{Raw, front_record, present};
ghost use Rattle.omf_check.specs.Listed.{StartsWithRecord};
ghost use Rattle.omf_check.specs.WellFormed.{recs};
ghost use Rattle.omf_dump.specs.Dump.{AreRecords, dump_text};
ghost use Rattle.omf_dump.specs.Inner.Walking.{Holds, Passes};

use crate::fault::DumpFault;
use crate::format::Style;
use crate::known::{Known, Tables};
use crate::output::{send, send_piece};
use crate::record::show_record;
use omf_check::{Threads, split_record};
use omf_frame::{RawRecord, Sink};
use std::alloc::Global;

/// The checksum byte of the first record, which is whole.
fn checksum_of(bytes: &[u8]) -> u8
    requires { StartsWithRecord bytes.now }
    ensures { result ≡ (front_record (present bytes.now)).checksum }
{
    match bytes {
        [_, low, high, rest @ ..] => {
            let size = usize::from(*low) + 256 * usize::from(*high);
            rest[size - 1]
        }
        _ => unreachable!(),
    }
}

/// Writes what is shown of the records of `bytes`, in order, in pieces. The end of it is left in `text`.
fn show_records<'a, K: Sink>(
    writer: &mut K,
    text: &mut Vec<u8>,
    style: Style,
    known: &mut Known<'a>,
    bytes: &'a [u8],
) -> Result<(), DumpFault>
    requires records { (records : List Raw) × AreRecords bytes.now records }
    requires start { Holds known.old [] }
    requires empty { text.old.items ≡ [] }
    ensures text { (records : List Raw) → AreRecords bytes.entry.now records → Passes (K.seen writer.old).bytes (K.seen writer.new).bytes result (dump_text style records) text.new.items }
    ensures holds { (records : List Raw) → AreRecords bytes.entry.now records → OnOk result (Holds known.new (recs records)) }
{
    let mut left = bytes;
    let mut number: u32 = 0;
    let mut start: u64 = 0;
    while !left.is_empty() {
        let (first, rest) = split_record(left);
        let raw = RawRecord {
            kind: first.kind,
            body: first.body,
            number,
            start,
        };
        let Ok(()) = show_record(text, style, known, raw, checksum_of(left)) else {
            return Err(DumpFault::Memory);
        };
        send_piece(writer, text)?;
        number += 1;
        start += (left.len() - rest.len()) as u64;
        left = rest;
    }
    Ok(())
}

/// What no records give.
pub(crate) fn nothing_known<'a>(alloc: Global) -> Known<'a>
    ensures { Holds result [] }
{
    Known {
        tables: Tables::new(alloc),
        threads: Threads::new(),
        fixed: None,
    }
}

/// Writes what is shown of the records of `bytes`, in order, none left out. Keeps what they give later records.
///
/// # Errors
///
/// `Memory` if memory ran out, `Write` if the writer failed. What is written is then a beginning of the text.
pub fn dump<'a, K: Sink>(
    alloc: Global,
    writer: &mut K,
    style: Style,
    known: &mut Known<'a>,
    bytes: &'a [u8],
) -> Result<(), DumpFault>
    requires records { (records : List Raw) × AreRecords bytes.now records }
    requires start { Holds known.old [] }
    ensures text { (records : List Raw) → AreRecords bytes.entry.now records → Writes (K.seen writer.old).bytes (K.seen writer.new).bytes result (dump_text style records) }
    ensures holds { (records : List Raw) → AreRecords bytes.entry.now records → OnOk result (Holds known.new (recs records)) }
{
    let mut text = Vec::new(alloc);
    show_records(writer, &mut text, style, known, bytes)?;
    send(writer, &text)
}
