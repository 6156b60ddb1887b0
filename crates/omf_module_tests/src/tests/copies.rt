//! Fixups that are copied in their shortest encoding: only here it shows that any is.

use omf_frame::Framer;
use omf_records::{FIXUP_LIMIT, unread_fixups, view};
use omf_samples::{HEADER, bytes_of};
use std::alloc::Global;

/// Feeds a row, and goes on after a record at hand if there is one before it.
fn feed_row(alloc: Global, framer: &mut Framer, row: &str) {
    if framer.raw().is_some() && framer.number() < 100 {
        framer.next();
    }
    if let Ok(bytes) = bytes_of(alloc, row) {
        let _fed = framer.feed(&bytes);
    }
}

/// A framer after a header and a row. It has the row's record at hand, unless a call failed.
fn framed(alloc: Global, row: &str) -> Framer {
    let mut framer = Framer::new(alloc);
    feed_row(alloc, &mut framer, HEADER);
    feed_row(alloc, &mut framer, row);
    framer
}

/// Appends the bytes of the first subrecord of the FIXUPP at hand, if it can be copied.
fn copy(framer: &Framer, out: &mut Vec<u8>) -> bool {
    let Some(raw) = framer.raw() else {
        return false;
    };
    let Some(mut subrecords) = unread_fixups(&raw) else {
        return false;
    };
    match view(raw) {
        Ok(_rec) => subrecords.put_direct(raw.kind, out),
        Err(_) => false,
    }
}

/// Whether the first subrecord of a FIXUPP is copied as these bytes, or not.
fn is_copied(alloc: Global, row: &str, bytes: Option<&[u8]>) -> bool {
    let mut out = Vec::new(alloc);
    out.reserve(FIXUP_LIMIT).is_ok()
        && copy(&framed(alloc, row), &mut out) == bytes.is_some()
        && out.as_slice() == bytes.unwrap_or(&[])
}

/// FIXUPPs, and the bytes that their first subrecord is copied as, if it is: with a long index, with two indices, and with a target thread.
static COPIES: [(&str, Option<&[u8]>); 3] = [
    (
        "9C 08 00 C4 02 50 80 05 34 12 7B",
        Some(b"\xC4\x02\x50\x05\x34\x12"),
    ),
    (
        "9D 0B 00 E4 00 20 02 81 2C 78 56 34 12 91",
        Some(b"\xE4\x00\x20\x02\x81\x2C\x78\x56\x34\x12"),
    ),
    ("9C 04 00 C4 02 5C 3E", None),
];

#[test]
fn fixups_are_copied(rt: HostRuntime) {
    for (row, bytes) in &COPIES {
        assert!(rt; is_copied(rt.alloc(), *row, *bytes));
    }
}
