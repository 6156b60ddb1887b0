//! Public calls that no program and no call for C makes, with ample memory. Expected values are worked out by hand from the format. The other calls
//! are seen in runs of the programs: `omf_cases`, `conformance/`, `tests/`. The modules below have what contracts leave open.

use omf_check::{Profile, Session};
use omf_frame::{Bytes, Reason};
use omf_library::modules_in;
use omf_reloc::{Answer, Frame, Kind, Placement, ReachFault, check_and_relocate};
use omf_samples::{END, HEADER, MODULE, NAMES, START_BY_THREAD, joined};
use std::alloc::Global;

mod copies;
mod reading;

/// Accepts comments of vendors.
const ANY: Profile = Profile {
    refuse_vendor_comments: false,
};

/// What is wanted of an answer.
enum Wanted {
    /// A refusal: the reason, and the number of the record.
    Refused(Reason, u32),
    /// The placement does not reach.
    Far(ReachFault),
    /// The bytes of segment 1, and the start.
    Relocated(&'static [u8], Option<(u16, u32)>),
}

/// The records of an input, how many segments and groups a placement has, and what is wanted.
type Case = (&'static [&'static str], usize, usize, Wanted);

static CASES: [Case; 4] = [
    (MODULE, 1, 0, Wanted::Relocated(b"\xB8\x20\x00\x90", None)),
    (
        START_BY_THREAD,
        1,
        1,
        Wanted::Relocated(b"", Some((0x1000, 0x22))),
    ),
    (&[HEADER, NAMES], 1, 0, Wanted::Refused(Reason::NoEnd, 2)),
    (
        MODULE,
        0,
        0,
        Wanted::Far(ReachFault::Missing(Kind::Segment, 1)),
    ),
];

/// A placement of segments at 10020H and groups, in the frame of 10000H; `None` if memory runs out.
fn placement_of(alloc: Global, segments: usize, groups: usize) -> Option<Placement> {
    let frame = Frame {
        base: 0x10000,
        selector: 0x1000,
    };
    let mut placement = Placement::new(alloc);
    for _ in 0..segments {
        placement.push_segment(0x10020, frame).ok()?;
    }
    for _ in 0..groups {
        placement.push_group(frame).ok()?;
    }
    Some(placement)
}

/// Whether an answer is the one that is wanted.
fn is_right(answer: &Answer, wanted: &Wanted) -> bool {
    match (answer, wanted) {
        (Answer::Refused { reason, place }, Wanted::Refused(first, number)) => {
            reason == first && place.number == *number
        }
        (Answer::DoesNotReach(fault), Wanted::Far(first)) => fault == first,
        (Answer::Relocated { image, start }, Wanted::Relocated(bytes, at)) => {
            image.run_bytes(1, 0).unwrap_or(&[]) == *bytes && start == at
        }
        _ => false,
    }
}

/// Whether a case has its answer.
fn has_answer(alloc: Global, case: &Case) -> Option<bool> {
    let (rows, segments, groups, wanted) = case;
    let bytes = joined(alloc, *rows).ok()?;
    let placement = placement_of(alloc, *segments, *groups)?;
    let answer = check_and_relocate(alloc, &mut Bytes::new(&bytes), ANY, &placement).ok()?;
    Some(is_right(&answer, wanted))
}

#[test]
fn an_input_and_a_placement_have_an_answer(rt: HostRuntime) {
    for case in &CASES {
        assert!(rt; has_answer(rt.alloc(), case) == Some(true));
    }
}

/// The length of a module that a session is fed byte by byte.
fn fed_length(alloc: Global, rows: &[&str]) -> Option<usize> {
    let bytes = joined(alloc, rows).ok()?;
    let mut session = Session::new(alloc, ANY);
    for byte in &bytes {
        session.feed(&[*byte]).ok()?;
    }
    match session.finish() {
        Ok(module) => Some(module.bytes().len()),
        Err(_) => None,
    }
}

#[test]
fn a_session_takes_a_module_byte_by_byte(rt: HostRuntime) {
    assert!(rt; fed_length(rt.alloc(), MODULE) == Some(48));
}

/// The header record of a library without a dictionary, up to its page of 16 bytes; the padding after a module of 11 bytes; the F1H record.
const LIBRARY: &[&str] = &[
    "F0 0D 00 00 00 00 00 00 00 00 00 00 00 00 00 00",
    HEADER,
    END,
    "00 00 00 00 00",
    HEADER,
    END,
    "00 00 00 00 00",
    "F1 00 00",
];

/// The lengths of both modules of the library.
fn module_lengths(alloc: Global) -> Option<(usize, usize)> {
    let bytes = joined(alloc, LIBRARY).ok()?;
    match modules_in(alloc, ANY, &bytes).ok()?.as_slice() {
        [first, second] => Some((first.bytes().len(), second.bytes().len())),
        _ => None,
    }
}

#[test]
fn a_library_has_its_modules(rt: HostRuntime) {
    assert!(rt; module_lengths(rt.alloc()) == Some((11, 11)));
}
