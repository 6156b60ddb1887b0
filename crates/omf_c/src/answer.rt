//! The results of the calls, for C.

ghost use Rattle.std.specs.Prelude.{◌≡◌};
ghost use Rattle.omf_c.specs.Answers.{cause_number, HandsOut, kind_number, of_fault, of_reach};

use omf_cmd::RunFault;
use omf_reloc::{Cause, Kind, ReachFault};

/// The result of a call, in numbers. A field is 0 unless it is described for the status.
#[repr(C)]
#[derive(Clone, Copy, PartialEq, Eq)]
pub struct Answer {
    /// 0 done; 1 out of memory; 4 the module is refused; 5 a line of the text is no entry; 6 the placement is too long; 7 the placement does
    /// not reach; 8 the text does not fit the buffer; 9 the bytes are no library; 10 the modules are not linked.
    pub status: u32,
    /// At status 4 the reason, 1 to 33. At status 7: 1 an entry is missing, 2 there is an extra entry, 3 an absolute segment is misplaced,
    /// 4 a reference does not reach. At status 9: 1 there is no header, 2 the bytes end in it, 3 its length is no page size, 4 there is no end after
    /// the members, 5 the dictionary is not in the bytes. At status 10 the fault, an `enum omf_not_linked` of `include/omf.h`, which describes
    /// the other fields of each.
    pub reason: u32,
    /// At status 7 with reason 1 or 2: 0 a segment, 1 a group, 2 an external, as the methods of fixups. With reason 4: 1 its target, 2 its location, 3 its distance.
    pub kind: u32,
    /// At status 7 with reason 1 to 3: the index, from 1.
    pub index: u32,
    /// At status 4, and at status 7 with reason 4: the number of the record, from 0.
    pub number: u32,
    /// There: the offset in the record of the fault.
    pub within: u32,
    /// At status 4: the record's offset in the module.
    pub start: u64,
    /// At status 5: the number of the line, from 1.
    pub line: u64,
    /// The size of the text in bytes, or the number of rows, at status 0 or 8. For `omf_check` at status 0: the size of the module. For
    /// `omf_library_find` at status 0: the offset of the page. Of a library, at status 4 or 9: where the member or the end is looked for, or the page size.
    pub size: u64,
    /// For `omf_check` at status 0: the number of records in the module. For `omf_library_find`: 1 if the name has an entry. Of a library, at status
    /// 4 or 9: the number of members before.
    pub record_count: u64,
}

/// Status 0, and 0 in every other field.
pub(crate) const NOTHING: Answer = Answer {
    status: 0,
    reason: 0,
    kind: 0,
    index: 0,
    number: 0,
    within: 0,
    start: 0,
    line: 0,
    size: 0,
    record_count: 0,
};

/// The number of a kind of entry: that of its method in fixups.
fn kind_number(kind: Kind) -> u32
    ensures { result ≡ kind_number kind }
{
    match kind {
        Kind::Segment => 0,
        Kind::Group => 1,
        Kind::External => 2,
    }
}

/// The number of a cause.
fn cause_number(cause: Cause) -> u32
    ensures { result ≡ cause_number cause }
{
    match cause {
        Cause::Target => 1,
        Cause::Location => 2,
        Cause::Distance => 3,
    }
}

/// The result for a placement that does not reach.
pub(crate) fn reach_answer(fault: ReachFault) -> Answer
    ensures { result ≡ of_reach fault }
{
    let fails = Answer {
        status: 7,
        ..NOTHING
    };
    match fault {
        ReachFault::Missing(kind, index) => Answer {
            reason: 1,
            kind: kind_number(kind),
            index: u32::from(index),
            ..fails
        },
        ReachFault::Extra(kind, index) => Answer {
            reason: 2,
            kind: kind_number(kind),
            index: u32::from(index),
            ..fails
        },
        ReachFault::Absolute(index) => Answer {
            reason: 3,
            index: u32::from(index),
            ..fails
        },
        ReachFault::TooFar {
            number,
            within,
            cause,
        } => Answer {
            reason: 4,
            kind: cause_number(cause),
            number,
            within,
            ..fails
        },
    }
}

/// The result for a fault.
pub(crate) fn fault_answer(fault: RunFault) -> Answer
    ensures { result ≡ of_fault fault }
{
    match fault {
        RunFault::Memory => Answer {
            status: 1,
            ..NOTHING
        },
        RunFault::Read => Answer {
            status: 2,
            ..NOTHING
        },
        RunFault::Write => Answer {
            status: 3,
            ..NOTHING
        },
        RunFault::Refused { reason, place } => Answer {
            status: 4,
            reason: u32::from(reason.number()),
            number: place.number,
            within: place.within,
            start: place.start,
            ..NOTHING
        },
        RunFault::Line(line) => Answer {
            status: 5,
            line,
            ..NOTHING
        },
        RunFault::TooLong => Answer {
            status: 6,
            ..NOTHING
        },
        RunFault::Reach(fault) => reach_answer(fault),
    }
}

/// Copies a text, or the rows of a table, to the start of a buffer if it fits; otherwise the buffer is unchanged. The result has its size in
/// either case: the number of bytes, or of rows.
pub(crate) fn hand_out<T: Copy>(made: &[T], out: &mut [T]) -> Answer
    ensures { HandsOut made.now result out.old out.new }
{
    let size = made.len() as u64;
    if made.len() > out.len() {
        return Answer {
            status: 8,
            size,
            ..NOTHING
        };
    }
    let (room, _rest) = out.split_at_mut(made.len());
    room.copy_from_slice(made);
    Answer { size, ..NOTHING }
}
