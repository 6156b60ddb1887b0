//! Records whose LIDATAs have fixups, unrolled.

ghost use Rattle.std.specs.Prelude.{◌≡◌, IfErr, IfOk, Ok, flat_map};
ghost use Rattle.omf_frame.specs.Framing.{raw_bytes};
ghost use Rattle.omf_lowering.specs.Inner.Rolling.{IsBytesOf, IsHalt};
ghost use Rattle.omf_lowering.specs.Unrolled.{after_records};

use crate::fault::Stop;
use crate::record::Record;
use crate::unrolling::Unrolling;
use std::alloc::Global;

/// Why records are not unrolled: work on the record with this number, from 0, stopped.
#[derive(Drop)]
pub(crate) struct Halt {
    pub number: usize,
    pub stop: Stop,
}

/// What a module has after these records.
fn unrolled_records<'r>(alloc: Global, records: &'r [Record]) -> Result<Unrolling<'r>, Halt>
    ensures ok { IfOk result (λ work. after_records records.entry.now ≡ Ok work) }
    ensures err { IfErr result (λ halt. IsHalt records.entry.now halt.number halt.stop) }
{
    let mut work = Unrolling::new(alloc);
    for number in 0..records.len() {
        match work.take(alloc, &records[number].as_front()) {
            Ok(()) => {}
            Err(stop) => return Err(Halt { number, stop }),
        }
    }
    Ok(work)
}

/// The bytes of these records, with their LIDATAs that have fixups unrolled (TIS OMF 1.1, "LIDATA", "FIXUPP"). A fixup after an LIDATA is applied to each
/// copy of its location. The LIDATA stays, and each such fixup becomes, for each copy, an LEDATA of the location's bytes at the place of the copy, and a
/// FIXUPP with the fixup at its first byte. A THREAD among them gets a FIXUPP of its own, so that it stays in force from there on. Every other record is kept
/// as it is.
///
/// # Errors
///
/// The first fault: in a FIXUPP after an LIDATA, at the fixup, OutsideRecord if no innermost block has all bytes of its location, FixupOnIterated if another
/// fixup of the same data has one of them, TooMany if the records become more than 1,048,576; of layout.
pub(crate) fn unrolled(alloc: Global, records: &[Record]) -> Result<Vec<u8>, Halt>
    ensures ok { IfOk result (λ out. IsBytesOf records.now out.items) }
    ensures err { IfErr result (λ halt. IsHalt records.now halt.number halt.stop) }
{
    let work = match unrolled_records(alloc, records) {
        Ok(work) => work,
        Err(halt) => return Err(halt),
    };
    match work.finish(alloc) {
        Ok(bytes) => Ok(bytes),
        Err(_) => Err(Halt {
            number: 0,
            stop: Stop::Memory,
        }),
    }
}
