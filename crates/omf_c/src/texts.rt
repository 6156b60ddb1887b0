//! The exported calls that hand out texts of reasons and faults, and the version.

ghost use Rattle.std.specs.Prelude.{◌≡◌};
ghost use Rattle.omf_frame.specs.Fault.{reason_name, sentence};
ghost use Rattle.omf_c.specs.Texts.{IsFaultText, IsReasonText, Shows, ShowsOrFails};

use crate::answer::{Answer, fault_answer, hand_out};
use crate::reasons::{fault_text, reason_name, reason_sentence};
use omf_cmd::RunFault;
use std::alloc::Global;

/// The version: 10,000 for the first number, 100 for the second, 1 for the third.
#[unsafe(no_mangle)]
pub extern "C" fn omf_version() -> u32
    ensures { result ≡ 10000 }
{
    10_000
}

/// Hands out the name of the reason with a number, as in printed texts; empty if there is no such reason.
#[unsafe(no_mangle)]
pub extern "C" fn omf_reason_name(reason: u32, out: &mut [u8]) -> Answer
    ensures { Shows (IsReasonText reason_name reason) result out.old out.new }
{
    hand_out(reason_name(reason).as_bytes(), out)
}

/// Hands out what the reason with a number means, in a sentence without a period; empty if there is no such reason.
#[unsafe(no_mangle)]
pub extern "C" fn omf_reason_sentence(reason: u32, out: &mut [u8]) -> Answer
    ensures { Shows (IsReasonText sentence reason) result out.old out.new }
{
    hand_out(reason_sentence(reason).as_bytes(), out)
}

/// Hands out the line that the command prints for the fault in a result, without its line feed; empty if the result is not that of a fault.
#[unsafe(no_mangle)]
pub extern "C" fn omf_fault_line(alloc: Global, answer: &Answer, out: &mut [u8]) -> Answer
    ensures { ShowsOrFails (IsFaultText answer.now) result out.old out.new }
{
    match fault_text(alloc, answer) {
        Ok(text) => hand_out(text.as_bytes(), out),
        Err(_) => fault_answer(RunFault::Memory),
    }
}
