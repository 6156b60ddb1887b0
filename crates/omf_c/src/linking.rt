//! The exported calls that link modules.

ghost use Rattle.std.specs.Prelude.{◌≡◌};
ghost use Rattle.omf_c.specs.Linking.{IsChipAnswered, of_derive, of_image, of_link, of_space, outside, unlinked, why_number};

use crate::answer::{Answer, NOTHING, fault_answer, hand_out, reach_answer};
use omf_cmd::RunFault;
use omf_lines::ImageFault;
use omf_linker::link::{Task, shown_text};
use omf_linking::LinkFault;
use omf_linking::locator::LineFault;
use omf_linking::space::{MemoryFault, Owner};
use omf_output::rom::{Chip, Form};
use omf_placement::DeriveFault;
use std::alloc::Global;

/// Out of memory.
pub(crate) const MEMORY: Answer = Answer {
    status: 1,
    ..NOTHING
};

/// The result for modules that are not linked, by the number of the reason alone.
pub(crate) fn unlinked(reason: u32) -> Answer
    ensures { result ≡ unlinked reason }
{
    Answer {
        status: 10,
        reason,
        ..NOTHING
    }
}

/// The number of why a line of a text does not fit.
fn why_number(why: LineFault) -> u32
    ensures { result ≡ why_number why }
{
    match why {
        LineFault::NotUnderstood => 1,
        LineFault::NoModule => 2,
        LineFault::Unknown => 3,
        LineFault::Several => 4,
        LineFault::Twice => 5,
        LineFault::Unshared => 6,
        LineFault::NothingBefore => 7,
        LineFault::NoRoom => 8,
    }
}

/// The result for an external without a place.
fn derive_answer(fault: DeriveFault) -> Answer
    ensures { result ≡ of_derive fault }
{
    match fault {
        DeriveFault::Memory => MEMORY,
        DeriveFault::Undefined { module, external } => Answer {
            index: u32::from(external),
            record_count: u64::from(module),
            ..unlinked(3)
        },
        DeriveFault::Twice { module, external } => Answer {
            index: u32::from(external),
            record_count: u64::from(module),
            ..unlinked(4)
        },
        DeriveFault::TooHigh { module, external } => Answer {
            index: u32::from(external),
            record_count: u64::from(module),
            ..unlinked(5)
        },
    }
}

/// The result for segments that do not fit into one memory.
fn space_answer(fault: MemoryFault) -> Answer
    ensures { result ≡ of_space fault }
{
    match fault {
        MemoryFault::Memory => MEMORY,
        MemoryFault::Beyond(owner) => Answer {
            index: u32::from(owner.segment),
            record_count: u64::from(owner.module),
            ..unlinked(7)
        },
        MemoryFault::Overlap {
            address,
            first,
            second,
        } => Answer {
            index: u32::from(first.segment),
            record_count: u64::from(first.module),
            start: u64::from(address),
            number: second.module,
            within: u32::from(second.segment),
            ..unlinked(8)
        },
    }
}

/// The result for modules that are not linked.
fn link_answer(fault: LinkFault) -> Answer
    ensures { result ≡ of_link fault }
{
    match fault {
        LinkFault::Memory => MEMORY,
        LinkFault::Read => fault_answer(RunFault::Read),
        LinkFault::Refused {
            module,
            reason,
            place,
        } => Answer {
            record_count: u64::from(module),
            ..fault_answer(RunFault::Refused { reason, place })
        },
        LinkFault::NoText(at) => Answer {
            size: at,
            ..unlinked(1)
        },
        LinkFault::NoModules => unlinked(2),
        LinkFault::Line { line, why } => Answer {
            reason: why_number(why),
            ..fault_answer(RunFault::Line(line))
        },
        LinkFault::External(fault) => derive_answer(fault),
        LinkFault::Reach { module, fault } => Answer {
            record_count: u64::from(module),
            ..reach_answer(fault)
        },
        LinkFault::Starts { first, second } => Answer {
            record_count: u64::from(first),
            size: u64::from(second),
            ..unlinked(6)
        },
        LinkFault::Space(fault) => space_answer(fault),
    }
}

/// The result for a byte at an address outside.
fn outside(address: u32, owner: Option<Owner>) -> Answer
    ensures { result ≡ outside address owner }
{
    let answer = Answer {
        start: u64::from(address),
        ..unlinked(9)
    };
    match owner {
        Some(owner) => Answer {
            index: u32::from(owner.segment),
            record_count: u64::from(owner.module),
            ..answer
        },
        None => answer,
    }
}

/// The result for a memory that is not made.
fn image_answer(fault: &ImageFault) -> Answer
    ensures { result ≡ of_image fault.now }
{
    match fault {
        ImageFault::Link(fault) => link_answer(*fault),
        ImageFault::Lines { fault, .. } => link_answer(*fault),
        ImageFault::Outside { address, owner, .. } => outside(*address, *owner),
        ImageFault::NoRoom => unlinked(10),
        ImageFault::Write => fault_answer(RunFault::Write),
    }
}

/// Links the modules of an input, which a text follows (docs/LINK.md), and hands out the bytes of `size` addresses from `base` on; `fill` where the
/// modules have none. At status 0 they are at the start of the buffer.
#[unsafe(no_mangle)]
pub extern "C" fn omf_link_image(
    alloc: Global,
    input: &[u8],
    base: u32,
    size: u32,
    fill: u8,
    out: &mut [u8],
) -> Answer
    ensures { IsChipAnswered (record { base = base; size = size; fill = fill }) input.now result out.old out.new }
{
    let chip = Chip { base, size, fill };
    match shown_text(alloc, Task::Rom(Form::Binary(chip)), input) {
        Ok(bytes) => hand_out(&bytes, out),
        Err(fault) => image_answer(&fault),
    }
}
