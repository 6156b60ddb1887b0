//! Why a run of `omf-link` fails.

ghost use Rattle.std.specs.Prelude.{◌≡◌, ◌++◌};
ghost use Rattle.omf_cmd.specs.Runs.{IsWritten};
ghost use Rattle.omf_lines.specs.Faults.{report, text_front};

use crate::printed::print_link;
use omf_cmd::{Fault, RunFault, print_all, print_words, tell};
use omf_frame::Sink;
use omf_linking::LinkFault;
use omf_linking::space::Owner;

/// Why a run fails.
#[derive(Drop)]
pub enum ImageFault {
    /// The modules of the input are not linked, and the fault is about none of their parts, and no line of the text; or out of memory.
    Link(LinkFault),
    /// The modules of the input are not linked, and the fault is about a module and its parts, or about a line of the text.
    Lines {
        /// The fault; that of the first name if names have no public or more than one.
        fault: LinkFault,
        /// Its line, by the names of files, modules and their parts; or a line for each such name; or those of a line of the text
        /// (`text_lines`), without the name of the text.
        lines: Vec<u8>,
    },
    /// A byte of the memory is at an address that the form of its file does not have.
    Outside {
        /// The lowest such address.
        address: u32,
        /// The first segment with a byte there.
        owner: Option<Owner>,
        /// The line, by the names of the segment and its module.
        lines: Vec<u8>,
    },
    /// A segment of a draft has no room below the last address.
    NoRoom,
    /// The writer failed, or took nothing.
    Write,
}

/// What is before the lines of a fault: the word for the text that follows the modules, if it is one of its lines.
fn text_front(fault: LinkFault) -> &'static str
    ensures { result.now ≡ text_front fault }
{
    match fault {
        LinkFault::Line { .. } => "text ",
        LinkFault::Memory
        | LinkFault::Read
        | LinkFault::Refused { .. }
        | LinkFault::NoText(_)
        | LinkFault::NoModules
        | LinkFault::External(_)
        | LinkFault::Reach { .. }
        | LinkFault::Starts { .. }
        | LinkFault::Space(_) => "",
    }
}

/// Prints the lines of a fault.
fn print_lines<K: Sink>(writer: &mut K, fault: LinkFault, lines: &[u8])
    ensures { IsWritten (K.seen writer.old) (K.seen writer.new) (text_front fault ++ lines.now) }
{
    let front = text_front(fault);
    if let Ok(()) = print_all(writer, front.as_bytes(), RunFault::Write) {
        tell(writer, lines);
    }
}

impl Fault for ImageFault {
    ghost report = { report };

    fn status(&self) -> u8 {
        match self {
            ImageFault::Lines { .. } => 1,
            ImageFault::Outside { .. } => 1,
            ImageFault::NoRoom => 1,
            ImageFault::Write => 3,
            ImageFault::Link(fault) => match *fault {
                LinkFault::Memory => 3,
                LinkFault::Read => 3,
                LinkFault::Refused { .. } => 1,
                LinkFault::NoText(_) => 1,
                LinkFault::NoModules => 1,
                LinkFault::Line { .. } => 1,
                LinkFault::External(_) => 1,
                LinkFault::Reach { .. } => 1,
                LinkFault::Starts { .. } => 1,
                LinkFault::Space(_) => 1,
            },
        }
    }

    fn print<K: Sink>(&self, writer: &mut K) {
        match self {
            ImageFault::Link(fault) => print_link(writer, *fault),
            ImageFault::Lines { fault, lines } => print_lines(writer, *fault, lines),
            ImageFault::Outside { lines, .. } => tell(writer, lines),
            ImageFault::NoRoom => print_words(writer, &["no room below the last address"]),
            ImageFault::Write => {}
        }
    }
}
