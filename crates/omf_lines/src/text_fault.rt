//! Why a run of `omf-link` over files and a link text fails, by the name of the text's file.

ghost use Rattle.std.specs.Prelude.{◌≡◌, ◌++◌, IfOk, option_map, string_bytes};
ghost use Rattle.omf_cmd.specs.Runs.{IsWritten};
ghost use Rattle.omf_lines.specs.Files.{lines_of_text, named_report, text_front};

use crate::fault::ImageFault;
use crate::files_fault::FilesFault;
use omf_cmd::{Fault, RunFault, print_all, tell};
use omf_frame::Sink;
use omf_host::put_name;
use omf_linking::LinkFault;
use std::alloc::{AllocError, Global};

/// Why a run over files fails, with the name of the file of its link text.
#[derive(Drop)]
pub struct TextFault {
    /// The fault.
    pub fault: FilesFault,
    /// What is before the lines of a fault of the text: the file's name and a colon.
    pub front: String,
}

impl TextFault {
    /// A fault with the name of the file of the link text.
    ///
    /// # Errors
    ///
    /// `AllocError` if memory runs out.
    pub fn new(alloc: Global, name: &str, fault: FilesFault) -> Result<TextFault, AllocError>
        ensures fault { IfOk result (λ t. t.fault ≡ fault) }
        ensures front { IfOk result (λ t. string_bytes t.front ≡ text_front name.now) }
    {
        let mut front = String::new(alloc);
        put_name(&mut front, name.as_bytes())?;
        front.push_str(": ")?;
        Ok(TextFault { fault, front })
    }
}

/// The lines of a fault that is one of a line of the link text.
fn lines_of_text(fault: &FilesFault) -> Option<&[u8]>
    ensures { option_map (λ l. l.now) result ≡ lines_of_text fault.now }
{
    let FilesFault::Link(ImageFault::Lines { fault, lines }) = fault else {
        return None;
    };
    match *fault {
        LinkFault::Line { .. } => Some(lines),
        LinkFault::Memory
        | LinkFault::Read
        | LinkFault::Refused { .. }
        | LinkFault::NoText(_)
        | LinkFault::NoModules
        | LinkFault::External(_)
        | LinkFault::Reach { .. }
        | LinkFault::Starts { .. }
        | LinkFault::Space(_) => None,
    }
}

/// Prints the lines of a fault of a link text after the name of its file.
fn print_named<K: Sink>(writer: &mut K, front: &str, lines: &[u8])
    ensures { IsWritten (K.seen writer.old) (K.seen writer.new) (front.now ++ lines.now) }
{
    if let Ok(()) = print_all(writer, front.as_bytes(), RunFault::Write) {
        tell(writer, lines);
    }
}

impl Fault for TextFault {
    ghost report = { named_report };

    fn status(&self) -> u8 {
        self.fault.status()
    }

    fn print<K: Sink>(&self, writer: &mut K) {
        match lines_of_text(&self.fault) {
            Some(lines) => print_named(writer, self.front.as_str(), lines),
            None => self.fault.print(writer),
        }
    }
}
