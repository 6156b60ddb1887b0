//! Why a run of `omf-link` over files fails.

ghost use Rattle.std.specs.Prelude.{◌≡◌, ◌++◌, Ok, codes, decimal, string_bytes};
ghost use Rattle.omf_cmd.specs.Runs.{IsWritten, PrintsOr};
ghost use Rattle.omf_cmd.specs.declared.fault.RunFault.TheVariants.{Write};
ghost use Rattle.omf_lines.specs.Files.{file_at, file_line, files_report};
ghost use Rattle.omf_linking.specs.declared.fault.LinkFault.TheVariants.{NoText};

use crate::fault::ImageFault;
use crate::printed::print_link;
use itoa::Buffer;
use omf_cmd::{Fault, RunFault, print_all, print_words};
use omf_frame::Sink;
use omf_linking::LinkFault;

/// Why a run over files fails.
#[derive(Drop)]
pub enum FilesFault {
    /// A file does not hold modules and padding alone.
    File {
        /// Its fault: `Refused`, with the number of the module in the file; `NoText`, with the offset of what else it holds; or `Memory`.
        fault: LinkFault,
        /// The front of the line: the word `file` and the file's name.
        front: String,
    },
    /// The modules of the files are not linked.
    Link(ImageFault),
}

/// Writes the offset of what is neither a module nor padding.
fn write_at<K: Sink>(writer: &mut K, at: u64) -> Result<(), RunFault>
    ensures { PrintsOr Write (K.seen writer.old) (K.seen writer.new) (Ok (file_at at)) result }
{
    let mut number = Buffer::new();
    print_all(writer, b"at ", RunFault::Write)?;
    print_all(writer, number.format(at).as_bytes(), RunFault::Write)
}

/// Prints the end of the line of a file that holds more than modules and padding.
fn print_more<K: Sink>(writer: &mut K, at: u64)
    ensures { IsWritten (K.seen writer.old) (K.seen writer.new) (file_line (NoText at)) }
{
    if let Ok(()) = write_at(writer, at) {
        print_words(writer, &[": neither a module nor padding"]);
    }
}

/// Prints the end of the line of a file's fault.
fn print_end<K: Sink>(writer: &mut K, fault: LinkFault)
    ensures { IsWritten (K.seen writer.old) (K.seen writer.new) (file_line fault) }
{
    match fault {
        LinkFault::NoText(at) => print_more(writer, at),
        _ => print_link(writer, fault),
    }
}

/// Prints the line of a file's fault.
fn print_file<K: Sink>(writer: &mut K, front: &str, fault: LinkFault)
    ensures { IsWritten (K.seen writer.old) (K.seen writer.new) (front.now ++ file_line fault) }
{
    if let Ok(()) = print_all(writer, front.as_bytes(), RunFault::Write) {
        print_end(writer, fault);
    }
}

impl Fault for FilesFault {
    ghost report = { files_report };

    fn status(&self) -> u8 {
        match self {
            FilesFault::File { fault, .. } => match *fault {
                LinkFault::Memory => 3,
                LinkFault::Read => 3,
                LinkFault::Refused { .. } => 1,
                LinkFault::NoText(_) => 1,
                LinkFault::NoModules => 1,
                LinkFault::Line { .. } => 1,
                LinkFault::External(_) => 1,
                LinkFault::Reach { .. } => 1,
                LinkFault::Starts { .. } => 1,
                LinkFault::Space(_) => 1,
            },
            FilesFault::Link(fault) => fault.status(),
        }
    }

    fn print<K: Sink>(&self, writer: &mut K) {
        match self {
            FilesFault::File { fault, front } => print_file(writer, front.as_str(), *fault),
            FilesFault::Link(fault) => fault.print(writer),
        }
    }
}
