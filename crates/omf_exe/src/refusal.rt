//! Why files are no program, as a line.

ghost use Rattle.omf_exe.specs.Refusing.{refusal_report};

use omf_cmd::{Fault, tell};
use omf_frame::Sink;
use omf_lines::FilesFault;

/// Why files are no program.
#[derive(Drop)]
pub enum Refusal {
    /// A file does not hold modules and padding alone; or memory ran out.
    Files(FilesFault),
    /// No module and no member defines an external, as a line.
    Undefined(Vec<u8>),
    /// Any other reason, as a line; as a line for each name if more than one public has it.
    Line(Vec<u8>),
}

impl Fault for Refusal {
    ghost report = { refusal_report };

    fn status(&self) -> u8 {
        match self {
            Refusal::Files(fault) => fault.status(),
            Refusal::Undefined(_) | Refusal::Line(_) => 1,
        }
    }

    fn print<K: Sink>(&self, writer: &mut K) {
        match self {
            Refusal::Files(fault) => fault.print(writer),
            Refusal::Undefined(line) | Refusal::Line(line) => tell(writer, line),
        }
    }
}
