//! The line printed for a fault, written word by word.

ghost use Rattle.std.specs.Prelude.{◌≡◌, ◌++◌, Ok, flat_map};
ghost use Rattle.omf_cmd.specs.FaultLine.{fault_text};
ghost use Rattle.omf_cmd.specs.Printed.{line, spaced};
ghost use Rattle.omf_cmd.specs.Runs.{IsWritten, PrintsOr};
ghost use Rattle.omf_cmd.specs.declared.fault.RunFault.TheVariants.{Write};
ghost use Rattle.omf_lines.specs.Faults.{input_at, link_words, module_words, not_linked};
ghost use Rattle.omf_linking.specs.declared.fault.LinkFault.TheVariants.{NoText};

use itoa::Buffer;
use omf_cmd::{Fault, RunFault, print_all, print_words, write_words};
use omf_frame::Sink;
use omf_linking::LinkFault;

/// Writes the front of a line: a module.
fn write_module<K: Sink>(writer: &mut K, module: u32) -> Result<(), RunFault>
    ensures { PrintsOr Write (K.seen writer.old) (K.seen writer.new) (Ok (flat_map spaced (module_words «module»))) result }
{
    let mut number = Buffer::new();
    write_words(writer, &["module", number.format(u64::from(module) + 1)])
}

/// Prints the line of a module's fault: the module, then the line of `omf`.
fn print_in_module<K: Sink>(writer: &mut K, module: u32, fault: &RunFault)
    ensures { IsWritten (K.seen writer.old) (K.seen writer.new) (flat_map spaced (module_words «module») ++ fault_text fault.now) }
{
    if let Ok(()) = write_module(writer, module) {
        fault.print(writer);
    }
}

/// Writes the front of the line of what is no text: its offset in the input.
fn write_offset<K: Sink>(writer: &mut K, at: u64) -> Result<(), RunFault>
    ensures { PrintsOr Write (K.seen writer.old) (K.seen writer.new) (Ok (input_at at)) result }
{
    let mut number = Buffer::new();
    print_all(writer, b"input at ", RunFault::Write)?;
    print_all(writer, number.format(at).as_bytes(), RunFault::Write)
}

/// Prints the line of what follows the modules and is no text.
fn print_no_text<K: Sink>(writer: &mut K, at: u64)
    ensures { IsWritten (K.seen writer.old) (K.seen writer.new) (line (link_words (NoText at))) }
{
    if let Ok(()) = write_offset(writer, at) {
        print_words(writer, &[": no module and no text"]);
    }
}

/// Prints that modules are not linked.
fn print_not_linked<K: Sink>(writer: &mut K)
    ensures { IsWritten (K.seen writer.old) (K.seen writer.new) (line not_linked) }
{
    print_words(writer, &["not linked"]);
}

/// Prints the line of a link fault that has no lines of its own. One about a module and its parts, or about a line of the text, has such lines.
pub fn print_link<K: Sink>(writer: &mut K, fault: LinkFault)
    ensures { IsWritten (K.seen writer.old) (K.seen writer.new) (line (link_words fault)) }
{
    match fault {
        LinkFault::Memory => RunFault::Memory.print(writer),
        LinkFault::Read => RunFault::Read.print(writer),
        LinkFault::Refused {
            module,
            reason,
            place,
        } => print_in_module(writer, module, &RunFault::Refused { reason, place }),
        LinkFault::NoText(at) => print_no_text(writer, at),
        LinkFault::NoModules => print_words(writer, &["no modules"]),
        LinkFault::Line { .. } => print_not_linked(writer),
        LinkFault::External(_) => print_not_linked(writer),
        LinkFault::Reach { .. } => print_not_linked(writer),
        LinkFault::Starts { .. } => print_not_linked(writer),
        LinkFault::Space(_) => print_not_linked(writer),
    }
}
