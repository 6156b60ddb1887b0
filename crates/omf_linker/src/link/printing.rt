//! The bytes of a memory as text, written in blocks.

ghost use Rattle.std.specs.Prelude.{◌≡◌, ◌+◌, ◌++◌, ◌≤◌, ◌^◌, Ok, length};
ghost use Rattle.omf_cmd.specs.Inner.RunLines.{lines_of};
ghost use Rattle.omf_cmd.specs.Runs.{PrintsOr};
ghost use Rattle.omf_cmd.specs.declared.fault.RunFault.TheVariants.{Write};
ghost use Rattle.omf_image.specs.Inner.Joined.{runs_of};
ghost use Rattle.omf_image.specs.Overlay.{byte_at};
ghost use Rattle.omf_linker.specs.Inner.Blocks.{Passes};
ghost use Rattle.omf_linker.specs.Link.MemoryText.{address_text, memory_text};

use crate::link::block::Block;
use omf_cmd::RunFault;
use omf_frame::Sink;
use omf_image::Image;

/// The number of bytes on a full line.
const LINE_BYTES: usize = 16;

/// Prints a run: lines of 16 bytes from its first address on; the last line may be shorter.
fn print_run<K: Sink>(
    writer: &mut K,
    block: &mut Block,
    first: u32,
    bytes: &[u8],
) -> Result<(), RunFault>
    requires { first + length bytes.now ≤ 2 ^ 32 }
    ensures { Passes Write (K.seen writer.old) (K.seen writer.new) result (block.old ++ lines_of address_text first bytes.now) block.new }
{
    let mut address = u64::from(first);
    let mut rest = bytes;
    while !rest.is_empty() {
        let (line, others) = rest.split_at(rest.len().min(LINE_BYTES));
        block.make_room(writer)?;
        block.add_line(address as u32, line);
        address += line.len() as u64;
        rest = others;
    }
    Ok(())
}

/// Prints the runs of a memory, in rising order.
fn print_runs<K: Sink>(writer: &mut K, block: &mut Block, memory: &Image) -> Result<(), RunFault>
    ensures { Passes Write (K.seen writer.old) (K.seen writer.new) result (block.old ++ memory_text (byte_at memory.now 0) (runs_of memory.now 0)) block.new }
{
    let mut k = 0;
    while let Some((first, bytes)) = memory.run_with_bytes(0, k) {
        print_run(writer, block, first, bytes)?;
        k += 1;
    }
    Ok(())
}

/// Prints the bytes of a memory. The memory is segment 0 of an image. Its runs of bytes come in rising order, each in lines of 16 bytes; the
/// last line may be shorter. A line has the address of its first byte in eight hexadecimal digits, a colon, and each byte in two digits after
/// a space. The lines are written in blocks of 8 KB, and no memory is taken for them.
///
/// # Errors
///
/// `Write` if the writer failed, or took nothing. A front of the text may then be written.
pub(crate) fn print_memory<K: Sink>(writer: &mut K, memory: &Image) -> Result<(), RunFault>
    ensures { PrintsOr Write (K.seen writer.old) (K.seen writer.new) (Ok (memory_text (byte_at memory.now 0) (runs_of memory.now 0))) result }
{
    let mut block = Block::new();
    print_runs(writer, &mut block, memory)?;
    block.write(writer)
}
