//! Lines of a memory on the way to a writer.

ghost use Rattle.std.specs.Prelude.{◌≡◌, ◌+◌, ◌*◌, ◌≤◌, [], ◌++◌, length, Ok, OnOk};
ghost use Rattle.omf_cmd.specs.Inner.RunLines.{line_text};
ghost use Rattle.omf_cmd.specs.Runs.{PrintsOr};
ghost use Rattle.omf_cmd.specs.declared.fault.RunFault.TheVariants.{Write};
ghost use Rattle.omf_linker.specs.Inner.Blocks.{Passes};
ghost use Rattle.omf_linker.specs.Link.MemoryText.{address_text};

use omf_cmd::{RunFault, eight_digits, print_all, write_bytes};
use omf_frame::Sink;
use std::marker::Model;

/// The number of bytes of a block.
const SIZE: usize = 8192;

/// The most bytes of a line: nine of its address, 48 of 16 bytes, and a line feed.
const LINE: usize = 58;

/// Writes an address over nine bytes: eight hexadecimal digits and a colon.
fn write_address(text: &mut [u8], address: u32)
    requires { length text.old ≡ 9 }
    ensures { text.new ≡ address_text address }
{
    let (digits, colon) = text.split_at_mut(8);
    digits.copy_from_slice(&eight_digits(address));
    colon.copy_from_slice(b":");
}

/// Writes a line over a text of its length: the address of its first byte, and its bytes.
fn write_line(text: &mut [u8], address: u32, bytes: &[u8])
    requires { length text.old ≡ 10 + 3 * length bytes.now }
    ensures { text.new ≡ line_text address_text address bytes.now }
{
    let (place, others) = text.split_at_mut(9);
    let (shown, end) = others.split_at_mut(3 * bytes.len());
    write_address(place, address);
    write_bytes(shown, bytes);
    end.copy_from_slice(b"\n");
}

/// Lines that are not written yet. Contracts see them as their text. It takes no memory but its own.
#[derive(Drop)]
pub(crate) struct Block {
    bytes: [u8; SIZE],
    len: usize,
}

impl Model for Block {
    ghost use Rattle.std.specs.Prelude.{ℕ, List, ◌≤◌, take};

    ghost Value = { List ℕ };

    ghost view = { λ b. take b.len b.bytes };

    ghost invariant = { λ b. b.len ≤ 8192 };
}

impl Block {
    /// Returns a block without lines.
    pub fn new() -> Block
        ensures { result ≡ [] }
    {
        Block {
            bytes: [0; SIZE],
            len: 0,
        }
    }

    /// Writes the lines, and drops them.
    pub fn write<K: Sink>(&mut self, writer: &mut K) -> Result<(), RunFault>
        ensures printed { PrintsOr Write (K.seen writer.old) (K.seen writer.new) (Ok self.old) result }
        ensures dropped { OnOk result (self.new ≡ []) }
    {
        print_all(writer, &self.bytes[..self.len], RunFault::Write)?;
        self.len = 0;
        Ok(())
    }

    /// Writes the lines if there is no room for one more.
    pub fn make_room<K: Sink>(&mut self, writer: &mut K) -> Result<(), RunFault>
        ensures passes { Passes Write (K.seen writer.old) (K.seen writer.new) result self.old self.new }
        ensures room { OnOk result (length self.new + 58 ≤ 8192) }
    {
        if self.len > SIZE - LINE {
            self.write(writer)?;
        }
        Ok(())
    }

    /// Adds a line: the address of its first byte, and its bytes, at most 16.
    pub fn add_line(&mut self, address: u32, bytes: &[u8])
        requires room { length self.old + 58 ≤ 8192 }
        requires short { length bytes.now ≤ 16 }
        ensures { self.new ≡ self.old ++ line_text address_text address bytes.now }
    {
        let end = self.len + 10 + 3 * bytes.len();
        write_line(&mut self.bytes[self.len..end], address, bytes);
        self.len = end;
    }
}
