//! What a task writes.

ghost use Rattle.std.specs.Prelude.{◌≡◌, IfOk, Ok};
ghost use Rattle.omf_cmd.specs.Runs.{PrintsOr};
ghost use Rattle.omf_cmd.specs.declared.fault.RunFault.TheVariants.{Write};
ghost use Rattle.omf_image.specs.Inner.Joined.{runs_of};
ghost use Rattle.omf_image.specs.Overlay.{byte_at};
ghost use Rattle.omf_linker.specs.Link.MemoryText.{image_text};

use crate::link::printing::print_memory;
use omf_cmd::{Gathered, RunFault, print_all, print_start};
use omf_frame::Sink;
use omf_image::Image;
use std::alloc::{AllocError, Global};
use std::marker::Model;

/// What a task writes: the memory of modules in lines, and a text after them. Contracts see it as its bytes. The lines are made while they are
/// written.
#[derive(Drop)]
pub struct Output {
    /// The memory: segment 0 of the image.
    memory: Image,
    /// What comes after its lines.
    end: Vec<u8>,
}

impl Model for Output {
    ghost use Rattle.std.specs.Prelude.{ℕ, List, ◌++◌};
    ghost use Rattle.omf_image.specs.Inner.Joined.{runs_of};
    ghost use Rattle.omf_image.specs.Overlay.{byte_at};
    ghost use Rattle.omf_linker.specs.Link.MemoryText.{memory_text};

    ghost Value = { List ℕ };

    ghost view = { λ o. memory_text (byte_at o.memory 0) (runs_of o.memory 0) ++ o.end.items };
}

impl Output {
    /// The lines of a memory, and the line of the start address, if there is one: its selector in four hexadecimal digits, a colon, and its
    /// offset in eight.
    ///
    /// # Errors
    ///
    /// `AllocError` if memory runs out.
    pub fn of_memory(
        alloc: Global,
        memory: Image,
        start: Option<(u16, u32)>,
    ) -> Result<Output, AllocError>
        ensures { IfOk result (λ output. output ≡ image_text (byte_at memory 0) (runs_of memory 0) start) }
    {
        let mut end = Vec::new(alloc);
        print_start(&mut end, start)?;
        Ok(Output { memory, end })
    }

    /// A text alone.
    pub fn of_text(alloc: Global, text: Vec<u8>) -> Output
        ensures { result ≡ text.items }
    {
        Output {
            memory: Image::new(alloc),
            end: text,
        }
    }

    /// Writes all of it, in blocks. It takes no memory.
    ///
    /// # Errors
    ///
    /// `Write` if the writer failed, or took nothing. A front of the bytes may then be written.
    pub fn print<K: Sink>(&self, writer: &mut K) -> Result<(), RunFault>
        ensures { PrintsOr Write (K.seen writer.old) (K.seen writer.new) (Ok self.now) result }
    {
        print_memory(writer, &self.memory)?;
        print_all(writer, &self.end, RunFault::Write)
    }

    /// Returns its bytes.
    ///
    /// # Errors
    ///
    /// `AllocError` if memory runs out.
    pub fn bytes(&self, alloc: Global) -> Result<Vec<u8>, AllocError>
        ensures { IfOk result (λ bytes. bytes.items ≡ self.now) }
    {
        let mut gathered = Gathered::new(alloc);
        match self.print(&mut gathered) {
            Ok(()) => Ok(gathered.text),
            Err(_) => Err(AllocError),
        }
    }
}
