//! The forms of files for chips.

ghost use Rattle.std.specs.Prelude.{◌≡◌, IfOk};
ghost use Rattle.omf_output.specs.Rom.Binary.{Ascend};
ghost use Rattle.omf_output.specs.Rom.Memory.{high, low};
ghost use Rattle.omf_output.specs.Inner.Outside.{text_of};

use crate::rom::binary::write_binary;
use crate::rom::hex::{HexBase, write_hex};
use crate::rom::run::Run;
use crate::rom::srec::{SAddress, write_s_records};
use std::alloc::{AllocError, Global};

/// The addresses of a chip, and the byte that it has where nothing is written.
#[derive(Clone, Copy, Debug, PartialEq, Eq)]
pub struct Chip {
    /// The address of its first byte.
    pub base: u32,
    /// The number of its bytes.
    pub size: u32,
    /// The byte at an address without one.
    pub fill: u8,
}

/// The form of a file for a chip.
#[derive(Clone, Copy, Debug, PartialEq, Eq)]
pub enum Form {
    /// A raw binary: the bytes of the chip.
    Binary(Chip),
    /// Intel HEX.
    Hex(HexBase),
    /// Motorola S-records, with the start address 0.
    SRecords(SAddress),
}

impl Form {
    /// The first address that the form has.
    pub fn low(self) -> u64
        ensures { result ≡ low self }
    {
        match self {
            Form::Binary(chip) => u64::from(chip.base),
            Form::Hex(_) => 0,
            Form::SRecords(_) => 0,
        }
    }

    /// The first address after those that the form has.
    pub fn high(self) -> u64
        ensures { result ≡ high self }
    {
        match self {
            Form::Binary(chip) => u64::from(chip.base) + u64::from(chip.size),
            Form::Hex(base) => base.limit(),
            Form::SRecords(width) => width.limit(),
        }
    }

    /// Runs in this form.
    ///
    /// # Errors
    ///
    /// Out of memory.
    pub fn write(self, alloc: Global, runs: &[Run<'_>]) -> Result<Vec<u8>, AllocError>
        requires { Ascend (low self) (high self) runs.now }
        ensures { IfOk result (λ file. file.items ≡ text_of self runs.now) }
    {
        let mut file = Vec::new(alloc);
        match self {
            Form::Binary(chip) => {
                write_binary(&mut file, chip.base, chip.size, chip.fill, runs)?;
            }
            Form::Hex(base) => write_hex(&mut file, base, runs)?,
            Form::SRecords(width) => write_s_records(&mut file, width, 0, runs)?,
        }
        Ok(file)
    }
}
