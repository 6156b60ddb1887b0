//! Intel HEX.

ghost use Rattle.std.specs.Prelude.{◌≡◌, ◌+◌, ◌*◌, ◌<◌, ◌≤◌, ◌++◌, ◌∷◌, List, ℕ, length, OnOk};
ghost use Rattle.omf_frame.specs.Bytes.{AddsText};
ghost use Rattle.omf_output.specs.Rom.Cut.{pieces};
ghost use Rattle.omf_output.specs.Rom.IntelHex.{record_line, data_line, base_line, hex_lines, hex_text, limit};
ghost use Rattle.omf_output.specs.Rom.Runs.{AreBelow};

use crate::rom::cut::split_piece;
use crate::rom::line::{byte_sum, push_line};
use crate::rom::run::Run;
use std::alloc::AllocError;

/// How a file gives the addresses above 64 KB.
#[derive(Clone, Copy, Debug, PartialEq, Eq)]
pub enum HexBase {
    /// By the upper 16 of 32 bits (records of type 04).
    Linear,
    /// By a segment, below 1 MB (records of type 02).
    Segment,
}

impl HexBase {
    /// The first address that has no record: 4 GB, or 1 MB by segments.
    pub fn limit(self) -> u64
        ensures { result ≡ limit self }
    {
        match self {
            HexBase::Linear => 0x1_0000_0000,
            HexBase::Segment => 0x10_0000,
        }
    }
}

/// Appends a record of a head and data.
fn push_record(out: &mut Vec<u8>, head: &[u8], body: &[u8]) -> Result<(), AllocError>
    ensures { AddsText result out.old.items out.new.items (record_line (head.now ++ body.now)) }
{
    let checksum = byte_sum(head).wrapping_add(byte_sum(body)).wrapping_neg();
    push_line(out, b":", head, body, checksum)
}

/// Appends a data record.
fn push_data(out: &mut Vec<u8>, address: u32, bytes: &[u8]) -> Result<(), AllocError>
    requires { length bytes.now ≤ 16 }
    ensures { AddsText result out.old.items out.new.items (data_line address bytes.now) }
{
    let [low, high, _, _] = address.to_le_bytes();
    push_record(out, &[bytes.len() as u8, high, low, 0], bytes)
}

/// Appends the record for the 64 KB of a number.
fn push_base(out: &mut Vec<u8>, base: HexBase, upper: u16) -> Result<(), AllocError>
    requires { 65536 * upper < limit base }
    ensures { AddsText result out.old.items out.new.items (base_line base upper) }
{
    match base {
        HexBase::Linear => {
            let [low, high] = upper.to_le_bytes();
            push_record(out, &[2, 0, 0, 4], &[high, low])
        }
        HexBase::Segment => push_record(out, &[2, 0, 0, 2], &[(upper * 16) as u8, 0]),
    }
}

/// Appends a piece of a run, after the record for its 64 KB if the piece before was in others.
fn push_piece(
    out: &mut Vec<u8>,
    base: HexBase,
    upper: &mut u32,
    address: u32,
    bytes: &[u8],
) -> Result<(), AllocError>
    requires below { address < limit base }
    requires few { length bytes.now ≤ 16 }
    ensures { OnOk result ((later : List (ℕ × List ℕ)) → out.new.items ++ hex_lines base upper.new later ≡ out.old.items ++ hex_lines base upper.old ((address, bytes.now) ∷ later)) }
{
    let own = address / 0x1_0000;
    if own != *upper {
        push_base(out, base, own as u16)?;
        *upper = own;
    }
    push_data(out, address, bytes)
}

/// Appends the pieces of a run.
fn push_run(
    out: &mut Vec<u8>,
    base: HexBase,
    upper: &mut u32,
    run: &Run<'_>,
) -> Result<(), AllocError>
    requires { run.now.address + length run.now.bytes.now ≤ limit base }
    ensures { OnOk result ((later : List (ℕ × List ℕ)) → out.new.items ++ hex_lines base upper.new later ≡ out.old.items ++ hex_lines base upper.old (pieces run.now.address run.now.bytes.now ++ later)) }
{
    let mut address = u64::from(run.address);
    let mut rest = run.bytes;
    while !rest.is_empty() {
        let (piece, others) = split_piece(address, rest);
        push_piece(out, base, upper, address as u32, piece)?;
        address += 16 - address % 16;
        rest = others;
    }
    Ok(())
}

/// Appends runs as Intel HEX, with an end of file record.
///
/// # Errors
///
/// Out of memory. Some of the text may then be in `out`.
pub fn write_hex(out: &mut Vec<u8>, base: HexBase, runs: &[Run<'_>]) -> Result<(), AllocError>
    requires { AreBelow (limit base) runs.now }
    ensures { AddsText result out.old.items out.new.items (hex_text base runs.now) }
{
    let mut upper = 0;
    for run in runs {
        push_run(out, base, &mut upper, run)?;
    }
    push_record(out, &[0, 0, 0, 1], &[])
}
