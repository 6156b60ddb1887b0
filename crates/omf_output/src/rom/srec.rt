//! Motorola S-records.

ghost use Rattle.std.specs.Prelude.{◌≡◌, ◌+◌, ◌/◌, ◌%◌, ◌<◌, ◌≤◌, ◌++◌, ◌∷◌, [], List, ℕ, length, OnOk};
ghost use Rattle.omf_frame.specs.Bytes.{AddsText};
ghost use Rattle.omf_output.specs.Rom.Cut.{pieces};
ghost use Rattle.omf_output.specs.Rom.Motorola.{complement, data_digit, end_digit, header_line, limit, record_line, runs_text, s_lines, s_text};
ghost use Rattle.omf_output.specs.Rom.Runs.{AreBelow};
ghost use Rattle.omf_output.specs.Rom.Spelled.{line};

use crate::rom::cut::split_piece;
use crate::rom::line::{byte_sum, push_line};
use crate::rom::run::Run;
use std::alloc::AllocError;

/// How many bits the addresses of a file have.
#[derive(Clone, Copy, Debug, PartialEq, Eq)]
pub enum SAddress {
    /// Records S1 and S9. The header record S0 is the same for all three.
    Bits16,
    /// Records S2 and S8.
    Bits24,
    /// Records S3 and S7.
    Bits32,
}

impl SAddress {
    /// The first address that has no record: 64 KB, 16 MB or 4 GB.
    pub fn limit(self) -> u64
        ensures { result ≡ limit self }
    {
        match self {
            SAddress::Bits16 => 0x1_0000,
            SAddress::Bits24 => 0x100_0000,
            SAddress::Bits32 => 0x1_0000_0000,
        }
    }

    /// The digit of the type of data records.
    fn data_digit(self) -> u8
        ensures { result ≡ data_digit self }
    {
        match self {
            SAddress::Bits16 => b'1',
            SAddress::Bits24 => b'2',
            SAddress::Bits32 => b'3',
        }
    }

    /// The digit of the type of the last record.
    fn end_digit(self) -> u8
        ensures { result ≡ end_digit self }
    {
        match self {
            SAddress::Bits16 => b'9',
            SAddress::Bits24 => b'8',
            SAddress::Bits32 => b'7',
        }
    }
}

/// Appends a record of a head and data.
fn push_summed(out: &mut Vec<u8>, digit: u8, head: &[u8], body: &[u8]) -> Result<(), AllocError>
    ensures { AddsText result out.old.items out.new.items (line (83 ∷ digit ∷ []) (head.now ++ body.now ++ complement (head.now ++ body.now) ∷ [])) }
{
    let checksum = 255 - byte_sum(head).wrapping_add(byte_sum(body));
    push_line(out, &[b'S', digit], head, body, checksum)
}

/// The bytes of an address, big-endian.
fn big_endian(address: u32) -> [u8; 4]
    ensures { result ≡ address / 16777216 % 256 ∷ address / 65536 % 256 ∷ address / 256 % 256 ∷ address % 256 ∷ [] }
{
    [
        (address / 0x100_0000 % 256) as u8,
        (address / 0x1_0000 % 256) as u8,
        (address / 256 % 256) as u8,
        (address % 256) as u8,
    ]
}

/// Appends a record of a type, given by its digit.
fn push_record(
    out: &mut Vec<u8>,
    digit: u8,
    width: SAddress,
    address: u32,
    body: &[u8],
) -> Result<(), AllocError>
    requires { length body.now ≤ 16 }
    ensures { AddsText result out.old.items out.new.items (record_line digit width address body.now) }
{
    let [a, b, c, d] = big_endian(address);
    let count = body.len() as u8 + 1;
    match width {
        SAddress::Bits16 => push_summed(out, digit, &[count + 2, c, d], body),
        SAddress::Bits24 => push_summed(out, digit, &[count + 3, b, c, d], body),
        SAddress::Bits32 => push_summed(out, digit, &[count + 4, a, b, c, d], body),
    }
}

/// Appends a piece of a run.
fn push_piece(
    out: &mut Vec<u8>,
    width: SAddress,
    address: u32,
    bytes: &[u8],
) -> Result<(), AllocError>
    requires { length bytes.now ≤ 16 }
    ensures { OnOk result ((later : List (ℕ × List ℕ)) → out.new.items ++ s_lines width later ≡ out.old.items ++ s_lines width ((address, bytes.now) ∷ later)) }
{
    push_record(out, width.data_digit(), width, address, bytes)
}

/// Appends the pieces of a run.
fn push_run(out: &mut Vec<u8>, width: SAddress, run: &Run<'_>) -> Result<(), AllocError>
    requires { run.now.address + length run.now.bytes.now ≤ limit width }
    ensures { OnOk result ((later : List (ℕ × List ℕ)) → out.new.items ++ s_lines width later ≡ out.old.items ++ s_lines width (pieces run.now.address run.now.bytes.now ++ later)) }
{
    let mut address = u64::from(run.address);
    let mut rest = run.bytes;
    while !rest.is_empty() {
        let (piece, others) = split_piece(address, rest);
        push_piece(out, width, address as u32, piece)?;
        address += 16 - address % 16;
        rest = others;
    }
    Ok(())
}

/// Appends the header record: S0 with the text `HDR`.
fn push_header(out: &mut Vec<u8>) -> Result<(), AllocError>
    ensures { AddsText result out.old.items out.new.items header_line }
{
    push_record(out, b'0', SAddress::Bits16, 0, b"HDR")
}

/// Appends runs as S-records, and a record with the start address.
fn push_runs(
    out: &mut Vec<u8>,
    width: SAddress,
    start: u32,
    runs: &[Run<'_>],
) -> Result<(), AllocError>
    requires below { AreBelow (limit width) runs.now }
    requires starts { start < limit width }
    ensures { AddsText result out.old.items out.new.items (runs_text width start runs.now) }
{
    for run in runs {
        push_run(out, width, run)?;
    }
    push_record(out, width.end_digit(), width, start, &[])
}

/// Appends a header record (S0), runs as S-records, and a record with the start address.
///
/// # Errors
///
/// Out of memory. Some of the text may then be in `out`.
pub fn write_s_records(
    out: &mut Vec<u8>,
    width: SAddress,
    start: u32,
    runs: &[Run<'_>],
) -> Result<(), AllocError>
    requires below { AreBelow (limit width) runs.now }
    requires starts { start < limit width }
    ensures { AddsText result out.old.items out.new.items (s_text width start runs.now) }
{
    push_header(out)?;
    push_runs(out, width, start, runs)
}
