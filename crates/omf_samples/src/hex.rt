//! The decoder of rows in hexadecimal.

ghost use Rattle.std.specs.Prelude.{◌≡◌, ◌⊎◌, ◌<◌, ◌+◌, ◌^◌, [], Ok, Err, IfOk, IfErr, OnOk, map, length};
ghost use Rattle.omf_samples.specs.Hex.{digit, pair, row_after, rows_after};
ghost use Rattle.omf_samples.specs.declared.hex.BadHex.TheVariants.{Memory};

use std::alloc::{AllocError, AllocFailed, Global};
use thiserror::Error;

/// Why a row gives no bytes. Offsets count the row's characters from 0.
#[derive(Clone, Copy, Debug, PartialEq, Eq, Error)]
pub enum BadHex {
    /// Out of memory.
    #[error("out of memory")]
    Memory,
    /// The character at this offset is no hexadecimal digit.
    #[error("no hexadecimal digit at offset {0}")]
    Digit(usize),
    /// The digit at this offset is the last one, and has no second digit.
    #[error("half a byte at offset {0}")]
    Half(usize),
}

impl From<AllocError> for BadHex {
    ghost from_gives = { λ _ e. e ≡ Memory };

    fn from(_error: AllocError) -> BadHex {
        BadHex::Memory
    }
}

impl<T: Drop> From<AllocFailed<T>> for BadHex {
    ghost from_gives = { λ _ e. e ≡ Memory };

    fn from(_error: AllocFailed<T>) -> BadHex {
        BadHex::Memory
    }
}

/// The value of the digit `code` at offset `at`.
fn digit(at: usize, code: u8) -> Result<u8, BadHex>
    ensures { result ≡ digit at code }
{
    match char::from(code).to_digit(16) {
        Some(value) => Ok(value as u8),
        None => Err(BadHex::Digit(at)),
    }
}

/// The byte whose first digit is `high`, at offset `at`; the second digit follows in `rest`.
fn pair(at: usize, high: u8, rest: &[u8]) -> Result<u8, BadHex>
    requires { at + length rest.now < 2 ^ 63 }
    ensures { result ≡ pair at high rest.now }
{
    let high = digit(at, high)?;
    match rest.first() {
        Some(low) => Ok(high * 16 + digit(at + 1, *low)?),
        None => Err(BadHex::Half(at)),
    }
}

/// Appends the bytes of a row.
///
/// An `Err` that is not `Memory` is the first fault of the row; the bytes before it are then appended.
#[tactic(auto, using(crate::proofs::HexLaws::past_space, crate::proofs::HexLaws::next_byte, crate::proofs::HexLaws::has_second))]
pub fn push_row(bytes: &mut Vec<u8>, row: &str) -> Result<(), BadHex>
    ensures ok { OnOk result (row_after bytes.old.items 0 row.now ≡ Ok bytes.new.items) }
    ensures err { IfErr result (λ e. (e ≡ Memory) ⊎ (row_after bytes.old.items 0 row.now ≡ Err e)) }
{
    let mut left = row.as_bytes();
    let mut at = 0;
    while let Some((first, rest)) = left.split_first() {
        if *first == b' ' {
            left = rest;
            at += 1;
            continue;
        }
        bytes.push(pair(at, *first, rest)?)?;
        left = rest.split_at(1).1;
        at += 2;
    }
    Ok(())
}

/// The bytes of some rows, one after another.
///
/// An `Err` that is not `Memory` is the first fault of the first row that has one.
pub fn joined(alloc: Global, rows: &[&str]) -> Result<Vec<u8>, BadHex>
    ensures ok { IfOk result (λ bytes. rows_after [] (map (λ row. row.now) rows.now) ≡ Ok bytes.items) }
    ensures err { IfErr result (λ e. (e ≡ Memory) ⊎ (rows_after [] (map (λ row. row.now) rows.now) ≡ Err e)) }
{
    let mut bytes = Vec::new(alloc);
    for row in rows {
        push_row(&mut bytes, *row)?;
    }
    Ok(bytes)
}

/// The bytes of one row.
///
/// An `Err` that is not `Memory` is the first fault of the row.
pub fn bytes_of(alloc: Global, row: &str) -> Result<Vec<u8>, BadHex>
    ensures ok { IfOk result (λ bytes. row_after [] 0 row.now ≡ Ok bytes.items) }
    ensures err { IfErr result (λ e. (e ≡ Memory) ⊎ (row_after [] 0 row.now ≡ Err e)) }
{
    let mut bytes = Vec::new(alloc);
    push_row(&mut bytes, row)?;
    Ok(bytes)
}
