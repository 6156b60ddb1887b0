//! The places of a program at which a pattern is.

ghost use Rattle.std.specs.Prelude.{◌≡◌, IfOk};
ghost use Rattle.std.specs.List.{list_all, zip};
ghost use Rattle.omf_finding.specs.Places.{agrees, lies_at, places};

use std::alloc::{AllocError, Global};

/// An open cell agrees with any byte, a closed one with its own.
fn agrees(cell: Option<u8>, byte: u8) -> bool
    ensures { result ≡ agrees cell byte }
{
    match cell {
        Some(own) => own == byte,
        None => true,
    }
}

/// Each cell agrees with the byte beside it, as far as there are both.
fn all_agree(pattern: &[Option<u8>], bytes: &[u8]) -> bool
    ensures { result ≡ list_all (λ p. agrees p.0 p.1) (zip pattern.now bytes.now) }
{
    pattern
        .iter()
        .zip(bytes)
        .all(|(cell, byte)| agrees(*cell, *byte))
}

/// The pattern is at an offset of a program: it is whole inside it, and each closed byte agrees.
fn lies_at(pattern: &[Option<u8>], program: &[u8], at: usize) -> bool
    ensures { result ≡ lies_at pattern.now program.now at }
{
    at <= program.len() && pattern.len() <= program.len() - at && all_agree(pattern, &program[at..])
}

/// The offsets of a program at which a pattern is, in ascending order. An open byte is `None`.
///
/// # Errors
///
/// `AllocError` if out of memory.
pub fn places(
    alloc: Global,
    pattern: &[Option<u8>],
    program: &[u8],
) -> Result<Vec<usize>, AllocError>
    ensures { IfOk result (λ v. v.items ≡ places pattern.now program.now) }
{
    (0..program.len() + 1)
        .filter(|at| lies_at(pattern, program, *at))
        .collect(alloc)
}
