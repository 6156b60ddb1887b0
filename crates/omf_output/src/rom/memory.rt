//! A memory as a file for a chip.

ghost use Rattle.std.specs.Prelude.{◌≡◌, ◌++◌, ◌∷◌, [], ◌≤◌, ◌+◌, ◌^◌, length, IfOk, OnOk};
ghost use Rattle.omf_frame.specs.Bytes.{AreBytes};
ghost use Rattle.omf_records.specs.Inner.Seen.{map_ok};
ghost use Rattle.omf_output.specs.Rom.Memory.{AreRunsOf, IsFileOr};
ghost use Rattle.omf_output.specs.Inner.Outside.{first_outside, outside_of};
ghost use Rattle.omf_output.specs.Rom.Runs.{AreBelow, HaveBytes};
ghost use Rattle.omf_output.specs.declared.rom.memory.FileFault.TheVariants.{Memory};

use crate::rom::form::Form;
use crate::rom::run::Run;
use omf_image::Image;
use std::alloc::{AllocError, Global};

/// Why a memory has no file of a form.
#[derive(Clone, Copy, Debug, PartialEq, Eq)]
pub enum FileFault {
    /// The lowest address with a byte that the form does not have.
    Outside(u32),
    /// Out of memory.
    Memory,
}

impl From<AllocError> for FileFault {
    ghost from_gives = { λ _ e. e ≡ Memory };

    fn from(_error: AllocError) -> Self {
        FileFault::Memory
    }
}

/// Adds a run.
fn add_run<'a>(runs: &mut Vec<Run<'a>>, address: u32, bytes: &'a [u8]) -> Result<(), AllocError>
    ensures added { OnOk result (runs.new.items ≡ runs.old.items ++ record { address = address; bytes = bytes.entry } ∷ []) }
    ensures bytes { AreBytes bytes.now }
{
    runs.push(Run { address, bytes })?;
    Ok(())
}

/// The runs of a memory, segment 0 of an image, in rising order.
///
/// # Errors
///
/// Out of memory.
fn runs_of<'a>(alloc: Global, memory: &'a Image) -> Result<Vec<Run<'a>>, AllocError>
    ensures runs { IfOk result (λ v. AreRunsOf memory.now v.items) }
    ensures bytes { IfOk result (λ v. HaveBytes v.items) }
    ensures below { IfOk result (λ v. AreBelow (2 ^ 32) v.items) }
{
    let mut runs = Vec::new(alloc);
    let mut k = 0;
    while let Some((first, bytes)) = memory.run_with_bytes(0, k) {
        add_run(&mut runs, first, bytes)?;
        k += 1;
    }
    Ok(runs)
}

/// The first address of a run that is not between two others.
fn outside_of(from: u64, end: u64, run: &Run<'_>) -> Option<u32>
    requires { run.now.address + length run.now.bytes.now ≤ 2 ^ 32 }
    ensures { result ≡ outside_of from end run.now }
{
    let address = u64::from(run.address);
    if address < from {
        return Some(run.address);
    }
    if end < address + run.bytes.len() as u64 {
        return Some(address.max(end) as u32);
    }
    None
}

/// The first address of runs that is not between two others.
fn first_outside(from: u64, end: u64, runs: &[Run<'_>]) -> Option<u32>
    requires { AreBelow (2 ^ 32) runs.now }
    ensures { result ≡ first_outside from end runs.now }
{
    for run in runs {
        let outside = outside_of(from, end, run);
        if outside.is_some() {
            return outside;
        }
    }
    None
}

/// The file of a memory, segment 0 of an image, in a form: the bytes of a binary, or the text of its runs.
///
/// # Errors
///
/// `Outside` with the lowest address that has a byte and that the form does not have. `Memory` if memory runs out.
pub fn memory_file(alloc: Global, form: Form, memory: &Image) -> Result<Vec<u8>, FileFault>
    ensures { IsFileOr form memory.now (map_ok (λ file. file.items) result) }
{
    let runs = runs_of(alloc, memory)?;
    if let Some(address) = first_outside(form.low(), form.high(), &runs) {
        return Err(FileFault::Outside(address));
    }
    let file = form.write(alloc, &runs)?;
    Ok(file)
}
