//! Raw binaries.

ghost use Rattle.std.specs.Prelude.{◌≡◌, ◌+◌, ◌↔◌, IsTrue, replicate};
ghost use Rattle.omf_frame.specs.Bytes.{AddsText};
ghost use Rattle.omf_output.specs.Rom.Binary.{Ascend, binary};

use crate::rom::run::Run;
use std::alloc::AllocError;

/// Appends a byte a number of times.
fn push_fill(out: &mut Vec<u8>, count: u64, fill: u8) -> Result<(), AllocError>
    ensures { AddsText result out.old.items out.new.items (replicate count fill) }
{
    for _i in 0..count {
        out.push(fill)?;
    }
    Ok(())
}

/// Whether the runs ascend, do not overlap, and lie in the `size` addresses from `base` on.
pub fn fits(base: u32, size: u32, runs: &[Run<'_>]) -> bool
    ensures { IsTrue result ↔ Ascend base (base + size) runs.now }
{
    let end = u64::from(base) + u64::from(size);
    let mut from = u64::from(base);
    for run in runs {
        let first = u64::from(run.address);
        if first < from {
            return false;
        }
        from = first + run.bytes.len() as u64;
    }
    from <= end
}

/// Appends the bytes of `size` addresses from `base` on: those of the runs, and elsewhere `fill`.
///
/// # Errors
///
/// Out of memory. Some of the bytes may then be in `out`.
pub fn write_binary(
    out: &mut Vec<u8>,
    base: u32,
    size: u32,
    fill: u8,
    runs: &[Run<'_>],
) -> Result<(), AllocError>
    requires { Ascend base (base + size) runs.now }
    ensures { AddsText result out.old.items out.new.items (binary base (base + size) fill runs.now) }
{
    let end = u64::from(base) + u64::from(size);
    let mut from = u64::from(base);
    for run in runs {
        let first = u64::from(run.address);
        push_fill(out, first - from, fill)?;
        out.extend_from_slice(run.bytes)?;
        from = first + run.bytes.len() as u64;
    }
    push_fill(out, end - from, fill)
}
