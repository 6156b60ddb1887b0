//! Bytes at an address.

ghost use Rattle.std.specs.Prelude.{◌+◌, ◌<◌, IfNone, IfSome};
ghost use Rattle.omf_output.specs.Rom.Runs.{AreBelow, IsFirstAbove};

/// Bytes from an address on.
#[derive(Clone, Copy)]
pub struct Run<'a> {
    /// The address of the first byte.
    pub address: u32,
    /// The bytes.
    pub bytes: &'a [u8],
}

/// The first of the runs that does not end at `end` or below.
pub fn first_above(runs: &[Run<'_>], end: u64) -> Option<usize>
    ensures none { IfNone result (AreBelow end runs.now) }
    ensures some { IfSome result (λ i. IsFirstAbove end runs.now i) }
{
    for (i, run) in runs.iter().enumerate() {
        if u64::from(run.address) + run.bytes.len() as u64 > end {
            return Some(i);
        }
    }
    None
}
