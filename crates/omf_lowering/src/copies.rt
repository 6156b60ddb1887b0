//! The copies of a location in expanded blocks.

ghost use Rattle.std.specs.Prelude.{◌≡◌, ◌≤◌, ◌++◌, IfOk, OnOk, length, take, vec_len};
ghost use Rattle.omf_image.specs.Inner.Lengths.{capped};
ghost use Rattle.omf_lowering.specs.Inner.Turns.{further, in_turns, offsets_of};

use std::alloc::{AllocError, Global};
use std::marker::Model;

/// How a block repeats its contents: how often, and the number of bytes that they expand to.
#[derive(Clone, Copy, Drop)]
pub(crate) struct Turn {
    pub count: u32,
    pub size: u64,
}

/// The copies of a location: the offset of the first in the expanded data, and the turns of the blocks around it, of the innermost first.
#[derive(Drop)]
pub(crate) struct Copies {
    pub first: u64,
    pub turns: Vec<Turn>,
}

impl Model for Copies {
    ghost use Rattle.omf_lowering.specs.Inner.Turns.{Path};

    ghost Value = { Path };

    ghost view = { λ c. record { first = c.first; turns = c.turns.items } };
}

/// Appends the first `len` offsets, each further by `by` bytes. Offsets in expanded data are below 2^28; one past 2^64 counts as if memory ran out.
fn push_moved(offsets: &mut Vec<u64>, len: usize, by: u64) -> Result<(), AllocError>
    requires { len ≤ vec_len offsets.old }
    ensures { OnOk result (offsets.new.items ≡ offsets.old.items ++ further by (take len offsets.old.items)) }
{
    for at in 0..len {
        let Some(offset) = offsets[at].checked_add(by) else {
            return Err(AllocError);
        };
        offsets.push(offset)?;
    }
    Ok(())
}

/// Repeats the offsets.
fn repeat(offsets: &mut Vec<u64>, turn: &Turn) -> Result<(), AllocError>
    ensures { OnOk result (offsets.new.items ≡ in_turns offsets.old.items turn.now) }
{
    if turn.count == 0 {
        offsets.clear();
        return Ok(());
    }
    let len = offsets.len();
    for number in 1..turn.count {
        let Some(by) = turn.size.checked_mul(u64::from(number)) else {
            return Err(AllocError);
        };
        push_moved(offsets, len, by)?;
    }
    Ok(())
}

impl Copies {
    /// The number of copies, saturating at 2^64 - 1.
    pub(crate) fn count(&self) -> u64
        ensures { result ≡ capped (length (offsets_of self.now)) }
    {
        let mut count: u64 = 1;
        for turn in &self.turns {
            count = count.saturating_mul(u64::from(turn.count));
        }
        count
    }

    /// The offsets of the copies in the expanded data.
    pub(crate) fn offsets(&self, alloc: Global) -> Result<Vec<u64>, AllocError>
        ensures { IfOk result (λ v. v.items ≡ offsets_of self.now) }
    {
        let mut offsets = Vec::new(alloc);
        if self.count() == 0 {
            return Ok(offsets);
        }
        offsets.push(self.first)?;
        for turn in &self.turns {
            repeat(&mut offsets, turn)?;
        }
        Ok(offsets)
    }
}
