//! How externals move, by the publics that they refer to.

ghost use Rattle.std.specs.Prelude.{◌≡◌, ℕ, IfOk, List, OnOk, Option};
ghost use Rattle.omf_check.specs.Module.{recs_of};
ghost use Rattle.omf_placement.specs.Weak.{weak_pairs};
ghost use Rattle.omf_placement.specs.declared.several.pairs.WeakPair.{WeakPair as Pair};
ghost use Rattle.omf_output.specs.declared.exe.movers.Moving.{Moving as Way};
ghost use Rattle.omf_output.specs.Exe.Derived.{base_moving, default_moving};
ghost use Rattle.omf_output.specs.Inner.Referred.{HasPair, IsDefaultTable, defined_moving, only_moving, single_at, source_moving};

use crate::exe::movers::{Movers, Moving};
use omf_check::Checked;
use omf_placement::{Base, Definer, Linkage, Source, WeakPair, weak_pairs};
use std::alloc::{AllocError, Global};
use std::collections::BTreeMap;

/// How the publics with a base move, by what moves of their module.
fn base_moving(movers: &Movers, base: &Base) -> Moving
    ensures { result ≡ base_moving movers.now base.now.group base.now.segment }
{
    let segment = movers.segment_moves(usize::from(base.segment.0));
    Moving {
        address: segment,
        frame: if base.group.0 == 0 {
            segment
        } else {
            movers.group_moves(usize::from(base.group.0))
        },
    }
}

/// How a public moves, by what moves of all modules.
fn source_moving(bases: &[Movers], source: &Source) -> Moving
    ensures { result ≡ source_moving bases.now source.now }
{
    match bases.get(source.base.module) {
        Some(movers) => base_moving(movers, &source.base),
        None => Moving::both(false),
    }
}

/// How the only public moves, if there is exactly one.
fn only_moving(bases: &[Movers], definer: Option<Definer>) -> Option<Moving>
    ensures { result ≡ only_moving bases.now definer }
{
    match definer {
        None => None,
        Some(Definer::Several) => None,
        Some(Definer::Only(source)) => Some(source_moving(bases, &source)),
    }
}

/// How an external moves, by what it refers to; with its default, if that is nothing.
fn defined_moving(bases: &[Movers], default: Option<Moving>, definer: Option<Definer>) -> Moving
    ensures { result ≡ defined_moving bases.now default definer }
{
    match definer {
        None => default.unwrap_or(Moving::both(false)),
        Some(Definer::Several) => Moving::both(false),
        Some(Definer::Only(source)) => source_moving(bases, &source),
    }
}

/// How the default of each weak external of a module moves: that of its first pair whose default refers to a single public.
#[derive(Drop)]
pub(crate) struct DefaultTable {
    by_external: BTreeMap<u16, Moving>,
}

impl DefaultTable {
    /// Adds how the default of a pair moves.
    fn add(&mut self, pair: &WeakPair, moving: Option<Moving>) -> Result<(), AllocError>
        ensures { OnOk result (HasPair self.old.by_external self.new.by_external pair.now moving) }
    {
        let Some(moving) = moving else {
            return Ok(());
        };
        if self.by_external.get(&pair.weak).is_none() {
            self.by_external.insert(pair.weak, moving)?;
        }
        Ok(())
    }

    /// The table of the module with this number.
    pub(crate) fn of(
        alloc: Global,
        bases: &[Movers],
        linkage: &Linkage,
        module: &Checked,
        number: usize,
    ) -> Result<DefaultTable, AllocError>
        ensures { IfOk result (λ t. IsDefaultTable t.by_external (single_at bases.now linkage.now.links number) (weak_pairs (recs_of «module».now.bytes))) }
    {
        let pairs = weak_pairs(alloc, module)?;
        let mut table = DefaultTable {
            by_external: BTreeMap::new(alloc),
        };
        for pair in &pairs {
            let definer = linkage.definer(number, pair.substitute);
            table.add(pair, only_moving(bases, definer))?;
        }
        Ok(table)
    }

    /// How an external of the module moves that refers to this.
    pub(crate) fn moving_of(
        &self,
        bases: &[Movers],
        definer: Option<Definer>,
        external: u16,
    ) -> Moving
        ensures { (single : ℕ → Option Way) (pairs : List Pair) → IsDefaultTable self.now.by_external single pairs → result ≡ defined_moving bases.now (default_moving single pairs external) definer }
    {
        defined_moving(bases, self.by_external.get(&external).copied(), definer)
    }
}
