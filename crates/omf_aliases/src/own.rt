//! The defaults that externals have of their own.

ghost use Rattle.std.specs.Prelude.{◌≡◌, IfOk, List, OnOk, option_map};
ghost use Rattle.omf_check.specs.Module.{recs_of};
ghost use Rattle.omf_placement.specs.Weak.{weak_pairs};
ghost use Rattle.omf_placement.specs.declared.several.pairs.WeakPair.{WeakPair as Pair};
ghost use Rattle.omf_aliases.specs.Aliases.{followed_entry, own_default, own_entry};
ghost use Rattle.omf_aliases.specs.Inner.Aliases.{HasOwn, IsOwnTable};

use omf_check::Checked;
use omf_externals::{External, Spot, external_at};
use omf_placement::{WeakPair, weak_pairs};
use std::alloc::{AllocError, Global};
use std::collections::BTreeMap;

/// The own default of each external of a module: that of its first pair.
#[derive(Drop)]
pub(crate) struct OwnDefaults {
    by_external: BTreeMap<u16, u16>,
}

impl OwnDefaults {
    /// Adds a pair, unless its external has one.
    fn add(&mut self, pair: &WeakPair) -> Result<(), AllocError>
        ensures { OnOk result (HasOwn self.old.by_external self.new.by_external pair.now) }
    {
        if self.by_external.get(&pair.weak).is_none() {
            self.by_external.insert(pair.weak, pair.substitute)?;
        }
        Ok(())
    }

    /// Those of a module.
    ///
    /// # Errors
    ///
    /// `AllocError` if memory runs out.
    pub(crate) fn of(alloc: Global, module: &Checked) -> Result<OwnDefaults, AllocError>
        ensures { IfOk result (λ t. IsOwnTable t.by_external (weak_pairs (recs_of «module».now.bytes))) }
    {
        let pairs = weak_pairs(alloc, module)?;
        let mut table = OwnDefaults {
            by_external: BTreeMap::new(alloc),
        };
        for pair in &pairs {
            table.add(pair)?;
        }
        Ok(table)
    }

    /// The own default of an external, by its index, whatever that is.
    fn default_of(&self, external: u16) -> Option<u16>
        ensures { (pairs : List Pair) → IsOwnTable self.now.by_external pairs → result ≡ own_default pairs external }
    {
        self.by_external.get(&external).copied()
    }

    /// The external that is the own default of another one.
    fn entry_of<'a>(&self, module: &'a Checked, external: u16) -> Option<External<'a>>
        ensures { IsOwnTable self.now.by_external (weak_pairs (recs_of «module».now.bytes)) → option_map (λ e. (e.name.now, e.local)) result ≡ own_entry (recs_of «module».now.bytes) external }
    {
        let Some(default) = self.default_of(external) else {
            return None;
        };
        if default == 0 {
            return None;
        }
        if default > module.externals() {
            return None;
        }
        let spot = Spot {
            module: 0,
            external: default,
        };
        Some(external_at(module, spot))
    }

    /// The external by whose name one is followed: its own default, if it has one.
    pub(crate) fn followed<'a>(&self, module: &'a Checked, external: External<'a>) -> External<'a>
        ensures { IsOwnTable self.now.by_external (weak_pairs (recs_of «module».now.bytes)) → (result.name.now, result.local) ≡ followed_entry (recs_of «module».now.bytes) (external.entry.spot.external, (external.entry.name.now, external.entry.local)) }
    {
        match self.entry_of(module, external.spot.external) {
            Some(default) => default,
            None => external,
        }
    }
}
