//! Externals with a given place.

ghost use Rattle.std.specs.Prelude.{◌≡◌, IfOk, List};
ghost use Rattle.omf_placement.specs.Inner.Derived.{given_place};
ghost use Rattle.omf_placement.specs.Inner.GivenTable.{IsGivenTable};

use crate::frame::{Frame, Placed};
use std::alloc::{AllocError, Global};
use std::collections::BTreeMap;

/// The given place of an external of one of several modules. Of several entries for an external the first counts; it takes precedence
/// over publics.
#[derive(Clone, Copy, Debug, PartialEq, Eq)]
pub struct Given {
    /// The module, from 0.
    pub module: u32,
    /// The index of the external in it, from 1.
    pub external: u16,
    /// Its address.
    pub address: u32,
    /// Its frame.
    pub frame: Frame,
}

/// The given place of each external, by module and index: that of its first entry.
#[derive(Drop)]
pub(crate) struct GivenTable {
    by_external: BTreeMap<(u32, u16), Placed>,
}

impl GivenTable {
    ghost use Rattle.omf_placement.specs.declared.several.given.Given.{Given};

    /// The table of these entries.
    pub(crate) fn of(alloc: Global, given: &[Given]) -> Result<GivenTable, AllocError>
        ensures { IfOk result (λ t. IsGivenTable t.by_external given.now) }
    {
        let mut by_external = BTreeMap::new(alloc);
        for entry in given {
            let key = (entry.module, entry.external);
            let place = Placed {
                address: entry.address,
                frame: entry.frame,
            };
            if by_external.get(&key).is_none() {
                by_external.insert(key, place)?;
            }
        }
        Ok(GivenTable { by_external })
    }

    /// The given place of an external, if any.
    pub(crate) fn place_of(&self, module: u32, external: u16) -> Option<Placed>
        ensures { (given : List Given) → IsGivenTable self.now.by_external given → result ≡ given_place given «module» external }
    {
        self.by_external.get(&(module, external)).copied()
    }
}
