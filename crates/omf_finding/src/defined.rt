//! The publics of modules at their placements, by name and address.

use crate::findings::Found;
use omf_check::{Checked, Publics};
use omf_names::NameKey;
use std::alloc::{AllocError, Global};
use std::collections::BTreeMap;

/// A public of a module at its placement.
#[derive(Clone, Copy, Drop)]
pub(crate) struct Defined {
    /// The module, from 0.
    pub(crate) module: usize,
    /// Its segment, from 1.
    pub(crate) segment: u16,
    /// Its offset in the segment.
    pub(crate) offset: u32,
    /// The public of the same name at the same address before it.
    pub(crate) before: Option<usize>,
}

/// The publics of modules at their placements that are not local, by name and address.
#[derive(Drop)]
pub(crate) struct DefinedNames<'a> {
    publics: Vec<Defined>,
    /// The last public of each name at each address.
    last: BTreeMap<(u64, NameKey<'a>), usize>,
}

impl<'a> DefinedNames<'a> {
    pub(crate) fn new(alloc: Global) -> DefinedNames<'a> {
        DefinedNames {
            publics: Vec::new(alloc),
            last: BTreeMap::new(alloc),
        }
    }

    /// Adds a public whose segment is at this address.
    fn add(&mut self, name: &'a [u8], address: u32, public: Defined) -> Result<(), AllocError> {
        let key = (
            u64::from(address) + u64::from(public.offset),
            NameKey::of(name),
        );
        let before = self.last.insert(key, self.publics.len())?;
        self.publics.push(Defined { before, ..public })?;
        Ok(())
    }

    /// Adds the publics of a record of a module at its placement.
    fn add_record(
        &mut self,
        number: usize,
        found: &Found,
        publics: Publics<'a>,
    ) -> Result<(), AllocError> {
        let segment = publics.segment.item.0;
        if found.absent.has(segment) {
            return Ok(());
        }
        let Some(place) = found.placement.segment(usize::from(segment)) else {
            return Ok(());
        };
        for public in publics.items {
            let one = Defined {
                module: number,
                segment,
                offset: public.item.offset,
                before: None,
            };
            self.add(public.item.name.0, place.address, one)?;
        }
        Ok(())
    }

    /// Adds the publics of a module at its placement.
    pub(crate) fn add_module(
        &mut self,
        number: usize,
        module: &'a Checked,
        found: &Found,
    ) -> Result<(), AllocError> {
        for (_, rec) in module.undecoded() {
            if let Some(publics) = rec.as_publics(false) {
                self.add_record(number, found, publics)?;
            }
        }
        Ok(())
    }

    /// The last public of a name at an address, which is given once: no reference to it needs to be followed again.
    pub(crate) fn take(&mut self, name: &'a [u8], address: u32) -> Option<usize> {
        self.last.remove(&(u64::from(address), NameKey::of(name)))
    }

    /// The public with this number.
    pub(crate) fn get(&self, number: Option<usize>) -> Option<Defined> {
        self.publics.get(number?).copied()
    }
}
