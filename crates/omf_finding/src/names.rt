//! The publics of all modules, by name.

use omf_check::{Checked, Publics};
use omf_names::NameKey;
use std::alloc::{AllocError, Global};
use std::collections::BTreeMap;

/// The number of publics of one name that are looked at.
pub(crate) const MOST_DEFINERS: usize = 16;

/// A public of a segment.
#[derive(Clone, Copy, Drop)]
pub(crate) struct Definer {
    /// The number of its segment among those of all modules.
    pub(crate) part: usize,
    /// Its offset in the segment.
    pub(crate) offset: u32,
    /// The public of the same name before it.
    before: Option<usize>,
}

impl Definer {
    /// The first byte of a segment.
    pub(crate) fn start(part: usize) -> Definer {
        Definer {
            part,
            offset: 0,
            before: None,
        }
    }
}

/// The publics of all modules that are not local, by name.
#[derive(Drop)]
pub(crate) struct Names<'a> {
    definers: Vec<Definer>,
    /// The last public of each name.
    by_name: BTreeMap<NameKey<'a>, usize>,
}

impl<'a> Names<'a> {
    pub(crate) fn new(alloc: Global) -> Names<'a> {
        Names {
            definers: Vec::new(alloc),
            by_name: BTreeMap::new(alloc),
        }
    }

    /// Adds a public.
    fn add(&mut self, name: &'a [u8], part: usize, offset: u32) -> Result<(), AllocError> {
        let number = self.definers.len();
        let before = self.by_name.insert(NameKey::of(name), number)?;
        self.definers.push(Definer {
            part,
            offset,
            before,
        })?;
        Ok(())
    }

    /// Adds the publics of a record of a module whose first segment has this number.
    fn add_record(&mut self, publics: Publics<'a>, first: usize) -> Result<(), AllocError> {
        let segment = usize::from(publics.segment.item.0);
        if segment == 0 {
            return Ok(());
        }
        let part = first.saturating_add(segment - 1);
        for public in publics.items {
            self.add(public.item.name.0, part, public.item.offset)?;
        }
        Ok(())
    }

    /// Adds the publics of a module whose first segment has this number.
    pub(crate) fn add_module(
        &mut self,
        module: &'a Checked,
        first: usize,
    ) -> Result<(), AllocError> {
        for (_, rec) in module.undecoded() {
            if let Some(publics) = rec.as_publics(false) {
                self.add_record(publics, first)?;
            }
        }
        Ok(())
    }

    /// The number of the last public with a name.
    pub(crate) fn last_number(&self, name: &'a [u8]) -> Option<usize> {
        self.by_name.get(&NameKey::of(name)).copied()
    }

    /// The public with a number.
    pub(crate) fn definer(&self, number: Option<usize>) -> Option<Definer> {
        self.definers.get(number?).copied()
    }

    /// The last public with a name.
    pub(crate) fn last(&self, name: &'a [u8]) -> Option<Definer> {
        self.definer(self.last_number(name))
    }

    /// The public of the same name before another one.
    pub(crate) fn before(&self, definer: &Definer) -> Option<Definer> {
        self.definer(definer.before)
    }

    /// The publics with a name, the last first.
    pub(crate) fn definers(
        &self,
        alloc: Global,
        name: &'a [u8],
    ) -> Result<Vec<Definer>, AllocError> {
        let mut found = Vec::new(alloc);
        let mut next = self.last(name);
        for _ in 0..MOST_DEFINERS {
            let Some(definer) = next else {
                break;
            };
            // Most names have one.
            if found.is_empty() {
                found.reserve_exact(1)?;
            }
            found.push(definer)?;
            next = self.before(&definer);
        }
        Ok(found)
    }
}
