//! The names that no module that is found defines.

use crate::findings::{Asked, Found, Verdict};
use crate::following::Search;
use omf_check::Checked;
use omf_names::NameKey;
use std::alloc::AllocError;
use std::collections::BTreeMap;

/// Names that are asked for, each with a number.
#[derive(Drop)]
struct Asking<'a> {
    numbers: BTreeMap<NameKey<'a>, usize>,
    /// The address, the number of the name, and who asks.
    asked: Vec<(u32, usize, Asked)>,
}

impl<'a> Asking<'a> {
    /// The number of a name.
    fn number(&mut self, name: &'a [u8]) -> Result<usize, AllocError> {
        let next = self.numbers.len();
        match self.numbers.get(&NameKey::of(name)).copied() {
            Some(number) => Ok(number),
            None => {
                self.numbers.insert(NameKey::of(name), next)?;
                Ok(next)
            }
        }
    }

    /// Adds a name.
    fn add(&mut self, name: &'a [u8], asked: Asked) -> Result<(), AllocError> {
        let number = self.number(name)?;
        self.asked.push((asked.address, number, asked))?;
        Ok(())
    }
}

impl<'a> Search<'a> {
    /// Where an external of a module that is found is, if no module that has a place defines it.
    fn open_external(
        &self,
        module: usize,
        found: &Found,
        external: u16,
    ) -> Result<Option<u32>, AllocError> {
        if found.unknown.has(external) {
            return Ok(None);
        }
        if self.known_external(module, external)?.address.is_some() {
            return Ok(None);
        }
        match found.placement.external(usize::from(external)) {
            Some(place) => Ok(Some(place.address)),
            None => Ok(None),
        }
    }

    /// Adds the names that a module asks for.
    fn ask(
        &self,
        asking: &mut Asking<'a>,
        module: usize,
        checked: &'a Checked,
        found: &Found,
    ) -> Result<(), AllocError> {
        for external in 1..=checked.externals() {
            if let (Some(address), Some(name)) = (
                self.open_external(module, found, external)?,
                checked.external(external),
            ) {
                let asked = Asked {
                    address,
                    module: u32::try_from(module).unwrap_or(u32::MAX),
                    external,
                };
                asking.add(name.0, asked)?;
            }
        }
        Ok(())
    }

    /// The names that modules ask for and none that is found defines, each once for each address.
    pub(crate) fn asked(&self, verdicts: &[Verdict]) -> Result<Vec<Asked>, AllocError> {
        let mut asking = Asking {
            numbers: BTreeMap::new(self.alloc),
            asked: Vec::new(self.alloc),
        };
        for (number, (module, verdict)) in self.modules.iter().zip(verdicts).enumerate() {
            if let Verdict::Found(found) = verdict {
                self.ask(&mut asking, number, module, found)?;
            }
        }
        asking.asked.sort_unstable_by_key(|one| (one.0, one.1));
        let mut asked = Vec::new(self.alloc);
        let mut last = None;
        for (address, number, one) in asking.asked {
            if last != Some((address, number)) {
                asked.push(one)?;
            }
            last = Some((address, number));
        }
        Ok(asked)
    }
}
