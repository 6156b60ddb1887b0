//! The names that the publics of several modules define.

ghost use Rattle.std.specs.Prelude.{◌≡◌, ◌<◌, [], ◌∷◌, OnOk, IfOk, List, ℕ, length, true, false};
ghost use Rattle.omf_check.specs.Module.{recs_of, typed_modules};
ghost use Rattle.omf_externals.specs.Names.{AreApart, HasMore, IsNameTable, all_names, has_name, names_asked, names_of, public_names};

use omf_check::{Checked, Undecoded};
use omf_frame::Name;
use omf_names::NameKey;
use omf_records::{Items, Public};
use std::alloc::{AllocError, Global};
use std::collections::BTreeMap;

/// Names, each once, and whether one of them was added twice.
#[derive(Drop)]
pub struct NameTable<'a> {
    names: BTreeMap<NameKey<'a>, ()>,
    repeats: bool,
}

impl<'a> NameTable<'a> {
    /// Returns the table without a name.
    pub fn new(alloc: Global) -> NameTable<'a>
        ensures { IsNameTable result [] }
    {
        NameTable {
            names: BTreeMap::new(alloc),
            repeats: false,
        }
    }

    /// Adds a name.
    fn add(&mut self, name: &'a [u8]) -> Result<(), AllocError>
        ensures { OnOk result (HasMore self.old self.new (name.entry.now ∷ [])) }
    {
        if self.names.insert(NameKey::of(name), ())?.is_some() {
            self.repeats = true;
        }
        Ok(())
    }

    /// Adds names. It fails if memory runs out.
    pub fn add_all(&mut self, names: &[Name<'a>]) -> Result<(), AllocError>
        ensures { OnOk result (HasMore self.old self.new names.entry.now) }
    {
        for name in names {
            self.add(name.0)?;
        }
        Ok(())
    }

    /// Adds the name of a public.
    fn add_public(&mut self, public: &Public<'a>) -> Result<(), AllocError>
        ensures { OnOk result (HasMore self.old self.new (public.now.name ∷ [])) }
    {
        self.add(public.name.0)
    }

    /// Adds the names of publics.
    fn add_items(&mut self, items: Items<Public<'a>>) -> Result<(), AllocError>
        ensures { OnOk result (HasMore self.old self.new (names_of items.entry)) }
    {
        for public in items {
            self.add_public(&public.item)?;
        }
        Ok(())
    }

    /// Adds the names of a record's publics: of an LPUBDEF if `local` is set, of a PUBDEF if not. No other record is decoded.
    #[tactic(auto, using(crate::proofs::NameLaws::none_more, crate::proofs::NameLaws::none_asked))]
    fn add_record(&mut self, local: bool, rec: &Undecoded<'a>) -> Result<(), AllocError>
        ensures { OnOk result (HasMore self.old self.new (names_asked local rec.now.kind rec.now.contents)) }
    {
        match rec.as_publics(local) {
            Some(publics) => self.add_items(publics.items),
            None => Ok(()),
        }
    }

    /// Adds the names of a module's local publics, or of the others.
    fn add_module(&mut self, local: bool, module: &'a Checked) -> Result<(), AllocError>
        ensures { OnOk result (HasMore self.old self.new (public_names local (recs_of «module».entry.now.bytes))) }
    {
        for (_, rec) in module.undecoded() {
            self.add_record(local, &rec)?;
        }
        Ok(())
    }

    /// Returns the names of the local publics of a module.
    pub fn of_locals(alloc: Global, module: &'a Checked) -> Result<NameTable<'a>, AllocError>
        ensures { IfOk result (λ t. IsNameTable t (public_names true (recs_of «module».entry.now.bytes))) }
    {
        let mut table = NameTable {
            names: BTreeMap::new(alloc),
            repeats: false,
        };
        table.add_module(true, module)?;
        Ok(table)
    }

    /// Returns the names of the publics of all modules that are not local.
    pub fn of(alloc: Global, modules: &'a [Checked]) -> Result<NameTable<'a>, AllocError>
        ensures { IfOk result (λ t. IsNameTable t (all_names (typed_modules modules.entry.now))) }
    {
        let mut table = NameTable {
            names: BTreeMap::new(alloc),
            repeats: false,
        };
        for module in modules {
            table.add_module(false, module)?;
        }
        Ok(table)
    }

    /// Returns whether a name is in the table.
    pub fn has(&self, name: &'a [u8]) -> bool
        ensures { (names : List (List ℕ)) → IsNameTable self.now names → result ≡ has_name names name.now }
    {
        self.names.contains_key(&NameKey::of(name))
    }

    /// Returns whether a name was added twice.
    pub fn repeats(&self) -> bool
        ensures { (names : List (List ℕ)) → IsNameTable self.now names → result ≡ false → AreApart names }
    {
        self.repeats
    }
}
