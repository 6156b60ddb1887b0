//! The substitutes of aliases, by name.

ghost use Rattle.std.specs.Prelude.{◌≡◌, [], ◌∷◌, IfOk, List, None, OnOk, true, ℕ};
ghost use Rattle.omf_check.specs.Module.{recs_of, typed_modules};
ghost use Rattle.omf_library.specs.Aliases.{AliasPair as Pair, alias_pairs};
ghost use Rattle.omf_aliases.specs.Aliases.{all_pairs, substitute};
ghost use Rattle.omf_aliases.specs.Inner.Aliases.{HasPairs, IsSubstituteTable};

use omf_check::Checked;
use omf_frame::Name;
use omf_library::{AliasPair, alias_pairs};
use omf_names::NameKey;
use std::alloc::{AllocError, Global};
use std::collections::BTreeMap;

/// The substitute of each alias: that of its first pair.
#[derive(Drop)]
pub(crate) struct SubstituteTable<'a> {
    by_alias: BTreeMap<NameKey<'a>, Name<'a>>,
}

impl<'a> SubstituteTable<'a> {
    /// Adds an alias with its substitute, unless it has one.
    fn add(&mut self, alias: &'a [u8], substitute: Name<'a>) -> Result<(), AllocError>
        ensures { OnOk result (HasPairs self.old self.new (record { alias = alias.entry.now; substitute = substitute.entry } ∷ [])) }
    {
        if !self.by_alias.contains_key(&NameKey::of(alias)) {
            self.by_alias.insert(NameKey::of(alias), substitute)?;
        }
        Ok(())
    }

    /// Adds a pair.
    fn add_pair(&mut self, pair: &AliasPair<'a>) -> Result<(), AllocError>
        ensures { OnOk result (HasPairs self.old self.new (pair.now ∷ [])) }
    {
        self.add(pair.alias.0, Name(pair.substitute.0))
    }

    /// Adds pairs.
    fn add_pairs(&mut self, pairs: &[AliasPair<'a>]) -> Result<(), AllocError>
        ensures { OnOk result (HasPairs self.old self.new pairs.now) }
    {
        for pair in pairs {
            self.add_pair(pair)?;
        }
        Ok(())
    }

    /// Adds the pairs of a module.
    fn add_module(&mut self, alloc: Global, module: &'a Checked) -> Result<(), AllocError>
        ensures { OnOk result (HasPairs self.old self.new (alias_pairs (recs_of «module».entry.now.bytes))) }
    {
        let pairs = alias_pairs(alloc, module)?;
        self.add_pairs(&pairs)
    }

    /// The table of the aliases of modules.
    ///
    /// # Errors
    ///
    /// `AllocError` if memory runs out.
    pub(crate) fn of(
        alloc: Global,
        modules: &'a [Checked],
    ) -> Result<SubstituteTable<'a>, AllocError>
        ensures { IfOk result (λ t. IsSubstituteTable t (all_pairs (typed_modules modules.entry.now))) }
    {
        let mut table = SubstituteTable {
            by_alias: BTreeMap::new(alloc),
        };
        for module in modules {
            table.add_module(alloc, module)?;
        }
        Ok(table)
    }

    /// Whether there are no aliases.
    pub(crate) fn is_empty(&self) -> bool
        ensures { (pairs : List Pair) → IsSubstituteTable self.now pairs → result ≡ true → (name : List ℕ) → substitute pairs name ≡ None }
    {
        self.by_alias.is_empty()
    }

    /// The substitute of a name.
    pub(crate) fn substitute_of(&self, name: &'a [u8]) -> Option<Name<'a>>
        ensures { (pairs : List Pair) → IsSubstituteTable self.now pairs → result ≡ substitute pairs name.now }
    {
        match self.by_alias.get(&NameKey::of(name)) {
            Some(found) => Some(Name(found.0)),
            None => None,
        }
    }
}
