//! The names at the end of aliases.

ghost use Rattle.std.specs.Prelude.{◌≡◌, IfOk, List, None, true, ℕ};
ghost use Rattle.omf_check.specs.Module.{typed_modules};
ghost use Rattle.omf_records.specs.Values.{Rec as Typed};
ghost use Rattle.omf_aliases.specs.Aliases.{end_among, end_of, most, next_name};
ghost use Rattle.omf_aliases.specs.Inner.Aliases.{AreAliases};

use crate::substitutes::SubstituteTable;
use omf_check::Checked;
use omf_externals::NameTable;
use omf_frame::Name;
use std::alloc::{AllocError, Global};

/// The most aliases that are followed from one name.
pub(crate) const MOST: u8 = 64;

/// The publics and the aliases of modules.
#[derive(Drop)]
pub(crate) struct Aliases<'a> {
    publics: NameTable<'a>,
    substitutes: SubstituteTable<'a>,
}

impl<'a> Aliases<'a> {
    /// Those of these modules. Without an alias no public is looked for.
    ///
    /// # Errors
    ///
    /// `AllocError` if memory runs out.
    pub(crate) fn of(alloc: Global, modules: &'a [Checked]) -> Result<Aliases<'a>, AllocError>
        ensures { IfOk result (λ a. AreAliases a (typed_modules modules.entry.now)) }
    {
        let substitutes = SubstituteTable::of(alloc, modules)?;
        if substitutes.is_empty() {
            let publics = NameTable::of(alloc, &[])?;
            return Ok(Aliases {
                publics,
                substitutes,
            });
        }
        let publics = NameTable::of(alloc, modules)?;
        Ok(Aliases {
            publics,
            substitutes,
        })
    }

    /// Whether there are no aliases, so that no name leads on.
    pub(crate) fn is_empty(&self) -> bool
        ensures { (ms : List (List Typed)) → AreAliases self.now ms → result ≡ true → (name : List ℕ) → next_name ms name ≡ None }
    {
        self.substitutes.is_empty()
    }

    /// Where a name leads.
    pub(crate) fn next(&self, name: &'a [u8]) -> Option<Name<'a>>
        ensures { (ms : List (List Typed)) → AreAliases self.now ms → result ≡ next_name ms name.now }
    {
        if self.publics.has(name) {
            None
        } else {
            self.substitutes.substitute_of(name)
        }
    }

    /// The first of a name and those to which it leads that leads nowhere; none if there are too many before it.
    fn end_from(&self, first: Name<'a>) -> Option<Name<'a>>
        ensures { (ms : List (List Typed)) → AreAliases self.now ms → result ≡ end_among ms most first.entry }
    {
        let mut end = first;
        let mut left = MOST;
        while left > 0 {
            let Some(next) = self.next(end.0) else {
                return Some(end);
            };
            end = next;
            left -= 1;
        }
        None
    }

    /// The name at the end of the aliases of a name; none if it leads nowhere, or has no end.
    pub(crate) fn end_of(&self, name: &'a [u8]) -> Option<Name<'a>>
        ensures { (ms : List (List Typed)) → AreAliases self.now ms → result ≡ end_of ms name.now }
    {
        match self.next(name) {
            Some(first) => self.end_from(first),
            None => None,
        }
    }
}
