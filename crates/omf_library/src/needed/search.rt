//! The search for the module that defines a name.

ghost use Rattle.std.specs.Prelude.{◌≡◌, [], ◌∷◌, IfOk, OnOk, map};
ghost use Rattle.omf_library.specs.Needed.{linkage, member_linkage, member_of};
ghost use Rattle.omf_library.specs.Inner.Names.{names_seen};
ghost use Rattle.omf_library.specs.Inner.Search.{HasMore, IsReady, IsTable, numbered, offered};
ghost use Rattle.omf_library.specs.declared.needed.search.Definer.TheVariants.{Member};

use crate::judged::LibraryMember;
use crate::needed::names::{take_public_names, take_publics};
use omf_check::Checked;
use omf_names::NameKey;
use std::alloc::{AllocError, Global};
use std::collections::BTreeMap;

/// The first module that defines a name.
#[derive(Clone, Copy)]
pub(crate) enum Definer {
    /// A given module.
    Given,
    /// The member with this number.
    Member(usize),
}

/// The first definer of each name.
#[derive(Drop)]
pub(crate) struct Definers<'a> {
    by_name: BTreeMap<NameKey<'a>, Definer>,
}

/// The modules and members, and the first definer of each name.
#[derive(Drop)]
pub(crate) struct Search<'a> {
    pub(crate) modules: &'a [Checked],
    pub(crate) members: &'a [LibraryMember],
    definers: Definers<'a>,
}

impl<'a> Definers<'a> {
    /// Adds the definer of a name, unless it has one.
    fn add(&mut self, name: &'a [u8], definer: Definer) -> Result<(), AllocError>
        ensures { OnOk result (HasMore self.old self.new (name.entry.now ∷ []) definer) }
    {
        if let Some(first) = self.by_name.insert(NameKey::of(name), definer)? {
            self.by_name.insert(NameKey::of(name), first)?;
        }
        Ok(())
    }

    /// Adds the definer of names, unless they have one.
    fn add_names(&mut self, names: &[&'a [u8]], definer: Definer) -> Result<(), AllocError>
        ensures { OnOk result (HasMore self.old self.new (names_seen names.now) definer) }
    {
        for name in names {
            self.add(name, definer)?;
        }
        Ok(())
    }

    /// Adds a module, as the definer of its publics, whose names it takes.
    fn add_module(
        &mut self,
        alloc: Global,
        names: &mut Vec<&'a [u8]>,
        module: &'a Checked,
        definer: Definer,
    ) -> Result<(), AllocError>
        ensures { OnOk result (HasMore self.old self.new (linkage «module».entry.now).publics definer) }
    {
        take_public_names(alloc, names, module)?;
        self.add_names(names, definer)
    }

    /// Adds a member with its number, as the definer of its publics, whose names it takes.
    fn add_member(
        &mut self,
        alloc: Global,
        names: &mut Vec<&'a [u8]>,
        member: &'a LibraryMember,
        number: usize,
    ) -> Result<(), AllocError>
        ensures { OnOk result (HasMore self.old self.new (member_linkage member.entry.now).publics (Member number)) }
    {
        take_publics(alloc, names, member)?;
        self.add_names(names, Definer::Member(number))
    }

    /// The definers of the given modules.
    fn of_given(alloc: Global, modules: &'a [Checked]) -> Result<Definers<'a>, AllocError>
        ensures { IfOk result (λ t. IsTable t (map linkage modules.entry.now) []) }
    {
        let mut names = Vec::new(alloc);
        let mut definers = Definers {
            by_name: BTreeMap::new(alloc),
        };
        for module in modules {
            definers.add_module(alloc, &mut names, module, Definer::Given)?;
        }
        Ok(definers)
    }

    /// The definers of the given modules and the members.
    fn of(
        alloc: Global,
        modules: &'a [Checked],
        members: &'a [LibraryMember],
    ) -> Result<Definers<'a>, AllocError>
        ensures { IfOk result (λ t. IsTable t (map linkage modules.entry.now) (map member_linkage members.entry.now)) }
    {
        let mut names = Vec::new(alloc);
        let mut definers = Definers::of_given(alloc, modules)?;
        for (number, member) in members.iter().enumerate() {
            definers.add_member(alloc, &mut names, member, number)?;
        }
        Ok(definers)
    }
}

/// The number of a definer, if it is a member.
fn number_of(definer: Option<Definer>) -> Option<usize>
    ensures { result ≡ numbered definer }
{
    match definer {
        Some(Definer::Member(number)) => Some(number),
        Some(Definer::Given) | None => None,
    }
}

impl<'a> Search<'a> {
    /// The search for definers among these modules and members.
    pub(crate) fn new(
        alloc: Global,
        modules: &'a [Checked],
        members: &'a [LibraryMember],
    ) -> Result<Search<'a>, AllocError>
        ensures modules { IfOk result (λ s. s.modules.now ≡ modules.entry.now) }
        ensures members { IfOk result (λ s. s.members.now ≡ members.entry.now) }
        ensures ready { IfOk result (λ s. IsReady s) }
    {
        let definers = Definers::of(alloc, modules, members)?;
        Ok(Search {
            modules,
            members,
            definers,
        })
    }

    /// The number of the member that defines a name for the program.
    pub(crate) fn member_of(&self, name: &'a [u8]) -> Option<usize>
        requires { IsReady self.now }
        ensures { result ≡ member_of (offered self.now) name.entry.now }
    {
        number_of(self.definers.by_name.get(&NameKey::of(name)).copied())
    }
}
