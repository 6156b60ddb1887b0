//! The walk from the given modules to the members that they need.

ghost use Rattle.std.specs.Prelude.{◌≡◌, ◌++◌, ◌<◌, [], ◌∷◌, All, IfOk, OnOk, false, length, replicate, set, true};
ghost use Rattle.omf_library.specs.Needed.{AreNeeded, IsChained, linkage, member_linkage, offer};
ghost use Rattle.omf_library.specs.Inner.Names.{names_seen};
ghost use Rattle.omf_library.specs.Inner.Search.{IsReady, offered};
ghost use Rattle.omf_library.specs.Inner.Walk.{AreTaken, IsCalled, IsGrown, IsWalk, IsWalked, numbers_from, queued};

use crate::judged::LibraryMember;
use crate::needed::names::{take_externals, take_needed_names};
use crate::needed::search::Search;
use omf_check::Checked;
use std::alloc::{AllocError, Global};

/// The members that have joined so far.
#[derive(Drop)]
struct Walk {
    /// Whether each member has joined.
    joined: Vec<bool>,
    /// The numbers of those that have, in the order in which they joined.
    queue: Vec<usize>,
}

impl Walk {
    /// No member has joined.
    fn new(alloc: Global, count: usize) -> Result<Walk, AllocError>
        ensures { IfOk result (λ w. (w.joined.items ≡ replicate count false) × (w.queue.items ≡ [])) }
    {
        Ok(Walk {
            joined: vec![in alloc; false; count]?,
            queue: Vec::new(alloc),
        })
    }

    /// Lets a member join.
    fn join(&mut self, number: usize) -> Result<(), AllocError>
        requires { number < length self.old.joined.items }
        ensures joined { OnOk result (self.new.joined.items ≡ set self.old.joined.items number true) }
        ensures queue { OnOk result (self.new.queue.items ≡ queued self.old.joined.items self.old.queue.items number) }
    {
        if self.joined[number] {
            return Ok(());
        }
        self.joined[number] = true;
        self.queue.push(number)?;
        Ok(())
    }

    /// Lets the member of a name join, if there is one.
    fn join_name<'a>(&mut self, search: &Search<'a>, name: &'a [u8]) -> Result<(), AllocError>
        requires ready { IsReady search.now }
        requires walk { IsWalk (offered search.now) self.old.joined.items self.old.queue.items }
        requires called { IsCalled (offered search.now) name.now }
        ensures { OnOk result (IsGrown (offered search.now) self.old.joined.items self.old.queue.items self.new.joined.items self.new.queue.items (name.entry.now ∷ [])) }
    {
        match search.member_of(name) {
            Some(number) => self.join(number),
            None => Ok(()),
        }
    }

    /// Lets the members of names join.
    fn join_names<'a>(&mut self, search: &Search<'a>, names: &[&'a [u8]]) -> Result<(), AllocError>
        requires ready { IsReady search.now }
        requires walk { IsWalk (offered search.now) self.old.joined.items self.old.queue.items }
        requires called { All (IsCalled (offered search.now)) (names_seen names.now) }
        ensures { OnOk result (IsGrown (offered search.now) self.old.joined.items self.old.queue.items self.new.joined.items self.new.queue.items (names_seen names.now)) }
    {
        for name in names {
            self.join_name(search, name)?;
        }
        Ok(())
    }

    /// Lets the members join that a module needs, and takes their names.
    fn join_module<'a>(
        &mut self,
        alloc: Global,
        names: &mut Vec<&'a [u8]>,
        search: &Search<'a>,
        module: &'a Checked,
    ) -> Result<(), AllocError>
        requires ready { IsReady search.now }
        requires walk { IsWalk (offered search.now) self.old.joined.items self.old.queue.items }
        requires called { All (IsCalled (offered search.now)) (linkage «module».now).externals }
        ensures { OnOk result (IsGrown (offered search.now) self.old.joined.items self.old.queue.items self.new.joined.items self.new.queue.items (linkage «module».entry.now).externals) }
    {
        take_needed_names(alloc, names, module)?;
        self.join_names(search, names)
    }

    /// Lets the members join that a member needs, and takes their names.
    fn join_member<'a>(
        &mut self,
        alloc: Global,
        names: &mut Vec<&'a [u8]>,
        search: &Search<'a>,
        member: &'a LibraryMember,
    ) -> Result<(), AllocError>
        requires ready { IsReady search.now }
        requires walk { IsWalk (offered search.now) self.old.joined.items self.old.queue.items }
        requires called { All (IsCalled (offered search.now)) (member_linkage member.now).externals }
        ensures { OnOk result (IsGrown (offered search.now) self.old.joined.items self.old.queue.items self.new.joined.items self.new.queue.items (member_linkage member.entry.now).externals) }
    {
        take_externals(alloc, names, member)?;
        self.join_names(search, names)
    }

    /// Lets the members join that the given modules need.
    fn of_given(alloc: Global, search: &Search<'_>) -> Result<Walk, AllocError>
        requires ready { IsReady search.now }
        ensures walk { IfOk result (λ w. IsWalk (offered search.now) w.joined.items w.queue.items) }
        ensures taken { IfOk result (λ w. All (AreTaken (offered search.now) w.joined.items) (offered search.now).given) }
    {
        let mut names = Vec::new(alloc);
        let mut walk = Walk::new(alloc, search.members.len())?;
        for module in search.modules {
            walk.join_module(alloc, &mut names, search, module)?;
        }
        Ok(walk)
    }

    /// Lets the members join that the joined ones need, and so on.
    fn go_on(&mut self, alloc: Global, search: &Search<'_>) -> Result<(), AllocError>
        requires ready { IsReady search.now }
        requires walk { IsWalk (offered search.now) self.old.joined.items self.old.queue.items }
        requires taken { All (AreTaken (offered search.now) self.old.joined.items) (offered search.now).given }
        ensures { OnOk result (IsWalked (offered search.now) self.new.joined.items self.new.queue.items) }
    {
        let mut names = Vec::new(alloc);
        let mut at = 0;
        while at < self.queue.len() {
            let number = self.queue[at];
            self.join_member(alloc, &mut names, search, &search.members[number])?;
            at += 1;
        }
        Ok(())
    }
}

/// The numbers of the members that have joined.
fn numbers_of(alloc: Global, joined: &[bool]) -> Result<Vec<usize>, AllocError>
    ensures { IfOk result (λ numbers. numbers.items ≡ numbers_from 0 joined.now) }
{
    let mut numbers = Vec::new(alloc);
    for (number, has_joined) in joined.iter().enumerate() {
        if *has_joined {
            numbers.push(number)?;
        }
    }
    Ok(numbers)
}

/// The numbers of the members that the given modules need, by a walk over all modules.
fn by_walk(
    alloc: Global,
    modules: &[Checked],
    members: &[LibraryMember],
) -> Result<Vec<usize>, AllocError>
    ensures needed { IfOk result (λ numbers. AreNeeded (offer modules.now members.now) numbers.items) }
    ensures chained { IfOk result (λ numbers. All (λ n. IsChained (offer modules.now members.now) n) numbers.items) }
{
    let search = Search::new(alloc, modules, members)?;
    let mut walk = Walk::of_given(alloc, &search)?;
    walk.go_on(alloc, &search)?;
    numbers_of(alloc, &walk.joined)
}

/// The members that a program takes, by their numbers, from 0, in rising order.
///
/// `members` are those of all libraries, in the order in which the libraries are searched. The first member that defines
/// an external of a given module joins, unless a given module defines it; so do the members that its externals need, and
/// so on. No other member does. A name is defined by a PUBDEF, and needed by an EXTDEF or a COMDEF, unless a comment of class
/// A8H (WKEXT) has this external as weak. An ALIAS defines its alias, and needs its substitute. Local names, dictionaries and
/// other comments do not count. A member that is refused has the names of its PUBDEFs, and needs none.
///
/// # Errors
///
/// Out of memory.
pub fn needed_members(
    alloc: Global,
    modules: &[Checked],
    members: &[LibraryMember],
) -> Result<Vec<usize>, AllocError>
    ensures needed { IfOk result (λ numbers. AreNeeded (offer modules.now members.now) numbers.items) }
    ensures chained { IfOk result (λ numbers. All (λ n. IsChained (offer modules.now members.now) n) numbers.items) }
{
    match members {
        [] => Ok(Vec::new(alloc)),
        [_, ..] => by_walk(alloc, modules, members),
    }
}
