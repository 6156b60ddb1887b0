//! The first instance of each name.

ghost use Rattle.std.specs.Prelude.{◌≡◌, ◌∷◌, ◌++◌, [], IfOk, OnOk, List, bytes_eq, flat_map};
ghost use Rattle.std.specs.Cmp.Lexicographic.{pointwise};
ghost use Rattle.omf_trimming.specs.Choice.{Marked as MarkedItem, agree, allows, first_named, is_left_out};
ghost use Rattle.omf_trimming.specs.Clashes.{clash_after, refused_after, refused_by};
ghost use Rattle.omf_trimming.specs.Inner.Choosing.{AreFirsts, segment_if};

use crate::choice::clashes::Clash;
use crate::choice::marked::Marked;
use crate::choice::parts::data_of;
use omf_names::NameKey;
use std::alloc::{AllocError, Global};
use std::collections::BTreeMap;

/// Whether the segments of two instances have the same data.
fn is_same_data(alloc: Global, one: &Marked<'_>, other: &Marked<'_>) -> Result<bool, AllocError>
    ensures { IfOk result (λ b. b ≡ pointwise bytes_eq one.now.data_pieces other.now.data_pieces) }
{
    let left = data_of(alloc, one.module, one.segment)?;
    let right = data_of(alloc, other.module, other.segment)?;
    Ok(left == right)
}

/// Whether a selection lets a linker take one instance for another.
fn allows(
    alloc: Global,
    selection: u8,
    one: &Marked<'_>,
    other: &Marked<'_>,
) -> Result<bool, AllocError>
    ensures { IfOk result (λ b. b ≡ allows selection one.now other.now) }
{
    match selection {
        1 => Ok(true),
        2 => Ok(one.size == other.size),
        3 if one.size == other.size => is_same_data(alloc, one, other),
        _ => Ok(false),
    }
}

/// Whether the selections of two instances allow it.
fn agree(alloc: Global, one: &Marked<'_>, other: &Marked<'_>) -> Result<bool, AllocError>
    ensures { IfOk result (λ b. b ≡ agree one.now other.now) }
{
    if !allows(alloc, one.selection, one, other)? {
        return Ok(false);
    }
    if other.selection == one.selection {
        return Ok(true);
    }
    allows(alloc, other.selection, one, other)
}

/// The selection that does not let a linker take one of two instances for the other, if there is one.
fn refused_by(
    alloc: Global,
    first: &Marked<'_>,
    other: &Marked<'_>,
) -> Result<Option<u8>, AllocError>
    ensures { IfOk result (λ o. o ≡ refused_by first.now other.now) }
{
    if !allows(alloc, first.selection, first, other)? {
        return Ok(Some(first.selection));
    }
    if !allows(alloc, other.selection, first, other)? {
        return Ok(Some(other.selection));
    }
    Ok(None)
}

/// The first instance of each name.
#[derive(Drop)]
pub(crate) struct Firsts<'a> {
    by_name: BTreeMap<NameKey<'a>, Marked<'a>>,
}

impl<'a> Firsts<'a> {
    /// No instances.
    pub(crate) fn new(alloc: Global) -> Firsts<'a>
        ensures { AreFirsts result.by_name [] }
    {
        Firsts {
            by_name: BTreeMap::new(alloc),
        }
    }

    /// Whether an instance is left out after these.
    fn is_left_out(&self, alloc: Global, marked: &Marked<'a>) -> Result<bool, AllocError>
        ensures { (before : List MarkedItem) → AreFirsts self.now.by_name before → IfOk result (λ b. b ≡ is_left_out before marked.now) }
    {
        match self.by_name.get(&NameKey::of(marked.name)) {
            Some(first) => agree(alloc, first, marked),
            None => Ok(false),
        }
    }

    /// Appends the segment of an instance, if it is left out after these.
    fn push_left_out(
        &self,
        alloc: Global,
        gone: &mut Vec<u16>,
        marked: &Marked<'a>,
    ) -> Result<(), AllocError>
        ensures { (before : List MarkedItem) → AreFirsts self.now.by_name before → OnOk result (gone.new.items ≡ gone.old.items ++ segment_if before marked.now) }
    {
        if self.is_left_out(alloc, marked)? {
            gone.push(marked.segment)?;
        }
        Ok(())
    }

    /// The segments of the instances that are left out after these.
    pub(crate) fn left_out(
        &self,
        alloc: Global,
        found: &[Marked<'a>],
    ) -> Result<Vec<u16>, AllocError>
        ensures { (before : List MarkedItem) → AreFirsts self.now.by_name before → IfOk result (λ v. v.items ≡ flat_map (segment_if before) found.now) }
    {
        let mut gone = Vec::new(alloc);
        for marked in found {
            self.push_left_out(alloc, &mut gone, marked)?;
        }
        Ok(gone)
    }

    /// The selection that keeps an instance after these, if one of its name is among them.
    fn refusal(&self, alloc: Global, marked: &Marked<'a>) -> Result<Option<u8>, AllocError>
        ensures { (before : List MarkedItem) → AreFirsts self.now.by_name before → IfOk result (λ o. o ≡ refused_after (first_named before marked.now.name) marked.now) }
    {
        match self.by_name.get(&NameKey::of(marked.name)) {
            Some(first) => refused_by(alloc, first, marked),
            None => Ok(None),
        }
    }

    /// Appends an instance of the module of a number, if a selection keeps it after these.
    fn push_clash(
        &self,
        alloc: Global,
        number: u32,
        found: &mut Vec<Clash<'a>>,
        marked: &Marked<'a>,
    ) -> Result<(), AllocError>
        ensures { (before : List MarkedItem) → AreFirsts self.now.by_name before → OnOk result (found.new.items ≡ found.old.items ++ clash_after number before marked.now) }
    {
        if let Some(selection) = self.refusal(alloc, marked)? {
            found.push(Clash {
                number,
                name: marked.name,
                selection,
            })?;
        }
        Ok(())
    }

    /// Appends the instances of the module of a number that a selection keeps after these.
    pub(crate) fn push_clashes(
        &self,
        alloc: Global,
        number: u32,
        found: &mut Vec<Clash<'a>>,
        own: &[Marked<'a>],
    ) -> Result<(), AllocError>
        ensures { (before : List MarkedItem) → AreFirsts self.now.by_name before → OnOk result (found.new.items ≡ found.old.items ++ flat_map (clash_after number before) own.now) }
    {
        for marked in own {
            self.push_clash(alloc, number, found, marked)?;
        }
        Ok(())
    }

    /// Adds an instance, unless there is one of its name.
    fn add(&mut self, marked: Marked<'a>) -> Result<(), AllocError>
        ensures { (before : List MarkedItem) → AreFirsts self.old.by_name before → OnOk result (AreFirsts self.new.by_name (before ++ marked.entry ∷ [])) }
    {
        if !self.by_name.contains_key(&NameKey::of(marked.name)) {
            self.by_name.insert(NameKey::of(marked.name), marked)?;
        }
        Ok(())
    }

    /// Adds instances.
    pub(crate) fn add_all(&mut self, found: Vec<Marked<'a>>) -> Result<(), AllocError>
        ensures { (before : List MarkedItem) → AreFirsts self.old.by_name before → OnOk result (AreFirsts self.new.by_name (before ++ found.entry.items)) }
    {
        for marked in found {
            self.add(marked)?;
        }
        Ok(())
    }
}
