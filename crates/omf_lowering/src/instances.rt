//! The COMDATs of a module, and each by its name.

ghost use Rattle.std.specs.Prelude.{◌≡◌, ◌++◌, ◌∷◌, ◌==◌, [], OnOk, length};
ghost use Rattle.omf_lowering.specs.Comdats.{instance_of};

use omf_frame::{Index, Name};
use omf_names::NameKey;
use std::alloc::{AllocError, Global};
use std::collections::BTreeMap;
use std::marker::Model;

/// A COMDAT in the lowered module.
#[derive(Drop)]
pub(crate) struct Instance<'a> {
    pub name: Name<'a>,
    /// The index of its segment.
    pub segment: Index,
    /// The number of the SEGDEF of this segment among the records, from 0.
    pub number: usize,
}

impl<'a> Model for Instance<'a> {
    ghost use Rattle.omf_lowering.specs.Values.{Instance as InstanceItem};

    ghost Value = { InstanceItem };

    ghost view = { λ i. record { name = i.name; segment = i.segment; number = i.number } };
}

/// A copy of a COMDAT.
fn copy_of<'a>(instance: &Instance<'a>) -> Instance<'a>
    ensures { result ≡ instance.now }
{
    Instance {
        name: Name(instance.name.0),
        segment: instance.segment,
        number: instance.number,
    }
}

/// The COMDATs of a module in their order, and the last one of each name.
#[derive(Drop)]
pub(crate) struct Instances<'a> {
    items: Vec<Instance<'a>>,
    by_name: BTreeMap<NameKey<'a>, Instance<'a>>,
}

impl<'a> Model for Instances<'a> {
    ghost use Rattle.std.specs.Prelude.{List};
    ghost use Rattle.omf_lowering.specs.Inner.Named.{AreNamed};
    ghost use Rattle.omf_lowering.specs.Values.{Instance as InstanceItem};

    ghost Value = { List InstanceItem };

    ghost view = { λ i. i.items.items };

    ghost invariant = { λ i. AreNamed i.by_name i.items.items };
}

impl<'a> Instances<'a> {
    /// No COMDATs.
    pub(crate) fn new(alloc: Global) -> Instances<'a>
        ensures { result ≡ [] }
    {
        Instances {
            items: Vec::new(alloc),
            by_name: BTreeMap::new(alloc),
        }
    }

    /// The number of COMDATs.
    pub(crate) fn len(&self) -> usize
        ensures { result ≡ length self.now }
    {
        self.items.len()
    }

    /// Whether there is none.
    pub(crate) fn is_empty(&self) -> bool
        ensures { result ≡ (length self.now == 0) }
    {
        self.items.is_empty()
    }

    /// The COMDAT of a name.
    pub(crate) fn find(&self, text: &Name<'a>) -> Option<Instance<'a>>
        ensures { result ≡ instance_of self.now text.now }
    {
        match self.by_name.get(&NameKey::of(text.0)) {
            Some(found) => Some(copy_of(found)),
            None => None,
        }
    }

    /// Appends a COMDAT.
    pub(crate) fn push(&mut self, own: Instance<'a>) -> Result<(), AllocError>
        ensures { OnOk result (self.new ≡ self.old ++ own.entry ∷ []) }
    {
        self.items.reserve(1)?;
        self.by_name.insert(NameKey::of(own.name.0), copy_of(&own))?;
        self.items.push_reserved(own);
        Ok(())
    }
}
