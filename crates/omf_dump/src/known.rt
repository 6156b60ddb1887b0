//! What is kept of the records so far to show the next one.

ghost use Rattle.std.specs.Prelude.{◌≡◌};
ghost use Rattle.omf_check.specs.Tables.{entry};
ghost use Rattle.omf_dump.specs.Inner.Keeping.{no_tables};
ghost use Rattle.omf_dump.specs.Known.{external_entry, group_entry, name_entry, segment_entry};

use crate::entry::Entry;
use omf_check::{Threads, entry_of};
use omf_frame::{Index, Name};
use std::alloc::Global;
use std::marker::Model;

/// The tables that the records so far define.
#[derive(Drop)]
pub struct Tables<'a> {
    pub(crate) names: Vec<Name<'a>>,
    /// The name index of each segment.
    pub(crate) segments: Vec<Index>,
    /// The name index of each group.
    pub(crate) groups: Vec<Index>,
    pub(crate) externals: Vec<Name<'a>>,
}

impl<'a> Model for Tables<'a> {
    ghost use Rattle.omf_dump.specs.Known.{Tables as TablesModel};

    ghost Value = { TablesModel };

    ghost view = { λ t. record { names = t.names.items; segments = t.segments.items; groups = t.groups.items; externals = t.externals.items } };
}

/// The data of an LEDATA, and their offset in their segment.
#[derive(Drop)]
pub struct Data<'a> {
    pub offset: u32,
    pub bytes: &'a [u8],
}

impl<'a> Model for Data<'a> {
    ghost use Rattle.omf_dump.specs.Known.{Data as DataModel};

    ghost Value = { DataModel };

    ghost view = { λ d. record { offset = d.offset; bytes = d.bytes.now } };
}

/// All that is kept: the tables, the threads in force, and the data that a fixup changes.
#[derive(Drop)]
pub struct Known<'a> {
    pub tables: Tables<'a>,
    pub threads: Threads,
    pub fixed: Option<Data<'a>>,
}

/// The name with index `index`, from 1; None outside the table.
pub(crate) fn name_of<'a>(names: &[Name<'a>], index: usize) -> Option<Name<'a>>
    ensures { result ≡ entry names.now index }
{
    let name = names.get(index.checked_sub(1)?)?;
    Some(Name(name.0))
}

impl<'a> Tables<'a> {
    /// The tables before the first record.
    pub fn new(alloc: Global) -> Tables<'a>
        ensures { result ≡ no_tables }
    {
        Tables {
            names: Vec::new(alloc),
            segments: Vec::new(alloc),
            groups: Vec::new(alloc),
            externals: Vec::new(alloc),
        }
    }

    /// A name index with its name.
    pub(crate) fn name(&self, index: u16) -> Entry<'a>
        ensures { result ≡ name_entry self.now index }
    {
        Entry {
            index: u64::from(index),
            name: name_of(&self.names, usize::from(index)),
        }
    }

    /// A segment index with the name of its segment.
    pub(crate) fn segment(&self, index: u16) -> Entry<'a>
        ensures { result ≡ segment_entry self.now index }
    {
        let name = match entry_of(&self.segments, usize::from(index)) {
            Some(name) => name_of(&self.names, usize::from(name.0)),
            None => None,
        };
        Entry {
            index: u64::from(index),
            name,
        }
    }

    /// A group index with the name of its group.
    pub(crate) fn group(&self, index: u16) -> Entry<'a>
        ensures { result ≡ group_entry self.now index }
    {
        let name = match entry_of(&self.groups, usize::from(index)) {
            Some(name) => name_of(&self.names, usize::from(name.0)),
            None => None,
        };
        Entry {
            index: u64::from(index),
            name,
        }
    }

    /// An external index with its name.
    pub(crate) fn external(&self, index: u16) -> Entry<'a>
        ensures { result ≡ external_entry self.now index }
    {
        Entry {
            index: u64::from(index),
            name: name_of(&self.externals, usize::from(index)),
        }
    }
}
