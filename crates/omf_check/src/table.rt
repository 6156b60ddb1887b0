//! The state kept of the records so far.

ghost use Rattle.std.specs.Prelude.{◌≡◌};
ghost use Rattle.omf_check.specs.Inner.Kept.{Kept, nothing_kept};

mod entries;
mod growth;
mod references;
mod rules;

use crate::last_data::LastData;
use crate::segment::SegInfo;
use crate::threads::Threads;
pub use entries::entry_of;
use std::alloc::Global;
use std::marker::Model;

/// The most entries of a table of names, segments, groups or externals.
const TABLE_LIMIT: usize = 32_767;

/// The most items of a module: one per subrecord of a FIXUPP, one per empty FIXUPP, one per other record.
const ITEM_LIMIT: usize = 1_048_576;

/// The state kept of the records so far.
#[derive(Drop)]
pub struct Tables {
    /// The offset of each name in the module.
    names: Vec<u64>,
    segments: Vec<SegInfo>,
    /// The attribute byte of each segment.
    attributes: Vec<u8>,
    /// The offset of each GRPDEF in the module.
    groups: Vec<u64>,
    /// The offset of each external name in the module.
    externals: Vec<u64>,
    /// Whether each external is local.
    locals: Vec<bool>,
    /// The offset of the MODEND in the module; 0 before it.
    end: u64,
    items: usize,
    last: Option<LastData>,
    threads: Threads,
}

impl Model for Tables {
    ghost use Rattle.omf_check.specs.Inner.Kept.{Kept};

    ghost Value = { Kept };

    ghost view = { λ t. record { names = t.names.items; segments = t.segments.items; attributes = t.attributes.items; groups = t.groups.items; externals = t.externals.items; locals = t.locals.items; end = t.end; items = t.items; last = t.last; threads = t.threads } };
}

impl Tables {
    /// The state before the first record.
    pub fn new(alloc: Global) -> Tables
        ensures { result ≡ nothing_kept }
    {
        Tables {
            names: Vec::new(alloc),
            segments: Vec::new(alloc),
            attributes: Vec::new(alloc),
            groups: Vec::new(alloc),
            externals: Vec::new(alloc),
            locals: Vec::new(alloc),
            end: 0,
            items: 0,
            last: None,
            threads: Threads::new(),
        }
    }
}
