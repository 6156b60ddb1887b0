//! Entries of the tables.

use omf_frame::Name;
use std::marker::Model;

/// An index, and the name of its entry: None if it is 0, not defined, or that of an entry without a name.
#[derive(Drop)]
pub struct Entry<'a> {
    pub index: u64,
    pub name: Option<Name<'a>>,
}

impl<'a> Model for Entry<'a> {
    ghost use Rattle.omf_dump.specs.Fields.{Entry as EntryModel};

    ghost Value = { EntryModel };

    ghost view = { λ e. record { index = e.index; name = e.name } };
}
