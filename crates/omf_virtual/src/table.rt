//! What a module has, and what it has up to a record.

ghost use Rattle.std.specs.Prelude.{◌≡◌};

use crate::externals::Virtual;
use omf_explicit::FrameNumbers;
use std::marker::Model;

/// The virtual segments of a module's externals, the index of its last name, and the indices of its virtual segments with data.
#[derive(Drop)]
pub(crate) struct Table<'a> {
    pub virtuals: Vec<Option<Virtual<'a>>>,
    pub last_name: usize,
    pub filled: FrameNumbers,
}

impl<'a> Model for Table<'a> {
    ghost use Rattle.omf_virtual.specs.Values.{Table as TableItem};

    ghost Value = { TableItem };

    ghost view = { λ t. record { virtuals = t.virtuals.items; last_name = t.last_name; filled = t.filled } };
}

/// What a module has up to a record: the number of the externals passed, and the indices of the virtual segments that have data.
#[derive(Drop)]
pub(crate) struct Before {
    pub passed: usize,
    pub filled: FrameNumbers,
}

impl Model for Before {
    ghost use Rattle.omf_virtual.specs.Values.{Before as BeforeItem};

    ghost Value = { BeforeItem };

    ghost view = { λ b. record { passed = b.passed; filled = b.filled } };
}
