//! The names of a module, and those that the segment of an allocated COMDAT has.

ghost use Rattle.std.specs.Prelude.{◌≡◌, ◌++◌, ◌∷◌, [], OnOk, length};
ghost use Rattle.omf_check.specs.Tables.{entry};
ghost use Rattle.omf_lowering.specs.Comdats.{class_of, index_of};
ghost use Rattle.omf_lowering.specs.Inner.Named.{first_after, or_other};

use omf_frame::{Index, Name};
use std::alloc::{AllocError, Global};
use std::marker::Model;

/// The most names that an index can have: it has 15 bits.
const NAME_LIMIT: usize = 32_767;

/// The names of a module, and the indices of the first one CODE, the first one FAR_DATA and the first one without bytes; 0 if there is none that an index can have.
#[derive(Drop)]
pub(crate) struct Names<'a> {
    items: Vec<Name<'a>>,
    code: Index,
    far_data: Index,
    empty: Index,
}

impl<'a> Model for Names<'a> {
    ghost use Rattle.std.specs.Prelude.{List, ℕ};
    ghost use Rattle.omf_lowering.specs.Inner.Named.{AreFirst};

    ghost Value = { List (List ℕ) };

    ghost view = { λ n. n.items.items };

    ghost invariant = { λ n. AreFirst n.code n.far_data n.empty n.items.items };
}

/// The class of an allocated COMDAT.
fn class_of(allocation: u8) -> &'static [u8]
    ensures { result.now ≡ class_of allocation }
{
    if allocation % 2 == 1 {
        b"CODE"
    } else {
        b"FAR_DATA"
    }
}

/// The index of the first name with a text after one more name, which has this number from 0; 0 if there is none that an index can have.
fn first_after(first: Index, number: usize, name: &Name<'_>, text: &[u8]) -> Index
    ensures { result ≡ first_after first number name.now text.now }
{
    if first.0 == 0 && number < NAME_LIMIT && name.0 == text {
        Index(number as u16 + 1)
    } else {
        first
    }
}

/// The index of a first name, or another index if there is none.
fn or_other(first: Index, other: Index) -> Index
    ensures { result ≡ or_other first other }
{
    if first.0 == 0 { other } else { first }
}

impl<'a> Names<'a> {
    /// No names.
    pub(crate) fn new(alloc: Global) -> Names<'a>
        ensures { result ≡ [] }
    {
        Names {
            items: Vec::new(alloc),
            code: Index(0),
            far_data: Index(0),
            empty: Index(0),
        }
    }

    /// Appends a name.
    pub(crate) fn push(&mut self, name: Name<'a>) -> Result<(), AllocError>
        ensures { OnOk result (self.new ≡ self.old ++ name.entry ∷ []) }
    {
        self.items.reserve(1)?;
        let number = self.items.len();
        self.code = first_after(self.code, number, &name, class_of(1));
        self.far_data = first_after(self.far_data, number, &name, class_of(0));
        self.empty = first_after(self.empty, number, &name, &[]);
        self.items.push_reserved(name);
        Ok(())
    }

    /// The name with an index.
    pub(crate) fn get(&self, index: Index) -> Option<Name<'a>>
        ensures { result ≡ entry self.now index }
    {
        let index = usize::from(index.0);
        if index == 0 || index > self.items.len() {
            return None;
        }
        let name = &self.items[index - 1];
        Some(Name(name.0))
    }

    /// The index of the class of an allocated COMDAT, or another index if no name is that.
    pub(crate) fn class_index(&self, allocation: u8, other: Index) -> Index
        ensures { result ≡ index_of other (class_of allocation) self.now }
    {
        if allocation % 2 == 1 {
            or_other(self.code, other)
        } else {
            or_other(self.far_data, other)
        }
    }

    /// The index of the name without bytes, or another index if there is none.
    pub(crate) fn empty_index(&self, other: Index) -> Index
        ensures { result ≡ index_of other [] self.now }
    {
        or_other(self.empty, other)
    }
}
