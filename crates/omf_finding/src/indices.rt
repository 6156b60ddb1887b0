//! Indices of a table of a module.

ghost use Rattle.std.specs.Prelude.{◌≡◌, ◌==◌, [], OnOk, length, nat_lt};
ghost use Rattle.std.specs.List.{list_all};
ghost use Rattle.omf_frame.specs.Bytes.{is_one_of};
ghost use Rattle.omf_finding.specs.Found.{with_index};

use std::alloc::{AllocError, Global};
use std::marker::Model;

/// Indices of a table of a module, from 1, in ascending order.
#[derive(Drop)]
pub struct Indices {
    items: Vec<u16>,
}

impl Model for Indices {
    ghost use Rattle.std.specs.Prelude.{List, ℕ};
    ghost use Rattle.std.specs.List.Sorted.{IsStrictlyIncreasing};

    ghost Value = { List ℕ };

    ghost view = { λ i. i.items.items };

    ghost invariant = { λ i. IsStrictlyIncreasing i.items.items };
}

impl Indices {
    /// None.
    pub fn new(alloc: Global) -> Indices
        ensures { result ≡ [] }
    {
        Indices {
            items: Vec::new(alloc),
        }
    }

    /// Whether an index is greater than all of them.
    fn are_below(&self, index: u16) -> bool
        ensures { result ≡ list_all (λ k. nat_lt k index) self.now }
    {
        match self.items.last() {
            Some(last) => *last < index,
            None => true,
        }
    }

    /// Appends an index, if it is greater than all of them.
    ///
    /// # Errors
    ///
    /// `AllocError` if out of memory.
    pub fn push(&mut self, index: u16) -> Result<(), AllocError>
        ensures { OnOk result (self.new ≡ with_index self.old index) }
    {
        if self.are_below(index) {
            self.items.push(index)?;
        }
        Ok(())
    }

    /// Whether an index is one of them.
    pub fn has(&self, index: u16) -> bool
        ensures { result ≡ is_one_of self.now index }
    {
        self.items.binary_search(&index).is_ok()
    }

    /// Whether there are none.
    pub fn is_empty(&self) -> bool
        ensures { result ≡ (length self.now == 0) }
    {
        self.items.is_empty()
    }

    /// The indices.
    pub fn as_slice(&self) -> &[u16]
        ensures { result.now ≡ self.now }
    {
        &self.items
    }
}
