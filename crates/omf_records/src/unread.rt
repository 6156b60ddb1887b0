//! Items that are checked as they are read.
ghost use Rattle.std.specs.Prelude.{◌≡◌, ◌<◌, ◌≤◌, Ok, [], true, false, length};
ghost use Rattle.std.specs.Prelude.{is_ok};
ghost use Rattle.omf_records.specs.Inner.Front.{GivesFront, in_front};
ghost use Rattle.omf_records.specs.Inner.Reads.{each};
ghost use Rattle.omf_records.specs.Inner.Unread.{NextGives};

use crate::at::{At, LayoutFault};
use crate::item::{Cursor, Item, Items};
use std::marker::Model;

/// Items that may have faults, each with its offset in the record. Its model is the remaining items, or the first fault among them;
/// the items in front of that fault; and the number of the remaining bytes.
#[derive(Drop)]
pub struct Unread<T: Item> {
    from: T::From,
}

impl<T: Item> Model for Unread<T> {
    ghost use Rattle.std.specs.Prelude.{length};
    ghost use Rattle.omf_records.specs.Inner.Front.{in_front};
    ghost use Rattle.omf_records.specs.Inner.Reads.{each};
    ghost use Rattle.omf_records.specs.Inner.Unread.{Pending};

    ghost Value = { Pending T };

    ghost view = { λ s. record { items = each (T.reader (T.From.wide s.from)).read (T.From.place s.from) (T.From.rest s.from); front = in_front (T.reader (T.From.wide s.from)).read (T.From.place s.from) (T.From.rest s.from); size = length (T.From.rest s.from) } };
}

impl<T: Item> Unread<T> {
    /// The bytes from this position on, as items.
    #[inline(always)]
    pub(crate) fn new(from: T::From) -> Unread<T>
        ensures items { result.items ≡ each (T.reader (T.From.wide from)).read (T.From.place from) (T.From.rest from) }
        ensures front { result.front ≡ in_front (T.reader (T.From.wide from)).read (T.From.place from) (T.From.rest from) }
        ensures size { result.size ≡ length (T.From.rest from) }
    {
        Unread { from }
    }

    /// The position of the next item.
    #[inline(always)]
    pub(crate) fn place(&self) -> T::From
        ensures items { self.now.items ≡ each (T.reader (T.From.wide result)).read (T.From.place result) (T.From.rest result) }
        ensures size { self.now.size ≡ length (T.From.rest result) }
    {
        self.from
    }

    /// A copy, at the same position.
    pub fn again(&self) -> Unread<T>
        ensures { result ≡ self.now }
    {
        Unread { from: self.from }
    }

    /// The remaining items, if they are known to be valid. None is read.
    pub fn known(self) -> Items<T>
        requires { is_ok self.items ≡ true }
        ensures { self.items ≡ Ok result }
    {
        Items::known(self.from)
    }

    /// Whether no items remain.
    pub fn is_end(&self) -> bool
        ensures ends { result ≡ true → self.now.items ≡ Ok [] }
        ensures some { result ≡ false → (xs : _) → self.now.items ≡ Ok xs → 1 ≤ length xs }
    {
        self.from.is_end()
    }

    /// Reads the next item, if there is one. After a fault the position is unchanged.
    #[inline(always)]
    pub fn read_next(&mut self) -> Result<Option<At<T>>, LayoutFault>
        ensures next { NextGives self.old result self.new }
        ensures front { GivesFront self.old.front result self.new.front }
    {
        let from = self.from;
        if from.is_end() {
            return Ok(None);
        }
        let (item, after) = T::read(from)?;
        self.from = after;
        Ok(Some(At {
            within: from.offset(),
            item,
        }))
    }
}
