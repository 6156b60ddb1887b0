//! The items that a record repeats up to the end of its contents.
ghost use Rattle.std.specs.Prelude.{◌≡◌, ℕ, ◌+◌, ◌-◌, ◌*◌, ◌<◌, ◌≤◌, ◌↔◌, ◌++◌, IsTrue, OnOk, OnErr, flat_map, length, drop, take, List, [], Bool};
ghost use Rattle.std.specs.Iterator.{YieldsFirst, item_count};
ghost use Rattle.omf_records.specs.Inner.Begins.{Grows, Lacks};
ghost use Rattle.omf_records.specs.Layout.{Layout};
ghost use Rattle.omf_records.specs.Inner.Reads.{GivesFrom, Reader, Shrinks, each};

use crate::at::{At, LayoutFault};
use crate::here::Here;
use std::alloc::AllocError;
use std::marker::Model;

/// A position in a record, and the bytes from there on.
pub trait Cursor: Copy + Drop {
    ghost place: { Self → ℕ };

    ghost rest: { Self → List ℕ };

    ghost wide: { Self → Bool };

    /// The offset in the record (0 is the type byte).
    fn offset(self) -> u32
        ensures { result ≡ place self };

    /// Whether this is the end of the contents.
    fn is_end(self) -> bool
        ensures { IsTrue result ↔ rest self ≡ [] };
}

impl<'a> Cursor for Here<'a> {
    ghost place = { λ h. h.within };

    ghost rest = { λ h. h.bytes.now };

    ghost wide = { λ h. h.wide };

    fn offset(self) -> u32 {
        self.within()
    }

    fn is_end(self) -> bool {
        self.bytes().is_empty()
    }
}

/// An item that a record repeats.
pub trait Item: Sized + Drop {
    type From: Cursor;

    /// Its layout, in a 16-bit or a 32-bit record.
    ghost layout: { Bool → Layout Self };

    /// The reading of the layout.
    ghost reader: { (w : Bool) → Reader (layout w) };

    /// Decodes the first item, and returns it with the position after it.
    fn read(from: Self::From) -> Result<(Self, Self::From), LayoutFault>
        ensures { GivesFrom Self.From.place Self.From.rest Self.From.wide (Self.From.wide from) result ((reader (Self.From.wide from)).read (Self.From.place from) (Self.From.rest from)) };

    /// Its shortest encoding, in a record of the given type.
    ghost shortest: { ℕ → Self → List ℕ };

    /// Appends the shortest encoding, in a record of type `kind`.
    fn put(&self, kind: u8, out: &mut Vec<u8>) -> Result<(), AllocError>
        ensures put { OnOk result (out.new.items ≡ out.old.items ++ shortest kind self.now) }
        ensures grows { Grows out.old out.new }
        ensures full { OnErr result (Lacks out.old (shortest kind self.now)) };

    /// Every item has at least one byte.
    ghost shrinks: { (w : Bool) → Shrinks (reader w).read };
}

/// An iterator over valid items, each with its offset in the record.
#[derive(Drop)]
pub struct Items<T: Item> {
    from: T::From,
}

impl<T: Item> Model for Items<T> {
    ghost use Rattle.std.specs.Prelude.{◌≡◌, List, is_ok, true};
    ghost use Rattle.omf_records.specs.Values.{At as AtModel};
    ghost use Rattle.omf_records.specs.Inner.Reads.{each, or_none};

    ghost Value = { List (AtModel T) };

    ghost view = { λ s. or_none (each (T.reader (T.From.wide s.from)).read (T.From.place s.from) (T.From.rest s.from)) };

    ghost invariant = { λ s. is_ok (each (T.reader (T.From.wide s.from)).read (T.From.place s.from) (T.From.rest s.from)) ≡ true };
}

impl<T: Item> Items<T> {
    ghost use Rattle.std.specs.Prelude.{◌≡◌, is_ok, true, Ok};
    ghost use Rattle.omf_records.specs.Inner.Reads.{each};

    /// Checks that the bytes are valid items.
    pub(crate) fn new(from: T::From) -> Result<Items<T>, LayoutFault>
        ensures { result ≡ each (T.reader (T.From.wide from)).read (T.From.place from) (T.From.rest from) }
    {
        let mut left = from;
        while !left.is_end() {
            let (_item, after) = T::read(left)?;
            left = after;
        }
        Ok(Items { from })
    }

    /// Items that are known to be valid.
    pub(crate) fn known(from: T::From) -> Items<T>
        requires { is_ok (each (T.reader (T.From.wide from)).read (T.From.place from) (T.From.rest from)) ≡ true }
        ensures { Ok result ≡ each (T.reader (T.From.wide from)).read (T.From.place from) (T.From.rest from) }
    {
        Items { from }
    }

    /// The position of the next item.
    #[inline(always)]
    pub(crate) fn place(&self) -> T::From
        ensures { Ok self.now ≡ each (T.reader (T.From.wide result)).read (T.From.place result) (T.From.rest result) }
    {
        self.from
    }

    /// A copy of the iterator.
    pub fn iter(&self) -> Items<T>
        ensures { result ≡ self.now }
    {
        Items { from: self.from }
    }
}

impl<T: Item> Iterator for Items<T> {
    type Item = At<T>;

    ghost next_gives = { YieldsFirst (λ s. s) };

    ghost remaining = { item_count (λ s. s) };

    #[inline(always)]
    fn next(&mut self) -> Option<At<T>> {
        let from = self.from;
        if from.is_end() {
            return None;
        }
        match T::read(from) {
            Ok((item, after)) => {
                self.from = after;
                Some(At {
                    within: from.offset(),
                    item,
                })
            }
            Err(_) => None,
        }
    }
}

/// Appends items in their shortest encodings, in a record of type `kind`.
#[tactic(auto, using(crate::specs::Inner::Begins::grows_then, crate::specs::Inner::Begins::begins_itself, crate::specs::Inner::Begins::lacks_left))]
pub(crate) fn put_items<T: Item>(
    out: &mut Vec<u8>,
    kind: u8,
    items: Items<T>,
) -> Result<(), AllocError>
    ensures put { OnOk result (out.new.items ≡ out.old.items ++ flat_map (λ x. T.shortest kind x.item) items) }
    ensures grows { Grows out.old out.new }
    ensures full { OnErr result (Lacks out.old (flat_map (λ x. T.shortest kind x.item) items)) }
{
    for entry in items {
        entry.item.put(kind, out)?;
    }
    Ok(())
}
