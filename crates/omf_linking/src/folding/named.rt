//! The items of records that have names of publics, externals and communals.

ghost use Rattle.std.specs.Prelude.{◌≡◌, map, true};
ghost use Rattle.std.specs.Char.{to_ascii_lowercase};
ghost use Rattle.omf_linking.specs.Inner.Folding.{AreItemsOf};
ghost use Rattle.omf_records.specs.Inner.Seen.{contents_seen};

use omf_frame::Index;
use omf_records::{At, Communal, CommunalSize, Extern, Item, Items, Public, Rec};
use std::marker::Model;

/// An item with a name that is compared when modules are linked.
pub(crate) trait Named: Item {
    ghost use Rattle.std.specs.Prelude.{◌≡◌, true};

    /// The item with its name in lower case.
    ghost folded: { Self → Self };

    /// Its name.
    fn name(&self) -> &[u8];

    /// Whether another item is this one with its name in lower case.
    fn folds_to(&self, other: &Self) -> bool
        ensures { result ≡ true → other.now ≡ folded self.now };
}

/// Whether a name is another one in lower case: A to Z are a to z, and all other bytes are the same.
fn is_lower(name: &[u8], lower: &[u8]) -> bool
    ensures { result ≡ true → lower.now ≡ map to_ascii_lowercase name.now }
{
    let mut left = name;
    let mut right = lower;
    while let [byte, others @ ..] = left {
        let [lowered, more @ ..] = right else {
            return false;
        };
        if *lowered != byte.to_ascii_lowercase() {
            return false;
        }
        left = others;
        right = more;
    }
    right.is_empty()
}

impl<'a> Named for Extern<'a> {
    ghost use Rattle.omf_linking.specs.Folded.{folded_external};

    ghost folded = { folded_external };

    fn name(&self) -> &[u8] {
        self.name.0
    }

    fn folds_to(&self, other: &Extern<'a>) -> bool {
        is_lower(self.name.0, other.name.0) && self.type_index.0 == other.type_index.0
    }
}

impl<'a> Named for Public<'a> {
    ghost use Rattle.omf_linking.specs.Folded.{folded_public};

    ghost folded = { folded_public };

    fn name(&self) -> &[u8] {
        self.name.0
    }

    fn folds_to(&self, other: &Public<'a>) -> bool {
        is_lower(self.name.0, other.name.0)
            && self.offset == other.offset
            && self.type_index.0 == other.type_index.0
    }
}

impl<'a> Named for Communal<'a> {
    ghost use Rattle.omf_linking.specs.Folded.{folded_communal};

    ghost folded = { folded_communal };

    fn name(&self) -> &[u8] {
        self.name.0
    }

    fn folds_to(&self, other: &Communal<'a>) -> bool {
        is_lower(self.name.0, other.name.0)
            && self.type_index.0 == other.type_index.0
            && self.size == other.size
    }
}

/// The contents of a PUBDEF or an LPUBDEF.
#[derive(Drop)]
pub(crate) struct Publics<'a> {
    pub group: At<Index>,
    pub segment: At<Index>,
    pub frame: Option<u16>,
    pub items: Items<Public<'a>>,
}

impl<'a> Model for Publics<'a> {
    ghost use Rattle.omf_records.specs.Values.{PublicItems};

    ghost Value = { PublicItems };

    ghost view = { λ p. record { group = p.group; segment = p.segment; frame = p.frame; items = p.items } };
}

/// The items of a record whose names are compared.
#[derive(Drop)]
pub(crate) enum NamedItems<'a> {
    /// Those of an EXTDEF or a LEXTDEF.
    Externs(Items<Extern<'a>>),
    /// Those of a PUBDEF or an LPUBDEF, and their base.
    Publics(Publics<'a>),
    /// Those of a COMDEF or an LCOMDEF.
    Communals(Items<Communal<'a>>),
    /// The record is of another type.
    Others,
}

/// The items of a record whose names are compared.
pub(crate) fn named_items<'a>(rec: &Rec<'a>) -> NamedItems<'a>
    ensures { AreItemsOf (contents_seen rec.now) result }
{
    match rec {
        Rec::Externs(items) => NamedItems::Externs(items.iter()),
        Rec::LocalExterns { externs, .. } => NamedItems::Externs(externs.iter()),
        Rec::Communals(items) => NamedItems::Communals(items.iter()),
        Rec::LocalCommunals(items) => NamedItems::Communals(items.iter()),
        Rec::Publics {
            group,
            segment,
            frame,
            publics,
            ..
        } => NamedItems::Publics(Publics {
            group: *group,
            segment: *segment,
            frame: *frame,
            items: publics.iter(),
        }),
        Rec::LocalPublics {
            group,
            segment,
            frame,
            publics,
            ..
        } => NamedItems::Publics(Publics {
            group: *group,
            segment: *segment,
            frame: *frame,
            items: publics.iter(),
        }),
        Rec::Header { .. }
        | Rec::Comment { .. }
        | Rec::Names(_)
        | Rec::Segment { .. }
        | Rec::Group { .. }
        | Rec::Plain { .. }
        | Rec::Iterated { .. }
        | Rec::Fixups { .. }
        | Rec::ModEnd { .. }
        | Rec::LocalNames(_)
        | Rec::Carried { .. } => NamedItems::Others,
    }
}
