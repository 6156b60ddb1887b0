//! Whether a module is another one with names in lower case.

ghost use Rattle.std.specs.Prelude.{◌≡◌, ◌≤◌, IsTrue, is_ok, length, map, true};
ghost use Rattle.omf_check.specs.Module.{recs_of};
ghost use Rattle.omf_frame.specs.Framing.{is_taken};
ghost use Rattle.omf_linking.specs.Folded.{at_place, folded, folded_at, folded_names, left_after, named_contents};
ghost use Rattle.omf_linking.specs.Inner.Folding.{AreItemsOf, FoldTo, IsSameBase, NamedFold};
ghost use Rattle.omf_records.specs.Inner.Reading.{read_body};
ghost use Rattle.omf_records.specs.Values.{Communals, Contents, Externs, Publics as PublicContents};

use crate::folding::named::{Named, NamedItems, Publics, named_items};
use omf_check::{Checked, split_record};
use omf_frame::{Index, RawRecord};
use omf_records::{At, Communal, Extern, Items, view_known};

/// The type of an ALIAS record.
pub(crate) const ALIAS: u8 = 0xC6;

/// Whether these items are others with names in lower case, at the same places.
fn items_fold<T: Named>(items: Items<T>, lower: Items<T>) -> bool
    ensures { result ≡ true → lower ≡ map (at_place T.folded) items }
{
    let mut others = lower;
    for at in items {
        let Some(other) = others.next() else {
            return false;
        };
        if at.within != other.within || !at.item.folds_to(&other.item) {
            return false;
        }
    }
    others.next().is_none()
}

/// Whether two indices are the same, at the same place.
fn is_same_index(one: At<Index>, other: At<Index>) -> bool
    ensures { result ≡ true → other ≡ one }
{
    one.within == other.within && one.item.0 == other.item.0
}

/// Whether two PUBDEFs have the same base.
fn is_same_base(one: &Publics<'_>, other: &Publics<'_>) -> bool
    ensures { result ≡ true → IsSameBase one.now other.now }
{
    is_same_index(one.group, other.group)
        && is_same_index(one.segment, other.segment)
        && one.frame == other.frame
}

/// Whether externals are others with names in lower case.
fn externs_fold<'a>(externs: Items<Extern<'a>>, lower: Items<Extern<'a>>) -> bool
    ensures { result ≡ true → Externs lower.entry ≡ named_contents (Externs externs.entry) }
{
    items_fold(externs, lower)
}

/// Whether communals are others with names in lower case.
fn communals_fold<'a>(communals: Items<Communal<'a>>, lower: Items<Communal<'a>>) -> bool
    ensures { result ≡ true → Communals lower.entry ≡ named_contents (Communals communals.entry) }
{
    items_fold(communals, lower)
}

/// Whether a PUBDEF is another one with names in lower case.
fn publics_fold<'a>(publics: &Publics<'a>, lower: &Publics<'a>) -> bool
    ensures { result ≡ true → PublicContents lower.now ≡ named_contents (PublicContents publics.now) }
{
    is_same_base(publics, lower) && items_fold(publics.items.iter(), lower.items.iter())
}

/// Whether the items of a record, which are not others, are those of another one with names in lower case.
fn named_fold<'a>(items: &NamedItems<'a>, lower: &NamedItems<'a>) -> bool
    ensures { result ≡ true → (c d : Contents) → AreItemsOf c items.now → AreItemsOf d lower.now → d ≡ named_contents c }
{
    match items {
        NamedItems::Externs(items) => match lower {
            NamedItems::Externs(others) => externs_fold(items.iter(), others.iter()),
            NamedItems::Publics(_) | NamedItems::Communals(_) | NamedItems::Others => false,
        },
        NamedItems::Communals(items) => match lower {
            NamedItems::Communals(others) => communals_fold(items.iter(), others.iter()),
            NamedItems::Publics(_) | NamedItems::Externs(_) | NamedItems::Others => false,
        },
        NamedItems::Publics(publics) => match lower {
            NamedItems::Publics(others) => publics_fold(publics, others),
            NamedItems::Externs(_) | NamedItems::Communals(_) | NamedItems::Others => false,
        },
        NamedItems::Others => false,
    }
}

/// A byte of names, in lower case if it is of a name of which this number of characters are left.
pub(crate) fn folded_at(left: u8, byte: u8) -> u8
    ensures { result ≡ folded_at left byte }
{
    if left == 0 {
        byte
    } else {
        byte.to_ascii_lowercase()
    }
}

/// How many characters of a name are left after a byte.
pub(crate) fn left_after(left: u8, byte: u8) -> u8
    ensures { result ≡ left_after left byte }
{
    if left == 0 { byte } else { left - 1 }
}

/// Whether names one after another, each after its length, are others in lower case.
fn names_fold(names: &[u8], lower: &[u8]) -> bool
    ensures { result ≡ true → lower.now ≡ folded_names 0 names.now }
{
    let mut rest = names;
    let mut others = lower;
    let mut left = 0;
    while let [byte, after @ ..] = rest {
        let [lowered, more @ ..] = others else {
            return false;
        };
        if *lowered != folded_at(left, *byte) {
            return false;
        }
        left = left_after(left, *byte);
        rest = after;
        others = more;
    }
    others.is_empty()
}

/// Whether a record that is no ALIAS is another one with names in lower case.
fn named_folds<'a>(raw: RawRecord<'a>, lower: RawRecord<'a>) -> bool
    requires taken { IsTrue (is_taken raw.kind) }
    requires short { length raw.body.now ≤ 65534 }
    requires read { is_ok (read_body raw.kind raw.body.now) ≡ true }
    requires lower_taken { IsTrue (is_taken lower.kind) }
    requires lower_short { length lower.body.now ≤ 65534 }
    requires lower_read { is_ok (read_body lower.kind lower.body.now) ≡ true }
    ensures { result ≡ true → NamedFold raw.entry.kind raw.entry.body.now lower.entry.kind lower.entry.body.now }
{
    if raw.kind != lower.kind {
        return false;
    }
    let items = named_items(&view_known(raw));
    if let NamedItems::Others = items {
        return raw.body == lower.body;
    }
    named_fold(&items, &named_items(&view_known(lower)))
}

/// Whether a record is another one with names in lower case.
fn record_folds<'a>(raw: RawRecord<'a>, lower: RawRecord<'a>) -> bool
    requires taken { IsTrue (is_taken raw.kind) }
    requires short { length raw.body.now ≤ 65534 }
    requires read { is_ok (read_body raw.kind raw.body.now) ≡ true }
    requires lower_taken { IsTrue (is_taken lower.kind) }
    requires lower_short { length lower.body.now ≤ 65534 }
    requires lower_read { is_ok (read_body lower.kind lower.body.now) ≡ true }
    ensures { result ≡ true → FoldTo raw.entry.kind raw.entry.body.now lower.entry.kind lower.entry.body.now }
{
    if raw.kind != lower.kind {
        return false;
    }
    if raw.kind == ALIAS {
        names_fold(raw.body, lower.body)
    } else {
        named_folds(raw, lower)
    }
}

/// Whether a module is another one with the names of its publics, externals, communals and aliases in lower case.
pub(crate) fn is_folded<'a>(module: &'a Checked, lower: &'a Checked) -> bool
    ensures { result ≡ true → recs_of lower.now.bytes ≡ folded (recs_of «module».now.bytes) }
{
    let mut left = module.bytes();
    let mut right = lower.bytes();
    'records: while !left.is_empty() {
        if right.is_empty() {
            return false;
        }
        let (record, after) = split_record(left);
        let (lowered, others) = split_record(right);
        if !record_folds(record, lowered) {
            return false;
        }
        left = after;
        right = others;
    }
    right.is_empty()
}
