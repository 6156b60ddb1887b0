//! The names of a module.

ghost use Rattle.std.specs.Prelude.{◌≡◌, ◌+◌, ◌<◌, ◌≤◌, IfNone, IfSome, length, true};
ghost use Rattle.omf_records.specs.Inner.Reading.{read_body};
ghost use Rattle.omf_records.specs.Inner.Seen.{contents_seen};
ghost use Rattle.omf_virtual.specs.Virtual.{front_count, is_naming, name_count, names, names_by, names_in};

use omf_explicit::Front;
use omf_frame::{Name, RawRecord};
use omf_records::{Items, Rec, view};

/// The most names of a module.
pub(crate) const NAME_LIMIT: usize = 32_767;

/// Whether a record of this type is an LNAMES or LLNAMES.
fn is_naming(kind: u8) -> bool
    ensures { result ≡ is_naming kind }
{
    matches!(kind, 0x96 | 0xCA)
}

/// The sum of a number of names and that of the items; none if it is over 32,767.
fn with_items(count: usize, items: Items<Name<'_>>) -> Option<usize>
    requires { count ≤ 32767 }
    ensures some { IfSome result (λ n. (n ≡ count + length items.entry) × (n ≤ 32767)) }
    ensures none { IfNone result (32767 < count + length items.entry) }
{
    let mut sum = count;
    for _item in items {
        if sum >= NAME_LIMIT {
            return None;
        }
        sum += 1;
    }
    Some(sum)
}

/// The sum of a number of names and of those in contents; none if it is over 32,767.
fn with_contents(count: usize, rec: &Rec<'_>) -> Option<usize>
    requires { count ≤ 32767 }
    ensures some { IfSome result (λ n. (n ≡ count + name_count (contents_seen rec.now)) × (n ≤ 32767)) }
    ensures none { IfNone result (32767 < count + name_count (contents_seen rec.now)) }
{
    match rec {
        Rec::Names(names) | Rec::LocalNames(names) => with_items(count, names.iter()),
        Rec::Header { .. }
        | Rec::Comment { .. }
        | Rec::Segment { .. }
        | Rec::Group { .. }
        | Rec::Externs(_)
        | Rec::Publics { .. }
        | Rec::Communals(_)
        | Rec::Plain { .. }
        | Rec::Iterated { .. }
        | Rec::Fixups { .. }
        | Rec::ModEnd { .. }
        | Rec::LocalExterns { .. }
        | Rec::LocalPublics { .. }
        | Rec::LocalCommunals(_)
        | Rec::Carried { .. } => Some(count),
    }
}

/// The sum of a number of names and of those that an LNAMES or LLNAMES defines, which are 0 if its contents have a fault; none if it is over 32,767.
fn with_read(count: usize, kind: u8, body: &[u8]) -> Option<usize>
    requires few { count ≤ 32767 }
    requires naming { is_naming kind ≡ true }
    requires short { length body.now ≤ 65534 }
    ensures some { IfSome result (λ n. (n ≡ count + names_by (read_body kind body.now)) × (n ≤ 32767)) }
    ensures none { IfNone result (32767 < count + names_by (read_body kind body.now)) }
{
    let raw = RawRecord {
        kind,
        body,
        number: 0,
        start: 0,
    };
    match view(raw) {
        Ok(rec) => with_contents(count, &rec),
        Err(_) => Some(count),
    }
}

/// The sum of a number of names and of those that a record defines; none if it is over 32,767.
fn with_record(count: usize, record: &Front<'_>) -> Option<usize>
    requires { count ≤ 32767 }
    ensures some { IfSome result (λ n. (n ≡ count + names_in record.now) × (n ≤ 32767)) }
    ensures none { IfNone result (32767 < count + names_in record.now) }
{
    if is_naming(record.kind) {
        with_read(count, record.kind, record.body)
    } else {
        Some(count)
    }
}

/// The number of names of a module; none if they are over 32,767.
pub(crate) fn names(records: &[Front<'_>]) -> Option<usize>
    ensures some { IfSome result (λ n. (n ≡ names records.now) × (n ≤ 32767)) }
    ensures none { IfNone result (32767 < names records.now) }
{
    let mut count = 0;
    for record in records {
        match with_record(count, record) {
            Some(sum) => count = sum,
            None => return None,
        }
    }
    Some(count)
}

/// The number of records up to the last LNAMES or LLNAMES; without one 1, or 0 without a record.
pub(crate) fn front_count(records: &[Front<'_>]) -> usize
    ensures count { result ≡ front_count records.now }
    ensures within { result ≤ length records.now }
{
    let mut count = records.len().min(1);
    let mut at = 0;
    for record in records {
        at += 1;
        if is_naming(record.kind) {
            count = at;
        }
    }
    count
}
