//! The names of the PUBDEFs of a member that the check of modules refuses.

ghost use Rattle.std.specs.Prelude.{◌≡◌, ◌++◌, ◌∷◌, [], ◌<◌, ◌≤◌, IfOk, OnOk, length, map};
ghost use Rattle.omf_frame.specs.Framing.{after_front, front_record, present};
ghost use Rattle.omf_records.specs.Inner.Seen.{contents_seen};
ghost use Rattle.omf_library.specs.LibraryMembers.{defined_publics, names_kept, publics_in, publics_of};

use omf_frame::RawRecord;
use omf_records::{Items, Public, Rec, view};
use std::alloc::{AllocError, Global};

/// The first record of bytes, as far as it is there, and the bytes after it.
fn first_record<'a>(bytes: &'a [u8]) -> (RawRecord<'a>, &'a [u8])
    requires { 0 < length bytes.now }
    ensures kind { result.0.kind ≡ (front_record (present bytes.entry.now)).kind }
    ensures body { result.0.body.now ≡ (front_record (present bytes.entry.now)).body }
    ensures rest { result.1.now ≡ after_front bytes.entry.now }
    ensures short { length result.0.body.now ≤ 65534 }
{
    match bytes {
        [kind, low, high, rest @ ..] => {
            let size = usize::from(*low) + 256 * usize::from(*high);
            let (contents, after) = rest.split_at(size.min(rest.len()));
            let length = size.saturating_sub(1).min(contents.len());
            let raw = RawRecord {
                kind: *kind,
                body: contents.split_at(length).0,
                number: 0,
                start: 0,
            };
            (raw, after)
        }
        _ => {
            let raw = RawRecord {
                kind: bytes[0],
                body: &[],
                number: 0,
                start: 0,
            };
            (raw, &[])
        }
    }
}

/// Appends a name.
fn push_name(alloc: Global, names: &mut Vec<Vec<u8>>, name: &[u8]) -> Result<(), AllocError>
    ensures { OnOk result (names_kept names.new.items ≡ names_kept names.old.items ++ name.now ∷ []) }
{
    names.push(Vec::from_slice(alloc, name)?)?;
    Ok(())
}

/// Appends the names of publics.
fn push_names(
    alloc: Global,
    names: &mut Vec<Vec<u8>>,
    publics: &Items<Public<'_>>,
) -> Result<(), AllocError>
    ensures { OnOk result (names_kept names.new.items ≡ names_kept names.old.items ++ map (λ q. q.item.name) publics.now) }
{
    for public in publics.iter() {
        push_name(alloc, names, public.item.name.0)?;
    }
    Ok(())
}

/// Appends the names of a PUBDEF.
fn push_publics(alloc: Global, names: &mut Vec<Vec<u8>>, rec: &Rec<'_>) -> Result<(), AllocError>
    ensures { OnOk result (names_kept names.new.items ≡ names_kept names.old.items ++ defined_publics (contents_seen rec.now)) }
{
    match rec {
        Rec::Publics { publics, .. } | Rec::LocalPublics { publics, .. } => {
            push_names(alloc, names, publics)
        }
        Rec::Header { .. }
        | Rec::Names(_)
        | Rec::Segment { .. }
        | Rec::Group { .. }
        | Rec::Externs(_)
        | Rec::Communals(_)
        | Rec::Comment { .. }
        | Rec::Plain { .. }
        | Rec::Iterated { .. }
        | Rec::Fixups { .. }
        | Rec::ModEnd { .. }
        | Rec::LocalNames(_)
        | Rec::LocalExterns { .. }
        | Rec::LocalCommunals(_)
        | Rec::Carried { .. } => Ok(()),
    }
}

/// Appends the names of a record, if it is a PUBDEF whose contents are readable.
fn push_record(
    alloc: Global,
    names: &mut Vec<Vec<u8>>,
    raw: RawRecord<'_>,
) -> Result<(), AllocError>
    requires { length raw.body.now ≤ 65534 }
    ensures { OnOk result (names_kept names.new.items ≡ names_kept names.old.items ++ publics_of raw.entry.kind raw.entry.body.now) }
{
    if raw.kind == 0x90 || raw.kind == 0x91 {
        match view(raw) {
            Ok(rec) => push_publics(alloc, names, &rec),
            Err(_) => Ok(()),
        }
    } else {
        Ok(())
    }
}

/// The names of the PUBDEFs among the records in bytes.
///
/// # Errors
///
/// `AllocError` if out of memory.
pub(crate) fn publics_in(alloc: Global, bytes: &[u8]) -> Result<Vec<Vec<u8>>, AllocError>
    ensures { IfOk result (λ names. names_kept names.items ≡ publics_in bytes.now) }
{
    let mut names = Vec::new(alloc);
    let mut rest = bytes;
    while !rest.is_empty() {
        let (raw, next) = first_record(rest);
        push_record(alloc, &mut names, raw)?;
        rest = next;
    }
    Ok(names)
}
