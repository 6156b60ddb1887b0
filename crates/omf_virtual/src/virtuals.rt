//! A module with COMDATs in place of virtual segments.

ghost use Rattle.std.specs.Prelude.{◌≡◌, IfNone, IfOk, IfSome, false, flat_map, true};
ghost use Rattle.std.specs.List.{list_any};
ghost use Rattle.omf_frame.specs.Framing.{raw_bytes};
ghost use Rattle.omf_virtual.specs.Modules.{IsWithComdats, Stays};
ghost use Rattle.omf_virtual.specs.Virtual.{externals, gets_comdats, has_room, is_cextdef, is_ordered, table, with_comdats};

use crate::externals::{Virtual, externals, has_virtual, is_cextdef};
use crate::names::{NAME_LIMIT, front_count, names};
use crate::segment_data::indices;
use crate::table::Table;
use crate::writing::written;
use omf_explicit::{Front, distinct, module_of};
use std::alloc::{AllocError, Global};

/// Whether one of some records is a CEXTDEF.
fn has_cextdef(records: &[Front<'_>]) -> bool
    ensures { result ≡ list_any (λ r. is_cextdef r.kind) records.now }
{
    records.iter().any(|record| is_cextdef(record.kind))
}

/// Whether no data of a virtual segment come before a name.
fn is_ordered(
    alloc: Global,
    virtuals: &[Option<Virtual<'_>>],
    records: &[Front<'_>],
) -> Result<bool, AllocError>
    ensures { IfOk result (λ b. b ≡ is_ordered virtuals.now records.now) }
{
    let (front, _) = records.split_at(front_count(records));
    Ok(indices(alloc, virtuals, front)?.is_empty())
}

/// The table of a module; none if its names and its COMDATs' are too many.
fn table_of<'a>(
    alloc: Global,
    virtuals: Vec<Option<Virtual<'a>>>,
    records: &[Front<'a>],
) -> Result<Option<Table<'a>>, AllocError>
    requires { virtuals.items ≡ externals records.now }
    ensures some { IfOk result (λ found. IfSome found (λ t. (t ≡ table records.now) × (has_room records.now ≡ true))) }
    ensures none { IfOk result (λ found. IfNone found (has_room records.now ≡ false)) }
{
    let Some(last_name) = names(records) else {
        return Ok(None);
    };
    let filled = distinct(alloc, &indices(alloc, &virtuals, records)?)?;
    if last_name.saturating_add(filled.order().len()) > NAME_LIMIT {
        return Ok(None);
    }
    Ok(Some(Table {
        virtuals,
        last_name,
        filled,
    }))
}

/// The bytes of a module's records with COMDATs in place of virtual segments; none if they get no COMDATs.
fn bytes_of(alloc: Global, records: &[Front<'_>]) -> Result<Option<Vec<u8>>, AllocError>
    ensures some { IfOk result (λ found. IfSome found (λ v. (gets_comdats records.now ≡ true) × (v.items ≡ flat_map raw_bytes (with_comdats records.now)))) }
    ensures none { IfOk result (λ found. IfNone found (gets_comdats records.now ≡ false)) }
{
    let virtuals = externals(alloc, records)?;
    if !has_virtual(&virtuals) {
        return Ok(None);
    }
    if has_cextdef(records) {
        return Ok(None);
    }
    if !is_ordered(alloc, &virtuals, records)? {
        return Ok(None);
    }
    let Some(table) = table_of(alloc, virtuals, records)? else {
        return Ok(None);
    };
    let (front, back) = records.split_at(front_count(records));
    Ok(Some(written(alloc, &table, front, back)?))
}

/// A module with COMDATs in place of virtual segments, and the bytes after it in the input.
#[derive(Drop)]
pub struct ComdatModule<'a> {
    pub bytes: Vec<u8>,
    pub rest: &'a [u8],
}

/// The module at the front of the bytes, with COMDATs in place of its virtual segments, as Borland's compilers write them (TIS OMF 1.1, "COMDEF": data types 01H to 5FH; "LEDATA",
/// "LIDATA", "FIXUPP", "COMDAT"). The entry of the COMDEF becomes an EXTDEF, so that no external has another index; the LNAMES of the names are after the module's last
/// LNAMES or LLNAMES; data become COMDATs with selection "pick any" in the segment of the data type; frames and targets of method 0 get method 2. A virtual segment
/// without data becomes a near communal. None if the module has no virtual segment, if its names would be over 32,767, if data of a virtual segment come before a name, or if it has
/// a CEXTDEF: it stays as it is. So does a record which cannot be read, or has a wrong checksum byte, and bytes that have no MODEND.
///
/// # Errors
///
/// `AllocError` if memory runs out.
pub fn with_comdats<'a>(
    alloc: Global,
    bytes: &'a [u8],
) -> Result<Option<ComdatModule<'a>>, AllocError>
    ensures some { IfOk result (λ found. IfSome found (λ m. IsWithComdats bytes.entry.now m.bytes.items m.rest.now)) }
    ensures none { IfOk result (λ found. IfNone found (Stays bytes.entry.now)) }
{
    let Some(module) = module_of(alloc, bytes)? else {
        return Ok(None);
    };
    match bytes_of(alloc, &module.records)? {
        Some(bytes) => Ok(Some(ComdatModule {
            bytes,
            rest: module.rest,
        })),
        None => Ok(None),
    }
}
