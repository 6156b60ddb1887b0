//! A table of a module: the rows of its records, in order.

ghost use Rattle.std.specs.Prelude.{◌≡◌, ◌≤◌, ◌^◌, IfOk, length};
ghost use Rattle.omf_check.specs.Listed.{placed_from};
ghost use Rattle.omf_check.specs.Module.{records_in};
ghost use Rattle.omf_c.specs.Tables.{rows_from, table_of};

use crate::rows::NamePlace;
use omf_check::Checked;
use omf_frame::Place;
use omf_records::Rec;
use std::alloc::{AllocError, Global};

/// A row of a table.
pub trait Row: Copy + Drop {
    ghost use Rattle.std.specs.Prelude.{◌≡◌, ◌≤◌, ◌^◌, ◌++◌, OnOk};
    ghost use Rattle.omf_records.specs.Inner.Seen.{contents_seen, kind_seen};
    ghost use Rattle.omf_c.specs.Tables.{RowsOf};

    /// The rows that a record gives.
    ghost given: { RowsOf Self };

    /// Appends the rows of a record at its place, by where the names of the module are. `AllocError` if memory runs out.
    fn add(
        alloc: Global,
        rows: &mut Vec<Self>,
        names: &[NamePlace],
        place: Place,
        rec: &Rec<'_>,
    ) -> Result<(), AllocError>
        requires { place.start ≤ 2 ^ 63 }
        ensures { OnOk result (rows.new.items ≡ rows.old.items ++ Self.given names.now place (kind_seen rec.now) (contents_seen rec.now)) };
}

/// The number of some bytes. It is small enough that sums of it and of offsets in a record have 64 bits.
pub(crate) fn size_of(bytes: &[u8]) -> u64
    ensures size { result ≡ length bytes.now }
    ensures small { result ≤ 2 ^ 63 }
{
    bytes.len() as u64
}

/// The rows of a module, by where its names are.
fn rows_of<T: Row>(
    alloc: Global,
    module: &Checked,
    names: &[NamePlace],
) -> Result<Vec<T>, AllocError>
    ensures { IfOk result (λ v. v.items ≡ rows_from T.given names.now (placed_from 0 0 (records_in «module».now.bytes))) }
{
    let bytes = module.bytes();
    let _size = size_of(bytes);
    let mut rows = Vec::new(alloc);
    for (place, rec) in module.records() {
        T::add(alloc, &mut rows, names, place, &rec)?;
    }
    Ok(rows)
}

/// A table of a module.
pub(crate) fn table_of<T: Row>(alloc: Global, module: &Checked) -> Result<Vec<T>, AllocError>
    ensures { IfOk result (λ v. v.items ≡ table_of T.given (records_in «module».now.bytes)) }
{
    let names = rows_of::<NamePlace>(alloc, module, &[])?;
    rows_of::<T>(alloc, module, &names)
}
