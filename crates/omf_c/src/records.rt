//! The records of a module: where each is, and its type.

ghost use Rattle.std.specs.Prelude.{◌≡◌, IfOk, length};
ghost use Rattle.omf_check.specs.Module.{records_in};
ghost use Rattle.omf_c.specs.Records.{record_rows};

use crate::rows::{RecordRow, Span};
use crate::table::size_of;
use omf_check::{Checked, split_record};
use std::alloc::{AllocError, Global};

/// The row of a record of this many bytes.
fn record_row(number: u32, start: u64, size: u64, type_byte: u8) -> RecordRow
    ensures { result ≡ record { bytes = record { offset = start; size = size }; type_byte = type_byte; number = number } }
{
    RecordRow {
        bytes: Span {
            offset: start,
            size,
        },
        type_byte: u32::from(type_byte),
        number,
    }
}

/// The records of a module, in order.
pub(crate) fn records_of(alloc: Global, module: &Checked) -> Result<Vec<RecordRow>, AllocError>
    ensures { IfOk result (λ v. v.items ≡ record_rows (records_in «module».now.bytes)) }
{
    let _count = module.record_count();
    let bytes = module.bytes();
    let _size = size_of(bytes);
    let mut rows = Vec::new(alloc);
    let mut number = 0;
    let mut start = 0;
    let mut left = bytes;
    'records: while !left.is_empty() {
        let (raw, after) = split_record(left);
        let size = (left.len() - after.len()) as u64;
        rows.push(record_row(number, start, size, raw.kind))?;
        number += 1;
        start += size;
        left = after;
    }
    Ok(rows)
}
