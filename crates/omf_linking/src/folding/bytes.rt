//! The bytes of a module with the names of its publics, externals, communals and aliases in lower case.

use crate::folding::comparing::{ALIAS, folded_at, left_after};
use crate::folding::named::{Named, NamedItems, named_items};
use omf_check::Checked;
use omf_records::{Items, Rec};
use std::alloc::{AllocError, Global};

/// Puts `count` bytes from an offset on in lower case.
fn lower_bytes(bytes: &mut [u8], first: usize, count: usize) {
    for number in 0..count {
        if let Some(byte) = bytes.get_mut(first.saturating_add(number)) {
            *byte = byte.to_ascii_lowercase();
        }
    }
}

/// Puts the names of items in lower case. Their record begins at this offset.
fn lower_names<T: Named>(bytes: &mut [u8], start: usize, items: Items<T>) {
    for at in items {
        let length_byte = start.saturating_add(at.within as usize);
        lower_bytes(bytes, length_byte.saturating_add(1), at.item.name().len());
    }
}

/// Sets the checksum byte of the record at an offset to 0: then it counts for nothing (TIS OMF 1.1, "Object record format").
fn clear_checksum(bytes: &mut [u8], start: usize) {
    let Some([_kind, low, high, ..]) = bytes.get(start..) else {
        return;
    };
    let size = usize::from(*low) + 256 * usize::from(*high);
    if let Some(checksum) = bytes.get_mut(start.saturating_add(2 + size)) {
        *checksum = 0;
    }
}

/// Puts the names in `count` bytes from an offset on in lower case. Each is after its length in one byte.
fn lower_counted(bytes: &mut [u8], first: usize, count: usize) {
    let mut left = 0;
    for number in 0..count {
        if let Some(byte) = bytes.get_mut(first.saturating_add(number)) {
            let here = *byte;
            *byte = folded_at(left, here);
            left = left_after(left, here);
        }
    }
}

/// Puts the names of an ALIAS in lower case. Returns false for another record.
fn lower_aliases(bytes: &mut [u8], start: usize, rec: &Rec<'_>) -> bool {
    let Rec::Carried {
        kind: ALIAS,
        contents,
    } = rec
    else {
        return false;
    };
    lower_counted(bytes, start.saturating_add(3), contents.len());
    true
}

/// Puts the names of a record in lower case, and its checksum byte to 0. Other records stay as they are.
fn fold_record(bytes: &mut [u8], start: usize, rec: &Rec<'_>) {
    match named_items(rec) {
        NamedItems::Externs(items) => lower_names(bytes, start, items),
        NamedItems::Publics(publics) => lower_names(bytes, start, publics.items),
        NamedItems::Communals(items) => lower_names(bytes, start, items),
        NamedItems::Others => {
            if !lower_aliases(bytes, start, rec) {
                return;
            }
        }
    }
    clear_checksum(bytes, start);
}

/// The bytes of a module with the names of its publics, externals, communals and aliases in lower case. The records with such names have the checksum
/// byte 0; all other bytes are the same.
pub(crate) fn folded_bytes(alloc: Global, module: &Checked) -> Result<Vec<u8>, AllocError> {
    let mut bytes = module.bytes().to_vec(alloc)?;
    for (place, rec) in module.records() {
        fold_record(&mut bytes, place.start as usize, &rec);
    }
    Ok(bytes)
}
