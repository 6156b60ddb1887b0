//! The names of the parts in order, to find one of them fast. What is found is looked at before it is used, so these functions
//! promise nothing but that they are safe and return.

use crate::making::Part;
use crate::names::Defined;
use omf_library::folded;
use std::alloc::{AllocError, Global};
use std::cmp::Ordering;

/// A name of a part: the numbers of the part, and of the name in it.
#[derive(Clone, Copy)]
pub struct Spot {
    part: usize,
    name: usize,
}

/// What a part has at a spot.
fn defined_at<'a>(parts: &'a [Part], spot: Spot) -> Option<&'a Defined> {
    match parts.get(spot.part) {
        Some(part) => part.names.get(spot.name),
        None => None,
    }
}

/// How two names are in order: by their lengths, then by their characters as they are compared.
pub(crate) fn name_order(is_case_sensitive: bool, one: &[u8], other: &[u8]) -> Ordering {
    if one.len() != other.len() {
        return one.len().cmp(&other.len());
    }
    for (c, d) in one.iter().zip(other) {
        let c = folded(is_case_sensitive, *c);
        let d = folded(is_case_sensitive, *d);
        if c != d {
            return c.cmp(&d);
        }
    }
    Ordering::Equal
}

/// How two spots are in order: by their parts, then by their names.
fn spot_order(is_case_sensitive: bool, parts: &[Part], one: Spot, other: Spot) -> Ordering {
    if one.part != other.part {
        return one.part.cmp(&other.part);
    }
    match defined_at(parts, one) {
        Some(defined) => match defined_at(parts, other) {
            Some(also) => name_order(
                is_case_sensitive,
                defined.name.as_slice(),
                also.name.as_slice(),
            ),
            None => Ordering::Equal,
        },
        None => Ordering::Equal,
    }
}

/// Whether a spot is before those of a name of a part.
fn is_before(
    is_case_sensitive: bool,
    parts: &[Part],
    spot: Spot,
    part: usize,
    name: &[u8],
) -> bool {
    if spot.part != part {
        return spot.part < part;
    }
    match defined_at(parts, spot) {
        Some(defined) => matches!(
            name_order(is_case_sensitive, defined.name.as_slice(), name),
            Ordering::Less
        ),
        None => false,
    }
}

/// Adds the spots of this many names of a part.
fn push_spots(spots: &mut Vec<Spot>, part: usize, count: usize) -> Result<(), AllocError> {
    for name in 0..count {
        spots.push(Spot { part, name })?;
    }
    Ok(())
}

/// The spots of all names of the parts, in order.
pub(crate) fn ordered_spots(
    alloc: Global,
    is_case_sensitive: bool,
    parts: &[Part],
) -> Result<Vec<Spot>, AllocError> {
    let mut spots = Vec::new(alloc);
    for (number, part) in parts.iter().enumerate() {
        push_spots(&mut spots, number, part.names.len())?;
    }
    spots.sort_unstable_by(|one, other| spot_order(is_case_sensitive, parts, *one, *other));
    Ok(spots)
}

/// The number that a name has in a part, if the part has it.
pub(crate) fn number_in(
    is_case_sensitive: bool,
    parts: &[Part],
    spots: &[Spot],
    part: usize,
    name: &[u8],
) -> usize {
    let at = spots.partition_point(|spot| is_before(is_case_sensitive, parts, *spot, part, name));
    match spots.get(at) {
        Some(spot) => spot.name,
        None => 0,
    }
}
