//! What the searches for the names of modules cost at most.

ghost use Rattle.std.specs.Prelude.{◌+◌, ◌*◌, ◌≤◌, length};
ghost use Rattle.std.specs.Bool.{OnTrue};
ghost use Rattle.omf_making.specs.Made.{AreLong, bytes_of, looks_of, looks_of_names, names_of};

use crate::making::Part;
use crate::names::Defined;
use omf_library::{CREDIT, FIRST_CREDIT, LOOK};

/// What it costs to look at one bucket for each name, or less if that is too much for a number.
fn looks_of_names(names: &[Defined]) -> u64
    ensures { result ≤ looks_of_names names.now }
{
    let mut looks = 0u64;
    let mut rest = names;
    while let [defined, others @ ..] = rest {
        let length = defined.name.len() as u64;
        looks = looks.saturating_add(LOOK).saturating_add(length);
        rest = others;
    }
    looks
}

/// The same of the names of all modules.
fn looks_of(parts: &[Part]) -> u64
    ensures { result ≤ looks_of parts.now }
{
    let mut looks = 0u64;
    let mut rest = parts;
    while let [part, others @ ..] = rest {
        looks = looks.saturating_add(looks_of_names(part.names.as_slice()));
        rest = others;
    }
    looks
}

/// The number of names of all modules, or less if that is too much for a number.
fn names_of(parts: &[Part]) -> u64
    ensures { result ≤ names_of parts.now }
{
    let mut count = 0u64;
    let mut rest = parts;
    while let [part, others @ ..] = rest {
        count = count.saturating_add(part.names.len() as u64);
        rest = others;
    }
    count
}

/// Whether all modules together have this many bytes at most.
fn are_short(parts: &[Part], most: u64) -> bool
    ensures { OnTrue result (bytes_of parts.now ≤ most) }
{
    let mut left = most;
    let mut rest = parts;
    while let [part, others @ ..] = rest {
        let length = part.bytes.len() as u64;
        if left < length {
            return false;
        }
        left -= length;
        rest = others;
    }
    true
}

/// What the searches for the names cost at most, or less if that is too much for a number: three for each name, each of
/// which looks at no more buckets than twice the number of names, and four.

fn longest(parts: &[Part]) -> u64
    ensures { result ≤ 6 * ((names_of parts.now + 2) * looks_of parts.now) }
{
    let buckets = names_of(parts).saturating_add(2);
    buckets.saturating_mul(looks_of(parts)).saturating_mul(6)
}

/// Whether the searches for the names may cost more than those of a library may.
pub(crate) fn are_long(parts: &[Part]) -> bool
    ensures { OnTrue result (AreLong parts.now) }
{
    let cost = longest(parts);
    if cost < FIRST_CREDIT {
        return false;
    }
    are_short(parts, (cost - FIRST_CREDIT) / CREDIT)
}
