//! The entries of the dictionary of a library that is made. It is read back before it is used, so these functions promise
//! nothing but that they are safe and return.

use crate::making::{MakeFault, Part};
use crate::names::is_strong;
use crate::spots::name_order;
use std::alloc::{AllocError, Global};
use std::cmp::Ordering;

/// The number of a part's first page.
#[derive(Clone, Copy)]
pub struct First {
    pub part: usize,
    pub page: u16,
}

/// A name of a part, and the page of its member.
#[derive(Clone, Copy)]
pub struct Entry<'a> {
    pub name: &'a [u8],
    pub page: u16,
    part: usize,
    /// The number of the name in the part.
    number: usize,
    /// Whether it is neither a COMDAT nor an alias.
    is_strong: bool,
    /// How many names of the parts are this one; 0 if one that comes before it is, so that it is not put.
    pub times: u64,
}

/// Appends the names of a part that several parts may define, or those that one may.
fn push_names<'a>(
    entries: &mut Vec<Entry<'a>>,
    first: First,
    part: &'a Part,
    is_turn_strong: bool,
) -> Result<(), AllocError> {
    for (number, defined) in part.names.iter().enumerate() {
        if is_strong(defined.kind) == is_turn_strong {
            entries.push(Entry {
                name: defined.name.as_slice(),
                page: first.page,
                part: first.part,
                number,
                is_strong: is_turn_strong,
                times: 0,
            })?;
        }
    }
    Ok(())
}

/// Appends the names of all parts that several may define, or those that one may.
fn push_all<'a>(
    entries: &mut Vec<Entry<'a>>,
    pages: &[First],
    parts: &'a [Part],
    is_turn_strong: bool,
) -> Result<(), AllocError> {
    for (first, part) in pages.iter().zip(parts) {
        push_names(entries, *first, part, is_turn_strong)?;
    }
    Ok(())
}

/// How two entries are in order, given by their numbers: by their names, then as they are put.
fn entry_order(
    is_case_sensitive: bool,
    entries: &[Entry<'_>],
    one: usize,
    other: usize,
) -> Ordering {
    let (Some(entry), Some(also)) = (entries.get(one), entries.get(other)) else {
        return one.cmp(&other);
    };
    match name_order(is_case_sensitive, entry.name, also.name) {
        Ordering::Equal => one.cmp(&other),
        order => order,
    }
}

/// The numbers of the entries, in the order of their names.
fn ordered(
    alloc: Global,
    is_case_sensitive: bool,
    entries: &[Entry<'_>],
) -> Result<Vec<usize>, AllocError> {
    let mut order = Vec::new(alloc);
    for number in 0..entries.len() {
        order.push(number)?;
    }
    order.sort_unstable_by(|one, other| entry_order(is_case_sensitive, entries, *one, *other));
    Ok(order)
}

/// Two entries of one name, the second of which is neither a COMDAT nor an alias.
#[derive(Clone, Copy)]
struct Twice {
    first: usize,
    second: usize,
}

/// Whether two entries have one name.
fn is_one_name(is_case_sensitive: bool, entries: &[Entry<'_>], one: usize, other: usize) -> bool {
    let (Some(entry), Some(also)) = (entries.get(one), entries.get(other)) else {
        return false;
    };
    matches!(
        name_order(is_case_sensitive, entry.name, also.name),
        Ordering::Equal
    )
}

/// Counts another entry of a name, whose first is given by its number.
fn count_one(entries: &mut [Entry<'_>], first: usize) {
    if let Some(entry) = entries.get_mut(first) {
        entry.times = entry.times.saturating_add(1);
    }
}

/// Whether an entry is neither a COMDAT nor an alias.
fn is_strong_at(entries: &[Entry<'_>], number: usize) -> bool {
    match entries.get(number) {
        Some(entry) => entry.is_strong,
        None => false,
    }
}

/// Counts the entries of each name at the first of them. Returns the first entry that is neither a COMDAT nor an alias and has a name twice.
fn count_all(is_case_sensitive: bool, entries: &mut [Entry<'_>], order: &[usize]) -> Option<Twice> {
    let mut twice: Option<Twice> = None;
    let mut first = entries.len();
    for number in order {
        if !is_one_name(is_case_sensitive, entries, first, *number) {
            first = *number;
        } else if is_strong_at(entries, *number) && is_earlier(*number, twice) {
            twice = Some(Twice {
                first,
                second: *number,
            });
        }
        count_one(entries, first);
    }
    twice
}

/// Whether an entry comes before the second of two of one name.
fn is_earlier(number: usize, twice: Option<Twice>) -> bool {
    match twice {
        Some(twice) => number < twice.second,
        None => true,
    }
}

/// The fault of two entries of one name.
fn fault_of(entries: &[Entry<'_>], twice: Twice) -> MakeFault {
    match (entries.get(twice.first), entries.get(twice.second)) {
        (Some(first), Some(second)) => MakeFault::Twice {
            first: first.part,
            second: second.part,
            name: second.number,
        },
        _ => MakeFault::Unlike,
    }
}

/// The names of the parts as they are put: publics and imports, then COMDATs and aliases, of which those that are there
/// already have the count 0.
pub fn entries_of<'a>(
    alloc: Global,
    is_case_sensitive: bool,
    pages: &[First],
    parts: &'a [Part],
) -> Result<Vec<Entry<'a>>, MakeFault> {
    let mut entries = Vec::new(alloc);
    push_all(&mut entries, pages, parts, true)?;
    push_all(&mut entries, pages, parts, false)?;
    let order = ordered(alloc, is_case_sensitive, &entries)?;
    match count_all(is_case_sensitive, &mut entries, &order) {
        Some(twice) => Err(fault_of(&entries, twice)),
        None => Ok(entries),
    }
}
