//! Parts with the indices of segments in place of frame numbers.

ghost use Rattle.std.specs.Prelude.{◌≡◌, ◌+◌, IfOk};
ghost use Rattle.omf_explicit.specs.Explicit.{place_in, is_number, plain_datum, plain_if, plain_part, plain_reference, without};

use crate::numbers::FrameNumbers;
use crate::part::{Datum, Part, Reference};
use std::alloc::AllocError;
use std::marker::Model;

/// The most segments of a module.
pub(crate) const SEGMENT_LIMIT: usize = 32_767;

/// The number of a module's own segments, and the numbers of the frames that get segments after them.
#[derive(Drop)]
pub(crate) struct Table {
    pub count: usize,
    pub numbers: FrameNumbers,
}

impl Model for Table {
    ghost use Rattle.omf_explicit.specs.Explicit.{Frames};

    ghost Value = { Frames };

    ghost view = { λ t. record { count = t.count; numbers = t.numbers } };
}

/// A datum with an index. A segment has an index that can be written, so that no error is met.
fn plain_datum(table: &Table, datum: Datum) -> Result<Datum, AllocError>
    ensures { IfOk result (λ d. d ≡ plain_datum table.now datum) }
{
    match datum {
        Datum::Index(index) => Ok(Datum::Index(index)),
        Datum::Number(number) => {
            let index = table.count.saturating_add(table.numbers.place(number));
            if index > SEGMENT_LIMIT {
                return Err(AllocError);
            }
            Ok(Datum::Index(index as u16))
        }
    }
}

/// A datum with an index, if there is one.
fn plain_if(table: &Table, datum: Option<Datum>) -> Result<Option<Datum>, AllocError>
    ensures { IfOk result (λ d. d ≡ plain_if table.now datum) }
{
    match datum {
        Some(datum) => Ok(Some(plain_datum(table, datum)?)),
        None => Ok(None),
    }
}

/// Whether a datum is a frame number.
pub(crate) fn is_number(datum: Option<Datum>) -> bool
    ensures { result ≡ is_number datum }
{
    matches!(datum, Some(Datum::Number(_)))
}

/// A value without some bits, which it has, if a datum is a frame number: method 3 becomes 0.
fn without(value: u8, bits: u8, datum: Option<Datum>) -> u8
    ensures { result ≡ without value bits datum }
{
    if is_number(datum) {
        value.saturating_sub(bits)
    } else {
        value
    }
}

/// A reference with indices.
fn plain_reference(table: &Table, reference: &Reference) -> Result<Reference, AllocError>
    ensures { IfOk result (λ r. r ≡ plain_reference table.now reference.now) }
{
    let Reference {
        fix,
        frame,
        target,
        displacement,
    } = *reference;
    let fix = without(without(fix, 0x30, frame), 0x03, target);
    let frame = plain_if(table, frame)?;
    let target = plain_if(table, target)?;
    Ok(Reference {
        fix,
        frame,
        target,
        displacement,
    })
}

/// A part with indices.
pub(crate) fn plain_part(table: &Table, part: &Part) -> Result<Part, AllocError>
    ensures { IfOk result (λ p. p ≡ plain_part table.now part.now) }
{
    match part {
        Part::Thread { first, datum } => Ok(Part::Thread {
            first: without(*first, 0x0C, *datum),
            datum: plain_if(table, *datum)?,
        }),
        Part::Fixup {
            location,
            reference,
        } => Ok(Part::Fixup {
            location: *location,
            reference: plain_reference(table, reference)?,
        }),
        Part::Start {
            first,
            reference: Some(reference),
        } => Ok(Part::Start {
            first: *first,
            reference: Some(plain_reference(table, reference)?),
        }),
        Part::Start {
            first,
            reference: None,
        } => Ok(Part::Start {
            first: *first,
            reference: None,
        }),
    }
}
