//! The numbers of the frames that a module names, each once.

ghost use Rattle.std.specs.Prelude.{◌≡◌, ◌++◌, IfOk, OnOk};
ghost use Rattle.omf_explicit.specs.Explicit.{distinct, number_in, numbers, numbers_in, numbers_in_reference, numbers_of};

use crate::part::{Datum, Part, Reference, parts_of};
use crate::record::Front;
use std::alloc::{AllocError, Global};
use std::marker::Model;

/// The number of frame numbers: they have 16 bits.
const NUMBER_COUNT: usize = 65_536;

/// FrameNumbers of frames, each once. A table has the place of each number, from 1, or 0.
#[derive(Drop)]
pub struct FrameNumbers {
    order: Vec<u16>,
    places: Vec<usize>,
}

impl Model for FrameNumbers {
    ghost use Rattle.std.specs.Prelude.{◌≡◌, ℕ, List, length};
    ghost use Rattle.omf_explicit.specs.Explicit.{ArePlaces};

    ghost Value = { List ℕ };

    ghost view = { λ n. n.order.items };

    ghost invariant = { λ n. ArePlaces n.order.items n.places.items };
}

impl FrameNumbers {
    ghost use Rattle.std.specs.Prelude.{◌≡◌, [], IfOk, OnOk};
    ghost use Rattle.omf_explicit.specs.Explicit.{place_in, with_number};

    /// No numbers.
    pub fn new(alloc: Global) -> Result<FrameNumbers, AllocError>
        ensures { IfOk result (λ n. n ≡ []) }
    {
        let places = vec![in alloc; 0; NUMBER_COUNT]?;
        let order = Vec::new(alloc);
        Ok(FrameNumbers { order, places })
    }

    /// Adds a number, unless it is there.
    #[tactic(auto, using(crate::proofs::PlaceLaws::one_place, crate::proofs::PlaceLaws::adds_one, crate::proofs::PlaceLaws::adds_none))]
    pub fn add(&mut self, number: u16) -> Result<(), AllocError>
        ensures { OnOk result (self.new ≡ with_number self.old number) }
    {
        let at = usize::from(number);
        if self.places[at] == 0 {
            self.order.push(number)?;
            self.places[at] = self.order.len();
        }
        Ok(())
    }

    /// The place of a number, from 1; 0 if it is not there.
    pub fn place(&self, number: u16) -> usize
        ensures { result ≡ place_in self.now number }
    {
        self.places[usize::from(number)]
    }

    /// The numbers.
    pub fn order(&self) -> &[u16]
        ensures { result.now ≡ self.now }
    {
        &self.order
    }
}

/// FrameNumbers, each once.
pub fn distinct(alloc: Global, named: &[u16]) -> Result<FrameNumbers, AllocError>
    ensures { IfOk result (λ n. n ≡ distinct named.now) }
{
    let mut all = FrameNumbers::new(alloc)?;
    for number in named {
        all.add(*number)?;
    }
    Ok(all)
}

/// Appends the number of a datum, if it has one.
fn push_number(named: &mut Vec<u16>, datum: Option<Datum>) -> Result<(), AllocError>
    ensures { OnOk result (named.new.items ≡ named.old.items ++ number_in datum) }
{
    match datum {
        Some(Datum::Number(number)) => Ok(named.push(number)?),
        Some(Datum::Index(_)) | None => Ok(()),
    }
}

/// Appends the numbers of a reference.
fn push_of_reference(named: &mut Vec<u16>, reference: &Reference) -> Result<(), AllocError>
    ensures { OnOk result (named.new.items ≡ named.old.items ++ numbers_in_reference reference.now) }
{
    push_number(named, reference.frame)?;
    push_number(named, reference.target)
}

/// Appends the numbers of a part.
fn push_of_part(named: &mut Vec<u16>, part: &Part) -> Result<(), AllocError>
    ensures { OnOk result (named.new.items ≡ named.old.items ++ numbers_in part.now) }
{
    match part {
        Part::Thread { datum, .. } => push_number(named, *datum),
        Part::Fixup { reference, .. } => push_of_reference(named, reference),
        Part::Start {
            reference: Some(reference),
            ..
        } => push_of_reference(named, reference),
        Part::Start {
            reference: None,
            ..
        } => Ok(()),
    }
}

/// Appends the numbers of a record.
fn push_of_record(alloc: Global, named: &mut Vec<u16>, record: &Front<'_>) -> Result<(), AllocError>
    ensures { OnOk result (named.new.items ≡ named.old.items ++ numbers_of record.now) }
{
    let parts = parts_of(alloc, record)?;
    for part in &parts {
        push_of_part(named, &part.item)?;
    }
    Ok(())
}

/// The numbers that records name, in their order.
pub(crate) fn numbers(alloc: Global, records: &[Front<'_>]) -> Result<Vec<u16>, AllocError>
    ensures { IfOk result (λ v. v.items ≡ numbers records.now) }
{
    let mut named = Vec::new(alloc);
    for record in records {
        push_of_record(alloc, &mut named, record)?;
    }
    Ok(named)
}
