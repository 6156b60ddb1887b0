//! The pieces of a checked module: its records and its fixups, with threads resolved.

ghost use Rattle.std.specs.Prelude.{◌≡◌, ◌∷◌, [], map, IfNone, IfSome, None, Some, option_map};
ghost use Rattle.omf_image.specs.Limits.{profile_limits};
ghost use Rattle.omf_check.specs.Inner.Contents.{references_seen};
ghost use Rattle.omf_check.specs.Inner.Kept.{no_threads, threads_after};
ghost use Rattle.omf_check.specs.Listed.{placed_from};
ghost use Rattle.omf_check.specs.Module.{recs_of, records_in};
ghost use Rattle.omf_check.specs.Sound.{ModuleHolds};
ghost use Rattle.omf_reloc.specs.Inner.PieceSeen.{step_seen, placed_seen};
ghost use Rattle.omf_reloc.specs.Inner.Pieces.{subrecord_step, contents_steps, open_steps, threads_after_open, end_at, single_pieces, reference_places, placed_pieces, SubrecordIsSet, ContentsAreSet, OpenIsSet, RecordsAreSet};
ghost use Rattle.omf_reloc.specs.Inner.Widths.{fixupp_type, modend_type};
ghost use Rattle.omf_reloc.specs.Plain.{End, Fixed};
ghost use Rattle.omf_reloc.specs.Inner.Walking.{direct_plain, plain_by};
ghost use Rattle.omf_records.specs.Values.{ModEnd};
ghost use Rattle.omf_reloc.specs.Reach.{all_reference_places};

use crate::plain::{PlainFixup, PlainReference, direct_fixup, plain_reference};
use omf_check::{Checked, References, Threads, Undecoded, UndecodedRecords};
use omf_frame::{Place, Width};
use omf_records::{At, DirectFixup, Items, Part, Reference, Subrecord};
use std::marker::Model;

/// A piece of a module. It refers to no thread.
#[derive(Drop)]
pub enum Piece<'a> {
    /// A record that is neither a FIXUPP nor a MODEND. It is not decoded yet.
    Kept(Undecoded<'a>),
    /// A fixup, and the width of its FIXUPP's fields.
    Fixed {
        width: Width,
        fixup: PlainFixup,
    },
    /// The MODEND: the width of its fields, its module type byte, and its start.
    End {
        width: Width,
        type_byte: u8,
        start: Option<PlainReference>,
    },
}

/// A FIXUPP with subrecords left to read.
#[derive(Drop)]
struct OpenFixups<'a> {
    place: Place,
    width: Width,
    left: Items<Subrecord<'a>>,
}

impl<'a> Model for OpenFixups<'a> {
    ghost use Rattle.omf_reloc.specs.Inner.Widths.{fixupp_type};
    ghost use Rattle.omf_reloc.specs.Inner.Pieces.{OpenFixups as OpenFixupsModel};

    ghost Value = { OpenFixupsModel };

    ghost view = { λ o. record { place = o.place; kind = fixupp_type o.width; left = o.left } };
}

/// The piece of a subrecord in the FIXUPP at this place: a fixup, at its first byte; None for a THREAD.
fn subrecord_step<'a>(
    threads: &Threads,
    at: Place,
    width: Width,
    subrecord: &At<Subrecord<'_>>,
) -> Option<(Place, Piece<'a>)>
    requires { SubrecordIsSet threads.now subrecord.now.item }
    ensures { step_seen result ≡ subrecord_step threads.now at (fixupp_type width) subrecord.now.within subrecord.now.item }
{
    match &subrecord.item.part {
        Part::Thread { .. } => None,
        Part::Fixup {
            location,
            reference,
        } => {
            let fixup = PlainFixup {
                location: *location,
                reference: plain_reference(threads, reference),
            };
            let within = subrecord.within;
            Some((Place { within, ..at }, Piece::Fixed { width, fixup }))
        }
    }
}

/// The piece of a FIXUP that uses no thread, at this offset in the FIXUPP at this place.
#[inline(always)]
fn direct_piece<'a>(at: Place, width: Width, within: u32, fixup: &DirectFixup) -> (Place, Piece<'a>)
    ensures { placed_seen result ≡ (record at { within = within }, Fixed (fixupp_type width) (direct_plain fixup.now ∷ [])) }
{
    let fixup = direct_fixup(fixup);
    (Place { within, ..at }, Piece::Fixed { width, fixup })
}

/// The piece of the MODEND at this place.
fn end_piece<'a>(
    threads: &Threads,
    at: Place,
    width: Width,
    type_byte: u8,
    start: &Option<Reference>,
) -> (Place, Piece<'a>)
    requires { ContentsAreSet threads.now (ModEnd type_byte start.now) }
    ensures { placed_seen result ≡ (end_at at start.now, End (modend_type width) type_byte (option_map (plain_by threads.now) start.now)) }
{
    match start {
        None => (
            at,
            Piece::End {
                width,
                type_byte,
                start: None,
            },
        ),
        Some(reference) => {
            let within = reference.fix.within;
            let start = Some(plain_reference(threads, reference));
            (
                Place { within, ..at },
                Piece::End {
                    width,
                    type_byte,
                    start,
                },
            )
        }
    }
}

/// Takes the next subrecord of the FIXUPP being read: sets its thread, or gives its fixup. `None` if none is left; then no FIXUPP is read.
#[inline(always)]
fn open_step<'a>(
    threads: &mut Threads,
    fixups: &mut Option<OpenFixups<'_>>,
) -> Option<Option<(Place, Piece<'a>)>>
    requires { OpenIsSet threads.old fixups.old }
    ensures some { IfSome result (λ step. open_steps threads.old fixups.old ≡ step_seen step ∷ open_steps threads.new fixups.new) }
    ensures none { IfNone result (open_steps threads.old fixups.old ≡ []) }
    ensures closed { IfNone result (fixups.new ≡ None) }
    ensures threads { threads_after_open threads.new fixups.new ≡ threads_after_open threads.old fixups.old }
    ensures set { OpenIsSet threads.new fixups.new }
{
    if let Some(open) = fixups {
        if let Some((within, fixup)) = open.left.next_direct() {
            return Some(Some(direct_piece(open.place, open.width, within, &fixup)));
        }
        if let Some(subrecord) = open.left.next() {
            let step = subrecord_step(threads, open.place, open.width, &subrecord);
            threads.set(&subrecord.item);
            return Some(step);
        }
        *fixups = None;
    }
    None
}

/// Takes the next subrecord of the FIXUPP being read, if it is a fixup that uses no thread: its place, the width of its FIXUPP's fields, and
/// the fixup. Otherwise returns `None`, and changes nothing.
#[inline(always)]
fn direct_step(
    threads: &Threads,
    fixups: &mut Option<OpenFixups<'_>>,
) -> Option<(Place, Width, PlainFixup)>
    requires { OpenIsSet threads.now fixups.old }
    ensures some { IfSome result (λ x. open_steps threads.now fixups.old ≡ Some (x.0, Fixed (fixupp_type x.1) (x.2 ∷ [])) ∷ open_steps threads.now fixups.new) }
    ensures none { IfNone result (fixups.new ≡ fixups.old) }
    ensures threads { threads_after_open threads.now fixups.new ≡ threads_after_open threads.now fixups.old }
    ensures set { OpenIsSet threads.now fixups.new }
{
    if let Some(open) = fixups {
        if let Some((within, fixup)) = open.left.next_direct() {
            let place = Place {
                within,
                ..open.place
            };
            return Some((place, open.width, direct_fixup(&fixup)));
        }
    }
    None
}

/// The piece of a MODEND. A FIXUPP has none; its subrecords come next.
fn references_step<'a>(
    threads: &Threads,
    at: Place,
    references: &References<'a>,
) -> (Option<(Place, Piece<'a>)>, Option<OpenFixups<'a>>)
    requires { ContentsAreSet threads.now (references_seen references.now).contents }
    ensures step { step_seen result.0 ∷ open_steps threads.now result.1 ≡ contents_steps threads.now at (references_seen references.now).kind (references_seen references.now).contents }
    ensures threads { threads_after_open threads.now result.1 ≡ threads_after threads.now (references_seen references.now).contents }
    ensures set { OpenIsSet threads.now result.1 }
{
    match references {
        References::Fixups { width, subrecords } => {
            let fixups = OpenFixups {
                place: at,
                width: *width,
                left: subrecords.iter(),
            };
            (None, Some(fixups))
        }
        References::ModEnd {
            width,
            type_byte,
            start,
        } => (
            Some(end_piece(threads, at, *width, *type_byte, start)),
            None,
        ),
    }
}

/// An iterator over a module's pieces, each with its place: a record is at its type byte, a fixup at its first byte, and the MODEND at the
/// fix data byte of its start, or at its type byte if it names no start.
#[derive(Drop)]
pub struct Pieces<'a> {
    records: UndecodedRecords<'a>,
    /// The FIXUPP being read.
    fixups: Option<OpenFixups<'a>>,
    /// The threads in force.
    threads: Threads,
}

impl<'a> Model for Pieces<'a> {
    ghost use Rattle.std.specs.Prelude.{List};
    ghost use Rattle.omf_frame.specs.declared.fault.Place.{Place as PlaceModel};
    ghost use Rattle.omf_reloc.specs.Plain.{Piece as Plain};
    ghost use Rattle.omf_reloc.specs.Inner.Pieces.{given, steps_left, AreSet};

    ghost Value = { List (PlaceModel × Plain) };

    ghost view = { λ p. given (steps_left p.threads p.fixups p.records) };

    ghost invariant = { λ p. AreSet p.threads p.fixups p.records };
}

impl<'a> Pieces<'a> {
    /// Those of these records, from the first on.
    fn new(records: UndecodedRecords<'a>) -> Pieces<'a>
        requires { RecordsAreSet no_threads records }
        ensures { result ≡ placed_pieces records.entry }
    {
        Pieces {
            records,
            fixups: None,
            threads: Threads::new(),
        }
    }

    /// Goes on after the next piece, if its FIXUPP is being read and it is a fixup that uses no thread. Returns its place, the width of its
    /// FIXUPP's fields, and the fixup. Otherwise returns `None`, and changes nothing.
    #[inline(always)]
    pub(crate) fn next_direct(&mut self) -> Option<(Place, Width, PlainFixup)>
        ensures some { IfSome result (λ x. self.old ≡ (x.0, Fixed (fixupp_type x.1) (x.2 ∷ [])) ∷ self.new) }
        ensures none { IfNone result (self.new ≡ self.old) }
    {
        direct_step(&self.threads, &mut self.fixups)
    }
}

impl<'a> Iterator for Pieces<'a> {
    ghost use Rattle.std.specs.Iterator.{YieldsFirstBy, item_count};
    ghost use Rattle.omf_reloc.specs.Inner.PieceSeen.{placed_seen};

    type Item = (Place, Piece<'a>);

    ghost next_gives = { YieldsFirstBy placed_seen (λ s. s) };

    ghost remaining = { item_count (λ s. s) };

    #[inline(always)]
    fn next(&mut self) -> Option<(Place, Piece<'a>)> {
        loop {
            if let Some(step) = open_step(&mut self.threads, &mut self.fixups) {
                if step.is_some() {
                    return step;
                }
            } else {
                let (place, rec) = self.records.next()?;
                let Some(references) = rec.as_references() else {
                    return Some((place, Piece::Kept(rec)));
                };
                let (end, fixups) = references_step(&self.threads, place, &references);
                self.fixups = fixups;
                if end.is_some() {
                    return end;
                }
            }
        }
    }
}

/// The pieces of a module, in file order.
pub fn pieces_of(module: &Checked) -> Pieces<'_>
    ensures walked { result ≡ placed_pieces (placed_from 0 0 (records_in «module».now.bytes)) }
    ensures listed { map (λ p. p.1) result ≡ single_pieces (recs_of «module».now.bytes) }
    ensures places { reference_places result ≡ all_reference_places (recs_of «module».now.bytes) }
    ensures holds { ModuleHolds profile_limits (recs_of «module».now.bytes) }
{
    Pieces::new(module.undecoded())
}
