//! The modules that a link text has: those that are found, at their places.

ghost use Rattle.std.specs.Prelude.{◌≡◌, ◌++◌, IfOk, List, MatchOption, OnOk, Option, Some, false, is_some, length, option_map, ℕ, ⊤};
ghost use Rattle.std.specs.List.{AllZip};
ghost use Rattle.omf_frame.specs.Bytes.{is_one_of};
ghost use Rattle.omf_check.specs.Module.{recs_of};
ghost use Rattle.omf_check.specs.Tables.{segments};
ghost use Rattle.omf_image.specs.Overlay.{IsRunAt, byte_at};
ghost use Rattle.omf_image.specs.declared.run.Run.{Run};
ghost use Rattle.omf_finding.specs.Finding.{IsHeld};
ghost use Rattle.omf_find.specs.Room.{IsLeftOf};
ghost use Rattle.omf_find.specs.Parts.{Adds, AreAddresses, AreKept, AreParts, IsAddress, IsFoundPart, IsHeldIf, IsPart, IsPlaced, IsPlacedIf, IsRoomFor, left_of, placed_of};

use crate::room::{Room, Side};
use crate::rows::{segment_rows_of, verdict_of};
use omf_check::Checked;
use omf_finding::{Findings, Found, Program, Verdict, is_found};
use omf_image::Image;
use omf_reloc::{Frame, Placed, Placement, RelocateFault, reach_and_relocate};
use std::alloc::{AllocError, Global};

/// A module at its places.
#[derive(Drop)]
pub struct Part {
    /// The number of the module, from 0.
    pub module: usize,
    /// Its placement: that of the search, but for the addresses of absent segments.
    pub placement: Placement,
}

/// The modules that are found.
#[derive(Drop)]
pub struct Parts {
    /// Those that have such a placement, in the order of the modules.
    pub placed: Vec<Part>,
    /// The others: no place is known for absent segments of theirs.
    pub left_out: Vec<usize>,
}

/// A module that is found, with the program in which it is.
#[derive(Clone, Copy)]
struct Seen<'a> {
    program: &'a Program,
    module: &'a Checked,
    found: &'a Found,
}

/// Whether an image has data of a segment.
fn has_data(image: &Image, segment: u16) -> bool
    ensures { (run : Option Run) × IsRunAt (byte_at image.now segment) 0 run × (result ≡ is_some run) }
{
    image.run_at(segment, 0).is_some()
}

/// Where there is room for a segment: in its frame. None if there is none.
fn free_address(seen: Seen<'_>, room: &mut Room, side: Side, segment: u16) -> Option<u32>
    ensures room { MatchOption result ⊤ (IsRoomFor seen.entry.«module».now seen.entry.found.now segment room.old) }
    ensures left { IsLeftOf room.old room.new }
{
    let place = seen.found.placement.segment(usize::from(segment))?;
    let info = seen.module.segment(segment)?;
    room.take(side, place.frame.base, info.length)
}

/// The address of a segment: that of the search, or where there is room if it is absent and has data. None if there is no room.
fn address_of(
    seen: Seen<'_>,
    image: &Image,
    room: &mut Room,
    side: Side,
    segment: u16,
) -> Option<u32>
    ensures address { MatchOption result ⊤ (IsAddress seen.entry.«module».now seen.entry.found.now room.old segment) }
    ensures left { IsLeftOf room.old room.new }
{
    let is_free = seen.found.absent.has(segment) && has_data(image, segment);
    if is_free {
        return free_address(seen, room, side, segment);
    }
    let place = seen.found.placement.segment(usize::from(segment))?;
    Some(place.address)
}

/// The addresses of the segments of a module; None if there is no room.
fn addresses_of(
    alloc: Global,
    seen: Seen<'_>,
    image: &Image,
    room: &mut Room,
    side: Side,
) -> Result<Option<Vec<u32>>, AllocError>
    ensures count { IfOk result (λ o. MatchOption o ⊤ (λ v. length v.items ≡ length (segments (recs_of seen.entry.«module».now.bytes)))) }
    ensures addresses { IfOk result (λ o. MatchOption o ⊤ (λ v. AreAddresses seen.entry.«module».now seen.entry.found.now room.old 1 v.items)) }
{
    let mut addresses = Vec::new(alloc);
    for before in 0..seen.module.segments() {
        match address_of(seen, image, room, side, before + 1) {
            Some(address) => addresses.push(address)?,
            None => return Ok(None),
        }
    }
    Ok(Some(addresses))
}

/// The place of a segment that is at another address if it is absent.
fn moved(found: &Found, segment: usize, place: Placed, address: Option<&u32>) -> Placed
    ensures { is_one_of found.now.absent segment ≡ false → result ≡ place }
{
    match u16::try_from(segment) {
        Ok(index) if found.absent.has(index) => Placed {
            address: address.copied().unwrap_or(place.address),
            frame: place.frame,
        },
        _ => place,
    }
}

/// The places of the segments of a module, of which those that are absent are at these addresses.
fn moved_segments(
    alloc: Global,
    found: &Found,
    addresses: &[u32],
) -> Result<Vec<Placed>, AllocError>
    ensures { IfOk result (λ v. AreKept found.now.absent 1 found.now.placement.segments v.items) }
{
    let places = found.placement.segments();
    let mut segments = Vec::new(alloc);
    for before in 0..places.len() {
        let place = &places[before];
        let address = addresses.get(before);
        segments.push(moved(found, before + 1, *place, address))?;
    }
    Ok(segments)
}

/// The frames of the groups of a placement.
fn groups_of(alloc: Global, placement: &Placement) -> Result<Vec<Frame>, AllocError>
    ensures { IfOk result (λ v. v.items ≡ placement.now.groups) }
{
    let mut groups = Vec::new(alloc);
    for before in 0..placement.group_count() {
        let Some(frame) = placement.group(before + 1) else {
            unreachable!()
        };
        groups.push(frame)?;
    }
    Ok(groups)
}

/// The places of the externals of a placement.
fn externals_of(alloc: Global, placement: &Placement) -> Result<Vec<Placed>, AllocError>
    ensures { IfOk result (λ v. v.items ≡ placement.now.externals) }
{
    let mut externals = Vec::new(alloc);
    for before in 0..placement.external_count() {
        let Some(place) = placement.external(before + 1) else {
            unreachable!()
        };
        externals.push(place)?;
    }
    Ok(externals)
}

/// The placement of a module whose absent segments are at these addresses.
fn moved_placement(alloc: Global, found: &Found, addresses: &[u32]) -> Result<Placement, AllocError>
    ensures segments { IfOk result (λ pl. AreKept found.now.absent 1 found.now.placement.segments pl.segments) }
    ensures groups { IfOk result (λ pl. pl.groups ≡ found.now.placement.groups) }
    ensures externals { IfOk result (λ pl. pl.externals ≡ found.now.placement.externals) }
{
    let segments = moved_segments(alloc, found, addresses)?;
    let groups = groups_of(alloc, &found.placement)?;
    let externals = externals_of(alloc, &found.placement)?;
    Ok(Placement::of(segments, groups, externals))
}

/// The placement of a module whose absent segments are at these addresses, if it is in the program there.
fn checked_placement(
    alloc: Global,
    seen: Seen<'_>,
    addresses: &[u32],
) -> Result<Option<Placement>, AllocError>
    ensures { IfOk result (λ o. MatchOption o ⊤ (IsPlaced seen.entry.program.now seen.entry.«module».now seen.entry.found.now)) }
{
    let placement = moved_placement(alloc, seen.found, addresses)?;
    let program = seen.program;
    let absent = &seen.found.absent;
    let found = is_found(
        alloc,
        seen.module,
        &placement,
        absent,
        &program.bytes,
        program.base,
    )?;
    if found { Ok(Some(placement)) } else { Ok(None) }
}

/// The same, with the absent segments on this side.
fn on_side(
    alloc: Global,
    seen: Seen<'_>,
    image: &Image,
    room: &mut Room,
    side: Side,
) -> Result<Option<Placement>, AllocError>
    ensures { IfOk result (λ o. MatchOption o ⊤ (IsPlaced seen.entry.program.now seen.entry.«module».now seen.entry.found.now)) }
{
    match addresses_of(alloc, seen, image, room, side)? {
        Some(addresses) => checked_placement(alloc, seen, &addresses),
        None => Ok(None),
    }
}

/// The same, with the absent segments after all others, or else between them.
fn on_either_side(
    alloc: Global,
    seen: Seen<'_>,
    image: &Image,
    room: &mut Room,
) -> Result<Option<Placement>, AllocError>
    ensures { IfOk result (λ o. MatchOption o ⊤ (IsPlaced seen.entry.program.now seen.entry.«module».now seen.entry.found.now)) }
{
    match on_side(alloc, seen, image, room, Side::After)? {
        Some(placement) => Ok(Some(placement)),
        None => on_side(alloc, seen, image, room, Side::Between),
    }
}

/// A placement of a module that has absent segments, where these are out of the way; None if none is known.
fn placement_with_absent(
    alloc: Global,
    seen: Seen<'_>,
    room: &mut Room,
) -> Result<Option<Placement>, AllocError>
    ensures { IfOk result (λ o. MatchOption o ⊤ (IsPlaced seen.entry.program.now seen.entry.«module».now seen.entry.found.now)) }
{
    match reach_and_relocate(alloc, seen.module, &seen.found.placement) {
        Ok(image) => on_either_side(alloc, seen, &image, room),
        Err(RelocateFault::Reach(_)) => Ok(None),
        Err(RelocateFault::Memory) => Err(AllocError),
    }
}

/// A placement of a module that is found, where its absent segments are out of the way; None if none is known.
fn placement_of(
    alloc: Global,
    seen: Seen<'_>,
    room: &mut Room,
) -> Result<Option<Placement>, AllocError>
    requires { IsHeld seen.program.now seen.«module».now seen.found.now }
    ensures { IfOk result (IsPlacedIf seen.entry.program.now seen.entry.«module».now seen.entry.found.now) }
{
    if seen.found.absent.is_empty() {
        let placement = seen.found.placement.copied()?;
        Ok(Some(placement))
    } else {
        placement_with_absent(alloc, seen, room)
    }
}

impl Parts {
    /// Adds a module that is found, or its number if it is left out.
    fn add(&mut self, number: usize, placement: Option<Placement>) -> Result<(), AllocError>
        ensures placed { OnOk result (self.new.placed.items ≡ self.old.placed.items ++ placed_of number placement) }
        ensures left_out { OnOk result (self.new.left_out.items ≡ self.old.left_out.items ++ left_of number placement) }
    {
        match placement {
            Some(placement) => self.placed.push(Part {
                module: number,
                placement,
            })?,
            None => self.left_out.push(number)?,
        }
        Ok(())
    }

    /// Adds a module that is found.
    fn add_found(
        &mut self,
        number: usize,
        seen: Seen<'_>,
        room: &mut Room,
    ) -> Result<(), AllocError>
        requires { IsHeld seen.program.now seen.«module».now seen.found.now }
        ensures { OnOk result ((one : List Part) × (left : List ℕ) × IsFoundPart seen.entry.program.now number seen.entry.«module».now seen.entry.found.now one left × Adds self.old self.new one left) }
    {
        let placement = placement_of(*self.left_out.allocator(), seen, room)?;
        self.add(number, placement)?;
        Ok(())
    }

    /// Adds a module, if it is found.
    fn take(
        &mut self,
        number: usize,
        module: &Checked,
        program: &Program,
        verdict: Option<&Verdict>,
        room: &mut Room,
    ) -> Result<(), AllocError>
        requires { MatchOption (option_map (λ v. v.now) verdict) ⊤ (IsHeldIf program.now «module».now) }
        ensures { OnOk result ((one : List Part) × (left : List ℕ) × IsPart program.now number «module».now (option_map (λ v. v.now) verdict.entry) one left × Adds self.old self.new one left) }
    {
        match verdict {
            Some(Verdict::Found(found)) => {
                let seen = Seen {
                    program,
                    module,
                    found,
                };
                self.add_found(number, seen, room)
            }
            Some(Verdict::Possible(_)) => Ok(()),
            Some(Verdict::NotThere) => Ok(()),
            None => Ok(()),
        }
    }

    /// Adds the modules that are found.
    fn take_all(
        &mut self,
        modules: &[Checked],
        program: &Program,
        verdicts: &[Verdict],
        room: &mut Room,
    ) -> Result<(), AllocError>
        requires { AllZip (IsHeldIf program.now) modules.now verdicts.now }
        ensures { OnOk result ((placed : List Part) × (left : List ℕ) × AreParts program.now 0 modules.now verdicts.now placed left × Adds self.old self.new placed left) }
    {
        for (number, module) in modules.iter().enumerate() {
            let verdict = verdict_of(verdicts, number);
            self.take(number, module, program, verdict, room)?;
        }
        Ok(())
    }

    /// The modules that are found, each at its places: those of the search, but that absent segments with data are after the program, or
    /// where that does not reach between the segments that are found. So no byte of them is where one of a found segment is.
    ///
    /// # Errors
    ///
    /// `AllocError` if memory runs out.
    pub fn of(
        alloc: Global,
        modules: &[Checked],
        program: &Program,
        findings: &Findings,
    ) -> Result<Parts, AllocError>
        requires { AllZip (IsHeldIf program.now) modules.now findings.now.verdicts.items }
        ensures { IfOk result (λ p. AreParts program.now 0 modules.now findings.now.verdicts.items p.placed.items p.left_out.items) }
    {
        let rows = segment_rows_of(alloc, modules, findings)?;
        let end = u64::from(program.base).saturating_add(program.bytes.len() as u64);
        let mut room = Room::around(alloc, &rows, end)?;
        let mut parts = Parts {
            placed: Vec::new(alloc),
            left_out: Vec::new(alloc),
        };
        parts.take_all(modules, program, &findings.verdicts, &mut room)?;
        Ok(parts)
    }
}
