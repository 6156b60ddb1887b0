//! The memory of several modules, one image after another: each module is relocated, laid in memory and dropped before the next, so that one
//! image is kept beside the memory, and not those of all.

ghost use Rattle.std.specs.Prelude.{◌≡◌, [], ◌++◌, ◌<◌, ◌^◌, All, IfOk, IfSome, OnOk, Ok, flat_map, length, true};
ghost use Rattle.omf_check.specs.Module.{recs_of, typed_modules};
ghost use Rattle.omf_check.specs.Sound.{ModuleHolds};
ghost use Rattle.omf_image.specs.Limits.{profile_limits};
ghost use Rattle.omf_image.specs.Overlay.{AreLaidOver};
ghost use Rattle.omf_image.specs.Painting.{Fits};
ghost use Rattle.omf_records.specs.Inner.Seen.{map_ok, rec_seen};
ghost use Rattle.omf_reloc.specs.Inner.Measuring.{CanMeasure, measured};
ghost use Rattle.omf_linking.specs.Inner.Laying.{laid_pieces};
ghost use Rattle.omf_linking.specs.Inner.Runs.{AreStretches};
ghost use Rattle.omf_linking.specs.Inner.Turning.{IsBegun, IsFinished, IsTaken, IsTurn, spots};
ghost use Rattle.omf_linking.specs.Segments.{image_bytes, module_segments};
ghost use Rattle.omf_linking.specs.Space.Memory.{Lies};
ghost use Rattle.omf_linking.specs.Starts.{one_start};
ghost use Rattle.omf_linking.specs.Together.{AreOne};

use crate::relocated::{Relocated, main_start};
use crate::segments::{Member, add_module};
use crate::space::{
    Interval, MemoryFault, Stretch, add_intervals, first_overlap, lay_all, stretches_of,
};
use crate::together::Together;
use omf_check::Checked;
use omf_image::{Extent, Image, painted};
use omf_placement::Placement;
use omf_records::Rec;
use omf_reloc::measure;
use std::alloc::{AllocError, Global};

/// Appends the extent of a data record.
fn push_data(extents: &mut Vec<Extent>, rec: &Rec<'_>) -> Result<(), AllocError>
    requires { CanMeasure (rec_seen rec.now) }
    ensures { OnOk result (extents.new.items ≡ extents.old.items ++ measured (rec_seen rec.now)) }
{
    if let Some(extent) = measure(rec) {
        extents.push(extent)?;
    }
    Ok(())
}

/// The extents of a module's data.
fn data_of(alloc: Global, module: &Checked) -> Result<Vec<Extent>, AllocError>
    ensures data { IfOk result (λ v. v.items ≡ flat_map measured (recs_of «module».now.bytes)) }
    ensures holds { ModuleHolds profile_limits (recs_of «module».now.bytes) }
{
    let mut extents = Vec::new(alloc);
    for (_place, rec) in module.records() {
        push_data(&mut extents, &rec)?;
    }
    Ok(extents)
}

/// A module with zeros for the bytes of its image.
fn blank(alloc: Global, module: &Checked) -> Result<Relocated, AllocError> {
    let image = painted(alloc, data_of(alloc, module)?)?;
    Ok(Relocated { image, start: None })
}

/// The bytes of a module in memory, segment by segment.
fn stretched<'a>(
    alloc: Global,
    member: &Member<'_>,
    relocated: &'a Relocated,
) -> Result<Vec<Stretch<'a>>, MemoryFault>
    ensures lie { IfOk result (λ v. All Lies v.items) }
    ensures stretches { AreStretches (module_segments (member.now.number, ((recs_of member.now.«module».now.bytes, member.now.placement.now), image_bytes relocated.entry.now))) (map_ok (λ v. v.items) result) }
{
    let mut segments = Vec::new(alloc);
    add_module(&mut segments, member, relocated)?;
    stretches_of(alloc, &segments)
}

/// The addresses that the data of modules cover: of each module those that `stretched` gives for its image.
fn intervals_of(
    alloc: Global,
    modules: &[Checked],
    placements: &[Placement],
) -> Result<Vec<Interval>, MemoryFault>
    requires few { length modules.now < 2 ^ 32 }
    requires placed { length placements.now ≡ length modules.now }
    ensures { IfOk result (λ v. All Fits (spots v.items)) }
{
    let mut intervals = Vec::new(alloc);
    for (j, module) in modules.iter().enumerate() {
        let blank = blank(alloc, module)?;
        let member = Member {
            number: j as u32,
            module,
            placement: &placements[j],
        };
        let stretches = stretched(alloc, &member, &blank)?;
        add_intervals(&mut intervals, &stretches)?;
    }
    Ok(intervals)
}

/// Intervals of addresses as extents of segment 0.
fn spots_of(alloc: Global, intervals: &[Interval]) -> Result<Vec<Extent>, AllocError>
    ensures { IfOk result (λ v. v.items ≡ spots intervals.now) }
{
    let mut extents = Vec::new(alloc);
    for interval in intervals {
        extents.push(interval.spot())?;
    }
    Ok(extents)
}

/// Whether intervals are the same.
fn are_same(some: &[Interval], others: &[Interval]) -> bool
    ensures { result ≡ true → some.now ≡ others.now }
{
    if some.len() != others.len() {
        return false;
    }
    for (i, interval) in some.iter().enumerate() {
        if !interval.is(&others[i]) {
            return false;
        }
    }
    true
}

/// The start of modules, by the main ones that name one; none if there are two.
fn start_among(starts: &[(u32, (u16, u32))]) -> Option<Option<(u16, u32)>>
    ensures { IfSome result (λ start. one_start starts.now ≡ Ok start) }
{
    match starts {
        [] => Some(None),
        [(_, start)] => Some(Some(*start)),
        [_, _, ..] => None,
    }
}

/// The modules so far.
#[derive(Drop)]
pub(crate) struct Turns {
    /// Their memory, over zeros.
    image: Image,
    /// The addresses that they cover.
    intervals: Vec<Interval>,
    /// The starts of the main ones, each with the number of its module.
    starts: Vec<(u32, (u16, u32))>,
}

impl Turns {
    /// Adds a module's bytes at their addresses, and its start.
    fn add(
        &mut self,
        alloc: Global,
        member: &Member<'_>,
        relocated: &Relocated,
    ) -> Result<(), MemoryFault>
        ensures { OnOk result (IsTurn self.old member.now.number (recs_of member.now.«module».now.bytes, member.now.placement.now) relocated.now self.new) }
    {
        let stretches = stretched(alloc, member, relocated)?;
        lay_all(alloc, &mut self.image, &stretches)?;
        add_intervals(&mut self.intervals, &stretches)?;
        if let Some(start) = main_start(member.module, relocated) {
            self.starts.push((member.number, start))?;
        }
        Ok(())
    }

    /// Relocates a module to the placement where it runs, adds it where it is stored, and drops its image. None if that cannot be done.
    fn take(&mut self, alloc: Global, member: &Member<'_>, run: &Placement) -> Option<()>
        ensures { IfSome result (λ done. IsTaken self.old member.now.number (recs_of member.now.«module».now.bytes, run.now) member.now.placement.now self.new) }
    {
        let relocated = Relocated::of(alloc, member.number, member.module, run).ok()?;
        self.add(alloc, member, &relocated).ok()
    }

    /// The memory and the start, if these are the intervals of the modules and no two segments overlap that may not.
    fn finish(self, intervals: &[Interval]) -> Option<Together>
        ensures { IfSome result (IsFinished self intervals.now) }
    {
        if !are_same(&self.intervals, intervals) {
            return None;
        }
        if first_overlap(self.intervals).is_some() {
            return None;
        }
        let start = start_among(&self.starts)?;
        Some(Together {
            memory: self.image,
            start,
        })
    }
}

/// No modules: zeros at these intervals.
fn no_modules(alloc: Global, intervals: &[Interval]) -> Result<Turns, AllocError>
    requires { All Fits (spots intervals.now) }
    ensures { IfOk result (IsBegun intervals.now) }
{
    let image = painted(alloc, spots_of(alloc, intervals)?)?;
    Ok(Turns {
        image,
        intervals: Vec::new(alloc),
        starts: Vec::new(alloc),
    })
}

/// Relocates modules to their placements, one after another, and lays each in one memory, where it is stored. None if memory runs out, or if
/// there is a fault.
pub(crate) fn by_turns(
    alloc: Global,
    modules: &[Checked],
    placements: &[Placement],
    stored: &[Placement],
) -> Option<Together>
    requires few { length modules.now < 2 ^ 32 }
    requires placed { length placements.now ≡ length modules.now }
    requires stored { length stored.now ≡ length modules.now }
    ensures { IfSome result (AreOne (typed_modules modules.now) placements.now stored.now) }
{
    let Ok(intervals) = intervals_of(alloc, modules, stored) else {
        return None;
    };
    let Ok(mut turns) = no_modules(alloc, &intervals) else {
        return None;
    };
    for (j, module) in modules.iter().enumerate() {
        let member = Member {
            number: j as u32,
            module,
            placement: &stored[j],
        };
        turns.take(alloc, &member, &placements[j])?;
    }
    turns.finish(&intervals)
}
