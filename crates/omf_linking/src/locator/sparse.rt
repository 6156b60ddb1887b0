//! What a text gives the entries of a module.

ghost use Rattle.std.specs.Prelude.{◌≡◌, ◌-◌, ◌<◌, ◌^◌, [], ℕ, List, IfOk, None, Some, false, length, option_and_then, replicate, set, true};
ghost use Rattle.omf_check.specs.Tables.{entry};
ghost use Rattle.omf_check.specs.Module.{recs_of};
ghost use Rattle.omf_linking.specs.Inner.LineParsing.{target_seen};
ghost use Rattle.omf_linking.specs.Inner.Walking.{IsGiven, IsPut};
ghost use Rattle.omf_linking.specs.Locator.Sparse.{sparse_of};
ghost use Rattle.omf_records.specs.Values.{Rec};

use crate::locator::entry::Target;
use omf_check::{Checked, entry_of};
use omf_placement::{Frame, Placed};
use std::alloc::{AllocError, Global};
use std::marker::Model;

/// What a text gives the entries of a module's tables, in index order.
#[derive(Drop)]
pub struct Sparse {
    segments: Vec<Option<Placed>>,
    /// The addresses at which the segments are stored.
    stored: Vec<Option<u32>>,
    groups: Vec<Option<Option<Frame>>>,
    externals: Vec<Option<Placed>>,
}

impl Model for Sparse {
    ghost use Rattle.std.specs.Prelude.{◌≡◌, ◌<◌, ◌^◌, length};
    ghost use Rattle.omf_linking.specs.Locator.Sparse.{Sparse as Seen};

    ghost Value = { Seen };

    ghost view = { λ s. record { segments = s.segments.items; stored = s.stored.items; groups = s.groups.items; externals = s.externals.items } };

    ghost invariant = { λ s. (length s.segments.items < 2 ^ 16) × (length s.stored.items ≡ length s.segments.items) × (length s.groups.items < 2 ^ 16) × (length s.externals.items < 2 ^ 16) };
}

/// Returns a table of `count` places that are not given.
fn no_places(alloc: Global, count: u16) -> Result<Vec<Option<Placed>>, AllocError>
    ensures none { IfOk result (λ v. v.items ≡ replicate count None) }
    ensures short { IfOk result (λ v. length v.items < 2 ^ 16) }
{
    let mut places = Vec::new(alloc);
    for _index in 0..count {
        places.push(None)?;
    }
    Ok(places)
}

/// Returns a table of `count` addresses that are not given.
fn no_addresses(alloc: Global, count: u16) -> Result<Vec<Option<u32>>, AllocError>
    ensures { IfOk result (λ v. v.items ≡ replicate count None) }
{
    let mut addresses = Vec::new(alloc);
    for _index in 0..count {
        addresses.push(None)?;
    }
    Ok(addresses)
}

/// Returns a table of `count` frames that are not given.
fn no_frames(alloc: Global, count: u16) -> Result<Vec<Option<Option<Frame>>>, AllocError>
    ensures none { IfOk result (λ v. v.items ≡ replicate count None) }
    ensures short { IfOk result (λ v. length v.items < 2 ^ 16) }
{
    let mut frames = Vec::new(alloc);
    for _index in 0..count {
        frames.push(None)?;
    }
    Ok(frames)
}

/// Sets the place with an index, from 1. Returns whether there was none.
fn put_place(places: &mut Vec<Option<Placed>>, index: u32, place: Placed) -> bool
    ensures { IsPut index place places.old.items places.new.items result }
{
    let index = index as usize;
    if index == 0 || index > places.len() || places[index - 1].is_some() {
        return false;
    }
    places[index - 1] = Some(place);
    true
}

/// Sets the place with an index, from 1, and the address at which it is stored. Returns whether there was none.
fn put_stored(
    places: &mut Vec<Option<Placed>>,
    stored: &mut Vec<Option<u32>>,
    index: u32,
    place: Placed,
    address: u32,
) -> bool
    requires { length stored.old.items ≡ length places.old.items }
    ensures place { IsPut index place places.old.items places.new.items result }
    ensures stored { result ≡ true → stored.new.items ≡ set stored.old.items (index - 1) (Some address) }
    ensures same { result ≡ false → stored.new.items ≡ stored.old.items }
{
    let index = index as usize;
    if index == 0 || index > places.len() || places[index - 1].is_some() {
        return false;
    }
    places[index - 1] = Some(place);
    stored[index - 1] = Some(address);
    true
}

/// Sets the frame with an index, from 1. Returns whether there was none.
fn put_frame(frames: &mut Vec<Option<Option<Frame>>>, index: u32, frame: Option<Frame>) -> bool
    ensures { IsPut index frame frames.old.items frames.new.items result }
{
    let index = index as usize;
    if index == 0 || index > frames.len() || frames[index - 1].is_some() {
        return false;
    }
    frames[index - 1] = Some(frame);
    true
}

impl Sparse {
    /// Returns the tables of a module, with nothing given.
    pub(crate) fn of(alloc: Global, module: &Checked) -> Result<Sparse, AllocError>
        ensures { IfOk result (λ s. (j : ℕ) → s ≡ sparse_of [] (j, recs_of «module».now.bytes)) }
    {
        Ok(Sparse {
            segments: no_places(alloc, module.segments())?,
            stored: no_addresses(alloc, module.segments())?,
            groups: no_frames(alloc, module.groups())?,
            externals: no_places(alloc, module.externals())?,
        })
    }

    /// Returns the place of the segment with this index, from 1, if it is given one.
    pub fn segment(&self, index: u16) -> Option<Placed>
        ensures { result ≡ option_and_then (λ p. p) (entry self.now.segments index) }
    {
        entry_of(&self.segments, usize::from(index))?
    }

    /// Returns the frame of the group with this index, from 1, if it is given one: `Some(None)` is that of the lowest member.
    pub(crate) fn group(&self, index: u16) -> Option<Option<Frame>>
        ensures { result ≡ option_and_then (λ f. f) (entry self.now.groups index) }
    {
        entry_of(&self.groups, usize::from(index))?
    }

    /// Returns the place of the external with this index, from 1, if it is given one.
    pub fn external(&self, index: u16) -> Option<Placed>
        ensures { result ≡ option_and_then (λ p. p) (entry self.now.externals index) }
    {
        entry_of(&self.externals, usize::from(index))?
    }

    /// Returns the places of the segments.
    pub fn segments(&self) -> &[Option<Placed>]
        ensures all { result.now ≡ self.now.segments }
        ensures short { length result.now < 2 ^ 16 }
    {
        &self.segments
    }

    /// Returns the addresses at which the segments are stored, where a text gives one.
    pub fn stored(&self) -> &[Option<u32>]
        ensures { result.now ≡ self.now.stored }
    {
        &self.stored
    }

    /// Returns the frames of the groups: `Some(None)` is that of the lowest member.
    pub fn groups(&self) -> &[Option<Option<Frame>>]
        ensures all { result.now ≡ self.now.groups }
        ensures short { length result.now < 2 ^ 16 }
    {
        &self.groups
    }

    /// Returns the places of the externals.
    pub fn externals(&self) -> &[Option<Placed>]
        ensures all { result.now ≡ self.now.externals }
        ensures short { length result.now < 2 ^ 16 }
    {
        &self.externals
    }

    /// Gives the entry of a module with this index its place or its frame. Returns whether it had none.
    pub(crate) fn give(&mut self, index: u32, target: Target) -> bool
        ensures { (m : ℕ × List Rec) → IsGiven m index (target_seen target) self.old self.new result }
    {
        match target {
            Target::Segment(place) => put_place(&mut self.segments, index, place),
            Target::Stored { place, address } => {
                put_stored(&mut self.segments, &mut self.stored, index, place, address)
            }
            Target::Group(frame) => put_frame(&mut self.groups, index, frame),
            Target::External(place) => put_place(&mut self.externals, index, place),
        }
    }
}
