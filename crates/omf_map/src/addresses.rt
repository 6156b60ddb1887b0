//! The addresses of the segments and the externals of a module, as a map shows them.

ghost use Rattle.std.specs.Prelude.{◌≡◌, IfOk, map};
ghost use Rattle.omf_map.specs.Addresses.{address_at, addresses_of, given_address, place_address};

use omf_check::entry_of;
use omf_placement::{Placed, Placement};
use std::alloc::{AllocError, Global};
use std::marker::Model;

/// The addresses of a module's segments and externals, in index order; none for an entry without one.
#[derive(Drop)]
pub struct Addresses {
    segments: Vec<Option<u32>>,
    /// Where segments are stored, if that is elsewhere.
    stored: Vec<Option<u32>>,
    externals: Vec<Option<u64>>,
}

impl Model for Addresses {
    ghost use Rattle.omf_map.specs.Addresses.{Addresses as Seen};

    ghost Value = { Seen };

    ghost view = { λ a. record { segments = a.segments.items; stored = a.stored.items; externals = a.externals.items } };
}

/// The address of a place, if there is one.
fn address_of(place: Option<Placed>) -> Option<u32>
    ensures { result ≡ given_address place }
{
    match place {
        Some(place) => Some(place.address),
        None => None,
    }
}

/// The addresses of places, of which some may be missing.
pub(crate) fn given_addresses(
    alloc: Global,
    places: &[Option<Placed>],
) -> Result<Vec<Option<u32>>, AllocError>
    ensures { IfOk result (λ v. v.items ≡ map given_address places.now) }
{
    let mut addresses = Vec::new(alloc);
    for place in places {
        addresses.push(address_of(*place))?;
    }
    Ok(addresses)
}

/// The addresses of the segments of a placement.
fn segments_of(alloc: Global, placement: &Placement) -> Result<Vec<Option<u32>>, AllocError>
    ensures { IfOk result (λ v. v.items ≡ map place_address placement.now.segments) }
{
    let mut addresses = Vec::new(alloc);
    for place in placement.segments() {
        addresses.push(Some(place.address))?;
    }
    Ok(addresses)
}

/// The addresses of the externals of a placement.
fn externals_of(alloc: Global, placement: &Placement) -> Result<Vec<Option<u64>>, AllocError>
    ensures { IfOk result (λ v. v.items ≡ map place_address placement.now.externals) }
{
    let mut addresses = Vec::new(alloc);
    for before in 0..placement.external_count() {
        let Some(place) = placement.external(before + 1) else {
            unreachable!()
        };
        addresses.push(Some(u64::from(place.address)))?;
    }
    Ok(addresses)
}

/// The address of the segment with an index, from 1, if it has one.
fn segment_at(addresses: &[Option<u32>], index: u16) -> Option<u64>
    ensures { result ≡ address_at addresses.now index }
{
    match entry_of(addresses, usize::from(index)) {
        Some(Some(address)) => Some(u64::from(address)),
        Some(None) => None,
        None => None,
    }
}

/// The address of the entry with an index, from 1, if it has one.
pub(crate) fn known_at(addresses: &[Option<u64>], index: u16) -> Option<u64>
    ensures { result ≡ address_at addresses.now index }
{
    entry_of(addresses, usize::from(index))?
}

impl Addresses {
    /// These addresses.
    pub(crate) fn new(
        segments: Vec<Option<u32>>,
        stored: Vec<Option<u32>>,
        externals: Vec<Option<u64>>,
    ) -> Addresses
        ensures { result ≡ record { segments = segments.items; stored = stored.items; externals = externals.items } }
    {
        Addresses {
            segments,
            stored,
            externals,
        }
    }

    /// The addresses of a module at its placement.
    ///
    /// # Errors
    ///
    /// `AllocError` if memory runs out.
    pub(crate) fn of(alloc: Global, placement: &Placement) -> Result<Addresses, AllocError>
        ensures { IfOk result (λ a. a ≡ addresses_of placement.now) }
    {
        Ok(Addresses {
            segments: segments_of(alloc, placement)?,
            stored: Vec::new(alloc),
            externals: externals_of(alloc, placement)?,
        })
    }

    /// The addresses of the segments.
    pub(crate) fn segments(&self) -> &[Option<u32>]
        ensures { result.now ≡ self.now.segments }
    {
        &self.segments
    }

    /// The address of the segment with an index, from 1, if it has one.
    pub(crate) fn segment(&self, index: u16) -> Option<u64>
        ensures { result ≡ address_at self.now.segments index }
    {
        segment_at(&self.segments, index)
    }

    /// The address at which the segment with an index, from 1, is stored, if that is not its own.
    pub(crate) fn stored(&self, index: u16) -> Option<u64>
        ensures { result ≡ address_at self.now.stored index }
    {
        segment_at(&self.stored, index)
    }

    /// The address of the external with an index, from 1, if it has one.
    pub(crate) fn external(&self, index: u16) -> Option<u64>
        ensures { result ≡ address_at self.now.externals index }
    {
        known_at(&self.externals, index)
    }
}
