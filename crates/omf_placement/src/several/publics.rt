//! The publics of several modules, by name.

ghost use Rattle.std.specs.Prelude.{◌≡◌, ◌+◌, [], ◌∷◌, length, OnOk, IfOk, List, flat_map, filter_map, option_to_list, true, false};
ghost use Rattle.omf_check.specs.Module.{recs_of};
ghost use Rattle.omf_placement.specs.Derive.{PlacedPublic, paragraph, base_of, public_at, publics_at, record_publics, publics, all_publics, placed_modules};
ghost use Rattle.omf_placement.specs.Inner.Derived.{of_name, one_public};
ghost use Rattle.omf_placement.specs.Inner.PublicTable.{IsTable, HasMore, based, found_after, summed};
ghost use Rattle.omf_placement.specs.declared.frame.Placed.{Placed as Place};

use crate::frame::{Frame, Placed};
use crate::placement::Placement;
use crate::several::fault::DeriveFault;
use omf_check::{Checked, Undecoded};
use omf_frame::Index;
use omf_names::NameKey;
use omf_records::{Items, Public};
use std::alloc::{AllocError, Global};
use std::collections::BTreeMap;

/// The publics with one name.
#[derive(Clone, Copy, Drop)]
pub enum Found {
    /// A single public. Its address may be 2^32 or more.
    One {
        /// Its address.
        address: u64,
        /// Its frame.
        frame: Frame,
    },
    /// More than one.
    Several,
}

/// The place at the start of the frame with this number.
pub(crate) fn paragraph(number: u16) -> Placed
    ensures { result ≡ paragraph number }
{
    let base = 16 * u32::from(number);
    let frame = Frame {
        base,
        selector: number,
    };
    Placed {
        address: base,
        frame,
    }
}

/// The base of a PUBDEF with these indices of its group and its segment, and, if the segment is 0, this number of its base frame. `None` if
/// the placement has no entry for one of them.
pub fn base_of(
    placement: &Placement,
    group: Index,
    segment: Index,
    number: Option<u16>,
) -> Option<Placed>
    ensures { result ≡ base_of placement.now group segment number }
{
    let start = if segment.0 == 0 {
        number.map(paragraph)?
    } else {
        placement.segment(usize::from(segment.0))?
    };
    if group.0 == 0 {
        return Some(start);
    }
    let frame = placement.group(usize::from(group.0))?;
    Some(Placed {
        address: start.address,
        frame,
    })
}

/// The publics of a record, with their base: of an LPUBDEF if `local` is set, of a PUBDEF if not. `None` for any other record, which is
/// not decoded, and if the placement has no entry for the base.
pub fn publics_of<'a>(
    local: bool,
    rec: &Undecoded<'a>,
    placement: &Placement,
) -> Option<(Placed, Items<Public<'a>>)>
    ensures { based result ≡ record_publics local placement.now rec.now.kind rec.now.contents }
{
    let publics = rec.as_publics(local)?;
    let base = base_of(
        placement,
        publics.group.item,
        publics.segment.item,
        publics.frame,
    )?;
    Some((base, publics.items))
}

/// Publics by name.
#[derive(Drop)]
pub struct PublicTable<'a> {
    by_name: BTreeMap<NameKey<'a>, Found>,
}

/// The publics with one name after one more is added.
pub(crate) fn with_one_more(found: Option<Found>, address: u64, frame: Frame) -> Found
    ensures { result ≡ found_after (record { address = address; frame = frame }) found }
{
    match found {
        None => Found::One { address, frame },
        Some(_) => Found::Several,
    }
}

impl<'a> PublicTable<'a> {
    /// Adds a public.
    fn add(&mut self, name: &'a [u8], address: u64, frame: Frame) -> Result<(), AllocError>
        ensures { OnOk result (HasMore self.old.by_name self.new.by_name (public_at name.entry.now address frame ∷ [])) }
    {
        let one = Found::One { address, frame };
        if self.by_name.insert(NameKey::of(name), one)?.is_some() {
            self.by_name.insert(NameKey::of(name), Found::Several)?;
        }
        Ok(())
    }

    /// Adds a public of a PUBDEF or an LPUBDEF with this base.
    fn add_public(&mut self, public: &Public<'a>, base: Placed) -> Result<(), AllocError>
        ensures { OnOk result (HasMore self.old.by_name self.new.by_name (public_at public.now.name (base.address + public.now.offset) base.frame ∷ [])) }
    {
        let address = u64::from(base.address) + u64::from(public.offset);
        self.add(public.name.0, address, base.frame)
    }

    /// Adds the publics of a PUBDEF or an LPUBDEF with this base.
    fn add_items(&mut self, items: Items<Public<'a>>, base: Placed) -> Result<(), AllocError>
        ensures { OnOk result (HasMore self.old.by_name self.new.by_name (publics_at base items.entry)) }
    {
        for public in items {
            self.add_public(&public.item, base)?;
        }
        Ok(())
    }

    /// Adds the publics of a record if they are local, or if they are not.
    fn add_record(
        &mut self,
        local: bool,
        rec: &Undecoded<'a>,
        placement: &Placement,
    ) -> Result<(), AllocError>
        ensures { OnOk result (HasMore self.old.by_name self.new.by_name (record_publics local placement.now rec.now.kind rec.now.contents)) }
    {
        match publics_of(local, rec, placement) {
            Some((base, items)) => self.add_items(items, base),
            None => Ok(()),
        }
    }

    /// Adds the local publics of a module, or its other publics.
    fn add_module(
        &mut self,
        local: bool,
        module: &'a Checked,
        placement: &Placement,
    ) -> Result<(), AllocError>
        ensures { OnOk result (HasMore self.old.by_name self.new.by_name (publics local (recs_of «module».entry.now.bytes, placement.now))) }
    {
        for (_, rec) in module.undecoded() {
            self.add_record(local, &rec, placement)?;
        }
        Ok(())
    }

    /// The local publics of a module with this placement.
    pub(crate) fn of_locals(
        alloc: Global,
        module: &'a Checked,
        placement: &Placement,
    ) -> Result<PublicTable<'a>, AllocError>
        ensures { IfOk result (λ t. IsTable t.by_name (publics true (recs_of «module».entry.now.bytes, placement.now))) }
    {
        let mut table = PublicTable {
            by_name: BTreeMap::new(alloc),
        };
        table.add_module(true, module, placement)?;
        Ok(table)
    }

    /// The publics of all modules that are not local, each module with its placement.
    pub(crate) fn of(
        alloc: Global,
        modules: &'a [Checked],
        placements: &[Placement],
    ) -> Result<PublicTable<'a>, AllocError>
        requires { length placements.now ≡ length modules.now }
        ensures { IfOk result (λ t. IsTable t.by_name (all_publics (placed_modules modules.entry.now placements.now))) }
    {
        let mut table = PublicTable {
            by_name: BTreeMap::new(alloc),
        };
        for (j, module) in modules.iter().enumerate() {
            table.add_module(false, module, &placements[j])?;
        }
        Ok(table)
    }

    /// The place of an external with this name: that of the only public with its name.
    pub(crate) fn place_of(
        &self,
        name: &'a [u8],
        module: u32,
        external: u16,
    ) -> Result<Placed, DeriveFault>
        ensures { (among : List PlacedPublic) → IsTable self.now.by_name among → result ≡ one_public «module» external (filter_map (of_name name.now) among) }
    {
        place_found(
            self.by_name.get(&NameKey::of(name)).copied(),
            module,
            external,
        )
    }
}

/// The place of the only public of a name, or the fault of an external with that name.
pub(crate) fn place_found(
    found: Option<Found>,
    module: u32,
    external: u16,
) -> Result<Placed, DeriveFault>
    ensures { (ps : List Place) → found ≡ summed ps → result ≡ one_public «module» external ps }
{
    match found {
        None => Err(DeriveFault::Undefined { module, external }),
        Some(Found::Several) => Err(DeriveFault::Twice { module, external }),
        Some(Found::One { address, frame }) if address < 1 << 32 => Ok(Placed {
            address: address as u32,
            frame,
        }),
        Some(Found::One { .. }) => Err(DeriveFault::TooHigh { module, external }),
    }
}
