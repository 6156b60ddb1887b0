//! The publics of several modules, by name, before they have places.

ghost use Rattle.std.specs.Prelude.{◌≡◌, [], ◌∷◌, All, OnOk, IfOk, List, filter_map, length, true};
ghost use Rattle.omf_image.specs.Limits.{profile_limits};
ghost use Rattle.omf_check.specs.Module.{recs_of, typed_modules};
ghost use Rattle.omf_check.specs.Sound.{ModuleHolds};
ghost use Rattle.omf_placement.specs.Inner.Linkage.{HasMoreSources, IsSourceTable, NamedSource, all_sources, base_place, definer, found_by, of_source, record_sources, source_at, sourced, sources, sources_at};

use crate::frame::Placed;
use crate::placement::Placement;
use crate::several::publics::{Found, base_of, paragraph};
use omf_check::{Checked, Undecoded};
use omf_frame::Index;
use omf_names::NameKey;
use omf_records::{Items, Public};
use std::alloc::{AllocError, Global};
use std::collections::BTreeMap;

/// What the publics of a record are relative to: the number of their module, from 0, and the indices and the frame number of the record.
#[derive(Clone, Copy)]
pub struct Base {
    /// The number of the module.
    pub module: usize,
    /// The index of the group; 0 for none.
    pub group: Index,
    /// The index of the segment; 0 for none.
    pub segment: Index,
    /// The number of the base frame, without a segment.
    pub frame: Option<u16>,
}

/// Where a public is.
#[derive(Clone, Copy)]
pub struct Source {
    /// What its offset is relative to.
    pub base: Base,
    /// Its offset.
    pub offset: u32,
}

/// The publics with one name.
#[derive(Clone, Copy)]
pub enum Definer {
    /// A single public.
    Only(Source),
    /// More than one.
    Several,
}

/// The publics of a record, with their base: of an LPUBDEF if `local` is set, of a PUBDEF if not. `None` for any other record, which is
/// not decoded.
fn sources_of<'a>(
    local: bool,
    rec: &Undecoded<'a>,
    module: usize,
) -> Option<(Base, Items<Public<'a>>)>
    ensures { sourced result ≡ record_sources local «module» rec.now.kind rec.now.contents }
{
    let publics = rec.as_publics(local)?;
    let base = Base {
        module,
        group: publics.group.item,
        segment: publics.segment.item,
        frame: publics.frame,
    };
    Some((base, publics.items))
}

/// The place of a base, by the placements of all modules; any place, if it has none there.
fn base_place(places: &[Placement], base: Base) -> Placed
    ensures { result ≡ base_place places.now base }
{
    match places.get(base.module) {
        Some(place) => match base_of(place, base.group, base.segment, base.frame) {
            Some(placed) => placed,
            None => paragraph(0),
        },
        None => paragraph(0),
    }
}

/// The publics with one name, with the place of a single one by the placements of all modules.
pub(crate) fn found_by(places: &[Placement], definer: Option<Definer>) -> Option<Found>
    ensures { result ≡ found_by places.now definer }
{
    match definer {
        None => None,
        Some(Definer::Several) => Some(Found::Several),
        Some(Definer::Only(source)) => {
            let base = base_place(places, source.base);
            Some(Found::One {
                address: u64::from(base.address) + u64::from(source.offset),
                frame: base.frame,
            })
        }
    }
}

/// Publics by name.
#[derive(Drop)]
pub struct SourceTable<'a> {
    by_name: BTreeMap<NameKey<'a>, Definer>,
    /// Whether a name was added twice.
    repeats: bool,
}

impl<'a> SourceTable<'a> {
    /// Adds a public.
    fn add(&mut self, name: &'a [u8], source: Source) -> Result<(), AllocError>
        ensures { OnOk result (HasMoreSources self.old self.new (source_at name.entry.now source.base source.offset ∷ [])) }
    {
        if self
            .by_name
            .insert(NameKey::of(name), Definer::Only(source))?
            .is_some()
        {
            self.by_name.insert(NameKey::of(name), Definer::Several)?;
            self.repeats = true;
        }
        Ok(())
    }

    /// Adds a public with this base.
    fn add_public(&mut self, public: &Public<'a>, base: &Base) -> Result<(), AllocError>
        ensures { OnOk result (HasMoreSources self.old self.new (source_at public.now.name base.now public.now.offset ∷ [])) }
    {
        let source = Source {
            base: *base,
            offset: public.offset,
        };
        self.add(public.name.0, source)
    }

    /// Adds the publics of a record with this base.
    fn add_items(&mut self, items: Items<Public<'a>>, base: &Base) -> Result<(), AllocError>
        ensures { OnOk result (HasMoreSources self.old self.new (sources_at base.now items.entry)) }
    {
        for public in items {
            self.add_public(&public.item, base)?;
        }
        Ok(())
    }

    /// Adds the publics of a record if they are local, or if they are not.
    fn add_record(
        &mut self,
        local: bool,
        rec: &Undecoded<'a>,
        module: usize,
    ) -> Result<(), AllocError>
        ensures { OnOk result (HasMoreSources self.old self.new (record_sources local «module» rec.now.kind rec.now.contents)) }
    {
        match sources_of(local, rec, module) {
            Some((base, items)) => self.add_items(items, &base),
            None => Ok(()),
        }
    }

    /// Adds the local publics of the module with this number, or its other publics.
    fn add_module(
        &mut self,
        local: bool,
        module: &'a Checked,
        number: usize,
    ) -> Result<(), AllocError>
        ensures more { OnOk result (HasMoreSources self.old self.new (sources local number (recs_of «module».entry.now.bytes))) }
        ensures holds { OnOk result (ModuleHolds profile_limits (recs_of «module».entry.now.bytes)) }
    {
        for (_, rec) in module.undecoded() {
            self.add_record(local, &rec, number)?;
        }
        Ok(())
    }

    /// The local publics of the module with this number.
    pub(crate) fn of_locals(
        alloc: Global,
        module: &'a Checked,
        number: usize,
    ) -> Result<SourceTable<'a>, AllocError>
        ensures { IfOk result (λ t. IsSourceTable t (sources true number (recs_of «module».entry.now.bytes))) }
    {
        let mut table = SourceTable {
            by_name: BTreeMap::new(alloc),
            repeats: false,
        };
        table.add_module(true, module, number)?;
        Ok(table)
    }

    /// The publics of all modules that are not local.
    pub(crate) fn of(alloc: Global, modules: &'a [Checked]) -> Result<SourceTable<'a>, AllocError>
        ensures table { IfOk result (λ t. IsSourceTable t (all_sources (typed_modules modules.entry.now))) }
        ensures hold { OnOk result (All (ModuleHolds profile_limits) (typed_modules modules.entry.now)) }
    {
        let mut table = SourceTable {
            by_name: BTreeMap::new(alloc),
            repeats: false,
        };
        for (j, module) in modules.iter().enumerate() {
            table.add_module(false, module, j)?;
        }
        Ok(table)
    }

    /// Whether a name was added twice.
    pub(crate) fn repeats(&self) -> bool
        ensures { result ≡ self.now.repeats }
    {
        self.repeats
    }

    /// The publics with this name.
    pub(crate) fn definer(&self, name: &'a [u8]) -> Option<Definer>
        ensures { (among : List NamedSource) → IsSourceTable self.now among → result ≡ definer (filter_map (of_source name.now) among) }
    {
        self.by_name.get(&NameKey::of(name)).copied()
    }
}
