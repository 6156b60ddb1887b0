//! Segments and groups of all modules: those of a class or a name, and what a line gives each of them.

ghost use Rattle.std.specs.Prelude.{◌≡◌, ◌∷◌, [], ◌++◌, ◌≤◌, ◌<◌, ◌^◌, IfErr, IfOk, IfSome, OnOk, length, map, option_map, if◌then◌else◌};
ghost use Rattle.std.specs.List.{filter};
ghost use Rattle.omf_check.specs.Module.{recs_of, typed_modules};
ghost use Rattle.omf_layout.specs.Layout.{IsAnswer};
ghost use Rattle.omf_layout.specs.Several.Laying.{laid as laid_out};
ghost use Rattle.omf_layout.specs.Several.Portions.{with_names};
ghost use Rattle.omf_linking.specs.Inner.LineParsing.{parts_seen, target_seen};
ghost use Rattle.omf_linking.specs.Inner.Parting.{IsLow, IsLowSite, frame_gifts_in, gift_seen, is_framed_in, is_left_in, is_placed_in, parts_laid};
ghost use Rattle.omf_linking.specs.Locator.Parts.{address_by, all_some, frames_of, gift_of, gifts_of, groups_in, groups_named, is_spelled, names_part, parts_named, place_by, site_of, stored_by, stored_end, stored_from, target_by};
ghost use Rattle.omf_linking.specs.Locator.Keys.{is_written};
ghost use Rattle.omf_linking.specs.declared.locator.fault.LocatorFault.TheVariants.{Memory};

use crate::locator::entry::{Parts, Target};
use crate::locator::fault::{LineFault, LocatorFault};
use crate::locator::keys::{entry_count, entry_name, spelled};
use crate::locator::span::{End, Site, Span, Where};
use crate::locator::sparse::Sparse;
use omf_check::Checked;
use omf_frame::Name;
use omf_layout::several::{Classed, Lying, Portion, lay_portions, portions_of};
use omf_layout::{Frames, LayoutFault};
use omf_placement::{Frame, Placed};
use omf_reloc::Kind;
use std::alloc::{AllocError, Global};

/// The number of addresses: an end is no higher.
const ADDRESSES: u64 = 1 << 32;

/// What an entry of a module is given.
#[derive(Clone, Copy)]
pub struct Gift {
    /// The module, from 0.
    pub module: u32,
    /// The entry's index, from 1.
    pub index: u16,
    /// What it is given.
    pub target: Target,
}

/// What a line gives the segments that it lays.
#[derive(Drop)]
pub struct LaidParts {
    /// What each of them is given, in the order in which they are laid.
    pub gifts: Vec<Gift>,
    /// The end of them.
    pub end: End,
}

/// Returns whether a name is written like this in quotes.
fn is_spelled(alloc: Global, text: &[u8], name: &[u8]) -> Result<bool, AllocError>
    ensures { IfOk result (λ b. b ≡ is_spelled text.now name.now) }
{
    let spelled = spelled(alloc, name)?;
    Ok(text == spelled.as_slice())
}

/// Returns whether a line is for segments of this class and this name.
fn names_part(
    alloc: Global,
    parts: Parts<'_>,
    class: &[u8],
    name: &[u8],
) -> Result<bool, AllocError>
    ensures { IfOk result (λ b. b ≡ names_part (parts_seen parts.entry) class.now name.now) }
{
    match parts {
        Parts::OfClass(text) => is_spelled(alloc, text, class),
        Parts::OfName(text) => is_spelled(alloc, text, name),
        Parts::OfBoth(first, second) => {
            let named = is_spelled(alloc, first, name)?;
            let classed = is_spelled(alloc, second, class)?;
            Ok(named && classed)
        }
    }
}

/// Returns those of these segments for which a line is.
fn parts_in<'a>(
    alloc: Global,
    parts: Parts<'_>,
    portions: &[Classed<'a>],
) -> Result<Vec<Classed<'a>>, AllocError>
    ensures { IfOk result (λ v. map with_names v.items ≡ filter (λ x. names_part (parts_seen parts.entry) x.0 x.1.0) (map with_names portions.now)) }
{
    let mut named = Vec::new(alloc);
    for portion in portions {
        let (class, (name, _)) = *portion;
        if names_part(alloc, parts, class, name)? {
            named.push(*portion)?;
        }
    }
    Ok(named)
}

/// Returns the segments of all modules for which a line is, module by module.
pub fn parts_named<'a>(
    alloc: Global,
    modules: &'a [Checked],
    parts: Parts<'_>,
) -> Result<Vec<Classed<'a>>, AllocError>
    requires { length modules.now < 2 ^ 32 }
    ensures { IfOk result (λ v. map with_names v.items ≡ parts_named (parts_seen parts.entry) (typed_modules modules.entry.now)) }
{
    let portions = portions_of(alloc, modules)?;
    parts_in(alloc, parts, &portions)
}

/// Returns whether the tables of modules have a place for a segment.
fn is_placed(given: &[Sparse], module: u32, index: u16) -> bool
    ensures { result ≡ is_placed_in given.now «module» index }
{
    match given.get(module as usize) {
        Some(sparse) => sparse.segment(index).is_some(),
        None => false,
    }
}

/// Returns whether they have a frame for a group.
fn is_framed(given: &[Sparse], module: u32, index: u16) -> bool
    ensures { result ≡ is_framed_in given.now «module» index }
{
    match given.get(module as usize) {
        Some(sparse) => sparse.group(index).is_some(),
        None => false,
    }
}

/// Returns whether a segment is not absolute and they have no place for it.
fn is_left(given: &[Sparse], portion: &Portion) -> bool
    ensures { result ≡ is_left_in given.now portion.now }
{
    portion.segment.absolute.is_none() && !is_placed(given, portion.module, portion.index)
}

/// Returns the segments that are not absolute and for which the tables of modules have no place.
pub fn parts_left<'a>(
    alloc: Global,
    given: &[Sparse],
    named: &[Classed<'a>],
) -> Result<Vec<Classed<'a>>, AllocError>
    ensures { IfOk result (λ v. map with_names v.items ≡ filter (λ x. is_left_in given.now x.1.1) (map with_names named.now)) }
{
    let mut left = Vec::new(alloc);
    for one in named {
        let (_, (_, portion)) = *one;
        if is_left(given, &portion) {
            left.push(*one)?;
        }
    }
    Ok(left)
}

/// Returns an address of a line: one after others is at most 2^32, as these are.
fn address_by(end: Option<u64>, place: Where) -> Result<u64, LineFault>
    ensures value { IfSome end (λ e. e ≤ 2 ^ 32) → result ≡ address_by end place }
    ensures low { IfOk result (λ a. a ≤ 2 ^ 32) }
{
    match place {
        Where::From(address) => Ok(u64::from(address)),
        Where::After => match end {
            Some(end) => Ok(end.min(ADDRESSES)),
            None => Err(LineFault::NothingBefore),
        },
    }
}

/// Returns from where on segments are stored, if that is not where they run.
fn stored_by(end: Option<u64>, place: Option<Where>) -> Result<Option<u64>, LineFault>
    ensures value { IfSome end (λ e. e ≤ 2 ^ 32) → result ≡ stored_by end place }
    ensures low { IfOk result (λ o. IfSome o (λ a. a ≤ 2 ^ 32)) }
{
    let Some(place) = place else {
        return Ok(None);
    };
    match address_by(end, place) {
        Ok(address) => Ok(Some(address)),
        Err(why) => Err(why),
    }
}

/// Returns where a line lays segments, after what has this end.
pub fn site_of(end: Option<End>, span: Span) -> Result<Site, LineFault>
    ensures value { IfSome end IsLow → result ≡ site_of end span }
    ensures low { IfOk result IsLowSite }
{
    let (run, stored) = match end {
        Some(end) => (Some(end.run), Some(end.stored)),
        None => (None, None),
    };
    let start = match address_by(run, span.start) {
        Ok(start) => start,
        Err(why) => return Err(why),
    };
    let stored = match stored_by(stored, span.stored) {
        Ok(stored) => stored,
        Err(why) => return Err(why),
    };
    Ok(Site {
        start,
        frame: span.frame,
        stored,
    })
}

/// Returns the frames by which a line lays segments.
fn frames_of(frame: Option<Frame>) -> Frames
    ensures { result ≡ frames_of frame }
{
    match frame {
        None => Frames::Real,
        Some(frame) => Frames::Flat {
            selector: frame.selector,
        },
    }
}

/// Returns the place of a segment: in the frame of its line, if that names one.
fn place_by(frame: Option<Frame>, place: Placed) -> Placed
    ensures { result ≡ place_by frame place }
{
    match frame {
        None => place,
        Some(frame) => Placed {
            address: place.address,
            frame,
        },
    }
}

/// Returns where what runs at an address is stored.
fn stored_from(start: u64, stored: u64, address: u64) -> u64
    requires stored { stored ≤ 2 ^ 32 }
    requires address { address ≤ 2 ^ 32 }
    ensures { result ≡ stored_from start stored address }
{
    stored + address.saturating_sub(start)
}

/// Returns what a segment is given that is laid at this place, if it is stored below 2^32.
fn target_by(site: Site, place: Placed) -> Option<Target>
    requires { IsLowSite site }
    ensures { option_map target_seen result ≡ target_by site.start site.stored place }
{
    let Some(stored) = site.stored else {
        return Some(Target::Segment(place));
    };
    let address = stored_from(site.start, stored, u64::from(place.address));
    if address < ADDRESSES {
        let address = address as u32;
        Some(Target::Stored { place, address })
    } else {
        None
    }
}

/// Returns the end of where segments are stored, if that is at most 2^32.
fn stored_end(site: Site, free: u64) -> Option<u64>
    requires low { IsLowSite site }
    requires free { free ≤ 2 ^ 32 }
    ensures value { result ≡ stored_end site.start site.stored free }
    ensures low { IfSome result (λ a. a ≤ 2 ^ 32) }
{
    let Some(stored) = site.stored else {
        return Some(free);
    };
    let end = stored_from(site.start, stored, free);
    if end <= ADDRESSES { Some(end) } else { None }
}

/// Returns what a line gives a segment that it lays.
fn gift_of(site: Site, lying: Lying) -> Option<Gift>
    requires { IsLowSite site }
    ensures { option_map gift_seen result ≡ gift_of site lying }
{
    let (portion, place) = lying;
    let target = target_by(site, place_by(site.frame, place))?;
    Some(Gift {
        module: portion.module,
        index: portion.index,
        target,
    })
}

/// Returns what a line gives each segment that it lays.
fn gifts_in(alloc: Global, site: Site, lying: &[Lying]) -> Result<Option<Vec<Gift>>, AllocError>
    requires { IsLowSite site }
    ensures { IfOk result (λ o. option_map (λ v. map gift_seen v.items) o ≡ all_some (map (gift_of site) lying.now)) }
{
    let mut gifts = Vec::new(alloc);
    for one in lying {
        let Some(gift) = gift_of(site, *one) else {
            return Ok(None);
        };
        gifts.push(gift)?;
    }
    Ok(Some(gifts))
}

/// Returns what a line gives these segments, and the end of them. `None` if they do not fit.
///
/// # Errors
///
/// `Memory` if memory runs out.
pub fn gifts_of<'a>(
    alloc: Global,
    site: Site,
    left: Vec<Classed<'a>>,
) -> Result<Option<LaidParts>, LocatorFault>
    requires { IsLowSite site }
    ensures value { IfOk result (λ o. option_map parts_laid o ≡ gifts_of site (map with_names left.entry.items)) }
    ensures low { IfOk result (λ o. IfSome o (λ l. IsLow l.end)) }
    ensures memory { IfErr result (λ f. f ≡ Memory) }
{
    let (lying, free) = match lay_portions(alloc, frames_of(site.frame), site.start, left) {
        Ok(laid) => laid,
        Err(LayoutFault::NoRoom) => return Ok(None),
        Err(LayoutFault::Memory) => return Err(LocatorFault::Memory),
    };
    let Some(gifts) = gifts_in(alloc, site, &lying)? else {
        return Ok(None);
    };
    let Some(stored) = stored_end(site, free) else {
        return Ok(None);
    };
    let run = free;
    let end = End { run, stored };
    Ok(Some(LaidParts { gifts, end }))
}

/// Returns whether a name is there, and written like this in quotes.
fn is_written(alloc: Global, text: &[u8], name: Option<Name<'_>>) -> Result<bool, AllocError>
    ensures { IfOk result (λ b. b ≡ is_written text.now name.entry) }
{
    match name {
        Some(name) => is_spelled(alloc, text, name.0),
        None => Ok(false),
    }
}

/// A group of one of several modules: the module, from 0, and the group's index, from 1.
pub type GroupOf = (u32, u16);

/// Adds a group, if it is one of them.
fn add_if(groups: &mut Vec<GroupOf>, group: GroupOf, is_one: bool) -> Result<(), AllocError>
    ensures { OnOk result (groups.new.items ≡ groups.old.items ++ (if is_one then group ∷ [] else [])) }
{
    if is_one {
        groups.push(group)?;
    }
    Ok(())
}

/// Adds the groups of a module that have a name.
fn add_groups(
    alloc: Global,
    groups: &mut Vec<GroupOf>,
    module: &Checked,
    number: u32,
    name: &[u8],
) -> Result<(), AllocError>
    ensures { OnOk result (groups.new.items ≡ groups.old.items ++ groups_in name.now (number, recs_of «module».now.bytes)) }
{
    for before in 0..entry_count(module, Kind::Group) {
        let index = before + 1;
        let named = is_written(alloc, name, entry_name(module, Kind::Group, index))?;
        add_if(groups, (number, index), named)?;
    }
    Ok(())
}

/// Returns the groups of all modules that have a name.
pub fn groups_named(
    alloc: Global,
    modules: &[Checked],
    name: &[u8],
) -> Result<Vec<GroupOf>, AllocError>
    requires { length modules.now < 2 ^ 32 }
    ensures { IfOk result (λ v. v.items ≡ groups_named name.now (typed_modules modules.now)) }
{
    let mut groups = Vec::new(alloc);
    for (number, module) in modules.iter().enumerate() {
        add_groups(alloc, &mut groups, module, number as u32, name)?;
    }
    Ok(groups)
}

/// Returns what gives each of these groups a frame for which the tables of modules have none.
pub fn frame_gifts(
    alloc: Global,
    given: &[Sparse],
    groups: &[GroupOf],
    frame: Frame,
) -> Result<Vec<Gift>, AllocError>
    ensures { IfOk result (λ v. map gift_seen v.items ≡ frame_gifts_in given.now frame groups.now) }
{
    let mut gifts = Vec::new(alloc);
    for one in groups {
        let (module, index) = *one;
        if !is_framed(given, module, index) {
            let target = Target::Group(Some(frame));
            gifts.push(Gift {
                module,
                index,
                target,
            })?;
        }
    }
    Ok(gifts)
}
