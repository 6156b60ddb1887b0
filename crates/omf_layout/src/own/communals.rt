//! The module that gives communals a place.

ghost use Rattle.std.specs.Prelude.{◌≡◌, ◌≤◌, ◌<◌, ◌+◌, ◌^◌, ◌++◌, ◌∷◌, [], None, IfOk, IfErr, OnOk, length, map, option_map};
ghost use Rattle.omf_check.specs.Module.{recs_of, typed_modules};
ghost use Rattle.omf_records.specs.Inner.Seen.{contents_seen};
ghost use Rattle.omf_records.specs.Values.{Group, GroupItem};
ghost use Rattle.omf_layout.specs.Several.Portions.{name_at};
ghost use Rattle.omf_layout.specs.Own.Communals.{AreCommunals, IsCommunalsFault, IsFirstFault, IsRunFault, are_grouped, communals, communals_records, far_publics, far_segment, faults_in, faults_of, fars, first_far, front_records, group_index, has_kind, has_near, home_group, is_dgroup, is_grouped, is_in_group, largest, name_of, near_class, near_group, near_name, near_publics, near_room, near_segment, nears, reason_of, room, runs_in, shared_by};
ghost use Rattle.omf_layout.specs.Own.Written.{framed, written};

use crate::draft::group_name;
use crate::own::claims::{Claim, ClaimKind, claims_of, have_comdefs};
use crate::own::fault::{CommunalReason, CommunalsFault};
use crate::own::homes::Home;
use crate::own::records::{
    Public, Segment, put_end, put_group, put_header, put_names, put_public, put_segment,
};
use crate::several::gathering::gather;
use crate::several::portion::name_at;
use omf_check::Checked;
use omf_frame::{Index, Name};
use omf_records::Rec;
use std::alloc::{AllocError, Global};
use std::marker::Model;

/// The most communals: a module has at most 32,767 segments, and the near communals have one.
const MOST: usize = 32_766;

/// A communal that modules share: its name, whether it is far, and its size in bytes.
#[derive(Drop)]
struct Shared<'a> {
    name: &'a [u8],
    far: bool,
    size: u32,
}

impl<'a> Model for Shared<'a> {
    ghost use Rattle.std.specs.Prelude.{◌<◌, ◌^◌, length};
    ghost use Rattle.omf_layout.specs.Own.Shared.{Shared as SharedModel};

    ghost Value = { SharedModel };

    ghost view = { λ s. record { name = s.name.now; far = s.far; size = s.size } };

    ghost invariant = { λ s. (length s.name.now < 256) × (s.size < 2 ^ 32) };
}

/// Returns whether a claim is of this kind.
fn has_kind(run: &[Claim<'_>], kind: ClaimKind) -> bool
    ensures { result ≡ has_kind kind run.now }
{
    let mut found = false;
    for claim in run {
        found = found || kind == claim.kind;
    }
    found
}

/// Returns the size of the largest.
fn largest(run: &[Claim<'_>]) -> u64
    ensures { result ≡ largest run.now }
{
    let mut largest = 0;
    for claim in run {
        largest = largest.max(claim.size);
    }
    largest
}

/// Returns what is wrong with the communal of these claims.
fn reason_of(run: &[Claim<'_>]) -> Option<CommunalReason>
    ensures { result ≡ reason_of run.now }
{
    if has_kind(run, ClaimKind::Near) && has_kind(run, ClaimKind::Far) {
        return Some(CommunalReason::Mixed);
    }
    if largest(run) >= 1 << 32 {
        return Some(CommunalReason::TooLong);
    }
    None
}

/// Returns the name of these claims.
fn name_of<'a>(run: &[Claim<'a>]) -> &'a [u8]
    ensures name { result.now ≡ name_of run.now }
    ensures short { length result.now < 256 }
{
    match run {
        [] => &[],
        [first, ..] => first.name,
    }
}

/// Adds the communal of these claims.
fn add_shared<'a>(
    communals: &mut Vec<Shared<'a>>,
    run: &[Claim<'a>],
) -> Result<(), CommunalsFault<'a>>
    ensures added { OnOk result (communals.new.items ≡ communals.old.items ++ shared_by run.now ∷ []) }
    ensures sound { OnOk result (reason_of run.now ≡ None) }
    ensures fault { IfErr result (IsRunFault run.now) }
{
    let name = name_of(run);
    if let Some(reason) = reason_of(run) {
        return Err(CommunalsFault::Communal { name, reason });
    }
    let far = has_kind(run, ClaimKind::Far);
    let size = largest(run) as u32;
    match communals.push(Shared { name, far, size }) {
        Ok(()) => Ok(()),
        Err(_) => Err(CommunalsFault::Memory),
    }
}

/// Returns the communals of claims by name: those without a public.
fn shared_in<'a>(
    alloc: Global,
    runs: &[Vec<Claim<'a>>],
) -> Result<Vec<Shared<'a>>, CommunalsFault<'a>>
    ensures all { IfOk result (λ v. v.items ≡ map shared_by (runs_in (map (λ r. r.items) runs.now))) }
    ensures sound { IfOk result (λ v. faults_in (runs_in (map (λ r. r.items) runs.now)) ≡ []) }
    ensures fault { IfErr result (IsFirstFault (runs_in (map (λ r. r.items) runs.now))) }
{
    let mut communals = Vec::new(alloc);
    for run in runs {
        if has_kind(run, ClaimKind::Public) {
            continue;
        }
        if let Err(fault) = add_shared(&mut communals, run) {
            return Err(fault);
        }
    }
    Ok(communals)
}

/// Returns the communals of modules.
fn communals_in<'a>(
    alloc: Global,
    modules: &'a [Checked],
) -> Result<Vec<Shared<'a>>, CommunalsFault<'a>>
    ensures all { IfOk result (λ v. v.items ≡ communals (typed_modules modules.entry.now)) }
    ensures sound { IfOk result (λ v. faults_of (typed_modules modules.entry.now) ≡ []) }
    ensures fault { IfErr result (IsCommunalsFault (typed_modules modules.entry.now)) }
{
    if !have_comdefs(modules) {
        return Ok(Vec::new(alloc));
    }
    let Ok(claims) = claims_of(alloc, modules) else {
        return Err(CommunalsFault::Memory);
    };
    let Ok(runs) = gather(alloc, claims) else {
        return Err(CommunalsFault::Memory);
    };
    shared_in(alloc, &runs)
}

/// Returns the room of a near communal: its size, rounded up to an even number.
fn room(communal: &Shared<'_>) -> u64
    ensures room { result ≡ room communal.now }
    ensures low { result ≤ 2 ^ 32 }
{
    u64::from(communal.size) + u64::from(communal.size % 2)
}

/// Returns the room of the near communals.
fn near_room(communals: &[Shared<'_>]) -> u64
    requires { length communals.now ≤ 32766 }
    ensures { result ≡ near_room communals.now }
{
    let mut total = 0;
    for communal in communals {
        if !communal.far {
            total += room(communal);
        }
    }
    total
}

/// Returns whether one of the communals is near.
fn has_near(communals: &[Shared<'_>]) -> bool
    ensures { result ≡ has_near communals.now }
{
    let mut found = false;
    for communal in communals {
        found = found || !communal.far;
    }
    found
}

/// Returns whether a group of a module is DGROUP.
fn is_named_dgroup(module: &Checked, group: &Rec<'_>) -> bool
    requires { (g : GroupItem) × (contents_seen group.now ≡ Group g) }
    ensures { (g : GroupItem) → contents_seen group.now ≡ Group g → result ≡ is_dgroup (name_at (recs_of «module».now.bytes) g.name.item) }
{
    name_at(module, group_name(group)) == b"DGROUP".as_slice()
}

/// Returns whether a module has a group DGROUP.
fn is_grouped(module: &Checked) -> bool
    ensures { result ≡ is_grouped (recs_of «module».now.bytes) }
{
    for before in 0..module.groups() {
        let Some(group) = module.group(before + 1) else {
            unreachable!()
        };
        if is_named_dgroup(module, &group) {
            return true;
        }
    }
    false
}

/// Returns whether one of the modules has a group DGROUP.
pub(crate) fn are_grouped(modules: &[Checked]) -> bool
    ensures { result ≡ are_grouped (typed_modules modules.now) }
{
    let mut found = false;
    for module in modules {
        found = found || is_grouped(module);
    }
    found
}

/// Returns the class of the segment of the near communals.
fn near_class<'a>(home: &Home<'a>) -> Name<'a>
    ensures { result ≡ near_class home.now }
{
    match home {
        Home::Segment { class, .. } => Name(class.0),
        Home::Apart | Home::Group(_) => Name(b"BSS"),
    }
}

/// Returns the name of the segment of the near communals.
fn near_name<'a>(home: &Home<'a>) -> Name<'a>
    ensures { result ≡ near_name home.now }
{
    match home {
        Home::Segment { name, .. } => Name(name.0),
        Home::Apart | Home::Group(_) => Name(b"c_common"),
    }
}

/// Returns the name of the group of the near communals; `DGROUP` if they have none.
fn home_group<'a>(home: &Home<'a>) -> Name<'a>
    ensures { result ≡ home_group home.now }
{
    match home {
        Home::Group(name) => Name(name.0),
        Home::Apart | Home::Segment { .. } => Name(b"DGROUP"),
    }
}

/// Returns whether the near communals are in a group.
fn is_in_group(home: &Home<'_>) -> bool
    ensures { result ≡ is_in_group home.now }
{
    match home {
        Home::Group(_) => true,
        Home::Apart | Home::Segment { .. } => false,
    }
}

/// Appends the name of the module, and the names of its segments and its group.
fn put_front(alloc: Global, out: &mut Vec<u8>, home: &Home<'_>) -> Result<(), AllocError>
    ensures { OnOk result (out.new.items ≡ out.old.items ++ written (front_records home.now)) }
{
    put_header(alloc, out, &Name(b"communals"))?;
    let names = [
        Name(b""),
        near_class(home),
        near_name(home),
        Name(b"FAR_BSS"),
        home_group(home),
    ];
    put_names(alloc, out, &names)
}

/// Appends the segment of the near communals, if there are any.
fn put_near_segment(
    alloc: Global,
    out: &mut Vec<u8>,
    communals: &[Shared<'_>],
    size: u32,
) -> Result<(), AllocError>
    requires { size ≡ near_room communals.now }
    ensures { OnOk result (out.new.items ≡ out.old.items ++ written (near_segment communals.now)) }
{
    if !has_near(communals) {
        return Ok(());
    }
    let segment = Segment {
        attribute: 0x48,
        size,
        name: Index(3),
        class: Index(2),
    };
    put_segment(alloc, out, &segment)
}

/// Appends the segment of a far communal.
fn put_far_segment(
    alloc: Global,
    out: &mut Vec<u8>,
    communal: &Shared<'_>,
) -> Result<(), AllocError>
    ensures { OnOk result (out.new.items ≡ out.old.items ++ framed (far_segment communal.now)) }
{
    let segment = Segment {
        attribute: 0x60,
        size: communal.size,
        name: Index(4),
        class: Index(4),
    };
    put_segment(alloc, out, &segment)
}

/// Appends the segments of the far communals.
fn put_far_segments(
    alloc: Global,
    out: &mut Vec<u8>,
    communals: &[Shared<'_>],
) -> Result<(), AllocError>
    ensures { OnOk result (out.new.items ≡ out.old.items ++ written (map far_segment (fars communals.now))) }
{
    for communal in communals {
        if communal.far {
            put_far_segment(alloc, out, communal)?;
        }
    }
    Ok(())
}

/// Appends the group of the segment of the near communals, if there is a group and a segment.
fn put_near_group(
    alloc: Global,
    out: &mut Vec<u8>,
    communals: &[Shared<'_>],
    grouped: bool,
) -> Result<(), AllocError>
    ensures { OnOk result (out.new.items ≡ out.old.items ++ written (near_group grouped communals.now)) }
{
    if grouped && has_near(communals) {
        return put_group(alloc, out, Index(5), Index(1));
    }
    Ok(())
}

/// Returns the index of the group of the near communals; 0 for none.
fn group_index(grouped: bool) -> Index
    ensures { result ≡ group_index grouped }
{
    if grouped { Index(1) } else { Index(0) }
}

/// Appends the publics of the near communals.
fn put_near_publics(
    alloc: Global,
    out: &mut Vec<u8>,
    communals: &[Shared<'_>],
    grouped: bool,
) -> Result<(), AllocError>
    requires { near_room communals.now < 2 ^ 32 }
    ensures { OnOk result (out.new.items ≡ out.old.items ++ written (near_publics (group_index grouped) 0 (nears communals.now))) }
{
    let mut body = Vec::new(alloc);
    let mut offset = 0;
    for communal in communals {
        if !communal.far {
            let public = Public {
                group: group_index(grouped),
                segment: Index(1),
                name: &Name(communal.name),
                offset: offset as u32,
            };
            put_public(&mut body, out, &public)?;
            offset += room(communal);
        }
    }
    Ok(())
}

/// Returns the index of the first segment of a far communal.
fn first_far(communals: &[Shared<'_>]) -> u16
    ensures index { result ≡ first_far communals.now }
    ensures low { result ≤ 2 }
{
    if has_near(communals) { 2 } else { 1 }
}

/// Appends the publics of the far communals.
fn put_far_publics(
    alloc: Global,
    out: &mut Vec<u8>,
    communals: &[Shared<'_>],
) -> Result<(), AllocError>
    requires { length communals.now ≤ 32766 }
    ensures { OnOk result (out.new.items ≡ out.old.items ++ written (far_publics (first_far communals.now) (fars communals.now))) }
{
    let mut body = Vec::new(alloc);
    let mut index = first_far(communals);
    for communal in communals {
        if communal.far {
            let public = Public {
                group: Index(0),
                segment: Index(index),
                name: &Name(communal.name),
                offset: 0,
            };
            put_public(&mut body, out, &public)?;
            index += 1;
        }
    }
    Ok(())
}

/// Returns the bytes of the module of communals.
fn module_of(
    alloc: Global,
    communals: &[Shared<'_>],
    size: u32,
    home: &Home<'_>,
) -> Result<Vec<u8>, AllocError>
    requires few { length communals.now ≤ 32766 }
    requires size { size ≡ near_room communals.now }
    ensures { IfOk result (λ v. v.items ≡ written (communals_records home.now communals.now)) }
{
    let grouped = is_in_group(home);
    let mut out = Vec::new(alloc);
    put_front(alloc, &mut out, home)?;
    put_near_segment(alloc, &mut out, communals, size)?;
    put_far_segments(alloc, &mut out, communals)?;
    put_near_group(alloc, &mut out, communals, grouped)?;
    put_near_publics(alloc, &mut out, communals, grouped)?;
    put_far_publics(alloc, &mut out, communals)?;
    put_end(&mut out)?;
    Ok(out)
}

/// Returns the bytes of a module with a public for each communal of these modules: each name that a COMDEF defines and no PUBDEF. `None` if
/// there are no such names. The module has no data, and is not a main module; its name is `communals`.
///
/// A communal has the size in bytes of its largest COMDEF. The near ones are one after another, each at an even offset, in one segment, word-aligned and
/// public: `c_common` of class `BSS`, in the group of `home` if that is one; or a part of the segment of `home`. Each far one has a segment `FAR_BSS` of
/// class `FAR_BSS`, paragraph-aligned and private. They are in the order in which the names are first met (TIS OMF 1.1, "COMDEF"). SEGDEF and PUBDEF have
/// their 32-bit types, 99H and 91H.
///
/// # Errors
///
/// `Communal` for the first name that is near in one COMDEF and far in another, or has 2^32 bytes or more; otherwise `TooMany` if there are
/// more than 32,766 names; otherwise `TooLarge` if the near ones take 2^32 bytes or more together. `Memory` if memory runs out.
pub fn communals_module<'a>(
    alloc: Global,
    modules: &'a [Checked],
    home: &Home<'_>,
) -> Result<Option<Vec<u8>>, CommunalsFault<'a>>
    ensures ok { IfOk result (λ m. AreCommunals home.now (typed_modules modules.entry.now) (option_map (λ v. v.items) m)) }
    ensures fault { IfErr result (IsCommunalsFault (typed_modules modules.entry.now)) }
{
    let communals = match communals_in(alloc, modules) {
        Ok(communals) => communals,
        Err(fault) => return Err(fault),
    };
    if communals.is_empty() {
        return Ok(None);
    }
    if communals.len() > MOST {
        return Err(CommunalsFault::TooMany);
    }
    let room = near_room(&communals);
    if room >= 1 << 32 {
        return Err(CommunalsFault::TooLarge);
    }
    match module_of(alloc, &communals, room as u32, home) {
        Ok(bytes) => Ok(Some(bytes)),
        Err(AllocError) => Err(CommunalsFault::Memory),
    }
}
