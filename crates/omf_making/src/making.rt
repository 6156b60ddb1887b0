//! Libraries of modules that are given.

ghost use Rattle.std.specs.Prelude.{◌≡◌, ◌<◌, ◌≤◌, length, IfErr, IfOk, IfSome, MatchOption, OnOk, List, Bool, drop, take, if◌then◌else◌};
ghost use Rattle.std.specs.Bool.{OnTrue};
ghost use Rattle.omf_check.specs.Module.{recs_of};
ghost use Rattle.omf_making.specs.Made.{AreEntered, AreParts, HasName, HasStrong, IsSharedEntered, IsDefinedAt, IsEntered, IsFoundBy, IsFoundByBoth, IsMade, IsMakeFault, IsPart, IsTwice, IsWhole, opened_seen};
ghost use Rattle.omf_making.specs.Inner.Making.{IsLaid, IsPartFault};
ghost use Rattle.omf_making.specs.Names.{defined_names, entered, is_strong, names_seen};
ghost use Rattle.omf_making.specs.declared.making.MakeFault.TheVariants as cause;

use crate::costs::are_long;
use crate::filling::build;
use crate::names::{Defined, Kind, entered_names, is_strong};
use crate::pages::{are_pages_many, is_least};
use crate::prime::is_prime;
use crate::reread::taken_in;
use crate::sound::are_sound;
use crate::spots::{Spot, number_in, ordered_spots};
use crate::taken::{Judgement, Taken, judge_taken};
use omf_check::{Checked, Profile};
use omf_frame::{Framer, Place, Reason};
use omf_library::{
    BLOCK, Dictionary, Header, LibraryFault, Member, Rule, dictionary_in, is_same_name, read_header,
};
use std::alloc::{AllocError, AllocFailed, Global};
use thiserror::Error;

/// A module that becomes a member, and the names that the dictionary has for it.
#[derive(Drop)]
pub struct Part {
    /// Its bytes, up to the end of its MODEND.
    pub bytes: Vec<u8>,
    /// Its names, without those of communals: at most 255 bytes each.
    pub names: Vec<Defined>,
}

impl Part {
    /// The bytes of a module, and the names that it defines, without those of communals.
    ///
    /// # Errors
    ///
    /// `AllocError` if out of memory.
    pub fn new(alloc: Global, module: &Checked) -> Result<Part, AllocError>
        ensures bytes { IfOk result (λ part. part.bytes.items ≡ «module».now.bytes) }
        ensures names { IfOk result (λ part. names_seen part.names.items ≡ entered (defined_names (recs_of «module».now.bytes))) }
    {
        Ok(Part {
            bytes: Vec::from_slice(alloc, module.bytes())?,
            names: entered_names(alloc, module)?,
        })
    }

    /// The bytes of the module that bytes begin with, and the names that what a program takes of it defines, without those of communals: if it is lowered, also
    /// those of its COMDATs.
    ///
    /// # Errors
    ///
    /// `AllocError` if out of memory.
    pub fn taken(alloc: Global, bytes: &[u8], taken: &Taken) -> Result<Part, AllocError>
        ensures bytes { IfOk result (λ part. part.bytes.items ≡ take taken.now.length bytes.now) }
        ensures names { IfOk result (λ part. names_seen part.names.items ≡ entered (defined_names (recs_of taken.now.«module».bytes))) }
    {
        let own = bytes.split_at(taken.length.min(bytes.len())).0;
        Ok(Part {
            bytes: Vec::from_slice(alloc, own)?,
            names: entered_names(alloc, &taken.module)?,
        })
    }
}

/// Why no library was made.
#[derive(Clone, Copy, Debug, PartialEq, Eq, Error)]
pub enum MakeFault {
    /// Out of memory.
    #[error("memory ran out")]
    Memory,
    /// A program takes no module of a part, counted from 0: the check refuses it, and its lowering, or it has none.
    #[error("a module is refused")]
    Refused {
        part: usize,
        reason: Reason,
        place: Place,
    },
    /// Two parts define one name, other than as a COMDAT or an alias: that of this number in the second. Or one part defines it
    /// twice.
    #[error("two modules define one name")]
    Twice {
        first: usize,
        second: usize,
        name: usize,
    },
    /// The library would have more than 65,536 pages with each page size.
    #[error("the library would be too large")]
    TooLarge,
    /// No dictionary was found in which the searches for the names are short: there are many names, and most have one hash.
    #[error("the searches for the names would be too long")]
    LongSearches,
    /// This part, counted from 0, has bytes after its module.
    #[error("a module has bytes after its end")]
    Rest {
        part: usize,
    },
    /// What was built would not be read back as these modules, although each of them is whole.
    #[error("the library would not be read back as these modules")]
    Unlike,
}

impl From<AllocError> for MakeFault {
    ghost from_gives = { λ _ e. e ≡ cause.Memory };

    fn from(_error: AllocError) -> MakeFault {
        MakeFault::Memory
    }
}

impl<T: Drop> From<AllocFailed<T>> for MakeFault {
    ghost from_gives = { λ _ e. e ≡ cause.Memory };

    fn from(_error: AllocFailed<T>) -> MakeFault {
        MakeFault::Memory
    }
}

/// Whether a search finds a name, with a page.
fn finds(dictionary: Dictionary<'_>, rule: Rule, name: &[u8], page: usize) -> bool
    ensures { OnTrue result (IsFoundBy rule dictionary.entry.is_case_sensitive dictionary.entry.bytes.now name.now page) }
{
    match dictionary.search(rule, name).page {
        Some(found) => usize::from(found) == page,
        None => false,
    }
}

/// Whether both searches find a name, with a page.
fn both_find(dictionary: Dictionary<'_>, name: &[u8], page: usize) -> bool
    ensures { OnTrue result (IsFoundByBoth dictionary.entry.is_case_sensitive dictionary.entry.bytes.now name.now page) }
{
    finds(dictionary, Rule::Restart, name, page) && finds(dictionary, Rule::Keep, name, page)
}

/// The bytes of a member, if they are all there.
fn member_bytes<'a>(bytes: &'a [u8], member: Member) -> Option<&'a [u8]>
    ensures { IfSome result (λ m. m.now ≡ take member.length (drop member.offset bytes.entry.now)) }
{
    let offset = member.offset as usize;
    let length = member.length as usize;
    if bytes.len() < offset {
        return None;
    }
    let rest = bytes.split_at(offset).1;
    if rest.len() < length {
        return None;
    }
    Some(rest.split_at(length).0)
}

/// Whether bytes are the same.
fn is_equal(one: &[u8], other: &[u8]) -> bool
    ensures { OnTrue result (one.now ≡ other.now) }
{
    one == other
}

/// What is read back of a library, and the modules that were given.
#[derive(Clone, Copy)]
pub(crate) struct Opened<'a> {
    bytes: &'a [u8],
    pub(crate) page: usize,
    pub(crate) dictionary: Dictionary<'a>,
    members: &'a [Member],
    parts: &'a [Part],
    spots: &'a [Spot],
}

/// The members and the parts from one on.
#[derive(Clone, Copy)]
struct Rest<'a> {
    members: &'a [Member],
    parts: &'a [Part],
}

/// Whether the first of the names is this one.
fn is_first_name(is_case_sensitive: bool, names: &[Defined], name: &[u8]) -> bool
    ensures { OnTrue result (HasName is_case_sensitive names.now name.now) }
{
    match names {
        [] => false,
        [defined, ..] => is_same_name(is_case_sensitive, defined.name.as_slice(), name),
    }
}

/// Whether the name of this number is this one.
fn has_name_at(is_case_sensitive: bool, names: &[Defined], number: usize, name: &[u8]) -> bool
    ensures { OnTrue result (HasName is_case_sensitive names.now name.now) }
{
    if names.len() < number {
        return false;
    }
    is_first_name(is_case_sensitive, names.split_at(number).1, name)
}

/// Whether the first member begins at a page, and its part has a name with this number.
fn is_defined_first(
    opened: Opened<'_>,
    rest: Rest<'_>,
    number: usize,
    name: &[u8],
    page: usize,
) -> bool
    requires { 0 < opened.page }
    ensures { OnTrue result (IsDefinedAt (opened_seen opened.entry) rest.entry.members.now rest.entry.parts.now name.now page) }
{
    match rest.members {
        [] => false,
        [member, ..] => match rest.parts {
            [] => false,
            [part, ..] => {
                let is_sensitive = opened.dictionary.is_case_sensitive;
                member.offset as usize / opened.page == page
                    && has_name_at(is_sensitive, part.names.as_slice(), number, name)
            }
        },
    }
}

/// The number of the member that begins at a page, if there is one.
fn number_at(opened: Opened<'_>, page: usize) -> usize {
    let start = opened.page.saturating_mul(page) as u64;
    opened
        .members
        .partition_point(|member| member.offset < start)
}

/// Whether the member that begins at a page defines a name.
pub(crate) fn is_defined_at(opened: Opened<'_>, name: &[u8], page: usize) -> bool
    requires { 0 < opened.page }
    ensures { OnTrue result (IsDefinedAt (opened_seen opened.entry) opened.entry.members.now opened.entry.parts.now name.now page) }
{
    let at = number_at(opened, page);
    if opened.members.len() < at || opened.parts.len() < at {
        return false;
    }
    let is_sensitive = opened.dictionary.is_case_sensitive;
    let number = number_in(is_sensitive, opened.parts, opened.spots, at, name);
    let rest = Rest {
        members: opened.members.split_at(at).1,
        parts: opened.parts.split_at(at).1,
    };
    is_defined_first(opened, rest, number, name, page)
}

/// Whether both searches find a name that several members may define, with the page of one that does.
fn is_shared_entered(opened: Opened<'_>, name: &[u8]) -> bool
    requires { 0 < opened.page }
    ensures { OnTrue result (IsSharedEntered (opened_seen opened.entry) name.now) }
{
    let Some(page) = opened.dictionary.search(Rule::Restart, name).page else {
        return false;
    };
    let page = usize::from(page);
    is_defined_at(opened, name, page) && both_find(opened.dictionary, name, page)
}

/// Whether both searches find a name of the member that begins at a page.
fn is_entered(opened: Opened<'_>, page: usize, defined: &Defined) -> bool
    requires { 0 < opened.page }
    ensures { OnTrue result (IsEntered (opened_seen opened.entry) page defined.now.kind defined.now.name.items) }
{
    let name = defined.name.as_slice();
    match defined.kind {
        Kind::Public | Kind::Import => both_find(opened.dictionary, name, page),
        Kind::Comdat | Kind::Communal | Kind::Alias => is_shared_entered(opened, name),
    }
}

/// Whether both searches find each name of the member that begins at a page.
fn are_entered(opened: Opened<'_>, page: usize, names: &[Defined]) -> bool
    requires { 0 < opened.page }
    ensures { OnTrue result (AreEntered (opened_seen opened.entry) page names.now) }
{
    let mut rest = names;
    while let [defined, others @ ..] = rest {
        if !is_entered(opened, page, defined) {
            return false;
        }
        rest = others;
    }
    true
}

/// Whether a member is a module that was given.
fn is_part(opened: Opened<'_>, member: Member, part: &Part) -> bool
    requires { 0 < opened.page }
    ensures { OnTrue result (IsPart (opened_seen opened.entry) member part.now) }
{
    let Some(module) = member_bytes(opened.bytes, member) else {
        return false;
    };
    if !is_equal(module, part.bytes.as_slice()) {
        return false;
    }
    let number = member.offset as usize / opened.page;
    if !are_entered(opened, number, part.names.as_slice()) {
        return false;
    }
    true
}

/// Whether the members are the modules that were given.
fn are_parts(opened: Opened<'_>) -> bool
    requires { 0 < opened.page }
    ensures { OnTrue result (AreParts (opened_seen opened.entry) opened.entry.members.now opened.entry.parts.now) }
{
    let mut rest = opened.members;
    let mut others = opened.parts;
    while let [member, members @ ..] = rest {
        match others {
            [] => return false,
            [part, parts @ ..] => {
                if !is_part(opened, *member, part) {
                    return false;
                }
                rest = members;
                others = parts;
            }
        }
    }
    others.is_empty()
}

/// Whether a library follows the rules of those that are made: its dictionary has these flags, follows the F1H record at `end`, ends the
/// library, and has a prime number of blocks.
fn is_laid(header: Header, is_case_sensitive: bool, bytes: &[u8], end: usize) -> bool
    requires { end < length bytes.now }
    ensures { OnTrue result (IsLaid header is_case_sensitive bytes.now end) }
{
    let Some([low, high, ..]) = bytes.get(end + 1..) else {
        return false;
    };
    let size = usize::from(*low) + 256 * usize::from(*high);
    let dictionary = header.dictionary as usize;
    header.flags == u8::from(is_case_sensitive)
        && dictionary == end + 3 + size
        && dictionary + BLOCK * header.blocks as usize == bytes.len()
        && header.blocks < 65536
        && is_prime(header.blocks as usize)
}

/// Whether bytes are a library of these modules: it is read back, and compared with them.
fn is_made(
    alloc: Global,
    profile: Profile,
    is_case_sensitive: bool,
    bytes: &[u8],
    parts: &[Part],
) -> Result<bool, LibraryFault>
    ensures { IfOk result (λ b. OnTrue b (IsMade profile is_case_sensitive parts.now bytes.now)) }
{
    let found = taken_in(alloc, profile, bytes)?;
    let header = read_header(bytes)?;
    let Some(dictionary) = dictionary_in(header, bytes) else {
        return Ok(false);
    };
    let spots = ordered_spots(alloc, dictionary.is_case_sensitive, parts)?;
    let opened = Opened {
        bytes,
        page: header.page as usize,
        dictionary,
        members: found.members.as_slice(),
        parts,
        spots: spots.as_slice(),
    };
    if !is_laid(header, is_case_sensitive, bytes, found.end)
        || !is_least(opened.page, parts)
        || !are_parts(opened)
    {
        return Ok(false);
    }
    Ok(are_sound(opened))
}

/// The fault of a part that has bytes after its module, which has this number of bytes.
fn fault_of_rest(size: usize, bytes: &[u8], number: usize) -> Option<MakeFault>
    ensures { MatchOption result (length bytes.now ≤ size) (λ f. (f ≡ cause.Rest number) × (size < length bytes.now)) }
{
    if size < bytes.len() {
        Some(MakeFault::Rest { part: number })
    } else {
        None
    }
}

/// Why a part is no member, if it is none: no program takes it, or it has bytes after its module.
fn fault_of_part(
    alloc: Global,
    framer: &mut Framer,
    profile: Profile,
    part: &Part,
    number: usize,
) -> Option<MakeFault>
    ensures { MatchOption result (IsWhole profile part.now) (IsPartFault profile part.now number) }
{
    let bytes = part.bytes.as_slice();
    match judge_taken(alloc, framer, profile, bytes) {
        Ok(Judgement::Taken(taken)) => fault_of_rest(taken.length, bytes, number),
        Ok(Judgement::Refused(why)) => Some(MakeFault::Refused {
            part: number,
            reason: why.reason,
            place: why.place,
        }),
        Err(_) => Some(MakeFault::Memory),
    }
}

/// Why no library was made of parts for which no other fault was found: the first that is no member; `Unlike` if all are.
fn fault_of_parts(alloc: Global, profile: Profile, parts: &[Part]) -> MakeFault
    ensures { (is_case_sensitive : Bool) → IsMakeFault profile is_case_sensitive parts.now result }
{
    let mut framer = Framer::new(alloc);
    for (number, part) in parts.iter().enumerate() {
        match fault_of_part(alloc, &mut framer, profile, part, number) {
            Some(fault) => return fault,
            None => {}
        }
    }
    MakeFault::Unlike
}

/// Whether one of the names is this one, and may be defined once only.
fn has_strong(is_case_sensitive: bool, names: &[Defined], name: &[u8]) -> bool
    ensures { OnTrue result (HasStrong is_case_sensitive names.now name.now) }
{
    let mut rest = names;
    while let [defined, others @ ..] = rest {
        if is_strong(defined.kind)
            && is_same_name(is_case_sensitive, defined.name.as_slice(), name)
        {
            return true;
        }
        rest = others;
    }
    false
}

/// The names that count before one of this number: all, or, in the part that has it, those before it.
fn names_before<'a>(names: &'a [Defined], is_same: bool, number: usize) -> &'a [Defined]
    ensures { result.now ≡ (if is_same then take number names.entry.now else names.entry.now) }
{
    if is_same {
        names.split_at(number.min(names.len())).0
    } else {
        names
    }
}

/// Whether the parts define a name twice: the second by its name of this number, the first before that.
fn is_twice(
    is_case_sensitive: bool,
    parts: &[Part],
    first: usize,
    second: usize,
    name: usize,
) -> bool
    ensures { OnTrue result (IsTwice is_case_sensitive parts.now first second name) }
{
    let (Some(one), Some(other)) = (parts.get(first), parts.get(second)) else {
        return false;
    };
    let Some(defined) = other.names.get(name) else {
        return false;
    };
    let before = names_before(one.names.as_slice(), first == second, name);
    is_strong(defined.kind) && has_strong(is_case_sensitive, before, defined.name.as_slice())
}

/// A fault of the building, if it is so.
fn sure(
    alloc: Global,
    profile: Profile,
    is_case_sensitive: bool,
    parts: &[Part],
    fault: MakeFault,
) -> MakeFault
    ensures { IsMakeFault profile is_case_sensitive parts.now result }
{
    match fault {
        MakeFault::Twice {
            first,
            second,
            name,
        } => {
            if is_twice(is_case_sensitive, parts, first, second, name) {
                return fault;
            }
        }
        MakeFault::TooLarge => {
            if are_pages_many(parts) {
                return fault;
            }
        }
        MakeFault::LongSearches => {
            if are_long(parts) {
                return fault;
            }
        }
        MakeFault::Memory => return fault,
        MakeFault::Refused { .. } | MakeFault::Rest { .. } | MakeFault::Unlike => {}
    }
    fault_of_parts(alloc, profile, parts)
}

/// Makes a library of modules, in order: the page size is the least that will do, and the dictionary has a prime number
/// of blocks. The same parts give the same bytes. A module that the check refuses is taken if a program takes its lowering.
///
/// What was built is read back before it is returned, so the promise does not rest on how it was built.
///
/// # Errors
///
/// `Refused` with the first part of which no program takes a module, `Rest` with the first that has bytes after its module, `Twice` if two
/// parts define one name other than as a COMDAT or an alias (or one part twice), `TooLarge` if the pages are more than 65,536 with each page size, `LongSearches` if
/// no dictionary was found with short searches, as where many names have one hash. `Unlike` if what was built is not read back
/// although each part is whole, which is not met. `Memory` if out of memory.
pub fn make(
    alloc: Global,
    profile: Profile,
    is_case_sensitive: bool,
    parts: &[Part],
) -> Result<Vec<u8>, MakeFault>
    ensures made { IfOk result (λ made. IsMade profile is_case_sensitive parts.now made.items) }
    ensures fault { IfErr result (IsMakeFault profile is_case_sensitive parts.now) }
{
    let bytes = match build(alloc, is_case_sensitive, parts) {
        Ok(bytes) => bytes,
        Err(fault) => return Err(sure(alloc, profile, is_case_sensitive, parts, fault)),
    };
    match is_made(alloc, profile, is_case_sensitive, &bytes, parts) {
        Ok(true) => Ok(bytes),
        Err(LibraryFault::Memory) => Err(MakeFault::Memory),
        Ok(false) | Err(_) => Err(fault_of_parts(alloc, profile, parts)),
    }
}
