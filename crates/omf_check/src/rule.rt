//! Faults of single rules, and the choice among them.

ghost use Rattle.std.specs.Prelude.{◌≡◌, ℕ};
ghost use Rattle.omf_frame.specs.Fault.{is_before};
ghost use Rattle.omf_check.specs.Inner.Judging.{fault_unless, lesser, room_fault, entry_fault, optional_fault, members_fault, comment_fault};
ghost use Rattle.omf_check.specs.Rules.{places, undefined};
ghost use Rattle.omf_check.specs.Tables.{is_defined};
ghost use Rattle.omf_frame.specs.declared.fault.Reason.TheVariants.{UndefinedSegment};

use crate::profile::Profile;
use omf_frame::{Index, Reason};
use omf_records::{At, Item, Items, Kind, LayoutFault, Member};

/// The fault with this place in the record and this reason.
#[inline(always)]
pub fn fault(within: u32, reason: Reason) -> LayoutFault
    ensures { result ≡ record { within = within; reason = reason } }
{
    LayoutFault { reason, within }
}

/// The fault of a rule, if it does not hold.
#[inline(always)]
pub fn fault_unless(holds: bool, within: u32, reason: Reason) -> Option<LayoutFault>
    ensures { result ≡ fault_unless holds within reason }
{
    if holds {
        None
    } else {
        Some(fault(within, reason))
    }
}

/// Whether `one` is further left than `other`, or at the same place with no larger reason number.
#[inline(always)]
fn is_before(one: &LayoutFault, other: &LayoutFault) -> bool
    ensures { result ≡ is_before one.now other.now }
{
    one.within < other.within
        || one.within == other.within && one.reason.number() <= other.reason.number()
}

/// The lesser of two faults, if any.
#[inline(always)]
pub fn lesser(one: Option<LayoutFault>, other: Option<LayoutFault>) -> Option<LayoutFault>
    ensures { result ≡ lesser one other }
{
    let Some(one) = one else {
        return other;
    };
    let Some(other) = other else {
        return Some(one);
    };
    if is_before(&one, &other) {
        Some(one)
    } else {
        Some(other)
    }
}

/// Rule: all the items fit, where there is room for `room` of them.
pub fn room_fault<T: Item>(items: Items<T>, room: usize) -> Option<LayoutFault>
    ensures { result ≡ room_fault room (places items) }
{
    let mut found = None;
    let mut left = room;
    for item in items {
        found = lesser(found, fault_unless(left > 0, item.within, Reason::TooMany));
        left = left.saturating_sub(1);
    }
    found
}

/// Whether a table of `count` entries has one with this index, from 1.
#[inline(always)]
pub fn is_defined(count: usize, index: u16) -> bool
    ensures { result ≡ is_defined count index }
{
    1 <= index && usize::from(index) <= count
}

/// The reason of an index that is not that of an entry of the table of this kind.
pub fn undefined(kind: Kind) -> Reason
    ensures { result ≡ undefined kind }
{
    match kind {
        Kind::Segment => Reason::UndefinedSegment,
        Kind::Group => Reason::UndefinedGroup,
        Kind::External => Reason::UndefinedExternal,
    }
}

/// Rule: the index is that of an entry of a table of `count` entries.
pub fn entry_fault(count: usize, reason: Reason, index: &At<Index>) -> Option<LayoutFault>
    ensures { result ≡ entry_fault count reason index.now }
{
    fault_unless(is_defined(count, index.item.0), index.within, reason)
}

/// Rule: the index is that of an entry of a table of `count` entries, or is 0 for none.
pub fn optional_fault(count: usize, reason: Reason, index: &At<Index>) -> Option<LayoutFault>
    ensures { result ≡ optional_fault count reason index.now }
{
    let number = usize::from(index.item.0);
    fault_unless(number <= count, index.within, reason)
}

/// Rule: a member of a GRPDEF is one of `count` segments.
fn member_fault(count: usize, member: &Member<'_>) -> Option<LayoutFault>
    ensures { result ≡ entry_fault count UndefinedSegment member.now }
{
    entry_fault(count, Reason::UndefinedSegment, &member.segment)
}

/// Rule: each member of a GRPDEF is one of `count` segments.
pub fn members_fault(count: usize, members: Items<Member<'_>>) -> Option<LayoutFault>
    ensures { result ≡ members_fault count members.entry }
{
    let mut found = None;
    for member in members {
        found = lesser(found, member_fault(count, &member.item));
    }
    found
}

/// The rules of a COMENT's class.
pub fn comment_fault(profile: Profile, class: u8) -> Option<LayoutFault>
    ensures { result ≡ comment_fault profile class }
{
    lesser(
        fault_unless(class != 0xAA, 4, Reason::OtherDialect),
        fault_unless(
            !profile.refuse_vendor_comments || class < 0xC0,
            4,
            Reason::VendorComment,
        ),
    )
}
