//! The memory that the segments of a program take, and its stack.

ghost use Rattle.std.specs.Prelude.{◌≡◌, true, ◌∷◌, ◌++◌, ◌<◌, ◌≤◌, ◌^◌, ◌+◌, List, ℕ, [], None, filter_map, fold, max, min, option_to_list, zip};
ghost use Rattle.std.specs.Option.{option_or};
ghost use Rattle.omf_records.specs.Values.{SegmentItem};
ghost use Rattle.omf_check.specs.Module.{recs_of};
ghost use Rattle.omf_check.specs.Tables.{segment_length};
ghost use Rattle.omf_output.specs.Exe.Com.{stack_bytes, without_stack};
ghost use Rattle.omf_output.specs.Exe.Members.{is_stack, memory_end, portion, portions, portions_in, segdefs, segdefs_in, stack};
ghost use Rattle.omf_output.specs.Inner.Rooms.{no_room, with_portion, with_stack};

use crate::exe::member::Member;
use omf_check::{Checked, Undecoded};
use omf_frame::Width;
use omf_placement::{Frame, Placed};
use omf_records::{Acbp, Combination, Segment};
use std::marker::Model;

/// A stack: where its lowest segment is, and the first address after all of its segments. Empty ones count only if all are empty.
#[derive(Clone, Copy, Debug, PartialEq, Eq)]
pub struct Stack {
    /// The frame of its lowest segment.
    pub frame: Frame,
    /// The address of its first byte.
    pub first: u64,
    /// The first address after the stack.
    pub end: u64,
}

/// The memory that segments take.
#[derive(Drop)]
pub(crate) struct Room {
    /// The first address after them.
    pub(crate) end: u64,
    /// The first address after those that are no part of the stack.
    pub(crate) own_end: u64,
    /// The stack's segments that have a byte.
    filled: Option<Stack>,
    /// The stack's empty segments.
    empty: Option<Stack>,
    /// The bytes of the stack's segments together, at most 65,536.
    pub(crate) stack_len: u64,
}

impl Model for Room {
    ghost use Rattle.omf_output.specs.Inner.Rooms.{Room as Rooms};

    ghost Value = { Rooms };

    ghost view = { λ r. record { end = r.end; own_end = r.own_end; filled = r.filled; empty = r.empty; stack_len = r.stack_len } };
}

/// The length of a segment in bytes, in a SEGDEF of this type (TIS OMF 1.1, "SEGDEF", B bit).
fn segment_length(kind: u8, segment: &Segment) -> u64
    ensures value { result ≡ segment_length kind segment.now }
    ensures low { result ≤ 2 ^ 32 }
{
    if !segment.attribute.is_big() {
        return u64::from(segment.size);
    }
    match Width::of(kind) {
        Width::Bits16 => 1 << 16,
        Width::Bits32 => 1 << 32,
    }
}

/// Whether the combination of a segment is that of the stack (TIS OMF 1.1, "SEGDEF", C field).
fn is_stack(attribute: Acbp) -> bool
    ensures { result ≡ is_stack attribute }
{
    match attribute.combination() {
        Combination::Stack => true,
        Combination::Private
        | Combination::Reserved1
        | Combination::Public
        | Combination::Reserved3
        | Combination::Public4
        | Combination::Common
        | Combination::Public7 => false,
    }
}

/// The stack with one more of its segments.
fn with_stack(stack: Option<Stack>, place: Placed, end: u64) -> Stack
    ensures { result ≡ with_stack stack (record { place = place; end = end; is_stack = true }) }
{
    let first = u64::from(place.address);
    match stack {
        Some(stack) if first >= stack.first => Stack {
            end: stack.end.max(end),
            ..stack
        },
        Some(Stack { end: before, .. }) => Stack {
            frame: place.frame,
            first,
            end: before.max(end),
        },
        None => Stack {
            frame: place.frame,
            first,
            end,
        },
    }
}

/// A sum with one more length, at most 65,536.
fn with_length(sum: u64, length: u64) -> u64
    ensures { result ≡ min (sum + length) 65536 }
{
    sum.saturating_add(length).min(65536)
}

impl Room {
    /// That of no segments.
    fn new() -> Room
        ensures { result ≡ no_room }
    {
        Room {
            end: 0,
            own_end: 0,
            filled: None,
            empty: None,
            stack_len: 0,
        }
    }

    /// The stack: its segments that have a byte, or the empty ones if none has.
    pub(crate) fn stack(&self) -> Option<Stack>
        ensures { result ≡ option_or self.now.filled self.now.empty }
    {
        self.filled.or(self.empty)
    }

    /// The memory with a segment of the stack of this length.
    fn with_part(self, place: Placed, length: u64) -> Room
        requires low { length ≤ 2 ^ 32 }
        ensures { result ≡ with_portion self (record { place = place; end = place.address + length; is_stack = true }) }
    {
        let end = u64::from(place.address) + length;
        let stack_len = with_length(self.stack_len, length);
        let (filled, empty) = if length > 0 {
            (Some(with_stack(self.filled, place, end)), self.empty)
        } else {
            (self.filled, Some(with_stack(self.empty, place, end)))
        };
        Room {
            end: self.end.max(end),
            own_end: self.own_end,
            filled,
            empty,
            stack_len,
        }
    }

    /// The memory with that of one more segment, which is at a place, of a SEGDEF of this type. An absolute segment takes none of the
    /// program's.
    fn with_segment(self, place: Placed, kind: u8, segment: &Segment) -> Room
        ensures { result ≡ fold with_portion self (option_to_list (portion (place, (kind, segment.now)))) }
    {
        if segment.absolute.is_some() {
            return self;
        }
        let length = segment_length(kind, segment);
        if is_stack(segment.attribute) {
            return self.with_part(place, length);
        }
        let end = u64::from(place.address) + length;
        Room {
            end: self.end.max(end),
            own_end: self.own_end.max(end),
            ..self
        }
    }
}

/// The memory with that of a record's segment, which is at the first of the places left; and the places left for the segments after it. A
/// record that is no SEGDEF changes nothing, and is not decoded.
fn take<'a>(room: Room, left: &'a [Placed], rec: &Undecoded<'_>) -> (Room, &'a [Placed])
    ensures { (rest : List (ℕ × SegmentItem)) → fold with_portion result.0 (filter_map portion (zip result.1.now rest)) ≡ fold with_portion room (filter_map portion (zip left.entry.now (segdefs_in rec.now.kind rec.now.contents ++ rest))) }
{
    let Some(segment) = rec.as_segment() else {
        return (room, left);
    };
    match left.split_first() {
        Some((place, rest)) => (room.with_segment(*place, rec.kind(), &segment), rest),
        None => (room, left),
    }
}

/// The memory with that of a module's segments, which are at these places.
fn with_module(before: Room, module: &Checked, places: &[Placed]) -> Room
    ensures { result ≡ fold with_portion before (filter_map portion (zip places.now (segdefs (recs_of «module».now.bytes)))) }
{
    let mut room = before;
    let mut left = places;
    for (_place, rec) in module.undecoded() {
        let (next, rest) = take(room, left, &rec);
        room = next;
        left = rest;
    }
    room
}

/// The same for a module of a program.
fn with_member(before: Room, member: &Member<'_>) -> Room
    ensures { result ≡ fold with_portion before (portions_in member.now) }
{
    with_module(before, member.module, member.placement.segments())
}

/// The memory that the segments of all modules take.
pub(crate) fn room_of(members: &[Member<'_>]) -> Room
    ensures end { result.end ≡ memory_end (portions members.now) }
    ensures own_end { result.own_end ≡ memory_end (without_stack (portions members.now)) }
    ensures stack { option_or result.filled result.empty ≡ stack (portions members.now) }
    ensures stack_len { max 256 result.stack_len ≡ stack_bytes (portions members.now) }
{
    let mut room = Room::new();
    for member in members {
        room = with_member(room, member);
    }
    room
}
