//! The rules of all records but FIXUPP.

ghost use Rattle.std.specs.Prelude.{◌≡◌, ◌≤◌, ◌+◌, length, ◌-◌, [], ◌∷◌};
ghost use Rattle.omf_check.specs.Rules.{item_limit, table_limit};
ghost use Rattle.omf_image.specs.Limits.{profile_limits};
ghost use Rattle.omf_check.specs.Inner.Judging.{kept_length, data_fault, contents_fault, segment_fault, group_fault, base_fault, room_fault, data_size, fault_moved, record_fault, IsShort, IsNoFixupp};
ghost use Rattle.omf_frame.specs.Types.{width_bytes};
ghost use Rattle.omf_image.specs.Inner.Expanding.{expanded_length};
ghost use Rattle.omf_records.specs.Inner.Seen.{contents_seen, kind_seen, rec_seen};

use crate::profile::Profile;
use crate::rule::{
    comment_fault, entry_fault, fault_unless, lesser, members_fault, optional_fault, room_fault,
};
use crate::table::{ITEM_LIMIT, TABLE_LIMIT, Tables};
use omf_frame::{Index, Reason};
use omf_image::{Limits, expanded_len};
use omf_records::{At, Blocks, Items, LayoutFault, Member, Rec, Segment};

/// The number of bytes that the blocks of an LIDATA expand to, or their first fault. The LIDATA's offset field is at `at`.
fn blocks_size(at: u32, blocks: Blocks<'_>) -> Result<usize, LayoutFault>
    requires place { at ≤ 65537 }
    requires short { length blocks.bytes.now ≤ 65534 }
    ensures { result ≡ fault_moved (at + width_bytes blocks.entry.width) (expanded_length (width_bytes blocks.entry.width) profile_limits blocks.entry.bytes.now) }
{
    let first = at + blocks.width.bytes() as u32;
    match expanded_len(blocks, Limits::profile()) {
        Ok(size) => Ok(size as usize),
        Err(fault) => Err(LayoutFault {
            reason: fault.reason,
            within: first + fault.within,
        }),
    }
}

/// The number of bytes of data of a data record, or the first fault of its blocks. 0 for other records.
fn data_size(rec: &Rec<'_>) -> Result<usize, LayoutFault>
    requires { IsShort (contents_seen rec.now) }
    ensures { result ≡ data_size profile_limits (kind_seen rec.now) (contents_seen rec.now) }
{
    match rec {
        Rec::Plain { data, .. } => Ok(data.len()),
        Rec::Iterated { offset, blocks, .. } => blocks_size(offset.within, *blocks),
        Rec::Header { .. }
        | Rec::Comment { .. }
        | Rec::Names(_)
        | Rec::LocalNames(_)
        | Rec::Segment { .. }
        | Rec::Group { .. }
        | Rec::Externs(_)
        | Rec::LocalExterns { .. }
        | Rec::Publics { .. }
        | Rec::LocalPublics { .. }
        | Rec::Communals(_)
        | Rec::LocalCommunals(_)
        | Rec::Fixups { .. }
        | Rec::ModEnd { .. }
        | Rec::Carried { .. } => Ok(0),
    }
}

impl Tables {
    /// The length of a segment in bytes; 0 if it does not exist.
    #[inline(always)]
    fn segment_length(&self, index: u16) -> u64
        ensures { result ≡ kept_length self.now.segments index }
    {
        match self.segment(index) {
            Some(segment) => segment.length,
            None => 0,
        }
    }

    /// Rule: the segment exists, and `size` bytes of data from `offset` on are within it.
    #[inline(always)]
    pub(super) fn data_fault(
        &self,
        segment: &At<Index>,
        offset: &At<u32>,
        size: usize,
    ) -> Option<LayoutFault>
        ensures { result ≡ data_fault self.now segment.now offset.now size }
    {
        let length = self.segment_length(segment.item.0);
        let start = u64::from(offset.item);
        let fits = start <= length && size as u64 <= length - start;
        lesser(
            entry_fault(self.segments.len(), Reason::UndefinedSegment, segment),
            fault_unless(fits, offset.within, Reason::OutsideSegment),
        )
    }

    /// The rules of a SEGDEF.
    fn segment_fault(&self, segment: &Segment) -> Option<LayoutFault>
        ensures { result ≡ segment_fault self.now segment.now }
    {
        let names = self.names.len();
        lesser(
            fault_unless(self.segments.len() < TABLE_LIMIT, 3, Reason::TooMany),
            lesser(
                optional_fault(names, Reason::UndefinedName, &segment.name),
                optional_fault(names, Reason::UndefinedName, &segment.class),
            ),
        )
    }

    /// The rules of a GRPDEF.
    fn group_fault(&self, name: &At<Index>, members: Items<Member<'_>>) -> Option<LayoutFault>
        ensures { result ≡ group_fault self.now (record { name = name.now; members = members.entry }) }
    {
        lesser(
            fault_unless(self.groups.len() < TABLE_LIMIT, 3, Reason::TooMany),
            lesser(
                optional_fault(self.names.len(), Reason::UndefinedName, name),
                members_fault(self.segments.len(), members),
            ),
        )
    }

    /// The rules of the base of a PUBDEF or an LPUBDEF.
    fn base_fault(&self, group: &At<Index>, segment: &At<Index>) -> Option<LayoutFault>
        ensures { result ≡ base_fault self.now group.now segment.now }
    {
        lesser(
            optional_fault(self.groups.len(), Reason::UndefinedGroup, group),
            optional_fault(self.segments.len(), Reason::UndefinedSegment, segment),
        )
    }

    /// How many more names there may be.
    fn name_room(&self) -> usize
        ensures { result ≡ table_limit - length self.now.names }
    {
        TABLE_LIMIT.saturating_sub(self.names.len())
    }

    /// How many more externals there may be.
    fn external_room(&self) -> usize
        ensures { result ≡ table_limit - length self.now.externals }
    {
        TABLE_LIMIT.saturating_sub(self.externals.len())
    }

    /// The rules of a record other than a FIXUPP. A data record has `size` bytes of data.
    fn contents_fault(&self, profile: Profile, size: usize, rec: &Rec<'_>) -> Option<LayoutFault>
        requires { IsNoFixupp (contents_seen rec.now) }
        ensures { result ≡ contents_fault profile self.now size (contents_seen rec.now) }
    {
        match rec {
            Rec::Comment { class, .. } => comment_fault(profile, *class),
            Rec::Names(items) => room_fault(items.iter(), self.name_room()),
            Rec::LocalNames(items) => room_fault(items.iter(), self.name_room()),
            Rec::Segment { segment, .. } => self.segment_fault(segment),
            Rec::Group { name, members } => self.group_fault(name, members.iter()),
            Rec::Externs(items) => room_fault(items.iter(), self.external_room()),
            Rec::LocalExterns { externs, .. } => {
                room_fault(externs.iter(), self.external_room())
            }
            Rec::Publics { group, segment, .. } => self.base_fault(group, segment),
            Rec::LocalPublics { group, segment, .. } => self.base_fault(group, segment),
            Rec::Communals(items) => room_fault(items.iter(), self.external_room()),
            Rec::LocalCommunals(items) => room_fault(items.iter(), self.external_room()),
            Rec::Plain {
                segment,
                offset,
                ..
            } => self.data_fault(segment, offset, size),
            Rec::Iterated {
                segment,
                offset,
                ..
            } => self.data_fault(segment, offset, size),
            Rec::Fixups { .. } => unreachable!(),
            Rec::ModEnd { start, .. } => self.start_fault(start),
            Rec::Header { .. } | Rec::Carried { .. } => None,
        }
    }

    /// Rule: the module has room for one more item. A fault is at the record's start.
    #[inline(always)]
    pub(super) fn item_fault(&self) -> Option<LayoutFault>
        ensures { result ≡ room_fault (item_limit - self.now.items) (0 ∷ []) }
    {
        fault_unless(self.items < ITEM_LIMIT, 0, Reason::TooMany)
    }

    /// The first fault of a record other than a FIXUPP: that of its blocks, else that of its rules.
    pub(super) fn record_fault(&self, profile: Profile, rec: &Rec<'_>) -> Option<LayoutFault>
        requires other { IsNoFixupp (contents_seen rec.now) }
        requires short { IsShort (contents_seen rec.now) }
        ensures { result ≡ record_fault profile profile_limits self.now (rec_seen rec.now) }
    {
        match data_size(rec) {
            Ok(size) => lesser(self.item_fault(), self.contents_fault(profile, size, rec)),
            Err(fault) => Some(fault),
        }
    }
}
