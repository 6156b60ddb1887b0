//! The faults of references: in the subrecords of a FIXUPP, and in the start of a MODEND.

ghost use Rattle.std.specs.Prelude.{◌≡◌, ◌≤◌, ◌+◌, length, nat_le, Ok, None};
ghost use Rattle.omf_check.specs.Rules.{item_limit, judged_at};
ghost use Rattle.omf_check.specs.Inner.Judging.{kept_entries, index_fault, frame_fault, target_fault, reference_fault, location_fault, subrecord_fault, start_fault};
ghost use Rattle.omf_check.specs.Inner.Kept.{set_threads};
ghost use Rattle.omf_check.specs.Inner.Walking.{walk_fault, fixups_fault, table_counts, plain_length};
ghost use Rattle.omf_check.specs.Tables.{items_in};
ghost use Rattle.omf_records.specs.Inner.Names.{location_size};
ghost use Rattle.omf_records.specs.Values.{Fixups, location_type, location_offset};

use crate::last_data::LastData;
use crate::method::{FrameMethod, TargetMethod};
use crate::rule::{fault, fault_unless, is_defined, lesser, undefined};
use crate::table::{ITEM_LIMIT, Tables};
use crate::threads::Threads;
use omf_frame::{Index, Reason};
use omf_records::{At, Kind, LayoutFault, Locat, Part, Reference, Subrecord, Unread};

/// Whether a location ends within `len` bytes of data.
fn ends_within(location: Locat, len: usize) -> bool
    ensures { result ≡ nat_le (location_offset location + location_size (location_type location)) len }
{
    let size = location.location_type().size();
    usize::from(location.offset() + u16::from(size)) <= len
}

/// Rule: the fixup's location is within the data of the last data record, which is an LEDATA.
fn location_fault(last: Option<LastData>, within: u32, location: Locat) -> Option<LayoutFault>
    ensures { result ≡ location_fault last within location }
{
    match last {
        Some(LastData::Plain(len)) => {
            fault_unless(ends_within(location, len), within, Reason::OutsideRecord)
        }
        Some(LastData::Iterated) => Some(fault(within, Reason::FixupOnIterated)),
        None => Some(fault(within, Reason::NoDataRecord)),
    }
}

/// The place of a fault of a frame or a target: its own datum, or the fix data byte if it has none.
fn judged_at(reference: &Reference, datum: &Option<At<Index>>) -> u32
    ensures { result ≡ judged_at reference.now datum.now }
{
    match datum {
        Some(index) => index.within,
        None => reference.fix.within,
    }
}

impl Tables {
    /// The number of entries of the table of this kind.
    fn entries(&self, kind: Kind) -> usize
        ensures { result ≡ kept_entries self.now kind }
    {
        match kind {
            Kind::Segment => self.segments.len(),
            Kind::Group => self.groups.len(),
            Kind::External => self.externals.len(),
        }
    }

    /// Rule: the entry that a target refers to exists. A fault is at `at`.
    fn index_fault(&self, at: u32, target: &TargetMethod) -> Option<LayoutFault>
        ensures { result ≡ index_fault self.now at target.now }
    {
        let is_there = is_defined(self.entries(target.kind), target.index.0);
        fault_unless(is_there, at, undefined(target.kind))
    }

    /// Rule: the frame is set, and the entry that it refers to, if any, exists. A fault is at `at`.
    fn frame_fault(&self, at: u32, frame: &Option<FrameMethod>) -> Option<LayoutFault>
        ensures { result ≡ frame_fault self.now at frame.now }
    {
        match frame {
            None => Some(fault(at, Reason::UndefinedThread)),
            Some(FrameMethod::Of(entry)) => self.index_fault(at, entry),
            Some(FrameMethod::Location) => None,
            Some(FrameMethod::Target) => None,
        }
    }

    /// Rule: the target is set, and its entry exists. A fault is at `at`.
    fn target_fault(&self, at: u32, target: &Option<TargetMethod>) -> Option<LayoutFault>
        ensures { result ≡ target_fault self.now at target.now }
    {
        match target {
            None => Some(fault(at, Reason::UndefinedThread)),
            Some(target) => self.index_fault(at, target),
        }
    }

    /// The rules of a reference's frame and target, with these threads in force.
    fn reference_fault(&self, threads: &Threads, reference: &Reference) -> Option<LayoutFault>
        ensures { result ≡ reference_fault self.now threads.now reference.now }
    {
        let frame_at = judged_at(reference, &reference.frame);
        let target_at = judged_at(reference, &reference.target);
        lesser(
            self.frame_fault(frame_at, &threads.frame(reference)),
            self.target_fault(target_at, &threads.target(reference)),
        )
    }

    /// The first fault of a subrecord, with these threads in force.
    fn subrecord_fault(
        &self,
        threads: &Threads,
        within: u32,
        subrecord: &Subrecord<'_>,
    ) -> Option<LayoutFault>
        ensures { result ≡ subrecord_fault self.now threads.now within subrecord.now }
    {
        match &subrecord.part {
            Part::Thread { .. } => None,
            Part::Fixup {
                location,
                reference,
            } => lesser(
                location_fault(self.last, within, *location),
                self.reference_fault(threads, reference),
            ),
        }
    }

    /// The numbers of entries of the tables, by the number of a target method.
    #[inline(always)]
    fn counts(&self) -> [usize; 4]
        ensures { result ≡ table_counts self.now }
    {
        [
            self.segments.len(),
            self.groups.len(),
            self.externals.len(),
            0,
        ]
    }

    /// The number of bytes of the last data record that fixups may change: 0 if it is no LEDATA.
    #[inline(always)]
    fn plain_length(&self) -> usize
        ensures { result ≡ plain_length self.now.last }
    {
        match self.last {
            Some(LastData::Plain(len)) => len,
            Some(LastData::Iterated) => 0,
            None => 0,
        }
    }

    /// Reads and checks the subrecords of a FIXUPP. If none has a fault, counts them as items and keeps their threads. A fault of their
    /// layout precedes all others.
    #[inline(never)]
    fn take_subrecords(&mut self, subrecords: Unread<Subrecord<'_>>) -> Option<LayoutFault>
        requires { self.old.items ≤ item_limit }
        ensures found { result ≡ walk_fault self.old subrecords.entry.items }
        ensures kept { (subs : _) → subrecords.entry.items ≡ Ok subs → result ≡ None → self.new ≡ record self.old { items = self.old.items + length subs; threads = set_threads self.old.threads subs } }
    {
        let mut subrecords = subrecords;
        let mut left = ITEM_LIMIT - self.items;
        let mut in_force = self.threads;
        let mut beyond = None;
        let mut found = None;
        let counts = self.counts();
        let length = self.plain_length();
        'walk: loop {
            if left > 0 && subrecords.pass_direct(&counts, length) {
                left -= 1;
                continue;
            }
            let subrecord = match subrecords.read_next() {
                Ok(Some(subrecord)) => subrecord,
                Ok(None) => break,
                Err(fault) => return Some(fault),
            };
            let fits = fault_unless(left > 0, subrecord.within, Reason::TooMany);
            beyond = lesser(beyond, fits);
            left = left.saturating_sub(1);
            found = lesser(
                found,
                self.subrecord_fault(&in_force, subrecord.within, &subrecord.item),
            );
            in_force.set(&subrecord.item);
        }
        let fault = lesser(beyond, found);
        if fault.is_none() {
            self.items = ITEM_LIMIT - left;
            self.threads = in_force;
        }
        fault
    }

    /// Checks a FIXUPP with these subrecords. Keeps what later records need of it if it has no fault.
    #[inline(always)]
    pub(super) fn take_fixups(&mut self, subrecords: Unread<Subrecord<'_>>) -> Option<LayoutFault>
        requires { self.old.items ≤ item_limit }
        ensures found { result ≡ fixups_fault self.old subrecords.entry.items }
        ensures kept { (subs : _) → subrecords.entry.items ≡ Ok subs → result ≡ None → self.new ≡ record self.old { items = self.old.items + items_in (Fixups subs); threads = set_threads self.old.threads subs } }
    {
        if !subrecords.is_end() {
            return self.take_subrecords(subrecords);
        }
        if self.items == ITEM_LIMIT {
            return Some(fault(0, Reason::TooMany));
        }
        self.items += 1;
        None
    }

    /// The rules of the start of a MODEND: those of a reference, and that its frame method is not F4.
    pub(super) fn start_fault(&self, start: &Option<Reference>) -> Option<LayoutFault>
        ensures { result ≡ start_fault self.now start.now }
    {
        let Some(reference) = start else {
            return None;
        };
        let is_location = matches!(self.threads.frame(reference), Some(FrameMethod::Location));
        lesser(
            self.reference_fault(&self.threads, reference),
            fault_unless(!is_location, reference.fix.within, Reason::StartFrame),
        )
    }
}
