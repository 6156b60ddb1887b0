//! What is left of records where segments are left out.

ghost use Rattle.std.specs.Prelude.{◌≡◌, ◌<◌, ◌≤◌, ◌+◌, ◌++◌, [], IfOk, OnOk, false, if◌then◌else◌};
ghost use Rattle.byteorder.specs.Endian.{little_bytes};
ghost use Rattle.omf_frame.specs.Bytes.{is_one_of};
ghost use Rattle.omf_frame.specs.Fields.{index_bytes};
ghost use Rattle.omf_frame.specs.Framing.{raw_bytes, raw_of};
ghost use Rattle.omf_records.specs.Inner.Seen.{contents_seen, kind_seen};
ghost use Rattle.omf_records.specs.Shortest.{contents_bytes, option_bytes, public_bytes};
ghost use Rattle.omf_records.specs.Values.{Fixups, Publics as PublicsContents, Segment as SegmentContents, combination, width};
ghost use Rattle.omf_trimming.specs.Without.{at_start, emptied, left_field, started, threads_alone};
ghost use Rattle.omf_trimming.specs.Inner.Rest.{bytes_of, public_items, publics_left, rest_after, thread_bytes, with_bytes};

use crate::without::LeftPublics;
use omf_check::Publics;
use omf_frame::{Field, Index, Le16, Le32, Name};
use omf_lowering::Record;
use omf_records::{Item, Items, Part, Public, Rec, Segment, Subrecord};
use std::alloc::{AllocError, Global};
use std::marker::Model;

/// The most bytes of contents that a record has.
const MOST: usize = 65_534;

/// Appends the record with these contents. They are at most as long as those of the record that it replaces, so that no error but `AllocError` is met.
fn put_record(out: &mut Vec<u8>, kind: u8, body: Vec<u8>) -> Result<(), AllocError>
    ensures { OnOk result (out.new.items ≡ out.old.items ++ raw_bytes (raw_of kind body.items)) }
{
    if body.len() > MOST {
        return Err(AllocError);
    }
    Record::made(kind, body).put(out)
}

/// Appends a length of 0, in a record of this type.
fn put_zero(out: &mut Vec<u8>, kind: u8) -> Result<(), AllocError>
    ensures { OnOk result (out.new.items ≡ out.old.items ++ little_bytes (width kind) 0) }
{
    if kind % 2 == 1 {
        Le32(0).put(out)
    } else {
        Le16(0).put(out)
    }
}

/// How a segment that is left out combines, by its attribute byte.
fn left_combination(publics: LeftPublics, attribute: u8) -> u8
    ensures value { result ≡ left_field publics (combination attribute) }
    ensures low { result < 8 }
{
    match publics {
        LeftPublics::Nameless => 0,
        LeftPublics::Gone | LeftPublics::AtStart => attribute / 4 % 8,
    }
}

/// Appends the index of a name of a segment that is left out.
fn put_left(out: &mut Vec<u8>, publics: LeftPublics, index: &Index) -> Result<(), AllocError>
    ensures { OnOk result (out.new.items ≡ out.old.items ++ index_bytes (left_field publics index.now)) }
{
    match publics {
        LeftPublics::Nameless => Index(0).put(out),
        LeftPublics::Gone | LeftPublics::AtStart => index.put(out),
    }
}

/// Appends the SEGDEF of a segment that is left out.
fn put_emptied(
    alloc: Global,
    out: &mut Vec<u8>,
    kind: u8,
    segment: &Segment,
    publics: LeftPublics,
) -> Result<(), AllocError>
    ensures { OnOk result (out.new.items ≡ out.old.items ++ bytes_of kind (SegmentContents (emptied publics segment.now))) }
{
    let attribute = segment.attribute.byte();
    let mut body = Vec::new(alloc);
    body.push(0x20 + left_combination(publics, attribute) * 4 + attribute % 2)?;
    put_zero(&mut body, kind)?;
    put_left(&mut body, publics, &segment.name.item)?;
    put_left(&mut body, publics, &segment.class.item)?;
    put_left(&mut body, publics, &segment.overlay)?;
    put_record(out, kind, body)
}

/// Appends a public with the offset 0.
fn put_started(out: &mut Vec<u8>, kind: u8, public: &Public<'_>) -> Result<(), AllocError>
    ensures { OnOk result (out.new.items ≡ out.old.items ++ public_bytes kind (record public.now { offset = 0 })) }
{
    let moved = Public {
        name: Name(public.name.0),
        offset: 0,
        type_index: public.type_index,
    };
    moved.put(kind, out)
}

/// Appends the base frame number of a PUBDEF, if it has one.
fn put_frame(out: &mut Vec<u8>, frame: Option<u16>) -> Result<(), AllocError>
    ensures { OnOk result (out.new.items ≡ out.old.items ++ option_bytes (little_bytes 2) frame) }
{
    match frame {
        Some(frame) => Le16(frame).put(out),
        None => Ok(()),
    }
}

/// The contents of a PUBDEF with its publics at the start of their segment.
fn started(alloc: Global, kind: u8, publics: &Publics<'_>) -> Result<Vec<u8>, AllocError>
    ensures { IfOk result (λ v. v.items ≡ contents_bytes kind (PublicsContents (started (public_items publics.now)))) }
{
    let mut body = Vec::new(alloc);
    publics.group.item.put(&mut body)?;
    publics.segment.item.put(&mut body)?;
    put_frame(&mut body, publics.frame)?;
    for public in publics.items.iter() {
        put_started(&mut body, kind, &public.item)?;
    }
    Ok(body)
}

/// Appends a subrecord, if it is a THREAD.
fn put_thread(out: &mut Vec<u8>, kind: u8, subrecord: &Subrecord<'_>) -> Result<(), AllocError>
    ensures { OnOk result (out.new.items ≡ out.old.items ++ thread_bytes kind subrecord.now) }
{
    match &subrecord.part {
        Part::Thread { .. } => subrecord.put(kind, out),
        Part::Fixup { .. } => Ok(()),
    }
}

/// The contents of a FIXUPP without its FIXUPs.
fn threads_of(
    alloc: Global,
    kind: u8,
    subrecords: Items<Subrecord<'_>>,
) -> Result<Vec<u8>, AllocError>
    ensures { IfOk result (λ v. v.items ≡ contents_bytes kind (Fixups (threads_alone subrecords.entry))) }
{
    let mut body = Vec::new(alloc);
    for subrecord in subrecords {
        put_thread(&mut body, kind, &subrecord.item)?;
    }
    Ok(body)
}

/// The records so far without some segments.
#[derive(Drop)]
pub(crate) struct Rest<'a> {
    publics: LeftPublics,
    gone: &'a [u16],
    /// The number of SEGDEFs so far.
    segments: u64,
    /// Whether the last data are of a segment that is left out.
    after_gone: bool,
    pub out: Vec<u8>,
}

impl<'a> Model for Rest<'a> {
    ghost use Rattle.omf_trimming.specs.Inner.Rest.{RestSoFar};

    ghost Value = { RestSoFar };

    ghost view = { λ r. record { publics = r.publics; gone = r.gone.now; segments = r.segments; after_gone = r.after_gone; bytes = r.out.items } };
}

impl<'a> Rest<'a> {
    /// No records, where these segments are left out.
    pub(crate) fn new(alloc: Global, publics: LeftPublics, gone: &'a [u16]) -> Rest<'a>
        ensures { result ≡ record { publics = publics; gone = gone.entry.now; segments = 0; after_gone = false; bytes = [] } }
    {
        Rest {
            publics,
            gone,
            segments: 0,
            after_gone: false,
            out: Vec::new(alloc),
        }
    }

    /// Whether the segment with an index is left out.
    fn is_gone(&self, segment: u64) -> bool
        ensures { result ≡ is_one_of self.now.gone segment }
    {
        self.gone.iter().any(|one| u64::from(*one) == segment)
    }

    /// Appends the bytes of a record, unless it is of the segment with this index, and that is left out.
    fn put_unless(&mut self, segment: u16, bytes: &[u8]) -> Result<(), AllocError>
        ensures { OnOk result (self.new ≡ with_bytes self.old (if is_one_of self.old.gone segment then [] else bytes.now)) }
    {
        if !self.is_gone(u64::from(segment)) {
            self.out.extend_from_slice(bytes)?;
        }
        Ok(())
    }

    /// Appends what is left of a PUBDEF or an LPUBDEF of these bytes.
    fn put_publics(
        &mut self,
        alloc: Global,
        kind: u8,
        publics: &Publics<'_>,
        bytes: &[u8],
    ) -> Result<(), AllocError>
        ensures { OnOk result (self.new ≡ with_bytes self.old (if is_one_of self.old.gone publics.now.segment.item then publics_left self.old.publics kind (public_items publics.now) else bytes.now)) }
    {
        if !self.is_gone(u64::from(publics.segment.item.0)) {
            return self.out.extend_from_slice(bytes);
        }
        match self.publics {
            LeftPublics::Gone | LeftPublics::Nameless => Ok(()),
            LeftPublics::AtStart => put_record(&mut self.out, kind, started(alloc, kind, publics)?),
        }
    }

    /// Appends data of these bytes, unless their segment is left out.
    fn put_data(&mut self, segment: u16, bytes: &[u8]) -> Result<(), AllocError>
        ensures { OnOk result (self.new ≡ with_bytes (record self.old { after_gone = is_one_of self.old.gone segment }) (if is_one_of self.old.gone segment then [] else bytes.now)) }
    {
        self.after_gone = self.is_gone(u64::from(segment));
        self.put_unless(segment, bytes)
    }

    /// Appends what is left of a SEGDEF of these bytes.
    fn put_segment(
        &mut self,
        alloc: Global,
        kind: u8,
        segment: &Segment,
        bytes: &[u8],
    ) -> Result<(), AllocError>
        requires { self.old.segments < 4294967296 }
        ensures { OnOk result (self.new ≡ with_bytes (record self.old { segments = self.old.segments + 1 }) (if is_one_of self.old.gone (self.old.segments + 1) then bytes_of kind (SegmentContents (emptied self.old.publics segment.now)) else bytes.now)) }
    {
        let number = self.segments + 1;
        self.segments = number;
        if self.is_gone(number) {
            put_emptied(alloc, &mut self.out, kind, segment, self.publics)
        } else {
            self.out.extend_from_slice(bytes)
        }
    }

    /// Appends what is left of a FIXUPP of these bytes.
    fn put_fixups(
        &mut self,
        alloc: Global,
        kind: u8,
        subrecords: Items<Subrecord<'_>>,
        bytes: &[u8],
    ) -> Result<(), AllocError>
        ensures { OnOk result (self.new ≡ with_bytes self.old (if self.old.after_gone then bytes_of kind (Fixups (threads_alone subrecords.entry)) else bytes.now)) }
    {
        if self.after_gone {
            put_record(&mut self.out, kind, threads_of(alloc, kind, subrecords)?)
        } else {
            self.out.extend_from_slice(bytes)
        }
    }

    /// Appends what is left of the record with this number and these bytes.
    pub(crate) fn put(
        &mut self,
        alloc: Global,
        number: u32,
        rec: &Rec<'_>,
        bytes: &[u8],
    ) -> Result<(), AllocError>
        requires { self.old.segments ≤ number }
        ensures { OnOk result (self.new ≡ rest_after self.old bytes.now (kind_seen rec.now) (contents_seen rec.now)) }
    {
        let kind = rec.kind();
        match rec {
            Rec::Segment { segment, .. } => self.put_segment(alloc, kind, segment, bytes),
            Rec::Publics {
                width,
                group,
                segment,
                frame,
                publics,
            }
            | Rec::LocalPublics {
                width,
                group,
                segment,
                frame,
                publics,
            } => {
                let publics = Publics {
                    width: *width,
                    group: *group,
                    segment: *segment,
                    frame: *frame,
                    items: publics.iter(),
                };
                self.put_publics(alloc, kind, &publics, bytes)
            }
            Rec::Plain { segment, .. } | Rec::Iterated { segment, .. } => {
                self.put_data(segment.item.0, bytes)
            }
            Rec::Fixups { subrecords, .. } => {
                self.put_fixups(alloc, kind, subrecords.iter(), bytes)
            }
            Rec::Header { .. }
            | Rec::Comment { .. }
            | Rec::Names(_)
            | Rec::Group { .. }
            | Rec::Externs(_)
            | Rec::Communals(_)
            | Rec::ModEnd { .. }
            | Rec::LocalNames(_)
            | Rec::LocalExterns { .. }
            | Rec::LocalCommunals(_)
            | Rec::Carried { .. } => self.out.extend_from_slice(bytes),
        }
    }
}
