//! The records of a checked module before their contents are decoded.

ghost use Rattle.std.specs.Prelude.{◌≡◌};
ghost use Rattle.omf_check.specs.Inner.Known.{has_data, has_externals, has_publics, has_references, has_segment};

use crate::contents::{
    Comment, Data, Externals, Publics, References, comment_of, data_of, externals_of, publics_of,
    references_of, segment_of,
};
use crate::records::split_record;
use omf_frame::{Place, RawRecord, Width};
use omf_records::{Rec, Segment, plain_data, view_known};
use std::marker::Model;

/// Whether this is the type of a SEGDEF.
#[inline(always)]
fn has_segment(kind: u8) -> bool
    ensures { result ≡ has_segment kind }
{
    kind == 0x98 || kind == 0x99
}

/// Whether this is the type of an LPUBDEF, or that of a PUBDEF.
#[inline(always)]
fn has_publics(local: bool, kind: u8) -> bool
    ensures { result ≡ has_publics local kind }
{
    if local {
        kind == 0xB6 || kind == 0xB7
    } else {
        kind == 0x90 || kind == 0x91
    }
}

/// Whether this is the type of an EXTDEF, a LEXTDEF, a COMDEF or an LCOMDEF.
#[inline(always)]
fn has_externals(kind: u8) -> bool
    ensures { result ≡ has_externals kind }
{
    kind == 0x8C || kind == 0xB0 || kind == 0xB4 || kind == 0xB5 || kind == 0xB8
}

/// Whether this is the type of a FIXUPP or a MODEND.
#[inline(always)]
fn has_references(kind: u8) -> bool
    ensures { result ≡ has_references kind }
{
    kind == 0x8A || kind == 0x8B || kind == 0x9C || kind == 0x9D
}

/// Whether this is the type of an LEDATA or an LIDATA.
#[inline(always)]
fn has_data(kind: u8) -> bool
    ensures { result ≡ has_data kind }
{
    kind == 0xA0 || kind == 0xA1 || kind == 0xA2 || kind == 0xA3
}

/// A record of a checked module that is not decoded yet.
#[derive(Drop)]
pub struct Undecoded<'a> {
    raw: RawRecord<'a>,
}

impl<'a> Model for Undecoded<'a> {
    ghost use Rattle.omf_check.specs.Inner.Known.{IsKnown, known};
    ghost use Rattle.omf_records.specs.Values.{Rec as Typed};

    ghost Value = { Typed };

    ghost view = { λ u. known u.raw.kind u.raw.body.now };

    ghost invariant = { λ u. IsKnown u.raw.kind u.raw.body.now };
}

impl<'a> Undecoded<'a> {
    ghost use Rattle.std.specs.Prelude.{◌≡◌, IfNone, IfSome, false, true};
    ghost use Rattle.omf_frame.specs.Types.{is_local};
    ghost use Rattle.omf_check.specs.Inner.Contents.{comment_seen, data_seen, externals_local, externals_seen, publics_seen, references_seen};
    ghost use Rattle.omf_check.specs.Inner.Known.{holds_comment, holds_data, holds_externals, holds_publics, holds_references, holds_segment};
    ghost use Rattle.omf_records.specs.Inner.Seen.{rec_seen};
    ghost use Rattle.omf_records.specs.Values.{Segment as SegmentContents};

    /// Its type byte.
    #[inline(always)]
    pub fn kind(&self) -> u8
        ensures { result ≡ self.now.kind }
    {
        self.raw.kind
    }

    /// The record, decoded.
    #[inline(always)]
    pub fn decoded(&self) -> Rec<'a>
        ensures { rec_seen result ≡ self.now }
    {
        view_known(self.raw)
    }

    /// The contents, if it is a COMENT. No other record is decoded.
    #[inline(always)]
    pub fn as_comment(&self) -> Option<Comment<'a>>
        ensures some { IfSome result (λ c. comment_seen c ≡ self.now) }
        ensures none { IfNone result (holds_comment self.now.contents ≡ false) }
    {
        if self.raw.kind == 0x88 {
            comment_of(&self.decoded())
        } else {
            None
        }
    }

    /// The segment that it defines, if it is a SEGDEF. No other record is decoded.
    #[inline(always)]
    pub fn as_segment(&self) -> Option<Segment>
        ensures some { IfSome result (λ s. SegmentContents s ≡ self.now.contents) }
        ensures none { IfNone result (holds_segment self.now.contents ≡ false) }
    {
        if has_segment(self.raw.kind) {
            segment_of(&self.decoded())
        } else {
            None
        }
    }

    /// The contents, if it is a PUBDEF; if `local` is set, if it is an LPUBDEF. No other record is decoded.
    #[inline(always)]
    pub fn as_publics(&self, local: bool) -> Option<Publics<'a>>
        ensures some { IfSome result (λ p. publics_seen local p ≡ self.now) }
        ensures only { IfSome result (λ p. is_local self.now.kind ≡ local) }
        ensures none { IfNone result (holds_publics local self.now.kind self.now.contents ≡ false) }
    {
        if has_publics(local, self.raw.kind) {
            publics_of(local, &self.decoded())
        } else {
            None
        }
    }

    /// The external names, if it is an EXTDEF, a LEXTDEF, a COMDEF or an LCOMDEF. No other record is decoded.
    #[inline(always)]
    pub fn as_externals(&self) -> Option<Externals<'a>>
        ensures some { IfSome result (λ e. externals_seen e ≡ self.now.contents) }
        ensures local { IfSome result (λ e. externals_local e ≡ is_local self.now.kind) }
        ensures none { IfNone result (holds_externals self.now.contents ≡ false) }
    {
        if has_externals(self.raw.kind) {
            externals_of(&self.decoded())
        } else {
            None
        }
    }

    /// The contents, if it is a FIXUPP or a MODEND. No other record is decoded.
    #[inline(always)]
    pub fn as_references(&self) -> Option<References<'a>>
        ensures some { IfSome result (λ r. references_seen r ≡ self.now) }
        ensures none { IfNone result (holds_references self.now.contents ≡ false) }
    {
        if has_references(self.raw.kind) {
            references_of(&self.decoded())
        } else {
            None
        }
    }

    /// The contents, if it is an LEDATA or an LIDATA. No other record is decoded.
    #[inline(always)]
    pub fn as_data(&self) -> Option<Data<'a>>
        ensures some { IfSome result (λ d. data_seen d ≡ self.now) }
        ensures none { IfNone result (holds_data self.now.contents ≡ false) }
    {
        // An LEDATA is frequent: it is decoded without a `Rec`.
        if let Some(Ok(plain)) = plain_data(&self.raw) {
            return Some(Data::Plain {
                width: Width::of(self.raw.kind),
                segment: plain.segment,
                offset: plain.offset,
                bytes: plain.bytes,
            });
        }
        if has_data(self.raw.kind) {
            data_of(&self.decoded())
        } else {
            None
        }
    }
}

/// Iterator over the remaining records of a module, each with its place; `within` is 0. None is decoded.
#[derive(Drop)]
pub struct UndecodedRecords<'a> {
    bytes: &'a [u8],
    number: u32,
    start: u64,
}

impl<'a> Model for UndecodedRecords<'a> {
    ghost use Rattle.std.specs.Prelude.{List};
    ghost use Rattle.omf_frame.specs.declared.fault.Place.{Place as PlaceModel};
    ghost use Rattle.omf_records.specs.Values.{Rec as Typed};
    ghost use Rattle.omf_check.specs.Listed.{AreListed, placed_from};
    ghost use Rattle.omf_check.specs.Module.{records_in};

    ghost Value = { List (PlaceModel × Typed) };

    ghost view = { λ r. placed_from r.number r.start (records_in r.bytes.now) };

    ghost invariant = { λ r. AreListed r.bytes.now r.number r.start };
}

impl<'a> UndecodedRecords<'a> {
    ghost use Rattle.omf_check.specs.Listed.{AreListed, placed_from};
    ghost use Rattle.omf_check.specs.Module.{records_in};

    /// The records of `bytes`.
    pub(crate) fn new(bytes: &'a [u8]) -> UndecodedRecords<'a>
        requires { AreListed bytes.now 0 0 }
        ensures { result ≡ placed_from 0 0 (records_in bytes.entry.now) }
    {
        UndecodedRecords {
            bytes,
            number: 0,
            start: 0,
        }
    }
}

impl<'a> Iterator for UndecodedRecords<'a> {
    ghost use Rattle.std.specs.Iterator.{YieldsFirst, item_count};

    type Item = (Place, Undecoded<'a>);

    ghost next_gives = { YieldsFirst (λ s. s) };

    ghost remaining = { item_count (λ s. s) };

    #[inline(always)]
    fn next(&mut self) -> Option<(Place, Undecoded<'a>)> {
        if self.bytes.is_empty() {
            return None;
        }
        let (raw, rest) = split_record(self.bytes);
        let place = Place {
            number: self.number,
            start: self.start,
            within: 0,
        };
        self.number += 1;
        self.start += (self.bytes.len() - rest.len()) as u64;
        self.bytes = rest;
        Some((place, Undecoded { raw }))
    }
}
