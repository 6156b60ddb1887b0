//! Checked modules.

ghost use Rattle.std.specs.Prelude.{◌≡◌, ◌≤◌, Some, IfSome, length, drop, option_map};
ghost use Rattle.omf_frame.specs.Bytes.{last};
ghost use Rattle.omf_image.specs.Limits.{profile_limits};
ghost use Rattle.omf_check.specs.Module.{recs_of, records_in};
ghost use Rattle.omf_check.specs.Inner.Parts.{IsChecked};
ghost use Rattle.omf_check.specs.Listed.{placed_from};
ghost use Rattle.omf_check.specs.Sound.{ModuleHolds};
ghost use Rattle.omf_check.specs.Inner.Points.{NameAt, HasName, HasRecord, IsItemAt};
ghost use Rattle.omf_frame.specs.Framing.{front_record, present};
ghost use Rattle.omf_records.specs.Inner.Reading.{typed};
ghost use Rattle.omf_records.specs.Inner.Seen.{contents_seen, rec_seen};
ghost use Rattle.omf_records.specs.Values.{Group};
ghost use Rattle.omf_check.specs.Tables.{attributes, names, segments, groups, externals, locals, entry};
ghost use Rattle.omf_check.specs.WellFormed.{IsWellFormed};

use crate::profile::Profile;
use crate::records::{Records, first_record};
use crate::segment::SegInfo;
use crate::table::Tables;
use crate::undecoded::UndecodedRecords;
use omf_frame::{Field, Name};
use omf_records::Rec;
use std::marker::Model;

/// A well-formed module: its bytes, and the profile it was checked with. Only a check creates one.
#[derive(Drop)]
pub struct Checked {
    profile: Profile,
    bytes: Vec<u8>,
    tables: Tables,
    /// The number of its records.
    count: u32,
}

impl Model for Checked {
    ghost use Rattle.omf_check.specs.Module.{Module};
    ghost use Rattle.omf_check.specs.Inner.Parts.{IsChecked};

    ghost Value = { Module };

    ghost view = { λ c. record { bytes = c.bytes.items; profile = c.profile } };

    ghost invariant = { λ c. IsChecked c.profile c.bytes.items c.tables c.count };
}

/// The name at an offset of the module.
fn name_at(bytes: &[u8], place: u64) -> Name<'_>
    requires { HasName bytes.now place }
    ensures { NameAt bytes.now place result }
{
    match Name::read_at(bytes, place as usize) {
        Some((name, _)) => name,
        None => unreachable!(),
    }
}

/// The name at an offset of the module, if there is an offset.
fn name_if(bytes: &[u8], place: Option<u64>) -> Option<Name<'_>>
    requires { IfSome place (HasName bytes.now) }
    ensures { IsItemAt (NameAt bytes.now) place result }
{
    match place {
        Some(place) => Some(name_at(bytes, place)),
        None => None,
    }
}

/// The record at an offset of the module.
fn record_at(bytes: &[u8], place: u64) -> Rec<'_>
    requires { HasRecord bytes.now place }
    ensures { rec_seen result ≡ typed (front_record (present (drop place bytes.now))) }
{
    let (_front, behind) = bytes.split_at(place as usize);
    let (rec, _rest) = first_record(behind);
    rec
}

impl Checked {
    pub(crate) fn new(profile: Profile, bytes: Vec<u8>, tables: Tables, count: u32) -> Checked
        requires { IsChecked profile bytes.items tables count }
        ensures { result ≡ record { bytes = bytes.items; profile = profile } }
    {
        Checked {
            profile,
            bytes,
            tables,
            count,
        }
    }

    /// The module's bytes, which are well-formed.
    pub fn bytes(&self) -> &[u8]
        ensures bytes { result.now ≡ self.now.bytes }
        ensures well_formed { IsWellFormed self.now.profile profile_limits self.now.bytes (records_in self.now.bytes) }
    {
        &self.bytes
    }

    /// The profile it was checked with.
    pub fn profile(&self) -> Profile
        ensures { result ≡ self.now.profile }
    {
        self.profile
    }

    /// The number of names, defined by its LNAMES and LLNAMES records: at most 32,767.
    pub fn names(&self) -> u16
        ensures count { result ≡ length (names (recs_of self.now.bytes)) }
        ensures bounded { result ≤ 32767 }
    {
        self.tables.name_count()
    }

    /// The number of segments: at most 32,767.
    pub fn segments(&self) -> u16
        ensures count { result ≡ length (segments (recs_of self.now.bytes)) }
        ensures bounded { result ≤ 32767 }
    {
        self.tables.segment_count()
    }

    /// The number of groups: at most 32,767.
    pub fn groups(&self) -> u16
        ensures count { result ≡ length (groups (recs_of self.now.bytes)) }
        ensures bounded { result ≤ 32767 }
    {
        self.tables.group_count()
    }

    /// The number of external names: at most 32,767. EXTDEF, COMDEF, LEXTDEF and LCOMDEF records share one table.
    pub fn externals(&self) -> u16
        ensures count { result ≡ length (externals (recs_of self.now.bytes)) }
        ensures bounded { result ≤ 32767 }
    {
        self.tables.external_count()
    }

    /// The segment with index `i`, from 1; `None` outside the table.
    pub fn segment(&self, i: u16) -> Option<SegInfo>
        ensures { result ≡ entry (segments (recs_of self.now.bytes)) i }
    {
        self.tables.segment(i)
    }

    /// The attribute byte (ACBP) of the segment with index `i`, from 1; `None` outside the table.
    pub fn attribute(&self, i: u16) -> Option<u8>
        ensures { result ≡ entry (attributes (recs_of self.now.bytes)) i }
    {
        self.tables.attribute(i)
    }

    /// The number of records.
    pub fn record_count(&self) -> u32
        ensures { result ≡ length (records_in self.now.bytes) }
    {
        self.count
    }

    /// The records in order, each with its place; `within` is 0. No record refers to a thread, an entry, data or a byte that is missing;
    /// only the last is a MODEND.
    pub fn records(&self) -> Records<'_>
        ensures listed { result ≡ placed_from 0 0 (records_in self.now.bytes) }
        ensures holds { ModuleHolds profile_limits (recs_of self.now.bytes) }
    {
        Records::new(&self.bytes)
    }

    /// The same, but no record is decoded: for who needs those of some types alone.
    pub fn undecoded(&self) -> UndecodedRecords<'_>
        ensures listed { result ≡ placed_from 0 0 (records_in self.now.bytes) }
        ensures holds { ModuleHolds profile_limits (recs_of self.now.bytes) }
    {
        UndecodedRecords::new(&self.bytes)
    }

    /// Its last record, the MODEND. No other record is read.
    pub fn end(&self) -> Rec<'_>
        ensures last { Some (rec_seen result) ≡ last (recs_of self.now.bytes) }
        ensures holds { ModuleHolds profile_limits (recs_of self.now.bytes) }
    {
        record_at(&self.bytes, self.tables.end_place())
    }

    /// The name with index `i`, from 1; `None` outside the table.
    pub fn name(&self, i: u16) -> Option<Name<'_>>
        ensures { result ≡ entry (names (recs_of self.now.bytes)) i }
    {
        name_if(&self.bytes, self.tables.name_place(i))
    }

    /// The external name with index `i`, from 1; `None` outside the table.
    pub fn external(&self, i: u16) -> Option<Name<'_>>
        ensures { result ≡ entry (externals (recs_of self.now.bytes)) i }
    {
        name_if(&self.bytes, self.tables.external_place(i))
    }

    /// Whether the external with index `i`, from 1, is local: defined by a LEXTDEF or an LCOMDEF. `None` outside the table.
    pub fn local(&self, i: u16) -> Option<bool>
        ensures { result ≡ entry (locals (recs_of self.now.bytes)) i }
    {
        self.tables.is_local(i)
    }

    /// The GRPDEF of the group with index `i`, from 1; `None` outside the table.
    pub fn group(&self, i: u16) -> Option<Rec<'_>>
        ensures { option_map contents_seen result ≡ option_map Group (entry (groups (recs_of self.now.bytes)) i) }
    {
        match self.tables.group_place(i) {
            Some(place) => Some(record_at(&self.bytes, place)),
            None => None,
        }
    }
}
