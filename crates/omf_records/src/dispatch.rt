//! Reading a record's contents by its type.
ghost use Rattle.std.specs.Prelude.{◌≡◌, ◌≤◌, length, IfOk, IfSome, Some, Ok, is_ok, is_some, true, IsTrue};
ghost use Rattle.omf_frame.specs.Framing.{is_taken};
ghost use Rattle.omf_frame.specs.Bytes.{is_one_of};
ghost use Rattle.omf_frame.specs.Types.{ledata, type_of};
ghost use Rattle.omf_records.specs.Inner.Seen.{contents_seen, kind_seen, map_ok, type_byte};
ghost use Rattle.omf_records.specs.Inner.Reading.{read_body};
ghost use Rattle.omf_records.specs.Inner.RecordReaders.{whole_of};
ghost use Rattle.omf_records.specs.Layout.{Meets};
ghost use Rattle.omf_records.specs.Records.{contents};
ghost use Rattle.omf_records.specs.Entries.{subrecord};
ghost use Rattle.omf_records.specs.Inner.Front.{AreInFront};
ghost use Rattle.omf_records.specs.Inner.Unread.{fixups_read};
ghost use Rattle.omf_records.specs.Valued.{is_fixupp};
ghost use Rattle.omf_records.specs.Values.{Plain, is_wide};

use crate::at::LayoutFault;
use crate::here::Here;
use crate::record::{PlainData, Rec};
use crate::subrecord::Subrecord;
use crate::unread::Unread;
use crate::viewing::{
    carried_at, comment_at, communals_at, externs_at, fixups_at, group_at, header_at, iterated_at,
    local_communals_at, local_externs_at, local_names_at, mod_end_at, names_at, plain_at,
    plain_data_at, publics_at, segment_at,
};
use omf_frame::{RawRecord, RecordType, Width};

/// Reads the contents at `here` of a record of a type, whose byte is `kind`.
fn contents_at<'a>(
    record_type: RecordType,
    kind: u8,
    here: Here<'a>,
) -> Result<Rec<'a>, LayoutFault>
    requires { kind ≡ type_byte record_type here.wide }
    ensures contents { map_ok contents_seen result ≡ (whole_of record_type here.entry.wide).read here.entry.within here.entry.bytes.now }
    ensures kind { IfOk result (λ r. kind_seen r ≡ type_byte record_type here.entry.wide) }
{
    match record_type {
        RecordType::Theadr => header_at(kind, here),
        RecordType::Lheadr => header_at(kind, here),
        RecordType::Coment => comment_at(here),
        RecordType::Lnames => names_at(here),
        RecordType::Llnames => local_names_at(here),
        RecordType::Segdef => segment_at(here),
        RecordType::Grpdef => group_at(here),
        RecordType::Extdef => externs_at(here),
        RecordType::Lextdef => local_externs_at(here),
        RecordType::Pubdef => publics_at(false, here),
        RecordType::Lpubdef => publics_at(true, here),
        RecordType::Comdef => communals_at(here),
        RecordType::Lcomdef => local_communals_at(here),
        RecordType::Ledata => plain_at(here),
        RecordType::Lidata => iterated_at(here),
        RecordType::Fixupp => fixups_at(here),
        RecordType::Modend => mod_end_at(here),
        RecordType::Typdef
        | RecordType::Linnum
        | RecordType::Linsym
        | RecordType::Alias
        | RecordType::Vernum
        | RecordType::Bakpat
        | RecordType::Cextdef
        | RecordType::Comdat
        | RecordType::Nbkpat
        | RecordType::Vendext
        | RecordType::Library => carried_at(kind, here),
    }
}

fn contents_of<'a>(kind: u8, body: &'a [u8]) -> Result<Rec<'a>, LayoutFault>
    requires { length body.now ≤ 65534 }
    ensures contents { map_ok contents_seen result ≡ read_body kind body.now }
    ensures kind { IfOk result (λ r. kind_seen r ≡ kind) }
{
    let here = Here::start(kind, body);
    match RecordType::of(kind) {
        Some(record_type) => contents_at(record_type, kind, here),
        None => carried_at(kind, here),
    }
}

fn view_body<'a>(kind: u8, body: &'a [u8]) -> Result<Rec<'a>, LayoutFault>
    requires { length body.now ≤ 65534 }
    ensures read { map_ok contents_seen result ≡ read_body kind body.now }
    ensures kind { IfOk result (λ r. kind_seen r ≡ kind) }
    ensures meets { Meets (contents kind) 3 body.now (map_ok contents_seen result) }
{
    contents_of(kind, body)
}

/// Decodes the contents of a record (TIS OMF 1.1, the page of each record). The type must be one that a module may have, and the
/// contents at most 65,534 bytes, as in every record that a `Framer` shows.
///
/// Errors: the least layout fault, by offset and then by number (reasons 8 to 18).
pub fn view<'a>(raw: RawRecord<'a>) -> Result<Rec<'a>, LayoutFault>
    requires taken { IsTrue (is_taken raw.kind) }
    requires short { length raw.body.now ≤ 65534 }
    ensures read { map_ok contents_seen result ≡ read_body raw.entry.kind raw.entry.body.now }
    ensures kind { IfOk result (λ r. kind_seen r ≡ raw.entry.kind) }
    ensures meets { Meets (contents raw.entry.kind) 3 raw.entry.body.now (map_ok contents_seen result) }
{
    view_body(raw.kind, raw.body)
}

fn is_fixupp(kind: u8) -> bool
    ensures { result ≡ is_fixupp kind }
{
    kind == 0x9C || kind == 0x9D
}

/// The subrecords of a FIXUPP, to be decoded one by one; those in front of a fault too. `None` for a record of another type.
pub fn unread_fixups<'a>(raw: &RawRecord<'a>) -> Option<Unread<Subrecord<'a>>>
    requires { length raw.now.body.now ≤ 65534 }
    ensures read { IfSome result (λ u. read_body raw.now.kind raw.now.body.now ≡ fixups_read u.items) }
    ensures front { IfSome result (λ u. AreInFront (subrecord (is_wide raw.now.kind)) 3 raw.now.body.now u.front) }
    ensures given { is_some result ≡ is_fixupp raw.now.kind }
{
    if is_fixupp(raw.kind) {
        Some(Unread::new(Here::start(raw.kind, raw.body)))
    } else {
        None
    }
}

fn is_ledata(kind: u8) -> bool
    ensures { result ≡ is_one_of ledata kind }
{
    kind == 0xA0 || kind == 0xA1
}

/// The contents of an LEDATA, or their first layout fault. `None` for a record of another type.
#[inline(always)]
pub fn plain_data<'a>(raw: &RawRecord<'a>) -> Option<Result<PlainData<'a>, LayoutFault>>
    requires { length raw.now.body.now ≤ 65534 }
    ensures read { IfSome result (λ r. map_ok Plain r ≡ read_body raw.now.kind raw.now.body.now) }
    ensures given { is_some result ≡ is_one_of ledata raw.now.kind }
{
    if is_ledata(raw.kind) {
        Some(plain_data_at(Here::start(raw.kind, raw.body)))
    } else {
        None
    }
}

/// Like `view`, for contents that are known to be valid. The subrecords of a FIXUPP are not read: FIXUPPs are frequent.
pub fn view_known<'a>(raw: RawRecord<'a>) -> Rec<'a>
    requires taken { IsTrue (is_taken raw.kind) }
    requires short { length raw.body.now ≤ 65534 }
    requires spelled { is_ok (read_body raw.kind raw.body.now) ≡ true }
    ensures read { Ok (contents_seen result) ≡ read_body raw.entry.kind raw.entry.body.now }
    ensures kind { kind_seen result ≡ raw.entry.kind }
{
    if let Some(subrecords) = unread_fixups(&raw) {
        let width = Width::of(raw.kind);
        let subrecords = subrecords.known();
        return Rec::Fixups { width, subrecords };
    }
    match contents_of(raw.kind, raw.body) {
        Ok(rec) => rec,
        Err(_) => unreachable!(),
    }
}
