//! The exported calls that hand out the tables of a module.

ghost use Rattle.std.specs.Prelude.{◌≡◌};
ghost use Rattle.omf_c.specs.Answers.{IsAnswered};
ghost use Rattle.omf_c.specs.Data.{data_bytes, data_rows};
ghost use Rattle.omf_c.specs.Fixups.{fixup_rows};
ghost use Rattle.omf_c.specs.Making.{IsTextOf};
ghost use Rattle.omf_c.specs.Records.{record_rows};
ghost use Rattle.omf_c.specs.Starts.{start_references};
ghost use Rattle.omf_c.specs.Tables.{comment_rows, external_rows, group_rows, header_rows, member_rows, public_rows, segment_rows, table_of};

use crate::answer::{Answer, fault_answer, hand_out};
use crate::making::{data, fixups, profile, record_data, records, start_reference, table};
use crate::rows::{
    CommentRow, DataRow, ExternalRow, FixupRow, GroupRow, HeaderRow, MemberRow, PublicRow,
    RecordRow, SegmentRow, StartReferenceRow,
};
use std::alloc::Global;

/// Hands out the records of the module at the start of the bytes: the type of each, and where it is; the one with number n is row n. At status 0
/// the rows are at the start of the buffer.
#[unsafe(no_mangle)]
pub extern "C" fn omf_records(
    alloc: Global,
    bytes: &[u8],
    refuse_vendor_comments: bool,
    out: &mut [RecordRow],
) -> Answer
    ensures { IsAnswered (IsTextOf record_rows (record { refuse_vendor_comments = refuse_vendor_comments }) bytes.now) result out.old out.new }
{
    match records(alloc, profile(refuse_vendor_comments), bytes) {
        Ok(rows) => hand_out(&rows, out),
        Err(fault) => fault_answer(fault),
    }
}

/// Hands out the headers of the module at the start of the bytes: the first is the one of the module, with its name. At status 0 the rows are at the
/// start of the buffer.
#[unsafe(no_mangle)]
pub extern "C" fn omf_headers(
    alloc: Global,
    bytes: &[u8],
    refuse_vendor_comments: bool,
    out: &mut [HeaderRow],
) -> Answer
    ensures { IsAnswered (IsTextOf (table_of header_rows) (record { refuse_vendor_comments = refuse_vendor_comments }) bytes.now) result out.old out.new }
{
    match table(alloc, profile(refuse_vendor_comments), bytes) {
        Ok(rows) => hand_out(&rows, out),
        Err(fault) => fault_answer(fault),
    }
}

/// Hands out the comments of the module at the start of the bytes, in file order. At status 0 the rows are at the start of the buffer.
#[unsafe(no_mangle)]
pub extern "C" fn omf_comments(
    alloc: Global,
    bytes: &[u8],
    refuse_vendor_comments: bool,
    out: &mut [CommentRow],
) -> Answer
    ensures { IsAnswered (IsTextOf (table_of comment_rows) (record { refuse_vendor_comments = refuse_vendor_comments }) bytes.now) result out.old out.new }
{
    match table(alloc, profile(refuse_vendor_comments), bytes) {
        Ok(rows) => hand_out(&rows, out),
        Err(fault) => fault_answer(fault),
    }
}

/// Hands out the segments of the module at the start of the bytes; the one with index i is row i - 1. At status 0 the rows are at the start of the
/// buffer.
#[unsafe(no_mangle)]
pub extern "C" fn omf_segments(
    alloc: Global,
    bytes: &[u8],
    refuse_vendor_comments: bool,
    out: &mut [SegmentRow],
) -> Answer
    ensures { IsAnswered (IsTextOf (table_of segment_rows) (record { refuse_vendor_comments = refuse_vendor_comments }) bytes.now) result out.old out.new }
{
    match table(alloc, profile(refuse_vendor_comments), bytes) {
        Ok(rows) => hand_out(&rows, out),
        Err(fault) => fault_answer(fault),
    }
}

/// Hands out the groups of the module at the start of the bytes; the one with index i is row i - 1. At status 0 the rows are at the start of the
/// buffer.
#[unsafe(no_mangle)]
pub extern "C" fn omf_groups(
    alloc: Global,
    bytes: &[u8],
    refuse_vendor_comments: bool,
    out: &mut [GroupRow],
) -> Answer
    ensures { IsAnswered (IsTextOf (table_of group_rows) (record { refuse_vendor_comments = refuse_vendor_comments }) bytes.now) result out.old out.new }
{
    match table(alloc, profile(refuse_vendor_comments), bytes) {
        Ok(rows) => hand_out(&rows, out),
        Err(fault) => fault_answer(fault),
    }
}

/// Hands out the members of all groups of the module at the start of the bytes, one group after another. At status 0 the rows are at the start of the
/// buffer.
#[unsafe(no_mangle)]
pub extern "C" fn omf_group_members(
    alloc: Global,
    bytes: &[u8],
    refuse_vendor_comments: bool,
    out: &mut [MemberRow],
) -> Answer
    ensures { IsAnswered (IsTextOf (table_of member_rows) (record { refuse_vendor_comments = refuse_vendor_comments }) bytes.now) result out.old out.new }
{
    match table(alloc, profile(refuse_vendor_comments), bytes) {
        Ok(rows) => hand_out(&rows, out),
        Err(fault) => fault_answer(fault),
    }
}

/// Hands out the external names of the module at the start of the bytes; the one with index i is row i - 1. At status 0 the rows are at the start of the
/// buffer.
#[unsafe(no_mangle)]
pub extern "C" fn omf_externals(
    alloc: Global,
    bytes: &[u8],
    refuse_vendor_comments: bool,
    out: &mut [ExternalRow],
) -> Answer
    ensures { IsAnswered (IsTextOf (table_of external_rows) (record { refuse_vendor_comments = refuse_vendor_comments }) bytes.now) result out.old out.new }
{
    match table(alloc, profile(refuse_vendor_comments), bytes) {
        Ok(rows) => hand_out(&rows, out),
        Err(fault) => fault_answer(fault),
    }
}

/// Hands out the public names of the module at the start of the bytes, in file order. At status 0 the rows are at the start of the
/// buffer.
#[unsafe(no_mangle)]
pub extern "C" fn omf_publics(
    alloc: Global,
    bytes: &[u8],
    refuse_vendor_comments: bool,
    out: &mut [PublicRow],
) -> Answer
    ensures { IsAnswered (IsTextOf (table_of public_rows) (record { refuse_vendor_comments = refuse_vendor_comments }) bytes.now) result out.old out.new }
{
    match table(alloc, profile(refuse_vendor_comments), bytes) {
        Ok(rows) => hand_out(&rows, out),
        Err(fault) => fault_answer(fault),
    }
}

/// Hands out the fixups of the module at the start of the bytes, in file order, with their threads resolved. At status 0 the rows are at the start of the
/// buffer.
#[unsafe(no_mangle)]
pub extern "C" fn omf_fixups(
    alloc: Global,
    bytes: &[u8],
    refuse_vendor_comments: bool,
    out: &mut [FixupRow],
) -> Answer
    ensures { IsAnswered (IsTextOf fixup_rows (record { refuse_vendor_comments = refuse_vendor_comments }) bytes.now) result out.old out.new }
{
    match fixups(alloc, profile(refuse_vendor_comments), bytes) {
        Ok(rows) => hand_out(&rows, out),
        Err(fault) => fault_answer(fault),
    }
}

/// Hands out the data records of the module at the start of the bytes, in file order, before relocation. At status 0 the rows are at the start of the
/// buffer.
#[unsafe(no_mangle)]
pub extern "C" fn omf_data(
    alloc: Global,
    bytes: &[u8],
    refuse_vendor_comments: bool,
    out: &mut [DataRow],
) -> Answer
    ensures { IsAnswered (IsTextOf data_rows (record { refuse_vendor_comments = refuse_vendor_comments }) bytes.now) result out.old out.new }
{
    match data(alloc, profile(refuse_vendor_comments), bytes) {
        Ok(rows) => hand_out(&rows, out),
        Err(fault) => fault_answer(fault),
    }
}

/// Hands out the bytes of the data record with a number, of the module at the start of the bytes, before relocation: the data of an LEDATA, or what the
/// blocks of an LIDATA expand to; nothing if the record is no data record, or there is none. At status 0 they are at the start of the buffer.
#[unsafe(no_mangle)]
pub extern "C" fn omf_data_bytes(
    alloc: Global,
    bytes: &[u8],
    refuse_vendor_comments: bool,
    number: u32,
    out: &mut [u8],
) -> Answer
    ensures { IsAnswered (IsTextOf (data_bytes number) (record { refuse_vendor_comments = refuse_vendor_comments }) bytes.now) result out.old out.new }
{
    match record_data(alloc, profile(refuse_vendor_comments), bytes, number) {
        Ok(text) => hand_out(&text, out),
        Err(fault) => fault_answer(fault),
    }
}

/// Hands out the end of the module at the start of the bytes: whether it is a main module, and its start as a reference with its threads resolved,
/// before relocation. At status 0 the one row is at the start of the buffer.
#[unsafe(no_mangle)]
pub extern "C" fn omf_start_reference(
    alloc: Global,
    bytes: &[u8],
    refuse_vendor_comments: bool,
    out: &mut [StartReferenceRow],
) -> Answer
    ensures { IsAnswered (IsTextOf start_references (record { refuse_vendor_comments = refuse_vendor_comments }) bytes.now) result out.old out.new }
{
    match start_reference(alloc, profile(refuse_vendor_comments), bytes) {
        Ok(rows) => hand_out(&rows, out),
        Err(fault) => fault_answer(fault),
    }
}
