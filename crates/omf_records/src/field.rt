//! Reading fields of a record's contents.
ghost use Rattle.std.specs.Prelude.{◌≡◌, ℕ, ◌+◌, ◌-◌, ◌*◌, ◌<◌, ◌≤◌, length, drop, take, List, cond};
ghost use Rattle.omf_records.specs.Inner.Gives.{Gives, GivesField};
ghost use Rattle.omf_records.specs.Inner.FieldReaders.{name_read, index_read, byte_read, le_read, length_read, number_reader};
ghost use Rattle.omf_records.specs.Layout.{length_reason};
ghost use Rattle.omf_records.specs.Inner.Readers.{index_at, number_at};

use crate::at::{At, LayoutFault};
use crate::here::Here;
use omf_frame::{CommunalLength, Field, Index, Le16, Le32, Name, Reason};

/// Reads a field.
#[inline(always)]
fn field<'a, F: Field<'a>>(here: Here<'a>) -> Result<(F, Here<'a>), LayoutFault>
    ensures { GivesField F.spells here.entry.wide here.entry.within here.entry.bytes.now result }
{
    match F::read_at(here.bytes(), 0) {
        Some((value, len)) => Ok((value, here.pass(len))),
        None => Err(here.fault(Reason::Short)),
    }
}

#[inline(always)]
pub(crate) fn name<'a>(here: Here<'a>) -> Result<(Name<'a>, Here<'a>), LayoutFault>
    ensures { Gives here.entry.wide result (name_read here.entry.within here.entry.bytes.now) }
{
    field::<Name<'a>>(here)
}

#[inline(always)]
pub(crate) fn index<'a>(here: Here<'a>) -> Result<(Index, Here<'a>), LayoutFault>
    ensures { Gives here.entry.wide result (index_read here.entry.within here.entry.bytes.now) }
{
    field::<Index>(here)
}

/// Reads a number of 2 bytes.
#[inline(always)]
pub(crate) fn le16<'a>(here: Here<'a>) -> Result<(u16, Here<'a>), LayoutFault>
    ensures { Gives here.entry.wide result (le_read 2 here.entry.within here.entry.bytes.now) }
{
    match field::<Le16>(here) {
        Ok((Le16(value), after)) => Ok((value, after)),
        Err(fault) => Err(fault),
    }
}

/// Reads a number of 4 bytes.
#[inline(always)]
fn le32<'a>(here: Here<'a>) -> Result<(u32, Here<'a>), LayoutFault>
    ensures { Gives here.entry.wide result (le_read 4 here.entry.within here.entry.bytes.now) }
{
    match field::<Le32>(here) {
        Ok((Le32(value), after)) => Ok((value, after)),
        Err(fault) => Err(fault),
    }
}

/// Reads a number of the record's width: 32 bits, or 16.
#[inline(always)]
pub(crate) fn number<'a>(here: Here<'a>) -> Result<(u32, Here<'a>), LayoutFault>
    ensures { Gives here.entry.wide result ((number_reader here.entry.wide).read here.entry.within here.entry.bytes.now) }
{
    if here.is_wide() {
        return le32(here);
    }
    let (value, after) = le16(here)?;
    Ok((u32::from(value), after))
}

/// The fault of bytes that do not begin with a communal length.
fn length_fault(bytes: &[u8]) -> Reason
    ensures { result ≡ length_reason bytes.now }
{
    match bytes {
        [] | [0..=128 | 0x81 | 0x84 | 0x88, ..] => Reason::Short,
        _ => Reason::CommunalLength,
    }
}

pub(crate) fn communal_length<'a>(here: Here<'a>) -> Result<(u32, Here<'a>), LayoutFault>
    ensures { Gives here.entry.wide result (length_read here.entry.within here.entry.bytes.now) }
{
    match field::<CommunalLength>(here) {
        Ok((CommunalLength(length), after)) => Ok((length, after)),
        Err(_) => Err(here.fault(length_fault(here.bytes()))),
    }
}

/// Reads an index, with its offset in the record.
#[inline(always)]
pub(crate) fn index_here<'a>(here: Here<'a>) -> Result<(At<Index>, Here<'a>), LayoutFault>
    ensures { Gives here.entry.wide result (index_at.read here.entry.within here.entry.bytes.now) }
{
    let (item, after) = index(here)?;
    let within = here.within();
    Ok((At { within, item }, after))
}

/// Reads a number of the record's width, with its offset in the record.
pub(crate) fn number_here<'a>(here: Here<'a>) -> Result<(At<u32>, Here<'a>), LayoutFault>
    ensures { Gives here.entry.wide result ((number_at here.entry.wide).read here.entry.within here.entry.bytes.now) }
{
    let (item, after) = number(here)?;
    let within = here.within();
    Ok((At { within, item }, after))
}

/// Reads one byte.
#[inline(always)]
pub(crate) fn byte<'a>(here: Here<'a>) -> Result<(u8, Here<'a>), LayoutFault>
    ensures { Gives here.entry.wide result (byte_read here.entry.within here.entry.bytes.now) }
{
    match here.bytes() {
        [first, ..] => Ok((*first, here.pass(1))),
        [] => Err(here.fault(Reason::Short)),
    }
}
