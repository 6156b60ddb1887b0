//! The text that each call makes of the module at the start of some bytes.

ghost use Rattle.std.specs.Prelude.{◌≡◌, IfOk, IfErr};
ghost use Rattle.omf_canon.specs.Canonical.{canonical};
ghost use Rattle.omf_check.specs.Module.{recs_of, records_in};
ghost use Rattle.omf_check.specs.WellFormed.{recs};
ghost use Rattle.omf_cmd.specs.Listing.{list_text};
ghost use Rattle.omf_records.specs.Inner.Seen.{map_ok};
ghost use Rattle.omf_cmd.specs.declared.fault.RunFault.TheVariants.{Memory};
ghost use Rattle.omf_c.specs.Data.{data_bytes, data_rows};
ghost use Rattle.omf_c.specs.Fixups.{fixup_rows};
ghost use Rattle.omf_c.specs.Records.{record_rows};
ghost use Rattle.omf_c.specs.Starts.{start_references};
ghost use Rattle.omf_c.specs.Tables.{table_of};
ghost use Rattle.omf_c.specs.Making.{IsMade, IsModule, IsTextOf, IsPlacedText};

use crate::data::{bytes_of, data_of};
use crate::fixups::fixups_of;
use crate::records::records_of;
use crate::rows::{DataRow, FixupRow, RecordRow, StartReferenceRow};
use crate::starts::start_of;
use crate::table::{Row, table_of};
use omf_canon::canon;
use omf_check::{CheckFault, Checked, Profile, check};
use omf_cmd::{Gathered, Listing, RunFault, print_list};
use omf_frame::Bytes;
use std::alloc::Global;

/// The profile for the caller's flag.
pub(crate) fn profile(refuse_vendor_comments: bool) -> Profile
    ensures { result ≡ record { refuse_vendor_comments = refuse_vendor_comments } }
{
    Profile {
        refuse_vendor_comments,
    }
}

/// The module at the start of the bytes.
pub(crate) fn module_of(alloc: Global, profile: Profile, bytes: &[u8]) -> Result<Checked, RunFault>
    ensures { IsModule profile bytes.now result }
{
    match check(alloc, &mut Bytes::new(bytes), profile) {
        Ok(checked) => Ok(checked),
        Err(CheckFault::Memory) => Err(RunFault::Memory),
        Err(CheckFault::Read) => unreachable!(),
        Err(CheckFault::Refused { reason, place }) => Err(RunFault::Refused { reason, place }),
    }
}

/// The listing of a module, as `omf list` prints it.
fn listed_module(alloc: Global, checked: &Checked) -> Result<Vec<u8>, RunFault>
    ensures ok { IfOk result (λ v. v.items ≡ list_text (records_in checked.now.bytes)) }
    ensures err { IfErr result (λ e. e ≡ Memory) }
{
    let mut gathered = Gathered::new(alloc);
    match print_list(alloc, checked, &mut gathered) {
        Ok(()) => Ok(gathered.text),
        Err(_) => Err(RunFault::Memory),
    }
}

/// The listing of the module at the start of the bytes.
pub(crate) fn listed(alloc: Global, profile: Profile, bytes: &[u8]) -> Result<Vec<u8>, RunFault>
    ensures { IsTextOf list_text profile bytes.now (map_ok (λ v. v.items) result) }
{
    let checked = module_of(alloc, profile, bytes)?;
    listed_module(alloc, &checked)
}

/// The canonical bytes of the module at the start of the bytes.
pub(crate) fn canonical(alloc: Global, profile: Profile, bytes: &[u8]) -> Result<Vec<u8>, RunFault>
    ensures { IsTextOf (λ records. canonical (recs records)) profile bytes.now (map_ok (λ v. v.items) result) }
{
    let checked = module_of(alloc, profile, bytes)?;
    Ok(canon(alloc, &checked)?)
}

/// A table of the module at the start of the bytes.
pub(crate) fn table<T: Row>(
    alloc: Global,
    profile: Profile,
    bytes: &[u8],
) -> Result<Vec<T>, RunFault>
    ensures { IsTextOf (table_of T.given) profile bytes.now (map_ok (λ v. v.items) result) }
{
    let checked = module_of(alloc, profile, bytes)?;
    Ok(table_of::<T>(alloc, &checked)?)
}

/// The fixups of the module at the start of the bytes.
pub(crate) fn fixups(
    alloc: Global,
    profile: Profile,
    bytes: &[u8],
) -> Result<Vec<FixupRow>, RunFault>
    ensures { IsTextOf fixup_rows profile bytes.now (map_ok (λ v. v.items) result) }
{
    let checked = module_of(alloc, profile, bytes)?;
    Ok(fixups_of(alloc, &checked)?)
}

/// The records of the module at the start of the bytes.
pub(crate) fn records(
    alloc: Global,
    profile: Profile,
    bytes: &[u8],
) -> Result<Vec<RecordRow>, RunFault>
    ensures { IsTextOf record_rows profile bytes.now (map_ok (λ v. v.items) result) }
{
    let checked = module_of(alloc, profile, bytes)?;
    Ok(records_of(alloc, &checked)?)
}

/// The data records of the module at the start of the bytes.
pub(crate) fn data(alloc: Global, profile: Profile, bytes: &[u8]) -> Result<Vec<DataRow>, RunFault>
    ensures { IsTextOf data_rows profile bytes.now (map_ok (λ v. v.items) result) }
{
    let checked = module_of(alloc, profile, bytes)?;
    Ok(data_of(alloc, &checked)?)
}

/// The bytes of the record with a number, of the module at the start of the bytes; none if it is no data record.
pub(crate) fn record_data(
    alloc: Global,
    profile: Profile,
    bytes: &[u8],
    number: u32,
) -> Result<Vec<u8>, RunFault>
    ensures { IsTextOf (data_bytes number) profile bytes.now (map_ok (λ v. v.items) result) }
{
    let checked = module_of(alloc, profile, bytes)?;
    Ok(bytes_of(alloc, &checked, number)?)
}

/// The start, before relocation, of the module at the start of the bytes.
pub(crate) fn start_reference(
    alloc: Global,
    profile: Profile,
    bytes: &[u8],
) -> Result<Vec<StartReferenceRow>, RunFault>
    ensures { IsTextOf start_references profile bytes.now (map_ok (λ v. v.items) result) }
{
    let checked = module_of(alloc, profile, bytes)?;
    Ok(start_of(alloc, &checked)?)
}

/// The listing of a module's image at the placement that a text gives.
fn relocated_module(alloc: Global, checked: &Checked, text: &[u8]) -> Result<Vec<u8>, RunFault>
    ensures { IsMade (recs_of checked.now.bytes) text.now (map_ok (λ v. v.items) result) }
{
    let listing = Listing::of(alloc, checked, text)?;
    let mut gathered = Gathered::new(alloc);
    match listing.print(alloc, &mut gathered) {
        Ok(()) => Ok(gathered.text),
        Err(_) => Err(RunFault::Memory),
    }
}

/// The listing of the image of the module at the start of the bytes, at the placement that a text gives.
pub(crate) fn relocated(
    alloc: Global,
    profile: Profile,
    bytes: &[u8],
    text: &[u8],
) -> Result<Vec<u8>, RunFault>
    ensures { IsPlacedText profile bytes.now text.now (map_ok (λ v. v.items) result) }
{
    let checked = module_of(alloc, profile, bytes)?;
    relocated_module(alloc, &checked, text)
}
