//! The modules of files.

ghost use Rattle.std.specs.Prelude.{◌≡◌, ◌++◌, ◌<◌, ◌≤◌, ◌^◌, IfErr, IfOk, Ok, OnOk, length, string_bytes};
ghost use Rattle.omf_check.specs.declared.profile.Profile.{Profile};
ghost use Rattle.omf_records.specs.Inner.Seen.{map_ok};
ghost use Rattle.omf_linking.specs.Files.{AreFiles, IsFile};
ghost use Rattle.omf_linking.specs.Inner.Gathering.{IsGathered};
ghost use Rattle.omf_linking.specs.Reading.{AreModules};
ghost use Rattle.omf_linking.specs.declared.fault.LinkFault.TheVariants.{Memory};

use crate::fault::{FileFault, LinkFault};
use crate::reading::modules_in;
use omf_check::{Checked, Profile};
use std::alloc::Global;
use std::marker::Model;

/// A file: its name and its bytes.
#[derive(Drop)]
pub struct InputFile {
    name: String,
    bytes: Vec<u8>,
}

impl Model for InputFile {
    ghost use Rattle.std.specs.Prelude.{string_bytes};
    ghost use Rattle.omf_linking.specs.File.{InputFile as Seen};

    ghost Value = { Seen };

    ghost view = { λ f. record { name = string_bytes f.name; bytes = f.bytes.items } };
}

impl InputFile {
    /// Makes a file of its name and its bytes.
    pub fn new(name: String, bytes: Vec<u8>) -> InputFile
        ensures name { result.name ≡ string_bytes name }
        ensures bytes { result.bytes ≡ bytes.items }
    {
        InputFile { name, bytes }
    }

    /// Returns the name.
    pub fn name(&self) -> &[u8]
        ensures { result.now ≡ self.now.name }
    {
        self.name.as_bytes()
    }

    /// Returns the bytes.
    pub fn bytes(&self) -> &[u8]
        ensures { result.now ≡ self.now.bytes }
    {
        &self.bytes
    }
}

/// Returns the modules of a file, if nothing is left after them and their padding.
///
/// # Errors
///
/// `NoText` with the offset of what is left.
fn alone(bytes: &[u8], modules: Vec<Checked>, rest: &[u8]) -> Result<Vec<Checked>, LinkFault>
    requires { length rest.now ≤ length bytes.now }
    ensures { (profile : Profile) → AreModules profile bytes.now (Ok (modules.items, rest.now)) → IsFile profile bytes.now (map_ok (λ v. v.items) result) }
{
    match rest {
        [] => Ok(modules),
        [_, ..] => Err(LinkFault::NoText((bytes.len() - rest.len()) as u64)),
    }
}

/// Reads the modules of a file: one at least, each with the padding after it, up to the end.
///
/// # Errors
///
/// `Refused` for the first module that is not well formed. `NoText` if something else is left after the modules and their padding. `Memory`
/// if memory runs out.
pub fn file_modules(
    alloc: Global,
    profile: Profile,
    bytes: &[u8],
) -> Result<Vec<Checked>, LinkFault>
    ensures { IsFile profile bytes.now (map_ok (λ v. v.items) result) }
{
    match modules_in(alloc, profile, bytes) {
        Ok((modules, rest)) => alone(bytes, modules, rest),
        Err(fault) => Err(fault),
    }
}

/// Moves modules to the end of others.
fn move_all(own: Vec<Checked>, modules: &mut Vec<Checked>) -> Result<(), LinkFault>
    ensures moved { OnOk result (modules.new.items ≡ modules.old.items ++ own.items) }
    ensures cause { IfErr result (λ fault. fault ≡ Memory) }
{
    let mut left = own.into_iter();
    while let Some(module) = left.next() {
        modules.push(module)?;
    }
    Ok(())
}

/// Moves modules to the end of others, if there are at most 4,294,967,295 then.
fn add(own: Vec<Checked>, modules: &mut Vec<Checked>) -> Result<(), LinkFault>
    ensures moved { OnOk result (modules.new.items ≡ modules.old.items ++ own.items) }
    ensures few { OnOk result (length modules.new.items < 2 ^ 32) }
    ensures cause { IfErr result (λ fault. fault ≡ Memory) }
{
    move_all(own, modules)?;
    if modules.len() > u32::MAX as usize {
        return Err(LinkFault::Memory);
    }
    Ok(())
}

/// Adds the modules of a file to those before it.
///
/// # Errors
///
/// Those of `file_modules`. `Memory` if memory runs out, or if there are more than 4,294,967,295 modules.
fn gather(
    alloc: Global,
    profile: Profile,
    bytes: &[u8],
    modules: &mut Vec<Checked>,
) -> Result<(), LinkFault>
    ensures { IsGathered profile bytes.now modules.old.items modules.new.items result }
{
    match file_modules(alloc, profile, bytes) {
        Ok(own) => add(own, modules),
        Err(fault) => Err(fault),
    }
}

/// Reads the modules of files, in the order of the files. A file holds modules, one at least, each with the padding after it, and nothing
/// else: padding is bytes of one value, 00H or 1AH.
///
/// # Errors
///
/// The first file that does not: with `Refused` for its first module that is not well formed, with `NoText` for what else it holds. With
/// `Memory` if memory runs out, or if there are more than 4,294,967,295 modules.
pub fn modules_of_files(
    alloc: Global,
    profile: Profile,
    files: &[InputFile],
) -> Result<Vec<Checked>, FileFault>
    ensures modules { AreFiles profile files.now (map_ok (λ v. v.items) result) }
    ensures few { IfOk result (λ v. length v.items < 2 ^ 32) }
{
    let mut modules = Vec::new(alloc);
    for (file, input) in files.iter().enumerate() {
        match gather(alloc, profile, input.bytes(), &mut modules) {
            Ok(()) => {}
            Err(fault) => return Err(FileFault { file, fault }),
        }
    }
    Ok(modules)
}
