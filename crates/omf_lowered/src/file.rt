//! The modules of a file, lowered.

ghost use Rattle.std.specs.Prelude.{◌≡◌, ◌≤◌, length, IfErr, IfOk};
ghost use Rattle.omf_lowered.specs.Files.{IsRestAfter, IsFileFault, IsLoweredFile, IsPlaceInFile, begins_module, unpadded, without};
ghost use Rattle.omf_lowered.specs.Inner.FileState.{IsAppended, in_module};
ghost use Rattle.omf_lowered.specs.Modules.{IsModuleFault};

use crate::fault::FileFault;
use crate::module::lowered_module;
use crate::place::place_in;
use omf_frame::Place;
use omf_lowering::LoweringFault;
use std::alloc::{AllocError, Global};

/// Bytes without those of this value at their front.
fn without(bytes: &[u8], value: u8) -> &[u8]
    ensures rest { result.now ≡ without value bytes.now }
    ensures within { length result.now ≤ length bytes.now }
{
    let mut left = bytes;
    while let Some((first, rest)) = left.split_first() {
        if *first != value {
            return left;
        }
        left = rest;
    }
    left
}

/// Bytes without the padding at their front: bytes of one value, 00H or 1AH.
fn unpadded(bytes: &[u8]) -> &[u8]
    ensures rest { result.now ≡ unpadded bytes.now }
    ensures within { length result.now ≤ length bytes.now }
{
    match bytes {
        [0x00, ..] => without(bytes, 0x00),
        [0x1A, ..] => without(bytes, 0x1A),
        _ => bytes,
    }
}

/// Whether bytes begin with the type of a THEADR or LHEADR, and so with another module.
fn begins_module(bytes: &[u8]) -> bool
    ensures { result ≡ begins_module bytes.now }
{
    match bytes {
        [kind, ..] => *kind == 0x80 || *kind == 0x82,
        [] => false,
    }
}

/// Lowers the first module of `bytes` and appends it. Returns what is left after the module and its padding.
#[tactic(auto, using(crate::proofs::ModuleLaws::rest_is_left))]
fn append_module<'a>(
    alloc: Global,
    out: &mut Vec<u8>,
    bytes: &'a [u8],
) -> Result<&'a [u8], LoweringFault>
    ensures ok { IfOk result (λ left. IsAppended bytes.entry.now out.old.items out.new.items left.now) }
    ensures err { IfErr result (IsModuleFault bytes.entry.now) }
{
    let module = match lowered_module(alloc, bytes) {
        Ok(module) => module,
        Err(fault) => return Err(fault),
    };
    match out.extend_from_slice(&module.bytes) {
        Ok(()) => Ok(unpadded(module.rest)),
        Err(_) => Err(LoweringFault::Memory),
    }
}

/// The fault of the module with this number in its file.
fn in_module(fault: LoweringFault, number: u32) -> FileFault
    ensures { result ≡ in_module fault number }
{
    match fault {
        LoweringFault::Memory => FileFault::Memory,
        LoweringFault::Refused { reason, place } => FileFault::Refused {
            module: number,
            reason,
            place,
        },
    }
}

/// The modules of a file, each lowered as by `lowered_module`, one after another. The padding after a module is left out: bytes of one value, 00H or 1AH.
///
/// # Errors
///
/// `Refused` for the first module with a fault; `NoModule` if something else follows the modules and their padding; `Memory` if memory runs out, or if
/// another module follows 4,294,967,295 modules.
pub fn lowered_file(alloc: Global, bytes: &[u8]) -> Result<Vec<u8>, FileFault>
    ensures ok { IfOk result (λ out. IsLoweredFile bytes.now out.items) }
    ensures err { IfErr result (IsFileFault bytes.now) }
{
    let mut out = Vec::new(alloc);
    let mut left = bytes;
    for number in 0..u32::MAX {
        match append_module(alloc, &mut out, left) {
            Ok(rest) => left = rest,
            Err(fault) => return Err(in_module(fault, number)),
        }
        if left.is_empty() {
            return Ok(out);
        }
        if !begins_module(left) {
            let at = bytes.len().saturating_sub(left.len());
            return Err(FileFault::NoModule(at as u64));
        }
    }
    Err(FileFault::Memory)
}

/// What is left of a file after this many modules and their padding.
#[tactic(auto, using(crate::proofs::FileLaws::rest_after_none))]
fn rest_after(alloc: Global, bytes: &[u8], count: u32) -> Result<&[u8], AllocError>
    ensures { IfOk result (λ rest. IsRestAfter bytes.entry.now count rest.now) }
{
    let mut left = bytes;
    for _number in 0..count {
        match lowered_module(alloc, left) {
            Ok(module) => left = unpadded(module.rest),
            Err(_) => return Err(AllocError),
        }
    }
    Ok(left)
}

/// The place in a file's module, which has this number from 0, for a place in its lowering, as by `place_in`.
///
/// # Errors
///
/// `AllocError` if memory runs out. The module and those before it have lowerings, so that no place but for memory is lost.
pub fn place_in_file(
    alloc: Global,
    bytes: &[u8],
    number: u32,
    there: Place,
) -> Result<Option<Place>, AllocError>
    ensures { IfOk result (IsPlaceInFile bytes.now number there) }
{
    let begun = rest_after(alloc, bytes, number)?;
    match lowered_module(alloc, begun) {
        Ok(module) => place_in(alloc, begun, &module.bytes, there),
        Err(_) => Err(AllocError),
    }
}
