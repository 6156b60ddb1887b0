//! The modules and the text of an input.

ghost use Rattle.std.specs.Prelude.{◌≡◌, ◌+◌, ◌*◌, ◌<◌, ◌≤◌, ◌^◌, IfErr, IfOk, length};
ghost use Rattle.std.specs.Io.KnownBytes.{Consumes, IsAtEnd};
ghost use Rattle.omf_records.specs.Inner.Seen.{map_ok};
ghost use Rattle.omf_linking.specs.Reading.{AreModules, IsModuleAt, IsPartRead, IsReadCause};

use crate::after::{begins_module, is_text, unpadded};
use crate::fault::LinkFault;
use omf_check::{CheckFault, Checked, Profile, check};
use omf_frame::{Bytes, Source, pull_piece};
use std::alloc::Global;

/// The number of bytes to ask for at once.
const PIECE: usize = 65_536;

/// Reads the rest of the input.
///
/// # Errors
///
/// `Read` if the reader failed, or was interrupted 1,000 times in a row. `Memory` if memory ran out and the reader did not fail. Part of
/// the input was then read.
pub fn read_all<S: Source>(alloc: Global, source: &mut S) -> Result<Vec<u8>, LinkFault>
    ensures read { IfOk result (λ bytes. Consumes (S.seen source.old).bytes (S.seen source.new).bytes bytes.items) }
    ensures end { IfOk result (λ bytes. IsAtEnd (S.seen source.new).bytes) }
    // At most a thousand failures are passed over before each byte, and before the end.
    ensures bounded { IfOk result (λ bytes. (S.seen source.new).failures ≤ (S.seen source.old).failures + 1000 * (length bytes.items + 1)) }
    ensures part { IfErr result (λ fault. IsPartRead (S.seen source.old).bytes (S.seen source.new).bytes) }
    ensures cause { IsReadCause (S.seen source.old) (S.seen source.new) result }
{
    let mut buffer = [0; PIECE];
    let mut bytes = Vec::new(alloc);
    for _ in 0..u64::MAX {
        let Ok(count) = pull_piece(source, &mut buffer) else {
            return Err(LinkFault::Read);
        };
        if count == 0 {
            return Ok(bytes);
        }
        bytes.extend_from_slice(&buffer[..count])?;
    }
    Err(LinkFault::Memory)
}

/// Checks the module that bytes begin with; `number` is its number.
///
/// # Errors
///
/// `Refused` if they do not begin with a well-formed module. `Memory` if memory runs out.
fn module_at(
    alloc: Global,
    profile: Profile,
    number: u32,
    bytes: &[u8],
) -> Result<Checked, LinkFault>
    ensures { IsModuleAt profile number bytes.now result }
{
    match check(alloc, &mut Bytes::new(bytes), profile) {
        Ok(module) => Ok(module),
        Err(CheckFault::Memory) => Err(LinkFault::Memory),
        Err(CheckFault::Read) => unreachable!(),
        Err(CheckFault::Refused { reason, place }) => {
            let module = number;
            Err(LinkFault::Refused {
                module,
                reason,
                place,
            })
        }
    }
}

/// Reads the modules that an input begins with, one after another, and returns them with the text after them. There must be at least one
/// module. After each module padding is dropped: bytes of one value, 00H or 1AH. Another module follows if the next byte is then 80H or 82H;
/// else all that is left is the text, possibly none.
///
/// # Errors
///
/// `Refused` for the first module that is not well formed. `NoText` if what is left after the modules and their padding has a control
/// character and so is no text. `Memory` if memory runs out, or if another module follows 4,294,967,295 modules.
pub fn modules_in(
    alloc: Global,
    profile: Profile,
    input: &[u8],
) -> Result<(Vec<Checked>, &[u8]), LinkFault>
    ensures modules { AreModules profile input.now (map_ok (λ r. (r.0.items, r.1.now)) result) }
    ensures few { IfOk result (λ r. length r.0.items < 2 ^ 32) }
    ensures within { IfOk result (λ r. length r.1.now ≤ length input.now) }
{
    let mut modules = Vec::new(alloc);
    let mut rest = input;
    for number in 0..u32::MAX {
        let module = module_at(alloc, profile, number, rest)?;
        rest = unpadded(rest.split_at(module.bytes().len()).1);
        modules.push(module)?;
        if !begins_module(rest) {
            if !is_text(rest) {
                return Err(LinkFault::NoText((input.len() - rest.len()) as u64));
            }
            return Ok((modules, rest));
        }
    }
    Err(LinkFault::Memory)
}
