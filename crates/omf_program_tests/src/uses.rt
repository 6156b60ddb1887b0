//! Four uses of the libraries, each in a dozen lines: a file is judged, a boot sector is relocated, a module gets a key, and two modules are
//! linked by their public names.

ghost use Rattle.std.specs.Prelude.{◌≡◌, List, ℕ, Some, IfOk, length, string_bytes};
ghost use Rattle.omf_canon.specs.Canonical.{canonical};
ghost use Rattle.omf_check.specs.Module.{recs_of, typed_modules};
ghost use Rattle.omf_linking.specs.Placing.{IsOutcome, linked};
ghost use Rattle.omf_records.specs.Inner.Seen.{map_ok};
ghost use Rattle.omf_program_tests.specs.Uses.{boot_place, IsBootImage, IsVerdict};
ghost use Rattle.sha2.specs.Sha256.{sha256};

use omf_canon::canon;
use omf_check::{Checked, Profile, check};
use omf_cmd::{RunFault, fault_line};
use omf_frame::Source;
use omf_image::Image;
use omf_linking::{LinkFault, LinkedPlaces, link};
use omf_reloc::{Frame, Placement, reach, relocate};
use sha2::{Digest, Sha256};
use std::alloc::{AllocError, Global};

/// The verdict on a file: `OK` if it begins with a well-formed module, or else the reason and the place of the fault.
pub fn verdict<S: Source>(alloc: Global, file: &mut S) -> Result<String, AllocError>
    ensures { (input : List ℕ) → (S.seen file.old).bytes ≡ Some input → IfOk result (λ line. IsVerdict (S.seen file.old) (S.seen file.new) input (string_bytes line)) }
{
    let profile = Profile {
        refuse_vendor_comments: false,
    };
    match check(alloc, file, profile) {
        Ok(_module) => String::from_str(alloc, "OK"),
        Err(fault) => fault_line(alloc, &RunFault::from(fault)),
    }
}

/// A placement of one segment at 7C00H, in the frame with base 0.
fn boot_place(alloc: Global) -> Result<Placement, AllocError>
    ensures { IfOk result (λ placement. placement ≡ boot_place) }
{
    let frame = Frame {
        base: 0,
        selector: 0,
    };
    let mut placement = Placement::new(alloc);
    placement.push_segment(0x7C00, frame)?;
    Ok(placement)
}

/// The image of a boot sector: a module with one segment, at 7C00H in the frame with base 0, and with no groups and no externals.
///
/// # Errors
///
/// `Reach` if the module is of another form or a reference does not reach. `Memory` if memory runs out.
pub fn boot_image(alloc: Global, module: &Checked) -> Result<Image, RunFault>
    ensures { IsBootImage (recs_of «module».now.bytes) result }
{
    let placement = boot_place(alloc)?;
    reach(module, &placement)?;
    Ok(relocate(alloc, module, &placement)?)
}

/// The SHA-256 of a module's canonical bytes. Modules that differ only in encodings, checksums, threads or the division of fixups into
/// FIXUPPs have the same key.
pub fn key(alloc: Global, module: &Checked) -> Result<[u8; 32], AllocError>
    ensures { IfOk result (λ key. key ≡ sha256 (canonical (recs_of «module».now.bytes))) }
{
    let bytes = canon(alloc, module)?;
    let mut hasher = Sha256::new();
    hasher.update(bytes.as_slice());
    Ok(hasher.finalize())
}

/// The placements of two modules by the addresses of their segments: an external of one has the place of the other's public of that name.
pub fn link_two(
    alloc: Global,
    modules: &[Checked],
    addresses: &[u8],
) -> Result<Vec<Placement>, LinkFault>
    requires { length modules.now ≡ 2 }
    ensures { IsOutcome (linked (typed_modules modules.now) addresses.now) (map_ok (λ v. v.items) result) }
{
    match link(alloc, modules, addresses) {
        Ok(linked) => {
            let LinkedPlaces { placements, .. } = linked;
            Ok(placements)
        }
        Err(fault) => Err(fault),
    }
}
