//! Calls that no program makes, with ample memory: the sample uses, and `omf` by its arguments; and a flush that fails.

use crate::uses::{boot_image, key, link_two, verdict};
use omf_check::{Checked, Profile, check};
use omf_cmd::{Gathered, main_with, words_from};
use omf_frame::{Bytes, Writing};
use omf_placement::{Placed, Placement};
use omf_reloc::Frame;
use omf_samples::{DATA, END, EXTERNAL, HEADER, MODULE, NAMES, PUBLIC, SEGMENT, joined};
use std::alloc::{AllocError, Global};
use std::io;
use std::io::{Error, ErrorKind, Write};

/// The bytes of records.
fn bytes_of(alloc: Global, records: &[&str]) -> Result<Vec<u8>, AllocError> {
    match joined(alloc, records) {
        Ok(bytes) => Ok(bytes),
        Err(_) => Err(AllocError),
    }
}

/// The module of records.
fn module_of(alloc: Global, records: &[&str]) -> Result<Checked, AllocError> {
    let bytes = bytes_of(alloc, records)?;
    let profile = Profile {
        refuse_vendor_comments: false,
    };
    match check(alloc, &mut Bytes::new(&bytes), profile) {
        Ok(module) => Ok(module),
        Err(_) => Err(AllocError),
    }
}

/// Whether a file that is cut in its record 4 is judged so.
fn is_judged(alloc: Global) -> Result<bool, AllocError> {
    let bytes = bytes_of(alloc, &[HEADER, NAMES, SEGMENT, DATA, "9C 06"])?;
    let verdict = verdict(alloc, &mut Bytes::new(&bytes))?;
    Ok(verdict.as_bytes() == b"refused 2 Cut record 4 at 34 within 2".as_slice())
}

/// Whether the boot sector has its bytes.
fn is_booted(alloc: Global) -> Result<bool, AllocError> {
    let module = module_of(alloc, MODULE)?;
    Ok(match boot_image(alloc, &module) {
        Ok(image) => image.run_bytes(1, 0) == Some(b"\xB8\x00\x7C\x90".as_slice()),
        Err(_) => false,
    })
}

/// The SHA-256 of the 48 bytes of `MODULE`, which is canonical.
const KEY: [u8; 32] = [
    0x5C, 0x6C, 0x39, 0x22, 0xEB, 0x2F, 0x05, 0x1C, 0x4D, 0x45, 0xFC, 0x5F, 0x2B, 0x93, 0x56, 0x00,
    0x0E, 0xBE, 0x95, 0xE5, 0x91, 0x7B, 0xC0, 0x5C, 0x72, 0x29, 0x66, 0x54, 0xD0, 0x02, 0xC1, 0xA2,
];

/// Whether the module has its key.
fn has_key(alloc: Global) -> Result<bool, AllocError> {
    let module = module_of(alloc, MODULE)?;
    Ok(key(alloc, &module)? == KEY)
}

/// The addresses of two modules: a segment of each, in the frame at 10000H.
const ADDRESSES: &[u8] = b"M #1\nS #1 10020 10000 1000\nM #2\nS #1 10100 10000 1000\n";

/// The place of the second module's public.
const PLACE: Placed = Placed {
    address: 0x10102,
    frame: Frame {
        base: 0x10000,
        selector: 0x1000,
    },
};

/// Whether the external of the first of two modules has the place of the other's public.
fn has_place(placements: &[Placement]) -> bool {
    match placements {
        [caller, _] => caller.external(1) == Some(PLACE),
        _ => false,
    }
}

/// Whether two modules are linked so.
fn are_linked(alloc: Global, modules: &[Checked]) -> bool {
    if modules.len() != 2 {
        return false;
    }
    match link_two(alloc, modules, ADDRESSES) {
        Ok(placements) => has_place(&placements),
        Err(_) => false,
    }
}

/// Whether a module with an external and one with a public of its name are linked so.
fn is_linked(alloc: Global) -> Result<bool, AllocError> {
    let mut modules = Vec::new(alloc);
    modules.push(module_of(alloc, &[HEADER, NAMES, SEGMENT, EXTERNAL, END])?)?;
    modules.push(module_of(alloc, &[HEADER, NAMES, SEGMENT, PUBLIC, END])?)?;
    Ok(are_linked(alloc, &modules))
}

/// Whether `omf check` is done on the module.
fn is_checked(alloc: Global) -> Result<bool, AllocError> {
    let input = bytes_of(alloc, MODULE)?;
    let words = words_from(alloc, &["omf", "check"])?;
    let mut writer = Gathered::new(alloc);
    let status = main_with(alloc, &words, &mut Bytes::new(&input), &mut writer);
    Ok(status == 0 && writer.text.as_slice() == b"OK 6 records, 48 bytes\n".as_slice())
}

#[test]
fn calls_have_their_answers(rt: HostRuntime) {
    assert!(rt; is_judged(rt.alloc()) == Ok(true), "a verdict");
    assert!(rt; is_booted(rt.alloc()) == Ok(true), "a boot sector");
    assert!(rt; has_key(rt.alloc()) == Ok(true), "a key");
    assert!(rt; is_linked(rt.alloc()) == Ok(true), "two modules");
    assert!(rt; is_checked(rt.alloc()) == Ok(true), "omf check");
}

/// A writer that cannot be flushed.
#[derive(Drop)]
struct Unflushed;

impl Write for Unflushed {
    fn write(&mut self, bytes: &[u8]) -> io::Result<usize> {
        Ok(bytes.len())
    }

    fn flush(&mut self) -> io::Result<()> {
        Err(Error::from(ErrorKind::Other))
    }
}

#[test]
fn a_failed_flush_is_passed_on(rt: HostRuntime) {
    assert!(rt; Writing::new(Unflushed).flush().is_err());
}
