//! Marks of programs that are packed, and of those whose MZ file is only a stub.

ghost use Rattle.std.specs.Prelude.{◌≡◌, ◌≤◌, length};
ghost use Rattle.omf_find.specs.Marks.{has_at, is_exepack, other, other_at, packer};

use crate::mz::{header_size, word};
use crate::part::after;
use byteorder::{ByteOrder, LittleEndian};

/// What a program is packed by.
#[derive(Clone, Copy)]
pub enum Packer {
    Lzexe,
    Pklite,
    Exepack,
}

/// What follows the stub of an MZ file.
#[derive(Clone, Copy)]
pub enum Other {
    /// 16-bit Windows, OS/2.
    Ne,
    /// OS/2, drivers of Windows, DOS extenders.
    Le,
    /// OS/2.
    Lx,
    /// Windows.
    Pe,
}

impl Packer {
    /// Its name.
    pub fn name(self) -> &'static str {
        match self {
            Packer::Lzexe => "LZEXE",
            Packer::Pklite => "PKLITE",
            Packer::Exepack => "EXEPACK",
        }
    }
}

impl Other {
    /// Its name.
    pub fn name(self) -> &'static str {
        match self {
            Other::Ne => "an NE file (16-bit Windows, OS/2)",
            Other::Le => "an LE file (OS/2, a DOS extender, a driver of Windows)",
            Other::Lx => "an LX file (OS/2)",
            Other::Pe => "a PE file (Windows)",
        }
    }
}

/// Whether a file has these bytes at an offset.
pub fn has_at(file: &[u8], at: usize, bytes: &[u8]) -> bool
    ensures { result ≡ has_at file.now at bytes.now }
{
    after(at, file).starts_with(bytes)
}

/// Whether an MZ file has the mark of EXEPACK: it starts after 16 or 18 bytes, of which the last two are `RB`.
fn is_exepack(file: &[u8]) -> bool
    requires { 28 ≤ length file.now }
    ensures { result ≡ is_exepack file.now }
{
    let ip = word(file, 20);
    if ip == 16 || ip == 18 {
        let start = header_size(file) + 16 * usize::from(word(file, 22)) + usize::from(ip);
        has_at(file, start - 2, b"RB")
    } else {
        false
    }
}

/// What an MZ file is packed by, by its marks.
pub fn packer_of(file: &[u8]) -> Option<Packer>
    requires { 28 ≤ length file.now }
    ensures { result ≡ packer file.now }
{
    if has_at(file, 28, b"LZ09") || has_at(file, 28, b"LZ91") {
        Some(Packer::Lzexe)
    } else if has_at(file, 30, b"PKLITE") {
        Some(Packer::Pklite)
    } else if is_exepack(file) {
        Some(Packer::Exepack)
    } else {
        None
    }
}

/// What is at an offset of a file, by its mark.
fn other_at(file: &[u8], at: usize) -> Option<Other>
    ensures { result ≡ other_at file.now at }
{
    if at < 64 {
        None
    } else if has_at(file, at, b"NE") {
        Some(Other::Ne)
    } else if has_at(file, at, b"LE") {
        Some(Other::Le)
    } else if has_at(file, at, b"LX") {
        Some(Other::Lx)
    } else if has_at(file, at, b"PE\0\0") {
        Some(Other::Pe)
    } else {
        None
    }
}

/// What follows the stub of an MZ file, by the mark at the offset in its bytes 60 to 63; None if it has none.
pub fn other_of(file: &[u8]) -> Option<Other>
    ensures { result ≡ other file.now }
{
    if file.len() < 64 {
        return None;
    }
    other_at(file, LittleEndian::read_u32(&file[60..]) as usize)
}
