//! MZ files (the published format of DOS .EXE files): what is in memory when DOS loads one at paragraph 0.

ghost use Rattle.std.specs.Prelude.{◌≡◌, ◌+◌, ◌*◌, ◌<◌, ◌≤◌, ◌^◌, None, Some, IfErr, IfOk, find, length, nat_lt};
ghost use Rattle.omf_output.specs.Exe.Loading.{file_size, header_size, table, word};
ghost use Rattle.omf_find.specs.Mz.{IsMz, IsMzFault, header_fault, image, is_mz, length_fault, table_end, table_fault, words};

use crate::marks::has_at;
use crate::part::{after, first};
use byteorder::{ByteOrder, LittleEndian};
use std::alloc::{AllocError, Global};
use thiserror::Error;

/// Why an MZ file is not read.
#[derive(Clone, Copy, Debug, Error)]
pub enum MzFault {
    /// It has fewer bytes than a header.
    #[error("the header is cut")]
    Cut,
    /// By its header the last page has this many bytes, which are more than 511.
    #[error("by its header the last page has more than 511 bytes")]
    LastPage(u16),
    /// By its header it has this many bytes, which are more than it has.
    #[error("it has fewer bytes than its header gives")]
    Short(usize),
    /// By its header the header has this many bytes, which are more than the file has by its header.
    #[error("the header is longer than the file")]
    LongHeader(usize),
    /// The relocation table ends at this offset, which passes the end of the file.
    #[error("the relocation table passes the end of the file")]
    Table(usize),
    /// The relocation word at this offset of the image passes its end; the first one.
    #[error("a relocation word is outside the image")]
    Word(u32),
    /// Out of memory.
    #[error("memory ran out")]
    Memory,
}

impl From<AllocError> for MzFault {
    ghost use Rattle.std.specs.Prelude.{◌≡◌};
    ghost use Rattle.omf_find.specs.declared.mz.MzFault.TheVariants.{Memory};

    ghost from_gives = { λ _ e. e ≡ Memory };

    fn from(_error: AllocError) -> MzFault {
        MzFault::Memory
    }
}

/// What an MZ file has in memory when DOS loads it at paragraph 0.
#[derive(Drop)]
pub struct Mz<'a> {
    /// The bytes from address 0 on.
    pub image: &'a [u8],
    /// The address of each word that DOS changes, in the order of the relocation table.
    pub words: Vec<u32>,
    /// CS and IP at the start.
    pub code: (u16, u16),
    /// SS at the start.
    pub stack: u16,
}

/// Whether a file begins as an MZ file does.
pub fn is_mz(file: &[u8]) -> bool
    ensures { result ≡ is_mz file.now }
{
    has_at(file, 0, b"MZ") || has_at(file, 0, b"ZM")
}

/// The word at an offset.
pub fn word(file: &[u8], at: usize) -> u16
    requires { at + 2 ≤ length file.now }
    ensures { result ≡ word file.now at }
{
    LittleEndian::read_u16(&file[at..])
}

/// The number of bytes that count.
fn file_size(file: &[u8]) -> usize
    requires { 28 ≤ length file.now }
    ensures { result ≡ file_size file.now }
{
    let last = usize::from(word(file, 2));
    let pages = usize::from(word(file, 4));
    if last == 0 {
        512 * pages
    } else {
        512 * pages.saturating_sub(1) + last
    }
}

/// The number of bytes of the header.
pub fn header_size(file: &[u8]) -> usize
    requires { 28 ≤ length file.now }
    ensures value { result ≡ header_size file.now }
    ensures bound { result < 2 ^ 20 }
{
    16 * usize::from(word(file, 8))
}

/// The end of the relocation table.
fn table_end(file: &[u8]) -> usize
    requires { 28 ≤ length file.now }
    ensures { result ≡ table_end file.now }
{
    usize::from(word(file, 24)) + 4 * usize::from(word(file, 6))
}

/// Why the relocation table is refused.
fn table_fault(file: &[u8]) -> Option<MzFault>
    requires { 28 ≤ length file.now }
    ensures { result ≡ table_fault file.now }
{
    let end = table_end(file);
    if file.len() < end {
        Some(MzFault::Table(end))
    } else {
        None
    }
}

/// Why the lengths of a header are refused.
fn length_fault(file: &[u8]) -> Option<MzFault>
    requires { 28 ≤ length file.now }
    ensures { result ≡ length_fault file.now }
{
    let size = file_size(file);
    let header = header_size(file);
    if file.len() < size {
        Some(MzFault::Short(size))
    } else if size < header {
        Some(MzFault::LongHeader(header))
    } else {
        table_fault(file)
    }
}

/// Why a header is refused.
fn header_fault(file: &[u8]) -> Option<MzFault>
    ensures value { result ≡ header_fault file.now }
    ensures whole { result ≡ None → 28 ≤ length file.now }
    ensures table { result ≡ None → table_end file.now ≤ length file.now }
{
    if file.len() < 28 {
        return Some(MzFault::Cut);
    }
    let last = word(file, 2);
    if last > 511 {
        Some(MzFault::LastPage(last))
    } else {
        length_fault(file)
    }
}

/// The image.
fn image<'a>(file: &'a [u8]) -> &'a [u8]
    requires { 28 ≤ length file.now }
    ensures { result.now ≡ image file.entry.now }
{
    let header = header_size(file);
    first(file_size(file).saturating_sub(header), after(header, file))
}

/// The address of the word of an entry of the relocation table.
fn entry(file: &[u8], at: usize) -> u32
    requires { at + 4 ≤ length file.now }
    ensures { result ≡ 16 * word file.now (at + 2) + word file.now at }
{
    16 * u32::from(word(file, at + 2)) + u32::from(word(file, at))
}

/// The addresses of the words of a relocation table of `count` entries at an offset.
fn table(alloc: Global, file: &[u8], count: u16, at: usize) -> Result<Vec<u32>, AllocError>
    requires { at + 4 * count ≤ length file.now }
    ensures { IfOk result (λ v. v.items ≡ table file.now count at) }
{
    let mut words = Vec::new(alloc);
    let mut left = count;
    let mut next = at;
    while left > 0 {
        words.push(entry(file, next))?;
        next += 4;
        left -= 1;
    }
    Ok(words)
}

/// The first word that passes the end of an image of this length.
fn first_outside(words: &[u32], len: usize) -> Option<u32>
    ensures { result ≡ find (λ at. nat_lt len (at + 2)) words.now }
{
    for at in words {
        if *at as usize + 2 > len {
            return Some(*at);
        }
    }
    None
}

/// What an MZ file has whose header is not refused.
fn read_image<'a>(alloc: Global, file: &'a [u8]) -> Result<Mz<'a>, MzFault>
    requires none { header_fault file.now ≡ None }
    requires whole { 28 ≤ length file.now }
    requires table { table_end file.now ≤ length file.now }
    ensures ok { IfOk result (IsMz file.entry.now) }
    ensures fault { IfErr result (IsMzFault file.entry.now) }
{
    let image = image(file);
    let words = table(alloc, file, word(file, 6), usize::from(word(file, 24)))?;
    match first_outside(&words, image.len()) {
        Some(at) => Err(MzFault::Word(at)),
        None => Ok(Mz {
            image,
            words,
            code: (word(file, 22), word(file, 20)),
            stack: word(file, 14),
        }),
    }
}

/// Reads an MZ file: what DOS has in memory when it loads it at paragraph 0.
///
/// # Errors
///
/// The first fault of its header. `Memory` if memory runs out, and the header has no fault.
pub fn read_mz<'a>(alloc: Global, file: &'a [u8]) -> Result<Mz<'a>, MzFault>
    ensures ok { IfOk result (IsMz file.entry.now) }
    ensures fault { IfErr result (IsMzFault file.entry.now) }
{
    match header_fault(file) {
        Some(fault) => Err(fault),
        None => read_image(alloc, file),
    }
}
