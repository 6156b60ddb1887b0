//! MZ files (the published format of DOS .EXE files: header, relocation table, image).

ghost use Rattle.std.specs.Prelude.{◌≡◌, ◌++◌, ◌+◌, ◌*◌, ◌<◌, ◌≤◌, ℕ, All, IfOk, IfErr, OnOk, find, flat_map, length, nat_lt, ◌^◌, [], ◌∷◌};
ghost use Rattle.omf_output.specs.Exe.Exe.{CanBeWritten, as_bytes, entry_of, exe, header, paragraphs, size};
ghost use Rattle.omf_output.specs.Exe.FileFaults.{IsFileFault, file_fault};
ghost use Rattle.omf_output.specs.Exe.Laws.{loaded_program};
ghost use Rattle.omf_output.specs.Exe.Loading.{loaded};

use std::alloc::{AllocError, Global};
use std::marker::Model;
use thiserror::Error;

/// Why a program has no MZ file.
#[derive(Clone, Copy, Debug, PartialEq, Eq, Error)]
pub enum FileFault {
    /// More than 65,535 relocation words.
    #[error("more than 65,535 relocation words")]
    TooMany,
    /// The image has more than 2^20 bytes.
    #[error("the image has more than 1,048,576 bytes")]
    TooLong,
    /// The relocation word at this offset is not in the image.
    #[error("a relocation word outside the image")]
    Outside(usize),
    /// Out of memory.
    #[error("memory ran out")]
    Memory,
}

impl From<AllocError> for FileFault {
    ghost use Rattle.std.specs.Prelude.{◌≡◌};
    ghost use Rattle.omf_output.specs.declared.exe.file.FileFault.TheVariants.{Memory};

    ghost from_gives = { λ _ e. e ≡ Memory };

    fn from(_error: AllocError) -> FileFault {
        FileFault::Memory
    }
}

/// An address as a segment register and an offset hold it.
#[derive(Clone, Copy, Debug, PartialEq, Eq)]
pub struct FarAddress {
    /// The selector, in paragraphs.
    pub selector: u16,
    /// The offset in the frame.
    pub offset: u16,
}

/// A program for an MZ file. Its selectors and addresses are those of a program that begins at paragraph 0.
#[derive(Drop)]
pub struct Program {
    /// The bytes of the image.
    pub image: Vec<u8>,
    /// The offset in the image of each relocation word.
    pub words: Vec<usize>,
    /// CS:IP.
    pub code: FarAddress,
    /// SS:SP.
    pub stack: FarAddress,
    /// The paragraphs that the program needs after its image.
    pub extra: u16,
}

impl Model for Program {
    ghost use Rattle.omf_output.specs.Exe.Exe.{Program as Programmed};

    ghost Value = { Programmed };

    ghost view = { λ p. record {
      image = p.image.items;
      words = p.words.items;
      code = (p.code.selector, p.code.offset);
      stack = (p.stack.selector, p.stack.offset);
      extra = p.extra;
    } };
}

/// The number of paragraphs of the header with its relocation table.
fn paragraphs(program: &Program) -> usize
    requires { CanBeWritten program.now }
    ensures value { result ≡ paragraphs program.now }
    ensures bound { result ≤ 16386 }
{
    (4 * program.words.len() + 43) / 16
}

/// The 14 words of the header. It asks DOS for at most `most` paragraphs after the image, or for what the program needs, if that is more.
fn header(program: &Program, most: u16) -> [u16; 14]
    requires { CanBeWritten program.now }
    ensures { result ≡ header most program.now }
{
    let paragraphs = paragraphs(program);
    let size = 16 * paragraphs + program.image.len();
    [
        0x5A4D,
        (size % 512) as u16,
        ((size + 511) / 512) as u16,
        program.words.len() as u16,
        paragraphs as u16,
        program.extra,
        program.extra.max(most),
        program.stack.selector,
        program.stack.offset,
        0,
        program.code.offset,
        program.code.selector,
        28,
        0,
    ]
}

/// Appends a word.
fn put_word(file: &mut Vec<u8>, word: u16) -> Result<(), AllocError>
    ensures { OnOk result (file.new.items ≡ file.old.items ++ as_bytes (word ∷ [])) }
{
    let bytes = word.to_le_bytes();
    file.extend_from_slice(&bytes)
}

/// Appends words.
fn put_words(file: &mut Vec<u8>, words: &[u16]) -> Result<(), AllocError>
    ensures { OnOk result (file.new.items ≡ file.old.items ++ as_bytes words.now) }
{
    for word in words {
        put_word(file, *word)?;
    }
    Ok(())
}

/// Appends the entry of a relocation word: its offset in a paragraph of the image, and the paragraph.
fn put_entry(file: &mut Vec<u8>, at: usize) -> Result<(), AllocError>
    requires { at < 2 ^ 20 }
    ensures { OnOk result (file.new.items ≡ file.old.items ++ as_bytes (entry_of at)) }
{
    put_word(file, (at % 16) as u16)?;
    put_word(file, (at / 16) as u16)
}

/// Appends the relocation table.
fn put_table(file: &mut Vec<u8>, words: &[usize]) -> Result<(), AllocError>
    requires { All (λ at. at < 2 ^ 20) words.now }
    ensures { OnOk result (file.new.items ≡ file.old.items ++ as_bytes (flat_map entry_of words.now)) }
{
    for at in words {
        put_entry(file, *at)?;
    }
    Ok(())
}

/// The header and the relocation table of a program's file.
fn front(alloc: Global, program: &Program, most: u16) -> Result<Vec<u8>, AllocError>
    requires { CanBeWritten program.now }
    ensures { IfOk result (λ v. v.items ≡ as_bytes (header most program.now ++ flat_map entry_of program.now.words)) }
{
    let mut file = Vec::with_capacity(alloc, 16 * paragraphs(program) + program.image.len())?;
    put_words(&mut file, &header(program, most))?;
    put_table(&mut file, &program.words)?;
    Ok(file)
}

/// The MZ file of a program that can be written.
fn written(alloc: Global, program: &Program, most: u16) -> Result<Vec<u8>, AllocError>
    requires { CanBeWritten program.now }
    ensures { IfOk result (λ v. v.items ≡ exe most program.now) }
{
    let mut file = front(alloc, program, most)?;
    file.resize(16 * paragraphs(program), 0)?;
    file.extend_from_slice(&program.image)?;
    Ok(file)
}

/// The first relocation word that does not lie in an image of this length.
fn first_outside(words: &[usize], len: usize) -> Option<usize>
    ensures { result ≡ find (λ at. nat_lt len (at + 2)) words.now }
{
    for at in words {
        if *at >= len || len - *at < 2 {
            return Some(*at);
        }
    }
    None
}

/// Why a program has no file, if it has none.
fn file_fault(program: &Program) -> Option<FileFault>
    ensures { result ≡ file_fault program.now }
{
    if program.words.len() > 65535 {
        return Some(FileFault::TooMany);
    }
    if program.image.len() > 1 << 20 {
        return Some(FileFault::TooLong);
    }
    match first_outside(&program.words, program.image.len()) {
        Some(at) => Some(FileFault::Outside(at)),
        None => None,
    }
}

/// Registers have 16 bits.
fn in_registers(selector: u16, offset: u16)
    ensures { (selector < 2 ^ 16) × (offset < 2 ^ 16) }
{
    let _registers = (selector, offset);
}

/// The MZ file of a program: the header, the relocation table in the order of the program's words, zeros up to a whole paragraph, and the
/// image. What DOS makes of it at any load paragraph is the image with the paragraph added at each word, and CS:IP and SS:SP with the
/// paragraph added to CS and SS. The header asks for at most `most` paragraphs after the image, or for what the program needs, if that is more.
///
/// # Errors
///
/// `TooMany` for more than 65,535 words; else `TooLong` for an image of more than 2^20 bytes; else `Outside` with the first word that does
/// not lie in the image; else `Memory` if memory runs out.
pub fn write_exe(alloc: Global, program: &Program, most: u16) -> Result<Vec<u8>, FileFault>
    ensures file { IfOk result (λ v. v.items ≡ exe most program.now) }
    ensures loaded { IfOk result (λ v. (k : ℕ) → loaded v.items k ≡ loaded_program program.now k) }
    ensures writable { IfOk result (λ v. CanBeWritten program.now) }
    ensures fault { IfErr result (IsFileFault program.now) }
{
    in_registers(program.code.selector, program.code.offset);
    in_registers(program.stack.selector, program.stack.offset);
    match file_fault(program) {
        Some(fault) => Err(fault),
        None => Ok(written(alloc, program, most)?),
    }
}
