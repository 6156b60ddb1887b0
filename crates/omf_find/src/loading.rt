//! The program to be searched, from the bytes of its file.

ghost use Rattle.std.specs.Prelude.{◌≡◌, ◌+◌, IfOk, IfErr, IsPermutation, IsSorted, None, Some};
ghost use Rattle.omf_find.specs.Mz.{is_mz};
ghost use Rattle.omf_find.specs.Loaded.{IsComFault, IsComLoaded, IsComProgram, IsFileFault, IsFileLoaded, IsLoadFault, IsLoaded, IsMzLoadFault, IsMzLoaded, IsMzProgram, IsRawFault, IsRawLoaded, IsRawProgram, is_com_name, lower};

use crate::marks::{Other, Packer, other_of, packer_of};
use crate::mz::{Mz, MzFault, is_mz, read_mz};
use crate::part::after;
use omf_finding::Program;
use omf_symbols::Kind;
use std::alloc::{AllocError, Global};

/// Why a file is not searched.
#[derive(Clone, Copy)]
pub enum LoadFault {
    /// It is an MZ file, and its header is refused.
    Mz(MzFault),
    /// Its MZ file is the stub of another program.
    Other(Other),
    /// It is no MZ file, and its name is not that of a .COM file.
    Unknown,
    /// It has more bytes than a .COM file may have.
    LongCom,
    /// The raw image passes the last address.
    High,
    /// Out of memory.
    Memory,
}

impl From<AllocError> for LoadFault {
    ghost use Rattle.std.specs.Prelude.{◌≡◌};
    ghost use Rattle.omf_find.specs.declared.loading.LoadFault.TheVariants.{Memory};

    ghost from_gives = { λ _ e. e ≡ Memory };

    fn from(_error: AllocError) -> LoadFault {
        LoadFault::Memory
    }
}

/// A program, and what its file is.
#[derive(Drop)]
pub struct Loaded {
    pub program: Program,
    pub kind: Kind,
    /// What it is packed by.
    pub packer: Option<Packer>,
}

/// The most bytes of a .COM file: those of a segment after the program segment prefix.
const LONGEST_COM: usize = 65_280;

/// Numbers in ascending order.
fn ascending(words: Vec<u32>) -> Result<Vec<u32>, AllocError>
    ensures same { IfOk result (λ v. IsPermutation words.items v.items) }
    ensures order { IfOk result (λ v. IsSorted ⟦<u32 as Ord>⟧.cmp v.items) }
{
    let mut words = words;
    words.sort()?;
    Ok(words)
}

/// The program of an MZ file, loaded at paragraph 0.
fn mz_program(alloc: Global, mz: Mz<'_>) -> Result<Program, AllocError>
    ensures { IfOk result (IsMzProgram mz.entry) }
{
    let Mz {
        image,
        words,
        code,
        stack,
    } = mz;
    let mut selectors = Vec::new(alloc);
    selectors.push(stack)?;
    Ok(Program {
        bytes: Vec::from_slice(alloc, image)?,
        base: 0,
        relocated: Some(ascending(words)?),
        start: Some(code),
        selectors,
    })
}

/// The program of a .COM file, loaded at 100H of segment 0.
fn com_program(alloc: Global, file: Vec<u8>) -> Program
    ensures { IsComProgram file.items result }
{
    Program {
        bytes: file,
        base: 0x100,
        relocated: Some(Vec::new(alloc)),
        start: Some((0, 0x100)),
        selectors: Vec::new(alloc),
    }
}

/// The program of a raw image.
fn raw_program(file: Vec<u8>, base: u32, selectors: Vec<u16>) -> Program
    ensures { IsRawProgram file.items base selectors.items result }
{
    Program {
        bytes: file,
        base,
        relocated: None,
        start: None,
        selectors,
    }
}

/// Loads an MZ file.
fn load_mz(alloc: Global, file: &[u8]) -> Result<Loaded, LoadFault>
    ensures ok { IfOk result (IsMzLoaded file.now) }
    ensures fault { IfErr result (IsMzLoadFault file.now) }
{
    if let Some(other) = other_of(file) {
        return Err(LoadFault::Other(other));
    }
    match read_mz(alloc, file) {
        Ok(mz) => Ok(Loaded {
            program: mz_program(alloc, mz)?,
            kind: Kind::Mz,
            packer: packer_of(file),
        }),
        Err(MzFault::Memory) => Err(LoadFault::Memory),
        Err(fault) => Err(LoadFault::Mz(fault)),
    }
}

/// A letter in lower case.
fn lower(byte: u8) -> u8
    ensures { result ≡ lower byte }
{
    if byte >= b'A' && byte <= b'Z' {
        byte + 32
    } else {
        byte
    }
}

/// Whether a name ends as that of a .COM file, in any case.
fn is_com_name(name: &[u8]) -> bool
    ensures { result ≡ is_com_name name.now }
{
    let end = after(name.len().saturating_sub(4), name);
    match end {
        [dot, c, o, m] => {
            *dot == b'.' && lower(*c) == b'c' && lower(*o) == b'o' && lower(*m) == b'm'
        }
        _ => false,
    }
}

/// Loads a .COM file.
fn load_com(alloc: Global, file: Vec<u8>) -> Result<Loaded, LoadFault>
    ensures ok { IfOk result (IsComLoaded file.items) }
    ensures fault { IfErr result (IsComFault file.items) }
{
    if file.len() > LONGEST_COM {
        return Err(LoadFault::LongCom);
    }
    Ok(Loaded {
        program: com_program(alloc, file),
        kind: Kind::Com,
        packer: None,
    })
}

/// Loads a raw image.
fn load_raw(file: Vec<u8>, base: u32, selectors: Vec<u16>) -> Result<Loaded, LoadFault>
    ensures ok { IfOk result (IsRawLoaded base selectors.items file.items) }
    ensures fault { IfErr result (IsRawFault base file.items) }
{
    if file.len() as u64 > (1 << 32) - u64::from(base) {
        return Err(LoadFault::High);
    }
    Ok(Loaded {
        program: raw_program(file, base, selectors),
        kind: Kind::Raw,
        packer: None,
    })
}

/// Loads a file that is no raw image.
fn load_file(alloc: Global, name: &str, file: Vec<u8>) -> Result<Loaded, LoadFault>
    ensures ok { IfOk result (IsFileLoaded (is_mz file.items) name.now file.items) }
    ensures fault { IfErr result (IsFileFault (is_mz file.items) (is_com_name name.now) file.items) }
{
    if is_mz(&file) {
        load_mz(alloc, &file)
    } else if is_com_name(name.as_bytes()) {
        load_com(alloc, file)
    } else {
        Err(LoadFault::Unknown)
    }
}

/// Loads the file of a program: a raw image if there is an address for it, else an MZ file, or a .COM file by its name.
///
/// # Errors
///
/// Why the file is not searched. `Memory` if memory runs out, and there is no such reason.
pub fn load(
    alloc: Global,
    raw: Option<u32>,
    selectors: Vec<u16>,
    name: &str,
    file: Vec<u8>,
) -> Result<Loaded, LoadFault>
    ensures ok { IfOk result (IsLoaded raw selectors.items name.now file.items) }
    ensures fault { IfErr result (IsLoadFault raw name.now file.items) }
{
    match raw {
        Some(base) => load_raw(file, base, selectors),
        None => load_file(alloc, name, file),
    }
}
