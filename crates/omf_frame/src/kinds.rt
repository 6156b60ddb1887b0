//! The types of records, and the width of their fields (TIS OMF 1.1, "Record types").

ghost use Rattle.std.specs.Prelude.{◌≡◌};
ghost use Rattle.omf_frame.specs.Inner.Names.{is_unsupported};
ghost use Rattle.omf_frame.specs.Types.{row, type_of, type_name, is_local, width_of, width_bytes};
ghost use Rattle.omf_frame.specs.Framing.{is_taken, is_header, is_end};

use std::fmt;

/// What this profile does with the records of a type.
#[derive(Clone, Copy)]
pub enum Treatment {
    /// They are read.
    Read,
    /// They are kept but not read: debug, naming and version information.
    Carried,
    /// A module with one is refused.
    Refused,
}

/// The type of a record (TIS OMF 1.1, "Record types"). A type has one or two type bytes.
#[derive(Clone, Copy, PartialEq, Eq)]
pub enum RecordType {
    /// 80H: the translator's header.
    Theadr,
    /// 82H: a library module's header.
    Lheadr,
    /// 88H: a comment.
    Coment,
    /// 8AH, 8BH: the end of the module.
    Modend,
    /// 8CH: names of externals.
    Extdef,
    /// 90H, 91H: publics.
    Pubdef,
    /// 96H: a list of names.
    Lnames,
    /// 98H, 99H: a segment.
    Segdef,
    /// 9AH: a group.
    Grpdef,
    /// 9CH, 9DH: fixups and threads.
    Fixupp,
    /// A0H, A1H: data.
    Ledata,
    /// A2H, A3H: repeated data.
    Lidata,
    /// B0H: communals.
    Comdef,
    /// B4H, B5H: names of local externals.
    Lextdef,
    /// B6H, B7H: local publics.
    Lpubdef,
    /// B8H: local communals.
    Lcomdef,
    /// CAH: a list of local names.
    Llnames,
    /// 8EH: a type of a symbol.
    Typdef,
    /// 94H, 95H: line numbers.
    Linnum,
    /// C4H, C5H: line numbers of a COMDAT.
    Linsym,
    /// C6H: aliases.
    Alias,
    /// CCH: the version of the standard.
    Vernum,
    /// B2H, B3H: backpatches.
    Bakpat,
    /// BCH: names of externals that are COMDATs.
    Cextdef,
    /// C2H, C3H: data that are selected at link time.
    Comdat,
    /// C8H, C9H: backpatches of a COMDAT.
    Nbkpat,
    /// CEH: a vendor's extension.
    Vendext,
    /// F0H, F1H: the header and the end of a library.
    Library,
}

impl RecordType {
    /// The type with this type byte, if it is known.
    pub fn of(kind: u8) -> Option<RecordType>
        ensures { result ≡ type_of kind }
    {
        match kind {
            0x80 => Some(RecordType::Theadr),
            0x82 => Some(RecordType::Lheadr),
            0x88 => Some(RecordType::Coment),
            0x8A | 0x8B => Some(RecordType::Modend),
            0x8C => Some(RecordType::Extdef),
            0x8E => Some(RecordType::Typdef),
            0x90 | 0x91 => Some(RecordType::Pubdef),
            0x94 | 0x95 => Some(RecordType::Linnum),
            0x96 => Some(RecordType::Lnames),
            0x98 | 0x99 => Some(RecordType::Segdef),
            0x9A => Some(RecordType::Grpdef),
            0x9C | 0x9D => Some(RecordType::Fixupp),
            0xA0 | 0xA1 => Some(RecordType::Ledata),
            0xA2 | 0xA3 => Some(RecordType::Lidata),
            0xB0 => Some(RecordType::Comdef),
            0xB2 | 0xB3 => Some(RecordType::Bakpat),
            0xB4 | 0xB5 => Some(RecordType::Lextdef),
            0xB6 | 0xB7 => Some(RecordType::Lpubdef),
            0xB8 => Some(RecordType::Lcomdef),
            0xBC => Some(RecordType::Cextdef),
            0xC2 | 0xC3 => Some(RecordType::Comdat),
            0xC4 | 0xC5 => Some(RecordType::Linsym),
            0xC6 => Some(RecordType::Alias),
            0xC8 | 0xC9 => Some(RecordType::Nbkpat),
            0xCA => Some(RecordType::Llnames),
            0xCC => Some(RecordType::Vernum),
            0xCE => Some(RecordType::Vendext),
            0xF0 | 0xF1 => Some(RecordType::Library),
            _ => None,
        }
    }

    /// The name in the standard.
    pub fn name(self) -> &'static str
        ensures { result.now ≡ (row self).name }
    {
        match self {
            RecordType::Theadr => "THEADR",
            RecordType::Lheadr => "LHEADR",
            RecordType::Coment => "COMENT",
            RecordType::Modend => "MODEND",
            RecordType::Extdef => "EXTDEF",
            RecordType::Pubdef => "PUBDEF",
            RecordType::Lnames => "LNAMES",
            RecordType::Segdef => "SEGDEF",
            RecordType::Grpdef => "GRPDEF",
            RecordType::Fixupp => "FIXUPP",
            RecordType::Ledata => "LEDATA",
            RecordType::Lidata => "LIDATA",
            RecordType::Comdef => "COMDEF",
            RecordType::Lextdef => "LEXTDEF",
            RecordType::Lpubdef => "LPUBDEF",
            RecordType::Lcomdef => "LCOMDEF",
            RecordType::Llnames => "LLNAMES",
            RecordType::Typdef => "TYPDEF",
            RecordType::Linnum => "LINNUM",
            RecordType::Linsym => "LINSYM",
            RecordType::Alias => "ALIAS",
            RecordType::Vernum => "VERNUM",
            RecordType::Bakpat => "BAKPAT",
            RecordType::Cextdef => "CEXTDEF",
            RecordType::Comdat => "COMDAT",
            RecordType::Nbkpat => "NBKPAT",
            RecordType::Vendext => "VENDEXT",
            RecordType::Library => "library",
        }
    }

    /// What this profile does with the records of the type.
    pub fn treatment(self) -> Treatment
        ensures { result ≡ (row self).treatment }
    {
        match self {
            RecordType::Theadr
            | RecordType::Lheadr
            | RecordType::Coment
            | RecordType::Modend
            | RecordType::Extdef
            | RecordType::Pubdef
            | RecordType::Lnames
            | RecordType::Segdef
            | RecordType::Grpdef
            | RecordType::Fixupp
            | RecordType::Ledata
            | RecordType::Lidata
            | RecordType::Comdef
            | RecordType::Lextdef
            | RecordType::Lpubdef
            | RecordType::Lcomdef
            | RecordType::Llnames => Treatment::Read,
            RecordType::Typdef
            | RecordType::Linnum
            | RecordType::Linsym
            | RecordType::Alias
            | RecordType::Vernum => Treatment::Carried,
            RecordType::Bakpat
            | RecordType::Cextdef
            | RecordType::Comdat
            | RecordType::Nbkpat
            | RecordType::Vendext
            | RecordType::Library => Treatment::Refused,
        }
    }
}

/// The type's name in the standard.
impl fmt::Debug for RecordType {
    ghost use Rattle.std.specs.Prelude.{Some};
    ghost use Rattle.omf_frame.specs.Types.{row};

    ghost debug_output = { λ record_type. Some (row record_type).name };

    fn fmt<W: fmt::Write>(&self, f: &mut fmt::Formatter<W>) -> fmt::Result {
        f.write_str(self.name())
    }
}

/// The name of a record type in the standard; empty for an unknown type byte.
pub fn type_name(kind: u8) -> &'static str
    ensures { result.now ≡ type_name kind }
{
    match RecordType::of(kind) {
        Some(record_type) => record_type.name(),
        None => "",
    }
}

/// The type bytes from 80H to BFH of the types that are read or carried, bit by bit.
const TAKEN_LOW: u64 = 0x01F1_000F_3773_5D05;

/// The type bytes from C0H to FFH of the types that are read or carried, bit by bit.
const TAKEN_HIGH: u64 = 0x1470;

/// Whether a module may have records of this type: those of the types that are read or carried.
#[inline(always)]
pub fn is_taken(kind: u8) -> bool
    ensures { result ≡ is_taken kind }
{
    if kind < 0x80 {
        return false;
    }
    let taken = if kind < 0xC0 { TAKEN_LOW } else { TAKEN_HIGH };
    (taken >> (kind % 64)) % 2 == 1
}

/// Whether the type is known, and a module with such a record is refused.
#[inline(always)]
pub fn is_unsupported(kind: u8) -> bool
    ensures { result ≡ is_unsupported kind }
{
    matches!(
        kind,
        0xB2 | 0xB3 | 0xBC | 0xC2 | 0xC3 | 0xC8 | 0xC9 | 0xCE | 0xF0 | 0xF1
    )
}

/// Whether records of this type are local: LEXTDEF, LPUBDEF, LCOMDEF and LLNAMES.
pub fn is_local(kind: u8) -> bool
    ensures { result ≡ is_local kind }
{
    matches!(kind, 0xB4..=0xB8 | 0xCA)
}

/// Whether a record of this type begins a module: THEADR (80H) or LHEADR (82H).
#[inline(always)]
pub fn is_header(kind: u8) -> bool
    ensures { result ≡ is_header kind }
{
    matches!(kind, 0x80 | 0x82)
}

/// Whether a record of this type ends a module: MODEND (8AH, 8BH).
#[inline(always)]
pub fn is_end(kind: u8) -> bool
    ensures { result ≡ is_end kind }
{
    matches!(kind, 0x8A | 0x8B)
}

/// The width of the offsets, lengths and displacements in a record.
#[derive(Clone, Copy, Debug, PartialEq, Eq)]
pub enum Width {
    /// 2 bytes.
    Bits16,
    /// 4 bytes.
    Bits32,
}

impl Width {
    /// The width of the fields of a record with this type byte: 32 bits if it is odd.
    pub fn of(kind: u8) -> Width
        ensures { result ≡ width_of kind }
    {
        if kind % 2 == 1 {
            Width::Bits32
        } else {
            Width::Bits16
        }
    }

    /// The number of bytes of a field: 2 or 4.
    pub fn bytes(self) -> usize
        ensures { result ≡ width_bytes self }
    {
        match self {
            Width::Bits16 => 2,
            Width::Bits32 => 4,
        }
    }
}
