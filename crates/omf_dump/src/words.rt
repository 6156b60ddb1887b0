//! The words for classes and types (TIS OMF 1.1).

ghost use Rattle.std.specs.Prelude.{◌≡◌};
ghost use Rattle.omf_dump.specs.Words.{class_word, subtype_word, type_word};

use omf_frame::type_name;

/// The word for a comment class.
pub(crate) fn class_word(class: u8) -> &'static str
    ensures { result.now ≡ class_word class }
{
    match class {
        0x00 => "translator",
        0x01 => "copyright",
        0x81 => "old-default-library",
        0x9C => "DOS-version",
        0x9D => "memory-model",
        0x9E => "DOSSEG",
        0x9F => "default-library",
        0xA0 => "OMF-extension",
        0xA1 => "new-OMF-extension",
        0xA2 => "link-pass-separator",
        0xA3 => "LIBMOD",
        0xA4 => "EXESTR",
        0xA6 => "INCERR",
        0xA7 => "NOPAD",
        0xA8 => "WKEXT",
        0xA9 => "LZEXT",
        0xDA => "comment",
        0xDB => "compiler",
        0xDC => "date",
        0xDD => "time",
        0xDF => "user",
        0xE9 => "dependency",
        0xFF => "command-line",
        _ => "other",
    }
}

/// The word for a subtype of a comment of the class A0H.
pub(crate) fn subtype_word(subtype: u8) -> &'static str
    ensures { result.now ≡ subtype_word subtype }
{
    match subtype {
        1 => "IMPDEF",
        2 => "EXPDEF",
        3 => "INCDEF",
        4 => "protected-memory-library",
        5 => "LNKDIR",
        6 => "big-endian",
        7 => "PRECOMP",
        _ => "reserved",
    }
}

/// The name of a record's type; F1H, the end of a library, and the obsolete types have names of their own.
pub(crate) fn type_word(kind: u8) -> &'static str
    ensures { result.now ≡ type_word kind }
{
    match kind {
        0x6E => "RHEADR",
        0x70 => "REGINT",
        0x72 => "REDATA",
        0x74 => "RIDATA",
        0x76 => "OVLDEF",
        0x78 => "ENDREC",
        0x7A => "BLKDEF",
        0x7C => "BLKEND",
        0x7E => "DEBSYM",
        0x84 => "PEDATA",
        0x86 => "PIDATA",
        0x92 => "LOCSYM",
        0xA4 => "LIBHED",
        0xA6 => "LIBNAM",
        0xA8 => "LIBLOC",
        0xAA => "LIBDIC",
        0xF1 => "library-end",
        _ => type_name(kind),
    }
}
