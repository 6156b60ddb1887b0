//! What records that are not read leave unknown for later ones.

ghost use Rattle.std.specs.Prelude.{◌≡◌};
ghost use Rattle.omf_dump.specs.Later.{has_data, is_lost, lose};

use omf_frame::RecordType;

/// The tables of which not all entries are known, and whether the threads are not known: their new entries are then not named, rather than wrong.
#[derive(Clone, Copy)]
pub struct Lost {
    pub names: bool,
    pub segments: bool,
    pub groups: bool,
    pub externals: bool,
    pub threads: bool,
}

/// Whether records of this type go by something that is lost.
pub(crate) fn is_lost(lost: Lost, kind: RecordType) -> bool
    ensures { result ≡ is_lost lost kind }
{
    match kind {
        RecordType::Lnames | RecordType::Llnames => lost.names,
        RecordType::Segdef => lost.segments,
        RecordType::Grpdef => lost.groups,
        RecordType::Extdef
        | RecordType::Lextdef
        | RecordType::Comdef
        | RecordType::Lcomdef
        | RecordType::Cextdef => lost.externals,
        RecordType::Fixupp | RecordType::Modend => lost.threads,
        RecordType::Theadr
        | RecordType::Lheadr
        | RecordType::Coment
        | RecordType::Pubdef
        | RecordType::Ledata
        | RecordType::Lidata
        | RecordType::Lpubdef
        | RecordType::Typdef
        | RecordType::Linnum
        | RecordType::Linsym
        | RecordType::Alias
        | RecordType::Vernum
        | RecordType::Bakpat
        | RecordType::Comdat
        | RecordType::Nbkpat
        | RecordType::Vendext
        | RecordType::Library => false,
    }
}

/// What is lost after a record of this type that was not read.
pub(crate) fn lose(lost: Lost, kind: RecordType) -> Lost
    ensures { result ≡ lose lost kind }
{
    match kind {
        RecordType::Lnames | RecordType::Llnames => Lost {
            names: true,
            ..lost
        },
        RecordType::Segdef => Lost {
            segments: true,
            ..lost
        },
        RecordType::Grpdef => Lost {
            groups: true,
            ..lost
        },
        RecordType::Extdef
        | RecordType::Lextdef
        | RecordType::Comdef
        | RecordType::Lcomdef
        | RecordType::Cextdef => Lost {
            externals: true,
            ..lost
        },
        RecordType::Fixupp => Lost {
            threads: true,
            ..lost
        },
        RecordType::Theadr
        | RecordType::Lheadr
        | RecordType::Coment
        | RecordType::Modend
        | RecordType::Pubdef
        | RecordType::Ledata
        | RecordType::Lidata
        | RecordType::Lpubdef
        | RecordType::Typdef
        | RecordType::Linnum
        | RecordType::Linsym
        | RecordType::Alias
        | RecordType::Vernum
        | RecordType::Bakpat
        | RecordType::Comdat
        | RecordType::Nbkpat
        | RecordType::Vendext
        | RecordType::Library => lost,
    }
}

/// Whether a record of this type has data that fixups may change.
pub(crate) fn has_data(kind: RecordType) -> bool
    ensures { result ≡ has_data kind }
{
    match kind {
        RecordType::Ledata | RecordType::Lidata | RecordType::Comdat => true,
        RecordType::Theadr
        | RecordType::Lheadr
        | RecordType::Coment
        | RecordType::Modend
        | RecordType::Extdef
        | RecordType::Pubdef
        | RecordType::Lnames
        | RecordType::Segdef
        | RecordType::Grpdef
        | RecordType::Fixupp
        | RecordType::Comdef
        | RecordType::Lextdef
        | RecordType::Lpubdef
        | RecordType::Lcomdef
        | RecordType::Llnames
        | RecordType::Typdef
        | RecordType::Linnum
        | RecordType::Linsym
        | RecordType::Alias
        | RecordType::Vernum
        | RecordType::Bakpat
        | RecordType::Cextdef
        | RecordType::Nbkpat
        | RecordType::Vendext
        | RecordType::Library => false,
    }
}
