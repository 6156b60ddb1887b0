//! Worked examples, evaluated during the proof. Their bytes are made by hand.

ghost use Rattle.std.specs.Prelude.{◌≡◌, ◌++◌, [], None, codes};
ghost use Rattle.omf_check.specs.Module.{records_in};
ghost use Rattle.omf_check.specs.Rows.{H, N, S, F, M};
ghost use Rattle.omf_frame.specs.Rows.{hex};
ghost use Rattle.omf_frame.specs.declared.fault.Reason.TheVariants as reason;
ghost use Rattle.omf_lowering.specs.Lowering.{fault_at};
ghost use Rattle.omf_lowering.specs.Rows.{Refuses, base, f, f_data, f_mark, f_public, f_segment, front, g, g_made, lowers, two_bytes, u, u_public, word};

pub mod unrolled;

/// An external of a CEXTDEF has the name that its index has in the table of names. It is local if an LLNAMES has the name.
pub fn externals()
    ensures one { lowers (H ++ N ++ hex (codes "BC 03 00 02 00 3F") ++ M) ≡ H ++ N ++ hex (codes "8C 04 00 01 54 00 1B") ++ M }
    ensures two { lowers (H ++ N ++ hex (codes "BC 05 00 02 00 01 05 37") ++ M) ≡ H ++ N ++ hex (codes "8C 04 00 01 54 00 1B") ++ hex (codes "8C 03 00 00 05 6C") ++ M }
    ensures long { lowers (H ++ N ++ hex (codes "BC 04 00 80 02 00 BE") ++ M) ≡ H ++ N ++ hex (codes "8C 04 00 01 54 00 1B") ++ M }
    ensures local { lowers (H ++ N ++ hex (codes "CA 03 00 01 55 DD") ++ hex (codes "BC 03 00 03 00 3E") ++ M)
        ≡ H ++ N ++ hex (codes "CA 03 00 01 55 DD") ++ hex (codes "B4 04 00 01 55 00 F2") ++ M }
    ensures mixed { lowers (H ++ N ++ hex (codes "CA 03 00 01 55 DD") ++ hex (codes "BC 07 00 02 00 03 05 01 00 32") ++ M)
        ≡ H ++ N ++ hex (codes "CA 03 00 01 55 DD") ++ hex (codes "8C 04 00 01 54 00 1B") ++ hex (codes "B4 04 00 01 55 05 ED") ++ hex (codes "8C 03 00 00 00 71") ++ M }
    ensures after_local { lowers (H ++ hex (codes "CA 03 00 01 55 DD") ++ hex (codes "96 03 00 01 55 11") ++ hex (codes "BC 03 00 02 00 3F") ++ M)
        ≡ H ++ hex (codes "CA 03 00 01 55 DD") ++ hex (codes "96 03 00 01 55 11") ++ hex (codes "8C 04 00 01 55 00 1A") ++ M }
    ensures none { lowers (H ++ hex (codes "BC 01 00 43") ++ M) ≡ H ++ M }
{}

/// A name has to be defined before, and each name index has its type index. A fault of layout comes first.
pub fn external_faults()
    ensures undefined { Refuses (H ++ N) (hex (codes "BC 05 00 02 00 04 00 39")) 5 reason.UndefinedName }
    ensures zero { Refuses (H ++ N) (hex (codes "BC 03 00 00 00 41")) 3 reason.UndefinedName }
    ensures later { Refuses H (hex (codes "BC 03 00 02 00 3F")) 3 reason.UndefinedName }
    ensures cut { Refuses (H ++ N) (hex (codes "BC 04 00 02 00 02 3C")) 6 reason.Short }
    ensures layout { Refuses H (hex (codes "BC 04 00 02 00 02 3C")) 6 reason.Short }
{}

/// The value is added to the location modulo its size, and a fixup of the data follows as it was.
pub fn values()
    ensures word { lowers (front ++ word ++ F ++ M) ≡ H ++ N ++ S ++ hex (codes "A0 08 00 01 00 00 B8 34 12 90 C9") ++ F ++ M }
    ensures byte { lowers (front ++ hex (codes "B2 07 00 01 00 00 00 48 01 FD") ++ M) ≡ H ++ N ++ S ++ hex (codes "A0 08 00 01 00 00 00 00 00 90 C7") ++ M }
    ensures doubleword { lowers (front ++ hex (codes "B3 0B 00 01 02 00 00 00 00 FF FF FF FF 43") ++ M)
        ≡ H ++ N ++ S ++ hex (codes "A0 08 00 01 00 00 B7 00 00 90 10") ++ M }
    ensures wide { lowers (front ++ hex (codes "B3 0B 00 01 00 03 00 00 00 71 00 00 00 CD") ++ M) ≡ H ++ N ++ S ++ hex (codes "A0 08 00 01 00 00 B8 00 00 01 9E") ++ M }
    ensures twice { lowers (front ++ hex (codes "B2 0B 00 01 01 01 00 FF 00 01 00 01 00 3F") ++ M) ≡ H ++ N ++ S ++ hex (codes "A0 08 00 01 00 00 B8 00 01 90 0E") ++ M }
    ensures none { lowers (front ++ hex (codes "B2 03 00 01 01 46") ++ M) ≡ front ++ M }
{}

/// The value is added to the last data before it that have the location. Data after it are not changed.
pub fn last_data()
    ensures last { lowers (front ++ hex (codes "A0 06 00 01 02 00 05 00 52") ++ hex (codes "B2 07 00 01 01 02 00 34 12 FD") ++ M)
        ≡ front ++ hex (codes "A0 06 00 01 02 00 39 12 0C") ++ M }
    ensures later { lowers (front ++ word ++ hex (codes "A0 06 00 01 02 00 05 00 52") ++ M)
        ≡ H ++ N ++ S ++ hex (codes "A0 08 00 01 00 00 B8 34 12 90 C9") ++ hex (codes "A0 06 00 01 02 00 05 00 52") ++ M }
    ensures apart { lowers (front ++ two_bytes ++ hex (codes "B2 07 00 01 01 02 00 34 12 FD") ++ M) ≡ H ++ N ++ S ++ hex (codes "A0 08 00 01 00 00 B8 00 34 A2 C9") ++ two_bytes ++ M }
{}

/// A location without data, in repeated data, or partly in other data.
pub fn value_faults()
    ensures none { Refuses (H ++ N ++ S) word 5 reason.NoDataRecord }
    ensures segment { Refuses front (hex (codes "B2 07 00 02 01 00 00 00 00 44")) 5 reason.NoDataRecord }
    ensures repeated { Refuses (front ++ two_bytes) word 5 reason.FixupOnIterated }
    ensures past { Refuses front (hex (codes "B2 07 00 01 01 03 00 00 00 42")) 5 reason.OutsideRecord }
    ensures partly { Refuses (front ++ hex (codes "A0 06 00 01 02 00 05 00 52")) word 5 reason.OutsideRecord }
    ensures location { Refuses front (hex (codes "B2 07 00 01 02 00 00 00 00 44")) 4 reason.LocationType }
    ensures cut { Refuses front (hex (codes "B2 06 00 01 01 03 00 00 43")) 7 reason.Short }
{}

/// Framing: a fault is that of the first of the input's end, the type, the length and the checksum. A VENDEXT has no other fault.
pub fn framing()
    ensures end { Refuses H [] 0 reason.NoEnd }
    ensures unknown { Refuses H (hex (codes "7F")) 0 reason.UnknownType }
    ensures cut { Refuses H (hex (codes "B2 07 00 01")) 4 reason.Cut }
    ensures empty { Refuses H (hex (codes "B2 00 00")) 1 reason.EmptyRecord }
    ensures checksum { Refuses front (hex (codes "B2 07 00 01 01 01 00 34 12 01")) 9 reason.Checksum }
    ensures layout { Refuses H (hex (codes "96 03 00 05 41 21")) 3 reason.Short }
    ensures vendor { fault_at (records_in H) (hex (codes "CE 05 00 01 00 AA BB C7")) ≡ None }
    ensures vendor_checksum { Refuses H (hex (codes "CE 05 00 01 00 AA BB C8")) 7 reason.Checksum }
{}

/// A VENDEXT is left out. Records of the standard that are not lowered are kept.
pub fn vendors()
    ensures left_out { lowers (H ++ hex (codes "CE 05 00 01 00 AA BB C7") ++ N ++ M) ≡ H ++ N ++ M }
    ensures data { lowers (front ++ hex (codes "CE 05 00 01 00 AA BB C7") ++ F ++ M) ≡ front ++ F ++ M }
    ensures library { lowers (H ++ hex (codes "F1 02 00 00 0D") ++ M) ≡ H ++ hex (codes "F1 02 00 00 0D") ++ M }
{}

/// A COMDAT with an explicit base: a piece of the base segment with its own alignment, and a public name at its start.
pub fn comdats()
    ensures explicit { lowers (base ++ f ++ M) ≡ base ++ f_segment ++ f_public ++ f_mark ++ f_data ++ M }
    ensures as_the_base { lowers (base ++ hex (codes "C2 0D 00 00 10 00 00 00 05 00 01 03 B8 00 00 60") ++ M)
        ≡ base ++ hex (codes "99 09 00 28 03 00 00 00 02 01 01 2F") ++ hex (codes "91 0A 00 00 02 01 66 00 00 00 00 05 F7") ++ f_mark ++ f_data ++ M }
    ensures offset { lowers (base ++ hex (codes "C2 0D 00 00 10 02 04 00 00 00 01 03 B8 00 00 5F") ++ M)
        ≡ base ++ hex (codes "99 09 00 48 07 00 00 00 02 01 01 0B") ++ f_public ++ f_mark ++ hex (codes "A0 07 00 02 04 00 B8 00 00 9B") ++ M }
    ensures grouped { lowers (base ++ hex (codes "9A 04 00 02 FF 01 60") ++ hex (codes "C2 0D 00 00 10 02 00 00 00 01 01 03 B8 00 00 62") ++ M)
        ≡ base ++ hex (codes "9A 04 00 02 FF 01 60") ++ f_segment ++ hex (codes "91 0A 00 01 02 01 66 00 00 00 00 00 FB") ++ f_mark ++ f_data ++ M }
    ensures wide { lowers (base ++ hex (codes "C3 0F 00 00 10 05 00 00 00 00 00 00 01 03 B8 00 00 5D") ++ M)
        ≡ base ++ hex (codes "99 09 00 A8 03 00 00 00 02 01 01 AF") ++ f_public ++ f_mark ++ hex (codes "A1 09 00 02 00 00 00 00 B8 00 00 9C") ++ M }
    ensures second { lowers (base ++ f ++ g ++ M) ≡ base ++ f_segment ++ f_public ++ f_mark ++ f_data ++ g_made ++ M }
{}

/// The LINSYM of a COMDAT, f at index 3 of the names, becomes a LINNUM of its segment, with the same lines.
pub fn lines()
    ensures own { lowers (base ++ f ++ hex (codes "C4 07 00 00 03 05 00 00 00 2D") ++ M) ≡ base ++ f_segment ++ f_public ++ f_mark ++ f_data ++ hex (codes "94 07 00 00 02 05 00 00 00 5E") ++ M }
    ensures wide { lowers (base ++ f ++ hex (codes "C5 09 00 00 03 05 00 00 00 00 00 2A") ++ M)
        ≡ base ++ f_segment ++ f_public ++ f_mark ++ f_data ++ hex (codes "95 09 00 00 02 05 00 00 00 00 00 5B") ++ M }
    ensures continued { lowers (base ++ f ++ hex (codes "C4 07 00 01 03 06 00 02 00 29") ++ M)
        ≡ base ++ f_segment ++ f_public ++ f_mark ++ f_data ++ hex (codes "94 07 00 00 02 06 00 02 00 5B") ++ M }
    ensures second { lowers (base ++ f ++ g ++ hex (codes "C4 07 00 00 04 05 00 00 00 2C") ++ M)
        ≡ base ++ f_segment ++ f_public ++ f_mark ++ f_data ++ g_made ++ hex (codes "94 07 00 00 03 05 00 00 00 5D") ++ M }
{}

/// A LINSYM stays if no COMDAT before it has its name, if it names nothing, or if its index is cut.
pub fn other_lines()
    ensures alone { lowers (base ++ hex (codes "C4 07 00 00 03 05 00 00 00 2D") ++ M) ≡ base ++ hex (codes "C4 07 00 00 03 05 00 00 00 2D") ++ M }
    ensures other { lowers (base ++ f ++ hex (codes "C4 07 00 00 04 05 00 00 00 2C") ++ M)
        ≡ base ++ f_segment ++ f_public ++ f_mark ++ f_data ++ hex (codes "C4 07 00 00 04 05 00 00 00 2C") ++ M }
    ensures undefined { lowers (base ++ f ++ hex (codes "C4 07 00 00 05 05 00 00 00 2B") ++ M)
        ≡ base ++ f_segment ++ f_public ++ f_mark ++ f_data ++ hex (codes "C4 07 00 00 05 05 00 00 00 2B") ++ M }
    ensures cut { lowers (base ++ f ++ hex (codes "C4 02 00 00 3A") ++ M) ≡ base ++ f_segment ++ f_public ++ f_mark ++ f_data ++ hex (codes "C4 02 00 00 3A") ++ M }
{}

/// A COMDAT whose name is of an LLNAMES is local, with or without its flag, and its CEXTDEF is an LEXTDEF.
pub fn local_comdats()
    ensures local { lowers (base ++ u ++ hex (codes "C2 0D 00 04 10 02 00 00 00 00 01 05 B8 00 00 5D") ++ M)
        ≡ base ++ u ++ f_segment ++ u_public ++ f_mark ++ f_data ++ M }
    ensures unflagged { lowers (base ++ u ++ hex (codes "C2 0D 00 00 10 02 00 00 00 00 01 05 B8 00 00 61") ++ M)
        ≡ base ++ u ++ f_segment ++ u_public ++ f_mark ++ f_data ++ M }
    ensures asked { lowers (base ++ u ++ hex (codes "BC 03 00 05 00 3C") ++ hex (codes "C2 0D 00 04 10 02 00 00 00 00 01 05 B8 00 00 5D") ++ M)
        ≡ base ++ u ++ hex (codes "B4 04 00 01 75 00 D2") ++ f_segment ++ u_public ++ f_mark ++ f_data ++ M }
    ensures continued { lowers (base ++ u ++ hex (codes "C2 0D 00 04 10 02 00 00 00 00 01 05 B8 00 00 5D") ++ hex (codes "C2 0B 00 05 10 02 03 00 00 00 01 05 90 83") ++ M)
        ≡ base ++ u ++ hex (codes "99 09 00 48 04 00 00 00 02 01 01 0E") ++ u_public ++ f_mark ++ f_data ++ hex (codes "A0 05 00 02 03 00 90 C6") ++ M }
    ensures flagged { Refuses base (hex (codes "C2 0D 00 04 10 02 00 00 00 00 01 03 B8 00 00 5F")) 11 reason.UnsupportedType }
{}

/// A COMDAT that the linker allocates: a segment of its name, of the class CODE if a name has that text.
pub fn allocated_comdats()
    ensures far_code { lowers (base ++ hex (codes "C2 0B 00 00 11 00 00 00 00 03 B8 00 00 67") ++ M)
        ≡ base ++ hex (codes "99 09 00 68 03 00 00 00 03 04 01 EB") ++ f_public ++ f_mark ++ f_data ++ M }
    ensures far_data { lowers (base ++ hex (codes "C2 0B 00 00 02 02 00 00 00 03 B8 00 00 74") ++ M)
        ≡ base ++ hex (codes "99 09 00 48 03 00 00 00 03 03 01 0C") ++ f_public ++ hex (codes "88 0A 00 80 DC 43 4F 4D 44 41 54 00 5A") ++ f_data ++ M }
    ensures code32 { lowers (base ++ hex (codes "C2 0B 00 00 33 05 00 00 00 03 B8 00 00 40") ++ M)
        ≡ base ++ hex (codes "99 09 00 A9 03 00 00 00 03 04 01 AA") ++ f_public ++ hex (codes "88 0A 00 80 DC 43 4F 4D 44 41 54 03 57") ++ f_data ++ M }
    ensures data32 { lowers (base ++ hex (codes "C2 0B 00 00 24 00 00 00 00 03 B8 00 00 54") ++ M)
        ≡ base ++ hex (codes "99 09 00 69 03 00 00 00 03 03 01 EB") ++ f_public ++ hex (codes "88 0A 00 80 DC 43 4F 4D 44 41 54 02 58") ++ f_data ++ M }
{}

/// A COMDAT with blocks: its length is that of the expanded data.
pub fn repeated_comdats()
    ensures blocks { lowers (base ++ hex (codes "C2 10 00 02 10 02 00 00 00 00 01 03 03 00 00 00 01 90 82") ++ M)
        ≡ base ++ f_segment ++ f_public ++ f_mark ++ hex (codes "A2 0A 00 02 00 00 03 00 00 00 01 90 BE") ++ M }
    ensures wide_blocks { lowers (base ++ hex (codes "C3 14 00 02 10 02 02 00 00 00 00 00 01 03 03 00 00 00 00 00 01 90 7B") ++ M)
        ≡ base ++ hex (codes "99 09 00 48 05 00 00 00 02 01 01 0D") ++ f_public ++ f_mark ++ hex (codes "A3 0E 00 02 02 00 00 00 03 00 00 00 00 00 01 90 B7") ++ M }
{}

/// The data of a continued COMDAT follow in the segment of its name, whose length is the largest end.
pub fn continued_comdats()
    ensures longer { lowers (base ++ f ++ hex (codes "C2 0C 00 01 10 02 03 00 00 00 01 03 90 90 F8") ++ M)
        ≡ base ++ hex (codes "99 09 00 48 05 00 00 00 02 01 01 0D") ++ f_public ++ f_mark ++ f_data ++ hex (codes "A0 06 00 02 03 00 90 90 35") ++ M }
    ensures inside { lowers (base ++ f ++ hex (codes "C2 0B 00 01 10 02 01 00 00 00 01 03 90 8B") ++ M)
        ≡ base ++ f_segment ++ f_public ++ f_mark ++ f_data ++ hex (codes "A0 05 00 02 01 00 90 C8") ++ M }
    ensures far_apart { lowers (base ++ f ++ g ++ hex (codes "C2 0B 00 01 10 02 03 00 00 00 01 03 90 89") ++ hex (codes "C2 0B 00 01 10 02 09 00 00 00 01 03 91 82") ++ M)
        ≡ base ++ hex (codes "99 09 00 48 0A 00 00 00 02 01 01 08") ++ f_public ++ f_mark ++ f_data ++ g_made ++ hex (codes "A0 05 00 02 03 00 90 C6") ++ hex (codes "A0 05 00 02 09 00 91 BF") ++ M }
{}

/// A fixup of the data follows as it was.
pub fn comdat_fixups()
    ensures fixed { lowers (base ++ f ++ hex (codes "9C 06 00 C4 01 04 01 01 93") ++ M)
        ≡ base ++ f_segment ++ f_public ++ f_mark ++ f_data ++ hex (codes "9C 06 00 C4 01 04 01 01 93") ++ M }
{}

/// A COMDAT cut short, with an undefined selection, allocation or alignment. A fault of layout comes first.
pub fn comdat_layouts()
    ensures cut { Refuses base (hex (codes "C2 03 00 00 00 3B")) 5 reason.Short }
    ensures selection { Refuses base (hex (codes "C2 0D 00 00 40 02 00 00 00 00 01 03 B8 00 00 33")) 4 reason.UnsupportedType }
    ensures allocation { Refuses base (hex (codes "C2 0B 00 00 15 02 00 00 00 03 B8 00 00 61")) 4 reason.UnsupportedType }
    ensures align { Refuses base (hex (codes "C2 0D 00 00 10 06 00 00 00 00 01 03 B8 00 00 5F")) 5 reason.Alignment }
    ensures layout_first { Refuses base (hex (codes "C2 09 00 00 10 02 00 00 00 09 09 11")) 11 reason.Short }
{}

/// A base or a name that is not defined, a base that no linker joins, data past the longest segment; two COMDATs of one name, a continued one without its first, and a segment after a COMDAT.
pub fn comdat_references()
    ensures group { Refuses base (hex (codes "C2 0D 00 00 10 02 00 00 00 01 01 03 B8 00 00 62")) 9 reason.UndefinedGroup }
    ensures segment { Refuses base (hex (codes "C2 0D 00 00 10 02 00 00 00 00 02 03 B8 00 00 62")) 10 reason.UndefinedSegment }
    ensures absolute { Refuses base (hex (codes "C2 0F 00 00 10 02 00 00 00 00 00 00 F0 03 B8 00 00 72")) 10 reason.UnsupportedType }
    ensures name { Refuses base (hex (codes "C2 0D 00 00 10 02 00 00 00 00 01 05 B8 00 00 61")) 11 reason.UndefinedName }
    ensures no_name { Refuses base (hex (codes "C2 0D 00 00 10 02 00 00 00 00 01 00 B8 00 00 66")) 11 reason.UndefinedName }
    ensures end { Refuses base (hex (codes "C3 0F 00 00 10 02 FD FF FF FF 00 00 01 03 B8 00 00 66")) 6 reason.OutsideSegment }
    ensures own { Refuses (base ++ f) (hex (codes "C2 0D 00 00 10 02 00 00 00 00 02 04 B8 00 00 61")) 10 reason.UndefinedSegment }
    ensures private { Refuses (base ++ hex (codes "98 07 00 20 04 00 02 01 01 39")) (hex (codes "C2 0D 00 00 10 02 00 00 00 00 02 03 B8 00 00 62")) 10 reason.UnsupportedType }
    ensures stack { Refuses (base ++ hex (codes "98 07 00 74 04 00 02 01 01 E5")) (hex (codes "C2 0D 00 00 10 02 00 00 00 00 02 03 B8 00 00 62")) 10 reason.UnsupportedType }
    ensures twice { Refuses (base ++ f) f 11 reason.UnsupportedType }
    ensures unbegun { Refuses base (hex (codes "C2 0D 00 01 10 02 00 00 00 00 01 03 B8 00 00 62")) 11 reason.UnsupportedType }
    ensures late { Refuses (base ++ f) (hex (codes "98 07 00 28 04 00 02 01 01 31")) 0 reason.UnsupportedType }
{}

/// After a COMDAT no index names its segment: of data, a public, a group's member, a frame, a target, a start, a backpatch, or a THREAD before it.
pub fn comdat_segments()
    ensures data { Refuses (base ++ f) (hex (codes "A0 05 00 02 00 00 90 C9")) 3 reason.UndefinedSegment }
    ensures public { Refuses (base ++ f) (hex (codes "90 08 00 00 02 01 66 00 00 00 FF")) 4 reason.UndefinedSegment }
    ensures member { Refuses (base ++ f) (hex (codes "9A 04 00 02 FF 02 5F")) 5 reason.UndefinedSegment }
    ensures frame { Refuses (base ++ f) (hex (codes "9C 06 00 C4 01 04 02 01 92")) 6 reason.UndefinedSegment }
    ensures target { Refuses (base ++ f) (hex (codes "9C 06 00 C4 01 04 01 02 92")) 7 reason.UndefinedSegment }
    ensures start { Refuses (base ++ f) (hex (codes "8A 07 00 C1 00 02 01 00 00 AB")) 5 reason.UndefinedSegment }
    ensures backpatch { Refuses (base ++ f) (hex (codes "B2 07 00 02 01 00 00 00 00 44")) 3 reason.UndefinedSegment }
    ensures thread { Refuses (base ++ hex (codes "9C 03 00 00 02 5F")) f 0 reason.UndefinedSegment }
    ensures own { fault_at (records_in (base ++ f)) (hex (codes "A0 05 00 01 00 00 90 CA")) ≡ None }
    ensures unmarked { fault_at (records_in base) (hex (codes "A0 05 00 02 00 00 90 C9")) ≡ None }
{}

/// The values of an NBKPAT are added to the data of the COMDAT with its name, and of those that continue it.
pub fn named_values()
    ensures word { lowers (base ++ f ++ hex (codes "C8 07 00 01 03 01 00 34 12 E6") ++ M)
        ≡ base ++ f_segment ++ f_public ++ f_mark ++ hex (codes "A0 07 00 02 00 00 B8 34 12 59") ++ M }
    ensures wide { lowers (base ++ f ++ hex (codes "C9 0B 00 00 03 00 00 00 00 48 00 00 00 E1") ++ M)
        ≡ base ++ f_segment ++ f_public ++ f_mark ++ hex (codes "A0 07 00 02 00 00 00 00 00 57") ++ M }
    ensures continued { lowers (base ++ f ++ hex (codes "C2 0C 00 01 10 02 03 00 00 00 01 03 90 90 F8") ++ hex (codes "C8 0B 00 00 03 04 00 01 00 03 00 02 00 20") ++ M)
        ≡ base ++ hex (codes "99 09 00 48 05 00 00 00 02 01 01 0D") ++ f_public ++ f_mark ++ f_data ++ hex (codes "A0 06 00 02 03 00 92 91 32") ++ M }
    ensures other { lowers (base ++ f ++ g ++ hex (codes "C8 07 00 01 04 01 00 34 12 E5") ++ M)
        ≡ base ++ f_segment ++ f_public ++ f_mark ++ f_data ++ hex (codes "99 09 00 48 03 00 00 00 02 01 01 0F") ++ hex (codes "91 0D 00 00 03 04 43 4F 44 45 00 00 00 00 00 40") ++ f_mark ++ hex (codes "A0 07 00 03 00 00 B8 34 12 58") ++ M }
{}

/// An NBKPAT cut short or with an undefined location type, whose name is not defined or has no COMDAT before it, or with a location outside of the data.
pub fn named_value_faults()
    ensures location { Refuses (base ++ f) (hex (codes "C8 07 00 02 03 01 00 01 00 2A")) 3 reason.LocationType }
    ensures cut { Refuses (base ++ f) (hex (codes "C8 08 00 01 03 01 00 01 00 00 2A")) 9 reason.Short }
    ensures layout_first { Refuses (base ++ f) (hex (codes "C8 04 00 01 05 00 2E")) 5 reason.Short }
    ensures name { Refuses (base ++ f) (hex (codes "C8 07 00 01 05 01 00 01 00 29")) 4 reason.UndefinedName }
    ensures no_comdat { Refuses (base ++ f) (hex (codes "C8 07 00 01 04 01 00 01 00 2A")) 4 reason.UnsupportedType }
    ensures later { Refuses base (hex (codes "C8 07 00 01 03 01 00 01 00 2B")) 4 reason.UnsupportedType }
    ensures past { Refuses (base ++ f) (hex (codes "C8 07 00 01 03 02 00 01 00 2A")) 5 reason.OutsideRecord }
    ensures none { Refuses (base ++ f) (hex (codes "C8 0B 00 01 03 00 00 01 00 03 00 01 00 24")) 9 reason.NoDataRecord }
{}
