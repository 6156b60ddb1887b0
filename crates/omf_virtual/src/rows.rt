//! Worked examples, with values worked out by hand from the standard.

ghost use Rattle.std.specs.Prelude.{◌≡◌, ◌∷◌, [], None, Some, codes, false, true};
ghost use Rattle.omf_virtual.specs.Rows.{a_and_v, bytes_of, comdat_v, data_v, extern_f, extern_v, gets, header, lnames, lowered, modend, name_v, near_a, origin, text};

/// A virtual segment of two LEDATAs, with a fixup to it; 32-bit records; an LIDATA of each width; THREADs; a start; a group with the index; no data; a far communal beside it; two whose data
/// come in the other order; externals of other records before it, and no LNAMES.
pub fn virtual_segments()
    ensures two { lowered (header ∷ lnames ∷ text ∷ a_and_v ∷ extern_f ∷ data_v ∷ codes "A0 06 00 C0 02 02 00 90 06" ∷ codes "A0 06 00 01 00 00 00 00 59" ∷ codes "9C 08 00 C4 00 04 C0 02 C0 02 10" ∷ modend ∷ [])
        ≡ bytes_of (header ∷ lnames ∷ name_v ∷ text ∷ near_a ∷ extern_v ∷ extern_f ∷ comdat_v ∷ codes "C2 0B 00 01 10 00 02 00 00 00 01 04 90 8B" ∷ codes "A0 06 00 01 00 00 00 00 59" ∷ codes "9C 06 00 C4 00 26 02 02 70" ∷ modend ∷ []) }
    ensures wide { lowered (header ∷ lnames ∷ text ∷ a_and_v ∷ codes "A1 09 00 C0 02 00 00 00 00 B8 00 DC" ∷ codes "9D 0A 00 C4 00 50 C0 02 01 00 00 00 82" ∷ codes "8B 02 00 00 73" ∷ [])
        ≡ bytes_of (header ∷ lnames ∷ name_v ∷ text ∷ near_a ∷ extern_v ∷ codes "C3 0E 00 00 10 00 00 00 00 00 00 00 01 04 B8 00 62" ∷ codes "9D 09 00 C4 00 52 02 01 00 00 00 41" ∷ codes "8B 02 00 00 73" ∷ []) }
    ensures blocks { lowered (header ∷ lnames ∷ text ∷ a_and_v ∷ codes "A2 0B 00 C0 02 00 00 03 00 00 00 01 90 FD" ∷ modend ∷ [])
        ≡ bytes_of (header ∷ lnames ∷ name_v ∷ text ∷ near_a ∷ extern_v ∷ codes "C2 10 00 02 10 00 00 00 00 00 01 04 03 00 00 00 01 90 83" ∷ modend ∷ []) }
    ensures wide_blocks { lowered (header ∷ lnames ∷ text ∷ a_and_v ∷ codes "A3 0F 00 C0 02 00 00 00 00 03 00 00 00 00 00 01 90 F8" ∷ modend ∷ [])
        ≡ bytes_of (header ∷ lnames ∷ name_v ∷ text ∷ near_a ∷ extern_v ∷ codes "C3 14 00 02 10 00 00 00 00 00 00 00 01 04 03 00 00 00 00 00 01 90 7E" ∷ modend ∷ []) }
    ensures threads { lowered (header ∷ lnames ∷ text ∷ a_and_v ∷ data_v ∷ codes "9C 0A 00 01 C0 02 41 C0 02 C4 00 9D 33" ∷ modend ∷ [])
        ≡ bytes_of (header ∷ lnames ∷ name_v ∷ text ∷ near_a ∷ extern_v ∷ comdat_v ∷ codes "9C 08 00 09 02 49 02 C4 00 9D A5" ∷ modend ∷ []) }
    ensures start { lowered (header ∷ lnames ∷ text ∷ a_and_v ∷ data_v ∷ codes "8A 08 00 C0 00 01 C0 02 00 00 EB" ∷ [])
        ≡ bytes_of (header ∷ lnames ∷ name_v ∷ text ∷ near_a ∷ extern_v ∷ comdat_v ∷ codes "8A 07 00 C0 02 01 02 00 00 AA" ∷ []) }
    ensures group { lowered (header ∷ lnames ∷ text ∷ a_and_v ∷ data_v ∷ codes "9C 07 00 C4 00 14 C0 02 01 C2" ∷ modend ∷ [])
        ≡ bytes_of (header ∷ lnames ∷ name_v ∷ text ∷ near_a ∷ extern_v ∷ comdat_v ∷ codes "9C 07 00 C4 00 14 C0 02 01 C2" ∷ modend ∷ []) }
    ensures empty { lowered (header ∷ lnames ∷ text ∷ a_and_v ∷ codes "9C 08 00 C4 00 04 C0 02 C0 02 10" ∷ modend ∷ [])
        ≡ bytes_of (header ∷ lnames ∷ text ∷ near_a ∷ codes "B0 07 00 02 5F 76 00 62 03 0D" ∷ codes "9C 06 00 C4 00 26 02 02 70" ∷ modend ∷ []) }
    ensures far { lowered (header ∷ lnames ∷ text ∷ codes "B0 0E 00 02 5F 61 00 61 02 04 02 5F 76 00 01 03 3E" ∷ data_v ∷ modend ∷ [])
        ≡ bytes_of (header ∷ lnames ∷ name_v ∷ text ∷ codes "B0 08 00 02 5F 61 00 61 02 04 1F" ∷ extern_v ∷ comdat_v ∷ modend ∷ []) }
    ensures order { lowered (header ∷ lnames ∷ text ∷ codes "B0 0D 00 02 5F 76 00 01 01 02 5F 77 00 01 01 90" ∷ codes "A0 06 00 C0 02 00 00 90 08" ∷ codes "A0 06 00 C0 01 00 00 CB CE" ∷ modend ∷ [])
        ≡ bytes_of (header ∷ lnames ∷ codes "96 04 00 02 5F 77 8E" ∷ name_v ∷ text ∷ extern_v ∷ codes "8C 05 00 02 5F 77 00 97" ∷ codes "C2 0B 00 00 10 00 00 00 00 00 01 04 90 8E" ∷ codes "C2 0B 00 00 10 00 00 00 00 00 01 05 CB 52" ∷ modend ∷ []) }
    ensures after { lowered (header ∷ text ∷ extern_f ∷ codes "B4 05 00 02 5F 67 00 7F" ∷ codes "B8 07 00 02 5F 68 00 62 01 15" ∷ codes "B0 07 00 02 5F 76 00 01 03 6E" ∷ codes "A0 07 00 C0 04 00 00 B8 00 DD" ∷ modend ∷ [])
        ≡ bytes_of (header ∷ name_v ∷ text ∷ extern_f ∷ codes "B4 05 00 02 5F 67 00 7F" ∷ codes "B8 07 00 02 5F 68 00 62 01 15" ∷ extern_v ∷ codes "C2 0C 00 00 10 00 00 00 00 00 01 01 B8 00 68" ∷ modend ∷ []) }
{}

/// Data of an external that has no virtual segment stay, and so do data of index 4000H, which is none's, and data with a wrong checksum byte.
pub fn others()
    ensures other { lowered (header ∷ lnames ∷ text ∷ a_and_v ∷ data_v ∷ codes "A0 06 00 C0 01 00 00 90 09" ∷ modend ∷ [])
        ≡ bytes_of (header ∷ lnames ∷ name_v ∷ text ∷ near_a ∷ extern_v ∷ comdat_v ∷ codes "A0 06 00 C0 01 00 00 90 09" ∷ modend ∷ []) }
    ensures base { lowered (header ∷ lnames ∷ text ∷ a_and_v ∷ data_v ∷ codes "A0 06 00 C0 00 00 00 90 0A" ∷ modend ∷ [])
        ≡ bytes_of (header ∷ lnames ∷ name_v ∷ text ∷ near_a ∷ extern_v ∷ comdat_v ∷ codes "A0 06 00 C0 00 00 00 90 0A" ∷ modend ∷ []) }
    ensures checksum { lowered (header ∷ lnames ∷ text ∷ a_and_v ∷ codes "A0 07 00 C0 02 00 00 B8 00 E0" ∷ modend ∷ [])
        ≡ bytes_of (header ∷ lnames ∷ text ∷ near_a ∷ codes "B0 07 00 02 5F 76 00 62 03 0D" ∷ codes "A0 07 00 C0 02 00 00 B8 00 E0" ∷ modend ∷ []) }
{}

/// A module gets COMDATs if a COMDEF has a data type from 01H to 5FH. One whose COMDEF is cut short does not, nor one with a CEXTDEF, nor one with data of a virtual segment
/// before a name.
pub fn modules()
    ensures changed { gets (header ∷ lnames ∷ text ∷ a_and_v ∷ data_v ∷ modend ∷ []) ≡ true }
    ensures last { gets (header ∷ lnames ∷ text ∷ codes "B0 07 00 02 5F 76 00 5F 03 10" ∷ modend ∷ []) ≡ true }
    ensures past { gets (header ∷ lnames ∷ text ∷ codes "B0 07 00 02 5F 76 00 60 03 0F" ∷ modend ∷ []) ≡ false }
    ensures none { gets (header ∷ lnames ∷ text ∷ near_a ∷ modend ∷ []) ≡ false }
    ensures cut { gets (header ∷ lnames ∷ text ∷ codes "B0 06 00 02 5F 76 00 01 72" ∷ modend ∷ []) ≡ false }
    ensures cextdef { gets (header ∷ lnames ∷ text ∷ a_and_v ∷ codes "BC 03 00 03 00 3E" ∷ data_v ∷ modend ∷ []) ≡ false }
    ensures name { gets (header ∷ lnames ∷ text ∷ a_and_v ∷ data_v ∷ name_v ∷ modend ∷ []) ≡ false }
{}

/// The LNAMES of a COMDAT comes from the LNAMES before it, and the records in place of a COMDEF come from that.
pub fn origins()
    ensures lnames { origin (header ∷ lnames ∷ text ∷ a_and_v ∷ data_v ∷ modend ∷ []) 1 ≡ Some 1 }
    ensures name { origin (header ∷ lnames ∷ text ∷ a_and_v ∷ data_v ∷ modend ∷ []) 2 ≡ Some 1 }
    ensures text { origin (header ∷ lnames ∷ text ∷ a_and_v ∷ data_v ∷ modend ∷ []) 3 ≡ Some 2 }
    ensures first { origin (header ∷ lnames ∷ text ∷ a_and_v ∷ data_v ∷ modend ∷ []) 4 ≡ Some 3 }
    ensures second { origin (header ∷ lnames ∷ text ∷ a_and_v ∷ data_v ∷ modend ∷ []) 5 ≡ Some 3 }
    ensures data { origin (header ∷ lnames ∷ text ∷ a_and_v ∷ data_v ∷ modend ∷ []) 6 ≡ Some 4 }
    ensures end { origin (header ∷ lnames ∷ text ∷ a_and_v ∷ data_v ∷ modend ∷ []) 7 ≡ Some 5 }
    ensures none { origin (header ∷ lnames ∷ text ∷ a_and_v ∷ data_v ∷ modend ∷ []) 8 ≡ None }
{}
