//! Worked examples, with values worked out by hand from the standard.

ghost use Rattle.std.specs.Prelude.{◌≡◌, ◌∷◌, [], codes, None, Ok, Some};
ghost use Rattle.omf_records.specs.Inner.Reading.{read_body};
ghost use Rattle.omf_records.specs.Values.{Segment};
ghost use Rattle.omf_explicit.specs.Explicit.{distinct, place_in, segment};
ghost use Rattle.omf_explicit.specs.Origins.{origin_from};
ghost use Rattle.omf_explicit.specs.Rows.{bytes_of, origin, plain};

/// Numbers, each once.
pub fn numbers_once()
    ensures order { distinct (64 ∷ 61440 ∷ 64 ∷ 0 ∷ 61440 ∷ []) ≡ 64 ∷ 61440 ∷ 0 ∷ [] }
    ensures first { place_in (64 ∷ 61440 ∷ 0 ∷ []) 64 ≡ 1 }
    ensures third { place_in (64 ∷ 61440 ∷ 0 ∷ []) 0 ≡ 3 }
    ensures none { place_in (64 ∷ 61440 ∷ 0 ∷ []) 65 ≡ 0 }
{}

/// The segment of the frame 0040H is absolute at paragraph 40H, and Big: 64 KB.
pub fn segment_of_frame()
    ensures { read_body 0x98 (segment 0x40).body ≡ Ok (Segment (record { attribute = 2; absolute = Some (0x40, 0); size = 0; name = record { within = 9; item = 0 }; class = record { within = 10; item = 0 }; overlay = 0 })) }
{}

/// A frame by number is a segment after the last SEGDEF, or, without one, after the header.
pub fn frames_by_number()
    ensures both { plain (codes "80 03 00 01 41 3B" ∷ codes "98 07 00 28 04 00 02 01 01 31" ∷ codes "A0 08 00 01 00 00 A1 00 00 CB EB" ∷ codes "9C 0A 00 C4 01 33 40 00 40 00 17 00 CB" ∷ codes "8A 02 00 00 74" ∷ [])
        ≡ bytes_of (codes "80 03 00 01 41 3B" ∷ codes "98 07 00 28 04 00 02 01 01 31" ∷ codes "98 0A 00 02 40 00 00 00 00 00 00 00 1C" ∷ codes "A0 08 00 01 00 00 A1 00 00 CB EB" ∷ codes "9C 08 00 C4 01 00 02 02 17 00 7C" ∷ codes "8A 02 00 00 74" ∷ []) }
    ensures wide { plain (codes "80 03 00 01 41 3B" ∷ codes "98 07 00 28 04 00 02 01 01 31" ∷ codes "A0 08 00 01 00 00 A1 00 00 CB EB" ∷ codes "9D 0C 00 C4 01 33 40 00 40 00 17 00 00 00 C8" ∷ codes "8A 02 00 00 74" ∷ [])
        ≡ bytes_of (codes "80 03 00 01 41 3B" ∷ codes "98 07 00 28 04 00 02 01 01 31" ∷ codes "98 0A 00 02 40 00 00 00 00 00 00 00 1C" ∷ codes "A0 08 00 01 00 00 A1 00 00 CB EB" ∷ codes "9D 0A 00 C4 01 00 02 02 17 00 00 00 79" ∷ codes "8A 02 00 00 74" ∷ []) }
    ensures two { plain (codes "80 03 00 01 41 3B" ∷ codes "98 07 00 28 04 00 02 01 01 31" ∷ codes "A0 08 00 01 00 00 A1 00 00 CB EB" ∷ codes "9C 0A 00 C4 01 33 00 B8 40 00 17 00 53" ∷ codes "8A 02 00 00 74" ∷ [])
        ≡ bytes_of (codes "80 03 00 01 41 3B" ∷ codes "98 07 00 28 04 00 02 01 01 31" ∷ codes "98 0A 00 02 00 B8 00 00 00 00 00 00 A4" ∷ codes "98 0A 00 02 40 00 00 00 00 00 00 00 1C" ∷ codes "A0 08 00 01 00 00 A1 00 00 CB EB" ∷ codes "9C 08 00 C4 01 00 02 03 17 00 7B" ∷ codes "8A 02 00 00 74" ∷ []) }
    ensures t7 { plain (codes "80 03 00 01 41 3B" ∷ codes "98 07 00 28 04 00 02 01 01 31" ∷ codes "A0 08 00 01 00 00 A1 00 00 CB EB" ∷ codes "9C 06 00 C4 01 57 40 00 02" ∷ codes "8A 02 00 00 74" ∷ [])
        ≡ bytes_of (codes "80 03 00 01 41 3B" ∷ codes "98 07 00 28 04 00 02 01 01 31" ∷ codes "98 0A 00 02 40 00 00 00 00 00 00 00 1C" ∷ codes "A0 08 00 01 00 00 A1 00 00 CB EB" ∷ codes "9C 05 00 C4 01 54 02 44" ∷ codes "8A 02 00 00 74" ∷ []) }
    ensures frame { plain (codes "80 03 00 01 41 3B" ∷ codes "98 07 00 28 04 00 02 01 01 31" ∷ codes "A0 08 00 01 00 00 A1 00 00 CB EB" ∷ codes "9C 09 00 C4 01 30 F0 FF 01 17 00 5F" ∷ codes "8A 02 00 00 74" ∷ [])
        ≡ bytes_of (codes "80 03 00 01 41 3B" ∷ codes "98 07 00 28 04 00 02 01 01 31" ∷ codes "98 0A 00 02 F0 FF 00 00 00 00 00 00 6D" ∷ codes "A0 08 00 01 00 00 A1 00 00 CB EB" ∷ codes "9C 08 00 C4 01 00 02 01 17 00 7D" ∷ codes "8A 02 00 00 74" ∷ []) }
    ensures threads { plain (codes "80 03 00 01 41 3B" ∷ codes "98 07 00 28 04 00 02 01 01 31" ∷ codes "A0 08 00 01 00 00 A1 00 00 CB EB" ∷ codes "9C 0A 00 4C 00 B8 1D F0 FF C8 01 8D F4" ∷ codes "8A 02 00 00 74" ∷ [])
        ≡ bytes_of (codes "80 03 00 01 41 3B" ∷ codes "98 07 00 28 04 00 02 01 01 31" ∷ codes "98 0A 00 02 00 B8 00 00 00 00 00 00 A4" ∷ codes "98 0A 00 02 F0 FF 00 00 00 00 00 00 6D" ∷ codes "A0 08 00 01 00 00 A1 00 00 CB EB" ∷ codes "9C 08 00 40 02 11 03 C8 01 8D B0" ∷ codes "8A 02 00 00 74" ∷ []) }
    ensures shortest { plain (codes "80 03 00 01 41 3B" ∷ codes "98 07 00 28 04 00 02 01 01 31" ∷ codes "A0 08 00 01 00 00 A1 00 00 CB EB" ∷ codes "9C 0A 00 C4 01 13 80 01 40 00 17 00 AA" ∷ codes "8A 02 00 00 74" ∷ [])
        ≡ bytes_of (codes "80 03 00 01 41 3B" ∷ codes "98 07 00 28 04 00 02 01 01 31" ∷ codes "98 0A 00 02 40 00 00 00 00 00 00 00 1C" ∷ codes "A0 08 00 01 00 00 A1 00 00 CB EB" ∷ codes "9C 08 00 C4 01 10 01 02 17 00 6D" ∷ codes "8A 02 00 00 74" ∷ []) }
    ensures start { plain (codes "80 03 00 01 41 3B" ∷ codes "98 07 00 28 04 00 02 01 01 31" ∷ codes "8A 09 00 C1 33 FF FF FF FF 00 00 7D" ∷ [])
        ≡ bytes_of (codes "80 03 00 01 41 3B" ∷ codes "98 07 00 28 04 00 02 01 01 31" ∷ codes "98 0A 00 02 FF FF 00 00 00 00 00 00 5E" ∷ codes "8A 07 00 C1 00 02 02 00 00 AA" ∷ []) }
    ensures no_segment { plain (codes "80 03 00 01 41 3B" ∷ codes "8A 09 00 C1 33 FF FF FF FF 00 00 7D" ∷ [])
        ≡ bytes_of (codes "80 03 00 01 41 3B" ∷ codes "98 0A 00 02 FF FF 00 00 00 00 00 00 5E" ∷ codes "8A 07 00 C1 00 01 01 00 00 AC" ∷ []) }
    ensures after { plain (codes "80 03 00 01 41 3B" ∷ codes "98 07 00 28 04 00 02 01 01 31" ∷ codes "9C 04 00 4C 40 00 D4" ∷ codes "98 07 00 28 04 00 02 01 01 31" ∷ codes "8A 02 00 00 74" ∷ [])
        ≡ bytes_of (codes "80 03 00 01 41 3B" ∷ codes "98 07 00 28 04 00 02 01 01 31" ∷ codes "9C 03 00 40 03 1E" ∷ codes "98 07 00 28 04 00 02 01 01 31" ∷ codes "98 0A 00 02 40 00 00 00 00 00 00 00 1C" ∷ codes "8A 02 00 00 74" ∷ []) }
{}

/// A record without frame numbers stays, also with an index of two bytes. So do one with a wrong checksum byte, one that is cut short, and one with method F6.
pub fn others()
    ensures others { plain (codes "80 03 00 01 41 3B" ∷ codes "98 07 00 28 04 00 02 01 01 31" ∷ codes "A0 08 00 01 00 00 A1 00 00 CB EB" ∷ codes "9C 09 00 C4 01 00 80 01 01 17 00 FD" ∷ codes "8A 02 00 00 74" ∷ [])
        ≡ bytes_of (codes "80 03 00 01 41 3B" ∷ codes "98 07 00 28 04 00 02 01 01 31" ∷ codes "A0 08 00 01 00 00 A1 00 00 CB EB" ∷ codes "9C 09 00 C4 01 00 80 01 01 17 00 FD" ∷ codes "8A 02 00 00 74" ∷ []) }
    ensures checksum { plain (codes "80 03 00 01 41 3B" ∷ codes "98 07 00 28 04 00 02 01 01 31" ∷ codes "A0 08 00 01 00 00 A1 00 00 CB EB" ∷ codes "9C 0A 00 C4 01 33 40 00 40 00 17 00 CC" ∷ codes "8A 02 00 00 74" ∷ [])
        ≡ bytes_of (codes "80 03 00 01 41 3B" ∷ codes "98 07 00 28 04 00 02 01 01 31" ∷ codes "A0 08 00 01 00 00 A1 00 00 CB EB" ∷ codes "9C 0A 00 C4 01 33 40 00 40 00 17 00 CC" ∷ codes "8A 02 00 00 74" ∷ []) }
    ensures cut { plain (codes "80 03 00 01 41 3B" ∷ codes "98 07 00 28 04 00 02 01 01 31" ∷ codes "A0 08 00 01 00 00 A1 00 00 CB EB" ∷ codes "9C 09 00 C4 01 33 40 00 40 00 17 CC" ∷ codes "8A 02 00 00 74" ∷ [])
        ≡ bytes_of (codes "80 03 00 01 41 3B" ∷ codes "98 07 00 28 04 00 02 01 01 31" ∷ codes "A0 08 00 01 00 00 A1 00 00 CB EB" ∷ codes "9C 09 00 C4 01 33 40 00 40 00 17 CC" ∷ codes "8A 02 00 00 74" ∷ []) }
    ensures f6 { plain (codes "80 03 00 01 41 3B" ∷ codes "98 07 00 28 04 00 02 01 01 31" ∷ codes "A0 08 00 01 00 00 A1 00 00 CB EB" ∷ codes "9C 07 00 C4 01 60 01 17 00 20" ∷ codes "8A 02 00 00 74" ∷ [])
        ≡ bytes_of (codes "80 03 00 01 41 3B" ∷ codes "98 07 00 28 04 00 02 01 01 31" ∷ codes "A0 08 00 01 00 00 A1 00 00 CB EB" ∷ codes "9C 07 00 C4 01 60 01 17 00 20" ∷ codes "8A 02 00 00 74" ∷ []) }
{}

/// Of four records, with one, two, none and one in their places, the second has those with numbers 1 and 2, and the last the one with number 3.
pub fn origins()
    ensures first { origin_from 0 (1 ∷ 2 ∷ 0 ∷ 1 ∷ []) 0 ≡ Some 0 }
    ensures second { origin_from 0 (1 ∷ 2 ∷ 0 ∷ 1 ∷ []) 2 ≡ Some 1 }
    ensures last { origin_from 0 (1 ∷ 2 ∷ 0 ∷ 1 ∷ []) 3 ≡ Some 3 }
    ensures none { origin_from 0 (1 ∷ 2 ∷ 0 ∷ 1 ∷ []) 4 ≡ None }
{}

/// The segments of two frames are records 2 and 3, and come from the SEGDEF before them, record 1; the FIXUPP after them was record 2.
pub fn segments_origins()
    ensures before { origin (codes "80 03 00 01 41 3B" ∷ codes "98 07 00 28 04 00 02 01 01 31" ∷ codes "9C 07 00 4C 00 B8 0D F0 FF 00" ∷ codes "8A 02 00 00 74" ∷ []) 1 ≡ 1 }
    ensures first { origin (codes "80 03 00 01 41 3B" ∷ codes "98 07 00 28 04 00 02 01 01 31" ∷ codes "9C 07 00 4C 00 B8 0D F0 FF 00" ∷ codes "8A 02 00 00 74" ∷ []) 2 ≡ 1 }
    ensures second { origin (codes "80 03 00 01 41 3B" ∷ codes "98 07 00 28 04 00 02 01 01 31" ∷ codes "9C 07 00 4C 00 B8 0D F0 FF 00" ∷ codes "8A 02 00 00 74" ∷ []) 3 ≡ 1 }
    ensures fixups { origin (codes "80 03 00 01 41 3B" ∷ codes "98 07 00 28 04 00 02 01 01 31" ∷ codes "9C 07 00 4C 00 B8 0D F0 FF 00" ∷ codes "8A 02 00 00 74" ∷ []) 4 ≡ 2 }
    ensures end { origin (codes "80 03 00 01 41 3B" ∷ codes "98 07 00 28 04 00 02 01 01 31" ∷ codes "9C 07 00 4C 00 B8 0D F0 FF 00" ∷ codes "8A 02 00 00 74" ∷ []) 5 ≡ 3 }
{}
