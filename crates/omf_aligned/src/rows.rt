//! Worked examples, with values worked out by hand from the standard.

ghost use Rattle.std.specs.Prelude.{◌≡◌, ◌∷◌, [], None, Some, codes, false, true};
ghost use Rattle.omf_frame.specs.Framing.{front_record};
ghost use Rattle.omf_frame.specs.Rows.{hex};
ghost use Rattle.omf_aligned.specs.Aligned.{block_comment, gets_pages};
ghost use Rattle.omf_aligned.specs.Rows.{origin, paged};
ghost use Rattle.omf_explicit.specs.Rows.{bytes_of};

/// The comment of the segment with index 1, and with index 128, which has two bytes.
pub fn comments()
    ensures one { block_comment 1 ≡ front_record (hex (codes "88 04 00 00 DC 01 97")) }
    ensures two { block_comment 128 ≡ front_record (hex (codes "88 05 00 00 DC 80 80 97")) }
{}

/// A = 6 (bits 7 to 5 of the attribute byte) becomes A = 4, and a comment with the segment's index follows; A = 7 becomes A = 4.
pub fn alignments()
    ensures six { paged (codes "80 03 00 01 41 3B" ∷ codes "98 07 00 28 04 00 02 01 01 31" ∷ codes "98 07 00 C8 04 00 02 01 01 91" ∷ codes "8A 02 00 00 74" ∷ [])
        ≡ bytes_of (codes "80 03 00 01 41 3B" ∷ codes "98 07 00 28 04 00 02 01 01 31" ∷ codes "98 07 00 88 04 00 02 01 01 D1" ∷ codes "88 04 00 00 DC 02 96" ∷ codes "8A 02 00 00 74" ∷ []) }
    ensures seven { paged (codes "80 03 00 01 41 3B" ∷ codes "98 07 00 E8 04 00 02 01 01 71" ∷ codes "8A 02 00 00 74" ∷ [])
        ≡ bytes_of (codes "80 03 00 01 41 3B" ∷ codes "98 07 00 88 04 00 02 01 01 D1" ∷ codes "8A 02 00 00 74" ∷ []) }
    ensures wide { paged (codes "80 03 00 01 41 3B" ∷ codes "99 09 00 C9 00 00 01 00 02 01 01 90" ∷ codes "8A 02 00 00 74" ∷ [])
        ≡ bytes_of (codes "80 03 00 01 41 3B" ∷ codes "99 09 00 89 00 00 01 00 02 01 01 D0" ∷ codes "88 04 00 00 DC 01 97" ∷ codes "8A 02 00 00 74" ∷ []) }
    ensures big { paged (codes "80 03 00 01 41 3B" ∷ codes "98 07 00 CA 00 00 02 01 01 93" ∷ codes "8A 02 00 00 74" ∷ [])
        ≡ bytes_of (codes "80 03 00 01 41 3B" ∷ codes "98 07 00 8A 00 00 02 01 01 D3" ∷ codes "88 04 00 00 DC 01 97" ∷ codes "8A 02 00 00 74" ∷ []) }
    ensures both { paged (codes "80 03 00 01 41 3B" ∷ codes "98 07 00 C8 04 00 02 01 01 91" ∷ codes "98 07 00 E8 04 00 02 01 01 71" ∷ codes "98 07 00 C8 04 00 02 01 01 91" ∷ codes "8A 02 00 00 74" ∷ [])
        ≡ bytes_of (codes "80 03 00 01 41 3B" ∷ codes "98 07 00 88 04 00 02 01 01 D1" ∷ codes "88 04 00 00 DC 01 97" ∷ codes "98 07 00 88 04 00 02 01 01 D1" ∷ codes "98 07 00 88 04 00 02 01 01 D1" ∷ codes "88 04 00 00 DC 03 95" ∷ codes "8A 02 00 00 74" ∷ []) }
    ensures no_checksum { paged (codes "80 03 00 01 41 3B" ∷ codes "98 07 00 C8 04 00 02 01 01 00" ∷ codes "8A 02 00 00 74" ∷ [])
        ≡ bytes_of (codes "80 03 00 01 41 3B" ∷ codes "98 07 00 88 04 00 02 01 01 D1" ∷ codes "88 04 00 00 DC 01 97" ∷ codes "8A 02 00 00 74" ∷ []) }
{}

/// A SEGDEF with A = 0 to 5 stays. So does one with a wrong checksum byte, one that is cut short, one with a byte too many, and a Big one with a length.
pub fn others()
    ensures five { paged (codes "80 03 00 01 41 3B" ∷ codes "98 07 00 A8 04 00 02 01 01 B1" ∷ codes "8A 02 00 00 74" ∷ [])
        ≡ bytes_of (codes "80 03 00 01 41 3B" ∷ codes "98 07 00 A8 04 00 02 01 01 B1" ∷ codes "8A 02 00 00 74" ∷ []) }
    ensures checksum { paged (codes "80 03 00 01 41 3B" ∷ codes "98 07 00 C8 04 00 02 01 01 55" ∷ codes "8A 02 00 00 74" ∷ [])
        ≡ bytes_of (codes "80 03 00 01 41 3B" ∷ codes "98 07 00 C8 04 00 02 01 01 55" ∷ codes "8A 02 00 00 74" ∷ []) }
    ensures cut { paged (codes "80 03 00 01 41 3B" ∷ codes "98 06 00 C8 04 00 02 01 93" ∷ codes "8A 02 00 00 74" ∷ [])
        ≡ bytes_of (codes "80 03 00 01 41 3B" ∷ codes "98 06 00 C8 04 00 02 01 93" ∷ codes "8A 02 00 00 74" ∷ []) }
    ensures long { paged (codes "80 03 00 01 41 3B" ∷ codes "98 08 00 C8 04 00 02 01 01 01 8F" ∷ codes "8A 02 00 00 74" ∷ [])
        ≡ bytes_of (codes "80 03 00 01 41 3B" ∷ codes "98 08 00 C8 04 00 02 01 01 01 8F" ∷ codes "8A 02 00 00 74" ∷ []) }
    ensures big { paged (codes "80 03 00 01 41 3B" ∷ codes "98 07 00 CA 04 00 02 01 01 8F" ∷ codes "8A 02 00 00 74" ∷ [])
        ≡ bytes_of (codes "80 03 00 01 41 3B" ∷ codes "98 07 00 CA 04 00 02 01 01 8F" ∷ codes "8A 02 00 00 74" ∷ []) }
    ensures changed { gets_pages (front_record (hex (codes "98 07 00 C8 04 00 02 01 01 91")) ∷ []) ≡ true }
    ensures none { gets_pages (front_record (hex (codes "98 07 00 A8 04 00 02 01 01 B1")) ∷ []) ≡ false }
{}

/// The comment after a SEGDEF with A = 6 comes from the SEGDEF, and there is none after one with A = 7.
pub fn origins()
    ensures segdef { origin (codes "80 03 00 01 41 3B" ∷ codes "98 07 00 C8 04 00 02 01 01 91" ∷ codes "98 07 00 E8 04 00 02 01 01 71" ∷ codes "8A 02 00 00 74" ∷ []) 1 ≡ Some 1 }
    ensures comment { origin (codes "80 03 00 01 41 3B" ∷ codes "98 07 00 C8 04 00 02 01 01 91" ∷ codes "98 07 00 E8 04 00 02 01 01 71" ∷ codes "8A 02 00 00 74" ∷ []) 2 ≡ Some 1 }
    ensures next { origin (codes "80 03 00 01 41 3B" ∷ codes "98 07 00 C8 04 00 02 01 01 91" ∷ codes "98 07 00 E8 04 00 02 01 01 71" ∷ codes "8A 02 00 00 74" ∷ []) 3 ≡ Some 2 }
    ensures end { origin (codes "80 03 00 01 41 3B" ∷ codes "98 07 00 C8 04 00 02 01 01 91" ∷ codes "98 07 00 E8 04 00 02 01 01 71" ∷ codes "8A 02 00 00 74" ∷ []) 4 ≡ Some 3 }
    ensures none { origin (codes "80 03 00 01 41 3B" ∷ codes "98 07 00 C8 04 00 02 01 01 91" ∷ codes "98 07 00 E8 04 00 02 01 01 71" ∷ codes "8A 02 00 00 74" ∷ []) 5 ≡ None }
{}
