//! Worked examples, each evaluated by the check.

ghost use Rattle.std.specs.Prelude.{◌≡◌, [], ◌∷◌, codes, Some};
ghost use Rattle.omf_layout.specs.Several.Rows.{absolute, of_records, segment};
ghost use Rattle.omf_listing.specs.Rows.{combined, extent};

/// Parts of the segment B of class A (28H, 48H: public at any and at an even address): 5 bytes at 0 and 2 at 6 are one segment of 8 bytes. Empty parts do not count; B of class C is another segment.
pub fn public_segments()
    ensures two { combined (of_records (segment 0x28 5 3 2 ∷ []) ∷ of_records (segment 0x48 2 3 2 ∷ []) ∷ []) ≡ Some (extent (codes "A") (codes "B") 0 8 ∷ []) }
    ensures empty { combined (of_records (segment 0x28 0 3 2 ∷ []) ∷ of_records (segment 0x28 3 3 2 ∷ []) ∷ of_records (segment 0x48 0 3 2 ∷ []) ∷ []) ≡ Some (extent (codes "A") (codes "B") 0 3 ∷ []) }
    ensures none { combined (of_records (segment 0x28 0 3 2 ∷ []) ∷ []) ≡ Some [] }
    ensures classes { combined (of_records (segment 0x28 2 3 2 ∷ []) ∷ of_records (segment 0x28 3 3 4 ∷ []) ∷ []) ≡ Some (extent (codes "A") (codes "B") 0 2 ∷ extent (codes "C") (codes "B") 2 5 ∷ []) }
{}

/// Of one class and name: private ones (20H) are one each; common ones (38H) are one, as long as the longest; public, common and private are three. An absolute one is by itself.
pub fn other_segments()
    ensures private { combined (of_records (segment 0x20 2 3 2 ∷ []) ∷ of_records (segment 0x20 3 3 2 ∷ []) ∷ []) ≡ Some (extent (codes "A") (codes "B") 0 2 ∷ extent (codes "A") (codes "B") 2 5 ∷ []) }
    ensures common { combined (of_records (segment 0x38 2 3 2 ∷ []) ∷ of_records (segment 0x38 4 3 2 ∷ []) ∷ []) ≡ Some (extent (codes "A") (codes "B") 0 4 ∷ []) }
    ensures stack { combined (of_records (segment 0x34 2 3 2 ∷ []) ∷ of_records (segment 0x28 4 3 2 ∷ []) ∷ []) ≡ Some (extent (codes "A") (codes "B") 0 6 ∷ []) }
    ensures mixed { combined (of_records (segment 0x20 1 3 2 ∷ segment 0x38 2 3 2 ∷ segment 0x28 4 3 2 ∷ []) ∷ []) ≡ Some (extent (codes "A") (codes "B") 0 4 ∷ extent (codes "A") (codes "B") 4 6 ∷ extent (codes "A") (codes "B") 6 7 ∷ []) }
    ensures absolute { combined (of_records (absolute 3 2 ∷ segment 0x28 4 3 2 ∷ []) ∷ []) ≡ Some (extent (codes "A") (codes "B") 0 4 ∷ extent (codes "A") (codes "B") 0xB8000 0xB8004 ∷ []) }
{}
