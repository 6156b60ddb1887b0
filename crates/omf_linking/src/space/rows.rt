//! Worked examples, each evaluated by the check.

ghost use Rattle.std.specs.Prelude.{◌≡◌, [], ◌∷◌, Some, None};
ghost use Rattle.omf_linking.specs.Space.Memory.{shares, overlap, memory_byte};
ghost use Rattle.omf_linking.specs.Space.Rows.{owner, own, common, segment, own_share};
ghost use Rattle.omf_linking.specs.Space.Segments.{segment_shares};

/// Two bytes at 10H, and two of another module at 11H: both have a byte at 11H alone.
pub fn bytes_over_bytes()
    ensures here { overlap (shares (own 0 0x10 (0xAA ∷ 0xBB ∷ []) ∷ own 1 0x11 (0xCC ∷ 0xDD ∷ []) ∷ []) 0x11) ≡ Some (owner 0, owner 1) }
    ensures before { overlap (shares (own 0 0x10 (0xAA ∷ 0xBB ∷ []) ∷ own 1 0x11 (0xCC ∷ 0xDD ∷ []) ∷ []) 0x10) ≡ None }
    ensures behind { overlap (shares (own 0 0x10 (0xAA ∷ 0xBB ∷ []) ∷ own 1 0x11 (0xCC ∷ 0xDD ∷ []) ∷ []) 0x12) ≡ None }
{}

/// Bytes that touch do not overlap, and each address has its byte; an address after them has none.
pub fn bytes_behind_bytes()
    ensures apart { overlap (shares (own 0 0x10 (0xAA ∷ []) ∷ own 1 0x11 (0xCC ∷ []) ∷ []) 0x11) ≡ None }
    ensures first { memory_byte (shares (own 0 0x10 (0xAA ∷ []) ∷ own 1 0x11 (0xCC ∷ []) ∷ []) 0x10) ≡ Some 0xAA }
    ensures next { memory_byte (shares (own 0 0x10 (0xAA ∷ []) ∷ own 1 0x11 (0xCC ∷ []) ∷ []) 0x11) ≡ Some 0xCC }
    ensures beyond { memory_byte (shares (own 0 0x10 (0xAA ∷ []) ∷ own 1 0x11 (0xCC ∷ []) ∷ []) 0x12) ≡ None }
{}

/// Common segments may overlap; the byte of the last one counts, wherever it begins.
pub fn common_over_common()
    ensures apart { overlap (shares (common 0 0x11 (0xAA ∷ 0xBB ∷ []) ∷ common 1 0x10 (0xCC ∷ 0xDD ∷ []) ∷ []) 0x11) ≡ None }
    ensures last { memory_byte (shares (common 0 0x11 (0xAA ∷ 0xBB ∷ []) ∷ common 1 0x10 (0xCC ∷ 0xDD ∷ []) ∷ []) 0x11) ≡ Some 0xDD }
    ensures longer { memory_byte (shares (common 0 0x11 (0xAA ∷ 0xBB ∷ []) ∷ common 1 0x10 (0xCC ∷ 0xDD ∷ []) ∷ []) 0x12) ≡ Some 0xBB }
{}

/// A common segment and one that is not may not share an address. Of three, the first and the next that it may not overlap are reported.
pub fn common_over_another()
    ensures two { overlap (shares (own 0 0x10 (0xAA ∷ []) ∷ common 1 0x10 (0xCC ∷ []) ∷ []) 0x10) ≡ Some (owner 0, owner 1) }
    ensures three { overlap (shares (common 0 0x10 (0xAA ∷ []) ∷ common 1 0x10 (0xBB ∷ []) ∷ own 2 0x10 (0xCC ∷ []) ∷ []) 0x10) ≡ Some (owner 0, owner 2) }
{}

/// A segment's byte is at the segment's address plus its offset: two bytes from offset 4 on, in a segment at 7C00H, are at 7C04H and
/// 7C05H.
pub fn bytes_of_segments()
    ensures before { segment_shares (segment 0 0x7C00 4 (0xAA ∷ 0xBB ∷ []) ∷ []) 0x7C03 ≡ [] }
    ensures here { segment_shares (segment 0 0x7C00 4 (0xAA ∷ 0xBB ∷ []) ∷ segment 1 0x7C05 0 (0xCC ∷ []) ∷ []) 0x7C04 ≡ own_share 0 0xAA ∷ [] }
    ensures both { segment_shares (segment 0 0x7C00 4 (0xAA ∷ 0xBB ∷ []) ∷ segment 1 0x7C05 0 (0xCC ∷ []) ∷ []) 0x7C05 ≡ own_share 0 0xBB ∷ own_share 1 0xCC ∷ [] }
    ensures low { segment_shares (segment 0 0x7C00 4 (0xAA ∷ 0xBB ∷ []) ∷ []) 4 ≡ [] }
{}
