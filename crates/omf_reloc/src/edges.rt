//! Worked examples at the edges of the rules, each evaluated during the proof. Their checksum bytes are 00, which is always accepted.

ghost use Rattle.std.specs.Prelude.{◌≡◌, ℕ, [], ◌∷◌, ◌++◌, Ok, Err, Some, None, codes};
ghost use Rattle.omf_frame.specs.Rows.{hex};
ghost use Rattle.omf_reloc.specs.declared.fault.Cause.TheVariants as cause;
ghost use Rattle.omf_reloc.specs.declared.fault.Kind.TheVariants as kind;
ghost use Rattle.omf_reloc.specs.declared.fault.ReachFault.TheVariants as fault;
ghost use Rattle.omf_check.specs.Rows.{H, N, S, L, F, M, first_module, with_fixup, absolute};
ghost use Rattle.omf_image.specs.declared.limits.Limits.{Limits};
ghost use Rattle.omf_check.specs.Sound.{ModuleHolds};
ghost use Rattle.omf_reloc.specs.Reach.{reach_fault};
ghost use Rattle.omf_reloc.specs.Modules.{in_no_segment, using, with_start, jump_by, absolute_at, two_segments, start_at};
ghost use Rattle.omf_reloc.specs.Rows.{frame, at, places, only, low, relocated, run_from_0, started, placed_by};

/// The order of faults: missing entries, then extra entries, each by kind; then absolute segments; then references.
pub fn order_of_reach_faults()
    ensures segment { relocated using (places [] (frame 0 0 ∷ []) []) 1 ≡ Err (fault.Missing kind.Segment 1) }
    ensures external { relocated using (places (at 0x10020 0x10000 0x1000 ∷ []) (frame 0 0 ∷ []) []) 1 ≡ Err (fault.Missing kind.External 1) }
    ensures extra { relocated using (places (at 0 0 0 ∷ at 0 0 0 ∷ []) (frame 0 0 ∷ []) (at 0 0 0 ∷ at 0 0 0 ∷ [])) 1 ≡ Err (fault.Extra kind.Segment 2) }
    ensures group { relocated using (places (at 0 0 0 ∷ []) (frame 0 0 ∷ []) (at 0 0 0 ∷ at 0 0 0 ∷ [])) 1 ≡ Err (fault.Extra kind.Group 1) }
    ensures absolute { relocated absolute (only (at 0xB8000 0x10000 0x1000)) 1 ≡ Err (fault.Absolute 1) }
    ensures far { relocated using (places (at 0 0 0 ∷ []) [] (at 0x10000 0 0 ∷ [])) 1 ≡ Err (fault.TooFar 5 3 cause.Target) }
{}

/// An absolute segment with byte offset 10H: the base and the selector of its frame come from its frame number, not from its address.
pub fn absolute_with_offset()
    ensures there { relocated (absolute_at 0x10) (only (at 0xB8010 0xB8000 0xB800)) 1 ≡ run_from_0 (hex (codes "B8 10 00 90")) }
    ensures other_frame { relocated (absolute_at 0x10) (only (at 0xB8010 0xB8010 0xB801)) 1 ≡ Err (fault.Absolute 1) }
    ensures other_selector { relocated (absolute_at 0x10) (only (at 0xB8010 0xB8000 0xB801)) 1 ≡ Err (fault.Absolute 1) }
{}

/// The first reading of FFFCH is in range but too far for a short jump; the second is near enough.
pub fn second_reading_is_near()
    ensures { relocated (jump_by 0xFC 0xFF) (places (at 0x10020 0x10000 0x1000 ∷ []) [] (at 0x10025 0x10000 0x1000 ∷ [])) 1 ≡ run_from_0 (hex (codes "EB FF 00 90")) }
{}

/// A short jump reaches 128 bytes back, and no further.
pub fn jump_back()
    ensures last { relocated (jump_by 0 0) (places (at 0x10080 0x10000 0x1000 ∷ []) [] (at 0x10002 0x10000 0x1000 ∷ [])) 1 ≡ run_from_0 (hex (codes "EB 80 00 90")) }
    ensures beyond { relocated (jump_by 0 0) (places (at 0x10080 0x10000 0x1000 ∷ []) [] (at 0x10001 0x10000 0x1000 ∷ [])) 1 ≡ Err (fault.TooFar 5 3 cause.Distance) }
{}

/// A displacement has the width of its record, an offset the width of its location: 20H + FFFCH at a 32-bit location.
pub fn narrow_displacement()
    ensures { relocated (with_fixup (hex (codes "9C 08 00 E4 00 00 01 01 FC FF 00"))) low 1 ≡ run_from_0 (hex (codes "D4 00 01 90")) }
{}

/// A base fixup reaches wherever its target is. A group's address is its frame's base, whatever the selector.
pub fn bases_and_groups()
    ensures base { relocated (with_fixup (hex (codes "9C 06 00 C8 01 04 01 01 00"))) (only (at 0x90000 0x10000 0x1000)) 1 ≡ run_from_0 (hex (codes "B8 00 10 90")) }
    ensures group { relocated (H ++ N ++ S ++ hex (codes "9A 04 00 02 FF 01 00") ++ L ++ hex (codes "9C 05 00 C4 01 45 01 00") ++ M) (places (at 0x10020 0x10000 0x1000 ∷ []) (frame 0x10010 5 ∷ []) []) 1 ≡ run_from_0 (hex (codes "B8 10 00 90")) }
{}

/// The fixups of a data record come from all FIXUPPs before the next data record, even with other records in between.
pub fn two_fixupps()
    ensures { relocated (H ++ N ++ S ++ L ++ F ++ hex (codes "88 03 00 00 00 00") ++ F ++ M) low 1 ≡ run_from_0 (hex (codes "B8 40 00 90")) }
{}

/// A start without a displacement. A start's offset has 16 bits in 8AH and 32 bits in 8BH.
pub fn starts()
    ensures narrow { started (start_at 0x8A) low ≡ Ok (Some (0x1000, 0x20)) }
    ensures beyond { started (start_at 0x8A) (only (at 0x20000 0x10000 0x1000)) ≡ Err (fault.TooFar 3 4 cause.Target) }
    ensures wide { started (start_at 0x8B) (only (at 0x20000 0x10000 0x1000)) ≡ Ok (Some (0x1000, 0x10000)) }
    ensures none { started first_module low ≡ Ok None }
{}

/// A line loses its carriage return, its comment and its spaces, in this order, and only one carriage return.
pub fn line_ends()
    ensures spaces { placed_by first_module (codes "  S 10020 10000 1000  ;" ++ 13 ∷ 10 ∷ 10 ∷ []) ≡ Ok low }
    ensures two_returns { placed_by first_module (codes "S 1 0 0" ++ 13 ∷ 13 ∷ []) ≡ Err 1 }
    ensures return_in_comment { placed_by first_module (codes "S 10020 10000 1000;" ++ 13 ∷ 13 ∷ []) ≡ Ok low }
    ensures return_before_comment { placed_by first_module (codes "S 1 0 0" ++ 13 ∷ codes ";") ≡ Err 1 }
    ensures tab { placed_by first_module (codes "S 1 0 0" ++ 9 ∷ []) ≡ Err 1 }
{}

/// Digits in either case, no more of them than a number may have, and nothing else.
pub fn digits_of_words()
    ensures case { placed_by first_module (codes "S aBcDeF01 fF 1a") ≡ Ok (only (at 0xABCDEF01 0xFF 0x1A)) }
    ensures nine { placed_by first_module (codes "S 000000001 0 0") ≡ Err 1 }
    ensures five { placed_by first_module (codes "S 0 0 00001") ≡ Err 1 }
    ensures prefix { placed_by first_module (codes "S 0x1 0 0") ≡ Err 1 }
    ensures real_case { placed_by first_module (codes "S 10020 REAL") ≡ Err 1 }
    ensures word_too_many { placed_by first_module (codes "S 1 0 0 0") ≡ Err 1 }
    ensures external_real { placed_by first_module (codes "E 10020 real") ≡ Err 1 }
{}

/// The letters may come in any order, and a group may be placed before its members.
pub fn mixed_letters()
    ensures members { placed_by with_start (codes "G real" ++ 10 ∷ codes "S 10020 real") ≡ Ok (places (at 0x10020 0x10020 0x1002 ∷ []) (frame 0x10020 0x1002 ∷ []) []) }
    ensures externals { placed_by using (codes "E 2 0 0" ++ 10 ∷ codes "S 1 0 0") ≡ Ok (places (at 1 0 0 ∷ []) [] (at 2 0 0 ∷ [])) }
    ensures counted { placed_by with_start (codes "G 0 0" ++ 10 ∷ codes "S 10020 real" ++ 10 ∷ codes "G real") ≡ Err 3 }
    ensures text_first { placed_by first_module (codes "G real" ++ 10 ∷ codes "x") ≡ Err 2 }
    ensures unplaced { placed_by with_start (codes "G real") ≡ Err 1 }
{}

/// A real group has the frame of its lowest placed member; at a tie, of the member that its GRPDEF names first, here the second segment.
pub fn lowest_member()
    ensures tie { placed_by two_segments (codes "S 10020 10000 1000" ++ 10 ∷ codes "S 10020 10010 1001" ++ 10 ∷ codes "G real") ≡ Ok (places (at 0x10020 0x10000 0x1000 ∷ at 0x10020 0x10010 0x1001 ∷ []) (frame 0x10010 0x1001 ∷ []) []) }
    ensures lower { placed_by two_segments (codes "S 1001F 10000 1000" ++ 10 ∷ codes "S 10020 10010 1001" ++ 10 ∷ codes "G real") ≡ Ok (places (at 0x1001F 0x10000 0x1000 ∷ at 0x10020 0x10010 0x1001 ∷ []) (frame 0x10000 0x1000 ∷ []) []) }
    ensures unplaced { placed_by two_segments (codes "S 1 0 0" ++ 10 ∷ codes "G real") ≡ Err 2 }
{}

/// A 32-bit displacement at a 16-bit location, low bytes, location type 5, and a 32-bit self-relative location.
pub fn more_locations()
    ensures wide_displacement { relocated (with_fixup (hex (codes "9D 0A 00 C4 01 00 01 01 FC FF FF FF 00"))) low 1 ≡ run_from_0 (hex (codes "B8 1C 00 90")) }
    ensures five { relocated (with_fixup (hex (codes "9C 06 00 D4 01 04 01 01 00"))) low 1 ≡ run_from_0 (hex (codes "B8 20 00 90")) }
    ensures low_byte { relocated (with_fixup (hex (codes "9C 06 00 C0 01 04 01 01 00"))) (only (at 0x10120 0x10000 0x1000)) 1 ≡ run_from_0 (hex (codes "B8 20 00 90")) }
    ensures low_byte_beyond { relocated (with_fixup (hex (codes "9C 06 00 C0 01 04 01 01 00"))) (only (at 0x20000 0x10000 0x1000)) 1 ≡ Err (fault.TooFar 4 3 cause.Target) }
    ensures self_relative { relocated (with_fixup (hex (codes "9C 06 00 A4 00 04 01 01 00"))) low 1 ≡ run_from_0 (hex (codes "B4 00 00 90")) }
{}

/// A short jump may be at an offset beyond 16 bits. Its location is checked before its distance.
pub fn far_jumps()
    ensures beyond_16_bits { relocated (with_fixup (hex (codes "9C 06 00 80 01 04 01 01 00"))) (only (at 0x20000 0x10000 0x1000)) 1 ≡ run_from_0 (hex (codes "B8 FE 00 90")) }
    ensures location { relocated (jump_by 0 0) (places (at 0x10020 0x20000 0x2000 ∷ []) [] (at 0x30000 0x20000 0x2000 ∷ [])) 1 ≡ Err (fault.TooFar 5 3 cause.Location) }
{}

/// An offset that overflows its word carries nothing into the selector.
pub fn no_carry()
    ensures { relocated (with_fixup (hex (codes "9C 06 00 CC 00 04 01 01 00"))) (only (at 0x1FFFF 0x10000 0x1000)) 1 ≡ run_from_0 (hex (codes "B7 00 00 A0")) }
{}

/// Data in segment 7, and a fixup to that segment, where no segment is defined: the look-ups find nothing, so the fixup does not reach. No
/// module with these records is well formed.
pub fn look_ups_that_find_nothing()
    ensures too_far { reach_fault (places [] [] []) in_no_segment ≡ Some (fault.TooFar 1 3 cause.Target) }
    ensures not_held { (limits : Limits) → ModuleHolds limits in_no_segment → ⊥ }
{}
