//! Worked examples, each evaluated by the check.

ghost use Rattle.std.specs.Prelude.{◌≡◌, [], ◌∷◌, map, None, Some};
ghost use Rattle.omf_layout.specs.Several.Rows.{group, of_records, raise, segment};
ghost use Rattle.omf_layout.specs.Wants.{bytes_aligned};
ghost use Rattle.omf_reloc.specs.Rows.{at, frame, only, places};
ghost use Rattle.omf_reloc.specs.declared.fault.Kind.TheVariants as kind;
ghost use Rattle.omf_warnings.specs.Frames.{first_groups, first_parts, framed};
ghost use Rattle.omf_warnings.specs.Lying.{lyings};
ghost use Rattle.omf_warnings.specs.RealMode.{first_unreal};

/// Public parts (attribute 28H) of one segment in two frames, and in one; a public and a common part (38H), and two private segments (20H).
pub fn frames_of_parts()
    ensures apart { first_parts (of_records (segment 0x28 5 2 1 ∷ []) ∷ of_records (segment 0x28 5 2 1 ∷ []) ∷ []) (only (at 0x7C00 0x7C00 0x7C0) ∷ only (at 0x7C10 0x7C10 0x7C1) ∷ []) ≡ Some (framed kind.Segment 0 1 (frame 0x7C00 0x7C0), framed kind.Segment 1 1 (frame 0x7C10 0x7C1)) }
    ensures together { first_parts (of_records (segment 0x28 5 2 1 ∷ []) ∷ of_records (segment 0x28 5 2 1 ∷ []) ∷ []) (only (at 0x7C00 0x7C00 0x7C0) ∷ only (at 0x7C10 0x7C00 0x7C0) ∷ []) ≡ None }
    ensures other { first_parts (of_records (segment 0x28 5 2 1 ∷ []) ∷ of_records (segment 0x38 5 2 1 ∷ []) ∷ []) (only (at 0x7C00 0x7C00 0x7C0) ∷ only (at 0x7C10 0x7C10 0x7C1) ∷ []) ≡ None }
    ensures private { first_parts (of_records (segment 0x20 5 2 1 ∷ []) ∷ of_records (segment 0x20 5 2 1 ∷ []) ∷ []) (only (at 0x7C00 0x7C00 0x7C0) ∷ only (at 0x7C10 0x7C10 0x7C1) ∷ []) ≡ None }
{}

/// Groups of one name with two frames.
pub fn frames_of_groups()
    ensures { first_groups ((of_records (segment 0x28 5 2 1 ∷ group 3 1 ∷ []), places (at 0x10000 0x10000 0x1000 ∷ []) (frame 0x10000 0x1000 ∷ []) []) ∷ (of_records (segment 0x28 5 2 1 ∷ group 3 1 ∷ []), places (at 0x10010 0x10000 0x1000 ∷ []) (frame 0x10010 0x1001 ∷ []) []) ∷ []) ≡ Some (framed kind.Group 0 1 (frame 0x10000 0x1000), framed kind.Group 1 1 (frame 0x10010 0x1001)) }
{}

/// A base of 500H with the selector 51H, after a frame of real mode and alone; and a 32-bit segment (29H) after one of real mode.
pub fn frames_of_real_mode()
    ensures wrong { first_unreal ((of_records (segment 0x28 5 2 1 ∷ []), only (at 0x7C00 0x7C00 0x7C0)) ∷ (of_records (segment 0x28 5 2 1 ∷ []), only (at 0x500 0x500 0x51)) ∷ []) ≡ Some (framed kind.Segment 1 1 (frame 0x500 0x51)) }
    ensures alone { first_unreal ((of_records (segment 0x28 5 2 1 ∷ []), only (at 0x500 0x500 0x51)) ∷ []) ≡ None }
    ensures wide { first_unreal ((of_records (segment 0x28 5 2 1 ∷ []), only (at 0x7C00 0x7C00 0x7C0)) ∷ (of_records (segment 0x29 5 2 1 ∷ []), only (at 0x100000 0 8)) ∷ []) ≡ None }
{}

/// The alignments of two segments of 256 bytes, of which a comment raises the second.
pub fn alignments()
    ensures { map (λ l. bytes_aligned l.alignment) (lyings ((of_records (segment 0x88 5 2 1 ∷ segment 0x88 5 3 1 ∷ raise 2 ∷ []), only (at 0x7C00 0x7C00 0x7C0)) ∷ [])) ≡ 256 ∷ 4096 ∷ [] }
{}
