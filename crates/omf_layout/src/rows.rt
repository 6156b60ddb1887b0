//! Worked examples, each evaluated by the check.

ghost use Rattle.std.specs.Prelude.{◌≡◌, ◌++◌, [], ◌∷◌, codes, map, true, Some, None};
ghost use Rattle.omf_check.specs.Rows.{first_module};
ghost use Rattle.omf_records.specs.Values.{Comment, Near, Far};
ghost use Rattle.omf_placement.specs.Quoted.{quoted};
ghost use Rattle.omf_layout.specs.Room.{address_from, anchor, frame_at, next_multiple};
ghost use Rattle.omf_layout.specs.Rows.{aligned, lines, drafted, between, raised_in, segment, absolute, group, empty_group, external, communal, raise};
ghost use Rattle.omf_layout.specs.Wants.{alignment_by, bytes_aligned, raised_by, room_of};
ghost use Rattle.omf_layout.specs.declared.options.Frames.TheVariants.{Real, Flat};

/// The alignments of attribute bytes: byte, word, paragraph, page, doubleword. The lengths of communals.
pub fn wanted()
    ensures alignments { aligned (0x28 ∷ 0x48 ∷ 0x68 ∷ 0x88 ∷ 0xA8 ∷ 0x08 ∷ []) ≡ 1 ∷ 2 ∷ 16 ∷ 256 ∷ 4 ∷ 1 ∷ [] }
    ensures near { room_of (Near 7) ≡ 7 }
    ensures far { room_of (Far 3 5) ≡ 15 }
{}

/// The segments that comments raise: one index each, of one byte or two. A comment with another type byte or class, with no index, with two, or with one that is
/// cut short raises none. Only A = 4 is raised.
pub fn raised_ones()
    ensures indices { raised_in (between (raise (5 ∷ []) ++ raise (0x81 ∷ 0x02 ∷ []) ++ raise (0x80 ∷ 0x07 ∷ []))) ≡ 5 ∷ 0x102 ∷ 7 ∷ [] }
    ensures none { raised_in (between (raise [] ++ raise (5 ∷ 6 ∷ []) ++ raise (0x81 ∷ []) ++ raise (0x81 ∷ 0x02 ∷ 0x03 ∷ []))) ≡ [] }
    ensures other { map raised_by (Comment 0x80 0xDC (5 ∷ []) ∷ Comment 0 0xDD (5 ∷ []) ∷ []) ≡ [] ∷ [] ∷ [] }
    ensures page { map (λ a. bytes_aligned (alignment_by true a)) (0x08 ∷ 0x28 ∷ 0x68 ∷ 0x88 ∷ []) ≡ 1 ∷ 1 ∷ 16 ∷ 4096 ∷ [] }
{}

/// The first aligned address, up to the last address: 2^20 - 1 in real mode, else 2^32 - 1.
pub fn addresses()
    ensures multiple { next_multiple 16 0x12345 ≡ 0x12350 }
    ensures same { next_multiple 16 0x12350 ≡ 0x12350 }
    ensures aligned { address_from Real 4 0x10003 1 ≡ Some 0x10004 }
    ensures last { address_from Real 1 0xFFFFC 4 ≡ Some 0xFFFFC }
    ensures over { address_from Real 1 0xFFFFD 4 ≡ None }
    ensures none { address_from Real 16 0xFFFF1 0 ≡ None }
    ensures flat { address_from (Flat 8) 1 0xFFFFFFFC 4 ≡ Some 0xFFFFFFFC }
    ensures flat_over { address_from (Flat 8) 1 0xFFFFFFFD 4 ≡ None }
{}

/// The frame of an address, and the address whose frame an external takes.
pub fn frames()
    ensures real { frame_at Real 0x12345 ≡ record { base = 0x12340; selector = 0x1234 } }
    ensures flat { frame_at (Flat 8) 0x12345 ≡ record { base = 0; selector = 8 } }
    ensures near { anchor 0x10008 0x1FFFF ≡ 0x10008 }
    ensures far { anchor 0x10008 0x20000 ≡ 0x20000 }
{}

/// Drafts of a module of one segment, flat and in real mode, and of one that does not fit.
pub fn drafts_of_a_segment()
    ensures flat { drafted 0x10020 (Flat 0) first_module ≡ Some (lines (codes "S 10020 0 0 ; 1 \"T\" class \"\" align 1 length 4" ∷ [])) }
    ensures real { drafted 0x10008 Real first_module ≡ Some (lines (codes "S 10008 real ; 1 \"T\" class \"\" align 1 length 4" ∷ [])) }
    ensures none { drafted 0xFFFFD Real first_module ≡ None }
{}

/// Drafts of a module with all kinds of lines: an absolute segment takes no room from the others, a communal follows them, and the other
/// external follows the communal.
pub fn drafts_of_all_lines()
    ensures real { drafted 0x12345 Real (between (segment 0x28 3 ++ absolute ++ segment 0x68 2 ++ group ++ empty_group ++ external ++ communal)) ≡ Some (lines (codes "S 12345 real ; 1 \"T\" class \"\" align 1 length 3" ∷ codes "S B8010 B8000 B800 ; 2 \"T\" class \"\" absolute length 4" ∷ codes "S 12350 real ; 3 \"T\" class \"\" align 16 length 2" ∷ codes "G real ; 1 \"T\"" ∷ codes "G 0 0 ; 2 \"T\"" ∷ codes "E 12360 12340 1234 ; 1 \"X\" to be filled in" ∷ codes "E 12354 12340 1234 ; 2 \"Y\" communal length 7" ∷ [])) }
    ensures flat { drafted 0x401000 (Flat 8) (between (segment 0xA8 3 ++ group ++ empty_group ++ external)) ≡ Some (lines (codes "S 401000 0 8 ; 1 \"T\" class \"\" align 4 length 3" ∷ codes "G 0 8 ; 1 \"T\"" ∷ codes "G 0 8 ; 2 \"T\"" ∷ codes "E 401010 0 8 ; 1 \"X\" to be filled in" ∷ [])) }
{}

/// The draft of a module whose second segment a comment raises to 4,096 bytes. The third, which is absolute, is where its SEGDEF puts it.
pub fn drafts_of_a_raised_segment()
    ensures { drafted 0x12345 Real (between (segment 0x28 3 ++ segment 0x88 2 ++ raise (2 ∷ []) ++ absolute ++ raise (3 ∷ []))) ≡ Some (lines (codes "S 12345 real ; 1 \"T\" class \"\" align 1 length 3" ∷ codes "S 13000 real ; 2 \"T\" class \"\" align 4096 length 2" ∷ codes "S B8010 B8000 B800 ; 3 \"T\" class \"\" absolute length 4" ∷ [])) }
{}

/// Bytes of a name that are printed as \x and two digits.
pub fn quoted_names()
    ensures empty { quoted [] ≡ codes "\"\"" }
    ensures escaped { quoted (0x41 ∷ 0x22 ∷ 0x0A ∷ 0x7E ∷ 0x7F ∷ 0xFF ∷ []) ≡ codes "\"A\\x22\\x0A~\\x7F\\xFF\"" }
{}
