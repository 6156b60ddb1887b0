//! Worked examples, each evaluated by the check.

ghost use Rattle.std.specs.Prelude.{◌≡◌, [], ◌∷◌, ◌++◌, drop, length, map, zip, Some, None, Ok, Err, true, false};
ghost use Rattle.std.specs.List.{repeat};
ghost use Rattle.omf_check.specs.Threads.{F0, T0};
ghost use Rattle.omf_check.specs.declared.method.FrameMethod.TheVariants.{Target as F5};
ghost use Rattle.omf_reloc.specs.Image.{start};
ghost use Rattle.omf_output.specs.declared.exe.com_fault.ComFault.TheVariants as com_fault;
ghost use Rattle.omf_output.specs.Exe.Com.{com_loaded, counts_apart, first_fixup, first_low, is_low, piece_fault, stack_bytes, start_fault};
ghost use Rattle.omf_output.specs.Exe.Exe.{exe};
ghost use Rattle.omf_output.specs.Exe.Linked.{in_registers};
ghost use Rattle.omf_output.specs.Exe.Members.{stack};
ghost use Rattle.omf_output.specs.Exe.Memory.{IsProgram, program};
ghost use Rattle.omf_output.specs.Exe.Judged.{pieces_move};
ghost use Rattle.omf_reloc.specs.Plain.{Fixed, pieces};
ghost use Rattle.omf_output.specs.Exe.Loading.{loaded};
ghost use Rattle.omf_output.specs.Exe.Derived.{AreMovers};
ghost use Rattle.omf_output.specs.Exe.Laws.{all_moved, derived_at};
ghost use Rattle.omf_output.specs.Exe.Moved.{moved};
ghost use Rattle.omf_output.specs.Exe.Rows.{asks, at_0, base_under_offset, blocks_of_2, both_move, data_and_fixups, defines, file, fixup, in_a_group, joined_in_a_group, joined_segments, loads_its_segment, member_0, near_to_1, numbered, numbered_records, one_of_two, place, placed_at, stack_portion, their_movers, their_places, two_apart, two_apart_grouped, two_segments};
ghost use Rattle.omf_output.specs.Near.{first_stray, group_of, strays};
ghost use Rattle.omf_output.specs.Exe.Movable.{first_unmoved};
ghost use Rattle.omf_output.specs.Located.{located};
ghost use Rattle.omf_output.specs.Exe.Overlaps.{all_words};
ghost use Rattle.omf_reloc.specs.Inner.Pieces.{single_pieces};
ghost use Rattle.omf_output.specs.Exe.Relocations.{moves_together, sites};

/// A file of 36 bytes, of which 32 are the header, with one entry: at 1234H, `mov ax, 0` and `retf` become `mov ax, 1234H` and `retf`.
pub fn one_word()
    ensures { loaded file 0x1234
        ≡ record { address = 0x12340; image = 0xB8 ∷ 0x34 ∷ 0x12 ∷ 0xCB ∷ []; code = (0x1234, 0); stack = (0x1234, 256) } }
{}

/// A file of 52 bytes with an entry in paragraph 1 of the image, whose word 00FFH becomes 0900H at 0801H; CS:IP is 1:2 and SS:SP is 2:FFFEH there.
pub fn word_with_carry()
    ensures { loaded (0x4D ∷ 0x5A ∷ 52 ∷ 0 ∷ 1 ∷ 0 ∷ 1 ∷ 0 ∷ 2 ∷ 0 ∷ 0 ∷ 0 ∷ 0xFF ∷ 0xFF ∷ 2 ∷ 0 ∷ 0xFE ∷ 0xFF ∷ 0 ∷ 0 ∷ 2 ∷ 0 ∷ 1 ∷ 0 ∷ 28 ∷ 0 ∷ 0 ∷ 0 ∷ 0 ∷ 0 ∷ 1 ∷ 0 ∷ repeat 16 (0x90 ∷ []) ++ 0xFF ∷ 0 ∷ 0xCB ∷ 0xCC ∷ []) 0x801
        ≡ record { address = 0x8010; image = repeat 16 (0x90 ∷ []) ++ 0 ∷ 9 ∷ 0xCB ∷ 0xCC ∷ []; code = (0x802, 2); stack = (0x803, 0xFFFE) } }
{}

/// Two whole pages, with no entry: 1,024 bytes of which 32 are the header.
pub fn whole_pages()
    ensures { length (loaded (0x4D ∷ 0x5A ∷ 0 ∷ 0 ∷ 2 ∷ 0 ∷ 0 ∷ 0 ∷ 2 ∷ 0 ∷ 0 ∷ 0 ∷ 0xFF ∷ 0xFF ∷ 0 ∷ 0 ∷ 0 ∷ 0 ∷ 0 ∷ 0 ∷ 0 ∷ 0 ∷ 0 ∷ 0 ∷ 28 ∷ 0 ∷ 0 ∷ 0 ∷ 0 ∷ 0 ∷ 0 ∷ 0 ∷ repeat 1000 (0x90 ∷ [])) 1).image ≡ 992 }
{}

/// The file of a module that loads its own segment's base; its start is 0:0, and 1234H:0 at 1234H; and it is a program.
pub fn file_of_a_module()
    ensures written { exe 0xFFFF (program 4 (at_0 ∷ []) (0, 0) (0, 256) 0) ≡ file }
    ensures begun { start at_0.places loads_its_segment ≡ Some (0, 0) }
    ensures moved_too { start (moved 0x1234 at_0.movers at_0.places) loads_its_segment ≡ Some (0x1234, 0) }
    ensures judged { pieces_move at_0.movers (pieces loads_its_segment) ≡ true }
    ensures fit { IsProgram 4 (at_0 ∷ []) (0, 0) (0, 256) }
{}

/// A base moves with its frame, whatever its target; a far pointer and an offset move only where both do, or neither; a distance only where
/// its data do too.
pub fn what_moves_together()
    ensures base { moves_together one_of_two 1 (fixup 0xC801 (F0 1) (T0 2)) ≡ true }
    ensures pointer { moves_together one_of_two 1 (fixup 0xCC01 F5 (T0 1)) ≡ true }
    ensures mixed_pointer { moves_together one_of_two 1 (fixup 0xCC01 (F0 1) (T0 2)) ≡ false }
    ensures pointer_that_stays { moves_together one_of_two 1 (fixup 0xCC01 F5 (T0 2)) ≡ true }
    ensures mixed_offset { moves_together one_of_two 1 (fixup 0xC401 (F0 2) (T0 1)) ≡ false }
    ensures distance { moves_together one_of_two 1 (fixup 0x8401 F5 (T0 1)) ≡ true }
    ensures distance_to_what_stays { moves_together one_of_two 1 (fixup 0x8401 F5 (T0 2)) ≡ false }
{}

/// The words that move: a base at its location, the selector of a far pointer two bytes after its first; none of a frame that stays, of an offset or
/// of a distance.
pub fn words_that_move()
    ensures { sites one_of_two 1 (fixup 0xC801 (F0 1) (T0 2) ∷ fixup 0xCC05 F5 (T0 1) ∷ fixup 0xCC0A F5 (T0 2) ∷ fixup 0xC410 F5 (T0 1) ∷ fixup 0x8412 F5 (T0 1) ∷ []) ≡ 1 ∷ 7 ∷ [] }
{}

/// The word of a module that loads its own segment, at 0, is at 1. It comes after a word at 4, where the module's data end; its data overlap a word
/// at 3, and so does the second of two fixups the word of the first.
pub fn words_in_file_order()
    ensures first { all_words at_0.movers at_0.places None (numbered 0 (single_pieces loads_its_segment)) [] ≡ Ok (1 ∷ []) }
    ensures after { all_words at_0.movers at_0.places None (numbered 0 (single_pieces loads_its_segment)) (4 ∷ []) ≡ Ok (4 ∷ 1 ∷ []) }
    ensures under_data { all_words at_0.movers at_0.places None (numbered 0 (single_pieces loads_its_segment)) (3 ∷ []) ≡ Err (place 1) }
    ensures under_fixup { all_words at_0.movers at_0.places None (numbered 0 base_under_offset) [] ≡ Err (place 2) }
{}

/// Two bytes, `int 20H`, in segment 1234H: they are at 12440H, CS:IP is 1234H:100H, and SS:SP is 1234H:FFFEH. FFFFH is the last segment.
pub fn com_file_in_a_segment()
    ensures low { com_loaded (0xCD ∷ 0x20 ∷ []) 0x1234 ≡ record { address = 0x12440; bytes = 0xCD ∷ 0x20 ∷ []; code = (0x1234, 256); stack = (0x1234, 0xFFFE) } }
    ensures high { com_loaded (0xCD ∷ 0x20 ∷ []) 0xFFFF ≡ record { address = 0x1000F0; bytes = 0xCD ∷ 0x20 ∷ []; code = (0xFFFF, 256); stack = (0xFFFF, 0xFFFE) } }
{}

/// The stack of a .COM program needs 256 bytes at least, and the bytes of its segments together: 512 and 1,024 make 1,536.
pub fn stack_of_a_com_program()
    ensures none { stack_bytes [] ≡ 256 }
    ensures small { stack_bytes (stack_portion 0x100 16 ∷ []) ≡ 256 }
    ensures two { stack_bytes (stack_portion 0x100 512 ∷ stack_portion 0x300 1024 ∷ []) ≡ 1536 }
    ensures large { stack_bytes (stack_portion 0 65536 ∷ stack_portion 0 65536 ∷ []) ≡ 65536 }
    ensures one_over { stack_bytes (stack_portion 0 65535 ∷ stack_portion 0 2 ∷ stack_portion 0 1 ∷ []) ≡ 65536 }
{}

/// SS:SP of a stack in two classes, whose later part is lower: from the frame of that part, 0020H, to the end of the other, 400H.
pub fn stack_with_a_lower_part()
    ensures later { in_registers (stack (stack_portion 0x300 0x100 ∷ stack_portion 0x200 0x100 ∷ [])) ≡ Ok (0x20, 0x200) }
    ensures first { in_registers (stack (stack_portion 0x200 0x100 ∷ stack_portion 0x300 0x100 ∷ [])) ≡ Ok (0x20, 0x200) }
{}

/// An empty segment of the stack, below or above the one of 100H bytes at 200H, changes nothing. One that is alone is the stack.
pub fn stack_with_an_empty_part()
    ensures below { in_registers (stack (stack_portion 0x100 0 ∷ stack_portion 0x200 0x100 ∷ [])) ≡ Ok (0x20, 0x100) }
    ensures above { in_registers (stack (stack_portion 0x200 0x100 ∷ stack_portion 0x400 0 ∷ [])) ≡ Ok (0x20, 0x100) }
    ensures alone { in_registers (stack (stack_portion 0x100 0 ∷ [])) ≡ Ok (0x10, 0) }
{}

/// A near reference of a location in segment 2, at 40H, to segment 1, at 0, is into another frame, unless a group has both; the reverse is not. The group
/// may be of another module, if both segments are joined with those of this. A far reference, and one of 32 bits, is no near reference.
pub fn near_references()
    ensures back { strays ((two_segments, two_apart) ∷ []) (two_segments, two_apart) 2 (fixup 0x8401 F5 (T0 1)) ≡ true }
    ensures forth { strays ((two_segments, two_apart) ∷ []) (two_segments, two_apart) 1 (fixup 0x8401 F5 (T0 2)) ≡ false }
    ensures joined { strays ((joined_segments, two_apart) ∷ []) (joined_segments, two_apart) 2 (fixup 0x8401 F5 (T0 1)) ≡ true }
    ensures grouped_elsewhere { strays ((joined_segments, two_apart) ∷ (joined_in_a_group, two_apart_grouped) ∷ []) (joined_segments, two_apart) 2 (fixup 0x8401 F5 (T0 1)) ≡ false }
    ensures others_grouped { strays ((two_segments, two_apart) ∷ (in_a_group, two_apart_grouped) ∷ []) (two_segments, two_apart) 2 (fixup 0x8401 F5 (T0 1)) ≡ true }
    ensures grouped { strays ((in_a_group, two_apart_grouped) ∷ []) (in_a_group, two_apart_grouped) 2 (fixup 0x8401 F5 (T0 1)) ≡ false }
    ensures far { strays ((two_segments, two_apart) ∷ []) (two_segments, two_apart) 2 (fixup 0xC401 F5 (T0 1)) ≡ false }
    ensures wide { strays ((two_segments, two_apart) ∷ []) (two_segments, two_apart) 2 (fixup 0xA401 F5 (T0 1)) ≡ false }
    ensures group { group_of in_a_group 2 ≡ Some 1 }
    ensures alone { group_of two_segments 2 ≡ None }
{}

/// A fixup is in the data of the last LEDATA or LIDATA before it, whatever records are between. So a near reference to segment 1 is in segment 2, which is
/// in another frame.
pub fn segments_of_fixups()
    ensures segments { map (λ x. x.segment) (located (numbered 0 data_and_fixups)) ≡ None ∷ None ∷ Some 1 ∷ Some 1 ∷ Some 1 ∷ Some 2 ∷ Some 2 ∷ [] }
    ensures stray { first_stray ((two_segments, two_apart) ∷ []) (two_segments, two_apart) (numbered 0 near_to_1) ≡ Some (place 1) }
    ensures grouped { first_stray ((in_a_group, two_apart_grouped) ∷ []) (in_a_group, two_apart_grouped) (numbered 0 near_to_1) ≡ None }
    ensures without_data { first_stray ((two_segments, two_apart) ∷ []) (two_segments, two_apart) (numbered 0 (drop 1 near_to_1)) ≡ None }
{}

/// The first piece that does not move: a block of a segment that stays; before it, a far pointer whose frame moves and whose target does not. A fixup
/// without data before it is none, nor are blocks without bytes.
pub fn first_pieces_that_stay()
    ensures none { first_unmoved both_move (numbered 0 data_and_fixups) ≡ None }
    ensures blocks { first_unmoved one_of_two (numbered 0 data_and_fixups) ≡ Some (place 4) }
    ensures empty { first_unmoved one_of_two (numbered 0 (blocks_of_2 [] ∷ [])) ≡ None }
    ensures pointer { first_unmoved one_of_two (numbered 0 (base_under_offset ++ Fixed 0x9C ((fixup 0xCC00 (F0 1) (T0 2)).1 ∷ []) ∷ data_and_fixups)) ≡ Some (place 3) }
{}

/// What no .COM program has: a start that is not at 0:100H; a byte below 100H, as the data of the module that loads its own segment, which is
/// its second record; a relocation word, as that of its first fixup, its third piece. A record without bytes is not below 100H, and an offset has no
/// relocation word.
pub fn what_no_com_file_has()
    ensures begun { start_fault (Ok (0, 256)) ≡ None }
    ensures elsewhere { start_fault (Ok (16, 256)) ≡ Some (com_fault.Start (record { selector = 16; offset = 256 })) }
    ensures last_low_byte { is_low 255 1 ≡ true }
    ensures first_byte { is_low 256 1 ≡ false }
    ensures no_byte { is_low 0 0 ≡ false }
    ensures data { first_low at_0.places (numbered_records 0 loads_its_segment) ≡ Some (place 1) }
    ensures word { first_fixup member_0 (numbered 0 (single_pieces loads_its_segment)) ≡ Some (com_fault.Words 0 (place 2)) }
    ensures no_word { piece_fault member_0 (record { place = place 0; segment = Some 1; piece = Fixed 0x9C ((fixup 0xC402 F5 (T0 1)).1 ∷ []) }) ≡ None }
    ensures apart { counts_apart two_apart both_move 1 (fixup 0xC402 F5 (T0 2)).1 ≡ true }
    ensures own { counts_apart two_apart both_move 1 (fixup 0xC402 F5 (T0 1)).1 ≡ false }
    ensures stays { counts_apart two_apart one_of_two 1 (fixup 0xC402 F5 (T0 2)).1 ≡ false }
    ensures base { counts_apart two_apart both_move 1 (fixup 0xC802 F5 (T0 2)).1 ≡ false }
    ensures distance { counts_apart two_apart both_move 1 (fixup 0x8402 F5 (T0 2)).1 ≡ false }
{}

/// Externals at moved places: A, and W whose default it is, move with segment 1; B has an absolute address in a frame that moves. Derived at the
/// segments and groups 1000H paragraphs higher, they are the same as moved there.
pub fn derived_externals()
    ensures movers { AreMovers (asks ∷ defines ∷ []) (zip (asks ∷ defines ∷ []) (their_places (placed_at 0x20 0x20 2) [])) their_movers }
    ensures low { derived_at (asks ∷ defines ∷ []) (their_places (placed_at 0x20 0x20 2) []) ≡ Ok (their_places (placed_at 0x20 0x20 2) (placed_at 0x22 0x20 2 ∷ placed_at 0x46C 0x20 2 ∷ placed_at 0x22 0x20 2 ∷ [])) }
    ensures moved_places { all_moved 0x1000 their_movers (their_places (placed_at 0x20 0x20 2) []) ≡ their_places (placed_at 0x10020 0x10020 0x1002) [] }
    ensures high { derived_at (asks ∷ defines ∷ []) (their_places (placed_at 0x10020 0x10020 0x1002) []) ≡ Ok (their_places (placed_at 0x10020 0x10020 0x1002) (placed_at 0x10022 0x10020 0x1002 ∷ placed_at 0x46C 0x10020 0x1002 ∷ placed_at 0x10022 0x10020 0x1002 ∷ [])) }
    ensures moved_externals { all_moved 0x1000 their_movers (their_places (placed_at 0x20 0x20 2) (placed_at 0x22 0x20 2 ∷ placed_at 0x46C 0x20 2 ∷ placed_at 0x22 0x20 2 ∷ [])) ≡ their_places (placed_at 0x10020 0x10020 0x1002) (placed_at 0x10022 0x10020 0x1002 ∷ placed_at 0x46C 0x10020 0x1002 ∷ placed_at 0x10022 0x10020 0x1002 ∷ []) }
{}
