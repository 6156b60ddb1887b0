//! Worked examples, each evaluated during the proof.

ghost use Rattle.std.specs.Prelude.{◌≡◌, ℕ, [], ◌∷◌, ◌++◌, Ok, Err, Some, None, codes};
ghost use Rattle.omf_reloc.specs.declared.fault.Cause.TheVariants as cause;
ghost use Rattle.omf_placement.specs.declared.several.fault.DeriveFault.TheVariants as derive;
ghost use Rattle.omf_frame.specs.Rows.{hex};
ghost use Rattle.omf_reloc.specs.declared.fault.Kind.TheVariants as kind;
ghost use Rattle.omf_reloc.specs.declared.fault.ReachFault.TheVariants as fault;
ghost use Rattle.omf_check.specs.Rows.{first_module, with_fixup, flat, absolute, public};
ghost use Rattle.omf_reloc.specs.Modules.{with_threads, overlaid, overlapping, displaced, call, jump, with_blocks, big_end, with_start, early_thread, group_base, by_external, many_fixups, using, group_public, constant_public, using_locally, local_public};
ghost use Rattle.omf_check.specs.Threads.{F0, F1, T0};
ghost use Rattle.omf_check.specs.declared.method.FrameMethod.TheVariants.{Location as F4};
ghost use Rattle.omf_reloc.specs.Plain.{End};
ghost use Rattle.omf_reloc.specs.Rows.{references, fixup, plain_reference, frame, at, places, only, low, relocated, run_from_0, started, placed_by, derived_image, lies};

/// A fixup adds the offset of its target, 20H; without an entry for the segment the placement does not reach.
pub fn first_image()
    ensures reaches { relocated first_module low 1 ≡ run_from_0 (hex (codes "B8 20 00 90")) }
    ensures missing { relocated first_module (places [] [] []) 1 ≡ Err (fault.Missing kind.Segment 1) }
{}

/// Threads stay in force across FIXUPPs and data records until they are set again.
pub fn threads_hold()
    ensures first { relocated with_threads (places (at 0x20 0x10 1 ∷ at 0x50 0x40 4 ∷ []) [] []) 1 ≡ run_from_0 (hex (codes "10 00 40 00")) }
    ensures second { relocated with_threads (places (at 0x20 0x10 1 ∷ at 0x50 0x40 4 ∷ []) [] []) 2 ≡ run_from_0 (hex (codes "10 00")) }
{}

/// The later data record wins, with its own fixup on its own bytes.
pub fn later_data_wins()
    ensures { relocated overlaid low 1 ≡ run_from_0 (hex (codes "B8 25 00 90")) }
{}

/// Overlapping fixups add in file order.
pub fn overlapping_fixups()
    ensures { relocated overlapping low 1 ≡ run_from_0 (hex (codes "10 20 00 00")) }
{}

/// The last 16-bit offset, and the first beyond it.
pub fn ends_of_reach()
    ensures last { relocated first_module (only (at 0x1FFFF 0x10000 0x1000)) 1 ≡ run_from_0 (hex (codes "B8 FF FF 90")) }
    ensures beyond { relocated first_module (only (at 0x20000 0x10000 0x1000)) 1 ≡ Err (fault.TooFar 4 3 cause.Target) }
{}

/// A displacement is read as unsigned first, and then as signed.
pub fn both_readings()
    ensures signed { relocated displaced low 1 ≡ run_from_0 (hex (codes "B8 1C 00 90")) }
    ensures unsigned { relocated displaced (only (at 0x10002 0x10000 0x1000)) 1 ≡ run_from_0 (hex (codes "B8 FE FF 90")) }
    ensures last { relocated displaced (only (at 0x20003 0x10000 0x1000)) 1 ≡ run_from_0 (hex (codes "B8 FF FF 90")) }
    ensures beyond { relocated displaced (only (at 0x20004 0x10000 0x1000)) 1 ≡ Err (fault.TooFar 4 3 cause.Target) }
{}

/// A near call adds the distance from the byte after its location.
pub fn near_call()
    ensures reaches { relocated call low 1 ≡ run_from_0 (hex (codes "E8 FD FF 90")) }
    ensures beyond { relocated call (only (at 0x1FFFF 0x10000 0x1000)) 1 ≡ Err (fault.TooFar 4 3 cause.Location) }
{}

/// A short jump reaches 127 bytes ahead; an external needs an entry.
pub fn short_jump()
    ensures last { relocated jump (places (at 0x10020 0x10000 0x1000 ∷ []) [] (at 0x100A1 0x10000 0x1000 ∷ [])) 1 ≡ run_from_0 (hex (codes "EB 7F 00 90")) }
    ensures beyond { relocated jump (places (at 0x10020 0x10000 0x1000 ∷ []) [] (at 0x100A2 0x10000 0x1000 ∷ [])) 1 ≡ Err (fault.TooFar 5 3 cause.Distance) }
    ensures missing { relocated jump low 1 ≡ Err (fault.Missing kind.External 1) }
{}

/// A 32-bit offset in a flat group, and a 16:32 pointer.
pub fn flat_group()
    ensures { relocated flat (places (at 0x401000 0 0x1B ∷ []) (frame 0 0x23 ∷ []) []) 1 ≡ run_from_0 (hex (codes "00 10 40 00 23 00 04 10 40 00")) }
{}

/// Repeated blocks.
pub fn repeats()
    ensures { relocated with_blocks low 1 ≡ run_from_0 (hex (codes "AA AA BB CC AA AA BB CC AA AA BB CC")) }
{}

/// A location at the end of its data, and data at the end of their segment.
pub fn last_bytes()
    ensures fixup { relocated (with_fixup (hex (codes "9C 06 00 C4 02 04 01 01 92"))) low 1 ≡ run_from_0 (hex (codes "B8 00 20 90")) }
    ensures data_end { relocated big_end low 1 ≡ Ok ((0xFFFE, hex (codes "AB CD")) ∷ []) }
{}

/// A start in the frame of a group, which the text gives, or which is that of its lowest member.
pub fn start_address()
    ensures text { placed_by with_start (codes "S 10020 10000 1000" ++ 10 ∷ codes "G 10010 1001") ≡ Ok (places (at 0x10020 0x10000 0x1000 ∷ []) (frame 0x10010 0x1001 ∷ []) []) }
    ensures start { started with_start (places (at 0x10020 0x10000 0x1000 ∷ []) (frame 0x10010 0x1001 ∷ []) []) ≡ Ok (Some (0x1001, 0x12)) }
    ensures real_text { placed_by with_start (codes "S 10020 real" ++ 10 ∷ codes "G real") ≡ Ok (places (at 0x10020 0x10020 0x1002 ∷ []) (frame 0x10020 0x1002 ∷ []) []) }
    ensures real_start { started with_start (places (at 0x10020 0x10020 0x1002 ∷ []) (frame 0x10020 0x1002 ∷ []) []) ≡ Ok (Some (0x1002, 2)) }
{}

/// The lines of a text: comments, one space between fields, addresses of real segments below 2^20, groups that exist.
pub fn placement_lines()
    ensures comment { placed_by first_module (codes "S 10020 real ; x") ≡ Ok (only (at 0x10020 0x10020 0x1002)) }
    ensures image { relocated first_module (only (at 0x10020 0x10020 0x1002)) 1 ≡ run_from_0 (hex (codes "B8 00 00 90")) }
    ensures two_spaces { placed_by first_module (codes "S 10020  real") ≡ Err 1 }
    ensures too_high { placed_by first_module (10 ∷ codes "S 100000 real") ≡ Err 2 }
    ensures extra { placed_by first_module (codes "S 10020 10000 1000" ++ 10 ∷ codes "G 0 0") ≡ Ok (places (at 0x10020 0x10000 0x1000 ∷ []) (frame 0 0 ∷ []) []) }
    ensures too_many { relocated first_module (places (at 0x10020 0x10000 0x1000 ∷ []) (frame 0 0 ∷ []) []) 1 ≡ Err (fault.Extra kind.Group 1) }
    ensures no_group { placed_by first_module (codes "G real") ≡ Err 1 }
    ensures line_end { placed_by first_module (codes "S 10020 10000 1000" ++ 13 ∷ 10 ∷ []) ≡ Ok low }
    ensures lower_case { placed_by first_module (codes "s 10020 10000 1000") ≡ Err 1 }
{}

/// An absolute segment is placed at its own address and nowhere else.
pub fn absolute_segment()
    ensures text { placed_by absolute (codes "S B8000 real") ≡ Ok (only (at 0xB8000 0xB8000 0xB800)) }
    ensures there { relocated absolute (only (at 0xB8000 0xB8000 0xB800)) 1 ≡ run_from_0 (hex (codes "B8 00 00 90")) }
    ensures elsewhere { relocated absolute (only (at 0xB8010 0xB8010 0xB801)) 1 ≡ Err (fault.Absolute 1) }
{}

/// A thread's index is looked up where a fixup uses it.
pub fn index_at_its_use()
    ensures { relocated early_thread (places (at 0x10020 0x10000 0x1000 ∷ at 0x10040 0x10000 0x1000 ∷ []) [] []) 1 ≡ run_from_0 (hex (codes "B8 40 00 90")) }
{}

/// A 16:16 pointer, a high byte, and the base of a target that is a group.
pub fn other_locations()
    ensures pointer { relocated (with_fixup (hex (codes "9C 06 00 CC 00 04 01 01 8C"))) low 1 ≡ run_from_0 (hex (codes "D8 00 00 A0")) }
    ensures high_byte { relocated (with_fixup (hex (codes "9C 06 00 D0 00 04 01 01 88"))) (only (at 0x10420 0x10000 0x1000)) 1 ≡ run_from_0 (hex (codes "BC 00 00 90")) }
    ensures base { relocated group_base (places (at 0x10020 0x10000 0x1000 ∷ []) (frame 0x10010 0x1001 ∷ []) []) 1 ≡ run_from_0 (hex (codes "B8 01 10 90")) }
{}

/// The frame of an external (F2) is that of its own entry, not that of the target or of the location.
pub fn frame_of_an_external()
    ensures { relocated by_external (places (at 0x10020 0x10010 0x1001 ∷ []) [] (at 0x30000 0x10000 0x1000 ∷ [])) 1 ≡ run_from_0 (hex (codes "B8 20 00 90")) }
{}

/// 205 fixups of one location add up.
pub fn many_additions()
    ensures { relocated many_fixups low 1 ≡ run_from_0 (hex (codes "B8 A0 19 90")) }
{}

/// An external gets the place of the only public of its name.
pub fn derived_place()
    ensures { derived_image (lies using 0x10020 0x10000 0x1000 ∷ lies public 0x20040 0x20000 0x2000 ∷ []) [] ≡ Ok (at 0x20042 0x20000 0x2000 ∷ [], run_from_0 (hex (codes "B8 42 00 90"))) }
{}

/// No such public, two of them, or one at too high an address.
pub fn not_derived()
    ensures none { derived_image (lies using 0x10020 0x10000 0x1000 ∷ []) [] ≡ Err (derive.Undefined 0 1) }
    ensures two { derived_image (lies using 0x10020 0x10000 0x1000 ∷ lies public 0x20040 0x20000 0x2000 ∷ lies public 0x20040 0x20000 0x2000 ∷ []) [] ≡ Err (derive.Twice 0 1) }
    ensures high { derived_image (lies using 0x10020 0x10000 0x1000 ∷ lies public 0xFFFFFFFF 0xFFFF0000 1 ∷ []) [] ≡ Err (derive.TooHigh 0 1) }
{}

/// A local external gets the place of a local public of its module, and never that of another public.
pub fn local_place()
    ensures own { derived_image (lies (using_locally local_public) 0x10020 0x10000 0x1000 ∷ lies public 0x20040 0x20000 0x2000 ∷ []) [] ≡ Ok (at 0x10023 0x10000 0x1000 ∷ [], run_from_0 (hex (codes "B8 23 00 90"))) }
    ensures none { derived_image (lies (using_locally []) 0x10020 0x10000 0x1000 ∷ lies public 0x20040 0x20000 0x2000 ∷ []) [] ≡ Err (derive.Undefined 0 1) }
    ensures hidden { derived_image (lies using 0x10020 0x10000 0x1000 ∷ lies (using_locally local_public) 0x20040 0x20000 0x2000 ∷ []) [] ≡ Err (derive.Undefined 0 1) }
{}

/// A given place takes precedence over any public.
pub fn given_place_counts()
    ensures { derived_image (lies using 0x10020 0x10000 0x1000 ∷ lies public 0x20040 0x20000 0x2000 ∷ lies public 0x20040 0x20000 0x2000 ∷ []) (record { «module» = 0; external = 1; address = 0x30000; frame = frame 0x30000 0x3000 } ∷ []) ≡ Ok (at 0x30000 0x30000 0x3000 ∷ [], run_from_0 (hex (codes "B8 00 00 90"))) }
{}

/// A public in a group has the group's frame; one without a segment has its base frame.
pub fn public_bases()
    ensures group { derived_image (lies using 0x10020 0x10000 0x1000 ∷ (group_public, places (at 0x20040 0x20000 0x2000 ∷ []) (frame 0x20010 0x2001 ∷ []) []) ∷ []) [] ≡ Ok (at 0x20042 0x20010 0x2001 ∷ [], run_from_0 (hex (codes "B8 32 00 90"))) }
    ensures constant { derived_image (lies using 0x10020 0x10000 0x1000 ∷ lies constant_public 0x20040 0x20000 0x2000 ∷ []) [] ≡ Ok (at 0xB8002 0xB8000 0xB800 ∷ [], run_from_0 (hex (codes "B8 02 00 90"))) }
{}

/// A thread is in force from where it is set to where it is set again, across FIXUPPs and data records, and not before.
pub fn references_by_threads()
    ensures { references with_threads ≡ ((5, 6), fixup 0x9C 0xC400 (plain_reference F4 (T0 1) 0)) ∷ ((6, 3), fixup 0x9C 0xC402 (plain_reference F4 (T0 2) 0)) ∷ ((8, 3), fixup 0x9C 0xC400 (plain_reference F4 (T0 2) 0)) ∷ [] }
{}

/// A 32-bit FIXUPP: two fixups in the frame of a group, the second with a displacement.
pub fn wide_references()
    ensures { references flat ≡ ((5, 3), fixup 0x9D 0xEC00 (plain_reference (F1 1) (T0 1) 0)) ∷ ((5, 8), fixup 0x9D 0xE406 (plain_reference (F1 1) (T0 1) 4)) ∷ [] }
{}

/// The place of a start is its fix data byte; here its frame comes from a thread.
pub fn start_by_a_thread()
    ensures { references with_start ≡ ((5, 4), End 0x8A 0xC1 (Some (plain_reference (F1 1) (T0 1) 2))) ∷ [] }
{}

/// A thread may name a segment that is defined after it.
pub fn reference_by_an_early_thread()
    ensures { references early_thread ≡ ((6, 3), fixup 0x9C 0xC401 (plain_reference (F0 1) (T0 2) 0)) ∷ [] }
{}
