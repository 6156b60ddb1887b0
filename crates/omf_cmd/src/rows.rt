//! Worked examples, each evaluated by the check.

ghost use Rattle.std.specs.Prelude.{◌≡◌, ℕ, [], ◌∷◌, codes, Err, Some, None};
ghost use Rattle.omf_frame.specs.declared.fault.Reason.TheVariants as reason;
ghost use Rattle.omf_image.specs.Limits.{profile_limits};
ghost use Rattle.omf_check.specs.Rows.{first_module, place, public, flat, absolute};
ghost use Rattle.omf_reloc.specs.declared.fault.Cause.TheVariants as cause;
ghost use Rattle.omf_reloc.specs.declared.fault.Kind.TheVariants as kind;
ghost use Rattle.omf_reloc.specs.declared.fault.ReachFault.TheVariants as reach;
ghost use Rattle.omf_reloc.specs.Modules.{raws_of, module_of, with_threads, with_start, with_blocks, big_end, overlaid, overlapping, displaced, call, jump, early_thread};
ghost use Rattle.omf_reloc.specs.Rows.{at, frame, places, only, low};
ghost use Rattle.omf_cmd.specs.declared.fault.RunFault.TheVariants as fault;
ghost use Rattle.omf_cmd.specs.FaultLine.{fault_line};
ghost use Rattle.omf_cmd.specs.Listing.{list_text, check_text};
ghost use Rattle.omf_placement.specs.Quoted.{quoted};
ghost use Rattle.omf_cmd.specs.Relocated.{image_text, reloc_text};
ghost use Rattle.omf_cmd.specs.Rows.{lines, relocating, prints, not_reached, low_line};

/// The texts of a module of six records.
pub fn printed_texts()
    ensures list { list_text (raws_of first_module) ≡ lines (codes "R 0 00000000 80 2 THEADR" ∷ codes "R 1 00000006 96 3 LNAMES" ∷ codes "R 2 0000000D 98 6 SEGDEF" ∷ codes "R 3 00000017 A0 7 LEDATA" ∷ codes "R 4 00000022 9C 5 FIXUPP" ∷ codes "R 5 0000002B 8A 1 MODEND" ∷ codes "S 1 4 \"T\"" ∷ []) }
    ensures none { list_text [] ≡ [] }
    ensures check { check_text (raws_of first_module) ≡ lines (codes "OK 6 records, 48 bytes" ∷ []) }
    ensures reloc { reloc_text profile_limits low (module_of first_module) ≡ lines (codes "0001:00000000 B8 20 00 90" ∷ []) }
{}

/// The line of a public without a group.
pub fn listed_public()
    ensures { list_text (raws_of public) ≡ lines (codes "R 0 00000000 80 2 THEADR" ∷ codes "R 1 00000006 96 3 LNAMES" ∷ codes "R 2 0000000D 98 6 SEGDEF" ∷ codes "R 3 00000017 90 7 PUBDEF" ∷ codes "R 4 00000022 8A 1 MODEND" ∷ codes "S 1 4 \"T\"" ∷ codes "P - 1 00000002 \"X\"" ∷ []) }
{}

/// The lines of images and of a start.
pub fn relocated_texts()
    ensures threads { reloc_text profile_limits (places (at 0x20 0x10 1 ∷ at 0x50 0x40 4 ∷ []) [] []) (module_of with_threads) ≡ lines (codes "0001:00000000 10 00 40 00" ∷ codes "0002:00000000 10 00" ∷ []) }
    ensures flat { reloc_text profile_limits (places (at 0x401000 0 0x1B ∷ []) (frame 0 0x23 ∷ []) []) (module_of flat) ≡ lines (codes "0001:00000000 00 10 40 00 23 00 04 10 40 00" ∷ []) }
    ensures blocks { reloc_text profile_limits low (module_of with_blocks) ≡ lines (codes "0001:00000000 AA AA BB CC AA AA BB CC AA AA BB CC" ∷ []) }
    ensures big { reloc_text profile_limits low (module_of big_end) ≡ lines (codes "0001:0000FFFE AB CD" ∷ []) }
    ensures start { reloc_text profile_limits (places (at 0x10020 0x10000 0x1000 ∷ []) (frame 0x10010 0x1001 ∷ []) []) (module_of with_start) ≡ lines (codes "START 1001:00000012" ∷ []) }
{}

/// The line of each fault.
pub fn fault_lines()
    ensures memory { fault_line fault.Memory ≡ codes "memory" }
    ensures read { fault_line fault.Read ≡ codes "read" }
    ensures write { fault_line fault.Write ≡ codes "write" }
    ensures refused { fault_line (fault.Refused reason.Cut (place 4 34 2)) ≡ codes "refused 2 Cut record 4 at 34 within 2" }
    ensures empty { fault_line (fault.Refused reason.NoEnd (place 0 0 0)) ≡ codes "refused 1 NoEnd record 0 at 0 within 0" }
    ensures text { fault_line (fault.Line 3) ≡ codes "placement line 3" }
    ensures long { fault_line fault.TooLong ≡ codes "placement too long" }
    ensures missing { fault_line (fault.Reach (reach.Missing kind.External 1)) ≡ codes "reach 1 Missing external 1" }
    ensures extra { fault_line (fault.Reach (reach.Extra kind.Group 1)) ≡ codes "reach 2 Extra group 1" }
    ensures absolute { fault_line (fault.Reach (reach.Absolute 1)) ≡ codes "reach 3 Absolute 1" }
    ensures far { fault_line (fault.Reach (reach.TooFar 4 3 cause.Target)) ≡ codes "reach 4 TooFar Target record 4 within 3" }
{}

/// Names in quotes: an empty one, and bytes written with `\x`.
pub fn quoted_names()
    ensures empty { quoted [] ≡ codes "\"\"" }
    ensures escaped { quoted (0x22 ∷ 0x5C ∷ 0x1F ∷ 0x20 ∷ 0x7E ∷ 0x7F ∷ 0xFF ∷ 0x61 ∷ []) ≡ codes "\"\\x22\\x5C\\x1F ~\\x7F\\xFFa\"" }
{}

/// A run of 18 bytes has two lines; the first has 16 bytes.
pub fn two_lines_of_a_run()
    ensures { image_text 1 (λ segment x. Some 0xA5) (λ segment. record { first = 0xFFF9; len = 18 } ∷ []) None ≡ lines (codes "0001:0000FFF9 A5 A5 A5 A5 A5 A5 A5 A5 A5 A5 A5 A5 A5 A5 A5 A5" ∷ codes "0001:00010009 A5 A5" ∷ []) }
{}

/// A module and a placement text: what is printed, or the fault where the placement does not reach.
pub fn texts_and_images()
    ensures first { relocating first_module (low_line ∷ []) ≡ prints (codes "0001:00000000 B8 20 00 90" ∷ []) }
    ensures empty { relocating first_module [] ≡ not_reached (reach.Missing kind.Segment 1) }
    ensures threads { relocating with_threads (codes "S 20 10 1" ∷ codes "S 50 40 4" ∷ []) ≡ prints (codes "0001:00000000 10 00 40 00" ∷ codes "0002:00000000 10 00" ∷ []) }
    ensures overlaid { relocating overlaid (low_line ∷ []) ≡ prints (codes "0001:00000000 B8 25 00 90" ∷ []) }
    ensures overlapping { relocating overlapping (low_line ∷ []) ≡ prints (codes "0001:00000000 10 20 00 00" ∷ []) }
    ensures beyond { relocating first_module (codes "S 20000 10000 1000" ∷ []) ≡ not_reached (reach.TooFar 4 3 cause.Target) }
    ensures unsigned { relocating displaced (codes "S 10002 10000 1000" ∷ []) ≡ prints (codes "0001:00000000 B8 FE FF 90" ∷ []) }
    ensures call { relocating call (low_line ∷ []) ≡ prints (codes "0001:00000000 E8 FD FF 90" ∷ []) }
    ensures near { relocating jump (low_line ∷ codes "E 100A1 10000 1000" ∷ []) ≡ prints (codes "0001:00000000 EB 7F 00 90" ∷ []) }
    ensures far { relocating jump (low_line ∷ codes "E 100A2 10000 1000" ∷ []) ≡ not_reached (reach.TooFar 5 3 cause.Distance) }
    ensures flat { relocating flat (codes "S 401000 0 1B" ∷ codes "G 0 23" ∷ []) ≡ prints (codes "0001:00000000 00 10 40 00 23 00 04 10 40 00" ∷ []) }
    ensures blocks { relocating with_blocks (low_line ∷ []) ≡ prints (codes "0001:00000000 AA AA BB CC AA AA BB CC AA AA BB CC" ∷ []) }
{}

/// Placement lines for groups, real segments and absolute segments.
pub fn texts_of_other_lines()
    ensures start { relocating with_start (low_line ∷ codes "G 10010 1001" ∷ []) ≡ prints (codes "START 1001:00000012" ∷ []) }
    ensures real_start { relocating with_start (codes "S 10020 real" ∷ codes "G real" ∷ []) ≡ prints (codes "START 1002:00000002" ∷ []) }
    ensures comment { relocating first_module (codes "S 10020 real ; x" ∷ []) ≡ prints (codes "0001:00000000 B8 00 00 90" ∷ []) }
    ensures two_spaces { relocating first_module (codes "S 10020  real" ∷ []) ≡ Err (fault.Line 1) }
    ensures too_high { relocating first_module ([] ∷ codes "S 100000 real" ∷ []) ≡ Err (fault.Line 2) }
    ensures extra { relocating first_module (low_line ∷ codes "G 0 0" ∷ []) ≡ not_reached (reach.Extra kind.Group 1) }
    ensures no_group { relocating first_module (codes "G real" ∷ []) ≡ Err (fault.Line 1) }
    ensures absolute { relocating absolute (codes "S B8000 real" ∷ []) ≡ prints (codes "0001:00000000 B8 00 00 90" ∷ []) }
    ensures elsewhere { relocating absolute (codes "S B8010 real" ∷ []) ≡ not_reached (reach.Absolute 1) }
    ensures early { relocating early_thread (low_line ∷ codes "S 10040 10000 1000" ∷ []) ≡ prints (codes "0001:00000000 B8 40 00 90" ∷ []) }
{}
