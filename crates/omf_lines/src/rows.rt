//! Worked examples, each evaluated by the check.

ghost use Rattle.std.specs.Prelude.{◌≡◌, [], ◌++◌, ◌∷◌, codes, None, Some};
ghost use Rattle.omf_frame.specs.declared.fault.Reason.TheVariants as reason;
ghost use Rattle.omf_check.specs.Rows.{place};
ghost use Rattle.omf_placement.specs.declared.several.fault.DeriveFault.TheVariants as derive;
ghost use Rattle.omf_reloc.specs.declared.fault.Cause.TheVariants as cause;
ghost use Rattle.omf_reloc.specs.declared.fault.Kind.TheVariants as kind;
ghost use Rattle.omf_reloc.specs.declared.fault.ReachFault.TheVariants as reach;
ghost use Rattle.omf_linking.specs.declared.fault.LinkFault.TheVariants as link;
ghost use Rattle.omf_linking.specs.declared.locator.fault.LineFault.TheVariants as why;
ghost use Rattle.omf_lines.specs.Near.{near_name};
ghost use Rattle.omf_lines.specs.TextLines.{text_lines};
ghost use Rattle.omf_lines.specs.Named.{beyond_line, far_line, high_line, outside_line, overlap_line, starts_line};
ghost use Rattle.omf_lines.specs.Rows.{aim_of, entry_of, line_of, one_label, reach_shown, segment_of, spot_of, two_modules};
ghost use Rattle.omf_lines.specs.Strays.{near_line};

/// Near names: the first that differs in case, in what compilers put around names, or by one edit.
pub fn near_names()
    ensures around { near_name (codes "gets") (codes "puts" ∷ codes "_gets" ∷ codes "get" ∷ []) ≡ Some (codes "_gets") }
    ensures after { near_name (codes "_WinMain") (codes "WinMain@16" ∷ codes "winmain_" ∷ []) ≡ Some (codes "winmain_") }
    ensures case { near_name (codes "\"_text\" \"CODE\"") (codes "\"_TEXT\" -" ∷ codes "\"_TEXT\" \"CODE\"" ∷ []) ≡ Some (codes "\"_TEXT\" \"CODE\"") }
    ensures less { near_name (codes "_TXT") (codes "_DATA" ∷ codes "_TEXT" ∷ []) ≡ Some (codes "_TEXT") }
    ensures more { near_name (codes "mainn") (codes "main" ∷ []) ≡ Some (codes "main") }
    ensures other { near_name (codes "mein") (codes "main" ∷ []) ≡ Some (codes "main") }
    ensures swapped { near_name (codes "\"strat.asm\"") (codes "\"stat.asm\"" ∷ codes "\"start.asm\"" ∷ []) ≡ Some (codes "\"stat.asm\"") }
    ensures swapped_alone { near_name (codes "\"DGRUOP\"") (codes "\"DGROUP\"" ∷ []) ≡ Some (codes "\"DGROUP\"") }
    ensures none { near_name (codes "_TXT") (codes "_DATA" ∷ codes "_BSS" ∷ []) ≡ None }
{}

/// The lines of a fault of a line of a text. What is wrong with it follows from the line, and from the `M` line before it.
pub fn text_fault_lines()
    ensures number { text_lines [] (codes "M \"A\"\nS \"T\" 1G 0 0\n") 2 why.NotUnderstood ≡ codes "line 2: expected S KEY ADDRESS (BASE SELECTOR|real|shared) [at STORED]\n  S \"T\" 1G 0 0\n" }
    ensures letter { text_lines [] (codes "Q\r\n") 1 why.NotUnderstood ≡ codes "line 1: expected M, S, G, X, C, P, F or ;\n  Q\n" }
    ensures foreign { text_lines [] (codes "M \"" ++ 0x84 ∷ codes "\"") 1 why.NotUnderstood ≡ codes "line 1: a byte that is not ASCII\n  M \"\\x84\"\n" }
    ensures before { text_lines [] (codes "S \"T\" 0 0 0") 1 why.NoModule ≡ codes "line 1: no M line before it for segment \"T\"\n  S \"T\" 0 0 0\n" }
    ensures unknown { text_lines [] (codes "; one\nM \"A\"\nG \"D\" real\n") 3 why.Unknown ≡ codes "line 3: no group \"D\" in module \"A\"\n  G \"D\" real\n" }
    ensures numbered { text_lines [] (codes "M #3") 1 why.Unknown ≡ codes "line 1: no module #3\n  M #3\n" }
    ensures several { text_lines [] (codes "M \"A\"\nS \"T\" \"C\" 0 0 0") 2 why.Several ≡ codes "line 2: more than one segment \"T\" \"C\" in module \"A\"\n  S \"T\" \"C\" 0 0 0\n" }
    ensures again { text_lines [] (codes "M #1\nX #1 0 0 0\nM \"B\"\nX \"f\" 0 0 0\nX \"f\" 1 0 0") 5 why.Twice ≡ codes "line 5: a second line for external \"f\" in module \"B\"\n  X \"f\" 1 0 0\n" }
    ensures unshared { text_lines [] (codes "M #1\nG #1 shared") 2 why.Unshared ≡ codes "line 2: no line before it gives the frame of group #1 in module #1\n  G #1 shared\n" }
    ensures of_class { text_lines [] (codes "C \"CODE\" 500\n") 1 why.NotUnderstood ≡ codes "line 1: expected C \"CLASS\" (ADDRESS|after) (BASE SELECTOR|real) [at (STORED|after)]\n  C \"CODE\" 500\n" }
    ensures of_name { text_lines [] (codes "P #1 500 real") 1 why.NotUnderstood ≡ codes "line 1: expected P \"NAME\" [\"CLASS\"] (ADDRESS|after) (BASE SELECTOR|real) [at (STORED|after)]\n  P #1 500 real\n" }
    ensures of_groups { text_lines [] (codes "F \"G\" real") 1 why.NotUnderstood ≡ codes "line 1: expected F \"NAME\" BASE SELECTOR\n  F \"G\" real\n" }
    ensures no_class { text_lines [] (codes "C \"CODE\" 0 0 0") 1 why.Unknown ≡ codes "line 1: no class \"CODE\"\n  C \"CODE\" 0 0 0\n" }
    ensures nothing_before { text_lines [] (codes "P \"T\" \"C\" after 0 0") 1 why.NothingBefore ≡ codes "line 1: no C or P line before it for segment \"T\" \"C\"\n  P \"T\" \"C\" after 0 0\n" }
    ensures no_room { text_lines [] (codes "M #1\nP \"T\" FFFF0 real") 2 why.NoRoom ≡ codes "line 2: no room for segment \"T\"\n  P \"T\" FFFF0 real\n" }
    ensures no_group { text_lines [] (codes "F \"G\" 0 0") 1 why.Unknown ≡ codes "line 1: no group \"G\"\n  F \"G\" 0 0\n" }
{}

/// The line of each fault that is about no module and its parts, and about no line of a text. Modules are counted from 1. Another fault has lines of its own.
pub fn fault_lines()
    ensures memory { line_of link.Memory ≡ codes "memory" }
    ensures read { line_of link.Read ≡ codes "read" }
    ensures refused { line_of (link.Refused 1 reason.Cut (place 4 34 2)) ≡ codes "module 2 refused 2 Cut record 4 at 34 within 2" }
    ensures no_text { line_of (link.NoText 153) ≡ codes "input at 153: no module and no text" }
    ensures no_modules { line_of link.NoModules ≡ codes "no modules" }
    ensures external { line_of (link.External (derive.Undefined 0 2)) ≡ codes "not linked" }
    ensures starts { line_of (link.Starts 0 2) ≡ codes "not linked" }
{}

/// The line of each fault about a module and its parts. The first of two modules is called by its file; each has a segment `T`, and an external
/// `X`. A segment without a name has its index, and a start its record.
pub fn lines_by_names()
    ensures high { high_line one_label two_modules 0 1 ≡ codes "file \"a.obj\" module 1 external 1 TooHigh \"X\"\n" }
    ensures missing { reach_shown 1 (reach.Missing kind.Segment 1) ≡ codes "module 2: no line for segment 1 \"T\"\n" }
    ensures no_frame { reach_shown 0 (reach.Missing kind.Group 3) ≡ codes "file \"a.obj\" module 1: no frame for group 3\n" }
    ensures absolute { reach_shown 1 (reach.Absolute 2) ≡ codes "module 2 reach 3 Absolute 2\n" }
    ensures far { far_line one_label two_modules 0 4 cause.Distance (aim_of (Some (spot_of 1 8)) (Some (entry_of kind.External 1)) (Some (segment_of 1 1))) ≡ codes "file \"a.obj\" module 1 segment \"T\" offset 00000008: TooFar Distance \"X\" in segment \"T\"\n" }
    ensures local { far_line one_label two_modules 0 4 cause.Target (aim_of (Some (spot_of 1 8)) (Some (entry_of kind.Segment 1)) None) ≡ codes "file \"a.obj\" module 1 segment \"T\" offset 00000008: TooFar Target segment \"T\"\n" }
    ensures grouped { far_line one_label two_modules 1 6 cause.Target (aim_of None (Some (entry_of kind.Group 2)) None) ≡ codes "module 2 record 6: TooFar Target group 2\n" }
    ensures near { near_line one_label two_modules 0 4 (aim_of (Some (spot_of 1 1)) (Some (entry_of kind.External 1)) (Some (segment_of 1 1))) ≡ codes "near: file \"a.obj\" module 1 segment \"T\" offset 00000001: \"X\" in segment \"T\" is in another frame\n" }
    ensures starts { starts_line one_label 0 1 ≡ codes "two starts: file \"a.obj\" module 1 and module 2\n" }
    ensures beyond { beyond_line one_label two_modules (segment_of 1 1) ≡ codes "module 2 segment \"T\": beyond the last address\n" }
    ensures overlap { overlap_line one_label two_modules 0x10020 (segment_of 0 1) (segment_of 1 7) ≡ codes "file \"a.obj\" module 1 segment \"T\" overlaps module 2 segment 7 at 00010020\n" }
    ensures outside { outside_line one_label two_modules 0xFFFF0 (Some (segment_of 1 1)) ≡ codes "module 2 segment \"T\": outside the range at 000FFFF0\n" }
{}
