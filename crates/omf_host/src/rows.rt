//! Worked examples, each evaluated by the check.

ghost use Rattle.std.specs.Prelude.{◌≡◌, [], ◌∷◌, ◌++◌, codes, true, false, None, Some};
ghost use Rattle.omf_host.specs.Endings.{is_object_file, is_with};
ghost use Rattle.omf_host.specs.Spots.{clash_line, first_clash, is_one_file};
ghost use Rattle.omf_host.specs.Streams.{told_lines};
ghost use Rattle.omf_host.specs.Telling.{reason_line, written_line};
ghost use Rattle.omf_host.specs.Tools.{tool_named};
ghost use Rattle.omf_host.specs.declared.clash.Clash.TheVariants as clashes;
ghost use Rattle.omf_host.specs.declared.spot.Spot.TheVariants as spot;
ghost use Rattle.omf_host.specs.declared.tool.Tool.TheVariants as tool;

/// One inode of one device is one file; another inode or another device is not. The standard output is one with itself alone, and what writing does not
/// destroy not even with that.
pub fn names_of_one_file()
    ensures same { is_one_file (spot.There (record { device = 1; inode = 2 })) (spot.There (record { device = 1; inode = 2 })) ≡ true }
    ensures device { is_one_file (spot.There (record { device = 1; inode = 2 })) (spot.There (record { device = 3; inode = 2 })) ≡ false }
    ensures inode { is_one_file (spot.There (record { device = 1; inode = 2 })) (spot.There (record { device = 1; inode = 1 })) ≡ false }
    ensures output { is_one_file spot.Output spot.Output ≡ true }
    ensures elsewhere { is_one_file spot.Elsewhere spot.Elsewhere ≡ false }
{}

/// Of two inputs neither is an output; the first output is one, and then it does not matter what the second is; the second is one; both outputs are one file.
pub fn outputs_refused()
    ensures none { first_clash (spot.There (record { device = 1; inode = 1 }) ∷ spot.There (record { device = 1; inode = 2 }) ∷ []) (spot.There (record { device = 1; inode = 3 })) (Some spot.Output) ≡ None }
    ensures first { first_clash (spot.There (record { device = 1; inode = 1 }) ∷ spot.There (record { device = 1; inode = 2 }) ∷ []) (spot.There (record { device = 1; inode = 2 })) (Some (spot.There (record { device = 1; inode = 2 }))) ≡ Some clashes.FirstIsRead }
    ensures second { first_clash (spot.There (record { device = 1; inode = 1 }) ∷ []) spot.Output (Some (spot.There (record { device = 1; inode = 1 }))) ≡ Some clashes.SecondIsRead }
    ensures one { first_clash (spot.Elsewhere ∷ []) (spot.There (record { device = 1; inode = 1 })) (Some (spot.There (record { device = 1; inode = 1 }))) ≡ Some clashes.AreOne }
{}

/// The lines on an output that is an input, and on two outputs of one name.
pub fn lines_on_outputs()
    ensures input { clash_line (codes "omf-link") (codes "a.obj") clashes.FirstIsRead ≡ codes "omf-link: \"a.obj\" is an input and an output" ++ 10 ∷ [] }
    ensures both { clash_line (codes "omf-link") (codes "a.exe") clashes.AreOne ≡ codes "omf-link: \"a.exe\" is two outputs" ++ 10 ∷ [] }
{}

/// The words for tools.
pub fn tools_by_name()
    ensures radare { tool_named (codes "r2") ≡ Some tool.Radare }
    ensures nm { tool_named (codes "nm") ≡ Some tool.Nm }
    ensures other { tool_named (codes "NM") ≡ None }
{}

/// The file for `m` is `m`, `m.obj` or `m.OBJ`, not `m.Obj`; the one for `-` is no other.
pub fn files_of_modules()
    ensures alone { is_object_file (codes "m") (codes "m") ≡ true }
    ensures ending { is_object_file (codes "m") (codes "m.OBJ") ≡ true }
    ensures case { is_object_file (codes "m") (codes "m.Obj") ≡ false }
    ensures input { is_object_file (codes "-") (codes "-.obj") ≡ false }
    ensures folder { is_with (codes "d/") (codes "m") ([] ∷ codes ".lib" ∷ []) (codes "d/m.lib") ≡ true }
{}

/// The lines of an output that could not be written, and of another one that is.
pub fn lines_on_unwritten()
    ensures file { reason_line (codes "a.exe") (codes "full") ≡ codes "write a.exe: full" ++ 10 ∷ [] }
    ensures output { reason_line (codes "-") (codes "full") ≡ [] }
    ensures written { written_line (Some (codes "a.map")) ≡ codes "\"a.map\" is written" ++ 10 ∷ [] }
    ensures none { written_line None ≡ [] }
{}

/// Each of two lines is after the program's name. Of no text there is no line.
pub fn lines_of_programs()
    ensures two { told_lines (codes "omf-lib") (codes "a" ++ 10 ∷ codes "b" ++ 10 ∷ []) ≡ codes "omf-lib: a" ++ 10 ∷ codes "omf-lib: b" ++ 10 ∷ [] }
    ensures none { told_lines (codes "omf-lib") [] ≡ [] }
{}
