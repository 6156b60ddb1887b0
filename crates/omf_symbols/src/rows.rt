//! Worked examples, each evaluated by the check.

ghost use Rattle.std.specs.Prelude.{◌≡◌, [], ◌∷◌, ◌++◌, codes, true, false};
ghost use Rattle.omf_host.specs.declared.tool.Tool.TheVariants as tool;
ghost use Rattle.omf_symbols.specs.Classes.{is_code};
ghost use Rattle.omf_symbols.specs.Placed.{placed_symbols};
ghost use Rattle.omf_symbols.specs.Rows.{at, coded, placed_at};
ghost use Rattle.omf_symbols.specs.Text.{symbols_text};
ghost use Rattle.omf_symbols.specs.Tools.{usual_load};
ghost use Rattle.omf_symbols.specs.declared.tool.Kind.TheVariants as kind;

/// A function at 10000H and a variable at 1ABCDH, for each tool. The function's name has a question mark, and the variable's a blank.
pub fn texts_of_symbols()
    ensures ghidra { symbols_text tool.Ghidra (at true 0x10000 (codes "?f") ∷ at false 0x1ABCD (codes "v 1") ∷ []) ≡ codes "?f 0x00010000 f" ++ 10 ∷ codes "v\\x201 0x0001ABCD l" ++ 10 ∷ [] }
    ensures ida { symbols_text tool.Ida (at true 0x10000 (codes "?f") ∷ at false 0x1ABCD (codes "v 1") ∷ []) ≡ codes "#include <idc.idc>" ++ 10 ∷ codes "static main() {" ++ 10 ∷ codes "  set_name(0x00010000, \"?f\", SN_NOCHECK | SN_NOWARN);" ++ 10 ∷ codes "  set_name(0x0001ABCD, \"v_201\", SN_NOCHECK | SN_NOWARN);" ++ 10 ∷ codes "}" ++ 10 ∷ [] }
    ensures radare { symbols_text tool.Radare (at true 0x10000 (codes "?f") ∷ at false 0x1ABCD (codes "v 1") ∷ []) ≡ codes "f sym._3Ff 1 0x00010000" ++ 10 ∷ codes "f sym.v_201 1 0x0001ABCD" ++ 10 ∷ [] }
    ensures nm { symbols_text tool.Nm (at true 0x10000 (codes "?f") ∷ at false 0x1ABCD (codes "v 1") ∷ []) ≡ codes "00010000 T ?f" ++ 10 ∷ codes "0001ABCD D v\\x201" ++ 10 ∷ [] }
    ensures none { symbols_text tool.Ida [] ≡ codes "#include <idc.idc>" ++ 10 ∷ codes "static main() {" ++ 10 ∷ codes "}" ++ 10 ∷ [] }
{}

/// Where tools load programs.
pub fn loads_of_programs()
    ensures exe { usual_load tool.Ghidra kind.Mz ≡ 0x10000 }
    ensures com { usual_load tool.Ghidra kind.Com ≡ 0 }
    ensures ida { usual_load tool.Ida kind.Com ≡ 0x10000 }
    ensures nm { usual_load tool.Nm kind.Mz ≡ 0 }
{}

/// A module with a segment of class CODE at 20H with the local public L at 1, and one of class DATA at 40H with the public V at 2. The public C has a frame
/// number, and no segment. The load address is added.
pub fn symbols_of_a_module()
    ensures code { is_code coded 1 ≡ true }
    ensures data { is_code coded 2 ≡ false }
    ensures none { is_code coded 0 ≡ false }
    ensures all { placed_symbols 0x10000 ((coded, placed_at 0x20 0x40) ∷ []) ≡ at true 0x10021 (codes "L") ∷ at false 0x10042 (codes "V") ∷ [] }
    ensures two { placed_symbols 0 ((coded, placed_at 0x20 0x40) ∷ (coded, placed_at 0x80 0x60) ∷ []) ≡ at true 0x21 (codes "L") ∷ at false 0x42 (codes "V") ∷ at true 0x81 (codes "L") ∷ at false 0x62 (codes "V") ∷ [] }
{}
