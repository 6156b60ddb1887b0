//! Worked examples, each evaluated during the proof.

ghost use Rattle.std.specs.Prelude.{◌≡◌, ◌++◌, codes};
ghost use Rattle.std.specs.List.{repeat};
ghost use Rattle.omf_frame.specs.Rows.{hex};
ghost use Rattle.omf_check.specs.Rows.{H, N, S, L, F, M, first_module, without_checksums, long_index, communal, local_communal, local_name, local_jump, with_fixup};
ghost use Rattle.omf_reloc.specs.Modules.{module_of, with_threads, with_start, many_fixups, start_at};
ghost use Rattle.omf_canon.specs.Canonical.{canonical};
ghost use Rattle.omf_canon.specs.Skeleton.{skeleton};

/// A module that is in canonical form already.
pub fn canonical_already()
    ensures { canonical (module_of first_module) ≡ first_module }
{}

/// Checksums are computed, and indices get their shortest encoding.
pub fn shortest()
    ensures checksums { canonical (module_of without_checksums) ≡ first_module }
    ensures index { canonical (module_of long_index) ≡ first_module }
{}

/// Each fixup gets its thread's method and index, and adjacent FIXUPPs are joined.
pub fn without_threads()
    ensures bytes { canonical (module_of with_threads)
        ≡ H ++ N ++ S ++ hex (codes "98 07 00 28 02 00 02 01 01 33") ++ hex (codes "A0 08 00 01 00 00 00 00 00 00 57")
        ++ hex (codes "9C 09 00 C4 00 44 01 C4 02 44 02 46") ++ hex (codes "A0 06 00 02 00 00 00 00 58")
        ++ hex (codes "9C 05 00 C4 00 44 02 55") ++ M }
    ensures meaning { skeleton (module_of (canonical (module_of with_threads))) ≡ skeleton (module_of with_threads) }
{}

/// A FIXUPP with only a THREAD is dropped, and the start gets its frame.
pub fn start_without_thread()
    ensures { canonical (module_of with_start)
        ≡ H ++ N ++ S ++ hex (codes "9A 04 00 02 FF 01 60 8A 07 00 C1 10 01 01 02 00 9A") }
{}

/// A communal length of 128 has one byte.
pub fn communal_length()
    ensures { canonical (module_of communal) ≡ H ++ hex (codes "B0 06 00 01 58 00 62 80 0F") ++ M }
{}

/// Local records are kept, in shortest encodings.
pub fn local_records()
    ensures communal { canonical (module_of local_communal) ≡ H ++ hex (codes "B8 06 00 01 58 00 62 80 07") ++ M }
    ensures names { canonical (module_of local_name) ≡ local_name }
    ensures external { canonical (module_of local_jump) ≡ local_jump }
    ensures public { canonical (module_of (H ++ N ++ S ++ hex (codes "B6 0A 00 80 00 01 01 58 02 00 81 2C 00") ++ M))
        ≡ H ++ N ++ S ++ hex (codes "B6 09 00 00 01 01 58 02 00 81 2C 38") ++ M }
{}

/// 204 fixups fill a record of 1,024 bytes, and the 205th gets a record of its own.
pub fn greedy_cut()
    ensures { canonical (module_of many_fixups)
        ≡ H ++ N ++ S ++ L ++ hex (codes "9C FD 03") ++ repeat 204 (hex (codes "C4 01 04 01 01")) ++ hex (codes "A0") ++ F ++ M }
{}

/// A displacement of 0 is omitted from a fixup and kept in a start. MODEND's type byte keeps bits 7 and 6, and bit 0 becomes bit 6.
pub fn displacements()
    ensures fixup { canonical (module_of (with_fixup (hex (codes "9C 08 00 C4 01 00 01 01 00 00 00"))))
        ≡ first_module }
    ensures start { canonical (module_of (start_at 0x8A))
        ≡ H ++ N ++ S ++ hex (codes "8A 07 00 C1 00 01 01 00 00 AC") }
    ensures ignored_bits { canonical (module_of (H ++ hex (codes "8A 02 00 3F 00"))) ≡ H ++ M }
    ensures main { canonical (module_of (H ++ hex (codes "8A 02 00 81 00"))) ≡ H ++ hex (codes "8A 02 00 80 F4") }
{}

/// FIXUPPs of one type are joined if those between them are dropped; those of two types are not joined.
pub fn joined_fixupps()
    ensures joined { canonical (module_of (H ++ N ++ S ++ L ++ F ++ hex (codes "9D 03 00 00 01 00 9C 01 00 00") ++ F ++ M))
        ≡ H ++ N ++ S ++ L ++ hex (codes "9C 0B 00 C4 01 04 01 01 C4 01 04 01 01 C3") ++ M }
    ensures apart { canonical (module_of (H ++ N ++ S ++ L ++ F ++ hex (codes "9D 06 00 C4 01 04 01 01 00") ++ M))
        ≡ H ++ N ++ S ++ L ++ F ++ hex (codes "9D 06 00 C4 01 04 01 01 92") ++ M }
{}

/// An index 0 in two bytes becomes one byte, and a long index stays long.
pub fn public_indices()
    ensures { canonical (module_of (H ++ N ++ S ++ hex (codes "90 0A 00 80 00 01 01 58 02 00 81 2C 00") ++ M))
        ≡ H ++ N ++ S ++ hex (codes "90 09 00 00 01 01 58 02 00 81 2C 5E") ++ M }
{}
