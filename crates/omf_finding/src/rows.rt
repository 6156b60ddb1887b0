//! Worked examples, each evaluated during the proof.

ghost use Rattle.std.specs.Prelude.{◌≡◌, [], ◌∷◌, Some, None, codes};
ghost use Rattle.omf_frame.specs.Rows.{hex};
ghost use Rattle.omf_check.specs.Rows.{first_module};
ghost use Rattle.omf_reloc.specs.Modules.{overlaid, overlapping, with_blocks, with_threads};
ghost use Rattle.omf_reloc.specs.Rows.{low};
ghost use Rattle.omf_finding.specs.Found.{program_byte, byte_there};
ghost use Rattle.omf_finding.specs.Places.{places};
ghost use Rattle.omf_finding.specs.Rows.{byte_of, closed, closed_byte_at, opened, pattern_row};
ghost use Rattle.omf_finding.specs.Sure.{varied};

/// B8 00 00 90 with a fixup of an offset at 1: its two bytes are open. No data record covers offset 4.
pub fn first_pattern()
    ensures { pattern_row first_module 5 ≡ closed 0xB8 ∷ opened 0 ∷ opened 0 ∷ closed 0x90 ∷ None ∷ [] }
{}

/// The later of two data records counts, with its bytes and its own fixup.
pub fn later_data_counts()
    ensures { pattern_row overlaid 5 ≡ closed 0xB8 ∷ opened 5 ∷ opened 0 ∷ closed 0x90 ∷ None ∷ [] }
{}

/// Two locations that overlap.
pub fn locations_overlap()
    ensures { pattern_row overlapping 4 ≡ opened 0xF0 ∷ opened 0xFF ∷ opened 0 ∷ closed 0 ∷ [] }
{}

/// Repeated blocks, expanded: all are closed.
pub fn blocks_are_closed()
    ensures { pattern_row with_blocks 5 ≡ closed 0xAA ∷ closed 0xAA ∷ closed 0xBB ∷ closed 0xCC ∷ closed 0xAA ∷ [] }
{}

/// Of a row of zeros the first byte counts; of other bytes each that is not the same as a closed one before it.
pub fn bytes_that_vary()
    ensures zeros { varied (byte_of (closed 0 ∷ closed 0 ∷ closed 0 ∷ [])) (closed_byte_at 0 0 ∷ closed_byte_at 1 0 ∷ closed_byte_at 2 0 ∷ []) ≡ 1 }
    ensures some { varied (byte_of (closed 7 ∷ closed 7 ∷ closed 8 ∷ opened 8 ∷ closed 8 ∷ [])) (closed_byte_at 0 7 ∷ closed_byte_at 1 7 ∷ closed_byte_at 2 8 ∷ closed_byte_at 4 8 ∷ []) ≡ 3 }
{}

/// The first module's pattern is where its closed bytes are; a place past the last byte is none.
pub fn places_of_the_first()
    ensures two { places (Some 0xB8 ∷ None ∷ None ∷ Some 0x90 ∷ []) (hex (codes "00 B8 20 00 90 B8 90 90 90")) ≡ 1 ∷ 5 ∷ [] }
    ensures cut { places (Some 0xB8 ∷ None ∷ None ∷ Some 0x90 ∷ []) (hex (codes "B8 20 00")) ≡ [] }
    ensures overlap { places (Some 1 ∷ None ∷ []) (hex (codes "01 01 01")) ≡ 0 ∷ 1 ∷ [] }
    ensures empty { places [] (hex (codes "07")) ≡ 0 ∷ 1 ∷ [] }
{}

/// A program's byte at an address, from its base on.
pub fn addresses()
    ensures first { program_byte (hex (codes "B8 20")) 0x10020 0x10020 ≡ Some 0xB8 }
    ensures below { program_byte (hex (codes "B8 20")) 0x10020 0x1001F ≡ None }
    ensures past { program_byte (hex (codes "B8 20")) 0x10020 0x10022 ≡ None }
    ensures placed { byte_there low (hex (codes "B8 20 00 90")) 0x10020 1 3 ≡ Some 0x90 }
    ensures no_segment { byte_there low (hex (codes "B8 20 00 90")) 0x10020 2 0 ≡ None }
{}
