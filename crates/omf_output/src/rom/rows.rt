//! Worked examples, each evaluated by the prover. Their values were worked out by hand.

ghost use Rattle.std.specs.Prelude.{◌≡◌, [], ◌∷◌, ◌++◌, codes, take, replicate};
ghost use Rattle.omf_frame.specs.Rows.{hex};
ghost use Rattle.omf_output.specs.declared.rom.hex.HexBase.TheVariants as base;
ghost use Rattle.omf_output.specs.declared.rom.srec.SAddress.TheVariants as address;
ghost use Rattle.omf_output.specs.Rom.Cut.{pieces};
ghost use Rattle.omf_output.specs.Rom.IntelHex.{data_line, base_line, end_line, hex_lines};
ghost use Rattle.omf_output.specs.Rom.Motorola.{record_line, data_digit, end_digit, header_line};

/// Records in Intel HEX.
pub fn hex_records()
    ensures bytes { data_line 0x0100 (hex (codes "21 46 01 36 01 21 47 01 36 00 7E FE 09 D2 19 01")) ≡ codes ":10010000214601360121470136007EFE09D2190140" ++ 10 ∷ [] }
    ensures linear { base_line base.Linear 0x0800 ≡ codes ":020000040800F2" ++ 10 ∷ [] }
    ensures segment { base_line base.Segment 0xF ≡ codes ":02000002F0000C" ++ 10 ∷ [] }
    ensures last { end_line ≡ codes ":00000001FF" ++ 10 ∷ [] }
{}

/// S-records: the header, data of each width, and the last.
pub fn s_records()
    ensures header { header_line ≡ codes "S00600004844521B" ++ 10 ∷ [] }
    ensures short { record_line (data_digit address.Bits16) address.Bits16 0x7AF0 (hex (codes "0A 0A 0D 00 00 00 00 00 00 00 00 00 00 00 00 00")) ≡ codes "S1137AF00A0A0D0000000000000000000000000061" ++ 10 ∷ [] }
    ensures short_last { record_line (end_digit address.Bits16) address.Bits16 0 [] ≡ codes "S9030000FC" ++ 10 ∷ [] }
    ensures middle { record_line (data_digit address.Bits24) address.Bits24 0x0F0000 (0xFA ∷ []) ≡ codes "S2050F0000FAF1" ++ 10 ∷ [] }
    ensures middle_last { record_line (end_digit address.Bits24) address.Bits24 0x0FFFF0 [] ≡ codes "S8040FFFF0FD" ++ 10 ∷ [] }
    ensures long { record_line (data_digit address.Bits32) address.Bits32 0x000F0000 (0xFA ∷ []) ≡ codes "S306000F0000FAF0" ++ 10 ∷ [] }
    ensures long_last { record_line (end_digit address.Bits32) address.Bits32 0 [] ≡ codes "S70500000000FA" ++ 10 ∷ [] }
{}

/// A run is cut where 16 divides the address; the record for the 64 KB is written only where they change.
pub fn cuts()
    ensures none { pieces 0x1234 [] ≡ [] }
    ensures inside { pieces 0x1234 (1 ∷ 2 ∷ []) ≡ (0x1234, 1 ∷ 2 ∷ []) ∷ [] }
    ensures three { pieces 0xFFFE (replicate 20 7) ≡ (0xFFFE, 7 ∷ 7 ∷ []) ∷ (0x10000, replicate 16 7) ∷ (0x10010, 7 ∷ 7 ∷ []) ∷ [] }
    ensures across { hex_lines base.Linear 0 ((0xFFFE, 0xAA ∷ 0xBB ∷ []) ∷ (0x10000, 0xCC ∷ []) ∷ []) ≡ codes ":02FFFE00AABB9C" ++ 10 ∷ codes ":020000040001F9" ++ 10 ∷ codes ":01000000CC33" ++ 10 ∷ [] }
{}
