//! Worked examples, each evaluated by the prover.

ghost use Rattle.std.specs.Prelude.{◌≡◌, ℕ, [], ◌∷◌, ◌++◌, true, false, Some, None, codes, filter, map};
ghost use Rattle.std.specs.List.{range_with_len};
ghost use Rattle.omf_frame.specs.declared.fault.Reason.TheVariants as reason;
ghost use Rattle.omf_frame.specs.declared.kinds.Treatment.TheVariants as treatment;
ghost use Rattle.omf_frame.specs.Fault.{reason_number, reasons};
ghost use Rattle.omf_frame.specs.Types.{is_treated};
ghost use Rattle.omf_frame.specs.Framing.{frame_fault};
ghost use Rattle.omf_frame.specs.Rows.{hex};

/// Bytes in hexadecimal.
pub fn notation()
    ensures { hex (codes "9C 06 00 fF") ≡ 156 ∷ 6 ∷ 0 ∷ 255 ∷ [] }
{}

/// The known types, among all 256.
pub fn types()
    ensures read { filter (is_treated treatment.Read) (range_with_len 0 256)
        ≡ hex (codes "80 82 88 8A 8B 8C 90 91 96 98 99 9A 9C 9D A0 A1 A2 A3 B0 B4 B5 B6 B7 B8 CA") }
    ensures carried { filter (is_treated treatment.Carried) (range_with_len 0 256) ≡ hex (codes "8E 94 95 C4 C5 C6 CC") }
    ensures refused { filter (is_treated treatment.Refused) (range_with_len 0 256) ≡ hex (codes "B2 B3 BC C2 C3 C8 C9 CE F0 F1") }
{}

/// The reasons' numbers: 1 to 33, in the listed order.
pub fn reasons()
    ensures { map reason_number reasons ≡ range_with_len 1 33 }
{}

/// Each framing reason, 1 to 7, and its place.
pub fn framing()
    ensures no_end { frame_fault false [] ≡ Some (record { within = 0; reason = reason.NoEnd }) }
    ensures cut { frame_fault false (hex (codes "96 05 00 01")) ≡ Some (record { within = 4; reason = reason.Cut }) }
    ensures unknown { frame_fault false (hex (codes "7F")) ≡ Some (record { within = 0; reason = reason.UnknownType }) }
    ensures unread { frame_fault false (hex (codes "C2")) ≡ Some (record { within = 0; reason = reason.UnsupportedType }) }
    ensures empty { frame_fault false (hex (codes "96 00 00")) ≡ Some (record { within = 1; reason = reason.EmptyRecord }) }
    ensures sum { frame_fault false (hex (codes "96 02 00 00 01")) ≡ Some (record { within = 4; reason = reason.Checksum }) }
    ensures header { frame_fault true (hex (codes "96 02 00 00 68")) ≡ Some (record { within = 0; reason = reason.NoHeader }) }
    ensures sound { frame_fault true (hex (codes "80 03 00 01 41 3B")) ≡ None }
{}
