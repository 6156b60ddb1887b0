//! Worked examples at the limits of the layouts, worked out by hand and evaluated by the check. Contents begin at offset 3.

ghost use Rattle.std.specs.Prelude.{ℕ, [], ◌∷◌, Some, None};
ghost use Rattle.omf_frame.specs.declared.fault.Reason.TheVariants as reason;
ghost use Rattle.omf_records.specs.Values.{Near, Thread, Fixup, Names, Segment, Externs, Publics, Communals, Plain, Fixups, ModEnd, Carried};
ghost use Rattle.omf_records.specs.Rows.{Gives, Refused, put_at, refers};

/// Empty contents: lists may be empty; any other first field is missing.
pub fn no_bytes()
    ensures names { Gives 0x96 [] (Names []) }
    ensures externals { Gives 0x8C [] (Externs []) }
    ensures communals { Gives 0xB0 [] (Communals []) }
    ensures subrecords { Gives 0x9D [] (Fixups []) }
    ensures carried { Gives 0xCC [] (Carried []) }
    ensures comment { Refused 0x88 [] 3 reason.Short }
    ensures segment { Refused 0x99 [] 3 reason.Short }
    ensures group { Refused 0x9A [] 3 reason.Short }
    ensures publics { Refused 0x91 [] 3 reason.Short }
    ensures data { Refused 0xA1 [] 3 reason.Short }
    ensures blocks { Refused 0xA2 [] 3 reason.Short }
    ensures end { Refused 0x8B [] 3 reason.Short }
{}

/// Undefined location types, reported at the FIXUP's first byte. Type 7 is among the first faults.
pub fn location_types()
    ensures six { Refused 0x9C (0xD8 ∷ 0x00 ∷ 0x54 ∷ 0x01 ∷ []) 3 reason.LocationType }
    ensures eight { Refused 0x9C (0xE0 ∷ 0x00 ∷ 0x54 ∷ 0x01 ∷ []) 3 reason.LocationType }
    ensures ten { Refused 0x9D (0xE8 ∷ 0x00 ∷ 0x54 ∷ 0x01 ∷ []) 3 reason.LocationType }
    ensures twelve { Refused 0x9D (0xF0 ∷ 0x00 ∷ 0x54 ∷ 0x01 ∷ []) 3 reason.LocationType }
    ensures fourteen { Refused 0x9D (0xF8 ∷ 0x00 ∷ 0x54 ∷ 0x01 ∷ []) 3 reason.LocationType }
    ensures fifteen { Refused 0x9C (0xFC ∷ 0x00 ∷ 0x54 ∷ 0x01 ∷ []) 3 reason.LocationType }
    ensures later { Refused 0x9C (0x50 ∷ 0x00 ∷ 0x01 ∷ 0xDC ∷ 0x00 ∷ []) 6 reason.LocationType }
{}

/// Bases, pointers and high bytes are never self-relative; offsets and low bytes may be. The data offset has ten bits.
pub fn self_relative_types()
    ensures pointer { Refused 0x9C (0x8C ∷ 0x00 ∷ 0x54 ∷ 0x01 ∷ []) 3 reason.SelfRelative }
    ensures high { Refused 0x9C (0x90 ∷ 0x00 ∷ 0x54 ∷ 0x01 ∷ []) 3 reason.SelfRelative }
    ensures wide_pointer { Refused 0x9D (0xAC ∷ 0x00 ∷ 0x54 ∷ 0x01 ∷ []) 3 reason.SelfRelative }
    ensures low { Gives 0x9C (0x80 ∷ 0x00 ∷ 0x54 ∷ 0x01 ∷ []) (Fixups (put_at 3 (Fixup 0x8000 (refers (put_at 5 0x54) None (Some (put_at 6 1)) None)) ∷ [])) }
    ensures five { Gives 0x9C (0x94 ∷ 0x00 ∷ 0x54 ∷ 0x01 ∷ []) (Fixups (put_at 3 (Fixup 0x9400 (refers (put_at 5 0x54) None (Some (put_at 6 1)) None)) ∷ [])) }
    ensures thirteen { Gives 0x9D (0xB7 ∷ 0xFF ∷ 0x54 ∷ 0x01 ∷ []) (Fixups (put_at 3 (Fixup 0xB7FF (refers (put_at 5 0x54) None (Some (put_at 6 1)) None)) ∷ [])) }
{}

/// A refused method is reported at the fix data byte. If a thread gives the frame or the target, there is no method.
pub fn methods()
    ensures six { Refused 0x9C (0xC4 ∷ 0x01 ∷ 0x64 ∷ []) 5 reason.FrameMethod }
    ensures seven { Refused 0x9C (0xC4 ∷ 0x01 ∷ 0x74 ∷ []) 5 reason.FrameMethod }
    ensures target_with_thread { Refused 0x9C (0xC4 ∷ 0x01 ∷ 0x87 ∷ []) 5 reason.TargetMethod }
    ensures frame_with_thread { Refused 0x9C (0xC4 ∷ 0x01 ∷ 0x3C ∷ []) 5 reason.FrameMethod }
    ensures by_threads { Gives 0x9C (0xC4 ∷ 0x01 ∷ 0xFF ∷ []) (Fixups (put_at 3 (Fixup 0xC401 (refers (put_at 5 0xFF) None None None)) ∷ [])) }
    ensures frame_thread { Refused 0x9C (0x58 ∷ []) 3 reason.FrameMethod }
    ensures target_thread { Refused 0x9C (0x3F ∷ []) 3 reason.TargetMethod }
{}

/// A missing or incomplete index is reported at its own offset.
pub fn short_indices()
    ensures thread { Refused 0x9C (0x00 ∷ []) 4 reason.Short }
    ensures half_thread { Refused 0x9C (0x40 ∷ 0x80 ∷ []) 4 reason.Short }
    ensures target { Refused 0x9C (0xC4 ∷ 0x01 ∷ 0x04 ∷ 0x80 ∷ 0x01 ∷ []) 8 reason.Short }
    ensures overlay { Refused 0x98 (0x28 ∷ 0x04 ∷ 0x00 ∷ 0x02 ∷ 0x01 ∷ []) 8 reason.Short }
    ensures type_index { Refused 0x8C (0x01 ∷ 0x58 ∷ []) 5 reason.Short }
    ensures public_type { Refused 0x90 (0x00 ∷ 0x01 ∷ 0x01 ∷ 0x58 ∷ 0x02 ∷ 0x00 ∷ 0x80 ∷ []) 9 reason.Short }
    ensures second_name { Refused 0x96 (0x01 ∷ 0x41 ∷ 0x02 ∷ 0x42 ∷ []) 5 reason.Short }
{}

/// A 2-byte index moves the fields after it by one byte. 0 in two bytes is 0.
pub fn long_indices()
    ensures segment { Gives 0x98 (0x28 ∷ 0x04 ∷ 0x00 ∷ 0x80 ∷ 0x02 ∷ 0x80 ∷ 0x01 ∷ 0x81 ∷ 0x2C ∷ []) (Segment (record { attribute = 0x28; absolute = None; size = 4; name = put_at 6 2; class = put_at 8 1; overlay = 300 })) }
    ensures data { Gives 0xA0 (0x80 ∷ 0x00 ∷ 0x00 ∷ 0x00 ∷ []) (Plain (record { segment = put_at 3 0; offset = put_at 5 0; bytes = [] })) }
    ensures frame { Refused 0x90 (0x00 ∷ 0x80 ∷ 0x00 ∷ []) 6 reason.Short }
    ensures type_index { Gives 0x8C (0x01 ∷ 0x58 ∷ 0x81 ∷ 0x2C ∷ []) (Externs (put_at 3 (record { name = 0x58 ∷ []; type_index = 300 }) ∷ [])) }
{}

/// The odd type has 32-bit fields where the even one has 16; a base frame has 16 bits in both.
pub fn widths()
    ensures offset { Refused 0xA1 (0x01 ∷ 0x00 ∷ 0x00 ∷ 0x00 ∷ []) 4 reason.Short }
    ensures public_offset { Refused 0x91 (0x00 ∷ 0x01 ∷ 0x01 ∷ 0x58 ∷ 0x02 ∷ 0x00 ∷ []) 7 reason.Short }
    ensures base_frame { Gives 0x91 (0x00 ∷ 0x00 ∷ 0x34 ∷ 0x12 ∷ 0x01 ∷ 0x58 ∷ 0x02 ∷ 0x00 ∷ 0x00 ∷ 0x00 ∷ 0x07 ∷ []) (Publics (record { group = put_at 3 0; segment = put_at 4 0; frame = Some 0x1234; items = put_at 7 (record { name = 0x58 ∷ []; offset = 2; type_index = 7 }) ∷ [] })) }
    ensures wide_displacement { Refused 0x8B (0xC1 ∷ 0x00 ∷ 0x01 ∷ 0x01 ∷ 0x02 ∷ 0x00 ∷ []) 7 reason.Short }
    ensures narrow_displacement { Refused 0x8A (0xC1 ∷ 0x00 ∷ 0x01 ∷ 0x01 ∷ 0x02 ∷ 0x00 ∷ 0x00 ∷ 0x00 ∷ []) 9 reason.Long }
    ensures big { Refused 0x99 (0x2A ∷ 0x00 ∷ 0x00 ∷ 0x00 ∷ 0x80 ∷ []) 4 reason.BigLength }
    ensures short_big { Refused 0x99 (0x2A ∷ 0x01 ∷ 0x00 ∷ 0x00 ∷ []) 4 reason.Short }
    ensures absolute { Refused 0x99 (0x08 ∷ 0x00 ∷ 0xB8 ∷ []) 6 reason.Short }
{}

/// Communal lengths: 80H is 128, and above it only 81H, 84H and 88H begin a length. A wrong data type hides the fields after it.
pub fn communal_lengths()
    ensures last_short { Gives 0xB0 (0x00 ∷ 0x00 ∷ 0x62 ∷ 0x80 ∷ []) (Communals (put_at 3 (record { name = []; type_index = 0; size = Near 128 }) ∷ [])) }
    ensures four_bytes { Gives 0xB0 (0x00 ∷ 0x00 ∷ 0x62 ∷ 0x88 ∷ 0xFF ∷ 0xFF ∷ 0xFF ∷ 0xFF ∷ []) (Communals (put_at 3 (record { name = []; type_index = 0; size = Near 0xFFFFFFFF }) ∷ [])) }
    ensures three { Refused 0xB0 (0x00 ∷ 0x00 ∷ 0x62 ∷ 0x83 ∷ 0x01 ∷ 0x00 ∷ []) 6 reason.CommunalLength }
    ensures five { Refused 0xB0 (0x00 ∷ 0x00 ∷ 0x61 ∷ 0x01 ∷ 0x85 ∷ []) 7 reason.CommunalLength }
    ensures nine { Refused 0xB0 (0x00 ∷ 0x00 ∷ 0x62 ∷ 0x89 ∷ []) 6 reason.CommunalLength }
    ensures second { Refused 0xB0 (0x00 ∷ 0x00 ∷ 0x61 ∷ 0x05 ∷ []) 7 reason.Short }
    ensures wrong_type { Refused 0xB0 (0x00 ∷ 0x00 ∷ 0x60 ∷ 0xFF ∷ []) 5 reason.CommunalType }
    ensures type_missing { Refused 0xB0 (0x00 ∷ 0x00 ∷ []) 5 reason.Short }
{}

/// Bit 6 of MODEND's type byte alone determines whether there is a start address. Its displacement may be absent.
pub fn ends()
    ensures other_bits { Gives 0x8A (0xBF ∷ []) (ModEnd 0xBF None) }
    ensures no_start { Refused 0x8A (0x01 ∷ 0x54 ∷ 0x01 ∷ []) 4 reason.Long }
    ensures no_displacement { Gives 0x8A (0x40 ∷ 0x54 ∷ 0x01 ∷ []) (ModEnd 0x40 (Some (refers (put_at 4 0x54) None (Some (put_at 5 1)) None))) }
    ensures left_over { Refused 0x8B (0x40 ∷ 0x54 ∷ 0x01 ∷ 0x00 ∷ []) 6 reason.Long }
{}
