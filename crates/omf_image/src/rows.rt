//! Worked examples, each evaluated by the prover.

ghost use Rattle.std.specs.Prelude.{◌≡◌, ℕ, [], ◌∷◌, ◌++◌, Ok, Err, Some, None, map, slice_get, codes};
ghost use Rattle.std.specs.List.{repeat, range_with_len};
ghost use Rattle.omf_frame.specs.Rows.{hex};
ghost use Rattle.omf_frame.specs.declared.fault.Reason.TheVariants as reason;
ghost use Rattle.omf_image.specs.Limits.{profile_limits};
ghost use Rattle.omf_records.specs.Layout.{fault};
ghost use Rattle.omf_image.specs.Inner.Expanding.{expanded_length, expanded};
ghost use Rattle.omf_image.specs.Overlay.{byte_at};
ghost use Rattle.omf_image.specs.Inner.Joined.{runs_of};
ghost use Rattle.omf_image.specs.Rows.{innermost, lay, five, six, run};

/// A block that is repeated 0 times expands to no bytes.
pub fn repeated_no_times()
    ensures { expanded_length 2 profile_limits (hex (codes "00 00 00 00 02 AA BB")) ≡ Ok 0 }
{}

/// Two bytes of data are stated but one is present: the fault is at the length byte, as it and its data are one field.
pub fn short_data()
    ensures { expanded_length 2 profile_limits (hex (codes "01 00 00 00 02 AA")) ≡ Err (fault 4 reason.Short) }
{}

/// 64 levels of blocks are allowed.
pub fn deep_enough()
    ensures { expanded_length 2 profile_limits (repeat 63 (hex (codes "01 00 01 00")) ++ innermost) ≡ Ok 1 }
{}

/// A 65th level is refused at its first byte.
pub fn too_deep()
    ensures { expanded_length 2 profile_limits (repeat 64 (hex (codes "01 00 01 00")) ++ innermost)
        ≡ Err (fault 256 reason.TooDeep) }
{}

/// A block at the forbidden depth without a byte for its repeat count is short.
pub fn short_and_too_deep()
    ensures { expanded_length 2 profile_limits (repeat 64 (hex (codes "01 00 01 00")) ++ hex (codes "01"))
        ≡ Err (fault 256 reason.Short) }
{}

/// Lengths within the limit.
pub fn long_enough()
    ensures nearly { expanded_length 2 profile_limits (hex (codes "FF FF 01 00 00 10 00 00 01 AA")) ≡ Ok 268431360 }
    ensures far { expanded_length 2 profile_limits (hex (codes "FF FF 01 00 01 01 00 00 01 AA")) ≡ Ok 16842495 }
{}

/// A length just above the limit.
pub fn too_long()
    ensures { expanded_length 2 profile_limits (hex (codes "FF FF 01 00 01 10 00 00 01 AA"))
        ≡ Err (fault 0 reason.DataTooLong) }
{}

/// A truncated block is reported, not the excess length, though it is further right.
pub fn short_before_too_long()
    ensures { expanded_length 2 profile_limits (hex (codes "FF FF 01 00 01 10 00 00 01 AA 01"))
        ≡ Err (fault 10 reason.Short) }
{}

/// Large repeat counts inside a block that is repeated 0 times.
pub fn none_of_many()
    ensures length { expanded_length 2 profile_limits (hex (codes "00 00 01 00 FF FF 01 00 FF FF 00 00 01 AA")) ≡ Ok 0 }
    ensures bytes { expanded 2 profile_limits (hex (codes "00 00 01 00 FF FF 01 00 FF FF 00 00 01 AA")) ≡ [] }
{}

/// 64 nested blocks with large repeat counts and no data.
pub fn many_of_none()
    ensures length { expanded_length 2 profile_limits (repeat 63 (hex (codes "FF FF 01 00")) ++ hex (codes "FF FF 00 00 00"))
        ≡ Ok 0 }
    ensures bytes { expanded 2 profile_limits (repeat 63 (hex (codes "FF FF 01 00")) ++ hex (codes "FF FF 00 00 00")) ≡ [] }
{}

/// Two nested blocks, AA twice and BB CC once, repeated three times.
pub fn nested_blocks()
    ensures length { expanded_length 2 profile_limits (hex (codes "03 00 02 00 02 00 00 00 01 AA 01 00 00 00 02 BB CC")) ≡ Ok 12 }
    ensures bytes { expanded 2 profile_limits (hex (codes "03 00 02 00 02 00 00 00 01 AA 01 00 00 00 02 BB CC"))
        ≡ repeat 3 (hex (codes "AA AA BB CC")) }
{}

/// Repeat counts of 32 bits; block counts still have 16.
pub fn wide_blocks()
    ensures length { expanded_length 4 profile_limits (hex (codes "FF FF FF FF 00 00 00")) ≡ Ok 0 }
    ensures bytes { expanded 4 profile_limits (hex (codes "FF FF FF FF 00 00 00")) ≡ [] }
    ensures too_long { expanded_length 4 profile_limits (hex (codes "01 00 00 10 00 00 01 AA")) ≡ Err (fault 0 reason.DataTooLong) }
    ensures long { expanded_length 4 profile_limits (hex (codes "00 00 00 10 00 00 01 AA")) ≡ Ok 268435456 }
{}

/// Repeat counts of 32 bits: AA BB twice; and two nested blocks, CC twice and DD EE once, repeated three times.
pub fn wide_blocks_with_bytes()
    ensures one { expanded 4 profile_limits (hex (codes "02 00 00 00 00 00 02 AA BB")) ≡ hex (codes "AA BB AA BB") }
    ensures nested { expanded 4 profile_limits (hex (codes "03 00 00 00 02 00 02 00 00 00 00 00 01 CC 01 00 00 00 00 00 02 DD EE"))
        ≡ repeat 3 (hex (codes "CC CC DD EE")) }
{}

/// Pieces that touch form one run.
pub fn two_pieces()
    ensures { runs_of (lay 1 4 (hex (codes "AA")) ∷ lay 1 5 (hex (codes "BB")) ∷ []) 1 ≡ run 4 2 ∷ [] }
{}

/// The byte at a place is that of the last piece that covers it; an empty piece covers nothing.
pub fn last_piece_wins()
    ensures runs { runs_of five 1 ≡ run 0 7 ∷ [] }
    ensures bytes { map (byte_at five 1) (range_with_len 0 8)
        ≡ Some 1 ∷ Some 0xAA ∷ Some 3 ∷ Some 4 ∷ Some 0xBB ∷ Some 0xCC ∷ Some 5 ∷ None ∷ [] }
{}

/// A byte at the last offset of a segment of 2^32 bytes; and a segment without pieces.
pub fn last_offset()
    ensures second { slice_get (runs_of six 1) 1 ≡ Some (run 0xFFFFFFFF 1) }
    ensures others { slice_get (runs_of six 1) 2 ≡ None }
    ensures elsewhere { runs_of six 2 ≡ [] }
{}
