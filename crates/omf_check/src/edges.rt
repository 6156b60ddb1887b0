//! Worked examples at the edges of the rules, worked out by hand and evaluated by the prover. Their checksum bytes are 00, which is
//! always accepted. The first records are at 0, 6 and DH, and the next at 17H.

ghost use Rattle.std.specs.Prelude.{◌≡◌, ℕ, [], ◌∷◌, ◌++◌, Some, None, take, drop, true, false, codes};
ghost use Rattle.std.specs.List.{repeat};
ghost use Rattle.omf_frame.specs.Fault.{broken};
ghost use Rattle.omf_frame.specs.Rows.{hex};
ghost use Rattle.omf_frame.specs.declared.fault.Reason.TheVariants as reason;
ghost use Rattle.omf_records.specs.Layout.{fault};
ghost use Rattle.omf_records.specs.Rows.{put_at};
ghost use Rattle.omf_records.specs.Values.{Comment, Fixups, Thread, ModEnd};
ghost use Rattle.omf_image.specs.Limits.{profile_limits};
ghost use Rattle.omf_check.specs.Refusal.{AreSoundSoFar, EndsWhereJudged};
ghost use Rattle.omf_check.specs.Rows.{IsTaken, Fails, any, no_vendors, module_in, place, H, N, S, L, M, first_module, wrong_checksum, with_fixup, repeated, comment, segment_named, group_named, two_externals, named_in, meaning_after};
ghost use Rattle.omf_check.specs.Rules.{room, item_limit, item_places};
ghost use Rattle.omf_check.specs.Tables.{items_in, locals};
ghost use Rattle.omf_check.specs.Inner.Verdict.{Refused, verdict};

/// The order of framing faults: the type, the end of the input, the checksum, the header.
pub fn framing_steps()
    ensures unknown { Fails (H ++ hex (codes "FF")) reason.UnknownType 1 6 0 }
    ensures unsupported { Fails (hex (codes "BC")) reason.UnsupportedType 0 0 0 }
    ensures local { Fails (hex (codes "B4")) reason.Cut 0 0 1 }
    ensures no_length { Fails (H ++ hex (codes "96 04")) reason.Cut 1 6 2 }
    ensures cut { Fails (hex (codes "8A 02 00 00")) reason.Cut 0 0 4 }
    ensures checksum { Fails (hex (codes "8A 02 00 00 75")) reason.Checksum 0 0 4 }
    ensures header_again { IsTaken (H ++ hex (codes "82 02 00 00 00") ++ M) }
{}

/// A bad THREAD to the right of a FIXUP without a data record: faults of layout precede all others.
pub fn layout_before_meaning()
    ensures { Fails (H ++ N ++ S ++ hex (codes "9C 06 00 C4 01 54 01 4C 00")) reason.FrameMethod 3 23 7 }
{}

/// A FIXUP's first byte is left of its datum, whose index is undefined.
pub fn data_before_datum()
    ensures none { Fails (H ++ N ++ S ++ hex (codes "9C 06 00 C4 01 04 09 09 00")) reason.NoDataRecord 3 23 3 }
    ensures outside { Fails (with_fixup (hex (codes "9C 06 00 C4 03 04 09 09 00"))) reason.OutsideRecord 4 34 3 }
    ensures iterated { Fails (H ++ N ++ S ++ hex (codes "A2 04 00 01 00 00 00 9C 07 00 54 C4 01 04 09 09 00"))
        reason.FixupOnIterated 4 30 4 }
    ensures threads { IsTaken (H ++ N ++ S ++ hex (codes "9C 03 00 01 09 00") ++ M) }
{}

/// Faults of frame and target are each at their own datum; index 0 is undefined in both.
pub fn data_of_references()
    ensures both { Fails (with_fixup (hex (codes "9C 06 00 C4 01 04 09 09 00"))) reason.UndefinedSegment 4 34 6 }
    ensures long_frame { Fails (with_fixup (hex (codes "9C 07 00 C4 01 04 80 01 02 00"))) reason.UndefinedSegment 4 34 8 }
    ensures frame_group { Fails (with_fixup (hex (codes "9C 06 00 C4 01 14 00 01 00"))) reason.UndefinedGroup 4 34 6 }
    ensures frame_external { Fails (with_fixup (hex (codes "9C 06 00 C4 01 24 00 01 00"))) reason.UndefinedExternal 4 34 6 }
    ensures target_group { Fails (with_fixup (hex (codes "9C 05 00 C4 01 45 01 00"))) reason.UndefinedGroup 4 34 6 }
    ensures target_external { Fails (with_fixup (hex (codes "9C 05 00 C4 01 46 01 00"))) reason.UndefinedExternal 4 34 6 }
{}

/// Two threads at one fix data byte: a frame thread that was never set, or has method F4, and a target thread with an undefined segment.
pub fn smaller_number()
    ensures fixup { Fails (with_fixup (hex (codes "9C 06 00 01 02 C4 01 8D 00"))) reason.UndefinedSegment 4 34 7 }
    ensures start { Fails (H ++ N ++ S ++ hex (codes "9C 04 00 50 00 05 00 8A 03 00 40 8C 00")) reason.UndefinedSegment 4 30 4 }
    ensures start_datum { Fails (H ++ N ++ S ++ hex (codes "8A 04 00 40 44 09 00")) reason.StartFrame 3 23 4 }
    ensures start_target { Fails (H ++ N ++ S ++ hex (codes "8A 04 00 40 54 00 00")) reason.UndefinedSegment 3 23 5 }
{}

/// A thread of the other kind, or one that is set after the fixup, is not used.
pub fn other_threads()
    ensures kind { Fails (with_fixup (hex (codes "9C 05 00 51 C4 01 5D 00"))) reason.UndefinedThread 4 34 6 }
    ensures behind { Fails (with_fixup (hex (codes "9C 06 00 C4 01 5D 01 01 00"))) reason.UndefinedThread 4 34 5 }
    ensures last { Fails (with_fixup (hex (codes "9C 08 00 01 01 01 02 C4 01 5D 00"))) reason.UndefinedSegment 4 34 9 }
{}

/// Data of no bytes may be at the segment's end, and not after it; the fault is at the offset field.
pub fn no_data_bytes()
    ensures end { IsTaken (H ++ N ++ S ++ hex (codes "A0 04 00 01 04 00 00") ++ M) }
    ensures past { Fails (H ++ N ++ S ++ hex (codes "A0 04 00 01 05 00 00") ++ M) reason.OutsideSegment 3 23 4 }
    ensures no_blocks { Fails (H ++ N ++ S ++ hex (codes "A2 04 00 01 05 00 00") ++ M) reason.OutsideSegment 3 23 4 }
    ensures long_index { Fails (H ++ N ++ S ++ hex (codes "A0 05 00 80 01 05 00 00") ++ M) reason.OutsideSegment 3 23 5 }
    ensures no_segment { Fails (H ++ N ++ S ++ hex (codes "A1 06 00 09 FF FF FF FF 00") ++ M) reason.UndefinedSegment 3 23 3 }
{}

/// Undefined names and bases: the fault is at the index.
pub fn undefined_indices()
    ensures name { Fails (H ++ N ++ hex (codes "98 07 00 28 04 00 03 01 01 00")) reason.UndefinedName 2 13 6 }
    ensures class { Fails (H ++ N ++ hex (codes "99 09 00 28 04 00 00 00 02 03 01 00")) reason.UndefinedName 2 13 9 }
    ensures group { Fails (H ++ N ++ S ++ hex (codes "9A 02 00 03 00")) reason.UndefinedName 3 23 3 }
    ensures member { Fails (H ++ N ++ S ++ hex (codes "9A 06 00 02 FF 01 FF 02 00")) reason.UndefinedSegment 3 23 7 }
    ensures public_group { Fails (H ++ N ++ S ++ hex (codes "90 03 00 01 02 00")) reason.UndefinedGroup 3 23 3 }
    ensures public_segment { Fails (H ++ N ++ S ++ hex (codes "91 03 00 00 02 00")) reason.UndefinedSegment 3 23 4 }
{}

/// EXTDEF and COMDEF share one table of externals.
pub fn one_external_table()
    ensures { Fails (H ++ N ++ S ++ hex (codes "8C 04 00 01 58 00 00 B0 06 00 01 59 00 62 01 00") ++ L
        ++ hex (codes "9C 09 00 C4 01 46 02 C4 01 46 03 00") ++ M) reason.UndefinedExternal 6 50 10 }
{}

/// LEXTDEF and LCOMDEF share the same table, before or after the others.
pub fn local_externals_count()
    ensures local { Fails (H ++ N ++ S ++ hex (codes "B4 04 00 01 58 00 00 B8 06 00 01 59 00 62 01 00") ++ L
        ++ hex (codes "9C 09 00 C4 01 46 02 C4 01 46 03 00") ++ M) reason.UndefinedExternal 6 50 10 }
    ensures mixed { Fails (H ++ N ++ S ++ hex (codes "B5 04 00 01 58 00 00 B0 06 00 01 59 00 62 01 00") ++ L
        ++ hex (codes "9C 09 00 C4 01 46 02 C4 01 46 03 00") ++ M) reason.UndefinedExternal 6 50 10 }
    ensures told { locals (two_externals ∷ record two_externals { kind = 0xB4 } ∷ []) ≡ false ∷ false ∷ true ∷ true ∷ [] }
{}

/// LNAMES and LLNAMES share one table of names.
pub fn one_name_table()
    ensures last { Fails (H ++ hex (codes "CA 03 00 01 55 00") ++ N ++ hex (codes "98 07 00 28 04 00 03 04 01 00") ++ M)
        reason.UndefinedName 3 19 7 }
    ensures beyond { meaning_after 32767 (named_in 0x96) (named_in 0xCA) ≡ Some (fault 3 reason.TooMany) }
{}

/// The base of an LPUBDEF is checked like that of a PUBDEF; index 0 means none.
pub fn local_bases()
    ensures group { Fails (H ++ N ++ S ++ hex (codes "B6 03 00 01 02 00")) reason.UndefinedGroup 3 23 3 }
    ensures segment { Fails (H ++ N ++ S ++ hex (codes "B7 03 00 00 02 00")) reason.UndefinedSegment 3 23 4 }
    ensures none { IsTaken (H ++ hex (codes "B6 05 00 00 00 34 12 00") ++ M) }
{}

/// Blocks: too deep even if repeated 0 times; too many bytes, with no wraparound; Short though further right; all before meaning.
pub fn block_steps()
    ensures deep { Fails (repeated (hex (codes "A2 0A 01 01 00 00") ++ repeat 64 (hex (codes "00 00 01 00"))
        ++ hex (codes "01 00 00 00 01 AA 00"))) reason.TooDeep 3 23 262 }
    ensures no_wrap { Fails (repeated (hex (codes "A2 1E 00 01 00 00") ++ repeat 5 (hex (codes "FF FF 01 00"))
        ++ hex (codes "01 00 00 00 01 AA 00"))) reason.DataTooLong 3 23 6 }
    ensures short { Fails (repeated (hex (codes "A2 0F 00 01 00 00 FF FF 01 00 FF FF 00 00 01 AA 01 00"))) reason.Short 3 23 16 }
    ensures before_segment { Fails (repeated (hex (codes "A2 0E 00 09 00 00 FF FF 01 00 FF FF 00 00 01 AA 00"))) reason.DataTooLong 3 23 6 }
    ensures missing_block { Fails (repeated (hex (codes "A3 0C 00 01 00 00 00 00 00 00 00 00 01 00 00"))) reason.Short 3 23 14 }
{}

/// Vendor classes start at C0H; AAH is another dialect in either profile.
pub fn comment_classes()
    ensures last { module_in (verdict no_vendors profile_limits (comment 0xBF 0x00)) ≡ Some (comment 0xBF 0x00) }
    ensures first { verdict no_vendors profile_limits (comment 0xC0 0x00) ≡ Refused reason.VendorComment (place 1 6 4) }
    ensures dialect { verdict no_vendors profile_limits (comment 0xAA 0x00) ≡ Refused reason.OtherDialect (place 1 6 4) }
{}

/// Items: one for each subrecord, and one for a FIXUPP without any. The fault is at the first item above the limit, or at 0.
pub fn items()
    ensures none { items_in (Fixups []) ≡ 1 }
    ensures two { items_in (Fixups (put_at 3 (Thread 0x50 None) ∷ put_at 4 (Thread 0x50 None) ∷ [])) ≡ 2 }
    ensures other { items_in (ModEnd 0 None) ≡ 1 }
    ensures beyond { broken (room item_limit 1048575 (item_places (Fixups (put_at 3 (Thread 0x50 None) ∷ put_at 4 (Thread 0x50 None) ∷ []))))
        ≡ fault 4 reason.TooMany ∷ [] }
    ensures empty { broken (room item_limit 1048576 (item_places (Fixups []))) ≡ fault 0 reason.TooMany ∷ [] }
    ensures comment { broken (room item_limit 1048576 (item_places (Comment 0 0xAA []))) ≡ fault 0 reason.TooMany ∷ [] }
{}

/// The first entry above a table's limit: for a segment the fault is at 3, left of its name; for a group also at 3, where an undefined
/// name has the smaller number; for an external it is at its name.
pub fn full_tables()
    ensures last_segment { meaning_after 32766 (segment_named 0) (segment_named 0) ≡ None }
    ensures segment { meaning_after 32767 (segment_named 0) (segment_named 9) ≡ Some (fault 3 reason.TooMany) }
    ensures last_group { meaning_after 32766 (group_named 0) (group_named 0) ≡ None }
    ensures group { meaning_after 32767 (group_named 0) (group_named 0) ≡ Some (fault 3 reason.TooMany) }
    ensures unnamed_group { meaning_after 32767 (group_named 0) (group_named 9) ≡ Some (fault 3 reason.UndefinedName) }
    ensures external { meaning_after 16383 two_externals two_externals ≡ Some (fault 6 reason.TooMany) }
{}

/// Bytes that are sound so far: a module, a prefix of one, no bytes; not with a wrong checksum, nor with a byte after the module.
pub fn sound_bytes()
    ensures whole { AreSoundSoFar any profile_limits first_module }
    ensures inside { AreSoundSoFar any profile_limits (take 36 first_module) }
    ensures between { AreSoundSoFar any profile_limits (take 43 first_module) }
    ensures nothing { AreSoundSoFar any profile_limits [] }
    ensures before_checksum { AreSoundSoFar any profile_limits (take 33 wrong_checksum) }
    ensures checksum { AreSoundSoFar any profile_limits (take 34 wrong_checksum) → ⊥ }
    ensures behind { AreSoundSoFar any profile_limits (first_module ++ hex (codes "DE")) → ⊥ }
{}

/// A record is refused by its type byte, by a length of 0, or at its end.
pub fn places_of_judging()
    ensures kind { EndsWhereJudged reason.UnsupportedType (hex (codes "C2")) }
    ensures past_kind { EndsWhereJudged reason.UnsupportedType (hex (codes "C2 01")) → ⊥ }
    ensures empty { EndsWhereJudged reason.EmptyRecord (hex (codes "96 00 00")) }
    ensures end { EndsWhereJudged reason.Checksum (drop 23 (take 34 wrong_checksum)) }
    ensures before_end { EndsWhereJudged reason.Checksum (drop 23 (take 33 wrong_checksum)) → ⊥ }
    ensures past_end { EndsWhereJudged reason.Checksum (drop 23 (take 35 wrong_checksum)) → ⊥ }
    ensures cut { EndsWhereJudged reason.Cut (hex (codes "96")) → ⊥ }
{}
