//! Worked examples, each evaluated by the prover.

ghost use Rattle.std.specs.Prelude.{◌≡◌, ℕ, [], ◌∷◌, ◌++◌, Some, None, take, replicate, codes, true, false};
ghost use Rattle.omf_frame.specs.Rows.{hex};
ghost use Rattle.omf_frame.specs.declared.fault.Reason.TheVariants as reason;
ghost use Rattle.omf_image.specs.Limits.{profile_limits};
ghost use Rattle.omf_check.specs.Inner.Verdict.{Refused, verdict};
ghost use Rattle.omf_check.specs.Classes.{is_code_class};
ghost use Rattle.omf_check.specs.Rows.{IsTaken, Fails, any, no_vendors, verdict_of, module_in, place, H, N, S, L, F, M, first_module, without_checksums, wrong_checksum, long_index, threads, defined_thread, undefined_thread, flat, repeated, nested_blocks, blocks_of_nothing, too_many_bytes, most_bytes, with_fixup, big, started, absolute, thread_ahead, comment, communal, public, nameless, many_bytes, local_jump, local_name, local_communal};

/// A module of six records; the bytes after it are not read.
pub fn a_module()
    ensures alone { IsTaken first_module }
    ensures followed { module_in (verdict_of (first_module ++ hex (codes "DE AD"))) ≡ Some first_module }
{}

/// An empty input.
pub fn empty_input()
    ensures { Fails [] reason.NoEnd 0 0 0 }
{}

/// A checksum byte of 0 is accepted whatever the sum; any other value is checked.
pub fn checksums()
    ensures zeros { IsTaken without_checksums }
    ensures wrong { Fails wrong_checksum reason.Checksum 3 23 10 }
{}

/// The input ends within a record, or between records.
pub fn truncated()
    ensures inside { Fails (take 36 first_module) reason.Cut 4 34 2 }
    ensures between { Fails (take 43 first_module) reason.NoEnd 5 43 0 }
{}

/// A two-byte index that one byte could hold.
pub fn two_byte_index()
    ensures { IsTaken long_index }
{}

/// A type byte is checked before the rest of its record has arrived.
pub fn types()
    ensures later { Fails (H ++ hex (codes "C2")) reason.UnsupportedType 1 6 0 }
    ensures library { Fails (hex (codes "F0")) reason.UnsupportedType 0 0 0 }
    ensures unknown { Fails (hex (codes "00")) reason.UnknownType 0 0 0 }
    ensures no_header { Fails M reason.NoHeader 0 0 0 }
{}

/// A first record of length 0: EmptyRecord, although it is no header.
pub fn empty_record()
    ensures { Fails (hex (codes "96 00 00")) reason.EmptyRecord 0 0 1 }
{}

/// Layout is checked before meaning: the name does not fit its record, and the items before it do not fit the module.
pub fn short_name()
    ensures { Fails (H ++ hex (codes "96 03 00 05 41 00")) reason.Short 1 6 3 }
{}

/// A thread is in force across records until it is set again; a thread that was never set is refused.
pub fn thread_use()
    ensures set { IsTaken (threads defined_thread) }
    ensures never_set { Fails (threads undefined_thread) reason.UndefinedThread 6 56 5 }
{}

/// 32-bit records.
pub fn wide_records()
    ensures { IsTaken flat }
{}

/// Repeated blocks.
pub fn blocks()
    ensures nested { IsTaken (repeated nested_blocks) }
    ensures nothing { IsTaken (repeated blocks_of_nothing) }
    ensures fixup { Fails (repeated (nested_blocks ++ F)) reason.FixupOnIterated 4 47 3 }
    ensures too_long { Fails (repeated too_many_bytes) reason.DataTooLong 3 23 8 }
    ensures beyond_segment { Fails (repeated many_bytes) reason.OutsideSegment 3 23 4 }
    ensures outside { Fails (repeated most_bytes) reason.OutsideSegment 3 23 4 }
{}

/// A location and data may end with the last byte of the data or the segment around them, and not after it.
pub fn last_bytes()
    ensures location { IsTaken (with_fixup (hex (codes "9C 06 00 C4 02 04 01 01 92"))) }
    ensures past_data { Fails (with_fixup (hex (codes "9C 06 00 C4 03 04 01 01 91"))) reason.OutsideRecord 4 34 3 }
    ensures data { IsTaken (big (hex (codes "A0 06 00 01 FE FF AB CD E4"))) }
    ensures past_segment { Fails (big (hex (codes "A0 07 00 01 FE FF AB CD EF F4"))) reason.OutsideSegment 3 23 4 }
{}

/// A start whose frame is set by a thread; the frame method of a start is not F4.
pub fn starts()
    ensures by_thread { IsTaken (started (hex (codes "8A 06 00 C1 A0 01 02 00 0C"))) }
    ensures of_location { Fails (started (hex (codes "8A 06 00 C1 40 01 02 00 6C"))) reason.StartFrame 5 36 4 }
{}

/// An absolute segment.
pub fn absolute_segment()
    ensures { IsTaken absolute }
{}

/// The index of a thread is checked where the thread is used; the fault is at the fix data byte.
pub fn judged_at_use()
    ensures defined_since { IsTaken (thread_ahead S) }
    ensures undefined { Fails (thread_ahead []) reason.UndefinedSegment 5 40 5 }
{}

/// Comments of another dialect and of vendors, and a three-byte communal length that one byte could hold.
pub fn comments_and_communals()
    ensures dialect { Fails (comment 0xAA 0xCB) reason.OtherDialect 1 6 4 }
    ensures vendor { IsTaken (comment 0xE9 0x8C) }
    ensures vendor_refused { verdict no_vendors profile_limits (comment 0xE9 0x8C) ≡ Refused reason.VendorComment (place 1 6 4) }
    ensures communal { IsTaken communal }
{}

/// Data before their segment is defined.
pub fn segment_too_late()
    ensures { Fails (H ++ N ++ L ++ S ++ M) reason.UndefinedSegment 2 13 3 }
{}

/// A public name in a segment and no group.
pub fn a_public()
    ensures { IsTaken public }
{}

/// A fixup before any data record.
pub fn no_data()
    ensures { Fails (H ++ N ++ S ++ F) reason.NoDataRecord 3 23 3 }
{}

/// Both the index of an explicit frame and the target's thread are undefined: the thread's place is further left.
pub fn target_before_frame()
    ensures { Fails (with_fixup (hex (codes "9C 05 00 C4 01 0C 09 00"))) reason.UndefinedThread 4 34 5 }
{}

/// The 32,768th name is refused.
pub fn too_many_names()
    ensures { Fails (H ++ hex (codes "96 01 80") ++ replicate 32768 0 ++ hex (codes "00") ++ M) reason.TooMany 1 6 32770 }
{}

/// Local records: an external that a fixup refers to, a segment's name, a communal; and a public in an undefined segment.
pub fn local_records()
    ensures external { IsTaken local_jump }
    ensures name { IsTaken local_name }
    ensures communal { IsTaken local_communal }
    ensures public { Fails (H ++ N ++ S ++ hex (codes "B6 08 00 00 02 01 50 00 00 00 EF") ++ M) reason.UndefinedSegment 3 23 4 }
{}

/// An index of 0 is refused where a segment is required: for data, a group's member, a target.
pub fn index_zero_is_undefined()
    ensures data { Fails (H ++ N ++ S ++ hex (codes "A0 04 00 00 00 00 00") ++ M) reason.UndefinedSegment 3 23 3 }
    ensures member { Fails (H ++ N ++ S ++ hex (codes "9A 04 00 01 FF 00 00") ++ M) reason.UndefinedSegment 3 23 5 }
    ensures target { Fails (with_fixup (hex (codes "9C 06 00 C4 01 04 01 00 00"))) reason.UndefinedSegment 4 34 7 }
{}

/// An index of 0 means none elsewhere: for a segment's name and class, a group's name, a public's group and segment.
pub fn index_zero_is_none()
    ensures { IsTaken nameless }
{}

/// A start by a frame thread with method F4 and a target thread that was never set: both faults are at the fix data byte, so the one
/// with the smaller number is reported.
pub fn two_faults_at_one_place()
    ensures { Fails (H ++ N ++ S ++ hex (codes "9C 02 00 50 00 8A 03 00 40 8C 00")) reason.UndefinedThread 4 28 4 }
{}

/// Classes of code end in CODE, in capital letters.
pub fn classes_of_code()
    ensures code { is_code_class (codes "CODE") ≡ true }
    ensures far { is_code_class (codes "FAR_CODE") ≡ true }
    ensures data { is_code_class (codes "FAR_DATA") ≡ false }
    ensures longer { is_code_class (codes "CODES") ≡ false }
    ensures short { is_code_class (codes "ODE") ≡ false }
    ensures lower { is_code_class (codes "code") ≡ false }
{}
