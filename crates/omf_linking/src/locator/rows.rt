//! Worked examples, each evaluated by the check.

ghost use Rattle.std.specs.Prelude.{◌≡◌, [], ◌∷◌, codes, Some, None, Ok, Err};
ghost use Rattle.omf_reloc.specs.Rows.{at, frame};
ghost use Rattle.omf_reloc.specs.declared.fault.Kind.TheVariants as kinds;
ghost use Rattle.omf_linking.specs.Locator.Keys.{entry_named, module_named};
ghost use Rattle.omf_linking.specs.Locator.LinkEntries.{link_entry_on, Named, OfClass, Numbered, SegmentPlace, StoredPlace, GroupFrame, ExternalPlace, Own, SharedPlace, SharedStored, SharedFrame, Blank, Opens, Gives, Frames, ClassParts, NameParts, NamedParts};
ghost use Rattle.omf_linking.specs.declared.locator.span.Where.TheVariants.{From, After};
ghost use Rattle.omf_linking.specs.Locator.Rows.{given_parts, given_segments, given_stored, laid, lines, named_only, three_parts, three_segments, unstored};
ghost use Rattle.omf_linking.specs.Locator.Sparse.{sparse};
ghost use Rattle.omf_linking.specs.declared.locator.fault.LineFault.TheVariants as why;
ghost use Rattle.omf_linking.specs.declared.locator.fault.LocatorFault.TheVariants.{Line};

/// Entries of lines. A `;` in a name belongs to it, and quotes may be in a comment. An index has `#`, one space comes between words, and a
/// class is only understood after a name.
pub fn lines_of_a_link()
    ensures module_by_name { link_entry_on (codes "M \"a;b\" ; \"c\"") ≡ Some (Opens (Named (codes "a;b"))) }
    ensures module_by_number { link_entry_on (codes "M #2") ≡ Some (Opens (Numbered 2)) }
    ensures segment { link_entry_on (codes "  S \"_TEXT\" 7C00 0 0 ; \"x\"\r") ≡ Some (Gives (Named (codes "_TEXT")) (Own (SegmentPlace (at 0x7C00 0 0)))) }
    ensures class { link_entry_on (codes "S \"A B\" \"CODE\" 7C00 real") ≡ Some (Gives (OfClass (codes "A B") (codes "CODE")) (Own (SegmentPlace (at 0x7C00 0x7C00 0x7C0)))) }
    ensures group { link_entry_on (codes "G \"DGROUP\" 7C40 7C4") ≡ Some (Gives (Named (codes "DGROUP")) (Own (GroupFrame (Some (frame 0x7C40 0x7C4))))) }
    ensures lowest { link_entry_on (codes "G #1 real") ≡ Some (Gives (Numbered 1) (Own (GroupFrame None))) }
    ensures external { link_entry_on (codes "X #12 46C 400 40") ≡ Some (Gives (Numbered 12) (Own (ExternalPlace (at 0x46C 0x400 0x40)))) }
    ensures shared { link_entry_on (codes "S \"_TEXT\" 7C10 shared ; x") ≡ Some (Gives (Named (codes "_TEXT")) (SharedPlace 0x7C10)) }
    ensures shared_group { link_entry_on (codes "G #1 shared") ≡ Some (Gives (Numbered 1) SharedFrame) }
    ensures stored { link_entry_on (codes "S \"_DATA\" 500 50 5 at FF000") ≡ Some (Gives (Named (codes "_DATA")) (Own (StoredPlace (at 0x500 0x50 5) 0xFF000))) }
    ensures stored_real { link_entry_on (codes "S #2 505 real at 0FF00H ; x") ≡ Some (Gives (Numbered 2) (Own (StoredPlace (at 0x505 0x500 0x50) 0xFF00))) }
    ensures stored_shared { link_entry_on (codes "S #2 600 shared at FF100") ≡ Some (Gives (Numbered 2) (SharedStored 0x600 0xFF100)) }
    ensures nothing { link_entry_on (codes "; S \"a\"") ≡ Some Blank }
{}

/// Entries of lines for all modules: segments of a class, of a name, or of both, from an address on or after others, and where they are stored; and groups.
pub fn lines_for_all_modules()
    ensures class { link_entry_on (codes "C \"CODE\" 0F0000H F0000 F000 ; x") ≡ laid (ClassParts (codes "CODE")) (From 0xF0000) (Some (frame 0xF0000 0xF000)) None }
    ensures no_class { link_entry_on (codes "C \"\" after real") ≡ laid (ClassParts []) After None None }
    ensures name { link_entry_on (codes "P \"reset\" FFFF0 real at 1FFF0") ≡ laid (NameParts (codes "reset")) (From 0xFFFF0) None (Some (From 0x1FFF0)) }
    ensures both { link_entry_on (codes "P \"A\" \"B\" after 500 50 at after") ≡ laid (NamedParts (codes "A") (codes "B")) After (Some (frame 0x500 0x50)) (Some After) }
    ensures frame { link_entry_on (codes "F \"DGROUP\" 500 50") ≡ Some (Frames (codes "DGROUP") (frame 0x500 0x50)) }
{}

/// Lines for all modules that are no entry: a number as a key, a class with a name before it, words that are missing,
/// too many or in another order, and a frame of lowest members.
pub fn lines_for_none()
    ensures class_number { link_entry_on (codes "C #1 500 50 5") ≡ None }
    ensures name_number { link_entry_on (codes "P #1 500 real") ≡ None }
    ensures frame_number { link_entry_on (codes "F #1 500 50") ≡ None }
    ensures class_of_name { link_entry_on (codes "C \"A\" \"B\" 500 50 5") ≡ None }
    ensures no_frame { link_entry_on (codes "C \"A\" 500") ≡ None }
    ensures no_selector { link_entry_on (codes "C \"A\" 500 50") ≡ None }
    ensures shared { link_entry_on (codes "C \"A\" 500 shared") ≡ None }
    ensures nowhere { link_entry_on (codes "C \"A\" 500 50 5 at") ≡ None }
    ensures stored_more { link_entry_on (codes "C \"A\" after real at after 0") ≡ None }
    ensures before { link_entry_on (codes "C \"A\" before real") ≡ None }
    ensures lowest { link_entry_on (codes "F \"G\" real") ≡ None }
    ensures after { link_entry_on (codes "F \"G\" after 50") ≡ None }
{}

/// Lines that are no entry: an open name, a number with other characters, a hexadecimal, a large or a long number, a word too many or too few, a placement
/// text's line, an external that shares a frame, and a name with a control character.
pub fn lines_that_are_none()
    ensures open { link_entry_on (codes "M \"a") ≡ None }
    ensures joined { link_entry_on (codes "S #37C00 real") ≡ None }
    ensures hexadecimal { link_entry_on (codes "M #A") ≡ None }
    ensures large { link_entry_on (codes "M #4294967296") ≡ None }
    ensures long { link_entry_on (codes "M #00000000001") ≡ None }
    ensures more { link_entry_on (codes "M #1 0") ≡ None }
    ensures less { link_entry_on (codes "S \"a\" 7C00") ≡ None }
    ensures between { link_entry_on (codes "S \"a\" 7C00 \"b\" real") ≡ None }
    ensures by_order { link_entry_on (codes "S 7C00 0 0") ≡ None }
    ensures shared_external { link_entry_on (codes "X #1 46C shared") ≡ None }
    ensures shared_more { link_entry_on (codes "S #1 7C00 shared 0") ≡ None }
    ensures stored_nowhere { link_entry_on (codes "S #1 500 real at") ≡ None }
    ensures stored_to { link_entry_on (codes "S #1 500 real to 600") ≡ None }
    ensures stored_more { link_entry_on (codes "S #1 500 50 5 at 600 0") ≡ None }
    ensures stored_group { link_entry_on (codes "G #1 real at 600") ≡ None }
    ensures stored_external { link_entry_on (codes "X #1 500 real at 600") ≡ None }
    ensures control { link_entry_on (codes "M \"a\tb\"") ≡ None }
{}

/// Keys: the names of entries, as the programs print them; two entries of one name differ by class or number; a name that is not there.
pub fn entries_that_keys_name()
    ensures only { entry_named three_segments kinds.Segment (Named (codes "B")) ≡ Ok 2 }
    ensures several { entry_named three_segments kinds.Segment (Named (codes "A")) ≡ Err why.Several }
    ensures class { entry_named three_segments kinds.Segment (OfClass (codes "A") (codes "B")) ≡ Ok 3 }
    ensures number { entry_named three_segments kinds.Segment (Numbered 3) ≡ Ok 3 }
    ensures beyond { entry_named three_segments kinds.Segment (Numbered 4) ≡ Err why.Unknown }
    ensures unknown { entry_named three_segments kinds.Segment (Named (codes "C")) ≡ Err why.Unknown }
    ensures other_kind { entry_named three_segments kinds.Group (Named (codes "B")) ≡ Err why.Unknown }
    ensures escaped { module_named (named_only (0x22 ∷ []) ∷ named_only (codes "a") ∷ []) (Named (codes "\\x22")) ≡ Ok 0 }
    ensures modules { module_named (named_only (codes "a") ∷ named_only (codes "b") ∷ []) (Named (codes "b")) ≡ Ok 1 }
    ensures counted { module_named (named_only (codes "a") ∷ named_only (codes "a") ∷ []) (Numbered 2) ≡ Ok 1 }
    ensures same { module_named (named_only (codes "a") ∷ named_only (codes "a") ∷ []) (Named (codes "a")) ≡ Err why.Several }
{}

/// What texts give: the modules and the segments in another order than the text. A line before the first `M`, one for an entry that has one, and a
/// module that comes again are at fault; a line that is no entry comes before these. A frame that is shared is that of the first line for the name and class.
pub fn what_texts_give()
    ensures order { sparse (named_only (codes "a") ∷ three_segments ∷ []) (lines (codes "M \"m\"" ∷ codes "S #3 30 0 0" ∷ codes "S \"B\" 20 0 0" ∷ codes "M \"a\"" ∷ [])) ≡ Ok (given_segments [] ∷ given_segments (None ∷ Some (at 0x20 0 0) ∷ Some (at 0x30 0 0) ∷ []) ∷ []) }
    ensures before { sparse (three_segments ∷ []) (lines (codes "" ∷ codes "S #1 0 0 0" ∷ codes "M #1" ∷ [])) ≡ Err (Line 2 why.NoModule) }
    ensures again { sparse (three_segments ∷ []) (lines (codes "M #1" ∷ codes "S #2 0 0 0" ∷ codes "S \"B\" 0 0 0" ∷ [])) ≡ Err (Line 3 why.Twice) }
    ensures opened { sparse (three_segments ∷ []) (lines (codes "M #1" ∷ codes "M \"m\"" ∷ [])) ≡ Err (Line 2 why.Twice) }
    ensures unshared { sparse (three_segments ∷ []) (lines (codes "M #1" ∷ codes "S #1 10 20 2" ∷ codes "S #3 30 shared" ∷ [])) ≡ Err (Line 3 why.Unshared) }
    ensures shared { sparse (three_segments ∷ three_segments ∷ []) (lines (codes "M #2" ∷ codes "S #1 10 20 2" ∷ codes "S #3 30 10 1" ∷ codes "M #1" ∷ codes "S #3 50 shared" ∷ codes "S #1 40 shared" ∷ [])) ≡ Ok (given_segments (Some (at 0x40 0x20 2) ∷ None ∷ Some (at 0x50 0x10 1) ∷ []) ∷ given_segments (Some (at 0x10 0x20 2) ∷ None ∷ Some (at 0x30 0x10 1) ∷ []) ∷ []) }
    ensures stored { sparse (three_segments ∷ []) (lines (codes "M #1" ∷ codes "S #1 10 20 2 at 8000" ∷ codes "S #2 30 20 2" ∷ codes "S #3 40 20 2 at 9000" ∷ [])) ≡ Ok (given_stored (Some (at 0x10 0x20 2) ∷ Some (at 0x30 0x20 2) ∷ Some (at 0x40 0x20 2) ∷ []) (Some 0x8000 ∷ None ∷ Some 0x9000 ∷ []) ∷ []) }
    ensures stored_shared { sparse (three_segments ∷ three_segments ∷ []) (lines (codes "M #1" ∷ codes "S #1 10 20 2 at 8000" ∷ codes "M #2" ∷ codes "S #1 40 shared at 9000" ∷ codes "S #3 50 30 3" ∷ [])) ≡ Ok (given_stored (Some (at 0x10 0x20 2) ∷ None ∷ None ∷ []) (Some 0x8000 ∷ None ∷ None ∷ []) ∷ given_stored (Some (at 0x40 0x20 2) ∷ None ∷ Some (at 0x50 0x30 3) ∷ []) (Some 0x9000 ∷ None ∷ None ∷ []) ∷ []) }
    ensures stored_again { sparse (three_segments ∷ []) (lines (codes "M #1" ∷ codes "S #2 10 20 2 at 8000" ∷ codes "S #2 10 20 2" ∷ [])) ≡ Err (Line 3 why.Twice) }
    ensures again_stored { sparse (three_segments ∷ []) (lines (codes "M #1" ∷ codes "S #2 10 20 2" ∷ codes "S #2 10 20 2 at 8000" ∷ [])) ≡ Err (Line 3 why.Twice) }
    ensures no_entry { sparse (three_segments ∷ []) (lines (codes "M #2" ∷ codes "q" ∷ [])) ≡ Err (Line 2 why.NotUnderstood) }
{}

/// Places that lines for all modules give. Those of class C, from 101H on: both of A at words, then both of B at paragraphs; after them, from 123H on, those of class
/// B. With real-mode frames those of name A: two of class C in one frame, and two of class B in the next. Where they are stored, segments keep their distances from the
/// line's address. A segment that has a place gets no other.
pub fn what_lines_for_all_modules_give()
    ensures class { sparse (three_parts ∷ three_parts ∷ []) (lines (codes "C \"C\" 101 10 1" ∷ codes "C \"B\" after 20 2" ∷ [])) ≡ Ok (given_parts (Some (at 0x102 0x10 1) ∷ Some (at 0x110 0x10 1) ∷ Some (at 0x123 0x20 2) ∷ []) unstored None ∷ given_parts (Some (at 0x108 0x10 1) ∷ Some (at 0x120 0x10 1) ∷ Some (at 0x127 0x20 2) ∷ []) unstored None ∷ []) }
    ensures real { sparse (three_parts ∷ three_parts ∷ []) (lines (codes "P \"A\" 12345 real" ∷ [])) ≡ Ok (given_parts (Some (at 0x12346 0x12340 0x1234) ∷ None ∷ Some (at 0x12351 0x12350 0x1235) ∷ []) unstored None ∷ given_parts (Some (at 0x1234C 0x12340 0x1234) ∷ None ∷ Some (at 0x12355 0x12350 0x1235) ∷ []) unstored None ∷ []) }
    ensures both { sparse (three_parts ∷ []) (lines (codes "P \"A\" \"B\" 200 0 0" ∷ [])) ≡ Ok (given_parts (None ∷ None ∷ Some (at 0x200 0 0) ∷ []) unstored None ∷ []) }
    ensures stored { sparse (three_parts ∷ three_parts ∷ []) (lines (codes "P \"B\" 501 50 5 at 8000" ∷ codes "C \"B\" after 50 5 at after" ∷ [])) ≡ Ok (given_parts (None ∷ Some (at 0x510 0x50 5) ∷ Some (at 0x523 0x50 5) ∷ []) (None ∷ Some 0x800F ∷ Some 0x8022 ∷ []) None ∷ given_parts (None ∷ Some (at 0x520 0x50 5) ∷ Some (at 0x527 0x50 5) ∷ []) (None ∷ Some 0x801F ∷ Some 0x8026 ∷ []) None ∷ []) }
    ensures stored_after_run { sparse (three_parts ∷ []) (lines (codes "P \"B\" 501 50 5" ∷ codes "C \"B\" 900 50 5 at after" ∷ [])) ≡ Ok (given_parts (None ∷ Some (at 0x510 0x50 5) ∷ Some (at 0x900 0x50 5) ∷ []) (None ∷ None ∷ Some 0x513 ∷ []) None ∷ []) }
    ensures placed { sparse (three_parts ∷ three_parts ∷ []) (lines (codes "M #1" ∷ codes "S #2 2000 10 1" ∷ codes "C \"C\" 101 10 1" ∷ codes "S #3 30 10 1" ∷ [])) ≡ Ok (given_parts (Some (at 0x102 0x10 1) ∷ Some (at 0x2000 0x10 1) ∷ Some (at 0x30 0x10 1) ∷ []) unstored None ∷ given_parts (Some (at 0x108 0x10 1) ∷ Some (at 0x110 0x10 1) ∷ None ∷ []) unstored None ∷ []) }
    ensures shared { sparse (three_parts ∷ []) (lines (codes "P \"A\" \"B\" 200 20 2" ∷ codes "M #1" ∷ codes "S #1 300 20 2" ∷ codes "S #2 310 shared" ∷ [])) ≡ Err (Line 4 why.Unshared) }
    ensures frames { sparse (three_parts ∷ three_parts ∷ []) (lines (codes "M #2" ∷ codes "G \"B\" 70 7" ∷ codes "F \"B\" 500 50" ∷ [])) ≡ Ok (given_parts (None ∷ None ∷ None ∷ []) unstored (Some (Some (frame 0x500 0x50))) ∷ given_parts (None ∷ None ∷ None ∷ []) unstored (Some (Some (frame 0x70 7))) ∷ []) }
{}

/// Such lines at fault: no module has the class, the name or the group; nothing is before; segments do not fit where they run, with real-mode frames, or where they
/// are stored; and a line for a segment or a group that has its place or its frame.
pub fn lines_for_all_modules_at_fault()
    ensures class { sparse (three_parts ∷ []) (codes "C \"A\" 0 0 0") ≡ Err (Line 1 why.Unknown) }
    ensures name { sparse (three_parts ∷ []) (codes "P \"B\" \"B\" 0 0 0") ≡ Err (Line 1 why.Unknown) }
    ensures group { sparse (three_parts ∷ []) (codes "F \"A\" 0 0") ≡ Err (Line 1 why.Unknown) }
    ensures after { sparse (three_parts ∷ []) (codes "C \"C\" after 0 0") ≡ Err (Line 1 why.NothingBefore) }
    ensures at_after { sparse (three_parts ∷ []) (lines (codes "M #1" ∷ codes "S #3 0 0 0" ∷ codes "C \"C\" 0 0 0 at after" ∷ [])) ≡ Err (Line 3 why.NothingBefore) }
    ensures run { sparse (three_parts ∷ []) (codes "P \"A\" \"B\" FFFFFFFD 0 0") ≡ Err (Line 1 why.NoRoom) }
    ensures run_last { sparse (three_parts ∷ []) (lines (codes "P \"A\" \"B\" FFFFFFFC 0 0" ∷ codes "P \"A\" after 0 0" ∷ [])) ≡ Err (Line 2 why.NoRoom) }
    ensures real { sparse (three_parts ∷ []) (codes "P \"A\" \"B\" FFFFD real") ≡ Err (Line 1 why.NoRoom) }
    ensures stored { sparse (three_parts ∷ []) (codes "P \"B\" 501 50 5 at FFFFFFEF") ≡ Err (Line 1 why.NoRoom) }
    ensures twice { sparse (three_parts ∷ []) (lines (codes "C \"B\" 0 0 0" ∷ codes "M #1" ∷ codes "S #3 0 0 0" ∷ [])) ≡ Err (Line 3 why.Twice) }
    ensures framed { sparse (three_parts ∷ []) (lines (codes "F \"B\" 0 0" ∷ codes "M #1" ∷ codes "G #1 0 0" ∷ [])) ≡ Err (Line 3 why.Twice) }
{}
