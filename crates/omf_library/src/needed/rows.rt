//! Worked examples, each evaluated by the check.

ghost use Rattle.std.specs.Prelude.{◌≡◌, [], ◌∷◌, codes};
ghost use Rattle.omf_library.specs.Needed.{linkage_of, needed_names};
ghost use Rattle.omf_library.specs.Rows.{alias_record, asking, comment, externs};

/// What a module with the externals A, B, C (local), D (communal) and E (local, communal) needs, by its comments. A weak external is not needed;
/// its default is. Indices count local externals too.
pub fn weak_externals_are_not_needed()
    ensures none { needed_names (asking []) ≡ codes "A" ∷ codes "B" ∷ codes "D" ∷ [] }
    ensures first { needed_names (asking (comment 0xA8 (1 ∷ 2 ∷ []) ∷ [])) ≡ codes "B" ∷ codes "D" ∷ [] }
    ensures communal { needed_names (asking (comment 0xA8 (4 ∷ 1 ∷ []) ∷ [])) ≡ codes "A" ∷ codes "B" ∷ [] }
    ensures two_pairs { needed_names (asking (comment 0xA8 (1 ∷ 4 ∷ 2 ∷ 4 ∷ []) ∷ [])) ≡ codes "D" ∷ [] }
    ensures two_comments { needed_names (asking (comment 0xA8 (1 ∷ 4 ∷ []) ∷ comment 0xA8 (2 ∷ 4 ∷ []) ∷ [])) ≡ codes "D" ∷ [] }
    ensures weak_default { needed_names (asking (comment 0xA8 (1 ∷ 2 ∷ 2 ∷ 4 ∷ []) ∷ [])) ≡ codes "D" ∷ [] }
    ensures wide { needed_names (asking (comment 0xA8 (0x80 ∷ 1 ∷ 0x80 ∷ 2 ∷ []) ∷ [])) ≡ codes "B" ∷ codes "D" ∷ [] }
{}

/// What is no weak external: a lazy one (class A9H), an index that the module does not have, and an index without a default, or with one that
/// is cut short.
pub fn others_are_needed()
    ensures lazy { needed_names (asking (comment 0xA9 (1 ∷ 2 ∷ []) ∷ [])) ≡ needed_names (asking []) }
    ensures no_such_index { needed_names (asking (comment 0xA8 (0 ∷ 1 ∷ 6 ∷ 2 ∷ []) ∷ [])) ≡ needed_names (asking []) }
    ensures no_default { needed_names (asking (comment 0xA8 (1 ∷ []) ∷ [])) ≡ needed_names (asking []) }
    ensures cut { needed_names (asking (comment 0xA8 (1 ∷ 0x81 ∷ []) ∷ [])) ≡ needed_names (asking []) }
{}

/// A name that two externals have is needed for the one that is not weak. A comment may come before the externals.
pub fn names_of_two_externals()
    ensures one { needed_names (externs 0x8C (codes "A" ∷ codes "A" ∷ []) ∷ comment 0xA8 (1 ∷ 2 ∷ []) ∷ []) ≡ codes "A" ∷ [] }
    ensures both { needed_names (externs 0x8C (codes "A" ∷ codes "A" ∷ []) ∷ comment 0xA8 (1 ∷ 2 ∷ 2 ∷ 1 ∷ []) ∷ []) ≡ [] }
    ensures before { needed_names (comment 0xA8 (1 ∷ 2 ∷ []) ∷ externs 0x8C (codes "A" ∷ codes "B" ∷ []) ∷ []) ≡ codes "B" ∷ [] }
{}

/// An ALIAS with a and _a defines a, and needs _a; two pairs; a name that is left over; a name that is cut short (TIS OMF 1.1, "ALIAS").
pub fn aliases_are_defined()
    ensures alias { (linkage_of (alias_record (1 ∷ 0x61 ∷ 2 ∷ 0x5F ∷ 0x61 ∷ []) ∷ [])).publics ≡ codes "a" ∷ [] }
    ensures substitute { (linkage_of (alias_record (1 ∷ 0x61 ∷ 2 ∷ 0x5F ∷ 0x61 ∷ []) ∷ [])).externals ≡ codes "_a" ∷ [] }
    ensures two { (linkage_of (alias_record (1 ∷ 0x61 ∷ 1 ∷ 0x62 ∷ 1 ∷ 0x63 ∷ 1 ∷ 0x64 ∷ []) ∷ [])).publics ≡ codes "a" ∷ codes "c" ∷ [] }
    ensures left_over { (linkage_of (alias_record (1 ∷ 0x61 ∷ 1 ∷ 0x62 ∷ 1 ∷ 0x63 ∷ []) ∷ [])).publics ≡ codes "a" ∷ [] }
    ensures cut { (linkage_of (alias_record (1 ∷ 0x61 ∷ 2 ∷ 0x62 ∷ []) ∷ [])).publics ≡ [] }
{}
