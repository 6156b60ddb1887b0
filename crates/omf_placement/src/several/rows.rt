//! Worked examples, each evaluated by the check.

ghost use Rattle.std.specs.Prelude.{◌≡◌, [], ◌∷◌, codes};
ghost use Rattle.omf_records.specs.Values.{Comment};
ghost use Rattle.omf_placement.specs.Rows.{asking, defined, defining, given, pair, place};
ghost use Rattle.omf_placement.specs.Weak.{pairs_in, weak_given};

/// The pairs in comments: an index of one byte, or of two; one left over, or cut short; other classes have none.
pub fn pairs_of_comments()
    ensures two { pairs_in (Comment 0x80 0xA8 (1 ∷ 2 ∷ 3 ∷ 4 ∷ [])) ≡ pair 1 2 ∷ pair 3 4 ∷ [] }
    ensures wide { pairs_in (Comment 0x80 0xA8 (0x81 ∷ 0x02 ∷ 0x80 ∷ 0x05 ∷ [])) ≡ pair 258 5 ∷ [] }
    ensures lazy { pairs_in (Comment 0x80 0xA9 (1 ∷ 2 ∷ [])) ≡ pair 1 2 ∷ [] }
    ensures left_over { pairs_in (Comment 0x80 0xA8 (1 ∷ 2 ∷ 3 ∷ [])) ≡ pair 1 2 ∷ [] }
    ensures cut { pairs_in (Comment 0x80 0xA8 (1 ∷ 2 ∷ 3 ∷ 0x81 ∷ [])) ≡ pair 1 2 ∷ [] }
    ensures none { pairs_in (Comment 0x80 0xA8 []) ≡ [] }
    ensures other { pairs_in (Comment 0x80 0xA6 (1 ∷ 2 ∷ [])) ≡ [] }
{}

/// A module with the externals W, D and E, and a second one with a public. The default D is defined: W has its place. If W is defined itself,
/// or D is not, there is no entry.
pub fn entries_of_weak_externals()
    ensures default_is_defined { weak_given (asking (1 ∷ 2 ∷ []) ∷ defining (codes "D") ∷ []) [] ≡ given 0 1 defined ∷ [] }
    ensures both_are_defined { weak_given (asking (1 ∷ 2 ∷ []) ∷ defining (codes "D") ∷ defining (codes "W") ∷ []) [] ≡ [] }
    ensures none_is_defined { weak_given (asking (1 ∷ 2 ∷ []) ∷ defining (codes "E") ∷ []) [] ≡ [] }
    ensures default_is_given { weak_given (asking (1 ∷ 2 ∷ []) ∷ []) (given 0 2 (place 0x7C00 0 0) ∷ []) ≡ given 0 1 (place 0x7C00 0 0) ∷ [] }
    ensures weak_is_given { weak_given (asking (1 ∷ 2 ∷ []) ∷ defining (codes "D") ∷ []) (given 0 1 (place 0x7C00 0 0) ∷ []) ≡ [] }
    ensures default_is_twice { weak_given (asking (1 ∷ 2 ∷ []) ∷ defining (codes "D") ∷ defining (codes "D") ∷ []) [] ≡ [] }
    ensures second_default { weak_given (asking (1 ∷ 3 ∷ 1 ∷ 2 ∷ []) ∷ defining (codes "D") ∷ []) [] ≡ given 0 1 defined ∷ [] }
    ensures default_is_weak { weak_given (asking (1 ∷ 3 ∷ 3 ∷ 2 ∷ []) ∷ defining (codes "D") ∷ []) [] ≡ given 0 3 defined ∷ [] }
    ensures no_such_index { weak_given (asking (0 ∷ 2 ∷ 4 ∷ 2 ∷ 1 ∷ 0 ∷ 1 ∷ 4 ∷ []) ∷ defining (codes "D") ∷ []) [] ≡ [] }
{}
