//! Worked examples of the choice, with values worked out by hand.

ghost use Rattle.std.specs.Prelude.{◌≡◌, ◌++◌, ◌∷◌, [], codes};
ghost use Rattle.omf_check.specs.Module.{recs_of};
ghost use Rattle.omf_check.specs.Rows.{F, L, M};
ghost use Rattle.omf_frame.specs.Rows.{hex};
ghost use Rattle.omf_trimming.specs.Choice.{instances, left_out};
ghost use Rattle.omf_trimming.specs.Without.{without};
ghost use Rattle.omf_trimming.specs.declared.without.LeftPublics.TheVariants.{AtStart, Gone, Nameless};
ghost use Rattle.omf_trimming.specs.Clashes.{clashes};
ghost use Rattle.omf_trimming.specs.ChoiceRows.{exact_match, in_module, left_out_after, no_match, pick_any, same_size, with_mark, with_other_data, with_other_size};
ghost use Rattle.omf_lowering.specs.Rows.{base, f_data, f_public, f_segment};

/// An instance: a SEGDEF, a PUBDEF of one name in that segment, and a mark, with at most THREADs between them. Without one of them there is none.
pub fn instances_of_modules()
    ensures one { instances (recs_of (with_mark pick_any)) ≡ record { name = codes "f"; segment = 2; selection = 1; size = 3; data_pieces = (0xA0 ∷ 0 ∷ 0xB8 ∷ 0 ∷ 0 ∷ []) ∷ [] } ∷ [] }
    ensures threads { instances (recs_of (base ++ f_segment ++ hex (codes "9C 03 00 00 01 60") ++ f_public ++ hex (codes "9C 01 00 63") ++ pick_any ++ f_data ++ M)) ≡ instances (recs_of (with_mark pick_any)) }
    ensures fixup { instances (recs_of (base ++ f_segment ++ hex (codes "9C 08 00 00 01 C4 01 04 01 01 90") ++ f_public ++ pick_any ++ f_data ++ M)) ≡ [] }
    ensures unmarked { instances (recs_of (base ++ f_segment ++ f_public ++ f_data ++ M)) ≡ [] }
    ensures unnamed { instances (recs_of (base ++ f_segment ++ pick_any ++ f_data ++ M)) ≡ [] }
    ensures local { instances (recs_of (base ++ f_segment ++ hex (codes "B7 0A 00 00 02 01 66 00 00 00 00 00 D6") ++ pick_any ++ f_data ++ M)) ≡ [] }
    ensures other_base { instances (recs_of (base ++ f_segment ++ hex (codes "91 0A 00 00 01 01 66 00 00 00 00 00 FD") ++ pick_any ++ f_data ++ M)) ≡ [] }
    ensures other_class { instances (recs_of (base ++ f_segment ++ f_public ++ hex (codes "88 0A 00 80 DD 43 4F 4D 44 41 54 01 58") ++ f_data ++ M)) ≡ [] }
{}

/// The first of a name stays, and a second one is left out if both selections allow it.
pub fn left_out_instances()
    ensures first { left_out [] (in_module (with_mark pick_any)) ≡ [] }
    ensures any { left_out_after (with_mark pick_any) (with_other_size pick_any) ≡ 2 ∷ [] }
    ensures none { left_out_after (with_mark no_match) (with_mark no_match) ≡ [] }
    ensures one_refuses { left_out_after (with_mark pick_any) (with_mark no_match) ≡ [] }
    ensures sizes { left_out_after (with_mark same_size) (with_other_data same_size) ≡ 2 ∷ [] }
    ensures other_sizes { left_out_after (with_mark same_size) (with_other_size same_size) ≡ [] }
    ensures exact { left_out_after (with_mark exact_match) (with_mark exact_match) ≡ 2 ∷ [] }
    ensures other_data { left_out_after (with_mark exact_match) (with_other_data exact_match) ≡ [] }
    ensures other_size { left_out_after (with_mark pick_any) (with_other_size exact_match) ≡ [] }
{}

/// A second instance that is not left out: the selection of the first does not allow it, or else its own.
pub fn clashes_of_modules()
    ensures first { clashes (in_module (with_mark exact_match) ∷ in_module (with_other_data pick_any) ∷ []) ≡ record { number = 1; name = codes "f"; selection = 3 } ∷ [] }
    ensures own { clashes (in_module (with_mark pick_any) ∷ in_module (with_mark no_match) ∷ []) ≡ record { number = 1; name = codes "f"; selection = 0 } ∷ [] }
    ensures both { clashes (in_module (with_mark same_size) ∷ in_module (with_other_size exact_match) ∷ []) ≡ record { number = 1; name = codes "f"; selection = 2 } ∷ [] }
    ensures none { clashes (in_module (with_mark pick_any) ∷ in_module (with_other_size pick_any) ∷ []) ≡ [] }
{}

/// What is left of a module: the SEGDEF with the length 0 and byte alignment, with its names or without, the mark, and the THREADs of the data; the rest is as it was.
pub fn modules_without()
    ensures left { without Gone (2 ∷ []) (with_mark pick_any)
        ≡ base ++ hex (codes "99 09 00 28 00 00 00 00 02 01 01 32") ++ pick_any ++ hex (codes "9C 03 00 00 01 60") ++ L ++ F ++ M }
    ensures nameless { without Nameless (2 ∷ []) (with_mark pick_any)
        ≡ base ++ hex (codes "99 09 00 20 00 00 00 00 00 00 00 3E") ++ pick_any ++ hex (codes "9C 03 00 00 01 60") ++ L ++ F ++ M }
    ensures started { without AtStart (2 ∷ []) (with_mark pick_any)
        ≡ base ++ hex (codes "99 09 00 28 00 00 00 00 02 01 01 32") ++ f_public ++ pick_any ++ hex (codes "9C 03 00 00 01 60") ++ L ++ F ++ M }
    ensures nothing { without Gone [] (with_mark pick_any) ≡ with_mark pick_any }
{}
