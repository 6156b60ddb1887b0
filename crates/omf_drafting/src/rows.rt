//! Worked examples, each evaluated by the check.

ghost use Rattle.std.specs.Prelude.{◌≡◌, ◌++◌, [], ◌∷◌, codes, true, false, Some, None};
ghost use Rattle.omf_layout.specs.Several.Rows.{group, of_records, segment};
ghost use Rattle.omf_layout.specs.Rows.{lines};
ghost use Rattle.omf_layout.specs.declared.options.Frames.TheVariants.{Flat, Real};
ghost use Rattle.omf_linking.specs.declared.locator.forms.KeyForm.TheVariants.{Name, Number};
ghost use Rattle.omf_externals.specs.Names.{has_name, seen_names};
ghost use Rattle.omf_drafting.specs.Rows.{drafted_from, external_x_and_y, local_public_y, public_x};
ghost use Rattle.omf_drafting.specs.Text.{wanted_line_by};
ghost use Rattle.clap.specs.Words.{Text};
ghost use Rattle.omf_drafting.specs.Options.{options_named};
ghost use Rattle.omf_drafting.specs.Suiting.{options_for};
ghost use Rattle.omf_drafting.specs.Place.Words.{IsAsked as AsksPlace};

/// The line of an external that is to be filled in, and of a communal that is named by its number.
pub fn lines_to_be_filled_in()
    ensures external { wanted_line_by (of_records (external_x_and_y ∷ [])) Name 2 None ≡ codes "; X \"Y\" address base selector ; to be filled in" ++ 10 ∷ [] }
    ensures communal { wanted_line_by (of_records (external_x_and_y ∷ [])) Number 2 (Some 7) ≡ codes "; X #2 address base selector ; communal length 7" ++ 10 ∷ [] }
{}

/// Where an external looks for its name: a public of another module is seen by all, a local one in its own module only.
pub fn names_that_are_seen()
    ensures public { has_name (seen_names (of_records [] ∷ of_records (segment 0x28 1 2 2 ∷ public_x ∷ []) ∷ []) (of_records []) false) (codes "X") ≡ true }
    ensures local { has_name (seen_names (of_records (segment 0x28 1 2 2 ∷ local_public_y ∷ []) ∷ []) (of_records []) false) (codes "Y") ≡ false }
    ensures own { has_name (seen_names [] (of_records (segment 0x28 1 2 2 ∷ local_public_y ∷ [])) true) (codes "Y") ≡ true }
{}

/// Two modules of one name with a segment of one name: the modules are named by number; the second segment follows the first, in
/// its frame. The first has a group and two externals; the second defines X. A module alone is named by its name; two of its segments have one
/// name. A private segment is the first of its name, and no other shares its frame. Common segments share theirs, and so does a second group.
pub fn drafts_of_two_modules()
    ensures flat { drafted_from 0x401000 (Flat 8) (of_records (segment 0x28 5 2 2 ∷ group 3 1 ∷ external_x_and_y ∷ []) ∷ of_records (segment 0x28 4 2 2 ∷ public_x ∷ []) ∷ []) ≡ Some (lines (codes "M #1" ∷ codes "S \"A\" 401000 0 8 ; class \"A\" align 1 length 5" ∷ codes "G \"B\" 0 8" ∷ codes "; X \"Y\" address base selector ; to be filled in" ∷ codes "M #2" ∷ codes "S \"A\" 401005 shared ; class \"A\" align 1 length 4" ∷ [])) }
    ensures real { drafted_from 0x10008 Real (of_records (segment 0x28 20 2 2 ∷ []) ∷ of_records (segment 0x28 4 2 2 ∷ group 3 1 ∷ []) ∷ []) ≡ Some (lines (codes "M #1" ∷ codes "S \"A\" 10008 real ; class \"A\" align 1 length 20" ∷ codes "M #2" ∷ codes "S \"A\" 1001C shared ; class \"A\" align 1 length 4" ∷ codes "G \"B\" 10000 1000" ∷ [])) }
    ensures keys { drafted_from 0x401000 (Flat 8) (of_records (segment 0x28 5 2 2 ∷ segment 0x28 4 2 3 ∷ []) ∷ []) ≡ Some (lines (codes "M \"M\"" ∷ codes "S \"A\" \"A\" 401000 0 8 ; class \"A\" align 1 length 5" ∷ codes "S \"A\" \"B\" 401005 0 8 ; class \"B\" align 1 length 4" ∷ [])) }
    ensures private { drafted_from 0x10000 Real (of_records (segment 0x20 2 2 2 ∷ segment 0x28 20 2 2 ∷ segment 0x28 2 2 2 ∷ []) ∷ []) ≡ Some (lines (codes "M \"M\"" ∷ codes "S #1 10016 real ; class \"A\" align 1 length 2" ∷ codes "S #2 10000 real ; class \"A\" align 1 length 20" ∷ codes "S #3 10014 10000 1000 ; class \"A\" align 1 length 2" ∷ [])) }
    ensures common { drafted_from 0x10000 Real (of_records (segment 0x38 2 2 2 ∷ segment 0x38 3 2 2 ∷ segment 0x28 2 2 2 ∷ group 3 1 ∷ group 3 3 ∷ []) ∷ []) ≡ Some (lines (codes "M \"M\"" ∷ codes "S #1 10002 real ; class \"A\" align 1 length 2" ∷ codes "S #2 10002 shared ; class \"A\" align 1 length 3" ∷ codes "S #3 10000 shared ; class \"A\" align 1 length 2" ∷ codes "G #1 10000 1000" ∷ codes "G #2 shared" ∷ [])) }
    ensures none { drafted_from 0xFFFFD Real (of_records (segment 0x28 4 2 2 ∷ []) ∷ []) ≡ None }
{}

/// Values that give no options: too many digits, no number, a sign, a selector too high; and a flat frame in real mode.
pub fn options_not_understood()
    ensures long { options_named (Some (codes "000000001")) false None ≡ None }
    ensures no_number { options_named (Some (codes "7G00")) false None ≡ None }
    ensures signed { options_named (Some (codes "+1")) false None ≡ None }
    ensures selector { options_named None false (Some (codes "10000")) ≡ None }
    ensures both { options_named None true (Some (codes "8")) ≡ None }
{}

/// The frames of modules where none are asked for: real mode for 16-bit segments (P bit 0), flat if one segment has 32 bits; else those that are asked for.
pub fn frames_that_suit()
    ensures none { (options_for [] (record { base = 0x7C00; frames = None })).frames ≡ Real }
    ensures bits16 { (options_for (of_records (segment 0x28 5 2 2 ∷ []) ∷ []) (record { base = 0x7C00; frames = None })).frames ≡ Real }
    ensures bits32 { (options_for (of_records (segment 0x28 5 2 2 ∷ []) ∷ of_records (segment 0x28 5 2 2 ∷ segment 0x29 5 2 2 ∷ []) ∷ []) (record { base = 0x7C00; frames = None })).frames ≡ Flat 0 }
    ensures asked { (options_for (of_records (segment 0x29 5 2 2 ∷ []) ∷ []) (record { base = 0x7C00; frames = Some Real })).frames ≡ Real }
    ensures base { (options_for [] (record { base = 0x7C00; frames = Some (Flat 8) })).base ≡ 0x7C00 }
{}

/// What arguments of `omf-place` ask for: none but the program's own name, a base in real mode, a base and a selector.
pub fn place_asked()
    ensures none { (program : Text) → AsksPlace (program ∷ []) (record { base = 0x10000; frames = None }) }
    ensures real { (program : Text) → AsksPlace (program ∷ codes "--base" ∷ codes "7C00" ∷ codes "--real" ∷ []) (record { base = 0x7C00; frames = Some Real }) }
    ensures flat { (program : Text) → AsksPlace (program ∷ codes "--flat" ∷ codes "1b" ∷ codes "--base=401000" ∷ []) (record { base = 0x401000; frames = Some (Flat 0x1B) }) }
{}
