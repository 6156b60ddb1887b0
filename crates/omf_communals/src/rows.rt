//! Worked examples, with values worked out by hand from the standard.

ghost use Rattle.std.specs.Prelude.{◌≡◌, ◌++◌, ◌∷◌, [], None, Some, codes, true};
ghost use Rattle.omf_check.specs.Module.{recs_of};
ghost use Rattle.omf_check.specs.Rows.{H, M};
ghost use Rattle.omf_check.specs.Tables.{externals, locals};
ghost use Rattle.omf_communals.specs.Communals.{bytes_with, size_of, variable_of};
ghost use Rattle.omf_communals.specs.Rows.{far_v, five, local, six, v_and_f, word};
ghost use Rattle.omf_communals.specs.declared.variable.Variable.TheVariants.{Far, Near, Other};
ghost use Rattle.omf_frame.specs.Rows.{hex};
ghost use Rattle.omf_records.specs.Values.{Far as FarSize, Near as NearSize};

/// TYPDEFs: of near and far variables, and of another form.
pub fn variables_of_typdefs()
    ensures scalar { variable_of (hex (codes "00 00 62 7B 10")) ≡ Near 16 }
    ensures named { variable_of (hex (codes "01 41 00 62 79 20")) ≡ Near 32 }
    ensures long { variable_of (hex (codes "00 00 62 77 81 90 01")) ≡ Near 400 }
    ensures far { variable_of (hex (codes "00 00 61 77 84 40 42 0F 81 05")) ≡ Far 1000000 261 }
    ensures far_scalar { variable_of (hex (codes "00 00 61 7B 05 01")) ≡ Other }
    ensures other_kind { variable_of (hex (codes "00 00 62 7C 10")) ≡ Other }
    ensures other_leaf { variable_of (hex (codes "00 00 63 7B 10")) ≡ Other }
    ensures nice { variable_of (hex (codes "00 01 62 7B 10")) ≡ Other }
    ensures two_leaves { variable_of (hex (codes "00 00 62 7B 10 62 7B 10")) ≡ Other }
    ensures cut { variable_of (hex (codes "00 00 62 7B")) ≡ Other }
{}

/// Sizes in bytes: bits are rounded up; the elements of a far variable are near ones; types count from 1.
pub fn sizes_of_types()
    ensures near { size_of six 1 ≡ Some (NearSize 2) }
    ensures one_bit { size_of six 2 ≡ Some (NearSize 1) }
    ensures empty { size_of six 3 ≡ Some (NearSize 0) }
    ensures far { size_of six 4 ≡ Some (FarSize 5 2) }
    ensures far_of_far { size_of six 5 ≡ None }
    ensures other { size_of six 6 ≡ None }
    ensures none { size_of six 0 ≡ None }
    ensures past { size_of six 7 ≡ None }
{}

/// An EXTDEF with a communal: a COMDEF and an EXTDEF in its place. Without a TYPDEF before it, it stays. So with a LEXTDEF, of either type.
pub fn modules_with_communals()
    ensures near { bytes_with (H ++ word ++ v_and_f ++ M) ≡ H ++ word ++ hex (codes "B0 07 00 02 5F 76 01 62 02 0D") ++ hex (codes "8C 05 00 02 5F 66 00 A8") ++ M }
    ensures far { bytes_with (H ++ word ++ five ++ far_v ++ M) ≡ H ++ word ++ five ++ hex (codes "B0 08 00 02 5F 76 02 61 05 02 07") ++ M }
    ensures after { bytes_with (H ++ v_and_f ++ word ++ M) ≡ H ++ v_and_f ++ word ++ M }
    ensures past { bytes_with (H ++ word ++ far_v ++ M) ≡ H ++ word ++ far_v ++ M }
    ensures names { externals (recs_of (bytes_with (H ++ word ++ v_and_f ++ M))) ≡ codes "_v" ∷ codes "_f" ∷ [] }
    ensures local { bytes_with (H ++ word ++ local ++ M)
        ≡ H ++ word ++ hex (codes "B8 07 00 02 5F 76 01 62 02 05") ++ hex (codes "B4 05 00 02 5F 66 00 80") ++ M }
    ensures locals { locals (recs_of (bytes_with (H ++ word ++ local ++ M))) ≡ true ∷ true ∷ [] }
    ensures odd { bytes_with (H ++ word ++ hex (codes "B5 09 00 02 5F 76 01 02 5F 66 00 A3") ++ M)
        ≡ H ++ word ++ hex (codes "B8 07 00 02 5F 76 01 62 02 05") ++ hex (codes "B5 05 00 02 5F 66 00 7F") ++ M }
{}
