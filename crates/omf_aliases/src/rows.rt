//! Worked examples, each evaluated by the check.

ghost use Rattle.std.specs.Prelude.{◌≡◌, [], ◌∷◌, codes, None, Some};
ghost use Rattle.omf_layout.specs.Own.Written.{written};
ghost use Rattle.omf_aliases.specs.Aliases.{asked_by_aliases, asking_records, default_records, defaults, end_of};
ghost use Rattle.omf_aliases.specs.AliasRows.{alias_record, asking, default_at, defining, pairing};

/// The name at the end of the aliases of w: by one alias, by two, up to the first public; of two substitutes the first; also if no public has it.
pub fn ends_of_aliases()
    ensures one { end_of ((alias_record (codes "w" ∷ codes "f" ∷ []) ∷ []) ∷ (defining (codes "f") ∷ []) ∷ []) (codes "w") ≡ Some (codes "f") }
    ensures two { end_of ((alias_record (codes "w" ∷ codes "x" ∷ codes "x" ∷ codes "f" ∷ []) ∷ []) ∷ (defining (codes "f") ∷ []) ∷ []) (codes "w") ≡ Some (codes "f") }
    ensures public { end_of ((alias_record (codes "w" ∷ codes "x" ∷ codes "x" ∷ codes "f" ∷ []) ∷ []) ∷ (defining (codes "x") ∷ []) ∷ []) (codes "w") ≡ Some (codes "x") }
    ensures first { end_of ((alias_record (codes "w" ∷ codes "f" ∷ []) ∷ []) ∷ (alias_record (codes "w" ∷ codes "g" ∷ []) ∷ []) ∷ []) (codes "w") ≡ Some (codes "f") }
{}

/// No name is at the end: a public has w, or no alias; or the aliases are in a circle. A name that is left over, or cut short, is no alias.
pub fn names_without_an_end()
    ensures public { end_of ((alias_record (codes "w" ∷ codes "f" ∷ []) ∷ defining (codes "w") ∷ []) ∷ []) (codes "w") ≡ None }
    ensures no_alias { end_of ((alias_record (codes "v" ∷ codes "f" ∷ []) ∷ []) ∷ []) (codes "w") ≡ None }
    ensures circle { end_of ((alias_record (codes "w" ∷ codes "x" ∷ codes "x" ∷ codes "w" ∷ []) ∷ []) ∷ []) (codes "w") ≡ None }
    ensures left_over { end_of ((alias_record (codes "w" ∷ []) ∷ []) ∷ []) (codes "w") ≡ None }
{}

/// Of two externals the second is an alias; a local one of that name is not followed.
pub fn defaults_of_aliases()
    ensures second { defaults ((alias_record (codes "w" ∷ codes "f" ∷ []) ∷ []) ∷ []) (asking 0x8C (codes "v") ∷ asking 0x8C (codes "w") ∷ []) ≡ default_at 2 (codes "f") ∷ [] }
    ensures local { defaults ((alias_record (codes "w" ∷ codes "f" ∷ []) ∷ []) ∷ []) (asking 0xB4 (codes "w") ∷ []) ≡ [] }
{}

/// Of two externals w and v the first has the second as its own default. An alias of w does not count then; w and v are at the end of the aliases of v. The
/// first of two pairs counts; a pair with an index that the module does not have is none.
pub fn own_defaults()
    ensures own { defaults ((alias_record (codes "w" ∷ codes "f" ∷ []) ∷ []) ∷ []) (asking 0x8C (codes "w") ∷ asking 0x8C (codes "v") ∷ pairing (1 ∷ 2 ∷ []) ∷ []) ≡ [] }
    ensures followed { defaults ((alias_record (codes "v" ∷ codes "f" ∷ []) ∷ []) ∷ []) (asking 0x8C (codes "w") ∷ asking 0x8C (codes "v") ∷ pairing (1 ∷ 2 ∷ []) ∷ []) ≡ default_at 1 (codes "f") ∷ default_at 2 (codes "f") ∷ [] }
    ensures first { defaults ((alias_record (codes "w" ∷ codes "f" ∷ []) ∷ []) ∷ []) (asking 0x8C (codes "w") ∷ asking 0x8C (codes "v") ∷ pairing (1 ∷ 2 ∷ 1 ∷ 1 ∷ []) ∷ []) ≡ [] }
    ensures no_external { defaults ((alias_record (codes "w" ∷ codes "f" ∷ []) ∷ []) ∷ []) (asking 0x8C (codes "w") ∷ pairing (1 ∷ 2 ∷ []) ∷ []) ≡ default_at 1 (codes "f") ∷ [] }
{}

/// A module asks for _edata by an alias: it is a name of the linker that is asked for, and the one EXTDEF of the module that asks for it. A name
/// for which modules ask without an alias, and another end of an alias, are none.
pub fn names_asked_by_aliases()
    ensures asked { asked_by_aliases ((asking 0x8C (codes "w") ∷ alias_record (codes "w" ∷ codes "_edata" ∷ []) ∷ []) ∷ []) ≡ codes "_edata" ∷ [] }
    ensures plain { asked_by_aliases ((asking 0x8C (codes "_end") ∷ alias_record (codes "w" ∷ codes "_edata" ∷ []) ∷ []) ∷ []) ≡ [] }
    ensures other { asked_by_aliases ((asking 0x8C (codes "w") ∷ alias_record (codes "w" ∷ codes "f" ∷ []) ∷ []) ∷ []) ≡ [] }
    ensures records { written (asking_records (codes "_end" ∷ [])) ≡ 0x80 ∷ 9 ∷ 0 ∷ 7 ∷ 0x61 ∷ 0x6C ∷ 0x69 ∷ 0x61 ∷ 0x73 ∷ 0x65 ∷ 0x73 ∷ 0x8E ∷ 0x8C ∷ 7 ∷ 0 ∷ 4 ∷ 0x5F ∷ 0x65 ∷ 0x6E ∷ 0x64 ∷ 0 ∷ 0xD3 ∷ 0x8A ∷ 2 ∷ 0 ∷ 0 ∷ 0x74 ∷ [] }
{}

/// The records of a default f for the first external of a module that has 1: an EXTDEF of f, which gets the index 2, and a COMENT of class A8H with 1 and 2.
pub fn records_of_defaults()
    ensures { written (default_records 1 (default_at 1 (codes "f") ∷ [])) ≡ 0x8C ∷ 4 ∷ 0 ∷ 1 ∷ 0x66 ∷ 0 ∷ 9 ∷ 0x88 ∷ 5 ∷ 0 ∷ 0x80 ∷ 0xA8 ∷ 1 ∷ 2 ∷ 0x48 ∷ [] }
{}
