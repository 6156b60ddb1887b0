//! Worked examples, each evaluated by the check.

ghost use Rattle.std.specs.Prelude.{◌≡◌, [], ◌∷◌, codes, true, false};
ghost use Rattle.omf_library.specs.Hash.{probe_of};
ghost use Rattle.omf_library.specs.Library.{header_of, is_page_size, next_page};

/// Where names are looked for first: one of seven characters in 7 blocks and in 13; and one of five capital letters
/// in 2, where a step of 0 becomes 1. Capital and small letters have the same hash.
pub fn probes_of_names()
    ensures seven { probe_of 7 (codes "_printf") ≡ record { block = 6; block_step = 5; bucket = 22; bucket_step = 6 } }
    ensures thirteen { probe_of 13 (codes "_printf") ≡ record { block = 1; block_step = 12; bucket = 22; bucket_step = 6 } }
    ensures two { probe_of 2 (codes "START") ≡ record { block = 0; block_step = 1; bucket = 33; bucket_step = 1 } }
    ensures small { probe_of 2 (codes "start") ≡ probe_of 2 (codes "START") }
    ensures one { probe_of 3 (codes "a") ≡ record { block = 0; block_step = 1; bucket = 23; bucket_step = 33 } }
{}

/// A header with pages of 16 bytes, a dictionary of one block at 400H, and the flag of case.
pub fn header_of_a_library()
    ensures { header_of (0xF0 ∷ 0x0D ∷ 0 ∷ 0 ∷ 4 ∷ 0 ∷ 0 ∷ 1 ∷ 0 ∷ 1 ∷ []) ≡ record { page = 16; dictionary = 0x400; blocks = 1; flags = 1 } }
{}

/// Page sizes, and the first page at or after an offset.
pub fn pages()
    ensures least { is_page_size 16 ≡ true }
    ensures largest { is_page_size 32768 ≡ true }
    ensures below { is_page_size 8 ≡ false }
    ensures beyond { is_page_size 65536 ≡ false }
    ensures between { is_page_size 48 ≡ false }
    ensures at { next_page 16 32 ≡ 32 }
    ensures after { next_page 16 33 ≡ 48 }
{}
