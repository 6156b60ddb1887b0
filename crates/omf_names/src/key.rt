//! The key that a name has in a table.

ghost use Rattle.std.specs.Prelude.{◌≡◌, Some, refl, nat_eq};
ghost use Rattle.std.specs.Cmp.Lexicographic.{nat_list_eq_equiv, pointwise};
ghost use Rattle.std.specs.Cmp.{on_equiv, on_per, on_po, on_total, partial_equiv_from_equiv};
ghost use Rattle.omf_names.specs.Names.{name_cmp, name_number};
ghost use Rattle.omf_names.specs.NameLaws.{name_order_laws, name_total, names_tied};

use std::cmp::Ordering;
use std::marker::Model;

/// The number of a name: names with the same bytes have the same.
fn name_number(name: &[u8]) -> u64
    ensures { result ≡ name_number name.now }
{
    let mut number: u64 = 0;
    for byte in name {
        number = number
            .wrapping_add(u64::from(*byte))
            .wrapping_mul(1_099_511_628_211);
    }
    number
}

/// A name as a key.
#[derive(Drop)]
pub struct NameKey<'a> {
    number: u64,
    name: &'a [u8],
}

impl<'a> Model for NameKey<'a> {
    ghost use denote.Ref.{Bor};
    ghost use Rattle.std.specs.Prelude.{◌≡◌, List, ℕ};
    ghost use Rattle.omf_names.specs.Names.{name_number};

    ghost Value = { Bor (List ℕ) };

    ghost view = { λ a. a.name };

    ghost invariant = { λ a. a.number ≡ name_number a.name.now };
}

impl<'a> NameKey<'a> {
    /// The key of a name.
    pub fn of(name: &'a [u8]) -> NameKey<'a>
        ensures { result ≡ name.entry }
    {
        NameKey {
            number: name_number(name),
            name,
        }
    }
}

impl<'a> PartialEq for NameKey<'a> {
    ghost eq = { λ x y. pointwise nat_eq x.now y.now };

    ghost laws = { on_per (λ s. s.now) (partial_equiv_from_equiv nat_list_eq_equiv) };

    fn eq(&self, other: &Self) -> bool {
        self.name == other.name
    }
}

impl<'a> Eq for NameKey<'a> {
    ghost laws = { on_equiv (λ s. s.now) nat_list_eq_equiv };
}

impl<'a> PartialOrd for NameKey<'a> {
    ghost partial_cmp = { λ x y. Some (name_cmp x.now y.now) };

    ghost laws = { on_po (λ s. s.now) name_order_laws };

    fn partial_cmp(&self, other: &Self) -> Option<Ordering> {
        Some(self.cmp(other))
    }
}

impl<'a> Ord for NameKey<'a> {
    ghost cmp = { λ x y. name_cmp x.now y.now };

    ghost total = { on_total (λ s. s.now) name_total };

    ghost matches_partial_cmp = { λ x y. refl };

    ghost matches_eq = { λ x y. names_tied x.now y.now };

    fn cmp(&self, other: &Self) -> Ordering {
        if self.number != other.number {
            return self.number.cmp(&other.number);
        }
        self.name.cmp(other.name)
    }
}
