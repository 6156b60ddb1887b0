//! Parts of bytes.

ghost use Rattle.std.specs.Prelude.{◌≡◌, drop, take};

/// The first bytes, at most `count`.
#[tactic(auto, using(std::proofs::lemmas::List::take_min))]
pub fn first(count: usize, bytes: &[u8]) -> &[u8]
    ensures { result.now ≡ take count bytes.now }
{
    bytes.split_at(count.min(bytes.len())).0
}

/// The bytes after the first `count`.
#[tactic(auto, using(std::proofs::lemmas::List::drop_min))]
pub fn after(count: usize, bytes: &[u8]) -> &[u8]
    ensures { result.now ≡ drop count bytes.now }
{
    bytes.split_at(count.min(bytes.len())).1
}
