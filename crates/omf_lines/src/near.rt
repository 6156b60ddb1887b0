//! Names that are near to one another: a person who types a name mistypes one letter, or forgets what a compiler puts around it.

ghost use Rattle.std.specs.Prelude.{◌≡◌, IfOk, map, option_map, string_bytes};
ghost use Rattle.omf_lines.specs.Near.{are_swapped, bare, is_around, is_close, is_one_off, near_name};

use std::alloc::{AllocError, Global};

/// Whether a byte is one that compilers put around names: an underscore or an at sign.
fn is_around(byte: u8) -> bool
    ensures { result ≡ is_around byte }
{
    byte == b'_' || byte == b'@'
}

/// What counts of a name: its letters, in lower case.
fn bare(alloc: Global, name: &[u8]) -> Result<Vec<u8>, AllocError>
    ensures { IfOk result (λ v. v.items ≡ bare name.now) }
{
    let mut bare = Vec::new(alloc);
    for byte in name {
        if !is_around(*byte) {
            bare.push(byte.to_ascii_lowercase())?;
        }
    }
    Ok(bare)
}

/// Whether two texts are the same but for their first two bytes, which are swapped.
fn are_swapped(one: &[u8], other: &[u8]) -> bool
    ensures { result ≡ are_swapped one.now other.now }
{
    let [a, b, after_one @ ..] = one else {
        return false;
    };
    let [c, d, after_other @ ..] = other else {
        return false;
    };
    *a == *d && *b == *c && after_one == after_other
}

/// Whether two texts whose first bytes differ are the same without the first byte of one of them or of both, or with the first two bytes swapped.
fn is_one_off(one: &[u8], other: &[u8], after_one: &[u8], after_other: &[u8]) -> bool
    ensures { result ≡ is_one_off one.now other.now after_one.now after_other.now }
{
    after_one == after_other || one == after_other || after_one == other || are_swapped(one, other)
}

/// Whether two texts are the same, or one edit apart.
fn is_close(one: &[u8], other: &[u8]) -> bool
    ensures { result ≡ is_close one.now other.now }
{
    let mut left = one;
    let mut right = other;
    while let Some((a, after_left)) = left.split_first() {
        let Some((b, after_right)) = right.split_first() else {
            return after_left.is_empty();
        };
        if *a != *b {
            return is_one_off(left, right, after_left, after_right);
        }
        left = after_left;
        right = after_right;
    }
    right.len() <= 1
}

/// Whether a name is near to one of which this counts.
fn is_near(alloc: Global, counted: &[u8], name: &[u8]) -> Result<bool, AllocError>
    ensures { IfOk result (λ near. near ≡ is_close counted.now (bare name.now)) }
{
    let other = bare(alloc, name)?;
    Ok(is_close(counted, &other))
}

/// The first of several names that is near to one.
pub(crate) fn near_name<'a>(
    alloc: Global,
    wanted: &[u8],
    names: &'a [String],
) -> Result<Option<&'a str>, AllocError>
    ensures { IfOk result (λ near. option_map (λ n. n.now) near ≡ near_name wanted.now (map string_bytes names.entry.now)) }
{
    let counted = bare(alloc, wanted)?;
    for name in names {
        if is_near(alloc, &counted, name.as_bytes())? {
            return Ok(Some(name.as_str()));
        }
    }
    Ok(None)
}
