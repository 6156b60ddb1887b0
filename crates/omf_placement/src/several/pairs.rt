//! The pairs of a weak external and its default, as comments have them (TIS OMF 1.1, "COMENT", classes A8H and A9H).

ghost use Rattle.std.specs.Prelude.{◌≡◌, ◌++◌, ◌<◌, ◌≤◌, IfOk, IfSome, OnOk, false, length, option_map};
ghost use Rattle.omf_check.specs.Module.{recs_of};
ghost use Rattle.omf_placement.specs.Inner.Pairing.{front_index, pairs_after};
ghost use Rattle.omf_placement.specs.Weak.{indices, paired, pairs_in, weak_pairs};

use omf_check::{Checked, Undecoded};
use std::alloc::{AllocError, Global};

/// The classes of comments that have such pairs: WKEXT and LZEXT.
const WEAK: u8 = 0xA8;

const LAZY: u8 = 0xA9;

/// A weak external and its default, by their indices in the module. A comment may have any index: one that the module does not have is that
/// of no external.
#[derive(Clone, Copy, Debug, PartialEq, Eq)]
pub struct WeakPair {
    /// The weak external.
    pub weak: u16,
    /// Its default.
    pub substitute: u16,
}

/// The index at the front of a text, and its size in bytes (TIS OMF 1.1, "Index Fields").
fn front_index(text: &[u8]) -> Option<(u16, usize)>
    ensures index { result ≡ front_index text.now }
    ensures some { IfSome result (λ p. 0 < p.1) }
    ensures fits { IfSome result (λ p. p.1 ≤ length text.now) }
{
    match text {
        [] => None,
        [first @ 0..128, ..] => Some((u16::from(*first), 1)),
        [_] => None,
        [first, second, ..] => {
            let high = u16::from(*first - 128);
            Some((high * 256 + u16::from(*second), 2))
        }
    }
}

/// The pair at the front of a text, and the text after it.
#[tactic(auto, using(crate::proofs::WeakLaws::next_pair, crate::proofs::WeakLaws::no_pair, crate::proofs::WeakLaws::half_pair))]
fn split_pair(text: &[u8]) -> Option<(WeakPair, &[u8])>
    ensures pair { paired (indices text.now) ≡ pairs_after (option_map (λ r. (r.0, r.1.now)) result) }
    ensures shorter { IfSome result (λ r. length r.1.now < length text.now) }
{
    let (weak, size) = front_index(text)?;
    let rest = text.split_at(size).1;
    let (substitute, size) = front_index(rest)?;
    let pair = WeakPair { weak, substitute };
    Some((pair, rest.split_at(size).1))
}

/// Appends the pairs of a text.
fn put_pairs(pairs: &mut Vec<WeakPair>, text: &[u8]) -> Result<(), AllocError>
    ensures { OnOk result (pairs.new.items ≡ pairs.old.items ++ paired (indices text.now)) }
{
    let mut rest = text;
    while let Some((pair, after)) = split_pair(rest) {
        pairs.push(pair)?;
        rest = after;
    }
    Ok(())
}

/// Appends the pairs of a record. No record but a comment is decoded.
fn put_record(pairs: &mut Vec<WeakPair>, rec: &Undecoded<'_>) -> Result<(), AllocError>
    ensures { OnOk result (pairs.new.items ≡ pairs.old.items ++ pairs_in rec.now.contents) }
{
    let Some(comment) = rec.as_comment() else {
        return Ok(());
    };
    if comment.class == WEAK || comment.class == LAZY {
        return put_pairs(pairs, comment.text);
    }
    Ok(())
}

/// Returns the pairs of a module, in order.
///
/// # Errors
///
/// `AllocError` if memory runs out.
pub fn weak_pairs(alloc: Global, module: &Checked) -> Result<Vec<WeakPair>, AllocError>
    ensures { IfOk result (λ v. v.items ≡ weak_pairs (recs_of «module».now.bytes)) }
{
    let mut pairs = Vec::new(alloc);
    for (_, rec) in module.undecoded() {
        put_record(&mut pairs, &rec)?;
    }
    Ok(pairs)
}
