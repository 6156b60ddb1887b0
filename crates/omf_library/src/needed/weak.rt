//! The weak externals of a module: those that no member is looked for (TIS OMF 1.1, "COMENT", class A8H, WKEXT).

ghost use Rattle.std.specs.Prelude.{◌≡◌, ◌++◌, ◌∷◌, [], ◌<◌, ◌≤◌, IfNone, IfOk, IfSome, OnOk, length, set, true};
ghost use Rattle.omf_check.specs.Module.{recs_of};
ghost use Rattle.omf_check.specs.Tables.{externals};
ghost use Rattle.omf_placement.specs.Weak.{indices};
ghost use Rattle.omf_library.specs.Needed.{weak_in, weak_indices, weak_of};
ghost use Rattle.omf_library.specs.Inner.Weak.{AreMarks, is_marked};

use omf_check::{Checked, Undecoded};
use omf_frame::{Field, Index};
use std::alloc::{AllocError, Global};

/// The class of a comment that names weak externals (WKEXT). That of lazy ones (LZEXT) is another: members are looked for.
const WEAK: u8 = 0xA8;

/// The index at the front of a text, and the text after it.
fn split_index(text: &[u8]) -> Option<(u16, &[u8])>
    ensures some { IfSome result (λ p. indices text.now ≡ p.0 ∷ indices p.1.now) }
    ensures shorter { IfSome result (λ p. length p.1.now < length text.now) }
    ensures none { IfNone result (indices text.now ≡ []) }
{
    let (index, size) = Index::read_at(text, 0)?;
    Some((index.0, text.split_at(size).1))
}

/// The weak index of the pair at the front of a text, and the text after the pair.
#[tactic(auto, using(crate::proofs::WeakLaws::next_pair, crate::proofs::WeakLaws::no_pair, crate::proofs::WeakLaws::half_pair))]
fn split_pair(text: &[u8]) -> Option<(u16, &[u8])>
    ensures some { IfSome result (λ p. weak_of text.now ≡ p.0 ∷ weak_of p.1.now) }
    ensures shorter { IfSome result (λ p. length p.1.now < length text.now) }
    ensures none { IfNone result (weak_of text.now ≡ []) }
{
    let (weak, middle) = split_index(text)?;
    let (_, rest) = split_index(middle)?;
    Some((weak, rest))
}

/// Adds the weak indices of a text.
fn push_text(weak: &mut Vec<u16>, text: &[u8]) -> Result<(), AllocError>
    ensures { OnOk result (weak.new.items ≡ weak.old.items ++ weak_of text.now) }
{
    let mut rest = text;
    while let Some((index, after)) = split_pair(rest) {
        weak.push(index)?;
        rest = after;
    }
    Ok(())
}

/// Adds the weak indices of a record. No record but a comment is decoded.
fn push_record(weak: &mut Vec<u16>, rec: &Undecoded<'_>) -> Result<(), AllocError>
    ensures { OnOk result (weak.new.items ≡ weak.old.items ++ weak_in rec.now.contents) }
{
    let Some(comment) = rec.as_comment() else {
        return Ok(());
    };
    if comment.class == WEAK {
        return push_text(weak, comment.text);
    }
    Ok(())
}

/// The weak indices of a module, in the order of its comments.
fn weak_indices(alloc: Global, module: &Checked) -> Result<Vec<u16>, AllocError>
    ensures { IfOk result (λ weak. weak.items ≡ weak_indices (recs_of «module».now.bytes)) }
{
    let mut weak = Vec::new(alloc);
    for (_, rec) in module.undecoded() {
        push_record(&mut weak, &rec)?;
    }
    Ok(weak)
}

/// Marks an index, if it has a place.
fn mark(marks: &mut Vec<bool>, index: u16)
    ensures { marks.new.items ≡ set marks.old.items index true }
{
    let index = usize::from(index);
    if index < marks.len() {
        marks[index] = true;
    }
}

/// Marks those of these indices that are at most `count`. There is no mark where there is no index.
fn marks_of(alloc: Global, indices: &[u16], count: u16) -> Result<Vec<bool>, AllocError>
    ensures { IfOk result (λ marks. AreMarks indices.now count marks.items) }
{
    if indices.is_empty() {
        return Ok(Vec::new(alloc));
    }
    let mut marks = vec![in alloc; false; usize::from(count) + 1]?;
    for index in indices {
        mark(&mut marks, *index);
    }
    Ok(marks)
}

/// Which externals of a module are weak.
#[derive(Drop)]
pub(crate) struct WeakExternals {
    /// Whether each is, by its index. Empty if none is.
    marks: Vec<bool>,
}

impl WeakExternals {
    /// The weak externals of a module.
    pub(crate) fn of(alloc: Global, module: &Checked) -> Result<WeakExternals, AllocError>
        ensures { IfOk result (λ w. AreMarks (weak_indices (recs_of «module».now.bytes)) (length (externals (recs_of «module».now.bytes))) w.marks.items) }
    {
        let indices = weak_indices(alloc, module)?;
        let marks = marks_of(alloc, &indices, module.externals())?;
        Ok(WeakExternals { marks })
    }

    /// Whether the external with this index is weak.
    pub(crate) fn has(&self, index: u16) -> bool
        ensures { result ≡ is_marked self.now.marks.items index }
    {
        match self.marks.get(usize::from(index)) {
            Some(is_weak) => *is_weak,
            None => false,
        }
    }
}
