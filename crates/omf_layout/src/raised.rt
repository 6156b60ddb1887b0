//! Segments that comments raise from 256 bytes to 4,096, and the alignments of a module's segments.

ghost use Rattle.std.specs.Prelude.{◌≡◌, ◌++◌, IfOk, List, OnOk, [], ℕ};
ghost use Rattle.std.specs.BTreeSet.{contains};
ghost use Rattle.std.specs.List.{cons_option};
ghost use Rattle.std.specs.Ordering.{nat_cmp};
ghost use Rattle.omf_check.specs.Module.{recs_of};
ghost use Rattle.omf_frame.specs.Bytes.{is_one_of};
ghost use Rattle.omf_records.specs.Values.{Rec};
ghost use Rattle.omf_layout.specs.Wants.{AreRaised, alignment_by, alignment_in, raised, raised_by, whole_index};

use crate::alignment::Alignment;
use omf_check::{Checked, Undecoded};
use std::alloc::{AllocError, Global};
use std::collections::BTreeSet;

/// The class of a comment that raises a segment.
pub(crate) const RAISE: u8 = 0xDC;

/// The segments of a module that comments raise to 4,096 bytes, by their indices.
pub type Raised = BTreeSet<u16>;

/// Returns the index that a text is; none if it has another form (TIS OMF 1.1, "Index Fields").
fn whole_index(text: &[u8]) -> Option<u16>
    ensures { result ≡ whole_index text.now }
{
    match text {
        [low @ 0..128] => Some(u16::from(*low)),
        [0..128, _] => None,
        [first, low] => {
            let high = u16::from(*first - 128);
            Some(high * 256 + u16::from(*low))
        }
        _ => None,
    }
}

/// Adds the index that a text is, if it is one.
fn add_index(indices: &mut Vec<u16>, text: &[u8]) -> Result<(), AllocError>
    ensures { OnOk result (indices.new.items ≡ indices.old.items ++ cons_option (whole_index text.now) []) }
{
    if let Some(index) = whole_index(text) {
        indices.push(index)?;
    }
    Ok(())
}

/// Adds the segment that a record raises, if it is such a comment. No other record is decoded.
fn add_record(indices: &mut Vec<u16>, rec: &Undecoded<'_>) -> Result<(), AllocError>
    ensures { OnOk result (indices.new.items ≡ indices.old.items ++ raised_by rec.now.contents) }
{
    let Some(comment) = rec.as_comment() else {
        return Ok(());
    };
    if comment.type_byte == 0 && comment.class == RAISE {
        return add_index(indices, comment.text);
    }
    Ok(())
}

/// Returns the segments that the comments of a module raise, in the order of the comments.
fn indices_of(alloc: Global, module: &Checked) -> Result<Vec<u16>, AllocError>
    ensures { IfOk result (λ v. v.items ≡ raised (recs_of «module».now.bytes)) }
{
    let mut indices = Vec::new(alloc);
    for (_, rec) in module.undecoded() {
        add_record(&mut indices, &rec)?;
    }
    Ok(indices)
}

/// Returns the set of these indices.
fn set_of(alloc: Global, indices: &[u16]) -> Result<Raised, AllocError>
    ensures { IfOk result (λ set. (i : ℕ) → contains nat_cmp set i ≡ is_one_of indices.now i) }
{
    let mut set = BTreeSet::new(alloc);
    for index in indices {
        set.insert(*index)?;
    }
    Ok(set)
}

/// Returns the segments of a module that comments of class DCH raise from 256 bytes to 4,096 (TIS OMF 1.1, "COMENT"; this profile's rule).
///
/// # Errors
///
/// `AllocError` if memory runs out.
pub fn raised_in(alloc: Global, module: &Checked) -> Result<Raised, AllocError>
    ensures { IfOk result (λ set. AreRaised set (recs_of «module».now.bytes)) }
{
    let indices = indices_of(alloc, module)?;
    set_of(alloc, &indices)
}

/// Returns the alignment of a segment that a comment raises, or none does, by its attribute byte. Only a multiple of 256 is raised.
fn alignment_by(is_raised: bool, attribute: u8) -> Alignment
    ensures { result ≡ alignment_by is_raised attribute }
{
    if is_raised && attribute / 32 == 4 {
        return Alignment::Block;
    }
    Alignment::named_by(attribute)
}

/// Returns the alignment of a segment, by its index and its attribute byte, in a module of which these segments are raised.
pub fn alignment_in(raised: &Raised, index: u16, attribute: u8) -> Alignment
    ensures { (m : List Rec) → AreRaised raised.now m → result ≡ alignment_in m index attribute }
{
    alignment_by(raised.contains(&index), attribute)
}
