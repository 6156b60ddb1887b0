//! What the records of a module give for the kinds of its names.

ghost use Rattle.std.specs.Prelude.{◌≡◌, ◌++◌, ◌∷◌, ◌<◌, ◌≤◌, [], IfOk, IfSome, OnOk, ℕ, length, map, option_map};
ghost use Rattle.std.specs.BTreeSet.{contains};
ghost use Rattle.std.specs.Ordering.{nat_cmp};
ghost use Rattle.omf_frame.specs.Bytes.{is_one_of};
ghost use Rattle.omf_check.specs.Inner.Contents.{data_seen};
ghost use Rattle.omf_check.specs.Module.{recs_of};
ghost use Rattle.omf_check.specs.Tables.{externals};
ghost use Rattle.omf_dump.specs.Names.{data_segment, data_segments, external_sort, is_code, public_sort, segment_name, segment_sort, weak_externals, weak_in, weak_of};
ghost use Rattle.omf_placement.specs.Inner.Pairing.{pairs_after};
ghost use Rattle.omf_placement.specs.Weak.{indices, paired};

use crate::pairs::front_index;
use crate::sort::Sort;
use omf_check::{Checked, Data, Records, SegInfo, Undecoded, is_code_name};
use omf_frame::Name;
use omf_placement::WeakPair;
use std::alloc::{AllocError, Global};
use std::collections::BTreeSet;
use std::marker::Model;

/// The class of comments that name weak externals: WKEXT.
const WEAK: u8 = 0xA8;

/// The class of comments that name lazy externals: LZEXT.
const LAZY: u8 = 0xA9;

/// The segment of a data record.
fn segment_of(part: &Data<'_>) -> u16
    ensures { data_segment (data_seen part.now).contents ≡ result ∷ [] }
{
    match part {
        Data::Plain { segment, .. } => segment.item.0,
        Data::Iterated { segment, .. } => segment.item.0,
    }
}

/// Appends the segment of a record, if it is a data record. No other record is decoded.
fn push_data(segments: &mut Vec<u64>, rec: &Undecoded<'_>) -> Result<(), AllocError>
    ensures { OnOk result (segments.new.items ≡ segments.old.items ++ data_segment rec.now.contents) }
{
    let Some(part) = rec.as_data() else {
        return Ok(());
    };
    segments.push(u64::from(segment_of(&part)))?;
    Ok(())
}

/// The segments of the data records of a module.
fn data_segments(alloc: Global, module: &Checked) -> Result<Vec<u64>, AllocError>
    ensures { IfOk result (λ v. v.items ≡ data_segments (recs_of «module».now.bytes)) }
{
    let mut segments = Vec::new(alloc);
    for (_, rec) in module.undecoded() {
        push_data(&mut segments, &rec)?;
    }
    Ok(segments)
}

/// The pair at the front of a text, and the text after it.
#[tactic(auto, using(omf_placement::proofs::WeakLaws::no_pair, omf_placement::proofs::WeakLaws::half_pair))]
fn split_pair(text: &[u8]) -> Option<(WeakPair, &[u8])>
    ensures pair { paired (indices text.now) ≡ pairs_after (option_map (λ r. (r.0, r.1.now)) result) }
    ensures shorter { IfSome result (λ r. length r.1.now < length text.now) }
{
    let (weak, size) = front_index(text)?;
    let rest = text.split_at(size).1;
    let (substitute, size) = front_index(rest)?;
    let pair = WeakPair { weak, substitute };
    Some((pair, rest.split_at(size).1))
}

/// Appends the first external of each pair of a text.
fn push_pairs(externals: &mut Vec<u64>, text: &[u8]) -> Result<(), AllocError>
    ensures { OnOk result (externals.new.items ≡ externals.old.items ++ map weak_of (paired (indices text.now))) }
{
    let mut rest = text;
    while let Some((pair, after)) = split_pair(rest) {
        externals.push(u64::from(pair.weak))?;
        rest = after;
    }
    Ok(())
}

/// Appends the externals that a record names, if it is a comment of the class. No other record is decoded.
fn push_weak(externals: &mut Vec<u64>, class: u8, rec: &Undecoded<'_>) -> Result<(), AllocError>
    ensures { OnOk result (externals.new.items ≡ externals.old.items ++ weak_in class rec.now.contents) }
{
    let Some(comment) = rec.as_comment() else {
        return Ok(());
    };
    if comment.class == class {
        return push_pairs(externals, comment.text);
    }
    Ok(())
}

/// The externals that the comments of a class name.
fn weak_externals(alloc: Global, module: &Checked, class: u8) -> Result<Vec<u64>, AllocError>
    ensures { IfOk result (λ v. v.items ≡ weak_externals class (recs_of «module».now.bytes)) }
{
    let mut externals = Vec::new(alloc);
    for (_, rec) in module.undecoded() {
        push_weak(&mut externals, class, &rec)?;
    }
    Ok(externals)
}

/// The set of these indices.
fn set_of(alloc: Global, indices: &[u64]) -> Result<BTreeSet<u64>, AllocError>
    ensures { IfOk result (λ set. (i : ℕ) → contains nat_cmp set i ≡ is_one_of indices.now i) }
{
    let mut set = BTreeSet::new(alloc);
    for index in indices {
        set.insert(*index)?;
    }
    Ok(set)
}

/// A module, and what its records give for the kinds of its names.
#[derive(Drop)]
pub(crate) struct Facts<'a> {
    module: &'a Checked,
    /// The segments that it has data for.
    filled: BTreeSet<u64>,
    /// The externals that a WKEXT names.
    weak: BTreeSet<u64>,
    /// The externals that an LZEXT names.
    lazy: BTreeSet<u64>,
}

impl<'a> Model for Facts<'a> {
    ghost use Rattle.std.specs.Prelude.{List};
    ghost use Rattle.omf_check.specs.Module.{recs_of as records_of};
    ghost use Rattle.omf_records.specs.Values.{Rec as Typed};
    ghost use Rattle.omf_dump.specs.Inner.Facts.{AreFacts};

    ghost Value = { List Typed };

    ghost view = { λ f. records_of f.«module».now.bytes };

    ghost invariant = { λ f. AreFacts (records_of f.«module».now.bytes) f.filled f.weak f.lazy };
}

/// Whether the class of a segment is one of code.
fn is_code(module: &Checked, segment: Option<SegInfo>) -> bool
    ensures { result ≡ is_code (recs_of «module».now.bytes) segment }
{
    match segment {
        Some(segment) => is_code_name(module.name(segment.class)),
        None => false,
    }
}

impl<'a> Facts<'a> {
    /// What the records of a module give.
    pub(crate) fn of(alloc: Global, module: &'a Checked) -> Result<Facts<'a>, AllocError>
        ensures { IfOk result (λ facts. facts ≡ recs_of «module».entry.now.bytes) }
    {
        let filled = data_segments(alloc, module)?;
        let weak = weak_externals(alloc, module, WEAK)?;
        let lazy = weak_externals(alloc, module, LAZY)?;
        let filled = set_of(alloc, &filled)?;
        let weak = set_of(alloc, &weak)?;
        let lazy = set_of(alloc, &lazy)?;
        Ok(Facts {
            module,
            filled,
            weak,
            lazy,
        })
    }

    /// The records of the module.
    pub(crate) fn records(&self) -> Records<'a>
        ensures { map (λ x. x.1) result ≡ self.now }
    {
        self.module.records()
    }

    /// The number of externals of the module.
    pub(crate) fn external_count(&self) -> u16
        ensures count { result ≡ length (externals self.now) }
        ensures bounded { result ≤ 32767 }
    {
        self.module.externals()
    }

    /// The kind of a public of a segment.
    fn segment_sort(&self, segment: u16) -> Sort
        ensures { result ≡ segment_sort self.now segment }
    {
        if is_code(self.module, self.module.segment(segment)) {
            Sort::Text
        } else if self.filled.contains(&u64::from(segment)) {
            Sort::Data
        } else {
            Sort::Bss
        }
    }

    /// The kind of a public, by the index of its segment.
    pub(crate) fn public_sort(&self, segment: u16) -> Sort
        ensures { result ≡ public_sort self.now segment }
    {
        if segment == 0 {
            Sort::Absolute
        } else {
            self.segment_sort(segment)
        }
    }

    /// The kind of an external, by its index.
    pub(crate) fn external_sort(&self, index: u64) -> Sort
        ensures { result ≡ external_sort self.now index }
    {
        if self.weak.contains(&index) {
            Sort::Weak
        } else if self.lazy.contains(&index) {
            Sort::Lazy
        } else {
            Sort::Undefined
        }
    }

    /// The name of a segment, by its index.
    pub(crate) fn segment_name(&self, segment: u16) -> Option<Name<'a>>
        ensures { result ≡ segment_name self.now segment }
    {
        match self.module.segment(segment) {
            Some(segment) => self.module.name(segment.name),
            None => None,
        }
    }
}
