//! A memory image of segments, in which the last piece laid wins.

ghost use Rattle.std.specs.Prelude.{◌≡◌, ◌⊎◌, true, false, ℕ, ◌+◌, ◌-◌, ◌^◌, ◌<◌, ◌≤◌, List, [], ◌∷◌, ◌++◌, length, take, drop, vec_len, slice_get, replicate, IfSome, IfOk, OnOk, OnErr};
ghost use Rattle.std.specs.Option.{option_copied, option_map};
ghost use Rattle.omf_image.specs.Overlay.{byte_of, byte_at, IsRunAt, IsRunShown, AreBytesAt, IsLaidOver, IsCovered};
ghost use Rattle.omf_image.specs.Painting.{zeros, Fits};
ghost use Rattle.omf_image.specs.Inner.Sorted.{laid_run, laid_runs, span, in_segment, line_place, low, high, AreSorted, EndBefore, EndFrom, BeginBy, BeginAfter, Touches, IsTouched, IsPartOf, joined, extended, over, over_all};

use crate::Run;
use crate::painting::Extent;
use smallvec::SmallVec;
use std::alloc::{AllocError, Global};
use std::marker::Model;

/// The distance from one segment to the next in the line of all places: twice the size of a segment, so that runs of different
/// segments never touch.
const SEGMENT_STEP: u64 = 8_589_934_592;

/// The most bytes of a run that take no memory of their own.
const FEW: usize = 16;

/// The place of an offset of a segment in the line of all places.
fn place_of(segment: u16, offset: u32) -> u64
    ensures { result ≡ line_place segment offset }
{
    u64::from(segment) * SEGMENT_STEP + u64::from(offset)
}

/// A covered interval and its bytes.
#[derive(Drop)]
struct Covered {
    segment: u16,
    first: u32,
    bytes: SmallVec<u8, FEW>,
}

/// Zeros. A few of them take no memory.
fn zero_bytes(alloc: Global, len: usize) -> Result<SmallVec<u8, FEW>, AllocError>
    ensures { IfOk result (λ v. v.items ≡ replicate len 0) }
{
    if len <= FEW {
        return SmallVec::from_elem(alloc, 0, len);
    }
    let mut bytes = Vec::new(alloc);
    bytes.resize(len, 0)?;
    Ok(SmallVec::from_vec(bytes))
}

impl Covered {
    /// Its start in the line of all places.
    fn low(&self) -> u64
        ensures { result ≡ low (laid_run self.now) }
    {
        place_of(self.segment, self.first)
    }

    /// Its end in the line of all places: the place after its last byte.
    fn high(&self) -> u64
        ensures { result ≡ high (laid_run self.now) }
    {
        self.low() + self.bytes.as_slice().len() as u64
    }

    /// Its interval.
    fn run(&self) -> Run
        ensures { result ≡ span (laid_run self.now) }
    {
        Run {
            first: self.first,
            len: self.bytes.as_slice().len() as u64,
        }
    }

    /// Appends the bytes of `run` that follow its own last byte.
    fn extend_over(&mut self, run: &Covered) -> Result<(), AllocError>
        requires { self.old.first + length self.old.bytes.items ≤ 2 ^ 32 }
        ensures { OnOk result (laid_run self.new ≡ extended (laid_run self.old) (laid_run run.now)) }
    {
        let end = u64::from(self.first) + self.bytes.as_slice().len() as u64;
        self.bytes.extend_from_slice(run.bytes_from(end))?;
        Ok(())
    }

    /// Appends the bytes of `runs`, all of which it touches, that follow its own last byte. Only the last run can have any.
    fn extend_to(&mut self, runs: &[Covered]) -> Result<(), AllocError>
        requires sorted { AreSorted (low (laid_run self.old)) (laid_runs runs.now) }
        requires touching { Touches (laid_run self.old) (laid_runs runs.now) }
        requires fits { self.old.first + length self.old.bytes.items ≤ 2 ^ 32 }
        ensures laid { OnOk result (laid_run self.new ≡ over_all (laid_run self.old) (laid_runs runs.now)) }
        ensures full { OnErr result (0 < length runs.now) }
    {
        match runs.last() {
            Some(run) => self.extend_over(run),
            None => Ok(()),
        }
    }

    /// Lays `piece`, which touches it, over it.
    fn overlay(&mut self, mut piece: Covered) -> Result<(), AllocError>
        requires segment { self.old.segment ≡ piece.segment }
        requires from { piece.first ≤ self.old.first + length self.old.bytes.items }
        requires fits { piece.first + length piece.bytes.items ≤ 2 ^ 32 }
        ensures laid { OnOk result (laid_run self.new ≡ over (laid_run piece) (laid_run self.old)) }
        ensures unchanged { OnErr result (laid_run self.new ≡ laid_run self.old) }
        ensures full { OnErr result ((piece.first < self.old.first) ⊎ (self.old.first + length self.old.bytes.items < piece.first + length piece.bytes.items)) }
    {
        if piece.first < self.first {
            piece.extend_over(self)?;
            *self = piece;
            return Ok(());
        }
        overwrite(
            &mut self.bytes,
            (piece.first - self.first) as usize,
            piece.bytes.as_slice(),
        )
    }

    /// Its byte at an offset of a segment, if it covers that place.
    fn byte(&self, segment: u16, offset: u32) -> Option<u8>
        ensures { result ≡ byte_of segment offset (laid_run self.now) }
    {
        if self.segment != segment || offset < self.first {
            return None;
        }
        let at = (offset - self.first) as usize;
        self.bytes.as_slice().get(at).copied()
    }

    /// Its bytes from `offset` of its segment on.
    fn bytes_from(&self, offset: u64) -> &[u8]
        ensures { result.now ≡ drop (offset - self.now.first) self.now.bytes.items }
    {
        let skipped = offset.saturating_sub(u64::from(self.first)) as usize;
        let bytes = self.bytes.as_slice();
        bytes.split_at(skipped.min(bytes.len())).1
    }
}

/// Overwrites `bytes` from `at` on with `new`, and appends what does not fit.
fn overwrite(bytes: &mut SmallVec<u8, FEW>, at: usize, new: &[u8]) -> Result<(), AllocError>
    requires { at ≤ length bytes.old.items }
    ensures written { OnOk result (bytes.new.items ≡ take at bytes.old.items ++ (new.now ++ drop (at + length new.now) bytes.old.items)) }
    ensures unchanged { OnErr result (bytes.new.items ≡ bytes.old.items) }
    ensures full { OnErr result (length bytes.old.items < at + length new.now) }
{
    let inside = new.len().min(bytes.len() - at);
    let (front, back) = new.split_at(inside);
    bytes.extend_from_slice(back)?;
    bytes.as_mut_slice()[at..at + inside].copy_from_slice(front);
    Ok(())
}

/// Whether the first `count` runs exist and end before `at`.
fn end_before(runs: &[Covered], count: usize, at: u64) -> bool
    requires { AreSorted 0 (laid_runs runs.now) }
    ensures { result ≡ true → (count ≤ length runs.now) × EndBefore at (take count (laid_runs runs.now)) }
{
    if count == 0 {
        return true;
    }
    match runs.get(count - 1) {
        Some(run) => run.high() < at,
        None => false,
    }
}

/// Whether the runs after the first `count` end at `at` or later.
fn end_from(runs: &[Covered], count: usize, at: u64) -> bool
    requires { AreSorted 0 (laid_runs runs.now) }
    ensures { result ≡ true → EndFrom at (drop count (laid_runs runs.now)) }
{
    match runs.get(count) {
        Some(run) => at <= run.high(),
        None => true,
    }
}

/// Whether exactly the first `count` runs end before `at`.
fn ends_before(runs: &[Covered], count: usize, at: u64) -> bool
    requires { AreSorted 0 (laid_runs runs.now) }
    ensures { result ≡ true → (count ≤ length runs.now) × EndBefore at (take count (laid_runs runs.now)) × EndFrom at (drop count (laid_runs runs.now)) }
{
    end_before(runs, count, at) && end_from(runs, count, at)
}

/// The number of runs that end before `at`.
fn ending_before(runs: &[Covered], at: u64) -> usize
    requires { AreSorted 0 (laid_runs runs.now) }
    ensures within { result ≤ length runs.now }
    ensures before { EndBefore at (take result (laid_runs runs.now)) }
    ensures others { EndFrom at (drop result (laid_runs runs.now)) }
{
    runs.partition_point(|run| run.high() < at)
}

/// The number of runs that end before `at`. Tries `near`, one more and one less before it searches.
fn ending_near(runs: &[Covered], near: usize, at: u64) -> usize
    requires { AreSorted 0 (laid_runs runs.now) }
    ensures within { result ≤ length runs.now }
    ensures before { EndBefore at (take result (laid_runs runs.now)) }
    ensures others { EndFrom at (drop result (laid_runs runs.now)) }
{
    if ends_before(runs, near, at) {
        return near;
    }
    let more = near.saturating_add(1);
    if ends_before(runs, more, at) {
        return more;
    }
    let less = near.saturating_sub(1);
    if ends_before(runs, less, at) {
        return less;
    }
    ending_before(runs, at)
}

/// Whether the runs after the first `count` start after `at`.
fn begin_after(runs: &[Covered], count: usize, at: u64) -> bool
    requires { AreSorted 0 (laid_runs runs.now) }
    ensures after { result ≡ true → BeginAfter at (drop count (laid_runs runs.now)) }
    ensures by { result ≡ false → (count < length runs.now) × BeginBy at (take (count + 1) (laid_runs runs.now)) }
{
    match runs.get(count) {
        Some(run) => at < run.low(),
        None => true,
    }
}

/// The number of runs that start at `at` or before. Tries 0 and 1 before it searches.
fn beginning_by(runs: &[Covered], at: u64) -> usize
    requires { AreSorted 0 (laid_runs runs.now) }
    ensures within { result ≤ length runs.now }
    ensures before { BeginBy at (take result (laid_runs runs.now)) }
    ensures others { BeginAfter at (drop result (laid_runs runs.now)) }
{
    if begin_after(runs, 0, at) {
        return 0;
    }
    if begin_after(runs, 1, at) {
        return 1;
    }
    runs.partition_point(|run| run.low() <= at)
}

/// The `k`th run of a segment, from 0.
fn find_run(runs: &[Covered], segment: u16, k: usize) -> Option<&Covered>
    requires { AreSorted 0 (laid_runs runs.now) }
    ensures { option_map laid_run (option_copied result) ≡ slice_get (in_segment segment (laid_runs runs.now)) k }
{
    let start = ending_near(runs, 0, place_of(segment, 0));
    let run = runs.split_at(start).1.get(k)?;
    if run.segment == segment {
        Some(run)
    } else {
        None
    }
}

/// The runs that `piece` touches: the index of the first of them, from 0, and their number. Tries `near`, one more and one less as the
/// index before it searches.
fn touched(runs: &[Covered], near: usize, piece: &Covered) -> (usize, usize)
    requires sorted { AreSorted 0 (laid_runs runs.now) }
    requires some { 0 < length piece.now.bytes.items }
    requires fits { piece.now.first + length piece.now.bytes.items ≤ 2 ^ 32 }
    ensures within { result.0 + result.1 ≤ length runs.now }
    ensures touched { IsTouched (laid_runs runs.now) (laid_run piece.now) result.0 result.1 }
{
    let start = ending_near(runs, near, piece.low());
    let count = beginning_by(runs.split_at(start).1, piece.high());
    (start, count)
}

/// Lays `piece` over the `count` runs from `start` on, all of which it touches, and joins them to one run.
fn join_runs(
    runs: &mut Vec<Covered>,
    start: usize,
    count: usize,
    mut piece: Covered,
) -> Result<(), AllocError>
    requires some { 0 < count }
    requires within { start + count ≤ vec_len runs.old }
    requires sorted { AreSorted 0 (laid_runs runs.old.items) }
    requires touching { Touches (laid_run piece) (take count (drop start (laid_runs runs.old.items))) }
    requires fits { piece.first + length piece.bytes.items ≤ 2 ^ 32 }
    ensures joined { OnOk result (laid_runs runs.new.items ≡ joined (laid_runs runs.old.items) (laid_run piece) start count) }
    ensures unchanged { OnErr result (laid_runs runs.new.items ≡ laid_runs runs.old.items) }
    ensures full { OnErr result (IsPartOf (laid_run piece) (take count (drop start (laid_runs runs.old.items))) → ⊥) }
{
    piece.extend_to(&runs[start + 1..start + count])?;
    let first = &mut runs[start];
    first.overlay(piece)?;
    if count == 1 {
        return Ok(());
    }
    runs.drain(start + 1..start + count);
    Ok(())
}

/// A memory image: bytes at offsets of segments, where the last piece laid wins. Holds the maximal covered intervals (runs) in
/// ascending order, each with its bytes.
#[derive(Drop)]
pub struct Image {
    runs: Vec<Covered>,
    /// The number of runs that ended before the last piece laid.
    near: usize,
}

impl Model for Image {
    ghost use Rattle.omf_image.specs.Overlay.{Laid};
    ghost use Rattle.omf_image.specs.Inner.Sorted.{laid_runs, AreSorted};
    ghost use Rattle.std.specs.Prelude.{List};

    ghost Value = { List Laid };

    ghost view = { λ i. laid_runs i.runs.items };

    ghost invariant = { λ i. AreSorted 0 (laid_runs i.runs.items) };
}

impl Image {
    /// An empty image.
    pub fn new(alloc: Global) -> Image
        ensures { result ≡ [] }
    {
        Image {
            runs: Vec::new(alloc),
            near: 0,
        }
    }

    /// The byte at `offset` of `segment`, if one was laid there.
    pub fn get(&self, segment: u16, offset: u32) -> Option<u8>
        ensures { result ≡ byte_at self.now segment offset }
    {
        let at = ending_before(&self.runs, place_of(segment, offset) + 1);
        self.runs.get(at)?.byte(segment, offset)
    }

    /// The `k`th maximal covered interval of a segment, from 0 in ascending order; None after the last.
    pub fn run_at(&self, segment: u16, k: usize) -> Option<Run>
        ensures maximal { IsRunAt (byte_at self.now segment) k result }
        ensures within { IfSome result (λ run. run.first + run.len ≤ 2 ^ 32) }
    {
        Some(find_run(&self.runs, segment, k)?.run())
    }

    /// The bytes of the `k`th maximal covered interval of a segment, from 0 in ascending order; None after the last.
    pub fn run_bytes(&self, segment: u16, k: usize) -> Option<&[u8]>
        ensures { AreBytesAt (byte_at self.now segment) k (option_copied result) }
    {
        Some(find_run(&self.runs, segment, k)?.bytes.as_slice())
    }

    /// The first offset and the bytes of the `k`th maximal covered interval of a segment, from 0 in ascending order; None after the last.
    pub fn run_with_bytes(&self, segment: u16, k: usize) -> Option<(u32, &[u8])>
        ensures { IsRunShown (byte_at self.now segment) k (option_map (λ run. (run.0, run.1.now)) result) }
    {
        let run = find_run(&self.runs, segment, k)?;
        Some((run.first, run.bytes.as_slice()))
    }

    /// Lays `bytes` at `offset` of `segment`, over what was there. They must end within 2^32 bytes of the segment's start.
    ///
    /// A piece within one run is only written. A piece that touches no run, or joins several, moves the runs after it, and one that
    /// starts before a run that it touches copies the run's bytes. So n pieces in ascending order take about linear time; in descending
    /// order, or in gaps between others, quadratic. `painted` covers their places beforehand, so that each piece is within one run.
    ///
    /// # Errors
    ///
    /// `AllocError` if out of memory: the image is unchanged, and the bytes are dropped. Never where each place of the piece has a
    /// byte already.
    pub fn lay(&mut self, segment: u16, offset: u32, bytes: Vec<u8>) -> Result<(), AllocError>
        requires { offset + vec_len bytes ≤ 2 ^ 32 }
        ensures laid { OnOk result (IsLaidOver self.old (record { segment = segment; offset = offset; bytes = bytes.items }) self.new) }
        ensures unchanged { OnErr result (self.new ≡ self.old) }
        ensures full { OnErr result (IsCovered self.old (record { segment = segment; offset = offset; bytes = bytes.items }) → ⊥) }
    {
        if bytes.is_empty() {
            return Ok(());
        }
        self.lay_piece(Covered {
            segment,
            first: offset,
            bytes: SmallVec::from_vec(bytes),
        })
    }

    /// Lays zeros over an interval, as `lay`.
    pub(crate) fn lay_zeros(&mut self, alloc: Global, extent: Extent) -> Result<(), AllocError>
        requires { Fits extent }
        ensures { OnOk result (IsLaidOver self.old (zeros extent) self.new) }
    {
        if extent.len == 0 {
            return Ok(());
        }
        let bytes = zero_bytes(alloc, extent.len as usize)?;
        self.lay_piece(Covered {
            segment: extent.segment,
            first: extent.first,
            bytes,
        })
    }

    /// Lays a piece of some bytes, as `lay`.
    fn lay_piece(&mut self, piece: Covered) -> Result<(), AllocError>
        requires some { 0 < length piece.bytes.items }
        requires fits { piece.first + length piece.bytes.items ≤ 2 ^ 32 }
        ensures laid { OnOk result (IsLaidOver self.old (laid_run piece) self.new) }
        ensures unchanged { OnErr result (self.new ≡ self.old) }
        ensures full { OnErr result (IsCovered self.old (laid_run piece) → ⊥) }
    {
        let (start, count) = touched(&self.runs, self.near, &piece);
        self.near = start;
        if count > 0 {
            return join_runs(&mut self.runs, start, count, piece);
        }
        self.runs.insert(start, piece)?;
        Ok(())
    }
}
