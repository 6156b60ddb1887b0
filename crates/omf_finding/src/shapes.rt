//! The segments of modules, and the places of a program where their closed bytes are.

ghost use Rattle.std.specs.Prelude.{◌≡◌, ◌⊎◌, ◌+◌, ◌-◌, ◌++◌, ◌∷◌, [], ◌<◌, ◌≤◌, ◌^◌, ◌==◌, ◌&&◌, ℕ, All, flat_map, length, min, nat_lt, false, not, true, Option, None, IfOk, IfSome, OnOk};
ghost use Rattle.std.specs.List.{AllZip};
ghost use Rattle.omf_finding.specs.Finding.{IsCut};
ghost use Rattle.omf_finding.specs.Inner.Measuring.{IsExtent, closed_in, fresh_at, fresh_in};
ghost use Rattle.omf_finding.specs.Inner.Surely.{is_whole};
ghost use Rattle.omf_finding.specs.Inner.Walking.{byte_in};
ghost use Rattle.omf_finding.specs.Inner.Shaping.{AreIntervals, ArePlaces, AreShapes, AreWindows, HasNone, HasShapes, HaveShapes, IsMarked, IsRareAt, IsRareIn, IsRareOf, IsShape, IsWhole, address_for, cell_agrees, cells_agree, closed_front, interval_agrees, is_at, is_kept, key_at, offset_in, run_agrees, tried_with};
ghost use Rattle.omf_finding.specs.declared.patterning.PatternByte.{PatternByte};

use crate::closed::{ClosedByte, closed_at, closed_bytes};
use crate::patterning::{Interval, Pattern, marked_pattern};
use crate::program::Program;
use crate::wanting::wanted;
use crate::windows::{Counts, Windows, front};
use omf_check::Checked;
use std::alloc::{AllocError, Global};

/// The number of windows with the same bytes that are tried at most.
const MOST_TRIED: usize = 64;

/// The number of bytes that are compared at once.
const CHUNK: usize = 16;

/// The address after the last one of real mode.
const END_OF_MEMORY: u32 = 1 << 20;

/// A segment of a module, and the places of a program where its closed bytes are.
#[derive(Drop)]
pub(crate) struct Shape {
    /// The segment, from 1.
    pub(crate) segment: u16,
    /// The number of its closed bytes.
    pub(crate) closed: usize,
    /// How many of these differ from the one before, if it is at one place of the program.
    pub(crate) varied: usize,
    /// The offset of its first byte of data.
    first: u32,
    /// The offset after its last byte of data; 0 if it has none.
    end: u64,
    /// Whether four of its closed bytes are in a row, so that it is searched for.
    pub(crate) is_searched: bool,
    /// The places where its data are inside the program and its closed bytes are the program's, in ascending order; none if it is not
    /// searched for.
    pub(crate) places: Vec<u32>,
    /// Whether there may be others.
    pub(crate) more: bool,
    /// Its closed bytes, each with its offset, if it is not searched for.
    few: Vec<ClosedByte>,
}

/// Four closed bytes in a row.
#[derive(Clone, Copy, Drop)]
pub(crate) struct Rare {
    /// About how many places of the program have them.
    count: u32,
    /// Their little-endian number.
    pub(crate) key: u32,
    /// The offset of the first in the segment.
    pub(crate) offset: u32,
}

/// What a window shows of a segment.
#[derive(Clone, Copy)]
pub(crate) enum Tried {
    /// It has other bytes: all windows with those that are searched for were tried.
    End,
    /// The segment is not there.
    Other,
    /// The segment is there, at this address.
    Place(u32),
}

/// The rarer one.
fn rarer(found: Option<Rare>, one: Option<Rare>) -> Option<Rare>
    ensures either { (result ≡ found) ⊎ (result ≡ one) }
    ensures none { result ≡ None → (found ≡ None) × (one ≡ None) }
{
    match found {
        Some(first) => match one {
            Some(second) if second.count < first.count => one,
            _ => found,
        },
        None => one,
    }
}

/// Whether none is rarer, since no window has these four bytes.
fn is_rarest(rare: Option<Rare>) -> bool
    ensures { rare ≡ None → result ≡ false }
{
    match rare {
        Some(rare) => rare.count == 0,
        None => false,
    }
}

/// A mark of a closed byte.
fn is_closed(mark: u8) -> bool
    ensures { result ≡ not (mark == 1) }
{
    mark != 1
}

/// The first four bytes, as a little-endian number, if all of them are closed.
fn closed_front(values: &[u8], marks: &[u8]) -> Option<u32>
    ensures { result ≡ closed_front values.now marks.now }
{
    match marks {
        [a, b, c, d, ..] => {
            if is_closed(*a) && is_closed(*b) && is_closed(*c) && is_closed(*d) {
                front(values)
            } else {
                None
            }
        }
        _ => None,
    }
}

/// The four closed bytes in a row at an index of an interval, if there are any.
pub(crate) fn rare_at(counts: &Counts, interval: Interval<'_>, at: usize) -> Option<Rare>
    requires same { length interval.marks.now ≡ length interval.values.now }
    requires within { interval.first + length interval.values.now ≤ 2 ^ 32 }
    requires low { at < length interval.values.now }
    ensures some { IfSome result (λ r. IsRareAt interval.entry r at) }
    ensures none { result ≡ None → key_at interval.entry at ≡ None }
{
    match closed_front(&interval.values[at..], &interval.marks[at..]) {
        Some(key) => Some(Rare {
            count: counts.count(key),
            key,
            offset: interval.first + at as u32,
        }),
        None => None,
    }
}

/// The rarest four closed bytes in a row of an interval.
fn rarest_in(counts: &Counts, interval: Interval<'_>) -> Option<Rare>
    requires same { length interval.marks.now ≡ length interval.values.now }
    requires within { interval.first + length interval.values.now ≤ 2 ^ 32 }
    ensures some { IfSome result (IsRareIn interval.entry) }
    ensures none { result ≡ None → HasNone interval.entry }
{
    let mut rarest = None;
    for at in 0..interval.values.len() {
        rarest = rarer(rarest, rare_at(counts, interval, at));
        if is_rarest(rarest) {
            return rarest;
        }
    }
    rarest
}

/// The rarest four closed bytes in a row of a segment.
pub(crate) fn rarest_of(counts: &Counts, intervals: &[Interval<'_>]) -> Option<Rare>
    requires { All IsWhole intervals.now }
    ensures some { IfSome result (IsRareOf intervals.now) }
    ensures none { result ≡ None → All HasNone intervals.now }
{
    let mut rarest = None;
    for interval in intervals {
        rarest = rarer(rarest, rarest_in(counts, *interval));
        if is_rarest(rarest) {
            return rarest;
        }
    }
    rarest
}

/// Whether a byte of a segment agrees with a byte of a program.
fn cell_agrees(value: u8, mark: u8, byte: u8) -> bool
    ensures { result ≡ cell_agrees value mark byte }
{
    mark == 1 || value == byte
}

/// 16 bytes agree with those beside them of a program, but for those that are marked as open. All are looked at, so that the processor
/// compares many at once.
fn chunk_agrees(values: &[u8], marks: &[u8], program: &[u8]) -> bool
    requires values { length values.now ≡ 16 }
    requires marks { length marks.now ≡ 16 }
    requires program { length program.now ≡ 16 }
    ensures { result ≡ cells_agree values.now marks.now program.now }
{
    let mut agree = true;
    for at in 0..CHUNK {
        let same = cell_agrees(values[at], marks[at], program[at]);
        agree = agree & same;
    }
    agree
}

/// Bytes agree with those beside them of a program, but for those that are marked as open, as far as there are both:
/// one after another.
fn few_agree(values: &[u8], marks: &[u8], program: &[u8]) -> bool
    ensures { result ≡ cells_agree values.now marks.now program.now }
{
    let count = values.len().min(marks.len()).min(program.len());
    for at in 0..count {
        if !cell_agrees(values[at], marks[at], program[at]) {
            return false;
        }
    }
    true
}

/// Whether there are enough bytes of each to compare many at once.
fn have_chunks(values: &[u8], marks: &[u8], program: &[u8]) -> bool
    ensures values { result ≡ true → 16 ≤ length values.now }
    ensures marks { result ≡ true → 16 ≤ length marks.now }
    ensures program { result ≡ true → 16 ≤ length program.now }
{
    CHUNK <= values.len() && CHUNK <= marks.len() && CHUNK <= program.len()
}

/// The same, many at once as long as there are enough.
fn cells_agree(values: &[u8], marks: &[u8], program: &[u8]) -> bool
    ensures { result ≡ cells_agree values.now marks.now program.now }
{
    let mut left = values;
    let mut left_marks = marks;
    let mut there = program;
    while have_chunks(left, left_marks, there) {
        let (own, after) = left.split_at(CHUNK);
        let (own_marks, marks_after) = left_marks.split_at(CHUNK);
        let (bytes, bytes_after) = there.split_at(CHUNK);
        if !chunk_agrees(own, own_marks, bytes) {
            return false;
        }
        left = after;
        left_marks = marks_after;
        there = bytes_after;
    }
    few_agree(left, left_marks, there)
}

/// The same, and the program has as many.
fn run_agrees(values: &[u8], marks: &[u8], program: &[u8]) -> bool
    ensures { result ≡ run_agrees values.now marks.now program.now }
{
    values.len() <= program.len() && cells_agree(values, marks, program)
}

/// An interval of a segment at this address agrees with the program.
fn interval_agrees(program: &Program, address: u32, interval: Interval<'_>) -> bool
    ensures { result ≡ interval_agrees program.now.bytes.items program.now.base address interval.entry }
{
    let start = u64::from(address) + u64::from(interval.first);
    run_agrees(interval.values, interval.marks, program.bytes_from(start))
}

/// The data of a segment at this address are inside the program, and its closed bytes are the program's.
pub(crate) fn is_at(program: &Program, intervals: &[Interval<'_>], address: u32) -> bool
    ensures { result ≡ is_at program.now.bytes.items program.now.base intervals.now address }
{
    intervals
        .iter()
        .all(|interval| interval_agrees(program, address, *interval))
}

/// The number of closed bytes of an interval.
fn closed_in(interval: Interval<'_>) -> usize
    requires { length interval.marks.now ≡ length interval.values.now }
    ensures { result ≡ length (closed_in interval.entry) }
{
    let mut closed: usize = 0;
    for at in 0..interval.marks.len() {
        if is_closed(interval.marks[at]) {
            closed += 1;
        }
    }
    closed
}

/// Whether the byte at an index of an interval is closed, and not the same as a closed one before it.
fn is_fresh(interval: Interval<'_>, at: usize) -> bool
    requires { interval.first + length interval.values.now ≤ 2 ^ 32 }
    ensures { result ≡ fresh_at interval.entry at }
{
    let Some(own) = closed_at(interval, at) else {
        return false;
    };
    if at == 0 {
        return true;
    }
    match closed_at(interval, at - 1) {
        Some(before) => before.value != own.value,
        None => true,
    }
}

/// How many closed bytes of an interval differ from the one before.
fn varied_in(interval: Interval<'_>) -> usize
    requires { interval.first + length interval.values.now ≤ 2 ^ 32 }
    ensures { result ≡ length (fresh_in interval.entry) }
{
    let mut varied: usize = 0;
    for at in 0..interval.values.len() {
        if is_fresh(interval, at) {
            varied += 1;
        }
    }
    varied
}

/// How many closed bytes differ from the one before.
fn count_varied(intervals: &[Interval<'_>]) -> usize
    requires { All IsWhole intervals.now }
    ensures { result ≡ min (length (flat_map fresh_in intervals.now)) (2 ^ 64 - 1) }
{
    let mut varied: usize = 0;
    for interval in intervals {
        varied = varied.saturating_add(varied_in(*interval));
    }
    varied
}

/// The same of a segment with one place; 0 of others, where it is not needed.
fn varied_at(places: &[u32], intervals: &[Interval<'_>]) -> usize
    requires { All IsWhole intervals.now }
    ensures { length places.now ≡ 1 → result ≡ min (length (flat_map fresh_in intervals.now)) (2 ^ 64 - 1) }
{
    match places {
        [_] => count_varied(intervals),
        _ => 0,
    }
}

/// The number of closed bytes.
pub(crate) fn count_closed(intervals: &[Interval<'_>]) -> usize
    requires { All IsWhole intervals.now }
    ensures { result ≡ min (length (flat_map closed_in intervals.now)) (2 ^ 64 - 1) }
{
    let mut closed: usize = 0;
    for interval in intervals {
        closed = closed.saturating_add(closed_in(*interval));
    }
    closed
}

/// The offset of the first byte of data, and the offset after the last; 0 after the last if there is none.
fn extent(intervals: &[Interval<'_>]) -> (u32, u64)
    requires { All IsWhole intervals.now }
    ensures { (byte : ℕ → Option PatternByte) → AreIntervals byte intervals.now → IsExtent byte result.0 result.1 }
{
    match (intervals.first(), intervals.last()) {
        (Some(first), Some(last)) => (
            first.first,
            u64::from(last.first) + last.values.len() as u64,
        ),
        _ => (u32::MAX, 0),
    }
}

/// Whether none of a module's segments is nowhere in the program.
pub(crate) fn is_whole(shapes: &[Shape]) -> bool
    ensures { result ≡ is_whole shapes.now }
{
    for shape in shapes {
        if shape.is_nowhere() {
            return false;
        }
    }
    true
}

/// Appends a place. The first one takes memory for all that there may be.
fn push_place(places: &mut Vec<u32>, address: u32, room: usize) -> Result<(), AllocError>
    ensures { OnOk result (places.new.items ≡ places.old.items ++ address ∷ []) }
{
    if places.is_empty() {
        places.reserve_exact(room)?;
    }
    places.push(address)?;
    Ok(())
}

/// A program, with an index of its windows.
#[derive(Drop)]
struct Indexed<'a> {
    program: &'a Program,
    counts: &'a Counts,
    windows: Windows,
    /// The number of places that are listed of a segment at most.
    most: usize,
}

/// The address of a segment whose byte at `offset` is `at` bytes after `base`; `None` if it would begin below 0, or the byte is past the last
/// address.
pub(crate) fn address_for(base: u32, at: u32, offset: u32) -> Option<u32>
    ensures { result ≡ address_for base at offset }
{
    base.checked_add(at)?.checked_sub(offset)
}

impl<'a> Indexed<'a> {
    /// What the k-th window from a number on shows of a segment with these four closed bytes.
    fn tried(&self, intervals: &[Interval<'_>], rare: Rare, first: usize, k: usize) -> Tried
        ensures { result ≡ tried_with (is_at self.now.program.now.bytes.items self.now.program.now.base intervals.now) self.now.program.now.base rare.offset (offset_in self.now.windows.sorted.items (first + k) rare.key) }
    {
        match self.windows.offset(first, k, rare.key) {
            Some(at) => match address_for(self.program.base, at, rare.offset) {
                Some(address) if is_at(self.program, intervals, address) => Tried::Place(address),
                _ => Tried::Other,
            },
            None => Tried::End,
        }
    }

    /// The places of a segment with these four closed bytes, and whether there may be more.
    fn places_of(
        &self,
        alloc: Global,
        intervals: &[Interval<'_>],
        rare: Rare,
    ) -> Result<(Vec<u32>, bool), AllocError>
        requires windows { AreWindows (is_kept self.now.windows.marks.items) self.now.program.now.bytes.items self.now.windows.sorted.items }
        requires kept { is_kept self.now.windows.marks.items rare.key ≡ true }
        requires rare { IsRareOf intervals.now rare }
        ensures places { IfOk result (λ r. (byte : ℕ → Option PatternByte) → AreIntervals byte intervals.now → ArePlaces byte self.now.program.now.bytes.items self.now.program.now.base r.0.items r.1) }
        ensures cut { IfOk result (λ r. (byte : ℕ → Option PatternByte) → AreIntervals byte intervals.now → r.1 ≡ true → IsCut byte self.now.program.now.bytes.items self.now.program.now.base self.now.most r.0.items) }
    {
        let mut places = Vec::new(alloc);
        let first = self.windows.first(rare.key);
        let room = self.most.min(rare.count as usize);
        for k in 0..MOST_TRIED {
            match self.tried(intervals, rare, first, k) {
                Tried::End => return Ok((places, false)),
                Tried::Other => {}
                Tried::Place(address) => {
                    if places.len() >= self.most {
                        return Ok((places, true));
                    }
                    push_place(&mut places, address, room)?;
                }
            }
        }
        Ok((places, true))
    }

    /// The same, also where the windows with these bytes are not kept: then all windows are sorted. `wanted` marks the bytes of each segment, so
    /// this is not reached.
    fn places(
        &self,
        alloc: Global,
        intervals: &[Interval<'_>],
        rare: Rare,
    ) -> Result<(Vec<u32>, bool), AllocError>
        requires windows { AreWindows (is_kept self.now.windows.marks.items) self.now.program.now.bytes.items self.now.windows.sorted.items }
        requires rare { IsRareOf intervals.now rare }
        ensures places { IfOk result (λ r. (byte : ℕ → Option PatternByte) → AreIntervals byte intervals.now → ArePlaces byte self.now.program.now.bytes.items self.now.program.now.base r.0.items r.1) }
        ensures cut { IfOk result (λ r. (byte : ℕ → Option PatternByte) → AreIntervals byte intervals.now → r.1 ≡ true → IsCut byte self.now.program.now.bytes.items self.now.program.now.base self.now.most r.0.items) }
    {
        if self.windows.has(rare.key) {
            return self.places_of(alloc, intervals, rare);
        }
        let windows = Windows::all(alloc, &self.program.bytes)?;
        let indexed = Indexed {
            program: self.program,
            counts: self.counts,
            windows,
            most: self.most,
        };
        indexed.places_of(alloc, intervals, rare)
    }

    /// A segment of a module, with its places.
    fn shape(
        &self,
        alloc: Global,
        segment: u16,
        intervals: &[Interval<'_>],
    ) -> Result<Shape, AllocError>
        requires windows { AreWindows (is_kept self.now.windows.marks.items) self.now.program.now.bytes.items self.now.windows.sorted.items }
        requires whole { All IsWhole intervals.now }
        ensures shape { IfOk result (λ s. (byte : ℕ → Option PatternByte) → AreIntervals byte intervals.now → IsShape byte self.now.program.now.bytes.items self.now.program.now.base self.now.most s) }
        ensures segment { IfOk result (λ s. s.segment ≡ segment) }
    {
        let (first, end) = extent(intervals);
        let closed = count_closed(intervals);
        match rarest_of(self.counts, intervals) {
            Some(rare) => {
                let (places, more) = self.places(alloc, intervals, rare)?;
                let varied = varied_at(&places, intervals);
                Ok(Shape {
                    segment,
                    closed,
                    varied,
                    first,
                    end,
                    is_searched: true,
                    places,
                    more,
                    few: Vec::new(alloc),
                })
            }
            None => {
                let few = closed_bytes(alloc, intervals, closed)?;
                Ok(Shape {
                    segment,
                    closed,
                    varied: 0,
                    first,
                    end,
                    is_searched: false,
                    places: Vec::new(alloc),
                    more: true,
                    few,
                })
            }
        }
    }

    /// The segments of a module with a pattern, of which it has this many.
    fn pattern_shapes(
        &self,
        alloc: Global,
        pattern: &Pattern,
        count: u16,
    ) -> Result<Vec<Shape>, AllocError>
        requires windows { AreWindows (is_kept self.now.windows.marks.items) self.now.program.now.bytes.items self.now.windows.sorted.items }
        requires marked { IsMarked pattern.now }
        ensures { IfOk result (λ v. AreShapes (byte_in pattern.now) self.now.program.now.bytes.items self.now.program.now.base self.now.most count v.items) }
    {
        let mut shapes = Vec::with_capacity(alloc, usize::from(count))?;
        for index in 0..count {
            let segment = index + 1;
            let intervals = pattern.intervals(alloc, segment)?;
            shapes.push(self.shape(alloc, segment, &intervals)?)?;
        }
        Ok(shapes)
    }

    /// The segments of a module.
    fn module_shapes(&self, alloc: Global, module: &Checked) -> Result<Vec<Shape>, AllocError>
        requires { AreWindows (is_kept self.now.windows.marks.items) self.now.program.now.bytes.items self.now.windows.sorted.items }
        ensures { IfOk result (λ v. HaveShapes self.now.program.now self.now.most «module».now v.items) }
    {
        let pattern = marked_pattern(alloc, module)?;
        self.pattern_shapes(alloc, &pattern, module.segments())
    }
}

/// The segments of each module.
pub(crate) fn shapes_of(
    alloc: Global,
    modules: &[Checked],
    program: &Program,
    most: usize,
) -> Result<Vec<Vec<Shape>>, AllocError>
    ensures { IfOk result (λ v. AllZip (HasShapes program.now most) modules.now v.items) }
{
    let counts = Counts::of(alloc, &program.bytes)?;
    let marks = wanted(alloc, modules, program.bytes.len(), &counts)?;
    let indexed = Indexed {
        program,
        counts: &counts,
        windows: Windows::of(alloc, &program.bytes, marks)?,
        most,
    };
    let mut shapes = Vec::with_capacity(alloc, modules.len())?;
    for module in modules {
        shapes.push(indexed.module_shapes(alloc, module)?)?;
    }
    Ok(shapes)
}

impl Shape {
    /// Whether it has data.
    pub(crate) fn has_data(&self) -> bool
        ensures { result ≡ nat_lt 0 self.now.end }
    {
        self.end > 0
    }

    /// Whether it is searched for, and is nowhere in the program.
    pub(crate) fn is_nowhere(&self) -> bool
        ensures { result ≡ (self.now.is_searched && (length self.now.places.items == 0 && not self.now.more)) }
    {
        self.is_searched && self.places.is_empty() && !self.more
    }

    /// Its only place; `None` if it has none, or may have more.
    pub(crate) fn single_place(&self) -> Option<u32>
        ensures some { IfSome result (λ a. (self.now.places.items ≡ a ∷ []) × (self.now.more ≡ false)) }
        ensures none { result ≡ None → self.now.more ≡ false → length self.now.places.items ≡ 1 → ⊥ }
    {
        match (self.places.as_slice(), self.more) {
            ([address], false) => Some(*address),
            _ => None,
        }
    }

    /// The addresses of its data, where it is at this address: of the first byte, and the one after the last.
    pub(crate) fn extent(&self, address: u32) -> (u64, u64)
        ensures { result ≡ (address + self.now.first, min (address + self.now.end) (2 ^ 64 - 1)) }
    {
        let address = u64::from(address);
        (
            address + u64::from(self.first),
            address.saturating_add(self.end),
        )
    }

    /// Whether all its data would be inside the program.
    fn is_inside(&self, program: &Program, address: u32) -> bool {
        let address = u64::from(address);
        let base = u64::from(program.base);
        base <= address + u64::from(self.first)
            && address.saturating_add(self.end) <= base.saturating_add(program.bytes.len() as u64)
    }

    /// Its few closed bytes are the program's at an address.
    fn few_agree(&self, program: &Program, address: u32) -> bool {
        self.few.iter().all(|closed| program.byte(u64::from(address) + u64::from(closed.offset))
            == Some(closed.value))
    }

    /// Whether it may be at an address: of a segment whose places are all known, whether this is one of them.
    pub(crate) fn fits(&self, program: &Program, address: u32) -> bool {
        if address >= END_OF_MEMORY {
            return false;
        }
        if !self.has_data() {
            return address >= program.base;
        }
        if self.is_searched && !self.more {
            return self.places.binary_search(&address).is_ok();
        }
        self.is_inside(program, address) && self.few_agree(program, address)
    }
}
