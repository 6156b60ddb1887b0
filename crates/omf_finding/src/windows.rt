//! Where each four bytes are in a program.

ghost use Rattle.std.specs.Prelude.{◌≡◌, ◌<◌, ◌≤◌, ◌+◌, ◌*◌, ◌^◌, [], ℕ, drop, length, get_or, slice_get, IfOk};
ghost use Rattle.omf_finding.specs.Inner.Shaping.{AreWindows, HasWindows, OnlyWindows, bucket_of, front, is_kept, offset_in, window_at};
ghost use Rattle.std.specs.List.Sorted.{IsNonDecreasing, IsPermutation};

use std::alloc::{AllocError, Global};

/// The number of buckets.
pub(crate) const BUCKETS: usize = 1 << 18;

/// The number of counts: one for four buckets.
const COUNTS: usize = BUCKETS / 4;

/// 2 to the power of 32.
const STEP: u64 = 1 << 32;

/// How many windows of four bytes a program has, about.
#[derive(Drop)]
pub(crate) struct Counts {
    /// How many windows have bytes of each four buckets.
    counts: Vec<u32>,
}

/// The windows of four bytes of a program.
#[derive(Drop)]
pub(crate) struct Windows {
    /// Each window's bytes, as a little-endian number, times 2^32, plus its offset; in ascending order.
    pub(crate) sorted: Vec<u64>,
    /// Of which buckets the windows are here; empty if they are of all.
    pub(crate) marks: Vec<bool>,
}

/// The bucket of four bytes.
pub(crate) fn bucket_of(key: u32) -> usize
    ensures { result ≡ bucket_of key }
{
    (u64::from(key) * 2_654_435_761 % STEP / (1 << 14)) as usize
}

/// Whether the windows with these bytes are kept, where these buckets are marked.
fn is_kept(marks: &[bool], key: u32) -> bool
    ensures { result ≡ is_kept marks.now key }
{
    marks.get(bucket_of(key)).copied().unwrap_or(true)
}

/// The first four bytes as a little-endian number.
pub(crate) fn front(bytes: &[u8]) -> Option<u32>
    ensures { result ≡ front bytes.now }
{
    match bytes {
        [a, b, c, d, ..] => Some(u32::from_le_bytes([*a, *b, *c, *d])),
        _ => None,
    }
}

/// The window at an offset, if it is kept: its bytes and the offset in one number.
fn window_at(program: &[u8], marks: &[bool], at: u32) -> Option<u64>
    requires { at < length program.now }
    ensures { result ≡ window_at (is_kept marks.now) program.now at }
{
    match front(&program[at as usize..]) {
        Some(key) => {
            if is_kept(marks, key) {
                Some(u64::from(key) * STEP + u64::from(at))
            } else {
                None
            }
        }
        None => None,
    }
}

/// The windows of a program that are kept, in ascending order of offset. Those from 2^32 on are left out. There is room for `room` of them at
/// once.
fn all_windows(
    alloc: Global,
    program: &[u8],
    marks: &[bool],
    room: usize,
) -> Result<Vec<u64>, AllocError>
    ensures has { IfOk result (λ v. HasWindows (is_kept marks.now) program.now v.items (length program.now)) }
    ensures only { IfOk result (λ v. OnlyWindows program.now v.items (length program.now)) }
{
    let mut windows = Vec::with_capacity(alloc, room)?;
    for at in 0..program.len() {
        if let Ok(offset) = u32::try_from(at) {
            if let Some(window) = window_at(program, marks, offset) {
                windows.push(window)?;
            }
        }
    }
    Ok(windows)
}

/// Numbers in ascending order.
fn ascending(windows: Vec<u64>) -> Vec<u64>
    ensures same { IsPermutation windows.items result.items }
    ensures rises { IsNonDecreasing result.items }
{
    let mut windows = windows;
    windows.sort_unstable();
    windows
}

/// The windows from a number on.
#[tactic(auto, using(std::proofs::lemmas::List::drop_min))]
fn windows_from(windows: &[u64], first: usize) -> &[u64]
    ensures { result.now ≡ drop first windows.now }
{
    windows.split_at(first.min(windows.len())).1
}

/// The k-th window from a number on; `None` after the last.
fn window_after(windows: &[u64], first: usize, k: usize) -> Option<u64>
    ensures { result ≡ slice_get windows.now (first + k) }
{
    windows_from(windows, first).get(k).copied()
}

impl Counts {
    /// None are counted.
    pub(crate) fn none(alloc: Global) -> Counts {
        Counts {
            counts: Vec::new(alloc),
        }
    }

    /// Those of a program.
    pub(crate) fn of(alloc: Global, program: &[u8]) -> Result<Counts, AllocError> {
        let mut counts = vec![in alloc; 0; COUNTS]?;
        for at in 0..program.len() {
            if let Some(key) = front(&program[at..]) {
                if let Some(count) = counts.get_mut(bucket_of(key) / 4) {
                    *count = u32::saturating_add(*count, 1);
                }
            }
        }
        Ok(Counts { counts })
    }

    /// About how many windows have these bytes.
    pub(crate) fn count(&self, key: u32) -> u32 {
        self.counts.get(bucket_of(key) / 4).copied().unwrap_or(0)
    }
}

impl Windows {
    /// The windows of a program in the buckets that are marked.
    pub(crate) fn of(alloc: Global, program: &[u8], marks: Vec<bool>) -> Result<Windows, AllocError>
        ensures windows { IfOk result (λ w. AreWindows (is_kept w.marks.items) program.now w.sorted.items) }
        ensures marks { IfOk result (λ w. w.marks.items ≡ marks.items) }
    {
        let room = if marks.is_empty() { program.len() } else { 0 };
        let sorted = ascending(all_windows(alloc, program, &marks, room)?);
        Ok(Windows { sorted, marks })
    }

    /// All windows of a program.
    pub(crate) fn all(alloc: Global, program: &[u8]) -> Result<Windows, AllocError>
        ensures windows { IfOk result (λ w. AreWindows (is_kept []) program.now w.sorted.items) }
        ensures marks { IfOk result (λ w. w.marks.items ≡ []) }
    {
        Windows::of(alloc, program, Vec::new(alloc))
    }

    /// Whether all windows with these bytes are here.
    pub(crate) fn has(&self, key: u32) -> bool
        ensures { result ≡ is_kept self.now.marks.items key }
    {
        is_kept(&self.marks, key)
    }

    /// The number of the first window with these bytes, or of the one after it.
    pub(crate) fn first(&self, key: u32) -> usize
        requires { IsNonDecreasing self.now.sorted.items }
        ensures before { (k d : ℕ) → k < result → get_or self.now.sorted.items k d < key * 2 ^ 32 }
        ensures after { (k d : ℕ) → result ≤ k → k < length self.now.sorted.items → key * 2 ^ 32 ≤ get_or self.now.sorted.items k d }
    {
        let least = u64::from(key) * STEP;
        self.sorted.partition_point(|window| *window < least)
    }

    /// The offset of the k-th window from a number on, if it has these bytes.
    pub(crate) fn offset(&self, first: usize, k: usize, key: u32) -> Option<u32>
        ensures { result ≡ offset_in self.now.sorted.items (first + k) key }
    {
        let window = window_after(&self.sorted, first, k)?;
        let least = u64::from(key) * STEP;
        if least <= window && window - least < STEP {
            Some((window - least) as u32)
        } else {
            None
        }
    }
}
