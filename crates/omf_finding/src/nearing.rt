//! Segments that are nearly in a program.

ghost use Rattle.std.specs.Prelude.{◌≡◌, ◌++◌, [], ◌^◌, ◌+◌, ◌≤◌, ℕ, All, Contains, IfOk, Option, OnOk, length, option_to_list};
ghost use Rattle.std.specs.List.{AllZip};
ghost use Rattle.omf_finding.specs.Near.{AreNear, HasNear, differences, differing};
ghost use Rattle.omf_finding.specs.Inner.Nearing.{Adds, AreNearOf, IsBest, IsNearOf, IsShownBy, IsShownIn, IsShownOf, better, few_differences, one_more};
ghost use Rattle.omf_finding.specs.Inner.Shaping.{AreIntervals, AreWindows, IsMarked, IsWhole, is_kept};
ghost use Rattle.omf_finding.specs.Inner.Walking.{byte_in};
ghost use Rattle.omf_finding.specs.declared.patterning.PatternByte.{PatternByte};

use crate::closed::{ClosedByte, closed_bytes};
use crate::found::segment_count;
use crate::patterning::{Interval, Pattern, marked_pattern};
use crate::program::Program;
use crate::shapes::{Rare, address_for, count_closed, rare_at};
use crate::windows::{Counts, Windows};
use omf_check::Checked;
use std::alloc::{AllocError, Global};

/// The number of places from which on four bytes are too common to try a segment by them.
const TOO_MANY: usize = 64;

/// A closed byte of a segment where the program has another byte, or none.
#[derive(Clone, Copy)]
pub struct Difference {
    /// Its offset in the segment.
    pub offset: u32,
    /// The byte of the module's data.
    pub own: u8,
    /// The program's byte; `None` if the place is outside the program.
    pub there: Option<u8>,
}

/// A segment of a module, at the place where the fewest of its closed bytes differ from the program's.
#[derive(Drop)]
pub struct Near {
    /// The segment, from 1.
    pub segment: u16,
    /// Its address there.
    pub address: u32,
    /// The number of its closed bytes.
    pub closed: usize,
    /// Those that differ, in ascending order of offset; at least one.
    pub differences: Vec<Difference>,
}

/// An address of a segment, and how many of its closed bytes differ there.
#[derive(Clone, Copy)]
struct Place {
    address: u32,
    count: usize,
}

/// The difference at a closed byte of a segment at an address; `None` if the program has the same byte.
fn differing(program: &Program, address: u32, closed: ClosedByte) -> Option<Difference>
    ensures { result ≡ differing program.now.bytes.items program.now.base address closed }
{
    let there = program.byte(u64::from(address) + u64::from(closed.offset));
    match there {
        Some(byte) if byte == closed.value => None,
        _ => Some(Difference {
            offset: closed.offset,
            own: closed.value,
            there,
        }),
    }
}

/// The differences of a segment with these closed bytes at an address.
fn differences(
    alloc: Global,
    program: &Program,
    address: u32,
    closed: &[ClosedByte],
) -> Result<Vec<Difference>, AllocError>
    ensures { IfOk result (λ v. v.items ≡ differences program.now.bytes.items program.now.base address closed.now) }
{
    closed
        .iter()
        .filter_map(|byte| differing(program, address, *byte))
        .collect(alloc)
}

/// One more, if there is one and it is at most `most`.
fn one_more(count: usize, differs: bool, most: usize) -> Option<usize>
    ensures { result ≡ one_more most count differs }
{
    if !differs {
        return Some(count);
    }
    if count < most { Some(count + 1) } else { None }
}

/// The number of differences, if it is at most `most`.
fn few_differences(
    program: &Program,
    address: u32,
    closed: &[ClosedByte],
    most: usize,
) -> Option<usize>
    ensures { result ≡ few_differences most (length (differences program.now.bytes.items program.now.base address closed.now)) }
{
    let mut count = 0;
    for byte in closed {
        let differs = differing(program, address, *byte).is_some();
        count = one_more(count, differs, most)?;
    }
    Some(count)
}

/// The place with fewer differences, of the best one so far and an address with this number of them; `None` is more than any.
fn better(best: Option<Place>, address: u32, count: Option<usize>) -> Option<Place>
    ensures { result ≡ better best address count }
{
    let Some(count) = count else {
        return best;
    };
    match best {
        Some(place) if place.count <= count => best,
        _ => Some(Place { address, count }),
    }
}

/// The first of these addresses with the fewest differences, if these are at most `most`.
fn best_of(
    program: &Program,
    addresses: &[u32],
    closed: &[ClosedByte],
    most: usize,
) -> Option<Place>
    ensures { IsBest (λ a. length (differences program.now.bytes.items program.now.base a closed.now)) most addresses.now result }
{
    let mut best = None;
    for address in addresses {
        let count = few_differences(program, *address, closed, most);
        best = better(best, *address, count);
    }
    best
}

/// Each address once, in ascending order.
fn each_once(addresses: Vec<u32>) -> Vec<u32>
    ensures { (a : ℕ) → Contains addresses.items a → Contains result.items a }
{
    let mut addresses = addresses;
    addresses.sort_unstable();
    addresses.dedup();
    addresses
}

/// Appends an address, if there is one.
fn push_address(addresses: &mut Vec<u32>, address: Option<u32>) -> Result<(), AllocError>
    ensures { OnOk result (addresses.new.items ≡ addresses.old.items ++ option_to_list address) }
{
    if let Some(address) = address {
        addresses.push(address)?;
    }
    Ok(())
}

/// A program, with an index of its windows.
#[derive(Clone, Copy)]
struct Indexed<'a> {
    program: &'a Program,
    counts: &'a Counts,
    windows: &'a Windows,
}

impl<'a> Indexed<'a> {
    /// Appends the addresses at which a segment has these four closed bytes where the program has them; none if they are too common.
    fn push_shown(&self, addresses: &mut Vec<u32>, rare: Rare) -> Result<(), AllocError>
        requires { AreWindows (is_kept []) self.now.program.now.bytes.items self.now.windows.now.sorted.items }
        ensures { OnOk result (Adds (IsShownBy self.now.program.now.bytes.items self.now.program.now.base rare.key rare.offset) addresses.old.items addresses.new.items) }
    {
        let first = self.windows.first(rare.key);
        if self.windows.offset(first, TOO_MANY - 1, rare.key).is_some() {
            return Ok(());
        }
        for k in 0..TOO_MANY - 1 {
            let Some(at) = self.windows.offset(first, k, rare.key) else {
                return Ok(());
            };
            push_address(addresses, address_for(self.program.base, at, rare.offset))?;
        }
        Ok(())
    }

    /// The same for each four closed bytes in a row of an interval.
    fn push_interval(
        &self,
        addresses: &mut Vec<u32>,
        interval: Interval<'_>,
    ) -> Result<(), AllocError>
        requires windows { AreWindows (is_kept []) self.now.program.now.bytes.items self.now.windows.now.sorted.items }
        requires same { length interval.marks.now ≡ length interval.values.now }
        requires within { interval.first + length interval.values.now ≤ 2 ^ 32 }
        ensures { OnOk result (Adds (IsShownIn self.now.program.now.bytes.items self.now.program.now.base interval.entry (length interval.entry.values.now)) addresses.old.items addresses.new.items) }
    {
        for at in 0..interval.values.len() {
            if let Some(rare) = rare_at(self.counts, interval, at) {
                self.push_shown(addresses, rare)?;
            }
        }
        Ok(())
    }

    /// The addresses at which a segment is tried.
    fn tried(&self, alloc: Global, intervals: &[Interval<'_>]) -> Result<Vec<u32>, AllocError>
        requires windows { AreWindows (is_kept []) self.now.program.now.bytes.items self.now.windows.now.sorted.items }
        requires whole { All IsWhole intervals.now }
        ensures { IfOk result (λ v. (a : ℕ) → IsShownOf self.now.program.now.bytes.items self.now.program.now.base intervals.now a → Contains v.items a) }
    {
        let mut addresses = Vec::new(alloc);
        for interval in intervals {
            self.push_interval(&mut addresses, *interval)?;
        }
        Ok(each_once(addresses))
    }

    /// A segment with these intervals at the place where the fewest of its closed bytes differ. `None` if none differs, or more than `most`.
    fn near_segment(
        &self,
        alloc: Global,
        segment: u16,
        intervals: &[Interval<'_>],
        most: usize,
    ) -> Result<Option<Near>, AllocError>
        requires windows { AreWindows (is_kept []) self.now.program.now.bytes.items self.now.windows.now.sorted.items }
        requires whole { All IsWhole intervals.now }
        ensures { IfOk result (λ r. (byte : ℕ → Option PatternByte) → AreIntervals byte intervals.now → IsNearOf byte self.now.program.now most segment r) }
    {
        let closed = closed_bytes(alloc, intervals, count_closed(intervals))?;
        let addresses = self.tried(alloc, intervals)?;
        let Some(place) = best_of(self.program, &addresses, &closed, most) else {
            return Ok(None);
        };
        if place.count == 0 {
            return Ok(None);
        }
        Ok(Some(Near {
            segment,
            address: place.address,
            closed: closed.len(),
            differences: differences(alloc, self.program, place.address, &closed)?,
        }))
    }

    /// The segments of a module with a pattern, of which it has this many, that are nearly in the program.
    fn near_segments(
        &self,
        alloc: Global,
        pattern: &Pattern,
        count: u16,
        most: usize,
    ) -> Result<Vec<Near>, AllocError>
        requires windows { AreWindows (is_kept []) self.now.program.now.bytes.items self.now.windows.now.sorted.items }
        requires marked { IsMarked pattern.now }
        ensures { IfOk result (λ v. AreNearOf (byte_in pattern.now) self.now.program.now most count v.items) }
    {
        let mut nears = Vec::new(alloc);
        for index in 0..count {
            let segment = index + 1;
            let intervals = pattern.intervals(alloc, segment)?;
            push_near(
                &mut nears,
                self.near_segment(alloc, segment, &intervals, most)?,
            )?;
        }
        Ok(nears)
    }

    /// The segments of a module that are nearly in the program.
    fn near_module(
        &self,
        alloc: Global,
        module: &Checked,
        most: usize,
    ) -> Result<Vec<Near>, AllocError>
        requires { AreWindows (is_kept []) self.now.program.now.bytes.items self.now.windows.now.sorted.items }
        ensures { IfOk result (λ v. AreNear self.now.program.now most «module».now v.items) }
    {
        let count = segment_count(module);
        let pattern = marked_pattern(alloc, module)?;
        self.near_segments(alloc, &pattern, count, most)
    }
}

/// Appends a segment, if there is one.
fn push_near(nears: &mut Vec<Near>, near: Option<Near>) -> Result<(), AllocError>
    ensures { OnOk result (nears.new.items ≡ nears.old.items ++ option_to_list near) }
{
    if let Some(near) = near {
        nears.push(near)?;
    }
    Ok(())
}

/// The segments of each module that are nearly in a program: at the place where the fewest of the segment's closed bytes differ from the
/// program's, at least one and at most `most` of them differ. A place is tried if four closed bytes in a row of the segment are the program's
/// there, and these four are at fewer than 64 places of the program. The program must end within the 2^32 addresses that there are.
///
/// # Errors
///
/// `AllocError` if out of memory.
pub fn nearest(
    alloc: Global,
    modules: &[Checked],
    program: &Program,
    most: usize,
) -> Result<Vec<Vec<Near>>, AllocError>
    ensures { IfOk result (λ v. AllZip (HasNear program.now most) modules.now v.items) }
{
    let counts = Counts::none(alloc);
    let windows = Windows::all(alloc, &program.bytes)?;
    let indexed = Indexed {
        program,
        counts: &counts,
        windows: &windows,
    };
    let mut nears = Vec::new(alloc);
    for module in modules {
        nears.push(indexed.near_module(alloc, module, most)?)?;
    }
    Ok(nears)
}
