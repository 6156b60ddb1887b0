//! What the lines of a locator's text give the modules.

ghost use Rattle.std.specs.Prelude.{◌≡◌, ◌<◌, ◌≤◌, ◌^◌, [], Err, IfErr, IfOk, List, Some, length, map, option_map, slice_get};
ghost use Rattle.omf_check.specs.Module.{recs_of, typed_modules};
ghost use Rattle.omf_records.specs.Inner.Seen.{map_ok};
ghost use Rattle.omf_records.specs.Values.{Rec as Records};
ghost use Rattle.omf_reloc.specs.Reach.{entries};
ghost use Rattle.omf_linking.specs.Inner.LineParsing.{key_seen, parts_seen, seen, target_seen, told_seen};
ghost use Rattle.omf_linking.specs.Inner.Parting.{IsLow, gift_seen, parts_laid};
ghost use Rattle.omf_linking.specs.Inner.Walking.{AreLines, IsTaken};
ghost use Rattle.omf_linking.specs.Locator.Items.{Given, Item, all_items, alone, gift_item, items_after, items_of, kind_of, laid_items, settled, told_kind, unless_again};
ghost use Rattle.omf_linking.specs.Locator.LinkEntries.{Frames, Gives as Entry, Lays, Opens, link_lines};
ghost use Rattle.omf_linking.specs.Locator.Sparse.{IsOutcome};
ghost use Rattle.omf_linking.specs.Locator.Sparse.{bad_lines, sparse, sparse_all};
ghost use Rattle.omf_linking.specs.declared.locator.fault.LocatorFault.TheVariants.{Line, Memory};

use crate::locator::entry::{Key, LinkEntry, Parts, Target, Told, link_entry_on};
use crate::locator::fault::{LineFault, LocatorFault};
use crate::locator::keys::entry_count;
use crate::locator::parts::{
    Gift, LaidParts, frame_gifts, gifts_of, groups_named, parts_left, parts_named, site_of,
};
use crate::locator::span::{End, Span};
use crate::locator::sparse::Sparse;
use crate::locator::tables::{EntryKeys, ModuleKeys, numbered};
use crate::locator::titles::Titles;
use omf_check::Checked;
use omf_placement::Frame;
use omf_placement::cut::cut;
use omf_reloc::Kind;
use std::alloc::{AllocError, Global};
use std::collections::BTreeSet;

/// The module whose lines follow.
#[derive(Drop)]
pub struct Current {
    /// Its number, from 0.
    number: u32,
    /// The keys of its entries.
    keys: EntryKeys,
}

/// What the lines so far give the modules.
#[derive(Drop)]
pub struct Lines {
    alloc: Global,
    /// The keys of the modules.
    keys: ModuleKeys,
    /// The modules whose lines began, by their numbers from 0.
    opened: BTreeSet<u32>,
    /// The last of these.
    current: Option<Current>,
    /// What is given to the entries of each module.
    given: Vec<Sparse>,
    /// The frames that names share.
    titles: Titles,
    /// The end of what the last line for segments of all modules laid.
    end: Option<End>,
}

/// An entry of a module.
#[derive(Clone, Copy)]
struct EntryOf {
    /// The module, from 0.
    module: u32,
    /// The entry's index, from 1.
    index: u32,
}

/// Returns the kind of what is given something.
fn kind_of(target: Target) -> Kind
    ensures { result ≡ kind_of (target_seen target) }
{
    match target {
        Target::Segment(_) => Kind::Segment,
        Target::Stored { .. } => Kind::Segment,
        Target::Group(_) => Kind::Group,
        Target::External(_) => Kind::External,
    }
}

/// Returns the kind of what a line is for.
fn told_kind(told: Told) -> Kind
    ensures { result ≡ told_kind (told_seen told) }
{
    match told {
        Told::Own(target) => kind_of(target),
        Told::SharedPlace(_) => Kind::Segment,
        Told::SharedStored { .. } => Kind::Segment,
        Told::SharedFrame => Kind::Group,
    }
}

/// Returns the index of an entry of a table as 16 bits: a table has at most 32,767 entries.
fn entry_index(module: &Checked, kind: Kind, index: u32) -> u16
    ensures { index ≤ entries (recs_of «module».now.bytes) kind → result ≡ index }
{
    let count = entry_count(module, kind);
    if index < u32::from(count) {
        index as u16
    } else {
        count
    }
}

/// Returns the fault of a line.
fn at_fault(line: u64, why: LineFault) -> Result<(), LocatorFault>
    ensures { result ≡ Err (Line line why) }
{
    Err(LocatorFault::Line { line, why })
}

impl Lines {
    /// Returns what no lines give.
    fn new(alloc: Global, modules: &[Checked]) -> Result<Lines, AllocError>
        requires { length modules.now < 2 ^ 32 }
        ensures { IfOk result (λ s. AreLines (typed_modules modules.now) s []) }
    {
        let mut given = Vec::new(alloc);
        for module in modules {
            let sparse = Sparse::of(alloc, module)?;
            given.push(sparse)?;
        }
        let keys = ModuleKeys::of(alloc, modules)?;
        Ok(Lines {
            alloc,
            keys,
            opened: BTreeSet::new(alloc),
            current: None,
            given,
            titles: Titles::new(alloc),
            end: None,
        })
    }

    /// Adds a line with which the lines of a module begin.
    fn open(&mut self, modules: &[Checked], line: u64, key: Key<'_>) -> Result<(), LocatorFault>
        requires { length modules.now < 2 ^ 32 }
        ensures { (items : List Item) → AreLines (typed_modules modules.now) self.old items → IsTaken (typed_modules modules.now) self.new items line (items_of (typed_modules modules.now) items (Some (Opens (key_seen key.entry)))) result }
    {
        let number = match self.keys.named(key) {
            Ok(number) => number,
            Err(why) => return at_fault(line, why),
        };
        let at = number as usize;
        if at >= modules.len() {
            return at_fault(line, LineFault::Unknown);
        }
        if !self.opened.insert(number)? {
            return at_fault(line, LineFault::Twice);
        }
        let keys = EntryKeys::of(self.alloc, &modules[at])?;
        self.current = Some(Current { number, keys });
        Ok(())
    }

    /// Gives an entry of a module what a line has for it.
    fn settle(
        &mut self,
        modules: &[Checked],
        line: u64,
        entry: EntryOf,
        told: Told,
    ) -> Result<(), LocatorFault>
        ensures { (items : List Item) (m : List Records) → AreLines (typed_modules modules.now) self.old items → slice_get (typed_modules modules.now) entry.«module» ≡ Some m → 1 ≤ entry.index → entry.index ≤ entries m (told_kind (told_seen told)) → IsTaken (typed_modules modules.now) self.new items line (alone (unless_again items (map_ok (Given entry.«module» entry.index) (settled (typed_modules modules.now) items m (told_seen told) entry.index)))) result }
    {
        let at = entry.module as usize;
        if at >= modules.len() {
            return at_fault(line, LineFault::NoModule);
        }
        if at >= self.given.len() {
            return at_fault(line, LineFault::NoModule);
        }
        let module = &modules[at];
        let index = entry_index(module, told_kind(told), entry.index);
        let settled = self.titles.settled(self.alloc, module, index, told)?;
        let target = match settled {
            Ok(target) => target,
            Err(why) => return at_fault(line, why),
        };
        if !self.given[at].give(entry.index, target) {
            return at_fault(line, LineFault::Twice);
        }
        self.titles.note(self.alloc, module, index, target)?;
        Ok(())
    }

    /// Adds a line for an entry of the current module.
    fn add(
        &mut self,
        modules: &[Checked],
        line: u64,
        key: Key<'_>,
        told: Told,
    ) -> Result<(), LocatorFault>
        ensures { (items : List Item) → AreLines (typed_modules modules.now) self.old items → IsTaken (typed_modules modules.now) self.new items line (items_of (typed_modules modules.now) items (Some (Entry (key_seen key.entry) (told_seen told)))) result }
    {
        let Some(current) = &self.current else {
            return at_fault(line, LineFault::NoModule);
        };
        let module = current.number;
        let at = module as usize;
        if at >= modules.len() {
            return at_fault(line, LineFault::NoModule);
        }
        let kind = told_kind(told);
        let found = current.keys.named(self.alloc, &modules[at], kind, key)?;
        let index = match found {
            Ok(index) => index,
            Err(why) => return at_fault(line, why),
        };
        self.settle(modules, line, EntryOf { module, index }, told)
    }

    /// Gives an entry of a module something, as a line of that module with the entry's number.
    fn give(&mut self, modules: &[Checked], line: u64, gift: &Gift) -> Result<(), LocatorFault>
        ensures { (items : List Item) → AreLines (typed_modules modules.now) self.old items → IsTaken (typed_modules modules.now) self.new items line (alone (gift_item (typed_modules modules.now) items (gift_seen gift.now))) result }
    {
        let module = gift.module;
        let at = module as usize;
        if at >= modules.len() {
            return at_fault(line, LineFault::NoModule);
        }
        let kind = kind_of(gift.target);
        let count = u32::from(entry_count(&modules[at], kind));
        let index = match numbered(u32::from(gift.index), count) {
            Ok(index) => index,
            Err(why) => return at_fault(line, why),
        };
        let told = Told::Own(gift.target);
        self.settle(modules, line, EntryOf { module, index }, told)
    }

    /// Gives several entries something, one after another.
    fn give_all(
        &mut self,
        modules: &[Checked],
        line: u64,
        gifts: &[Gift],
    ) -> Result<(), LocatorFault>
        ensures { (items : List Item) → AreLines (typed_modules modules.now) self.old items → IsTaken (typed_modules modules.now) self.new items line (all_items (typed_modules modules.now) items (map gift_seen gifts.now)) result }
    {
        for gift in gifts {
            match self.give(modules, line, gift) {
                Ok(()) => {}
                Err(fault) => return Err(fault),
            }
        }
        Ok(())
    }

    /// Gives segments what a line lays, and ends what it lays.
    fn give_laid(
        &mut self,
        modules: &[Checked],
        line: u64,
        laid: LaidParts,
    ) -> Result<(), LocatorFault>
        requires { IsLow laid.end }
        ensures { (items : List Item) → AreLines (typed_modules modules.now) self.old items → IsTaken (typed_modules modules.now) self.new items line (laid_items (typed_modules modules.now) items (Some (parts_laid laid))) result }
    {
        match self.give_all(modules, line, &laid.gifts) {
            Ok(()) => {
                self.end = Some(laid.end);
                Ok(())
            }
            Err(fault) => Err(fault),
        }
    }

    /// Adds a line that lays segments of all modules.
    fn lay(
        &mut self,
        modules: &[Checked],
        line: u64,
        parts: Parts<'_>,
        span: Span,
    ) -> Result<(), LocatorFault>
        requires { length modules.now < 2 ^ 32 }
        ensures { (items : List Item) → AreLines (typed_modules modules.now) self.old items → IsTaken (typed_modules modules.now) self.new items line (items_of (typed_modules modules.now) items (Some (Lays (parts_seen parts.entry) span))) result }
    {
        let named = parts_named(self.alloc, modules, parts)?;
        if named.is_empty() {
            return at_fault(line, LineFault::Unknown);
        }
        let site = match site_of(self.end, span) {
            Ok(site) => site,
            Err(why) => return at_fault(line, why),
        };
        let left = parts_left(self.alloc, &self.given, &named)?;
        let laid = gifts_of(self.alloc, site, left)?;
        match laid {
            Some(laid) => self.give_laid(modules, line, laid),
            None => at_fault(line, LineFault::NoRoom),
        }
    }

    /// Adds a line that gives the groups of a name a frame.
    fn frame(
        &mut self,
        modules: &[Checked],
        line: u64,
        name: &[u8],
        frame: Frame,
    ) -> Result<(), LocatorFault>
        requires { length modules.now < 2 ^ 32 }
        ensures { (items : List Item) → AreLines (typed_modules modules.now) self.old items → IsTaken (typed_modules modules.now) self.new items line (items_of (typed_modules modules.now) items (Some (Frames name.now frame))) result }
    {
        let groups = groups_named(self.alloc, modules, name)?;
        if groups.is_empty() {
            return at_fault(line, LineFault::Unknown);
        }
        let gifts = frame_gifts(self.alloc, &self.given, &groups, frame)?;
        self.give_all(modules, line, &gifts)
    }

    /// Adds a line that is an entry.
    fn enter(
        &mut self,
        modules: &[Checked],
        line: u64,
        entry: LinkEntry<'_>,
    ) -> Result<(), LocatorFault>
        requires { length modules.now < 2 ^ 32 }
        ensures { (items : List Item) → AreLines (typed_modules modules.now) self.old items → IsTaken (typed_modules modules.now) self.new items line (items_of (typed_modules modules.now) items (Some (seen entry.entry))) result }
    {
        match entry {
            LinkEntry::Blank => Ok(()),
            LinkEntry::Opens(key) => self.open(modules, line, key),
            LinkEntry::Gives(key, told) => self.add(modules, line, key, told),
            LinkEntry::Lays(parts, span) => self.lay(modules, line, parts, span),
            LinkEntry::Frames(name, frame) => self.frame(modules, line, name, frame),
        }
    }

    /// Adds a line.
    fn take(
        &mut self,
        modules: &[Checked],
        line: u64,
        entry: Option<LinkEntry<'_>>,
    ) -> Result<(), LocatorFault>
        requires { length modules.now < 2 ^ 32 }
        ensures { (items : List Item) → AreLines (typed_modules modules.now) self.old items → IsTaken (typed_modules modules.now) self.new items line (items_of (typed_modules modules.now) items (option_map seen entry.entry)) result }
    {
        match entry {
            Some(entry) => self.enter(modules, line, entry),
            None => at_fault(line, LineFault::NotUnderstood),
        }
    }
}

/// Returns the number of the first line that is no entry.
fn first_bad_line(text: &[u8]) -> Option<u64>
    ensures { result ≡ slice_get (bad_lines text.now) 0 }
{
    let mut rest = Some(text);
    let mut number = 0u64;
    while let Some(lines) = rest {
        let (line, more) = cut(lines, b'\n');
        number += 1;
        if link_entry_on(line).is_none() {
            return Some(number);
        }
        rest = more;
    }
    None
}

/// Returns what the lines of a text give modules.
fn taken(alloc: Global, modules: &[Checked], text: &[u8]) -> Result<Vec<Sparse>, LocatorFault>
    requires { length modules.now < 2 ^ 32 }
    ensures { IsOutcome (map_ok (sparse_all (typed_modules modules.now)) (items_after (typed_modules modules.now) [] (link_lines text.now))) (map_ok (λ v. v.items) result) }
{
    let mut taken = Lines::new(alloc, modules)?;
    let mut rest = Some(text);
    let mut number = 0u64;
    while let Some(lines) = rest {
        let (line, more) = cut(lines, b'\n');
        number += 1;
        taken.take(modules, number, link_entry_on(line))?;
        rest = more;
    }
    Ok(taken.given)
}

/// Returns what a text gives each module, entry by entry.
///
/// # Errors
///
/// `Line` for the first line that is no entry; or else for the first whose key does not name exactly one module of the input or one entry of
/// its module, that is before the first `M`, that is for the same module or entry as an earlier one, that shares a frame that no line
/// before it gives, that is for a class or a name that no module has, that lays segments after others where no line before it does, or whose
/// segments do not fit. `Memory` if memory runs out, only if every line is an entry.
pub fn sparse_places(
    alloc: Global,
    modules: &[Checked],
    text: &[u8],
) -> Result<Vec<Sparse>, LocatorFault>
    requires { length modules.now < 2 ^ 32 }
    ensures given { IsOutcome (sparse (typed_modules modules.now) text.now) (map_ok (λ v. v.items) result) }
    ensures lines { IfErr result (λ fault. fault ≡ Memory → bad_lines text.now ≡ []) }
    ensures each { IfOk result (λ v. length v.items ≡ length modules.now) }
{
    if let Some(line) = first_bad_line(text) {
        let why = LineFault::NotUnderstood;
        return Err(LocatorFault::Line { line, why });
    }
    taken(alloc, modules, text)
}
