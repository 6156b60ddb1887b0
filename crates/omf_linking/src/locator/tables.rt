//! Which module, and which entry of a module's table, a key names: names are looked up in sorted tables.

ghost use Rattle.std.specs.Prelude.{◌≡◌, ◌==◌, ◌∷◌, ◌++◌, ◌<◌, ◌^◌, [], IfOk, List, OnOk, Option, Some, filter, length, option_map, ℕ};
ghost use Rattle.omf_check.specs.Module.{recs_of, typed_modules};
ghost use Rattle.omf_records.specs.Values.{Rec as Records};
ghost use Rattle.omf_reloc.specs.Reach.{entries};
ghost use Rattle.omf_linking.specs.Inner.KeyTables.{AreEntryKeys, AreModuleKeys, IsKeyTable, class_text, holder_after, is_text, module_text, name_text};
ghost use Rattle.omf_linking.specs.Inner.LineParsing.{key_seen};
ghost use Rattle.omf_linking.specs.Locator.Keys.{count_from, entry_named, module_named, the_one};
ghost use Rattle.omf_linking.specs.Locator.LinkEntries.{Named, Numbered, OfClass};
ghost use Rattle.omf_reloc.specs.declared.fault.Kind.TheVariants.{Segment};

use crate::locator::entry::Key;
use crate::locator::fault::LineFault;
use crate::locator::keys::{class_name, entry_count, entry_name, module_name, spelled, written};
use omf_check::Checked;
use omf_reloc::Kind;
use std::alloc::{AllocError, Global};
use std::collections::BTreeMap;

/// What has a text.
#[derive(Clone, Copy, Drop)]
pub enum Holder {
    /// One module or entry, by its number.
    One(u32),
    /// More than one.
    Several,
}

/// Returns what has a text when one more has it.
fn with_one_more(holder: Option<Holder>, number: u32) -> Holder
    ensures { result ≡ holder_after number holder }
{
    match holder {
        None => Holder::One(number),
        Some(_) => Holder::Several,
    }
}

/// Modules, or entries of a module's table, by the text that each of them has.
#[derive(Drop)]
pub struct KeyTable {
    by_text: BTreeMap<Vec<u8>, Holder>,
}

impl KeyTable {
    /// Adds one with a text.
    fn put(&mut self, text: Vec<u8>, number: u32) -> Result<(), AllocError>
        ensures { OnOk result ((texts : ℕ → Option (List ℕ)) (numbers : List ℕ) → texts number ≡ Some text.items → IsKeyTable texts numbers self.old.by_text → IsKeyTable texts (numbers ++ number ∷ []) self.new.by_text) }
    {
        let holder = with_one_more(self.by_text.get(text.as_slice()).copied(), number);
        self.by_text.insert(text, holder)?;
        Ok(())
    }

    /// Adds one, if it has a text.
    fn add(&mut self, text: Option<Vec<u8>>, number: u32) -> Result<(), AllocError>
        ensures { OnOk result ((texts : ℕ → Option (List ℕ)) (numbers : List ℕ) → texts number ≡ option_map (λ t. t.items) text → IsKeyTable texts numbers self.old.by_text → IsKeyTable texts (numbers ++ number ∷ []) self.new.by_text) }
    {
        match text {
            Some(text) => self.put(text, number),
            None => Ok(()),
        }
    }

    /// Returns the one that has a text.
    fn named(&self, text: &[u8]) -> Result<u32, LineFault>
        ensures { (texts : ℕ → Option (List ℕ)) (numbers : List ℕ) → IsKeyTable texts numbers self.now.by_text → result ≡ the_one (filter (λ i. is_text text.now (texts i)) numbers) }
    {
        match self.by_text.get(text).copied() {
            Some(Holder::One(number)) => Ok(number),
            Some(Holder::Several) => Err(LineFault::Several),
            None => Err(LineFault::Unknown),
        }
    }

    /// Returns the entries of a kind by their names.
    fn of_names(alloc: Global, module: &Checked, kind: Kind) -> Result<KeyTable, AllocError>
        ensures { IfOk result (λ t. IsKeyTable (name_text (recs_of «module».now.bytes) kind) (count_from 1 (entries (recs_of «module».now.bytes) kind)) t.by_text) }
    {
        let mut table = KeyTable {
            by_text: BTreeMap::new(alloc),
        };
        for before in 0..entry_count(module, kind) {
            let text = written(alloc, entry_name(module, kind, before + 1))?;
            table.add(text, u32::from(before) + 1)?;
        }
        Ok(table)
    }
}

/// Returns a name and a class, as they are written, as one text. The line feed between them is in no name as it is written.
pub(crate) fn joined(alloc: Global, name: &[u8], class: &[u8]) -> Result<Vec<u8>, AllocError>
    ensures { IfOk result (λ text. text.items ≡ name.now ++ 10 ∷ class.now) }
{
    let mut text = Vec::new(alloc);
    text.extend_from_slice(name)?;
    text.push(b'\n')?;
    text.extend_from_slice(class)?;
    Ok(text)
}

/// Returns the name and the class of a segment as one text, if it has both.
fn class_text(alloc: Global, module: &Checked, index: u16) -> Result<Option<Vec<u8>>, AllocError>
    ensures { IfOk result (λ text. option_map (λ t. t.items) text ≡ class_text (recs_of «module».now.bytes) index) }
{
    let Some(name) = written(alloc, entry_name(module, Kind::Segment, index))? else {
        return Ok(None);
    };
    let Some(class) = written(alloc, class_name(module, index))? else {
        return Ok(None);
    };
    let text = joined(alloc, &name, &class)?;
    Ok(Some(text))
}

impl KeyTable {
    /// Returns the segments of a module by their names and classes.
    fn of_classes(alloc: Global, module: &Checked) -> Result<KeyTable, AllocError>
        ensures { IfOk result (λ t. IsKeyTable (class_text (recs_of «module».now.bytes)) (count_from 1 (entries (recs_of «module».now.bytes) Segment)) t.by_text) }
    {
        let mut table = KeyTable {
            by_text: BTreeMap::new(alloc),
        };
        for before in 0..entry_count(module, Kind::Segment) {
            let text = class_text(alloc, module, before + 1)?;
            table.add(text, u32::from(before) + 1)?;
        }
        Ok(table)
    }

    /// Returns modules by their names.
    fn of_modules(alloc: Global, modules: &[Checked]) -> Result<KeyTable, AllocError>
        requires { length modules.now < 2 ^ 32 }
        ensures { IfOk result (λ t. IsKeyTable (module_text (typed_modules modules.now)) (count_from 0 (length modules.now)) t.by_text) }
    {
        let mut table = KeyTable {
            by_text: BTreeMap::new(alloc),
        };
        for (j, module) in modules.iter().enumerate() {
            let text = spelled(alloc, module_name(module))?;
            table.add(Some(text), j as u32)?;
        }
        Ok(table)
    }
}

/// Returns the number of a key, if it is one of 1 to `count`.
pub(crate) fn numbered(number: u32, count: u32) -> Result<u32, LineFault>
    ensures { result ≡ the_one (filter (λ i. number == i) (count_from 1 count)) }
{
    if number >= 1 && number <= count {
        Ok(number)
    } else {
        Err(LineFault::Unknown)
    }
}

/// The modules of an input, as keys name them.
#[derive(Drop)]
pub struct ModuleKeys {
    by_name: KeyTable,
    count: u32,
}

impl ModuleKeys {
    /// Returns the keys of modules.
    pub fn of(alloc: Global, modules: &[Checked]) -> Result<ModuleKeys, AllocError>
        requires { length modules.now < 2 ^ 32 }
        ensures { IfOk result (λ k. AreModuleKeys (typed_modules modules.now) k) }
    {
        let by_name = KeyTable::of_modules(alloc, modules)?;
        let count = modules.len() as u32;
        Ok(ModuleKeys { by_name, count })
    }

    /// Returns the number of the module that a number names, from 0: in a text modules are counted from 1.
    fn numbered(&self, number: u32) -> Result<u32, LineFault>
        ensures { (ms : List (List Records)) → AreModuleKeys ms self.now → result ≡ module_named ms (Numbered number) }
    {
        if number >= 1 && number <= self.count {
            Ok(number - 1)
        } else {
            Err(LineFault::Unknown)
        }
    }

    /// Returns the number of the one module that a key names, from 0.
    ///
    /// # Errors
    ///
    /// `Unknown` if it names none, `Several` if it names more than one.
    pub fn named(&self, key: Key<'_>) -> Result<u32, LineFault>
        ensures { (ms : List (List Records)) → AreModuleKeys ms self.now → result ≡ module_named ms (key_seen key.entry) }
    {
        match key {
            Key::Named(name) => self.by_name.named(name),
            Key::OfClass(_, _) => Err(LineFault::Unknown),
            Key::Numbered(number) => self.numbered(number),
        }
    }
}

/// The entries of a module's tables, as keys name them.
#[derive(Drop)]
pub struct EntryKeys {
    segments: KeyTable,
    /// The segments by their names and classes.
    classes: KeyTable,
    groups: KeyTable,
    externals: KeyTable,
}

impl EntryKeys {
    /// Returns the keys of a module's entries.
    pub fn of(alloc: Global, module: &Checked) -> Result<EntryKeys, AllocError>
        ensures { IfOk result (λ k. AreEntryKeys (recs_of «module».now.bytes) k) }
    {
        let segments = KeyTable::of_names(alloc, module, Kind::Segment)?;
        let classes = KeyTable::of_classes(alloc, module)?;
        let groups = KeyTable::of_names(alloc, module, Kind::Group)?;
        let externals = KeyTable::of_names(alloc, module, Kind::External)?;
        Ok(EntryKeys {
            segments,
            classes,
            groups,
            externals,
        })
    }

    /// Returns the index of the one entry that has a name.
    fn of_name(&self, kind: Kind, name: &[u8]) -> Result<u32, LineFault>
        ensures { (m : List Records) → AreEntryKeys m self.now → result ≡ entry_named m kind (Named name.now) }
    {
        match kind {
            Kind::Segment => self.segments.named(name),
            Kind::Group => self.groups.named(name),
            Kind::External => self.externals.named(name),
        }
    }

    /// Returns the index of the one segment that has a name and a class. No other entry has a class.
    fn of_class(
        &self,
        alloc: Global,
        kind: Kind,
        name: &[u8],
        class: &[u8],
    ) -> Result<Result<u32, LineFault>, AllocError>
        ensures { IfOk result (λ r. (m : List Records) → AreEntryKeys m self.now → r ≡ entry_named m kind (OfClass name.now class.now)) }
    {
        match kind {
            Kind::Segment => {
                let text = joined(alloc, name, class)?;
                Ok(self.classes.named(&text))
            }
            Kind::Group => Ok(Err(LineFault::Unknown)),
            Kind::External => Ok(Err(LineFault::Unknown)),
        }
    }

    /// Returns the index of the one segment, group or external of the module that a key names: `Unknown` if it names none, `Several` if it
    /// names more than one.
    ///
    /// # Errors
    ///
    /// `AllocError` if memory runs out.
    pub fn named(
        &self,
        alloc: Global,
        module: &Checked,
        kind: Kind,
        key: Key<'_>,
    ) -> Result<Result<u32, LineFault>, AllocError>
        ensures { IfOk result (λ r. AreEntryKeys (recs_of «module».now.bytes) self.now → r ≡ entry_named (recs_of «module».now.bytes) kind (key_seen key.entry)) }
    {
        match key {
            Key::Named(name) => Ok(self.of_name(kind, name)),
            Key::OfClass(name, class) => self.of_class(alloc, kind, name, class),
            Key::Numbered(number) => {
                let count = u32::from(entry_count(module, kind));
                Ok(numbered(number, count))
            }
        }
    }
}
