//! How the lines of a draft name modules, segments, groups and externals.

ghost use Rattle.std.specs.Prelude.{◌≡◌, ◌≤◌, ◌∷◌, ◌++◌, [], List, ℕ, OnOk, IfOk, map, not, string_bytes, ◌&&◌};
ghost use Rattle.std.specs.List.{range_with_len};
ghost use Rattle.omf_check.specs.Module.{recs_of, typed_modules};
ghost use Rattle.omf_frame.specs.Bytes.{AddsText};
ghost use Rattle.omf_records.specs.Values.{Rec};
ghost use Rattle.omf_placement.specs.Quoted.{quoted};
ghost use Rattle.omf_reloc.specs.declared.fault.Kind.{Kind};
ghost use Rattle.omf_reloc.specs.Reach.{entries};
ghost use Rattle.omf_linking.specs.Locator.Keys.{module_name};
ghost use Rattle.omf_linking.specs.Locator.KeyForms.{IsTextTable, class_of, class_texts, has_key, is_repeated, key_form, key_text, key_texts, module_texts, owns, shown};
ghost use Rattle.omf_linking.specs.Locator.Keys.{class_name};
ghost use Rattle.omf_linking.specs.Inner.Forms.{AreKeys, AreOwned};
ghost use Rattle.omf_linking.specs.declared.locator.forms.KeyForm.TheVariants.{OfClass};

use crate::locator::keys::{class_name, entry_count, entry_name, module_name};
use omf_check::{Checked, entry_of};
use omf_frame::Name;
use omf_names::NameKey;
use omf_reloc::Kind;
use omf_text::{print_name, print_quoted};
use std::alloc::{AllocError, Global};
use std::collections::BTreeMap;
use std::fmt::Write;

/// The form of a key: what names an entry of a module in a line.
#[derive(Clone, Copy)]
pub enum KeyForm {
    /// `"NAME"`.
    Name,
    /// `"NAME" "CLASS"`, of a segment.
    OfClass,
    /// `#N`, the index of the entry.
    Number,
}

/// Returns the class of a segment; none for a group or an external.
fn class_of(module: &Checked, kind: Kind, index: u16) -> Option<Name<'_>>
    ensures { result ≡ class_of (recs_of «module».now.bytes) kind index }
{
    match kind {
        Kind::Segment => class_name(module, index),
        Kind::Group | Kind::External => None,
    }
}

/// Prints the key of an entry.
pub fn print_key(
    text: &mut String,
    module: &Checked,
    kind: Kind,
    form: KeyForm,
    index: u16,
) -> Result<(), AllocError>
    ensures { AddsText result (string_bytes text.old) (string_bytes text.new) (key_text (recs_of «module».now.bytes) kind form index) }
{
    match form {
        KeyForm::Name => print_name(text, entry_name(module, kind, index)),
        KeyForm::OfClass => {
            print_name(text, entry_name(module, kind, index))?;
            text.push_str(" ")?;
            print_name(text, class_of(module, kind, index))
        }
        KeyForm::Number => write!(text, "#{index}"),
    }
}

/// Returns whether an entry has a key of a form.
fn has_key(module: &Checked, kind: Kind, form: KeyForm, index: u16) -> bool
    ensures { result ≡ has_key (recs_of «module».now.bytes) kind form index }
{
    let is_named = entry_name(module, kind, index).is_some();
    match form {
        KeyForm::Name => is_named,
        KeyForm::OfClass => is_named && class_of(module, kind, index).is_some(),
        KeyForm::Number => true,
    }
}

/// Returns the key of an entry as text.
fn key_text(
    alloc: Global,
    module: &Checked,
    kind: Kind,
    form: KeyForm,
    index: u16,
) -> Result<String, AllocError>
    ensures { IfOk result (λ t. string_bytes t ≡ key_text (recs_of «module».now.bytes) kind form index) }
{
    let mut text = String::new(alloc);
    print_key(&mut text, module, kind, form, index)?;
    Ok(text)
}

/// Returns the keys of one form of all entries of a kind, in index order, with a dash for a name that is missing.
///
/// # Errors
///
/// `AllocError` if memory runs out.
pub fn key_texts(
    alloc: Global,
    module: &Checked,
    kind: Kind,
    form: KeyForm,
) -> Result<Vec<String>, AllocError>
    ensures { IfOk result (λ v. map string_bytes v.items ≡ key_texts (recs_of «module».now.bytes) kind form) }
{
    let mut texts = Vec::new(alloc);
    for before in 0..entry_count(module, kind) {
        texts.push(key_text(alloc, module, kind, form, before + 1)?)?;
    }
    Ok(texts)
}

/// Returns the class of a segment as it is printed; a dash for none.
fn class_text(alloc: Global, module: &Checked, index: u16) -> Result<String, AllocError>
    ensures { IfOk result (λ t. string_bytes t ≡ shown (class_name (recs_of «module».now.bytes) index)) }
{
    let mut text = String::new(alloc);
    print_name(&mut text, class_name(module, index))?;
    Ok(text)
}

/// Returns the classes of all segments of a module as they are printed, in index order.
///
/// # Errors
///
/// `AllocError` if memory runs out.
pub fn class_texts(alloc: Global, module: &Checked) -> Result<Vec<String>, AllocError>
    ensures { IfOk result (λ v. map string_bytes v.items ≡ class_texts (recs_of «module».now.bytes)) }
{
    let mut texts = Vec::new(alloc);
    for before in 0..entry_count(module, Kind::Segment) {
        texts.push(class_text(alloc, module, before + 1)?)?;
    }
    Ok(texts)
}

/// Texts, each once, with whether it is repeated.
#[derive(Drop)]
pub struct TextTable<'a> {
    repeated: BTreeMap<NameKey<'a>, bool>,
}

impl<'a> TextTable<'a> {
    /// Adds a text.
    fn add(&mut self, text: &'a [u8]) -> Result<(), AllocError>
        ensures { OnOk result ((texts : List (List ℕ)) → IsTextTable self.old.repeated texts → IsTextTable self.new.repeated (texts ++ text.entry.now ∷ [])) }
    {
        let again = self.repeated.contains_key(&NameKey::of(text));
        self.repeated.insert(NameKey::of(text), again)?;
        Ok(())
    }

    /// Returns a table of texts.
    pub fn of(alloc: Global, texts: &'a [String]) -> Result<TextTable<'a>, AllocError>
        ensures { IfOk result (λ t. IsTextTable t.repeated (map string_bytes texts.entry.now)) }
    {
        let mut table = TextTable {
            repeated: BTreeMap::new(alloc),
        };
        for text in texts {
            table.add(text.as_bytes())?;
        }
        Ok(table)
    }

    /// Returns whether a text is in the table twice or more.
    pub fn is_repeated(&self, text: &'a [u8]) -> bool
        ensures { (texts : List (List ℕ)) → IsTextTable self.now.repeated texts → result ≡ is_repeated texts text.now }
    {
        self.repeated
            .get(&NameKey::of(text))
            .copied()
            .unwrap_or(false)
    }
}

/// Returns whether an entry has a key of a form that is not repeated.
fn has_own(module: &Checked, kind: Kind, form: KeyForm, index: u16, repeated: bool) -> bool
    ensures { result ≡ (has_key (recs_of «module».now.bytes) kind form index && not repeated) }
{
    has_key(module, kind, form, index) && !repeated
}

/// Returns for each entry of a kind whether it has a key of a form that no other entry has.
fn owned(
    alloc: Global,
    module: &Checked,
    kind: Kind,
    form: KeyForm,
) -> Result<Vec<bool>, AllocError>
    ensures { IfOk result (λ v. v.items ≡ map (owns (recs_of «module».now.bytes) kind form) (range_with_len 1 (entries (recs_of «module».now.bytes) kind))) }
{
    let kept = key_texts(alloc, module, kind, form)?;
    let texts: &[String] = &kept;
    let table = TextTable::of(alloc, texts)?;
    let mut owned = Vec::new(alloc);
    for before in 0..entry_count(module, kind) {
        let repeated = table.is_repeated(texts[usize::from(before)].as_bytes());
        owned.push(has_own(module, kind, form, before + 1, repeated))?;
    }
    Ok(owned)
}

/// Returns for each entry of a kind whether it has a name and class that no other entry has; nothing for groups and externals.
fn owned_classes(alloc: Global, module: &Checked, kind: Kind) -> Result<Vec<bool>, AllocError>
    ensures { IfOk result (λ v. AreOwned (recs_of «module».now.bytes) kind OfClass v.items) }
{
    match kind {
        Kind::Segment => {
            let owned = owned(alloc, module, kind, KeyForm::OfClass)?;
            Ok(owned)
        }
        Kind::Group => Ok(Vec::new(alloc)),
        Kind::External => Ok(Vec::new(alloc)),
    }
}

/// How a draft names the segments, the groups or the externals of a module.
#[derive(Drop)]
pub struct Keys {
    by_name: Vec<bool>,
    by_class: Vec<bool>,
}

impl Keys {
    /// Returns how a draft names the entries of a kind.
    pub fn of(alloc: Global, module: &Checked, kind: Kind) -> Result<Keys, AllocError>
        ensures { IfOk result (λ k. AreKeys (recs_of «module».now.bytes) kind k.by_name.items k.by_class.items) }
    {
        let by_name = owned(alloc, module, kind, KeyForm::Name)?;
        let by_class = owned_classes(alloc, module, kind)?;
        Ok(Keys { by_name, by_class })
    }

    /// Returns the form of an entry's key.
    pub fn form(&self, index: u16) -> KeyForm
        ensures { (m : List Rec) (kind : Kind) → AreKeys m kind self.now.by_name.items self.now.by_class.items → 1 ≤ index → index ≤ entries m kind → result ≡ key_form m kind index }
    {
        if entry_of(&self.by_name, usize::from(index)).unwrap_or(false) {
            KeyForm::Name
        } else if entry_of(&self.by_class, usize::from(index)).unwrap_or(false) {
            KeyForm::OfClass
        } else {
            KeyForm::Number
        }
    }
}

/// Returns the name of a module as it is printed.
fn quoted_name(alloc: Global, module: &Checked) -> Result<String, AllocError>
    ensures { IfOk result (λ t. string_bytes t ≡ quoted (module_name (recs_of «module».now.bytes))) }
{
    let mut text = String::new(alloc);
    print_quoted(&mut text, module_name(module))?;
    Ok(text)
}

/// Returns the names of modules as they are printed.
pub fn module_texts(alloc: Global, modules: &[Checked]) -> Result<Vec<String>, AllocError>
    ensures { IfOk result (λ v. map string_bytes v.items ≡ module_texts (typed_modules modules.now)) }
{
    let mut texts = Vec::new(alloc);
    for module in modules {
        texts.push(quoted_name(alloc, module)?)?;
    }
    Ok(texts)
}
