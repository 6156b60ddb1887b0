//! The lines of a fault in a link text: the number of its line and what is wrong with it, and the line itself.

ghost use Rattle.std.specs.Prelude.{◌≡◌, ◌++◌, IfOk, OnOk, flat_map, map, option_map, string_bytes, take};
ghost use Rattle.omf_check.specs.Module.{recs_of, typed_modules};
ghost use Rattle.omf_frame.specs.Bytes.{AddsText};
ghost use Rattle.omf_linking.specs.Inner.LineParsing.{key_seen, parts_seen, seen, told_seen};
ghost use Rattle.omf_linking.specs.Locator.Items.{told_kind};
ghost use Rattle.omf_linking.specs.Locator.KeyForms.{key_words};
ghost use Rattle.omf_linking.specs.Locator.LinkEntries.{is_printed};
ghost use Rattle.omf_lines.specs.TextLines.{entry_keys, expected, groups_in, in_module, is_foreign, key_of, keys_like, kind_words, line_at, misread, near_words, opened, opened_by_name, opening_before, opening_on, parts_in, parts_key, parts_kind, parts_like, quoted_key, shown_byte, shown_line, subject, text_lines, there, what, why_words};

use crate::near::near_name;
use omf_check::Checked;
use omf_host::{put_byte, put_decimal};
use omf_linking::locator::forms::{KeyForm, class_texts, key_texts, module_texts};
use omf_linking::locator::{
    Key, LineFault, LinkEntry, Parts, Target, Told, link_entry_on, module_name,
};
use omf_placement::cut::cut;
use omf_placement::said_by;
use omf_reloc::Kind;
use omf_text::print_quoted;
use std::alloc::{AllocError, Global};

/// The most bytes that are shown of a line.
const SHOWN: usize = 70;

/// A line of a text after this many others.
fn line_at(text: &[u8], before: u64) -> Option<&[u8]>
    ensures { option_map (λ l. l.now) result ≡ line_at text.now before }
{
    let mut rest = Some(text);
    let mut left = before;
    while let Some(lines) = rest {
        let (line, more) = cut(lines, b'\n');
        if left == 0 {
            return Some(line);
        }
        left -= 1;
        rest = more;
    }
    None
}

/// The key of an `M` line; none for another line.
fn opening_on(line: &[u8]) -> Option<Key<'_>>
    ensures { option_map key_seen result ≡ opening_on line.now }
{
    match link_entry_on(line) {
        Some(LinkEntry::Opens(key)) => Some(key),
        Some(_) | None => None,
    }
}

/// The key of the last `M` line among the first lines of a text, this many.
fn opening_before(text: &[u8], before: u64) -> Option<Key<'_>>
    ensures { option_map key_seen result ≡ opening_before text.now before }
{
    let mut rest = Some(text);
    let mut left = before;
    let mut opening = None;
    while let Some(lines) = rest {
        if left == 0 {
            return opening;
        }
        let (line, more) = cut(lines, b'\n');
        opening = opening_on(line).or(opening);
        left -= 1;
        rest = more;
    }
    opening
}

/// Appends a text in quotes.
fn put_in_quotes(text: &mut Vec<u8>, name: &[u8]) -> Result<(), AllocError>
    ensures { AddsText result text.old.items text.new.items (quoted_key name.now) }
{
    text.extend_from_slice(b"\"")?;
    text.extend_from_slice(name)?;
    text.extend_from_slice(b"\"")
}

/// Appends a key as a line has it.
fn put_key(text: &mut Vec<u8>, key: Key<'_>) -> Result<(), AllocError>
    ensures { AddsText result text.old.items text.new.items (key_words (key_seen key.entry)) }
{
    match key {
        Key::Named(name) => put_in_quotes(text, name),
        Key::OfClass(name, class) => {
            put_in_quotes(text, name)?;
            text.extend_from_slice(b" ")?;
            put_in_quotes(text, class)
        }
        Key::Numbered(number) => {
            text.extend_from_slice(b"#")?;
            put_decimal(text, u64::from(number))
        }
    }
}

/// The kind of what a line is for.
fn told_kind(told: Told) -> Kind
    ensures { result ≡ told_kind (told_seen told) }
{
    match told {
        Told::Own(Target::Segment(_)) => Kind::Segment,
        Told::Own(Target::Stored { .. }) => Kind::Segment,
        Told::Own(Target::Group(_)) => Kind::Group,
        Told::Own(Target::External(_)) => Kind::External,
        Told::SharedPlace(_) => Kind::Segment,
        Told::SharedStored { .. } => Kind::Segment,
        Told::SharedFrame => Kind::Group,
    }
}

/// The word for a kind.
fn kind_words(kind: Kind) -> &'static str
    ensures { result.now ≡ kind_words kind }
{
    match kind {
        Kind::Segment => "segment ",
        Kind::Group => "group ",
        Kind::External => "external ",
    }
}

/// Appends the module that a line is for, by the key of the `M` line before it.
fn put_in_module(text: &mut Vec<u8>, opening: Option<Key<'_>>) -> Result<(), AllocError>
    ensures { AddsText result text.old.items text.new.items (in_module (option_map key_seen opening.entry)) }
{
    match opening {
        Some(key) => {
            text.extend_from_slice(b" in module ")?;
            put_key(text, key)
        }
        None => Ok(()),
    }
}

/// The word for segments of a class or of a name.
fn parts_kind(parts: Parts<'_>) -> &'static str
    ensures { result.now ≡ parts_kind (parts_seen parts.entry) }
{
    match parts {
        Parts::OfClass(_) => "class ",
        Parts::OfName(_) => "segment ",
        Parts::OfBoth(_, _) => "segment ",
    }
}

/// Appends the class or the name of segments, as a line has it.
fn put_parts(text: &mut Vec<u8>, parts: Parts<'_>) -> Result<(), AllocError>
    ensures { AddsText result text.old.items text.new.items (parts_key (parts_seen parts.entry)) }
{
    match parts {
        Parts::OfClass(class) => put_key(text, Key::Named(class)),
        Parts::OfName(name) => put_key(text, Key::Named(name)),
        Parts::OfBoth(name, class) => put_key(text, Key::OfClass(name, class)),
    }
}

/// Appends what a line is for: a module, or an entry of one; or segments or groups of all modules.
fn put_subject(
    text: &mut Vec<u8>,
    opening: Option<Key<'_>>,
    entry: Option<LinkEntry<'_>>,
) -> Result<(), AllocError>
    ensures { AddsText result text.old.items text.new.items (subject (option_map key_seen opening.entry) (option_map seen entry.entry)) }
{
    match entry {
        Some(LinkEntry::Opens(key)) => {
            text.extend_from_slice(b"module ")?;
            put_key(text, key)
        }
        Some(LinkEntry::Gives(key, told)) => {
            text.extend_from_slice(kind_words(told_kind(told)).as_bytes())?;
            put_key(text, key)?;
            put_in_module(text, opening)
        }
        Some(LinkEntry::Lays(parts, _)) => {
            text.extend_from_slice(parts_kind(parts).as_bytes())?;
            put_parts(text, parts)
        }
        Some(LinkEntry::Frames(name, _)) => {
            text.extend_from_slice(b"group ")?;
            put_key(text, Key::Named(name))
        }
        Some(LinkEntry::Blank) => Ok(()),
        None => Ok(()),
    }
}

/// The first module of this name, as a key has it.
fn named_module<'a>(
    alloc: Global,
    modules: &'a [Checked],
    key: &[u8],
) -> Result<Option<&'a Checked>, AllocError>
    ensures { IfOk result (λ m. option_map (λ c. recs_of c.now.bytes) m ≡ opened_by_name (typed_modules modules.entry.now) key.now) }
{
    for module in modules {
        let mut name = String::new(alloc);
        print_quoted(&mut name, module_name(module))?;
        if name.as_bytes() == key {
            return Ok(Some(module));
        }
    }
    Ok(None)
}

/// The module that the key of an `M` line names.
fn opened<'a>(
    alloc: Global,
    modules: &'a [Checked],
    opening: Option<Key<'_>>,
) -> Result<Option<&'a Checked>, AllocError>
    ensures { IfOk result (λ m. option_map (λ c. recs_of c.now.bytes) m ≡ opened (typed_modules modules.entry.now) (option_map key_seen opening.entry)) }
{
    match opening {
        Some(Key::Named(name)) => {
            let mut key = Vec::new(alloc);
            put_in_quotes(&mut key, name)?;
            named_module(alloc, modules, &key)
        }
        Some(Key::OfClass(_, _)) => Ok(None),
        Some(Key::Numbered(number)) => Ok(modules.get((number as usize).saturating_sub(1))),
        None => Ok(None),
    }
}

/// The keys of the entries of a kind, in the form of a key; none for a number.
fn entry_keys(
    alloc: Global,
    module: Option<&Checked>,
    kind: Kind,
    key: Key<'_>,
) -> Result<Vec<String>, AllocError>
    ensures { IfOk result (λ v. map string_bytes v.items ≡ entry_keys (option_map (λ c. recs_of c.now.bytes) «module».entry) kind (key_seen key.entry)) }
{
    let Some(module) = module else {
        return Ok(Vec::new(alloc));
    };
    match key {
        Key::Named(_) => key_texts(alloc, module, kind, KeyForm::Name),
        Key::OfClass(_, _) => key_texts(alloc, module, kind, KeyForm::OfClass),
        Key::Numbered(_) => Ok(Vec::new(alloc)),
    }
}

/// Adds texts.
fn add_texts(texts: &mut Vec<String>, more: Vec<String>) -> Result<(), AllocError>
    ensures { OnOk result (map string_bytes texts.new.items ≡ map string_bytes texts.old.items ++ map string_bytes more.items) }
{
    for text in more {
        texts.push(text)?;
    }
    Ok(())
}

/// The classes, names, or names and classes of a module's segments.
fn parts_in(alloc: Global, module: &Checked, parts: Parts<'_>) -> Result<Vec<String>, AllocError>
    ensures { IfOk result (λ v. map string_bytes v.items ≡ parts_in (parts_seen parts.entry) (recs_of «module».now.bytes)) }
{
    match parts {
        Parts::OfClass(_) => class_texts(alloc, module),
        Parts::OfName(_) => key_texts(alloc, module, Kind::Segment, KeyForm::Name),
        Parts::OfBoth(_, _) => key_texts(alloc, module, Kind::Segment, KeyForm::OfClass),
    }
}

/// The same of all modules.
fn parts_like(
    alloc: Global,
    modules: &[Checked],
    parts: Parts<'_>,
) -> Result<Vec<String>, AllocError>
    ensures { IfOk result (λ v. map string_bytes v.items ≡ parts_like (parts_seen parts.entry) (typed_modules modules.now)) }
{
    let mut texts = Vec::new(alloc);
    for module in modules {
        add_texts(&mut texts, parts_in(alloc, module, parts)?)?;
    }
    Ok(texts)
}

/// The names of the groups of all modules.
fn groups_in(alloc: Global, modules: &[Checked]) -> Result<Vec<String>, AllocError>
    ensures { IfOk result (λ v. map string_bytes v.items ≡ groups_in (typed_modules modules.now)) }
{
    let mut texts = Vec::new(alloc);
    for module in modules {
        let names = key_texts(alloc, module, Kind::Group, KeyForm::Name)?;
        add_texts(&mut texts, names)?;
    }
    Ok(texts)
}

/// What an entry of a line could name: the keys of the modules, or of the entries of its module or of all modules, in the form of its key.
fn keys_like(
    alloc: Global,
    modules: &[Checked],
    opening: Option<Key<'_>>,
    entry: LinkEntry<'_>,
) -> Result<Vec<String>, AllocError>
    ensures { IfOk result (λ v. map string_bytes v.items ≡ keys_like (typed_modules modules.now) (option_map key_seen opening.entry) (seen entry.entry)) }
{
    match entry {
        LinkEntry::Opens(Key::Named(_)) => module_texts(alloc, modules),
        LinkEntry::Opens(Key::OfClass(_, _)) => Ok(Vec::new(alloc)),
        LinkEntry::Opens(Key::Numbered(_)) => Ok(Vec::new(alloc)),
        LinkEntry::Gives(key, told) => {
            let module = opened(alloc, modules, opening)?;
            entry_keys(alloc, module, told_kind(told), key)
        }
        LinkEntry::Lays(parts, _) => parts_like(alloc, modules, parts),
        LinkEntry::Frames(_, _) => groups_in(alloc, modules),
        LinkEntry::Blank => Ok(Vec::new(alloc)),
    }
}

/// The key of an entry as its line has it; nothing for a blank line.
fn key_of(alloc: Global, entry: LinkEntry<'_>) -> Result<Vec<u8>, AllocError>
    ensures { IfOk result (λ v. v.items ≡ key_of (seen entry.entry)) }
{
    let mut text = Vec::new(alloc);
    match entry {
        LinkEntry::Opens(key) => put_key(&mut text, key)?,
        LinkEntry::Gives(key, _) => put_key(&mut text, key)?,
        LinkEntry::Lays(parts, _) => put_parts(&mut text, parts)?,
        LinkEntry::Frames(name, _) => put_key(&mut text, Key::Named(name))?,
        LinkEntry::Blank => {}
    }
    Ok(text)
}

/// Appends a name that is there.
fn put_there(text: &mut Vec<u8>, name: Option<&str>) -> Result<(), AllocError>
    ensures { AddsText result text.old.items text.new.items (there (option_map (λ n. n.now) name.entry)) }
{
    match name {
        Some(name) => {
            text.extend_from_slice(b"; there is ")?;
            text.extend_from_slice(name.as_bytes())
        }
        None => Ok(()),
    }
}

/// Appends the name that is there and near to the one of a line, if there is such a name.
fn put_near(
    alloc: Global,
    text: &mut Vec<u8>,
    modules: &[Checked],
    opening: Option<Key<'_>>,
    entry: Option<LinkEntry<'_>>,
) -> Result<(), AllocError>
    ensures { AddsText result text.old.items text.new.items (near_words (typed_modules modules.now) (option_map key_seen opening.entry) (option_map seen entry.entry)) }
{
    let Some(entry) = entry else {
        return Ok(());
    };
    let wanted = key_of(alloc, entry)?;
    let names = keys_like(alloc, modules, opening, entry)?;
    put_there(text, near_name(alloc, &wanted, &names)?)
}

/// What a line could be, by its first letter.
fn expected(said: &[u8]) -> &'static str
    ensures { result.now ≡ expected said.now }
{
    match said {
        [b'M', ..] => "M KEY",
        [b'S', ..] => "S KEY ADDRESS (BASE SELECTOR|real|shared) [at STORED]",
        [b'G', ..] => "G KEY (BASE SELECTOR|real|shared)",
        [b'X', ..] => "X KEY ADDRESS (BASE SELECTOR|real)",
        [b'C', ..] => { "C \"CLASS\" (ADDRESS|after) (BASE SELECTOR|real) [at (STORED|after)]" }
        [b'P', ..] => {
            "P \"NAME\" [\"CLASS\"] (ADDRESS|after) (BASE SELECTOR|real) [at (STORED|after)]"
        }
        [b'F', ..] => "F \"NAME\" BASE SELECTOR",
        _ => "M, S, G, X, C, P, F or ;",
    }
}

/// Whether a line has a byte above 7FH before its first `;`.
fn is_foreign(line: &[u8]) -> bool
    ensures { result ≡ is_foreign line.now }
{
    cut(line, b';').0.iter().any(|byte| *byte >= 0x80)
}

/// Appends why a line is no entry.
fn put_misread(text: &mut Vec<u8>, line: &[u8]) -> Result<(), AllocError>
    ensures { AddsText result text.old.items text.new.items (misread line.now) }
{
    if is_foreign(line) {
        return text.extend_from_slice(b"a byte that is not ASCII");
    }
    text.extend_from_slice(b"expected ")?;
    text.extend_from_slice(expected(said_by(line)).as_bytes())
}

/// The front of what is wrong with a line.
fn why_words(why: LineFault) -> &'static str
    ensures { result.now ≡ why_words why }
{
    match why {
        LineFault::NotUnderstood => "",
        LineFault::NoModule => "no M line before it for ",
        LineFault::Unknown => "no ",
        LineFault::Several => "more than one ",
        LineFault::Twice => "a second line for ",
        LineFault::Unshared => "no line before it gives the frame of ",
        LineFault::NothingBefore => "no C or P line before it for ",
        LineFault::NoRoom => "no room for ",
    }
}

/// A line of a text that does not fit.
#[derive(Clone, Copy)]
struct BadLine<'a> {
    /// The line.
    line: &'a [u8],
    /// The key of the last `M` line before it.
    opening: Option<Key<'a>>,
    /// Why it does not fit.
    why: LineFault,
}

/// Appends why a line does not fit, and what it is for.
fn put_told(
    text: &mut Vec<u8>,
    bad: BadLine<'_>,
    entry: Option<LinkEntry<'_>>,
) -> Result<(), AllocError>
    ensures { AddsText result text.old.items text.new.items (why_words bad.entry.why ++ subject (option_map key_seen bad.entry.opening) (option_map seen entry.entry)) }
{
    text.extend_from_slice(why_words(bad.why).as_bytes())?;
    put_subject(text, bad.opening, entry)
}

/// Appends what is wrong with a line.
fn put_what(
    alloc: Global,
    text: &mut Vec<u8>,
    modules: &[Checked],
    bad: BadLine<'_>,
) -> Result<(), AllocError>
    ensures { AddsText result text.old.items text.new.items (what (typed_modules modules.now) (option_map key_seen bad.entry.opening) bad.entry.line.now bad.entry.why) }
{
    if let LineFault::NotUnderstood = bad.why {
        return put_misread(text, bad.line);
    }
    let entry = link_entry_on(bad.line);
    put_told(text, bad, entry)?;
    if let LineFault::Unknown = bad.why {
        return put_near(alloc, text, modules, bad.opening, entry);
    }
    Ok(())
}

/// Whether a byte is shown as it is: 20H to 7EH.
fn is_printed(byte: u8) -> bool
    ensures { result ≡ is_printed byte }
{
    byte >= 0x20 && byte <= 0x7E
}

/// Appends a byte as it is safe on a terminal.
fn put_shown_byte(text: &mut Vec<u8>, byte: u8) -> Result<(), AllocError>
    ensures { AddsText result text.old.items text.new.items (shown_byte byte) }
{
    if is_printed(byte) {
        return text.extend_from_slice(&[byte]);
    }
    text.extend_from_slice(b"\\x")?;
    put_byte(text, byte)
}

/// Appends bytes as they are safe on a terminal.
fn put_shown_bytes(text: &mut Vec<u8>, bytes: &[u8]) -> Result<(), AllocError>
    ensures { AddsText result text.old.items text.new.items (flat_map shown_byte bytes.now) }
{
    for byte in bytes {
        put_shown_byte(text, *byte)?;
    }
    Ok(())
}

/// The first bytes of a text, 70 at most.
fn front_of(text: &[u8]) -> &[u8]
    ensures { result.now ≡ take 70 text.now }
{
    if text.len() > SHOWN {
        &text[..SHOWN]
    } else {
        text
    }
}

/// Appends the front of a line as it is safe on a terminal.
fn put_shown(text: &mut Vec<u8>, line: &[u8]) -> Result<(), AllocError>
    ensures { AddsText result text.old.items text.new.items (shown_line line.now) }
{
    put_shown_bytes(text, front_of(cut(line, b'\r').0))
}

/// The lines of a fault of a line of a link text: `line`, the number of the line from 1, and what is wrong with it; and then the line, its first 70
/// bytes. A byte outside 20H to 7EH is shown as `\x` and two digits.
///
/// # Errors
///
/// `AllocError` if memory runs out.
pub(crate) fn text_lines(
    alloc: Global,
    modules: &[Checked],
    text: &[u8],
    number: u64,
    why: LineFault,
) -> Result<Vec<u8>, AllocError>
    ensures { IfOk result (λ lines. lines.items ≡ text_lines (typed_modules modules.now) text.now number why) }
{
    let before = number.saturating_sub(1);
    let line = line_at(text, before).unwrap_or(&[]);
    let bad = BadLine {
        line,
        opening: opening_before(text, before),
        why,
    };
    let mut lines = Vec::new(alloc);
    lines.extend_from_slice(b"line ")?;
    put_decimal(&mut lines, number)?;
    lines.extend_from_slice(b": ")?;
    put_what(alloc, &mut lines, modules, bad)?;
    lines.extend_from_slice(b"\n  ")?;
    put_shown(&mut lines, line)?;
    lines.extend_from_slice(b"\n")?;
    Ok(lines)
}
