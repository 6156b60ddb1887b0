//! The text of `omf-lib find`: which member has a public, and how the dictionary leads there.

ghost use Rattle.std.specs.Prelude.{◌≡◌, ◌<◌, ◌++◌, ◌&&◌, ◌||◌, not, List, ℕ, Bool, IfOk, OnOk, codes, option_map, string_bytes};
ghost use Rattle.std.specs.Io.KnownBytes.{Appends};
ghost use Rattle.omf_frame.specs.Bytes.{AddsText};
ghost use Rattle.omf_host.specs.Lines.{failure_line};
ghost use Rattle.omf_library.specs.Dictionary.{IsBucket, block_count, block_of};
ghost use Rattle.omf_library.specs.LibraryMembers.{names_kept};
ghost use Rattle.omf_making.specs.Names.{names_seen};
ghost use Rattle.omf_lib.specs.Find.{any_profile, AreNamesFound, AreNamesIn, ArePlaces, entry_text, found_word, is_nowhere, is_outside, IsEntry, IsEntryText, IsFirstSpelled, IsFirstSpelledIn, IsSpelledAt, IsFound, IsFoundIn, IsNameFound, name_text, near_public, near_words, nowhere_reason, outside_text, public_text, publics_text, refused_status};
ghost use Rattle.omf_lib.specs.Members.{AreAllPublics, ArePublics, is_public, public_seen, publics_among, publics_seen, Public};

use crate::asked::Find;
use crate::fault::Fault;
use crate::library::{Library, read_library};
use crate::listing::put_public;
use crate::members::taken_of;
use crate::names::is_same_name;
use crate::near::{bare, is_near};
use crate::shown::{Stop, send, status_of};
use crate::text::put_fault;
use omf_check::Profile;
use omf_frame::Sink;
use omf_host::{Status, put_name, put_quoted};
use omf_library::{BUCKETS, Bucket, Dictionary, Header, Rule, Sought, Span};
use omf_making::{Defined, Judgement, Kind, defined_names};
use std::alloc::{AllocError, Global};
use std::fmt::Write;

/// A public: the number of its member, and its name.
#[derive(Drop)]
struct Listed {
    member: usize,
    name: Vec<u8>,
}

/// Whether a name is that of a PUBDEF or of a COMDAT that was lowered.
fn is_public(kind: Kind) -> bool
    ensures { result ≡ is_public kind }
{
    match kind {
        Kind::Public | Kind::Comdat => true,
        Kind::Import | Kind::Communal | Kind::Alias => false,
    }
}

/// Appends the publics among the names of a module.
fn push_named(all: &mut Vec<Listed>, member: usize, names: Vec<Defined>) -> Result<(), AllocError>
    ensures { OnOk result (publics_seen all.new.items ≡ publics_seen all.old.items ++ publics_among member (names_seen names.items)) }
{
    for defined in names {
        let Defined { kind, name } = defined;
        if is_public(kind) {
            all.push(Listed { member, name })?;
        }
    }
    Ok(())
}

/// Appends the publics of a member. One that no program takes has none.
fn push_publics(
    alloc: Global,
    all: &mut Vec<Listed>,
    number: usize,
    member: &Span<'_>,
) -> Result<(), AllocError>
    ensures { OnOk result ((own : List Public) × ArePublics any_profile number member.now.bytes.now own × (publics_seen all.new.items ≡ publics_seen all.old.items ++ own)) }
{
    let profile = Profile {
        refuse_vendor_comments: false,
    };
    match taken_of(alloc, profile, member.bytes)? {
        Judgement::Taken(taken) => push_named(all, number, defined_names(alloc, &taken.module)?),
        Judgement::Refused(_) => Ok(()),
    }
}

/// The publics of the members, in order.
fn all_publics(alloc: Global, members: &[Span<'_>]) -> Result<Vec<Listed>, AllocError>
    ensures { IfOk result (λ all. AreAllPublics any_profile 0 members.now (publics_seen all.items)) }
{
    let mut all = Vec::new(alloc);
    for (number, member) in members.iter().enumerate() {
        push_publics(alloc, &mut all, number, member)?;
    }
    Ok(all)
}

/// Appends the line of a public, if it has this name.
fn put_matching(
    text: &mut String,
    is_case_sensitive: bool,
    public: &Listed,
    name: &[u8],
) -> Result<(), AllocError>
    ensures { AddsText result (string_bytes text.old) (string_bytes text.new) (public_text is_case_sensitive name.now (public_seen public.now)) }
{
    if is_same_name(is_case_sensitive, public.name.as_slice(), name) {
        put_public(text, public.member, public.name.as_slice())
    } else {
        Ok(())
    }
}

/// Appends a line for each public of a name.
fn put_publics(
    text: &mut String,
    is_case_sensitive: bool,
    all: &[Listed],
    name: &[u8],
) -> Result<(), AllocError>
    ensures { AddsText result (string_bytes text.old) (string_bytes text.new) (publics_text is_case_sensitive name.now (publics_seen all.now)) }
{
    let mut rest = all;
    while let [public, others @ ..] = rest {
        put_matching(text, is_case_sensitive, public, name)?;
        rest = others;
    }
    Ok(())
}

/// The first entry of a name: its page, and the name as it is spelled there.
#[derive(Clone, Copy)]
struct First<'a> {
    page: u16,
    name: &'a [u8],
}

/// The entry of a bucket, if it is one of a name.
fn spelled_at<'a>(is_case_sensitive: bool, bucket: Bucket<'a>, name: &[u8]) -> Option<First<'a>>
    ensures { (block : List ℕ) → (number : ℕ) → IsBucket block number bucket.entry → IsSpelledAt is_case_sensitive block number name.now result }
{
    match bucket {
        Bucket::Entry { page, name: own } if is_same_name(is_case_sensitive, own, name) => {
            Some(First { page, name: own })
        }
        Bucket::Entry { .. } | Bucket::Empty | Bucket::Outside => None,
    }
}

/// The first entry of a name in a block.
fn first_in_block<'a>(dictionary: Dictionary<'a>, number: usize, name: &[u8]) -> Option<First<'a>>
    requires { number < block_count dictionary.bytes.now }
    ensures { IsFirstSpelledIn dictionary.entry.is_case_sensitive (block_of dictionary.entry.bytes.now number) name.now result }
{
    for bucket in 0..BUCKETS {
        let found = spelled_at(
            dictionary.is_case_sensitive,
            dictionary.bucket(number, bucket),
            name,
        );
        if let Some(first) = found {
            return Some(first);
        }
    }
    None
}

/// The first entry of a name, in the order of the blocks and their buckets, wherever its hash is.
fn first_entry<'a>(dictionary: Dictionary<'a>, name: &[u8]) -> Option<First<'a>>
    ensures { IsFirstSpelled dictionary.entry.is_case_sensitive dictionary.entry.bytes.now name.now result }
{
    for number in 0..dictionary.blocks() {
        match first_in_block(dictionary, number, name) {
            Some(first) => return Some(first),
            None => {}
        }
    }
    None
}

/// What a dictionary has for a name: the first entry, and what the two searches find.
#[derive(Clone, Copy)]
struct Entry<'a> {
    first: Option<First<'a>>,
    restart: Sought,
    keep: Sought,
}

/// Whether names that differ in case differ.
fn is_sensitive(dictionary: Dictionary<'_>, ignores_case: bool) -> bool
    ensures { result ≡ (dictionary.entry.is_case_sensitive && not ignores_case) }
{
    dictionary.is_case_sensitive && !ignores_case
}

/// What a dictionary has for a name.
fn entry_of<'a>(dictionary: Dictionary<'a>, ignores_case: bool, name: &[u8]) -> Entry<'a>
    ensures { IsEntry (dictionary.entry.is_case_sensitive && not ignores_case) dictionary.entry.bytes.now name.now result }
{
    let compared = Dictionary {
        bytes: dictionary.bytes,
        is_case_sensitive: is_sensitive(dictionary, ignores_case),
    };
    Entry {
        first: first_entry(compared, name),
        restart: compared.search(Rule::Restart, name),
        keep: compared.search(Rule::Keep, name),
    }
}

/// Appends a word for a search that finds a page.
fn put_found(text: &mut String, found: Option<u16>, page: u16, word: &str) -> Result<(), AllocError>
    ensures { AddsText result (string_bytes text.old) (string_bytes text.new) (found_word found page word.now) }
{
    match found {
        Some(found) => {
            if found == page {
                text.push_str(word)
            } else {
                Ok(())
            }
        }
        None => Ok(()),
    }
}

/// Appends the line of the first entry of a name, if there is one.
fn put_entry(text: &mut String, entry: Entry<'_>) -> Result<(), AllocError>
    ensures { AddsText result (string_bytes text.old) (string_bytes text.new) (entry_text entry.entry) }
{
    let Some(First { page, name }) = entry.first else {
        return Ok(());
    };
    write!(text, "E {page} ")?;
    put_quoted(text, name)?;
    put_found(text, entry.restart.page, page, " restart")?;
    put_found(text, entry.keep.page, page, " keep")?;
    text.push('\n')
}

/// Appends the line of the first entry of a name, if there is a dictionary with one.
fn put_first_entry(
    text: &mut String,
    dictionary: Option<Dictionary<'_>>,
    ignores_case: bool,
    name: &[u8],
) -> Result<(), AllocError>
    ensures { OnOk result ((own : List ℕ) × IsEntryText ignores_case dictionary.entry name.now own × (string_bytes text.new ≡ string_bytes text.old ++ own)) }
{
    match dictionary {
        Some(dictionary) => {
            put_entry(text, entry_of(dictionary, ignores_case, name))?;
            Ok(())
        }
        None => Ok(()),
    }
}

/// Names are looked up among these.
#[derive(Clone, Copy)]
struct Sources<'a> {
    ignores_case: bool,
    dictionary: Option<Dictionary<'a>>,
    publics: &'a [Listed],
}

/// The places of a name; empty if it is nowhere.
fn places_of(alloc: Global, sources: Sources<'_>, name: &[u8]) -> Result<String, AllocError>
    ensures { IfOk result (λ text. ArePlaces sources.entry.ignores_case sources.entry.dictionary (publics_seen sources.entry.publics.now) name.now (string_bytes text)) }
{
    let mut text = String::new(alloc);
    put_publics(&mut text, !sources.ignores_case, sources.publics, name)?;
    put_first_entry(&mut text, sources.dictionary, sources.ignores_case, name)?;
    Ok(text)
}

/// Whether a text is empty.
fn is_nowhere(text: &[u8]) -> bool
    ensures { result ≡ is_nowhere text.now }
{
    match text {
        [] => true,
        [_, ..] => false,
    }
}

/// The name of the first public that is near to a name.
fn near_public<'a>(
    alloc: Global,
    publics: &'a [Listed],
    name: &[u8],
) -> Result<Option<&'a [u8]>, AllocError>
    ensures { IfOk result (λ near. option_map (λ n. n.now) near ≡ near_public (publics_seen publics.entry.now) name.now) }
{
    let counted = bare(alloc, name)?;
    for public in publics {
        if is_near(alloc, &counted, public.name.as_slice())? {
            return Ok(Some(public.name.as_slice()));
        }
    }
    Ok(None)
}

/// Appends that there is a near name, if there is one.
fn put_near(text: &mut String, near: Option<&[u8]>) -> Result<(), AllocError>
    ensures { AddsText result (string_bytes text.old) (string_bytes text.new) (near_words (option_map (λ n. n.now) near.entry)) }
{
    match near {
        Some(name) => {
            text.push_str("; there is ")?;
            put_quoted(text, name)
        }
        None => Ok(()),
    }
}

/// Why a name is refused that is nowhere.
fn reason_of(alloc: Global, publics: &[Listed], name: &[u8]) -> Result<String, AllocError>
    ensures { IfOk result (λ reason. string_bytes reason ≡ nowhere_reason (publics_seen publics.now) name.now) }
{
    let near = near_public(alloc, publics, name)?;
    let mut reason = String::from_str(alloc, "no such public")?;
    put_near(&mut reason, near)?;
    Ok(reason)
}

/// Appends the line of a name that is refused.
fn put_refused(text: &mut String, name: &[u8], reason: &str) -> Result<(), AllocError>
    ensures { AddsText result (string_bytes text.old) (string_bytes text.new) (failure_line (codes "refused") name.now reason.now) }
{
    text.push_str("refused ")?;
    put_name(text, name)?;
    text.push_str(": ")?;
    text.push_str(reason)?;
    text.push_str("\n")
}

/// Appends the line of a name that is nowhere.
fn put_nowhere(text: &mut String, publics: &[Listed], name: &[u8]) -> Result<(), AllocError>
    ensures { OnOk result (string_bytes text.new ≡ string_bytes text.old ++ failure_line (codes "refused") name.now (nowhere_reason (publics_seen publics.now) name.now)) }
{
    let reason = reason_of(*text.allocator(), publics, name)?;
    put_refused(text, name, reason.as_str())
}

/// Appends the places of a name, or that it is nowhere. Returns whether it is refused.
fn put_places(
    text: &mut String,
    publics: &[Listed],
    name: &[u8],
    places: &str,
) -> Result<bool, AllocError>
    ensures { IfOk result (λ is_refused. (is_refused ≡ is_nowhere places.now) × (string_bytes text.new ≡ string_bytes text.old ++ name_text (publics_seen publics.now) name.now places.now)) }
{
    if is_nowhere(places.as_bytes()) {
        put_nowhere(text, publics, name)?;
        Ok(true)
    } else {
        text.push_str(places)?;
        Ok(false)
    }
}

/// Appends the text of a name. Returns whether it is refused.
fn put_sought(text: &mut String, sources: Sources<'_>, name: &[u8]) -> Result<bool, AllocError>
    ensures { IfOk result (λ is_refused. (own : List ℕ) × IsNameFound sources.entry.ignores_case sources.entry.dictionary (publics_seen sources.entry.publics.now) name.now is_refused own × (string_bytes text.new ≡ string_bytes text.old ++ own)) }
{
    let places = places_of(*text.allocator(), sources, name)?;
    let is_refused = put_places(text, sources.publics, name, places.as_str())?;
    Ok(is_refused)
}

/// Whether one of two is.
pub fn is_either(one: bool, other: bool) -> bool
    ensures { result ≡ (one || other) }
{
    one || other
}

/// Appends the text of each name. Returns whether one is refused.
fn put_names(text: &mut String, sources: Sources<'_>, names: &[Vec<u8>]) -> Result<bool, AllocError>
    ensures { IfOk result (λ is_refused. (own : List ℕ) × AreNamesFound sources.entry.ignores_case sources.entry.dictionary (publics_seen sources.entry.publics.now) (names_kept names.now) is_refused own × (string_bytes text.new ≡ string_bytes text.old ++ own)) }
{
    let mut is_refused = false;
    for name in names {
        let is_one_refused = put_sought(text, sources, name)?;
        is_refused = is_either(is_refused, is_one_refused);
    }
    Ok(is_refused)
}

/// Appends the fault of a dictionary that is not there. Returns whether there is none.
fn put_outside(
    text: &mut String,
    header: Header,
    dictionary: Option<Dictionary<'_>>,
) -> Result<bool, AllocError>
    ensures { IfOk result (λ is_refused. (is_refused ≡ is_outside dictionary.entry) × (string_bytes text.new ≡ string_bytes text.old ++ outside_text header dictionary.entry)) }
{
    match dictionary {
        Some(_) => Ok(false),
        None => {
            put_fault(text, Fault::DictionaryOutside(header.dictionary as usize))?;
            Ok(true)
        }
    }
}

/// Appends the text of the names in a library with this dictionary. Returns whether one is refused.
fn put_named(
    text: &mut String,
    asked: &Find,
    library: &Library<'_>,
    dictionary: Option<Dictionary<'_>>,
) -> Result<bool, AllocError>
    ensures { IfOk result (λ is_refused. (own : List ℕ) × AreNamesIn asked.now library.now.spans.members.items dictionary.entry is_refused own × (string_bytes text.new ≡ string_bytes text.old ++ own)) }
{
    let publics = all_publics(*text.allocator(), library.spans.members.as_slice())?;
    let sources = Sources {
        ignores_case: asked.ignores_case,
        dictionary,
        publics: publics.as_slice(),
    };
    let is_refused = put_names(text, sources, asked.names.as_slice())?;
    Ok(is_refused)
}

/// Appends what is printed for a library. Returns whether it is refused.
fn put_library(text: &mut String, asked: &Find, library: &Library<'_>) -> Result<bool, AllocError>
    ensures { IfOk result (λ is_refused. (own : List ℕ) × IsFoundIn asked.now library.now.header library.now.bytes.now library.now.spans.members.items library.now.spans.end is_refused own × (string_bytes text.new ≡ string_bytes text.old ++ own)) }
{
    match library.spans.end {
        Ok(end) => {
            let dictionary = library.dictionary_after(end);
            let is_outside = put_outside(text, library.header, dictionary)?;
            let is_refused = put_named(text, asked, library, dictionary)?;
            Ok(is_either(is_outside, is_refused))
        }
        Err(fault) => {
            put_fault(text, Fault::from(fault))?;
            Ok(true)
        }
    }
}

/// Appends what is printed for a file. Returns whether it is refused.
fn put_file(text: &mut String, asked: &Find, bytes: &[u8]) -> Result<bool, AllocError>
    ensures { IfOk result (λ is_refused. (own : List ℕ) × IsFound asked.now bytes.now is_refused own × (string_bytes text.new ≡ string_bytes text.old ++ own)) }
{
    match read_library(*text.allocator(), bytes)? {
        Ok(library) => {
            let is_refused = put_library(text, asked, &library)?;
            Ok(is_refused)
        }
        Err(fault) => {
            put_fault(text, Fault::from(fault))?;
            Ok(true)
        }
    }
}

/// Writes where names are in a library; or why a file is none. Returns the status.
pub fn find<K: Sink>(
    alloc: Global,
    writer: &mut K,
    asked: &Find,
    bytes: &[u8],
) -> Result<Status, Stop>
    ensures { IfOk result (λ status. (is_refused : Bool) × (text : List ℕ) × IsFound asked.now bytes.now is_refused text × (status ≡ refused_status is_refused) × Appends (K.seen writer.old).bytes (K.seen writer.new).bytes text) }
{
    let mut text = String::new(alloc);
    let is_refused = put_file(&mut text, asked, bytes)?;
    send(writer, text.as_str())?;
    Ok(status_of(is_refused))
}
