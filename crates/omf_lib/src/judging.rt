//! The text of `omf-lib check`: what is wrong with a library, and what is odd about it.

ghost use Rattle.std.specs.Prelude.{◌≡◌, ◌<◌, ◌++◌, ◌∷◌, ◌/◌, [], List, ℕ, false, IfOk, OnOk};
ghost use Rattle.omf_check.specs.Module.{recs_of};
ghost use Rattle.omf_host.specs.declared.ending.Status.TheVariants as status;
ghost use Rattle.omf_library.specs.Dictionary.{block_count, is_case_sensitive};
ghost use Rattle.omf_making.specs.Names.{defined_names, names_seen};
ghost use Rattle.omf_lib.specs.Defining.{AreDefiners, Definer, definer_of, IsAllDefined, IsDefiner, IsLibraryDefined};
ghost use Rattle.omf_lib.specs.Keys.{all_keys, IsKeySet};

use crate::defining::{KeySet, add_member, home_of};
use crate::fault::{Fault, Named, Note, Public};
use crate::library::{Library, member_of, page_of, read_library};
use crate::members::{Member, Verdict, judge, taken_of};
use crate::noting::note_regions;
use crate::shown::{Shown, Stop};
use crate::text::put_note;
use crate::undefined::judge_definitions;
use omf_check::{Checked, Profile};
use omf_frame::Sink;
use omf_host::Status;
use omf_library::{BLOCK, BUCKETS, Bucket, Dictionary, Rule, Sought, Span, credit_of};
use omf_making::{Defined, Judgement, Kind, Refusal, defined_names};
use std::alloc::{AllocError, Global};
use std::collections::BTreeSet;
use std::fmt::Write;

/// The lines so far, and what was counted.
#[derive(Drop)]
struct Report {
    shown: Shown,
    /// The notes on members, which follow the faults.
    notes: String,
    publics: u64,
    entries: u64,
    /// What the searches may still cost. They end where it would be less than 0, so the time of a check is linear in the
    /// size of the library.
    credit: Option<u64>,
}

/// What it costs to pass a full block, beside what is read there: it takes about as long as to read this many characters.
const PASS: u64 = 48;

/// What the two searches of a name find: the page of a member, or none.
#[derive(Clone, Copy)]
struct Both {
    restart: Option<u16>,
    keep: Option<u16>,
}

impl Report {
    /// Searches for a name. Returns None once the searches have cost too much.
    fn search(&mut self, dictionary: Dictionary<'_>, rule: Rule, name: &[u8]) -> Option<Sought> {
        let credit = self.credit?;
        let sought = dictionary.search(rule, name);
        let passes = (sought.passed as u64).saturating_mul(PASS);
        self.credit = credit.checked_sub(sought.cost.saturating_add(passes));
        Some(sought)
    }

    /// Searches for a name by both rules. They differ only after a full block, so that one search will do if it passes none.
    /// Returns None once the searches have cost too much.
    fn search_twice(&mut self, dictionary: Dictionary<'_>, name: &[u8]) -> Option<Both> {
        let restart = self.search(dictionary, Rule::Restart, name)?;
        let keep = if restart.passed == 0 {
            restart.page
        } else {
            self.search(dictionary, Rule::Keep, name)?.page
        };
        Some(Both {
            restart: restart.page,
            keep,
        })
    }

    /// Searches for a name by the rule of the standard, and then by the other one. Returns None once the searches have cost
    /// too much.
    fn search_both(&mut self, dictionary: Dictionary<'_>, name: &[u8]) -> Option<Option<u16>> {
        let restart = self.search(dictionary, Rule::Restart, name)?;
        if restart.page.is_some() || restart.passed == 0 {
            return Some(restart.page);
        }
        Some(self.search(dictionary, Rule::Keep, name)?.page)
    }
}

/// Looks up a public of the member that begins at a page.
fn look_up(
    report: &mut Report,
    dictionary: Dictionary<'_>,
    page: Option<usize>,
    public: Public<'_>,
) -> Result<(), AllocError> {
    match report.search_both(dictionary, public.name) {
        None => Ok(()),
        Some(None) => report.shown.fault(Fault::NoEntry(public)),
        Some(Some(found)) if page == Some(usize::from(found)) => Ok(()),
        Some(Some(_)) => report.shown.fault(Fault::OtherMember(public)),
    }
}

/// Looks up a COMDAT of a member that is lowered. The entry may be that of another member.
fn look_up_comdat(
    report: &mut Report,
    dictionary: Dictionary<'_>,
    comdat: Public<'_>,
) -> Result<(), AllocError> {
    match report.search_both(dictionary, comdat.name) {
        Some(None) => report.shown.fault(Fault::NoEntry(comdat)),
        None | Some(Some(_)) => Ok(()),
    }
}

/// Looks up a name that a member defines, if it is to have an entry: a communal and an alias may have one, or none.
fn look_up_name(
    report: &mut Report,
    dictionary: Dictionary<'_>,
    page: Option<usize>,
    kind: Kind,
    name: Public<'_>,
) -> Result<(), AllocError> {
    match kind {
        Kind::Public => {
            report.publics = report.publics.saturating_add(1);
            look_up(report, dictionary, page, name)
        }
        Kind::Comdat => {
            report.publics = report.publics.saturating_add(1);
            look_up_comdat(report, dictionary, name)
        }
        Kind::Communal | Kind::Import | Kind::Alias => Ok(()),
    }
}

/// Looks up the names of a member, if there is a dictionary after the members.
fn look_up_all(
    report: &mut Report,
    library: &Library<'_>,
    member: &Member<'_>,
    names: &[Defined],
) -> Result<(), AllocError> {
    let Ok(end) = library.spans.end else {
        return Ok(());
    };
    let Some(dictionary) = library.dictionary_after(end) else {
        return Ok(());
    };
    let page = page_of(library.header, member.offset);
    for defined in names {
        let name = Public {
            offset: member.offset,
            member: member.number,
            name: defined.name.as_slice(),
        };
        look_up_name(report, dictionary, page, defined.kind, name)?;
    }
    Ok(())
}

/// Appends the fault of a member that no program takes.
fn put_refused(report: &mut Report, member: &Member<'_>, why: Refusal) -> Result<(), AllocError> {
    report.shown.fault(Fault::Member {
        offset: member.offset,
        member: member.number,
        reason: why.reason,
        place: why.place,
    })
}

/// The type of the record at which the check refuses a member; 0 if it accepts it.
fn refused_type(alloc: Global, profile: Profile, bytes: &[u8]) -> Result<u8, AllocError> {
    match judge(alloc, profile, bytes)? {
        Verdict::Refused { place, .. } => match bytes.get(place.start as usize) {
            Some(kind) => Ok(*kind),
            None => Ok(0),
        },
        Verdict::Accepted(_) => Ok(0),
    }
}

/// Appends a note on a member, if it is taken by its lowering.
fn note_lowered(
    report: &mut Report,
    profile: Profile,
    member: &Member<'_>,
    is_lowered: bool,
) -> Result<(), AllocError> {
    if !is_lowered {
        return Ok(());
    }
    let kind = refused_type(*report.shown.text.allocator(), profile, member.bytes)?;
    put_note(
        &mut report.notes,
        Note::Lowered {
            offset: member.offset,
            member: member.number,
            kind,
        },
    )
}

/// The names of a module that is taken of a member. Looks up its publics.
fn names_of(
    report: &mut Report,
    library: &Library<'_>,
    member: &Member<'_>,
    module: &Checked,
) -> Result<Vec<Defined>, AllocError>
    ensures { IfOk result (λ names. names_seen names.items ≡ defined_names (recs_of «module».now.bytes)) }
{
    let names = defined_names(*report.shown.text.allocator(), module)?;
    look_up_all(report, library, member, names.as_slice())?;
    Ok(names)
}

/// Looks up the publics of a module that is taken of a member, and adds the keys of its names.
fn judge_names(
    report: &mut Report,
    keys: &mut KeySet,
    library: &Library<'_>,
    member: &Member<'_>,
    module: &Checked,
) -> Result<(), AllocError>
    ensures { (done : List (List ℕ)) → IsKeySet keys.old done → OnOk result (IsKeySet keys.new (done ++ all_keys (is_case_sensitive library.now.header) (definer_of (member.now.offset / library.now.header.page) (recs_of «module».now.bytes) ∷ []))) }
{
    let names = names_of(report, library, member, module)?;
    let home = home_of(library.header, member.offset);
    add_member(*report.shown.text.allocator(), keys, home, names.as_slice())
}

/// Checks a member, looks up its publics, and adds the keys of its names.
fn judge_member(
    report: &mut Report,
    keys: &mut KeySet,
    profile: Profile,
    library: &Library<'_>,
    member: &Member<'_>,
) -> Result<(), AllocError>
    ensures { (done : List (List ℕ)) → IsKeySet keys.old done → OnOk result ((own : List Definer) × IsDefiner profile library.now.header.page member.now.offset member.now.bytes.now own × IsKeySet keys.new (done ++ all_keys (is_case_sensitive library.now.header) own)) }
{
    match taken_of(*report.shown.text.allocator(), profile, member.bytes)? {
        Judgement::Refused(why) => put_refused(report, member, why),
        Judgement::Taken(taken) => {
            judge_names(report, keys, library, member, &taken.module)?;
            note_lowered(report, profile, member, taken.is_lowered)
        }
    }
}

/// Checks the members of a library. Returns the keys of their names.
fn judge_members<K: Sink>(
    report: &mut Report,
    writer: &mut K,
    profile: Profile,
    library: &Library<'_>,
    members: &[Span<'_>],
) -> Result<KeySet, Stop>
    ensures { IfOk result (λ keys. (ds : List Definer) × AreDefiners profile library.now.header.page members.now ds × IsKeySet keys (all_keys (is_case_sensitive library.now.header) ds)) }
{
    let mut keys = BTreeSet::new(*report.shown.text.allocator());
    for (number, span) in members.iter().enumerate() {
        judge_member(
            report,
            &mut keys,
            profile,
            library,
            &member_of(number, span),
        )?;
        report.shown.flush(writer)?;
    }
    Ok(keys)
}

/// The pages at which members begin: true at the number of each.
fn pages_of(alloc: Global, library: &Library<'_>) -> Result<Vec<bool>, AllocError> {
    let mut pages = vec![in alloc; false; 65536]?;
    for member in library.spans.members.iter() {
        if let Some(page) = page_of(library.header, member.offset)
            && let Some(is_one) = pages.get_mut(page)
        {
            *is_one = true;
        }
    }
    Ok(pages)
}

/// Checks an entry of the dictionary. `known` is what the searches find, if another bucket points to this entry, so that it is counted.
fn judge_entry(
    report: &mut Report,
    dictionary: Dictionary<'_>,
    pages: &[bool],
    entry: Named<'_>,
    known: &mut Option<Both>,
) -> Result<(), AllocError> {
    if pages.get(usize::from(entry.page)) != Some(&true) {
        report.shown.fault(Fault::EntryNowhere(entry))?;
    }
    if known.is_none() {
        report.entries = report.entries.saturating_add(1);
        *known = report.search_twice(dictionary, entry.name);
    }
    let Some(found) = *known else {
        return Ok(());
    };
    if found.restart != Some(entry.page) {
        report.shown.fault(Fault::NotFound(entry))?;
    }
    if found.keep != Some(entry.page) {
        report.shown.fault(Fault::NotFoundKept(entry))?;
    }
    Ok(())
}

/// Checks the entries of a block, which begins at an offset of the file. Each is counted and searched once, however many buckets point to it.
fn judge_block(
    report: &mut Report,
    dictionary: Dictionary<'_>,
    pages: &[bool],
    start: usize,
    number: usize,
) -> Result<(), AllocError>
    requires { number < block_count dictionary.bytes.now }
{
    let first = BLOCK.saturating_mul(number);
    let mut found = [None; 256];
    for bucket in 0..BUCKETS {
        let offset = start.saturating_add(bucket);
        match dictionary.bucket(number, bucket) {
            Bucket::Empty => {}
            Bucket::Outside => report.shown.fault(Fault::EntryOutside(offset))?,
            Bucket::Entry { page, name } => {
                let entry = Named { offset, page, name };
                if let Some(byte) = dictionary.bytes.get(first.saturating_add(bucket))
                    && let Some(known) = found.get_mut(usize::from(*byte))
                {
                    judge_entry(report, dictionary, pages, entry, known)?;
                }
            }
        }
    }
    Ok(())
}

/// Checks the place of the dictionary, if the members have an end.
fn judge_place(shown: &mut Shown, library: &Library<'_>) -> Result<(), AllocError> {
    let Ok(end) = library.spans.end else {
        return Ok(());
    };
    let offset = library.dictionary_offset();
    if offset % BLOCK != 0 {
        shown.fault(Fault::DictionaryOffset(offset))?;
    }
    if library.dictionary_after(end).is_none() {
        shown.fault(Fault::DictionaryOutside(offset))?;
    }
    Ok(())
}

/// Checks the entries of the dictionary, block by block.
fn judge_entries<K: Sink>(
    report: &mut Report,
    writer: &mut K,
    library: &Library<'_>,
    dictionary: Dictionary<'_>,
) -> Result<(), Stop> {
    let pages = pages_of(*report.shown.text.allocator(), library)?;
    let start = library.dictionary_offset();
    for number in 0..dictionary.blocks() {
        let at = number.saturating_mul(BLOCK).saturating_add(start);
        judge_block(report, dictionary, &pages, at, number)?;
        report.shown.flush(writer)?;
    }
    if report.credit.is_none() {
        report.shown.fault(Fault::LongSearches(start))?;
    }
    Ok(())
}

/// Checks what is after the members, whose names have these keys. Returns whether there is a fault of the end, no dictionary after it, or a name that is
/// not defined.
fn judge_end<K: Sink>(
    report: &mut Report,
    writer: &mut K,
    library: &Library<'_>,
    keys: &KeySet,
) -> Result<bool, Stop>
    ensures { (ds : List Definer) → IsKeySet keys.now (all_keys (is_case_sensitive library.now.header) ds) → IfOk result (λ is_refused. is_refused ≡ false → IsLibraryDefined library.now ds) }
{
    match library.spans.end {
        Ok(end) => {
            let Some(dictionary) = library.dictionary_after(end) else {
                return Ok(true);
            };
            judge_entries(report, writer, library, dictionary)?;
            judge_definitions(&mut report.shown, writer, library, keys)
        }
        Err(fault) => {
            report.shown.fault(Fault::from(fault))?;
            Ok(true)
        }
    }
}

/// The status after all faults.
fn last_status(so_far: Status, is_refused: bool) -> Status
    ensures { result ≡ status.Done → is_refused ≡ false }
{
    if is_refused {
        so_far.worst(Status::Refused)
    } else {
        so_far
    }
}

/// Appends the line of a library without a fault.
fn put_counts(report: &mut Report, members: usize) -> Result<(), AllocError> {
    let publics = report.publics;
    let entries = report.entries;
    write!(
        &mut report.shown.text,
        "OK {members} members, {publics} publics, {entries} entries\n"
    )
}

/// Appends the lines of what is odd about a library.
fn put_notes(report: &mut Report, library: &Library<'_>) -> Result<(), AllocError> {
    note_regions(&mut report.shown.text, library)?;
    report.shown.text.push_str(report.notes.as_str())
}

/// Checks a library, and writes a line for each fault; or one with counts, if there is none. The notes follow. Returns the status.
fn judge_library<K: Sink>(
    report: &mut Report,
    writer: &mut K,
    profile: Profile,
    library: &Library<'_>,
) -> Result<Status, Stop>
    ensures { IfOk result (λ s. s ≡ status.Done → (ds : List Definer) × AreDefiners profile library.now.header.page library.now.spans.members.items ds × IsLibraryDefined library.now ds) }
{
    judge_place(&mut report.shown, library)?;
    let members = library.spans.members.as_slice();
    let keys = judge_members(report, writer, profile, library, members)?;
    let is_refused = judge_end(report, writer, library, &keys)?;
    let status = last_status(report.shown.status, is_refused);
    if status == Status::Done {
        put_counts(report, library.spans.members.len())?;
    }
    put_notes(report, library)?;
    Ok(status)
}

/// Writes the lines of a file. Returns the status.
fn judge_bytes<K: Sink>(
    report: &mut Report,
    writer: &mut K,
    profile: Profile,
    bytes: &[u8],
) -> Result<Status, Stop>
    ensures { IfOk result (λ s. s ≡ status.Done → IsAllDefined profile bytes.now) }
{
    match read_library(*report.shown.text.allocator(), bytes)? {
        Ok(library) => judge_library(report, writer, profile, &library),
        Err(fault) => {
            report.shown.fault(Fault::from(fault))?;
            Ok(Status::Refused)
        }
    }
}

/// Writes what is wrong with a file: a line for each fault, or a line with counts; then a line for each note. Returns the
/// status.
pub fn judge_file<K: Sink>(
    alloc: Global,
    writer: &mut K,
    profile: Profile,
    bytes: &[u8],
) -> Result<Status, Stop>
    ensures { IfOk result (λ s. s ≡ status.Done → IsAllDefined profile bytes.now) }
{
    let mut report = Report {
        shown: Shown::new(alloc),
        notes: String::new(alloc),
        publics: 0,
        entries: 0,
        credit: Some(credit_of(bytes.len())),
    };
    let status = judge_bytes(&mut report, writer, profile, bytes)?;
    report.shown.flush(writer)?;
    Ok(status)
}
