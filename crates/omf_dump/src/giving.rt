//! What records give later ones that are not read, but of which the fields are all there.

ghost use Rattle.std.specs.Prelude.{◌≡◌, ◌+◌, ◌-◌, ◌++◌, [], drop, IfOk, None, OnOk, Some, is_some, length, option_map, option_to_list, unwrap_or, ◌<◌};
ghost use Rattle.omf_records.specs.Values.{Carried};
ghost use Rattle.omf_dump.specs.Gives.{after_head, after_item, after_steps, are_known, clear_size, comdat_data, data_of, effect_of, external_if, external_name, externals_of, externs_if, fixups_if, front_index, front_name, given_as, given_by, group_name, group_of, is_clear, is_count, is_fixup, is_item_known, item_parts, segment_front, segment_name, segment_of};
ghost use Rattle.omf_dump.specs.Inner.Keeping.{with_contents};
ghost use Rattle.omf_dump.specs.Inner.Showing.{Keeps};
ghost use Rattle.omf_dump.specs.Raw.{comdat_offset};

use crate::encoded::{
    after_first, first_of, index_of, index_size, is_near, is_there, left_by, name_size, size_of,
};
use crate::known::{Data, Known, Tables, name_of};
use crate::layout::{head_steps, item_steps, kind, when};
use crate::part::{after, first};
use crate::raw::{at_least_one, comdat_offset, has_blocks};
use crate::step::Step;
use omf_frame::{Index, Name, RecordType, Width};
use std::alloc::AllocError;

/// Whether a communal's length begins with this byte.
fn is_count(byte: u8) -> bool
    ensures { result ≡ is_count byte }
{
    byte <= 0x80 || byte == 0x81 || byte == 0x84 || byte == 0x88
}

/// Whether the first byte of a field leaves no doubt about the bytes after it.
fn is_clear(step: Step, byte: u8) -> bool
    ensures { result ≡ is_clear step byte }
{
    match step {
        Step::Communal => is_near(u16::from(byte)) || byte == 0x61,
        Step::NearLength | Step::FarCount | Step::FarSize => is_count(byte),
        Step::Fix => byte / 128 % 2 == 1 || byte / 16 % 8 < 6,
        _ => true,
    }
}

/// The bytes after these fields; None if one is cut, or in doubt.
fn after_steps<'a>(width: Width, last: u16, steps: &[Step], bytes: &'a [u8]) -> Option<&'a [u8]>
    ensures { option_map (λ b. b.now) result ≡ after_steps width last steps.now bytes.entry.now }
{
    match steps {
        [] => Some(bytes),
        [step, others @ ..] => {
            if !is_there(when(*step), last) {
                return after_steps(width, last, others, bytes);
            }
            let size = size_of(width, kind(*step), bytes)?;
            if !is_clear(*step, first_of(bytes)) {
                return None;
            }
            let (front, rest) = bytes.split_at(size);
            after_steps(width, left_by(*step, front, last), others, rest)
        }
    }
}

/// The bytes after the fields at the beginning of a record.
fn after_head<'a>(width: Width, kind: RecordType, body: &'a [u8]) -> Option<&'a [u8]>
    ensures { option_map (λ b. b.now) result ≡ after_head width kind body.entry.now }
{
    after_steps(width, 0, head_steps(kind), body)
}

/// The bytes after an item.
fn after_item<'a>(width: Width, kind: RecordType, bytes: &'a [u8]) -> Option<&'a [u8]>
    ensures { option_map (λ b. b.now) result ≡ after_item width kind bytes.entry.now }
{
    after_steps(width, 0, item_steps(kind, first_of(bytes)), bytes)
}

/// The size of an item; all bytes if it is cut or in doubt.
fn clear_size(width: Width, kind: RecordType, bytes: &[u8]) -> usize
    ensures { result ≡ clear_size width kind bytes.now }
{
    match after_item(width, kind, bytes) {
        Some(rest) => bytes.len().saturating_sub(rest.len()),
        None => bytes.len(),
    }
}

/// The index at the front.
fn front_index(bytes: &[u8]) -> u16
    ensures value { result ≡ front_index bytes.now }
    ensures small { result < 32768 }
{
    index_of(first(index_size(bytes).unwrap_or(0), bytes))
}

/// The name at the front.
#[tactic(auto, using(crate::proofs::GivesLaws::named_short))]
fn front_name<'a>(bytes: &'a [u8]) -> &'a [u8]
    ensures value { result.now ≡ front_name bytes.entry.now }
    ensures short { length result.now < 256 }
{
    match name_size(bytes) {
        Some(size) => after_first(first(size, bytes)),
        None => &[],
    }
}

/// The name of the external that an item defines.
fn external_name<'a>(names: &[Name<'a>], kind: RecordType, item: &'a [u8]) -> Option<Name<'a>>
    ensures { result ≡ external_name names.now kind item.entry.now }
{
    match kind {
        RecordType::Cextdef => name_of(names, usize::from(front_index(item))),
        _ => Some(Name(front_name(item))),
    }
}

/// The same, if the fields of the item are all there.
fn external_if<'a>(
    names: &[Name<'a>],
    width: Width,
    kind: RecordType,
    item: &'a [u8],
) -> Option<Name<'a>>
    ensures { result ≡ external_if names.now width kind item.entry.now }
{
    if after_item(width, kind, item).is_some() {
        external_name(names, kind, item)
    } else {
        None
    }
}

/// Whether a subrecord of a FIXUPP is a fixup of which all fields are there.
fn is_fixup(width: Width, item: &[u8]) -> bool
    ensures { result ≡ is_fixup width item.now }
{
    first_of(item) >= 128 && after_item(width, RecordType::Fixupp, item).is_some()
}

/// Whether what an item gives is known.
fn is_item_known(names: &[Name<'_>], width: Width, kind: RecordType, item: &[u8]) -> bool
    ensures { result ≡ is_item_known names.now width kind item.now }
{
    match kind {
        RecordType::Fixupp => is_fixup(width, item),
        _ => external_if(names, width, kind, item).is_some(),
    }
}

/// The bytes after an item; one byte less at least.
fn next_item<'a>(width: Width, kind: RecordType, bytes: &'a [u8]) -> &'a [u8]
    ensures { result.now ≡ drop (1 + (clear_size width kind bytes.entry.now - 1)) bytes.entry.now }
{
    after(1 + clear_size(width, kind, bytes).saturating_sub(1), bytes)
}

/// Whether what the items of a record give is known.
#[tactic(auto, using(crate::proofs::GivesLaws::all_next, crate::proofs::GivesLaws::not_all, crate::proofs::GivesLaws::all_none, crate::proofs::GivesLaws::shorter))]
fn are_known(names: &[Name<'_>], width: Width, kind: RecordType, body: &[u8]) -> bool
    ensures { result ≡ are_known names.now width kind body.now }
{
    let mut left = body;
    while !left.is_empty() {
        if !is_item_known(names, width, kind, left) {
            return false;
        }
        left = next_item(width, kind, left);
    }
    true
}

/// Keeps an external, if there is one.
fn push_if<'a>(externals: &mut Vec<Name<'a>>, name: Option<Name<'a>>) -> Result<(), AllocError>
    ensures { OnOk result (externals.new.items ≡ externals.old.items ++ option_to_list name.entry) }
{
    match name {
        Some(name) => {
            externals.push(name)?;
            Ok(())
        }
        None => Ok(()),
    }
}

/// Keeps the external that an item defines, if its name is known.
fn push_next<'a>(
    tables: &mut Tables<'a>,
    width: Width,
    kind: RecordType,
    item: &'a [u8],
) -> Result<(), AllocError>
    ensures names { OnOk result (tables.new.names ≡ tables.old.names) }
    ensures segments { OnOk result (tables.new.segments ≡ tables.old.segments) }
    ensures groups { OnOk result (tables.new.groups ≡ tables.old.groups) }
    ensures externals { OnOk result (tables.new.externals ≡ tables.old.externals ++ option_to_list (external_if tables.old.names width kind item.entry.now)) }
{
    let name = external_if(&tables.names, width, kind, item);
    push_if(&mut tables.externals, name)
}

/// Keeps the externals that the items of a record define.
#[tactic(auto, using(crate::proofs::GivesLaws::shorter))]
fn push_externals<'a>(
    tables: &mut Tables<'a>,
    width: Width,
    kind: RecordType,
    body: &'a [u8],
) -> Result<(), AllocError>
    ensures names { OnOk result (tables.new.names ≡ tables.old.names) }
    ensures segments { OnOk result (tables.new.segments ≡ tables.old.segments) }
    ensures groups { OnOk result (tables.new.groups ≡ tables.old.groups) }
    ensures externals { OnOk result (tables.new.externals ≡ tables.old.externals ++ externals_of tables.old.names width kind (item_parts width kind 0 body.entry.now)) }
{
    let mut left = body;
    while !left.is_empty() {
        push_next(tables, width, kind, left)?;
        left = next_item(width, kind, left);
    }
    Ok(())
}

/// The fields of a SEGDEF before the index of its name.
fn segment_front() -> &'static [Step]
    ensures { result.now ≡ segment_front }
{
    &[
        Step::Attributes,
        Step::AbsoluteFrame,
        Step::AbsoluteOffset,
        Step::Length,
    ]
}

/// The index of a segment's name.
fn segment_name(width: Width, body: &[u8]) -> Option<Index>
    ensures { result ≡ segment_name width body.now }
{
    if after_head(width, RecordType::Segdef, body).is_none() {
        return None;
    }
    match after_steps(width, 0, segment_front(), body) {
        Some(rest) => Some(Index(front_index(rest))),
        None => None,
    }
}

/// The index of a group's name.
fn group_name(width: Width, body: &[u8]) -> Option<Index>
    ensures { result ≡ group_name width body.now }
{
    if after_head(width, RecordType::Grpdef, body).is_some() {
        Some(Index(front_index(body)))
    } else {
        None
    }
}

/// The data of a COMDAT, unless they are iterated.
fn comdat_data<'a>(width: Width, body: &'a [u8]) -> Option<&'a [u8]>
    ensures { option_map (λ b. b.now) result ≡ comdat_data width body.entry.now }
{
    if has_blocks(RecordType::Comdat, first_of(body)) {
        None
    } else {
        after_head(width, RecordType::Comdat, body)
    }
}

/// Keeps a segment with this name.
fn push_segment(tables: &mut Tables<'_>, name: Index) -> Result<(), AllocError>
    ensures { OnOk result (tables.new ≡ with_contents tables.old (segment_of name)) }
{
    tables.segments.push(name)?;
    Ok(())
}

/// Keeps a group with this name.
fn push_group(tables: &mut Tables<'_>, name: Index) -> Result<(), AllocError>
    ensures { OnOk result (tables.new ≡ with_contents tables.old (group_of name)) }
{
    tables.groups.push(name)?;
    Ok(())
}

/// A segment.
#[tactic(auto, using(crate::proofs::GivesLaws::name_given, crate::proofs::GivesLaws::segment_kept, crate::proofs::GivesLaws::no_name_given, crate::proofs::GivesLaws::no_name_kept))]
fn give_segment(known: &mut Known<'_>, width: Width, body: &[u8]) -> Result<bool, AllocError>
    ensures given { IfOk result (λ is_given. is_given ≡ is_some (option_map segment_of (segment_name width body.now))) }
    ensures keeps { OnOk result (Keeps known.old (unwrap_or (option_map segment_of (segment_name width body.now)) (Carried [])) known.new) }
{
    match segment_name(width, body) {
        Some(name) => {
            push_segment(&mut known.tables, name)?;
            Ok(true)
        }
        None => Ok(false),
    }
}

/// A group.
#[tactic(auto, using(crate::proofs::GivesLaws::name_given, crate::proofs::GivesLaws::group_kept, crate::proofs::GivesLaws::no_name_given, crate::proofs::GivesLaws::no_name_kept))]
fn give_group(known: &mut Known<'_>, width: Width, body: &[u8]) -> Result<bool, AllocError>
    ensures given { IfOk result (λ is_given. is_given ≡ is_some (option_map group_of (group_name width body.now))) }
    ensures keeps { OnOk result (Keeps known.old (unwrap_or (option_map group_of (group_name width body.now)) (Carried [])) known.new) }
{
    match group_name(width, body) {
        Some(name) => {
            push_group(&mut known.tables, name)?;
            Ok(true)
        }
        None => Ok(false),
    }
}

/// Whether what the items of a record give is known, by the names so far.
fn are_known_by(tables: &Tables<'_>, width: Width, kind: RecordType, body: &[u8]) -> bool
    ensures { result ≡ are_known tables.now.names width kind body.now }
{
    are_known(&tables.names, width, kind, body)
}

/// Externals.
fn give_externals<'a>(
    known: &mut Known<'a>,
    width: Width,
    kind: RecordType,
    body: &'a [u8],
) -> Result<bool, AllocError>
    ensures given { IfOk result (λ is_given. is_given ≡ is_some (externs_if known.old.tables.names width kind body.entry.now)) }
    ensures keeps { OnOk result (Keeps known.old (unwrap_or (externs_if known.old.tables.names width kind body.entry.now) (Carried [])) known.new) }
{
    if !are_known_by(&known.tables, width, kind, body) {
        return Ok(false);
    }
    push_externals(&mut known.tables, width, kind, body)?;
    Ok(true)
}

/// The data of a COMDAT.
#[tactic(auto, using(crate::proofs::GivesLaws::data_given, crate::proofs::GivesLaws::data_kept, crate::proofs::GivesLaws::no_data_given, crate::proofs::GivesLaws::no_data_kept))]
fn give_data<'a>(known: &mut Known<'a>, width: Width, body: &'a [u8]) -> bool
    ensures given { result ≡ is_some (option_map (data_of (comdat_offset width body.entry.now)) (comdat_data width body.entry.now)) }
    ensures keeps { Keeps known.old (unwrap_or (option_map (data_of (comdat_offset width body.entry.now)) (comdat_data width body.entry.now)) (Carried [])) known.new }
{
    match comdat_data(width, body) {
        Some(bytes) => {
            let offset = comdat_offset(width, body);
            known.fixed = Some(Data { offset, bytes });
            true
        }
        None => false,
    }
}

/// Whether a FIXUPP has fixups alone, of which all fields are there. It then gives nothing, and changes no thread.
#[tactic(auto, using(crate::proofs::GivesLaws::fixups_given))]
fn are_fixups(tables: &Tables<'_>, width: Width, body: &[u8]) -> bool
    ensures { result ≡ is_some (fixups_if tables.now.names width body.now) }
{
    are_known_by(tables, width, RecordType::Fixupp, body)
}

/// What records of a type define or change.
#[derive(Clone, Copy)]
pub enum Effect {
    /// A segment.
    Segment,
    /// A group.
    Group,
    /// Externals.
    Externals,
    /// Threads.
    Threads,
    /// The data that fixups change.
    Data,
    /// None of these, or not by their bytes alone.
    Nothing,
}

/// What records of this type define or change.
fn effect_of(kind: RecordType) -> Effect
    ensures { result ≡ effect_of kind }
{
    match kind {
        RecordType::Segdef => Effect::Segment,
        RecordType::Grpdef => Effect::Group,
        RecordType::Extdef
        | RecordType::Lextdef
        | RecordType::Comdef
        | RecordType::Lcomdef
        | RecordType::Cextdef => Effect::Externals,
        RecordType::Fixupp => Effect::Threads,
        RecordType::Comdat => Effect::Data,
        _ => Effect::Nothing,
    }
}

/// Keeps what a record with this effect gives, if that is known. Returns whether it is.
#[tactic(auto, using(crate::proofs::GivesLaws::fixups_kept, crate::proofs::GivesLaws::nothing_given))]
fn give_as<'a>(
    known: &mut Known<'a>,
    width: Width,
    kind: RecordType,
    effect: Effect,
    body: &'a [u8],
) -> Result<bool, AllocError>
    ensures given { IfOk result (λ is_given. is_given ≡ is_some (given_as effect known.old.tables.names width kind body.entry.now)) }
    ensures keeps { OnOk result (Keeps known.old (unwrap_or (given_as effect known.old.tables.names width kind body.entry.now) (Carried [])) known.new) }
{
    match effect {
        Effect::Segment => give_segment(known, width, body),
        Effect::Group => give_group(known, width, body),
        Effect::Externals => give_externals(known, width, kind, body),
        Effect::Threads => Ok(are_fixups(&known.tables, width, body)),
        Effect::Data => Ok(give_data(known, width, body)),
        Effect::Nothing => Ok(false),
    }
}

/// Keeps what a record of this type gives, if that is known. Returns whether it is.
pub(crate) fn give<'a>(
    known: &mut Known<'a>,
    width: Width,
    kind: RecordType,
    body: &'a [u8],
) -> Result<bool, AllocError>
    ensures given { IfOk result (λ is_given. is_given ≡ is_some (given_by known.old.tables.names width kind body.entry.now)) }
    ensures keeps { OnOk result (Keeps known.old (unwrap_or (given_by known.old.tables.names width kind body.entry.now) (Carried [])) known.new) }
{
    give_as(known, width, kind, effect_of(kind), body)
}
