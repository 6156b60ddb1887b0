//! What a COMDAT refers to: the pattern of its segment, its name, and the instance that it is of.

ghost use Rattle.std.specs.Prelude.{◌≡◌, ◌+◌, ◌<◌, ◌≤◌, length, false, IfOk, IfErr, Ok, Err};
ghost use Rattle.omf_check.specs.Tables.{entry};
ghost use Rattle.omf_frame.specs.Types.{width_bytes};
ghost use Rattle.omf_image.specs.Inner.Expanding.{expanded_length};
ghost use Rattle.omf_image.specs.Limits.{profile_limits};
ghost use Rattle.omf_records.specs.Inner.Reads.{and_then};
ghost use Rattle.omf_records.specs.Layout.{fault};
ghost use Rattle.omf_records.specs.Values.{width};
ghost use Rattle.omf_lowering.specs.Comdats.{allocated, data_size, end_by, explicit, instance_at, instance_of, is_full, is_joined, joined, local_by, new_instance, own_of, pattern_of, resolved, text_by};
ghost use Rattle.omf_lowering.specs.Patches.{size_or_none};
ghost use Rattle.omf_lowering.specs.Values.{is_local_name};

use crate::comdat::{Base, Comdat, is_continued, is_iterated, is_local};
use crate::instances::{Instance, Instances};
use crate::names::Names;
use crate::tables::{Tables, is_local_name};
use crate::values::Pattern;
use omf_frame::{Index, Name, Reason, Width};
use omf_image::{Limits, expanded_len};
use omf_records::{At, Blocks, LayoutFault};
use std::marker::Model;

/// The most segments: an index has 15 bits.
const SEGMENT_LIMIT: usize = 32_767;

/// A COMDAT with what it refers to.
#[derive(Drop)]
pub(crate) struct Resolved<'a> {
    pub item: Comdat<'a>,
    /// The end of its data in its segment.
    pub end: u32,
    /// The pattern of its segment.
    pub pattern: Pattern,
    pub is_local: bool,
    /// The instance that it is of.
    pub own: Instance<'a>,
}

impl<'a> Model for Resolved<'a> {
    ghost use Rattle.omf_lowering.specs.Values.{Resolved as ResolvedItem};

    ghost Value = { ResolvedItem };

    ghost view = { λ r. record { item = r.item; end = r.end; pattern = r.pattern; is_local = r.is_local; own = r.own } };
}

/// A fault at an offset in the record.
fn refused(within: u32, reason: Reason) -> LayoutFault
    ensures { result ≡ fault within reason }
{
    LayoutFault { reason, within }
}

/// Whether a new COMDAT needs one more segment than there can be.
fn is_full(tables: &Tables<'_>, instances: &Instances<'_>, item: &Comdat<'_>) -> bool
    ensures { result ≡ is_full tables.now instances.now item.now }
{
    !is_continued(item.flags)
        && SEGMENT_LIMIT <= tables.segments.len().saturating_add(instances.len())
}

/// The width of the fields of a record with this type byte.
fn width_of(kind: u8) -> Width
    ensures { width_bytes result ≡ width kind }
{
    if kind % 2 == 1 {
        Width::Bits32
    } else {
        Width::Bits16
    }
}

/// The number of bytes of the blocks of a COMDAT with this type byte; 0 if they have a fault.
fn blocks_size(kind: u8, bytes: &[u8]) -> u32
    requires { length bytes.now ≤ 65534 }
    ensures { result ≡ size_or_none (expanded_length (width kind) profile_limits bytes.now) }
{
    let blocks = Blocks {
        bytes,
        width: width_of(kind),
    };
    match expanded_len(blocks, Limits::profile()) {
        Ok(size) => size,
        Err(_) => 0,
    }
}

/// The number of bytes of the data of a COMDAT.
fn data_size(kind: u8, item: &Comdat<'_>) -> u32
    ensures { result ≡ data_size kind item.now }
{
    if is_iterated(item.flags) {
        blocks_size(kind, item.bytes)
    } else {
        item.bytes.len() as u32
    }
}

/// The end of data in their segment.
fn end_by(offset: &At<u32>, size: u32) -> Result<u32, LayoutFault>
    ensures { result ≡ end_by offset.now size }
{
    match offset.item.checked_add(size) {
        Some(end) => Ok(end),
        None => Err(refused(offset.within, Reason::OutsideSegment)),
    }
}

/// Whether a linker joins the pieces of a segment with these attributes.
fn is_joined(attribute: u8) -> bool
    ensures { result ≡ is_joined attribute }
{
    let combination = attribute / 4 % 8;
    attribute / 32 % 8 != 0 && (combination == 2 || combination == 4 || combination == 7)
}

/// The segment of an explicit base.
fn joined(segments: &[Pattern], at: &At<Index>) -> Result<Pattern, LayoutFault>
    ensures { result ≡ joined at.now (entry segments.now at.now.item) }
{
    let index = usize::from(at.item.0);
    if index == 0 {
        return Err(refused(at.within, Reason::UnsupportedType));
    }
    if index > segments.len() {
        return Err(refused(at.within, Reason::UndefinedSegment));
    }
    let pattern = segments[index - 1];
    if is_joined(pattern.attribute) {
        Ok(pattern)
    } else {
        Err(refused(at.within, Reason::UnsupportedType))
    }
}

/// The pattern of an explicit base.
fn explicit(tables: &Tables<'_>, base: &Base) -> Result<Pattern, LayoutFault>
    ensures { result ≡ explicit tables.now base.now }
{
    if usize::from(base.group.item.0) <= tables.groups.len() {
        joined(&tables.segments, &base.segment)
    } else {
        Err(refused(base.group.within, Reason::UndefinedGroup))
    }
}

/// The pattern of the segment of a COMDAT that the linker allocates.
fn allocated(names: &Names<'_>, item: &Comdat<'_>) -> Pattern
    ensures { result ≡ allocated names.now item.now }
{
    let allocation = item.attributes % 16;
    let attribute = if allocation > 2 { 0x69 } else { 0x68 };
    let name = item.name.item;
    Pattern {
        attribute,
        name,
        class: names.class_index(allocation, name),
        overlay: names.empty_index(name),
    }
}

/// The pattern of a COMDAT's segment.
fn pattern_of(tables: &Tables<'_>, item: &Comdat<'_>) -> Result<Pattern, LayoutFault>
    ensures { result ≡ pattern_of tables.now item.now item.now.base }
{
    match &item.base {
        Some(base) => explicit(tables, base),
        None => Ok(allocated(&tables.names, item)),
    }
}

/// The text of a name.
fn text_at<'a>(names: &Names<'a>, at: &At<Index>) -> Result<Name<'a>, LayoutFault>
    ensures { result ≡ text_by at.now (entry names.now at.now.item) }
{
    match names.get(at.item) {
        Some(text) => Ok(text),
        None => Err(refused(at.within, Reason::UndefinedName)),
    }
}

/// Whether a COMDAT is local: whether its name is, by the table of names.
fn local_by(tables: &Tables<'_>, item: &Comdat<'_>) -> Result<bool, LayoutFault>
    ensures { result ≡ local_by item.now (is_local_name tables.now.locals item.now.name.item) }
{
    let own = is_local_name(&tables.locals, item.name.item);
    if is_local(item.flags) && !own {
        Err(refused(item.name.within, Reason::UnsupportedType))
    } else {
        Ok(own)
    }
}

/// The segment of the COMDAT with a name, for its NBKPATs and LINSYMs.
pub(crate) fn segment_at<'a>(
    tables: &Tables<'a>,
    instances: &Instances<'a>,
    at: &At<Index>,
) -> Result<Index, LayoutFault>
    ensures ok { IfOk result (λ segment. and_then (text_by at.now (entry tables.now.names at.now.item)) (λ text. and_then (instance_at at.now (instance_of instances.now text)) (λ i. Ok i.segment)) ≡ Ok segment) }
    ensures err { IfErr result (λ f. and_then (text_by at.now (entry tables.now.names at.now.item)) (λ text. and_then (instance_at at.now (instance_of instances.now text)) (λ i. Ok i.segment)) ≡ Err f) }
{
    let text = text_at(&tables.names, at)?;
    match instances.find(&text) {
        Some(found) => Ok(found.segment),
        None => Err(refused(at.within, Reason::UnsupportedType)),
    }
}

/// A new COMDAT, whose SEGDEF will have this number.
fn new_instance<'a>(
    tables: &Tables<'_>,
    instances: &Instances<'_>,
    number: usize,
    name: Name<'a>,
) -> Instance<'a>
    requires { length tables.now.segments + length instances.now < 32767 }
    ensures { result ≡ new_instance tables.now instances.now number name.entry }
{
    let count = tables.segments.len() + instances.len();
    Instance {
        name,
        segment: Index(count as u16 + 1),
        number,
    }
}

/// The instance that a COMDAT with this name is of.
fn own_of<'a>(
    tables: &Tables<'_>,
    instances: &Instances<'a>,
    number: usize,
    item: &Comdat<'_>,
    text: Name<'a>,
) -> Result<Instance<'a>, LayoutFault>
    requires { is_full tables.now instances.now item.now ≡ false }
    ensures { result ≡ own_of instances.now item.now (new_instance tables.now instances.now number text.entry) }
{
    let found = instances.find(&text);
    if is_continued(item.flags) {
        return match found {
            Some(found) => Ok(found),
            None => Err(refused(item.name.within, Reason::UnsupportedType)),
        };
    }
    match found {
        Some(_) => Err(refused(item.name.within, Reason::UnsupportedType)),
        None => Ok(new_instance(tables, instances, number, text)),
    }
}

/// A COMDAT of a record with this type byte, with what it refers to.
pub(crate) fn resolve<'a>(
    tables: &Tables<'a>,
    instances: &Instances<'a>,
    number: usize,
    kind: u8,
    item: Comdat<'a>,
) -> Result<Resolved<'a>, LayoutFault>
    ensures { result ≡ resolved tables.now instances.now number kind item.entry }
{
    if is_full(tables, instances, &item) {
        return Err(refused(0, Reason::TooMany));
    }
    let end = end_by(&item.offset, data_size(kind, &item))?;
    let pattern = pattern_of(tables, &item)?;
    let text = text_at(&tables.names, &item.name)?;
    let is_local = local_by(tables, &item)?;
    let own = own_of(tables, instances, number, &item, text)?;
    Ok(Resolved {
        item,
        end,
        pattern,
        is_local,
        own,
    })
}
