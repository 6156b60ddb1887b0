//! The fields of each record in their order (TIS OMF 1.1, the page of each record).

ghost use Rattle.std.specs.Prelude.{◌≡◌, if◌then◌else◌, nat_lt};
ghost use Rattle.omf_dump.specs.Layouts.{fixup_item, head_steps, item_steps, row, start_item, thread_item};

use crate::step::{Kind, Step, When};
use omf_frame::RecordType;

/// The name of a field here.
pub(crate) fn name(step: Step) -> &'static str
    ensures { result.now ≡ (row step).name }
{
    match step {
        Step::Group | Step::ExplicitGroup => "group",
        Step::Segment | Step::ExplicitSegment | Step::MemberSegment => "segment",
        Step::Frame
        | Step::AbsoluteFrame
        | Step::Fix
        | Step::FrameSegment
        | Step::FrameGroup
        | Step::FrameExternal => "frame",
        Step::AbsoluteOffset | Step::Offset => "offset",
        Step::Name | Step::NameIndex => "name",
        Step::External | Step::MemberExternal => "external",
        Step::Public | Step::PublicIndex => "public",
        Step::Alias => "alias",
        Step::Substitute => "substitute",
        Step::Version => "version",
        Step::Class | Step::CommentClass => "class",
        Step::Overlay => "overlay",
        Step::TypeIndex => "type",
        Step::HeadType => "type-index",
        Step::Line => "line",
        Step::Vendor => "vendor",
        Step::Value => "value",
        Step::Length | Step::NearLength => "length",
        Step::Dictionary => "dictionary",
        Step::DictionaryBlocks => "blocks",
        Step::LibraryFlags
        | Step::ComdatFlags
        | Step::LineFlags
        | Step::CommentFlags
        | Step::EndFlags => "flags",
        Step::EightLeaf => "EN",
        Step::Leaf => "leaf",
        Step::Variable => "variable",
        Step::Bits => "bits",
        Step::Elements => "elements",
        Step::ElementType => "element-type",
        Step::Communal => "communal",
        Step::FarCount => "count",
        Step::FarSize => "size",
        Step::Component => "component",
        Step::Selection => "selection",
        Step::ComdatAlign => "align",
        Step::Attributes => "attributes",
        Step::Patch => "location",
        Step::Thread => "thread",
        Step::Location => "at",
        Step::FrameNumber => "frame-number",
        Step::TargetSegment | Step::TargetGroup | Step::TargetExternal => "target",
        Step::TargetNumber => "target-number",
        Step::Displacement => "displacement",
        Step::Rest | Step::MemberRest => "left",
    }
}

/// How a field is encoded and shown.
pub(crate) fn kind(step: Step) -> Kind
    ensures { result ≡ (row step).kind }
{
    match step {
        Step::Group | Step::ExplicitGroup => Kind::Group,
        Step::Segment | Step::ExplicitSegment | Step::MemberSegment => Kind::Segment,
        Step::MemberExternal => Kind::External,
        Step::Attributes => Kind::Attributes,
        Step::Frame | Step::AbsoluteFrame | Step::FrameNumber | Step::TargetNumber => Kind::Short,
        Step::AbsoluteOffset | Step::LibraryFlags | Step::EightLeaf | Step::Component =>
            Kind::Small,
        Step::Name | Step::External | Step::Public | Step::Alias | Step::Substitute =>
            Kind::Counted,
        Step::Version => Kind::Version,
        Step::NameIndex | Step::Class | Step::Overlay | Step::PublicIndex => Kind::Name,
        Step::TypeIndex | Step::HeadType | Step::ElementType => Kind::Type,
        Step::Line | Step::Vendor | Step::DictionaryBlocks => Kind::Decimal,
        Step::Offset | Step::Value | Step::Length | Step::Displacement => Kind::Wide,
        Step::Dictionary => Kind::Long,
        Step::Leaf => Kind::Leaf,
        Step::Variable => Kind::Variable,
        Step::Bits | Step::Elements | Step::NearLength | Step::FarCount | Step::FarSize =>
            Kind::Count,
        Step::Communal => Kind::Communal,
        Step::ComdatFlags => Kind::ComdatFlags,
        Step::Selection => Kind::Selection,
        Step::ComdatAlign => Kind::ComdatAlign,
        Step::LineFlags => Kind::LineFlags,
        Step::CommentFlags => Kind::CommentFlags,
        Step::CommentClass => Kind::CommentClass,
        Step::EndFlags => Kind::EndFlags,
        Step::Patch => Kind::Patch,
        Step::Thread => Kind::Thread,
        Step::Location => Kind::Location,
        Step::Fix => Kind::Fix,
        Step::FrameSegment | Step::TargetSegment => Kind::OfSegment,
        Step::FrameGroup | Step::TargetGroup => Kind::OfGroup,
        Step::FrameExternal | Step::TargetExternal => Kind::OfExternal,
        Step::Rest | Step::MemberRest => Kind::Bytes,
    }
}

/// When a record has a field.
pub(crate) fn when(step: Step) -> When
    ensures { result ≡ (row step).when }
{
    match step {
        Step::Group
        | Step::Segment
        | Step::Name
        | Step::External
        | Step::Public
        | Step::Alias
        | Step::Substitute
        | Step::Version
        | Step::NameIndex
        | Step::Class
        | Step::Overlay
        | Step::PublicIndex
        | Step::TypeIndex
        | Step::HeadType
        | Step::Line
        | Step::Vendor
        | Step::Offset
        | Step::Value
        | Step::Length
        | Step::Dictionary
        | Step::DictionaryBlocks
        | Step::LibraryFlags
        | Step::EightLeaf
        | Step::Leaf
        | Step::Variable
        | Step::Communal
        | Step::Component
        | Step::ComdatFlags
        | Step::Selection
        | Step::ComdatAlign
        | Step::LineFlags
        | Step::CommentFlags
        | Step::CommentClass
        | Step::Attributes
        | Step::EndFlags
        | Step::Patch
        | Step::Thread
        | Step::Location
        | Step::Fix
        | Step::Rest => When::Always,
        Step::Frame => When::Zero,
        Step::ExplicitGroup | Step::ExplicitSegment => When::Explicit,
        Step::AbsoluteFrame | Step::AbsoluteOffset => When::Absolute,
        Step::Bits | Step::NearLength => When::Near,
        Step::Elements | Step::ElementType | Step::FarCount | Step::FarSize => When::Far,
        Step::MemberSegment => When::Component(0xFF),
        Step::MemberExternal => When::Component(0xFE),
        Step::MemberRest => When::OtherComponent,
        Step::FrameSegment => When::Frame(0),
        Step::FrameGroup => When::Frame(1),
        Step::FrameExternal => When::Frame(2),
        Step::FrameNumber => When::Frame(3),
        Step::TargetSegment => When::Target(0),
        Step::TargetGroup => When::Target(1),
        Step::TargetExternal => When::Target(2),
        Step::TargetNumber => When::Target(3),
        Step::Displacement => When::Displaced,
    }
}

/// The fields that a record has once, at its beginning.
pub(crate) fn head_steps(kind: RecordType) -> &'static [Step]
    ensures { result.now ≡ head_steps kind }
{
    match kind {
        RecordType::Theadr | RecordType::Lheadr => &[Step::Name],
        RecordType::Coment => &[Step::CommentFlags, Step::CommentClass],
        RecordType::Modend => &[Step::EndFlags],
        RecordType::Extdef
        | RecordType::Lnames
        | RecordType::Fixupp
        | RecordType::Comdef
        | RecordType::Lextdef
        | RecordType::Lcomdef
        | RecordType::Llnames
        | RecordType::Alias
        | RecordType::Cextdef => &[],
        RecordType::Pubdef | RecordType::Lpubdef => &[Step::Group, Step::Segment, Step::Frame],
        RecordType::Segdef => &[
            Step::Attributes,
            Step::AbsoluteFrame,
            Step::AbsoluteOffset,
            Step::Length,
            Step::NameIndex,
            Step::Class,
            Step::Overlay,
        ],
        RecordType::Grpdef => &[Step::NameIndex],
        RecordType::Ledata | RecordType::Lidata => &[Step::Segment, Step::Offset],
        RecordType::Typdef => &[Step::Name, Step::EightLeaf],
        RecordType::Linnum => &[Step::Group, Step::Segment],
        RecordType::Linsym => &[Step::LineFlags, Step::PublicIndex],
        RecordType::Vernum => &[Step::Version],
        RecordType::Bakpat => &[Step::Segment, Step::Patch],
        RecordType::Comdat => &[
            Step::ComdatFlags,
            Step::Selection,
            Step::ComdatAlign,
            Step::Offset,
            Step::HeadType,
            Step::ExplicitGroup,
            Step::ExplicitSegment,
            Step::Frame,
            Step::PublicIndex,
        ],
        RecordType::Nbkpat => &[Step::Patch, Step::PublicIndex],
        RecordType::Vendext => &[Step::Vendor],
        RecordType::Library => &[Step::Dictionary, Step::DictionaryBlocks, Step::LibraryFlags],
    }
}

/// The fields of a THREAD.
fn thread_item() -> &'static [Step]
    ensures { result.now ≡ thread_item }
{
    &[
        Step::Thread,
        Step::FrameSegment,
        Step::FrameGroup,
        Step::FrameExternal,
        Step::FrameNumber,
        Step::TargetSegment,
        Step::TargetGroup,
        Step::TargetExternal,
        Step::TargetNumber,
    ]
}

/// The fields of a fixup.
fn fixup_item() -> &'static [Step]
    ensures { result.now ≡ fixup_item }
{
    &[
        Step::Location,
        Step::Fix,
        Step::FrameSegment,
        Step::FrameGroup,
        Step::FrameExternal,
        Step::FrameNumber,
        Step::TargetSegment,
        Step::TargetGroup,
        Step::TargetExternal,
        Step::TargetNumber,
        Step::Displacement,
    ]
}

/// The fields of a MODEND's start.
fn start_item() -> &'static [Step]
    ensures { result.now ≡ start_item }
{
    &[
        Step::Fix,
        Step::FrameSegment,
        Step::FrameGroup,
        Step::FrameExternal,
        Step::FrameNumber,
        Step::TargetSegment,
        Step::TargetGroup,
        Step::TargetExternal,
        Step::TargetNumber,
        Step::Displacement,
    ]
}

/// The fields of a subrecord of a FIXUPP, by its first byte.
fn subrecord_item(byte: u8) -> &'static [Step]
    ensures { result.now ≡ (if nat_lt byte 128 then thread_item else fixup_item) }
{
    if byte < 128 {
        thread_item()
    } else {
        fixup_item()
    }
}

/// The fields that a record then repeats, by the first byte of them.
pub(crate) fn item_steps(kind: RecordType, byte: u8) -> &'static [Step]
    ensures { result.now ≡ item_steps kind byte }
{
    match kind {
        RecordType::Modend => start_item(),
        RecordType::Extdef | RecordType::Lextdef => &[Step::External, Step::TypeIndex],
        RecordType::Pubdef | RecordType::Lpubdef => &[Step::Public, Step::Offset, Step::TypeIndex],
        RecordType::Lnames | RecordType::Llnames => &[Step::Name],
        RecordType::Grpdef => &[
            Step::Component,
            Step::MemberSegment,
            Step::MemberExternal,
            Step::MemberRest,
        ],
        RecordType::Fixupp => subrecord_item(byte),
        RecordType::Comdef | RecordType::Lcomdef => &[
            Step::External,
            Step::TypeIndex,
            Step::Communal,
            Step::NearLength,
            Step::FarCount,
            Step::FarSize,
        ],
        RecordType::Typdef => &[
            Step::Leaf,
            Step::Variable,
            Step::Bits,
            Step::Elements,
            Step::ElementType,
        ],
        RecordType::Linnum | RecordType::Linsym => &[Step::Line, Step::Offset],
        RecordType::Alias => &[Step::Alias, Step::Substitute],
        RecordType::Bakpat | RecordType::Nbkpat => &[Step::Offset, Step::Value],
        RecordType::Cextdef => &[Step::NameIndex, Step::TypeIndex],
        RecordType::Theadr
        | RecordType::Lheadr
        | RecordType::Coment
        | RecordType::Segdef
        | RecordType::Ledata
        | RecordType::Lidata
        | RecordType::Vernum
        | RecordType::Comdat
        | RecordType::Vendext
        | RecordType::Library => &[Step::Rest],
    }
}
