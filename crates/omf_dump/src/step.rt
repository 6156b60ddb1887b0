//! The fields of records, as their bytes are read one after another.

/// How a field is encoded, and how it is shown.
#[derive(Clone, Copy)]
pub enum Kind {
    /// A byte, in hexadecimal.
    Small,
    /// Two bytes, in decimal.
    Decimal,
    /// Two bytes, in hexadecimal.
    Short,
    /// Two bytes, in a 32-bit record four, in hexadecimal.
    Wide,
    /// Four bytes, in hexadecimal.
    Long,
    /// A communal's length: a byte, or two to four bytes after one that gives their number.
    Count,
    /// A length byte and a name.
    Counted,
    /// All bytes, as a version.
    Version,
    /// All bytes.
    Bytes,
    /// An index of no table here.
    Type,
    /// An index of a name.
    Name,
    /// An index of a segment.
    Segment,
    /// An index of a group.
    Group,
    /// An index of an external.
    External,
    /// An index of the segment, the group or the external of a frame or a target.
    OfSegment,
    OfGroup,
    OfExternal,
    /// A byte of flags or codes.
    ComdatFlags,
    Selection,
    ComdatAlign,
    Attributes,
    LineFlags,
    CommentFlags,
    CommentClass,
    EndFlags,
    Patch,
    Leaf,
    Variable,
    Communal,
    Thread,
    Fix,
    /// The two bytes of a fixup's location.
    Location,
}

/// When a record has a field, by the last field that decides this.
#[derive(Clone, Copy)]
pub enum When {
    Always,
    /// An index is 0.
    Zero,
    /// A COMDAT's allocation is explicit.
    Explicit,
    /// A segment is absolute.
    Absolute,
    /// A communal is near.
    Near,
    /// A communal is far.
    Far,
    /// A group's component has this byte.
    Component(u8),
    /// It has another one.
    OtherComponent,
    /// Fix data have this frame method, and no thread.
    Frame(u8),
    /// Fix data have this target method, and no thread.
    Target(u8),
    /// Fix data have a displacement.
    Displaced,
}

/// A field.
#[derive(Clone, Copy)]
pub enum Step {
    Group,
    Segment,
    Frame,
    ExplicitGroup,
    ExplicitSegment,
    AbsoluteFrame,
    AbsoluteOffset,
    Name,
    External,
    Public,
    Alias,
    Substitute,
    Version,
    NameIndex,
    Class,
    Overlay,
    PublicIndex,
    TypeIndex,
    HeadType,
    Line,
    Vendor,
    Offset,
    Value,
    Length,
    Dictionary,
    DictionaryBlocks,
    LibraryFlags,
    EightLeaf,
    Leaf,
    Variable,
    Bits,
    Elements,
    ElementType,
    Communal,
    NearLength,
    FarCount,
    FarSize,
    Component,
    MemberSegment,
    MemberExternal,
    MemberRest,
    ComdatFlags,
    Selection,
    ComdatAlign,
    LineFlags,
    CommentFlags,
    CommentClass,
    Attributes,
    EndFlags,
    Patch,
    Thread,
    Location,
    Fix,
    FrameSegment,
    FrameGroup,
    FrameExternal,
    FrameNumber,
    TargetSegment,
    TargetGroup,
    TargetExternal,
    TargetNumber,
    Displacement,
    Rest,
}
