//! Whole modules, each a list of rows.

use crate::records::*;

/// Four bytes of data with one fixup; 48 bytes in six records.
pub const MODULE: &[&str] = &[HEADER, NAMES, SEGMENT, DATA, FIXUP, END];

/// A near call to its own segment.
pub const NEAR_CALL: &[&str] = &[HEADER, NAMES, SEGMENT, CALL_DATA, CALL, END];

/// A short jump to an external.
pub const SHORT_JUMP: &[&str] = &[HEADER, NAMES, SEGMENT, EXTERNAL, JUMP_DATA, JUMP, END];

/// Data with one fixup in an absolute segment.
pub const ABSOLUTE_SEGMENT: &[&str] = &[HEADER, NAMES, ABSOLUTE, DATA, FIXUP, END];

/// Repeated data of 12 bytes.
pub const NESTED_BLOCKS: &[&str] = &[HEADER, NAMES, SEGMENT_OF_12, NESTED, END];

/// A group, a thread of its frame, and a start by that thread.
pub const START_BY_THREAD: &[&str] = &[HEADER, NAMES, SEGMENT, GROUP, GROUP_THREAD, START];

/// A 32-bit segment in a flat group, with a 16:32 pointer and a 32-bit offset.
pub const FLAT_GROUP: &[&str] = &[
    HEADER,
    FLAT_NAMES,
    FLAT_SEGMENT,
    FLAT,
    FLAT_DATA,
    FLAT_FIXUPS,
    END,
];

/// Two segments; a frame thread, and a target thread that is set again before the second data record.
pub const THREADS: &[&str] = &[
    HEADER,
    NAMES,
    SEGMENT,
    SHORT_SEGMENT,
    "A0 08 00 01 00 00 00 00 00 00 57",
    "9C 09 00 50 00 01 C4 00 8C 00 02 B8",
    "9C 04 00 C4 02 8C 0E",
    "A0 06 00 02 00 00 00 00 58",
    "9C 04 00 C4 00 8C 10",
    END,
];

/// Local names, externals, a communal and publics; a short jump to a local external.
pub const LOCAL_RECORDS: &[&str] = &[
    HEADER,
    LOCAL_NAMES,
    LOCAL_SEGMENT,
    LOCAL_EXTERNAL,
    LOCAL_EXTERNAL_32,
    LOCAL_COMMUNAL,
    LOCAL_PUBLIC,
    LOCAL_PUBLIC_32,
    JUMP_DATA,
    JUMP,
    END,
];

/// All of these modules, each with its name.
pub const MODULES: &[(&str, &[&str])] = &[
    ("one fixup", MODULE),
    ("a near call", NEAR_CALL),
    ("a short jump", SHORT_JUMP),
    ("an absolute segment", ABSOLUTE_SEGMENT),
    ("nested blocks", NESTED_BLOCKS),
    ("a start by a thread", START_BY_THREAD),
    ("a flat group", FLAT_GROUP),
    ("threads", THREADS),
    ("local records", LOCAL_RECORDS),
];
