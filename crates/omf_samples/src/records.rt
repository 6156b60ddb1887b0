//! Records, each with its right checksum byte.

/// THEADR: the module `A`.
pub const HEADER: &str = "80 03 00 01 41 3B";

/// LNAMES: the empty name and `T`.
pub const NAMES: &str = "96 04 00 00 01 54 11";

/// SEGDEF: a segment of 4 bytes, named `T`, byte-aligned, public, of the empty class.
pub const SEGMENT: &str = "98 07 00 28 04 00 02 01 01 31";

/// SEGDEF: the same with 2 bytes.
pub const SHORT_SEGMENT: &str = "98 07 00 28 02 00 02 01 01 33";

/// SEGDEF: the same with 12 bytes.
pub const SEGMENT_OF_12: &str = "98 07 00 28 0C 00 02 01 01 29";

/// SEGDEF: an absolute segment of 4 bytes at frame B800H.
pub const ABSOLUTE: &str = "98 0A 00 08 00 B8 00 04 00 02 01 01 96";

/// GRPDEF: the group `T` of segment 1.
pub const GROUP: &str = "9A 04 00 02 FF 01 60";

/// EXTDEF: the external `X`.
pub const EXTERNAL: &str = "8C 04 00 01 58 00 17";

/// PUBDEF: the public `X` at offset 2 of segment 1.
pub const PUBLIC: &str = "90 08 00 00 01 01 58 02 00 00 0C";

/// LEDATA: B8 00 00 90 at offset 0 of segment 1.
pub const DATA: &str = "A0 08 00 01 00 00 B8 00 00 90 0F";

/// LEDATA: the same with the segment index in two bytes.
pub const LONG_DATA: &str = "A0 09 00 80 01 00 00 B8 00 00 90 8E";

/// FIXUPP: the offset of segment 1, in its own frame, at data offset 1.
pub const FIXUP: &str = "9C 06 00 C4 01 04 01 01 93";

/// FIXUPP: frame thread 2, group 1.
pub const GROUP_THREAD: &str = "9C 03 00 46 01 1A";

/// COMENT: class E9H, which is left to vendors.
pub const VENDOR: &str = "88 03 00 00 E9 8C";

/// COMENT: class AAH, the mark of the Phar Lap dialect.
pub const OTHER_DIALECT: &str = "88 03 00 00 AA CB";

/// MODEND: no main module, no start address.
pub const END: &str = "8A 02 00 00 74";

/// MODEND: a main module; the start is offset 2 of segment 1 in the frame of thread 2.
pub const START: &str = "8A 06 00 C1 A0 01 02 00 0C";

/// LEDATA: a near call, E8 00 00 90.
pub const CALL_DATA: &str = "A0 08 00 01 00 00 E8 00 00 90 DF";

/// FIXUPP: the self-relative offset of segment 1 at data offset 1.
pub const CALL: &str = "9C 06 00 84 01 04 01 01 D3";

/// LEDATA: a short jump, EB 00 00 90.
pub const JUMP_DATA: &str = "A0 08 00 01 00 00 EB 00 00 90 DC";

/// FIXUPP: the self-relative low byte of external 1 at data offset 1.
pub const JUMP: &str = "9C 06 00 80 01 06 01 01 D5";

/// LIDATA: three times two blocks, AA twice and BB CC once.
pub const NESTED: &str = "A2 15 00 01 00 00 03 00 02 00 02 00 00 00 01 AA 01 00 00 00 02 BB CC 0C";

/// LNAMES: the empty name, `T` and `FLAT`.
pub const FLAT_NAMES: &str = "96 09 00 00 01 54 04 46 4C 41 54 E1";

/// SEGDEF of 32 bits: a segment of 10 bytes, named `T`, with USE32.
pub const FLAT_SEGMENT: &str = "99 09 00 A9 0A 00 00 00 02 01 01 A7";

/// GRPDEF: the group `FLAT`, of no segments.
pub const FLAT: &str = "9A 02 00 03 61";

/// LEDATA of 32 bits: 10 bytes of 0 at offset 0 of segment 1.
pub const FLAT_DATA: &str = "A1 10 00 01 00 00 00 00 00 00 00 00 00 00 00 00 00 00 4E";

/// FIXUPP of 32 bits: a 16:32 pointer at data offset 0 without displacement, and a 32-bit offset at 6 with displacement 4, both to
/// segment 1 in frame FLAT.
pub const FLAT_FIXUPS: &str = "9D 0F 00 EC 00 14 01 01 E4 06 10 01 01 04 00 00 00 52";

/// LLNAMES: the name `U`.
pub const LOCAL_NAMES: &str = "CA 03 00 01 55 DD";

/// SEGDEF: a segment of 4 bytes, named by the first name, byte-aligned, public, with neither class nor overlay.
pub const LOCAL_SEGMENT: &str = "98 07 00 28 04 00 01 00 00 34";

/// LEXTDEF: the local external `X`.
pub const LOCAL_EXTERNAL: &str = "B4 04 00 01 58 00 EF";

/// LEXTDEF of type B5H: the local external `Y`.
pub const LOCAL_EXTERNAL_32: &str = "B5 04 00 01 59 00 ED";

/// LCOMDEF: the near local communal `Z` of 128 bytes.
pub const LOCAL_COMMUNAL: &str = "B8 08 00 01 5A 00 62 81 80 00 82";

/// LPUBDEF: the local public `P` at offset 2 of segment 1.
pub const LOCAL_PUBLIC: &str = "B6 08 00 00 01 01 50 02 00 00 EE";

/// LPUBDEF of 32 bits: the local public `Q` at offset 2 of segment 1.
pub const LOCAL_PUBLIC_32: &str = "B7 0A 00 00 01 01 51 02 00 00 00 00 EA";
