//! Records and modules that tests share, in hexadecimal, and the decoder of that notation.
//!
//! A row is one record: two digits for each byte, with spaces between bytes. The checksum of each row is right.
//!
//! ```
//! let module = joined(alloc, &[HEADER, NAMES, SEGMENT, DATA, FIXUP, END])?;
//! let header = bytes_of(alloc, HEADER)?;
//! ```
#![tactic(auto)]

mod hex;
mod modules;
mod records;

pub use hex::{BadHex, bytes_of, joined, push_row};
pub use modules::{
    ABSOLUTE_SEGMENT, FLAT_GROUP, LOCAL_RECORDS, MODULE, MODULES, NEAR_CALL, NESTED_BLOCKS,
    SHORT_JUMP, START_BY_THREAD, THREADS,
};
pub use records::{
    ABSOLUTE, CALL, CALL_DATA, DATA, END, EXTERNAL, FIXUP, FLAT, FLAT_DATA, FLAT_FIXUPS,
    FLAT_NAMES, FLAT_SEGMENT, GROUP, GROUP_THREAD, HEADER, JUMP, JUMP_DATA, LOCAL_COMMUNAL,
    LOCAL_EXTERNAL, LOCAL_EXTERNAL_32, LOCAL_NAMES, LOCAL_PUBLIC, LOCAL_PUBLIC_32, LOCAL_SEGMENT,
    LONG_DATA, NAMES, NESTED, OTHER_DIALECT, PUBLIC, SEGMENT, SEGMENT_OF_12, SHORT_SEGMENT, START,
    VENDOR,
};
