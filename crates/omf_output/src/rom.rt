//! Memory as files for chips: a raw binary, Intel HEX and Motorola S-records.

mod binary;
mod cut;
mod form;
mod hex;
mod laws;
mod line;
mod memory;
mod rows;
mod run;
mod srec;

pub use binary::{fits, write_binary};
pub use form::{Chip, Form};
pub use hex::{HexBase, write_hex};
pub use laws::{
    binaries_have_the_bytes, hex_has_one_meaning, hex_is_read_back, s_records_are_read_back,
    s_records_have_one_meaning,
};
pub use memory::{FileFault, memory_file};
pub use run::{Run, first_above};
pub use srec::{SAddress, write_s_records};
