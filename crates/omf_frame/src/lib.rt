//! Framing of an object module: its records one by one, the fields inside them, and the devices they are read from and written to.
//!
//! Writes a record to memory and reads it back:
//!
//! ```
//! let mut bytes = Vec::new(alloc);
//! write_record(&mut Writing::new(&mut bytes), 0x80, b"\x01A")?;
//! let mut framer = Framer::new(alloc);
//! framer.feed(&bytes)?;
//! if let Some(record) = framer.raw() {
//!     // record.kind is 0x80, record.body is b"\x01A", record.start is 0
//! }
//! ```
//!
//! A framer takes bytes in any pieces. `next` goes on to the next record, and `stop` tells whether the input may end here.
#![tactic(auto)]

mod device;
mod fault;
pub mod faulty;
mod field;
mod framer;
mod framing;
mod kinds;
mod laws;
mod pull;
mod rows;
mod sums;
mod write;

pub use device::{Buffered, Bytes, Reading, Sink, Source, Writing};
pub use fault::{FrameFault, Place, Reason};
pub use field::{CommunalLength, Field, Index, Le16, Le32, Name};
pub use framer::{Fed, Framer, RawRecord};
pub use kinds::{RecordType, Treatment, Width, is_header, is_local, type_name};
pub use laws::{
    faults_are_least, framing_reasons, modules_are_read, modules_are_unique, pieces_do_not_matter,
    records_delimit, runs_are_framings, standing_faults_stay,
};
pub use pull::pull_piece;
pub use sums::checksum;
pub use write::{push_all, write_record};
