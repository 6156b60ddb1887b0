//! The checker of object modules (TIS OMF 1.1): accepts bytes that begin with a well-formed module, and refuses all others with a
//! reason and a place.
//!
//! ```
//! let profile = Profile { refuse_vendor_comments: false };
//! match check(alloc, &mut Reading::new(bytes), profile) {
//!     Ok(module) => {
//!         // module.segments() is the number of segments; module.segment(i) is each of them, from 1; module.records() are its records
//!     }
//!     Err(CheckFault::Refused { reason, place }) => {
//!         // reason.number() is 1 to 33; place has the record's number and offset, and the offset within the record
//!     }
//!     Err(_) => {} // the reader failed, or memory ran out
//! }
//! ```
//!
//! A `Session` does the same for bytes that arrive in pieces.
#![tactic(auto)]

mod checked;
mod checking;
mod class;
mod contents;
pub mod edges;
mod ending;
mod fault;
mod judged;
mod judging;
mod keeping;
mod last_data;
pub mod laws;
mod method;
mod profile;
mod records;
pub mod rows;
mod rule;
mod segment;
mod session;
mod table;
mod taking;
mod threads;
mod undecoded;

pub use checked::Checked;
pub use checking::{check, check_with};
pub use class::{is_code_class, is_code_name};
pub use contents::{Comment, Data, Externals, Publics, References};
pub use ending::threads_of_end;
pub use fault::CheckFault;
pub use judged::Judged;
pub use judging::judge;
pub use method::{FrameMethod, TargetMethod};
pub use profile::Profile;
pub use records::{Records, put_record, split_record};
pub use segment::SegInfo;
pub use session::Session;
pub use table::entry_of;
pub use threads::Threads;
pub use undecoded::{Undecoded, UndecodedRecords};
