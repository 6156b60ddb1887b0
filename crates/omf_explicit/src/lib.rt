//! Explicit frames: a module whose fixups name frames by their numbers, as one with absolute segments in their place.
//!
//! ASM86 and PL/M-86 write frame method F3 and target methods T3 and T7, which have a frame number (TIS OMF 1.1, "FIXUPP"). This profile has no such methods. An
//! absolute segment of the frame (TIS OMF 1.1, "SEGDEF") is at the same address.
#![tactic(auto)]

mod explicit;
mod fields;
pub mod laws;
mod numbers;
mod origin;
mod part;
mod plain;
mod record;
pub mod rows;
mod writing;

pub use explicit::{PlainModule, segment_count, with_segments};
pub use fields::{byte_at, fault_at, index_at, number_at};
pub use numbers::{FrameNumbers, distinct};
pub use origin::{origin_in, record_at, segments_origin};
pub use part::{Datum, Part, Reference, fixups_in, start_in};
pub use record::{Front, Records, is_end, is_fixupp, is_right, is_segdef, module_of};
pub use writing::{put_part, put_raw, put_record};
