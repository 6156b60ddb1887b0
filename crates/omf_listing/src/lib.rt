//! What a map lists in an order: the publics of modules at their placements, by name and by value, and the segments that parts of several modules
//! make together.
//!
//! ```
//! for public in publics_by_name(alloc, &modules, &placements)? {
//!     print(public.name, public.address, public.frame);
//! }
//! for segment in combined_segments(alloc, &modules, &placements)? {
//!     print(segment.name, segment.start, segment.end - segment.start);
//! }
//! ```
#![tactic(auto)]

mod combined;
mod public;
pub mod rows;

pub use combined::{CombinedSegment, combined_segments};
pub use public::{FarPublic, publics_by_name, publics_by_value};
