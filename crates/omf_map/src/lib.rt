//! The map of several modules as text: the addresses of their segments, publics and externals.
//!
//! Two modules of one segment each; the first uses the external `X`, and the second defines it two bytes into its segment:
//!
//! ```
//! let placements = link(alloc, &modules, b"S 10020 10000 1000\nM\nS 10040 10000 1000\n")?;
//! let text = map_text(alloc, &modules, &placements)?;
//! // segment 1 1 00010020 00000004 "T" ""
//! // segment 2 1 00010040 00000004 "T" ""
//! // public 2 00010042 "X"
//! // external 1 1 00010042 "X"
//! ```
#![tactic(auto)]

mod addresses;
mod far;
mod given;
pub mod laws;
mod listing;
mod printing;
mod publics;
pub mod rows;

pub use far::{print_far, program_map};
pub use given::given_text;
pub use listing::map_text;
