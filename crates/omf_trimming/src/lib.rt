//! Trimming: accepted modules without the segments that a linker leaves out. These are COMDATs of which it takes another one, and debug information and code that nothing reaches.
//!
//! ```
//! // The modules of a link, in its order, as `lowered_file` of omf_lowered gives them.
//! let modules = chosen(alloc, modules)?;
//! // With all that a linker adds to them.
//! let modules = trimmed(alloc, LeftOut { code: false, debug: true }, LeftPublics::AtStart, modules)?;
//! // The same modules; a segment that is left out has a length of 0, and no data or fixups.
//! ```
#![tactic(auto)]

mod choice;
pub mod laws;
mod optional;
mod reaching;
pub mod rows;
mod trimming;
mod without;

pub use choice::chosen;
pub use choice::clashes::{Clash, clashes};
pub use optional::{LeftOut, has_optional};
pub use reaching::without_unreached;
pub use trimming::trimmed;
pub use without::LeftPublics;
