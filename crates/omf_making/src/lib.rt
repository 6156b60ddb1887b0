//! Libraries that are made of given modules (TIS OMF 1.1, appendix 2), and modules as a program takes them: one that the check refuses by its lowering.
//!
//! ```
//! match make(alloc, profile, is_case_sensitive, &parts) {
//!     Ok(bytes) => {} // a library with these modules, in order
//!     Err(MakeFault::Refused { part, reason, place }) => {} // no program takes a module of parts[part]
//!     Err(_) => {} // two modules define one name, the library would be too large, or out of memory
//! }
//! ```
#![tactic(auto)]

mod costs;
mod entries;
mod filling;
mod making;
mod names;
mod pages;
mod prime;
mod reread;
pub mod rows;
mod sound;
mod spots;
mod taken;

pub use making::{MakeFault, Part, make};
pub use names::{Defined, Kind, defined_names};
pub use taken::{Judgement, Refusal, Taken, judge_taken};
