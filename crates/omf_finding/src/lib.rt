//! Where a module's segments are in a program: patterns of a segment's bytes, and the places where they lie.
#![tactic(auto)]

mod asking;
mod chaining;
mod closed;
mod closing;
mod defined;
mod finding;
mod findings;
mod fixes;
mod following;
mod found;
mod indices;
pub mod laws;
mod matching;
mod names;
mod nearing;
mod patterning;
mod program;
pub mod rows;
mod sayings;
mod settling;
mod shapes;
mod singles;
mod straying;
mod sure;
mod wanting;
mod windows;

pub use closed::ClosedByte;
pub use finding::find;
pub use findings::{Asked, Candidate, FindOptions, Findings, Found, Verdict, Why};
pub use found::{is_found, is_found_in_part};
pub use indices::Indices;
pub use matching::places;
pub use nearing::{Difference, Near, nearest};
pub use patterning::{Pattern, PatternByte, pattern_of};
pub use program::Program;
pub use straying::{References, Stray};
