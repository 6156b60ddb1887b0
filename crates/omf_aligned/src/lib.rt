//! Alignments 6 and 7: a module with segments whose A is 6 or 7, as one with A = 4 in its place.
//!
//! NASM writes A = 6 for a segment at a multiple of 4,096 bytes. The standard gives 6 and 7 no meaning, and this profile reads 0 to 5 (TIS OMF 1.1, "SEGDEF").
#![tactic(auto)]

mod aligned;
pub mod laws;
mod origin;
pub mod rows;
mod writing;

pub use aligned::with_pages;
pub use origin::pages_origin;
