//! Virtual segments: a module that Borland's compilers write templates, inline functions and tables of virtual functions in, as one with COMDATs in their place.
//!
//! A virtual segment has its name from an entry of a COMDEF whose data type is the index of a segment, 01H to 5FH (TIS OMF 1.1, "COMDEF"). LEDATAs, LIDATAs and fixups name
//! it by the index 4000H + e, where e is the index of the entry among the module's externals. Of the virtual segments of one name a linker keeps one, as of COMDATs with
//! selection "pick any" (TIS OMF 1.1, "COMDAT").
#![tactic(auto)]

mod comdat;
mod entry;
mod externals;
mod fields;
pub mod laws;
mod names;
mod origin;
mod references;
pub mod rows;
mod segment_data;
mod table;
mod virtuals;
mod writing;

pub use origin::comdats_origin;
pub use virtuals::{ComdatModule, with_comdats};
