//! The modules of files, lowered: one step after another, each of which spells one more construct by records of this profile, and at last `lowered` of omf_lowering.
#![tactic(auto)]

mod fault;
mod file;
pub mod laws;
mod mended;
mod module;
mod place;

pub use fault::FileFault;
pub use file::{lowered_file, place_in_file};
pub use mended::{is_mendable, shown};
pub use module::lowered_module;
pub use omf_lowering::{LoweredModule, LoweringFault};
pub use place::place_in;
