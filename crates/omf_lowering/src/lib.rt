//! Lowering: a module with records outside this profile, as a module of this profile that means the same.
#![tactic(auto)]

mod bakpat;
mod cextdef;
mod comdat;
mod copies;
mod entries;
mod fault;
mod fields;
mod fixups;
mod holders;
mod instance;
mod instances;
mod iterated;
mod laid;
pub mod laws;
mod linnum;
mod linsym;
mod location;
mod lowering;
mod made;
mod marks;
mod names;
mod pieces;
mod record;
pub mod rows;
mod segments;
mod spreading;
mod tables;
mod unroll;
mod unrolling;
mod values;
mod work;

pub use fault::LoweringFault;
pub use linnum::{LineNumber, LineNumbers, line_numbers};
pub use lowering::{LoweredModule, lowered};
pub use marks::selection_of;
pub use record::Record;
pub use values::{Backpatch, NamedExternal, Patch, Pattern, Piece};
