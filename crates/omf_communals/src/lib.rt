//! Communals by TYPDEF: a module in which EXTDEFs define communals, as one with COMDEFs that means the same.
//!
//! Microsoft's C 3 to 5 and MASM 4 write no COMDEF. Their EXTDEF has, as type index, the TYPDEF of a variable with its length (TIS OMF 1.1, "TYPDEF").
#![tactic(auto)]

mod communals;
mod fields;
pub mod laws;
mod replacing;
pub mod rows;
mod typdef;
mod variable;

pub use communals::{all_with_communals, with_communals};
pub use variable::Variable;
