//! Laws of the definitions, for all inputs.

pub mod choice;
pub mod reaching;
pub mod without;
