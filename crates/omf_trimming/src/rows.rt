//! Worked examples, evaluated during the proof. Their bytes are made by hand.

pub mod choice;
pub mod reaching;
