//! What modules of equal canonical bytes have in common: a build may go by these.
#![tactic(auto)]

pub mod laws;
