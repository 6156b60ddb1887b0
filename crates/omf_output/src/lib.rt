//! A linked memory as a file: for a chip (`rom`: a binary, Intel HEX, S-records) or for DOS (`exe`: an MZ file, a .COM file). `near`: references of it
//! that stay in a frame. `stacks`: segments between the parts of a stack.
#![tactic(auto)]

pub mod exe;
mod located;
pub mod near;
pub mod rom;
pub mod stacks;
