//! Segments of several modules that combine: the module that gives the stack of a program its length, the module that makes classes the first
//! ones, and segments with 16-bit and 32-bit parts.
#![tactic(auto)]

mod classes;
pub mod laws;
mod mixed;
pub mod rows;
mod stack;

pub use classes::class_order_module;
pub use mixed::{CodePart, first_mixed};
pub use stack::{even, stack_bytes};
