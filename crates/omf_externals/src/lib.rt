//! The externals of modules by name: the publics that each sees, those that need no public, and the lines of names that no public has,
//! or more than one.
#![tactic(auto)]

mod by_name;
mod digits;
mod moving;
mod names;
pub mod rows;
mod settled;
mod unresolved;

pub use by_name::{External, Spot, external_at};
pub use digits::print_digits;
pub use moving::move_all;
pub use names::NameTable;
pub use unresolved::{put_own, repeated_text, unresolved_text};
