//! Members by need: which members of the libraries a program takes.
//!
//! ```
//! // The members of all libraries, in the order in which they are searched.
//! let numbers = needed_members(alloc, &modules, &members)?;
//! for number in numbers {
//!     // members[number] takes part
//! }
//! ```

mod defaults;
pub mod laws;
mod names;
pub mod rows;
mod search;
mod walk;
mod weak;

pub use defaults::default_libraries;
pub use walk::needed_members;
