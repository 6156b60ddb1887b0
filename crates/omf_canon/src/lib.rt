//! Canonical bytes: one encoding for all modules with the same meaning.
//!
//! ```
//! let module = check(alloc, &mut Reading::new(bytes), profile)?;
//! let canonical = canon(alloc, &module)?;
//! // check accepts them, canon gives them again, and relocate gives the same image at each placement
//! ```
#![tactic(auto)]

mod fault;
pub mod laws;
mod output;
mod plain;
pub mod rows;
mod writing;

pub use fault::CanonFault;
pub use output::canon_to;
pub use writing::canon;
