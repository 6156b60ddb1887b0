//! Names without case: modules whose publics, externals, communals and aliases have names in lower case, and link texts with the names of externals in
//! lower case. A linker that compares names without case links these as it links others.
//!
//! ```
//! let module = check(alloc, &mut Reading::new(bytes), profile)?;
//! let lower = folded(alloc, &module)?;
//! // its records are those of the module, with the names of publics, externals, communals and aliases in lower case
//! ```

mod bytes;
mod comparing;
mod modules;
mod named;
mod text;

pub use modules::{folded, folded_all};
pub use text::folded_text;
