//! What the tasks of `omf-link` print about what a link text does that may not be meant: the lines of what `omf_warnings` finds, as faults or
//! as warnings.

mod files;
mod folded;

pub use files::{Request, SeenLines, SeenText, files_seen, input_seen, is_looked_at};
pub use folded::{files_folded, input_folded};
