//! The layout of several modules together: the order of their segments, their addresses and their frames.

mod arranging;
pub(crate) mod gathering;
mod groups;
pub mod laws;
mod laying;
mod places;
mod placing;
pub(crate) mod portion;
pub mod rows;
pub(crate) mod runs;

pub use arranging::{arrange, lay_portions};
pub use gathering::gather;
pub use laying::Lying;
pub use placing::place_segments;
pub use portion::{Classed, Combination, Portion, portions_of};
pub use runs::{combined_by, runs_of};
