//! The program `omf-place`: drafts a placement for one module.

mod fault;
mod program;
mod running;
mod words;

pub use fault::PlaceFault;
pub use program::Place;
pub use running::{placed_text, run_place};
pub use words::options_of;
