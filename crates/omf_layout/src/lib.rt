//! A first layout of a module: an address and a frame for each of its segments and externals, a frame for each of its groups, and the
//! placement text of these, with comments. The module `several` lays out several modules together, and the module `own` writes modules that
//! a linker adds to those that it is given.
#![tactic(auto)]

mod alignment;
mod draft;
mod fault;
pub mod laws;
mod laying;
mod options;
pub mod own;
pub mod printing;
pub mod raised;
pub mod room;
pub mod rows;
pub mod several;
pub mod spot;
pub mod wants;

pub use alignment::Alignment;
pub use draft::{draft_text, print_groups, print_segments};
pub use fault::LayoutFault;
pub use laying::{Layout, layout_of};
pub use options::{Frames, Options};
