//! Linking several modules: the modules of an input, their placements from a text and from their public names, their images and starts
//! there, and the memory that they form together.
#![tactic(auto)]

mod after;
mod fault;
mod files;
mod folding;
pub mod laws;
pub mod locator;
mod memory;
mod placing;
mod plain;
mod reading;
mod relocated;
pub mod rows;
mod search;
mod segments;
pub mod space;
mod together;
mod turns;

pub use fault::{FileFault, LinkFault};
pub use files::{InputFile, file_modules, modules_of_files};
pub use folding::{folded, folded_all, folded_text};
pub use memory::memory_image;
pub use placing::{LinkedPlaces, link};
pub use plain::plain_text;
pub use reading::{modules_in, read_all};
pub use relocated::{Relocated, relocate_all, start_of};
pub use segments::segments_of;
pub use together::{Together, laid_together};
