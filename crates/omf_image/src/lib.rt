//! The bytes of data records: expansion of repeated blocks, the numbers that fixups add, and the image in which the last piece
//! laid wins.
//!
//! Overlapping pieces:
//!
//! ```
//! let mut image = Image::new(alloc);
//! image.lay(1, 4, vec![in alloc; 0xAA, 0xBB]?)?;
//! image.lay(1, 5, vec![in alloc; 0xCC, 0xDD]?)?;
//! // image.get(1, 5) is Some(0xCC), and image.run_bytes(1, 0) is Some(&[0xAA, 0xCC, 0xDD])
//! ```
#![tactic(auto)]

mod copier;
mod expanding;
mod image;
pub mod laws;
mod length;
mod limits;
mod painting;
mod part;
pub mod rows;
mod run;

pub use expanding::expand;
pub use image::Image;
pub use length::expanded_len;
pub use limits::Limits;
pub use painting::{Extent, painted};
pub use part::{Part, add_part};
pub use run::Run;
