//! Relocation of a checked module at a placement: whether every fixup reaches, the image, and the start address.
//!
//! A module with one segment at a placement built in code:
//!
//! ```
//! let mut placement = Placement::new(alloc);
//! placement.push_segment(0x7C00, Frame { base: 0, selector: 0 })?;
//! reach(&module, &placement)?;
//! let image = relocate(alloc, &module, &placement)?;
//! // image.run_bytes(1, 0) are the bytes of its first covered interval
//! ```
//!
//! `relocate` and `start` require that `reach` returned Ok for the same module and placement. `reach_and_relocate` does `reach` and `relocate`
//! in one pass, and `relocate_at` all three.
#![tactic(auto)]

mod addition;
pub mod edges;
mod fault;
pub mod headline;
pub mod laws;
mod measuring;
mod offset;
mod pieces;
mod plain;
mod reached;
mod reaching;
mod relocating;
pub mod rows;
mod starting;

pub use addition::Additions;
pub use fault::{Cause, Kind, ReachFault, RelocateFault};
pub use headline::{Answer, AnswerAt, NoAnswer, check_and_relocate, relocate_at};
pub use measuring::measure;
pub use offset::{is_within, offset_width, outcome, reach_width};
pub use omf_check::{FrameMethod, TargetMethod};
pub use omf_placement::{
    DeriveFault, Draft, Entry, Frame, Given, Placed, Placement, TextFault, derive, parse_placement,
    real_group,
};
pub use pieces::{Piece, Pieces, pieces_of};
pub use plain::{PlainFixup, PlainReference, plain_reference};
pub use reached::reach_and_relocate;
pub use reaching::reach;
pub use relocating::relocate;
pub use starting::start;
