//! What a link text does that may not be meant: segments with addresses in common, addresses that break an
//! alignment, groups that are too long, parts of one segment in different frames, and near references into another frame.
#![tactic(auto)]

mod allowed;
mod finding;
mod frames;
mod lines;
mod long;
mod real;
pub mod rows;
mod span;
mod spans;
mod sweep;
mod wide;

pub use allowed::{Allowed, allowed_in};
pub use finding::{Finding, Range, first_misaligned, unseen};
pub use frames::{Framed, first_split};
pub use lines::{put_line, put_range};
pub use long::first_long;
pub use real::first_unreal;
pub use span::{Sharing, Span};
pub use spans::spans_of;
pub use sweep::first_overlap;
pub use wide::{FarMember, first_wide};
