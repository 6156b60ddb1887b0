//! Segments in one memory: which may share addresses, and the image that they form together.

mod fault;
mod memory;
pub mod rows;
mod runs;
mod segment;
mod stretch;
mod sweep;

pub use fault::MemoryFault;
pub use memory::memory_of;
pub(crate) use memory::{excluded, lay_all, lower};
pub(crate) use runs::{stretch_at, stretches_of, try_memory};
pub use segment::PlacedSegment;
pub use stretch::{Owner, Stretch};
pub(crate) use sweep::{Interval, add_intervals, first_overlap};
