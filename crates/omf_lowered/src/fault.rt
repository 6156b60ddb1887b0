//! Why the modules of a file are not lowered.

use omf_frame::{Place, Reason};
use thiserror::Error;

/// Why the modules of a file are not lowered.
#[derive(Clone, Copy, Debug, PartialEq, Eq, Error)]
pub enum FileFault {
    /// Out of memory.
    #[error("memory ran out")]
    Memory,
    /// A module is refused, with the fault of `LoweringFault::Refused`.
    #[error("a module cannot be lowered")]
    Refused {
        /// The number of the module in the file, from 0.
        module: u32,
        /// Why its record is refused.
        reason: Reason,
        /// The place of the fault in the module.
        place: Place,
    },
    /// What follows the modules and their padding, from this offset of the file on, begins no module.
    #[error("a file holds something else after its modules")]
    NoModule(u64),
}
