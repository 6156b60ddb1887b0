//! Why canonical bytes are not written.

use thiserror::Error;

/// Why canonical bytes are not written. The reasons have the numbers 1 and 2.
#[derive(Clone, Copy, Debug, PartialEq, Eq, Error)]
pub enum CanonFault {
    /// 1: memory ran out.
    #[error("memory ran out")]
    Memory,
    /// 2: the writer failed. What it took before is a beginning of the canonical bytes.
    #[error("the output could not be written")]
    Write,
}
