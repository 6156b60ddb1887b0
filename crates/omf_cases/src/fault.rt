//! Why a line holds no case.

use omf_samples::BadHex;
use std::alloc::{AllocError, AllocFailed};
use thiserror::Error;

/// Why a line holds no case.
#[derive(Debug, Drop, Error)]
pub enum LineFault {
    /// It has more fields or fewer.
    #[error("not six fields")]
    Fields,
    /// The name is empty.
    #[error("no name")]
    Name,
    /// The program is none of the three.
    #[error("no such program")]
    Program,
    /// A record, or the bytes of the output, are not in hexadecimal.
    #[error("bad bytes: {0}")]
    Bytes(BadHex),
    /// A percent sign in a text is not followed by two hexadecimal digits.
    #[error("a percent sign without two digits")]
    Escape,
    /// The status is no number below 256.
    #[error("no status")]
    Status,
    /// Out of memory.
    #[error("out of memory")]
    Memory,
}

impl From<AllocError> for LineFault {
    fn from(_error: AllocError) -> LineFault {
        LineFault::Memory
    }
}

impl<T: Drop> From<AllocFailed<T>> for LineFault {
    fn from(_error: AllocFailed<T>) -> LineFault {
        LineFault::Memory
    }
}

impl From<BadHex> for LineFault {
    fn from(fault: BadHex) -> LineFault {
        match fault {
            BadHex::Memory => LineFault::Memory,
            other => LineFault::Bytes(other),
        }
    }
}
