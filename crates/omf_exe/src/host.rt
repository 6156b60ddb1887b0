//! What `omf-link` does with libraries, and with files that are no program.

use crate::input::is_library;
use crate::refusal::Refusal;
use omf_cmd::Fault;
use omf_drafting::host::tell_fault;
use omf_frame::Sink;
use omf_host::{Status, Streams};
use std::alloc::{AllocError, Global};
use std::fs;
use std::io::ErrorKind;

/// Reads a library. None if there is no such file, if it cannot be read, or if it does not begin with F0H.
///
/// # Errors
///
/// `AllocError` if memory runs out.
pub fn read_library(rt: &HostRuntime, name: &str) -> Result<Option<Vec<u8>>, AllocError> {
    match fs::read(rt, name) {
        Ok(bytes) if is_library(&bytes) => Ok(Some(bytes)),
        Err(error) if error.kind() == ErrorKind::OutOfMemory => Err(AllocError),
        Ok(_) | Err(_) => Ok(None),
    }
}

/// Writes why files are no program. Returns the status.
pub fn tell_refusal<K, E: Sink>(
    alloc: Global,
    streams: &mut Streams<K, E>,
    refusal: &Refusal,
) -> Result<Status, AllocError> {
    tell_fault(alloc, streams, refusal)?;
    Ok(Status::of_code(refusal.status()))
}
