//! What `omf-link` does with its output.

use crate::link::Output;
use omf_drafting::host::write_or_tell;
use omf_frame::Sink;
use omf_host::{OutputFile, Status, Streams};
use std::alloc::AllocError;

/// Writes an output to a file. Returns `Done`; or `Failed`, after a line on why, if it could not be written.
pub fn write_output_or_tell<K: Sink, E: Sink>(
    rt: &HostRuntime,
    name: &str,
    output: &Output,
    streams: &mut Streams<K, E>,
) -> Result<Status, AllocError> {
    let bytes = output.bytes(rt.alloc())?;
    let file = OutputFile {
        name,
        bytes: &bytes,
    };
    write_or_tell(rt, file, None, streams)
}
