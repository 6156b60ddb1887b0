//! What the programs do with files and the standard input.

pub use crate::telling::{fault_text, perform, tell_fault};
use omf_cmd::Program;
use omf_frame::{Buffered, Sink};
pub use omf_host::{read_or_tell, write_or_tell, write_three_or_tell};
use omf_host::{Status, Streams};
use std::alloc::AllocError;
use std::io::BufReader;

/// The number of bytes read from the standard input at once.
const PIECE: usize = 65_536;

/// Does a task on the standard input. Returns the status.
pub fn perform_on_input<P: Program, K: Sink, E: Sink>(
    rt: &HostRuntime,
    task: P::Task,
    streams: &mut Streams<K, E>,
) -> Result<Status, AllocError> {
    let Ok(input) = BufReader::with_capacity(rt.alloc(), PIECE, rt.reader()) else {
        return Err(AllocError);
    };
    perform::<P, _, _, _>(rt.alloc(), task, &mut Buffered::new(input), streams)
}
