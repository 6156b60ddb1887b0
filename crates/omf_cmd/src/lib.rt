//! The command `omf`: its jobs from a reader to a writer, its arguments, texts and exit statuses; and what it shares with other programs.
//!
//! ```
//! let mut text = Vec::new(alloc);
//! match run_check(alloc, profile, &mut Reading::new(bytes), &mut Writing::new(&mut text)) {
//!     Ok(()) => {} // text is b"OK 6 records, 48 bytes\n"
//!     Err(fault) => {
//!         let line = fault_line(alloc, &fault)?; // "refused 2 Cut record 4 at 34 within 2"
//!     }
//! }
//! ```
#![tactic(auto)]

mod called;
mod digits;
mod fault;
mod flushing;
mod gathered;
mod host;
mod image_text;
mod input;
mod jobs;
pub mod laws;
mod line;
mod output;
mod printed;
mod printing;
mod program;
mod relocation;
mod report;
pub mod rows;
mod running;
mod words;

pub use called::{Ended, run_in_memory, run_on, words_from};
pub use digits::{eight_digits, write_bytes};
pub use fault::RunFault;
pub use flushing::run_and_flush;
pub use gathered::Gathered;
pub use host::run_program;
pub use image_text::{print_bytes, print_image, print_start};
pub use jobs::{Omf, main_with};
pub use line::{print_words, write_last_name, write_words};
pub use output::{print_all, tell};
pub use printed::fault_line;
pub use program::{Fault, Program, run_with};
pub use relocation::{Listing, placement_by, run_reloc};
pub use report::print_list;
pub use running::{run_canon, run_check, run_list};
pub use words::{Job, command, read_words};
