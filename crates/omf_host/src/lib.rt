//! What programs with file arguments share: the arguments of the process, files by name, the output and the standard error, lines about files,
//! numbers as text, and the exit status.
//!
//! ```
//! let mut streams = Streams::new("show", StandardOutput::new(rt.stdout()), Writing::new(rt.stderr()));
//! let mut text = String::new(rt.alloc());
//! let status = match read_input(rt, "x.obj") {
//!     Ok(bytes) => put(&mut streams.output, &bytes),
//!     Err(error) => {
//!         put_unread(&mut text, "x.obj", &error)?;
//!         streams.report(rt.alloc(), text.as_bytes())?; // show: read x.obj: No such file or directory (os error 2)
//!         Status::Failed
//!     }
//! };
//! end(rt.alloc(), &mut streams, status)
//! ```
#![tactic(auto)]

mod clash;
mod digits;
mod ending;
mod endings;
mod files;
mod lines;
mod misuse;
mod noted;
mod numbers;
mod output;
mod question;
pub mod rows;
mod spot;
mod streams;
mod telling;
mod terminal;
mod text;
mod tool;
mod usage;
mod words;
mod writing;

pub use clash::{RunFiles, refuse_clash};
pub use ending::Status;
pub use endings::{is_file, is_named, object_file, object_files, unless_failed, with_ending};
pub use files::{Written, read_input, write_new};
pub use lines::{put_failure, put_title, put_unread, put_unwritten};
pub use misuse::{About, explain, misuse_line, misused_by};
pub use noted::StandardOutput;
pub use numbers::{amount, number, size};
pub use output::{end, misused, out_of_memory, put, warn};
pub use question::{Question, answer, question_in, question_with_tasks};
pub use streams::Streams;
pub use telling::{read_or_tell, write_or_tell, write_three_or_tell};
pub use terminal::{Progress, standard_streams};
pub use text::{is_plain, put_byte, put_decimal, put_eight, put_four, put_name, put_quoted};
pub use tool::{Tool, tool_named};
pub use words::{SpelledArguments, arguments, program_and_arguments, spelled_arguments, words_of};
pub use writing::{OutputFile, Unwritten, write_outputs, write_three};
