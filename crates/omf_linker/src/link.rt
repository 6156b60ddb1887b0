//! The program `omf-link`: prints the memory image of several modules, their map, or a draft of a link text for them.

mod block;
mod case;
mod form_words;
mod labels;
mod linking;
mod output;
mod printing;
mod program;
mod rom;
mod running;
mod words;

pub use case::{CasedWords, case_in};
pub(crate) use labels::LabeledModules;
pub use linking::{modules_map, modules_text};
pub use omf_linking::InputFile;
pub use output::Output;
pub use program::Link;
pub use rom::modules_file;
pub(crate) use running::{ShownAt, parted, shown_at};
pub use running::{shown_output, shown_text};
pub use words::{Task, task_of};
