//! DOS programs (.EXE and .COM) of modules and of members of libraries: the files of `omf-link exe` and `omf-link com`.
#![tactic(auto)]

mod added;
mod asked;
mod candidates;
mod clashing;
mod defaults;
mod files;
mod folding;
pub mod host;
mod input;
mod joining;
pub mod laws;
mod length;
mod lines;
mod listing;
mod looks;
mod lowered;
mod made;
mod memory;
mod options;
mod ordering;
mod program;
mod program_files;
mod refusal;
mod refused;
mod settling;
mod sharing;
mod unlinked;
mod unordered;
mod views;
mod with_communals;
mod written;

pub use asked::{Call, Product, call_of};
pub use candidates::library_files;
pub use defaults::{missing_lines, sought};
pub use joining::{Joined, JoiningFault, join_needed};
pub use made::MadeProgram;
pub use options::{ExeOptions, Order, ProgramKind, SymbolsFile};
pub use ordering::{OrderingFault, order_of};
pub use program_files::ProgramFiles;
pub use refusal::Refusal;
pub use settling::{LaidModules, SettledModules};
pub use sharing::{SharingFault, shared_module};
pub use written::Leftovers;
