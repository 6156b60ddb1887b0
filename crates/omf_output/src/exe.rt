//! DOS programs of linked modules, as MZ files (.EXE) and .COM files: what DOS loads at a paragraph is what the modules put there at their
//! placements moved to that paragraph.

mod com_fault;
mod com_link;
mod com_parts;
mod fault;
mod file;
mod groups;
pub mod laws;
mod laying;
mod link;
mod member;
mod movement;
mod movers;
mod moving;
mod referred;
mod room;
pub mod rows;
mod starting;
mod words;

pub use com_fault::ComFault;
pub use com_link::link_com;
pub use fault::ExeFault;
pub use file::{FarAddress, FileFault, Program, write_exe};
pub use link::{ExeFile, link_exe};
pub use member::Member;
pub use movement::movers_of;
pub use movers::{Movers, Moving};
pub use moving::{movable, site};
pub use room::Stack;
pub use words::{Words, WordsFault};
