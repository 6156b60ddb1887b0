//! The lines of faults, by the names of files, modules, segments, groups and externals: of modules that are not linked, of a line of a
//! link text, and of files.
#![tactic(auto)]

mod fault;
mod files;
mod files_fault;
mod lines;
mod miss;
mod naming;
mod near;
mod printed;
pub mod rows;
mod spot;
mod text_fault;
mod text_line;

pub use fault::ImageFault;
pub use files::{file_front, in_file};
pub use files_fault::FilesFault;
pub use lines::{
    Labeled, beyond_line, high_line, name_at, outside_line, overlap_line, put_owner, put_part,
    put_segment, put_stray, reach_line, starts_line,
};
pub use miss::miss_of;
pub use naming::named;
pub use text_fault::TextFault;
