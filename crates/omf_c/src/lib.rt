//! The library for C: checks, lists and relocates modules in memory, and makes their canonical bytes. `include/omf.h` describes the calls.
//!
//! Each call takes bytes as a pointer and a length, has no other precondition, and returns an `Answer` by value. A text goes into the
//! caller's buffer, whole or not at all.
#![tactic(auto)]

mod answer;
mod calls;
mod data;
mod fixups;
mod images;
mod libraries;
mod linking;
mod making;
mod placing;
mod programs;
mod reasons;
mod records;
mod row_calls;
mod rows;
mod runs;
mod starts;
mod table;
mod tables;
mod texts;

pub use answer::Answer;
pub use calls::{
    omf_canon, omf_check, omf_image, omf_image_at, omf_list, omf_reloc, omf_start, omf_start_at,
};
pub use libraries::{omf_library_find, omf_library_members};
pub use linking::omf_link_image;
pub use programs::omf_exe;
pub use row_calls::{
    omf_comments, omf_data, omf_data_bytes, omf_externals, omf_fixups, omf_group_members,
    omf_groups, omf_headers, omf_publics, omf_records, omf_segments, omf_start_reference,
};
pub use rows::{
    CommentRow, DataRow, ExternalRow, FileRow, FixupRow, FrameRow, GroupRow, HeaderRow,
    LibraryMemberRow, MemberRow, NamePlace, PlaceRow, PlacementRows, ProgramRow, PublicRow,
    RecordRow, RunRow, SegmentRow, Span, StartReferenceRow, StartRow,
};
pub use texts::{omf_fault_line, omf_reason_name, omf_reason_sentence, omf_version};
