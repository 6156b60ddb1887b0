//! ALIAS records, followed (TIS OMF 1.1, "ALIAS"): an external that no public has, and whose name is an alias, gets the name at the end of the
//! aliases as its default, as a weak external has one. A default of its own counts before.
#![tactic(auto)]

mod asking;
mod circles;
mod defaults;
mod ends;
mod fault;
mod following;
mod own;
mod profile;
mod records;
pub mod rows;
mod substitutes;

pub use asking::asker_of;
pub use circles::circle_lines;
pub use fault::FollowingFault;
pub use following::followed;
pub use profile::any_profile;
