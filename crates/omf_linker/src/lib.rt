//! The tasks of the program `omf-link` over a link text (`link`), and what they print about what the text does unseen (`seen`).
#![tactic(auto)]

pub mod host;
pub mod link;
pub mod rows;
pub mod seen;
