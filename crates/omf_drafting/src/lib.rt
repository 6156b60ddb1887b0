//! A first text for a link: for each module, named by a key, its segments and groups at their places from `omf_layout::several`, and
//! places to be filled in. The program `omf-place` (`place`), and what it and `omf-link` have in common: their arguments (`asked`), the
//! layout options (`options`, `suiting`), and what a task does with files and streams (`host`).
#![tactic(auto)]

pub mod asked;
mod draft;
pub mod host;
pub mod laws;
pub mod options;
mod part;
pub mod place;
pub mod rows;
pub mod suiting;
mod telling;

pub use draft::link_draft;
