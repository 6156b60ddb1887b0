//! `omf-link`: the memory image of several modules, their map, a draft of a link text, and a DOS program of modules and libraries.
//!
//! Without file names it reads modules and a text from the standard input (`omf_linker::link::Link`). With file names it reads the files.
#![tactic(auto)]

mod about;
mod exe;
mod folders;
mod host;
mod libraries;
mod listing;
mod lowering;
mod mapping;
mod missing;

use std::process::ExitCode;

fn main(rt: HostRuntime) -> ExitCode {
    host::run(&rt)
}
