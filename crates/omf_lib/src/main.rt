//! `omf-lib`: libraries of object modules (TIS OMF 1.1, appendix 2). It lists a library, checks its members and its
//! dictionary, finds names, takes members out, and makes libraries, also of canonical bytes. docs/LIBRARIES.md has what
//! it prints.
#![tactic(auto)]

mod asked;
mod canonical;
mod defining;
mod fault;
mod finding;
mod host;
mod imports;
mod judging;
mod library;
mod listing;
mod making;
mod members;
mod names;
mod naming;
mod near;
mod noting;
mod parts;
mod shown;
mod taking;
mod text;
mod undefined;

use std::process::ExitCode;

fn main(rt: HostRuntime) -> ExitCode {
    host::run(&rt)
}
