//! `omf-find`: which modules of object files and libraries are in a program, and where.
//!
//! The program is an MZ file, whose image is what DOS loads at paragraph 0 (`specs/Mz`), a .COM file or a raw image (`specs/Loaded`). The
//! modules are searched for by omf_finding. What is found is shown as a map (`specs/Map`), or as symbols for other tools (`specs/Symbols`, with omf_symbols).
#![tactic(auto)]

mod asked;
mod fields;
mod gaps;
mod host;
mod lines;
mod linktext;
mod loading;
mod marks;
mod mz;
mod near;
mod part;
mod parts;
mod reading;
mod report;
mod room;
mod rows;
mod source;
mod symbols;

use std::process::ExitCode;

fn main(rt: HostRuntime) -> ExitCode {
    host::run(&rt)
}
