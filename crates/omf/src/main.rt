//! `omf`: checks, relocates and rewrites object modules.
#![tactic(auto)]

use omf_cmd::{Omf, run_program};
use std::process::ExitCode;

fn main(rt: HostRuntime) -> ExitCode {
    run_program::<Omf>(&rt)
}
