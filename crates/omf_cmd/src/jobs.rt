//! The program `omf`.

ghost use Rattle.std.specs.Prelude.{◌≡◌, ◌≤◌, map, string_bytes};
ghost use Rattle.omf_check.specs.declared.profile.Profile.{Profile};
ghost use Rattle.omf_cmd.specs.Reports.{AnswersTo, IsFound, IsNamedBy, IsPerformed, IsRun};
ghost use Rattle.omf_cmd.specs.Runs.{IsCausedBy};
ghost use Rattle.omf_cmd.specs.Words.{usage};
ghost use Rattle.omf_cmd.specs.declared.words.Job.{Job};

use crate::fault::RunFault;
use crate::program::{Program, run_with};
use crate::relocation::run_reloc;
use crate::running::{run_canon, run_check, run_list};
use crate::words::{Job, command};
use omf_check::Profile;
use omf_frame::{Sink, Source};
use std::alloc::{AllocError, Global};

/// The program `omf`.
pub struct Omf;

impl Program for Omf {
    type Task = (Job, Profile);

    type Fault = RunFault;

    ghost asks = { IsFound };

    ghost performs = { IsPerformed };

    ghost called = { usage };

    fn task(alloc: Global, arguments: &[String]) -> Result<Option<(Job, Profile)>, AllocError> {
        command(alloc, arguments)
    }

    fn perform<S: Source, K: Sink>(
        alloc: Global,
        task: (Job, Profile),
        reader: &mut S,
        writer: &mut K,
    ) -> Result<(), RunFault> {
        let (job, profile) = task;
        run_job(alloc, job, profile, reader, writer)
    }

    fn usage() -> &'static [u8] {
        b"usage: omf list|check|reloc|canon [--refuse-vendor-comments]\n"
    }
}

/// Runs a job.
fn run_job<S: Source, K: Sink>(
    alloc: Global,
    job: Job,
    profile: Profile,
    reader: &mut S,
    writer: &mut K,
) -> Result<(), RunFault>
    ensures cause { IsCausedBy (S.seen reader.old) (S.seen reader.new) (K.seen writer.old) (K.seen writer.new) result }
    ensures named { IsNamedBy job result }
    ensures runs { IsRun job profile (S.seen reader.old) (S.seen reader.new) (K.seen writer.old) (K.seen writer.new) result }
{
    match job {
        Job::List => run_list(alloc, profile, reader, writer),
        Job::Check => run_check(alloc, profile, reader, writer),
        Job::Reloc => run_reloc(alloc, profile, reader, writer),
        Job::Canon => run_canon(alloc, profile, reader, writer),
    }
}

/// Runs `omf` on its arguments, the program's own name first: runs the job that `command` finds, or prints the usage, and prints the text of a
/// fault. It returns the exit status: 0 done, 1 the input is refused, 2 the arguments are not understood, 3 out of memory, or the reader or the
/// writer failed. It does not flush the writer.
pub fn main_with<S: Source, K: Sink>(
    alloc: Global,
    words: &[String],
    reader: &mut S,
    writer: &mut K,
) -> u8
    ensures known { result ≤ 3 }
    ensures answers { AnswersTo (map string_bytes words.now) (S.seen reader.old) (S.seen reader.new) (K.seen writer.old) (K.seen writer.new) result }
{
    run_with::<Omf, _, _>(alloc, words, reader, writer)
}
