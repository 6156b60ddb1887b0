//! The arguments of `omf`.

ghost use Rattle.std.specs.Prelude.{◌≡◌, ◌⊎◌, ℕ, List, [], map, string_bytes, IfOk, Bool, true, false, Some, None};
ghost use Rattle.omf_cmd.specs.Inner.Names.{flag_rule};
ghost use Rattle.omf_cmd.specs.Words.{asks, job_name, job_named, omf_app, profile_of, with_flagged};
ghost use Rattle.clap.specs.Words.{app_of, fault_of, is_simple_and_free, rule_of, subcommand_of, subcommand_rows_of};
ghost use Rattle.omf_cmd.specs.Parsed.{IsParse, IsParsed};

use clap::error::ErrorKind;
use clap::{Arg, ArgAction, ArgMatches, Command};
use omf_check::Profile;
use std::alloc::{AllocError, Global};

/// What `omf` is asked to do.
#[derive(Clone, Copy, Debug, PartialEq, Eq)]
pub enum Job {
    /// Print a module's records and tables.
    List,
    /// Check whether the input begins with a well-formed module.
    Check,
    /// Relocate a module.
    Reloc,
    /// Write a module's canonical bytes.
    Canon,
}

impl Job {
    /// All jobs, in the order of the usage line.
    const ALL: [Job; 4] = [Job::List, Job::Check, Job::Reloc, Job::Canon];

    /// The name of the job's subcommand.
    fn name(self) -> &'static str
        ensures { result.now ≡ job_name self }
    {
        match self {
            Job::List => "list",
            Job::Check => "check",
            Job::Reloc => "reloc",
            Job::Canon => "canon",
        }
    }
}

/// The job that the arguments ask for, the program's own name first, and its profile; None if they are not understood.
///
/// # Errors
///
/// `AllocError` if memory ran out.
pub fn command(alloc: Global, words: &[String]) -> Result<Option<(Job, Profile)>, AllocError>
    // A subcommand is understood, alone or followed by the flag.
    ensures asks { (asked : Job × Profile) → asks (map string_bytes words.now) ≡ Some asked → IfOk result (λ found. found ≡ Some asked) }
    // So is each subcommand that clap finds in arguments without a fault.
    ensures parsed { (name : List ℕ) (job : Job) (refuses : Bool) → fault_of omf_app (map string_bytes words.now) ≡ [] → IsParsed (subcommand_of omf_app (map string_bytes words.now)) name refuses → job_named name ≡ Some job → IfOk result (λ found. found ≡ Some (record { 0 = job; 1 = profile_of refuses })) }
    // Without a subcommand the answer is None.
    ensures none { subcommand_of omf_app (map string_bytes words.now) ≡ None → IfOk result (λ found. found ≡ None) }
    // Some is returned only if clap finds no fault.
    ensures refused { IfOk result (λ found. (found ≡ None) ⊎ (fault_of omf_app (map string_bytes words.now) ≡ [])) }
{
    let omf = program(alloc)?;
    let found = read_words(omf, words)?;
    match found {
        Some(matches) => Ok(named_by(&matches)),
        None => Ok(None),
    }
}

/// Parses arguments, the program's own name first; None if they are not understood.
///
/// # Errors
///
/// `AllocError` if memory ran out.
pub fn read_words<'a>(
    command: Command<'a>,
    words: &'a [String],
) -> Result<Option<ArgMatches<'a>>, AllocError>
    // If no argument has a rule on another, this is clap's parse, and None exactly if clap finds a fault.
    ensures { is_simple_and_free (app_of command.entry) ≡ true → IfOk result (IsParse (app_of command.entry) (map string_bytes words.now)) }
{
    match command.try_get_matches_from(words) {
        Ok(matches) => Ok(Some(matches)),
        Err(error) => match error.kind() {
            ErrorKind::OutOfMemory => Err(AllocError),
            _ => Ok(None),
        },
    }
}

/// Adds a subcommand that has the flag and nothing else.
fn with_subcommand<'a>(
    alloc: Global,
    omf: Command<'a>,
    name: &'a str,
) -> Result<Command<'a>, AllocError>
    ensures { IfOk result (λ c. app_of c ≡ with_flagged (app_of omf.entry) name.now) }
{
    let subcommand = Command::new(alloc, name).arg(flag(alloc))?;
    omf.subcommand(subcommand)
}

/// The command line of `omf`: the subcommand of each job.
fn program<'a>(alloc: Global) -> Result<Command<'a>, AllocError>
    ensures { IfOk result (λ c. app_of c ≡ omf_app) }
{
    let mut omf = Command::new(alloc, "omf");
    for job in Job::ALL {
        omf = with_subcommand(alloc, omf, job.name())?;
    }
    Ok(omf)
}

/// The flag that refuses comments of vendor classes.
fn flag<'a>(alloc: Global) -> Arg<'a>
    ensures rule { rule_of result ≡ flag_rule }
    ensures own { result.global ≡ false }
{
    Arg::new(alloc, "refuse-vendor-comments")
        .long("refuse-vendor-comments")
        .action(ArgAction::SetTrue)
}

/// The job of a subcommand's name.
fn job_named(name: &str) -> Option<Job>
    ensures { result ≡ job_named name.now }
{
    for job in Job::ALL {
        if name == job.name() {
            return Some(job);
        }
    }
    None
}

/// The job of the parsed subcommand, and the profile of its flag.
fn named_by(matches: &ArgMatches<'_>) -> Option<(Job, Profile)>
    ensures none { subcommand_rows_of matches.now ≡ None → result ≡ None }
    ensures some { (name : List ℕ) (job : Job) (refuses : Bool) → IsParsed (subcommand_rows_of matches.now) name refuses → job_named name ≡ Some job → result ≡ Some (record { 0 = job; 1 = profile_of refuses }) }
{
    let (name, inner) = matches.subcommand()?;
    let job = job_named(name)?;
    let refuse_vendor_comments = inner.get_flag("refuse-vendor-comments");
    let profile = Profile {
        refuse_vendor_comments,
    };
    Some((job, profile))
}
