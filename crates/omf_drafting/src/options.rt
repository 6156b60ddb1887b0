//! The layout options of a command line: `--base` with an address, and `--real`, or `--flat` with a selector.

ghost use Rattle.std.specs.Prelude.{◌≡◌, option_map, option_and_then, IfOk, Bool, false, Some};
ghost use Rattle.clap.specs.Words.{app_of, first_of, found_of, one_of, rows_of, rule_of};
ghost use Rattle.omf_cmd.specs.Words.{flag_text};
ghost use Rattle.omf_drafting.specs.Options.{base_id, base_named, flag_rule, flat_id, frames_named, options_named, real_id, value_rule, with_options};

use clap::{Arg, ArgAction, ArgMatches, Command};
use omf_host::number;
use omf_layout::Frames;
use std::alloc::{AllocError, Global};

/// The default base address.
const BASE: u32 = 0x10000;

/// The layout options that a command line gives.
#[derive(Clone, Copy)]
pub struct AskedOptions {
    /// The lowest address: the first segment that is not absolute is at the first address of its alignment from here on.
    pub base: u32,
    /// The frames. None: those that suit the modules, real mode if they have no 32-bit segment.
    pub frames: Option<Frames>,
}

/// Adds the layout options to a command: `--base` with an address, `--real`, and `--flat` with a selector. Numbers are hexadecimal.
///
/// # Errors
///
/// `AllocError` if memory runs out.
pub fn with_options<'a>(alloc: Global, command: Command<'a>) -> Result<Command<'a>, AllocError>
    ensures { IfOk result (λ c. app_of c ≡ with_options (app_of command.entry)) }
{
    command
        .arg(valued(alloc, "base"))?
        .arg(real(alloc))?
        .arg(valued(alloc, "flat"))
}

/// An option that takes a value.
pub fn valued<'a>(alloc: Global, name: &'a str) -> Arg<'a>
    ensures rule { rule_of result ≡ value_rule name.entry.now }
    ensures own { result.global ≡ false }
{
    Arg::new(alloc, name).long(name).action(ArgAction::Set)
}

/// The flag for real mode.
fn real<'a>(alloc: Global) -> Arg<'a>
    ensures rule { rule_of result ≡ flag_rule real_id }
    ensures own { result.global ≡ false }
{
    Arg::new(alloc, "real")
        .long("real")
        .action(ArgAction::SetTrue)
}

/// Reads the layout options from the matches of a command of `with_options`. The default is base 10000H and the frames that suit the modules.
/// Returns `None` if a value is not such a number, or if both `--real` and `--flat` are given.
pub fn options_in(matches: &ArgMatches<'_>) -> Option<AskedOptions>
    ensures { (real : Bool) → one_of real_id (rows_of (found_of matches.now)) ≡ Some (flag_text real) → result ≡ options_named (first_of base_id (rows_of (found_of matches.now))) real (first_of flat_id (rows_of (found_of matches.now))) }
{
    let base = base_named(matches.get_str("base"));
    let real = matches.get_flag("real");
    let frames = frames_named(real, matches.get_str("flat"));
    options(base, frames)
}

/// Builds the options, if both parts were read.
fn options(base: Option<u32>, frames: Option<Option<Frames>>) -> Option<AskedOptions>
    ensures { result ≡ option_and_then (λ b. option_map (λ f. record { base = b; frames = f }) frames) base }
{
    let base = base?;
    let frames = frames?;
    Some(AskedOptions { base, frames })
}

/// The base address: 1 to 8 hexadecimal digits, alone, after `0x` or before an H; 10000H by default.
fn base_named(word: Option<&str>) -> Option<u32>
    ensures { result ≡ base_named (option_map (λ w. w.now) word.entry) }
{
    match word {
        Some(word) => number(word.as_bytes(), 8),
        None => Some(BASE),
    }
}

/// The frames: `--real`, or one flat frame with a selector of 1 to 4 such digits. Without either they are left open.
fn frames_named(real: bool, flat: Option<&str>) -> Option<Option<Frames>>
    ensures { result ≡ frames_named real (option_map (λ w. w.now) flat.entry) }
{
    match flat {
        Some(word) => {
            if real {
                return None;
            }
            let selector = number(word.as_bytes(), 4)? as u16;
            Some(Some(Frames::Flat { selector }))
        }
        None => {
            if real {
                return Some(Some(Frames::Real));
            }
            Some(None)
        }
    }
}
