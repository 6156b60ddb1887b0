//! The arguments of `omf-place`.

ghost use Rattle.std.specs.Prelude.{◌≡◌, map, string_bytes, IfOk};
ghost use Rattle.clap.specs.Words.{app_of};
ghost use Rattle.omf_drafting.specs.Place.Words.{IsFound, place_app};

use crate::options::{AskedOptions, options_in, with_options};
use clap::Command;
use omf_cmd::read_words;
use std::alloc::{AllocError, Global};

/// The layout options that the arguments ask for, the program's own name first: `--base` with an address, and `--real`, or `--flat` with a
/// selector, all hexadecimal. The default is base 10000H and the frames that suit the module. Returns `None` if the arguments are not understood.
///
/// # Errors
///
/// `AllocError` if memory runs out.
pub fn options_of(alloc: Global, words: &[String]) -> Result<Option<AskedOptions>, AllocError>
    ensures { IfOk result (IsFound (map string_bytes words.now)) }
{
    let place = program(alloc)?;
    let found = read_words(place, words)?;
    match found {
        Some(matches) => Ok(options_in(&matches)),
        None => Ok(None),
    }
}

/// The command for clap: the program with its options.
fn program<'a>(alloc: Global) -> Result<Command<'a>, AllocError>
    ensures { IfOk result (λ c. app_of c ≡ place_app) }
{
    with_options(alloc, Command::new(alloc, "omf-place"))
}
