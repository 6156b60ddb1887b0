//! The arguments of `omf-link`.

ghost use Rattle.std.specs.Prelude.{◌≡◌, List, codes, map, string_bytes, IfOk, IfSome, Some, None, true, false};
ghost use Rattle.std.specs.Str.{bytes_eq};
ghost use Rattle.clap.specs.Words.{Row, Text, app_of, found_of, rows_of, subcommand_rows_of};
ghost use Rattle.omf_drafting.specs.declared.options.AskedOptions.{AskedOptions as At};
ghost use Rattle.omf_output.specs.declared.rom.form.Form.{Form as AskedForm};
ghost use Rattle.omf_drafting.specs.Options.{AreNamed, NameOnly};
ghost use Rattle.omf_linker.specs.Link.FormWords.{IsFormNamed};
ghost use Rattle.omf_linker.specs.Link.Words.{IsFound, IsNamedIn, IsTask, NamesBy, link_app};
ghost use Rattle.omf_linker.specs.declared.link.words.Task.{Task as Asked};
ghost use Rattle.omf_linker.specs.declared.link.words.Task.TheVariants.{Image, Map, Draft, Rom};

use crate::link::form_words::{form_named, with_addresses, with_chip};
use clap::{ArgMatches, Command};
use omf_cmd::read_words;
use omf_drafting::options::{AskedOptions, options_in, with_options};
use omf_output::rom::Form;
use std::alloc::{AllocError, Global};

/// What the arguments ask for.
#[derive(Clone, Copy)]
pub enum Task {
    /// Write the memory image of the modules at the placements of the link text.
    Image,
    /// Write this image as a file for a chip.
    Rom(Form),
    /// Write the map of the modules at these placements.
    Map,
    /// Write the draft of a link text for the modules.
    Draft(AskedOptions),
}

/// The task that the arguments ask for, the program's own name first: a subcommand, followed by its options. Returns `None` if
/// the arguments are not understood.
///
/// # Errors
///
/// `AllocError` if memory runs out.
pub fn task_of(alloc: Global, words: &[String]) -> Result<Option<Task>, AllocError>
    ensures { IfOk result (IsFound (map string_bytes words.now)) }
{
    let link = program(alloc)?;
    let found = read_words(link, words)?;
    match found {
        Some(matches) => Ok(named_by(&matches)),
        None => Ok(None),
    }
}

/// The command for clap: the program with its subcommands and their options.
fn program<'a>(alloc: Global) -> Result<Command<'a>, AllocError>
    ensures { IfOk result (λ c. app_of c ≡ link_app) }
{
    let link = Command::new(alloc, "omf-link");
    let link = link.subcommand(Command::new(alloc, "image"))?;
    let link = link.subcommand(Command::new(alloc, "map"))?;
    let link = link.subcommand(with_chip(alloc, Command::new(alloc, "bin"))?)?;
    let link = link.subcommand(with_addresses(alloc, Command::new(alloc, "hex"))?)?;
    let link = link.subcommand(with_addresses(alloc, Command::new(alloc, "srec"))?)?;
    link.subcommand(with_options(alloc, Command::new(alloc, "draft"))?)
}

/// The draft with the options that were parsed after its subcommand.
fn draft_named(inner: &ArgMatches<'_>) -> Option<Task>
    ensures asks { (o : At) → AreNamed (rows_of (found_of inner.now)) o → result ≡ Some (Draft o) }
    ensures only { IfSome result (NamesBy NameOnly (codes "draft") (rows_of (found_of inner.now))) }
{
    let options = options_in(inner)?;
    Some(Task::Draft(options))
}

/// The task of a subcommand, and of what was parsed after it.
fn task_named(name: &str, inner: &ArgMatches<'_>) -> Option<Task>
    ensures image { bytes_eq name.now (codes "image") ≡ true → result ≡ Some Image }
    ensures map { bytes_eq name.now (codes "image") ≡ false → bytes_eq name.now (codes "map") ≡ true → result ≡ Some Map }
    ensures draft { (o : At) → bytes_eq name.now (codes "image") ≡ false → bytes_eq name.now (codes "map") ≡ false → bytes_eq name.now (codes "draft") ≡ true → AreNamed (rows_of (found_of inner.now)) o → result ≡ Some (Draft o) }
    ensures rom { (f : AskedForm) → IsFormNamed name.now (rows_of (found_of inner.now)) f → result ≡ Some (Rom f) }
    ensures only { IfSome result (NamesBy NameOnly name.now (rows_of (found_of inner.now))) }
{
    match name {
        "image" => Some(Task::Image),
        "map" => Some(Task::Map),
        "draft" => draft_named(inner),
        _ => Some(Task::Rom(form_named(name, inner)?)),
    }
}

/// The task of the subcommand that was parsed.
fn named_by(matches: &ArgMatches<'_>) -> Option<Task>
    ensures none { subcommand_rows_of matches.now ≡ None → result ≡ None }
    ensures some { (name : Text) (rows : List Row) (asked : Asked) → subcommand_rows_of matches.now ≡ Some (name, rows) → IsTask name rows asked → result ≡ Some asked }
    ensures only { IfSome result (IsNamedIn NameOnly (subcommand_rows_of matches.now)) }
{
    let (name, inner) = matches.subcommand()?;
    task_named(name, inner)
}
