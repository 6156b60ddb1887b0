//! The program `omf-place`.

ghost use Rattle.omf_drafting.specs.Place.Faults.{usage};
ghost use Rattle.omf_drafting.specs.Place.Runs.{IsRun};
ghost use Rattle.omf_drafting.specs.Place.Words.{IsFound};

use crate::options::AskedOptions;
use crate::place::fault::PlaceFault;
use crate::place::running::run_place;
use crate::place::words::options_of;
use omf_cmd::Program;
use omf_frame::{Sink, Source};
use std::alloc::{AllocError, Global};

/// The program `omf-place`.
///
/// It ends with status 0 when done, 1 if the input is refused or has no room, 2 if the arguments are not understood, and 3 if memory runs
/// out, or the reader or the writer fails.
pub struct Place;

impl Program for Place {
    type Task = AskedOptions;

    type Fault = PlaceFault;

    ghost asks = { IsFound };

    ghost performs = { IsRun };

    ghost called = { usage };

    fn task(alloc: Global, arguments: &[String]) -> Result<Option<AskedOptions>, AllocError> {
        options_of(alloc, arguments)
    }

    fn perform<S: Source, K: Sink>(
        alloc: Global,
        task: AskedOptions,
        reader: &mut S,
        writer: &mut K,
    ) -> Result<(), PlaceFault> {
        run_place(alloc, task, reader, writer)
    }

    fn usage() -> &'static [u8] {
        b"usage: omf-place [--base ADDRESS] [--real | --flat SELECTOR] [FILE]\n"
    }
}
