//! The program `omf-link`.

ghost use Rattle.omf_linker.specs.Link.Usage.{usage};
ghost use Rattle.omf_linker.specs.Link.Runs.{IsRun};
ghost use Rattle.omf_linker.specs.Link.Words.{IsFound};

use crate::link::running::run_task;
use crate::link::words;
use crate::link::words::task_of;
use omf_cmd::Program;
use omf_frame::{Sink, Source};
use omf_lines::ImageFault;
use std::alloc::{AllocError, Global};

/// The program `omf-link`.
///
/// It ends with status 0 when done, 1 if the input or its text is refused or has no room, 2 if the arguments are not understood, and 3 if
/// memory runs out, or the reader or the writer fails.
pub struct Link;

impl Program for Link {
    type Task = words::Task;

    type Fault = ImageFault;

    ghost asks = { IsFound };

    ghost performs = { IsRun };

    ghost called = { usage };

    fn task(alloc: Global, arguments: &[String]) -> Result<Option<words::Task>, AllocError> {
        task_of(alloc, arguments)
    }

    fn perform<S: Source, K: Sink>(
        alloc: Global,
        task: words::Task,
        reader: &mut S,
        writer: &mut K,
    ) -> Result<(), ImageFault> {
        run_task(alloc, task, reader, writer)
    }

    fn usage() -> &'static [u8] {
        b"usage: omf-link exe -o FILE [--map FILE] [--symbols TOOL=FILE] [--stack BYTES]\n           [--order ORDER] [--max-alloc PARAGRAPHS] [-L DIR ..]\n           [--library-path DIR ..] [--no-default-libraries]\n           [--no-default-library NAME ..] [--allow group|mixed|near|twice ..]\n           [--ignore-case] [--keep-debug] [--eliminate] FILE ..\n       omf-link com -o FILE [--map FILE] [--symbols TOOL=FILE] [--stack BYTES]\n           [--order ORDER] [-L DIR ..] [--library-path DIR ..]\n           [--no-default-libraries] [--no-default-library NAME ..]\n           [--allow group|mixed|near|twice ..] [--ignore-case] [--keep-debug]\n           [--eliminate] FILE ..\n       omf-link image [--allow overlap|align|group|frame|near|twice ..]\n           [--ignore-case] [-t TEXT] [-o FILE] [FILE ..]\n       omf-link map [--ignore-case] [-t TEXT] [-o FILE] [FILE ..]\n       omf-link bin --base ADDRESS --size SIZE [--fill BYTE]\n           [--allow overlap|align|group|frame|near|twice ..]\n           [--ignore-case] [-t TEXT] [-o FILE] [FILE ..]\n       omf-link hex [--addresses linear|segment]\n           [--allow overlap|align|group|frame|near|twice ..]\n           [--ignore-case] [-t TEXT] [-o FILE] [FILE ..]\n       omf-link srec [--addresses 16|24|32]\n           [--allow overlap|align|group|frame|near|twice ..]\n           [--ignore-case] [-t TEXT] [-o FILE] [FILE ..]\n       omf-link draft [--base ADDRESS] [--real | --flat SELECTOR]\n           [--ignore-case] [-o FILE] [FILE ..]\n"
    }
}
