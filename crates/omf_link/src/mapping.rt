//! The task `map` for files: those that are refused are left out, and each module has a line with its file.

use crate::libraries::{JOIN, is_library, refuse_library};
use omf_check::Profile;
use omf_drafting::host::{read_or_tell, tell_fault};
use omf_frame::Sink;
use omf_host::{Progress, Status, Streams};
use omf_lines::{FilesFault, ImageFault, file_front};
use omf_linker::link::Output;
use omf_linking::{InputFile, LinkFault, file_modules};
use std::alloc::{AllocError, Global};
use std::fmt::Write;
use std::str::from_utf8;

/// The files that are not refused.
#[derive(Drop)]
pub(crate) struct Kept {
    pub(crate) files: Vec<InputFile>,
    /// A line for each of their modules: its number, and its file with its number there.
    lines: String,
    /// How many modules they have.
    modules: usize,
    /// Whether others are refused, or could not be read.
    pub(crate) status: Status,
}

/// The fault of a file, or memory.
fn fault_of(alloc: Global, file: &InputFile, fault: LinkFault) -> FilesFault {
    match file_front(alloc, file.name()) {
        Ok(front) => FilesFault::File { fault, front },
        Err(AllocError) => FilesFault::Link(ImageFault::Link(LinkFault::Memory)),
    }
}

/// The number of the modules of a file.
fn count_of(alloc: Global, bytes: &[u8]) -> Result<usize, LinkFault> {
    let profile = Profile {
        refuse_vendor_comments: false,
    };
    match file_modules(alloc, profile, bytes) {
        Ok(modules) => Ok(modules.len()),
        Err(fault) => Err(fault),
    }
}

impl Kept {
    /// Adds the lines of the modules of a file.
    fn add_lines(&mut self, alloc: Global, name: &[u8], count: usize) -> Result<(), AllocError> {
        let front = file_front(alloc, name)?;
        for own in 0..count {
            let shown = own.saturating_add(1);
            let number = self.modules.saturating_add(shown);
            write!(&mut self.lines, "module {number} {front}module {shown}\n")?;
        }
        self.modules = self.modules.saturating_add(count);
        Ok(())
    }

    /// Adds a file, or writes why it is refused.
    fn add<K: Sink, E: Sink>(
        &mut self,
        rt: &HostRuntime,
        file: InputFile,
        streams: &mut Streams<K, E>,
    ) -> Result<(), AllocError> {
        if is_library(file.bytes()) {
            self.status = self.status.worst(Status::Refused);
            let name = from_utf8(file.name()).unwrap_or("");
            refuse_library(rt.alloc(), name, JOIN, streams)?;
            return Ok(());
        }
        match count_of(rt.alloc(), file.bytes()) {
            Ok(count) => {
                self.add_lines(rt.alloc(), file.name(), count)?;
                Ok(self.files.push(file)?)
            }
            Err(LinkFault::Memory) => Err(AllocError),
            Err(fault) => {
                self.status = self.status.worst(Status::Refused);
                tell_fault(rt.alloc(), streams, &fault_of(rt.alloc(), &file, fault))
            }
        }
    }

    /// The map of the files, after the lines of their modules.
    pub(crate) fn with_lines(&self, alloc: Global, map: &Output) -> Result<Output, AllocError> {
        let mut text = Vec::new(alloc);
        text.extend_from_slice(self.lines.as_bytes())?;
        text.extend_from_slice(&map.bytes(alloc)?)?;
        Ok(Output::of_text(alloc, text))
    }
}

/// Reads the files of a map. What is wrong with a file is written, and the others are kept.
pub(crate) fn kept_files<K: Sink, E: Sink>(
    rt: &HostRuntime,
    names: &[String],
    streams: &mut Streams<K, E>,
) -> Result<Kept, AllocError> {
    let mut kept = Kept {
        files: Vec::new(rt.alloc()),
        lines: String::new(rt.alloc()),
        modules: 0,
        status: Status::Done,
    };
    let mut progress = Progress::new(rt);
    for (at, name) in names.iter().enumerate() {
        progress.show(rt, streams, at, names.len())?;
        match read_or_tell(rt, name.as_str(), streams)? {
            Some(bytes) => {
                let file = InputFile::new(name.clone()?, bytes);
                kept.add(rt, file, streams)?;
            }
            None => kept.status = Status::Failed,
        }
    }
    progress.end(streams);
    Ok(kept)
}
