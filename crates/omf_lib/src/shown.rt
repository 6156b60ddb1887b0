//! Text that is written as it grows.

ghost use Rattle.std.specs.Prelude.{◌≡◌, IfOk};
ghost use Rattle.std.specs.Io.KnownBytes.{Appends};
ghost use Rattle.omf_lib.specs.Find.{refused_status};

use crate::fault::Fault;
use crate::text::put_fault;
use omf_frame::Sink;
use omf_host::{Status, Streams, put, put_failure, put_name, put_unread, put_unwritten};
use std::alloc::{AllocError, Global};
use std::io;

/// Why a task stopped.
#[derive(Clone, Copy)]
pub enum Stop {
    Memory,
    /// The output could not be written.
    Write,
}

impl From<AllocError> for Stop {
    fn from(_error: AllocError) -> Stop {
        Stop::Memory
    }
}

/// Writes bytes.
pub fn send_bytes<K: Sink>(writer: &mut K, bytes: &[u8]) -> Result<(), Stop>
    ensures { IfOk result (λ _. Appends (K.seen writer.old).bytes (K.seen writer.new).bytes bytes.now) }
{
    match put(writer, bytes) {
        Status::Done => Ok(()),
        Status::Refused | Status::Misused | Status::Failed => Err(Stop::Write),
    }
}

/// Writes a text.
pub fn send<K: Sink>(writer: &mut K, text: &str) -> Result<(), Stop>
    ensures { IfOk result (λ _. Appends (K.seen writer.old).bytes (K.seen writer.new).bytes text.now) }
{
    send_bytes(writer, text.as_bytes())
}

/// The status of what is refused or not.
pub fn status_of(is_refused: bool) -> Status
    ensures { result ≡ refused_status is_refused }
{
    if is_refused {
        Status::Refused
    } else {
        Status::Done
    }
}

/// The text that is not written yet, and the status so far.
#[derive(Drop)]
pub struct Shown {
    pub text: String,
    pub status: Status,
}

impl Shown {
    /// No text.
    pub fn new(alloc: Global) -> Shown {
        Shown {
            text: String::new(alloc),
            status: Status::Done,
        }
    }

    /// A status is never lowered.
    pub fn raise(&mut self, status: Status) {
        self.status = self.status.worst(status);
    }

    /// Appends the line of a fault that is asked for.
    pub fn fault(&mut self, fault: Fault<'_>) -> Result<(), AllocError> {
        self.raise(Status::Refused);
        put_fault(&mut self.text, fault)
    }

    /// Writes the text so far.
    pub fn flush<K: Sink>(&mut self, writer: &mut K) -> Result<(), Stop> {
        send(writer, self.text.as_str())?;
        self.text.clear();
        Ok(())
    }
}

/// What a task shows of a library, and the lines of what is wrong.
#[derive(Drop)]
pub struct Told<'a> {
    /// The library's name.
    pub name: &'a str,
    /// What goes on the output.
    pub shown: Shown,
    /// What goes on the standard error.
    pub faults: String,
}

impl<'a> Told<'a> {
    /// No text and no faults.
    pub fn new(alloc: Global, name: &'a str) -> Told<'a> {
        Told {
            name,
            shown: Shown::new(alloc),
            faults: String::new(alloc),
        }
    }

    /// Appends the line of a fault of a library: its name, and the fault.
    pub fn fault_of(&mut self, name: &str, fault: Fault<'_>) -> Result<(), AllocError> {
        self.shown.raise(Status::Refused);
        put_name(&mut self.faults, name.as_bytes())?;
        self.faults.push_str(": ")?;
        put_fault(&mut self.faults, fault)
    }

    /// The same of the library that the task is about.
    pub fn fault(&mut self, fault: Fault<'_>) -> Result<(), AllocError> {
        self.fault_of(self.name, fault)
    }

    /// Appends the line of a name that is refused: `refused NAME: REASON`.
    pub fn refuse(&mut self, name: &str, reason: &str) -> Result<(), AllocError> {
        self.shown.raise(Status::Refused);
        put_failure(&mut self.faults, "refused", name, reason)
    }

    /// Appends the line of a file that could not be read.
    pub fn unread(&mut self, name: &str, error: &io::Error) -> Result<(), AllocError> {
        self.shown.raise(Status::Failed);
        put_unread(&mut self.faults, name, error)
    }

    /// Appends the line of a file that could not be written.
    pub fn unwritten(&mut self, name: &str, error: &io::Error) -> Result<(), AllocError> {
        self.shown.raise(Status::Failed);
        put_unwritten(&mut self.faults, name, error)
    }

    /// Writes the lines of faults so far on the standard error, and the text so far on the output.
    pub fn flush<K: Sink, E: Sink>(&mut self, streams: &mut Streams<K, E>) -> Result<(), Stop> {
        let alloc = *self.faults.allocator();
        streams.report(alloc, self.faults.as_bytes())?;
        self.faults.clear();
        self.shown.flush(&mut streams.output)
    }
}
