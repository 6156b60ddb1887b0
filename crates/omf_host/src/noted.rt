//! The output of a program, which remembers why it failed.

ghost use Rattle.std.specs.Prelude.{◌≡◌, ◌≤◌, ◌||◌, length, IfOk, None, is_some};
ghost use Rattle.std.specs.Io.KnownBytes.{Keeps};
ghost use Rattle.omf_frame.specs.Device.{Pushes, counted, push_breaks, push_fails};

use omf_frame::{Sink, Writing};
use std::io;
use std::io::{Error, ErrorKind, Write};

/// A sink over a writer. It remembers its last error, interruptions aside.
#[derive(Drop)]
pub struct StandardOutput<W> {
    writing: Writing<W>,
    failure: Option<Error>,
}

impl<W: Write> StandardOutput<W> {
    /// A sink over the writer, which has not failed yet.
    pub fn new(writer: W) -> Self
        ensures seen { ⟦<StandardOutput<W> as Sink>⟧.seen result ≡ record { bytes = W.contents writer; failures = 0; breaks = 0 } }
        ensures failure { result.failure ≡ None }
    {
        StandardOutput {
            writing: Writing::new(writer),
            failure: None,
        }
    }

    /// The last error.
    pub fn failure(&self) -> Option<Error>
        ensures { result ≡ self.now.failure }
    {
        self.failure
    }

    /// Flushes the writer. An error is remembered.
    pub(crate) fn flush(&mut self) -> bool
        ensures bytes { Keeps (⟦<StandardOutput<W> as Sink>⟧.seen self.old).bytes (⟦<StandardOutput<W> as Sink>⟧.seen self.new).bytes }
        ensures flushed { self.new.writing.is_flushed ≡ result }
    {
        match self.writing.flush() {
            Ok(()) => true,
            Err(error) => {
                self.failure = Some(error);
                false
            }
        }
    }
}

/// Why a write failed that took a number of bytes, or had an error; None if it did not, or was interrupted.
fn failure_of(answer: &io::Result<usize>, bytes: &[u8]) -> Option<Error>
    ensures { is_some result ≡ push_breaks answer.now bytes.now }
{
    match answer {
        Ok(0) if !bytes.is_empty() => Some(Error::from(ErrorKind::WriteZero)),
        Ok(_) => None,
        Err(error) if error.kind() == ErrorKind::Interrupted => None,
        Err(error) => Some(*error),
    }
}

impl<W: Write> Sink for StandardOutput<W> {
    ghost seen = { λ s. ⟦<Writing<W> as Sink>⟧.seen s.writing };

    fn push(&mut self, bytes: &[u8]) -> io::Result<usize>
        ensures bound { IfOk result (λ n. n ≤ length bytes.now) }
        ensures bytes { Pushes (⟦<StandardOutput<W> as Sink>⟧.seen self.old).bytes (⟦<StandardOutput<W> as Sink>⟧.seen self.new).bytes result bytes.now }
        ensures failures { (⟦<StandardOutput<W> as Sink>⟧.seen self.new).failures ≡ counted (push_fails result bytes.now) (⟦<StandardOutput<W> as Sink>⟧.seen self.old).failures }
        ensures breaks { (⟦<StandardOutput<W> as Sink>⟧.seen self.new).breaks ≡ counted (push_breaks result bytes.now) (⟦<StandardOutput<W> as Sink>⟧.seen self.old).breaks }
        // Each break is remembered.
        ensures failure { is_some self.new.failure ≡ (is_some self.old.failure || push_breaks result bytes.now) }
    {
        let answer = self.writing.push(bytes);
        if let Some(error) = failure_of(&answer, bytes) {
            self.failure = Some(error);
        }
        answer
    }
}
