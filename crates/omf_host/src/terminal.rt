//! Programs at a terminal: their name in color, and how far they are.

use crate::misuse::About;
use crate::noted::StandardOutput;
use crate::output::put;
use crate::streams::Streams;
use omf_frame::{Sink, Writing};
use std::alloc::AllocError;
use std::env;
use std::env::VarError;
use std::io::{IsTerminal, Stderr, Stdout};
use std::time::Instant;

/// How long a program runs before it shows how far it is, in milliseconds; and how long until it shows it again.
const PATIENCE: u64 = 1000;

const PAUSE: u64 = 100;

/// Whether a variable of the environment is there and not empty.
fn is_set(rt: &HostRuntime, name: &str) -> bool {
    match env::var(rt, name) {
        Ok(value) => !value.is_empty(),
        Err(VarError::NotPresent) => false,
        Err(_) => true,
    }
}

/// Whether the standard error is a terminal that knows escape sequences.
fn is_screen(rt: &HostRuntime) -> bool {
    if !rt.stderr().is_terminal() {
        return false;
    }
    match env::var(rt, "TERM") {
        Ok(kind) => kind.as_str() != "dumb",
        Err(_) => true,
    }
}

/// The streams of the process, for a program. Its name before a line is in color where the standard error is a terminal, unless NO_COLOR is set
/// and not empty.
pub fn standard_streams(
    rt: &HostRuntime,
    about: &About,
) -> Streams<StandardOutput<Stdout>, Writing<Stderr>> {
    let name = if is_screen(rt) && !is_set(rt, "NO_COLOR") {
        about.colored_name
    } else {
        about.name
    };
    let output = StandardOutput::new(rt.stdout());
    Streams::new(name, output, Writing::new(rt.stderr()))
}

/// How far a program is with its files: a line on the standard error, where that is a terminal and the standard output is none, from the first
/// second on.
#[derive(Drop)]
pub struct Progress {
    /// When the program began; None if nothing is shown.
    began: Option<Instant>,
    /// How long it runs before the line is shown again, in milliseconds.
    next: u64,
}

impl Progress {
    /// Nothing is done yet.
    pub fn new(rt: &HostRuntime) -> Progress {
        let began = if is_screen(rt) && !rt.stdout().is_terminal() {
            Instant::now(rt).ok()
        } else {
            None
        };
        Progress {
            began,
            next: PATIENCE,
        }
    }

    /// Whether it is time for the line.
    fn is_due(&mut self, rt: &HostRuntime) -> bool {
        let Some(began) = self.began else {
            return false;
        };
        let Ok(passed) = began.elapsed(rt) else {
            return false;
        };
        let passed = u64::try_from(passed.as_millis()).unwrap_or(u64::MAX);
        if passed < self.next {
            return false;
        }
        self.next = passed.saturating_add(PAUSE);
        true
    }

    /// Shows how many files are done, and how many there are. The cursor is at the front of the line then, so that the line of a fault takes
    /// its place.
    ///
    /// # Errors
    ///
    /// `AllocError` if out of memory.
    pub fn show<K, E: Sink>(
        &mut self,
        rt: &HostRuntime,
        streams: &mut Streams<K, E>,
        done: usize,
        count: usize,
    ) -> Result<(), AllocError> {
        if self.is_due(rt) {
            let name = streams.name;
            let line = format!(in rt.alloc(); "{name}: {done} of {count} files\x1B[K\r")?;
            let _ = put(&mut streams.errors, line.as_bytes());
        }
        Ok(())
    }

    /// Clears the line.
    pub fn end<K, E: Sink>(self, streams: &mut Streams<K, E>) {
        if self.next > PATIENCE {
            let _ = put(&mut streams.errors, b"\x1B[K");
        }
    }
}
