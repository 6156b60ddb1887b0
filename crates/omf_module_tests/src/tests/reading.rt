//! Sources and sinks over readers and writers that fail: kinds of errors, and numbers of calls, of which contracts leave some open (docs/PROOFS.md, 'What
//! is only tested').

use omf_frame::{Buffered, Reading, Sink, Source, Writing, pull_piece};
use std::alloc::Global;
use std::io;
use std::io::{BufReader, ErrorKind, Read, Write};

/// The kind of the error, if there is one.
fn failure<T: Drop>(answer: Result<T, io::Error>) -> Option<ErrorKind> {
    match answer {
        Ok(_) => None,
        Err(error) => Some(error.kind()),
    }
}

/// A device that answers by its calls, from 0: one byte, two interruptions, a broken pipe, and then as at an end.
#[derive(Drop)]
struct Torn {
    calls: u32,
}

impl Torn {
    fn answer(&mut self) -> io::Result<usize> {
        let call = self.calls;
        self.calls = call.saturating_add(1);
        match call {
            0 => Ok(1),
            1 | 2 => Err(io::Error::from(ErrorKind::Interrupted)),
            3 => Err(io::Error::from(ErrorKind::BrokenPipe)),
            _ => Ok(0),
        }
    }
}

impl Read for &mut Torn {
    fn read(&mut self, buf: &mut [u8]) -> io::Result<usize> {
        let [first, ..] = buf else {
            return Ok(0);
        };
        let count = self.answer()?;
        *first = 7;
        Ok(count.min(1))
    }
}

impl Write for &mut Torn {
    fn write(&mut self, buf: &[u8]) -> io::Result<usize> {
        Ok(self.answer()?.min(buf.len()))
    }

    fn flush(&mut self) -> io::Result<()> {
        Ok(())
    }
}

/// The errors of five calls of a torn device.
static ERRORS: [Option<ErrorKind>; 5] = [
    None,
    Some(ErrorKind::Interrupted),
    Some(ErrorKind::Interrupted),
    Some(ErrorKind::BrokenPipe),
    None,
];

/// Whether five pulls give these errors.
fn pulls_fail<S: Source>(source: &mut S) -> bool {
    for error in &ERRORS {
        if failure(source.pull(&mut [0; 4])) != *error {
            return false;
        }
    }
    true
}

/// Whether five pulls over a torn device give its errors, and the number of its calls.
fn reads_torn() -> (bool, u32) {
    let mut torn = Torn { calls: 0 };
    let fails = pulls_fail(&mut Reading::new(&mut torn));
    (fails, torn.calls)
}

/// The same with a buffer of 4 bytes; `None` if it finds no memory.
fn reads_torn_in_buffer(alloc: Global) -> Option<(bool, u32)> {
    let mut torn = Torn { calls: 0 };
    let fails = match BufReader::with_capacity(alloc, 4, &mut torn) {
        Ok(input) => pulls_fail(&mut Buffered::new(input)),
        Err(_) => return None,
    };
    Some((fails, torn.calls))
}

#[test]
fn errors_of_a_reader_are_passed_on(rt: HostRuntime) {
    assert!(rt; reads_torn() == (true, 5));
    assert!(rt; reads_torn_in_buffer(rt.alloc()) == Some((true, 5)));
}

/// The error of a piece that is read after this many calls, and the number of all calls.
fn read_after(calls: u32) -> (Option<ErrorKind>, u32) {
    let mut torn = Torn { calls };
    let error = failure(pull_piece(&mut Reading::new(&mut torn), &mut [0; 4]));
    (error, torn.calls)
}

#[test]
fn interruptions_of_a_reader_are_retried(rt: HostRuntime) {
    assert!(rt; read_after(1) == (Some(ErrorKind::BrokenPipe), 4));
}

/// Whether five pushes give these errors.
fn pushes_fail<S: Sink>(sink: &mut S) -> bool {
    for error in &ERRORS {
        if failure(sink.push(&[7])) != *error {
            return false;
        }
    }
    true
}

/// Whether five pushes over a torn device give its errors, and the number of its calls.
fn writes_torn() -> (bool, u32) {
    let mut torn = Torn { calls: 0 };
    let fails = pushes_fail(&mut Writing::new(&mut torn));
    (fails, torn.calls)
}

#[test]
fn errors_of_a_writer_are_passed_on(rt: HostRuntime) {
    assert!(rt; writes_torn() == (true, 5));
}
