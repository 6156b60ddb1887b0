//! A sink in memory.

ghost use Rattle.std.specs.Prelude.{◌≡◌, ◌<◌, ◌≤◌, ◌+◌, [], Some, length, vec_capacity, vec_len, IfOk, OnErr};
ghost use Rattle.omf_frame.specs.Device.{Device, Pushes, push_fails, push_breaks, counted};
ghost use Rattle.omf_cmd.specs.Programs.{in_memory};

use omf_frame::Sink;
use std::alloc::Global;
use std::io;
use std::io::{Error, ErrorKind};

/// A sink that keeps what it takes. It fails where memory for that runs out, and takes nothing then.
#[derive(Drop)]
pub struct Gathered {
    /// All that it took.
    pub text: Vec<u8>,
    refusals: u64,
}

impl Gathered {
    /// An empty sink.
    pub fn new(alloc: Global) -> Self
        ensures { ⟦<Gathered as Sink>⟧.seen result ≡ in_memory 0 [] }
    {
        Gathered {
            text: Vec::new(alloc),
            refusals: 0,
        }
    }
}

impl Sink for Gathered {
    ghost use Rattle.std.specs.Prelude.{Some};

    ghost seen = { λ s. in_memory s.refusals s.text.items };

    fn push(&mut self, bytes: &[u8]) -> io::Result<usize>
        ensures bound { IfOk result (λ n. n ≤ length bytes.now) }
        ensures bytes { Pushes (⟦<Gathered as Sink>⟧.seen self.old).bytes (⟦<Gathered as Sink>⟧.seen self.new).bytes result bytes.now }
        ensures failures { (⟦<Gathered as Sink>⟧.seen self.new).failures ≡ counted (push_fails result bytes.now) (⟦<Gathered as Sink>⟧.seen self.old).failures }
        ensures breaks { (⟦<Gathered as Sink>⟧.seen self.new).breaks ≡ counted (push_breaks result bytes.now) (⟦<Gathered as Sink>⟧.seen self.old).breaks }
        // It takes all or fails.
        ensures whole { IfOk result (λ n. n ≡ length bytes.now) }
        // It fails only if its capacity does not hold them.
        ensures full { OnErr result (vec_capacity self.old.text < vec_len self.old.text + length bytes.now) }
    {
        match self.text.extend_from_slice(bytes) {
            Ok(()) => Ok(bytes.len()),
            Err(_) => {
                self.refusals = self.refusals.saturating_add(1);
                Err(Error::from(ErrorKind::OutOfMemory))
            }
        }
    }
}
