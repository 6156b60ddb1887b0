//! A source and a sink for tests: they work in pieces of a chosen size, are interrupted, and fail at a chosen point, once or for good.

ghost use Rattle.std.specs.Prelude.{◌≡◌, ◌<◌, ◌≤◌, ◌-◌, ◌^◌, [], length, take, min, replicate, Some, None, IfOk, is_err};
ghost use Rattle.omf_frame.specs.Device.{Device, Pulls, Pushes, pull_breaks, push_fails, push_breaks, counted};

use crate::device::{Sink, Source, Tally};
use std::alloc::{AllocError, Global};
use std::io;
use std::io::ErrorKind;
use std::marker::Model;

/// What a script does after its bytes.
#[derive(Clone, Copy)]
pub enum Then {
    /// The input ends.
    Ends,
    /// Each pull fails with `Other`.
    Fails,
    /// This byte repeats forever.
    Repeats(u8),
}

/// What a taker does when it is full.
#[derive(Clone, Copy)]
pub enum Full {
    /// Each push fails with `Other`.
    Fails,
    /// Each push takes 0 bytes.
    TakesNone,
}

/// A source of chosen bytes.
#[derive(Drop)]
pub struct Script<'a> {
    bytes: &'a [u8],
    then: Then,
    piece: usize,
    interruptions: u64,
    due: u64,
    fails_in: Option<u64>,
    tally: Tally,
}

impl<'a> Model for Script<'a> {
    ghost use Rattle.std.specs.Prelude.{◌<◌};
    ghost use Rattle.omf_frame.specs.Inner.Faulty.{Scripted};

    ghost Value = { Scripted };

    ghost view = { λ s. record { bytes = s.bytes.now; after = s.then; piece = s.piece; interruptions = s.interruptions; due = s.due; fails_in = s.fails_in; failures = s.tally.failures; breaks = s.tally.breaks } };

    ghost invariant = { λ s. 0 < s.piece };
}

impl<'a> Script<'a> {
    ghost use Rattle.omf_frame.specs.Inner.Faulty.{Scripted, told};

    /// Gives the bytes, as many as each pull asks for, and then does `then`. No pull is interrupted.
    pub fn new(bytes: &'a [u8], then: Then) -> Self
        ensures script { result ≡ record { bytes = bytes.now; after = then; piece = 2 ^ 64 - 1; interruptions = 0; due = 0; fails_in = None; failures = 0; breaks = 0 } }
        ensures seen { ⟦<Script<'a> as Source>⟧.seen result ≡ record { bytes = told then bytes.now; failures = 0; breaks = 0 } }
    {
        Script {
            bytes,
            then,
            piece: usize::MAX,
            interruptions: 0,
            due: 0,
            fails_in: None,
            tally: Tally::new(),
        }
    }

    /// The same, with at most `piece` bytes per call.
    pub fn in_pieces(self, piece: usize) -> Self
        requires { 0 < piece }
        ensures { result ≡ record self.entry { piece = piece } }
    {
        Script { piece, ..self }
    }

    /// The same, with this many interruptions before each other answer.
    pub fn interrupted(self, times: u64) -> Self
        ensures { result ≡ record self.entry { interruptions = times; due = times } }
    {
        Script {
            interruptions: times,
            due: times,
            ..self
        }
    }

    /// The same, but one pull fails with `Other`, after this many answers other than interruptions. Later pulls work again.
    pub fn failing_once(self, after: u64) -> Self
        ensures { result ≡ record self.entry { fails_in = Some after } }
    {
        Script {
            fails_in: Some(after),
            ..self
        }
    }
}

ghost use Rattle.omf_frame.specs.Inner.Faulty.{kind_due, next_due, next_failing};

/// The failure due at this call, if any: an interruption, or the one failure.
fn failure_due(interruptions: u64, due: &mut u64, fails_in: &mut Option<u64>) -> Option<ErrorKind>
    ensures answer { result ≡ kind_due due.old fails_in.old }
    ensures due { due.new ≡ next_due due.old interruptions }
    ensures failing { fails_in.new ≡ next_failing due.old fails_in.old }
{
    if *due > 0 {
        *due -= 1;
        return Some(ErrorKind::Interrupted);
    }
    *due = interruptions;
    match *fails_in {
        None => None,
        Some(0) => {
            *fails_in = None;
            Some(ErrorKind::Other)
        }
        Some(answers) => {
            *fails_in = Some(answers - 1);
            None
        }
    }
}

/// Copies at most `most` bytes to the front of a buffer. Returns their number.
fn copy_front(bytes: &[u8], buf: &mut [u8], most: usize) -> usize
    requires { most ≤ length buf.old }
    ensures count { result ≡ min most (length bytes.now) }
    ensures copied { take result buf.new ≡ take most bytes.now }
    ensures len { length buf.new ≡ length buf.old }
{
    let count = most.min(bytes.len());
    buf.split_at_mut(count)
        .0
        .copy_from_slice(bytes.split_at(count).0);
    count
}

/// Fills the first `most` bytes of a buffer.
fn fill_front(byte: u8, buf: &mut [u8], most: usize)
    requires { most ≤ length buf.old }
    ensures filled { take most buf.new ≡ replicate most byte }
    ensures len { length buf.new ≡ length buf.old }
{
    buf.split_at_mut(most).0.fill(byte);
}

impl<'a> Source for Script<'a> {
    ghost use Rattle.omf_frame.specs.Inner.Faulty.{told, pulled, after_pull, script_seen, IsPulled};

    ghost seen = { script_seen };

    fn pull(&mut self, buf: &mut [u8]) -> io::Result<usize>
        requires { 0 < length buf.old }
        ensures bound { IfOk result (λ n. n ≤ length buf.new) }
        ensures bytes { Pulls (told self.old.after self.old.bytes) (told self.new.after self.new.bytes) result buf.new }
        ensures failures { self.new.failures ≡ counted (is_err result) self.old.failures }
        ensures breaks { self.new.breaks ≡ counted (pull_breaks result) self.old.breaks }
        ensures answer { IsPulled (pulled self.old (length buf.old)) result buf.new }
        ensures after { self.new ≡ after_pull self.old (length buf.old) }
    {
        if let Some(kind) = failure_due(self.interruptions, &mut self.due, &mut self.fails_in) {
            return Err(self.tally.fails(kind));
        }
        let most = self.piece.min(buf.len());
        if !self.bytes.is_empty() {
            let count = copy_front(self.bytes, buf, most);
            self.bytes = self.bytes.split_at(count).1;
            return Ok(count);
        }
        match self.then {
            Then::Ends => Ok(0),
            Then::Fails => Err(self.tally.fails(ErrorKind::Other)),
            Then::Repeats(byte) => {
                fill_front(byte, buf, most);
                Ok(most)
            }
        }
    }

    fn ahead(&self) -> &[u8] {
        &[]
    }

    fn consume(&mut self, count: usize) {}
}

/// A sink that keeps its bytes, with room for a chosen number.
#[derive(Drop)]
pub struct Taker {
    held: Vec<u8>,
    room: usize,
    full: Full,
    piece: usize,
    interruptions: u64,
    due: u64,
    fails_in: Option<u64>,
    tally: Tally,
}

impl Model for Taker {
    ghost use Rattle.std.specs.Prelude.{◌<◌, ◌≤◌, ◌+◌, vec_len, vec_capacity};
    ghost use Rattle.omf_frame.specs.Inner.Faulty.{Taking};

    ghost Value = { Taking };

    ghost view = { λ t. record { held = t.held.items; room = t.room; full = t.full; piece = t.piece; interruptions = t.interruptions; due = t.due; fails_in = t.fails_in; failures = t.tally.failures; breaks = t.tally.breaks } };

    ghost invariant = { λ t. (0 < t.piece) × (vec_len t.held + t.room ≤ vec_capacity t.held) };
}

impl Taker {
    ghost use Rattle.omf_frame.specs.Inner.Faulty.{Taking};

    /// Takes `room` bytes, as many as each push offers, and then does `full`. No push is interrupted. The room is allocated here, so
    /// no push runs out of memory.
    pub fn new(alloc: Global, room: usize, full: Full) -> Result<Self, AllocError>
        ensures taker { IfOk result (λ t. t ≡ record { held = []; room = room; full = full; piece = 2 ^ 64 - 1; interruptions = 0; due = 0; fails_in = None; failures = 0; breaks = 0 }) }
        ensures seen { IfOk result (λ t. ⟦<Taker as Sink>⟧.seen t ≡ record { bytes = Some []; failures = 0; breaks = 0 }) }
    {
        Ok(Taker {
            held: Vec::with_capacity(alloc, room)?,
            room,
            full,
            piece: usize::MAX,
            interruptions: 0,
            due: 0,
            fails_in: None,
            tally: Tally::new(),
        })
    }

    /// The same, with at most `piece` bytes per call.
    pub fn in_pieces(self, piece: usize) -> Self
        requires { 0 < piece }
        ensures { result ≡ record self { piece = piece } }
    {
        Taker { piece, ..self }
    }

    /// The same, with this many interruptions before each other answer.
    pub fn interrupted(self, times: u64) -> Self
        ensures { result ≡ record self { interruptions = times; due = times } }
    {
        Taker {
            interruptions: times,
            due: times,
            ..self
        }
    }

    /// The same, but one push fails with `Other`, after this many answers other than interruptions. Later pushes work again.
    pub fn failing_once(self, after: u64) -> Self
        ensures { result ≡ record self { fails_in = Some after } }
    {
        Taker {
            fails_in: Some(after),
            ..self
        }
    }

    /// The bytes taken so far.
    pub fn bytes(&self) -> &[u8]
        ensures { result.now ≡ self.now.held }
    {
        &self.held
    }
}

impl Sink for Taker {
    ghost use Rattle.omf_frame.specs.Inner.Faulty.{pushed, after_push, taker_seen, IsPushed};

    ghost seen = { taker_seen };

    fn push(&mut self, bytes: &[u8]) -> io::Result<usize>
        ensures bound { IfOk result (λ n. n ≤ length bytes.now) }
        ensures bytes { Pushes (Some self.old.held) (Some self.new.held) result bytes.now }
        ensures failures { self.new.failures ≡ counted (push_fails result bytes.now) self.old.failures }
        ensures breaks { self.new.breaks ≡ counted (push_breaks result bytes.now) self.old.breaks }
        ensures answer { IsPushed (pushed self.old bytes.now) result }
        ensures after { self.new ≡ after_push self.old bytes.now }
    {
        if let Some(kind) = failure_due(self.interruptions, &mut self.due, &mut self.fails_in) {
            return Err(self.tally.fails(kind));
        }
        if bytes.is_empty() {
            return Ok(0);
        }
        if self.room == 0 {
            let error = self.tally.fails(ErrorKind::Other);
            return match self.full {
                Full::Fails => Err(error),
                Full::TakesNone => Ok(0),
            };
        }
        let count = self.piece.min(self.room).min(bytes.len());
        self.room -= count;
        self.held.extend_from_slice(bytes.split_at(count).0)?;
        Ok(count)
    }
}
