//! The segments of a program.

use std::marker::Model;

/// A segment of a program.
#[derive(Clone, Copy)]
pub(crate) struct ProgramSegment {
    /// The number of its module, from 0.
    pub module: usize,
    /// Its index in the module, from 1; 0 for the module's start.
    pub segment: u16,
}

impl Model for ProgramSegment {
    ghost use Rattle.omf_trimming.specs.Reaching.{Node};

    ghost Value = { Node };

    ghost view = { λ s. (s.«module», s.segment) };

    ghost inverse = { λ n. record { «module» = n.0; segment = n.1 } };
}
