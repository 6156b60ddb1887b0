//! The modules of a program.

use crate::exe::movers::Movers;
use omf_check::Checked;
use omf_placement::Placement;
use std::marker::Model;

/// A module of a program: its placement, of a program that begins at paragraph 0, and what moves of it.
#[derive(Drop)]
pub struct Member<'a> {
    /// The number by which faults name it.
    pub number: u32,
    /// The module.
    pub module: &'a Checked,
    /// The places of its segments and externals, and the frames of its groups.
    pub placement: &'a Placement,
    /// Which of these move when DOS loads the program at another paragraph.
    pub movers: &'a Movers,
}

impl<'a> Model for Member<'a> {
    ghost use Rattle.omf_output.specs.Exe.Members.{Member as Linked};

    ghost Value = { Linked };

    ghost view = { λ m. record { number = m.number; bytes = m.«module».now.bytes; places = m.placement.now; movers = m.movers.now } };
}
