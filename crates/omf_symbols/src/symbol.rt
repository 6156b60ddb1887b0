//! A symbol.

use std::marker::Model;

/// A name at an address of a program.
#[derive(Drop)]
pub struct Symbol<'a> {
    /// Whether it is in code. If not, it is data.
    pub is_code: bool,
    /// Its address where a tool has the program.
    pub address: u64,
    pub name: &'a [u8],
}

impl<'a> Model for Symbol<'a> {
    ghost use Rattle.omf_symbols.specs.Symbol.{Symbol as Seen};

    ghost Value = { Seen };

    ghost view = { λ s. record { is_code = s.is_code; address = s.address; name = s.name.now } };
}
