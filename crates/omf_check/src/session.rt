//! The incremental checker.

ghost use Rattle.std.specs.Prelude.{◌≡◌, None, IfOk, IfErr};
ghost use Rattle.omf_check.specs.Session.{at_start, want_of, want_with, IsOpen, Takes, FailsAs, Finishes};
ghost use Rattle.omf_check.specs.Inner.Passing.{IsPassing, here, framing_fault};

use crate::checked::Checked;
use crate::fault::CheckFault;
use crate::profile::Profile;
use crate::table::Tables;
use crate::taking::step;
use omf_frame::{Fed, FrameFault, Framer};
use std::alloc::Global;
use std::marker::Model;

/// Checks a module that arrives in pieces of any size, record by record, and keeps its bytes.
#[derive(Drop)]
pub struct Session {
    profile: Profile,
    framer: Framer,
    /// All bytes taken.
    bytes: Vec<u8>,
    tables: Tables,
    fault: Option<CheckFault>,
}

impl Model for Session {
    ghost use Rattle.std.specs.Prelude.{is_some, [], false, ◌&&◌, not, if◌then◌else◌};
    ghost use Rattle.omf_check.specs.Session.{Seen};
    ghost use Rattle.omf_check.specs.Inner.Passing.{IsState};

    ghost Value = { Seen };

    ghost view = { λ s. record { profile = s.profile; taken = s.bytes.items; at_hand = (if is_some s.fault then [] else s.framer.held.bytes); ended = s.framer.held.ended; fault = s.fault } };

    ghost invariant = { λ s. IsState s.profile s.framer.held s.bytes.items s.tables s.fault };
}

/// Converts a framing fault.
pub(crate) fn framing_fault(fault: FrameFault) -> CheckFault
    ensures { result ≡ framing_fault fault }
{
    match fault {
        FrameFault::Memory => CheckFault::Memory,
        FrameFault::Refused(reason, place) => CheckFault::Refused { reason, place },
    }
}

/// The module whose bytes were taken, if its MODEND has been checked; else the refusal of an input that ends here.
pub(crate) fn finished(
    profile: Profile,
    framer: &Framer,
    bytes: Vec<u8>,
    tables: Tables,
) -> Result<Checked, CheckFault>
    requires { IsPassing profile framer.now.held bytes.items tables }
    ensures { Finishes (here profile framer.now.held bytes.items) result }
{
    if let Err(fault) = framer.stop() {
        return Err(framing_fault(fault));
    }
    let count = framer.number();
    Ok(Checked::new(profile, bytes, tables, count))
}

impl Session {
    /// An empty session.
    pub fn new(alloc: Global, profile: Profile) -> Session
        ensures start { result ≡ at_start profile }
        ensures is_open { IsOpen result }
    {
        Session {
            profile,
            framer: Framer::new(alloc),
            bytes: Vec::new(alloc),
            tables: Tables::new(alloc),
            fault: None,
        }
    }

    /// The number of bytes it can take before its next decision: 1 before a type byte, then the missing length bytes, then the rest of
    /// the record. 0 after the end or after a fault.
    pub fn want(&self) -> usize
        ensures same { result ≡ want_of self.now }
        ensures is_open { self.now.fault ≡ None → IsOpen self.now }
    {
        if self.fault.is_some() {
            return 0;
        }
        self.framer.want()
    }

    /// Like `want`, if `ahead` are the next bytes: after the first record, from a type byte without fault on, the length of the whole
    /// record, which is checked with its last byte.
    pub fn want_with(&self, ahead: &[u8]) -> usize
        ensures same { result ≡ want_with self.now ahead.now }
        ensures is_open { self.now.fault ≡ None → IsOpen self.now }
    {
        if self.fault.is_some() {
            return 0;
        }
        if self.bytes.is_empty() {
            return self.framer.want();
        }
        self.framer.want_with(ahead)
    }

    /// Whether the module is complete: its MODEND has been checked.
    pub fn ended(&self) -> bool
        ensures same { result ≡ self.now.ended }
        ensures is_open { self.now.fault ≡ None → IsOpen self.now }
    {
        self.framer.ended()
    }

    /// Takes bytes up to the end of the current record; none after the end of the module. `whole` is set if the record is now complete
    /// and was accepted.
    ///
    /// # Errors
    ///
    /// `Refused` with reason and place if the current record is at fault; no bytes that follow change this. `Memory` if out of memory,
    /// where the bytes checked so far have no fault: the record up to its end, or all of the piece, or the very first type byte. Never
    /// `Read`. A fault takes no bytes, is kept, and is returned by every later call. No later record of the piece is checked.
    pub fn feed(&mut self, piece: &[u8]) -> Result<Fed, CheckFault>
        ensures ok { IfOk result (λ fed. Takes self.old piece.now fed.taken fed.whole self.new) }
        ensures err { IfErr result (λ fault. FailsAs self.old piece.now fault self.new) }
    {
        if let Some(fault) = self.fault {
            return Err(fault);
        }
        match step(
            &mut self.framer,
            &mut self.tables,
            &mut self.bytes,
            self.profile,
            piece,
        ) {
            Ok(fed) => Ok(fed),
            Err(fault) => {
                self.fault = Some(fault);
                Err(fault)
            }
        }
    }

    /// Ends the input, and returns the module if its MODEND has been checked. Takes no memory.
    ///
    /// # Errors
    ///
    /// The kept fault, if any; otherwise, before a MODEND, `Refused`: Cut within a record, NoEnd between records. Never `Read`.
    pub fn finish(self) -> Result<Checked, CheckFault>
        ensures { Finishes self result }
    {
        if let Some(fault) = self.fault {
            return Err(fault);
        }
        let Session {
            profile,
            framer,
            bytes,
            tables,
            ..
        } = self;
        finished(profile, &framer, bytes, tables)
    }
}
