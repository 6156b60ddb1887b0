//! Places in a record, and layout faults.

use omf_frame::Reason;
use std::marker::Model;

/// A fault of a record's contents: one of the reasons 8 to 20, and the offset in the record of the field at fault (0 is the
/// type byte).
#[derive(Clone, Debug, Drop, PartialEq, Eq)]
pub struct LayoutFault {
    pub reason: Reason,
    pub within: u32,
}

impl Model for LayoutFault {
    ghost use Rattle.omf_frame.specs.Fault.{Fault};

    ghost Value = { Fault };

    ghost view = { λ f. record { within = f.within; reason = f.reason } };

    ghost inverse = { λ v. record { reason = v.reason; within = v.within } };
}

/// An item, and the offset in the record of its first byte (0 is the type byte).
#[derive(Clone, Copy, Debug, Drop)]
pub struct At<T> {
    pub within: u32,
    pub item: T,
}

impl<T> Model for At<T> {
    ghost use Rattle.omf_records.specs.Values.{At as AtModel};

    ghost Value = { AtModel T };

    ghost view = { λ a. record { within = a.within; item = a.item } };

    ghost inverse = { λ v. record { within = v.within; item = v.item } };
}
