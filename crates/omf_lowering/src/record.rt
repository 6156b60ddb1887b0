//! Records of the input, and of the lowered module.

ghost use Rattle.std.specs.Prelude.{◌≡◌, ◌≤◌, ◌++◌, length, IfOk, IfErr, OnOk, Some, None};
ghost use Rattle.omf_frame.specs.Framing.{Raw, raw_bytes, raw_of, front_record, after_front};
ghost use Rattle.omf_lowering.specs.Inner.State.{seen};
ghost use Rattle.omf_lowering.specs.Patches.{with_value};
ghost use Rattle.omf_lowering.specs.Wide.{framing_fault, is_known, is_right, length_fault};

use crate::values::Patch;
use omf_frame::{Reason, RecordType, checksum};
use omf_image::{Part, add_part};
use omf_records::LayoutFault;
use std::alloc::{AllocError, Global};
use std::marker::Model;

/// The record at the front of some bytes, and the bytes after it.
#[derive(Drop)]
pub(crate) struct Front<'a> {
    pub kind: u8,
    pub body: &'a [u8],
    pub checksum: u8,
    pub rest: &'a [u8],
}

/// A record: its type byte, its contents and its checksum byte.
#[derive(Drop)]
pub struct Record {
    pub kind: u8,
    pub body: Vec<u8>,
    checksum: u8,
}

impl Model for Record {
    ghost use Rattle.std.specs.Prelude.{◌≤◌, length};
    ghost use Rattle.omf_frame.specs.Framing.{Raw};

    ghost Value = { Raw };

    ghost view = { λ r. record { kind = r.kind; body = r.body.items; checksum = r.checksum } };

    ghost invariant = { λ r. length r.body.items ≤ 65534 };
}

/// Whether the type is one of the standard.
fn is_known(kind: u8) -> bool
    ensures { result ≡ is_known kind }
{
    RecordType::of(kind).is_some()
}

/// Whether the checksum byte is 0 or makes the sum of the bytes 0 modulo 256.
#[tactic(auto, using(crate::proofs::SumLaws::right_test))]
fn is_right(kind: u8, body: &[u8], sum: u8) -> bool
    requires { length body.now ≤ 65534 }
    ensures { result ≡ is_right (record { kind = kind; body = body.now; checksum = sum }) }
{
    sum == 0 || sum == checksum(kind, body)
}

/// A fault at an offset in a record.
fn fault(within: usize, reason: Reason) -> LayoutFault
    requires { within ≤ 65538 }
    ensures { result ≡ record { within = within; reason = reason } }
{
    LayoutFault {
        reason,
        within: within as u32,
    }
}

/// The record of a known type at the front of the bytes.
fn whole_front<'a>(bytes: &'a [u8]) -> Result<Front<'a>, LayoutFault>
    ensures sound { IfOk result (λ r. length_fault bytes.entry.now ≡ None) }
    ensures kind { IfOk result (λ r. r.kind ≡ (front_record bytes.entry.now).kind) }
    ensures body { IfOk result (λ r. r.body.now ≡ (front_record bytes.entry.now).body) }
    ensures sum { IfOk result (λ r. r.checksum ≡ (front_record bytes.entry.now).checksum) }
    ensures rest { IfOk result (λ r. r.rest.now ≡ after_front bytes.entry.now) }
    ensures short { IfOk result (λ r. length r.body.now ≤ 65534) }
    ensures fault { IfErr result (λ f. length_fault bytes.entry.now ≡ Some f) }
{
    match bytes {
        [kind, low, high, rest @ ..] => {
            let size = usize::from(*low) + 256 * usize::from(*high);
            if rest.len() < size {
                return Err(fault(3 + rest.len(), Reason::Cut));
            }
            if size == 0 {
                return Err(fault(1, Reason::EmptyRecord));
            }
            let (contents, after) = rest.split_at(size);
            let body = &contents[..size - 1];
            let sum = contents[size - 1];
            if !is_right(*kind, body, sum) {
                return Err(fault(2 + size, Reason::Checksum));
            }
            Ok(Front {
                kind: *kind,
                body,
                checksum: sum,
                rest: after,
            })
        }
        _ => Err(fault(bytes.len(), Reason::Cut)),
    }
}

/// The record at the front of the bytes, or its framing fault.
pub(crate) fn front_of<'a>(bytes: &'a [u8]) -> Result<Front<'a>, LayoutFault>
    ensures sound { IfOk result (λ r. framing_fault bytes.entry.now ≡ None) }
    ensures kind { IfOk result (λ r. r.kind ≡ (front_record bytes.entry.now).kind) }
    ensures body { IfOk result (λ r. r.body.now ≡ (front_record bytes.entry.now).body) }
    ensures sum { IfOk result (λ r. r.checksum ≡ (front_record bytes.entry.now).checksum) }
    ensures rest { IfOk result (λ r. r.rest.now ≡ after_front bytes.entry.now) }
    ensures short { IfOk result (λ r. length r.body.now ≤ 65534) }
    ensures fault { IfErr result (λ f. framing_fault bytes.entry.now ≡ Some f) }
{
    match bytes {
        [] => Err(fault(0, Reason::NoEnd)),
        [kind, ..] if is_known(*kind) => whole_front(bytes),
        _ => Err(fault(0, Reason::UnknownType)),
    }
}

impl Record {
    /// A copy of a record.
    pub(crate) fn copied(
        alloc: Global,
        kind: u8,
        body: &[u8],
        sum: u8,
    ) -> Result<Record, AllocError>
        requires { length body.now ≤ 65534 }
        ensures { IfOk result (λ r. r ≡ record { kind = kind; body = body.now; checksum = sum }) }
    {
        let mut copy = Vec::new(alloc);
        copy.extend_from_slice(body)?;
        Ok(Record {
            kind,
            body: copy,
            checksum: sum,
        })
    }

    /// The record with these contents, and the computed checksum byte.
    pub fn made(kind: u8, body: Vec<u8>) -> Record
        requires { length body.items ≤ 65534 }
        ensures { result ≡ raw_of kind body.items }
    {
        let sum = checksum(kind, &body);
        Record {
            kind,
            body,
            checksum: sum,
        }
    }

    /// The record, as one at the front of its own bytes.
    pub(crate) fn as_front(&self) -> Front<'_>
        ensures seen { seen result ≡ self.now }
        ensures short { length result.body.now ≤ 65534 }
    {
        Front {
            kind: self.kind,
            body: &self.body,
            checksum: self.checksum,
            rest: &[],
        }
    }

    /// Adds a value to a location in the contents.
    pub(crate) fn add(&mut self, patch: &Patch)
        ensures { self.new ≡ with_value patch.now self.old }
    {
        let size = match patch.part {
            Part::Byte => 1,
            Part::Word => 2,
            Part::Dword => 4,
        };
        if patch.at.saturating_add(size) <= self.body.len() {
            add_part(&mut self.body, patch.at, patch.part, patch.value);
            self.checksum = checksum(self.kind, &self.body);
        }
    }

    /// Appends the bytes of the record.
    pub fn put(&self, out: &mut Vec<u8>) -> Result<(), AllocError>
        ensures { OnOk result (out.new.items ≡ out.old.items ++ raw_bytes self.now) }
    {
        let [low, high] = ((self.body.len() + 1) as u16).to_le_bytes();
        out.reserve(self.body.len() + 4)?;
        out.push_reserved(self.kind);
        out.push_reserved(low);
        out.push_reserved(high);
        out.extend_from_slice(&self.body)?;
        Ok(out.push(self.checksum)?)
    }
}
