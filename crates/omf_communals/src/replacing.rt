//! The records of a module with its communals.

ghost use Rattle.std.specs.Prelude.{◌≡◌, ◌≤◌, ◌++◌, length, OnOk, IsTrue, is_ok, true};
ghost use Rattle.std.specs.List.{list_any};
ghost use Rattle.omf_frame.specs.Framing.{is_taken, raw_bytes, raw_of};
ghost use Rattle.omf_records.specs.Inner.Reading.{read_body};
ghost use Rattle.omf_records.specs.Inner.Seen.{contents_seen};
ghost use Rattle.omf_communals.specs.Communals.{communal_kind, is_communal, is_extern, record_of};
ghost use Rattle.omf_communals.specs.Inner.Writing.{bytes_by, bytes_of_each};

use crate::typdef::variable_of;
use crate::variable::{Variable, size_of};
use omf_check::put_record;
use omf_frame::RawRecord;
use omf_records::{Communal, Extern, Item, Items, Rec, view_known};
use std::alloc::{AllocError, Global};
use std::marker::Model;

/// The most bytes of contents that a record has.
const MOST: usize = 65_534;

/// The type of a TYPDEF.
const TYPDEF: u8 = 0x8E;

/// Appends the record with these contents. They have one name at most, so that no error but `AllocError` is met.
fn put_short(out: &mut Vec<u8>, kind: u8, body: &[u8]) -> Result<(), AllocError>
    ensures { OnOk result (out.new.items ≡ out.old.items ++ raw_bytes (raw_of kind body.now)) }
{
    if body.len() > MOST {
        return Err(AllocError);
    }
    put_record(out, kind, body)
}

/// Whether a record of this type defines external names without sizes.
fn is_extern(kind: u8) -> bool
    ensures { result ≡ is_extern kind }
{
    kind == 0x8C || kind == 0xB4 || kind == 0xB5
}

/// The type of the record with the communals of a record of this type.
fn communal_kind(kind: u8) -> u8
    ensures { result ≡ communal_kind kind }
{
    if kind == 0x8C { 0xB0 } else { 0xB8 }
}

/// Appends the record that defines one external of a record of this type.
fn put_one(
    alloc: Global,
    out: &mut Vec<u8>,
    variables: &[Variable],
    kind: u8,
    external: Extern<'_>,
) -> Result<(), AllocError>
    ensures { OnOk result (out.new.items ≡ out.old.items ++ raw_bytes (record_of variables.now kind (record { within = 0; item = external.entry }))) }
{
    let mut body = Vec::new(alloc);
    match size_of(variables, external.type_index) {
        Some(size) => {
            let Extern { name, type_index } = external;
            let communal = Communal {
                name,
                type_index,
                size,
            };
            communal.put(communal_kind(kind), &mut body)?;
            put_short(out, communal_kind(kind), &body)
        }
        None => {
            external.put(kind, &mut body)?;
            put_short(out, kind, &body)
        }
    }
}

/// Appends the records that define each of these externals of a record of this type.
fn put_each(
    alloc: Global,
    out: &mut Vec<u8>,
    variables: &[Variable],
    kind: u8,
    externals: Items<Extern<'_>>,
) -> Result<(), AllocError>
    ensures { OnOk result (out.new.items ≡ out.old.items ++ bytes_of_each variables.now kind externals.entry) }
{
    for external in externals {
        put_one(alloc, out, variables, kind, external.item)?;
    }
    Ok(())
}

/// Whether one of these externals is a communal.
fn has_communal(variables: &[Variable], externals: Items<Extern<'_>>) -> bool
    ensures { result ≡ list_any (is_communal variables.now) externals.entry }
{
    for external in externals {
        if size_of(variables, external.item.type_index).is_some() {
            return true;
        }
    }
    false
}

/// The records so far: the variables of their TYPDEFs, and the bytes of the records in their place.
#[derive(Drop)]
pub(crate) struct Replacing {
    variables: Vec<Variable>,
    pub out: Vec<u8>,
}

impl Model for Replacing {
    ghost use Rattle.omf_communals.specs.Inner.Writing.{SoFar};

    ghost Value = { SoFar };

    ghost view = { λ r. record { variables = r.variables.items; bytes = r.out.items } };
}

impl Replacing {
    ghost use Rattle.std.specs.Prelude.{◌≡◌, [], ◌++◌, OnOk, if◌then◌else◌};
    ghost use Rattle.omf_communals.specs.Inner.Writing.{so_far_after, with_bytes};

    /// No records.
    pub(crate) fn new(alloc: Global) -> Replacing
        ensures { result ≡ record { variables = []; bytes = [] } }
    {
        Replacing {
            variables: Vec::new(alloc),
            out: Vec::new(alloc),
        }
    }

    /// Appends the records in place of one with these externals and these bytes.
    fn put_externals(
        &mut self,
        alloc: Global,
        kind: u8,
        externals: &Items<Extern<'_>>,
        bytes: &[u8],
    ) -> Result<(), AllocError>
        ensures { OnOk result (self.new ≡ with_bytes self.old (if list_any (is_communal self.old.variables) externals.now then bytes_of_each self.old.variables kind externals.now else bytes.now)) }
    {
        if has_communal(&self.variables, externals.iter()) {
            put_each(
                alloc,
                &mut self.out,
                &self.variables,
                kind,
                externals.iter(),
            )
        } else {
            self.out.extend_from_slice(bytes)
        }
    }

    /// Appends the records in place of an EXTDEF or LEXTDEF with these bytes.
    fn put_decoded(
        &mut self,
        alloc: Global,
        kind: u8,
        rec: &Rec<'_>,
        bytes: &[u8],
    ) -> Result<(), AllocError>
        ensures { OnOk result (self.new ≡ with_bytes self.old (bytes_by self.old.variables kind bytes.now (contents_seen rec.now))) }
    {
        match rec {
            Rec::Externs(externs) | Rec::LocalExterns { externs, .. } => {
                self.put_externals(alloc, kind, externs, bytes)
            }
            Rec::Header { .. }
            | Rec::Comment { .. }
            | Rec::Names(_)
            | Rec::Segment { .. }
            | Rec::Group { .. }
            | Rec::Publics { .. }
            | Rec::Communals(_)
            | Rec::Plain { .. }
            | Rec::Iterated { .. }
            | Rec::Fixups { .. }
            | Rec::ModEnd { .. }
            | Rec::LocalNames(_)
            | Rec::LocalPublics { .. }
            | Rec::LocalCommunals(_)
            | Rec::Carried { .. } => self.out.extend_from_slice(bytes),
        }
    }

    /// Appends the records in place of one with these bytes.
    pub(crate) fn put(
        &mut self,
        alloc: Global,
        raw: RawRecord<'_>,
        bytes: &[u8],
    ) -> Result<(), AllocError>
        requires taken { IsTrue (is_taken raw.kind) }
        requires short { length raw.body.now ≤ 65534 }
        requires spelled { is_ok (read_body raw.kind raw.body.now) ≡ true }
        ensures { OnOk result (self.new ≡ so_far_after self.old raw.entry.kind raw.entry.body.now bytes.now) }
    {
        let kind = raw.kind;
        if kind == TYPDEF {
            self.variables.push(variable_of(raw.body))?;
        }
        if is_extern(kind) {
            self.put_decoded(alloc, kind, &view_known(raw), bytes)
        } else {
            self.out.extend_from_slice(bytes)
        }
    }
}
