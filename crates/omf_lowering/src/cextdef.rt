//! A CEXTDEF as EXTDEFs and LEXTDEFs (TIS OMF 1.1, "CEXTDEF", "EXTDEF" and "LEXTDEF").

ghost use Rattle.std.specs.Prelude.{◌≡◌, ◌+◌, ◌<◌, ◌≤◌, ◌++◌, ◌∷◌, [], length, map, IfOk, IfErr, OnOk, None};
ghost use Rattle.omf_records.specs.Inner.Reads.{or_none};
ghost use Rattle.omf_lowering.specs.Externals.{OwnExternal, all_of, external_record, externals_by, named};
ghost use Rattle.omf_lowering.specs.Inner.State.{IsStop};
ghost use Rattle.omf_lowering.specs.Lowering.{fault_of};

use crate::entries::{Entry, entries};
use crate::fault::Stop;
use crate::fields::{index_at, placed_index_at};
use crate::record::Record;
use crate::tables::{Tables, is_local_name};
use crate::values::NamedExternal;
use omf_frame::{Field, Index, Name, Reason};
use omf_records::{At, LayoutFault};
use std::alloc::{AllocError, Global};

impl Entry for NamedExternal {
    ghost use Rattle.omf_lowering.specs.Inner.Readers.{external_reader, external_shrinks};

    ghost reading = { λ wide. external_reader.read };

    ghost shrinks = { λ wide. external_shrinks };

    fn read_at(
        body: &[u8],
        _wide: bool,
        pos: usize,
    ) -> Result<(NamedExternal, usize), LayoutFault> {
        let (name, pos) = placed_index_at(body, pos)?;
        let (type_index, pos) = index_at(body, pos)?;
        Ok((NamedExternal { name, type_index }, pos))
    }
}

/// The EXTDEF with one external, or the LEXTDEF with a local one.
fn external_record(
    alloc: Global,
    is_local: bool,
    name: &Name<'_>,
    type_index: Index,
) -> Result<Record, AllocError>
    ensures { IfOk result (λ r. r ≡ external_record (record { is_local = is_local; item = record { name = name.now; type_index = type_index } })) }
{
    let mut body = Vec::new(alloc);
    name.put(&mut body)?;
    type_index.put(&mut body)?;
    let kind = if is_local { 0xB4 } else { 0x8C };
    Ok(Record::made(kind, body))
}

/// Appends the record of an external, by the table of names.
fn push_external(
    alloc: Global,
    records: &mut Vec<Record>,
    tables: &Tables<'_>,
    external: &At<NamedExternal>,
) -> Result<(), Stop>
    ensures ok { OnOk result ((e : OwnExternal) × (named tables.now external.now ≡ Ok e) × (records.new.items ≡ records.old.items ++ external_record e ∷ [])) }
    ensures err { IfErr result (λ stop. IsStop stop (fault_of (named tables.now external.now))) }
{
    let name = &external.item.name;
    let Some(text) = tables.names.get(name.item) else {
        return Err(Stop::At(LayoutFault {
            reason: Reason::UndefinedName,
            within: name.within,
        }));
    };
    let is_local = is_local_name(&tables.locals, name.item);
    let record = external_record(alloc, is_local, &text, external.item.type_index)?;
    Ok(records.push(record)?)
}

/// Appends the records of externals, by the table of names.
fn push_externals(
    alloc: Global,
    records: &mut Vec<Record>,
    tables: &Tables<'_>,
    externals: &[At<NamedExternal>],
) -> Result<(), Stop>
    ensures ok { OnOk result (records.new.items ≡ records.old.items ++ map external_record (or_none (all_of (named tables.now) externals.now))) }
    ensures sound { OnOk result (fault_of (all_of (named tables.now) externals.now) ≡ None) }
    ensures err { IfErr result (λ stop. IsStop stop (fault_of (all_of (named tables.now) externals.now))) }
{
    for external in externals {
        push_external(alloc, records, tables, external)?;
    }
    Ok(())
}

/// Appends the EXTDEFs and LEXTDEFs of a CEXTDEF with these contents, by the table of names.
pub(crate) fn lower_externals(
    alloc: Global,
    records: &mut Vec<Record>,
    tables: &Tables<'_>,
    body: &[u8],
) -> Result<(), Stop>
    requires { length body.now ≤ 65534 }
    ensures ok { OnOk result (records.new.items ≡ records.old.items ++ map external_record (or_none (externals_by tables.now body.now))) }
    ensures sound { OnOk result (fault_of (externals_by tables.now body.now) ≡ None) }
    ensures err { IfErr result (λ stop. IsStop stop (fault_of (externals_by tables.now body.now))) }
{
    let externals = entries::<NamedExternal>(alloc, body, false, 0)?;
    push_externals(alloc, records, tables, &externals)
}
