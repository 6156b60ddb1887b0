//! Writing fields in their shortest encodings.
ghost use Rattle.std.specs.Prelude.{◌≡◌, ◌++◌, ◌∷◌, [], OnOk, OnErr, Option};
ghost use Rattle.byteorder.specs.Endian.{little_bytes};
ghost use Rattle.omf_records.specs.Inner.Begins.{Grows, Lacks};
ghost use Rattle.omf_records.specs.Shortest.{datum_bytes, option_bytes};
ghost use Rattle.omf_records.specs.Values.{width};

use crate::at::At;
use omf_frame::{Field, Index, Le16, Le32};
use std::alloc::AllocError;

/// Appends a field.
#[tactic(auto, using(crate::specs::Inner::Begins::begins_itself, crate::specs::Inner::Begins::begins_more))]
pub(crate) fn put_field<'a, F: Field<'a>>(out: &mut Vec<u8>, field: &F) -> Result<(), AllocError>
    ensures put { OnOk result (out.new.items ≡ out.old.items ++ F.shortest field.now) }
    ensures grows { Grows out.old out.new }
    ensures full { OnErr result (Lacks out.old (F.shortest field.now)) }
{
    field.put(out)
}

#[tactic(auto, using(crate::specs::Inner::Begins::begins_itself, crate::specs::Inner::Begins::begins_more))]
pub(crate) fn put_bytes(out: &mut Vec<u8>, bytes: &[u8]) -> Result<(), AllocError>
    ensures put { OnOk result (out.new.items ≡ out.old.items ++ bytes.now) }
    ensures grows { Grows out.old out.new }
    ensures full { OnErr result (Lacks out.old bytes.now) }
{
    out.extend_from_slice(bytes)
}

pub(crate) fn put_byte(out: &mut Vec<u8>, byte: u8) -> Result<(), AllocError>
    ensures put { OnOk result (out.new.items ≡ out.old.items ++ byte ∷ []) }
    ensures grows { Grows out.old out.new }
    ensures full { OnErr result (Lacks out.old (byte ∷ [])) }
{
    put_bytes(out, &[byte])
}

/// Appends a number: 32 bits in a record of odd type, the low 16 in one of even type.
pub(crate) fn put_number(out: &mut Vec<u8>, kind: u8, value: u32) -> Result<(), AllocError>
    ensures put { OnOk result (out.new.items ≡ out.old.items ++ little_bytes (width kind) value) }
    ensures grows { Grows out.old out.new }
    ensures full { OnErr result (Lacks out.old (little_bytes (width kind) value)) }
{
    if kind % 2 == 1 {
        return put_field(out, &Le32(value));
    }
    put_field(out, &Le16((value % 0x1_0000) as u16))
}

/// Appends an index.
pub(crate) fn put_datum(out: &mut Vec<u8>, datum: &At<Index>) -> Result<(), AllocError>
    ensures put { OnOk result (out.new.items ≡ out.old.items ++ datum_bytes datum.now) }
    ensures grows { Grows out.old out.new }
    ensures full { OnErr result (Lacks out.old (datum_bytes datum.now)) }
{
    put_field(out, &datum.item)
}

/// Appends an index, if there is one.
#[tactic(auto, using(crate::specs::Inner::Begins::begins_itself))]
pub(crate) fn put_datum_if(out: &mut Vec<u8>, datum: &Option<At<Index>>) -> Result<(), AllocError>
    ensures put { OnOk result (out.new.items ≡ out.old.items ++ option_bytes datum_bytes datum.now) }
    ensures grows { Grows out.old out.new }
    ensures full { OnErr result (Lacks out.old (option_bytes datum_bytes datum.now)) }
{
    match datum {
        Some(datum) => put_datum(out, datum),
        None => Ok(()),
    }
}
