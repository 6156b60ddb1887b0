//! The data of a segment.

ghost use Rattle.std.specs.Prelude.{◌≡◌, ◌++◌, IfOk, OnOk};
ghost use Rattle.omf_check.specs.Inner.Contents.{data_seen};
ghost use Rattle.omf_check.specs.Module.{recs_of};
ghost use Rattle.omf_trimming.specs.Choice.{data_by, data_of};

use omf_check::{Checked, Data, Undecoded};
use std::alloc::{AllocError, Global};
use std::marker::Model;

/// The data of an LEDATA, or the blocks of an LIDATA.
#[derive(Drop)]
pub(crate) struct DataPart<'a> {
    kind: u8,
    offset: u32,
    bytes: &'a [u8],
}

impl<'a> Model for DataPart<'a> {
    ghost use Rattle.std.specs.Prelude.{List, ℕ, ◌∷◌};

    ghost Value = { List ℕ };

    ghost view = { λ p. p.kind ∷ p.offset ∷ p.bytes.now };
}

impl<'a> PartialEq for DataPart<'a> {
    ghost use Rattle.std.specs.Prelude.{nat_eq};
    ghost use Rattle.std.specs.Cmp.Lexicographic.{nat_list_eq_equiv, pointwise};
    ghost use Rattle.std.specs.Cmp.{partial_equiv_from_equiv};

    ghost eq = { pointwise nat_eq };

    ghost laws = { partial_equiv_from_equiv nat_list_eq_equiv };

    fn eq(&self, other: &Self) -> bool {
        self.kind == other.kind && self.offset == other.offset && self.bytes == other.bytes
    }
}

/// Appends data, if they are of this segment.
fn push_data<'a>(
    parts: &mut Vec<DataPart<'a>>,
    segment: u16,
    kind: u8,
    data: &Data<'a>,
) -> Result<(), AllocError>
    ensures { OnOk result (parts.new.items ≡ parts.old.items ++ data_by segment kind (data_seen data.now).contents) }
{
    let (own, offset, bytes) = match data {
        Data::Plain {
            segment,
            offset,
            bytes,
            ..
        } => (segment.item.0, offset.item, *bytes),
        Data::Iterated {
            segment,
            offset,
            blocks,
        } => (segment.item.0, offset.item, blocks.bytes),
    };
    if own == segment {
        parts.push(DataPart {
            kind,
            offset,
            bytes,
        })?;
    }
    Ok(())
}

/// Appends the data of a record, if they are of this segment.
fn push_part<'a>(
    parts: &mut Vec<DataPart<'a>>,
    segment: u16,
    record: &Undecoded<'a>,
) -> Result<(), AllocError>
    ensures { OnOk result (parts.new.items ≡ parts.old.items ++ data_by segment record.now.kind record.now.contents) }
{
    match record.as_data() {
        Some(data) => push_data(parts, segment, record.kind(), &data),
        None => Ok(()),
    }
}

/// The data of a segment of a module.
pub(crate) fn data_of<'a>(
    alloc: Global,
    module: &'a Checked,
    segment: u16,
) -> Result<Vec<DataPart<'a>>, AllocError>
    ensures { IfOk result (λ v. v.items ≡ data_of segment (recs_of «module».entry.now.bytes)) }
{
    let mut parts = Vec::new(alloc);
    for (_, record) in module.undecoded() {
        push_part(&mut parts, segment, &record)?;
    }
    Ok(parts)
}
