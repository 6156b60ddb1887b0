//! The contents of a LINNUM (TIS OMF 1.1, "LINNUM"). This profile carries such records, and does not look into them.

ghost use Rattle.std.specs.Prelude.{◌≡◌, ◌≤◌, IfOk, length};
ghost use Rattle.omf_lowering.specs.Inner.Readers.{linnum_whole};
ghost use Rattle.omf_lowering.specs.Inner.State.{GivesAll};
ghost use Rattle.omf_lowering.specs.Lines.{lines_of, read_lines};

use crate::entries::{Entry, entries};
use crate::fault::Stop;
use crate::fields::{index_at, number_at};
use omf_check::Undecoded;
use omf_frame::Index;
use omf_records::{At, LayoutFault, Rec};
use std::alloc::{AllocError, Global};
use std::marker::Model;

/// A line of the source, and the offset of its code or data in a segment, in bytes.
#[derive(Clone, Copy, Drop)]
pub struct LineNumber {
    /// The number of the line, below 65,536.
    pub number: u32,
    pub offset: u32,
}

/// The lines of a LINNUM, and the indices of their group, 0 if there is none, and of their segment.
#[derive(Drop)]
pub struct LineNumbers {
    pub group: Index,
    pub segment: Index,
    pub items: Vec<At<LineNumber>>,
}

impl Model for LineNumbers {
    ghost use Rattle.omf_lowering.specs.Layouts.{LineNumbers as Lines};

    ghost Value = { Lines };

    ghost view = { λ l. record { group = l.group; segment = l.segment; items = l.items.items } };
}

impl Entry for LineNumber {
    ghost use Rattle.omf_lowering.specs.Inner.Readers.{line_reader, line_shrinks};

    ghost reading = { λ wide. (line_reader wide).read };

    ghost shrinks = { line_shrinks };

    fn read_at(body: &[u8], wide: bool, pos: usize) -> Result<(LineNumber, usize), LayoutFault> {
        let (number, pos) = number_at(body, false, pos)?;
        let (offset, pos) = number_at(body, wide, pos)?;
        Ok((LineNumber { number, offset }, pos))
    }
}

/// The lines of a LINNUM with these contents.
fn lines_in(alloc: Global, wide: bool, body: &[u8]) -> Result<LineNumbers, Stop>
    requires { length body.now ≤ 65534 }
    ensures { GivesAll (λ l. l) result ((linnum_whole wide).read 3 body.now) }
{
    let (group, pos) = match index_at(body, 0) {
        Ok(found) => found,
        Err(fault) => return Err(Stop::At(fault)),
    };
    let (segment, pos) = match index_at(body, pos) {
        Ok(found) => found,
        Err(fault) => return Err(Stop::At(fault)),
    };
    let items = entries(alloc, body, wide, pos)?;
    Ok(LineNumbers {
        group,
        segment,
        items,
    })
}

/// The most bytes of a record's contents.
const CONTENTS_LIMIT: usize = 65_534;

/// The lines of a LINNUM of this type byte with these contents; none if they are not the contents of one.
fn read_lines(alloc: Global, kind: u8, body: &[u8]) -> Result<Option<LineNumbers>, AllocError>
    ensures { IfOk result (λ found. found ≡ read_lines kind body.now) }
{
    if body.len() > CONTENTS_LIMIT {
        return Ok(None);
    }
    match lines_in(alloc, kind % 2 == 1, body) {
        Ok(lines) => Ok(Some(lines)),
        Err(Stop::At(_)) => Ok(None),
        Err(Stop::Memory) => Err(AllocError),
    }
}

/// The lines of a record, if it is a LINNUM; none of one whose contents have a fault. No other record is decoded.
///
/// # Errors
///
/// `AllocError` if memory runs out.
pub fn line_numbers(alloc: Global, rec: &Undecoded<'_>) -> Result<Option<LineNumbers>, AllocError>
    ensures { IfOk result (λ found. found ≡ lines_of rec.now.kind rec.now.contents) }
{
    let kind = rec.kind();
    if kind != 0x94 && kind != 0x95 {
        return Ok(None);
    }
    match rec.decoded() {
        Rec::Carried { contents, .. } => read_lines(alloc, kind, contents),
        _ => Ok(None),
    }
}
