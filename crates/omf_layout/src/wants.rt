//! Alignments of a module's segments and lengths of its communals.

ghost use Rattle.std.specs.Prelude.{◌≡◌, ◌++◌, OnOk, IfOk, length};
ghost use Rattle.omf_records.specs.Inner.Sizes.{size_seen};
ghost use Rattle.omf_records.specs.Values.{Externs, Communals};
ghost use Rattle.omf_check.specs.Module.{recs_of};
ghost use Rattle.omf_check.specs.Tables.{segments};
ghost use Rattle.omf_layout.specs.Wants.{alignments, rooms, rooms_in, room_of};

use crate::alignment::Alignment;
use crate::raised::{alignment_in, raised_in};
use omf_check::{Checked, Externals, Undecoded};
use omf_records::{Communal, CommunalSize, Extern, Items};
use std::alloc::{AllocError, Global};

/// Returns the alignments of a module's segments, in order.
pub fn alignments_of(alloc: Global, module: &Checked) -> Result<Vec<Alignment>, AllocError>
    ensures all { IfOk result (λ v. v.items ≡ alignments (recs_of «module».now.bytes)) }
    ensures each { IfOk result (λ v. length v.items ≡ length (segments (recs_of «module».now.bytes))) }
{
    let raised = raised_in(alloc, module)?;
    let mut alignments = Vec::new(alloc);
    for before in 0..module.segments() {
        let index = before + 1;
        let Some(attribute) = module.attribute(index) else {
            unreachable!()
        };
        alignments.push(alignment_in(&raised, index, attribute))?;
    }
    Ok(alignments)
}

/// Returns the length of a communal in bytes.
pub(crate) fn room_of(size: CommunalSize) -> u64
    ensures { result ≡ room_of (size_seen size) }
{
    match size {
        CommunalSize::Near(length) => u64::from(length),
        CommunalSize::Far { count, size } => u64::from(count) * u64::from(size),
    }
}

/// Adds that the names of an EXTDEF or a LEXTDEF have no length.
fn add_externs(rooms: &mut Vec<Option<u64>>, items: Items<Extern<'_>>) -> Result<(), AllocError>
    ensures { OnOk result (rooms.new.items ≡ rooms.old.items ++ rooms_in (Externs items.entry)) }
{
    for _item in items {
        rooms.push(None)?;
    }
    Ok(())
}

/// Adds the lengths of the communals of a COMDEF or an LCOMDEF.
fn add_communals(rooms: &mut Vec<Option<u64>>, items: Items<Communal<'_>>) -> Result<(), AllocError>
    ensures { OnOk result (rooms.new.items ≡ rooms.old.items ++ rooms_in (Communals items.entry)) }
{
    for item in items {
        rooms.push(Some(room_of(item.item.size)))?;
    }
    Ok(())
}

/// Adds the lengths of a record's externals. No record but one of externals is decoded.
fn add_rooms(rooms: &mut Vec<Option<u64>>, rec: &Undecoded<'_>) -> Result<(), AllocError>
    ensures { OnOk result (rooms.new.items ≡ rooms.old.items ++ rooms_in rec.now.contents) }
{
    let Some(externals) = rec.as_externals() else {
        return Ok(());
    };
    match &externals {
        Externals::Externs { items, .. } => add_externs(rooms, items.iter()),
        Externals::Communals { items, .. } => add_communals(rooms, items.iter()),
    }
}

/// Returns the length of each communal among a module's externals, in order; none for any other external.
pub fn rooms_of(alloc: Global, module: &Checked) -> Result<Vec<Option<u64>>, AllocError>
    ensures { IfOk result (λ v. v.items ≡ rooms (recs_of «module».now.bytes)) }
{
    let mut rooms = Vec::new(alloc);
    for (_, rec) in module.undecoded() {
        add_rooms(&mut rooms, &rec)?;
    }
    Ok(rooms)
}
