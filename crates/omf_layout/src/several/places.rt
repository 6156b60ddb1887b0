//! Places of the segments of several modules.

ghost use Rattle.std.specs.Prelude.{◌≡◌, IfOk, filter_map, length, map};
ghost use Rattle.omf_check.specs.Module.{recs_of, typed_modules};
ghost use Rattle.omf_layout.specs.Several.Placing.{all_segments_in};
ghost use Rattle.omf_layout.specs.Inner.Known.{no_places, rows_in, with_lying, with_place};

use crate::several::laying::Lying;
use omf_check::Checked;
use omf_placement::Placed;
use std::alloc::{AllocError, Global};

/// A place for each segment of a module, in index order, as far as it is known.
type Row = Vec<Option<Placed>>;

/// Returns the row of a module whose segments are not laid yet.
fn row_of(alloc: Global, module: &Checked) -> Result<Row, AllocError>
    ensures { IfOk result (λ v. v.items ≡ no_places (recs_of «module».now.bytes)) }
{
    let count = module.segments();
    let mut row = Vec::with_capacity(alloc, usize::from(count))?;
    for _index in 0..count {
        row.push(None)?;
    }
    Ok(row)
}

/// Returns the rows of modules whose segments are not laid yet.
fn rows_of(alloc: Global, modules: &[Checked]) -> Result<Vec<Row>, AllocError>
    ensures { IfOk result (λ v. map (λ r. r.items) v.items ≡ map no_places (typed_modules modules.now)) }
{
    let mut rows = Vec::with_capacity(alloc, modules.len())?;
    for module in modules {
        rows.push(row_of(alloc, module)?)?;
    }
    Ok(rows)
}

/// Gives the segment with an index, from 1, its place, unless it has one.
fn put_place(row: &mut Row, index: u16, place: Placed)
    ensures { row.new.items ≡ with_place index place row.old.items }
{
    let index = usize::from(index);
    if index == 0 || index > row.len() || row[index - 1].is_some() {
        return;
    }
    row[index - 1] = Some(place);
}

/// Gives a segment of one of the modules its place, unless it has one.
fn put_lying(rows: &mut Vec<Row>, lying: &Lying)
    ensures { map (λ r. r.items) rows.new.items ≡ with_lying lying.now (map (λ r. r.items) rows.old.items) }
{
    let (portion, place) = *lying;
    let number = portion.module as usize;
    if number < rows.len() {
        put_place(&mut rows[number], portion.index, place);
    }
}

/// Returns the rows of modules whose segments are laid: the first place of a segment counts.
fn rows_in(alloc: Global, modules: &[Checked], lying: &[Lying]) -> Result<Vec<Row>, AllocError>
    ensures { IfOk result (λ v. map (λ r. r.items) v.items ≡ rows_in lying.now (typed_modules modules.now)) }
{
    let mut rows = rows_of(alloc, modules)?;
    for one in lying {
        put_lying(&mut rows, one);
    }
    Ok(rows)
}

/// Returns the places of a row that are known.
fn known_in(alloc: Global, row: &[Option<Placed>]) -> Result<Vec<Placed>, AllocError>
    ensures { IfOk result (λ v. v.items ≡ filter_map (λ p. p) row.now) }
{
    let mut places = Vec::with_capacity(alloc, row.len())?;
    for place in row {
        if let Some(place) = *place {
            places.push(place)?;
        }
    }
    Ok(places)
}

/// Returns the places of the segments of each module.
pub fn segments_of(
    alloc: Global,
    modules: &[Checked],
    lying: &[Lying],
) -> Result<Vec<Vec<Placed>>, AllocError>
    ensures { IfOk result (λ v. map (λ r. r.items) v.items ≡ all_segments_in lying.now (typed_modules modules.now)) }
{
    let mut places = Vec::with_capacity(alloc, modules.len())?;
    for row in rows_in(alloc, modules, lying)? {
        places.push(known_in(alloc, &row)?)?;
    }
    Ok(places)
}
