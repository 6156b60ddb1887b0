//! Parts of modules as a person finds them: a segment by its name, and an offset in it.

use omf_check::{Checked, Data, Undecoded};
use omf_frame::Place;
use omf_linking::space::Owner;
use omf_records::{Items, Kind as TargetKind, Public};
use omf_reloc::{Kind, Piece, PlainReference, pieces_of};

/// Where a part of a module is: the index of the segment of its data, and its offset there.
#[derive(Clone, Copy)]
pub(crate) struct Spot {
    pub(crate) segment: u16,
    pub(crate) offset: u64,
}

/// The spot of a data record's first byte. No other record is decoded.
fn data_spot(rec: &Undecoded<'_>) -> Option<Spot> {
    let Some(data) = rec.as_data() else {
        return None;
    };
    let (segment, offset) = match &data {
        Data::Plain {
            segment,
            offset,
            ..
        } => (segment.item.0, offset.item),
        Data::Iterated {
            segment,
            offset,
            ..
        } => (segment.item.0, offset.item),
    };
    Some(Spot {
        segment,
        offset: u64::from(offset),
    })
}

/// The spot of a piece, and the spot of the last data record up to and including it.
fn spots(piece: &Piece<'_>, last: Option<Spot>) -> (Option<Spot>, Option<Spot>) {
    match piece {
        Piece::Kept(record) => {
            let spot = data_spot(record);
            (spot, spot.or(last))
        }
        Piece::Fixed { fixup, .. } => match last {
            Some(spot) => {
                let within = u64::from(fixup.location.offset());
                let offset = spot.offset.saturating_add(within);
                let segment = spot.segment;
                (Some(Spot { segment, offset }), last)
            }
            None => (None, None),
        },
        Piece::End { .. } => (None, last),
    }
}

/// The spot of the part of a module at a place: a data record, or a fixup of one. None for any other part.
pub(crate) fn spot_of(module: &Checked, place: Place) -> Option<Spot> {
    let mut last = None;
    for (here, piece) in pieces_of(module) {
        let (spot, next) = spots(&piece, last);
        if here.number == place.number && here.within == place.within {
            return spot;
        }
        last = next;
    }
    None
}

/// What a reference is to: an entry of a table of its module.
#[derive(Clone, Copy)]
pub(crate) struct Target {
    pub(crate) kind: Kind,
    pub(crate) index: u16,
}

/// What a reference is to.
fn target_of(reference: &PlainReference) -> Target {
    let kind = match reference.target.kind {
        TargetKind::Segment => Kind::Segment,
        TargetKind::Group => Kind::Group,
        TargetKind::External => Kind::External,
    };
    Target {
        kind,
        index: reference.target.index.0,
    }
}

/// What a piece, a fixup or a start, refers to; none for any other piece.
fn target_in(piece: &Piece<'_>) -> Option<Target> {
    match piece {
        Piece::Kept(_) => None,
        Piece::Fixed { fixup, .. } => Some(target_of(&fixup.reference)),
        Piece::End {
            start: Some(start),
            ..
        } => Some(target_of(start)),
        Piece::End { start: None, .. } => None,
    }
}

/// What the fixup or the start at a place of a module refers to; none if there is none.
pub(crate) fn target_at(module: &Checked, place: Place) -> Option<Target> {
    for (here, piece) in pieces_of(module) {
        if here.number == place.number && here.within == place.within {
            return target_in(&piece);
        }
    }
    None
}

/// The index of the external that the fixup or the start at a place of a module refers to; none if it refers to none.
fn external_at(module: &Checked, place: Place) -> Option<u16> {
    let target = target_at(module, place)?;
    match target.kind {
        Kind::External => Some(target.index),
        Kind::Segment => None,
        Kind::Group => None,
    }
}

/// Whether one of these publics has a name.
fn has_name(publics: Items<Public<'_>>, name: &[u8]) -> bool {
    for public in publics {
        if public.item.name.0 == name {
            return true;
        }
    }
    false
}

/// The index of the segment of a local public of a module, or of one that is not local; none if it has no such public, or that has no segment.
fn segment_of(module: &Checked, local: bool, name: &[u8]) -> Option<u16> {
    for (_, rec) in module.undecoded() {
        let Some(publics) = rec.as_publics(local) else {
            continue;
        };
        let segment = publics.segment.item.0;
        if segment > 0 && has_name(publics.items, name) {
            return Some(segment);
        }
    }
    None
}

/// The module and the segment of the first public of a name that is not local; none if there is no such public.
fn shared_segment(modules: &[Checked], name: &[u8]) -> Option<Owner> {
    for (j, module) in modules.iter().enumerate() {
        if let Some(segment) = segment_of(module, false, name) {
            let module = u32::try_from(j).ok()?;
            return Some(Owner { module, segment });
        }
    }
    None
}

/// The module and the segment of the public to which the fixup or the start at a place of a module refers; none if it refers to none.
pub(crate) fn public_of(modules: &[Checked], number: u32, place: Place) -> Option<Owner> {
    let module = modules.get(number as usize)?;
    let index = external_at(module, place)?;
    let name = module.external(index)?;
    if !module.local(index).unwrap_or(false) {
        return shared_segment(modules, name.0);
    }
    let segment = segment_of(module, true, name.0)?;
    Some(Owner {
        module: number,
        segment,
    })
}
