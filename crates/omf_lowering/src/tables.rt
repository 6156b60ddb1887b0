//! The tables of a module.

ghost use Rattle.std.specs.Prelude.{◌≡◌, ◌++◌, IfSome, IfNone, OnOk, None, Some, map};
ghost use Rattle.omf_check.specs.Tables.{defined_names, entry};
ghost use Rattle.omf_records.specs.Inner.Seen.{contents_seen, kind_seen};
ghost use Rattle.omf_lowering.specs.Comdats.{defining};
ghost use Rattle.omf_lowering.specs.Values.{is_local_name};

use crate::names::Names;
use crate::values::Pattern;
use omf_frame::{Index, Name};
use omf_records::{Items, Rec, Segment};
use std::alloc::{AllocError, Global};
use std::marker::Model;

/// The tables of a module: its names and whether each is local, its segments, and the name index of each group.
#[derive(Drop)]
pub(crate) struct Tables<'a> {
    pub names: Names<'a>,
    pub locals: Vec<bool>,
    pub segments: Vec<Pattern>,
    pub groups: Vec<Index>,
}

impl<'a> Model for Tables<'a> {
    ghost use Rattle.omf_lowering.specs.Values.{Tables as TablesItem};

    ghost Value = { TablesItem };

    ghost view = { λ t. record { names = t.names; locals = t.locals.items; segments = t.segments.items; groups = t.groups.items } };
}

/// Appends the names of an LNAMES, or the local ones of an LLNAMES.
fn push_names<'a>(
    names: &mut Names<'a>,
    locals: &mut Vec<bool>,
    is_local: bool,
    items: Items<Name<'a>>,
) -> Result<(), AllocError>
    ensures names { OnOk result (names.new ≡ names.old ++ map (λ n. n.item) items.entry) }
    ensures locals { OnOk result (locals.new.items ≡ locals.old.items ++ map (λ n. is_local) items.entry) }
{
    for item in items {
        names.push(item.item)?;
        locals.push(is_local)?;
    }
    Ok(())
}

/// Whether the name with an index is local.
pub(crate) fn is_local_name(locals: &[bool], index: Index) -> bool
    ensures { result ≡ is_local_name locals.now index }
{
    let index = usize::from(index.0);
    if index == 0 || index > locals.len() {
        return false;
    }
    locals[index - 1]
}

/// What a SEGDEF is a pattern of.
fn pattern_of(segment: &Segment) -> Pattern
    ensures { result ≡ record { attribute = segment.now.attribute; name = segment.now.name.item; class = segment.now.class.item; overlay = segment.now.overlay } }
{
    Pattern {
        attribute: segment.attribute.byte(),
        name: segment.name.item,
        class: segment.class.item,
        overlay: segment.overlay,
    }
}

impl<'a> Tables<'a> {
    ghost use Rattle.std.specs.Prelude.{[]};
    ghost use Rattle.omf_lowering.specs.Lowering.{no_tables};

    /// Nothing, before the first record.
    pub(crate) fn new(alloc: Global) -> Tables<'a>
        ensures { result ≡ no_tables }
    {
        Tables {
            names: Names::new(alloc),
            locals: Vec::new(alloc),
            segments: Vec::new(alloc),
            groups: Vec::new(alloc),
        }
    }

    /// Appends what a record defines.
    pub(crate) fn define(&mut self, rec: &Rec<'a>) -> Result<(), AllocError>
        ensures { OnOk result (self.new ≡ defining self.old (kind_seen rec.now) (contents_seen rec.now)) }
    {
        match rec {
            Rec::Names(items) => {
                push_names(&mut self.names, &mut self.locals, false, items.iter())
            }
            Rec::LocalNames(items) => {
                push_names(&mut self.names, &mut self.locals, true, items.iter())
            }
            Rec::Segment { segment, .. } => Ok(self.segments.push(pattern_of(segment))?),
            Rec::Group { name, .. } => Ok(self.groups.push(name.item)?),
            _ => Ok(()),
        }
    }
}
