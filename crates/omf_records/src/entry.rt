//! The items that records repeat: names, members, external, public and communal names.
ghost use Rattle.std.specs.Prelude.{◌≡◌, ◌++◌, OnOk, OnErr};
ghost use Rattle.omf_records.specs.Shortest.{communal_bytes};
ghost use Rattle.omf_records.specs.Shortest.{public_bytes};
ghost use Rattle.omf_records.specs.Shortest.{external_bytes};
ghost use Rattle.omf_records.specs.Shortest.{member_bytes};
ghost use Rattle.omf_records.specs.Inner.Begins.{Grows, Lacks};
ghost use Rattle.omf_records.specs.Shortest.{size_bytes};
ghost use Rattle.omf_records.specs.Inner.Gives.{Gives};
ghost use Rattle.omf_records.specs.Inner.EntryReaders.{component_reader, data_type_reader, size_reader};
ghost use Rattle.omf_records.specs.Inner.Sizes.{size_seen, GivesSize};

use crate::at::{At, LayoutFault};
use crate::field::{byte, communal_length, index, index_here, name, number};
use crate::here::Here;
use crate::item::Item;
use crate::put::{put_byte, put_datum, put_field, put_number};
use omf_frame::{CommunalLength, Index, Name, Reason};
use std::alloc::AllocError;
use std::marker::{Model, PhantomData};

impl<'a> Item for Name<'a> {
    ghost use Rattle.omf_frame.specs.Fields.{name_bytes};
    ghost use Rattle.omf_records.specs.Layout.{name};
    ghost use Rattle.omf_records.specs.Inner.FieldReaders.{name_reader, name_shrinks};

    type From = Here<'a>;

    ghost layout = { λ w. name };

    ghost reader = { λ w. name_reader };

    ghost shrinks = { λ w. name_shrinks };

    #[inline(always)]
    fn read(here: Here<'a>) -> Result<(Name<'a>, Here<'a>), LayoutFault> {
        name(here)
    }

    ghost shortest = { λ k n. name_bytes n };

    fn put(&self, _kind: u8, out: &mut Vec<u8>) -> Result<(), AllocError> {
        put_field(out, self)
    }
}

/// A member of a GRPDEF: its segment index. The offset of the item is that of the component byte FFH.
#[derive(Drop)]
pub struct Member<'a> {
    pub segment: At<Index>,
    of: PhantomData<&'a [u8]>,
}

impl<'a> Model for Member<'a> {
    ghost use Rattle.std.specs.Prelude.{ℕ};
    ghost use Rattle.omf_records.specs.Values.{At as AtModel};

    ghost Value = { AtModel ℕ };

    ghost view = { λ m. m.segment };
}

/// Reads the component byte FFH.
#[inline(always)]
fn component<'a>(here: Here<'a>) -> Result<(u8, Here<'a>), LayoutFault>
    ensures { Gives here.entry.wide result (component_reader.read here.entry.within here.entry.bytes.now) }
{
    let (component, after) = byte(here)?;
    if component != 0xFF {
        return Err(here.fault(Reason::GroupComponent));
    }
    Ok((component, after))
}

impl<'a> Item for Member<'a> {
    ghost use Rattle.omf_records.specs.Shortest.{member_bytes};
    ghost use Rattle.omf_records.specs.Entries.{member};
    ghost use Rattle.omf_records.specs.Inner.EntryReaders.{member_reader, member_shrinks};

    type From = Here<'a>;

    ghost layout = { λ w. member };

    ghost reader = { λ w. member_reader };

    ghost shrinks = { λ w. member_shrinks };

    #[inline(always)]
    fn read(here: Here<'a>) -> Result<(Member<'a>, Here<'a>), LayoutFault> {
        let (_component, here) = component(here)?;
        let (segment, here) = index_here(here)?;
        let of = PhantomData;
        Ok((Member { segment, of }, here))
    }

    ghost shortest = { λ k m. member_bytes m };

    #[tactic(auto, using(crate::specs::Inner::Begins::grows_then, crate::specs::Inner::Begins::lacks_then, crate::specs::Inner::Begins::lacks_front))]
    fn put(&self, _kind: u8, out: &mut Vec<u8>) -> Result<(), AllocError> {
        put_byte(out, 0xFF)?;
        put_datum(out, &self.segment)
    }
}

/// An external name of an EXTDEF.
#[derive(Drop)]
pub struct Extern<'a> {
    pub name: Name<'a>,
    pub type_index: Index,
}

impl<'a> Model for Extern<'a> {
    ghost use Rattle.omf_records.specs.Values.{ExternalItem};

    ghost Value = { ExternalItem };

    ghost view = { λ e. record { name = e.name; type_index = e.type_index } };
}

impl<'a> Item for Extern<'a> {
    ghost use Rattle.omf_records.specs.Shortest.{external_bytes};
    ghost use Rattle.omf_records.specs.Entries.{external};
    ghost use Rattle.omf_records.specs.Inner.EntryReaders.{external_reader, external_shrinks};

    type From = Here<'a>;

    ghost layout = { λ w. external };

    ghost reader = { λ w. external_reader };

    ghost shrinks = { λ w. external_shrinks };

    #[inline(always)]
    fn read(here: Here<'a>) -> Result<(Extern<'a>, Here<'a>), LayoutFault> {
        let (name, here) = name(here)?;
        let (type_index, here) = index(here)?;
        Ok((Extern { name, type_index }, here))
    }

    ghost shortest = { λ k e. external_bytes e };

    #[tactic(auto, using(crate::specs::Inner::Begins::grows_then, crate::specs::Inner::Begins::lacks_then, crate::specs::Inner::Begins::lacks_front))]
    fn put(&self, _kind: u8, out: &mut Vec<u8>) -> Result<(), AllocError> {
        put_field(out, &self.name)?;
        put_field(out, &self.type_index)
    }
}

/// A public name of a PUBDEF, with its offset in the record's base.
#[derive(Drop)]
pub struct Public<'a> {
    pub name: Name<'a>,
    pub offset: u32,
    pub type_index: Index,
}

impl<'a> Model for Public<'a> {
    ghost use Rattle.omf_records.specs.Values.{PublicItem};

    ghost Value = { PublicItem };

    ghost view = { λ p. record { name = p.name; offset = p.offset; type_index = p.type_index } };
}

impl<'a> Item for Public<'a> {
    ghost use Rattle.omf_records.specs.Shortest.{public_bytes};
    ghost use Rattle.omf_records.specs.Entries.{public_item};
    ghost use Rattle.omf_records.specs.Inner.EntryReaders.{public_reader, public_shrinks};

    type From = Here<'a>;

    ghost layout = { public_item };

    ghost reader = { public_reader };

    ghost shrinks = { public_shrinks };

    #[inline(always)]
    fn read(here: Here<'a>) -> Result<(Public<'a>, Here<'a>), LayoutFault> {
        let (name, here) = name(here)?;
        let (offset, here) = number(here)?;
        let (type_index, here) = index(here)?;
        Ok((
            Public {
                name,
                offset,
                type_index,
            },
            here,
        ))
    }

    ghost shortest = { public_bytes };

    #[tactic(auto, using(crate::specs::Inner::Begins::grows_then, crate::specs::Inner::Begins::lacks_then, crate::specs::Inner::Begins::lacks_front))]
    fn put(&self, kind: u8, out: &mut Vec<u8>) -> Result<(), AllocError> {
        put_field(out, &self.name)?;
        put_number(out, kind, self.offset)?;
        put_field(out, &self.type_index)
    }
}

/// The size of a communal in bytes: the length if it is near; the number of elements and the size of one if it is far.
#[derive(Clone, Copy, Debug, Drop, PartialEq, Eq)]
pub enum CommunalSize {
    Near(u32),
    Far { count: u32, size: u32 },
}

/// A communal name of a COMDEF.
#[derive(Drop)]
pub struct Communal<'a> {
    pub name: Name<'a>,
    pub type_index: Index,
    pub size: CommunalSize,
}

impl<'a> Model for Communal<'a> {
    ghost use Rattle.omf_records.specs.Values.{CommunalItem};
    ghost use Rattle.omf_records.specs.Inner.Sizes.{size_seen};

    ghost Value = { CommunalItem };

    ghost view = { λ c. record { name = c.name; type_index = c.type_index; size = size_seen c.size } };
}

/// Reads the data type: 61H far, 62H near.
fn data_type<'a>(here: Here<'a>) -> Result<(u8, Here<'a>), LayoutFault>
    ensures { Gives here.entry.wide result (data_type_reader.read here.entry.within here.entry.bytes.now) }
{
    let (data_type, after) = byte(here)?;
    if data_type != 0x61 && data_type != 0x62 {
        return Err(here.fault(Reason::CommunalType));
    }
    Ok((data_type, after))
}

fn communal_size<'a>(here: Here<'a>) -> Result<(CommunalSize, Here<'a>), LayoutFault>
    ensures { GivesSize here.entry.wide result (size_reader.read here.entry.within here.entry.bytes.now) }
{
    let (data_type, here) = data_type(here)?;
    if data_type == 0x62 {
        let (length, here) = communal_length(here)?;
        return Ok((CommunalSize::Near(length), here));
    }
    let (count, here) = communal_length(here)?;
    let (size, here) = communal_length(here)?;
    Ok((CommunalSize::Far { count, size }, here))
}

#[tactic(auto, using(crate::specs::Inner::Begins::grows_then, crate::specs::Inner::Begins::lacks_then, crate::specs::Inner::Begins::lacks_front))]
fn put_size(out: &mut Vec<u8>, size: CommunalSize) -> Result<(), AllocError>
    ensures put { OnOk result (out.new.items ≡ out.old.items ++ size_bytes (size_seen size)) }
    ensures grows { Grows out.old out.new }
    ensures full { OnErr result (Lacks out.old (size_bytes (size_seen size))) }
{
    match size {
        CommunalSize::Near(length) => {
            put_byte(out, 0x62)?;
            put_field(out, &CommunalLength(length))
        }
        CommunalSize::Far { count, size } => {
            put_byte(out, 0x61)?;
            put_field(out, &CommunalLength(count))?;
            put_field(out, &CommunalLength(size))
        }
    }
}

impl<'a> Item for Communal<'a> {
    ghost use Rattle.omf_records.specs.Shortest.{communal_bytes};
    ghost use Rattle.omf_records.specs.Entries.{communal};
    ghost use Rattle.omf_records.specs.Inner.EntryReaders.{communal_reader, communal_shrinks};

    type From = Here<'a>;

    ghost layout = { λ w. communal };

    ghost reader = { λ w. communal_reader };

    ghost shrinks = { λ w. communal_shrinks };

    fn read(here: Here<'a>) -> Result<(Communal<'a>, Here<'a>), LayoutFault> {
        let (name, here) = name(here)?;
        let (type_index, here) = index(here)?;
        let (size, here) = communal_size(here)?;
        Ok((
            Communal {
                name,
                type_index,
                size,
            },
            here,
        ))
    }

    ghost shortest = { λ k c. communal_bytes c };

    #[tactic(auto, using(crate::specs::Inner::Begins::grows_then, crate::specs::Inner::Begins::lacks_then, crate::specs::Inner::Begins::lacks_front))]
    fn put(&self, _kind: u8, out: &mut Vec<u8>) -> Result<(), AllocError> {
        put_field(out, &self.name)?;
        put_field(out, &self.type_index)?;
        put_size(out, self.size)
    }
}
