//! The items of records other than FIXUPPs.

ghost use Rattle.std.specs.Prelude.{◌≡◌, ◌+◌, ◌++◌, OnOk, length, map, true};
ghost use Rattle.omf_frame.specs.Bytes.{AddsText};
ghost use Rattle.omf_dump.specs.Contents.{communal_fields, each, external_fields, member_fields, name_fields, numbered, public_fields};
ghost use Rattle.omf_dump.specs.Render.{items_text};

use crate::contents::{put_communal, put_extern, put_member, put_name, put_public};
use crate::format::Format;
use crate::item::{close_item, open_item};
use crate::known::Tables;
use omf_frame::{Name, Width};
use omf_records::{Communal, Extern, Items, Member, Public};
use std::alloc::AllocError;

/// The names of an LNAMES or an LLNAMES, with the indices that they get after `names`. Keeps them there.
pub(crate) fn put_names<'a>(
    text: &mut Vec<u8>,
    format: Format,
    names: &mut Vec<Name<'a>>,
    items: Items<Name<'a>>,
) -> Result<(), AllocError>
    ensures text { AddsText result text.old.items text.new.items (items_text format true (numbered name_fields (length names.old.items + 1) items.entry)) }
    ensures names { OnOk result (names.new.items ≡ names.old.items ++ map (λ n. n.item) items.entry) }
{
    let mut is_first = true;
    for name in items {
        open_item(text, format, is_first, u64::from(name.within))?;
        put_name(text, format, names.len() as u64 + 1, &name.item)?;
        close_item(text, format)?;
        names.push(name.item)?;
        is_first = false;
    }
    Ok(())
}

/// The members of a GRPDEF.
pub(crate) fn put_members(
    text: &mut Vec<u8>,
    format: Format,
    tables: &Tables<'_>,
    members: Items<Member<'_>>,
) -> Result<(), AllocError>
    ensures { AddsText result text.old.items text.new.items (items_text format true (each (member_fields tables.now) members.entry)) }
{
    let mut is_first = true;
    for member in members {
        open_item(text, format, is_first, u64::from(member.within))?;
        put_member(text, format, tables, &member.item.segment)?;
        close_item(text, format)?;
        is_first = false;
    }
    Ok(())
}

/// The name of an external.
fn external_name<'a>(external: &Extern<'a>) -> Name<'a>
    ensures { result ≡ external.now.name }
{
    Name(external.name.0)
}

/// The name of a communal.
fn communal_name<'a>(communal: &Communal<'a>) -> Name<'a>
    ensures { result ≡ communal.now.name }
{
    Name(communal.name.0)
}

/// The external names of an EXTDEF or a LEXTDEF, with the indices that they get after `externals`. Keeps them there.
pub(crate) fn put_externals<'a>(
    text: &mut Vec<u8>,
    format: Format,
    externals: &mut Vec<Name<'a>>,
    items: Items<Extern<'a>>,
) -> Result<(), AllocError>
    ensures text { AddsText result text.old.items text.new.items (items_text format true (numbered external_fields (length externals.old.items + 1) items.entry)) }
    ensures externals { OnOk result (externals.new.items ≡ externals.old.items ++ map (λ e. e.item.name) items.entry) }
{
    let mut is_first = true;
    for external in items {
        open_item(text, format, is_first, u64::from(external.within))?;
        put_extern(text, format, externals.len() as u64 + 1, &external.item)?;
        close_item(text, format)?;
        externals.push(external_name(&external.item))?;
        is_first = false;
    }
    Ok(())
}

/// The communals of a COMDEF or an LCOMDEF, with the indices that they get after `externals`. Keeps their names there.
pub(crate) fn put_communals<'a>(
    text: &mut Vec<u8>,
    format: Format,
    externals: &mut Vec<Name<'a>>,
    items: Items<Communal<'a>>,
) -> Result<(), AllocError>
    ensures text { AddsText result text.old.items text.new.items (items_text format true (numbered communal_fields (length externals.old.items + 1) items.entry)) }
    ensures externals { OnOk result (externals.new.items ≡ externals.old.items ++ map (λ c. c.item.name) items.entry) }
{
    let mut is_first = true;
    for communal in items {
        open_item(text, format, is_first, u64::from(communal.within))?;
        put_communal(text, format, externals.len() as u64 + 1, &communal.item)?;
        close_item(text, format)?;
        externals.push(communal_name(&communal.item))?;
        is_first = false;
    }
    Ok(())
}

/// The public names of a PUBDEF or an LPUBDEF.
pub(crate) fn put_publics(
    text: &mut Vec<u8>,
    format: Format,
    width: Width,
    publics: Items<Public<'_>>,
) -> Result<(), AllocError>
    ensures { AddsText result text.old.items text.new.items (items_text format true (each (public_fields width) publics.entry)) }
{
    let mut is_first = true;
    for public in publics {
        open_item(text, format, is_first, u64::from(public.within))?;
        put_public(text, format, width, &public.item)?;
        close_item(text, format)?;
        is_first = false;
    }
    Ok(())
}
