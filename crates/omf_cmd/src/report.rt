//! The texts of `check` and `list`. The latter is written in pieces.

ghost use Rattle.std.specs.Prelude.{◌≡◌, ◌++◌, ◌∷◌, [], Bool, IfNone, IfOk, IfSome, List, string_bytes, codes, decimal, flat_map, length};
ghost use Rattle.omf_frame.specs.Bytes.{with_before, AddsText};
ghost use Rattle.omf_frame.specs.Framing.{Raw, raw_bytes};
ghost use Rattle.omf_records.specs.Inner.Seen.{contents_seen};
ghost use Rattle.omf_records.specs.Values.{Group, GroupItem};
ghost use Rattle.omf_check.specs.Inner.Contents.{publics_seen};
ghost use Rattle.omf_check.specs.Module.{recs_of, records_in};
ghost use Rattle.omf_check.specs.Tables.{names};
ghost use Rattle.omf_cmd.specs.Inner.Names.{external_lines, group_lines, segment_lines, record_line};
ghost use Rattle.omf_cmd.specs.Listing.{public_lines, list_text, check_text};
ghost use Rattle.omf_cmd.specs.Printed.{line, index_or_dash};
ghost use Rattle.omf_placement.specs.Quoted.{hex, quoted, named};
ghost use Rattle.omf_cmd.specs.Runs.{PrintsInPieces, IsPrintCause};
ghost use Rattle.omf_cmd.specs.Inner.Printing.{Passes};

use crate::fault::RunFault;
use crate::output::{write_all, write_piece};
use crate::printing::{
    print_external, print_group, print_public, print_record, print_segment, print_totals,
};
use omf_check::{Checked, Judged, Publics, Undecoded, split_record};
use omf_frame::Sink;
use omf_records::{At, Items, Public, Rec};
use std::alloc::{AllocError, Global};

/// Prints a line for each record, by its type byte and its length.
fn print_records<K: Sink>(
    writer: &mut K,
    text: &mut Vec<u8>,
    checked: &Checked,
) -> Result<(), RunFault>
    ensures passes { Passes (K.seen writer.old).bytes (K.seen writer.new).bytes result (text.old.items ++ with_before record_line [] (records_in checked.now.bytes)) (text.new.items) }
    ensures cause { IsPrintCause (K.seen writer.old) (K.seen writer.new) result }
{
    let bytes = checked.bytes();
    let mut left = bytes;
    for number in 0..checked.record_count() {
        let start = (bytes.len() - left.len()) as u64;
        let (raw, rest) = split_record(left);
        print_record(text, number, start, raw.kind, raw.body.len())?;
        write_piece(writer, text)?;
        left = rest;
    }
    Ok(())
}

/// Prints a line for each segment.
fn print_segments<K: Sink>(
    writer: &mut K,
    text: &mut Vec<u8>,
    checked: &Checked,
) -> Result<(), RunFault>
    ensures passes { Passes (K.seen writer.old).bytes (K.seen writer.new).bytes result (text.old.items ++ segment_lines (recs_of checked.now.bytes)) (text.new.items) }
    ensures cause { IsPrintCause (K.seen writer.old) (K.seen writer.new) result }
{
    for before in 0..checked.segments() {
        let index = before + 1;
        let Some(segment) = checked.segment(index) else {
            unreachable!()
        };
        print_segment(text, index, segment.length, checked.name(segment.name))?;
        write_piece(writer, text)?;
    }
    Ok(())
}

/// Appends a group's line.
fn print_group_of(
    text: &mut Vec<u8>,
    checked: &Checked,
    index: u16,
    group: &Rec<'_>,
) -> Result<(), AllocError>
    requires { (g : GroupItem) × (contents_seen group.now ≡ Group g) }
    ensures { (g : GroupItem) → contents_seen group.now ≡ Group g → AddsText result text.old.items text.new.items (line (codes "G" ∷ decimal index ∷ named (names (recs_of checked.now.bytes)) g.name.item ∷ [])) }
{
    let Rec::Group { name, .. } = group else {
        unreachable!()
    };
    print_group(text, index, checked.name(name.item.0))
}

/// Prints a line for each group.
fn print_groups<K: Sink>(
    writer: &mut K,
    text: &mut Vec<u8>,
    checked: &Checked,
) -> Result<(), RunFault>
    ensures passes { Passes (K.seen writer.old).bytes (K.seen writer.new).bytes result (text.old.items ++ group_lines (recs_of checked.now.bytes)) (text.new.items) }
    ensures cause { IsPrintCause (K.seen writer.old) (K.seen writer.new) result }
{
    for before in 0..checked.groups() {
        let index = before + 1;
        let Some(group) = checked.group(index) else {
            unreachable!()
        };
        print_group_of(text, checked, index, &group)?;
        write_piece(writer, text)?;
    }
    Ok(())
}

/// Prints a line for each external name.
fn print_externals<K: Sink>(
    writer: &mut K,
    text: &mut Vec<u8>,
    checked: &Checked,
) -> Result<(), RunFault>
    ensures passes { Passes (K.seen writer.old).bytes (K.seen writer.new).bytes result (text.old.items ++ external_lines (recs_of checked.now.bytes)) (text.new.items) }
    ensures cause { IsPrintCause (K.seen writer.old) (K.seen writer.new) result }
{
    for before in 0..checked.externals() {
        let index = before + 1;
        let Some(name) = checked.external(index) else {
            unreachable!()
        };
        print_external(text, index, name.0)?;
        write_piece(writer, text)?;
    }
    Ok(())
}

/// Appends the line of a public name of a PUBDEF or an LPUBDEF.
fn print_item(
    text: &mut Vec<u8>,
    group: u16,
    segment: u16,
    public: &At<Public<'_>>,
) -> Result<(), AllocError>
    ensures { AddsText result text.old.items text.new.items (line (codes "P" ∷ index_or_dash group ∷ index_or_dash segment ∷ hex 8 public.now.item.offset ∷ quoted public.now.item.name ∷ [])) }
{
    let item = &public.item;
    print_public(text, group, segment, item.offset, item.name.0)
}

/// Prints a line for each public name of a PUBDEF or an LPUBDEF.
fn print_items<K: Sink>(
    writer: &mut K,
    text: &mut Vec<u8>,
    group: u16,
    segment: u16,
    publics: &Items<Public<'_>>,
) -> Result<(), RunFault>
    ensures passes { Passes (K.seen writer.old).bytes (K.seen writer.new).bytes result (text.old.items ++ flat_map (λ q. line (codes "P" ∷ index_or_dash group ∷ index_or_dash segment ∷ hex 8 q.item.offset ∷ quoted q.item.name ∷ [])) publics.now) (text.new.items) }
    ensures cause { IsPrintCause (K.seen writer.old) (K.seen writer.new) result }
{
    for public in publics.iter() {
        print_item(text, group, segment, &public)?;
        write_piece(writer, text)?;
    }
    Ok(())
}

/// The publics of a record, local or not. No record without publics is decoded.
fn publics_of<'a>(rec: &Undecoded<'a>) -> Option<Publics<'a>>
    ensures some { IfSome result (λ p. (local : Bool) × (publics_seen local p ≡ rec.now)) }
    ensures none { IfNone result (public_lines rec.now.contents ≡ []) }
{
    match rec.as_publics(false) {
        Some(publics) => Some(publics),
        None => rec.as_publics(true),
    }
}

/// Prints a line for each public name of a record.
fn print_publics_of<K: Sink>(
    writer: &mut K,
    text: &mut Vec<u8>,
    rec: &Undecoded<'_>,
) -> Result<(), RunFault>
    ensures passes { Passes (K.seen writer.old).bytes (K.seen writer.new).bytes result (text.old.items ++ public_lines rec.now.contents) (text.new.items) }
    ensures cause { IsPrintCause (K.seen writer.old) (K.seen writer.new) result }
{
    match publics_of(rec) {
        Some(publics) => {
            let group = publics.group.item.0;
            print_items(writer, text, group, publics.segment.item.0, &publics.items)
        }
        None => Ok(()),
    }
}

/// Prints a line for each public name of a module, in file order.
fn print_publics<K: Sink>(
    writer: &mut K,
    text: &mut Vec<u8>,
    checked: &Checked,
) -> Result<(), RunFault>
    ensures passes { Passes (K.seen writer.old).bytes (K.seen writer.new).bytes result (text.old.items ++ flat_map (λ r. public_lines r.contents) (recs_of checked.now.bytes)) (text.new.items) }
    ensures cause { IsPrintCause (K.seen writer.old) (K.seen writer.new) result }
{
    for (_place, rec) in checked.undecoded() {
        print_publics_of(writer, text, &rec)?;
    }
    Ok(())
}

/// Prints the lines of a module: records, segments, groups, externals, publics.
fn print_lines<K: Sink>(
    writer: &mut K,
    text: &mut Vec<u8>,
    checked: &Checked,
) -> Result<(), RunFault>
    ensures passes { Passes (K.seen writer.old).bytes (K.seen writer.new).bytes result (text.old.items ++ list_text (records_in checked.now.bytes)) (text.new.items) }
    ensures cause { IsPrintCause (K.seen writer.old) (K.seen writer.new) result }
{
    print_records(writer, text, checked)?;
    print_segments(writer, text, checked)?;
    print_groups(writer, text, checked)?;
    print_externals(writer, text, checked)?;
    print_publics(writer, text, checked)
}

/// Prints the listing of a module. The text is written in pieces of 64 KB or a line more; no more than that is kept in memory.
///
/// # Errors
///
/// `Write` if the writer failed, `Memory` if memory ran out. A front of the text may then be written.
pub fn print_list<K: Sink>(alloc: Global, checked: &Checked, writer: &mut K) -> Result<(), RunFault>
    ensures prints { PrintsInPieces (K.seen writer.old).bytes (K.seen writer.new).bytes result (list_text (records_in checked.now.bytes)) }
    ensures cause { IsPrintCause (K.seen writer.old) (K.seen writer.new) result }
{
    let mut text = Vec::new(alloc);
    print_lines(writer, &mut text, checked)?;
    write_all(writer, text.as_slice())
}

/// The line of `check`: the numbers of records and bytes of a module.
pub fn check_text(alloc: Global, judged: Judged) -> Result<String, AllocError>
    ensures { (rs : List Raw) → judged.record_count ≡ length rs → judged.size ≡ length (flat_map raw_bytes rs) → IfOk result (λ text. string_bytes text ≡ check_text rs) }
{
    let mut text = String::new(alloc);
    print_totals(&mut text, judged.record_count, judged.size)?;
    Ok(text)
}
