//! The text of an image and its start: each run of covered bytes in lines of up to 16 bytes.

ghost use Rattle.omf_placement.specs.Quoted.{hex};
ghost use Rattle.std.specs.Option.{option_map_or};
ghost use Rattle.std.specs.Prelude.{◌≡◌, ◌+◌, ◌*◌, ◌^◌, ◌≤◌, ◌++◌, flat_map, length, option_map, OnErr, ◌∷◌, [], codes};
ghost use Rattle.omf_frame.specs.Bytes.{AddsText};
ghost use Rattle.omf_image.specs.Inner.Joined.{runs_of};
ghost use Rattle.omf_image.specs.Overlay.{byte_at};
ghost use Rattle.omf_records.specs.Inner.Begins.{Begins};
ghost use Rattle.omf_cmd.specs.Relocated.{image_text, place_text, run_lines};
ghost use Rattle.omf_cmd.specs.Inner.RunLines.{line_text, lines_of, segments_text};
ghost use Rattle.omf_cmd.specs.Runs.{PrintsInPieces, IsPrintCause};
ghost use Rattle.omf_cmd.specs.Inner.Printing.{Passes};

use crate::digits::{eight_digits, four_digits, write_bytes};
use crate::fault::RunFault;
use crate::output::{write_all, write_piece};
use omf_frame::Sink;
use omf_image::Image;
use std::alloc::{AllocError, Global};

/// The most bytes in a line.
const LINE_BYTES: usize = 16;

/// The length of the longest line: 13 bytes of its place, 48 of 16 bytes, and a line feed.
const LINE: usize = 62;

/// Appends a segment and an offset in it, as `0001:00000010`.
#[tactic(auto, using(omf_records::specs::Inner::Begins::begins_itself, omf_records::specs::Inner::Begins::begins_more, omf_records::specs::Inner::Begins::begins_then))]
fn print_place(text: &mut Vec<u8>, segment: u16, offset: u32) -> Result<(), AllocError>
    ensures put { AddsText result text.old.items text.new.items (place_text segment offset) }
    ensures grows { Begins text.old.items text.new.items }
{
    text.extend_from_slice(&four_digits(segment))?;
    text.push(b':')?;
    text.extend_from_slice(&eight_digits(offset))
}

/// Appends the bytes of a line, at most 16, each as a space and two hexadecimal digits. If memory runs out, the text is unchanged.
pub fn print_bytes(text: &mut Vec<u8>, bytes: &[u8]) -> Result<(), AllocError>
    requires { length bytes.now ≤ 16 }
    ensures put { AddsText result text.old.items text.new.items (flat_map (λ b. 32 ∷ hex 2 b) bytes.now) }
    ensures err { OnErr result (text.new.items ≡ text.old.items) }
{
    let mut line = [0; 48];
    let (shown, _rest) = line.split_at_mut(3 * bytes.len());
    write_bytes(shown, bytes);
    text.extend_from_slice(shown)
}

/// Writes a segment and an offset in it over 13 bytes, as `0001:00000010`.
#[inline(always)]
fn write_place(text: &mut [u8], segment: u16, offset: u32)
    requires { length text.old ≡ 13 }
    ensures { text.new ≡ place_text segment offset }
{
    let (number, others) = text.split_at_mut(4);
    let (colon, place) = others.split_at_mut(1);
    number.copy_from_slice(&four_digits(segment));
    colon.copy_from_slice(b":");
    place.copy_from_slice(&eight_digits(offset));
}

/// Writes a line over a text of its length: the place of its first byte, and its bytes.
#[inline(always)]
fn write_line(text: &mut [u8], segment: u16, offset: u32, bytes: &[u8])
    requires { length text.old ≡ 14 + 3 * length bytes.now }
    ensures { text.new ≡ line_text (place_text segment) offset bytes.now }
{
    let (place, others) = text.split_at_mut(13);
    let (shown, end) = others.split_at_mut(3 * bytes.len());
    write_place(place, segment, offset);
    write_bytes(shown, bytes);
    end.copy_from_slice(b"\n");
}

/// Appends a line of any length: the place of its first byte, and its bytes. If memory runs out, the text is unchanged.
#[inline(always)]
fn print_any_line(
    text: &mut Vec<u8>,
    segment: u16,
    offset: u32,
    bytes: &[u8],
) -> Result<(), AllocError>
    requires { length bytes.now ≤ 16 }
    ensures { AddsText result text.old.items text.new.items (line_text (place_text segment) offset bytes.now) }
{
    let mut line = [0; LINE];
    let (shown, _rest) = line.split_at_mut(14 + 3 * bytes.len());
    write_line(shown, segment, offset, bytes);
    text.extend_from_slice(shown)
}

/// Appends a line: the place of its first byte, and its bytes. If memory runs out, the text is unchanged.
#[inline(always)]
fn print_line(text: &mut Vec<u8>, segment: u16, offset: u32, bytes: &[u8]) -> Result<(), AllocError>
    requires { length bytes.now ≤ 16 }
    ensures { AddsText result text.old.items text.new.items (line_text (place_text segment) offset bytes.now) }
{
    if bytes.len() == LINE_BYTES {
        // The compiler makes straight code of it, without a loop.
        return print_any_line(text, segment, offset, &bytes[..LINE_BYTES]);
    }
    print_any_line(text, segment, offset, bytes)
}

/// Prints a run of covered bytes in lines of 16; the last line has what is left.
fn print_run<K: Sink>(
    writer: &mut K,
    text: &mut Vec<u8>,
    segment: u16,
    first: u32,
    bytes: &[u8],
) -> Result<(), RunFault>
    requires { first + length bytes.now ≤ 2 ^ 32 }
    ensures passes { Passes (K.seen writer.old).bytes (K.seen writer.new).bytes result (text.old.items ++ lines_of (place_text segment) first bytes.now) (text.new.items) }
    ensures cause { IsPrintCause (K.seen writer.old) (K.seen writer.new) result }
{
    let mut offset = u64::from(first);
    let mut rest = bytes;
    while !rest.is_empty() {
        let (line, others) = rest.split_at(rest.len().min(LINE_BYTES));
        print_line(text, segment, offset as u32, line)?;
        write_piece(writer, text)?;
        offset += line.len() as u64;
        rest = others;
    }
    Ok(())
}

/// Prints the runs of a segment, in rising order.
fn print_runs<K: Sink>(
    writer: &mut K,
    text: &mut Vec<u8>,
    image: &Image,
    segment: u16,
) -> Result<(), RunFault>
    ensures passes { Passes (K.seen writer.old).bytes (K.seen writer.new).bytes result (text.old.items ++ flat_map (run_lines (place_text segment) (byte_at image.now segment)) (runs_of image.now segment)) (text.new.items) }
    ensures cause { IsPrintCause (K.seen writer.old) (K.seen writer.new) result }
{
    let mut k = 0;
    while let Some((first, bytes)) = image.run_with_bytes(segment, k) {
        print_run(writer, text, segment, first, bytes)?;
        k += 1;
    }
    Ok(())
}

/// Appends the line of a start, as `START 1001:00000012`; nothing if there is none. If memory runs out, the text may end in a front of it.
#[tactic(auto, using(omf_records::specs::Inner::Begins::begins_itself, omf_records::specs::Inner::Begins::begins_more, omf_records::specs::Inner::Begins::begins_then))]
pub fn print_start(text: &mut Vec<u8>, start: Option<(u16, u32)>) -> Result<(), AllocError>
    ensures put { AddsText result text.old.items text.new.items (option_map_or (λ f. codes "START " ++ hex 4 f.0 ++ 58 ∷ hex 8 f.1 ++ 10 ∷ []) start []) }
    ensures grows { Begins text.old.items text.new.items }
{
    let Some((selector, offset)) = start else {
        return Ok(());
    };
    text.extend_from_slice(b"START ")?;
    print_place(text, selector, offset)?;
    text.push(b'\n')?;
    Ok(())
}

/// Prints the runs of the segments 1 to `segments` of an image.
fn print_segments<K: Sink>(
    writer: &mut K,
    text: &mut Vec<u8>,
    image: &Image,
    segments: u16,
) -> Result<(), RunFault>
    ensures passes { Passes (K.seen writer.old).bytes (K.seen writer.new).bytes result (text.old.items ++ segments_text segments (byte_at image.now) (runs_of image.now)) (text.new.items) }
    ensures cause { IsPrintCause (K.seen writer.old) (K.seen writer.new) result }
{
    for before in 0..segments {
        print_runs(writer, text, image, before + 1)?;
    }
    Ok(())
}

/// Prints the runs of the segments 1 to `segments` of an image, and then its start, if it has one. The text is written in pieces of 64 KB or
/// a line more; no more than that is kept in memory.
///
/// # Errors
///
/// `Write` if the writer failed, `Memory` if memory ran out. A front of the text may then be written.
pub fn print_image<K: Sink>(
    alloc: Global,
    writer: &mut K,
    image: &Image,
    segments: u16,
    start: Option<(u16, u32)>,
) -> Result<(), RunFault>
    ensures prints { PrintsInPieces (K.seen writer.old).bytes (K.seen writer.new).bytes result (image_text segments (byte_at image.now) (runs_of image.now) start) }
    ensures cause { IsPrintCause (K.seen writer.old) (K.seen writer.new) result }
{
    let mut text = Vec::new(alloc);
    print_segments(writer, &mut text, image, segments)?;
    print_start(&mut text, start)?;
    write_all(writer, text.as_slice())
}
