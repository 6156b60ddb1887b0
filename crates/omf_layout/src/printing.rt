//! Lines of a placement text with comments.

ghost use Rattle.std.specs.Prelude.{◌≡◌, ◌++◌, ◌∷◌, [], string_bytes, codes, decimal, Some, ◌<◌};
ghost use Rattle.omf_frame.specs.Bytes.{AddsText};
ghost use Rattle.omf_placement.specs.Placement.{real_frame};
ghost use Rattle.omf_layout.specs.Draft.{placed_entry, is_same_frame, segment_entry, frame_entry, frame_or_real, alignment_text, room_text};

use crate::alignment::Alignment;
use crate::options::Frames;
use omf_placement::{Frame, Placed};
use std::alloc::AllocError;
use std::fmt::Write;

/// Prints a letter, an address and a frame.
fn print_placed(text: &mut String, letter: char, place: Placed) -> Result<(), AllocError>
    requires { letter < 128 }
    ensures { AddsText result (string_bytes text.old) (string_bytes text.new) (placed_entry (letter ∷ []) place) }
{
    let address = place.address;
    let Frame { base, selector } = place.frame;
    write!(text, "{letter} {address:X} {base:X} {selector:X}")
}

/// Returns whether a segment has the real-mode frame of its address.
fn is_in_paragraph(place: Placed) -> bool
    ensures { result ≡ is_same_frame (real_frame place.address) place.frame }
{
    match Frame::real(place.address) {
        Some(own) => own.base == place.frame.base && own.selector == place.frame.selector,
        None => false,
    }
}

/// Prints a segment's entry.
pub fn print_segment_entry(
    text: &mut String,
    frames: Frames,
    place: Placed,
) -> Result<(), AllocError>
    ensures { AddsText result (string_bytes text.old) (string_bytes text.new) (segment_entry frames place) }
{
    let address = place.address;
    match frames {
        Frames::Real => {
            if is_in_paragraph(place) {
                write!(text, "S {address:X} real")
            } else {
                print_placed(text, 'S', place)
            }
        }
        Frames::Flat { .. } => print_placed(text, 'S', place),
    }
}

/// Prints a group's entry: its frame, or `G real` if its members give it.
pub fn print_group_entry(
    text: &mut String,
    by_members: Option<Frame>,
    frame: Frame,
) -> Result<(), AllocError>
    ensures { AddsText result (string_bytes text.old) (string_bytes text.new) (frame_or_real by_members frame) }
{
    let base = frame.base;
    let selector = frame.selector;
    match by_members {
        Some(_) => text.push_str("G real"),
        None => write!(text, "G {base:X} {selector:X}"),
    }
}

/// Prints an external's entry.
pub fn print_external_entry(text: &mut String, place: Placed) -> Result<(), AllocError>
    ensures { AddsText result (string_bytes text.old) (string_bytes text.new) (placed_entry (codes "E") place) }
{
    print_placed(text, 'E', place)
}

/// Prints the start of a comment: an index and a space.
pub fn print_index(text: &mut String, index: u16) -> Result<(), AllocError>
    ensures { AddsText result (string_bytes text.old) (string_bytes text.new) (codes " ; " ++ decimal index ++ 32 ∷ []) }
{
    write!(text, " ; {index} ")
}

/// Prints a segment's alignment in bytes, or that it is absolute, its length, and the end of the line.
pub fn print_segment_room(
    text: &mut String,
    absolute: Option<(u16, u8)>,
    alignment: Alignment,
    length: u64,
) -> Result<(), AllocError>
    ensures { AddsText result (string_bytes text.old) (string_bytes text.new) (32 ∷ alignment_text absolute alignment ++ codes " length " ++ decimal length ++ 10 ∷ []) }
{
    let align = alignment.bytes();
    match absolute {
        Some(_) => write!(text, " absolute length {length}\n"),
        None => write!(text, " align {align} length {length}\n"),
    }
}

/// Prints a communal's length and the end of the line.
fn print_communal(text: &mut String, size: u64) -> Result<(), AllocError>
    ensures { AddsText result (string_bytes text.old) (string_bytes text.new) (32 ∷ room_text (Some size) ++ 10 ∷ []) }
{
    write!(text, " communal length {size}\n")
}

/// Prints a communal's length, or that another external's place is to be filled in, and the end of the line.
pub fn print_room(text: &mut String, room: Option<u64>) -> Result<(), AllocError>
    ensures { AddsText result (string_bytes text.old) (string_bytes text.new) (32 ∷ room_text room ++ 10 ∷ []) }
{
    match room {
        Some(size) => print_communal(text, size),
        None => text.push_str(" to be filled in\n"),
    }
}
