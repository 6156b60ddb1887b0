//! The encoding of fixups and starts without threads (TIS OMF 1.1, "FIXUPP", frame and target methods).

ghost use Rattle.std.specs.Prelude.{◌≡◌, ◌++◌, OnOk, IfSome, option_map};
ghost use Rattle.omf_records.specs.Inner.Direct.{is_direct};
ghost use Rattle.omf_records.specs.Values.{Fixup, nowhere};
ghost use Rattle.omf_reloc.specs.Inner.Pieces.{IsSet};
ghost use Rattle.omf_reloc.specs.Inner.Walking.{plain_by, plain_fixup_by};
ghost use Rattle.omf_canon.specs.Inner.Names.{start_bytes, end_byte, unthreaded_fixup};
ghost use Rattle.omf_canon.specs.Unthreaded.{code_of, frame_index, unthreaded};

use omf_check::Threads;
use omf_frame::Index;
use omf_records::{At, FixByte, FrameCode, Locat, Reference, put_reference};
use omf_reloc::{FrameMethod, PlainReference, plain_reference};
use std::alloc::AllocError;

/// The code of a frame's method.
#[inline(always)]
fn code_of(frame: &FrameMethod) -> FrameCode
    ensures { result ≡ code_of frame.now }
{
    match frame {
        FrameMethod::Of(entry) => FrameCode::Of(entry.kind),
        FrameMethod::Location => FrameCode::Location,
        FrameMethod::Target => FrameCode::Target,
    }
}

/// An index without an offset in a record.
#[inline(always)]
fn nowhere(index: Index) -> At<Index>
    ensures { result ≡ nowhere index }
{
    At {
        within: 0,
        item: index,
    }
}

/// The index of a frame whose method has one.
#[inline(always)]
fn frame_index(frame: &FrameMethod) -> Option<At<Index>>
    ensures { result ≡ frame_index frame.now }
{
    match frame {
        FrameMethod::Of(entry) => Some(nowhere(entry.index)),
        FrameMethod::Location => None,
        FrameMethod::Target => None,
    }
}

/// A resolved reference written without threads. If `is_short`, it has no displacement.
#[inline(always)]
fn unthreaded(plain: &PlainReference, is_short: bool) -> Reference
    ensures { result ≡ unthreaded is_short plain.now }
{
    Reference {
        fix: At {
            within: 0,
            item: FixByte::of(code_of(&plain.frame), plain.target.kind, !is_short),
        },
        frame: frame_index(&plain.frame),
        target: Some(nowhere(plain.target.index)),
        displacement: if is_short {
            None
        } else {
            Some(plain.displacement)
        },
    }
}

/// The reference of a fixup, written without threads. It has no displacement exactly if the displacement is 0.
#[inline(always)]
pub(crate) fn unthreaded_fixup(
    threads: &Threads,
    location: Locat,
    reference: &Reference,
) -> Reference
    requires { IsSet threads.now reference.now }
    ensures { Fixup location result ≡ unthreaded_fixup (plain_fixup_by threads.now location reference.now) }
{
    let plain = plain_reference(threads, reference);
    unthreaded(&plain, plain.displacement == 0)
}

/// Whether a reference is in that form already: it names no thread, and has no displacement of 0.
#[inline(always)]
pub(crate) fn is_direct(reference: &Reference) -> bool
    ensures { result ≡ is_direct reference.now }
{
    let fix = reference.fix.item.byte();
    let is_zero = match reference.displacement {
        Some(displacement) => displacement == 0,
        None => false,
    };
    fix / 128 % 2 != 1 && fix / 8 % 2 != 1 && !is_zero
}

/// MODEND's module type byte, normalized: bits 7 and 6 are kept, bit 0 is a copy of bit 6, and the ignored bits are 0.
pub(crate) fn end_byte(type_byte: u8) -> u8
    ensures { result ≡ end_byte type_byte }
{
    let has_start = type_byte / 64 % 2;
    128 * (type_byte / 128) + 64 * has_start + has_start
}

/// Appends the start of a MODEND of this type, if there is one. It always has its displacement.
pub(crate) fn put_start(
    out: &mut Vec<u8>,
    kind: u8,
    threads: &Threads,
    start: &Option<Reference>,
) -> Result<(), AllocError>
    requires { IfSome start.now (IsSet threads.now) }
    ensures { OnOk result (out.new.items ≡ out.old.items ++ start_bytes kind (option_map (plain_by threads.now) start.now)) }
{
    match start {
        Some(reference) => {
            let plain = plain_reference(threads, reference);
            put_reference(out, kind, &unthreaded(&plain, false))
        }
        None => Ok(()),
    }
}
