//! The padding after a module.

ghost use Rattle.std.specs.Prelude.{◌≡◌, ◌<◌, ◌≤◌, length};
ghost use Rattle.omf_dump.specs.Library.{after_module, unpadded, without};

use crate::later::{after_member, front_kind};
use omf_frame::is_header;

/// Bytes without those of this value at their front.
fn without(bytes: &[u8], value: u8) -> &[u8]
    ensures rest { result.now ≡ without value bytes.now }
    ensures within { length result.now ≤ length bytes.now }
{
    let mut left = bytes;
    while let Some((first, rest)) = left.split_first() {
        if *first != value {
            return left;
        }
        left = rest;
    }
    left
}

/// Bytes without the padding at their front: bytes of one value, 00H or 1AH.
fn unpadded(bytes: &[u8]) -> &[u8]
    ensures rest { result.now ≡ unpadded bytes.now }
    ensures within { length result.now ≤ length bytes.now }
{
    match bytes {
        [0x00, ..] => without(bytes, 0x00),
        [0x1A, ..] => without(bytes, 0x1A),
        _ => bytes,
    }
}

/// What follows the module that bytes begin with, and its padding; nothing if they begin with none.
pub(crate) fn after_module(bytes: &[u8]) -> &[u8]
    ensures value { result.now ≡ after_module bytes.now }
    ensures within { length result.now ≤ length bytes.now }
    ensures shorter { 0 < length bytes.now → length result.now < length bytes.now }
{
    if is_header(front_kind(bytes)) {
        unpadded(after_member(bytes))
    } else {
        &[]
    }
}
