//! What follows a module of an input.

ghost use Rattle.std.specs.Prelude.{◌≡◌, ◌≤◌, length};
ghost use Rattle.std.specs.List.{list_all};
ghost use Rattle.omf_linking.specs.Reading.{begins_module, is_text_byte, unpadded, without};

/// Returns bytes without those of this value at their front.
fn without(bytes: &[u8], value: u8) -> &[u8]
    ensures rest { result.now ≡ without value bytes.now }
    ensures within { length result.now ≤ length bytes.now }
{
    let mut left = bytes;
    while let Some((first, rest)) = left.split_first() {
        if *first != value {
            return left;
        }
        left = rest;
    }
    left
}

/// Returns bytes without the padding at their front: bytes of one value, 00H or 1AH.
pub(crate) fn unpadded(bytes: &[u8]) -> &[u8]
    ensures rest { result.now ≡ unpadded bytes.now }
    ensures within { length result.now ≤ length bytes.now }
{
    match bytes {
        [0x00, ..] => without(bytes, 0x00),
        [0x1A, ..] => without(bytes, 0x1A),
        _ => bytes,
    }
}

/// Returns whether bytes begin with the type of a THEADR or LHEADR, and so with another module.
pub(crate) fn begins_module(bytes: &[u8]) -> bool
    ensures { result ≡ begins_module bytes.now }
{
    match bytes {
        [kind, ..] => matches!(*kind, 0x80 | 0x82),
        [] => false,
    }
}

/// Returns whether a byte is no control character, or a tab, a line feed or a carriage return.
fn is_text_byte(byte: u8) -> bool
    ensures { result ≡ is_text_byte byte }
{
    byte >= 0x20 || byte == 9 || byte == 10 || byte == 13
}

/// Returns whether bytes are a text: they have no control character but tabs, line feeds and carriage returns.
pub(crate) fn is_text(bytes: &[u8]) -> bool
    ensures { result ≡ list_all is_text_byte bytes.now }
{
    bytes.iter().all(|byte| is_text_byte(*byte))
}
