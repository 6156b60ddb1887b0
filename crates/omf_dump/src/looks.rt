//! What a file that is no module looks like.

ghost use Rattle.std.specs.Prelude.{◌≡◌, option_map};
ghost use Rattle.std.specs.List.{list_all};
ghost use Rattle.omf_dump.specs.Looks.{is_foreign, is_of_text, is_zero, begins, looks_like, marked, unmarked};

use crate::part::first;
use omf_frame::is_header;

/// The number of first bytes that are looked at in a file without a mark.
const LOOKED_AT: usize = 64;

/// Whether a byte is printable ASCII, a tab, a line feed or a carriage return.
fn is_of_text(byte: u8) -> bool
    ensures { result ≡ is_of_text byte }
{
    byte >= 0x20 && byte <= 0x7E || byte == 9 || byte == 10 || byte == 13
}

/// Whether all bytes are 0.
fn are_zeros(bytes: &[u8]) -> bool
    ensures { result ≡ list_all is_zero bytes.now }
{
    bytes.iter().all(|byte| *byte == 0)
}

/// Whether all bytes are text.
fn are_text(bytes: &[u8]) -> bool
    ensures { result ≡ list_all is_of_text bytes.now }
{
    bytes.iter().all(|byte| is_of_text(*byte))
}

/// What the first bytes of a file without a mark look like.
fn unmarked(bytes: &[u8]) -> &'static str
    ensures { result.now ≡ unmarked bytes.now }
{
    if are_zeros(bytes) {
        "zeros"
    } else if are_text(bytes) {
        "text"
    } else {
        "no format known here"
    }
}

/// Whether bytes begin with a mark.
fn begins(bytes: &[u8], mark: &[u8]) -> bool
    ensures { result ≡ begins bytes.now mark.now }
{
    bytes.starts_with(mark)
}

/// What a file with bytes looks like by its mark.
fn marked(input: &[u8]) -> Option<&'static str>
    ensures { option_map (λ t. t.now) result ≡ marked input.now }
{
    if begins(input, b"\xF0") {
        Some("an OMF library")
    } else if begins(input, b"\x7FELF") {
        Some("an ELF file")
    } else if begins(input, b"MZ") {
        Some("a program (MZ)")
    } else if begins(input, b"L\x01") {
        Some("a COFF object")
    } else if begins(input, b"d\x86") {
        Some("a COFF object")
    } else if begins(input, b"!<arch>") {
        Some("an archive")
    } else {
        None
    }
}

/// What a file looks like by its first bytes.
pub(crate) fn looks_like(input: &[u8]) -> &'static str
    ensures { result.now ≡ looks_like input.now }
{
    if input.is_empty() {
        return "an empty file";
    }
    match marked(input) {
        Some(look) => look,
        None => unmarked(first(LOOKED_AT, input)),
    }
}

/// Whether the record with this number is the first, and of a type that begins no module.
pub(crate) fn is_foreign(number: u32, bytes: &[u8]) -> bool
    ensures { result ≡ is_foreign number bytes.now }
{
    match bytes {
        [] => number == 0,
        [kind, ..] => number == 0 && !is_header(*kind),
    }
}
