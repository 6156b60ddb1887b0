//! Import definitions (TIS OMF 1.1, COMENT, "IMPDEF"): names that a dynamic library has.

ghost use Rattle.std.specs.Prelude.{◌≡◌, option_map};
ghost use Rattle.omf_library.specs.Imports.{counted, imported};

/// The subtype of import definitions.
const IMPORT: u8 = 1;

/// Characters after their number, if all are there.
fn counted<'a>(bytes: &'a [u8]) -> Option<&'a [u8]>
    ensures { option_map (λ n. n.now) result ≡ counted bytes.entry.now }
{
    match bytes {
        [] => None,
        [length, rest @ ..] => {
            let length = usize::from(*length);
            if length <= rest.len() {
                Some(rest.split_at(length).0)
            } else {
                None
            }
        }
    }
}

/// The internal name of an import definition, in the text of a comment of the class A0H; none if the comment is no such definition.
pub fn imported<'a>(text: &'a [u8]) -> Option<&'a [u8]>
    ensures { option_map (λ n. n.now) result ≡ imported text.entry.now }
{
    match text {
        [subtype, _ordinal, rest @ ..] => {
            if *subtype == IMPORT {
                counted(rest)
            } else {
                None
            }
        }
        _ => None,
    }
}
