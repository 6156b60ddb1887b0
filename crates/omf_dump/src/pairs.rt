//! The indices in the text of a WKEXT or an LZEXT.

ghost use Rattle.std.specs.Prelude.{◌≡◌, ◌<◌, ◌≤◌, [], ◌∷◌, IfSome, codes, length, false, true};
ghost use Rattle.omf_frame.specs.Bytes.{AddsText};
ghost use Rattle.omf_dump.specs.Comments.{front_index, pair_item, pair_items, role};
ghost use Rattle.omf_dump.specs.Render.{fields_text, items_text};
ghost use Rattle.omf_placement.specs.Inner.Pairing as pairing;

use crate::field::named;
use crate::format::Format;
use crate::item::{close_item, open_item};
use crate::known::Tables;
use std::alloc::AllocError;

/// The index at the front, and its size in bytes.
pub(crate) fn front_index(bytes: &[u8]) -> Option<(u16, usize)>
    ensures index { result ≡ front_index bytes.now }
    ensures pairing { result ≡ pairing.front_index bytes.now }
    ensures some { IfSome result (λ p. 0 < p.1) }
    ensures fits { IfSome result (λ p. p.1 ≤ length bytes.now) }
{
    match bytes {
        [] => None,
        [first @ 0..128, ..] => Some((u16::from(*first), 1)),
        [_] => None,
        [first, second, ..] => {
            let high = u16::from(*first - 128);
            Some((high * 256 + u16::from(*second), 2))
        }
    }
}

/// An external, or the default that it becomes.
fn put_role(
    text: &mut Vec<u8>,
    format: Format,
    tables: &Tables<'_>,
    is_default: bool,
    index: u16,
) -> Result<(), AllocError>
    ensures { AddsText result text.old.items text.new.items (fields_text format (pair_item tables.now 0 is_default index).fields) }
{
    let name = if is_default { "default" } else { "external" };
    named(text, format, name, tables.external(index))
}

/// The pairs of indices of a WKEXT or an LZEXT.
#[tactic(auto, using(crate::proofs::PairLaws::next_pair, crate::proofs::PairLaws::no_pair))]
pub(crate) fn put_pairs(
    text: &mut Vec<u8>,
    format: Format,
    tables: &Tables<'_>,
    bytes: &[u8],
) -> Result<(), AllocError>
    ensures { AddsText result text.old.items text.new.items (items_text format true (pair_items tables.now 5 false bytes.now)) }
{
    let mut is_first = true;
    let mut is_default = false;
    let mut within: u64 = 5;
    let mut rest = bytes;
    while let Some((index, size)) = front_index(rest) {
        open_item(text, format, is_first, within)?;
        put_role(text, format, tables, is_default, index)?;
        close_item(text, format)?;
        is_first = false;
        is_default = !is_default;
        within += size as u64;
        rest = rest.split_at(size).1;
    }
    Ok(())
}
