//! Segments of code.

ghost use Rattle.std.specs.Prelude.{◌≡◌};
ghost use Rattle.omf_check.specs.Module.{recs_of};
ghost use Rattle.omf_symbols.specs.Classes.{is_code, is_code_segment};

use omf_check::{Checked, SegInfo, is_code_name};

/// Whether a segment of a module is one of code, if there is one.
fn is_code_segment(module: &Checked, segment: Option<SegInfo>) -> bool
    ensures { result ≡ is_code_segment (recs_of «module».now.bytes) segment }
{
    match segment {
        Some(segment) => is_code_name(module.name(segment.class)),
        None => false,
    }
}

/// Whether a segment of a module, by its index from 1, is one of code: the name of its class ends in CODE. Index 0 is no segment.
pub fn is_code(module: &Checked, segment: u16) -> bool
    ensures { result ≡ is_code (recs_of «module».now.bytes) segment }
{
    is_code_segment(module, module.segment(segment))
}
