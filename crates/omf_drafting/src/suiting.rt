//! The frames that suit modules: real mode for 16-bit code, a flat frame for 32-bit code.

ghost use Rattle.std.specs.Prelude.{◌≡◌};
ghost use Rattle.std.specs.List.{list_any};
ghost use Rattle.omf_check.specs.Module.{recs_of, typed_modules};
ghost use Rattle.omf_drafting.specs.Suiting.{has_use32, module_options, options_by, options_for, suiting};
ghost use Rattle.omf_records.specs.Values.{is_use32};

use crate::options::AskedOptions;
use omf_check::Checked;
use omf_layout::{Frames, Options};

/// Whether an attribute byte is that of a 32-bit segment.
pub fn is_use32(attribute: u8) -> bool
    ensures { result ≡ is_use32 attribute }
{
    attribute % 2 == 1
}

/// Whether a module has a 32-bit segment.
fn has_use32(module: &Checked) -> bool
    ensures { result ≡ has_use32 (recs_of «module».now.bytes) }
{
    for before in 0..module.segments() {
        let Some(attribute) = module.attribute(before + 1) else {
            unreachable!()
        };
        if is_use32(attribute) {
            return true;
        }
    }
    false
}

/// Whether one of several modules has a 32-bit segment.
fn have_use32(modules: &[Checked]) -> bool
    ensures { result ≡ list_any has_use32 (typed_modules modules.now) }
{
    for module in modules {
        if has_use32(module) {
            return true;
        }
    }
    false
}

/// The frames for modules with or without 32-bit segments.
fn suiting(use32: bool) -> Frames
    ensures { result ≡ suiting use32 }
{
    if use32 {
        Frames::Flat { selector: 0 }
    } else {
        Frames::Real
    }
}

/// The options of a layout: the frames that are asked for, or else those that suit.
fn options_by(use32: bool, asked: AskedOptions) -> Options
    ensures { result ≡ options_by use32 asked }
{
    Options {
        base: asked.base,
        frames: asked.frames.unwrap_or(suiting(use32)),
    }
}

/// The options of a layout for a module. Where no frames are asked for, real mode if the module has no 32-bit segment, else one flat frame with selector 0.
pub fn module_options(module: &Checked, asked: AskedOptions) -> Options
    ensures { result ≡ module_options (recs_of «module».now.bytes) asked }
{
    options_by(has_use32(module), asked)
}

/// The options of a layout for several modules. Where no frames are asked for, real mode if no module has a 32-bit segment, else one flat frame with selector 0.
pub fn options_for(modules: &[Checked], asked: AskedOptions) -> Options
    ensures { result ≡ options_for (typed_modules modules.now) asked }
{
    options_by(have_use32(modules), asked)
}
