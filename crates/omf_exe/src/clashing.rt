//! The lines of COMDATs that are not left out, though an earlier module has one of their name.

ghost use Rattle.std.specs.Prelude.{◌<◌, ◌^◌, flat_map, length, map, string_bytes};
ghost use Rattle.omf_frame.specs.Bytes.{AddsText};
ghost use Rattle.omf_exe.specs.Clashing.{clash_line, clash_lines, comdat_text, kept_text, selection_text};

use omf_check::Checked;
use omf_externals::put_own;
use omf_text::print_quoted;
use omf_trimming::{Clash, clashes};
use std::alloc::{AllocError, Global};
use std::fmt::Write;

/// Appends what a selection that keeps a COMDAT is called.
fn put_selection(text: &mut String, selection: u8) -> Result<(), AllocError>
    ensures { AddsText result (string_bytes text.old) (string_bytes text.new) (selection_text selection) }
{
    match selection {
        0 => text.push_str("no match"),
        2 => text.push_str("same size"),
        3 => text.push_str("exact match"),
        _ => write!(text, "selection {selection}"),
    }
}

/// Appends the name and the module of a COMDAT: `comdat "NAME": M`.
fn put_comdat(text: &mut String, labels: &[String], clash: &Clash<'_>) -> Result<(), AllocError>
    ensures { AddsText result (string_bytes text.old) (string_bytes text.new) (comdat_text (map string_bytes labels.now) clash.now) }
{
    text.push_str("comdat ")?;
    print_quoted(text, clash.name)?;
    text.push_str(": ")?;
    put_own(text, labels, clash.number)
}

/// Appends why a COMDAT is kept, and the end of the line: ` is not left out: same size`.
fn put_kept(text: &mut String, selection: u8) -> Result<(), AllocError>
    ensures { AddsText result (string_bytes text.old) (string_bytes text.new) (kept_text selection) }
{
    text.push_str(" is not left out: ")?;
    put_selection(text, selection)?;
    text.push_str("\n")
}

/// Appends the line of a COMDAT.
fn put_clash(text: &mut String, labels: &[String], clash: &Clash<'_>) -> Result<(), AllocError>
    ensures { AddsText result (string_bytes text.old) (string_bytes text.new) (clash_line (map string_bytes labels.now) clash.now) }
{
    put_comdat(text, labels, clash)?;
    put_kept(text, clash.selection)
}

/// Appends the lines of such COMDATs.
fn put_lines(text: &mut String, labels: &[String], found: &[Clash<'_>]) -> Result<(), AllocError>
    ensures { AddsText result (string_bytes text.old) (string_bytes text.new) (flat_map (clash_line (map string_bytes labels.now)) found.now) }
{
    for clash in found {
        put_clash(text, labels, clash)?;
    }
    Ok(())
}

/// Appends the lines of all such COMDATs of modules, in their order.
pub(crate) fn put_clashes(
    alloc: Global,
    text: &mut String,
    labels: &[String],
    modules: &[Checked],
) -> Result<(), AllocError>
    requires { length modules.now < 2 ^ 32 }
    ensures { AddsText result (string_bytes text.old) (string_bytes text.new) (clash_lines (map string_bytes labels.now) modules.now) }
{
    let found = clashes(alloc, modules)?;
    put_lines(text, labels, &found)
}
