//! Lines about files.

ghost use Rattle.std.specs.Prelude.{OnOk, codes, string_bytes};
ghost use Rattle.omf_frame.specs.Bytes.{AddsText};
ghost use Rattle.omf_host.specs.Lines.{AddsFailure, failure_line, title};

use crate::text::put_name;
use std::alloc::AllocError;
use std::io;

/// Appends the line before what is printed of one of several files: `NAME:`.
pub fn put_title(text: &mut String, name: &str) -> Result<(), AllocError>
    ensures { AddsText result (string_bytes text.old) (string_bytes text.new) (title name.now) }
{
    put_name(text, name.as_bytes())?;
    text.push_str(":\n")
}

/// Appends the line of a file for which something failed: `WHAT NAME: REASON`.
pub fn put_failure(
    text: &mut String,
    what: &str,
    name: &str,
    reason: &str,
) -> Result<(), AllocError>
    ensures { AddsText result (string_bytes text.old) (string_bytes text.new) (failure_line what.now name.now reason.now) }
{
    text.push_str(what)?;
    text.push(' ')?;
    put_name(text, name.as_bytes())?;
    text.push_str(": ")?;
    text.push_str(reason)?;
    text.push('\n')
}

/// Appends the line of a file that could not be read: `read NAME: REASON`.
pub fn put_unread(text: &mut String, name: &str, error: &io::Error) -> Result<(), AllocError>
    ensures { OnOk result (AddsFailure (codes "read") name.now (string_bytes text.old) (string_bytes text.new)) }
{
    let reason = format!(in *text.allocator(); "{error}")?;
    put_failure(text, "read", name, reason.as_str())
}

/// Appends the line of a file that could not be written: `write NAME: REASON`.
pub fn put_unwritten(text: &mut String, name: &str, error: &io::Error) -> Result<(), AllocError>
    ensures { OnOk result (AddsFailure (codes "write") name.now (string_bytes text.old) (string_bytes text.new)) }
{
    let reason = format!(in *text.allocator(); "{error}")?;
    put_failure(text, "write", name, reason.as_str())
}
