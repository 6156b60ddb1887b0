//! Lines on a program that is not searched, on one that is packed, and on what is left out; or objects of JSON.

use crate::fields::{Format, close, name, word};
use crate::loading::LoadFault;
use crate::marks::{Other, Packer};
use crate::mz::MzFault;
use omf_host::put_quoted;
use std::alloc::{AllocError, Global};
use std::fmt::Write;

/// Appends what is wrong with an MZ file.
fn put_mz_fault(text: &mut String, fault: MzFault) -> Result<(), AllocError> {
    write!(text, "{fault}")?;
    match fault {
        MzFault::LastPage(bytes) => write!(text, ": {bytes}"),
        MzFault::Short(bytes) => write!(text, ": {bytes}"),
        MzFault::LongHeader(bytes) => write!(text, ": {bytes} bytes"),
        MzFault::Table(end) => write!(text, ": it ends at {end}"),
        MzFault::Word(at) => write!(text, ": {at:08X}"),
        MzFault::Cut | MzFault::Memory => Ok(()),
    }
}

/// Appends what another program is, and what to do.
fn put_other(text: &mut String, other: Other) -> Result<(), AllocError> {
    text.push_str(other.name())?;
    text.push_str(
        " after an MZ stub; write the bytes of a segment to a file and search that with --base",
    )
}

/// Appends why a file is not searched.
fn put_fault(text: &mut String, fault: LoadFault) -> Result<(), AllocError> {
    match fault {
        LoadFault::Mz(fault) => put_mz_fault(text, fault),
        LoadFault::Other(other) => put_other(text, other),
        LoadFault::Unknown => {
            text.push_str("neither an MZ file nor named .com; --base takes it as a raw image")
        }
        LoadFault::LongCom => text.push_str("longer than 65280 bytes, so no .COM file"),
        LoadFault::High => text.push_str("the image passes the last address"),
        LoadFault::Memory => text.push_str("memory ran out"),
    }
}

/// The object of a fault: its kind, the name of the file and the reason.
pub fn fault_object(
    alloc: Global,
    kind: &str,
    file: &str,
    reason: &str,
) -> Result<Vec<u8>, AllocError> {
    let mut text = Vec::new(alloc);
    text.extend_from_slice(b"{\"fault\":\"")?;
    text.extend_from_slice(kind.as_bytes())?;
    text.push(b'"')?;
    name(&mut text, Format::Json, "name", file.as_bytes())?;
    name(&mut text, Format::Json, "error", reason.as_bytes())?;
    close(&mut text, Format::Json)?;
    Ok(text)
}

/// The line of a program that is not searched: `program NAME: REASON`.
fn fault_text(alloc: Global, file: &str, reason: &str) -> Result<Vec<u8>, AllocError> {
    let mut text = String::from_str(alloc, "program ")?;
    put_quoted(&mut text, file.as_bytes())?;
    text.push_str(": ")?;
    text.push_str(reason)?;
    text.push('\n')?;
    Ok(text.into_bytes())
}

/// The line of a program that is not searched, or in JSON the object.
pub fn fault_line(
    alloc: Global,
    format: Format,
    file: &str,
    fault: LoadFault,
) -> Result<Vec<u8>, AllocError> {
    let mut reason = String::new(alloc);
    put_fault(&mut reason, fault)?;
    match format {
        Format::Text => fault_text(alloc, file, reason.as_str()),
        Format::Json => fault_object(alloc, "program", file, reason.as_str()),
    }
}

/// The line of a program that is packed.
fn packed_text(alloc: Global, file: &str, packer: Packer) -> Result<Vec<u8>, AllocError> {
    let mut text = String::from_str(alloc, "program ")?;
    put_quoted(&mut text, file.as_bytes())?;
    text.push_str(" is packed by ")?;
    text.push_str(packer.name())?;
    text.push_str(": unpack it first, or its modules are not found\n")?;
    Ok(text.into_bytes())
}

/// The object of a program that is packed.
fn packed_object(alloc: Global, file: &str, packer: Packer) -> Result<Vec<u8>, AllocError> {
    let mut text = Vec::new(alloc);
    text.extend_from_slice(b"{\"warning\":\"packed\"")?;
    name(&mut text, Format::Json, "name", file.as_bytes())?;
    word(&mut text, Format::Json, "packer", packer.name())?;
    close(&mut text, Format::Json)?;
    Ok(text)
}

/// The line of a program that is packed, or in JSON the object.
pub fn note_line(
    alloc: Global,
    format: Format,
    file: &str,
    packer: Packer,
) -> Result<Vec<u8>, AllocError> {
    match format {
        Format::Text => packed_text(alloc, file, packer),
        Format::Json => packed_object(alloc, file, packer),
    }
}

/// An object for each line on what is left out.
pub fn left_out_objects(alloc: Global, lines: &str) -> Result<Vec<u8>, AllocError> {
    let mut text = Vec::new(alloc);
    for line in lines.lines() {
        text.extend_from_slice(b"{\"fault\":\"left-out\"")?;
        let line = line.strip_prefix("left out: ").unwrap_or(line);
        name(&mut text, Format::Json, "error", line.as_bytes())?;
        close(&mut text, Format::Json)?;
    }
    Ok(text)
}
