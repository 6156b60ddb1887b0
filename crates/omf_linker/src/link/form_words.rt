//! The options of the tasks that write files for chips.

ghost use Rattle.std.specs.Prelude.{◌≡◌, codes, false, option_and_then, option_map, true, IfOk, IfSome, Some};
ghost use Rattle.std.specs.Str.{bytes_eq};
ghost use Rattle.clap.specs.Words.{app_of, first_of, found_of, rows_of};
ghost use Rattle.omf_linker.specs.Link.FormWords.{IsFormNamed, address_named, addresses_id, chip_in, chip_named, fill_named, hex_named, size_named, width_named, with_addresses, with_chip};
ghost use Rattle.omf_output.specs.declared.rom.form.Chip.{Chip as Asked};
ghost use Rattle.omf_output.specs.declared.rom.form.Form.TheVariants.{Binary, Hex, SRecords};
ghost use Rattle.omf_output.specs.declared.rom.hex.HexBase.{HexBase as Base};
ghost use Rattle.omf_output.specs.declared.rom.srec.SAddress.{SAddress as Width};

use clap::{ArgMatches, Command};
use omf_drafting::options::valued;
use omf_host::{number, size};
use omf_output::rom::{Chip, Form, HexBase, SAddress};
use std::alloc::{AllocError, Global};

/// The default fill: the byte of an erased chip.
const ERASED: u8 = 0xFF;

/// Adds the options of `bin`: `--base`, `--size` and `--fill`, each with a hexadecimal number.
///
/// # Errors
///
/// `AllocError` if memory runs out.
pub fn with_chip<'a>(alloc: Global, command: Command<'a>) -> Result<Command<'a>, AllocError>
    ensures { IfOk result (λ c. app_of c ≡ with_chip (app_of command.entry)) }
{
    command
        .arg(valued(alloc, "base"))?
        .arg(valued(alloc, "size"))?
        .arg(valued(alloc, "fill"))
}

/// Adds the option of `hex` and `srec`: `--addresses` with their kind.
///
/// # Errors
///
/// `AllocError` if memory runs out.
pub fn with_addresses<'a>(alloc: Global, command: Command<'a>) -> Result<Command<'a>, AllocError>
    ensures { IfOk result (λ c. app_of c ≡ with_addresses (app_of command.entry)) }
{
    command.arg(valued(alloc, "addresses"))
}

/// A base: 1 to 8 hexadecimal digits, alone, after `0x` or before an H.
fn address_named(word: Option<&str>) -> Option<u32>
    ensures { result ≡ address_named (option_map (λ w. w.now) word.entry) }
{
    match word {
        Some(word) => number(word.as_bytes(), 8),
        None => None,
    }
}

/// A size: as a base, or a decimal number of kilobytes before a K.
fn size_named(word: Option<&str>) -> Option<u32>
    ensures { result ≡ size_named (option_map (λ w. w.now) word.entry) }
{
    match word {
        Some(word) => size(word.as_bytes()),
        None => None,
    }
}

/// A fill: 1 or 2 hexadecimal digits, FFH by default.
fn fill_named(word: Option<&str>) -> Option<u8>
    ensures { result ≡ fill_named (option_map (λ w. w.now) word.entry) }
{
    match word {
        Some(word) => Some(number(word.as_bytes(), 2)? as u8),
        None => Some(ERASED),
    }
}

/// Builds a chip, if its parts were read.
fn chip(base: Option<u32>, size: Option<u32>, fill: Option<u8>) -> Option<Chip>
    ensures { result ≡ option_and_then (λ b. option_and_then (λ s. option_map (λ f. record { base = b; size = s; fill = f }) fill) size) base }
{
    let base = base?;
    let size = size?;
    let fill = fill?;
    Some(Chip { base, size, fill })
}

/// The chip that the options of `bin` give.
fn chip_in(matches: &ArgMatches<'_>) -> Option<Chip>
    ensures { result ≡ chip_in (rows_of (found_of matches.now)) }
{
    let base = address_named(matches.get_str("base"));
    let size = size_named(matches.get_str("size"));
    let fill = fill_named(matches.get_str("fill"));
    chip(base, size, fill)
}

/// How Intel HEX gives addresses above 64 KB.
fn hex_named(word: Option<&str>) -> Option<HexBase>
    ensures { result ≡ hex_named (option_map (λ w. w.now) word.entry) }
{
    match word {
        None => Some(HexBase::Linear),
        Some("linear") => Some(HexBase::Linear),
        Some("segment") => Some(HexBase::Segment),
        Some(_) => None,
    }
}

/// The bits of the addresses of S-records.
fn width_named(word: Option<&str>) -> Option<SAddress>
    ensures { result ≡ width_named (option_map (λ w. w.now) word.entry) }
{
    match word {
        None => Some(SAddress::Bits32),
        Some("16") => Some(SAddress::Bits16),
        Some("24") => Some(SAddress::Bits24),
        Some("32") => Some(SAddress::Bits32),
        Some(_) => None,
    }
}

/// How Intel HEX gives addresses above 64 KB, by the option of `hex`.
fn base_in(matches: &ArgMatches<'_>) -> Option<HexBase>
    ensures { result ≡ hex_named (first_of addresses_id (rows_of (found_of matches.now))) }
{
    hex_named(matches.get_str("addresses"))
}

/// The bits of the addresses of S-records, by the option of `srec`.
fn width_in(matches: &ArgMatches<'_>) -> Option<SAddress>
    ensures { result ≡ width_named (first_of addresses_id (rows_of (found_of matches.now))) }
{
    width_named(matches.get_str("addresses"))
}

/// The form that a subcommand and what was parsed after it give.
pub fn form_named(name: &str, inner: &ArgMatches<'_>) -> Option<Form>
    ensures bin { (chip : Asked) → bytes_eq name.now (codes "bin") ≡ true → chip_in (rows_of (found_of inner.now)) ≡ Some chip → result ≡ Some (Binary chip) }
    ensures hex { (base : Base) → bytes_eq name.now (codes "bin") ≡ false → bytes_eq name.now (codes "hex") ≡ true → hex_named (first_of addresses_id (rows_of (found_of inner.now))) ≡ Some base → result ≡ Some (Hex base) }
    ensures srec { (width : Width) → bytes_eq name.now (codes "bin") ≡ false → bytes_eq name.now (codes "hex") ≡ false → bytes_eq name.now (codes "srec") ≡ true → width_named (first_of addresses_id (rows_of (found_of inner.now))) ≡ Some width → result ≡ Some (SRecords width) }
    ensures only { IfSome result (IsFormNamed name.now (rows_of (found_of inner.now))) }
{
    match name {
        "bin" => Some(Form::Binary(chip_in(inner)?)),
        "hex" => Some(Form::Hex(base_in(inner)?)),
        "srec" => Some(Form::SRecords(width_in(inner)?)),
        _ => None,
    }
}
