//! Lines of faults of modules, by the names of files, modules, segments, groups and externals.

ghost use Rattle.std.specs.Prelude.{◌≡◌, ◌++◌, ◌∷◌, [], IfOk, codes, map, string_bytes};
ghost use Rattle.omf_check.specs.Module.{typed_modules};
ghost use Rattle.omf_frame.specs.Bytes.{AddsText};
ghost use Rattle.omf_placement.specs.Quoted.{hex};
ghost use Rattle.omf_cmd.specs.FaultLine.{cause_name, fault_line as run_line};
ghost use Rattle.omf_cmd.specs.declared.fault.RunFault.TheVariants.{Reach};
ghost use Rattle.omf_reloc.specs.declared.fault.Kind.TheVariants.{Group};
ghost use Rattle.omf_externals.specs.Unresolved.{label_of};
ghost use Rattle.omf_lines.specs.Named.{IsReachLine, after_space, beyond_line, entry_text, far_line, high_line, in_text, missing_front, missing_text, name_at, outside_front, outside_line, overlap_line, owner_text, segment_text, spot_text, starts_line, target_text, to_text};
ghost use Rattle.omf_lines.specs.Strays.{AddsNear, near_line};

use crate::spot::{Spot, Target, public_of, spot_of, target_at};
use omf_check::Checked;
use omf_cmd::{RunFault, fault_line};
use omf_externals::{print_digits, put_own};
use omf_frame::{Name, Place};
use omf_linking::locator::entry_name;
use omf_linking::space::Owner;
use omf_output::near::Stray;
use omf_reloc::{Cause, Kind, ReachFault};
use omf_text::print_quoted;
use std::alloc::{AllocError, Global};
use std::fmt::Write;

/// Modules, and what each is called.
#[derive(Clone, Copy)]
pub struct Labeled<'a> {
    /// What each module is called. A module without a label is called `module` and its number from 1.
    pub labels: &'a [String],
    /// The modules.
    pub modules: &'a [Checked],
}

/// The name of an entry of a module's table, by the number of the module from 0 and the index of the entry from 1; none if it has none.
pub fn name_at<'a>(modules: &'a [Checked], module: u32, kind: Kind, index: u16) -> Option<Name<'a>>
    ensures { result ≡ name_at (typed_modules modules.now) «module» kind index }
{
    let Some(module) = modules.get(module as usize) else {
        return None;
    };
    entry_name(module, kind, index)
}

/// Appends a name after a space; nothing for none.
fn put_after(text: &mut String, name: Option<Name<'_>>) -> Result<(), AllocError>
    ensures { AddsText result (string_bytes text.old) (string_bytes text.new) (after_space name.entry) }
{
    match name {
        Some(name) => {
            text.push_str(" ")?;
            print_quoted(text, name.0)
        }
        None => Ok(()),
    }
}

/// Appends a segment of a module: its name, or its index if it has none.
pub fn put_segment(
    text: &mut String,
    modules: &[Checked],
    module: u32,
    segment: u16,
) -> Result<(), AllocError>
    ensures { AddsText result (string_bytes text.old) (string_bytes text.new) (segment_text (typed_modules modules.now) «module» segment) }
{
    text.push_str(" segment ")?;
    match name_at(modules, module, Kind::Segment, segment) {
        Some(name) => print_quoted(text, name.0),
        None => write!(text, "{segment}"),
    }
}

/// Appends where a part of a module is: the segment and the offset of its data, or the number of its record.
fn put_spot(
    text: &mut String,
    modules: &[Checked],
    module: u32,
    spot: Option<Spot>,
    number: u32,
) -> Result<(), AllocError>
    ensures { AddsText result (string_bytes text.old) (string_bytes text.new) (spot_text (typed_modules modules.now) «module» spot number) }
{
    match spot {
        Some(spot) => {
            put_segment(text, modules, module, spot.segment)?;
            text.push_str(" offset")?;
            print_digits(text, spot.offset)
        }
        None => write!(text, " record {number}"),
    }
}

/// Appends a module, and a segment of it.
pub fn put_owner(text: &mut String, named: Labeled<'_>, owner: Owner) -> Result<(), AllocError>
    ensures { AddsText result (string_bytes text.old) (string_bytes text.new) (owner_text (map string_bytes named.entry.labels.now) (typed_modules named.entry.modules.now) owner) }
{
    put_own(text, named.labels, owner.module)?;
    put_segment(text, named.modules, owner.module, owner.segment)
}

/// Appends an address: ` at` and eight hexadecimal digits, and the end of the line.
fn put_address(text: &mut String, address: u32) -> Result<(), AllocError>
    ensures { AddsText result (string_bytes text.old) (string_bytes text.new) (codes " at " ++ hex 8 address ++ 10 ∷ []) }
{
    text.push_str(" at")?;
    print_digits(text, u64::from(address))?;
    text.push_str("\n")
}

/// Appends where a part of a module of the program is, and what is wrong with it.
pub fn put_part(
    text: &mut String,
    named: Labeled<'_>,
    module: u32,
    place: Place,
    what: &str,
) -> Result<(), AllocError> {
    let spot = match named.modules.get(module as usize) {
        Some(module) => spot_of(module, place),
        None => None,
    };
    put_own(text, named.labels, module)?;
    put_spot(text, named.modules, module, spot, place.number)?;
    text.push_str(what)
}

/// Where a reference is, and what it is to.
#[derive(Drop)]
struct Aim {
    /// Where its data is; none for a start.
    spot: Option<Spot>,
    /// What it is to.
    to: Option<Target>,
    /// The segment of the public that its external is at, if there is one.
    into: Option<Owner>,
}

/// The reference at a place of a module.
fn aim_at(modules: &[Checked], number: u32, place: Place) -> Aim {
    match modules.get(number as usize) {
        Some(module) => Aim {
            spot: spot_of(module, place),
            to: target_at(module, place),
            into: public_of(modules, number, place),
        },
        None => Aim {
            spot: None,
            to: None,
            into: None,
        },
    }
}

/// Appends a group of a module: its name, or its index if it has none.
fn put_group(
    text: &mut String,
    modules: &[Checked],
    module: u32,
    group: u16,
) -> Result<(), AllocError>
    ensures { AddsText result (string_bytes text.old) (string_bytes text.new) (entry_text (typed_modules modules.now) «module» Group group) }
{
    text.push_str(" group ")?;
    match name_at(modules, module, Kind::Group, group) {
        Some(name) => print_quoted(text, name.0),
        None => write!(text, "{group}"),
    }
}

/// Appends an entry of a module that a reference is to: an external by its name; a segment or a group by its name, or its index if it has none.
fn put_entry(
    text: &mut String,
    modules: &[Checked],
    module: u32,
    to: Target,
) -> Result<(), AllocError>
    ensures { AddsText result (string_bytes text.old) (string_bytes text.new) (entry_text (typed_modules modules.now) «module» to.kind to.index) }
{
    match to.kind {
        Kind::External => put_after(text, name_at(modules, module, Kind::External, to.index)),
        Kind::Segment => put_segment(text, modules, module, to.index),
        Kind::Group => put_group(text, modules, module, to.index),
    }
}

/// Appends the segment of the public that an external is at; nothing for none.
fn put_into(text: &mut String, modules: &[Checked], into: Option<Owner>) -> Result<(), AllocError>
    ensures { AddsText result (string_bytes text.old) (string_bytes text.new) (in_text (typed_modules modules.now) into) }
{
    match into {
        Some(owner) => {
            text.push_str(" in")?;
            put_segment(text, modules, owner.module, owner.segment)
        }
        None => Ok(()),
    }
}

/// Appends what a reference of a module is to; nothing for none.
fn put_to(
    text: &mut String,
    modules: &[Checked],
    module: u32,
    to: Option<Target>,
) -> Result<(), AllocError>
    ensures { AddsText result (string_bytes text.old) (string_bytes text.new) (to_text (typed_modules modules.now) «module» to) }
{
    match to {
        Some(to) => put_entry(text, modules, module, to),
        None => Ok(()),
    }
}

/// Appends where a near reference into another frame is.
fn put_near_spot(
    text: &mut String,
    named: Labeled<'_>,
    stray: Stray,
    spot: Option<Spot>,
) -> Result<(), AllocError>
    ensures { AddsText result (string_bytes text.old) (string_bytes text.new) (codes "near: " ++ label_of (map string_bytes named.entry.labels.now) stray.«module» ++ spot_text (typed_modules named.entry.modules.now) stray.«module» spot stray.place.number ++ codes ":") }
{
    text.push_str("near: ")?;
    put_own(text, named.labels, stray.module)?;
    put_spot(text, named.modules, stray.module, spot, stray.place.number)?;
    text.push_str(":")
}

/// Appends what a reference of a module is to, and the segment of the public that its external is at.
fn put_target(
    text: &mut String,
    modules: &[Checked],
    module: u32,
    to: Option<Target>,
    into: Option<Owner>,
) -> Result<(), AllocError>
    ensures { AddsText result (string_bytes text.old) (string_bytes text.new) (target_text (typed_modules modules.now) «module» to into) }
{
    put_to(text, modules, module, to)?;
    put_into(text, modules, into)
}

/// Appends what a near reference into another frame is to.
fn put_near_target(
    text: &mut String,
    modules: &[Checked],
    module: u32,
    to: Option<Target>,
    into: Option<Owner>,
) -> Result<(), AllocError>
    ensures { AddsText result (string_bytes text.old) (string_bytes text.new) (target_text (typed_modules modules.now) «module» to into ++ codes " is in another frame" ++ 10 ∷ []) }
{
    put_target(text, modules, module, to, into)?;
    text.push_str(" is in another frame")?;
    text.push_str("\n")
}

/// Appends the line of this near reference into another frame.
fn put_near(text: &mut String, named: Labeled<'_>, stray: Stray, aim: Aim) -> Result<(), AllocError>
    ensures { AddsText result (string_bytes text.old) (string_bytes text.new) (near_line (map string_bytes named.entry.labels.now) (typed_modules named.entry.modules.now) stray.«module» stray.place.number aim) }
{
    let Aim { spot, to, into } = aim;
    put_near_spot(text, named, stray, spot)?;
    put_near_target(text, named.modules, stray.module, to, into)
}

/// Appends the line of a near reference into another frame.
pub fn put_stray(text: &mut String, named: Labeled<'_>, stray: Stray) -> Result<(), AllocError>
    ensures { AddsNear result (map string_bytes named.entry.labels.now) (typed_modules named.entry.modules.now) stray (string_bytes text.old) (string_bytes text.new) }
{
    put_near(
        text,
        named,
        stray,
        aim_at(named.modules, stray.module, stray.place),
    )
}

/// The line of an external whose address is too high.
pub fn high_line(
    alloc: Global,
    named: Labeled<'_>,
    module: u32,
    external: u16,
) -> Result<String, AllocError>
    ensures { IfOk result (λ line. string_bytes line ≡ high_line (map string_bytes named.entry.labels.now) (typed_modules named.entry.modules.now) «module» external) }
{
    let mut line = String::new(alloc);
    put_own(&mut line, named.labels, module)?;
    write!(line, " external {external} TooHigh")?;
    put_after(
        &mut line,
        name_at(named.modules, module, Kind::External, external),
    )?;
    line.push_str("\n")?;
    Ok(line)
}

/// What a module lacks: the front of the words.
fn missing_front(kind: Kind) -> &'static str
    ensures { result.now ≡ missing_front kind }
{
    match kind {
        Kind::Segment => ": no line for segment ",
        Kind::Group => ": no frame for group ",
        Kind::External => ": no place for external ",
    }
}

/// The line of a module that lacks the place of an entry.
fn missing_line(
    alloc: Global,
    named: Labeled<'_>,
    module: u32,
    kind: Kind,
    index: u16,
) -> Result<String, AllocError>
    ensures { IfOk result (λ line. string_bytes line ≡ label_of (map string_bytes named.entry.labels.now) «module» ++ missing_text (typed_modules named.entry.modules.now) «module» kind index ++ 10 ∷ []) }
{
    let mut line = String::new(alloc);
    put_own(&mut line, named.labels, module)?;
    line.push_str(missing_front(kind))?;
    write!(line, "{index}")?;
    put_after(&mut line, name_at(named.modules, module, kind, index))?;
    line.push_str("\n")?;
    Ok(line)
}

/// The line of a fault of a module's placement in the words of `omf`.
fn plain_line(
    alloc: Global,
    named: Labeled<'_>,
    module: u32,
    fault: ReachFault,
) -> Result<String, AllocError>
    ensures { IfOk result (λ line. string_bytes line ≡ label_of (map string_bytes named.entry.labels.now) «module» ++ (32 ∷ run_line (Reach fault)) ++ 10 ∷ []) }
{
    let words = fault_line(alloc, &RunFault::Reach(fault))?;
    let mut line = String::new(alloc);
    put_own(&mut line, named.labels, module)?;
    line.push_str(" ")?;
    line.push_str(words.as_str())?;
    line.push_str("\n")?;
    Ok(line)
}

/// The name of why a reference does not fit its location.
fn cause_name(cause: Cause) -> &'static str
    ensures { result.now ≡ cause_name cause }
{
    match cause {
        Cause::Target => "Target",
        Cause::Location => "Location",
        Cause::Distance => "Distance",
    }
}

/// Appends where a reference that does not fit its location is, and why it does not.
fn put_far(
    text: &mut String,
    named: Labeled<'_>,
    module: u32,
    far: Far,
    spot: Option<Spot>,
) -> Result<(), AllocError>
    ensures { AddsText result (string_bytes text.old) (string_bytes text.new) (label_of (map string_bytes named.entry.labels.now) «module» ++ spot_text (typed_modules named.entry.modules.now) «module» spot far.number ++ codes ": TooFar " ++ cause_name far.cause) }
{
    put_own(text, named.labels, module)?;
    put_spot(text, named.modules, module, spot, far.number)?;
    text.push_str(": TooFar ")?;
    text.push_str(cause_name(far.cause))
}

/// The record, from 0, of a reference that does not fit its location, and why it does not.
#[derive(Clone, Copy)]
struct Far {
    number: u32,
    cause: Cause,
}

/// The line of a reference that does not fit its location.
fn far_line(
    alloc: Global,
    named: Labeled<'_>,
    module: u32,
    far: Far,
    aim: Aim,
) -> Result<String, AllocError>
    ensures { IfOk result (λ line. string_bytes line ≡ far_line (map string_bytes named.entry.labels.now) (typed_modules named.entry.modules.now) «module» far.number far.cause aim) }
{
    let Aim { spot, to, into } = aim;
    let mut line = String::new(alloc);
    put_far(&mut line, named, module, far, spot)?;
    put_target(&mut line, named.modules, module, to, into)?;
    line.push_str("\n")?;
    Ok(line)
}

/// The line of a fault of a module's placement.
pub fn reach_line(
    alloc: Global,
    named: Labeled<'_>,
    module: u32,
    fault: ReachFault,
) -> Result<String, AllocError>
    ensures { IfOk result (λ line. IsReachLine (map string_bytes named.entry.labels.now) (typed_modules named.entry.modules.now) «module» fault (string_bytes line)) }
{
    match fault {
        ReachFault::Missing(kind, index) => missing_line(alloc, named, module, kind, index),
        ReachFault::Extra(..) => plain_line(alloc, named, module, fault),
        ReachFault::Absolute(_) => plain_line(alloc, named, module, fault),
        ReachFault::TooFar {
            number,
            within,
            cause,
        } => {
            let place = Place {
                number,
                start: 0,
                within,
            };
            let aim = aim_at(named.modules, module, place);
            far_line(alloc, named, module, Far { number, cause }, aim)
        }
    }
}

/// The line of two modules with a start address.
pub fn starts_line(
    alloc: Global,
    labels: &[String],
    first: u32,
    second: u32,
) -> Result<String, AllocError>
    ensures { IfOk result (λ line. string_bytes line ≡ starts_line (map string_bytes labels.now) first second) }
{
    let mut line = String::new(alloc);
    line.push_str("two starts: ")?;
    put_own(&mut line, labels, first)?;
    line.push_str(" and ")?;
    put_own(&mut line, labels, second)?;
    line.push_str("\n")?;
    Ok(line)
}

/// The line of a segment with a byte beyond the last address.
pub fn beyond_line(alloc: Global, named: Labeled<'_>, owner: Owner) -> Result<String, AllocError>
    ensures { IfOk result (λ line. string_bytes line ≡ beyond_line (map string_bytes named.entry.labels.now) (typed_modules named.entry.modules.now) owner) }
{
    let mut line = String::new(alloc);
    put_owner(&mut line, named, owner)?;
    line.push_str(": beyond the last address")?;
    line.push_str("\n")?;
    Ok(line)
}

/// The line of two segments with a byte at one address.
pub fn overlap_line(
    alloc: Global,
    named: Labeled<'_>,
    address: u32,
    first: Owner,
    second: Owner,
) -> Result<String, AllocError>
    ensures { IfOk result (λ line. string_bytes line ≡ overlap_line (map string_bytes named.entry.labels.now) (typed_modules named.entry.modules.now) address first second) }
{
    let mut line = String::new(alloc);
    put_owner(&mut line, named, first)?;
    line.push_str(" overlaps ")?;
    put_owner(&mut line, named, second)?;
    put_address(&mut line, address)?;
    Ok(line)
}

/// Appends a segment before what is wrong with it; nothing for none.
fn put_outside(
    text: &mut String,
    named: Labeled<'_>,
    owner: Option<Owner>,
) -> Result<(), AllocError>
    ensures { AddsText result (string_bytes text.old) (string_bytes text.new) (outside_front (map string_bytes named.entry.labels.now) (typed_modules named.entry.modules.now) owner) }
{
    match owner {
        Some(owner) => {
            put_owner(text, named, owner)?;
            text.push_str(": ")
        }
        None => Ok(()),
    }
}

/// The line of a byte at an address that a form does not have, and of its segment.
pub fn outside_line(
    alloc: Global,
    named: Labeled<'_>,
    address: u32,
    owner: Option<Owner>,
) -> Result<String, AllocError>
    ensures { IfOk result (λ line. string_bytes line ≡ outside_line (map string_bytes named.entry.labels.now) (typed_modules named.entry.modules.now) address owner) }
{
    let mut line = String::new(alloc);
    put_outside(&mut line, named, owner)?;
    line.push_str("outside the range")?;
    put_address(&mut line, address)?;
    Ok(line)
}
