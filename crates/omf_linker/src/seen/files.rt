//! A task of `omf-link` over files or an input, with a look at what the link text does unseen.

ghost use Rattle.std.specs.Prelude.{◌≡◌, ◌∷◌, ◌<◌, ◌^◌, [], IfOk, IfSome, OnOk, filter, length, map, option_map, string_bytes};
ghost use Rattle.omf_check.specs.Module.{typed_modules};
ghost use Rattle.omf_records.specs.Inner.Seen.{map_ok};
ghost use Rattle.omf_linker.specs.Link.Files.{AreFilesShown, IsShownAs};
ghost use Rattle.omf_linker.specs.Link.Shown.{AreShown, IsShownOf};
ghost use Rattle.omf_warnings.specs.Lines.{HasLines};
ghost use Rattle.omf_linker.specs.Seen.Looks.{AreFound, AreFoundAt, AreLookedFrom, AreLookedIn, AreLookedOf, counts, counts_twice, repeated_by};

use crate::link::{LabeledModules, Output, ShownAt, Task, parted, shown_at};
use omf_check::Checked;
use omf_externals::repeated_text;
use omf_lines::{FilesFault, ImageFault, Labeled};
use omf_linking::InputFile;
use omf_placement::Placement;
use omf_warnings::{Allowed, Finding, put_line, unseen};
use std::alloc::{AllocError, Global};

/// The output of a task, and a line for each thing that the link text does unseen.
#[derive(Drop)]
pub struct SeenText {
    /// The output.
    pub shown: Output,
    /// The lines, or that memory ran out for them.
    pub looked: Result<SeenLines, AllocError>,
}

/// Lines of what a link text does unseen.
#[derive(Drop)]
pub struct SeenLines {
    /// Those of what is a fault; empty if there is none. If there is one, the output counts for nothing.
    pub faults: String,
    /// Those of what is allowed.
    pub warnings: String,
}

impl SeenLines {
    /// No lines.
    fn new(alloc: Global) -> SeenLines
        ensures faults { string_bytes result.faults ≡ [] }
        ensures warnings { string_bytes result.warnings ≡ [] }
    {
        SeenLines {
            faults: String::new(alloc),
            warnings: String::new(alloc),
        }
    }
}

/// A task with its link text, and what that may do.
#[derive(Clone, Copy)]
pub struct Request<'a> {
    /// The task.
    pub task: Task,
    /// The link text.
    pub text: &'a [u8],
    /// What it may do.
    pub allowed: Allowed,
}

/// Whether a task puts segments into memory, so that it matters where they are.
pub fn is_looked_at(task: Task) -> bool {
    match task {
        Task::Image => true,
        Task::Rom(_) => true,
        Task::Map => false,
        Task::Draft(_) => false,
    }
}

/// Whether what is found counts as a warning, or as a fault.
fn counts(allowed: Allowed, as_warning: bool, found: Finding) -> bool
    ensures { result ≡ counts allowed as_warning found }
{
    if as_warning {
        allowed.has(found)
    } else {
        !allowed.has(found)
    }
}

/// Whether names that more than one public has count as a warning, or as a fault.
fn counts_twice(allowed: Allowed, as_warning: bool) -> bool
    ensures { result ≡ counts_twice allowed as_warning }
{
    if as_warning {
        allowed.twice
    } else {
        !allowed.twice
    }
}

/// Appends the line of what is found, if it counts as a warning, or as a fault.
fn add_one(
    text: &mut String,
    allowed: Allowed,
    as_warning: bool,
    labeled: Labeled<'_>,
    found: Finding,
) -> Result<(), AllocError>
    ensures { OnOk result (HasLines (map string_bytes labeled.entry.labels.now) (typed_modules labeled.entry.modules.now) (filter (counts allowed as_warning) (found ∷ [])) (string_bytes text.old) (string_bytes text.new)) }
{
    if !counts(allowed, as_warning, found) {
        return Ok(());
    }
    put_line(text, labeled, found)
}

/// Appends the lines of what is found that counts as a warning, or as a fault.
fn add_found(
    text: &mut String,
    allowed: Allowed,
    as_warning: bool,
    labeled: Labeled<'_>,
    found: &[Finding],
) -> Result<(), AllocError>
    ensures { OnOk result (HasLines (map string_bytes labeled.entry.labels.now) (typed_modules labeled.entry.modules.now) (filter (counts allowed as_warning) found.now) (string_bytes text.old) (string_bytes text.new)) }
{
    for one in found {
        add_one(text, allowed, as_warning, labeled, *one)?;
    }
    Ok(())
}

/// These lines of names that more than one public has, if they are wanted; no lines if not.
fn repeated_by(alloc: Global, said: bool, repeated: &str) -> Result<String, AllocError>
    ensures { IfOk result (λ t. string_bytes t ≡ repeated_by said repeated.now) }
{
    let mut text = String::new(alloc);
    if !said {
        return Ok(text);
    }
    text.push_str(repeated)?;
    Ok(text)
}

/// What a look at modules finds.
#[derive(Drop)]
struct Looked {
    /// The lines of the names that more than one public has.
    repeated: String,
    /// What their placements do that may not be meant.
    found: Vec<Finding>,
}

/// The lines of what counts as a warning, or as a fault.
fn lines_of(
    alloc: Global,
    allowed: Allowed,
    as_warning: bool,
    labeled: Labeled<'_>,
    looked: &Looked,
) -> Result<String, AllocError>
    ensures { IfOk result (λ t. HasLines (map string_bytes labeled.entry.labels.now) (typed_modules labeled.entry.modules.now) (filter (counts allowed as_warning) looked.now.found.items) (repeated_by (counts_twice allowed as_warning) (string_bytes looked.now.repeated)) (string_bytes t)) }
{
    let said = counts_twice(allowed, as_warning);
    let mut text = repeated_by(alloc, said, looked.repeated.as_str())?;
    add_found(&mut text, allowed, as_warning, labeled, &looked.found)?;
    Ok(text)
}

/// The lines of what a link text does unseen with modules at these placements.
fn found_at(
    alloc: Global,
    allowed: Allowed,
    labeled: Labeled<'_>,
    placements: &[Placement],
) -> Result<SeenLines, AllocError>
    requires few { length labeled.modules.now < 2 ^ 32 }
    requires placed { length placements.now ≡ length labeled.modules.now }
    ensures { IfOk result (λ l. AreFound allowed (map string_bytes labeled.entry.labels.now) labeled.entry.modules.now placements.now l) }
{
    let found = unseen(alloc, labeled.modules, placements)?;
    let repeated = repeated_text(alloc, labeled.labels, labeled.modules)?;
    let looked = Looked { repeated, found };
    let faults = lines_of(alloc, allowed, false, labeled, &looked)?;
    let warnings = lines_of(alloc, allowed, true, labeled, &looked)?;
    Ok(SeenLines { faults, warnings })
}

/// The lines of what a link text does unseen with modules at their placements; none for a task that puts no modules into memory.
fn looked_at(
    alloc: Global,
    allowed: Allowed,
    labeled: Labeled<'_>,
    placements: Option<Vec<Placement>>,
) -> Result<SeenLines, AllocError>
    requires few { length labeled.modules.now < 2 ^ 32 }
    requires placed { IfSome placements (λ p. length p.items ≡ length labeled.modules.now) }
    ensures { IfOk result (λ l. AreFoundAt allowed (map string_bytes labeled.entry.labels.now) labeled.entry.modules.now (option_map (λ p. p.items) placements) l) }
{
    match placements {
        Some(placements) => found_at(alloc, allowed, labeled, &placements),
        None => Ok(SeenLines::new(alloc)),
    }
}

/// The output of a task for modules, with the lines of what the link text does unseen.
pub(crate) fn modules_seen(
    alloc: Global,
    request: Request<'_>,
    labeled: Labeled<'_>,
) -> Result<SeenText, ImageFault>
    requires { length labeled.modules.now < 2 ^ 32 }
    ensures shown { AreShown request.entry.task (map string_bytes labeled.entry.labels.now) (typed_modules labeled.entry.modules.now) request.entry.text.now (map_ok (λ s. s.shown) result) }
    ensures looked { IfOk result (λ s. IfOk s.looked (AreLookedIn request.entry.task request.entry.allowed (map string_bytes labeled.entry.labels.now) labeled.entry.modules.now request.entry.text.now)) }
{
    match shown_at(alloc, request.task, labeled, request.text) {
        Ok(at) => {
            let ShownAt { shown, placements } = at;
            let looked = looked_at(alloc, request.allowed, labeled, placements);
            Ok(SeenText { shown, looked })
        }
        Err(fault) => Err(fault),
    }
}

/// The same for modules without labels.
fn unlabeled_seen(
    alloc: Global,
    request: Request<'_>,
    modules: &[Checked],
) -> Result<SeenText, ImageFault>
    requires { length modules.now < 2 ^ 32 }
    ensures shown { AreShown request.entry.task [] (typed_modules modules.now) request.entry.text.now (map_ok (λ s. s.shown) result) }
    ensures looked { IfOk result (λ s. IfOk s.looked (AreLookedIn request.entry.task request.entry.allowed [] modules.entry.now request.entry.text.now)) }
{
    let labeled = Labeled {
        labels: &[],
        modules,
    };
    modules_seen(alloc, request, labeled)
}

/// The same for the modules of files, with a fault as one of files.
fn of_modules(
    alloc: Global,
    request: Request<'_>,
    labeled: Labeled<'_>,
) -> Result<SeenText, FilesFault>
    requires { length labeled.modules.now < 2 ^ 32 }
    ensures shown { IsShownAs request.entry.task (map string_bytes labeled.entry.labels.now) (typed_modules labeled.entry.modules.now) request.entry.text.now (map_ok (λ s. s.shown) result) }
    ensures looked { IfOk result (λ s. IfOk s.looked (AreLookedIn request.entry.task request.entry.allowed (map string_bytes labeled.entry.labels.now) labeled.entry.modules.now request.entry.text.now)) }
{
    match modules_seen(alloc, request, labeled) {
        Ok(seen) => Ok(seen),
        Err(fault) => Err(FilesFault::Link(fault)),
    }
}

/// The output of a task for the modules of files and a link text, with the lines of what the text does unseen. Each file is dropped once its
/// modules are checked, so each module is kept once.
///
/// # Errors
///
/// `File` for the first file that does not hold modules and padding alone, as in `modules_of_files`; otherwise `Link` with the fault of
/// `shown_text` for their modules and the link text. Its lines call each module by its file and its number there, from 1. `Link` with
/// `Memory` if memory runs out.
pub fn files_seen(
    alloc: Global,
    request: Request<'_>,
    files: Vec<InputFile>,
) -> Result<SeenText, FilesFault>
    ensures shown { AreFilesShown request.entry.task files.items request.entry.text.now (map_ok (λ s. s.shown) result) }
    ensures looked { IfOk result (λ s. IfOk s.looked (AreLookedFrom (AreLookedIn request.entry.task request.entry.allowed) files.items request.entry.text.now)) }
{
    match LabeledModules::of(alloc, files) {
        Ok(all) => {
            let labeled = Labeled {
                labels: &all.labels,
                modules: &all.modules,
            };
            of_modules(alloc, request, labeled)
        }
        Err(fault) => Err(fault),
    }
}

/// The output of a task for an input, which is modules, one after another, followed by a link text, as that of `shown_text`, with the
/// lines of what the text does unseen. The input is dropped once its modules are checked.
///
/// # Errors
///
/// Those of `shown_text`.
pub fn input_seen(
    alloc: Global,
    task: Task,
    input: Vec<u8>,
    allowed: Allowed,
) -> Result<SeenText, ImageFault>
    ensures shown { IsShownOf task input.items (map_ok (λ s. s.shown) result) }
    ensures looked { IfOk result (λ s. IfOk s.looked (AreLookedOf (AreLookedIn task allowed) input.items)) }
{
    match parted(alloc, input) {
        Ok((modules, text)) => {
            let request = Request {
                task,
                text: &text,
                allowed,
            };
            unlabeled_seen(alloc, request, &modules)
        }
        Err(fault) => Err(ImageFault::Link(fault)),
    }
}
