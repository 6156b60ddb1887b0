//! A task of `omf-link` over files or an input, with names compared without case.

ghost use Rattle.std.specs.List.{AllZip};
ghost use Rattle.std.specs.Prelude.{◌≡◌, ◌<◌, ◌^◌, IfOk, length, map, string_bytes};
ghost use Rattle.omf_records.specs.Inner.Seen.{map_ok};
ghost use Rattle.omf_linking.specs.Folded.{IsFolded};
ghost use Rattle.omf_linking.specs.FoldedText.{folded_text};
ghost use Rattle.omf_linking.specs.PlainText.{plain_text};
ghost use Rattle.omf_linker.specs.Link.Folded.{AreFilesFolded, IsFoldedOf, IsShownFolded, IsShownFoldedAs};
ghost use Rattle.omf_linker.specs.Seen.Looks.{AreLookedFolded, AreLookedFrom, AreLookedOf};

use crate::link::{LabeledModules, Task, parted};
use crate::seen::files::{Request, SeenText, modules_seen};
use omf_check::Checked;
use omf_lines::{FilesFault, ImageFault, Labeled};
use omf_linking::{InputFile, LinkFault, folded_all, folded_text, plain_text};
use omf_warnings::Allowed;
use std::alloc::{AllocError, Global};

/// Modules and a link text with names in lower case.
#[derive(Drop)]
struct Folded {
    modules: Vec<Checked>,
    text: Vec<u8>,
}

/// Modules and a link text with names in lower case.
fn fold(alloc: Global, modules: Vec<Checked>, text: &[u8]) -> Result<Folded, AllocError>
    ensures modules { IfOk result (λ f. AllZip IsFolded modules.items f.modules.items) }
    ensures text { IfOk result (λ f. f.text.items ≡ folded_text (plain_text text.now)) }
{
    let plain = plain_text(alloc, text)?;
    Ok(Folded {
        modules: folded_all(alloc, modules)?,
        text: folded_text(alloc, &plain)?,
    })
}

/// The output of a task for modules and a link text, with names in lower case.
fn folded_seen(
    alloc: Global,
    request: Request<'_>,
    labels: &[String],
    modules: Vec<Checked>,
) -> Result<SeenText, ImageFault>
    requires { length modules.items < 2 ^ 32 }
    ensures shown { IsShownFolded request.entry.task (map string_bytes labels.now) modules.items request.entry.text.now (map_ok (λ s. s.shown) result) }
    ensures looked { IfOk result (λ s. IfOk s.looked (AreLookedFolded request.entry.task request.entry.allowed (map string_bytes labels.now) modules.items request.entry.text.now)) }
{
    let Ok(folded) = fold(alloc, modules, request.text) else {
        return Err(ImageFault::Link(LinkFault::Memory));
    };
    let labeled = Labeled {
        labels,
        modules: &folded.modules,
    };
    let request = Request {
        text: &folded.text,
        ..request
    };
    modules_seen(alloc, request, labeled)
}

/// The same for the modules of files, with a fault as one of files.
fn of_modules(
    alloc: Global,
    request: Request<'_>,
    all: LabeledModules,
) -> Result<SeenText, FilesFault>
    requires { length all.modules.items < 2 ^ 32 }
    ensures shown { IsShownFoldedAs request.entry.task (map string_bytes all.labels.items) all.modules.items request.entry.text.now (map_ok (λ s. s.shown) result) }
    ensures looked { IfOk result (λ s. IfOk s.looked (AreLookedFolded request.entry.task request.entry.allowed (map string_bytes all.labels.items) all.modules.items request.entry.text.now)) }
{
    let LabeledModules { modules, labels } = all;
    match folded_seen(alloc, request, &labels, modules) {
        Ok(seen) => Ok(seen),
        Err(fault) => Err(FilesFault::Link(fault)),
    }
}

/// The output of a task for the modules of files and a link text, as that of `files_seen`, with the names of publics, externals and communals
/// in lower case: those of the modules, and those of the X lines of the text.
///
/// # Errors
///
/// Those of `files_seen`.
pub fn files_folded(
    alloc: Global,
    request: Request<'_>,
    files: Vec<InputFile>,
) -> Result<SeenText, FilesFault>
    ensures shown { AreFilesFolded request.entry.task files.items request.entry.text.now (map_ok (λ s. s.shown) result) }
    ensures looked { IfOk result (λ s. IfOk s.looked (AreLookedFrom (AreLookedFolded request.entry.task request.entry.allowed) files.items request.entry.text.now)) }
{
    match LabeledModules::of(alloc, files) {
        Ok(all) => of_modules(alloc, request, all),
        Err(fault) => Err(fault),
    }
}

/// The output of a task for an input, which is modules, one after another, followed by a link text, as that of `input_seen`, with names in
/// lower case as in `files_folded`.
///
/// # Errors
///
/// Those of `input_seen`.
pub fn input_folded(
    alloc: Global,
    task: Task,
    input: Vec<u8>,
    allowed: Allowed,
) -> Result<SeenText, ImageFault>
    ensures shown { IsFoldedOf task input.items (map_ok (λ s. s.shown) result) }
    ensures looked { IfOk result (λ s. IfOk s.looked (AreLookedOf (AreLookedFolded task allowed) input.items)) }
{
    match parted(alloc, input) {
        Ok((modules, text)) => {
            let request = Request {
                task,
                text: &text,
                allowed,
            };
            folded_seen(alloc, request, &[], modules)
        }
        Err(fault) => Err(ImageFault::Link(fault)),
    }
}
