//! A run of `omf-link`, from a reader to a writer.

ghost use Rattle.std.specs.Prelude.{◌≡◌, ◌<◌, ◌^◌, [], ℕ, IfOk, IfSome, List, None, Some, length, map, option_map, string_bytes};
ghost use Rattle.omf_records.specs.Inner.Seen.{map_ok};
ghost use Rattle.omf_check.specs.Module.{typed_modules};
ghost use Rattle.omf_linker.specs.Link.Drafted.{IsDrafted};
ghost use Rattle.omf_linker.specs.Link.Linked.{any, IsLinked};
ghost use Rattle.omf_linking.specs.Reading.{AreModules};
ghost use Rattle.omf_linker.specs.Link.Mapped.{IsMapped};
ghost use Rattle.omf_linker.specs.Link.Rom.{IsRom};
ghost use Rattle.omf_linker.specs.Link.Runs.{IsRun, IsShowCause, Shows};
ghost use Rattle.omf_linker.specs.Link.Shown.{AreShown, AreShownAt, IsNamedAs, IsShownOf};
ghost use Rattle.omf_linking.specs.PlainText.{plain_text};
ghost use Rattle.omf_linker.specs.Seen.Looks.{ArePlaced};
ghost use Rattle.omf_drafting.specs.Suiting.{options_for};
ghost use Rattle.omf_linker.specs.declared.link.words.Task.TheVariants.{Draft, Image, Map, Rom};

use crate::link::linking::{modules_map, text_at};
use crate::link::output::Output;
use crate::link::rom::file_at;
use crate::link::words::Task;
use omf_check::{Checked, Profile};
use omf_drafting::link_draft;
use omf_drafting::options::AskedOptions;
use omf_drafting::suiting::options_for;
use omf_frame::{Sink, Source};
use omf_layout::{LayoutFault, Options};
use omf_lines::{ImageFault, Labeled, named};
use omf_linking::{LinkFault, modules_in, plain_text, read_all};
use omf_output::rom::Form;
use omf_placement::Placement;
use std::alloc::{AllocError, Global};

/// What a task prints for modules and a link text, and where the modules are.
#[derive(Drop)]
pub(crate) struct ShownAt {
    /// What it prints.
    pub shown: Output,
    /// The placements that the text gives the modules, if the task puts them into memory.
    pub placements: Option<Vec<Placement>>,
}

/// The text of `modules_text` and the placements of the modules, or the first fault with its lines.
fn image_shown(alloc: Global, labeled: Labeled<'_>, text: &[u8]) -> Result<ShownAt, ImageFault>
    requires { length labeled.modules.now < 2 ^ 32 }
    ensures shown { IsNamedAs (IsLinked (typed_modules labeled.entry.modules.now) text.now) (map string_bytes labeled.entry.labels.now) (typed_modules labeled.entry.modules.now) text.now (map_ok (λ s. s.shown) result) }
    ensures placed { IfOk result (λ s. IfSome s.placements (λ p. length p.items ≡ length labeled.entry.modules.now)) }
    ensures linked { IfOk result (λ s. ArePlaced Image (typed_modules labeled.entry.modules.now) text.now (option_map (λ p. p.items) s.placements)) }
{
    match text_at(alloc, labeled.modules, text) {
        Ok((shown, placements)) => Ok(ShownAt {
            shown,
            placements: Some(placements),
        }),
        Err(fault) => Err(named(alloc, labeled, text, fault)),
    }
}

/// The file of `modules_file` and the placements of the modules, or the first fault with its lines.
fn file_shown(
    alloc: Global,
    form: Form,
    labeled: Labeled<'_>,
    text: &[u8],
) -> Result<ShownAt, ImageFault>
    requires { length labeled.modules.now < 2 ^ 32 }
    ensures shown { IsRom form (map string_bytes labeled.entry.labels.now) (typed_modules labeled.entry.modules.now) text.now (map_ok (λ s. s.shown) result) }
    ensures placed { IfOk result (λ s. IfSome s.placements (λ p. length p.items ≡ length labeled.entry.modules.now)) }
    ensures linked { IfOk result (λ s. ArePlaced (Rom form) (typed_modules labeled.entry.modules.now) text.now (option_map (λ p. p.items) s.placements)) }
{
    match file_at(alloc, form, labeled, text) {
        Ok((file, placements)) => Ok(ShownAt {
            shown: Output::of_text(alloc, file),
            placements: Some(placements),
        }),
        Err(fault) => Err(fault),
    }
}

/// The text of `modules_map`, or the first fault with its lines.
fn map_shown(alloc: Global, labeled: Labeled<'_>, text: &[u8]) -> Result<Vec<u8>, ImageFault>
    requires { length labeled.modules.now < 2 ^ 32 }
    ensures { IsNamedAs (IsMapped (map string_bytes labeled.entry.labels.now) (typed_modules labeled.entry.modules.now) text.now) (map string_bytes labeled.entry.labels.now) (typed_modules labeled.entry.modules.now) text.now (map_ok (λ shown. shown.items) result) }
{
    match modules_map(alloc, labeled.labels, labeled.modules, text) {
        Ok(shown) => Ok(shown.into_bytes()),
        Err(fault) => Err(named(alloc, labeled, text, fault)),
    }
}

/// The draft of a link text for modules.
fn draft_shown(alloc: Global, modules: &[Checked], options: Options) -> Result<Vec<u8>, ImageFault>
    requires { length modules.now < 2 ^ 32 }
    ensures { IsDrafted options (typed_modules modules.now) (map_ok (λ shown. shown.items) result) }
{
    match link_draft(alloc, modules, options) {
        Ok(shown) => Ok(shown.into_bytes()),
        Err(LayoutFault::NoRoom) => Err(ImageFault::NoRoom),
        Err(LayoutFault::Memory) => Err(ImageFault::Link(LinkFault::Memory)),
    }
}

/// The draft of a link text for modules, with the frames that are asked for, or else those that suit the modules.
fn draft_asked(
    alloc: Global,
    modules: &[Checked],
    asked: AskedOptions,
) -> Result<Vec<u8>, ImageFault>
    requires { length modules.now < 2 ^ 32 }
    ensures { IsDrafted (options_for (typed_modules modules.now) asked) (typed_modules modules.now) (map_ok (λ shown. shown.items) result) }
{
    draft_shown(alloc, modules, options_for(modules, asked))
}

/// A result whose text is made, by a task that puts no modules into memory.
fn made(alloc: Global, made: Result<Vec<u8>, ImageFault>) -> Result<ShownAt, ImageFault>
    ensures shown { map_ok (λ s. s.shown) result ≡ map_ok (λ text. text.items) made }
    ensures placed { IfOk result (λ s. s.placements ≡ None) }
{
    match made {
        Ok(text) => Ok(ShownAt {
            shown: Output::of_text(alloc, text),
            placements: None,
        }),
        Err(fault) => Err(fault),
    }
}

/// The map of modules, as a result.
fn map_at(alloc: Global, labeled: Labeled<'_>, text: &[u8]) -> Result<ShownAt, ImageFault>
    requires { length labeled.modules.now < 2 ^ 32 }
    ensures shown { IsNamedAs (IsMapped (map string_bytes labeled.entry.labels.now) (typed_modules labeled.entry.modules.now) text.now) (map string_bytes labeled.entry.labels.now) (typed_modules labeled.entry.modules.now) text.now (map_ok (λ s. s.shown) result) }
    ensures placed { IfOk result (λ s. s.placements ≡ None) }
    ensures linked { IfOk result (λ s. ArePlaced Map (typed_modules labeled.entry.modules.now) text.now (option_map (λ p. p.items) s.placements)) }
{
    made(alloc, map_shown(alloc, labeled, text))
}

/// The draft of a link text for modules, as a result.
fn draft_at(
    alloc: Global,
    labeled: Labeled<'_>,
    text: &[u8],
    asked: AskedOptions,
) -> Result<ShownAt, ImageFault>
    requires { length labeled.modules.now < 2 ^ 32 }
    ensures shown { IsDrafted (options_for (typed_modules labeled.entry.modules.now) asked) (typed_modules labeled.entry.modules.now) (map_ok (λ s. s.shown) result) }
    ensures placed { IfOk result (λ s. s.placements ≡ None) }
    ensures linked { IfOk result (λ s. ArePlaced (Draft asked) (typed_modules labeled.entry.modules.now) text.now (option_map (λ p. p.items) s.placements)) }
{
    made(alloc, draft_asked(alloc, labeled.modules, asked))
}

/// What a task prints for modules and a link text as it is read, and where the modules are.
fn plain_shown_at(
    alloc: Global,
    task: Task,
    labeled: Labeled<'_>,
    text: &[u8],
) -> Result<ShownAt, ImageFault>
    requires { length labeled.modules.now < 2 ^ 32 }
    ensures shown { AreShownAt task (map string_bytes labeled.entry.labels.now) (typed_modules labeled.entry.modules.now) text.now (map_ok (λ s. s.shown) result) }
    ensures placed { IfOk result (λ s. IfSome s.placements (λ p. length p.items ≡ length labeled.entry.modules.now)) }
    ensures linked { IfOk result (λ s. ArePlaced task (typed_modules labeled.entry.modules.now) text.now (option_map (λ p. p.items) s.placements)) }
{
    match task {
        Task::Image => image_shown(alloc, labeled, text),
        Task::Rom(form) => file_shown(alloc, form, labeled, text),
        Task::Map => map_at(alloc, labeled, text),
        Task::Draft(asked) => draft_at(alloc, labeled, text, asked),
    }
}

/// What a task prints for modules and a link text, and where the modules are.
pub(crate) fn shown_at(
    alloc: Global,
    task: Task,
    labeled: Labeled<'_>,
    text: &[u8],
) -> Result<ShownAt, ImageFault>
    requires { length labeled.modules.now < 2 ^ 32 }
    ensures shown { AreShown task (map string_bytes labeled.entry.labels.now) (typed_modules labeled.entry.modules.now) text.now (map_ok (λ s. s.shown) result) }
    ensures placed { IfOk result (λ s. IfSome s.placements (λ p. length p.items ≡ length labeled.entry.modules.now)) }
    ensures linked { IfOk result (λ s. ArePlaced task (typed_modules labeled.entry.modules.now) (plain_text text.now) (option_map (λ p. p.items) s.placements)) }
{
    match plain_text(alloc, text) {
        Ok(text) => plain_shown_at(alloc, task, labeled, &text),
        Err(AllocError) => Err(ImageFault::Link(LinkFault::Memory)),
    }
}

/// What a task prints for modules and a link text.
fn modules_shown(
    alloc: Global,
    task: Task,
    labeled: Labeled<'_>,
    text: &[u8],
) -> Result<Output, ImageFault>
    requires { length labeled.modules.now < 2 ^ 32 }
    ensures { AreShown task (map string_bytes labeled.entry.labels.now) (typed_modules labeled.entry.modules.now) text.now result }
{
    match shown_at(alloc, task, labeled, text) {
        Ok(at) => Ok(at.shown),
        Err(fault) => Err(fault),
    }
}

/// What a task prints for modules without labels and a link text: a fault counts the modules.
fn unlabeled_shown(
    alloc: Global,
    task: Task,
    modules: &[Checked],
    text: &[u8],
) -> Result<Output, ImageFault>
    requires { length modules.now < 2 ^ 32 }
    ensures { AreShown task [] (typed_modules modules.now) text.now result }
{
    let labeled = Labeled {
        labels: &[],
        modules,
    };
    modules_shown(alloc, task, labeled, text)
}

/// What a task prints for the bytes of an input.
fn shown_of(alloc: Global, task: Task, input: &[u8]) -> Result<Output, ImageFault>
    ensures { IsShownOf task input.now result }
{
    let profile = Profile {
        refuse_vendor_comments: false,
    };
    match modules_in(alloc, profile, input) {
        Ok((modules, text)) => unlabeled_shown(alloc, task, &modules, text),
        Err(fault) => Err(ImageFault::Link(fault)),
    }
}

/// The text that a task prints for an input, as that of `shown_output`, all at once.
///
/// # Errors
///
/// Those of `shown_output`.
pub fn shown_text(alloc: Global, task: Task, input: &[u8]) -> Result<Vec<u8>, ImageFault>
    ensures { IsShownOf task input.now (map_ok (λ shown. shown.items) result) }
{
    let output = shown_of(alloc, task, input)?;
    match output.bytes(alloc) {
        Ok(bytes) => Ok(bytes),
        Err(AllocError) => Err(ImageFault::Link(LinkFault::Memory)),
    }
}

/// The modules and the text of an input. The input is dropped, so each module is kept once.
///
/// # Errors
///
/// Those of `modules_in`.
pub(crate) fn parted(alloc: Global, input: Vec<u8>) -> Result<(Vec<Checked>, Vec<u8>), LinkFault>
    ensures modules { AreModules any input.items (map_ok (λ r. (r.0.items, r.1.items)) result) }
    ensures few { IfOk result (λ r. length r.0.items < 2 ^ 32) }
{
    let profile = Profile {
        refuse_vendor_comments: false,
    };
    match modules_in(alloc, profile, &input) {
        Ok((modules, rest)) => {
            let text = rest.to_vec(alloc)?;
            Ok((modules, text))
        }
        Err(fault) => Err(fault),
    }
}

/// What a task prints for an input, which is modules, one after another, followed by a link text: the memory image at the placements of the
/// text, the map at these, or the draft of a link text. A draft ignores the text. The input is dropped once its modules are checked.
///
/// # Errors
///
/// `Link` with `Refused` for the first module that is not well formed, or with `NoText` if what follows the modules and their padding is no
/// text; otherwise the fault of `modules_text` or `modules_map`, as `Lines` if it is about a module and its parts, or about a line of the text. `NoRoom` if a segment of the draft has no room. `Link` with `Memory` if memory runs out.
pub fn shown_output(alloc: Global, task: Task, input: Vec<u8>) -> Result<Output, ImageFault>
    ensures { IsShownOf task input.items result }
{
    match parted(alloc, input) {
        Ok((modules, text)) => unlabeled_shown(alloc, task, &modules, &text),
        Err(fault) => Err(ImageFault::Link(fault)),
    }
}

/// What a task prints for the input of a reader. All of the input is read.
fn read_and_shown<S: Source>(
    alloc: Global,
    task: Task,
    reader: &mut S,
) -> Result<Output, ImageFault>
    ensures answer { (input : List ℕ) → (S.seen reader.old).bytes ≡ Some input → Shows task input (S.seen reader.old).bytes (S.seen reader.new).bytes result }
    ensures cause { IsShowCause (S.seen reader.old) (S.seen reader.new) result }
{
    match read_all(alloc, reader) {
        Ok(input) => shown_output(alloc, task, input),
        Err(fault) => Err(ImageFault::Link(fault)),
    }
}

/// Does a task: writes the text of `shown_output` for the input, which is modules followed by a link text. All of the input is read. Nothing is
/// written before nothing but the writer can fail.
///
/// # Errors
///
/// Those of `shown_output`: `Link` with `Refused` for the first module that is not well formed, or with `NoText` if what follows the modules and
/// their padding is no text; otherwise the fault of `modules_text` or `modules_map`, as `Lines` if it is about a module and its parts, or about a line of the text; `NoRoom` if a segment of a draft has no room. `Link` with `Read` if the
/// reader fails, `Write` if the writer fails, `Link` with `Memory` if memory runs out.
pub(crate) fn run_task<S: Source, K: Sink>(
    alloc: Global,
    task: Task,
    reader: &mut S,
    writer: &mut K,
) -> Result<(), ImageFault>
    ensures { IsRun task (S.seen reader.old) (S.seen reader.new) (K.seen writer.old) (K.seen writer.new) result }
{
    let output = read_and_shown(alloc, task, reader)?;
    match output.print(writer) {
        Ok(()) => Ok(()),
        Err(_) => Err(ImageFault::Write),
    }
}
