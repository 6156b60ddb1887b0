//! Why there is no program: refusals of files, of communals, of the module for DOS order, and of modules with aliases.

ghost use Rattle.std.specs.Prelude.{◌≡◌, false, true};
ghost use Rattle.omf_exe.specs.Lowered.{is_link_memory};
ghost use Rattle.omf_exe.specs.Refusing.{IsRefusalFor, is_following_memory, is_input_memory, is_library_memory, is_ordering_memory, is_out_of_memory, is_sharing_memory};

use crate::input::InputFault;
use crate::lines::{following_line, library_line, ordering_line, sharing_line};
use crate::memory::{
    is_following_memory, is_library_memory, is_link_memory, is_ordering_memory, is_sharing_memory,
};
use crate::ordering::OrderingFault;
use crate::refusal::Refusal;
use crate::refused::module_line;
use crate::sharing::SharingFault;
use omf_aliases::FollowingFault;
use omf_library::LibraryFault;
use omf_lines::{FilesFault, ImageFault, file_front};
use omf_linking::{InputFile, LinkFault};
use std::alloc::{AllocError, Global};

/// Out of memory.
pub(crate) fn memory() -> Refusal
    ensures { is_out_of_memory result ≡ true }
{
    Refusal::Files(FilesFault::Link(ImageFault::Link(LinkFault::Memory)))
}

/// A line, if there is memory for it.
pub(crate) fn in_line(line: Result<String, AllocError>) -> Refusal {
    match line {
        Ok(line) => Refusal::Line(line.into_bytes()),
        Err(AllocError) => memory(),
    }
}

/// The refusal of a file that begins with F0H and is no library.
fn of_library(alloc: Global, files: &[InputFile], file: usize, fault: LibraryFault) -> Refusal
    ensures { IsRefusalFor (is_library_memory fault ≡ false) result }
{
    if is_library_memory(fault) {
        return memory();
    }
    in_line(library_line(alloc, files, file, fault))
}

/// The refusal of a file that does not hold modules and padding alone.
fn of_modules(alloc: Global, files: &[InputFile], file: usize, fault: LinkFault) -> Refusal
    ensures { IsRefusalFor (is_link_memory fault ≡ false) result }
{
    if is_link_memory(fault) {
        return memory();
    }
    if let LinkFault::Refused {
        module: 0,
        reason,
        place,
    } = fault
    {
        return in_line(module_line(alloc, files, file, reason, place));
    }
    let Some(input) = files.get(file) else {
        return memory();
    };
    match file_front(alloc, input.name()) {
        Ok(front) => Refusal::Files(FilesFault::File { fault, front }),
        Err(AllocError) => memory(),
    }
}

/// The refusal of files that are not read.
pub(crate) fn of_input(alloc: Global, files: &[InputFile], fault: InputFault) -> Refusal
    ensures { IsRefusalFor (is_input_memory fault ≡ false) result }
{
    match fault {
        InputFault::Memory => memory(),
        InputFault::Library(file, fault) => of_library(alloc, files, file, fault),
        InputFault::Modules(file, fault) => of_modules(alloc, files, file, fault),
    }
}

/// The refusal of communals that are not shared.
pub(crate) fn of_sharing(alloc: Global, fault: &SharingFault<'_>) -> Refusal
    ensures { IsRefusalFor (is_sharing_memory fault.now ≡ false) result }
{
    if is_sharing_memory(fault) {
        return memory();
    }
    in_line(sharing_line(alloc, fault))
}

/// The refusal of modules that are not put in DOS order.
pub(crate) fn of_ordering(alloc: Global, fault: OrderingFault) -> Refusal
    ensures { IsRefusalFor (is_ordering_memory fault ≡ false) result }
{
    if is_ordering_memory(fault) {
        return memory();
    }
    in_line(ordering_line(alloc, fault))
}

/// The refusal of modules whose aliases are not followed.
pub(crate) fn of_following(alloc: Global, fault: FollowingFault) -> Refusal
    ensures { IsRefusalFor (is_following_memory fault ≡ false) result }
{
    if is_following_memory(fault) {
        return memory();
    }
    in_line(following_line(alloc, fault))
}
