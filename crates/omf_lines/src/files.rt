//! A file's fault with its name.

ghost use Rattle.std.specs.Prelude.{◌≡◌, IfOk, string_bytes};
ghost use Rattle.omf_lines.specs.Files.{IsFileNamed, file_front};

use crate::fault::ImageFault;
use crate::files_fault::FilesFault;
use omf_linking::{InputFile, LinkFault};
use omf_text::print_quoted;
use std::alloc::{AllocError, Global};

/// The front of the line of a file's fault: the word `file` and the name in quotes, with `\xHH` for bytes that are not plain.
pub fn file_front(alloc: Global, name: &[u8]) -> Result<String, AllocError>
    ensures { IfOk result (λ front. string_bytes front ≡ file_front name.now) }
{
    let mut front = String::new(alloc);
    front.push_str("file ")?;
    print_quoted(&mut front, name)?;
    front.push(' ')?;
    Ok(front)
}

/// A file's fault with the front of its line. `Memory` if memory runs out for that.
pub fn in_file(alloc: Global, file: &InputFile, fault: LinkFault) -> FilesFault
    ensures { IsFileNamed file.now.name fault result }
{
    match file_front(alloc, file.name()) {
        Ok(front) => FilesFault::File { fault, front },
        Err(AllocError) => FilesFault::Link(ImageFault::Link(LinkFault::Memory)),
    }
}
