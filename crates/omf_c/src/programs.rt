//! DOS programs of files: modules and libraries, as `omf-link exe` and `omf-link com` make them.

ghost use Rattle.std.specs.Prelude.{◌≡◌, ◌⊎◌, ◌++◌, IfErr, IfOk, OnOk, map};
ghost use Rattle.omf_exe.specs.Refusing.{IsRefusalFor, is_out_of_memory};
ghost use Rattle.omf_exe.specs.declared.refusal.Refusal.TheVariants as refusal;
ghost use Rattle.omf_lines.specs.declared.fault.ImageFault.TheVariants as image;
ghost use Rattle.omf_lines.specs.declared.files_fault.FilesFault.TheVariants as files;
ghost use Rattle.omf_c.specs.Answers.{done};
ghost use Rattle.omf_c.specs.Programs.{AreOptionsOf, HandsProgram, HaveNoProgram, IsAnsweredOf, IsFilesAnswered, IsProgramOfFiles, ShowsRefusal, TellsRefusal, file_of, kind_of, order_of, stack_of, text_if, warnings};

use crate::answer::{Answer, NOTHING, hand_out};
use crate::linking::{MEMORY, unlinked};
use crate::rows::{FileRow, ProgramRow};
use crate::tables::flag;
use omf_drafting::host::fault_text;
use omf_exe::{ExeOptions, Leftovers, MadeProgram, Order, ProgramFiles, ProgramKind, Refusal};
use omf_lines::{FilesFault, ImageFault};
use omf_linking::{InputFile, LinkFault};
use omf_trimming::LeftOut;
use std::alloc::{AllocError, Global};

/// The file that a row gives.
fn file_of(alloc: Global, row: &FileRow<'_>) -> Result<InputFile, AllocError>
    ensures { IfOk result (λ f. f ≡ file_of row.now) }
{
    let name = String::from_utf8_lossy(alloc, row.name)?;
    let bytes = row.bytes.to_vec(alloc)?;
    Ok(InputFile::new(name, bytes))
}

/// The files that rows give.
fn files_of(alloc: Global, rows: &[FileRow<'_>]) -> Result<Vec<InputFile>, AllocError>
    ensures { IfOk result (λ v. v.items ≡ map file_of rows.now) }
{
    let mut files = Vec::new(alloc);
    for row in rows {
        files.push(file_of(alloc, row)?)?;
    }
    Ok(files)
}

/// The kind of program that a row asks for.
fn kind_of(is_com: bool) -> ProgramKind
    ensures { result ≡ kind_of is_com }
{
    if is_com {
        ProgramKind::Com
    } else {
        ProgramKind::Exe
    }
}

/// The stack that a row asks for.
fn stack_of(size: u16) -> Option<u16>
    ensures { result ≡ stack_of size }
{
    if size == 0 { None } else { Some(size) }
}

/// The order that a row asks for.
fn order_of<'a>(order: u16) -> Option<Order<'a>>
    ensures { result ≡ order_of order }
{
    match order {
        1 => Some(Order::Dos),
        2 => Some(Order::Input),
        _ => None,
    }
}

/// The options that a row asks for.
fn options_of<'a>(alloc: Global, row: &ProgramRow) -> ExeOptions<'a>
    ensures { AreOptionsOf row.now result }
{
    ExeOptions {
        kind: kind_of(row.is_com),
        map: None,
        symbols: None,
        folders: Vec::new(alloc),
        default_libraries: false,
        left_out: Vec::new(alloc),
        ignore_case: row.ignore_case,
        stack: stack_of(row.stack),
        max_alloc: None,
        order: order_of(row.order),
        allows_twice: row.allow_twice,
        allows_long: row.allow_group,
        allows_near: row.allow_near,
        allows_mixed: row.allow_mixed,
        unreached: LeftOut {
            code: false,
            debug: true,
        },
    }
}

/// The program of files.
#[tactic(auto, using(crate::proofs::FilesLaws::program_of, crate::proofs::FilesLaws::not_written, crate::proofs::FilesLaws::give_none))]
fn made_of(
    alloc: Global,
    options: &ExeOptions<'_>,
    files: Vec<InputFile>,
) -> Result<MadeProgram, Refusal>
    ensures made { IfOk result (IsProgramOfFiles files.items options.now) }
    ensures refused { IfErr result (IsRefusalFor (HaveNoProgram files.items options.now)) }
{
    let program = ProgramFiles::of(alloc, files, options.ignore_case)?;
    program.make(alloc, options, Leftovers::Freed)
}

/// Appends a text, if there is one.
fn add_if(lines: &mut Vec<u8>, text: &Option<String>) -> Result<(), AllocError>
    ensures { OnOk result (lines.new.items ≡ lines.old.items ++ text_if text.now) }
{
    match text {
        Some(text) => lines.extend_from_slice(text.as_bytes()),
        None => Ok(()),
    }
}

/// The lines of what is found in a program, and allowed.
fn warnings(alloc: Global, made: &MadeProgram) -> Result<Vec<u8>, AllocError>
    ensures { IfOk result (λ v. v.items ≡ warnings made.now) }
{
    let mut lines = Vec::new(alloc);
    add_if(&mut lines, &made.repeated)?;
    add_if(&mut lines, &made.mixed)?;
    add_if(&mut lines, &made.long)?;
    add_if(&mut lines, &made.near)?;
    add_if(&mut lines, &made.stack)?;
    Ok(lines)
}

/// Whether the fault of a link is that memory ran out.
fn is_link_memory(fault: LinkFault) -> bool
    ensures { result ≡ is_out_of_memory (refusal.Files (files.Link (image.Link fault))) }
{
    match fault {
        LinkFault::Memory => true,
        LinkFault::Read => false,
        LinkFault::Refused { .. } => false,
        LinkFault::NoText(_) => false,
        LinkFault::NoModules => false,
        LinkFault::Line { .. } => false,
        LinkFault::External(_) => false,
        LinkFault::Reach { .. } => false,
        LinkFault::Starts { .. } => false,
        LinkFault::Space(_) => false,
    }
}

/// Whether the fault of a memory is that memory ran out.
fn is_image_memory(fault: &ImageFault) -> bool
    ensures { result ≡ is_out_of_memory (refusal.Files (files.Link fault.now)) }
{
    match fault {
        ImageFault::Link(fault) => is_link_memory(*fault),
        ImageFault::Lines { .. } => false,
        ImageFault::Outside { .. } => false,
        ImageFault::NoRoom => false,
        ImageFault::Write => false,
    }
}

/// Whether the fault of files is that memory ran out.
fn is_files_memory(fault: &FilesFault) -> bool
    ensures { result ≡ is_out_of_memory (refusal.Files fault.now) }
{
    match fault {
        FilesFault::File { .. } => false,
        FilesFault::Link(fault) => is_image_memory(fault),
    }
}

/// Whether a refusal is that memory ran out.
fn is_memory(refusal: &Refusal) -> bool
    ensures { result ≡ is_out_of_memory refusal.now }
{
    match refusal {
        Refusal::Files(fault) => is_files_memory(fault),
        Refusal::Undefined(_) => false,
        Refusal::Line(_) => false,
    }
}

/// Copies a program and lines to the starts of two buffers, if both fit; else both are unchanged. The result has the sizes in either case.
fn hand_out_program(made: &MadeProgram, lines: &[u8], out: &mut [u8], told: &mut [u8]) -> Answer
    ensures { HandsProgram made.now lines.now result (out.old, told.old) (out.new, told.new) }
{
    let answer = Answer {
        size: made.bytes.len() as u64,
        start: lines.len() as u64,
        record_count: u64::from(flag(made.lacks_stack)),
        ..NOTHING
    };
    if made.bytes.len() > out.len() || lines.len() > told.len() {
        return Answer {
            status: 8,
            ..answer
        };
    }
    let _bytes = hand_out(&made.bytes, out);
    let _lines = hand_out(lines, told);
    answer
}

/// Copies the lines of a refusal to the start of a buffer, if they fit; else it is unchanged. The result has their size.
fn hand_out_refusal(lines: &[u8], told: &mut [u8]) -> Answer
    ensures { TellsRefusal lines.now result told.old told.new }
{
    let shown = hand_out(lines, told);
    Answer {
        start: shown.size,
        ..unlinked(11)
    }
}

/// The result for a refusal.
fn refused(alloc: Global, refusal: &Refusal, told: &mut [u8]) -> Answer
    ensures { ShowsRefusal refusal.now result told.old told.new }
{
    if is_memory(refusal) {
        return MEMORY;
    }
    match fault_text(alloc, refusal) {
        Ok(text) => hand_out_refusal(&text, told),
        Err(AllocError) => MEMORY,
    }
}

/// The result for a program.
fn written(alloc: Global, made: &MadeProgram, out: &mut [u8], told: &mut [u8]) -> Answer
    ensures { HandsProgram made.now (warnings made.now) result (out.old, told.old) (out.new, told.new) ⊎ ((result ≡ record done { status = 1 }) × (out.new ≡ out.old) × (told.new ≡ told.old)) }
{
    match warnings(alloc, made) {
        Ok(lines) => hand_out_program(made, &lines, out, told),
        Err(AllocError) => MEMORY,
    }
}

/// The result for files and options.
#[tactic(auto, using(crate::proofs::FilesLaws::written_answered, crate::proofs::FilesLaws::refused_answered))]
fn answered(
    alloc: Global,
    options: &ExeOptions<'_>,
    files: Vec<InputFile>,
    out: &mut [u8],
    told: &mut [u8],
) -> Answer
    ensures { IsAnsweredOf files.items options.now result (out.old, told.old) (out.new, told.new) }
{
    match made_of(alloc, options, files) {
        Ok(made) => written(alloc, &made, out, told),
        Err(refusal) => refused(alloc, &refusal, told),
    }
}

/// Makes a DOS program of files, an .EXE or a .COM file, as `omf-link exe` and `omf-link com` do: each file has modules or is a library. At status 0 the
/// program is at the start of `out`, and the lines of what is found and allowed are at the start of `lines`. If there is none, the lines of why are there.
#[unsafe(no_mangle)]
pub extern "C" fn omf_exe(
    alloc: Global,
    files: &[FileRow<'_>],
    options: &ProgramRow,
    out: &mut [u8],
    lines: &mut [u8],
) -> Answer
    ensures { IsFilesAnswered files.now options.now result (out.old, lines.old) (out.new, lines.new) }
{
    let asked = options_of(alloc, options);
    match files_of(alloc, files) {
        Ok(read) => answered(alloc, &asked, read, out, lines),
        Err(AllocError) => MEMORY,
    }
}
