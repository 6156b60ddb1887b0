//! Running a program on arguments written out, also over an input in memory.

ghost use Rattle.std.specs.Prelude.{◌≡◌, ◌↔◌, ◌≤◌, map, string_bytes, true, IfOk, OnErr};
ghost use Rattle.omf_cmd.specs.Programs.{AnswersInMemory, ProgramAnswers};

use crate::gathered::Gathered;
use crate::program::{Program, run_with};
use omf_frame::{Bytes, Sink, Source};
use std::alloc::{AllocError, Global};

/// The exit status of a program, and what it wrote.
#[derive(Drop)]
pub struct Ended {
    /// The exit status, 0 to 3.
    pub status: u8,
    /// All that it wrote.
    pub text: Vec<u8>,
}

impl Ended {
    /// Whether the status and the text are these.
    pub fn is(&self, status: u8, text: &[u8]) -> bool
        ensures { result ≡ true ↔ (self.now.status ≡ status) × (self.now.text.items ≡ text.now) }
    {
        self.status == status && self.text.as_slice() == text
    }
}

/// The arguments as strings.
pub fn words_from(alloc: Global, words: &[&str]) -> Result<Vec<String>, AllocError>
    ensures { IfOk result (λ texts. map string_bytes texts.items ≡ map (λ word. word.now) words.now) }
{
    let mut texts = Vec::new(alloc);
    for word in words {
        texts.push(String::from_str(alloc, *word)?)?;
    }
    Ok(texts)
}

/// Runs a program on arguments, the program's own name first. Returns its exit status.
///
/// # Errors
///
/// `AllocError` if the arguments do not fit in memory; nothing is read or written then.
pub fn run_on<P: Program, S: Source, K: Sink>(
    alloc: Global,
    words: &[&str],
    reader: &mut S,
    writer: &mut K,
) -> Result<u8, AllocError>
    ensures known { IfOk result (λ status. status ≤ 3) }
    ensures kept { OnErr result ((S.seen reader.new ≡ S.seen reader.old) × (K.seen writer.new ≡ K.seen writer.old)) }
    ensures answers { IfOk result (λ status. ProgramAnswers P.asks P.performs P.Fault.report P.called (map (λ word. word.now) words.now) (S.seen reader.old) (S.seen reader.new) (K.seen writer.old) (K.seen writer.new) status) }
{
    let words = words_from(alloc, words)?;
    Ok(run_with::<P, _, _>(alloc, &words, reader, writer))
}

/// Runs a program on arguments, the program's own name first, and an input in memory.
///
/// # Errors
///
/// `AllocError` if the arguments do not fit in memory. If the output does not, the program ends with the status of a failing writer.
pub fn run_in_memory<P: Program>(
    alloc: Global,
    words: &[&str],
    input: &[u8],
) -> Result<Ended, AllocError>
    ensures known { IfOk result (λ ended. ended.status ≤ 3) }
    ensures answers { IfOk result (λ ended. AnswersInMemory (ProgramAnswers P.asks P.performs P.Fault.report P.called) (map (λ word. word.now) words.now) input.now ended.status ended.text.items) }
{
    let mut gathered = Gathered::new(alloc);
    let status = run_on::<P, _, _>(alloc, words, &mut Bytes::new(input), &mut gathered)?;
    Ok(Ended {
        status,
        text: gathered.text,
    })
}
