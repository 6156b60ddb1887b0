//! What a program shows of itself: how it is called, and its version.

ghost use Rattle.std.specs.Prelude.{◌≡◌, IfOk, map, string_bytes};
ghost use Rattle.omf_host.specs.Ending.{IsPut};
ghost use Rattle.omf_host.specs.Question.{answer_text, first_question, question_in, question_of, question_with_tasks, version_line};

use crate::ending::Status;
use crate::output::put;
use omf_frame::Sink;
use std::alloc::{AllocError, Global};

/// The end of the line of a version, which is that of the file VERSION.
const VERSION: &str = " 1.0.0\n";

/// What the arguments ask about the program itself.
#[derive(Clone, Copy)]
pub enum Question {
    /// `--help` or `-h`: how it is called.
    Usage,
    /// `--version`.
    Version,
}

/// The question that an argument is.
fn question_of(argument: &str) -> Option<Question>
    ensures { result ≡ question_of argument.now }
{
    match argument {
        "--help" => Some(Question::Usage),
        "-h" => Some(Question::Usage),
        "--version" => Some(Question::Version),
        _ => None,
    }
}

/// The question that is the only argument, if it is one.
pub fn question_in(arguments: &[String]) -> Option<Question>
    ensures { result ≡ question_in (map string_bytes arguments.now) }
{
    match arguments {
        [argument] => question_of(argument.as_str()),
        _ => None,
    }
}

/// The question that the only argument of a program with tasks is.
fn first_question(argument: &str) -> Option<Question>
    ensures { result ≡ first_question argument.now }
{
    match argument {
        "help" => Some(Question::Usage),
        _ => question_of(argument),
    }
}

/// The question to a program with tasks: `help` or one of the others as the only argument, or one of the others after a task.
pub fn question_with_tasks(arguments: &[String]) -> Option<Question>
    ensures { result ≡ question_with_tasks (map string_bytes arguments.now) }
{
    match arguments {
        [argument] => first_question(argument.as_str()),
        [_task, argument] => question_of(argument.as_str()),
        _ => None,
    }
}

/// The line of a version.
fn version_line(alloc: Global, name: &str) -> Result<String, AllocError>
    ensures { IfOk result (λ line. string_bytes line ≡ version_line name.now) }
{
    let mut line = String::from_str(alloc, name)?;
    line.push_str(VERSION)?;
    Ok(line)
}

/// Writes the answer: the usage, or the program's name and the version. Returns `Done`, or `Failed` if the writer failed.
///
/// # Errors
///
/// `AllocError` if out of memory.
pub fn answer<K: Sink>(
    alloc: Global,
    writer: &mut K,
    question: Question,
    name: &str,
    usage: &[u8],
) -> Result<Status, AllocError>
    ensures { IfOk result (λ status. IsPut (K.seen writer.old) (K.seen writer.new) (answer_text question name.now usage.now) status) }
{
    match question {
        Question::Usage => Ok(put(writer, usage)),
        Question::Version => {
            let line = version_line(alloc, name)?;
            Ok(put(writer, line.as_bytes()))
        }
    }
}
