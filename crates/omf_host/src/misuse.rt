//! What a program shows of itself, and what is wrong with arguments that it does not understand, by the text that shows how it is called.

ghost use Rattle.std.specs.Prelude.{◌≡◌, IfOk};
ghost use Rattle.omf_host.specs.declared.ending.Status.TheVariants.{Misused};

use crate::ending::Status;
use crate::output::{misused, put};
use crate::question::{Question, answer};
use crate::streams::Streams;
use crate::text::put_quoted;
use crate::tool::TOOLS;
use crate::usage::{
    Shown, are_together, bare, form_named, form_with, has_word, is_allowed, is_one_of, is_option,
    is_placeholder, next_argument, parts_of, shown_of, tasks_of, what_is_allowed,
};
use crate::words::{SpelledArguments, spelled_arguments};
use omf_frame::Sink;
use std::alloc::{AllocError, Global};

/// What is wrong with arguments.
#[derive(Clone, Copy)]
enum Misuse<'a> {
    /// The program has tasks, and no argument names one.
    NoTask,
    /// The program has no such task.
    UnknownTask(&'a str),
    /// There is no such option.
    UnknownOption(&'a str),
    /// The option has no value after it.
    NoValue(&'a str),
    /// The value of the option is none that it takes.
    WrongValue(Given<'a>),
    /// The option is given twice.
    Twice(&'a str),
    /// Only one of the two options may be given.
    Both(&'a str, &'a str),
    /// This option is missing.
    NoOption(&'a str),
    /// A file, or whatever has this name in the text, is missing.
    NoArgument(&'a str),
    /// This is one file more than the program takes.
    OneTooMany(&'a str),
    /// The options do not go together.
    Other,
}

/// An option with a value, and the word for the value in the text.
#[derive(Clone, Copy)]
struct Given<'a> {
    option: &'a str,
    value: &'a str,
    word: &'a str,
}

/// The first option that the form does not have, or that has no value after it, or has one that it does not take.
fn wrong_option<'a>(form: &'a str, arguments: &'a [String]) -> Option<Misuse<'a>> {
    let mut open: Option<(&str, &str)> = None;
    for argument in arguments {
        let argument = argument.as_str();
        if let Some((option, word)) = open.take() {
            if !is_allowed(word, argument) {
                return Some(Misuse::WrongValue(Given {
                    option,
                    value: argument,
                    word,
                }));
            }
        } else if is_option(argument) {
            match shown_of(form, argument) {
                None => return Some(Misuse::UnknownOption(argument)),
                Some(shown) => {
                    if let Some(word) = shown.word {
                        open = Some((argument, word));
                    }
                }
            }
        }
    }
    match open {
        Some((option, _)) => Some(Misuse::NoValue(option)),
        None => None,
    }
}

/// Whether two arguments are there, and are equal.
fn are_equal(one: Option<&String>, other: Option<&String>) -> bool {
    match one {
        Some(one) => match other {
            Some(other) => one.as_str() == other.as_str(),
            None => false,
        },
        None => false,
    }
}

/// Whether an option comes again among the arguments after it; with the same value, if it may be given several times.
fn is_repeated(shown: Shown<'_>, option: &str, others: &[String]) -> bool {
    let mut rest = others;
    while let [one, next @ ..] = rest {
        if one.as_str() == option && (!shown.repeats || are_equal(others.first(), next.first())) {
            return true;
        }
        rest = next;
    }
    false
}

/// The first option that is given twice.
fn repeated_option<'a>(form: &str, arguments: &'a [String]) -> Option<Misuse<'a>> {
    let mut rest = arguments;
    let mut is_value = false;
    while let [argument, others @ ..] = rest {
        let argument = argument.as_str();
        let shown = if is_value {
            None
        } else {
            shown_of(form, argument)
        };
        if let Some(shown) = shown
            && is_repeated(shown, argument, others)
        {
            return Some(Misuse::Twice(argument));
        }
        is_value = has_word(shown);
        rest = others;
    }
    None
}

/// Whether an option is among the arguments.
fn is_given(option: &str, arguments: &[String]) -> bool {
    arguments.iter().any(|one| one.as_str() == option)
}

/// The words, if they are options that are both among the arguments.
fn both_given<'a>(first: &'a str, second: &'a str, arguments: &[String]) -> Option<Misuse<'a>> {
    if is_option(first) && is_given(first, arguments) && is_given(second, arguments) {
        Some(Misuse::Both(first, second))
    } else {
        None
    }
}

/// Two options among the arguments, with a bar between them in the form.
fn one_or_the_other<'a>(form: &'a str, arguments: &[String]) -> Option<Misuse<'a>> {
    let mut option = "";
    let mut is_second = false;
    for word in form.split_whitespace() {
        let word = bare(word);
        let (first, second) = if is_second {
            (option, word)
        } else {
            word.split_once('|').unwrap_or(("", ""))
        };
        if let Some(misuse) = both_given(first, second, arguments) {
            return Some(misuse);
        }
        if is_option(word) {
            option = word;
        }
        is_second = word == "|";
    }
    None
}

/// The first option that the form shows without brackets and that is not among the arguments.
fn missing_option<'a>(form: &'a str, arguments: &[String]) -> Option<Misuse<'a>> {
    let mut optional = false;
    for word in form.split_whitespace() {
        optional = optional || word.starts_with('[');
        if !optional && is_option(word) && !word.split('|').any(|one| is_given(one, arguments)) {
            return Some(Misuse::NoOption(word));
        }
        optional = optional && !word.ends_with(']');
    }
    None
}

/// The first word that the form shows without brackets, that is no option and no value of one, and for which there is no argument.
fn missing_argument<'a>(form: &'a str, arguments: &[String]) -> Option<Misuse<'a>> {
    let mut rest = arguments;
    let mut optional = false;
    let mut is_value = false;
    for word in form.split_whitespace() {
        optional = optional || word.starts_with('[');
        if !optional && !is_value && is_placeholder(word) {
            match next_argument(form, rest) {
                Some((_, others)) => rest = others,
                None => return Some(Misuse::NoArgument(word)),
            }
        }
        is_value = is_option(word);
        optional = optional && !word.ends_with(']');
    }
    None
}

/// The argument after those for which the form has a word, unless several may take the place of one of its words.
fn extra_argument<'a>(form: &str, arguments: &'a [String]) -> Option<Misuse<'a>> {
    let mut rest = arguments;
    let mut is_value = false;
    let mut is_argument = false;
    for word in form.split_whitespace() {
        if is_argument && word.starts_with("..") {
            return None;
        }
        is_argument = !is_value && is_placeholder(bare(word));
        if is_argument && let Some((_, others)) = next_argument(form, rest) {
            rest = others;
        }
        is_value = is_option(bare(word)) && !word.ends_with(']');
    }
    match next_argument(form, rest) {
        Some((extra, _)) => Some(Misuse::OneTooMany(extra)),
        None => None,
    }
}

/// That a file is missing, if there is a text of a link: without a text, modules and text are the standard input.
fn missing_module<'a>(form: &str, arguments: &[String]) -> Option<Misuse<'a>> {
    if is_given("-t", arguments) && next_argument(form, arguments).is_none() {
        Some(Misuse::NoArgument("FILE"))
    } else {
        None
    }
}

/// What is wrong with the arguments after the task, or with all arguments of a program without tasks.
fn wrong_in<'a>(form: &'a str, arguments: &'a [String]) -> Misuse<'a> {
    wrong_option(form, arguments)
        .or(missing_option(form, arguments))
        .or(missing_argument(form, arguments))
        .or(one_or_the_other(form, arguments))
        .or(extra_argument(form, arguments))
        .or(repeated_option(form, arguments))
        .or(missing_module(form, arguments))
        .unwrap_or(Misuse::Other)
}

/// What is wrong with the arguments of a program with tasks.
fn wrong_task<'a>(usage: &'a str, arguments: &'a [String]) -> Misuse<'a> {
    let [task, others @ ..] = arguments else {
        return Misuse::NoTask;
    };
    if let Some(form) = form_named(usage, task.as_str())
        && let Some((_tasks, rest)) = tasks_of(form)
    {
        return wrong_in(rest, others);
    }
    Misuse::UnknownTask(task.as_str())
}

/// Two options among the arguments that no form has together: the first, and an option after it.
fn first_apart<'a>(usage: &str, first: &'a str, others: &'a [String]) -> Option<Misuse<'a>> {
    for other in others {
        let other = other.as_str();
        if is_option(other) && !are_together(usage, first, other) {
            return Some(Misuse::Both(first, other));
        }
    }
    None
}

/// The same, of all arguments.
fn pair_apart<'a>(usage: &str, arguments: &'a [String]) -> Option<Misuse<'a>> {
    let mut rest = arguments;
    while let [first, others @ ..] = rest {
        let first = first.as_str();
        if is_option(first)
            && let Some(misuse) = first_apart(usage, first, others)
        {
            return Some(misuse);
        }
        rest = others;
    }
    None
}

/// What is wrong with arguments that a program does not understand.
fn wrong<'a>(usage: &'a str, arguments: &'a [String]) -> Misuse<'a> {
    if tasks_of(usage).is_some() {
        return wrong_task(usage, arguments);
    }
    match form_with(usage, arguments) {
        Some(form) => wrong_in(form, arguments),
        None => {
            let (_program, all) = parts_of(usage);
            wrong_option(all, arguments)
                .or(pair_apart(usage, arguments))
                .unwrap_or(Misuse::Other)
        }
    }
}

/// Appends a file for each tool, with commas between them.
fn put_tools(text: &mut String) -> Result<(), AllocError> {
    let mut between = "";
    for tool in TOOLS {
        text.push_str(between)?;
        text.push_str(tool.name())?;
        text.push_str("=FILE")?;
        between = ", ";
    }
    Ok(())
}

/// Appends the values of which an option takes one, by the word for them.
fn put_choices(text: &mut String, word: &str) -> Result<(), AllocError> {
    if word == "TOOL=FILE" {
        put_tools(text)
    } else {
        text.push_str(word)
    }
}

/// Appends that a value is none that its option takes: the option, the value, and what it takes.
fn put_wrong_value(text: &mut String, given: Given<'_>) -> Result<(), AllocError> {
    let allowed = what_is_allowed(given.word);
    text.push_str(given.option)?;
    text.push_str(": ")?;
    put_quoted(text, given.value.as_bytes())?;
    text.push_str(" is ")?;
    text.push_str(allowed)?;
    if allowed.ends_with(' ') {
        put_choices(text, given.word)?;
    }
    Ok(())
}

/// Appends that only one of two options may be given.
fn put_both(text: &mut String, first: &str, second: &str) -> Result<(), AllocError> {
    text.push_str("the options ")?;
    put_quoted(text, first.as_bytes())?;
    text.push_str(" and ")?;
    put_quoted(text, second.as_bytes())?;
    text.push_str(" do not go together")
}

/// Appends what is wrong.
fn put_misuse(text: &mut String, misuse: Misuse<'_>) -> Result<(), AllocError> {
    let (front, name, back) = match misuse {
        Misuse::NoTask => return text.push_str("no task"),
        Misuse::Other => return text.push_str("the options do not go together"),
        Misuse::WrongValue(given) => return put_wrong_value(text, given),
        Misuse::Both(first, second) => return put_both(text, first, second),
        Misuse::UnknownTask(name) => ("there is no task ", name, ""),
        Misuse::UnknownOption(name) => ("there is no option ", name, ""),
        Misuse::NoValue(name) => ("the option ", name, " has no value"),
        Misuse::Twice(name) => ("the option ", name, " is given twice"),
        Misuse::NoOption(name) => ("the option ", name, " is missing"),
        Misuse::NoArgument(name) => ("no ", name, " is given"),
        Misuse::OneTooMany(name) => ("", name, " is one file too many"),
    };
    text.push_str(front)?;
    put_quoted(text, name.as_bytes())?;
    text.push_str(back)
}

/// The line on what is wrong with arguments that a program does not understand, without its own name: the program's name, a colon, and what is
/// wrong by the text that shows how it is called.
///
/// # Errors
///
/// `AllocError` if out of memory.
pub fn misuse_line(
    alloc: Global,
    about: &About,
    arguments: &[String],
) -> Result<String, AllocError> {
    let mut line = String::from_str(alloc, about.name)?;
    line.push_str(": ")?;
    put_misuse(&mut line, wrong(about.usage, arguments))?;
    line.push('\n')?;
    Ok(line)
}

/// The words on arguments of which some are not UTF-8, the first of them in quotes; or on arguments that are not understood.
fn misuse_words(
    alloc: Global,
    about: &About,
    given: &SpelledArguments,
) -> Result<String, AllocError> {
    let mut line = String::new(alloc);
    match given.spelled.first() {
        Some(first) => {
            line.push('"')?;
            line.push_str(first.as_str())?;
            line.push_str("\" is not UTF-8, and the name of a file must be\n")?;
        }
        None => {
            put_misuse(&mut line, wrong(about.usage, given.words.as_slice()))?;
            line.push('\n')?;
        }
    }
    Ok(line)
}

/// What a program shows of itself.
pub struct About {
    /// Its name.
    pub name: &'static str,
    /// The same in color, as a terminal shows it.
    pub colored_name: &'static str,
    /// How it is called, a line or more for each way, as `usage: omf-x task [--option VALUE] FILE ..`: what is in brackets may be left out, names in
    /// capitals are for values (ADDRESS, SIZE, SELECTOR, BYTE are hexadecimal; N, BYTES, PARAGRAPHS decimal; ORDER and TOOL=FILE are as in `omf-link`),
    /// and an option with `..` may be given several times.
    pub usage: &'static str,
    /// What its tasks and its options do.
    pub details: &'static str,
}

/// Writes the answer to a question: how the program is called and what its options do, or its name and its version. Returns `Done`, or `Failed`
/// if the writer failed.
///
/// # Errors
///
/// `AllocError` if out of memory.
pub fn explain<K: Sink>(
    alloc: Global,
    writer: &mut K,
    question: Question,
    about: &About,
) -> Result<Status, AllocError> {
    let status = answer(alloc, writer, question, about.name, about.usage.as_bytes())?;
    match question {
        Question::Usage => Ok(status.worst(put(writer, about.details.as_bytes()))),
        Question::Version => Ok(status),
    }
}

/// How a program is called for a task.
fn usage_of_task(alloc: Global, name: &str, form: &str) -> Result<String, AllocError> {
    let (_program, rest) = parts_of(form);
    let mut text = String::from_str(alloc, "usage: ")?;
    text.push_str(name)?;
    text.push(' ')?;
    text.push_str(rest)?;
    text.push('\n')?;
    Ok(text)
}

/// How a program is called for the task that the arguments name; for all tasks, if they name none.
fn usage_for(alloc: Global, about: &About, arguments: &[String]) -> Result<String, AllocError> {
    if let [task, ..] = arguments
        && let Some(form) = form_named(about.usage, task.as_str())
    {
        return usage_of_task(alloc, about.name, form);
    }
    String::from_str(alloc, about.usage)
}

/// Writes what is wrong with the arguments of the process on the standard error, and how the program is called for their task. Returns `Misused`.
///
/// # Errors
///
/// `AllocError` if out of memory.
pub fn misused_by<K, E: Sink>(
    rt: &HostRuntime,
    streams: &mut Streams<K, E>,
    about: &About,
) -> Result<Status, AllocError>
    ensures status { IfOk result (λ status. status ≡ Misused) }
    ensures output { streams.new.output ≡ streams.old.output }
{
    let given = spelled_arguments(rt, about.usage)?;
    let line = misuse_words(rt.alloc(), about, &given)?;
    let usage = usage_for(rt.alloc(), about, given.words.as_slice())?;
    streams.report(rt.alloc(), line.as_bytes())?;
    Ok(misused(streams, usage.as_bytes()))
}
