//! The text that shows how a program is called: its tasks, their options, and the values that these take.

use crate::numbers::{amount, number, size};
use crate::tool::tool_named;

/// What the text shows of an option.
#[derive(Clone, Copy)]
pub(crate) struct Shown<'a> {
    /// The word for its value, if it has one.
    pub word: Option<&'a str>,
    /// Whether it may be given several times, with other values.
    pub repeats: bool,
}

/// Whether a word is an option: it begins with a dash, and is not a dash alone.
pub(crate) fn is_option(word: &str) -> bool {
    word.len() > 1 && word.starts_with('-')
}

/// Whether a word has the form of a name for a value, as FILE has.
pub(crate) fn is_placeholder(word: &str) -> bool {
    match word.as_bytes() {
        [] => false,
        [first, ..] => first.is_ascii_uppercase(),
    }
}

/// Whether the word after an option is one for its value: it begins with a letter or a digit.
fn is_value(word: &str) -> bool {
    match word.as_bytes() {
        [] => false,
        [first, ..] => first.is_ascii_alphanumeric(),
    }
}

/// A word of the text without its brackets.
pub(crate) fn bare(word: &str) -> &str {
    word.trim_matches(|c| c == '[' || c == ']')
}

/// Whether one of the words between bars is this one.
pub(crate) fn is_one_of(words: &str, name: &str) -> bool {
    words.split('|').any(|one| one == name)
}

/// The program's name, and what comes after it.
pub(crate) fn parts_of(text: &str) -> (&str, &str) {
    let text = text.trim();
    let text = text.strip_prefix("usage: ").unwrap_or(text);
    text.split_once(' ').unwrap_or((text, ""))
}

/// The names of the tasks of a form, with `|` between them, and what comes after them; None if the form has no task.
pub(crate) fn tasks_of(form: &str) -> Option<(&str, &str)> {
    let (_program, rest) = parts_of(form);
    let (tasks, rest) = rest.split_once(' ').unwrap_or((rest, ""));
    match tasks.as_bytes() {
        [first, ..] if first.is_ascii_lowercase() => Some((tasks, rest)),
        _ => None,
    }
}

/// The form of a task; None if there is no such task. What is between two forms begins a line with the next one.
pub(crate) fn form_named<'a>(usage: &'a str, task: &str) -> Option<&'a str> {
    for form in usage.split("\n       omf-") {
        if let Some((tasks, _rest)) = tasks_of(form)
            && is_one_of(tasks, task)
        {
            return Some(form);
        }
    }
    None
}

/// What the first form shows that has all options among the arguments; None if no form has them all.
pub(crate) fn form_with<'a>(usage: &'a str, arguments: &[String]) -> Option<&'a str> {
    for form in usage.split("\n       omf-") {
        let (_program, rest) = parts_of(form);
        if has_options(rest, arguments) {
            return Some(rest);
        }
    }
    None
}

/// Whether a form has both options.
pub(crate) fn are_together(usage: &str, first: &str, second: &str) -> bool {
    usage.split("\n       omf-").any(|form| shown_of(form, first).is_some()
        && shown_of(form, second).is_some())
}

/// Whether a form has all options among the arguments.
fn has_options(form: &str, arguments: &[String]) -> bool {
    let mut is_value = false;
    for argument in arguments {
        let argument = argument.as_str();
        let shown = shown_of(form, argument);
        if !is_value && is_option(argument) && shown.is_none() {
            return false;
        }
        is_value = !is_value && has_word(shown);
    }
    true
}

/// What a form shows of an option; None if it does not have it.
pub(crate) fn shown_of<'a>(form: &'a str, option: &str) -> Option<Shown<'a>> {
    if !is_option(option) {
        return None;
    }
    let mut words = form.split_whitespace();
    while let Some(word) = words.next() {
        if is_one_of(bare(word), option) {
            let word = match words.next() {
                Some(next) if !word.ends_with(']') && is_value(next) => Some(bare(next)),
                Some(_) | None => None,
            };
            let repeats = words.next() == Some("..]");
            return Some(Shown { word, repeats });
        }
    }
    None
}

/// Whether what is shown has a value.
pub(crate) fn has_word(shown: Option<Shown<'_>>) -> bool {
    match shown {
        Some(shown) => shown.word.is_some(),
        None => false,
    }
}

/// The first argument that is no option and no value of one, and those after it.
pub(crate) fn next_argument<'a>(
    form: &str,
    arguments: &'a [String],
) -> Option<(&'a str, &'a [String])> {
    let mut rest = arguments;
    let mut is_value = false;
    while let [argument, others @ ..] = rest {
        let argument = argument.as_str();
        if !is_value && !is_option(argument) {
            return Some((argument, others));
        }
        is_value = !is_value && has_word(shown_of(form, argument));
        rest = others;
    }
    None
}

/// Whether a value is an order: dos, input, or classes with commas between them, each with a name.
fn is_order(value: &str) -> bool {
    if value.eq_ignore_ascii_case("dos") {
        return value == "dos";
    }
    if value.eq_ignore_ascii_case("input") {
        return value == "input";
    }
    !value.split(',').any(|class| class.is_empty())
}

/// Whether a value is a tool, an equals sign, and the name of a file.
fn is_file_for_tool(value: &str) -> bool {
    match value.split_once('=') {
        Some((tool, file)) => tool_named(tool).is_some() && !file.is_empty(),
        None => false,
    }
}

/// Whether a value is one that its option takes, by the word for it in the text.
pub(crate) fn is_allowed(word: &str, value: &str) -> bool {
    match word {
        "ADDRESS" => number(value.as_bytes(), 8).is_some(),
        "SIZE" => size(value.as_bytes()).is_some(),
        "SELECTOR" => number(value.as_bytes(), 4).is_some(),
        "BYTE" => number(value.as_bytes(), 2).is_some(),
        "N" => value.parse::<usize>().is_ok(),
        "BYTES" => match amount(value.as_bytes()) {
            Some(bytes) => bytes != 0 && bytes < 65_535,
            None => false,
        },
        "PARAGRAPHS" => match amount(value.as_bytes()) {
            Some(paragraphs) => paragraphs <= 65_535,
            None => false,
        },
        "ORDER" => is_order(value),
        "TOOL=FILE" => is_file_for_tool(value),
        _ if word.contains('|') => is_one_of(word, value),
        _ => !value.is_empty(),
    }
}

/// What a value is not, by the word for it in the text.
pub(crate) fn what_is_allowed(word: &str) -> &'static str {
    match word {
        "ADDRESS" => "no hexadecimal number of at most 8 digits",
        "SIZE" => "no hexadecimal number of at most 8 digits, nor kilobytes as 64K",
        "SELECTOR" => "no hexadecimal number of at most 4 digits",
        "BYTE" => "no hexadecimal number of at most 2 digits",
        "N" => "no decimal number",
        "BYTES" => "no number from 1 to 65534",
        "PARAGRAPHS" => "no number from 0 to 65535",
        "ORDER" => "neither dos nor input nor a list of classes as CODE,DATA",
        _ if word == "TOOL=FILE" || word.contains('|') => "none of ",
        _ => "no name",
    }
}
