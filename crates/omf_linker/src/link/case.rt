//! Whether the case of names counts: the option `--ignore-case`.

ghost use Rattle.std.specs.Prelude.{◌≡◌, IfOk, filter, map, string_bytes};
ghost use Rattle.std.specs.List.{list_any};
ghost use Rattle.omf_linker.specs.Link.Case.{is_ignore_case, is_other};

use std::alloc::{AllocError, Global};

/// Arguments without `--ignore-case`, and whether they had it.
#[derive(Drop)]
pub struct CasedWords {
    /// Whether names are compared without case.
    pub ignores_case: bool,
    /// The other arguments, in order.
    pub words: Vec<String>,
}

/// Whether an argument is the option.
fn is_ignore_case(argument: &str) -> bool
    ensures { result ≡ is_ignore_case argument.now }
{
    argument == "--ignore-case"
}

/// Whether arguments have the option.
fn has_ignore_case(arguments: &[String]) -> bool
    ensures { result ≡ list_any is_ignore_case (map string_bytes arguments.now) }
{
    for argument in arguments {
        if is_ignore_case(argument.as_str()) {
            return true;
        }
    }
    false
}

/// The arguments without the option.
fn others(alloc: Global, arguments: &[String]) -> Result<Vec<String>, AllocError>
    ensures { IfOk result (λ v. map string_bytes v.items ≡ filter is_other (map string_bytes arguments.now)) }
{
    let mut words = Vec::new(alloc);
    for argument in arguments {
        if !is_ignore_case(argument.as_str()) {
            words.push(String::from_str(alloc, argument.as_str())?)?;
        }
    }
    Ok(words)
}

/// Arguments without `--ignore-case`, and whether they had it.
///
/// # Errors
///
/// `AllocError` if memory runs out.
pub fn case_in(alloc: Global, arguments: &[String]) -> Result<CasedWords, AllocError>
    ensures words { IfOk result (λ c. map string_bytes c.words.items ≡ filter is_other (map string_bytes arguments.now)) }
    ensures ignored { IfOk result (λ c. c.ignores_case ≡ list_any is_ignore_case (map string_bytes arguments.now)) }
{
    Ok(CasedWords {
        ignores_case: has_ignore_case(arguments),
        words: others(alloc, arguments)?,
    })
}
