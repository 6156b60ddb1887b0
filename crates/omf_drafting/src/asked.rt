//! The arguments of a program, apart from those that its task has.

ghost use Rattle.std.specs.Prelude.{◌≡◌, [], map, string_bytes, true, false, IfOk, None, OnOk, Some};
ghost use Rattle.omf_drafting.specs.Asked.{AreSorted, IsAdded, IsAddedOnce, IsPutOnce, IsSorted, is_file, is_valued, takes_value};

use std::alloc::{AllocError, Global};

/// What the arguments ask for.
#[derive(Drop)]
pub struct Asked {
    /// The arguments before the others, as the program's own name, and the options.
    pub words: Vec<String>,
    /// The names of the files; `-` is the standard input.
    pub files: Vec<String>,
    /// The name of the file with the text.
    pub text: Option<String>,
    /// The name of the file that is to be written.
    pub output: Option<String>,
}

/// Whether an option takes the next argument as its value.
fn is_valued(argument: &str) -> bool
    ensures { result ≡ is_valued argument.now }
{
    match argument {
        "--base" => true,
        "--flat" => true,
        "--size" => true,
        "--fill" => true,
        "--addresses" => true,
        "--map" => true,
        "--symbols" => true,
        "--library-path" => true,
        "-L" => true,
        "--no-default-library" => true,
        "--stack" => true,
        "--max-alloc" => true,
        "--order" => true,
        "--allow" => true,
        _ => false,
    }
}

/// Whether an argument takes the next one as its value.
fn takes_value(argument: &str) -> bool
    ensures { result ≡ takes_value argument.now }
{
    argument == "-t" || argument == "-o" || is_valued(argument)
}

/// Whether an argument is the name of a file: it does not begin with a dash, unless it is a dash alone.
fn is_file(argument: &str) -> bool
    ensures { result ≡ is_file argument.now }
{
    if argument == "-" {
        return true;
    }
    match argument.as_bytes() {
        [] => true,
        [first, ..] => *first != b'-',
    }
}

/// Copies of the first arguments.
fn first_words(alloc: Global, arguments: &[String]) -> Result<Vec<String>, AllocError>
    ensures { IfOk result (λ v. map string_bytes v.items ≡ map string_bytes arguments.now) }
{
    let mut words = Vec::new(alloc);
    for argument in arguments {
        words.push(String::from_str(alloc, argument.as_str())?)?;
    }
    Ok(words)
}

/// Puts a value where there is none. Returns false if there is one.
fn put_once(alloc: Global, slot: &mut Option<String>, value: &str) -> Result<bool, AllocError>
    ensures { IfOk result (IsPutOnce slot.old slot.new value.now) }
{
    if slot.is_some() {
        return Ok(false);
    }
    *slot = Some(String::from_str(alloc, value)?);
    Ok(true)
}

impl Asked {
    /// The first arguments, and no others.
    fn of(alloc: Global, first: &[String]) -> Result<Asked, AllocError>
        ensures { IfOk result (AreSorted (map string_bytes first.now) []) }
    {
        Ok(Asked {
            words: first_words(alloc, first)?,
            files: Vec::new(alloc),
            text: None,
            output: None,
        })
    }

    /// Adds an argument without a value: an option or the name of a file.
    fn add(&mut self, alloc: Global, argument: &str) -> Result<(), AllocError>
        requires { takes_value argument.now ≡ false }
        ensures { OnOk result (IsAdded self.old self.new (record { name = argument.now; value = None })) }
    {
        let word = String::from_str(alloc, argument)?;
        if is_file(argument) {
            self.files.push(word)?;
        } else {
            self.words.push(word)?;
        }
        Ok(())
    }

    /// Adds an option and its value.
    fn add_option(&mut self, alloc: Global, argument: &str, value: &str) -> Result<(), AllocError>
        requires { is_valued argument.now ≡ true }
        ensures { OnOk result (IsAdded self.old self.new (record { name = argument.now; value = Some value.now })) }
    {
        let option = String::from_str(alloc, argument)?;
        let value = String::from_str(alloc, value)?;
        self.words.push(option)?;
        self.words.push(value)?;
        Ok(())
    }

    /// Adds an argument and its value. Returns false if it names a second text or a second output.
    fn add_valued(&mut self, alloc: Global, argument: &str, value: &str) -> Result<bool, AllocError>
        requires { takes_value argument.now ≡ true }
        ensures { IfOk result (IsAddedOnce self.old self.new (record { name = argument.now; value = Some value.now })) }
    {
        match argument {
            "-t" => put_once(alloc, &mut self.text, value),
            "-o" => put_once(alloc, &mut self.output, value),
            _ => {
                self.add_option(alloc, argument, value)?;
                Ok(true)
            }
        }
    }
}

/// Sorts arguments: the first `head` stay as they are, and options, the names of files, the text after `-t` and the output after `-o` follow
/// in any order. None if an argument has no value after it where it takes one, or if there are two texts or two outputs.
///
/// # Errors
///
/// `AllocError` if memory runs out.
pub fn sorted(alloc: Global, arguments: &[String], head: usize) -> Result<Option<Asked>, AllocError>
    ensures { IfOk result (IsSorted head (map string_bytes arguments.now)) }
{
    let (first, others) = arguments.split_at(head.min(arguments.len()));
    let mut asked = Asked::of(alloc, first)?;
    let mut rest = others;
    while let [argument, others @ ..] = rest {
        if !takes_value(argument.as_str()) {
            asked.add(alloc, argument.as_str())?;
            rest = others;
            continue;
        }
        let [value, others @ ..] = others else {
            return Ok(None);
        };
        if !asked.add_valued(alloc, argument.as_str(), value.as_str())? {
            return Ok(None);
        }
        rest = others;
    }
    Ok(Some(asked))
}
