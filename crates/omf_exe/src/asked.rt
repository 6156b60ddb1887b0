//! Whether the arguments of `omf-link` ask for a program.

use crate::options::ProgramKind;
use omf_drafting::asked::Asked;

/// What is made of the modules of files.
#[derive(Clone, Copy)]
pub enum Product {
    /// A program.
    Program(ProgramKind),
    /// The modules themselves, in one file.
    Modules,
}

impl Product {
    /// The kind of the program whose modules these are: the near communals of modules in a file are where an .EXE file has them.
    pub fn kind(self) -> ProgramKind {
        match self {
            Product::Program(kind) => kind,
            Product::Modules => ProgramKind::Exe,
        }
    }
}

/// What the arguments ask for, as far as `omf-link exe`, `omf-link com` and `omf-link join` go.
pub enum Call<'a> {
    /// The task is another one.
    Other,
    /// Make this of the files, and write it to this file.
    Make(Product, &'a str),
    /// The task is one of these, and the arguments are not understood: no output, no file, or a text.
    Misused,
}

/// What the task makes.
fn product_of(asked: &Asked) -> Option<Product> {
    let [_program, task, ..] = asked.words.as_slice() else {
        return None;
    };
    match task.as_str() {
        "exe" => Some(Product::Program(ProgramKind::Exe)),
        "com" => Some(Product::Program(ProgramKind::Com)),
        "join" => Some(Product::Modules),
        _ => None,
    }
}

/// Whether there are files and no text.
fn has_files(asked: &Asked) -> bool {
    asked.text.is_none() && !asked.files.is_empty()
}

/// What the arguments ask for. The options are read by `ExeOptions::of`.
pub fn call_of(asked: &Asked) -> Call<'_> {
    let Some(product) = product_of(asked) else {
        return Call::Other;
    };
    match asked.output.as_ref() {
        Some(output) if has_files(asked) => Call::Make(product, output.as_str()),
        _ => Call::Misused,
    }
}
