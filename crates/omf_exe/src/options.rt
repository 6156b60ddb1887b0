//! The options of `omf-link exe` and `omf-link com`.

ghost use Rattle.std.specs.Prelude.{◌≡◌, ◌||◌, is_some};
ghost use Rattle.omf_exe.specs.Making.{maximum};

use omf_host::{amount, is_named};
use omf_symbols::{Tool, tool_named};
use omf_trimming::LeftOut;
use std::alloc::{AllocError, Global};

/// The order of the segments of a program.
#[derive(Drop)]
pub enum Order<'a> {
    /// DOS order: that of `order_module` of omf_layout.
    Dos,
    /// The order in which classes and names first appear in the modules.
    Input,
    /// These classes first, in this order; the others as they first appear.
    Classes(Vec<&'a [u8]>),
}

/// The kind of a DOS program.
#[derive(Clone, Copy, Debug, PartialEq, Eq)]
pub enum ProgramKind {
    /// An MZ file (.EXE).
    Exe,
    /// A .COM file.
    Com,
}

/// The symbols of a program that are written.
#[derive(Clone, Copy, Debug, PartialEq, Eq)]
pub struct SymbolsFile<'a> {
    /// The tool that imports them.
    pub tool: Tool,
    /// The name of the file, which is not empty.
    pub name: &'a str,
}

/// The symbols that a value names: a tool, an equals sign, and the name of a file.
fn symbols_named(value: &str) -> Option<SymbolsFile<'_>> {
    let (tool, name) = value.split_once('=')?;
    if name.is_empty() {
        return None;
    }
    let tool = tool_named(tool)?;
    Some(SymbolsFile { tool, name })
}

/// The classes that a value lists, with commas between them. None if one has no name, or if the value is `dos` or `input` in another case.
fn classes_listed<'a>(alloc: Global, value: &'a str) -> Result<Option<Order<'a>>, AllocError> {
    if value.eq_ignore_ascii_case("dos") || value.eq_ignore_ascii_case("input") {
        return Ok(None);
    }
    let mut classes = Vec::new(alloc);
    for class in value.split(',') {
        if class.is_empty() {
            return Ok(None);
        }
        classes.push(class.as_bytes())?;
    }
    Ok(Some(Order::Classes(classes)))
}

/// The order that a value names.
fn order_named<'a>(alloc: Global, value: &'a str) -> Result<Option<Order<'a>>, AllocError> {
    match value {
        "dos" => Ok(Some(Order::Dos)),
        "input" => Ok(Some(Order::Input)),
        _ => classes_listed(alloc, value),
    }
}

/// The options of `omf-link exe` and `omf-link com`.
#[derive(Drop)]
pub struct ExeOptions<'a> {
    /// The kind of the program, which the task names.
    pub kind: ProgramKind,
    /// The name of the file for the map.
    pub map: Option<&'a str>,
    /// The symbols that are written.
    pub symbols: Option<SymbolsFile<'a>>,
    /// The folders in which files and libraries are looked for, in order, after the current one.
    pub folders: Vec<&'a str>,
    /// Whether the libraries that modules ask for are looked for.
    pub default_libraries: bool,
    /// The libraries that are not looked for, though modules ask for them.
    pub left_out: Vec<&'a str>,
    /// Whether names are compared without case.
    pub ignore_case: bool,
    /// The bytes of the stack, from 1 to 65534. None: as many as the modules' own.
    pub stack: Option<u16>,
    /// The paragraphs after its image that an .EXE file asks for at most. None: all that there are.
    pub max_alloc: Option<u16>,
    /// The order of the segments. None: DOS order if a module asks for it, else that of the modules.
    pub order: Option<Order<'a>>,
    /// Whether several publics may have one name, if no external has it.
    pub allows_twice: bool,
    /// Whether 16-bit segments and groups may be longer than 64 KB.
    pub allows_long: bool,
    /// Whether near references may be into another frame.
    pub allows_near: bool,
    /// Whether 16-bit and 32-bit parts may be one segment.
    pub allows_mixed: bool,
    /// The segments that are left out where nothing reaches them.
    pub unreached: LeftOut,
}

/// The size of a stack: a number from 1 to 65534, decimal without a mark.
fn stack_of(value: &str) -> Option<u16> {
    match u16::try_from(amount(value.as_bytes())?) {
        Ok(0 | u16::MAX) => None,
        Ok(size) => Some(size),
        Err(_) => None,
    }
}

/// A number of paragraphs: from 0 to 65535, decimal without a mark.
fn paragraphs_of(value: &str) -> Option<u16> {
    match u16::try_from(amount(value.as_bytes())?) {
        Ok(paragraphs) => Some(paragraphs),
        Err(_) => None,
    }
}

/// Puts a value where there is none. Returns false if there is one, or if there is no value.
fn put_once<T: Copy>(slot: &mut Option<T>, value: Option<T>) -> bool {
    if slot.is_some() {
        return false;
    }
    *slot = value;
    slot.is_some()
}

/// Allows what is not allowed yet. Returns false if it is.
fn allow_once(is_allowed: &mut bool) -> bool {
    let is_new = !*is_allowed;
    *is_allowed = true;
    is_new
}

impl<'a> ExeOptions<'a> {
    /// The options of a call without any, for a program of this kind.
    pub fn new(alloc: Global, kind: ProgramKind) -> ExeOptions<'a> {
        ExeOptions {
            kind,
            map: None,
            symbols: None,
            folders: Vec::new(alloc),
            default_libraries: true,
            left_out: Vec::new(alloc),
            ignore_case: false,
            stack: None,
            max_alloc: None,
            order: None,
            allows_twice: false,
            allows_long: false,
            allows_near: false,
            allows_mixed: false,
            unreached: LeftOut {
                code: false,
                debug: true,
            },
        }
    }

    /// Whether none of the options is one of a program's file alone: its map and symbols, its stack and room, what may be in it, and what is left out of
    /// its code, to which modules that are linked later may refer.
    pub fn is_of_modules(&self) -> bool {
        let sizes = self.stack.is_some() || self.max_alloc.is_some();
        let allows = self.allows_twice || self.allows_long || self.allows_near || self.allows_mixed;
        !self.shows_names() && !sizes && !allows && !self.unreached.code
    }

    /// Whether names of the modules are written: in a map, or as symbols.
    pub fn shows_names(&self) -> bool
        ensures { result ≡ (is_some self.now.map || is_some self.now.symbols) }
    {
        self.map.is_some() || self.symbols.is_some()
    }

    /// Allows what a value names. Returns false if that is none of what a program may do, or if it is allowed already.
    fn allow(&mut self, kind: &str) -> bool {
        match kind {
            "twice" => allow_once(&mut self.allows_twice),
            "group" => allow_once(&mut self.allows_long),
            "near" => allow_once(&mut self.allows_near),
            "mixed" => allow_once(&mut self.allows_mixed),
            _ => false,
        }
    }

    /// Takes the order that a value names. Returns false if it names none, or if there is one.
    fn take_order(&mut self, alloc: Global, value: &'a str) -> Result<bool, AllocError> {
        if self.order.is_some() {
            return Ok(false);
        }
        self.order = order_named(alloc, value)?;
        Ok(self.order.is_some())
    }

    /// Takes an option without a value. Returns false if it is none.
    fn take_flag(&mut self, name: &str) -> bool {
        match name {
            "--no-default-libraries" => {
                self.default_libraries = false;
                true
            }
            "--ignore-case" => {
                self.ignore_case = true;
                true
            }
            "--keep-debug" => {
                self.unreached.debug = false;
                true
            }
            "--eliminate" => {
                self.unreached.code = true;
                true
            }
            _ => false,
        }
    }

    /// Takes an option with its value. Returns false if there is no such option, if the value is none of its values, or if it has one.
    fn take(&mut self, alloc: Global, name: &str, value: &'a str) -> Result<bool, AllocError> {
        match name {
            "--map" => Ok(put_once(&mut self.map, Some(value))),
            "--symbols" => Ok(put_once(&mut self.symbols, symbols_named(value))),
            "--library-path" | "-L" => {
                self.folders.push(value)?;
                Ok(true)
            }
            "--no-default-library" => {
                self.left_out.push(value)?;
                Ok(true)
            }
            "--stack" => Ok(put_once(&mut self.stack, stack_of(value))),
            "--max-alloc" => Ok(
                self.kind == ProgramKind::Exe
                    && put_once(&mut self.max_alloc, paragraphs_of(value)),
            ),
            "--order" => self.take_order(alloc, value),
            "--allow" => Ok(self.allow(value)),
            _ => Ok(false),
        }
    }

    /// The paragraphs after its image that an .EXE file asks DOS for at most.
    pub(crate) fn maximum(&self) -> u16
        ensures { result ≡ maximum self.now }
    {
        self.max_alloc.unwrap_or(u16::MAX)
    }

    /// Whether a library is not looked for, though modules ask for it. The case of its name does not count, nor `.lib` at its end.
    pub fn leaves_out(&self, library: &str) -> bool {
        if !self.default_libraries {
            return true;
        }
        for name in &self.left_out {
            if is_named(library, *name) || is_named(*name, library) {
                return true;
            }
        }
        false
    }

    /// The options that arguments give for a program of this kind. None if one is unknown, has no value or a wrong one, or is given twice, but for
    /// `-L`, `--library-path` and `--no-default-library`.
    ///
    /// # Errors
    ///
    /// `AllocError` if memory runs out.
    pub fn of(
        alloc: Global,
        kind: ProgramKind,
        arguments: &'a [String],
    ) -> Result<Option<ExeOptions<'a>>, AllocError> {
        let mut options = ExeOptions::new(alloc, kind);
        let mut rest = arguments;
        while let [name, others @ ..] = rest {
            if options.take_flag(name.as_str()) {
                rest = others;
                continue;
            }
            let [value, others @ ..] = others else {
                return Ok(None);
            };
            if !options.take(alloc, name.as_str(), value.as_str())? {
                return Ok(None);
            }
            rest = others;
        }
        Ok(Some(options))
    }
}
