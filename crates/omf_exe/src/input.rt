//! The modules of files: those that are given, and the members of libraries.

ghost use Rattle.std.specs.Prelude.{◌≡◌, ◌++◌, [], IfErr, IfOk, OnOk, false, length, true};
ghost use Rattle.std.specs.List.{AllZip};
ghost use Rattle.omf_linking.specs.Folded.{IsFolded};
ghost use Rattle.omf_exe.specs.Input.{AllGive, IsFileFault, IsInputFault, IsMemberFolded, is_library};
ghost use Rattle.omf_exe.specs.Origins.{AllFrom, origins_in};
ghost use Rattle.omf_exe.specs.Inner.Input.{IsAdded};

use crate::folding::folded_members;
use crate::lowered::{taken_members, taken_modules};
use crate::with_communals::members_with_communals;
use omf_aliases::any_profile;
use omf_check::Checked;
use omf_communals::all_with_communals;
use omf_externals::move_all;
use omf_library::{LibraryFault, LibraryMember, library_members};
use omf_linking::{InputFile, LinkFault, folded_all};
use std::alloc::{AllocError, AllocFailed, Global};

/// The type of the record that a library begins with.
const LIBRARY: u8 = 0xF0;

/// Where a module comes from.
#[derive(Clone, Copy)]
pub(crate) struct Origin {
    /// The number of its file, from 0.
    pub(crate) file: usize,
    /// Its number in the file, from 1.
    pub(crate) number: usize,
}

/// The modules of files, each with its origin.
#[derive(Drop)]
pub(crate) struct Input {
    pub(crate) given: Vec<Checked>,
    pub(crate) given_from: Vec<Origin>,
    pub(crate) members: Vec<LibraryMember>,
    pub(crate) members_from: Vec<Origin>,
}

/// Why files are not read. The files count from 0.
pub(crate) enum InputFault {
    /// Out of memory.
    Memory,
    /// A file begins with F0H, and is no library.
    Library(usize, LibraryFault),
    /// Any other file does not hold modules and padding alone, and neither does its lowering.
    Modules(usize, LinkFault),
}

impl From<AllocError> for InputFault {
    fn from(_error: AllocError) -> InputFault {
        InputFault::Memory
    }
}

impl<T: Drop> From<AllocFailed<T>> for InputFault {
    fn from(_error: AllocFailed<T>) -> InputFault {
        InputFault::Memory
    }
}

/// Whether bytes are meant as a library.
pub(crate) fn is_library(bytes: &[u8]) -> bool
    ensures { result ≡ is_library bytes.now }
{
    match bytes {
        [] => false,
        [first, ..] => *first == LIBRARY,
    }
}

/// Adds the origins of a file's modules, from the first on.
fn add_origins(origins: &mut Vec<Origin>, file: usize, count: usize) -> Result<(), AllocError>
    ensures { OnOk result (origins.new.items ≡ origins.old.items ++ origins_in file count) }
{
    for before in 0..count {
        origins.push(Origin {
            file,
            number: before + 1,
        })?;
    }
    Ok(())
}

impl Input {
    /// That of no files.
    fn new(alloc: Global) -> Input
        ensures given { result.given.items ≡ [] }
        ensures members { result.members.items ≡ [] }
        ensures given_from { result.given_from.items ≡ [] }
        ensures members_from { result.members_from.items ≡ [] }
    {
        Input {
            given: Vec::new(alloc),
            given_from: Vec::new(alloc),
            members: Vec::new(alloc),
            members_from: Vec::new(alloc),
        }
    }

    /// Adds members of a library.
    fn add_members(&mut self, file: usize, members: Vec<LibraryMember>) -> Result<(), AllocError>
        ensures members { OnOk result (self.new.members.items ≡ self.old.members.items ++ members.items) }
        ensures given { OnOk result (self.new.given.items ≡ self.old.given.items) }
        ensures members_from { OnOk result (self.new.members_from.items ≡ self.old.members_from.items ++ origins_in file (length members.items)) }
        ensures given_from { OnOk result (self.new.given_from.items ≡ self.old.given_from.items) }
    {
        add_origins(&mut self.members_from, file, members.len())?;
        move_all(members, &mut self.members)
    }

    /// Adds what a program takes of the members of a library, with their communals.
    ///
    /// # Errors
    ///
    /// `Library` with the first fault of the library. `Memory` if memory runs out.
    fn add_library(&mut self, alloc: Global, file: usize, bytes: &[u8]) -> Result<(), InputFault>
        requires { is_library bytes.now ≡ true }
        ensures added { OnOk result (IsAdded file bytes.now self.old self.new) }
        ensures fault { IfErr result (IsFileFault file bytes.now) }
    {
        let members = match library_members(alloc, any_profile(), bytes) {
            Ok(members) => members,
            Err(fault) => return Err(InputFault::Library(file, fault)),
        };
        let Ok(taken) = taken_members(alloc, bytes, members) else {
            return Err(InputFault::Memory);
        };
        let Ok(given) = members_with_communals(alloc, taken) else {
            return Err(InputFault::Memory);
        };
        match self.add_members(file, given) {
            Ok(()) => Ok(()),
            Err(AllocError) => Err(InputFault::Memory),
        }
    }

    /// Adds modules of a file.
    fn add_given(&mut self, file: usize, modules: Vec<Checked>) -> Result<(), AllocError>
        ensures given { OnOk result (self.new.given.items ≡ self.old.given.items ++ modules.items) }
        ensures members { OnOk result (self.new.members.items ≡ self.old.members.items) }
        ensures given_from { OnOk result (self.new.given_from.items ≡ self.old.given_from.items ++ origins_in file (length modules.items)) }
        ensures members_from { OnOk result (self.new.members_from.items ≡ self.old.members_from.items) }
    {
        add_origins(&mut self.given_from, file, modules.len())?;
        move_all(modules, &mut self.given)
    }

    /// Adds what a program takes of a file of modules, with their communals, as given ones.
    ///
    /// # Errors
    ///
    /// `Modules` if it does not hold modules and padding alone, and neither does its lowering. `Memory` if memory runs out.
    fn add_modules(&mut self, alloc: Global, file: usize, bytes: &[u8]) -> Result<(), InputFault>
        requires { is_library bytes.now ≡ false }
        ensures added { OnOk result (IsAdded file bytes.now self.old self.new) }
        ensures fault { IfErr result (IsFileFault file bytes.now) }
    {
        let taken = match taken_modules(alloc, bytes) {
            Ok(taken) => taken,
            Err(fault) => return Err(InputFault::Modules(file, fault)),
        };
        let Ok(given) = all_with_communals(alloc, taken) else {
            return Err(InputFault::Memory);
        };
        match self.add_given(file, given) {
            Ok(()) => Ok(()),
            Err(AllocError) => Err(InputFault::Memory),
        }
    }

    /// Adds what a file gives.
    ///
    /// # Errors
    ///
    /// `Library` or `Modules` with the fault of the file. `Memory` if memory runs out.
    fn add_file(&mut self, alloc: Global, file: usize, input: &InputFile) -> Result<(), InputFault>
        ensures added { OnOk result (IsAdded file input.now.bytes self.old self.new) }
        ensures fault { IfErr result (IsFileFault file input.now.bytes) }
    {
        if is_library(input.bytes()) {
            self.add_library(alloc, file, input.bytes())
        } else {
            self.add_modules(alloc, file, input.bytes())
        }
    }

    /// The same with the names of publics, externals and communals in lower case.
    ///
    /// # Errors
    ///
    /// `AllocError` if memory runs out.
    pub(crate) fn folded(self, alloc: Global) -> Result<Input, AllocError>
        ensures given { IfOk result (λ i. AllZip IsFolded self.given.items i.given.items) }
        ensures members { IfOk result (λ i. AllZip IsMemberFolded self.members.items i.members.items) }
        ensures given_from { IfOk result (λ i. i.given_from.items ≡ self.given_from.items) }
        ensures members_from { IfOk result (λ i. i.members_from.items ≡ self.members_from.items) }
    {
        let Input {
            given,
            given_from,
            members,
            members_from,
        } = self;
        Ok(Input {
            given: folded_all(alloc, given)?,
            given_from,
            members: folded_members(alloc, members)?,
            members_from,
        })
    }

    /// What files give.
    ///
    /// # Errors
    ///
    /// The first file that gives nothing: `Library` or `Modules` with its fault. `Memory` if memory runs out.
    pub(crate) fn of(alloc: Global, files: &[InputFile]) -> Result<Input, InputFault>
        ensures input { IfOk result (λ i. AllGive files.now i.given.items i.members.items) }
        ensures from { IfOk result (λ i. AllFrom 0 files.now i.given.items i.members.items i.given_from.items i.members_from.items) }
        ensures fault { IfErr result (IsInputFault files.now) }
    {
        let mut input = Input::new(alloc);
        for (number, file) in files.iter().enumerate() {
            if let Err(fault) = input.add_file(alloc, number, file) {
                return Err(fault);
            }
        }
        Ok(input)
    }
}
