//! The files of a program, and what is written of them.

ghost use Rattle.std.specs.Prelude.{◌≡◌, ◌++◌, IfErr, IfOk, map};
ghost use Rattle.omf_exe.specs.Joined.{IsJoinedFile, IsNotJoined};
ghost use Rattle.omf_exe.specs.Libraries.{sought};
ghost use Rattle.omf_exe.specs.Making.{AreOf, GiveNone, IsMade, IsNotMade};
ghost use Rattle.omf_exe.specs.Origins.{AreFrom};
ghost use Rattle.omf_exe.specs.Refusing.{IsRefusalFor};

use crate::files::memory;
use crate::made::MadeProgram;
use crate::options::ExeOptions;
use crate::program::ProgramModules;
use crate::refusal::Refusal;
use crate::written::{Leftovers, written_of};
use omf_externals::move_all;
use omf_linking::InputFile;
use std::alloc::{AllocError, Global};
use std::marker::Model;

/// The files of a program, and the modules that they give.
#[derive(Drop)]
pub struct ProgramFiles {
    files: Vec<InputFile>,
    ignores_case: bool,
    modules: ProgramModules,
}

impl Model for ProgramFiles {
    ghost use Rattle.omf_exe.specs.Making.{AreOf, ProgramFiles as Seen};
    ghost use Rattle.omf_exe.specs.Origins.{AreFrom};

    ghost Value = { Seen };

    ghost view = { λ p. record { files = p.files.items; ignores_case = p.ignores_case; modules = p.modules.modules; from = p.modules.from } };

    ghost invariant = { λ p. AreOf p.ignores_case p.files.items p.modules.modules × AreFrom p.ignores_case p.files.items p.modules.modules p.modules.from };
}

/// The modules of files, with names in lower case if their case does not count.
fn modules_of(
    alloc: Global,
    files: &[InputFile],
    ignores_case: bool,
) -> Result<ProgramModules, Refusal>
    ensures modules { IfOk result (λ p. AreOf ignores_case files.now p.modules) }
    ensures from { IfOk result (λ p. AreFrom ignores_case files.now p.modules p.from) }
    ensures refused { IfErr result (IsRefusalFor (GiveNone ignores_case files.now)) }
{
    if ignores_case {
        ProgramModules::folded(alloc, files)
    } else {
        ProgramModules::of(alloc, files)
    }
}

impl ProgramFiles {
    /// Reads the modules of files. Each file has modules, which all take part, or is a library, of which the members take part that are needed. The
    /// first library in the order of the files that defines a name serves. Names are compared without case if `ignores_case` is set.
    ///
    /// # Errors
    ///
    /// The first file that is not read; the first needed member of a library that is refused; or out of memory.
    pub fn of(
        alloc: Global,
        files: Vec<InputFile>,
        ignores_case: bool,
    ) -> Result<ProgramFiles, Refusal>
        ensures files { IfOk result (λ p. p.files ≡ files.items) }
        ensures case { IfOk result (λ p. p.ignores_case ≡ ignores_case) }
        ensures refused { IfErr result (IsRefusalFor (GiveNone ignores_case files.items)) }
    {
        let modules = modules_of(alloc, &files, ignores_case)?;
        Ok(ProgramFiles {
            files,
            ignores_case,
            modules,
        })
    }

    /// Reads these files and more.
    ///
    /// # Errors
    ///
    /// The first file that is not read; the first needed member of a library that is refused; or out of memory.
    pub fn with_more(self, alloc: Global, more: Vec<InputFile>) -> Result<ProgramFiles, Refusal>
        ensures files { IfOk result (λ p. p.files ≡ self.files ++ more.items) }
        ensures case { IfOk result (λ p. p.ignores_case ≡ self.ignores_case) }
        ensures refused { IfErr result (IsRefusalFor (GiveNone self.ignores_case (self.files ++ more.items))) }
    {
        let ProgramFiles {
            files,
            ignores_case,
            modules: _,
        } = self;
        let mut all = files;
        let Ok(()) = move_all(more, &mut all) else {
            return Err(memory());
        };
        ProgramFiles::of(alloc, all, ignores_case)
    }

    /// The names of libraries that the modules ask for, in order, each once, without those that are known.
    ///
    /// # Errors
    ///
    /// `AllocError` if memory runs out.
    pub fn sought(&self, alloc: Global, known: &[Vec<u8>]) -> Result<Vec<Vec<u8>>, AllocError>
        ensures { IfOk result (λ v. map (λ n. n.items) v.items ≡ sought (map (λ k. k.items) known.now) self.now.modules) }
    {
        self.modules.sought(alloc, known)
    }

    /// What is written of the files: the program as a .COM file or as an .EXE file, its map, and lines of what is found in it. Of the COMDATs of one name
    /// the first counts, and the aliases of the modules are followed. Debug information is left out unless something refers to it or the options keep it; if they ask for it, so is
    /// code that nothing reaches.
    ///
    /// # Errors
    ///
    /// The fault of the modules that are added; otherwise that of `followed`; otherwise the names that are not defined; otherwise the line of a look, if it finds what the
    /// options do not allow; otherwise the fault of the program; otherwise the names that more than one public has, if they are not allowed. Out of memory.
    pub fn make(
        self,
        alloc: Global,
        options: &ExeOptions<'_>,
        leftovers: Leftovers,
    ) -> Result<MadeProgram, Refusal>
        ensures made { IfOk result (IsMade options.now self) }
        ensures refused { IfErr result (IsRefusalFor (IsNotMade options.now self)) }
    {
        let ProgramFiles { files, modules, .. } = self;
        let linked = modules.completed(alloc, options)?;
        let made = written_of(alloc, linked, &files, options, leftovers)?;
        Ok(made)
    }

    /// The modules of which `make` makes the program, one after another.
    ///
    /// # Errors
    ///
    /// The fault of the modules that are added; otherwise that of `followed`. Out of memory.
    pub fn join(self, alloc: Global, options: &ExeOptions<'_>) -> Result<Vec<u8>, Refusal>
        ensures joined { IfOk result (λ v. IsJoinedFile options.now self v.items) }
        ensures refused { IfErr result (IsRefusalFor (IsNotJoined options.now self)) }
    {
        let ProgramFiles { modules, .. } = self;
        let linked = modules.completed(alloc, options)?;
        match linked.bytes(alloc) {
            Ok(bytes) => Ok(bytes),
            Err(AllocError) => Err(memory()),
        }
    }
}
