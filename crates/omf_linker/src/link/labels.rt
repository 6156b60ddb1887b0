//! The modules of files, and what each is called.

ghost use Rattle.std.specs.Prelude.{◌≡◌, ◌++◌, ◌<◌, ◌^◌, IfErr, IfOk, OnOk, length, map, string_bytes};
ghost use Rattle.omf_linker.specs.Inner.Gathering.{IsAdded};
ghost use Rattle.omf_linker.specs.Link.Files.{AreLabeled, IsFileRefused, module_label, module_labels};

use omf_check::{Checked, Profile};
use omf_externals::move_all;
use omf_lines::{FilesFault, file_front, in_file};
use omf_linking::{InputFile, LinkFault, file_modules};
use std::alloc::{AllocError, Global};
use std::fmt::Write;

/// The modules of files, and what each is called.
#[derive(Drop)]
pub(crate) struct LabeledModules {
    /// The modules, in the order of the files.
    pub(crate) modules: Vec<Checked>,
    /// The label of each: the name of its file, and its number there.
    pub(crate) labels: Vec<String>,
}

/// What a module of a file is called: the file's name, and the number of the module in it, from 1.
fn module_label(alloc: Global, name: &[u8], number: usize) -> Result<String, AllocError>
    ensures { IfOk result (λ label. string_bytes label ≡ module_label name.now number) }
{
    let mut label = file_front(alloc, name)?;
    write!(label, "module {number}")?;
    Ok(label)
}

/// Appends what the modules of a file are called.
fn add_labels(
    alloc: Global,
    name: &[u8],
    count: usize,
    labels: &mut Vec<String>,
) -> Result<(), AllocError>
    ensures { OnOk result (map string_bytes labels.new.items ≡ map string_bytes labels.old.items ++ module_labels name.now count) }
{
    for before in 0..count {
        labels.push(module_label(alloc, name, before + 1)?)?;
    }
    Ok(())
}

impl LabeledModules {
    /// Adds the modules of a file of this name, if there are at most 4,294,967,295 then.
    fn add(&mut self, alloc: Global, name: &[u8], own: Vec<Checked>) -> Result<(), AllocError>
        ensures modules { OnOk result (self.new.modules.items ≡ self.old.modules.items ++ own.items) }
        ensures labels { OnOk result (map string_bytes self.new.labels.items ≡ map string_bytes self.old.labels.items ++ module_labels name.now (length own.items)) }
        ensures few { OnOk result (length self.new.modules.items < 2 ^ 32) }
    {
        add_labels(alloc, name, own.len(), &mut self.labels)?;
        move_all(own, &mut self.modules)?;
        if self.modules.len() > u32::MAX as usize {
            return Err(AllocError);
        }
        Ok(())
    }

    /// Adds the modules of a file.
    ///
    /// # Errors
    ///
    /// Those of `file_modules`. `Memory` if memory runs out, or if there are more than 4,294,967,295 modules.
    fn add_file(&mut self, alloc: Global, file: &InputFile) -> Result<(), LinkFault>
        ensures { IsAdded file.now self.old self.new result }
    {
        let profile = Profile {
            refuse_vendor_comments: false,
        };
        match file_modules(alloc, profile, file.bytes()) {
            Ok(own) => match self.add(alloc, file.name(), own) {
                Ok(()) => Ok(()),
                Err(AllocError) => Err(LinkFault::Memory),
            },
            Err(fault) => Err(fault),
        }
    }

    /// Reads the modules of files, in the order of the files, and labels each by its file and its number there. Each file is dropped once its
    /// modules are checked, so that each module is kept once.
    ///
    /// # Errors
    ///
    /// `File` for the first file that does not hold modules and padding alone, as in `modules_of_files`. `Link` with `Memory` if memory runs
    /// out, or if there are more than 4,294,967,295 modules.
    pub(crate) fn of(alloc: Global, files: Vec<InputFile>) -> Result<LabeledModules, FilesFault>
        ensures labeled { IfOk result (λ l. AreLabeled files.items l.modules.items (map string_bytes l.labels.items)) }
        ensures few { IfOk result (λ l. length l.modules.items < 2 ^ 32) }
        ensures fault { IfErr result (IsFileRefused files.items) }
    {
        let mut all = LabeledModules {
            modules: Vec::new(alloc),
            labels: Vec::new(alloc),
        };
        for file in files {
            match all.add_file(alloc, &file) {
                Ok(()) => {}
                Err(fault) => return Err(in_file(alloc, &file, fault)),
            }
        }
        Ok(all)
    }
}
