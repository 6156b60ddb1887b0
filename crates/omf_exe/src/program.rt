//! The modules of a program, with those that a linker adds, and without those that it leaves out.

ghost use Rattle.std.specs.Prelude.{◌≡◌, ◌∷◌, ◌++◌, IfErr, IfOk, List, None, OnOk, Some, map, true};
ghost use Rattle.omf_linking.specs.File.{InputFile as FileModel};
ghost use Rattle.std.specs.List.{AllZip};
ghost use Rattle.std.specs.List.Sorted.{IsStrictlyIncreasing};
ghost use Rattle.omf_check.specs.Module.{Module};
ghost use Rattle.omf_linking.specs.Folded.{IsFolded};
ghost use Rattle.omf_library.specs.declared.judged.LibraryMember.{LibraryMember};
ghost use Rattle.omf_aliases.specs.Aliases.{AreFollowed};
ghost use Rattle.omf_exe.specs.Adding.{AreOrderedBy, has_order};
ghost use Rattle.omf_exe.specs.Input.{AllGive, AreOfFiles, AreOfFolded, IsMemberFolded};
ghost use Rattle.omf_exe.specs.Joined.{all_bytes};
ghost use Rattle.omf_exe.specs.Libraries.{sought};
ghost use Rattle.omf_exe.specs.Making.{AreCompleted, AreIncomplete};
ghost use Rattle.omf_exe.specs.Ordering.{AreInClassOrder, AreOrdered};
ghost use Rattle.omf_exe.specs.Origins.{AllFrom, AreAllWith, AreOfFilesFrom, AreOfFoldedFrom, origins_with};
ghost use Rattle.omf_exe.specs.Refusing.{AreNotAdded, AreNotFollowed, AreNotInClassOrder, AreNotOrdered, AreNotOrderedBy, AreNotShared, GiveNoFolded, GiveNoModules, IsRefusalFor, NeedRefused, is_out_of_memory};
ghost use Rattle.omf_exe.specs.Sharing.{AreShared};
ghost use Rattle.omf_exe.specs.Taken.{values_at};
ghost use Rattle.omf_trimming.specs.Choice.{AreChosen};
ghost use Rattle.omf_trimming.specs.Trimmed.{AreTrimmed};

use crate::added::{least_stack, stack_of};
use crate::defaults::sought;
use crate::files::{memory, of_following, of_input, of_ordering, of_sharing};
use crate::input::{Input, Origin};
use crate::joining::{Joined, join_needed, take_into};
use crate::lines::Origins;
use crate::options::{ExeOptions, Order, ProgramKind};
use crate::ordering::{class_order_of, order_of, with_front};
use crate::refusal::Refusal;
use crate::refused::of_joining;
use crate::sharing::{shared_module, with_added};
use crate::unordered::put_unordered;
use omf_aliases::{asker_of, followed};
use omf_check::Checked;
use omf_layout::own::ask_dos_order;
use omf_linking::InputFile;
use omf_trimming::{LeftOut, LeftPublics, chosen, trimmed};
use std::alloc::{AllocError, Global};
use std::marker::Model;

/// The modules of a program, with their origins.
#[derive(Drop)]
pub struct ProgramModules {
    modules: Vec<Checked>,
    from: Vec<Option<Origin>>,
}

/// Appends the bytes of modules, one after another, without the comments that ask for DOS order.
fn put_bytes(modules: &[Checked], bytes: &mut Vec<u8>) -> Result<(), AllocError>
    ensures { OnOk result (bytes.new.items ≡ bytes.old.items ++ all_bytes modules.now) }
{
    for module in modules {
        put_unordered(bytes, module)?;
    }
    Ok(())
}

/// Appends the origins of modules.
fn put_origins(own: &[Origin], from: &mut Vec<Option<Origin>>) -> Result<(), AllocError>
    ensures { OnOk result (from.new.items ≡ from.old.items ++ map Some own.now) }
{
    for origin in own {
        from.push(Some(*origin))?;
    }
    Ok(())
}

impl Model for ProgramModules {
    ghost use Rattle.omf_exe.specs.Program.{ProgramModules as Seen};

    ghost Value = { Seen };

    ghost view = { λ p. record { modules = p.modules.items; from = p.from.items } };
}

/// Joined modules with their origins: those of the given modules, and those of all members.
fn with_origins(
    alloc: Global,
    joined: Joined,
    given_from: Vec<Origin>,
    members_from: Vec<Origin>,
) -> Result<ProgramModules, AllocError>
    requires { IsStrictlyIncreasing joined.numbers.items }
    ensures modules { IfOk result (λ p. p.modules ≡ joined.modules.items) }
    ensures from { IfOk result (λ p. p.from ≡ map Some (given_from.items ++ values_at joined.numbers.items members_from.items)) }
{
    let Joined { modules, numbers } = joined;
    let mut origins = given_from;
    take_into(&numbers, members_from, &mut origins)?;
    let mut from = Vec::new(alloc);
    put_origins(&origins, &mut from)?;
    Ok(ProgramModules { modules, from })
}

/// The modules of files, with their origins.
///
/// # Errors
///
/// The first needed member of a library that is refused; or out of memory.
fn all_of(alloc: Global, files: &[InputFile], input: Input) -> Result<ProgramModules, Refusal>
    ensures files { (files : List FileModel) → AllGive files input.given.items input.members.items → IfOk result (λ p. AreOfFiles files p.modules) }
    ensures folded { (files : List FileModel) (given : List Module) (members : List LibraryMember) → AllGive files given members → AllZip IsFolded given input.given.items → AllZip IsMemberFolded members input.members.items → IfOk result (λ p. AreOfFolded files p.modules) }
    ensures files_from { (files : List FileModel) → AllFrom 0 files input.given.items input.members.items input.given_from.items input.members_from.items → IfOk result (λ p. AreOfFilesFrom files p.modules p.from) }
    ensures folded_from { (files : List FileModel) (given : List Module) (members : List LibraryMember) → AllFrom 0 files given members input.given_from.items input.members_from.items → AllZip IsFolded given input.given.items → AllZip IsMemberFolded members input.members.items → IfOk result (λ p. AreOfFoldedFrom files p.modules p.from) }
    ensures refused { IfErr result (IsRefusalFor (NeedRefused input.given.items input.members.items)) }
{
    let Input {
        given,
        given_from,
        members,
        members_from,
    } = input;
    let joined = match join_needed(alloc, given, members) {
        Ok(joined) => joined,
        Err(fault) => return Err(of_joining(alloc, files, &members_from, &fault)),
    };
    match with_origins(alloc, joined, given_from, members_from) {
        Ok(modules) => Ok(modules),
        Err(AllocError) => Err(memory()),
    }
}

/// Modules of a program of this kind, and after them the module of their communals, if they have any.
///
/// # Errors
///
/// The fault of `shared_module`.
pub fn share_communals(
    alloc: Global,
    modules: Vec<Checked>,
    kind: ProgramKind,
) -> Result<Vec<Checked>, Refusal>
    ensures shared { IfOk result (λ v. AreShared kind modules.items v.items) }
    ensures refused { IfErr result (IsRefusalFor (AreNotShared kind modules.items)) }
{
    let added = match shared_module(alloc, &modules, kind) {
        Ok(added) => added,
        Err(fault) => return Err(of_sharing(alloc, &fault)),
    };
    match with_added(modules, added) {
        Ok(all) => Ok(all),
        Err(AllocError) => Err(memory()),
    }
}

/// Modules, and before them the module that puts them in DOS order. It defines the names of the linker also where modules ask for them by aliases.
///
/// # Errors
///
/// The fault of `order_of`; out of memory also if there are 2^32 modules or more.
pub fn order_modules(alloc: Global, modules: Vec<Checked>) -> Result<Vec<Checked>, Refusal>
    ensures ordered { IfOk result (λ v. AreOrdered modules.items v.items) }
    ensures refused { IfErr result (IsRefusalFor (AreNotOrdered modules.items)) }
{
    let count = modules.len();
    let Ok(asker) = asker_of(alloc, &modules) else {
        return Err(memory());
    };
    let Ok(mut asking) = with_added(modules, asker) else {
        return Err(memory());
    };
    if asking.len() > u32::MAX as usize {
        return Err(memory());
    }
    let order = match order_of(alloc, &asking) {
        Ok(order) => order,
        Err(fault) => return Err(of_ordering(alloc, fault)),
    };
    asking.truncate(count);
    match with_front(alloc, order, asking) {
        Ok(all) => Ok(all),
        Err(AllocError) => Err(memory()),
    }
}

/// Modules, and before them the module that makes these classes the first ones.
///
/// # Errors
///
/// The fault of `class_order_of`; out of memory also if there are 2^32 modules or more.
fn order_classes(
    alloc: Global,
    modules: Vec<Checked>,
    classes: &[&[u8]],
) -> Result<Vec<Checked>, Refusal>
    ensures ordered { IfOk result (λ v. AreInClassOrder (map (λ c. c.now) classes.now) modules.items v.items) }
    ensures refused { IfErr result (IsRefusalFor (AreNotInClassOrder (map (λ c. c.now) classes.now) modules.items)) }
{
    if modules.len() > u32::MAX as usize {
        return Err(memory());
    }
    let order = match class_order_of(alloc, &modules, classes) {
        Ok(order) => order,
        Err(fault) => return Err(of_ordering(alloc, fault)),
    };
    match with_front(alloc, order, modules) {
        Ok(all) => Ok(all),
        Err(AllocError) => Err(memory()),
    }
}

impl ProgramModules {
    /// The modules of files, each with modules, which all take part, or a library, of which the members take part that are needed. The first
    /// library in the order of the files that defines a name serves.
    ///
    /// # Errors
    ///
    /// The first file that is not read; the first needed member of a library that is refused; or out of memory.
    #[tactic(auto, using(crate::proofs::JoiningLaws::have_refused))]
    pub fn of(alloc: Global, files: &[InputFile]) -> Result<ProgramModules, Refusal>
        ensures modules { IfOk result (λ p. AreOfFiles files.now p.modules) }
        ensures from { IfOk result (λ p. AreOfFilesFrom files.now p.modules p.from) }
        ensures refused { IfErr result (IsRefusalFor (GiveNoModules files.now)) }
    {
        let input = match Input::of(alloc, files) {
            Ok(input) => input,
            Err(fault) => return Err(of_input(alloc, files, fault)),
        };
        all_of(alloc, files, input)
    }

    /// The same with names compared without case: those of publics, externals and communals are in lower case.
    ///
    /// # Errors
    ///
    /// The first file that is not read; the first needed member of a library that is refused; or out of memory.
    #[tactic(auto, using(crate::proofs::JoiningLaws::have_refused_folded))]
    pub fn folded(alloc: Global, files: &[InputFile]) -> Result<ProgramModules, Refusal>
        ensures modules { IfOk result (λ p. AreOfFolded files.now p.modules) }
        ensures from { IfOk result (λ p. AreOfFoldedFrom files.now p.modules p.from) }
        ensures refused { IfErr result (IsRefusalFor (GiveNoFolded files.now)) }
    {
        let input = match Input::of(alloc, files) {
            Ok(input) => input,
            Err(fault) => return Err(of_input(alloc, files, fault)),
        };
        let Ok(folded) = input.folded(alloc) else {
            return Err(memory());
        };
        all_of(alloc, files, folded)
    }

    /// The modules, and before them the module that puts them in DOS order.
    fn in_dos_order(self, alloc: Global) -> Result<ProgramModules, Refusal>
        ensures ordered { IfOk result (λ p. AreOrdered self.modules p.modules) }
        ensures from { IfOk result (λ p. p.from ≡ None ∷ self.from) }
        ensures refused { IfErr result (IsRefusalFor (AreNotOrdered self.modules)) }
    {
        let ProgramModules { modules, from } = self;
        let modules = order_modules(alloc, modules)?;
        match with_front(alloc, None, from) {
            Ok(from) => Ok(ProgramModules { modules, from }),
            Err(AllocError) => Err(memory()),
        }
    }

    /// The modules, and before them the module that makes these classes the first ones.
    fn in_class_order(self, alloc: Global, classes: &[&[u8]]) -> Result<ProgramModules, Refusal>
        ensures ordered { IfOk result (λ p. AreInClassOrder (map (λ c. c.now) classes.now) self.modules p.modules) }
        ensures from { IfOk result (λ p. p.from ≡ None ∷ self.from) }
        ensures refused { IfErr result (IsRefusalFor (AreNotInClassOrder (map (λ c. c.now) classes.now) self.modules)) }
    {
        let ProgramModules { modules, from } = self;
        let modules = order_classes(alloc, modules, classes)?;
        match with_front(alloc, None, from) {
            Ok(from) => Ok(ProgramModules { modules, from }),
            Err(AllocError) => Err(memory()),
        }
    }

    /// The modules in DOS order if a module asks for it, else as they are.
    fn as_asked(self, alloc: Global) -> Result<ProgramModules, Refusal>
        ensures ordered { IfOk result (λ p. AreOrderedBy None self.modules p.modules) }
        ensures from { IfOk result (λ p. p.from ≡ origins_with (has_order None self.modules) self.from) }
        ensures refused { IfErr result (IsRefusalFor (AreNotOrderedBy None self.modules)) }
    {
        if ask_dos_order(&self.modules) {
            self.in_dos_order(alloc)
        } else {
            Ok(self)
        }
    }

    /// The modules in the order that options ask for; where they name none, in DOS order if a module asks for it. Before them is the module of
    /// that order, if there is one.
    ///
    /// # Errors
    ///
    /// The fault of `order_modules` or of `order_classes`; or out of memory.
    fn in_order(self, alloc: Global, order: &Option<Order<'_>>) -> Result<ProgramModules, Refusal>
        ensures ordered { IfOk result (λ p. AreOrderedBy order.now self.modules p.modules) }
        ensures from { IfOk result (λ p. p.from ≡ origins_with (has_order order.now self.modules) self.from) }
        ensures refused { IfErr result (IsRefusalFor (AreNotOrderedBy order.now self.modules)) }
    {
        match order {
            Some(Order::Dos) => self.in_dos_order(alloc),
            Some(Order::Input) => Ok(self),
            Some(Order::Classes(classes)) => self.in_class_order(alloc, classes),
            None => self.as_asked(alloc),
        }
    }

    /// The modules with those that the linker adds: after them that of their communals, and that of the stack that the options ask for; before
    /// all that of their order, as `in_order` has it.
    ///
    /// # Errors
    ///
    /// The fault of `share_communals`; that of `in_order`; or out of memory.
    pub fn with_added(
        self,
        alloc: Global,
        options: &ExeOptions<'_>,
    ) -> Result<ProgramModules, Refusal>
        ensures added { IfOk result (AreAllWith options.now.kind options.now.stack options.now.order self.modules self.from) }
        ensures refused { IfErr result (IsRefusalFor (AreNotAdded options.now.kind options.now.stack options.now.order self.modules)) }
    {
        let ProgramModules { modules, from } = self;
        let shared = share_communals(alloc, modules, options.kind)?;
        let asked = least_stack(options.kind, options.stack);
        let Ok(stack) = stack_of(alloc, &shared, asked) else {
            return Err(memory());
        };
        let Ok(modules) = with_added(shared, stack) else {
            return Err(memory());
        };
        ProgramModules { modules, from }.in_order(alloc, &options.order)
    }

    /// The modules with one COMDAT of each name: the first one.
    ///
    /// # Errors
    ///
    /// Out of memory.
    pub fn chosen(self, alloc: Global) -> Result<ProgramModules, Refusal>
        ensures chosen { IfOk result (λ p. AreChosen self.modules p.modules) }
        ensures from { IfOk result (λ p. p.from ≡ self.from) }
        ensures refused { IfErr result (λ r. is_out_of_memory r ≡ true) }
    {
        let ProgramModules { modules, from } = self;
        match chosen(alloc, modules) {
            Ok(modules) => Ok(ProgramModules { modules, from }),
            Err(AllocError) => Err(memory()),
        }
    }

    /// The modules without the segments of these kinds that nothing reaches, and with these publics of them.
    ///
    /// # Errors
    ///
    /// Out of memory.
    pub fn trimmed(
        self,
        alloc: Global,
        left_out: LeftOut,
        publics: LeftPublics,
    ) -> Result<ProgramModules, Refusal>
        ensures trimmed { IfOk result (λ p. AreTrimmed publics left_out self.modules p.modules) }
        ensures from { IfOk result (λ p. p.from ≡ self.from) }
        ensures refused { IfErr result (λ r. is_out_of_memory r ≡ true) }
    {
        let ProgramModules { modules, from } = self;
        match trimmed(alloc, left_out, publics, modules) {
            Ok(modules) => Ok(ProgramModules { modules, from }),
            Err(AllocError) => Err(memory()),
        }
    }

    /// The modules with the defaults that aliases give to their externals.
    ///
    /// # Errors
    ///
    /// The fault of `followed`.
    pub fn following_aliases(self, alloc: Global) -> Result<ProgramModules, Refusal>
        ensures followed { IfOk result (λ p. AreFollowed self.modules p.modules) }
        ensures from { IfOk result (λ p. p.from ≡ self.from) }
        ensures refused { IfErr result (IsRefusalFor (AreNotFollowed self.modules)) }
    {
        let ProgramModules { modules, from } = self;
        match followed(alloc, modules) {
            Ok(modules) => Ok(ProgramModules { modules, from }),
            Err(fault) => Err(of_following(alloc, fault)),
        }
    }

    /// The modules as a program has them: with one COMDAT of each name, those that the linker adds, and the defaults that aliases give to their externals, without what nothing
    /// refers to of the segments that the options leave out.
    ///
    /// # Errors
    ///
    /// The fault of `with_added`; otherwise that of `following_aliases`; or out of memory.
    pub fn completed(
        self,
        alloc: Global,
        options: &ExeOptions<'_>,
    ) -> Result<ProgramModules, Refusal>
        ensures completed { IfOk result (AreCompleted options.now self) }
        ensures refused { IfErr result (IsRefusalFor (AreIncomplete options.now self.modules)) }
    {
        let chosen = self.chosen(alloc)?;
        let added = chosen.with_added(alloc, options)?;
        let whole = added.following_aliases(alloc)?;
        let linked = whole.trimmed(alloc, options.unreached, LeftPublics::AtStart)?;
        Ok(linked)
    }

    /// The bytes of the modules, one after another, without the comments that ask for DOS order.
    ///
    /// # Errors
    ///
    /// `AllocError` if memory runs out.
    pub(crate) fn bytes(&self, alloc: Global) -> Result<Vec<u8>, AllocError>
        ensures { IfOk result (λ v. v.items ≡ all_bytes self.now.modules) }
    {
        let mut bytes = Vec::new(alloc);
        put_bytes(&self.modules, &mut bytes)?;
        Ok(bytes)
    }

    /// The names of libraries that the modules ask for, in order, each once, without those that are known.
    ///
    /// # Errors
    ///
    /// `AllocError` if memory runs out.
    pub fn sought(&self, alloc: Global, known: &[Vec<u8>]) -> Result<Vec<Vec<u8>>, AllocError>
        ensures { IfOk result (λ v. map (λ n. n.items) v.items ≡ sought (map (λ k. k.items) known.now) self.now.modules) }
    {
        sought(alloc, &self.modules, known)
    }

    /// The modules with the files that they come from.
    pub(crate) fn origins<'a>(&'a self, files: &'a [InputFile]) -> Origins<'a>
        ensures modules { result.modules.now ≡ self.entry.now.modules }
        ensures from { result.from.now ≡ self.entry.now.from }
        ensures files { result.files.now ≡ files.entry.now }
    {
        Origins {
            files,
            modules: &self.modules,
            from: &self.from,
        }
    }
}
