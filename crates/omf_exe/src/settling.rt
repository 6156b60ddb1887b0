//! The modules of a program at their places: their layout, their externals, what moves of them, and the files that they give.

ghost use Rattle.std.specs.Prelude.{◌≡◌, ◌<◌, ◌^◌, IfErr, IfOk, false, length};
ghost use Rattle.omf_exe.specs.Program.{AreMade, ArePlaced, IsBetweenOf, IsComOf, IsExternalFault, IsLayoutFault, IsLongOf, IsMemberComFault, IsMemberFault, IsNearOf, IsProgramOf, members_from};
ghost use Rattle.omf_exe.specs.Refusing.{HaveNamesTwice, is_com_memory, is_exe_memory};

use omf_check::Checked;
use omf_layout::several::place_segments;
use omf_layout::{Frames, LayoutFault, Options};
use omf_output::exe::{ComFault, ExeFault, ExeFile, Member, Movers, link_com, link_exe, movers_of};
use omf_output::near::{Stray, first_near};
use omf_output::stacks::{Interval, first_between};
use omf_placement::{DeriveFault, Linkage, Placement, derive_linked, with_weak_linked};
use omf_warnings::{FarMember, first_long};
use std::alloc::{AllocError, Global};
use std::marker::Model;

/// Modules laid out from address 0 on, in real mode.
#[derive(Drop)]
pub struct LaidModules<'a> {
    modules: &'a [Checked],
    places: Vec<Placement>,
}

impl<'a> Model for LaidModules<'a> {
    ghost use Rattle.std.specs.Prelude.{◌<◌, ◌^◌, List, length};
    ghost use Rattle.omf_check.specs.Module.{Module};
    ghost use Rattle.omf_exe.specs.Program.{AreLaid};

    ghost Value = { List Module };

    ghost view = { λ l. l.modules.now };

    ghost invariant = { λ l. (length l.modules.now < 2 ^ 32) × AreLaid l.modules.now l.places.items };
}

impl<'a> LaidModules<'a> {
    /// Lays out modules.
    ///
    /// # Errors
    ///
    /// `NoRoom` if a segment does not end below 2^20. `Memory` if memory runs out.
    pub fn of(alloc: Global, modules: &'a [Checked]) -> Result<LaidModules<'a>, LayoutFault>
        requires { length modules.now < 2 ^ 32 }
        ensures same { IfOk result (λ l. l ≡ modules.entry.now) }
        ensures fault { IfErr result (IsLayoutFault modules.entry.now) }
    {
        let options = Options {
            base: 0,
            frames: Frames::Real,
        };
        match place_segments(alloc, modules, options) {
            Ok((places, _free)) => Ok(LaidModules { modules, places }),
            Err(fault) => Err(fault),
        }
    }

    /// The first segment, or else the first member of a group, that ends too far from its frame.
    pub fn long(&self) -> Option<FarMember>
        ensures { IsLongOf self.now result }
    {
        first_long(self.modules, &self.places)
    }

    /// The first segment between the parts of the stack.
    ///
    /// # Errors
    ///
    /// `AllocError` if memory runs out.
    pub fn between(&self, alloc: Global) -> Result<Option<Interval>, AllocError>
        ensures { IfOk result (IsBetweenOf self.now) }
    {
        first_between(alloc, self.modules, &self.places)
    }

    /// The modules with the places of their externals, each at the only public of its name, and a weak one without a public at its default; and with what moves of
    /// them.
    ///
    /// # Errors
    ///
    /// The fault of the first external without a place. `Memory` if memory runs out.
    pub fn settled(self, alloc: Global) -> Result<SettledModules<'a>, DeriveFault>
        ensures same { IfOk result (λ s. s ≡ self.entry) }
        ensures fault { IfErr result (IsExternalFault self.entry) }
    {
        let LaidModules { modules, places } = self;
        let linkage = Linkage::of(alloc, modules)?;
        let given = with_weak_linked(alloc, &linkage, modules, &places, &[])?;
        let placements = derive_linked(alloc, &linkage, modules, places, &given)?;
        let movers = movers_of(alloc, &linkage, modules, &placements)?;
        Ok(SettledModules {
            modules,
            placements,
            movers,
            repeats: linkage.repeats(),
        })
    }
}

/// Modules at the placements of their program, with what moves of them.
#[derive(Drop)]
pub struct SettledModules<'a> {
    modules: &'a [Checked],
    placements: Vec<Placement>,
    movers: Vec<Movers>,
    repeats: bool,
}

impl<'a> Model for SettledModules<'a> {
    ghost use Rattle.std.specs.Prelude.{List};
    ghost use Rattle.omf_check.specs.Module.{Module};
    ghost use Rattle.omf_exe.specs.Inner.Settling.{AreKnown};

    ghost Value = { List Module };

    ghost view = { λ s. s.modules.now };

    ghost invariant = { λ s. AreKnown s.modules.now s.placements.items s.movers.items s.repeats };
}

/// The members of the program.
fn members_of<'a>(
    alloc: Global,
    modules: &'a [Checked],
    placements: &'a [Placement],
    movers: &'a [Movers],
) -> Result<Vec<Member<'a>>, AllocError>
    requires few { length modules.now < 2 ^ 32 }
    requires placed { length placements.now ≡ length modules.now }
    requires moved { length movers.now ≡ length modules.now }
    ensures { IfOk result (λ v. v.items ≡ members_from 0 modules.entry.now placements.entry.now movers.entry.now) }
{
    let mut members = Vec::with_capacity(alloc, modules.len())?;
    for (j, module) in modules.iter().enumerate() {
        let number = j as u32;
        members.push(Member {
            number,
            module,
            placement: &placements[j],
            movers: &movers[j],
        })?;
    }
    Ok(members)
}

impl<'a> SettledModules<'a> {
    /// The first near reference into another frame, as `first_near` has it.
    ///
    /// # Errors
    ///
    /// `AllocError` if memory runs out.
    pub fn near(&self, alloc: Global) -> Result<Option<Stray>, AllocError>
        ensures { IfOk result (IsNearOf self.now) }
    {
        first_near(alloc, self.modules, &self.placements)
    }

    /// Whether more than one public may have a name: false only if none has.
    pub fn repeats(&self) -> bool
        ensures { result ≡ false → HaveNamesTwice self.now false }
    {
        self.repeats
    }

    /// The modules as members of the program.
    fn members(&self, alloc: Global) -> Result<Vec<Member<'_>>, AllocError>
        ensures { IfOk result (λ v. AreMade self.entry.now v.items) }
    {
        members_of(alloc, self.modules, &self.placements, &self.movers)
    }

    /// The MZ file (.EXE) of the modules.
    ///
    /// What DOS loads at paragraph k, for every k, is what the modules are at their placements moved by k paragraphs. Its header asks DOS
    /// for at most `most` paragraphs after its image, or for what it needs, if that is more.
    ///
    /// # Errors
    ///
    /// The first fault of `link_exe`. `Memory` if memory runs out.
    pub fn exe(&self, alloc: Global, most: u16) -> Result<ExeFile, ExeFault>
        ensures program { IfOk result (λ e. IsProgramOf most self.now e.bytes.items e.has_stack) }
        ensures fault { IfErr result (λ f. is_exe_memory f ≡ false → IsMemberFault self.now f) }
    {
        let members = self.members(alloc)?;
        link_exe(alloc, &members, most)
    }

    /// The .COM file of the modules.
    ///
    /// What DOS makes of it in segment k, for every k, is what the modules are at their placements moved by k paragraphs, from offset 100H on.
    ///
    /// # Errors
    ///
    /// The first fault of `link_com`. `Memory` if memory runs out.
    pub fn com(&self, alloc: Global) -> Result<Vec<u8>, ComFault>
        ensures program { IfOk result (λ v. IsComOf self.now v.items) }
        ensures fault { IfErr result (λ f. is_com_memory f ≡ false → IsMemberComFault self.now f) }
    {
        let members = self.members(alloc)?;
        link_com(alloc, &members)
    }

    /// The placements of the modules.
    pub fn placements(&self) -> &[Placement]
        ensures { ArePlaced self.entry.now result.now }
    {
        &self.placements
    }

    /// The placements of the modules, without the rest.
    pub fn into_placements(self) -> Vec<Placement>
        ensures placed { ArePlaced self.entry result.items }
        ensures one_each { length result.items ≡ length self.entry }
    {
        self.placements
    }
}
