//! What the references of a program's modules refer to.

ghost use Rattle.std.specs.Prelude.{◌≡◌, ◌++◌, ◌∷◌, [], IfOk, List, OnOk, flat_map, slice_index_or};
ghost use Rattle.omf_check.specs.Module.{recs_of, typed_modules};
ghost use Rattle.omf_check.specs.Tables.{entry, groups};
ghost use Rattle.omf_placement.specs.Inner.Linkage.{definer_at};
ghost use Rattle.omf_records.specs.Inner.Seen.{contents_seen};
ghost use Rattle.omf_records.specs.Values.{Rec};
ghost use Rattle.omf_trimming.specs.Reaching.{IsNode, default_segment, group_segments, means, next, public_or, public_segments};
ghost use Rattle.omf_trimming.specs.Inner.Reaching.{IsOf, IsProgram, member_segments};

use crate::reaching::segment::ProgramSegment;
use crate::reaching::uses::Uses;
use omf_check::{Checked, TargetMethod};
use omf_placement::{Definer, Linkage, WeakPair, weak_pairs};
use omf_records::{Kind, Member, Rec as Record};
use std::alloc::{AllocError, Global};

/// A module of a program, and what its references refer to.
#[derive(Drop)]
pub(crate) struct ProgramModule<'a> {
    pub number: usize,
    pub checked: &'a Checked,
    uses: Uses,
    pairs: Vec<WeakPair>,
}

/// The modules of a program, and what their externals refer to.
#[derive(Drop)]
pub(crate) struct Program<'a> {
    pub modules: Vec<ProgramModule<'a>>,
    linkage: Linkage,
}

/// Appends the segment of a public, if it is the only one of its name.
fn push_public(found: &mut Vec<ProgramSegment>, definer: Option<Definer>) -> Result<(), AllocError>
    ensures { OnOk result (found.new.items ≡ found.old.items ++ public_segments definer) }
{
    if let Some(Definer::Only(source)) = definer {
        found.push(ProgramSegment {
            module: source.base.module,
            segment: source.base.segment.0,
        })?;
    }
    Ok(())
}

/// Appends the segment of a member of a group.
fn push_member(
    found: &mut Vec<ProgramSegment>,
    module: usize,
    member: &Member<'_>,
) -> Result<(), AllocError>
    ensures { OnOk result (found.new.items ≡ found.old.items ++ («module», member.now.item) ∷ []) }
{
    found.push(ProgramSegment {
        module,
        segment: member.segment.item.0,
    })?;
    Ok(())
}

/// Appends the segments of a group's members.
fn push_members(
    found: &mut Vec<ProgramSegment>,
    module: usize,
    record: &Record<'_>,
) -> Result<(), AllocError>
    ensures { OnOk result (found.new.items ≡ found.old.items ++ member_segments «module» (contents_seen record.now)) }
{
    let Record::Group { members, .. } = record else {
        return Ok(());
    };
    for member in members.iter() {
        push_member(found, module, &member.item)?;
    }
    Ok(())
}

impl<'a> ProgramModule<'a> {
    /// The module with this number.
    fn of(
        alloc: Global,
        number: usize,
        checked: &'a Checked,
    ) -> Result<ProgramModule<'a>, AllocError>
        ensures own { IfOk result (IsOf (recs_of checked.entry.now.bytes)) }
        ensures number { IfOk result (λ m. m.number ≡ number) }
    {
        Ok(ProgramModule {
            number,
            checked,
            uses: Uses::of(alloc, checked)?,
            pairs: weak_pairs(alloc, checked)?,
        })
    }

    /// Appends the segments of a group's members.
    fn push_group(&self, found: &mut Vec<ProgramSegment>, group: u16) -> Result<(), AllocError>
        ensures { OnOk result (found.new.items ≡ found.old.items ++ group_segments self.now.number (entry (groups (recs_of self.now.checked.now.bytes)) group)) }
    {
        match self.checked.group(group) {
            Some(record) => push_members(found, self.number, &record),
            None => Ok(()),
        }
    }

    /// Appends the segment of the public of a pair's default, if the weak external of the pair is this one.
    fn push_default(
        &self,
        found: &mut Vec<ProgramSegment>,
        linkage: &Linkage,
        external: u16,
        pair: &WeakPair,
    ) -> Result<(), AllocError>
        ensures { OnOk result (found.new.items ≡ found.old.items ++ default_segment linkage.now.links self.now.number external pair.now) }
    {
        if pair.weak == external {
            return push_public(found, linkage.definer(self.number, pair.substitute));
        }
        Ok(())
    }

    /// Appends the segments of the publics of an external's defaults.
    fn push_defaults(
        &self,
        found: &mut Vec<ProgramSegment>,
        linkage: &Linkage,
        external: u16,
    ) -> Result<(), AllocError>
        ensures { OnOk result (found.new.items ≡ found.old.items ++ flat_map (default_segment linkage.now.links self.now.number external) self.now.pairs.items) }
    {
        for pair in &self.pairs {
            self.push_default(found, linkage, external, pair)?;
        }
        Ok(())
    }

    /// Appends the segment of an external's public, or if it has none those of its defaults' publics.
    fn push_external(
        &self,
        found: &mut Vec<ProgramSegment>,
        linkage: &Linkage,
        external: u16,
    ) -> Result<(), AllocError>
        ensures { OnOk result (found.new.items ≡ found.old.items ++ public_or (flat_map (default_segment linkage.now.links self.now.number external) self.now.pairs.items) (definer_at linkage.now.links self.now.number external)) }
    {
        match linkage.definer(self.number, external) {
            Some(definer) => push_public(found, Some(definer)),
            None => self.push_defaults(found, linkage, external),
        }
    }

    /// Appends the segments of a target.
    fn push_target(
        &self,
        found: &mut Vec<ProgramSegment>,
        linkage: &Linkage,
        target: &TargetMethod,
    ) -> Result<(), AllocError>
        ensures { (m : List Rec) → IsOf m self.now → OnOk result (found.new.items ≡ found.old.items ++ means linkage.now.links m self.now.number target.now) }
    {
        match target.kind {
            Kind::Segment => Ok(found.push(ProgramSegment {
                module: self.number,
                segment: target.index.0,
            })?),
            Kind::Group => self.push_group(found, target.index.0),
            Kind::External => self.push_external(found, linkage, target.index.0),
        }
    }

    /// Appends the segments of what the references of a segment refer to.
    fn push_all(
        &self,
        found: &mut Vec<ProgramSegment>,
        linkage: &Linkage,
        segment: u16,
    ) -> Result<(), AllocError>
        ensures { (m : List Rec) → IsOf m self.now → OnOk result (found.new.items ≡ found.old.items ++ flat_map (means linkage.now.links m self.now.number) (slice_index_or self.now.uses segment [])) }
    {
        for target in self.uses.targets(segment) {
            self.push_target(found, linkage, target)?;
        }
        Ok(())
    }
}

impl<'a> Program<'a> {
    /// The program of these modules.
    pub(crate) fn of(alloc: Global, modules: &'a [Checked]) -> Result<Program<'a>, AllocError>
        ensures { IfOk result (IsProgram (typed_modules modules.entry.now)) }
    {
        let linkage = Linkage::of(alloc, modules)?;
        let mut own = Vec::new(alloc);
        for (number, module) in modules.iter().enumerate() {
            own.push(ProgramModule::of(alloc, number, module)?)?;
        }
        Ok(Program {
            modules: own,
            linkage,
        })
    }

    /// Appends the segments of what the references of a segment refer to.
    pub(crate) fn push_next(
        &self,
        found: &mut Vec<ProgramSegment>,
        from: ProgramSegment,
    ) -> Result<(), AllocError>
        ensures { (ms : List (List Rec)) → IsProgram ms self.now → IsNode ms from → OnOk result (found.new.items ≡ found.old.items ++ next ms from) }
    {
        match self.modules.get(from.module) {
            Some(module) => module.push_all(found, &self.linkage, from.segment),
            None => Ok(()),
        }
    }
}
