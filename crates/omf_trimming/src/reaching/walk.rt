//! The walk from the segments that stay to those that they reach.

ghost use Rattle.std.specs.Prelude.{◌≡◌, ◌+◌, All, IfOk, List, OnOk, [], false, length, map, replicate};
ghost use Rattle.omf_check.specs.Module.{recs_of, typed_modules};
ghost use Rattle.omf_check.specs.Tables.{segments};
ghost use Rattle.omf_records.specs.Values.{Rec};
ghost use Rattle.omf_trimming.specs.Reaching.{roots};
ghost use Rattle.omf_trimming.specs.declared.optional.LeftOut.{LeftOut};
ghost use Rattle.omf_trimming.specs.Inner.Reaching.{IsCalled, IsGrown, IsProgram, IsTaken, IsWalk, IsWalked, is_open_in, left_open, marked_in, queued, unmarked_from, with_mark};

use crate::reaching::program::Program;
use crate::reaching::segment::ProgramSegment;
use omf_check::Checked;
use std::alloc::{AllocError, Global};
use std::marker::Model;

/// Whether each segment of a module is reached, by its index.
#[derive(Drop)]
pub(crate) struct SegmentMarks {
    marks: Vec<bool>,
}

impl Model for SegmentMarks {
    ghost use Rattle.std.specs.Prelude.{Bool, List};

    ghost Value = { List Bool };

    ghost view = { λ s. s.marks.items };
}

impl SegmentMarks {
    /// No marks, for this number of indices.
    fn new(alloc: Global, count: usize) -> Result<SegmentMarks, AllocError>
        ensures { IfOk result (λ m. m ≡ replicate count false) }
    {
        Ok(SegmentMarks {
            marks: vec![in alloc; false; count]?,
        })
    }

    /// Marks an index. Returns whether there is one that was not marked.
    fn mark(&mut self, index: usize) -> bool
        ensures open { result ≡ is_open_in self.old index }
        ensures marked { self.new ≡ marked_in self.old index }
    {
        match self.marks.get_mut(index) {
            Some(mark) => {
                let was = *mark;
                *mark = true;
                !was
            }
            None => false,
        }
    }

    /// The indices from 1 on that are not marked. There are at most 32,767, so that no error but running out of memory is met.
    pub(crate) fn unmarked(&self, alloc: Global) -> Result<Vec<u16>, AllocError>
        ensures { IfOk result (λ v. v.items ≡ unmarked_from 0 self.now) }
    {
        let mut left = Vec::new(alloc);
        for (number, mark) in self.marks.iter().enumerate() {
            if number > 0 && !*mark {
                let Ok(index) = u16::try_from(number) else {
                    return Err(AllocError);
                };
                left.push(index)?;
            }
        }
        Ok(left)
    }
}

/// The segments that are reached so far.
#[derive(Drop)]
pub(crate) struct Walk {
    /// Whether each segment is, for each module.
    pub marks: Vec<SegmentMarks>,
    /// Those that are, in the order in which they were.
    pub queue: Vec<ProgramSegment>,
}

/// No marks for the segments of modules.
fn no_marks(alloc: Global, modules: &[Checked]) -> Result<Vec<SegmentMarks>, AllocError>
    ensures { IfOk result (λ v. v.items ≡ map (λ m. replicate (length (segments (recs_of m.bytes)) + 1) false) modules.now) }
{
    let mut marks = Vec::new(alloc);
    for module in modules {
        marks.push(SegmentMarks::new(alloc, usize::from(module.segments()) + 1)?)?;
    }
    Ok(marks)
}

impl Walk {
    /// Reaches a segment.
    fn reach(&mut self, segment: ProgramSegment) -> Result<(), AllocError>
        ensures marks { OnOk result (self.new.marks.items ≡ with_mark self.old.marks.items segment) }
        ensures queue { OnOk result (self.new.queue.items ≡ queued self.old.marks.items self.old.queue.items segment) }
    {
        let Some(marks) = self.marks.get_mut(segment.module) else {
            return Ok(());
        };
        if marks.mark(usize::from(segment.segment)) {
            self.queue.push(segment)?;
        }
        Ok(())
    }

    /// Reaches segments.
    fn reach_all(&mut self, segments: &[ProgramSegment]) -> Result<(), AllocError>
        ensures grown { (o : LeftOut) (ms : List (List Rec)) → IsWalk o ms self.old.marks.items self.old.queue.items → All (IsCalled o ms) segments.now → OnOk result (IsGrown o ms self.old.marks.items self.old.queue.items self.new.marks.items self.new.queue.items segments.now) }
        ensures total { OnOk result (length self.new.queue.items + left_open self.new.marks.items ≡ length self.old.queue.items + left_open self.old.marks.items) }
    {
        for segment in segments {
            self.reach(*segment)?;
        }
        Ok(())
    }

    /// Reaches what the segments refer to that are reached, and so on.
    fn go_on(&mut self, alloc: Global, program: &Program<'_>) -> Result<(), AllocError>
        ensures { (o : LeftOut) (ms : List (List Rec)) → IsProgram ms program.now → IsWalk o ms self.old.marks.items self.old.queue.items → All (IsTaken ms self.old.marks.items) (roots o ms) → OnOk result (IsWalked o ms self.new.marks.items self.new.queue.items) }
    {
        let mut at = 0;
        while at < self.queue.len() {
            let mut next = Vec::new(alloc);
            program.push_next(&mut next, self.queue[at])?;
            self.reach_all(&next)?;
            at += 1;
        }
        Ok(())
    }

    /// The walk from these segments of a program.
    pub(crate) fn from(
        alloc: Global,
        modules: &[Checked],
        program: &Program<'_>,
        first: &[ProgramSegment],
    ) -> Result<Walk, AllocError>
        ensures { (o : LeftOut) (ms : List (List Rec)) → ms ≡ typed_modules modules.now → IsProgram ms program.now → first.now ≡ roots o ms → IfOk result (λ w. IsWalked o ms w.marks.items w.queue.items) }
    {
        let mut walk = Walk {
            marks: no_marks(alloc, modules)?,
            queue: Vec::new(alloc),
        };
        walk.reach_all(first)?;
        walk.go_on(alloc, program)?;
        Ok(walk)
    }
}
