//! Frame and target threads (TIS OMF 1.1, "FIXUPP", THREAD).

ghost use Rattle.std.specs.Prelude.{◌≡◌, ◌<◌};
ghost use Rattle.omf_check.specs.Inner.Kept.{kept_frame, kept_target, set_thread, set_threads, no_threads};
ghost use Rattle.omf_check.specs.Inner.Judging.{frame_cell, target_cell};

use crate::method::{FrameMethod, TargetMethod};
use omf_records::{Items, Part, Reference, Subrecord};

/// The frame threads 0 to 3 and target threads 0 to 3 in force at a place of a module. Kept while walking over its records.
#[derive(Clone, Copy, Debug, Drop)]
pub struct Threads {
    /// The frame method of each frame thread, if set.
    pub frames: [Option<FrameMethod>; 4],
    /// The target method of each target thread, if set.
    pub targets: [Option<TargetMethod>; 4],
}

impl Threads {
    /// No thread is set.
    pub fn new() -> Threads
        ensures { result ≡ no_threads }
    {
        Threads {
            frames: [None; 4],
            targets: [None; 4],
        }
    }

    /// The frame method of a frame thread, if set.
    #[inline(always)]
    fn frame_thread(&self, number: u8) -> Option<FrameMethod>
        requires { number < 4 }
        ensures { result ≡ kept_frame self.now number }
    {
        self.frames[usize::from(number)]
    }

    /// The target method of a target thread, if set.
    #[inline(always)]
    fn target_thread(&self, number: u8) -> Option<TargetMethod>
        requires { number < 4 }
        ensures { result ≡ kept_target self.now number }
    {
        self.targets[usize::from(number)]
    }

    /// The frame method of a reference: its own, or that of its thread; `None` if the thread is not set.
    #[inline(always)]
    pub fn frame(&self, reference: &Reference) -> Option<FrameMethod>
        ensures { result ≡ frame_cell self.now reference.now }
    {
        match reference.frame_thread() {
            Some(number) => self.frame_thread(number),
            None => Some(FrameMethod::new(reference.frame_method(), &reference.frame)),
        }
    }

    /// The target method of a reference: its own, or that of its thread; `None` if the thread is not set.
    #[inline(always)]
    pub fn target(&self, reference: &Reference) -> Option<TargetMethod>
        ensures { result ≡ target_cell self.now reference.now }
    {
        match reference.target_thread() {
            Some(number) => self.target_thread(number),
            None => Some(TargetMethod::new(reference.target_method(), &reference.target)),
        }
    }

    /// Sets the thread that a THREAD subrecord defines; a FIXUP subrecord sets none.
    #[inline(always)]
    pub fn set(&mut self, subrecord: &Subrecord<'_>)
        ensures { self.new ≡ set_thread self.old subrecord.now }
    {
        if let Part::Thread { first, index } = &subrecord.part {
            let number = usize::from(first.number());
            if first.is_frame() {
                self.frames[number] = Some(FrameMethod::new(first.frame_method(), index));
            } else {
                self.targets[number] = Some(TargetMethod::new(first.target_method(), index));
            }
        }
    }

    /// Sets the threads that the subrecords define, in order.
    pub fn set_all(&mut self, subrecords: Items<Subrecord<'_>>)
        ensures { self.new ≡ set_threads self.old subrecords.entry }
    {
        for subrecord in subrecords {
            self.set(&subrecord.item);
        }
    }
}
