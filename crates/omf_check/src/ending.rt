//! The threads in force at the end of a module, to which its MODEND may refer (TIS OMF 1.1, "MODEND", "FIXUPP").

ghost use Rattle.std.specs.Prelude.{◌≡◌};
ghost use Rattle.omf_check.specs.Inner.Contents.{references_seen};
ghost use Rattle.omf_check.specs.Inner.Judging.{frame_cell, target_cell};
ghost use Rattle.omf_check.specs.Inner.Kept.{HasThreads, threads_after};
ghost use Rattle.omf_check.specs.Module.{recs_of};
ghost use Rattle.omf_check.specs.Tables.{subrecords};
ghost use Rattle.omf_check.specs.Threads.{frame_of, target_of};

use crate::checked::Checked;
use crate::contents::References;
use crate::threads::Threads;
use crate::undecoded::Undecoded;
use omf_records::Reference;

/// Sets the threads of a FIXUPP; a MODEND sets none.
fn set_fixups(threads: &mut Threads, references: &References<'_>)
    ensures { threads.new ≡ threads_after threads.old (references_seen references.now).contents }
{
    if let References::Fixups { subrecords, .. } = references {
        threads.set_all(subrecords.iter());
    }
}

/// The same for a record that is not decoded yet. It is decoded only if it is a FIXUPP or a MODEND.
fn set_threads(threads: &mut Threads, rec: &Undecoded<'_>)
    ensures { threads.new ≡ threads_after threads.old rec.now.contents }
{
    if let Some(references) = rec.as_references() {
        set_fixups(threads, &references);
    }
}

/// The threads in force at the end of a module.
fn threads_at_end(module: &Checked) -> Threads
    ensures { HasThreads result (subrecords (recs_of «module».now.bytes)) }
{
    let mut threads = Threads::new();
    for (_place, record) in module.undecoded() {
        set_threads(&mut threads, &record);
    }
    threads
}

/// Returns threads that give the reference of a module's MODEND its frame and its target: those in force at the end of the module, or none, if it names none.
/// The records are read only if it names one.
pub fn threads_of_end(module: &Checked, reference: &Reference) -> Threads
    ensures frame { frame_cell result reference.now ≡ frame_of (subrecords (recs_of «module».now.bytes)) reference.now }
    ensures target { target_cell result reference.now ≡ target_of (subrecords (recs_of «module».now.bytes)) reference.now }
{
    if reference.frame_thread().is_some() || reference.target_thread().is_some() {
        threads_at_end(module)
    } else {
        Threads::new()
    }
}
