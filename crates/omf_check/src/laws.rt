//! Laws of the definitions. Each is the contract of an empty function.

ghost use Rattle.omf_check.specs.Judging.{JudgingsAreCounts};
ghost use Rattle.omf_check.specs.Laws.{RefusalsStay, RefusalsAreUnique, NeverBoth, ModulesAreUnique, IsEither, VerdictsDecide, SoundBytesAreDecided, RefusalsAreJudged, CellsAreThreads, LimitsMayGrow, ModulesHold, ThreadsAreKept};

/// A refusal other than NoEnd and Cut remains, whatever follows the input.
pub fn refusals_stay()
    ensures { RefusalsStay }
{}

/// An input is refused for at most one reason, at one place.
pub fn refusals_are_unique()
    ensures { RefusalsAreUnique }
{}

/// No input is both accepted and refused.
pub fn never_both()
    ensures { NeverBoth }
{}

/// An input is accepted as at most one module.
pub fn modules_are_unique()
    ensures { ModulesAreUnique }
{}

/// Every input is accepted or refused.
pub fn is_either()
    ensures { IsEither }
{}

/// The computed verdict is right: it accepts and refuses exactly as the definitions do.
pub fn verdicts_decide()
    ensures { VerdictsDecide }
{}

/// Bytes are sound so far exactly if they have no refusal other than for ending too early, and nothing follows their module; the verdict
/// shows it.
pub fn sound_bytes_are_decided()
    ensures { SoundBytesAreDecided }
{}

/// A refusal other than NoEnd and Cut is decided at the place where its record is checked: by the bytes up to there, whatever follows,
/// and by no shorter prefix.
pub fn refusals_are_judged()
    ensures { RefusalsAreJudged }
{}

/// Eight cells, of which each THREAD sets one, hold the threads that a search backward finds.
pub fn cells_are_threads()
    ensures { CellsAreThreads }
{}

/// A module that is well-formed with some limits on blocks is well-formed with all larger limits.
pub fn limits_may_grow()
    ensures { LimitsMayGrow }
{}

/// No record of a well-formed module refers to a thread, an entry, data or a byte that is missing; only the last record is a MODEND.
pub fn modules_hold()
    ensures { ModulesHold }
{}

/// The threads kept, one for each kind and number, are always those in force, and give each reference its frame and target.
pub fn threads_are_kept()
    ensures { ThreadsAreKept }
{}

/// If an input begins with a module, the verdict without the module has its numbers of records and bytes, unless memory runs out or the
/// reader fails.
pub fn judgings_are_counts()
    ensures { JudgingsAreCounts }
{}
