//! Laws of the definitions, for all inputs.

ghost use Rattle.std.specs.Prelude.{◌≡◌, ◌+◌, ◌<◌, ℕ, Bool, true, not, ◌||◌, IsTrue, List, [], ◌∷◌, ◌++◌, length, take, flat_map, Some, None};
ghost use Rattle.omf_frame.specs.Inner.Names.{AreKept};
ghost use Rattle.omf_frame.specs.declared.fault.Reason.{Reason};
ghost use Rattle.omf_frame.specs.declared.fault.Place.{Place};
ghost use Rattle.omf_frame.specs.declared.fault.FrameFault.TheVariants.{Refused};
ghost use Rattle.omf_frame.specs.Bytes.{AreBytes};
ghost use Rattle.omf_frame.specs.Fault.{Fault, reason_number, IsLeast, least, least_or, Rule, broken};
ghost use Rattle.omf_frame.specs.Framing.{Raw, IsRecord, IsFramed, HasFront, raw_bytes, present, after_front, front_record, is_taken, is_header, frame_fault, standing_fault};
ghost use Rattle.omf_frame.specs.Framer.{Held, at_start, Takes, FailsAs};
ghost use Rattle.omf_frame.specs.Runs.{Run, run_over, settled, IsFed, IsOpen, IsFramingOf, before_all};

/// A framer shows the same records and reaches the same state, however its input is cut into pieces.
///
/// `run_over` feeds single bytes. A feed of a piece equals a run over the bytes it takes or is refused for; so do many feeds.
pub fn pieces_do_not_matter()
    ensures joined { (run : Run) (a b : List ℕ) → run_over run (a ++ b) ≡ run_over (run_over run a) b }
    ensures takes { (run : Run) (piece : List ℕ) (taken : ℕ) (whole : Bool) (new : Held) → IsOpen run.held → Takes run.held piece taken whole new
        → run_over run (take taken piece) ≡ settled (record run { held = new }) }
    ensures fails { (run : Run) (piece : List ℕ) (why : Reason) (place : Place) (new : Held) → IsOpen run.held → FailsAs run.held piece (Refused why place) new
        → run_over run piece ≡ record run { held = new } }
    ensures open_after { (run : Run) (piece : List ℕ) (taken : ℕ) (whole : Bool) (new : Held) → Takes run.held piece taken whole new
        → IsOpen (settled (record run { held = new })).held }
    ensures fed { (run end : Run) (pieces : List (List ℕ)) → IsOpen run.held → IsFed run pieces end → run_over run (flat_map (λ piece. piece) pieces) ≡ end }
{}

/// A framing fault remains whatever bytes follow.
pub fn standing_faults_stay()
    ensures { (is_first : Bool) (bytes more : List ℕ) (fault : Fault) → standing_fault is_first (present bytes) ≡ Some fault → standing_fault is_first (present (bytes ++ more)) ≡ Some fault }
{}

/// A framing fault has one of the reasons 1 to 7.
pub fn framing_reasons()
    ensures { (is_first : Bool) (bytes : List ℕ) (fault : Fault) → frame_fault is_first bytes ≡ Some fault → reason_number fault.reason < 8 }
{}

/// A run over an input shows the records, and ends in the state, that the definitions give for the whole input.
pub fn runs_are_framings()
    ensures { (input : List ℕ) → AreBytes input → IsFramingOf input (run_over before_all input) }
{}

/// A module at the front of an input is read to its end, and no byte after it is taken.
pub fn modules_are_read()
    ensures { (bytes rest : List ℕ) (records : List Raw) → IsFramed bytes records
        → run_over before_all (bytes ++ rest)
        ≡ record { shown = records; held = record { bytes = []; number = length records; start = length bytes; ended = true; fault = None } } }
{}

/// At most one prefix of an input is a framed module.
pub fn modules_are_unique()
    ensures { (a b x y : List ℕ) (rs ss : List Raw) → IsFramed a rs → IsFramed b ss → a ++ x ≡ b ++ y → (a ≡ b) × (rs ≡ ss) }
{}

/// A record and its bytes determine each other, and bytes without a framing fault begin with a record.
pub fn records_delimit()
    ensures present { (r : Raw) (rest : List ℕ) → length r.body + 1 < 65536 → present (raw_bytes r ++ rest) ≡ raw_bytes r }
    ensures after { (r : Raw) (rest : List ℕ) → length r.body + 1 < 65536 → after_front (raw_bytes r ++ rest) ≡ rest }
    ensures front { (r : Raw) → length r.body + 1 < 65536 → front_record (raw_bytes r) ≡ r }
    ensures clean { (is_first : Bool) (r : Raw) → IsRecord r → IsTrue (is_taken r.kind) → IsTrue (not is_first || is_header r.kind) → frame_fault is_first (raw_bytes r) ≡ None }
    ensures begins { (is_first : Bool) (bytes : List ℕ) → AreBytes bytes → frame_fault is_first (present bytes) ≡ None → HasFront bytes }
{}

/// The reported fault is the least of the faults, and the only least one. Rules are kept exactly if none is broken.
pub fn faults_are_least()
    ensures least { (fault : Fault) (faults : List Fault) → IsLeast (fault ∷ faults) (least_or fault faults) }
    ensures none { (faults : List Fault) → least faults ≡ None → faults ≡ [] }
    ensures only { (faults : List Fault) (f g : Fault) → IsLeast faults f → IsLeast faults g → f ≡ g }
    ensures kept { (rules : List Rule) → AreKept rules → broken rules ≡ [] }
    ensures broken { (rules : List Rule) → broken rules ≡ [] → AreKept rules }
{}
