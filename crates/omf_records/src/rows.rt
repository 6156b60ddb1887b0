//! Worked examples: the contents of each record, and first faults, worked out by hand and evaluated by the check.

ghost use Rattle.omf_records.specs.Rows.{SmallModule, OtherRecords, Subrecords, ShortestOf, FirstFaults, FaultOrder};

/// The records of a small module.
pub fn small_module()
    ensures { SmallModule }
{}

/// All other records, in both widths.
pub fn other_records()
    ensures { OtherRecords }
{}

/// Threads and fixups.
pub fn subrecords()
    ensures { Subrecords }
{}

/// Contents with longer encodings, and their shortest ones.
pub fn shortest_contents()
    ensures { ShortestOf }
{}

/// Each layout fault once.
pub fn first_faults()
    ensures { FirstFaults }
{}

/// The first of several faults.
pub fn fault_order()
    ensures { FaultOrder }
{}
