//! Laws over the definitions, each the contract of a function that does nothing.

ghost use Rattle.omf_library.specs.Laws.{MembersAreUnique, MembersLieInside, MembersAreDisjoint, FaultsExclude, AnswersAreUnique};
ghost use Rattle.omf_library.specs.SearchLaws.{SearchesFindEntries};

/// Bytes are a library with one list of members at most.
pub fn members_are_unique()
    ensures { MembersAreUnique }
{}

/// Each member begins after the header at a multiple of the page size, and ends before the F1H, which is one of the
/// bytes.
pub fn members_lie_inside()
    ensures { MembersLieInside }
{}

/// Of two members the one that is listed first ends before the other begins.
pub fn members_are_disjoint()
    ensures { MembersAreDisjoint }
{}

/// Bytes with a fault other than out of memory are no library.
pub fn faults_exclude()
    ensures { FaultsExclude }
{}

/// Bytes have at most one answer, out of memory aside: their members, or why they are no library.
pub fn answers_are_unique()
    ensures { AnswersAreUnique }
{}

/// What a search of a dictionary finds is an entry of the name in one of the blocks.
pub fn searches_find_entries()
    ensures { SearchesFindEntries }
{}
