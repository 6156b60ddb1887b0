//! Laws of the keys of drafts, each the contract of an empty function.

ghost use Rattle.omf_linking.specs.Locator.Laws.{DraftedEntriesGivePlaces, DraftsShareFrames, KeysArePrinted, KeysNameEntries, KeysNameModules};

/// The key that a draft writes for a segment, a group or an external names that entry and no other.
pub fn keys_name_entries()
    ensures { KeysNameEntries }
{}

/// What a draft prints for an entry is its key: the name, or the name and class, in quotes; or `#` and the index.
pub fn keys_are_printed()
    ensures { KeysArePrinted }
{}

/// The key that a draft writes for a module, its name or its number, names that module and no other.
pub fn keys_name_modules()
    ensures { KeysNameModules }
{}

/// The entries of a draft's lines give each module the places of its segments and groups, and no place to an external.
pub fn drafted_entries_give_places()
    ensures { DraftedEntriesGivePlaces }
{}

/// A line of a draft that shares a frame gives its entry the frame that it has: that of the first line of its name.
pub fn drafts_share_frames()
    ensures { DraftsShareFrames }
{}
