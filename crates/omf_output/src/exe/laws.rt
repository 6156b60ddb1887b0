//! Laws about the definitions, each the contract of an empty function.

ghost use Rattle.omf_output.specs.Exe.Laws.{OutcomesMove, DataMove, FilesAreLoaded, ChunksAreLaid, ChunksMove, ImagesMove, ProgramsAreLoaded, StartsMove, PlacementsReach, JudgedMove, WordsAreMoved, WordsStandApart, ExternalsMove};
ghost use Rattle.omf_output.specs.Exe.Movable.{MovingIsDecided};
ghost use Rattle.omf_output.specs.Exe.Overlaps.{OverlapsAreFound, ProgramsAreJudged};

/// What a fixup that moves with the program adds at a moved placement is what it adds at the placement, with as much more at a selector that
/// moves as there are paragraphs.
pub fn outcomes_move()
    ensures { OutcomesMove }
{}

/// The data of a record at a moved placement are its data at the placement, with as much added at each relocation word as there are paragraphs.
pub fn data_move()
    ensures { DataMove }
{}

/// The file of a program, loaded at a paragraph, is the program's image with the paragraph added at each of its relocation words.
pub fn files_are_loaded()
    ensures { FilesAreLoaded }
{}

/// What a module lays are chunks at the addresses of its segments.
pub fn chunks_are_laid()
    ensures { ChunksAreLaid }
{}

/// The chunks of modules that move, at placements moved by paragraphs, are their chunks at the placements, moved.
pub fn chunks_move()
    ensures { ChunksMove }
{}

/// The image of moved chunks is the image of the chunks with the paragraphs added at each word, where no later chunk covers one.
pub fn images_move()
    ensures { ImagesMove }
{}

/// The file of a program, loaded at any paragraph, has in memory what its modules put there at their placements moved by as many paragraphs.
pub fn programs_are_loaded()
    ensures { ProgramsAreLoaded }
{}

/// The start of a module that moves with its start is as many paragraphs higher at a moved placement, at the same offset.
pub fn starts_move()
    ensures { StartsMove }
{}

/// The moved placement of a module that moves with its start reaches where the placement does.
pub fn placements_reach()
    ensures { PlacementsReach }
{}

/// A well-formed module moves, at a placement that reaches, where its records and what moves of it show that: no placement is needed.
pub fn judged_move()
    ensures { JudgedMove }
{}

/// Words that lie inside and do not overlap are moved, each modulo 2^16, and no other byte changes.
pub fn words_are_moved()
    ensures { WordsAreMoved }
{}

/// The relocation words of a program do not overlap.
pub fn words_stand_apart()
    ensures { WordsStandApart }
{}

/// A module has no part that does not move exactly if all its data records, their fixups and its start, if it is a main module, move.
pub fn moving_is_decided()
    ensures { MovingIsDecided }
{}

/// Where no part of a well-formed module overlaps a relocation word before it, its words are those of its data records, and none of these
/// covers a word.
pub fn overlaps_are_found()
    ensures { OverlapsAreFound }
{}

/// Well-formed modules that are judged to move, and whose words were added one module after the other, are modules of a program: they move, the
/// words are theirs, and no data record of any of them covers an earlier word.
pub fn programs_are_judged()
    ensures { ProgramsAreJudged }
{}

/// Externals that are derived at moved segments and groups are where those derived at the unmoved ones are moved to, each as the base of its only
/// public, and a weak one without a public as its default: if and only if all of them are below 2^32 there.
pub fn externals_move()
    ensures { ExternalsMove }
{}
