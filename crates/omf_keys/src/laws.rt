//! Laws about modules of equal keys, each the contract of an empty function.

ghost use Rattle.omf_keys.specs.Laws.{PiecesByKeys, TablesByKeys, MeaningsByKeys, ExternalsByKeys};
ghost use Rattle.omf_keys.specs.Chosen.{ChosenByKeys, WithoutByKeys};
ghost use Rattle.omf_keys.specs.Files.{ExesByKeys, ComsByKeys, MapsByKeys, SymbolsByKeys};
ghost use Rattle.omf_keys.specs.Maps.{ListingsByKeys};
ghost use Rattle.omf_keys.specs.Memory.{MemoriesByKeys, TextsByKeys};
ghost use Rattle.omf_keys.specs.Programs.{PlacesByKeys, MoversByKeys, ProgramsByKeys};

use omf_canon::laws::{
    canonicals_decide, equal_skeletons, fixups_stand_alone, skeletons_are_joined,
    skeletons_are_unique,
};
use omf_check::laws::modules_hold;
use omf_trimming::laws::without::{rests_are_typed, rests_are_well_formed};

/// Modules of one key have the same records and fixups in the same order, but for their places.
pub fn pieces_by_keys()
    ensures { PiecesByKeys }
{
    canonicals_decide();
    skeletons_are_unique();
    fixups_stand_alone();
}

/// Modules of one key have the same tables.
pub fn tables_by_keys()
    ensures { TablesByKeys }
{
    pieces_by_keys();
}

/// At every placement modules of one key have the same image and start, and reach or do not reach for the same causes.
pub fn meanings_by_keys()
    ensures { MeaningsByKeys }
{
    canonicals_decide();
    equal_skeletons();
}

/// At the same places modules of equal keys have the same externals, or the same fault.
pub fn externals_by_keys()
    ensures { ExternalsByKeys }
{
    pieces_by_keys();
}

/// Modules of equal keys are laid out in the same places.
pub fn places_by_keys()
    ensures { PlacesByKeys }
{
    pieces_by_keys();
}

/// The same of modules of equal keys moves with a program.
pub fn movers_by_keys()
    ensures { MoversByKeys }
{
    pieces_by_keys();
}

/// At the same placements modules of equal keys give one program, or none.
pub fn programs_by_keys()
    ensures { ProgramsByKeys }
{
    pieces_by_keys();
    meanings_by_keys();
    modules_hold();
}

/// Modules of equal keys have the same .EXE file, or none.
pub fn exes_by_keys()
    ensures { ExesByKeys }
{
    places_by_keys();
    externals_by_keys();
    movers_by_keys();
    programs_by_keys();
    pieces_by_keys();
}

/// Modules of equal keys have the same .COM file, or none.
pub fn coms_by_keys()
    ensures { ComsByKeys }
{
    places_by_keys();
    externals_by_keys();
    movers_by_keys();
    programs_by_keys();
    pieces_by_keys();
}

/// Modules of equal keys have the same map.
pub fn maps_by_keys()
    ensures { MapsByKeys }
{
    places_by_keys();
    externals_by_keys();
    movers_by_keys();
    programs_by_keys();
    pieces_by_keys();
}

/// Modules of equal keys have the same symbols for a tool.
pub fn symbols_by_keys()
    ensures { SymbolsByKeys }
{
    places_by_keys();
    externals_by_keys();
    movers_by_keys();
    programs_by_keys();
    pieces_by_keys();
}

/// At the same placements modules of equal keys have one map.
pub fn listings_by_keys()
    ensures { ListingsByKeys }
{
    pieces_by_keys();
}

/// By the same link text modules of equal keys have the same placements, or the same first fault.
pub fn texts_by_keys()
    ensures { TextsByKeys }
{
    pieces_by_keys();
}

/// At the same placements modules of equal keys have one memory and one start.
pub fn memories_by_keys()
    ensures { MemoriesByKeys }
{
    pieces_by_keys();
    meanings_by_keys();
    modules_hold();
}

/// Without the same segments modules of one key have one key.
pub fn without_by_keys()
    ensures { WithoutByKeys }
{
    rests_are_well_formed();
    rests_are_typed();
    canonicals_decide();
    skeletons_are_unique();
    fixups_stand_alone();
    skeletons_are_joined();
    pieces_by_keys();
}

/// After the choice among COMDATs modules of equal keys have equal keys.
pub fn chosen_by_keys()
    ensures { ChosenByKeys }
{
    pieces_by_keys();
    without_by_keys();
}
