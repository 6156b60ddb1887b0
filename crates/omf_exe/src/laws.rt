//! Laws of the modules that a linker adds to a program, of its map, and of its externals, each the contract of an empty function.

ghost use Rattle.omf_exe.specs.Laws.{AddedDefineNewNames, CommunalsAreFound, ExternalsAreLoaded, MapsShowPrograms};

/// With the module of communals, just one public has the name of a communal, at placements where each of that module's PUBDEFs has a base: one
/// of that module. Each external of the name that is not local and has no given place has the public's place, if that is below 2^32.
pub fn communals_are_found()
    ensures { CommunalsAreFound }
{}

/// The modules of DOS order and of the stack define no name that a PUBDEF or COMDEF of the modules has. So the externals of a communal
/// find its public beside them too.
pub fn added_define_new_names()
    ensures { AddedDefineNewNames }
{}

/// The addresses in the map of modules are those of each program of them: the map is printed of the placements with which the program is
/// linked.
pub fn maps_show_programs()
    ensures { MapsShowPrograms }
{}

/// The externals of a program that is loaded at a paragraph are where they are derived at the segments and groups of its modules there, if and
/// only if all of them are below 2^32 there.
pub fn externals_are_loaded()
    ensures { ExternalsAreLoaded }
{}
