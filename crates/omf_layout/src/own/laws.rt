//! Laws of the modules that a linker writes itself, each the contract of an empty function.

ghost use Rattle.omf_layout.specs.Own.Ordered.{ArePartsApart, IsDosOrder, IsEmptyOrder, IsOrderAlone, IsOrderFitting};

/// With the module for DOS order in front, segments that are not absolute are laid part by part, and in each part by class and name as these first appear. The segments of one class and
/// name stay together, in their order.
pub fn dos_order()
    ensures { IsDosOrder }
{}

/// The module for DOS order has no data, and no bytes in its segments, of which none is absolute.
pub fn order_is_empty()
    ensures { IsEmptyOrder }
{}

/// With the module for DOS order in front, the segments that are not absolute have the addresses and frames that they have if they alone are laid in that order; so has the first free
/// address. The law assumes that no module has a segment `END OF DATA` or `END OF BSS` in the class of that name.
pub fn order_is_all()
    ensures { IsOrderAlone }
{}

/// With the module for DOS order in front, each segment of an earlier part ends before each of a later one begins; segments that are absolute aside.
pub fn dos_parts_lie_apart()
    ensures { ArePartsApart }
{}

/// What fits if the segments that are not absolute alone are laid in DOS order fits with the module in front too, if an address is left below the limit. The law assumes that no module
/// has a segment `END OF DATA` or `END OF BSS` in the class of that name.
pub fn order_fits()
    ensures { IsOrderFitting }
{}
