//! Placements: the addresses and frames of a module's segments, groups and externals; the frames of groups by their members; the text
//! format of placements; and placements of several modules that resolve each external to the only public with its name.
#![tactic(auto)]

pub mod cut;
mod entry;
mod fault;
mod frame;
mod group;
pub mod laws;
mod placement;
pub mod several;
mod text;

pub use entry::{Entry, entry_of, hexadecimal, placed_of, said_by};
pub use fault::TextFault;
pub use frame::{Frame, Placed};
pub use group::{lower, lowest_member, real_group};
pub use placement::Placement;
pub use several::{
    Base, Definer, DeriveFault, Given, Linkage, Source, WeakPair, base_of, derive, derive_linked,
    publics_of, weak_pairs, with_weak, with_weak_linked,
};
pub use text::{Draft, parse_placement};
