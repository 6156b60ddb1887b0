//! Placements of several modules that resolve each external to the only public with its name.

mod fault;
mod given;
pub mod laws;
mod linkage;
mod pairs;
mod publics;
pub mod rows;
mod search;
mod sources;
mod weak;

pub use fault::DeriveFault;
pub use given::Given;
pub use linkage::{Linkage, derive, derive_linked, with_weak_linked};
pub use pairs::{WeakPair, weak_pairs};
pub use publics::{base_of, publics_of};
pub use sources::{Base, Definer, Source};
pub use weak::with_weak;
