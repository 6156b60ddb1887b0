//! Values grouped by name, in the order of each name's first value.

ghost use Rattle.std.specs.Prelude.{◌≡◌, ◌<◌, ◌∷◌, ◌++◌, [], length, map, List, ℕ, OnOk, IfOk};
ghost use Rattle.omf_layout.specs.Several.Gathered.{AreGathered, gathered, named, with_value};

use omf_names::NameKey;
use std::alloc::{AllocError, Global};
use std::collections::BTreeMap;

/// The groups so far: the position of each name, and the values at each position.
#[derive(Drop)]
struct Gathering<'a, T> {
    places: BTreeMap<NameKey<'a>, usize>,
    runs: Vec<Vec<T>>,
}

/// Adds a value to the group at a position.
fn add_at<T: Drop>(runs: &mut Vec<Vec<T>>, place: usize, value: T) -> Result<(), AllocError>
    requires { place < length runs.old.items }
    ensures { OnOk result (map (λ r. r.items) runs.new.items ≡ with_value place value (map (λ r. r.items) runs.old.items)) }
{
    runs[place].push(value)?;
    Ok(())
}

/// Adds a group of one value.
fn add_run<T: Drop>(alloc: Global, runs: &mut Vec<Vec<T>>, value: T) -> Result<(), AllocError>
    ensures { OnOk result (map (λ r. r.items) runs.new.items ≡ map (λ r. r.items) runs.old.items ++ (value ∷ []) ∷ []) }
{
    let mut run = Vec::with_capacity(alloc, 1)?;
    run.push(value)?;
    runs.push(run)?;
    Ok(())
}

impl<'a, T: Drop> Gathering<'a, T> {
    /// Adds a value with its name.
    fn add(&mut self, alloc: Global, name: &'a [u8], value: T) -> Result<(), AllocError>
        requires { (xs : List (List ℕ × T)) × AreGathered self.old.places (map (λ r. r.items) self.old.runs.items) xs }
        ensures { (xs : List (List ℕ × T)) → AreGathered self.old.places (map (λ r. r.items) self.old.runs.items) xs → OnOk result (AreGathered self.new.places (map (λ r. r.items) self.new.runs.items) (xs ++ (name.entry.now, value) ∷ [])) }
    {
        match self.places.insert(NameKey::of(name), self.runs.len())? {
            Some(place) => {
                self.places.insert(NameKey::of(name), place)?;
                add_at(&mut self.runs, place, value)
            }
            None => add_run(alloc, &mut self.runs, value),
        }
    }
}

/// Groups values by name: the names in the order of their first value, the values of a name in their own order.
///
/// # Errors
///
/// Out of memory.
pub fn gather<'a, T: Drop>(
    alloc: Global,
    values: Vec<(&'a [u8], T)>,
) -> Result<Vec<Vec<T>>, AllocError>
    ensures { IfOk result (λ runs. map (λ r. r.items) runs.items ≡ gathered (map named values.entry.items)) }
{
    let mut gathering = Gathering {
        places: BTreeMap::new(alloc),
        runs: Vec::new(alloc),
    };
    for (name, value) in values {
        gathering.add(alloc, name, value)?;
    }
    let Gathering { runs, .. } = gathering;
    Ok(runs)
}
