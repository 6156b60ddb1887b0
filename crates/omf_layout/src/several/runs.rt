//! Segments of one class and name.

ghost use Rattle.std.specs.Prelude.{◌≡◌, ◌<◌, ◌^◌, ◌++◌, OnOk, IfOk, length, map, not};
ghost use Rattle.std.specs.List.{filter};
ghost use Rattle.omf_check.specs.Module.{typed_modules};
ghost use Rattle.omf_layout.specs.Several.Order.{combined_by, is_named, nameless_last, runs, runs_in};
ghost use Rattle.omf_layout.specs.Several.Portions.{portions, with_names};

use crate::several::gathering::gather;
use crate::several::portion::{Classed, Combination, Portion, portions_of};
use omf_check::Checked;
use std::alloc::{AllocError, Global};

/// Appends runs.
fn add_runs(runs: &mut Vec<Vec<Portion>>, more: Vec<Vec<Portion>>) -> Result<(), AllocError>
    ensures { OnOk result (map (λ r. r.items) runs.new.items ≡ map (λ r. r.items) runs.old.items ++ map (λ r. r.items) more.items) }
{
    for run in more {
        runs.push(run)?;
    }
    Ok(())
}

/// Splits segments into runs of one class and name.
pub fn runs_in<'a>(
    alloc: Global,
    portions: Vec<Classed<'a>>,
) -> Result<Vec<Vec<Portion>>, AllocError>
    ensures { IfOk result (λ runs. map (λ r. r.items) runs.items ≡ runs_in (map with_names portions.entry.items)) }
{
    let mut runs = Vec::new(alloc);
    for class in gather(alloc, portions)? {
        add_runs(&mut runs, gather(alloc, class)?)?;
    }
    Ok(runs)
}

/// Appends the segments that have a name.
fn add_named<'a>(ordered: &mut Vec<Classed<'a>>, portions: &[Classed<'a>]) -> Result<(), AllocError>
    ensures { OnOk result (ordered.new.items ≡ ordered.old.items ++ filter (λ x. is_named x.1.1) portions.now) }
{
    for portion in portions {
        if portion.1.1.is_named() {
            ordered.push(*portion)?;
        }
    }
    Ok(())
}

/// Appends the segments that have no name.
fn add_nameless<'a>(
    ordered: &mut Vec<Classed<'a>>,
    portions: &[Classed<'a>],
) -> Result<(), AllocError>
    ensures { OnOk result (ordered.new.items ≡ ordered.old.items ++ filter (λ x. not (is_named x.1.1)) portions.now) }
{
    for portion in portions {
        if !portion.1.1.is_named() {
            ordered.push(*portion)?;
        }
    }
    Ok(())
}

/// Returns segments in the order in which their classes and names count: those without a name last.
fn nameless_last<'a>(
    alloc: Global,
    portions: &[Classed<'a>],
) -> Result<Vec<Classed<'a>>, AllocError>
    ensures { IfOk result (λ v. v.items ≡ nameless_last portions.now) }
{
    let mut ordered = Vec::with_capacity(alloc, portions.len())?;
    add_named(&mut ordered, portions)?;
    add_nameless(&mut ordered, portions)?;
    Ok(ordered)
}

/// Returns the segments of modules in the order in which their classes and names count.
pub(crate) fn portions_in_order<'a>(
    alloc: Global,
    modules: &'a [Checked],
) -> Result<Vec<Classed<'a>>, AllocError>
    requires { length modules.now < 2 ^ 32 }
    ensures { IfOk result (λ v. map with_names v.items ≡ nameless_last (portions (typed_modules modules.entry.now))) }
{
    let portions = portions_of(alloc, modules)?;
    let ordered = nameless_last(alloc, &portions)?;
    Ok(ordered)
}

/// Splits the segments of modules into runs of one class and name.
///
/// # Errors
///
/// `AllocError` if memory runs out.
pub fn runs_of(alloc: Global, modules: &[Checked]) -> Result<Vec<Vec<Portion>>, AllocError>
    requires { length modules.now < 2 ^ 32 }
    ensures { IfOk result (λ v. map (λ r. r.items) v.items ≡ runs (typed_modules modules.now)) }
{
    runs_in(alloc, portions_in_order(alloc, modules)?)
}

/// Returns the segments of a run with this combination.
pub fn combined_by(
    alloc: Global,
    combination: Combination,
    run: &[Portion],
) -> Result<Vec<Portion>, AllocError>
    ensures { IfOk result (λ v. v.items ≡ combined_by combination run.now) }
{
    let mut combined = Vec::new(alloc);
    for portion in run {
        if portion.lies() == combination {
            combined.push(*portion)?;
        }
    }
    Ok(combined)
}
