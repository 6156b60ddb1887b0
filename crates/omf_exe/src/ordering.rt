//! The modules that a linker puts before the modules of a program for DOS order, or for an order of classes.

ghost use Rattle.std.specs.Prelude.{◌≡◌, ◌<◌, ◌^◌, ◌∷◌, IfErr, IfOk, length, map};
ghost use Rattle.omf_exe.specs.Ordering.{IsClassOrderOf, IsClassOrderingFault, IsOrderOf, IsOrderingFault};
ghost use Rattle.omf_aliases.specs.Aliases.{any_profile};

use omf_aliases::any_profile;
use omf_check::{CheckFault, Checked, check};
use omf_combining::class_order_module;
use omf_externals::move_all;
use omf_frame::{Bytes, Place, Reason};
use omf_layout::own::{OrderFault, order_module};
use std::alloc::{AllocError, Global};

/// Why modules are not put in an order.
#[derive(Clone, Copy, Debug, Drop)]
pub enum OrderingFault {
    /// There is no module for it.
    Order(OrderFault),
    /// The module is refused.
    Refused { reason: Reason, place: Place },
}

/// The checked module that puts modules in DOS order, before them.
///
/// # Errors
///
/// `Order` with the fault of `order_module`; `Refused` if its bytes are refused.
pub fn order_of(alloc: Global, modules: &[Checked]) -> Result<Checked, OrderingFault>
    requires { length modules.now < 2 ^ 32 }
    ensures order { IfOk result (IsOrderOf modules.now) }
    ensures fault { IfErr result (IsOrderingFault modules.now) }
{
    let bytes = match order_module(alloc, modules) {
        Ok(bytes) => bytes,
        Err(fault) => return Err(OrderingFault::Order(fault)),
    };
    match check(alloc, &mut Bytes::new(&bytes), any_profile()) {
        Ok(module) => Ok(module),
        Err(CheckFault::Refused { reason, place }) => Err(OrderingFault::Refused { reason, place }),
        Err(CheckFault::Memory | CheckFault::Read) => {
            Err(OrderingFault::Order(OrderFault::Memory))
        }
    }
}

/// The checked module that makes classes the first ones of modules, before them.
///
/// # Errors
///
/// `Order` with the fault of `class_order_module`; `Refused` if its bytes are refused.
pub(crate) fn class_order_of(
    alloc: Global,
    modules: &[Checked],
    classes: &[&[u8]],
) -> Result<Checked, OrderingFault>
    requires { length modules.now < 2 ^ 32 }
    ensures order { IfOk result (IsClassOrderOf (map (λ c. c.now) classes.now) modules.now) }
    ensures fault { IfErr result (IsClassOrderingFault (map (λ c. c.now) classes.now) modules.now) }
{
    let bytes = match class_order_module(alloc, modules, classes) {
        Ok(bytes) => bytes,
        Err(fault) => return Err(OrderingFault::Order(fault)),
    };
    match check(alloc, &mut Bytes::new(&bytes), any_profile()) {
        Ok(module) => Ok(module),
        Err(CheckFault::Refused { reason, place }) => Err(OrderingFault::Refused { reason, place }),
        Err(CheckFault::Memory | CheckFault::Read) => {
            Err(OrderingFault::Order(OrderFault::Memory))
        }
    }
}

/// A value, and others after it.
pub(crate) fn with_front<T: Drop>(
    alloc: Global,
    first: T,
    others: Vec<T>,
) -> Result<Vec<T>, AllocError>
    ensures { IfOk result (λ v. v.items ≡ first ∷ others.items) }
{
    let mut all = Vec::new(alloc);
    all.push(first)?;
    move_all(others, &mut all)?;
    Ok(all)
}
