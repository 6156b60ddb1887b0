//! The modules of a program: those that are given, and the members of libraries that they need.

ghost use Rattle.std.specs.Prelude.{◌≡◌, ◌++◌, IfErr, IfOk, OnOk, drop};
ghost use Rattle.std.specs.List.Sorted.{IsStrictlyIncreasing};
ghost use Rattle.omf_exe.specs.Taken.{AreJoined, IsJoiningFault, values_at};
ghost use Rattle.omf_exe.specs.Inner.Taking.{AreMoved, IsMovingFault, IsRefusedWith, is_first, walked};

use omf_check::Checked;
use omf_library::{LibraryMember, RefusedMember, needed_members};
use std::alloc::{AllocError, AllocFailed, Global};

/// Whether a number is the first of those that are left.
fn is_first(left: &[usize], number: usize) -> bool
    ensures { result ≡ is_first number left.now }
{
    match left {
        [] => false,
        [first, ..] => *first == number,
    }
}

/// All but the first.
fn others(left: &[usize]) -> &[usize]
    ensures { result.now ≡ drop 1 left.now }
{
    match left {
        [] => left,
        [_, others @ ..] => others,
    }
}

/// Moves the values at numbers to the end of others, by a walk that meets the numbers in turn.
fn walk<T: Drop>(numbers: &[usize], values: Vec<T>, all: &mut Vec<T>) -> Result<(), AllocError>
    ensures { OnOk result (all.new.items ≡ all.old.items ++ walked 0 numbers.now values.items) }
{
    let mut left = numbers;
    let mut number = 0;
    for value in values {
        if is_first(left, number) {
            all.push(value)?;
            left = others(left);
        }
        number += 1;
    }
    Ok(())
}

/// Moves the values at these numbers, which rise, to the end of others.
#[tactic(auto, using(crate::proofs::TakenLaws::walk_is))]
pub(crate) fn take_into<T: Drop>(
    numbers: &[usize],
    values: Vec<T>,
    all: &mut Vec<T>,
) -> Result<(), AllocError>
    requires { IsStrictlyIncreasing numbers.now }
    ensures { OnOk result (all.new.items ≡ all.old.items ++ values_at numbers.now values.items) }
{
    all.reserve(numbers.len())?;
    walk(numbers, values, all)
}

/// Modules, and the members that they need.
#[derive(Drop)]
pub struct Joined {
    /// The given modules, and after them the members.
    pub modules: Vec<Checked>,
    /// The numbers of the members, from 0, in rising order.
    pub numbers: Vec<usize>,
}

/// Why modules are not joined.
#[derive(Drop)]
pub enum JoiningFault {
    /// Out of memory.
    Memory,
    /// The first needed member that the check of modules refuses, with its number.
    Refused(usize, RefusedMember),
}

impl From<AllocError> for JoiningFault {
    ghost use Rattle.std.specs.Prelude.{◌≡◌};
    ghost use Rattle.omf_exe.specs.declared.joining.JoiningFault.TheVariants.{Memory};

    ghost from_gives = { λ _ e. e ≡ Memory };

    fn from(_error: AllocError) -> JoiningFault {
        JoiningFault::Memory
    }
}

impl<T: Drop> From<AllocFailed<T>> for JoiningFault {
    ghost use Rattle.std.specs.Prelude.{◌≡◌};
    ghost use Rattle.omf_exe.specs.declared.joining.JoiningFault.TheVariants.{Memory};

    ghost from_gives = { λ _ e. e ≡ Memory };

    fn from(_error: AllocFailed<T>) -> JoiningFault {
        JoiningFault::Memory
    }
}

/// The fault of a member that is refused: of these numbers it has the one at an index. Each member has a number, so `Memory` is not met.
fn refused_at(numbers: &[usize], at: usize, refused: RefusedMember) -> JoiningFault
    ensures { IsRefusedWith numbers.now at refused result }
{
    match numbers.get(at) {
        Some(number) => JoiningFault::Refused(*number, refused),
        None => JoiningFault::Memory,
    }
}

/// Moves the modules of members, which have these numbers, to the end of others.
///
/// # Errors
///
/// `Refused` with the first member that is refused. `Memory` if memory runs out.
#[tactic(auto, using(crate::proofs::JoiningLaws::none_moved, crate::proofs::JoiningLaws::moved_more, crate::proofs::JoiningLaws::moved_all, crate::proofs::JoiningLaws::moving_fails))]
fn move_modules(
    numbers: &[usize],
    members: Vec<LibraryMember>,
    all: &mut Vec<Checked>,
) -> Result<(), JoiningFault>
    ensures moved { OnOk result (AreMoved members.items all.old.items all.new.items) }
    ensures fault { IfErr result (IsMovingFault numbers.now members.items) }
{
    let mut at = 0;
    for member in members {
        match member {
            LibraryMember::Module(module) => all.push(module)?,
            LibraryMember::Refused(refused) => {
                return Err(refused_at(numbers, at, refused));
            }
        }
        at += 1;
    }
    Ok(())
}

/// Joins to modules the members of libraries that they need: `members` are those of all libraries, in the order in which they are searched.
///
/// # Errors
///
/// `Refused` with the first needed member, by its number, that is refused. `Memory` if memory runs out.
#[tactic(auto, using(crate::proofs::JoiningLaws::are_joined, crate::proofs::JoiningLaws::joining_fails))]
pub fn join_needed(
    alloc: Global,
    given: Vec<Checked>,
    members: Vec<LibraryMember>,
) -> Result<Joined, JoiningFault>
    ensures joined { IfOk result (λ j. AreJoined given.items members.items j.modules.items j.numbers.items) }
    ensures fault { IfErr result (IsJoiningFault given.items members.items) }
{
    let numbers = needed_members(alloc, &given, &members)?;
    let mut taken = Vec::new(alloc);
    take_into(&numbers, members, &mut taken)?;
    let mut modules = given;
    move_modules(&numbers, taken, &mut modules)?;
    Ok(Joined { modules, numbers })
}
