//! Segments of several modules.

ghost use Rattle.std.specs.Prelude.{◌≡◌, ◌++◌, ◌<◌, ◌^◌, List, OnOk, IfOk, length, map};
ghost use Rattle.omf_check.specs.Module.{recs_of, typed_modules};
ghost use Rattle.omf_records.specs.Values.{Rec};
ghost use Rattle.omf_layout.specs.Wants.{AreRaised};
ghost use Rattle.omf_layout.specs.Several.Portions.{combination_named, name_at, portion, portions, portions_in, with_names};

use crate::Alignment;
use crate::raised::{Raised, alignment_in, raised_in};
use omf_check::{Checked, SegInfo};
use std::alloc::{AllocError, Global};

/// How a segment combines with others of its class and name (TIS OMF 1.1, "SEGDEF", C field).
#[derive(Clone, Copy, PartialEq, Eq)]
pub enum Combination {
    /// One after another in one frame: public (2, 4 and 7) and stack (5).
    Joined,
    /// All at one address: common (6).
    Common,
    /// By itself: private (0) and the reserved values 1 and 3.
    Alone,
}

impl Combination {
    /// Returns the combination in a SEGDEF's attribute byte.
    pub(crate) fn named_by(attribute: u8) -> Combination
        ensures { result ≡ combination_named attribute }
    {
        match attribute / 4 % 8 {
            2 | 4 | 5 | 7 => Combination::Joined,
            6 => Combination::Common,
            _ => Combination::Alone,
        }
    }
}

/// A segment of one of several modules.
#[derive(Clone, Copy)]
pub struct Portion {
    /// The module, from 0.
    pub module: u32,
    /// The segment's index, from 1.
    pub index: u16,
    /// Its length, names and absolute address in the SEGDEF.
    pub segment: SegInfo,
    /// Its alignment.
    pub alignment: Alignment,
    /// Its combination in the SEGDEF.
    pub combination: Combination,
}

impl Portion {
    ghost use Rattle.omf_layout.specs.Several.Order.{is_named, lies_by};

    /// Returns how it combines: an absolute segment is alone, whatever its SEGDEF's C field.
    pub fn lies(&self) -> Combination
        ensures { result ≡ lies_by self.now.segment.absolute self.now.combination }
    {
        match self.segment.absolute {
            Some(_) => Combination::Alone,
            None => self.combination,
        }
    }

    /// Whether it has a name: its name index is not 0.
    pub(crate) fn is_named(&self) -> bool
        ensures { result ≡ is_named self.now }
    {
        self.segment.name != 0
    }
}

/// Returns the portion of a segment with this attribute, in a module of which these segments are raised.
fn portion_of(raised: &Raised, module: u32, index: u16, segment: SegInfo, attribute: u8) -> Portion
    ensures { (m : List Rec) → AreRaised raised.now m → result ≡ portion m «module» index segment attribute }
{
    Portion {
        module,
        index,
        segment,
        alignment: alignment_in(raised, index, attribute),
        combination: Combination::named_by(attribute),
    }
}

/// Returns the name of an index; the empty name for index 0.
pub fn name_at(module: &Checked, index: u16) -> &[u8]
    ensures { result.now ≡ name_at (recs_of «module».now.bytes) index }
{
    match module.name(index) {
        Some(name) => name.0,
        None => &[],
    }
}

/// A portion with the names of its class and its segment.
pub type Classed<'a> = (&'a [u8], (&'a [u8], Portion));

/// Adds the segments of a module.
fn add_portions<'a>(
    alloc: Global,
    portions: &mut Vec<Classed<'a>>,
    module: &'a Checked,
    number: u32,
) -> Result<(), AllocError>
    ensures { OnOk result (map with_names portions.new.items ≡ map with_names portions.old.items ++ portions_in (number, recs_of «module».entry.now.bytes)) }
{
    let raised = raised_in(alloc, module)?;
    for before in 0..module.segments() {
        let index = before + 1;
        let Some(segment) = module.segment(index) else {
            unreachable!()
        };
        let Some(attribute) = module.attribute(index) else {
            unreachable!()
        };
        let portion = portion_of(&raised, number, index, segment, attribute);
        let class = name_at(module, segment.class);
        let name = name_at(module, segment.name);
        portions.push((class, (name, portion)))?;
    }
    Ok(())
}

/// Returns the segments of all modules, module by module, with their class names and their own.
pub fn portions_of<'a>(
    alloc: Global,
    modules: &'a [Checked],
) -> Result<Vec<Classed<'a>>, AllocError>
    requires { length modules.now < 2 ^ 32 }
    ensures { IfOk result (λ v. map with_names v.items ≡ portions (typed_modules modules.entry.now)) }
{
    let mut portions = Vec::with_capacity(alloc, modules.len())?;
    for (number, module) in modules.iter().enumerate() {
        add_portions(alloc, &mut portions, module, number as u32)?;
    }
    Ok(portions)
}
