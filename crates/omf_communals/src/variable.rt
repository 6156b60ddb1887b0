//! The variables that TYPDEFs describe, and the sizes of communals of them.

ghost use Rattle.std.specs.Prelude.{◌≡◌, option_map};
ghost use Rattle.omf_records.specs.Inner.Sizes.{size_seen};
ghost use Rattle.omf_check.specs.Tables.{entry};
ghost use Rattle.omf_communals.specs.Communals.{bytes_for, element_size, size_of};

use omf_frame::Index;
use omf_records::CommunalSize;
use std::marker::Model;

/// What a TYPDEF describes (TIS OMF 1.1, "TYPDEF").
#[derive(Clone, Copy, Debug, Drop, PartialEq, Eq)]
pub enum Variable {
    /// A near variable: its length in bits.
    Near(u32),
    /// A far variable: the number of its elements, and the type index of one.
    Far { count: u32, element: Index },
    /// No communal.
    Other,
}

/// A length in bits as a number of bytes.
fn bytes_for(bits: u32) -> u32
    ensures { result ≡ bytes_for bits }
{
    if bits % 8 == 0 {
        bits / 8
    } else {
        bits / 8 + 1
    }
}

/// The variable with a type index, from 1.
fn variable_at(variables: &[Variable], index: Index) -> Option<Variable>
    ensures { result ≡ entry variables.now index }
{
    let index = usize::from(index.0);
    if index == 0 || index > variables.len() {
        return None;
    }
    Some(variables[index - 1])
}

/// The size in bytes of an element of a far variable.
fn element_size(variable: Option<Variable>) -> Option<u32>
    ensures { result ≡ element_size variable }
{
    match variable {
        Some(Variable::Near(bits)) => Some(bytes_for(bits)),
        _ => None,
    }
}

/// The size that a type index gives an external, if it makes it a communal.
pub(crate) fn size_of(variables: &[Variable], index: Index) -> Option<CommunalSize>
    ensures { option_map size_seen result ≡ size_of variables.now index }
{
    match variable_at(variables, index)? {
        Variable::Near(bits) => Some(CommunalSize::Near(bytes_for(bits))),
        Variable::Far { count, element } => {
            let size = element_size(variable_at(variables, element))?;
            Some(CommunalSize::Far { count, size })
        }
        Variable::Other => None,
    }
}
