//! The contents of a TYPDEF (TIS OMF 1.1, "TYPDEF").

ghost use Rattle.std.specs.Prelude.{◌≡◌, ◌+◌, ◌≤◌, length, drop};
ghost use Rattle.omf_records.specs.Inner.Readers.{ends_read};
ghost use Rattle.omf_communals.specs.Communals.{variable_of};
ghost use Rattle.omf_communals.specs.Inner.Readers.{far_whole, near_whole, typdef_whole};

use crate::fields::{code_at, fault_at, index_at, length_at, name_at};
use crate::variable::Variable;
use omf_frame::Reason;
use omf_records::LayoutFault;

/// The variable, if the contents end at this position.
fn ended(body: &[u8], pos: usize, variable: Variable) -> Result<Variable, LayoutFault>
    requires { (pos ≤ length body.now) × (length body.now ≤ 65534) }
    ensures { result ≡ ends_read variable (3 + pos) (drop pos body.now) }
{
    if pos == body.len() {
        Ok(variable)
    } else {
        Err(fault_at(pos, Reason::Long))
    }
}

/// The near variable of the leaf at a position.
fn near_at(body: &[u8], pos: usize) -> Result<Variable, LayoutFault>
    requires { (pos ≤ length body.now) × (length body.now ≤ 65534) }
    ensures { result ≡ near_whole.read (3 + pos) (drop pos body.now) }
{
    let (_kind, pos) = code_at(body, pos, &[0x77, 0x79, 0x7B])?;
    let (bits, pos) = length_at(body, pos)?;
    ended(body, pos, Variable::Near(bits))
}

/// The far variable of the leaf at a position.
fn far_at(body: &[u8], pos: usize) -> Result<Variable, LayoutFault>
    requires { (pos ≤ length body.now) × (length body.now ≤ 65534) }
    ensures { result ≡ far_whole.read (3 + pos) (drop pos body.now) }
{
    let (_kind, pos) = code_at(body, pos, &[0x77])?;
    let (count, pos) = length_at(body, pos)?;
    let (element, pos) = index_at(body, pos)?;
    ended(body, pos, Variable::Far { count, element })
}

/// The variable of a TYPDEF with these contents, or their first fault.
fn variable_in(body: &[u8]) -> Result<Variable, LayoutFault>
    requires { length body.now ≤ 65534 }
    ensures { result ≡ typdef_whole.read 3 body.now }
{
    let (_name, pos) = name_at(body, 0)?;
    let (_en, pos) = code_at(body, pos, &[0])?;
    let (leaf, pos) = code_at(body, pos, &[0x61, 0x62])?;
    if leaf == 0x62 {
        near_at(body, pos)
    } else {
        far_at(body, pos)
    }
}

/// The variable of a TYPDEF with these contents; `Other` if they describe no communal.
pub(crate) fn variable_of(body: &[u8]) -> Variable
    requires { length body.now ≤ 65534 }
    ensures { result ≡ variable_of body.now }
{
    match variable_in(body) {
        Ok(variable) => variable,
        Err(_) => Variable::Other,
    }
}
