//! The libraries that modules ask for.

ghost use Rattle.std.specs.Prelude.{◌≡◌, ℕ, List, [], ◌∷◌, ◌++◌, IfOk, OnOk, flat_map, map};
ghost use Rattle.omf_check.specs.Module.{recs_of};
ghost use Rattle.omf_library.specs.Defaults.{asked, asked_by, asked_in, once};
ghost use Rattle.omf_library.specs.Inner.Asked.{HasAsked};
ghost use Rattle.omf_library.specs.Inner.Names.{names_seen};

use omf_check::{Checked, Undecoded};
use omf_names::NameKey;
use std::alloc::{AllocError, Global};
use std::collections::BTreeMap;

/// The class of a comment that asks for a library.
const DEFAULT_LIBRARY: u8 = 0x9F;

/// The class that older compilers write in its place.
const OLD_DEFAULT_LIBRARY: u8 = 0x81;

/// Names, each once.
#[derive(Drop)]
struct Asked<'a> {
    /// Those so far, to look them up.
    known: BTreeMap<NameKey<'a>, ()>,
    /// The same in order.
    names: Vec<&'a [u8]>,
}

impl<'a> Asked<'a> {
    /// Adds a name, unless it is there.
    fn add(&mut self, name: &'a [u8]) -> Result<(), AllocError>
        ensures { (done : List (List ℕ)) → HasAsked self.old done → OnOk result (HasAsked self.new (done ++ name.entry.now ∷ [])) }
    {
        if self.known.get(&NameKey::of(name)).is_some() {
            return Ok(());
        }
        self.known.insert(NameKey::of(name), ())?;
        self.names.push(name)?;
        Ok(())
    }
}

/// Adds the name that a record asks for, if it does. No record but a comment is decoded.
fn push_record<'a>(names: &mut Vec<&'a [u8]>, rec: &Undecoded<'a>) -> Result<(), AllocError>
    ensures { OnOk result (names_seen names.new.items ≡ names_seen names.old.items ++ asked_in rec.now.contents) }
{
    let Some(comment) = rec.as_comment() else {
        return Ok(());
    };
    if comment.class == DEFAULT_LIBRARY || comment.class == OLD_DEFAULT_LIBRARY {
        names.push(comment.text)?;
    }
    Ok(())
}

/// Adds the names that a module asks for.
fn push_module<'a>(names: &mut Vec<&'a [u8]>, module: &'a Checked) -> Result<(), AllocError>
    ensures { OnOk result (names_seen names.new.items ≡ names_seen names.old.items ++ asked_by (recs_of «module».entry.now.bytes)) }
{
    for (_, rec) in module.undecoded() {
        push_record(names, &rec)?;
    }
    Ok(())
}

/// The names that modules ask for.
fn all_asked<'a>(alloc: Global, modules: &'a [Checked]) -> Result<Vec<&'a [u8]>, AllocError>
    ensures { IfOk result (λ names. names_seen names.items ≡ flat_map (λ m. asked_by (recs_of m.bytes)) modules.entry.now) }
{
    let mut names = Vec::new(alloc);
    for module in modules {
        push_module(&mut names, module)?;
    }
    Ok(names)
}

/// Each name where it comes first.
fn once<'a>(alloc: Global, names: &[&'a [u8]]) -> Result<Vec<&'a [u8]>, AllocError>
    ensures { IfOk result (λ kept. names_seen kept.items ≡ once (names_seen names.now)) }
{
    let mut asked = Asked {
        known: BTreeMap::new(alloc),
        names: Vec::new(alloc),
    };
    for name in names {
        asked.add(name)?;
    }
    Ok(asked.names)
}

/// The names of the libraries that modules ask for in comments of class 9FH, or 81H, which it replaced (TIS OMF 1.1, "COMENT"), in order,
/// each once.
/// A name is the comment's whole text, byte for byte: it may have a path or no extension.
///
/// # Errors
///
/// Out of memory.
pub fn default_libraries<'a>(
    alloc: Global,
    modules: &'a [Checked],
) -> Result<Vec<&'a [u8]>, AllocError>
    ensures { IfOk result (λ names. map (λ n. n.now) names.items ≡ asked modules.entry.now) }
{
    let names = all_asked(alloc, modules)?;
    once(alloc, &names)
}
