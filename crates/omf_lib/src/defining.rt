//! What the members of a library define, so that the entries of its dictionary are compared with it.

ghost use Rattle.std.specs.Prelude.{◌≡◌, ◌&&◌, ◌/◌, ◌++◌, ◌∷◌, [], false, List, ℕ, IfOk, OnOk, map, not};
ghost use Rattle.omf_library.specs.Dictionary.{folded, is_case_sensitive};
ghost use Rattle.omf_making.specs.Names.{names_seen};
ghost use Rattle.omf_lib.specs.Defining.{Definer, is_of_module, is_undefined};
ghost use Rattle.omf_lib.specs.Keys.{all_keys, IsKeySet, keys_of, name_key, page_key};

use crate::names::folded;
use omf_library::Header;
use omf_making::Defined;
use std::alloc::{AllocError, Global};
use std::collections::BTreeSet;

/// The keys of what members define, to look them up.
pub type KeySet = BTreeSet<Vec<u8>>;

/// The page at which a member begins, and whether names that differ in case differ.
#[derive(Clone, Copy)]
pub struct Home {
    pub page: usize,
    pub is_case_sensitive: bool,
}

/// The key of a page, with room for this many bytes.
fn page_key(alloc: Global, page: u16, room: usize) -> Result<Vec<u8>, AllocError>
    ensures { IfOk result (λ key. key.items ≡ page_key page) }
{
    let mut key = Vec::with_capacity(alloc, room)?;
    key.push((page % 256) as u8)?;
    key.push((page / 256) as u8)?;
    Ok(key)
}

/// Appends the characters of a name, with small letters for capital ones.
fn put_small(key: &mut Vec<u8>, name: &[u8]) -> Result<(), AllocError>
    ensures { OnOk result (key.new.items ≡ key.old.items ++ map (folded false) name.now) }
{
    for c in name {
        key.push(folded(false, *c))?;
    }
    Ok(())
}

/// Appends the characters of a name as they are compared.
#[tactic(auto, using(crate::proofs::KeyLaws::kept_whole))]
fn put_folded(key: &mut Vec<u8>, is_case_sensitive: bool, name: &[u8]) -> Result<(), AllocError>
    ensures { OnOk result (key.new.items ≡ key.old.items ++ map (folded is_case_sensitive) name.now) }
{
    if is_case_sensitive {
        Ok(key.extend_from_slice(name)?)
    } else {
        put_small(key, name)
    }
}

/// The key of a name at a page.
fn name_key(
    alloc: Global,
    is_case_sensitive: bool,
    page: u16,
    name: &[u8],
) -> Result<Vec<u8>, AllocError>
    ensures { IfOk result (λ key. key.items ≡ name_key is_case_sensitive page name.now) }
{
    let mut key = page_key(alloc, page, name.len().saturating_add(3))?;
    key.push(0)?;
    put_folded(&mut key, is_case_sensitive, name)?;
    Ok(key)
}

/// Adds a key.
fn add(keys: &mut KeySet, key: Vec<u8>) -> Result<(), AllocError>
    ensures { (done : List (List ℕ)) → IsKeySet keys.old done → OnOk result (IsKeySet keys.new (done ++ key.items ∷ [])) }
{
    keys.insert(key)?;
    Ok(())
}

/// Adds the keys of names at a page.
fn add_names(
    alloc: Global,
    keys: &mut KeySet,
    is_case_sensitive: bool,
    page: u16,
    names: &[Defined],
) -> Result<(), AllocError>
    ensures { (done : List (List ℕ)) → IsKeySet keys.old done → OnOk result (IsKeySet keys.new (done ++ map (λ n. name_key is_case_sensitive page n.name) (names_seen names.now))) }
{
    for defined in names {
        let key = name_key(alloc, is_case_sensitive, page, defined.name.as_slice())?;
        add(keys, key)?;
    }
    Ok(())
}

/// Adds the keys of a member that defines these names. No entry can have a page after 65535.
pub fn add_member(
    alloc: Global,
    keys: &mut KeySet,
    home: Home,
    names: &[Defined],
) -> Result<(), AllocError>
    ensures { (done : List (List ℕ)) → IsKeySet keys.old done → OnOk result (IsKeySet keys.new (done ++ keys_of home.is_case_sensitive (record { page = home.page; names = names_seen names.now }))) }
{
    if home.page < 65536 {
        let page = home.page as u16;
        let key = page_key(alloc, page, 2)?;
        add(keys, key)?;
        add_names(alloc, keys, home.is_case_sensitive, page, names)
    } else {
        Ok(())
    }
}

/// Where the member at an offset begins.
pub fn home_of(header: Header, offset: usize) -> Home
    ensures page { result.page ≡ offset / header.page }
    ensures sensitive { result.is_case_sensitive ≡ is_case_sensitive header }
{
    let page = header.page as usize;
    Home {
        page: if page == 0 { 0 } else { offset / page },
        is_case_sensitive: header.flags % 2 == 1,
    }
}

/// Whether a name is that of a module: some librarians give each module an entry, its name and `!`.
fn is_of_module(name: &[u8]) -> bool
    ensures { result ≡ is_of_module name.now }
{
    name.ends_with(b"!")
}

/// Whether a fault is found: the page is that of a member that is judged, and the name is neither that of a module nor defined.
fn is_fault(is_judged: bool, is_module: bool, is_defined: bool) -> bool
    ensures { result ≡ (is_judged && (not is_module && not is_defined)) }
{
    is_judged && !is_module && !is_defined
}

/// Whether an entry has the page of a member that is judged, and that member does not define its name.
pub fn is_undefined(
    alloc: Global,
    keys: &KeySet,
    is_case_sensitive: bool,
    page: u16,
    name: &[u8],
) -> Result<bool, AllocError>
    ensures { (ds : List Definer) → IsKeySet keys.now (all_keys is_case_sensitive ds) → IfOk result (λ is. is ≡ is_undefined is_case_sensitive ds page name.now) }
{
    let place = page_key(alloc, page, 2)?;
    let key = name_key(alloc, is_case_sensitive, page, name)?;
    let is_judged = keys.contains(&place);
    let is_defined = keys.contains(&key);
    Ok(is_fault(is_judged, is_of_module(name), is_defined))
}
