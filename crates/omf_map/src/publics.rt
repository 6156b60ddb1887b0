//! The addresses of publics, and a table of them by name.

ghost use Rattle.std.specs.Prelude.{◌≡◌, ◌+◌, ◌∷◌, [], IfOk, List, OnOk, filter_map, length, option_map, true};
ghost use Rattle.omf_check.specs.Module.{recs_of, typed_modules};
ghost use Rattle.omf_map.specs.Inner.PublicAddresses.{HasMore, IsTable, address_after, based};
ghost use Rattle.omf_map.specs.Addresses.{NamedAddress, all_given, base_at, is_unnamed, named_address, of_name, public_at, publics_asked, publics_at, publics_of, segments_given};

use crate::addresses::given_addresses;
use omf_check::{Checked, Undecoded, entry_of};
use omf_linking::locator::Sparse;
use omf_names::NameKey;
use omf_records::{Items, Public};
use std::alloc::{AllocError, Global};
use std::collections::BTreeMap;

/// The base address of a PUBDEF's publics: that of its segment, or that of its base frame if it names none.
fn base_address(segments: &[Option<u32>], segment: u16, frame: Option<u16>) -> Option<u32>
    ensures { result ≡ base_at segments.now segment frame }
{
    if segment == 0 {
        return match frame {
            Some(number) => Some(16 * u32::from(number)),
            None => None,
        };
    }
    entry_of(segments, usize::from(segment))?
}

/// The address at an offset from a base, if there is one.
pub(crate) fn offset_from(base: Option<u32>, offset: u32) -> Option<u64>
    ensures { result ≡ option_map (λ b. b + offset) base }
{
    match base {
        Some(base) => Some(u64::from(base) + u64::from(offset)),
        None => None,
    }
}

/// The publics of a record, with the address of their base: those of an LPUBDEF if `local` is set, of a PUBDEF if not. None for any other record,
/// which is not decoded.
pub(crate) fn publics_in<'a>(
    local: bool,
    rec: &Undecoded<'a>,
    segments: &[Option<u32>],
) -> Option<(Option<u32>, Items<Public<'a>>)>
    ensures { based result ≡ publics_asked local segments.now rec.now.kind rec.now.contents }
{
    let publics = rec.as_publics(local)?;
    let base = base_address(segments, publics.segment.item.0, publics.frame);
    Some((base, publics.items))
}

/// The address of a name after one more public has it: none if it is not the first.
fn address_after(address: Option<u64>, found: Option<Option<u64>>) -> Option<u64>
    ensures { result ≡ address_after address found }
{
    match found {
        None => address,
        Some(_) => None,
    }
}

/// The addresses of publics by name; none where two publics have the name, or the only one has no address.
#[derive(Drop)]
pub(crate) struct PublicAddresses<'a> {
    by_name: BTreeMap<NameKey<'a>, Option<u64>>,
}

impl<'a> PublicAddresses<'a> {
    /// Adds a public.
    fn add(&mut self, name: &'a [u8], address: Option<u64>) -> Result<(), AllocError>
        ensures { OnOk result (HasMore self.old.by_name self.new.by_name ((name.entry.now, address) ∷ [])) }
    {
        let found = address_after(address, self.by_name.get(&NameKey::of(name)).copied());
        self.by_name.insert(NameKey::of(name), found)?;
        Ok(())
    }

    /// Adds a public at its offset from a base.
    fn add_public(&mut self, base: Option<u32>, public: &Public<'a>) -> Result<(), AllocError>
        ensures { OnOk result (HasMore self.old.by_name self.new.by_name ((public.now.name, option_map (λ b. b + public.now.offset) base) ∷ [])) }
    {
        self.add(public.name.0, offset_from(base, public.offset))
    }

    /// Adds publics, each at its offset from a base.
    fn add_items(&mut self, base: Option<u32>, items: Items<Public<'a>>) -> Result<(), AllocError>
        ensures { OnOk result (HasMore self.old.by_name self.new.by_name (publics_at base items.entry)) }
    {
        for public in items {
            self.add_public(base, &public.item)?;
        }
        Ok(())
    }

    /// Adds the publics of a record if they are of the kind asked for.
    fn add_record(
        &mut self,
        local: bool,
        rec: &Undecoded<'a>,
        segments: &[Option<u32>],
    ) -> Result<(), AllocError>
        ensures { OnOk result (HasMore self.old.by_name self.new.by_name (publics_asked local segments.now rec.now.kind rec.now.contents)) }
    {
        match publics_in(local, rec, segments) {
            Some((base, items)) => self.add_items(base, items),
            None => Ok(()),
        }
    }

    /// Adds the local publics of a module, or its other publics, by the addresses of its segments.
    fn add_module(
        &mut self,
        local: bool,
        module: &'a Checked,
        segments: &[Option<u32>],
    ) -> Result<(), AllocError>
        ensures { OnOk result (HasMore self.old.by_name self.new.by_name (publics_of local (recs_of «module».entry.now.bytes, segments.now))) }
    {
        for (_, rec) in module.undecoded() {
            self.add_record(local, &rec, segments)?;
        }
        Ok(())
    }

    /// The local publics of a module, by the addresses of its segments.
    ///
    /// # Errors
    ///
    /// `AllocError` if memory runs out.
    pub(crate) fn of_locals(
        alloc: Global,
        module: &'a Checked,
        segments: &[Option<u32>],
    ) -> Result<PublicAddresses<'a>, AllocError>
        ensures { IfOk result (λ t. IsTable t.by_name (publics_of true (recs_of «module».entry.now.bytes, segments.now))) }
    {
        let mut table = PublicAddresses {
            by_name: BTreeMap::new(alloc),
        };
        table.add_module(true, module, segments)?;
        Ok(table)
    }

    /// The publics of all modules that are not local, by what a text gives the segments.
    ///
    /// # Errors
    ///
    /// `AllocError` if memory runs out.
    pub(crate) fn of(
        alloc: Global,
        modules: &'a [Checked],
        given: &[Sparse],
    ) -> Result<PublicAddresses<'a>, AllocError>
        requires { length given.now ≡ length modules.now }
        ensures { IfOk result (λ t. IsTable t.by_name (all_given (typed_modules modules.entry.now) given.now)) }
    {
        let mut table = PublicAddresses {
            by_name: BTreeMap::new(alloc),
        };
        for (j, module) in modules.iter().enumerate() {
            let segments = given_addresses(alloc, given[j].segments())?;
            table.add_module(false, module, &segments)?;
        }
        Ok(table)
    }

    /// Whether no public has a name.
    pub(crate) fn lacks(&self, name: &'a [u8]) -> bool
        ensures { (among : List NamedAddress) → IsTable self.now.by_name among → result ≡ is_unnamed (filter_map (of_name name.now) among) }
    {
        !self.by_name.contains_key(&NameKey::of(name))
    }

    /// The address of the one public of a name; none if there is no public, or more than one.
    pub(crate) fn address(&self, name: &'a [u8]) -> Option<u64>
        ensures { (among : List NamedAddress) → IsTable self.now.by_name among → result ≡ named_address among name.now }
    {
        self.by_name.get(&NameKey::of(name)).copied()?
    }
}
