//! The classes that have a segment in the group DGROUP.

ghost use Rattle.std.specs.Prelude.{◌≡◌, ◌++◌, IfOk, OnOk, filter_map, map, option_map};
ghost use Rattle.omf_check.specs.Module.{recs_of, typed_modules};
ghost use Rattle.omf_check.specs.Tables.{entry, segments};
ghost use Rattle.omf_records.specs.Inner.Seen.{contents_seen};
ghost use Rattle.omf_layout.specs.Several.Portions.{name_at};
ghost use Rattle.omf_layout.specs.Own.Communals.{is_dgroup};
ghost use Rattle.omf_layout.specs.Own.Order.{IsNameTable, class_at, classes_in, dgroup_classes, member_class, module_classes};

use crate::several::portion::name_at;
use omf_check::Checked;
use omf_names::NameKey;
use omf_records::{Items, Member, Rec};
use std::alloc::{AllocError, Global};
use std::collections::BTreeMap;

/// Names, to look them up.
pub(crate) type NameTable<'a> = BTreeMap<NameKey<'a>, ()>;

/// Returns the class of a group's member.
fn class_of<'a>(module: &'a Checked, member: &Member<'_>) -> Option<&'a [u8]>
    ensures { option_map (λ c. c.now) result ≡ class_at (recs_of «module».entry.now.bytes) member.now.item }
{
    match module.segment(member.segment.item.0) {
        Some(segment) => Some(name_at(module, segment.class)),
        None => None,
    }
}

/// Adds the classes of the members of a group.
fn add_members<'a>(
    classes: &mut Vec<&'a [u8]>,
    module: &'a Checked,
    members: Items<Member<'a>>,
) -> Result<(), AllocError>
    ensures { OnOk result (map (λ c. c.now) classes.new.items ≡ map (λ c. c.now) classes.old.items ++ filter_map (member_class (recs_of «module».entry.now.bytes)) members.entry) }
{
    for member in members {
        if let Some(class) = class_of(module, &member.item) {
            classes.push(class)?;
        }
    }
    Ok(())
}

/// Adds the classes of a record's group, if it is DGROUP.
fn add_record<'a>(
    classes: &mut Vec<&'a [u8]>,
    module: &'a Checked,
    rec: &Rec<'a>,
) -> Result<(), AllocError>
    ensures { OnOk result (map (λ c. c.now) classes.new.items ≡ map (λ c. c.now) classes.old.items ++ classes_in (recs_of «module».entry.now.bytes) (contents_seen rec.now)) }
{
    let Rec::Group { name, members } = rec else {
        return Ok(());
    };
    if name_at(module, name.item.0) == b"DGROUP".as_slice() {
        return add_members(classes, module, members.iter());
    }
    Ok(())
}

/// Adds the classes that a module has in DGROUP.
fn add_module<'a>(classes: &mut Vec<&'a [u8]>, module: &'a Checked) -> Result<(), AllocError>
    ensures { OnOk result (map (λ c. c.now) classes.new.items ≡ map (λ c. c.now) classes.old.items ++ module_classes (recs_of «module».entry.now.bytes)) }
{
    for (_, rec) in module.records() {
        add_record(classes, module, &rec)?;
    }
    Ok(())
}

/// Returns the classes that modules have in DGROUP, member by member.
fn classes_of<'a>(alloc: Global, modules: &'a [Checked]) -> Result<Vec<&'a [u8]>, AllocError>
    ensures { IfOk result (λ v. map (λ c. c.now) v.items ≡ dgroup_classes (typed_modules modules.entry.now)) }
{
    let mut classes = Vec::new(alloc);
    for module in modules {
        add_module(&mut classes, module)?;
    }
    Ok(classes)
}

/// Returns a table of names.
fn table_of<'a>(alloc: Global, names: &[&'a [u8]]) -> Result<NameTable<'a>, AllocError>
    ensures { IfOk result (λ t. IsNameTable t (map (λ n. n.now) names.now)) }
{
    let mut table = BTreeMap::new(alloc);
    for name in names {
        table.insert(NameKey::of(*name), ())?;
    }
    Ok(table)
}

/// Returns the classes that modules have in DGROUP, as a table.
pub(crate) fn dgroup_classes<'a>(
    alloc: Global,
    modules: &'a [Checked],
) -> Result<NameTable<'a>, AllocError>
    ensures { IfOk result (λ t. IsNameTable t (dgroup_classes (typed_modules modules.entry.now))) }
{
    let classes = classes_of(alloc, modules)?;
    table_of(alloc, &classes)
}
