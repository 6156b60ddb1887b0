//! Aliases that lead back to themselves: names without an end.

ghost use Rattle.std.specs.Prelude.{◌≡◌, ◌++◌, ◌∷◌, [], ℕ, IfOk, List, OnOk, codes, flat_map, map, option_map, string_bytes};
ghost use Rattle.omf_check.specs.Module.{recs_of, typed_modules};
ghost use Rattle.omf_frame.specs.Bytes.{AddsText};
ghost use Rattle.omf_records.specs.Values.{Rec as Typed};
ghost use Rattle.omf_placement.specs.Quoted.{quoted};
ghost use Rattle.omf_placement.proofs.Filling.{Adds};
ghost use Rattle.omf_library.specs.Aliases.{alias_pairs};
ghost use Rattle.omf_aliases.specs.Circles.{circle_line, circle_of, circles_text, with_commas};
ghost use Rattle.omf_aliases.specs.Inner.Aliases.{AreAliases};
ghost use Rattle.omf_aliases.specs.Inner.Circles.{HasPut, HasShown};

use crate::ends::{Aliases, MOST};
use omf_check::Checked;
use omf_externals::NameTable;
use omf_frame::Name;
use omf_library::{AliasPair, alias_pairs};
use omf_text::print_quoted;
use std::alloc::{AllocError, Global};

/// Lines of circles of aliases.
#[derive(Drop)]
pub(crate) struct Circles<'a> {
    /// The names of the circles that have a line.
    shown: NameTable<'a>,
    lines: String,
}

/// The names from this one on, each an alias of the next and the last one of the first; none if it is in no circle of at most 64 names.
fn circle_of<'a>(
    alloc: Global,
    aliases: &Aliases<'a>,
    first: Name<'a>,
) -> Result<Option<Vec<Name<'a>>>, AllocError>
    ensures { (ms : List (List Typed)) → AreAliases aliases.now ms → IfOk result (λ o. option_map (λ v. v.items) o ≡ circle_of ms first.entry) }
{
    let own = first.0;
    let mut names = Vec::new(alloc);
    let mut last = first;
    let mut left = MOST;
    while left > 0 {
        let Some(next) = aliases.next(last.0) else {
            return Ok(None);
        };
        names.push(last)?;
        if next.0 == own {
            return Ok(Some(names));
        }
        last = next;
        left -= 1;
    }
    Ok(None)
}

/// Appends a comma and a name in quotes.
fn put_next(text: &mut String, name: &Name<'_>) -> Result<(), AllocError>
    ensures { AddsText result (string_bytes text.old) (string_bytes text.new) (codes ", " ++ quoted name.now) }
{
    text.push_str(", ")?;
    print_quoted(text, name.0)
}

/// Appends names in quotes, each with a comma before it.
fn put_others(text: &mut String, names: &[Name<'_>]) -> Result<(), AllocError>
    ensures { AddsText result (string_bytes text.old) (string_bytes text.new) (flat_map (λ n. codes ", " ++ quoted n) names.now) }
{
    for name in names {
        put_next(text, name)?;
    }
    Ok(())
}

/// Appends names in quotes, with commas.
fn put_names(text: &mut String, names: &[Name<'_>]) -> Result<(), AllocError>
    ensures { AddsText result (string_bytes text.old) (string_bytes text.new) (with_commas names.now) }
{
    match names {
        [] => Ok(()),
        [first, others @ ..] => {
            print_quoted(text, first.0)?;
            put_others(text, others)
        }
    }
}

/// Appends the line of a circle.
fn put_line(text: &mut String, names: &[Name<'_>]) -> Result<(), AllocError>
    ensures { AddsText result (string_bytes text.old) (string_bytes text.new) (circle_line names.now) }
{
    text.push_str("aliases in a circle: ")?;
    put_names(text, names)?;
    text.push('\n')
}

impl<'a> Circles<'a> {
    /// None.
    fn new(alloc: Global) -> Circles<'a>
        ensures { (ms : List (List Typed)) → HasShown ms result [] }
    {
        Circles {
            shown: NameTable::new(alloc),
            lines: String::new(alloc),
        }
    }

    /// Appends the line of a circle, and its names.
    fn put(&mut self, names: &[Name<'a>]) -> Result<(), AllocError>
        ensures { OnOk result (HasPut self.old self.new names.entry.now) }
    {
        put_line(&mut self.lines, names)?;
        self.shown.add_all(names)
    }

    /// Appends the line of the circle that a name is in, if it has none.
    fn put_of(
        &mut self,
        alloc: Global,
        aliases: &Aliases<'a>,
        name: &Name<'a>,
    ) -> Result<(), AllocError>
        ensures { (ms : List (List Typed)) → AreAliases aliases.now ms → OnOk result (Adds (HasShown ms) self.old self.new (name.now ∷ [])) }
    {
        if self.shown.has(name.0) {
            return Ok(());
        }
        match circle_of(alloc, aliases, Name(name.0))? {
            Some(names) => self.put(&names),
            None => Ok(()),
        }
    }

    /// Appends the lines of the circles that aliases are in.
    fn put_pairs(
        &mut self,
        alloc: Global,
        aliases: &Aliases<'a>,
        pairs: &[AliasPair<'a>],
    ) -> Result<(), AllocError>
        ensures { (ms : List (List Typed)) → AreAliases aliases.now ms → OnOk result (Adds (HasShown ms) self.old self.new (map (λ p. p.alias) pairs.entry.now)) }
    {
        for pair in pairs {
            self.put_of(alloc, aliases, &pair.alias)?;
        }
        Ok(())
    }

    /// Appends the lines of the circles that aliases of a module are in.
    fn put_module(
        &mut self,
        alloc: Global,
        aliases: &Aliases<'a>,
        module: &'a Checked,
    ) -> Result<(), AllocError>
        ensures { (ms : List (List Typed)) → AreAliases aliases.now ms → OnOk result (Adds (HasShown ms) self.old self.new (map (λ p. p.alias) (alias_pairs (recs_of «module».entry.now.bytes)))) }
    {
        let pairs = alias_pairs(alloc, module)?;
        self.put_pairs(alloc, aliases, &pairs)
    }
}

/// A line for each circle of aliases: `aliases in a circle: "a", "b"`. The names in it have no end, so their externals are undefined.
///
/// # Errors
///
/// `AllocError` if memory runs out.
pub fn circle_lines(alloc: Global, modules: &[Checked]) -> Result<String, AllocError>
    ensures { IfOk result (λ t. string_bytes t ≡ circles_text (typed_modules modules.entry.now)) }
{
    let aliases = Aliases::of(alloc, modules)?;
    let mut circles = Circles::new(alloc);
    for module in modules {
        circles.put_module(alloc, &aliases, module)?;
    }
    let Circles { lines, .. } = circles;
    Ok(lines)
}
