//! The search for modules in a program.

ghost use Rattle.std.specs.Prelude.{◌≡◌, ◌++◌, ◌==◌, ◌&&◌, ◌<◌, ℕ, length, not, true, false, IfOk, IfSome, OnOk, option_map, option_to_list};
ghost use Rattle.std.specs.List.{AllZip};
ghost use Rattle.omf_check.specs.Module.{Module};
ghost use Rattle.std.specs.Box.{box_value};
ghost use Rattle.omf_finding.specs.Chain.{AreChained, AreAllFound, IsDraft, IsDraftOf, draft_at, found_at, found_in};
ghost use Rattle.omf_finding.specs.Finding.{AreCandidates, IsAt, IsInside, IsReason, IsTold};
ghost use Rattle.omf_finding.specs.Inner.Chaining.{AreJoined, found_by, kept};
ghost use Rattle.omf_finding.specs.Inner.Closing.{AreAllJoined, unreferenced_by};
ghost use Rattle.omf_finding.specs.Inner.Shaping.{AgreeAt, HasShapes, HaveShapes, IsMarked, IsOffered, IsPatternOf, IsShapeOf, bytes_of};
ghost use Rattle.omf_finding.specs.Inner.Singling.{AreSingles};
ghost use Rattle.omf_finding.specs.Inner.Surely.{AreSureJoined};
ghost use Rattle.omf_finding.specs.Inner.Walking.{byte_in};
ghost use Rattle.omf_finding.specs.Sure.{AreSureFound};
ghost use Rattle.omf_finding.specs.declared.program.Program.{Program};

use crate::chaining::{Joined, Tried, enough};
use crate::findings::{Candidate, FindOptions, Findings, Found, Verdict, Why};
use crate::following::{Part, Search, group_name};
use crate::found::{is_found_in_part, segment_count};
use crate::names::Names;
use crate::patterning::{Pattern, marked_pattern};
use crate::program::Program;
use crate::settling::Settled;
use crate::shapes::{Shape, is_at, is_whole, shapes_of};
use crate::singles::{Singles, is_varied};
use omf_check::Checked;
use omf_names::NameKey;
use omf_records::{Kind, Rec, Reference};
use std::alloc::{AllocError, Global};
use std::collections::BTreeMap;

/// A search over these modules, before anything has a place.
pub(crate) fn begun<'a>(
    alloc: Global,
    modules: &'a [Checked],
    shapes: &'a [Vec<Shape>],
    program: &'a Program,
    least: usize,
) -> Result<Search<'a>, AllocError> {
    let mut search = Search {
        alloc,
        modules,
        program,
        least,
        selectors: program.frames()?,
        shapes,
        parts: Vec::with_capacity(alloc, modules.len())?,
        firsts: Vec::with_capacity(alloc, modules.len())?,
        names: Names::new(alloc),
        fixes: Vec::new(alloc),
        fix_numbers: Vec::with_capacity(alloc, modules.len())?,
        groups: BTreeMap::new(alloc),
        group_numbers: Vec::new(alloc),
        first_groups: Vec::with_capacity(alloc, modules.len())?,
        frames: Vec::new(alloc),
        queue: Vec::new(alloc),
    };
    for module in modules {
        search.add_module(module)?;
    }
    Ok(search)
}

/// The segment and the offset of a module's start, if it names one in a segment of its own.
fn start_of(module: &Checked) -> Option<(u16, u32)> {
    let end = module.end();
    let Rec::ModEnd { start, .. } = &end else {
        return None;
    };
    match start {
        Some(reference) => start_in(reference),
        None => None,
    }
}

/// The segment and the offset that a start names without a thread.
fn start_in(reference: &Reference) -> Option<(u16, u32)> {
    if reference.target_thread().is_some() || reference.target_method() != Kind::Segment {
        return None;
    }
    match &reference.target {
        Some(target) => Some((target.item.0, reference.displacement.unwrap_or(0))),
        None => None,
    }
}

impl<'a> Search<'a> {
    /// Adds a module: its segments and its publics.
    fn add_module(&mut self, module: &'a Checked) -> Result<(), AllocError> {
        let number = u32::try_from(self.firsts.len()).unwrap_or(u32::MAX);
        let first = self.parts.len();
        self.firsts.push(first)?;
        self.fix_numbers.push(0)?;
        for segment in 1..=module.segments() {
            self.parts.push(Part {
                module: number,
                segment,
                place: None,
                selector: None,
                is_disputed: false,
            })?;
        }
        self.add_groups(module)?;
        self.names.add_module(module, first)
    }

    /// Adds the groups of a module, by name.
    fn add_groups(&mut self, module: &'a Checked) -> Result<(), AllocError> {
        let first = u32::try_from(self.group_numbers.len()).unwrap_or(u32::MAX);
        self.first_groups.push(first)?;
        for group in 1..=module.groups() {
            let number = match group_name(module, group) {
                Some(name) => Some(self.group_with(name.0)?),
                None => None,
            };
            self.group_numbers.push(number)?;
        }
        Ok(())
    }

    /// The number of the groups with a name; a new one, if there is none yet.
    fn group_with(&mut self, name: &'a [u8]) -> Result<usize, AllocError> {
        if let Some(number) = self.groups.get(&NameKey::of(name)) {
            return Ok(*number);
        }
        let number = self.frames.len();
        self.groups.insert(NameKey::of(name), number)?;
        self.frames.push(None)?;
        Ok(number)
    }

    /// Puts the segment of a module's start at the program's start.
    fn seed_start(&mut self, number: usize, module: &Checked) -> Result<(), AllocError> {
        let Some((selector, offset)) = self.program.start else {
            return Ok(());
        };
        let Some((segment, within)) = start_of(module) else {
            return Ok(());
        };
        let frame = u32::from(selector).wrapping_mul(16);
        let address = frame.wrapping_add(u32::from(offset)).wrapping_sub(within);
        match self.number_of(number, segment) {
            Some(number) if self.fits(number, address) => self.place(number, address),
            _ => Ok(()),
        }
    }

    /// Puts segments at places that are sure by themselves.
    fn seed(&mut self, singles: &Singles) -> Result<(), AllocError> {
        let modules = self.modules;
        for (number, module) in modules.iter().enumerate() {
            self.seed_start(number, module)?;
        }
        let shapes = self.shapes;
        for (number, own) in shapes.iter().enumerate() {
            if is_whole(own) {
                self.seed_singles(number, own, singles)?;
            }
        }
        Ok(())
    }

    /// Puts the segments of a module without a rival at their only places.
    fn seed_singles(
        &mut self,
        module: usize,
        shapes: &[Shape],
        singles: &Singles,
    ) -> Result<(), AllocError> {
        for shape in shapes {
            if let (Some(address), Some(number)) = (
                shape.single_place(),
                self.number_of(module, shape.segment),
            )
                && singles.is_alone(module, shape.segment)
            {
                self.place(number, address)?;
            }
        }
        Ok(())
    }

    /// The place of a segment of a module, if it is known.
    fn known_place(&self, module: usize, segment: u16) -> Option<u32> {
        self.place_of(self.number_of(module, segment)?)
    }

    /// Whether a segment with data of a module has a place.
    pub(crate) fn has_place(&self, module: usize, shapes: &[Shape]) -> bool {
        shapes.iter().any(|shape| shape.has_data()
            && self.known_place(module, shape.segment).is_some())
    }

    /// The module that has a segment at the only place of a segment of another module; `None` if there is none.
    fn same_bytes(&self, module: usize, shape: &Shape, singles: &Singles) -> Option<u32> {
        let [address] = shape.places.as_slice() else {
            return None;
        };
        let other = singles.other(*address, module, shape.segment)?;
        u32::try_from(other).ok()
    }

    /// Whether the place that references give a segment is one where it may be. `None` if they give it none.
    fn agrees(&self, module: usize, shape: &Shape) -> Option<bool> {
        if self.is_disputed(module, shape.segment) {
            return Some(false);
        }
        let place = self.known_place(module, shape.segment)?;
        Some(!shape.is_searched || shape.places.contains(&place))
    }

    /// Whether a segment of a module has so few closed bytes that its only place would not be sure.
    fn is_few(&self, module: usize, shape: &Shape) -> bool {
        // A class is looked up only where it matters.
        if shape.closed < self.least / 2 {
            return true;
        }
        shape.closed < self.enough(module, shape.segment)
    }

    /// The number of closed bytes from which on the only place of a segment of a module is sure.
    fn enough(&self, module: usize, segment: u16) -> usize {
        match self.modules.get(module) {
            Some(checked) => enough(checked, segment, self.least),
            None => self.least,
        }
    }

    /// Whether the closed bytes of a segment with one place vary enough for it to be sure.
    fn is_varied(&self, module: usize, shape: &Shape) -> bool {
        is_varied(shape, self.enough(module, shape.segment))
    }

    /// Whether the loader changes each selector of a segment at one of these addresses.
    fn may_be_at_one(&self, module: usize, segment: u16, addresses: &[u32]) -> bool {
        match self.number_of(module, segment) {
            Some(number) => addresses
                .iter()
                .any(|address| self.may_be_loaded(number, *address)),
            None => false,
        }
    }

    /// Whether references gave a segment of a module different places.
    fn is_disputed(&self, module: usize, segment: u16) -> bool {
        match self.part_of(module, segment) {
            Some(part) => part.is_disputed,
            None => false,
        }
    }

    /// The place that references give a segment of a module that is not searched for.
    fn referred(&self, module: usize, shape: &Shape) -> Option<u32> {
        if shape.is_searched || !shape.has_data() {
            return None;
        }
        self.known_place(module, shape.segment)
    }
}

/// A search at its end, with the program.
#[derive(Clone, Copy)]
struct Ended<'a, 'b> {
    search: &'b Search<'a>,
    program: &'b Program,
    singles: &'b Singles,
    /// The number of places that are listed of a segment at most.
    most: usize,
}

/// The pattern of a module, if references give a place to a segment that is not searched for.
fn referred_pattern(
    ended: Ended<'_, '_>,
    number: usize,
    module: &Checked,
    shapes: &[Shape],
) -> Result<Option<Pattern>, AllocError>
    ensures { IfOk result (λ r. IfSome r (IsPatternOf «module».now)) }
{
    for shape in shapes {
        if ended.search.referred(number, shape).is_some() {
            return Ok(Some(marked_pattern(ended.search.alloc, module)?));
        }
    }
    Ok(None)
}

/// The place that references give a segment that is not searched for, if its bytes agree there; else none.
fn referred_places(
    ended: Ended<'_, '_>,
    number: usize,
    pattern: &Pattern,
    shape: &Shape,
) -> Result<Vec<u32>, AllocError>
    requires { IsMarked pattern.now }
    ensures { IfOk result (λ v. AgreeAt (byte_in pattern.now shape.now.segment) ended.entry.program.now v.items) }
{
    let alloc = ended.search.alloc;
    let mut places = Vec::new(alloc);
    let Some(address) = ended.search.referred(number, shape) else {
        return Ok(places);
    };
    let intervals = pattern.intervals(alloc, shape.segment)?;
    if !is_at(ended.program, &intervals, address) {
        return Ok(places);
    }
    places.push(address)?;
    Ok(places)
}

/// The places of a segment of a module that is not found: of one that is not searched for, those that its references give. A module of
/// which no such reference is known needs no pattern.
fn addresses(
    ended: Ended<'_, '_>,
    number: usize,
    pattern: &Option<Pattern>,
    shape: &Shape,
) -> Result<Vec<u32>, AllocError>
    requires { IfSome pattern.now IsMarked }
    ensures searched { IfOk result (λ v. shape.now.is_searched ≡ true → v.items ≡ shape.now.places.items) }
    ensures referred { IfOk result (λ v. shape.now.is_searched ≡ false → (m : Module) → IfSome pattern.now (IsPatternOf m) → AgreeAt (bytes_of m shape.now.segment) ended.entry.program.now v.items) }
{
    if shape.is_searched {
        return shape.places.clone();
    }
    match pattern {
        Some(pattern) => referred_places(ended, number, pattern, shape),
        None => Ok(Vec::new(ended.search.alloc)),
    }
}

/// Whether a segment with these places is left out: there are none, and it is not searched for or all are known.
fn is_untold(addresses: &[u32], shape: &Shape) -> bool
    ensures { result ≡ ((length addresses.now == 0) && not (shape.now.is_searched && shape.now.more)) }
{
    addresses.is_empty() && !(shape.is_searched && shape.more)
}

/// The first segment that is nowhere in the program, if there is one.
fn missing(shapes: &[Shape]) -> Option<u16>
    ensures { IfSome result (λ other. (program : Program) (most : ℕ) (m : Module) → HaveShapes program most m shapes.now → IsInside program → (address : ℕ) → IsAt program m other address → ⊥) }
{
    for shape in shapes {
        if shape.is_nowhere() {
            return Some(shape.segment);
        }
    }
    None
}

/// Why none of these places of a segment is sure, to none of which a reference points.
fn unplaced_why(
    ended: Ended<'_, '_>,
    number: usize,
    shapes: &[Shape],
    shape: &Shape,
    addresses: &[u32],
) -> Why
    requires { 0 < length addresses.now }
    ensures { (m : Module) → HaveShapes ended.entry.program.now ended.entry.most m shapes.now → IsReason ended.entry.program.now m addresses.now shape.now.more result }
{
    let search = ended.search;
    if search.is_few(number, shape) {
        return Why::FewBytes;
    }
    if shape.more || addresses.len() > 1 {
        return Why::SeveralPlaces;
    }
    if let Some(other) = missing(shapes) {
        return Why::OtherMissing(other);
    }
    if !search.is_varied(number, shape) {
        return Why::FewValues;
    }
    if search.may_be_at_one(number, shape.segment, addresses) {
        Why::Overlapped
    } else {
        Why::Disagrees
    }
}

/// Why none of these places of a segment of a module with these shapes is sure.
fn why(
    ended: Ended<'_, '_>,
    number: usize,
    shapes: &[Shape],
    shape: &Shape,
    addresses: &[u32],
) -> Why
    ensures { (m : Module) → HaveShapes ended.entry.program.now ended.entry.most m shapes.now → IsReason ended.entry.program.now m addresses.now shape.now.more result }
{
    if addresses.is_empty() {
        return Why::ManyPlaces;
    }
    if let Some(other) = ended.search.same_bytes(number, shape, ended.singles) {
        return Why::SameBytes(other);
    }
    match ended.search.agrees(number, shape) {
        Some(true) => Why::OpenBytes,
        Some(false) => Why::Disagrees,
        None => unplaced_why(ended, number, shapes, shape, addresses),
    }
}

/// The places of a segment of a module that is not found. `None` if it is sure that there are none, or if it is not searched for and no
/// reference points to a place where its bytes agree.
fn candidate(
    ended: Ended<'_, '_>,
    number: usize,
    pattern: &Option<Pattern>,
    shapes: &[Shape],
    shape: &Shape,
) -> Result<Option<Candidate>, AllocError>
    requires { IfSome pattern.now IsMarked }
    ensures { IfOk result (λ r. (m : Module) → IfSome pattern.now (IsPatternOf m) → HaveShapes ended.entry.program.now ended.entry.most m shapes.now → IsShapeOf ended.entry.program.now ended.entry.most m shape.now → IsOffered ended.entry.program.now ended.entry.most m shape.now r) }
{
    let addresses = addresses(ended, number, pattern, shape)?;
    if is_untold(&addresses, shape) {
        return Ok(None);
    }
    let why = why(ended, number, shapes, shape, &addresses);
    Ok(Some(Candidate {
        segment: shape.segment,
        addresses,
        more: shape.more,
        why,
    }))
}

/// Appends a candidate, if there is one.
fn push_candidate(
    candidates: &mut Vec<Candidate>,
    candidate: Option<Candidate>,
) -> Result<(), AllocError>
    ensures { OnOk result (candidates.new.items ≡ candidates.old.items ++ option_to_list candidate) }
{
    if let Some(candidate) = candidate {
        // Most modules have one.
        if candidates.is_empty() {
            candidates.reserve_exact(1)?;
        }
        candidates.push(candidate)?;
    }
    Ok(())
}

/// The places of the segments of a module that is not found, with its pattern if that is needed.
fn shape_candidates(
    ended: Ended<'_, '_>,
    number: usize,
    module: &Checked,
    pattern: &Option<Pattern>,
    shapes: &[Shape],
) -> Result<Vec<Candidate>, AllocError>
    requires pattern { IfSome pattern.now (IsPatternOf «module».now) }
    requires shapes { HaveShapes ended.program.now ended.most «module».now shapes.now }
    ensures { IfOk result (λ v. AreCandidates ended.entry.program.now ended.entry.most «module».now v.items) }
{
    let _count = segment_count(module);
    let mut candidates = Vec::new(ended.search.alloc);
    for shape in shapes {
        push_candidate(
            &mut candidates,
            candidate(ended, number, pattern, shapes, shape)?,
        )?;
    }
    Ok(candidates)
}

/// The places of the segments of a module that is not found.
fn candidates(
    ended: Ended<'_, '_>,
    number: usize,
    module: &Checked,
    shapes: &[Shape],
) -> Result<Vec<Candidate>, AllocError>
    requires { HaveShapes ended.program.now ended.most «module».now shapes.now }
    ensures { IfOk result (λ v. AreCandidates ended.entry.program.now ended.entry.most «module».now v.items) }
{
    let pattern = referred_pattern(ended, number, module, shapes)?;
    shape_candidates(ended, number, module, &pattern, shapes)
}

/// The placement at which a module is tried: where the search has put it. `None` if it has put none of its segments with data.
fn tried(
    search: &Search<'_>,
    number: usize,
    module: &Checked,
    shapes: &[Shape],
) -> Result<Option<Box<Found>>, AllocError> {
    if !search.has_place(number, shapes) {
        return Ok(None);
    }
    let Settled {
        placement,
        absent,
        unknown,
    } = search.settle(number, module)?;
    let found = Found {
        placement,
        absent,
        unknown,
    };
    Ok(Some(Box::new(search.alloc, found)?))
}

/// The placement at which a module was tried, if the module is in the program there.
fn held(
    ended: Ended<'_, '_>,
    module: &Checked,
    tried: Option<Box<Found>>,
) -> Result<Option<Box<Found>>, AllocError>
    ensures { IfOk result (IsDraftOf ended.entry.program.now «module».now tried) }
{
    let Some(found) = tried else {
        return Ok(None);
    };
    let program = ended.program;
    let (alloc, bytes, base) = (ended.search.alloc, program.bytes.as_slice(), program.base);
    if is_found_in_part(alloc, module, &found.placement, &found.absent, bytes, base)? {
        return Ok(Some(found));
    }
    Ok(None)
}

/// What is known of a module in the end: it is found at this placement, or its candidates.
fn verdict(
    ended: Ended<'_, '_>,
    number: usize,
    module: &Checked,
    shapes: &[Shape],
    found: Option<Box<Found>>,
) -> Result<Verdict, AllocError>
    requires shapes { HaveShapes ended.program.now ended.most «module».now shapes.now }
    requires found { IsDraft ended.program.now «module».now found }
    ensures told { IfOk result (IsTold ended.entry.program.now ended.entry.most «module».now) }
    ensures found { IfOk result (λ v. found_in v ≡ option_map box_value found) }
{
    if let Some(found) = found {
        return Ok(Verdict::Found(found));
    }
    let candidates = candidates(ended, number, module, shapes)?;
    if candidates.is_empty() {
        return Ok(Verdict::NotThere);
    }
    Ok(Verdict::Possible(candidates))
}

/// The draft of a module, first if it is joined, and second if it is not.
fn split(draft: Option<Box<Found>>, is_joined: bool) -> (Option<Box<Found>>, Option<Box<Found>>)
    ensures { result ≡ (kept draft is_joined, kept draft (not is_joined)) }
{
    if is_joined {
        (draft, None)
    } else {
        (None, draft)
    }
}

/// What is known of all modules in the end.
#[derive(Drop)]
struct Known {
    verdicts: Vec<Verdict>,
    /// The drafts of those that are not found.
    unreferenced: Vec<Option<Box<Found>>>,
}

/// What is known of all modules in the end: those that are joined are found, where they were tried.
fn verdicts(
    ended: Ended<'_, '_>,
    modules: &[Checked],
    shapes: &[Vec<Shape>],
    drafts: Vec<Option<Box<Found>>>,
    joined: &Joined,
) -> Result<Known, AllocError>
    requires shapes { AllZip (HasShapes ended.program.now ended.most) modules.now shapes.now }
    requires drafts { AllZip (IsDraft ended.program.now) modules.now drafts.items }
    ensures told { IfOk result (λ k. AllZip (IsTold ended.entry.program.now ended.entry.most) modules.now k.verdicts.items) }
    ensures found { IfOk result (λ k. (i : ℕ) → found_at k.verdicts.items i ≡ found_by drafts.items joined.now.marks.items i) }
    ensures drafts { IfOk result (λ k. AllZip (IsDraft ended.entry.program.now) modules.now k.unreferenced.items) }
    ensures unreferenced { IfOk result (λ k. (i : ℕ) → draft_at k.unreferenced.items i ≡ unreferenced_by drafts.items joined.now.marks.items i) }
{
    let mut verdicts = Vec::with_capacity(ended.search.alloc, modules.len())?;
    let mut unreferenced = Vec::with_capacity(ended.search.alloc, modules.len())?;
    let mut left = drafts.into_iter();
    for (number, module) in modules.iter().enumerate() {
        let Some(draft) = left.next() else {
            unreachable!()
        };
        let (found, other) = split(draft, joined.has(number));
        let own = shapes[number].as_slice();
        verdicts.push(verdict(ended, number, module, own, found)?)?;
        unreferenced.push(other)?;
    }
    Ok(Known {
        verdicts,
        unreferenced,
    })
}

/// The placement at which each module is in the program, if the one that is tried is such a one.
fn drafts(
    ended: Ended<'_, '_>,
    modules: &[Checked],
    shapes: &[Vec<Shape>],
) -> Result<Vec<Option<Box<Found>>>, AllocError>
    requires { AllZip (HasShapes ended.program.now ended.most) modules.now shapes.now }
    ensures { IfOk result (λ v. AllZip (IsDraft ended.entry.program.now) modules.now v.items) }
{
    let mut drafts = Vec::with_capacity(ended.search.alloc, modules.len())?;
    for (number, module) in modules.iter().enumerate() {
        let own = shapes[number].as_slice();
        let tried = tried(ended.search, number, module, own)?;
        drafts.push(held(ended, module, tried)?)?;
    }
    Ok(drafts)
}

/// Which of the modules that are in the program where they were tried are found.
fn joined_among<'a, 'b>(
    ended: Ended<'a, 'b>,
    modules: &[Checked],
    shapes: &'b [Vec<Shape>],
    drafts: &'b [Option<Box<Found>>],
    least: usize,
) -> Result<Joined, AllocError>
    requires shapes { AllZip (HasShapes ended.program.now ended.most) modules.now shapes.now }
    requires drafts { AllZip (IsDraft ended.program.now) modules.now drafts.now }
    requires singles { AreSingles ended.program.now least modules.now shapes.now ended.singles.now.alone }
    ensures joined { IfOk result (λ j. AreJoined ended.entry.program.now least modules.now drafts.entry.now j.marks.items) }
    ensures all { IfOk result (λ j. AreAllJoined ended.entry.program.now modules.now drafts.entry.now j.marks.items) }
    ensures sure { IfOk result (λ j. AreSureJoined ended.entry.program.now least ended.entry.most modules.now drafts.entry.now j.marks.items) }
{
    let tried = Tried {
        alloc: ended.search.alloc,
        search: ended.search,
        singles: ended.singles,
        program: ended.program,
        modules,
        shapes,
        drafts,
        least,
        most: ended.most,
    };
    tried.walk()
}

/// Searches a program for modules. A verdict Found is right: `is_found_in_part` answers true for its placement and its absent segments. So are
/// the others, for the segments that are searched for: of these NotThere shows that none agrees with the program anywhere, and Possible lists
/// all that do, with all places, or a sign that there may be more. There may be more if 64 places of four closed bytes of the segment were
/// tried, or if `most` places are listed and there is another: then those before are listed. The program must end within the 2^32 addresses.
///
/// A segment is searched for by its closed bytes if four of them are in a row. One that is at one place with at least `least` closed bytes,
/// alone, is placed there; so is the segment of a module's start, at the program's. Others are placed by the fixups of segments that have a
/// place: by what the program has at their locations. Of the modules that are in the program at these places, those are found to which a
/// chain of references leads from one that is sure by itself: by its start, or by a segment that is at one place only. So none of the others,
/// which are `unreferenced`, is at the program's start, and no module that is found refers to one of them.
///
/// # Errors
///
/// `AllocError` if out of memory.
pub fn find(
    alloc: Global,
    modules: &[Checked],
    program: &Program,
    options: &FindOptions,
) -> Result<Findings, AllocError>
    ensures told { IfOk result (λ f. AllZip (IsTold program.now options.now.most) modules.now f.verdicts.items) }
    ensures chained { IfOk result (λ f. AreChained program.now options.now.least modules.now f.verdicts.items) }
    ensures unreferenced { IfOk result (λ f. AllZip (IsDraft program.now) modules.now f.unreferenced.items) }
    ensures all { IfOk result (λ f. AreAllFound program.now modules.now f.verdicts.items f.unreferenced.items) }
    ensures sure { IfOk result (λ f. AreSureFound program.now options.now.least options.now.most modules.now f.unreferenced.items) }
{
    let shapes = shapes_of(alloc, modules, program, options.most)?;
    let singles = Singles::of(alloc, modules, &shapes, options.least)?;
    let mut search = begun(alloc, modules, &shapes, program, options.least)?;
    search.seed(&singles)?;
    search.close()?;
    let ended = Ended {
        search: &search,
        program,
        singles: &singles,
        most: options.most,
    };
    let drafts = drafts(ended, modules, &shapes)?;
    let joined = joined_among(ended, modules, &shapes, drafts.as_slice(), options.least)?;
    let Known {
        verdicts,
        unreferenced,
    } = verdicts(ended, modules, &shapes, drafts, &joined)?;
    let asked = search.asked(&verdicts)?;
    Ok(Findings {
        verdicts,
        unreferenced,
        asked,
    })
}
