//! The frames that names share: that of the first line for a segment of a name and class, or for a group of a name.

ghost use Rattle.std.specs.Prelude.{◌≡◌, ◌∷◌, ◌++◌, [], IfOk, List, None, OnOk, Option, Some, ℕ, filter_map, flat_map, slice_get, unwrap_or};
ghost use Rattle.omf_check.specs.Module.{recs_of};
ghost use Rattle.omf_records.specs.Inner.Seen.{map_ok};
ghost use Rattle.omf_records.specs.Values.{Rec as Records};
ghost use Rattle.omf_placement.specs.Quoted.{escaped};
ghost use Rattle.omf_placement.specs.declared.frame.Frame.{Frame as Base};
ghost use Rattle.omf_linking.specs.Inner.LineParsing.{target_seen, told_seen};
ghost use Rattle.omf_linking.specs.Inner.Titling.{AreTitles, IsFrameTable, title_text};
ghost use Rattle.omf_linking.specs.Locator.LinkEntries.{GroupFrame};
ghost use Rattle.omf_linking.specs.Locator.Drafted.{is_same, is_same_part};
ghost use Rattle.omf_linking.specs.Locator.Items.{Given, Item, Title, group_given, group_title, in_quotes, segment_framed, segment_title, settled, shared_frame};

use crate::locator::entry::{Target, Told};
use crate::locator::fault::LineFault;
use crate::locator::keys::{class_name, entry_name, spelled};
use crate::locator::tables::joined;
use omf_check::Checked;
use omf_frame::Name;
use omf_placement::{Frame, Placed};
use omf_reloc::Kind;
use std::alloc::{AllocError, Global};
use std::collections::BTreeMap;

/// The frames of the first lines of names. A name and a class are one text, as they are written in quotes, with a line feed between them.
#[derive(Drop)]
pub struct FrameTable {
    /// `None` for a group in the frame of its lowest member, and in a draft for a segment that is no part of another.
    by_title: BTreeMap<Vec<u8>, Option<Frame>>,
}

impl FrameTable {
    /// Returns an empty table.
    pub(crate) fn new(alloc: Global) -> FrameTable
        ensures { (title : List Records → ℕ → Title) (ms : List (List Records)) → IsFrameTable title ms [] result.by_title }
    {
        FrameTable {
            by_title: BTreeMap::new(alloc),
        }
    }

    /// Returns the frame of the first line of a name.
    fn frame(&self, text: &[u8]) -> Option<Frame>
        ensures { (title : List Records → ℕ → Title) (ms : List (List Records)) (gs : List ((ℕ × ℕ) × Option Base)) (t : Title) → text.now ≡ title_text t → IsFrameTable title ms gs self.now.by_title → result ≡ shared_frame title ms t gs }
    {
        match self.by_title.get(text).copied() {
            Some(frame) => frame,
            None => None,
        }
    }

    /// Adds the frame of a line of a name, unless there was a line of that name.
    fn add(&mut self, text: Vec<u8>, frame: Option<Frame>) -> Result<(), AllocError>
        ensures { OnOk result ((title : List Records → ℕ → Title) (ms : List (List Records)) (gs : List ((ℕ × ℕ) × Option Base)) (j i : ℕ) (m : List Records) → slice_get ms j ≡ Some m → text.items ≡ title_text (in_quotes (title m i)) → IsFrameTable title ms gs self.old.by_title → IsFrameTable title ms (gs ++ ((j, i), frame) ∷ []) self.new.by_title) }
    {
        match self.by_title.get(text.as_slice()).copied() {
            Some(_) => Ok(()),
            None => {
                self.by_title.insert(text, frame)?;
                Ok(())
            }
        }
    }

    /// Adds the frame of a line of a name. Returns whether it is also that of the first line of the name, if there was one.
    pub(crate) fn share(&mut self, text: Vec<u8>, frame: Option<Frame>) -> Result<bool, AllocError>
        ensures table { OnOk result ((title : List Records → ℕ → Title) (ms : List (List Records)) (gs : List ((ℕ × ℕ) × Option Base)) (j i : ℕ) (m : List Records) → slice_get ms j ≡ Some m → text.items ≡ title_text (in_quotes (title m i)) → IsFrameTable title ms gs self.old.by_title → IsFrameTable title ms (gs ++ ((j, i), frame) ∷ []) self.new.by_title) }
        ensures shared { IfOk result (λ b. (title : List Records → ℕ → Title) (ms : List (List Records)) (gs : List ((ℕ × ℕ) × Option Base)) (t : Title) → text.items ≡ title_text t → IsFrameTable title ms gs self.old.by_title → b ≡ is_same_part (shared_frame title ms t gs) frame) }
    {
        let shared = is_same_part(self.frame(&text), frame);
        self.add(text, frame)?;
        Ok(shared)
    }
}

/// Returns whether the first line of a name gives this frame.
fn is_same(first: Option<Frame>, frame: Frame) -> bool
    ensures { result ≡ is_same first frame }
{
    match first {
        Some(first) => first.base == frame.base && first.selector == frame.selector,
        None => false,
    }
}

/// Returns whether it gives the frame of a line, if this line has one.
fn is_same_part(first: Option<Frame>, frame: Option<Frame>) -> bool
    ensures { result ≡ is_same_part first frame }
{
    match frame {
        Some(frame) => is_same(first, frame),
        None => false,
    }
}

/// The frames that names share so far.
#[derive(Drop)]
pub struct Titles {
    segments: FrameTable,
    groups: FrameTable,
}

/// Returns a name as it is written in quotes; nothing for none.
fn spelled_or_empty(alloc: Global, name: Option<Name<'_>>) -> Result<Vec<u8>, AllocError>
    ensures { IfOk result (λ t. t.items ≡ flat_map escaped (unwrap_or name.entry [])) }
{
    match name {
        Some(name) => spelled(alloc, name.0),
        None => Ok(Vec::new(alloc)),
    }
}

/// Returns the name and the class of a segment as one text.
pub(crate) fn segment_title(
    alloc: Global,
    module: &Checked,
    index: u16,
) -> Result<Vec<u8>, AllocError>
    ensures { IfOk result (λ t. t.items ≡ title_text (in_quotes (segment_title (recs_of «module».now.bytes) index))) }
{
    let name = spelled_or_empty(alloc, entry_name(module, Kind::Segment, index))?;
    let class = spelled_or_empty(alloc, class_name(module, index))?;
    joined(alloc, &name, &class)
}

/// Returns the name of a group as such a text.
pub(crate) fn group_title(
    alloc: Global,
    module: &Checked,
    index: u16,
) -> Result<Vec<u8>, AllocError>
    ensures { IfOk result (λ t. t.items ≡ title_text (in_quotes (group_title (recs_of «module».now.bytes) index))) }
{
    let name = spelled_or_empty(alloc, entry_name(module, Kind::Group, index))?;
    joined(alloc, &name, &[])
}

impl Titles {
    /// Returns no frames.
    pub fn new(alloc: Global) -> Titles
        ensures { (ms : List (List Records)) → AreTitles ms result [] }
    {
        Titles {
            segments: FrameTable::new(alloc),
            groups: FrameTable::new(alloc),
        }
    }

    /// Returns the frame that the name and class of a segment share.
    pub fn segment(
        &self,
        alloc: Global,
        module: &Checked,
        index: u16,
    ) -> Result<Option<Frame>, AllocError>
        ensures { IfOk result (λ o. (ms : List (List Records)) (items : List Item) → AreTitles ms self.now items → o ≡ shared_frame segment_title ms (in_quotes (segment_title (recs_of «module».now.bytes) index)) (filter_map segment_framed items)) }
    {
        let title = segment_title(alloc, module, index)?;
        Ok(self.segments.frame(&title))
    }

    /// Returns the frame that the name of a group shares.
    pub fn group(
        &self,
        alloc: Global,
        module: &Checked,
        index: u16,
    ) -> Result<Option<Frame>, AllocError>
        ensures { IfOk result (λ o. (ms : List (List Records)) (items : List Item) → AreTitles ms self.now items → o ≡ shared_frame group_title ms (in_quotes (group_title (recs_of «module».now.bytes) index)) (filter_map group_given items)) }
    {
        let title = group_title(alloc, module, index)?;
        Ok(self.groups.frame(&title))
    }

    /// Returns what a line gives the entry of a module with this index: `Unshared` if it shares a frame and no line before it gives one to its name.
    pub(crate) fn settled(
        &self,
        alloc: Global,
        module: &Checked,
        index: u16,
        told: Told,
    ) -> Result<Result<Target, LineFault>, AllocError>
        ensures { IfOk result (λ r. (ms : List (List Records)) (items : List Item) → AreTitles ms self.now items → map_ok target_seen r ≡ settled ms items (recs_of «module».now.bytes) (told_seen told) index) }
    {
        match told {
            Told::Own(target) => Ok(Ok(target)),
            Told::SharedPlace(address) => match self.segment(alloc, module, index)? {
                Some(frame) => Ok(Ok(Target::Segment(Placed { address, frame }))),
                None => Ok(Err(LineFault::Unshared)),
            },
            Told::SharedStored { address, stored } => {
                match self.segment(alloc, module, index)? {
                    Some(frame) => Ok(Ok(Target::Stored {
                        place: Placed { address, frame },
                        address: stored,
                    })),
                    None => Ok(Err(LineFault::Unshared)),
                }
            }
            Told::SharedFrame => match self.group(alloc, module, index)? {
                Some(frame) => Ok(Ok(Target::Group(Some(frame)))),
                None => Ok(Err(LineFault::Unshared)),
            },
        }
    }

    /// Notes the place of the segment of a module with this index.
    pub fn note_segment(
        &mut self,
        alloc: Global,
        module: &Checked,
        index: u16,
        place: Placed,
    ) -> Result<(), AllocError>
        ensures { OnOk result ((ms : List (List Records)) (items : List Item) (j : ℕ) (x : Item) → slice_get ms j ≡ Some (recs_of «module».now.bytes) → segment_framed x ≡ Some ((j, index), Some place.frame) → group_given x ≡ None → AreTitles ms self.old items → AreTitles ms self.new (items ++ x ∷ [])) }
    {
        let title = segment_title(alloc, module, index)?;
        self.segments.add(title, Some(place.frame))?;
        Ok(())
    }

    /// Notes the frame of the group of a module with this index.
    pub fn note_group(
        &mut self,
        alloc: Global,
        module: &Checked,
        index: u16,
        frame: Option<Frame>,
    ) -> Result<(), AllocError>
        ensures { OnOk result ((ms : List (List Records)) (items : List Item) (j : ℕ) → slice_get ms j ≡ Some (recs_of «module».now.bytes) → AreTitles ms self.old items → AreTitles ms self.new (items ++ Given j index (GroupFrame frame) ∷ [])) }
    {
        let title = group_title(alloc, module, index)?;
        self.groups.add(title, frame)?;
        Ok(())
    }

    /// Notes what the entry of a module with this index is given.
    pub(crate) fn note(
        &mut self,
        alloc: Global,
        module: &Checked,
        index: u16,
        target: Target,
    ) -> Result<(), AllocError>
        ensures { OnOk result ((ms : List (List Records)) (items : List Item) (j : ℕ) → slice_get ms j ≡ Some (recs_of «module».now.bytes) → AreTitles ms self.old items → AreTitles ms self.new (items ++ Given j index (target_seen target) ∷ [])) }
    {
        match target {
            Target::Segment(place) => self.note_segment(alloc, module, index, place),
            Target::Stored { place, .. } => self.note_segment(alloc, module, index, place),
            Target::Group(frame) => self.note_group(alloc, module, index, frame),
            Target::External(_) => Ok(()),
        }
    }
}
