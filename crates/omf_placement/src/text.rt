//! Placement texts (a format of this profile).

ghost use Rattle.std.specs.Prelude.{◌≡◌, ℕ, [], OnOk, OnErr};
ghost use Rattle.omf_records.specs.Inner.Seen.{map_ok};
ghost use Rattle.omf_check.specs.Module.{recs_of};
ghost use Rattle.omf_placement.specs.Inner.Parsing.{frames_from};
ghost use Rattle.omf_placement.specs.PlacementText.{IsAnswer, parsed, resolved, resolved_group};

use crate::cut::cut;
use crate::entry::{Entry, entry_of, said_by};
use crate::fault::TextFault;
use crate::frame::{Frame, Placed};
use crate::group::member_frame;
use crate::placement::Placement;
use omf_check::Checked;
use std::alloc::{AllocError, Global};
use std::marker::Model;

/// The entries of a placement text. The frames of groups may still have to be found from their members.
#[derive(Drop)]
pub struct Draft {
    segments: Vec<Placed>,
    groups: Vec<(u64, Option<Frame>)>,
    externals: Vec<Placed>,
}

impl Model for Draft {
    ghost use Rattle.omf_placement.specs.PlacementText.{Draft as Drafted};

    ghost Value = { Drafted };

    ghost view = { λ d. record { segments = d.segments.items; groups = d.groups.items; externals = d.externals.items } };
}

impl Draft {
    ghost use Rattle.omf_placement.specs.Inner.Parsing.{seen, with_entry};

    /// An empty draft.
    pub fn new(alloc: Global) -> Self
        ensures { result ≡ record { segments = []; groups = []; externals = [] } }
    {
        Draft {
            segments: Vec::new(alloc),
            groups: Vec::new(alloc),
            externals: Vec::new(alloc),
        }
    }

    /// Adds the entry on a line.
    ///
    /// # Errors
    ///
    /// `AllocError` if out of memory: the draft is unchanged.
    pub fn push(&mut self, line: u64, entry: Entry) -> Result<(), AllocError>
        ensures ok { OnOk result (self.new ≡ with_entry self.old line (seen entry)) }
        ensures err { OnErr result (self.new ≡ self.old) }
    {
        match entry {
            Entry::Blank => (),
            Entry::Segment(placed) => self.segments.push(placed)?,
            Entry::Group(frame) => self.groups.push((line, frame))?,
            Entry::External(placed) => self.externals.push(placed)?,
        }
        Ok(())
    }

    /// The places on the `S` lines, in order.
    pub fn segments(&self) -> &[Placed]
        ensures { result.now ≡ self.now.segments }
    {
        &self.segments
    }

    /// The number of each `G` line, from 1, and its frame; `None` for `real`.
    pub fn groups(&self) -> &[(u64, Option<Frame>)]
        ensures { result.now ≡ self.now.groups }
    {
        &self.groups
    }

    /// The places on the `E` lines, in order.
    pub fn externals(&self) -> &[Placed]
        ensures { result.now ≡ self.now.externals }
    {
        &self.externals
    }

    /// The placement that the entries give a module. The places of segments and externals are those in the text. The frame of a group is
    /// that in the text, or, for `G real`, that of its lowest member, as in `real_group`. The kth of all `G` lines is for the kth
    /// group. All `S` lines count, also later ones.
    ///
    /// # Errors
    ///
    /// `Line` with the line of the first `G real` whose frame cannot be found: there is no such group, it has no member, or a member has
    /// no `S` line. `Memory` if out of memory, only if the frames of all groups can be found. On an error the draft is dropped.
    pub fn resolve(self, alloc: Global, module: &Checked) -> Result<Placement, TextFault>
        ensures { IsAnswer (resolved (recs_of «module».now.bytes) self) result }
    {
        let Draft {
            segments,
            groups,
            externals,
        } = self;
        let frames = group_frames(alloc, module, &segments, &groups)?;
        Ok(Placement::of(segments, frames, externals))
    }
}

/// The frame of the `k`th group: the given one, or else that of its lowest member.
fn group_frame(
    module: &Checked,
    segments: &[Placed],
    k: usize,
    given: Option<Frame>,
) -> Option<Frame>
    ensures { (line : ℕ) → result ≡ resolved_group (recs_of «module».now.bytes) segments.now (k, (line, given)) }
{
    match given {
        Some(frame) => Some(frame),
        None => member_frame(module, segments, k),
    }
}

/// The frames of all groups, or the line of the first whose frame cannot be found. If memory runs out, the later groups are still
/// searched for such a line.
fn group_frames(
    alloc: Global,
    module: &Checked,
    segments: &[Placed],
    groups: &[(u64, Option<Frame>)],
) -> Result<Vec<Frame>, TextFault>
    ensures { IsAnswer (frames_from (recs_of «module».now.bytes) segments.now 1 groups.now) (map_ok (λ v. v.items) result) }
{
    let mut frames = Vec::new(alloc);
    let mut is_short = false;
    for (i, (line, given)) in groups.iter().enumerate() {
        let Some(frame) = group_frame(module, segments, i + 1, *given) else {
            return Err(TextFault::Line(*line));
        };
        if !is_short {
            is_short = frames.push(frame).is_err();
        }
    }
    if is_short {
        return Err(TextFault::Memory);
    }
    Ok(frames)
}

/// Parses a placement text. Lines end at a line feed or at the end of the text. A carriage return at the end of a line, a comment from
/// the first `;` on, and spaces at both ends are ignored. What remains is blank, or one of `S address base selector`,
/// `S address real`, `G base selector`, `G real`, `E address base selector`, with one space between words. Addresses and frames have
/// 1 to 8 hexadecimal digits, selectors 1 to 4, in upper or lower case. Entries with the same letter are in index order.
///
/// # Errors
///
/// `Line` with the first line, from 1, that is anything else. `Memory` if out of memory, only if there is no such line.
pub fn parse_placement(alloc: Global, text: &[u8]) -> Result<Draft, TextFault>
    ensures { IsAnswer (parsed text.now) result }
{
    let mut draft = Draft::new(alloc);
    let mut is_short = false;
    let mut rest = Some(text);
    let mut number = 0u64;
    while let Some(lines) = rest {
        let (line, more) = cut(lines, b'\n');
        number += 1;
        let Some(entry) = entry_of(said_by(line)) else {
            return Err(TextFault::Line(number));
        };
        if !is_short {
            is_short = draft.push(number, entry).is_err();
        }
        rest = more;
    }
    if is_short {
        return Err(TextFault::Memory);
    }
    Ok(draft)
}
