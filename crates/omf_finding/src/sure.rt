//! Which modules that are in the program are sure by themselves.

ghost use Rattle.std.specs.Prelude.{◌≡◌, ◌<◌, Some, false, slice_get, true};
ghost use Rattle.omf_check.specs.Module.{recs_of};
ghost use Rattle.omf_reloc.specs.Reach.{Reaches};
ghost use Rattle.omf_finding.specs.Chain.{IsAlone, IsStart, IsSure};
ghost use Rattle.omf_finding.specs.Finding.{IsInside};
ghost use Rattle.omf_finding.specs.Inner.Shaping.{HaveShapes, IsShapeOf};
ghost use Rattle.omf_finding.specs.Inner.Singling.{AreSingles};
ghost use Rattle.omf_finding.specs.Inner.Surely.{HasSureShape, IsSureShape};
ghost use Rattle.omf_finding.specs.Sure.{IsSureByBytes};

use crate::chaining::{Tried, enough, is_start, present_at};
use crate::findings::Found;
use crate::shapes::{Shape, is_whole};
use omf_check::Checked;

impl<'a, 'b, 'c> Tried<'a, 'b, 'c> {
    /// Whether a segment of a module with this number is sure by its bytes, where it is placed.
    fn is_sure_at(self, number: usize, module: &Checked, found: &Found, shape: &Shape) -> bool
        ensures some { result ≡ true → IsShapeOf self.entry.program.now self.entry.most «module».now shape.now → IsAlone self.entry.program.now self.entry.least «module».now found.now }
        ensures none { result ≡ false → IsSureShape self.entry number «module».now found.now shape.now → ⊥ }
    {
        let Some(address) = shape.single_place() else {
            return false;
        };
        let Some(place) = present_at(found, shape.segment) else {
            return false;
        };
        if place.address != address {
            return false;
        }
        if shape.closed < enough(module, shape.segment, self.least) {
            return false;
        }
        self.singles.is_alone(number, shape.segment)
    }

    /// Whether a segment of a module is sure by its bytes, where it is placed.
    fn is_alone(self, number: usize, module: &Checked, found: &Found, shapes: &[Shape]) -> bool
        requires { HaveShapes self.program.now self.most «module».now shapes.now }
        ensures some { result ≡ true → IsAlone self.entry.program.now self.entry.least «module».now found.now }
        ensures none { result ≡ false → HasSureShape self.entry number «module».now found.now shapes.now → ⊥ }
    {
        if !is_whole(shapes) {
            return false;
        }
        for shape in shapes {
            if self.is_sure_at(number, module, found, shape) {
                return true;
            }
        }
        false
    }

    /// Whether a module at its placement is sure by itself.
    pub(crate) fn is_sure(
        self,
        number: usize,
        module: &Checked,
        found: &Found,
        shapes: &[Shape],
    ) -> bool
        requires shapes { HaveShapes self.program.now self.most «module».now shapes.now }
        requires held { Reaches found.now.placement (recs_of «module».now.bytes) }
        ensures some { result ≡ true → IsSure self.entry.program.now self.entry.least «module».now found.now }
        ensures start { result ≡ false → IsStart self.entry.program.now «module».now found.now → ⊥ }
        ensures alone { result ≡ false → HasSureShape self.entry number «module».now found.now shapes.now → ⊥ }
    {
        if is_start(self.program, module, found) {
            return true;
        }
        self.is_alone(number, module, found, shapes)
    }
}
