//! Laws of the headline, each the contract of an empty function.

ghost use Rattle.omf_reloc.specs.HeadlineLaws.{AcceptedAreSafe, AnswersAreThere, AnswersAreUnique};

/// Every input and placement have an answer.
pub fn answers_are_there()
    ensures { AnswersAreThere }
{}

/// They have no other.
pub fn answers_are_unique()
    ensures { AnswersAreUnique }
{}

/// In a module that an input begins with, every index and every thread that is used is defined. At every placement, every byte that is laid is
/// inside its segment, and every byte that a fixup changes is inside its data record.
pub fn accepted_are_safe()
    ensures { AcceptedAreSafe }
{}
