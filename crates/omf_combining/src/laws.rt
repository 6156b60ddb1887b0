//! Laws of the stack and of an order of classes, each the contract of an empty function.

ghost use Rattle.omf_combining.specs.Classes.{ClassesComeFirst};
ghost use Rattle.omf_combining.specs.Stack.{StackIsAsAsked};

/// With the module for an order of classes in front, the classes first appear in that order, and others after them as without it.
pub fn classes_come_first()
    ensures { ClassesComeFirst }
{}

/// With one more part of what it lacks, the stack is as long as is asked for, or as it is without, and even.
pub fn stack_is_as_asked()
    ensures { StackIsAsAsked }
{}
