//! Laws of the reading of an input, each the contract of an empty function.

ghost use Rattle.omf_linking.specs.Laws.{InputsAreRead, InputsAreReadOneWay};

/// Each input has at most one result, apart from `Memory`: its modules and the text after them, or the first module that is
/// refused, or the offset of what is no text.
pub fn inputs_are_read_one_way()
    ensures { InputsAreReadOneWay }
{}

/// Each input is read as modules and the text after them, or one of its modules is refused, or what follows them is no text; by `inputs_are_read_one_way` in one way only.
pub fn inputs_are_read()
    ensures { InputsAreRead }
{}
