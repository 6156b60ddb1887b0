//! Laws over the definitions, each as the contract of a function that does nothing.

ghost use Rattle.omf_cmd.specs.Laws.{InputsHaveOneAnswer};

/// `reloc` has exactly one answer to each input, a text or a fault, unless memory or the reader fails.
pub fn inputs_have_one_answer()
    ensures { InputsHaveOneAnswer }
{}
