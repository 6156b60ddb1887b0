//! Classes of code.

ghost use Rattle.std.specs.Prelude.{◌≡◌};
ghost use Rattle.omf_check.specs.Classes.{is_code_class, is_code_name};

use omf_frame::Name;

/// Whether a class with this name is one of code: it ends in `CODE`, in capital letters (this profile's rule).
pub fn is_code_class(class: &[u8]) -> bool
    ensures { result ≡ is_code_class class.now }
{
    class.ends_with(b"CODE")
}

/// Whether a class is one of code, if it has a name.
pub fn is_code_name(class: Option<Name<'_>>) -> bool
    ensures { result ≡ is_code_name class.entry }
{
    match class {
        Some(class) => is_code_class(class.0),
        None => false,
    }
}
