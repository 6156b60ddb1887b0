//! The profile with which the modules of a program are checked.

ghost use Rattle.std.specs.Prelude.{◌≡◌};
ghost use Rattle.omf_aliases.specs.Aliases.{any_profile};

use omf_check::Profile;

/// The profile of the check.
pub fn any_profile() -> Profile
    ensures { result ≡ any_profile }
{
    Profile {
        refuse_vendor_comments: false,
    }
}
