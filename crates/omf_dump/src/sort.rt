//! The kinds of names.

ghost use Rattle.std.specs.Prelude.{◌≡◌};
ghost use Rattle.omf_dump.specs.Names.{is_listed, is_undefined, sort_word};

use crate::format::Which;

/// The kind of a name.
#[derive(Clone, Copy)]
pub enum Sort {
    /// A public in a segment whose class ends in CODE.
    Text,
    /// A public in another segment that the module has data for.
    Data,
    /// A public in another segment.
    Bss,
    /// A communal.
    Common,
    /// A public without a segment.
    Absolute,
    /// An external.
    Undefined,
    /// An external that a WKEXT names.
    Weak,
    /// An external that an LZEXT names.
    Lazy,
    /// An import definition.
    Imported,
}

impl Sort {
    /// Its word.
    pub(crate) fn word(self) -> &'static str
        ensures { result.now ≡ sort_word self }
    {
        match self {
            Sort::Text => "text",
            Sort::Data => "data",
            Sort::Bss => "bss",
            Sort::Common => "common",
            Sort::Absolute => "absolute",
            Sort::Undefined => "undefined",
            Sort::Weak => "weak",
            Sort::Lazy => "lazy",
            Sort::Imported => "imported",
        }
    }

    /// Whether other modules are to define a name of this kind.
    fn is_undefined(self) -> bool
        ensures { result ≡ is_undefined self }
    {
        match self {
            Sort::Undefined | Sort::Weak | Sort::Lazy => true,
            Sort::Text | Sort::Data | Sort::Bss | Sort::Common | Sort::Absolute | Sort::Imported =>
                false,
        }
    }

    /// Whether names of this kind are listed.
    pub(crate) fn is_listed(self, which: Which) -> bool
        ensures { result ≡ is_listed which self }
    {
        match which {
            Which::All => true,
            Which::Defined => !self.is_undefined(),
            Which::Undefined => self.is_undefined(),
        }
    }
}
