//! The renderings.

use omf_check::Profile;

/// The two renderings.
#[derive(Clone, Copy)]
pub enum Format {
    /// Lines of text: one for each record and each of its items, and one for each 16 bytes of data.
    Text,
    /// One line of JSON for each record.
    Json,
}

/// How records are rendered.
#[derive(Clone, Copy)]
pub struct Style {
    pub format: Format,
    /// The most bytes of data that are shown of a record.
    pub most: usize,
}

/// How modules are judged, and how their records are rendered.
#[derive(Clone, Copy)]
pub struct Mode {
    pub profile: Profile,
    pub style: Style,
}

/// The renderings of a list, which has a line for each module or for each name.
#[derive(Clone, Copy)]
pub enum Shape {
    Text,
    /// Each line is an object of JSON.
    Json,
    /// Comma-separated values (RFC 4180), after a line with the names of the columns.
    Csv,
}

/// The names that are listed.
#[derive(Clone, Copy)]
pub enum Which {
    All,
    /// Those that the module defines.
    Defined,
    /// Those that other modules are to define.
    Undefined,
}

/// What a list has a line for.
#[derive(Clone, Copy)]
pub enum Subject {
    /// Each module.
    Verdicts,
    /// Each name of a module.
    Names(Which),
}

/// How modules are judged, and what list of them is written.
#[derive(Clone, Copy)]
pub struct Listing {
    pub profile: Profile,
    pub shape: Shape,
    pub subject: Subject,
}
