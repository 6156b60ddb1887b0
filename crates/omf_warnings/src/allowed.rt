//! What a link text may do: the option `--allow`.

ghost use Rattle.std.specs.Prelude.{◌≡◌};
ghost use Rattle.omf_warnings.specs.Allowing.{is_allowed};

use crate::finding::Finding;
use std::alloc::{AllocError, Global};

/// What of the things that a link text does unseen is no fault.
#[derive(Clone, Copy, Debug, PartialEq, Eq)]
pub struct Allowed {
    /// Segments may have addresses in common.
    pub overlap: bool,
    /// Addresses may break an alignment.
    pub align: bool,
    /// Groups may be longer than 64 KB.
    pub group: bool,
    /// Parts of one segment, and groups of one name, may have different frames; a frame in real mode may have any base.
    pub frame: bool,
    /// A near reference may be into another frame.
    pub near: bool,
    /// Several publics may have one name, if no external has it.
    pub twice: bool,
}

impl Allowed {
    /// Nothing is allowed.
    pub fn nothing() -> Allowed {
        Allowed {
            overlap: false,
            align: false,
            group: false,
            frame: false,
            near: false,
            twice: false,
        }
    }

    /// Allows a kind by its name. Returns false if there is no such kind.
    fn allow(&mut self, kind: &str) -> bool {
        match kind {
            "overlap" => {
                self.overlap = true;
                true
            }
            "align" => {
                self.align = true;
                true
            }
            "group" => {
                self.group = true;
                true
            }
            "frame" => {
                self.frame = true;
                true
            }
            "near" => {
                self.near = true;
                true
            }
            "twice" => {
                self.twice = true;
                true
            }
            _ => false,
        }
    }

    /// Returns whether something is allowed.
    pub fn has_any(&self) -> bool {
        self.overlap || self.align || self.group || self.frame || self.near || self.twice
    }

    /// Returns whether what is found is allowed.
    pub fn has(&self, found: Finding) -> bool
        ensures { result ≡ is_allowed self.now found }
    {
        match found {
            Finding::Overlap { .. } => self.overlap,
            Finding::Align { .. } => self.align,
            Finding::Group(_) => self.group,
            Finding::Frames { .. } => self.frame,
            Finding::Selector(_) => self.frame,
            Finding::Near(_) => self.near,
        }
    }
}

/// What the options `--allow KIND` of arguments allow, and the arguments without these options. None if a kind is missing or unknown.
///
/// # Errors
///
/// `AllocError` if memory runs out.
pub fn allowed_in(
    alloc: Global,
    arguments: &[String],
) -> Result<Option<(Allowed, Vec<String>)>, AllocError> {
    let mut allowed = Allowed::nothing();
    let mut words = Vec::new(alloc);
    let mut rest = arguments;
    while let [argument, others @ ..] = rest {
        if argument.as_str() != "--allow" {
            words.push(argument.clone()?)?;
            rest = others;
            continue;
        }
        let [kind, others @ ..] = others else {
            return Ok(None);
        };
        if !allowed.allow(kind.as_str()) {
            return Ok(None);
        }
        rest = others;
    }
    Ok(Some((allowed, words)))
}
