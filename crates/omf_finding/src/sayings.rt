//! What references show in one step of a search.

use std::alloc::{AllocError, Global};

/// What is shown in one step: of each segment or group, by its number, a value; those of one step in any order.
#[derive(Drop)]
pub(crate) struct Sayings {
    /// The addresses of segments.
    pub(crate) places: Vec<(usize, u32)>,
    /// The selectors of the frames of segments.
    pub(crate) segments: Vec<(usize, u32)>,
    /// The selectors of the frames of groups.
    pub(crate) groups: Vec<(usize, u32)>,
}

impl Sayings {
    /// None.
    pub(crate) fn new(alloc: Global) -> Sayings {
        Sayings {
            places: Vec::new(alloc),
            segments: Vec::new(alloc),
            groups: Vec::new(alloc),
        }
    }
}

/// What one step shows of a segment or group.
#[derive(Clone, Copy, Drop)]
pub(crate) struct Outcome {
    /// Its number.
    pub(crate) subject: usize,
    /// The value that is shown most often; of several such ones the least.
    pub(crate) value: u32,
    /// Whether another value is shown too.
    pub(crate) is_disputed: bool,
    /// How often the value is shown.
    count: usize,
    /// The last value, and how often it is shown so far.
    last: u32,
    run: usize,
}

impl Outcome {
    /// A value that is shown once.
    fn one(subject: usize, value: u32) -> Outcome {
        Outcome {
            subject,
            value,
            is_disputed: false,
            count: 1,
            last: value,
            run: 1,
        }
    }

    /// The same after a value that is not less than the last is shown.
    fn after(self, value: u32) -> Outcome {
        let mut outcome = self;
        if value == self.last {
            outcome.run = self.run.saturating_add(1);
        } else {
            outcome.last = value;
            outcome.run = 1;
            outcome.is_disputed = true;
        }
        if outcome.run > self.count {
            outcome.count = outcome.run;
            outcome.value = value;
        }
        outcome
    }
}

/// What is shown of each segment or group, in ascending order of their numbers. The order in which it was shown does not matter.
pub(crate) fn outcomes(
    alloc: Global,
    sayings: &mut Vec<(usize, u32)>,
) -> Result<Vec<Outcome>, AllocError> {
    sayings.sort_unstable();
    let mut all = Vec::new(alloc);
    let mut last: Option<Outcome> = None;
    for (subject, value) in &*sayings {
        last = match last {
            Some(one) if one.subject == *subject => Some(one.after(*value)),
            Some(one) => {
                all.push(one)?;
                Some(Outcome::one(*subject, *value))
            }
            None => Some(Outcome::one(*subject, *value)),
        };
    }
    if let Some(one) = last {
        all.push(one)?;
    }
    Ok(all)
}
