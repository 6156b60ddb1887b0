//! Two ways to search a dictionary (TIS OMF 1.1, appendix 2, "Dictionary").

ghost use Rattle.std.specs.Prelude.{◌≡◌, ◌<◌, ◌≤◌, length};
ghost use Rattle.omf_library.specs.Dictionary.{block_count, next_first, task_of, IsEnded, IsSought};

use crate::dictionary::{Dictionary, Look, block_count, block_of, entry_length, look_of};
use crate::hash::{BUCKETS, probe_of};

/// What a look at a bucket costs, beside the characters that are compared.
pub const LOOK: u64 = 4;

/// How often a search reads each character of its name for the hash.
const HASHED: u64 = 4;

/// What the searches of a library may cost, whatever its size.
pub const FIRST_CREDIT: u64 = 1 << 20;

/// What the searches of a library may cost for each of its bytes.
pub const CREDIT: u64 = 64;

/// What all searches of a library of this size may cost together.
pub fn credit_of(size: usize) -> u64 {
    (size as u64)
        .saturating_mul(CREDIT)
        .saturating_add(FIRST_CREDIT)
}

/// How the search of one block ends.
#[derive(Clone, Copy, Debug, PartialEq, Eq)]
pub enum Ended {
    /// With the name's entry: the page of its member.
    Found(u16),
    /// At an empty bucket of a block that is not full.
    Absent,
    /// The block is full; the search stopped at this bucket.
    Full(usize),
}

/// At which bucket a search goes on after a full block.
#[derive(Clone, Copy, Debug, PartialEq, Eq)]
pub enum Rule {
    /// At the name's first bucket: the standard.
    Restart,
    /// At the bucket where it stopped.
    Keep,
}

/// The answer of a search.
#[derive(Clone, Copy, Debug, PartialEq, Eq)]
pub struct Sought {
    /// The page of the member.
    pub page: Option<u16>,
    /// The number of full blocks that the search passed.
    pub passed: usize,
    /// What it cost: about the number of characters that it read.
    pub cost: u64,
}

/// What a search looks for in one block: a name, from a bucket on, by steps.
#[derive(Clone, Copy)]
struct Task<'a> {
    is_case_sensitive: bool,
    name: &'a [u8],
    first: usize,
    step: usize,
}

/// What it costs to hash a name.
pub fn hash_cost(name: &[u8]) -> u64 {
    (name.len() as u64).saturating_add(1).saturating_mul(HASHED)
}

/// What it costs to look at a bucket: the name is compared with those that are as long.
fn look_cost(block: &[u8], bucket: usize, name: &[u8]) -> u64
    requires { bucket < length block.now }
{
    if entry_length(block, bucket) == Some(name.len()) {
        LOOK.saturating_add(name.len() as u64)
    } else {
        LOOK
    }
}

/// What it costs at most to look at this many buckets for a name.
pub fn looks_cost(name: &[u8], looks: u64) -> u64 {
    looks.saturating_mul(LOOK.saturating_add(name.len() as u64))
}

/// Searches a block, and adds what it cost. Buckets with one entry, one after another, are compared with the name once.
fn search_block(block: &[u8], task: Task<'_>, cost: &mut u64) -> Ended
    requires whole { 37 < length block.now }
    requires first { task.first < 37 }
    requires step { task.step < 37 }
    ensures { IsEnded (record { is_case_sensitive = task.entry.is_case_sensitive; name = task.entry.name.now; first = task.entry.first; step = task.entry.step }) block.now result }
{
    let mut bucket = task.first;
    let mut other = 0;
    for _k in 0..BUCKETS {
        let entry = block[bucket];
        if other == 0 || entry != other {
            *cost = cost.saturating_add(look_cost(block, bucket, task.name));
            match look_of(task.is_case_sensitive, block, bucket, task.name) {
                Look::Found(page) => return Ended::Found(page),
                Look::Empty if block[BUCKETS] == 0xFF => return Ended::Full(bucket),
                Look::Empty => return Ended::Absent,
                Look::Other => other = entry,
            }
        }
        bucket = (bucket + task.step) % BUCKETS;
    }
    Ended::Full(bucket)
}

/// The bucket at which a search begins in the next block.
fn next_first(rule: Rule, first: usize, stopped: usize) -> usize
    ensures value { result ≡ next_first rule first stopped }
    ensures low { first < 37 → stopped < 37 → result < 37 }
{
    match rule {
        Rule::Restart => first,
        Rule::Keep => stopped,
    }
}

/// Searches a dictionary for a name.
fn search(rule: Rule, is_case_sensitive: bool, bytes: &[u8], name: &[u8]) -> Sought
    ensures { IsSought rule is_case_sensitive bytes.now name.now result }
{
    let count = block_count(bytes);
    let mut cost = hash_cost(name);
    if count == 0 {
        return Sought {
            page: None,
            passed: 0,
            cost,
        };
    }
    let probe = probe_of(count, name);
    let mut number = probe.block;
    let mut first = probe.bucket;
    for passed in 0..count {
        let task = Task {
            is_case_sensitive,
            name,
            first,
            step: probe.bucket_step,
        };
        match search_block(block_of(bytes, number), task, &mut cost) {
            Ended::Found(page) => {
                return Sought {
                    page: Some(page),
                    passed,
                    cost,
                };
            }
            Ended::Absent => {
                return Sought {
                    page: None,
                    passed,
                    cost,
                };
            }
            Ended::Full(stopped) => {
                first = next_first(rule, probe.bucket, stopped);
                number = (number + probe.block_step) % count;
            }
        }
    }
    Sought {
        page: None,
        passed: count,
        cost,
    }
}

impl Dictionary<'_> {
    /// Searches for a name by its hash.
    pub fn search(&self, rule: Rule, name: &[u8]) -> Sought
        ensures { IsSought rule self.now.is_case_sensitive self.now.bytes.now name.now result }
    {
        search(rule, self.is_case_sensitive, self.bytes, name)
    }
}
