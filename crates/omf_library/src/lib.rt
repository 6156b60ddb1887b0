//! Libraries of object modules (TIS OMF 1.1, appendix 2): which bytes are one, and its members.
//!
//! ```
//! match members_in(alloc, profile, bytes) {
//!     Ok(members) => {} // member i has the bytes from members[i].offset on, members[i].length of them
//!     Err(LibraryFault::Refused { offset, reason, place, .. }) => {} // no module begins at that page
//!     Err(_) => {} // no header, no end, or out of memory
//! }
//! ```
#![tactic(auto)]

mod account;
mod aliases;
mod dictionary;
mod fault;
mod hash;
mod header;
mod imports;
mod judged;
pub mod laws;
mod member;
mod members;
mod modules;
pub mod needed;
mod publics;
pub mod rows;
mod search;
mod spans;

pub use account::{Region, RegionKind, account_of};
pub use aliases::{AliasPair, alias_pairs};
pub use dictionary::{
    BLOCK, Bucket, Dictionary, Look, block_count, block_of, bucket_of, dictionary_in, folded,
    is_same_name,
};
pub use fault::LibraryFault;
pub use hash::{BUCKETS, Probe, probe_of};
pub use header::{Header, read_header};
pub use imports::imported;
pub use judged::{LibraryMember, RefusedMember, library_members};
pub use member::Member;
pub use members::{LIBRARY_END, members_in, next_page};
pub use modules::modules_in;
pub use needed::needed_members;
pub use search::{
    CREDIT, Ended, FIRST_CREDIT, LOOK, Rule, Sought, credit_of, hash_cost, looks_cost,
};
pub use spans::{Span, SpanFault, Spans, spans_in};
