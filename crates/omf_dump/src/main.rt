//! `omf-dump`: the records of object modules, also of those in libraries, as a person reads them: every field of every record, as text or as JSON.
//!
//! A record is shown as named fields, the items that it repeats, and bytes (`specs/Fields`); text and JSON are two renderings of these
//! (`specs/Render`). `specs/Contents` has the fields of each record, `specs/Dump` the text of a module, `specs/Refused` that of a refused one,
//! `specs/Library` that of a library and of a whole input. `specs/Listing` has the lists of verdicts (`specs/Verdict`) and of names
//! (`specs/Names`).
#![tactic(auto)]

mod answer;
mod blocks;
mod closing;
mod comment;
mod contents;
mod csv;
mod encoded;
mod entry;
mod facts;
mod fault;
mod faulty;
mod field;
mod file;
mod flags;
mod format;
mod giving;
mod host;
mod item;
mod items;
mod known;
mod later;
mod layout;
mod library;
mod listing;
mod looks;
mod lost;
mod naming;
mod options;
mod output;
mod padding;
mod pairs;
mod part;
mod position;
mod raw;
mod record;
mod reference;
mod refused;
mod row;
mod rows;
mod sort;
mod spot;
mod step;
mod subrecord;
mod value;
mod verdict;
mod walk;
mod words;

use std::process::ExitCode;

fn main(rt: HostRuntime) -> ExitCode {
    host::run(&rt)
}
