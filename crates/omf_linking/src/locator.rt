//! Placements by names: a text places the segments, groups and externals of several modules, and names each of them.
//!
//! ```text
//! M "main.asm"                 ; the lines after it are for this module, up to the next M
//! S "_TEXT" 7C00 0 0           ; a segment: address, base of the frame, selector
//! S "_DATA" "DATA" 7C40 real   ; the segment of this name and class; its real-mode frame
//! S "_CODE" 7C35 shared        ; the frame of the first line for a segment of this name and class
//! S "_VARS" 500 real at FF000  ; it runs at 500H, and its bytes are stored at FF000H
//! G "DGROUP" 7C40 7C4          ; a group: base and selector; `real` for the frame of its lowest member; `shared`
//! X "_printf" FFFF0 F0000 F000 ; an external
//! M #2                         ; the second module of the input
//! S #1 7D00 real               ; its first segment
//! C "CONST" 8000 800 80        ; for all modules: all segments of a class that are not placed yet, from an address on in one frame
//! P "_BSS" "BSS" after real    ; those of a name and a class, after the segments of the nearest such line before; real-mode frames
//! C "DATA" 600 60 6 at after   ; they run at 600H, and are stored after those
//! F "CGROUP" 8000 800          ; the frame of all groups of a name that have none yet
//! ```
//!
//! A key, `"NAME"`, `"NAME" "CLASS"` or `#N`, names exactly one module of the input, or one entry of the module's table; the order of the lines
//! of a module and of the modules is free. A text need not place every entry: `sparse_places` returns what it gives each module, entry by entry.
//!
//! Module `forms` has the keys for a draft of such a text: a name that no other entry has, else a segment's name and class, else `#N`. By the laws of module `laws`
//! each of them names its entry and no other.
mod entry;
mod fault;
pub mod forms;
mod keys;
pub mod laws;
mod lines;
mod parts;
pub mod rows;
mod shares;
mod span;
mod sparse;
mod tables;
mod titles;

pub use entry::{Key, LinkEntry, Parts, Target, Told, link_entry_on};
pub use fault::{LineFault, LocatorFault};
pub use keys::{class_name, entry_count, entry_name, module_name};
pub use lines::sparse_places;
pub use shares::{Shares, shares_of};
pub use span::{Span, Where};
pub use sparse::Sparse;
