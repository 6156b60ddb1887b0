//! Symbols for other tools: the names of a program with their addresses, in the form that Ghidra, IDA or radare2 imports, or as nm prints them.
//!
//! ```
//! let symbols = placed_symbols(alloc, &modules, &placements, usual_load(Tool::Ghidra, Kind::Mz))?;
//! let text = symbols_text(alloc, Tool::Ghidra, &symbols)?; // main 0x00010000 f
//! ```
#![tactic(auto)]

mod class;
mod name;
mod placed;
pub mod rows;
mod symbol;
mod text;
mod tool;

pub use class::is_code;
pub use omf_host::{Tool, tool_named};
pub use placed::placed_symbols;
pub use symbol::Symbol;
pub use text::symbols_text;
pub use tool::{Kind, usual_load};
