//! Modules that a linker writes itself and links with those that it is given.

mod claims;
mod communals;
mod dgroup;
mod ends;
mod fault;
mod homes;
pub mod laws;
mod order;
pub mod records;
pub mod rows;
mod slots;
mod stack;

pub use communals::communals_module;
pub use fault::{CommunalReason, CommunalsFault};
pub use homes::{Home, com_home, exe_home};
pub use order::{OrderFault, ask_dos_order, order_module};
pub use stack::stack_module;
