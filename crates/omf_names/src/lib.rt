//! Names as keys of tables.
//!
//! A linker looks for each name in a table of many, and names of a program share their first letters. So a key has a number that is made of all
//! bytes of its name, and two keys are compared by these first. A table of keys is a `BTreeMap`: whatever names a module has, a name is
//! found after a number of comparisons that grows with the logarithm of the table's size.
//!
//! ```
//! let mut table = BTreeMap::new(alloc);
//! table.insert(NameKey::of(b"_printf"), 1)?;
//! let found = table.get(&NameKey::of(name));
//! ```
#![tactic(auto)]

mod key;

pub use key::NameKey;
