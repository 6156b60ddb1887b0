//! Names as texts show them, in double quotes with what is not printed escaped; and hexadecimal numbers as a person types them.
//!
//! ```
//! print_quoted(&mut text, b"a\"b")?;
//! assert_eq!(text.as_str(), r#""a\x22b""#);
//! ```
#![tactic(auto)]

mod name;
mod numeral;

pub use name::{print_name, print_quoted};
pub use numeral::{before_letter, digits_of, marked};
