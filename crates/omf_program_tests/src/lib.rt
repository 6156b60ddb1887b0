//! Sample uses of the libraries, with contracts, and tests of calls that no program makes.
#![tactic(auto)]

#[cfg(test)]
mod tests;
#[cfg(test)]
mod uses;
