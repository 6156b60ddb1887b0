//! Tests of calls of the libraries that no program makes.
#![tactic(auto)]

#[cfg(test)]
mod tests;
