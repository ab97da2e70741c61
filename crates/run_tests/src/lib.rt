//! Tests of runs of whole scenes below the program: runs over regions with all kinds of bursts, and the cell run,
//! compared with the runs of the engine that looks at all pairs.
//!
//! There is nothing here but tests. They are in a crate of their own, so that this crate and the crates that it tests
//! are proved without each other.
#![tactic(auto)]

#[cfg(test)]
mod tests;
