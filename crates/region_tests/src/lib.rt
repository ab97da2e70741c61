//! Tests of regions: single ones, on scripts that were worked out by hand, and those of a grid together, up to the commit
//! horizon, commits, and the taking over of regions of other scenes.
//!
//! There is nothing here but tests. They are in a crate of their own, so that this crate and the crates that it tests
//! are proved without each other.
#![tactic(auto)]

#[cfg(test)]
mod tests;
