//! Tests of what keeps workers apart and together: the locks of regions, the table of regions, and the pace of a burst.
//!
//! There is nothing here but tests. They are in a crate of their own, so that the crates that they call are proved
//! once, and without them.
#![tactic(auto)]

#[cfg(test)]
mod tests;
