//! Tests of the program: its words, made scenes, how far a run is shown to be, whole outputs of the top call that were
//! worked out by hand, and the gate of its workers.
//!
//! There is nothing here but tests. They are in a crate of their own, so that the crates that they call are proved
//! once, and without them.
#![tactic(auto)]

#[cfg(test)]
mod tests;
