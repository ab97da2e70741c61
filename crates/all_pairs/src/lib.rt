//! The reference engine: looks at all pairs of disks for each event, as the definition of a run
//! does.
#![tactic(auto)]

mod search;
mod simulate;

pub use simulate::simulate_plain;
