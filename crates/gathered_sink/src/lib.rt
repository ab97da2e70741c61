//! A sink that puts pieces together before it gives them to another.
#![tactic(auto)]

mod gathered;

pub use gathered::GatheringSink;
