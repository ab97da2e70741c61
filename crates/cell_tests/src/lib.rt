//! Tests of the layers up to that of cells, on tables that were worked out by hand and on disks that are generated: ports
//! to the outside, contacts, impulses, the order of events and their effects, sums over them, grids and lists, the cell
//! run, and what regions see, are told, and do next.
//!
//! There is nothing here but tests. They are in a crate of their own, so that after a change in the crates that they
//! call, these are proved without them.
#![tactic(auto)]

#[cfg(test)]
mod tests;
