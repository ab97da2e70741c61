//! What a run is sampled to.

/// What is written of a run in place of a report with all collisions.
#[derive(Clone, Copy, Debug, PartialEq, Eq)]
pub enum Sample {
    /// The report without the lines of collisions.
    States,
    /// Sums over the collisions in the part of the box that is at least this far from its sides, in units of length.
    Sums(u32),
}
