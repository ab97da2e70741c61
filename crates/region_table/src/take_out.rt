//! The answers of a table that is asked for a region.

use region_core::Region;

/// The answer when a region is to be taken out.
#[derive(Drop)]
pub enum TakeOut {
    /// The region, which is now out with the seat.
    Out(Region),
    /// It is out with some seat.
    Away,
    /// It was put back as often as can be counted, and stays where it is.
    Worn,
}
