//! How far a region came.

use event_stamps::Stamp;

/// How far a region came when it ran. Nothing is claimed of it.
#[derive(Clone, Copy, Debug)]
pub struct RegionProgress {
    /// Whether it heard anything new before it ran, or left a post for the next slice, since somebody held that.
    pub has_news: bool,
    /// The stamp that was due there when it began to run: see [`Region::due`](region_core::Region::due).
    pub began: Stamp,
    /// How many events it ran and messages it took in.
    pub steps: u32,
    /// The stamp that is due there next.
    pub due: Stamp,
}
