//! How far regions under locks run before they hear each other.
//!
//! What a region runs on old news is done again or put right later, so no region should run far ahead of the last one.
//! But at the end of each slice workers that are done look and rest until all regions have run it, or until they have
//! done so as often as they may. So in a slice all regions run to the same bound. It lies a lead ([`crate::marks`]), that
//! of the slowest region, beyond the earliest stamp still due anywhere. It counts from what is due and not from what was
//! done last, since a region without events would hold up all others.
//!
//! Nothing is claimed of it: the locks keep the regions right, however far they run.

ghost use Rattle.std.specs.Prelude.{◌<◌, ◌≤◌};

use crate::marks::{Growth, LEAST_STEPS, Marks, UNKNOWN};
use event_stamps::Stamp;
use region_core::Region;
use region_locks::RegionProgress;
use std::alloc::{AllocError, Global};

// A region without steps mustn't hold up the others for long.
const GROWTH: Growth = Growth {
    idle: 2,
    most: None,
};

/// How far the regions of a burst came in the last slices, and how far they run next.
#[derive(Drop)]
pub struct Pace {
    marks: Marks,
}

/// How far a region runs in a slice.
#[derive(Clone, Copy)]
pub struct Slice {
    /// The greatest number of steps, at least 1.
    pub steps: u32,
    /// What is due has to be before this, in parts of a tick.
    pub bound: u64,
}

impl Pace {
    /// Of these regions.
    ///
    /// # Errors
    /// Out of memory.
    pub fn new(alloc: Global, regions: &[Region]) -> Result<Pace, AllocError> {
        Ok(Pace {
            marks: Marks::open(alloc, regions)?,
        })
    }

    /// Whether there is one region alone.
    pub(crate) fn is_alone(&self) -> bool {
        self.marks.regions() == 1
    }

    /// The next slice, if each region has this many steps left, 1 at least.
    pub fn next_slice(&self, left: u32) -> Slice
        requires { 0 < left }
        ensures some { 0 < result.steps }
        ensures most { result.steps ≤ left }
    {
        let least = self.marks.least();
        if least.lead == UNKNOWN {
            return Slice {
                steps: left.min(LEAST_STEPS),
                bound: u64::MAX,
            };
        }
        let bound = least.due.saturating_add(least.lead);
        Slice {
            steps: left.min(self.marks.steps()),
            bound,
        }
    }

    /// The bound of a slice.
    pub fn bound(&self, slice: &Slice) -> Stamp {
        self.marks.stamp_at(slice.bound)
    }

    /// Takes in how far a region came in a slice.
    pub fn ran(&self, region: u32, progress: &RegionProgress) {
        self.marks.ran(region, progress.began, progress.due, progress.steps, GROWTH);
    }
}
