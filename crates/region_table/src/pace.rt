//! How far the regions of a table run before they hear each other.
//!
//! What a region runs on old news is done again or put right later, and no worker waits for another within a slice. So all
//! regions run to the same bound in it. For each region take what is due there and add its lead, the virtual time that its
//! recent slices covered; the bound is the least of these sums. A region without events bounds nobody, since what is due
//! there is far.
//!
//! Nothing is claimed of it: the table keeps the regions right, however far they run.

ghost use Rattle.std.specs.Prelude.{◌<◌};

use event_stamps::Stamp;
use region_core::Region;
use region_workers::marks::{Growth, LEAST_STEPS, Marks, UNKNOWN};
use std::alloc::{AllocError, Global};

// What a slice covered counts as at most this many leads: a region that ran out of events tells of no rate.
const MOST_GROWTH: u64 = 4;

// A region without steps tells of no rate either.
const GROWTH: Growth = Growth {
    idle: 1,
    most: Some(MOST_GROWTH),
};

/// How far the regions of a burst came, and how far they run next.
#[derive(Drop)]
pub(crate) struct TablePace {
    marks: Marks,
}

/// How far a region runs in a slice.
#[derive(Drop)]
pub(crate) struct TableSlice {
    /// The greatest number of steps, at least 1.
    pub steps: u32,
    /// What is due has to be before this.
    pub bound: Stamp,
    ghost some_steps: { 0 < steps },
}

impl TablePace {
    /// The pace of these regions.
    ///
    /// # Errors
    /// Out of memory.
    pub(crate) fn new(alloc: Global, regions: &[Region]) -> Result<TablePace, AllocError> {
        Ok(TablePace {
            marks: Marks::open(alloc, regions)?,
        })
    }

    /// The next slice, if this many steps are left, 1 at least.
    pub(crate) fn next_slice(&self, left: u32) -> TableSlice
        requires { 0 < left }
    {
        let bound = self.marks.least_reach();
        let most = if bound == UNKNOWN {
            LEAST_STEPS
        } else {
            self.marks.steps()
        };
        TableSlice {
            steps: left.min(most),
            bound: self.marks.stamp_at(bound),
        }
    }

    /// Takes in what is due in a region, which is out, after it heard another.
    pub(crate) fn heard(&self, region: u32, due: Stamp) {
        self.marks.heard(region, due);
    }

    /// Takes in how far a region, which is out, came by its steps.
    pub(crate) fn ran(&self, region: u32, began: Stamp, due: Stamp, steps: u32) {
        self.marks.ran(region, began, due, steps, GROWTH);
    }
}
