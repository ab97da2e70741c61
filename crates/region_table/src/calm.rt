//! When no region of a table has anything left to do.

ghost use Rattle.std.specs.Prelude.{◌<◌};

use std::sync::atomic::{AtomicU64, Ordering};

/// Counts the changes that the workers of a burst make in regions.
#[derive(Drop)]
pub(crate) struct Changes {
    count: AtomicU64,
}

impl Changes {
    /// None so far.
    pub(crate) fn new() -> Changes {
        Changes {
            count: AtomicU64::new(0),
        }
    }

    /// Counts a change, if it is one, of a region that is out: so the worker that takes it next finds it counted.
    pub(crate) fn note(&self, is_change: bool) {
        if is_change {
            self.count.fetch_add(1, Ordering::SeqCst);
        }
    }

    fn count(&self) -> u64 {
        self.count.load(Ordering::SeqCst)
    }
}

/// The result of a visit to a region.
#[derive(Clone, Copy)]
pub(crate) struct Visit {
    /// Whether both the region and all that it hears were at home.
    pub is_whole: bool,
    /// The number of steps that it made.
    pub steps: u32,
}

/// The regions that one worker found calm, in rounds that began after the last change by any worker: they made no step,
/// and heard nothing new from any linked region. If all are calm, nothing would ever change.
#[derive(Drop)]
pub(crate) struct Calm<'c> {
    changes: &'c Changes,
    // How many changes there were when the present round began.
    count: u64,
    // A bit for each region that was found calm; there are 64 regions at most.
    regions: u64,
    // The most steps that a region made in the round.
    steps: u32,
}

impl<'c> Calm<'c> {
    /// None so far.
    pub(crate) fn new(changes: &'c Changes) -> Calm<'c> {
        Calm {
            changes,
            count: changes.count(),
            regions: 0,
            steps: 0,
        }
    }

    /// Begins a round. Its bound is to be taken after that.
    pub(crate) fn begin(&mut self) {
        let count = self.changes.count();
        if count != self.count {
            self.count = count;
            self.regions = 0;
        }
        self.steps = 0;
    }

    /// Notes a visit to a region.
    pub(crate) fn note(&mut self, region: u32, visit: Visit) {
        if visit.is_whole {
            self.regions |= 1 << (region % 64);
        }
        self.steps = self.steps.max(visit.steps);
    }

    /// How many steps the round counts as: the most that a region made, or one if none made any. So a worker that finds
    /// all away isn't soon done with its turns.
    pub(crate) fn steps(&self) -> u32
        ensures { 0 < result }
    {
        self.steps.max(1)
    }

    /// Whether all regions are calm, by how many there are.
    pub(crate) fn is_of_all(&self, regions: u32) -> bool {
        self.regions.count_ones() >= regions && self.changes.count() == self.count
    }
}
