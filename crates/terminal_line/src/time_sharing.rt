//! How workers share the processors with other programs.
//!
//! If more threads want to run than there are processors, the system takes a worker's away every few milliseconds, and
//! mostly while it works on a region: then the other workers, once they have done the rest, look and rest until it is
//! back, or until they have done so as often as they may. Between two slices a worker holds no region, and the others do
//! its work. So it is better to give the processor away there, a little before it would be taken.
//!
//! Nothing is claimed of it: the regions are right whichever worker runs them, and when.

ghost use Rattle.std.specs.Prelude.{◌≤◌};

use crate::moments::micros;
use region_core::Gate;
use region_workers::{MAX_WORKERS, doublings};
use std::alloc::Global;
use std::sync::atomic::{AtomicU64, Ordering};
use std::time::{Clock, Duration};

// A worker that comes more than this many microseconds after it came last was without a processor, or rested until one
// came back that was.
const LATE: u64 = 1_000;

// For this many microseconds after that, a worker takes it that others want the processors.
const CROWDED: u64 = 100_000;

// For how many microseconds a worker keeps a processor then: somewhat less than the system mostly gives at a time.
const STINT: u64 = 3_000;

// How many microseconds a worker sleeps to give its processor away.
const AWAY: u64 = 1;

// How many microseconds one of the first workers sleeps if it has nothing to do.
const REST: u64 = 20;

/// A gate at which a worker gives its processor away for a moment, if others seem to want it and the worker has had it
/// for some milliseconds.
#[derive(Drop)]
pub struct TimeSharing<'r, R> {
    rt: &'r R,
    workers: Vec<Stint>,
}

// What is known of a worker. All times are in microseconds.
#[derive(Drop)]
struct Stint {
    // When it came to the gate last.
    last: AtomicU64,
    // Since when it has had a processor.
    since: AtomicU64,
    // Until when others are taken to want the processors.
    crowded: AtomicU64,
}

impl<'r, R: Clock> TimeSharing<'r, R> {
    /// A gate to which nobody has come. If memory runs out, some workers never give their processors away.
    pub fn new(rt: &'r R, alloc: Global) -> TimeSharing<'r, R> {
        let mut workers = Vec::new(alloc);
        for _ in 0..MAX_WORKERS {
            if workers.push(Stint::new()).is_err() {
                break;
            }
        }
        TimeSharing { rt, workers }
    }
}

impl<'r, R: Clock + Sync> Gate for TimeSharing<'r, R> {
    // Before the first turn of a burst a worker may have waited for the burst: all but the first, who began it, have
    // just woken, so their time with a processor begins anew.
    fn turn(&self, worker: u32, turn: u32) {
        if turn > 0 {
            return;
        }
        if let Some(stint) = self.workers.get(worker as usize) {
            stint.come(micros(self.rt), worker > 0);
        }
    }

    fn pause(&self, worker: u32) {
        let Some(stint) = self.workers.get(worker as usize) else {
            return;
        };
        if stint.is_over(micros(self.rt)) {
            self.rt.sleep(Duration::from_micros(AWAY));
            stint.come(micros(self.rt), true);
        }
    }

    fn rest(&self, worker: u32) {
        self.rt.sleep(Duration::from_micros(rest_micros(worker)));
    }
}

// For how many microseconds a worker sleeps if it has nothing to do.
fn rest_micros(worker: u32) -> u64
    ensures { result ≤ 1280 }
{
    REST << doublings(worker)
}

impl Stint {
    // A worker that has never come.
    fn new() -> Stint {
        Stint {
            last: AtomicU64::new(0),
            since: AtomicU64::new(0),
            crowded: AtomicU64::new(0),
        }
    }

    // Notes that the worker comes at this time. `is_given` says that it has just been given a processor.
    fn come(&self, now: u64, is_given: bool) {
        self.last.store(now, Ordering::SeqCst);
        if is_given {
            self.since.store(now, Ordering::SeqCst);
        }
    }

    // Whether the worker, which comes at this time, is to give its processor away.
    fn is_over(&self, now: u64) -> bool {
        let last = self.last.load(Ordering::SeqCst);
        let is_late = now.saturating_sub(last) > LATE;
        self.come(now, is_late);
        if is_late {
            self.crowded
                .store(now.saturating_add(CROWDED), Ordering::SeqCst);
            return false;
        }
        now < self.crowded.load(Ordering::SeqCst)
            && now.saturating_sub(self.since.load(Ordering::SeqCst)) > STINT
    }
}
