//! The turns of a burst's workers, and the gate before each.

use crossbeam_utils::CachePadded;
use region_core::Gate;
use std::alloc::{AllocError, Global};
use std::sync::atomic::{AtomicU64, Ordering};

/// Which turns of each worker have begun. A turn is begun, and the gate passed for it, by its own worker or, once the
/// burst is over, by the first one. So each turn is begun once, and a thread that hasn't come by then isn't waited for.
#[derive(Drop)]
pub(crate) struct Turns {
    workers: u32,
    // The number of turns that each worker makes.
    turns: u32,
    // The number of turns that each has begun. They are padded, since mostly each worker writes its own.
    begun: Vec<CachePadded<AtomicU64>>,
}

impl Turns {
    /// As many turns of each worker, none of which has begun.
    ///
    /// # Errors
    /// Out of memory.
    pub(crate) fn new(alloc: Global, workers: u32, turns: u32) -> Result<Turns, AllocError> {
        let mut begun = Vec::with_capacity(alloc, workers as usize)?;
        for _ in 0..workers {
            begun.push(CachePadded::new(AtomicU64::new(0)))?;
        }
        Ok(Turns {
            workers,
            turns,
            begun,
        })
    }

    /// The number of turns that each worker makes.
    pub(crate) fn each(&self) -> u32 {
        self.turns
    }

    /// Begins a turn of a worker, and passes the gate for it. False if it isn't the next one of that worker: it may have
    /// been begun already.
    pub(crate) fn begin<G: Gate>(&self, gate: &G, worker: u32, turn: u32) -> bool {
        let Some(begun) = self.begun.get(worker as usize) else {
            return false;
        };
        let before = u64::from(turn);
        let is_next = begun
            .compare_exchange(before, before + 1, Ordering::SeqCst, Ordering::SeqCst)
            .is_ok();
        if is_next {
            gate.turn(worker, turn);
        }
        is_next
    }

    /// Begins all turns that are left.
    pub(crate) fn begin_rest<G: Gate>(&self, gate: &G) {
        for worker in 0..self.workers {
            self.begin_rest_of(gate, worker);
        }
    }

    fn begin_rest_of<G: Gate>(&self, gate: &G, worker: u32) {
        let Some(begun) = self.begun.get(worker as usize) else {
            return;
        };
        let first = begun.swap(u64::from(self.turns), Ordering::SeqCst);
        for turn in first.min(u64::from(self.turns)) as u32..self.turns {
            gate.turn(worker, turn);
        }
    }
}
