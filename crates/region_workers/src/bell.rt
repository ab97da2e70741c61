//! How a run calls its helpers: threads that live as long as it does, and work on one burst after another.

use crate::crowd::doublings;
use crate::letters::Letters;
use crate::shared::Shared;
use region_core::Gate;
use region_locks::{Origin, Pause};
use std::alloc::{AllocError, Global};
use std::sync::Arc;
use std::sync::atomic::{AtomicU64, Ordering};

// Stands for the number of bursts of a run that is over. No run has so many.
const OVER: u64 = u64::MAX;

// How often one of the first helpers looks for the next burst before it rests: for some 200 microseconds.
const LOOKS: u32 = 3_000;

// How often a helper rests or works until it leaves: for months. Then the others do its work.
const ROUNDS: u64 = 1 << 40;

/// Counts the bursts that a run posts, and has a letter for each helper.
#[derive(Drop)]
pub struct Bell<O: Origin> {
    // How many bursts were posted, or `OVER`.
    rung: AtomicU64,
    // A letter is what the workers of a burst share. The first worker, who is no helper, gets none.
    letters: Letters<Arc<Shared<O>, Global>>,
}

impl<O: Origin> Bell<O> {
    /// A bell for this many workers, with nothing posted.
    ///
    /// # Errors
    /// Out of memory.
    pub fn new(alloc: Global, workers: u32) -> Result<Bell<O>, AllocError> {
        Ok(Bell {
            rung: AtomicU64::new(0),
            letters: Letters::new(alloc, workers)?,
        })
    }

    /// For how many workers it is.
    pub(crate) fn workers(&self) -> usize {
        self.letters.workers()
    }

    /// Calls the helpers to a burst. If a letter can't be posted, the others do that helper's work.
    pub(crate) fn post(&self, shared: &Arc<Shared<O>, Global>) {
        for worker in 1..shared.workers {
            self.post_to(worker, shared);
        }
        self.rung.fetch_add(1, Ordering::SeqCst);
    }

    fn post_to(&self, worker: u32, shared: &Arc<Shared<O>, Global>) {
        if let Ok(theirs) = Arc::try_clone(shared) {
            self.letters.put(worker, theirs);
        }
    }

    /// Says that the run is over.
    pub(crate) fn close(&self) {
        self.rung.store(OVER, Ordering::SeqCst);
    }

    /// Works as a helper on what is posted, until the run is over.
    pub(crate) fn serve<G: Gate>(&self, gate: &G, worker: u32) {
        let mut seen = 0;
        let most = LOOKS >> doublings(worker);
        let mut looks = most;
        for _ in 0..ROUNDS {
            let rung = self.look(seen, looks);
            if rung == OVER {
                return;
            }
            if rung == seen {
                gate.rest(worker);
                looks = 1;
            } else {
                self.answer(gate, worker);
                seen = rung;
                looks = most;
            }
        }
    }

    // How many bursts were posted: looks for another number than this one, the given number of times at most.
    fn look(&self, seen: u64, looks: u32) -> u64 {
        let mut pause = Pause::new();
        for _ in 1..looks {
            let rung = self.rung.load(Ordering::SeqCst);
            if rung != seen || !pause.wait() {
                return rung;
            }
        }
        self.rung.load(Ordering::SeqCst)
    }

    // Works on a burst, if its letter is there. If the helper comes late, the burst is over, and nothing is done.
    fn answer<G: Gate>(&self, gate: &G, worker: u32) {
        if let Some(shared) = self.letters.take(worker) {
            shared.work_apart(gate, worker);
        }
    }
}
