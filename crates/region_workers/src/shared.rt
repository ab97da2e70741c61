//! What the workers of a burst share.

ghost use Rattle.std.specs.Prelude.{◌≡◌, ◌<◌, length, IfOk};
ghost use Rattle.region_locks.specs.Holding.{AllTaken};

use crate::job::Job;
use crate::pace::Pace;
use crate::rendezvous::Rendezvous;
use crate::schedule::Schedule;
use crate::turns::Turns;
use event_stamps::Stamp;
use region_core::{Beside, Gate, Idle, Region};
use region_locks::{Locks, Origin};
use std::alloc::{AllocError, Global};

/// What the workers of a burst share. A worker that comes once the burst is over finds nothing to do.
#[derive(Drop)]
pub(crate) struct Shared<O: Origin> {
    pub alloc: Global,
    pub locks: Locks<O>,
    pub turns: Turns,
    pub pace: Pace,
    pub schedule: Schedule,
    pub rendezvous: Rendezvous,
    /// The number of workers, 1 at least.
    pub workers: u32,
    ghost some_workers: { 0 < workers },
}

impl<O: Origin> Shared<O> {
    /// Makes the turns of the first worker, which goes on with what is beside when it would wait, and those that nobody
    /// has begun by then, and takes the regions back, run on from this floor.
    ///
    /// # Errors
    /// Out of memory: a region is spent; or a worker doesn't let one go.
    pub(crate) fn work_to_the_end<G: Gate, S: Beside<W>, W>(
        &self,
        gate: &G,
        floor: Stamp,
        beside: &mut S,
        lent: &mut W,
    ) -> Result<Vec<Region>, AllocError>
        requires { S.fits beside.old lent.old }
        ensures count { IfOk result (λ worked. length worked.items ≡ self.now.locks) }
        ensures kept { IfOk result (λ worked. AllTaken O.opening floor worked.items) }
        ensures beside { S.goes beside.old lent.old beside.new lent.new }
    {
        let made = self.work(gate, 0, beside, lent);
        self.turns.begin_rest(gate);
        made?;
        self.locks.take_back(self.alloc, floor)
    }

    /// Makes the turns of a helper, which has nothing beside. If it runs out of memory, a region is spent, which is seen
    /// when it is taken back.
    pub(crate) fn work_apart<G: Gate>(&self, gate: &G, worker: u32) {
        let _made = self.work(gate, worker, &mut Idle, &mut ());
    }

    /// Makes the turns of a worker, which goes on with what is beside when it would wait.
    ///
    /// # Errors
    /// Out of memory: a region is spent.
    fn work<G: Gate, S: Beside<W>, W>(
        &self,
        gate: &G,
        worker: u32,
        beside: &mut S,
        lent: &mut W,
    ) -> Result<(), AllocError>
        requires { S.fits beside.old lent.old }
        ensures { S.goes beside.old lent.old beside.new lent.new }
    {
        let job = Job {
            shared: self,
            gate,
            worker,
            aside: beside.left() as u64,
        };
        job.run(beside, lent)
    }
}
