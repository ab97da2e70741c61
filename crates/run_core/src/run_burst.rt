//! Bursts that may be of one run.

ghost use Rattle.std.specs.Prelude.{◌≡◌, ◌≤◌, ◌+◌, ℕ, length, Option, None, IfOk, IsTrue};
ghost use Rattle.cell_sequence.specs.State.{CellStateData};
ghost use Rattle.local_run.specs.Bursts.{AreTogether};
ghost use Rattle.local_run.specs.RunOn.{AreRunOn};
ghost use Rattle.run_floors.specs.Regions.{StandIfOf};

use region_core::{Beside, Burst, Region};
use std::alloc::{AllocError, Global};
use std::thread::Threads;

/// A burst that may be of one run: it takes regions only if they stand on a state of that run. So what outlasts a burst,
/// as threads and locks that are made once for the run, knows of which run the regions are.
pub trait RunBurst<S: Beside<W>, W> {
    /// The state with which the run begins whose regions alone it takes. If there is none, it takes the regions of any
    /// run.
    ghost of: { Self → Option CellStateData };

    /// Whether it gives back the very regions that it was given. It need not do that.
    ghost keeping: { Self → Type 0 };

    /// In how many bursts it has worked, if it counts them.
    ghost bursts: { Self → ℕ } = { λ _. 0 };

    /// Whether it is known to give back the very regions that it was given, each at its place and none spent.
    fn keeps(&self) -> bool
        ensures { IsTrue result → keeping self.now };

    /// How many threads it has, the caller's counted. The regions of a run are opened in as many.
    fn threads(&self) -> u32;

    /// Works on the regions of a grid, as a [`Burst`] does.
    ///
    /// # Errors
    /// Out of memory.
    fn burst<R: Threads + Sync>(
        &mut self,
        rt: &R,
        alloc: Global,
        regions: Vec<Region>,
        beside: &mut S,
        lent: &mut W,
    ) -> Result<Vec<Region>, AllocError>
        requires together { AreTogether regions.items }
        requires stand { StandIfOf (of self.old) regions.items }
        requires fits { S.fits beside.old lent.old }
        ensures of { of self.new ≡ of self.old }
        ensures counted { bursts self.new ≤ bursts self.old + 1 }
        ensures count { IfOk result (λ worked. length worked.items ≡ length regions.items) }
        ensures kept { IfOk result (λ worked. keeping self.old → AreRunOn regions.items worked.items) }
        ensures beside { S.goes beside.old lent.old beside.new lent.new };
}

/// Any burst, which takes the regions of any run.
#[derive(Drop)]
pub struct AnyRun<'b, B> {
    /// The burst.
    pub burst: &'b mut B,
    /// How many threads it has, the caller's counted.
    pub threads: u32,
}

impl<S: Beside<W>, W, B: Burst<S, W>> RunBurst<S, W> for AnyRun<'_, B> {
    ghost of = { λ _. None };

    ghost keeping = { λ any. B.keeping any.burst.now };

    fn keeps(&self) -> bool {
        self.burst.keeps()
    }

    fn threads(&self) -> u32 {
        self.threads
    }

    fn burst<R: Threads + Sync>(
        &mut self,
        rt: &R,
        alloc: Global,
        regions: Vec<Region>,
        beside: &mut S,
        lent: &mut W,
    ) -> Result<Vec<Region>, AllocError> {
        self.burst.burst(rt, alloc, regions, beside, lent)
    }
}
