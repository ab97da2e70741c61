//! A burst that is counted.

ghost use Rattle.std.specs.Prelude.{◌≡◌, ◌≤◌, ◌+◌, ◌-◌, ◌^◌, min, length, IfOk};
ghost use Rattle.local_run.specs.Bursts.{AreTogether};
ghost use Rattle.local_run.specs.RunOn.{AreRunOn};
ghost use Rattle.run_floors.specs.Regions.{StandIfOf};

use crate::run_burst::RunBurst;
use region_core::{Beside, Region};
use std::alloc::{AllocError, Global};
use std::thread::Threads;

/// A burst that counts in how many it has worked. The count stops at 2^64 - 1.
#[derive(Drop)]
pub struct Counted<'b, B> {
    /// The burst.
    pub burst: &'b mut B,
    /// In how many it has worked.
    pub count: u64,
}

impl<S: Beside<W>, W, B: RunBurst<S, W>> RunBurst<S, W> for Counted<'_, B> {
    ghost of = { λ counted. B.of counted.burst.now };

    ghost keeping = { λ counted. B.keeping counted.burst.now };

    ghost bursts = { λ counted. counted.count };

    fn keeps(&self) -> bool {
        self.burst.keeps()
    }

    fn threads(&self) -> u32 {
        self.burst.threads()
    }

    fn burst<R: Threads + Sync>(
        &mut self,
        rt: &R,
        alloc: Global,
        regions: Vec<Region>,
        beside: &mut S,
        lent: &mut W,
    ) -> Result<Vec<Region>, AllocError>
        requires together { AreTogether regions.items }
        requires stand { StandIfOf (B.of self.old.burst.now) regions.items }
        requires fits { S.fits beside.old lent.old }
        ensures of { B.of self.new.burst.now ≡ B.of self.old.burst.now }
        ensures counted { self.new.count ≤ self.old.count + 1 }
        ensures exact { self.new.count ≡ min (self.old.count + 1) (2 ^ 64 - 1) }
        ensures count { IfOk result (λ worked. length worked.items ≡ length regions.items) }
        ensures kept { IfOk result (λ worked. B.keeping self.old.burst.now → AreRunOn regions.items worked.items) }
        ensures beside { S.goes beside.old lent.old beside.new lent.new }
    {
        self.count = self.count.saturating_add(1);
        self.burst.burst(rt, alloc, regions, beside, lent)
    }
}
