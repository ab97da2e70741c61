//! Bursts that a caller brings, by which a scene can be run.

ghost use Rattle.cell_grid.specs.Grid.{IsAsked};

use region_core::{Beside, Burst, Idle, Region};
use std::alloc::{AllocError, Global};
use std::thread::Threads;

/// A burst with nothing to do beside, and the number of regions on which it is to work.
#[derive(Drop)]
pub struct OverBurst<'b, B> {
    /// The number of regions, 1 to [`MAX_REGIONS`](cell_grid::MAX_REGIONS).
    pub regions: u32,
    /// The burst.
    pub burst: &'b mut B,
    pub ghost asked: { IsAsked regions },
}

// A run hands each burst what is to be told beside it. The caller's burst is spared that, since the caller needn't know
// the listener: what isn't told beside a burst is told after it.
impl<S: Beside<W>, W, B: Burst<Idle, ()>> Burst<S, W> for OverBurst<'_, B> {
    ghost keeping = { λ over. B.keeping over.burst.now };

    fn keeps(&self) -> bool {
        self.burst.keeps()
    }

    fn burst<R: Threads + Sync>(
        &mut self,
        rt: &R,
        alloc: Global,
        regions: Vec<Region>,
        _beside: &mut S,
        _lent: &mut W,
    ) -> Result<Vec<Region>, AllocError> {
        self.burst.burst(rt, alloc, regions, &mut Idle, &mut ())
    }
}

/// Stands for a caller's burst if there is none. It does nothing.
#[derive(Drop)]
pub struct NoBurst;

impl Burst<Idle, ()> for NoBurst {
    fn burst<R: Threads + Sync>(
        &mut self,
        _rt: &R,
        _alloc: Global,
        regions: Vec<Region>,
        _beside: &mut Idle,
        _lent: &mut (),
    ) -> Result<Vec<Region>, AllocError> {
        Ok(regions)
    }
}
