//! Gathering the disks that are listed in a block of cells.
//!
//! Whether a cell is empty, and whether a disk has a next one, can't be predicted, and a wrong guess takes longer than
//! some reads. So nothing branches on that: all heads of the block are read, and the processor can wait for many of
//! them at once. A pointer to a disk says whether the disk has a next one, so only the nodes of the disks that have one
//! are read then.

ghost use Rattle.std.specs.Prelude.{◌≡◌, ◌+◌, ◌*◌, ℕ, ◌<◌, ◌≤◌, take, drop, IfSome, IsTrue};
ghost use Rattle.cell_lists.specs.declared.gathered.TheConstants.{MOST_GATHERED};
ghost use Rattle.cell_lists.specs.Chain.{AreCells};
ghost use Rattle.cell_grid.specs.Grid.{IsCell};
ghost use Rattle.cell_lists.specs.Nearby.{IsBlock, IsWithinBlock, IsInLine};
ghost use Rattle.cell_lists.specs.Places.{Holds};
ghost use Rattle.cell_lists.specs.Gathering.{HaveOwnBuckets, AreAllListed, StartsAdded, ArePending, AreFollowed, AreGatheredIn};

use crate::chains::Chains;
use crate::gathered::{Gathered, MOST_GATHERED, SoFar};
use crate::near::Block;
use crate::places::Places;
use cell_grid::Grid;

impl Chains {
    // Gathers the disks that are listed in a block, beside those that were gathered before. False if there is no room
    // for them, or if cells share buckets.
    #[inline(always)]
    pub fn gather(&self, grid: &Grid, block: Block, gathered: &mut Gathered) -> bool
        requires cells { AreCells grid.now self.now.cells }
        requires block { IsBlock grid.now block }
        ensures { IsTrue result → AreGatheredIn self.now.cells (IsWithinBlock grid.now block) gathered.old gathered.new }
    {
        if !self.has_buckets(grid.rows() * grid.columns()) {
            return false;
        }
        let disks = &mut gathered.disks;
        let first = SoFar {
            count: gathered.count,
            pending: Places::none(),
        };
        let Some(heads) = self.gather_heads(grid, block, disks, first) else {
            return false;
        };
        let Some(count) = self.gather_nexts(gathered.count, disks, heads) else {
            return false;
        };
        gathered.count = count;
        true
    }

    // The same for three cells in a line: `first`, and those one step and two steps from it.
    #[inline(always)]
    pub fn gather_line(&self, grid: &Grid, first: u32, step: u32, gathered: &mut Gathered) -> bool
        requires cells { AreCells grid.now self.now.cells }
        requires line { IsCell grid.now (first + 2 * step) }
        ensures { IsTrue result → AreGatheredIn self.now.cells (IsInLine first step) gathered.old gathered.new }
    {
        if !self.has_buckets(grid.rows() * grid.columns()) {
            return false;
        }
        if gathered.count > MOST_GATHERED - 3 {
            return false;
        }
        let disks = &mut gathered.disks;
        let before = SoFar {
            count: gathered.count,
            pending: Places::none(),
        };
        let heads = self.gather_heads_in_line(first, step, disks, before);
        let Some(count) = self.gather_nexts(gathered.count, disks, heads) else {
            return false;
        };
        gathered.count = count;
        true
    }

    // Gathers the least disk of each of these three cells behind those of `before`, as `gather_heads` does.
    #[inline(always)]
    fn gather_heads_in_line(
        &self,
        first: u32,
        step: u32,
        disks: &mut [u32; MOST_GATHERED],
        before: SoFar,
    ) -> SoFar
        requires own { HaveOwnBuckets self.now }
        requires buckets { first + 2 * step < self.now.buckets }
        requires room { before.count + 3 ≤ MOST_GATHERED }
        requires none { (p : ℕ) → ¬ Holds before.pending p }
        ensures room { result.count ≤ MOST_GATHERED }
        ensures more { before.count ≤ result.count }
        ensures added { StartsAdded self.now.cells (IsInLine first step) (take before.count disks.old)
            (take result.count disks.new) }
        ensures pending { ArePending self.now.cells before.count (take result.count disks.new) result.pending }
    {
        let start = first as usize;
        let step = step as usize;
        let one = self.offer_head(start, disks, before);
        let two = self.offer_head(start + step, disks, one);
        self.offer_head(start + 2 * step, disks, two)
    }

    // Gathers the least disk of each cell of a block behind those of `first`. The answer says how many there are then,
    // and which of these have a next one. None if there is no room for them.
    #[inline(always)]
    fn gather_heads(
        &self,
        grid: &Grid,
        block: Block,
        disks: &mut [u32; MOST_GATHERED],
        first: SoFar,
    ) -> Option<SoFar>
        requires own { HaveOwnBuckets self.now }
        requires buckets { grid.now.rows * grid.now.columns ≤ self.now.buckets }
        requires block { IsBlock grid.now block }
        requires room { first.count ≤ MOST_GATHERED }
        requires none { (p : ℕ) → ¬ Holds first.pending p }
        ensures room { IfSome result (λ r. r.count ≤ MOST_GATHERED) }
        ensures more { IfSome result (λ r. first.count ≤ r.count) }
        ensures added { IfSome result (λ r. StartsAdded self.now.cells (IsWithinBlock grid.now block)
            (take first.count disks.old) (take r.count disks.new)) }
        ensures pending { IfSome result (λ r. ArePending self.now.cells first.count (take r.count disks.new) r.pending) }
    {
        let columns = grid.columns();
        let mut so_far = first;
        for row in block.low..block.high {
            let start = row * columns;
            so_far = self.gather_heads_of(start + block.left, start + block.right, disks, so_far)?;
        }
        Some(so_far)
    }

    // The same for the cells from the number `first` on, below `end`.
    #[inline(always)]
    fn gather_heads_of(
        &self,
        first: u32,
        end: u32,
        disks: &mut [u32; MOST_GATHERED],
        before: SoFar,
    ) -> Option<SoFar>
        requires own { HaveOwnBuckets self.now }
        requires order { first ≤ end }
        requires buckets { end ≤ self.now.buckets }
        requires room { before.count ≤ MOST_GATHERED }
        ensures room { IfSome result (λ r. r.count ≤ MOST_GATHERED) }
        ensures more { IfSome result (λ r. before.count ≤ r.count) }
        ensures added { IfSome result (λ r. StartsAdded self.now.cells (λ cell. (first ≤ cell) × (cell < end))
            (take before.count disks.old) (take r.count disks.new)) }
        ensures pending { IfSome result (λ r. (start : ℕ) → start ≤ before.count →
            ArePending self.now.cells start (take before.count disks.old) before.pending →
            ArePending self.now.cells start (take r.count disks.new) r.pending) }
    {
        // One test for all of them, rather than one for each.
        if (end - first) as usize > MOST_GATHERED - before.count {
            return None;
        }
        let mut so_far = before;
        for cell in first..end {
            so_far = self.offer_head(cell as usize, disks, so_far);
        }
        Some(so_far)
    }

    // The same for one cell, without the test.
    #[inline(always)]
    fn offer_head(&self, cell: usize, disks: &mut [u32; MOST_GATHERED], before: SoFar) -> SoFar
        requires own { HaveOwnBuckets self.now }
        requires bucket { cell < self.now.buckets }
        requires room { before.count < MOST_GATHERED }
        ensures room { result.count ≤ MOST_GATHERED }
        ensures more { before.count ≤ result.count }
        ensures one { result.count ≤ before.count + 1 }
        ensures added { StartsAdded self.now.cells (λ n. n ≡ cell) (take before.count disks.old)
            (take result.count disks.new) }
        ensures pending { (start : ℕ) → start ≤ before.count →
            ArePending self.now.cells start (take before.count disks.old) before.pending →
            ArePending self.now.cells start (take result.count disks.new) result.pending }
    {
        let heads = self.heads();
        before.offer(disks, heads[cell])
    }

    // Gathers the next disk after each pending one, then the next after those, until none is pending. None if there is
    // no room for them.
    #[inline(always)]
    fn gather_nexts(
        &self,
        first: usize,
        disks: &mut [u32; MOST_GATHERED],
        heads: SoFar,
    ) -> Option<usize>
        requires own { HaveOwnBuckets self.now }
        requires first { first ≤ heads.count }
        requires room { heads.count ≤ MOST_GATHERED }
        requires listed { AreAllListed self.now.cells (drop first (take heads.count disks.old)) }
        requires pending { ArePending self.now.cells first (take heads.count disks.old) heads.pending }
        ensures room { IfSome result (λ n. n ≤ MOST_GATHERED) }
        ensures followed { IfSome result (λ n. AreFollowed self.now.cells first (take heads.count disks.old)
            (take n disks.new)) }
    {
        let nodes = self.nodes();
        let mut so_far = heads;
        while let Some(place) = so_far.pending.first() {
            if so_far.count >= MOST_GATHERED {
                return None;
            }
            let next = nodes[disks[place] as usize].next;
            so_far.pending = so_far.pending.without(place);
            so_far = so_far.offer(disks, next);
        }
        Some(so_far.count)
    }
}
