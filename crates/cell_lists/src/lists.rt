//! Lists of the disks in each cell.

use crate::chains::Chains;
use crate::gathered::Gathered;
use crate::near::{Block, block_around};
use cell_grid::Grid;
use std::alloc::{AllocError, Global};
use std::marker::Model;

/// Which disks are listed in which cells of a grid.
///
/// A disk is listed in one cell at most. Memory is taken for as many disks as the greatest number that was ever listed,
/// or for up to twice as many: 8 bytes for each of these disks, and 4 for each cell of the grid, but for no more cells
/// than four times these disks, and for no fewer than these disks.
#[derive(Drop)]
pub struct Lists {
    grid: Grid,
    chains: Chains,
}

impl Model for Lists {
    ghost use Rattle.cell_lists.specs.Listing.{ListsData, lists_of, lists_code};
    ghost use Rattle.cell_lists.specs.Chain.{cells_in, AreCells};

    ghost Value = { ListsData };

    ghost coded = { lists_code };

    ghost view = { λ a. lists_of a.grid (cells_in a.chains.cells) };

    ghost invariant = { λ a. AreCells a.grid a.chains.cells };
}

ghost use Rattle.std.specs.Prelude.{◌≡◌, ◌+◌, ◌*◌, ◌<◌, ◌≤◌, OnOk, OnErr, IfOk, IfSome, IsTrue};
ghost use Rattle.std.specs.FinMap as map;
ghost use Rattle.cell_grid.specs.Grid.{IsCell};
ghost use Rattle.cell_lists.specs.Firsts.{IsFirstOf, AreAllFrom, lesser_of};
ghost use Rattle.cell_lists.specs.Nearby.{IsBlock, IsListedWithin, IsListedNear, AreGathered, AreGatheredInLine, columns_to};
ghost use Rattle.cell_lists.specs.Listing.{lists_of, IsListed, IsUnlisted, IsFirstIn, AreInGrid, with_disk, without_disk};

impl Lists {
    /// No disk listed in any cell of the grid.
    ///
    /// # Errors
    /// Out of memory.
    pub fn new(alloc: Global, grid: &Grid) -> Result<Lists, AllocError>
        ensures { IfOk result (λ lists. lists ≡ lists_of grid.now map.empty) }
    {
        Ok(Lists {
            grid: *grid,
            chains: Chains::new(alloc, grid.columns() * grid.rows(), 1)?,
        })
    }

    /// Lists a disk, which isn't listed yet, in a cell of the grid.
    ///
    /// # Errors
    /// Out of memory: the number is greater than all that were listed before, and there is no room for
    /// it, as there never is from 2^31 - 1 on. The lists stay as they are.
    pub fn put(&mut self, alloc: Global, disk: u32, cell: u32) -> Result<(), AllocError>
        requires free { IsUnlisted self.old disk }
        requires cell { IsCell self.old.grid cell }
        ensures listed { OnOk result (self.new ≡ with_disk self.old disk cell) }
        ensures unchanged { OnErr result (self.new ≡ self.old) }
    {
        self.chains.make_room(alloc, disk)?;
        self.chains.put(disk, cell);
        Ok(())
    }

    /// Takes a disk off the cell in which it is listed.
    pub fn take(&mut self, disk: u32, cell: u32)
        requires { IsListed self.old cell disk }
        ensures { self.new ≡ without_disk self.old disk }
    {
        self.chains.take(disk, cell);
    }

    /// The cell in which a disk is listed; none if it isn't listed.
    pub fn cell_of(&self, disk: u32) -> Option<u32>
        ensures value { result ≡ map.get self.now.cells disk }
        ensures cell { IfSome result (IsCell self.now.grid) }
        ensures kept { AreInGrid self.now }
    {
        self.chains.cell_of(disk)
    }

    /// The least disk that is listed in a cell.
    pub fn first_in(&self, cell: u32) -> Option<u32>
        ensures { IsFirstIn self.now cell 0 result }
    {
        self.chains.first_in(cell)
    }

    /// The least disk that is listed in a cell and greater than one of this cell.
    pub fn next_in(&self, disk: u32, cell: u32) -> Option<u32>
        requires { IsListed self.now cell disk }
        ensures { IsFirstIn self.now cell (disk + 1) result }
    {
        self.chains.next_in(disk, cell)
    }

    /// The disks that are listed in a cell of the grid and in those adjacent to it, ascending.
    ///
    /// # Errors
    /// Out of memory.
    pub fn near(&self, alloc: Global, cell: u32) -> Result<Vec<u32>, AllocError>
        requires { IsCell self.now.grid cell }
        ensures { IfOk result (λ disks. AreAllFrom (IsListedNear self.now cell) 0 disks.items) }
    {
        let block = block_around(&self.grid, cell);
        let mut disks = Vec::new(alloc);
        let mut next = self.first_within(block, 0);
        while let Some(disk) = next {
            disks.push(disk)?;
            next = self.first_within(block, u64::from(disk) + 1);
        }
        Ok(disks)
    }

    // The least disk from a number on that is listed in a block.
    fn first_within(&self, block: Block, from: u64) -> Option<u32>
        requires { IsBlock self.now.grid block }
        ensures { IsFirstOf (IsListedWithin self.now block) from result }
    {
        let mut first = None;
        for row in block.low..block.high {
            first = lesser(first, self.first_in_row(block, row, from));
        }
        first
    }

    // The same for one row of the block.
    fn first_in_row(&self, block: Block, row: u32, from: u64) -> Option<u32>
        requires block { IsBlock self.now.grid block }
        requires low { block.low ≤ row }
        requires high { row < block.high }
        ensures { IsFirstOf (IsListedWithin self.now (columns_to block row block.right)) from result }
    {
        let start = row * self.grid.columns();
        let mut first = None;
        for column in block.left..block.right {
            first = lesser(first, self.first_from(start + column, from));
        }
        first
    }

    // The same for one cell.
    fn first_from(&self, cell: u32, from: u64) -> Option<u32>
        ensures { IsFirstIn self.now cell from result }
    {
        let mut next = self.first_in(cell);
        while let Some(disk) = next {
            if u64::from(disk) >= from {
                break;
            }
            next = self.next_in(disk, cell);
        }
        next
    }

    /// Gathers the disks that are listed in a block, beside those that were gathered before. False if there is no room
    /// for them, or if cells share buckets; then nothing is said of what is gathered.
    #[inline(always)]
    pub fn gather(&self, block: Block, gathered: &mut Gathered) -> bool
        requires { IsBlock self.now.grid block }
        ensures { IsTrue result → AreGathered self.now block gathered.old gathered.new }
    {
        self.chains.gather(&self.grid, block, gathered)
    }

    /// The same for three cells in a line: `first`, and those one step and two steps from it.
    #[inline(always)]
    pub fn gather_line(&self, first: u32, step: u32, gathered: &mut Gathered) -> bool
        requires { IsCell self.now.grid (first + 2 * step) }
        ensures { IsTrue result → AreGatheredInLine self.now first step gathered.old gathered.new }
    {
        self.chains.gather_line(&self.grid, first, step, gathered)
    }
}

// The lesser of two numbers, either of which may be none.
fn lesser(a: Option<u32>, b: Option<u32>) -> Option<u32>
    ensures { result ≡ lesser_of a b }
{
    match (a, b) {
        (Some(a), Some(b)) => Some(a.min(b)),
        (Some(a), None) => Some(a),
        (None, b) => b,
    }
}
