//! What a region sees of a state.

use crate::compact::Compact;
use crate::slots::Slots;
use crate::{Action, Message, Placed, Rows, rows_of};
use std::marker::Model;

/// Placed disks by number.
///
/// Memory is taken for each number up to the greatest one that ever had a row, or for up to twice as many, and at the
/// opening for those of all disks: 32 bytes a number. There is no memory for a row with a coordinate, a component of its
/// velocity or a size that doesn't fit 32 bits with a sign, a base tick from 2^43 on or a mark from 2^20 on. No valid
/// disk has such numbers.
#[derive(Drop)]
pub struct View {
    slots: Slots,
}

impl Model for View {
    ghost use Rattle.std.specs.Ordering.{nat_cmp};
    ghost use Rattle.std.specs.FinMap as map;
    ghost use Rattle.region_view.specs.declared.action.Placed.{Placed};
    ghost use Rattle.region_view.specs.contracts.action.Placed as placed;
    ghost use Rattle.std.specs.Coded.{coded_ℕ};
    ghost use Rattle.region_view.specs.Slots.{placed_in};

    ghost Value = { map.FinMap nat_cmp Placed };

    ghost coded = { map.code coded_ℕ placed.the_row.coded };

    ghost view = { λ v. placed_in v.slots };
}

ghost use Rattle.std.specs.Prelude.{◌≡◌, ℕ, ◌<◌, ◌≤◌, [], ◌∷◌, length, slice_get, None, is_some, IsTrue, IfSome, IfOk, OnOk, OnErr};
ghost use Rattle.std.specs.FinMap as map;
ghost use Rattle.cell_grid.specs.Grid.{IsRegion};
ghost use Rattle.region_view.specs.Laws.{HasCells};
ghost use Rattle.region_view.specs.Compact.{IsRowThere};
ghost use Rattle.region_view.specs.Views.{rows_in, AreRowsOf, IsNextRow, IsViewOf};
ghost use Rattle.region_view.specs.Setting.{put, set_rows, rows_at, after_action, IsInOrder};

use cell_grid::Grid;
use std::alloc::{AllocError, Global};

impl View {
    /// The row of a disk; none if and only if it has no row.
    #[inline(always)]
    pub fn get(&self, disk: u32) -> Option<Placed>
        ensures { result ≡ map.get self.now disk }
    {
        self.slots.get(disk)
    }

    /// The row of a disk as it is kept. None if there is none.
    #[inline(always)]
    pub fn narrow(&self, disk: u32) -> Option<Compact>
        ensures { IfSome result (IsRowThere (map.get self.now disk)) }
    {
        self.slots.narrow(disk)
    }

    /// Sets the row of a disk that has one. Takes no memory.
    #[inline(always)]
    pub fn set_narrow(&mut self, disk: u32, row: &Compact)
        requires there { IsTrue (is_some (map.get self.old disk)) }
        requires row { IsTrue (is_some row.now) }
        ensures { self.new ≡ put self.old disk row.now }
    {
        self.slots.set_narrow(disk, row)
    }

    /// What stands at each number, as it is kept, up to the last number for which there is room.
    #[inline(always)]
    pub fn compact(&self) -> &[Compact]
        ensures { AreRowsOf self.now result.now }
    {
        self.slots.as_slice()
    }

    /// The first disk from number `from` on that has a row: its number and the row. None says that no
    /// disk from there on has one.
    pub fn next_row(&self, from: u32) -> Option<(u32, Placed)>
        ensures { IsNextRow self.now from result }
    {
        self.slots.next_row(from)
    }

    /// A copy.
    ///
    /// # Errors
    /// Out of memory.
    pub fn copy(&self, alloc: Global) -> Result<View, AllocError>
        ensures { IfOk result (λ view. view ≡ self.now) }
    {
        Ok(View {
            slots: self.slots.copy(alloc)?,
        })
    }

    /// How many numbers, from 0 on, have memory in use, whether they have rows or not: a copy takes time for all of
    /// them. No disk from this number on has a row.
    pub fn room(&self) -> usize
        ensures { (i : ℕ) → result ≤ i → map.get self.now i ≡ None }
    {
        self.slots.len()
    }

    /// Sets these rows, and takes away what stands at the numbers of those that have no disk. Afterwards `rows` holds
    /// what stood at these numbers before. Memory is taken only for a disk that had no row.
    ///
    /// # Errors
    /// Out of memory: the view and the rows stay as they are.
    #[inline(always)]
    pub fn swap(&mut self, rows: &mut Rows) -> Result<(), AllocError>
        ensures view { OnOk result (self.new ≡ set_rows self.old rows.old) }
        ensures rows { OnOk result (rows.new ≡ rows_at (rows_in self.old) rows.old) }
        ensures unchanged { OnErr result ((self.new ≡ self.old) × (rows.new ≡ rows.old)) }
    {
        *rows = match rows.as_slice() {
            [] => Rows::none(),
            [(disk, row)] => Rows::one((*disk, self.replace(*disk, *row)?)),
            [first, second, ..] => self.replace_both(*first, *second)?,
        };
        Ok(())
    }

    /// Sets the rows of a message.
    ///
    /// # Errors
    /// Out of memory: the view stays as it is.
    pub fn take_in(&mut self, message: &Message) -> Result<(), AllocError>
        ensures taken { OnOk result (self.new ≡ set_rows self.old message.now.rows) }
        ensures unchanged { OnErr result (self.new ≡ self.old) }
    {
        let mut rows = message.rows;
        self.swap(&mut rows)
    }

    /// Sets the rows of an action.
    ///
    /// # Errors
    /// Out of memory: the view stays as it is.
    pub fn act(&mut self, action: &Action) -> Result<(), AllocError>
        requires order { IsInOrder action.now }
        ensures acted { OnOk result (self.new ≡ after_action self.old action.now) }
        ensures unchanged { OnErr result (self.new ≡ self.old) }
    {
        let mut rows = rows_of(self, action);
        self.swap(&mut rows)
    }

    // No row, with memory for those of the disks below `count`.
    fn with_capacity(alloc: Global, count: usize) -> Result<View, AllocError>
        ensures { IfOk result (λ view. view ≡ map.empty) }
    {
        Ok(View {
            slots: Slots::with_capacity(alloc, count)?,
        })
    }

    // Sets the rows of two disks, or none, and answers what stood there.
    #[inline(always)]
    fn replace_both(
        &mut self,
        first: (u32, Option<Placed>),
        second: (u32, Option<Placed>),
    ) -> Result<Rows, AllocError>
        requires order { first.0 < second.0 }
        ensures view { OnOk result (self.new ≡ set_rows self.old (first ∷ second ∷ [])) }
        ensures rows { IfOk result
            (λ rows. rows ≡ rows_at (rows_in self.old) (first ∷ second ∷ [])) }
        ensures unchanged { OnErr result (self.new ≡ self.old) }
    {
        // Room for both is made first, so that nothing is set if memory runs out.
        self.slots.make_room(first.0, first.1.as_ref())?;
        self.slots.make_room(second.0, second.1.as_ref())?;
        let before = self.slots.replace(first.0, first.1);
        let after = self.slots.replace(second.0, second.1);
        Ok(Rows::two((first.0, before), (second.0, after)))
    }

    // Sets the row of a disk, or takes it away, and answers what stood there.
    #[inline(always)]
    fn replace(&mut self, disk: u32, row: Option<Placed>) -> Result<Option<Placed>, AllocError>
        ensures view { OnOk result (self.new ≡ put self.old disk row) }
        ensures before { IfOk result (λ before. before ≡ map.get self.old disk) }
        ensures unchanged { OnErr result (self.new ≡ self.old) }
    {
        self.slots.make_room(disk, row.as_ref())?;
        Ok(self.slots.replace(disk, row))
    }
}

/// What a region sees of a state, whose disks are these rows, numbered from 0: at most 65,536.
///
/// # Errors
/// Out of memory.
pub fn opening(
    alloc: Global,
    placed: &[Placed],
    grid: &Grid,
    region: u32,
) -> Result<View, AllocError>
    requires count { length placed.now ≤ 65536 }
    requires cells { HasCells grid.now (slice_get placed.now) }
    requires region { IsRegion grid.now region }
    ensures { IfOk result (λ view. IsViewOf grid.now region (slice_get placed.now) view) }
{
    let mut view = View::with_capacity(alloc, placed.len())?;
    for (i, row) in placed.iter().enumerate() {
        if grid.in_reach(region, row.cell) {
            view.replace(i as u32, Some(*row))?;
        }
    }
    Ok(view)
}
