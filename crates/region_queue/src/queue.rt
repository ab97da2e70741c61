//! The queue of a region.

use crate::finder::Finder;
use crate::keys::{give_key, settle, take_both, take_crossed, take_keys};
use crate::listing::{list_again, list_event, list_one};
use cell_grid::Grid;
use cell_lists::Lists;
use event_stamps::Stamp;
use event_tree::{Code, Entries, Packed};
use fixed_motion::Rules;
use region_view::View;
use std::alloc::{AllocError, Global};
use std::marker::Model;

/// The native candidates of a region in one view. It finds the least of them.
///
/// Memory is taken for as many disks as the greatest number that the view ever had, or for up to twice as many.
#[derive(Drop)]
pub struct Queue {
    finder: Finder,
    // For each disk the key is the least native candidate that names it, as of when it was last taken. The bound is a
    // stamp that isn't after any of its pairs, as of then: the least of them, or one that has come before it.
    keys: Entries,
}

impl Model for Queue {
    ghost use Rattle.region_queue.specs.Queue.{QueueData, queue_code, queue_of, IsSoundQueue};

    ghost Value = { QueueData };

    ghost coded = { queue_code };

    ghost view = { λ a. queue_of a.finder.rules a.finder.grid a.finder.region a.finder.lists.cells a.keys.keys a.keys.bounds };

    ghost invariant = { λ a. IsSoundQueue a.finder.rules a.finder.grid a.finder.region a.finder.strip a.finder.lists.grid };
}

ghost use Rattle.std.specs.Prelude.{◌≡◌, ℕ, ◌<◌, None, Some, IfSome, IfOk, OnOk, [], ◌∷◌};
ghost use Rattle.std.specs.FinMap as map;
ghost use Rattle.std.specs.List.{Contains};
ghost use Rattle.fixed_motion.specs.Rules.{IsChecked};
ghost use Rattle.event_stamps.specs.Least.{IsLeast, IsLeastOf};
ghost use Rattle.cell_grid.specs.Grid.{IsGridOf, IsRegion};
ghost use Rattle.region_view.specs.declared.action.Placed.{Placed};
ghost use Rattle.region_view.specs.Placing.{IsNative, IsValidPlacing};
ghost use Rattle.region_view.specs.Views.{ViewData, rows_in};
ghost use Rattle.region_view.specs.Naming.{IsSameBut, IsSameButBy, IsMoved};
ghost use Rattle.region_queue.specs.Finding.{KeepCells};
ghost use Rattle.region_queue.specs.Queue.{IsOf, StandsFor};

impl Queue {
    /// The queue of a region in a view with valid rows.
    ///
    /// # Errors
    /// Out of memory.
    pub fn open(
        alloc: Global,
        view: &View,
        grid: &Grid,
        rules: &Rules,
        region: u32,
    ) -> Result<Queue, AllocError>
        requires checked { IsChecked rules.now }
        requires grid { IsGridOf rules.now grid.now }
        requires region { IsRegion grid.now region }
        requires valid { IsValidPlacing rules.now grid.now (rows_in view.now) }
        ensures { IfOk result (λ queue. IsOf queue rules.now grid.now region
            × StandsFor queue view.now) }
    {
        let disks = disks_of(alloc, view)?;
        Queue::empty(alloc, grid, rules, region)?.with(alloc, view, &disks)
    }

    // The same queue with these disks taken in.
    fn with(mut self, alloc: Global, view: &View, disks: &[u32]) -> Result<Queue, AllocError>
        requires valid { IsValidPlacing self.rules self.grid (rows_in view.now) }
        ensures { IfOk result (λ queue. IsOf queue self.rules self.grid self.region
            × ((before : ViewData) → StandsFor self before → IsSameBut disks.now before view.now →
            StandsFor queue view.now)) }
    {
        self.touched(alloc, view, disks)?;
        Ok(self)
    }

    /// The stamp of the least native candidate; none if there is none. Takes constant time and no memory.
    pub fn least(&self) -> Option<Stamp>
        ensures { (view : ViewData) → StandsFor self.now view →
            IsLeastOf (IsNative self.now.rules self.now.grid self.now.region (rows_in view)) result }
    {
        self.keys.least()
    }

    /// The same, packed, for comparisons at once.
    #[inline(always)]
    pub fn top(&self) -> Packed
        ensures { (view : ViewData) → StandsFor self.now view →
            IsLeastOf (IsNative self.now.rules self.now.grid self.now.region (rows_in view)) result }
    {
        self.keys.top()
    }

    /// The same as a code. None says nothing: it may have none.
    #[inline(always)]
    pub fn top_code(&self) -> Option<Code>
        ensures { IfSome result (λ code. (view : ViewData) → StandsFor self.now view →
            IsLeastOf (IsNative self.now.rules self.now.grid self.now.region (rows_in view)) code) }
    {
        self.keys.top_code()
    }

    /// Takes in the changes of these disks, to what stands at their numbers in a view. If the queue stood for a view
    /// that is the same at all other numbers, it stands for this one then.
    ///
    /// # Errors
    /// Out of memory: the queue stands for no view that could be named, and has to be opened again.
    pub fn touched(&mut self, alloc: Global, view: &View, ids: &[u32]) -> Result<(), AllocError>
        requires valid { IsValidPlacing self.old.rules self.old.grid (rows_in view.now) }
        ensures same { IsOf self.new self.old.rules self.old.grid self.old.region }
        ensures stands { OnOk result ((before : ViewData) → StandsFor self.old before →
            IsSameBut ids.now before view.now → StandsFor self.new view.now) }
    {
        list_again(alloc, &mut self.finder.lists, view, ids)?;
        take_keys(alloc, &self.finder, &mut self.keys, view, ids)?;
        settle(alloc, &self.finder, &mut self.keys, view)
    }

    /// Takes in the changes of two disks that keep their cells, as those that hit each other do. If the queue stood for
    /// a view that is the same at all other numbers, it stands for this one then.
    ///
    /// # Errors
    /// Out of memory: the queue stands for no view that could be named, and has to be opened again.
    pub fn struck(
        &mut self,
        alloc: Global,
        view: &View,
        first: u32,
        second: u32,
    ) -> Result<(), AllocError>
        requires valid { IsValidPlacing self.old.rules self.old.grid (rows_in view.now) }
        ensures same { IsOf self.new self.old.rules self.old.grid self.old.region }
        ensures stands { OnOk result ((before : ViewData) → StandsFor self.old before →
            IsSameBut (first ∷ second ∷ []) before view.now → KeepCells before view.now → StandsFor self.new view.now) }
    {
        take_both(alloc, &self.finder, &mut self.keys, view, first, second)?;
        settle(alloc, &self.finder, &mut self.keys, view)
    }

    /// Takes in that a disk is in another cell of a view than it was, and keeps its course. If the queue stood for a
    /// view that is the same at all other numbers, it stands for this one then.
    ///
    /// # Errors
    /// Out of memory: the queue stands for no view that could be named, and has to be opened again.
    pub fn crossed(&mut self, alloc: Global, view: &View, disk: u32) -> Result<(), AllocError>
        requires valid { IsValidPlacing self.old.rules self.old.grid (rows_in view.now) }
        ensures same { IsOf self.new self.old.rules self.old.grid self.old.region }
        ensures stands { OnOk result ((before : ViewData) → StandsFor self.old before →
            IsMoved disk before view.now → StandsFor self.new view.now) }
    {
        let cell = self.finder.lists.cell_of(disk);
        list_one(alloc, &mut self.finder.lists, view, disk)?;
        take_crossed(alloc, &self.finder, &mut self.keys, view, disk, cell)?;
        settle(alloc, &self.finder, &mut self.keys, view)
    }

    /// Takes back an event, which becomes the least native candidate of a view again. If the queue stood for a view
    /// that is the same at all numbers but those of the event's disks, it stands for this one then.
    ///
    /// # Errors
    /// Out of memory: the queue stands for no view that could be named, and has to be opened again.
    pub fn take_back(&mut self, alloc: Global, view: &View, event: &Stamp) -> Result<(), AllocError>
        requires valid { IsValidPlacing self.old.rules self.old.grid (rows_in view.now) }
        requires least { IsLeast (IsNative self.old.rules self.old.grid self.old.region (rows_in view.now)) event.now }
        ensures same { IsOf self.new self.old.rules self.old.grid self.old.region }
        ensures stands { OnOk result ((later : ViewData) → StandsFor self.old later →
            IsSameButBy event.now later view.now → StandsFor self.new view.now) }
    {
        list_event(alloc, &mut self.finder.lists, view, event)?;
        give_key(alloc, &mut self.keys, event)?;
        settle(alloc, &self.finder, &mut self.keys, view)
    }

    // The queue of a region that sees no disk.
    fn empty(alloc: Global, grid: &Grid, rules: &Rules, region: u32) -> Result<Queue, AllocError>
        requires checked { IsChecked rules.now }
        requires grid { IsGridOf rules.now grid.now }
        requires region { IsRegion grid.now region }
        ensures { IfOk result (λ queue. IsOf queue rules.now grid.now region
            × StandsFor queue map.empty) }
    {
        Ok(Queue {
            finder: Finder {
                rules: *rules,
                grid: *grid,
                region,
                strip: grid.strip(region),
                lists: Lists::new(alloc, grid)?,
            },
            keys: Entries::new(alloc),
        })
    }
}

// The numbers of the disks of a view.
fn disks_of(alloc: Global, view: &View) -> Result<Vec<u32>, AllocError>
    requires { (i : ℕ) (row : Placed) → map.get view.now i ≡ Some row → i < 65536 }
    ensures { IfOk result (λ disks. (i : ℕ) → ¬ Contains disks.items i → map.get view.now i ≡ None) }
{
    let mut disks = Vec::new(alloc);
    let mut from = 0;
    while let Some((disk, _)) = view.next_row(from) {
        disks.push(disk)?;
        from = disk + 1;
    }
    Ok(disks)
}
