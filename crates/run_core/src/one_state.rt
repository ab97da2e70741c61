//! Regions together with the cell state on which they stand.

ghost use Rattle.std.specs.Prelude.{◌≡◌, ◌<◌, length, slice_get, Some, IfOk};
ghost use Rattle.fixed_motion.specs.Rules.{IsChecked};
ghost use Rattle.fixed_motion.specs.Motion.{IsValidDisk};
ghost use Rattle.event_rules.specs.Run.{spots_of, spot_of};
ghost use Rattle.cell_grid.specs.Grid.{IsAsked};
ghost use Rattle.cell_sequence.specs.Run.{disks_of};
ghost use Rattle.cell_sequence.specs.State.{CellStateData, IsCellState, opening_state};
ghost use Rattle.run_floors.specs.Floors.{IsPast, IsAtFloor, IsOfRun};
ghost use Rattle.commit_horizon.specs.Horizon.{AllStand};
ghost use Rattle.run_core.specs.Standing.{GoesOnTo, WorksOnce, row_among, seen_as};

use crate::run_burst::RunBurst;
use commit_horizon::Committed;
use event_rules::{FinalState, Spot};
use event_stamps::Stamp;
use fixed_motion::{Disk, Rules, Scene};
use region_core::{Beside, Region};
use region_view::Placed;
use std::alloc::{AllocError, Global};
use std::marker::Model;
use std::thread::Threads;

/// Regions that stand, by number, on one state of the cell run. Its rows are theirs, and are put together only if
/// somebody asks for the state.
#[derive(Drop)]
pub(crate) struct Standing {
    /// An earlier state of the run.
    pub(crate) earlier: Committed,
    /// The stamp of the last action since then; none if there was no action.
    pub(crate) last: Option<Stamp>,
    /// The floor.
    pub(crate) floor: Stamp,
    /// The regions.
    pub(crate) regions: Vec<Region>,
}

impl Model for Standing {
    ghost Value = { CellStateData };

    ghost view = { λ s. seen_as s.earlier s.last s.floor s.regions.items };

    ghost invariant = { λ s. GoesOnTo s.earlier s.last s.floor s.regions.items
        (seen_as s.earlier s.last s.floor s.regions.items) };
}

impl Standing {
    /// The regions of the state with which the cell run of a scene begins, as many as are asked for, 1 to
    /// [`MAX_REGIONS`](cell_grid::MAX_REGIONS). They are opened in at most this many threads, the caller's among them.
    ///
    /// # Errors
    /// Out of memory.
    pub(crate) fn open<R: Threads + Sync>(
        rt: &R,
        alloc: Global,
        scene: &Scene,
        regions: u32,
        threads: u32,
    ) -> Result<Standing, AllocError>
        requires { IsAsked regions }
        ensures { IfOk result (λ standing. standing ≡ opening_state scene.now regions) }
    {
        let committed = Committed::open(alloc, scene, regions)?;
        let regions = committed.open_side_by_side(rt, alloc, threads)?;
        Ok(Standing::on(committed, regions))
    }

    /// Regions that stand on a committed state.
    pub(crate) fn on(committed: Committed, regions: Vec<Region>) -> Standing
        requires stand { AllStand committed regions.items }
        requires past { IsPast committed.last committed.floor }
        ensures { result ≡ committed }
    {
        let floor = committed.state().floor();
        Standing::after(committed, None, floor, regions)
    }

    /// Regions that stand on a state with this floor, to which the run goes on from an earlier one by actions of
    /// which the last has the stamp `last`; none if there is no action.
    pub(crate) fn after(
        earlier: Committed,
        last: Option<Stamp>,
        floor: Stamp,
        regions: Vec<Region>,
    ) -> Standing
        requires { (state : CellStateData) × GoesOnTo earlier last floor regions.items state }
        ensures { (state : CellStateData) → GoesOnTo earlier last floor regions.items state → result ≡ state }
    {
        Standing {
            earlier,
            last,
            floor,
            regions,
        }
    }

    /// Lets a burst work on the regions. Those that it gives back stand on the same state, or others are opened in
    /// their place. If the burst keeps them, nothing is compared.
    ///
    /// # Errors
    /// Out of memory.
    pub(crate) fn work<R: Threads + Sync, S: Beside<W>, W, B: RunBurst<S, W>>(
        self,
        rt: &R,
        alloc: Global,
        burst: &mut B,
        beside: &mut S,
        lent: &mut W,
    ) -> Result<Standing, AllocError>
        requires of { IsOfRun (B.of burst.old) self }
        requires fits { S.fits beside.old lent.old }
        ensures once { WorksOnce B.of B.bursts burst.old burst.new }
        ensures state { IfOk result (λ worked. worked ≡ self) }
        ensures beside { S.goes beside.old lent.old beside.new lent.new }
    {
        if burst.keeps() {
            self.work_keeping(rt, alloc, burst, beside, lent)
        } else {
            self.work_adopting(rt, alloc, burst, beside, lent)
        }
    }

    // Lets a burst that keeps the regions work on them.
    fn work_keeping<R: Threads + Sync, S: Beside<W>, W, B: RunBurst<S, W>>(
        self,
        rt: &R,
        alloc: Global,
        burst: &mut B,
        beside: &mut S,
        lent: &mut W,
    ) -> Result<Standing, AllocError>
        requires keeping { B.keeping burst.old }
        requires of { IsOfRun (B.of burst.old) self }
        requires fits { S.fits beside.old lent.old }
        ensures once { WorksOnce B.of B.bursts burst.old burst.new }
        ensures state { IfOk result (λ worked. worked ≡ self) }
        ensures beside { S.goes beside.old lent.old beside.new lent.new }
    {
        let Standing {
            earlier,
            last,
            floor,
            regions,
        } = self;
        let worked = burst.burst(rt, alloc, regions, beside, lent)?;
        Ok(Standing::after(earlier, last, floor, worked))
    }

    // Lets a burst work on the regions, and adopts what it gives back.
    fn work_adopting<R: Threads + Sync, S: Beside<W>, W, B: RunBurst<S, W>>(
        self,
        rt: &R,
        alloc: Global,
        burst: &mut B,
        beside: &mut S,
        lent: &mut W,
    ) -> Result<Standing, AllocError>
        requires of { IsOfRun (B.of burst.old) self }
        requires fits { S.fits beside.old lent.old }
        ensures once { WorksOnce B.of B.bursts burst.old burst.new }
        ensures state { IfOk result (λ worked. worked ≡ self) }
        ensures beside { S.goes beside.old lent.old beside.new lent.new }
    {
        let (committed, regions) = self.settle(alloc)?;
        let worked = burst.burst(rt, alloc, regions, beside, lent)?;
        Standing::adopting(alloc, committed, worked)
    }

    // The given regions that stand on a committed state, and others opened in place of the rest.
    fn adopting(
        alloc: Global,
        committed: Committed,
        given: Vec<Region>,
    ) -> Result<Standing, AllocError>
        requires count { length given.items ≡ committed.grid.regions }
        requires past { IsPast committed.last committed.floor }
        ensures { IfOk result (λ standing. standing ≡ committed) }
    {
        let adopted = committed.adopt_all(alloc, given)?;
        Ok(Standing::on(committed, adopted))
    }

    // The state, whose rows are put together, and the regions.
    fn settle(self, alloc: Global) -> Result<(Committed, Vec<Region>), AllocError>
        ensures state { IfOk result (λ parts. parts.0 ≡ self) }
        ensures stand { IfOk result (λ parts. AllStand self parts.1.items) }
        ensures at { IfOk result (λ _. IsAtFloor self) }
    {
        let placed = self.rows(alloc)?;
        let Standing {
            mut earlier,
            last,
            floor,
            regions,
        } = self;
        earlier.go_on_to(placed, last, floor);
        Ok((earlier, regions))
    }

    // The rows of the state.
    fn rows(&self, alloc: Global) -> Result<Vec<Placed>, AllocError>
        ensures { IfOk result (λ placed. placed.items ≡ self.now.placed) }
    {
        let mut placed = Vec::new(alloc);
        for disk in 0..self.count() {
            placed.push(self.row(disk))?;
        }
        Ok(placed)
    }

    /// The spots of all disks at the end.
    ///
    /// # Errors
    /// Out of memory.
    pub(crate) fn final_state(&self, alloc: Global) -> Result<FinalState, AllocError>
        ensures { IfOk result (λ spots. spots ≡ spots_of self.now.rules.end (disks_of self.now.placed)) }
    {
        let rules = self.earlier.state().rules();
        let mut spots = Vec::new(alloc);
        for number in 0..self.count() {
            let row = self.row(number);
            spots.push(spot_at_end(rules, &row.disk))?;
        }
        Ok(FinalState::new(spots))
    }

    // How many disks there are.
    fn count(&self) -> usize
        ensures { result ≡ length self.now.placed }
    {
        self.earlier.state().placed().len()
    }

    // The row of a disk in the state: that of any region that begins with one, since all of them have the state's row.
    fn row(&self, disk: usize) -> Placed
        requires { disk < length self.now.placed }
        ensures value { slice_get self.now.placed disk ≡ Some result }
        ensures kept { IsCellState self.now }
    {
        row_among(&self.regions, disk as u32).unwrap()
    }
}

// The spot of a disk at the end.
fn spot_at_end(rules: &Rules, disk: &Disk) -> Spot
    requires checked { IsChecked rules.now }
    requires valid { IsValidDisk rules.now disk.now }
    ensures { result ≡ spot_of rules.now.end disk.now }
{
    let centre = disk.centre_at(rules, rules.end);
    Spot {
        x: centre.x,
        y: centre.y,
        vx: disk.vx,
        vy: disk.vy,
    }
}

// The row of a disk in the first of some regions that begins with one.
fn row_among(regions: &[Region], disk: u32) -> Option<Placed>
    ensures { result ≡ row_among regions.now disk }
{
    for region in regions {
        match region.first_row(disk) {
            Some(row) => return Some(row),
            None => {}
        }
    }
    None
}
