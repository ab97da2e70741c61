//! The committed state, and the regions that stand on it.

ghost use Rattle.std.specs.Prelude.{◌≡◌, IfOk, OnOk};
ghost use Rattle.cell_grid.specs.Grid.{IsRegion, IsAsked};
ghost use Rattle.cell_sequence.specs.State.{IsCellState, opening_state, later, followed_by, raised, CellStateData};
ghost use Rattle.commit_horizon.specs.Horizon.{runs_of, IsHorizon, AllStand, AllKept};
ghost use Rattle.commit_horizon.specs.Commits.{Adopts, Commits};
ghost use Rattle.commit_horizon.specs.Following.{MayFollow};

use crate::Batch;
use crate::bounding::least_bound;
use crate::cutting::commit_cutting;
use crate::following::follow_all;
use crate::untold::Untold;
use cell_sequence::CellState;
use event_stamps::Stamp;
use fixed_motion::Scene;
use region_core::{Differs, Region};
use region_view::Placed;
use std::alloc::{AllocError, Global};
use std::marker::Model;

/// The state of the cell run up to which all is final.
#[derive(Drop)]
pub struct Committed {
    pub(crate) state: CellState,
}

impl Model for Committed {
    ghost Value = { CellStateData };

    ghost view = { λ s. s.state };
}

/// A region that stands on the committed state.
#[derive(Drop)]
pub enum Adopted {
    /// The region that was given, which stands on it.
    Kept(Region),
    /// One that was opened again, and why the given one doesn't stand on the state.
    Made(Region, Differs),
}

impl Committed {
    /// The state with which the cell run of a scene begins, on a grid for this many regions, 1 to
    /// [`MAX_REGIONS`](cell_grid::MAX_REGIONS).
    ///
    /// # Errors
    /// Out of memory.
    pub fn open(alloc: Global, scene: &Scene, regions: u32) -> Result<Committed, AllocError>
        requires { IsAsked regions }
        ensures { IfOk result (λ committed. committed ≡ opening_state scene.now regions) }
    {
        Ok(Committed {
            state: CellState::open(alloc, scene, regions)?,
        })
    }

    /// The committed state, whose grid has a region at least.
    pub fn state(&self) -> &CellState
        ensures value { result.now ≡ self.now }
        ensures kept { IsCellState self.now }
    {
        prove!(self.state.grid().regions() > 0);
        &self.state
    }

    /// A region for a number: the given one if it stands on the committed state with this number, whoever made it;
    /// else one that is opened again.
    ///
    /// # Errors
    /// Out of memory.
    pub fn adopt(&self, alloc: Global, number: u32, region: Region) -> Result<Adopted, AllocError>
        requires { IsRegion self.now.grid number }
        ensures { IfOk result (Adopts self.now number region) }
    {
        let Err(differs) = region.stands_on(&self.state, number) else {
            return Ok(Adopted::Kept(region));
        };
        drop(region);
        let made = Region::open(alloc, &self.state, number)?;
        Ok(Adopted::Made(made, differs))
    }

    /// The commit horizon of regions that stand on the committed state, by number: the least of the end, of
    /// what each region has due (or of the floor, if that is later), and of the first disagreement of
    /// what each sent and what each linked one heard from it.
    pub fn horizon(&self, regions: &[Region]) -> Stamp
        requires { AllStand self.now regions.now }
        ensures value { IsHorizon self.now (runs_of regions.now) result }
        ensures kept { AllKept regions.now }
    {
        least_bound(Stamp::end_of(self.state.rules().end), regions)
    }

    /// Becomes a later state of the same run: one with these rows and this floor, by actions of which the last
    /// has the stamp `last`; none if there was no action.
    pub fn go_on_to(&mut self, placed: Vec<Placed>, last: Option<Stamp>, floor: Stamp)
        requires { IsCellState (later self.old placed.items last floor) }
        ensures { self.new ≡ later self.old placed.items last floor }
    {
        self.state.go_on_to(placed, last, floor);
    }

    /// Makes final what the regions, which stand on the committed state by number, did before the commit horizon: the
    /// state goes on by it, and all floors are raised to the horizon.
    ///
    /// # Errors
    /// Out of memory: the committed state and the regions are to be given up.
    pub fn commit(&mut self, alloc: Global, regions: &mut [Region]) -> Result<Batch, AllocError>
        requires { AllStand self.old regions.old }
        ensures { IfOk result (λ batch. Commits self.old regions.old batch self.new regions.new) }
    {
        let mut untold = Untold::new(alloc);
        let made = commit_cutting(alloc, self.state.rules(), regions, &mut untold)?;
        self.follow(alloc, untold, made.floor)
    }

    /// Goes on by the actions that are untold, which the cell run does next, and raises the floor to a stamp. These
    /// actions are the batch.
    ///
    /// # Errors
    /// Out of memory: the committed state is to be given up.
    pub fn follow(
        &mut self,
        alloc: Global,
        untold: Untold,
        floor: Stamp,
    ) -> Result<Batch, AllocError>
        requires { MayFollow self.old untold floor }
        ensures batch { IfOk result (λ batch. batch ≡ untold) }
        ensures state { OnOk result (self.new ≡ raised floor (followed_by self.old untold)) }
    {
        let actions = follow_all(&mut self.state, alloc, untold)?;
        self.state.raise_floor(floor);
        Ok(Batch { actions })
    }
}
