//! States of the cell run.

use cell_grid::Grid;
use event_stamps::Stamp;
use fixed_motion::{Disk, Rules};
use region_view::Placed;
use std::marker::Model;

/// A state of the cell run of a scene.
///
/// It keeps a floor: a stamp before which no event is left.
#[derive(Drop)]
pub struct CellState {
    rules: Rules,
    grid: Grid,
    // The disks of the scene, with which the run begins.
    opening: Vec<Disk>,
    // The stamp of the last action that was run.
    last: Option<Stamp>,
    placed: Vec<Placed>,
    floor: Stamp,
}

impl Model for CellState {
    ghost use Rattle.cell_sequence.specs.State.{CellStateData, IsCellState};

    ghost Value = { CellStateData };

    ghost view = { λ s. record {
      rules = s.rules;
      grid = s.grid;
      opening = s.opening.items;
      last = s.last;
      placed = s.placed.items;
      floor = s.floor;
    } };

    ghost invariant = { λ s. IsCellState (record {
      rules = s.rules;
      grid = s.grid;
      opening = s.opening.items;
      last = s.last;
      placed = s.placed.items;
      floor = s.floor;
    }) };
}

ghost use Rattle.std.specs.Prelude.{◌≡◌, Ok, IfOk};
ghost use Rattle.event_stamps.specs.Order.{Before, end_stamp};
ghost use Rattle.event_stamps.specs.Least.{IsLeastOf};
ghost use Rattle.cell_grid.specs.Grid.{IsAsked};
ghost use Rattle.region_view.specs.Acting.{stamp_of};
ghost use Rattle.cell_sequence.specs.Run.{opened, acted};
ghost use Rattle.cell_sequence.specs.State.{IsCellState, opening_state, followed, HasRows, HasNext, IsNextOf, IsCandidateOf, ComesToInState, RunsNext, AreInBox, HasNoneBelow, raised, later};

use crate::search;
use event_rules::Limit;
use event_stamps::Kind;
use fixed_motion::Scene;
use region_view::{Action, act};
use std::alloc::{AllocError, Global};

impl CellState {
    /// The state with which the cell run of a scene begins, on a grid for `regions` regions, 1 to
    /// [`MAX_REGIONS`](cell_grid::MAX_REGIONS). Its floor is the first stamp of all.
    ///
    /// # Errors
    /// Out of memory.
    pub fn open(alloc: Global, scene: &Scene, regions: u32) -> Result<CellState, AllocError>
        requires { IsAsked regions }
        ensures { IfOk result (λ state. state ≡ opening_state scene.now regions) }
    {
        let grid = Grid::new(&scene.rules, regions);
        let opening = Vec::from_slice(alloc, &scene.disks)?;
        let placed = place(alloc, &grid, &scene.disks)?;
        Ok(CellState {
            rules: scene.rules,
            grid,
            opening,
            last: None,
            placed,
            floor: Stamp::first_of_all(),
        })
    }

    /// The rules of the scene.
    pub fn rules(&self) -> &Rules
        ensures value { result.now ≡ self.now.rules }
        ensures kept { IsCellState self.now }
    {
        &self.rules
    }

    /// The grid.
    pub fn grid(&self) -> &Grid
        ensures value { result.now ≡ self.now.grid }
        ensures kept { IsCellState self.now }
    {
        &self.grid
    }

    /// A stamp before which no event is left.
    pub fn floor(&self) -> Stamp
        ensures value { result ≡ self.now.floor }
        ensures kept { IsCellState self.now }
    {
        self.floor
    }

    /// The rows of the disks, by number.
    pub fn placed(&self) -> &[Placed]
        ensures value { result.now ≡ self.now.placed }
        ensures kept { IsCellState self.now }
    {
        &self.placed
    }

    /// The stamp of the next event; none if no event is left.
    pub fn next(&self) -> Option<Stamp>
        ensures found { IsLeastOf (IsCandidateOf self.now) result }
        ensures kept { IsCellState self.now }
    {
        search::next(&self.rules, &self.grid, &self.placed)
    }

    /// Runs the next event; there has to be one. Its stamp becomes the floor.
    ///
    /// # Errors
    /// The limit at which the event fails; the state stays as it was.
    pub fn run_next(&mut self) -> Result<Action, Limit>
        requires { HasNext self.old }
        ensures { RunsNext self.old result self.new }
    {
        let stamp = self.next().unwrap();
        let action = self.upcoming(&stamp)?;
        self.follow(&action);
        Ok(action)
    }

    // The action of the next event, or the limit at which it fails.
    fn upcoming(&self, stamp: &Stamp) -> Result<Action, Limit>
        requires { IsNextOf self.now stamp.now }
        ensures { ComesToInState self.now stamp.now result }
    {
        let row = &self.placed[stamp.first as usize];
        match stamp.kind {
            Kind::Pair => {
                let other = &self.placed[stamp.second as usize];
                act(&self.rules, &self.grid, stamp, row, Some(&other.disk))
            }
            _ => act(&self.rules, &self.grid, stamp, row, None),
        }
    }

    /// Goes on by an action, which is that of the next event. Its stamp becomes the floor.
    pub fn follow(&mut self, action: &Action)
        requires next { IsNextOf self.old (stamp_of action.now) }
        requires comes { ComesToInState self.old (stamp_of action.now) (Ok action.now) }
        ensures { self.new ≡ followed self.old action.now }
    {
        let stamp = action.stamp();
        put(&mut self.placed, action);
        self.last = Some(stamp);
        self.floor = stamp;
    }

    /// Raises the floor to a stamp before which no event is left. It is neither before the floor nor after the end.
    pub fn raise_floor(&mut self, to: Stamp)
        requires not_lowered { ¬ Before to self.old.floor }
        requires in_time { ¬ Before (end_stamp self.old.rules.end) to }
        requires none_below { HasNoneBelow self.old to }
        ensures { self.new ≡ raised to self.old }
    {
        self.floor = to;
    }

    /// Becomes a later state of the same run: the one with these rows and this floor. `last` is the stamp of the last
    /// action that led there; none if there was no action.
    pub fn go_on_to(&mut self, placed: Vec<Placed>, last: Option<Stamp>, floor: Stamp)
        requires { IsCellState (later self.old placed.items last floor) }
        ensures { self.new ≡ later self.old placed.items last floor }
    {
        self.placed = placed;
        self.last = last.or(self.last);
        self.floor = floor;
    }
}

// The rows of disks, each in the cell of its centre.
fn place(alloc: Global, grid: &Grid, disks: &[Disk]) -> Result<Vec<Placed>, AllocError>
    requires { AreInBox disks.now }
    ensures { IfOk result (λ placed. placed.items ≡ opened grid.now disks.now) }
{
    let mut placed = Vec::new(alloc);
    for disk in disks {
        placed.push(Placed {
            disk: *disk,
            cell: grid.cell_of(disk.x, disk.y),
        })?;
    }
    Ok(placed)
}

// Sets the rows that an action changes.
fn put(placed: &mut Vec<Placed>, action: &Action)
    requires { HasRows placed.old.items action.now }
    ensures { placed.new.items ≡ acted placed.old.items action.now }
{
    match action {
        Action::Cross { stamp, cell } => placed[stamp.first as usize].cell = *cell,
        Action::Hit(change) => {
            placed[change.stamp.first as usize].disk = change.first;
            if let Some(second) = change.second {
                placed[change.stamp.second as usize].disk = second;
            }
        }
    }
}
