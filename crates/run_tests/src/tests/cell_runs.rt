//! The cell run: its collisions and its end are those of the run.

ghost use Rattle.cell_grid.specs.Grid.{IsAsked};

use super::cases::{Case, expect};
use super::scenes::valid_scene;
use super::told::{Summing, Told, expect_plain, with_spot};
use cell_sequence::CellState;
use event_rules::{Limit, Spot};
use fixed_motion::{Disk, Scene};
use region_view::{Action, Placed};
use std::alloc::{AllocError, Global};
use std::process::Abort;
use std::test::Fail;
use test_scenes::{FOUR_IN_A_ROW, LONG, ROLLED_BACK, USUAL};

// More actions than the cell run of a test has.
const MOST_ACTIONS: u32 = 10_000;

// The number of crossings of a cell run, and all else that it tells.
type CellRun = (u32, Told);

fn cell_run(alloc: Global, scene: &Scene, regions: u32) -> Result<CellRun, AllocError>
    requires { IsAsked regions }
{
    let mut state = CellState::open(alloc, scene, regions)?;
    Ok(run_through(&mut state, scene.rules.end))
}

// Runs a state on to the end, or to the limit that the next event passes.
fn run_through(state: &mut CellState, end: u64) -> CellRun {
    let mut crossings: u32 = 0;
    let mut hits = Summing::new();
    for _ in 0..MOST_ACTIONS {
        match next_action(state) {
            None => break,
            Some(Ok(Action::Cross { .. })) => crossings = crossings.wrapping_add(1),
            Some(Ok(Action::Hit(change))) => hits.add(&change),
            Some(Err(passed)) => return (crossings, (hits.changes(), Some(passed), 0)),
        }
    }
    (
        crossings,
        (hits.changes(), None, sum_at(state.placed(), end)),
    )
}

// The next action, or the limit that it passes; none if no event is left.
fn next_action(state: &mut CellState) -> Option<Result<Action, Limit>> {
    match state.next() {
        Some(_) => Some(state.run_next()),
        None => None,
    }
}

// The sum over the spots of all disks at a tick.
fn sum_at(rows: &[Placed], tick: u64) -> i64 {
    let mut sum = 0;
    for row in rows {
        sum = with_spot(sum, &spot_at(&row.disk, tick));
    }
    sum
}

// The spot of a disk at a tick. The numbers are small, so nothing wraps, and nothing has to be proved about that.
fn spot_at(disk: &Disk, tick: u64) -> Spot {
    let ticks = tick.wrapping_sub(disk.base).cast_signed();
    Spot {
        x: disk.x.wrapping_add(disk.vx.wrapping_mul(ticks)),
        y: disk.y.wrapping_add(disk.vy.wrapping_mul(ticks)),
        vx: disk.vx,
        vy: disk.vy,
    }
}

const CORNER: &str = "[3, 3, -2, -2]";

// The text before the limits of a scene, its round limit, its end, its disks, and how many crossings and collisions its
// cell run has.
type RunRow = (&'static str, u32, u32, &'static str, (u32, usize));

const RUNS: &[RunRow] = &[
    (USUAL, 8, 3, CORNER, (0, 2)),
    (USUAL, 1, 3, CORNER, (0, 1)),
    (LONG, 8, 40, FOUR_IN_A_ROW, (12, 4)),
    // Disk 0 comes into the next column at tick 4, and disk 1 goes up and down.
    (LONG, 8, 20, ROLLED_BACK, (1, 10)),
    (LONG, 8, 4, ROLLED_BACK, (0, 2)),
];

#[test]
fn cell_runs_tell_the_plain_run(rt: HostRuntime) -> Result<(), Fail> {
    for (number, row) in RUNS.iter().enumerate() {
        let found = counts_of(&rt, rt.alloc(), number, row)?;
        expect(&rt, number, found, row.4);
    }
    Ok(())
}

// How many crossings and collisions the cell run of a row has.
fn counts_of(
    rt: &impl Abort,
    alloc: Global,
    number: usize,
    &(sizes, rounds, end, disks, _): &RunRow,
) -> Result<(u32, usize), AllocError> {
    let scene = valid_scene(rt, alloc, sizes, rounds, end, disks)?;
    let (crossings, told) = run_beside(rt, alloc, (number, disks), &scene, 4)?;
    Ok((crossings, told.0.0))
}

// The cell run of a scene. It has to tell what the engine that looks at all pairs tells.
fn run_beside(
    rt: &impl Abort,
    alloc: Global,
    case: Case<'_>,
    scene: &Scene,
    regions: u32,
) -> Result<CellRun, AllocError>
    requires { IsAsked regions }
{
    let run = cell_run(alloc, scene, regions)?;
    expect_plain(rt, alloc, case, scene, run.1)?;
    Ok(run)
}
