//! Commits between steps and hearings that are drawn, compared with the cell run.

ghost use Rattle.std.specs.Prelude.{◌<◌};
ghost use Rattle.cell_grid.specs.Grid.{IsAsked};

use super::cases::expect;
use super::opened::{Call, regions_after};
use cell_grid::MAX_REGIONS;
use cell_sequence::CellState;
use commit_horizon::{Batch, Committed};
use fixed_motion::Scene;
use region_view::Action;
use std::alloc::{AllocError, Global};
use std::test::Fail;
use test_scenes::{DrawnNumbers, scene_of, wide};

// The number from which on a scene and its calls are drawn, and how many regions are asked for. The last rows ask for
// more regions than a scene has columns.
const DRAWN: &[(u64, u32)] = &[(1, 1), (2, 2), (3, 4), (4, MAX_REGIONS), (7, MAX_REGIONS)];

const COMMITS: u32 = 24;

// The number of calls before each commit.
const CALLS: u32 = 300;

// The least number of actions that the commits of a scene make final.
const LEAST_COMMITTED: usize = 20;

// How many actions the commits of a scene made final that the cell run does next as well; and the first one that it
// doesn't, if there is one, with what it does instead.
#[derive(Drop)]
struct Commits {
    same: usize,
    other: Option<Other>,
}

type Other = (Action, Option<Action>);

impl Commits {
    // Goes on by a batch, unless a difference was found before.
    fn add(&mut self, sequence: &mut CellState, batch: &Batch) {
        for action in batch.as_slice() {
            if self.other.is_none() {
                self.add_one(*action, next_of(sequence));
            }
        }
    }

    fn add_one(&mut self, action: Action, next: Option<Action>) {
        if next == Some(action) {
            self.same = self.same.wrapping_add(1);
        } else {
            self.other = Some((action, next));
        }
    }
}

// The next action of a cell run, if there is one; the run has then done it.
fn next_of(sequence: &mut CellState) -> Option<Action> {
    sequence.next()?;
    sequence.run_next().ok()
}

// What was found in the commits of a scene: how many of their actions the cell run does as well, counted up to the
// number wanted, and the first that it doesn't.
type Seen = (usize, Option<Other>);

// The commits of the scene that is drawn from a number on; none if it is refused.
fn commits_of(alloc: Global, seed: u64, asked: u32) -> Result<Option<Seen>, AllocError> {
    let mut numbers = DrawnNumbers { state: seed };
    let text = wide(alloc, &mut numbers)?;
    match scene_of(alloc, text.as_str())? {
        Some(scene) if (1..=MAX_REGIONS).contains(&asked) => {
            Ok(Some(commits_in(alloc, &scene, asked, &mut numbers)?))
        }
        _ => Ok(None),
    }
}

fn commits_in(
    alloc: Global,
    scene: &Scene,
    asked: u32,
    numbers: &mut DrawnNumbers,
) -> Result<Seen, AllocError>
    requires { IsAsked asked }
{
    let mut sequence = CellState::open(alloc, scene, asked)?;
    let mut committed = Committed::open(alloc, scene, asked)?;
    commits_beside(alloc, &mut sequence, &mut committed, numbers)
}

fn commits_beside(
    alloc: Global,
    sequence: &mut CellState,
    committed: &mut Committed,
    numbers: &mut DrawnNumbers,
) -> Result<Seen, AllocError> {
    let mut commits = Commits {
        same: 0,
        other: None,
    };
    for _ in 0..COMMITS {
        let batch = batch_drawn(alloc, committed, numbers)?;
        commits.add(sequence, &batch);
    }
    Ok((commits.same.min(LEAST_COMMITTED), commits.other))
}

// The actions that a commit makes final after calls that are drawn.
fn batch_drawn(
    alloc: Global,
    committed: &mut Committed,
    numbers: &mut DrawnNumbers,
) -> Result<Batch, AllocError> {
    let calls = drawn(alloc, numbers, committed.state().grid().regions() as usize)?;
    let mut regions = regions_after(alloc, committed, &calls)?;
    committed.commit(alloc, &mut regions)
}

// Steps and hearings of regions near each other, in an arbitrary order; two of three calls are steps.
fn drawn(
    alloc: Global,
    numbers: &mut DrawnNumbers,
    regions: usize,
) -> Result<Vec<Call>, AllocError> {
    let mut calls = Vec::new(alloc);
    for _ in 0..CALLS {
        calls.push(drawn_call(numbers, regions))?;
    }
    Ok(calls)
}

fn drawn_call(numbers: &mut DrawnNumbers, regions: usize) -> Call {
    let place = place_below(numbers, regions);
    let from = place
        .saturating_add(place_below(numbers, 5))
        .saturating_sub(2);
    let is_step = numbers.next(0, 3) > 0;
    (1, place, if is_step { None } else { Some(from) })
}

// One of `count` places; 0 if there is none.
fn place_below(numbers: &mut DrawnNumbers, count: usize) -> usize {
    let number = numbers.next(0, 1_024).unsigned_abs() as usize;
    number.checked_rem(count).unwrap_or(0)
}

#[test]
fn commits_are_what_the_cell_run_does(rt: HostRuntime) -> Result<(), Fail> {
    for &(seed, asked) in DRAWN {
        let found = commits_of(rt.alloc(), seed, asked)?;
        expect(&rt, (seed, asked), found, Some((LEAST_COMMITTED, None)));
    }
    Ok(())
}
