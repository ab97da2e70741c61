//! What workers do to regions.

ghost use Rattle.std.specs.Prelude.{◌<◌, IfOk, IfSome};
ghost use Rattle.cell_sequence.specs.State.{opening_state};
ghost use Rattle.local_run.specs.Bursts.{AreTogether};
ghost use Rattle.run_floors.specs.Regions.{StandOfRun};

use super::cases::expect;
use super::scenes::valid_scene;
use commit_horizon::Committed;
use event_stamps::{Kind, Stamp};
use fixed_motion::Scene;
use region_core::{Gate, Idle, OpenGate, Region};
use region_locks::Origin;
use region_workers::{Bell, Workers};
use std::alloc::{AllocError, Global};
use std::marker::Brand;
use std::process::Abort;
use std::sync::atomic::{AtomicBool, AtomicU32, Ordering};
use std::test::Fail;
use std::thread;
use std::thread::Threads;
use test_scenes::{FOUR_IN_A_ROW, LONG};

// Disk 0 reaches the cell beside its own.
const CROSSING: Stamp = Stamp {
    tick: 3,
    round: 0,
    kind: Kind::Cross,
    first: 0,
    second: 0,
};

// The regions with which the run of a scene begins.
fn opened(alloc: Global, scene: &Scene) -> Result<Vec<Region>, AllocError>
    ensures together { IfOk result (λ regions. AreTogether regions.items) }
    ensures stand { IfOk result (λ regions. StandOfRun (opening_state scene.now 4) regions.items) }
{
    // The clause of this call says that the scene is valid, so it has a run.
    let _count = scene.count();
    let committed = Committed::open(alloc, scene, 4)?;
    committed.open_all(alloc)
}

// The regions of some disks' scene after a burst by one worker, of `turns` turns with `steps` steps.
fn after_turns(
    alloc: Global,
    scene: &Scene,
    turns: u32,
    steps: u32,
) -> Result<Vec<Region>, AllocError>
    requires some_turns { 0 < turns }
    requires some_steps { 0 < steps }
{
    // Here the proof picks the state with which the run begins.
    after_turns_of::<Brand>(alloc, scene, opened(alloc, scene)?, turns, steps)
}

fn after_turns_of<O: Origin>(
    alloc: Global,
    _scene: &Scene,
    regions: Vec<Region>,
    turns: u32,
    steps: u32,
) -> Result<Vec<Region>, AllocError>
    requires together { AreTogether regions.items }
    requires stand { StandOfRun O.opening regions.items }
    requires some_turns { 0 < turns }
    requires some_steps { 0 < steps }
{
    let workers = Workers {
        workers: 1,
        turns,
        steps,
        gate: &OpenGate,
    };
    let bell: Bell<O> = Bell::new(alloc, 1)?;
    workers.burst(&bell, alloc, regions, &mut Idle, &mut ())
}

// The number of entries of a region and its clock, and how many messages it heard from region 0.
type Seen = (usize, Option<Stamp>, Option<usize>);

fn seen(region: &Region) -> Seen {
    let heard = match region.heard(0) {
        Some(trail) => Some(trail.len()),
        None => None,
    };
    (region.entries(), region.clock(), heard)
}

// Region 0 has made its step, region 1 has heard of it before its own step and taken it in, and nothing else has
// happened.
const ONE_STEP_ON: &[Seen] = &[
    (1, Some(CROSSING), None),
    (1, Some(CROSSING), Some(1)),
    (0, None, None),
    (0, None, None),
];

#[test]
fn a_worker_steps_and_hears(rt: HostRuntime) -> Result<(), Fail> {
    for (number, &want) in ONE_STEP_ON.iter().enumerate() {
        let found = seen_after_one_step(&rt, rt.alloc(), number)?;
        expect(&rt, number, found, Some((4, want)));
    }
    Ok(())
}

// How many regions there are after the burst, and one of them; none if there is no such region.
fn seen_after_one_step(
    rt: &impl Abort,
    alloc: Global,
    number: usize,
) -> Result<Option<(usize, Seen)>, AllocError> {
    let scene = valid_scene(rt, alloc, LONG, 8, 40, FOUR_IN_A_ROW)?;
    let regions = after_turns(alloc, &scene, 1, 1)?;
    Ok(seen_among(&regions, number))
}

fn seen_among(regions: &[Region], number: usize) -> Option<(usize, Seen)> {
    let region = regions.get(number)?;
    Some((regions.len(), seen(region)))
}

// One disk in each region that bounces up and down, every other tick or so.
const BOUNCING_APART: &str = "[50, 10, 0, 8], [150, 10, 0, 8], [250, 10, 0, 8], [350, 10, 0, 8]";

// Most of the steps of four turns with 64 steps, and more than any two slices have.
const MOST: usize = 150;

// If a burst ended early, or left a region out of its slices, a region would have made fewer steps.
#[test]
fn each_region_goes_on_to_the_end_of_a_burst(rt: HostRuntime) -> Result<(), Fail> {
    let found = least_after_turns(&rt, rt.alloc())?;
    expect(
        &rt,
        "least steps",
        found.map(|least| least >= MOST),
        Some(true),
    );
    Ok(())
}

// The least number of entries that a region has after four turns with 64 steps; none if there is no region.
fn least_after_turns(rt: &impl Abort, alloc: Global) -> Result<Option<usize>, AllocError> {
    let scene = valid_scene(rt, alloc, LONG, 8, 4000, BOUNCING_APART)?;
    let regions = after_turns(alloc, &scene, 4, 64)?;
    Ok(least_entries(&regions))
}

fn least_entries(regions: &[Region]) -> Option<usize> {
    let mut least = None;
    for region in regions {
        let entries = region.entries();
        least = Some(least.map_or(entries, |before: usize| before.min(entries)));
    }
    least
}

// A gate at which worker 0 waits in its first turn until worker 1 was here, and notes whether it was. It counts all
// turns, and notes whether a worker could have been held up.
#[derive(Drop)]
struct Meeting {
    came: AtomicBool,
    met: AtomicBool,
    turns: AtomicU32,
    paused: AtomicBool,
}

impl Gate for Meeting {
    fn turn(&self, worker: u32, _turn: u32) {
        self.turns.fetch_add(1, Ordering::SeqCst);
        if worker == 1 {
            self.came.store(true, Ordering::SeqCst);
            return;
        }
        for _ in 0..10_000_000u32 {
            if self.came.load(Ordering::SeqCst) {
                self.met.store(true, Ordering::SeqCst);
                return;
            }
            thread::yield_now();
        }
    }

    fn pause(&self, _worker: u32) {
        self.paused.store(true, Ordering::SeqCst);
    }
}

// How many regions two workers give back, whether the workers met, how many turns they began, and whether one could
// have been held up.
type Met = (usize, bool, u32, bool);

#[test]
fn two_workers_meet(rt: HostRuntime) -> Result<(), Fail> {
    let found: Met = met(&rt, rt.alloc())?;
    expect(&rt, "two workers", found, (4, true, 131_072, true));
    Ok(())
}

fn met<R: Threads + Sync + Abort>(rt: &R, alloc: Global) -> Result<Met, AllocError> {
    let gate = Meeting {
        came: AtomicBool::new(false),
        met: AtomicBool::new(false),
        turns: AtomicU32::new(0),
        paused: AtomicBool::new(false),
    };
    let scene = valid_scene(rt, alloc, LONG, 8, 20, "")?;
    let count = count_after(rt, alloc, &scene, &gate)?;
    Ok((
        count,
        gate.met.load(Ordering::SeqCst),
        gate.turns.load(Ordering::SeqCst),
        gate.paused.load(Ordering::SeqCst),
    ))
}

// How many regions two workers give back that pass a gate. Without disks there is nothing to do, so these turns would
// take minutes only if they did more than pass the gate.
fn count_after<R: Threads + Sync>(
    rt: &R,
    alloc: Global,
    scene: &Scene,
    gate: &Meeting,
) -> Result<usize, AllocError> {
    // Here the proof picks the state with which the run begins.
    count_of::<Brand, R>(rt, alloc, scene, opened(alloc, scene)?, gate)
}

fn count_of<O: Origin + Send + Sync, R: Threads + Sync>(
    rt: &R,
    alloc: Global,
    _scene: &Scene,
    regions: Vec<Region>,
    gate: &Meeting,
) -> Result<usize, AllocError>
    requires together { AreTogether regions.items }
    requires stand { StandOfRun O.opening regions.items }
{
    let workers = Workers {
        workers: 2,
        turns: 65_536,
        steps: 4096,
        gate,
    };
    let bell: Bell<O> = Bell::new(alloc, 2)?;
    count_with_helper(rt, alloc, regions, &workers, &bell)
}

// The same with a bell that calls a helper, which lives a little longer than the burst.
fn count_with_helper<O: Origin + Send + Sync, R: Threads + Sync>(
    rt: &R,
    alloc: Global,
    regions: Vec<Region>,
    workers: &Workers<'_, Meeting>,
    bell: &Bell<O>,
) -> Result<usize, AllocError>
    requires together { AreTogether regions.items }
    requires stand { StandOfRun O.opening regions.items }
{
    let mut given = Some(regions);
    workers.around(
        rt,
        bell,
        1,
        &mut || -> Result<usize, AllocError>
            requires { IfSome given (λ regions. AreTogether regions.items × StandOfRun O.opening regions.items) }
        {
            let Some(regions) = given.take() else {
                return Ok(0);
            };
            let worked = workers.burst(bell, alloc, regions, &mut Idle, &mut ())?;
            Ok(worked.len())
        },
    )
}
