//! Runs over regions, with various bursts between two commits.

ghost use Rattle.std.specs.Prelude.{◌≡◌, Some};
ghost use Rattle.cell_grid.specs.Grid.{IsAsked};
ghost use Rattle.cell_sequence.specs.State.{opening_state};

use super::cases::{Case, expect};
use super::scenes::valid_scene;
use super::told::{Summing, Told, expect_plain, told_of};
use cell_grid::MAX_REGIONS;
use cell_sequence::CellState;
use fixed_motion::Scene;
use region_core::{Beside, Burst, OpenGate, Region};
use region_locks::Origin;
use region_workers::{Bell, Workers};
use run_core::{CoreStep, RunBurst, Scripted, Telling, play, simulate, simulate_by};
use std::alloc::{AllocError, Global};
use std::marker::Brand;
use std::mem;
use std::process::Abort;
use std::test::Fail;
use std::thread::Threads;
use test_scenes::{
    BOUNCING, DrawnNumbers, FOUR_IN_A_ROW, LONG, MISLED, ROLLED_BACK, USUAL, generated, scene_of,
};

// What is done to the regions in a burst. If a deed names a place where there is no region, it does nothing.
#[derive(Clone, Copy)]
enum Deed {
    // This call is made this many times.
    Repeat(u32, CoreStep),
    // Two regions change places.
    Swap(u32, u32),
    // A region is spent.
    Spend(u32),
    // The region of another state, with its number, takes the place of one.
    Replace(u32),
}

// Goes on with the work beside and does the same deeds in each burst.
#[derive(Drop)]
struct Tampering<'a> {
    deeds: &'a [Deed],
    other: &'a CellState,
}

impl<'a, S: Beside<W>, W> Burst<S, W> for Tampering<'a> {
    fn burst<R: Threads + Sync>(
        &mut self,
        _rt: &R,
        alloc: Global,
        mut regions: Vec<Region>,
        beside: &mut S,
        lent: &mut W,
    ) -> Result<Vec<Region>, AllocError> {
        let _more = beside.go_on(lent);
        tamper(alloc, &mut regions, self.deeds, self.other)?;
        Ok(regions)
    }
}

fn tamper(
    alloc: Global,
    regions: &mut [Region],
    deeds: &[Deed],
    other: &CellState,
) -> Result<(), AllocError> {
    for &deed in deeds {
        act(alloc, regions, deed, other)?;
    }
    Ok(())
}

fn act(
    alloc: Global,
    regions: &mut [Region],
    deed: Deed,
    other: &CellState,
) -> Result<(), AllocError> {
    match deed {
        Deed::Repeat(times, step) => repeat(alloc, regions, times, step),
        Deed::Swap(first, second) => Ok(swap(regions, first as usize, second as usize)),
        Deed::Spend(number) => Ok(spend(regions.get_mut(number as usize))),
        Deed::Replace(number) => replace(alloc, regions.get_mut(number as usize), other),
    }
}

fn repeat(
    alloc: Global,
    regions: &mut [Region],
    times: u32,
    step: CoreStep,
) -> Result<(), AllocError> {
    for _ in 0..times {
        play(alloc, regions, &[step])?;
    }
    Ok(())
}

fn swap(regions: &mut [Region], first: usize, second: usize) {
    if first < regions.len() && second < regions.len() {
        regions.swap(first, second);
    }
}

fn spend(region: Option<&mut Region>) {
    if let Some(region) = region {
        let (rules, grid) = (region.rules(), region.grid());
        let spent = Region::spent(region.number(), rules, grid, region.floor());
        put(region, spent);
    }
}

fn put(place: &mut Region, region: Region) {
    drop(mem::replace(place, region));
}

fn replace(
    alloc: Global,
    region: Option<&mut Region>,
    other: &CellState,
) -> Result<(), AllocError> {
    let Some(region) = region else {
        return Ok(());
    };
    let number = region.number();
    if number < other.grid().regions() {
        put(region, Region::open(alloc, other, number)?);
    }
    Ok(())
}

// What the run over `regions` regions tells, on which a burst works. Stops a test if the engine that looks at all pairs
// tells something else.
fn run_beside<B: Burst<Telling, Summing>>(
    rt: &(impl Threads + Sync + Abort),
    alloc: Global,
    case: Case<'_>,
    scene: &Scene,
    regions: u32,
    burst: &mut B,
) -> Result<Told, AllocError>
    requires asked { IsAsked regions }
{
    let found = told_over(rt, alloc, scene, regions, burst)?;
    expect_plain(rt, alloc, case, scene, found)?;
    Ok(found)
}

fn told_over<B: Burst<Telling, Summing>>(
    rt: &(impl Threads + Sync),
    alloc: Global,
    scene: &Scene,
    regions: u32,
    burst: &mut B,
) -> Result<Told, AllocError>
    requires asked { IsAsked regions }
{
    let mut listener = Summing::new();
    let outcome = simulate(rt, alloc, scene, regions, burst, &mut listener);
    told_of(&listener, &outcome)
}

// The sizes, the end and the disks of a scene.
type Sketch = (&'static str, u32, &'static str);

// How many changes the run of a scene over `regions` regions tells, if these deeds are done to the regions in each
// burst, and whether the burst says that it keeps them. Stops a test if the run tells something else than the plain
// one.
fn run_under(
    rt: &(impl Threads + Sync + Abort),
    alloc: Global,
    case: Case<'_>,
    scene: &Scene,
    other: &CellState,
    regions: u32,
    deeds: &[Deed],
) -> Result<(usize, bool), AllocError>
    requires { IsAsked regions }
{
    let mut burst = Tampering { deeds, other };
    let told = run_beside(rt, alloc, case, scene, regions, &mut burst)?;
    Ok((told.0.0, keeps(&burst)))
}

// Whether a burst says that it keeps the regions.
fn keeps<B: Burst<Telling, Summing>>(burst: &B) -> bool {
    burst.keeps()
}

// The same for a scene that is opened; the other state is the start of the same disks with a later end.
fn count_under(
    rt: &(impl Threads + Sync + Abort),
    alloc: Global,
    number: usize,
    sketch: Sketch,
    regions: u32,
    deeds: &[Deed],
) -> Result<(usize, bool), AllocError>
    requires { IsAsked regions }
{
    let (sizes, end, disks) = sketch;
    let other = state_of(rt, alloc, (sizes, end.wrapping_add(1), disks), regions)?;
    let scene = valid_scene(rt, alloc, sizes, 8, end, disks)?;
    run_under(rt, alloc, (number, disks), &scene, &other, regions, deeds)
}

fn state_of(
    rt: &impl Abort,
    alloc: Global,
    sketch: Sketch,
    regions: u32,
) -> Result<CellState, AllocError>
    requires { IsAsked regions }
{
    let (sizes, end, disks) = sketch;
    let scene = valid_scene(rt, alloc, sizes, 8, end, disks)?;
    CellState::open(alloc, &scene, regions)
}

const FOUR: Sketch = (LONG, 40, FOUR_IN_A_ROW);

// The number of regions for the four disks' scene, and what is done to them.
type DeedRow = (u32, &'static [Deed]);

fn expect_rows(
    rt: &(impl Threads + Sync + Abort),
    alloc: Global,
    rows: &[DeedRow],
) -> Result<(), AllocError> {
    for (number, &(regions, deeds)) in rows.iter().enumerate() {
        assert!(rt; 1 <= regions && regions <= MAX_REGIONS, "{regions} regions");
        count_under(rt, alloc, number, FOUR, regions, deeds)?;
    }
    Ok(())
}

const RESTING: &[DeedRow] = &[(1, &[]), (2, &[]), (4, &[]), (20, &[])];

#[test]
fn regions_that_rest_tell_the_plain_run(rt: HostRuntime) -> Result<(), Fail> {
    expect_rows(&rt, rt.alloc(), RESTING)?;
    Ok(())
}

const MOVED_OR_LOST: &[DeedRow] = &[
    (4, &[Deed::Swap(0, 1)]),
    (4, &[Deed::Swap(0, 3), Deed::Swap(1, 2)]),
    (
        4,
        &[
            Deed::Spend(0),
            Deed::Spend(1),
            Deed::Spend(2),
            Deed::Spend(3),
        ],
    ),
    // As many steps as a log has entries.
    (4, &[Deed::Repeat(4_096, CoreStep::Turn(3))]),
];

#[test]
fn regions_that_are_moved_or_lost_tell_the_plain_run(rt: HostRuntime) -> Result<(), Fail> {
    expect_rows(&rt, rt.alloc(), MOVED_OR_LOST)?;
    Ok(())
}

const REPLACED: &[DeedRow] = &[(
    4,
    &[
        Deed::Replace(0),
        Deed::Replace(1),
        Deed::Replace(2),
        Deed::Replace(3),
    ],
)];

#[test]
fn regions_of_another_scene_tell_the_plain_run(rt: HostRuntime) -> Result<(), Fail> {
    expect_rows(&rt, rt.alloc(), REPLACED)?;
    Ok(())
}

// How many steps a region makes in a burst of the workers, and in one of the workers that swap two regions afterwards.
const STEPS: u32 = 8;

const RUN_AND_SWAPPED: &[Deed] = &[
    Deed::Repeat(STEPS, CoreStep::Turn(0)),
    Deed::Repeat(STEPS, CoreStep::Turn(1)),
    Deed::Repeat(STEPS, CoreStep::Turn(2)),
    Deed::Repeat(STEPS, CoreStep::Turn(3)),
    Deed::Swap(0, 1),
];

// Workers on the regions of one run, under locks.
#[derive(Drop)]
struct UnderLocks<'c, O: Origin> {
    workers: &'c Workers<'c, OpenGate>,
    bell: &'c Bell<O>,
}

impl<'c, S: Beside<W>, W, O: Origin> RunBurst<S, W> for UnderLocks<'c, O> {
    ghost of = { λ _. Some O.opening };

    ghost keeping = { λ _. Unit {0} };

    fn keeps(&self) -> bool {
        true
    }

    fn threads(&self) -> u32 {
        self.workers.workers
    }

    fn burst<R: Threads + Sync>(
        &mut self,
        _rt: &R,
        alloc: Global,
        regions: Vec<Region>,
        beside: &mut S,
        lent: &mut W,
    ) -> Result<Vec<Region>, AllocError> {
        self.workers.burst(self.bell, alloc, regions, beside, lent)
    }
}

// Has workers that keep the four regions run a scene. Stops a test if the run tells something else than the plain one.
fn run_by_workers<R: Threads + Sync + Abort>(
    rt: &R,
    alloc: Global,
    number: usize,
    (sizes, end, disks): Sketch,
) -> Result<(), AllocError> {
    let scene = valid_scene(rt, alloc, sizes, 8, end, disks)?;
    // Here the proof picks the state with which the run begins.
    run_under_locks::<Brand, R>(rt, alloc, (number, disks), &scene)
}

fn run_under_locks<O: Origin, R: Threads + Sync + Abort>(
    rt: &R,
    alloc: Global,
    case: Case<'_>,
    scene: &Scene,
) -> Result<(), AllocError>
    requires of { O.opening ≡ opening_state scene.now 4 }
{
    let workers = Workers {
        workers: 2,
        turns: 1,
        steps: STEPS,
        gate: &OpenGate,
    };
    let bell: Bell<O> = Bell::new(alloc, 2)?;
    let found = told_by_workers(rt, alloc, scene, &workers, &bell)?;
    expect_plain(rt, alloc, case, scene, found)
}

fn told_by_workers<O: Origin, R: Threads + Sync>(
    rt: &R,
    alloc: Global,
    scene: &Scene,
    workers: &Workers<'_, OpenGate>,
    bell: &Bell<O>,
) -> Result<Told, AllocError>
    requires of { O.opening ≡ opening_state scene.now 4 }
{
    let mut burst = UnderLocks { workers, bell };
    let mut listener = Summing::new();
    let outcome = simulate_by(rt, alloc, scene, 4, &mut burst, &mut listener);
    told_of(&listener, &outcome)
}

const KEPT_OR_SWAPPED: &[Sketch] = &[FOUR, (LONG, 20, ROLLED_BACK)];

// The regions of workers that keep them are taken over as they come; those of a burst that swaps two only if they stand.
// A listener sees no difference.
#[test]
fn bursts_that_keep_and_that_swap_are_told_apart_by_nothing(rt: HostRuntime) -> Result<(), Fail> {
    for (number, &row) in KEPT_OR_SWAPPED.iter().enumerate() {
        run_by_workers(&rt, rt.alloc(), number, row)?;
        let (_, keeps) = count_under(&rt, rt.alloc(), number, row, 4, RUN_AND_SWAPPED)?;
        expect(&rt, number, keeps, false);
    }
    Ok(())
}

// It hits a side at every other tick.
#[test]
fn a_long_run_of_one_region_tells_the_plain_run(rt: HostRuntime) -> Result<(), Fail> {
    let (found, _) = count_under(&rt, rt.alloc(), 0, (USUAL, 10_000, BOUNCING), 1, &[])?;
    expect(&rt, BOUNCING, found, 5_000);
    Ok(())
}

// The calls of a script: how often each one is made, one after the other.
type Calls = (u32, CoreStep);

fn script(alloc: Global, calls: &[Calls]) -> Result<Scripted, AllocError> {
    let mut steps = Vec::new(alloc);
    for &(times, call) in calls {
        for _ in 0..times {
            steps.push(call)?;
        }
    }
    Scripted::new(alloc, &steps)
}

// Regions 1 and 2 run to the end before region 0 sends disk 0, and then take back what they did.
const ROLLBACK: &[Calls] = &[
    (10, CoreStep::Turn(1)),
    (1, CoreStep::Hear { hearer: 2, from: 1 }),
    (10, CoreStep::Turn(2)),
    (1, CoreStep::Turn(0)),
    (1, CoreStep::Hear { hearer: 1, from: 0 }),
    (1, CoreStep::Hear { hearer: 2, from: 1 }),
];

// Region 1 passes the speed limit only until it is told of disk 1.
const LIMIT_BY_MISTAKE: &[Calls] = &[
    (2, CoreStep::Turn(1)),
    (1, CoreStep::Turn(0)),
    (1, CoreStep::Hear { hearer: 1, from: 0 }),
    (3, CoreStep::Turn(1)),
];

// Disks, the end, what four regions do in the first burst, and the number of events.
type ScriptRow = (&'static str, u32, &'static [Calls], usize);

const SCRIPTS: &[ScriptRow] = &[
    (ROLLED_BACK, 20, ROLLBACK, 10),
    (MISLED, 3, LIMIT_BY_MISTAKE, 2),
];

#[test]
fn scripts_tell_the_plain_run(rt: HostRuntime) -> Result<(), Fail> {
    for (number, row) in SCRIPTS.iter().enumerate() {
        let found = count_of_script(&rt, rt.alloc(), number, row)?;
        expect(&rt, number, found, row.3);
    }
    Ok(())
}

fn count_of_script(
    rt: &(impl Threads + Sync + Abort),
    alloc: Global,
    number: usize,
    &(disks, end, calls, _): &ScriptRow,
) -> Result<usize, AllocError> {
    let scene = valid_scene(rt, alloc, LONG, 8, end, disks)?;
    told_by_script(rt, alloc, (number, disks), &scene, calls)
}

fn told_by_script(
    rt: &(impl Threads + Sync + Abort),
    alloc: Global,
    case: Case<'_>,
    scene: &Scene,
    calls: &[Calls],
) -> Result<usize, AllocError> {
    let mut burst = script(alloc, calls)?;
    Ok(run_beside(rt, alloc, case, scene, 4, &mut burst)?.0.0)
}

// Steps and hearings in an arbitrary order; some regions are swapped, spent or replaced.
const HOSTILE: &[Deed] = &[
    Deed::Repeat(3, CoreStep::Turn(2)),
    Deed::Repeat(1, CoreStep::Hear { hearer: 1, from: 2 }),
    Deed::Repeat(5, CoreStep::Turn(1)),
    Deed::Spend(3),
    Deed::Repeat(1, CoreStep::Hear { hearer: 0, from: 1 }),
    Deed::Repeat(2, CoreStep::Turn(0)),
    Deed::Swap(1, 2),
    Deed::Repeat(4, CoreStep::Turn(1)),
    Deed::Repeat(1, CoreStep::Hear { hearer: 2, from: 1 }),
    Deed::Replace(0),
    Deed::Repeat(9, CoreStep::Turn(0)),
    Deed::Repeat(1, CoreStep::Hear { hearer: 3, from: 0 }),
];

// The number of generated scenes that are run; others are refused.
const GENERATED: u64 = 20;

const MOST_TRIED: u32 = 100;

#[test]
fn hostile_bursts_tell_the_plain_run(rt: HostRuntime) -> Result<(), Fail> {
    let mut numbers = DrawnNumbers { state: 5 };
    let mut found: u64 = 0;
    for _ in 0..MOST_TRIED {
        if found < GENERATED && is_run(&rt, rt.alloc(), &mut numbers, found)? {
            found = found.wrapping_add(1);
        }
    }
    expect(&rt, "scenes", found, GENERATED);
    Ok(())
}

// Runs the next generated scene under hostile bursts. False if it is refused.
fn is_run(
    rt: &(impl Threads + Sync + Abort),
    alloc: Global,
    numbers: &mut DrawnNumbers,
    found: u64,
) -> Result<bool, AllocError> {
    let text = generated(alloc, numbers)?;
    match scene_of(alloc, text.as_str())? {
        Some(scene) => run_hostile(rt, alloc, text.as_str(), &scene, found),
        None => Ok(false),
    }
}

fn run_hostile(
    rt: &(impl Threads + Sync + Abort),
    alloc: Global,
    text: &str,
    scene: &Scene,
    found: u64,
) -> Result<bool, AllocError> {
    let other = CellState::open(alloc, scene, 4)?;
    let case = (found as usize, text);
    run_under(rt, alloc, case, scene, &other, 4, HOSTILE)?;
    Ok(true)
}
