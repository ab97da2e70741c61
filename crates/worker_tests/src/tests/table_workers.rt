//! What workers on a table do to regions, and that two of them work at once.

ghost use Rattle.std.specs.Prelude.{◌≡◌, length, None, IfOk};
ghost use Rattle.cell_sequence.specs.State.{opening_state};
ghost use Rattle.local_run.specs.Bursts.{AreTogether};
ghost use Rattle.local_run.specs.RunOn.{AreRunOn};
ghost use Rattle.commit_horizon.specs.TellingOn.{TellsOn};

use super::cases::expect;
use super::regions::{REGIONS, opened};
use event_rules::{Change, Deaf, Listener};
use event_stamps::{Kind, Stamp};
use fixed_motion::Scene;
use region_core::{Gate, OpenGate, Region};
use region_locks::Origin;
use region_table::burst_in_table;
use region_workers::{ByRunCall, RunCall, Workers};
use run_core::{Telling, simulate_by};
use std::alloc::{AllocError, Global};
use std::marker::Brand;
use std::sync::atomic::{AtomicBool, Ordering};
use std::test::Fail;
use std::thread;
use std::thread::Threads;
use test_scenes::{FOUR_IN_A_ROW, LONG, scene, scene_of};

// Disk 0 reaches the cell beside its own.
const CROSSING: Stamp = Stamp {
    tick: 3,
    round: 0,
    kind: Kind::Cross,
    first: 0,
    second: 0,
};

// How many collisions the four disks in a row have up to the end.
const COLLISIONS: u32 = 4;

// The scene of four disks in a row.
fn row_scene(alloc: Global) -> Result<Option<Scene>, AllocError> {
    let text = scene(alloc, LONG, 8, 40, FOUR_IN_A_ROW)?;
    scene_of(alloc, text.as_str())
}

// Whether a region is spent, the number of its entries and its clock, and how many messages it heard from region 0.
type Seen = (bool, usize, Option<Stamp>, Option<usize>);

// Region 0 has made its step, region 1 has heard of it, and nothing else has happened.
const ONE_STEP_ON: [Option<Seen>; 5] = [
    Some((false, 1, Some(CROSSING), None)),
    Some((false, 0, None, Some(1))),
    Some((false, 0, None, None)),
    Some((false, 0, None, None)),
    None,
];

fn seen_at(regions: &[Region], place: usize) -> Option<Seen> {
    let region = regions.get(place)?;
    let heard = match region.heard(0) {
        Some(trail) => Some(trail.len()),
        None => None,
    };
    Some((region.is_spent(), region.entries(), region.clock(), heard))
}

// The regions of the scene after a burst by one worker, of one turn with one step; none if the scene is refused.
fn after_one_step<R: Threads + Sync>(
    rt: &R,
    alloc: Global,
) -> Result<Option<[Option<Seen>; 5]>, AllocError> {
    match row_scene(alloc)? {
        Some(scene) => one_step_on(rt, alloc, opened(alloc, &scene)?),
        None => Ok(None),
    }
}

fn one_step_on<R: Threads + Sync>(
    rt: &R,
    alloc: Global,
    regions: Vec<Region>,
) -> Result<Option<[Option<Seen>; 5]>, AllocError>
    requires { AreTogether regions.items }
{
    let workers = Workers {
        workers: 1,
        turns: 1,
        steps: 1,
        gate: &OpenGate,
    };
    let worked = burst_in_table(&workers, rt, alloc, regions)?;
    Ok(Some([
        seen_at(&worked, 0),
        seen_at(&worked, 1),
        seen_at(&worked, 2),
        seen_at(&worked, 3),
        seen_at(&worked, 4),
    ]))
}

#[test]
fn a_worker_steps_and_hears(rt: HostRuntime) -> Result<(), Fail> {
    let found = after_one_step(&rt, rt.alloc())?;
    expect(&rt, "regions", found, Some(ONE_STEP_ON));
    Ok(())
}

// A gate at which worker 0, when it first comes, waits for a while until worker 1 was there, and notes whether it was.
#[derive(Drop)]
struct Meeting {
    came: AtomicBool,
    met: AtomicBool,
    waited: AtomicBool,
}

impl Gate for Meeting {
    fn turn(&self, worker: u32, _turn: u32) {
        if worker == 1 {
            self.came.store(true, Ordering::SeqCst);
            return;
        }
        if self.waited.swap(true, Ordering::SeqCst) {
            return;
        }
        for _ in 0..10_000_000u32 {
            if self.came.load(Ordering::SeqCst) {
                self.met.store(true, Ordering::SeqCst);
                return;
            }
            thread::yield_now();
        }
    }
}

// A listener that counts the changes that it is told.
#[derive(Drop)]
struct Counter {
    changes: u32,
}

impl Listener for Counter {
    ghost use Rattle.std.specs.Prelude.{None};

    ghost Meaning = { Unit {0} };

    ghost after = { λ m _. m };

    ghost torn = { λ _ _ _. Unit {0} };

    ghost awaits = { λ _ _. Unit {0} };

    ghost meaning = { λ _. None };

    ghost faults = { λ _. 0 };

    fn faults(&self) -> u64 {
        0
    }

    fn event(&mut self, _change: &Change) -> Result<(), Deaf> {
        self.changes = self.changes.saturating_add(1);
        Ok(())
    }
}

// How many changes a run tells over which workers work; none if it is cut short.
fn changes_by<R: Threads + Sync>(
    rt: &R,
    alloc: Global,
    scene: &Scene,
    workers: &Workers<'_, Meeting>,
) -> Option<u32> {
    // Here the proof picks the state with which the run begins, for which a type stands.
    changes_of::<Brand, R>(rt, alloc, scene, workers)
}

fn changes_of<O: Origin, R: Threads + Sync>(
    rt: &R,
    alloc: Global,
    scene: &Scene,
    workers: &Workers<'_, Meeting>,
) -> Option<u32>
    requires of { O.opening ≡ opening_state scene.now 4 }
{
    changes_by_call::<O, R, _>(
        rt,
        alloc,
        scene,
        |regions: Vec<Region>, _telling: &mut Telling, _counter: &mut Counter| -> Worked
            requires { AreTogether regions.items }
            ensures given { IfOk result (λ worked. (length worked.items ≡ length regions.items)
                × AreRunOn regions.items worked.items) }
            ensures beside { TellsOn (λ (m : Unit {0}) _. m) (λ _ _ _. Unit {0})
                _telling.old.untold _telling.old.fault None 0 _telling.new.untold _telling.new.fault None 0 }
        { burst_in_table(workers, rt, alloc, regions) },
    )
}

// The regions that a burst gives back.
type Worked = Result<Vec<Region>, AllocError>;

fn changes_by_call<O: Origin, R: Threads + Sync, C: RunCall<O, Telling, Counter> + Drop>(
    rt: &R,
    alloc: Global,
    scene: &Scene,
    call: C,
) -> Option<u32>
    requires keeping { C.keeping call }
    requires of { O.opening ≡ opening_state scene.now 4 }
{
    let mut burst = ByRunCall::<O, Telling, Counter, C>::new(call, 1);
    let mut counter = Counter { changes: 0 };
    match simulate_by(rt, alloc, scene, REGIONS, &mut burst, &mut counter) {
        Ok(_) => Some(counter.changes),
        Err(_) => None,
    }
}

// How many changes a run tells over which two workers work, and whether these met; none if the scene is refused.
fn met<R: Threads + Sync>(
    rt: &R,
    alloc: Global,
) -> Result<Option<(Option<u32>, bool)>, AllocError> {
    match row_scene(alloc)? {
        Some(scene) => Ok(Some(met_in(rt, alloc, &scene))),
        None => Ok(None),
    }
}

fn met_in<R: Threads + Sync>(rt: &R, alloc: Global, scene: &Scene) -> (Option<u32>, bool) {
    let gate = Meeting {
        came: AtomicBool::new(false),
        met: AtomicBool::new(false),
        waited: AtomicBool::new(false),
    };
    let workers = Workers {
        workers: 2,
        turns: 3,
        steps: 5,
        gate: &gate,
    };
    let changes = changes_by(rt, alloc, scene, &workers);
    (changes, gate.met.load(Ordering::SeqCst))
}

#[test]
fn two_workers_meet(rt: HostRuntime) -> Result<(), Fail> {
    let found = met(&rt, rt.alloc())?;
    expect(
        &rt,
        "changes, and whether they met",
        found,
        Some((Some(COLLISIONS), true)),
    );
    Ok(())
}
