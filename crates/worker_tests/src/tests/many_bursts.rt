//! Helpers live as long as a run, and work on each of its bursts.

ghost use Rattle.std.specs.Prelude.{◌≡◌, ◌<◌, ◌≤◌};
ghost use Rattle.cell_sequence.specs.State.{opening_state};

use super::cases::expect;
use super::regions::{RULES, empty_scene_of, opened_in};
use fixed_motion::{Rules, Scene};
use region_core::{Gate, Idle};
use region_locks::Origin;
use region_workers::{Bell, Workers};
use std::alloc::{AllocError, Global};
use std::marker::Brand;
use std::sync::atomic::{AtomicU32, Ordering};
use std::test::Fail;
use std::thread;
use std::thread::Threads;

const BURSTS: u32 = 3;

// A box of 64 columns, so that there is a region for each of so many workers.
const WIDE: Rules = Rules {
    width: 1_280,
    ..RULES
};

const REGIONS: u32 = 64;

// How many workers there are: one helper, all of the first group of four, and three more numbers of groups.
const CREWS: &[u32] = &[2, 4, 16, 33, 64];

// A gate at which worker 0 waits for a while, in the first turn of each burst, until each helper begins its own.
#[derive(Drop)]
struct Meetings {
    helpers: u32,
    // How often helpers came, and in how many bursts worker 0 saw that all did.
    came: AtomicU32,
    met: AtomicU32,
}

impl Meetings {
    // Whether each helper comes once more than all have met.
    fn sees_the_others(&self) -> bool {
        let bursts = self.met.load(Ordering::SeqCst).saturating_add(1);
        let comings = bursts.saturating_mul(self.helpers);
        for _ in 0..10_000_000u32 {
            if self.came.load(Ordering::SeqCst) >= comings {
                return true;
            }
            thread::yield_now();
        }
        false
    }
}

impl Gate for Meetings {
    fn turn(&self, worker: u32, _turn: u32) {
        if worker > 0 {
            self.came.fetch_add(1, Ordering::SeqCst);
        } else if self.sees_the_others() {
            self.met.fetch_add(1, Ordering::SeqCst);
        }
    }
}

// Has the workers make a burst of one turn on the regions with which the run of a scene begins.
fn burst_once<O: Origin>(
    alloc: Global,
    scene: &Scene,
    workers: &Workers<'_, Meetings>,
    bell: &Bell<O>,
) -> Result<(), AllocError>
    requires of { O.opening ≡ opening_state scene.now 64 }
{
    let regions = opened_in(alloc, scene, REGIONS)?;
    drop(workers.burst(bell, alloc, regions, &mut Idle, &mut ())?);
    Ok(())
}

// The same as often as there are bursts.
fn burst_often<O: Origin>(
    alloc: Global,
    scene: &Scene,
    workers: &Workers<'_, Meetings>,
    bell: &Bell<O>,
) -> Result<(), AllocError>
    requires of { O.opening ≡ opening_state scene.now 64 }
{
    for _ in 0..BURSTS {
        burst_once(alloc, scene, workers, bell)?;
    }
    Ok(())
}

// The same while the helpers are there, of so many workers in all.
fn burst_with_helpers<O: Origin + Send + Sync, R: Threads + Sync>(
    rt: &R,
    alloc: Global,
    scene: &Scene,
    crew: u32,
    gate: &Meetings,
) -> Result<(), AllocError>
    requires some { 0 < crew }
    requires few { crew ≤ 64 }
    requires of { O.opening ≡ opening_state scene.now 64 }
{
    let workers = Workers {
        workers: crew,
        turns: 1,
        steps: 1,
        gate,
    };
    let bell: Bell<O> = Bell::new(alloc, crew)?;
    workers.around(
        rt,
        &bell,
        1,
        &mut || -> Result<(), AllocError>
            requires { O.opening ≡ opening_state scene.now 64 }
        { burst_often(alloc, scene, &workers, &bell) },
    )
}

// In how many bursts all of so many workers meet; none if there is no scene.
fn bursts_met<R: Threads + Sync>(
    rt: &R,
    alloc: Global,
    crew: u32,
) -> Result<Option<u32>, AllocError> {
    match empty_scene_of(alloc, WIDE) {
        Some(scene) => Ok(Some(bursts_met_in(rt, alloc, &scene, crew.clamp(1, 64))?)),
        None => Ok(None),
    }
}

fn bursts_met_in<R: Threads + Sync>(
    rt: &R,
    alloc: Global,
    scene: &Scene,
    crew: u32,
) -> Result<u32, AllocError>
    requires some { 0 < crew }
    requires few { crew ≤ 64 }
{
    let gate = Meetings {
        helpers: crew - 1,
        came: AtomicU32::new(0),
        met: AtomicU32::new(0),
    };
    // Here the proof picks the state with which the run begins.
    burst_with_helpers::<Brand, R>(rt, alloc, scene, crew, &gate)?;
    Ok(gate.met.load(Ordering::SeqCst))
}

#[test]
fn each_helper_comes_to_each_burst(rt: HostRuntime) -> Result<(), Fail> {
    for &crew in CREWS {
        let found = bursts_met(&rt, rt.alloc(), crew)?;
        expect(
            &rt,
            (crew, "workers, bursts in which all meet"),
            found,
            Some(BURSTS),
        );
    }
    Ok(())
}
