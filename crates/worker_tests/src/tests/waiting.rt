//! Regions under locks that are waited for: each has one of its own, and two are taken in one order.

ghost use Rattle.std.specs.Prelude.{◌≢◌, ◌<◌, ◌^◌, length};
ghost use Rattle.run_floors.specs.Regions.{StandOfRun};

use super::cases::expect;
use super::locks::sees;
use super::regions::{empty_scene, opened};
use fixed_motion::Scene;
use region_core::Region;
use region_locks::{Locks, Origin};
use std::alloc::{AllocError, Global};
use std::marker::Brand;
use std::sync::Wait;
use std::sync::atomic::{AtomicBool, Ordering};
use std::test::Fail;
use std::thread;
use std::thread::Threads;

// Holds the lock of region 0 while it looks for the other thread's flag.
fn hold<O: Origin, R: Wait>(rt: &R, locks: &Locks<O>, held: &AtomicBool, done: &AtomicBool) -> bool
    requires { 0 < locks.now }
{
    let _region = locks.hold(rt, 0);
    held.store(true, Ordering::SeqCst);
    sees(done)
}

// Makes a turn of region 1 once the other thread has its lock.
fn turn_one<O: Origin, R: Wait>(
    rt: &R,
    alloc: Global,
    locks: &Locks<O>,
    held: &AtomicBool,
    done: &AtomicBool,
) -> Result<bool, AllocError>
    requires { 1 < locks.now }
{
    let seen = sees(held);
    locks.turn(rt, alloc, 1, 3)?;
    done.store(true, Ordering::SeqCst);
    Ok(seen)
}

// Has two threads work at once, each under the lock of another region. True if each saw the other: with one lock for
// all regions, the turn would begin only after the first thread has given up looking.
fn work_apart<O: Origin + Send + Sync, R: Threads + Wait + Sync>(
    rt: &R,
    alloc: Global,
    locks: &Locks<O>,
) -> Result<bool, AllocError>
    requires { 1 < locks.now }
{
    let held = AtomicBool::new(false);
    let done = AtomicBool::new(false);
    let (saw, turned) = thread::join(
        rt,
        || hold(rt, locks, &held, &done),
        || turn_one(rt, alloc, locks, &held, &done),
    );
    Ok(turned? && saw)
}

// How often each of two threads has its region hear the other's.
const MEETINGS: u32 = 10_000;

// Once the other thread is there, has a region hear another again and again. True if it saw the other thread.
fn meet_often<O: Origin, R: Wait>(
    rt: &R,
    alloc: Global,
    locks: &Locks<O>,
    hearer: u32,
    from: u32,
    here: &AtomicBool,
    there: &AtomicBool,
) -> Result<bool, AllocError>
    requires hearer { hearer < locks.now }
    requires from { from < locks.now }
    requires apart { hearer ≢ from }
{
    here.store(true, Ordering::SeqCst);
    let seen = sees(there);
    for _ in 0..MEETINGS {
        locks.meet(rt, alloc, hearer, from)?;
    }
    Ok(seen)
}

// Has two regions hear each other at once. True if each thread saw the other. If each of them took the lock of its own
// region first, both would soon wait for each other, and this wouldn't end.
fn meet_crosswise<O: Origin + Send + Sync, R: Threads + Wait + Sync>(
    rt: &R,
    alloc: Global,
    locks: &Locks<O>,
) -> Result<bool, AllocError>
    requires { 1 < locks.now }
{
    let first = AtomicBool::new(false);
    let second = AtomicBool::new(false);
    let (met, also_met) = thread::join(
        rt,
        || meet_often(rt, alloc, locks, 0, 1, &first, &second),
        || meet_often(rt, alloc, locks, 1, 0, &second, &first),
    );
    let met = met?;
    let also_met = also_met?;
    Ok(met && also_met)
}

// Whether the threads saw each other when each had a lock of its own, and when they met, and how many regions came back.
type Found = (bool, bool, usize);

// None if there are fewer than two regions.
fn found_under_locks<O: Origin + Send + Sync, R: Threads + Wait + Sync>(
    rt: &R,
    alloc: Global,
    _scene: &Scene,
    regions: Vec<Region>,
) -> Result<Option<Found>, AllocError>
    requires few { length regions.items < 2 ^ 32 }
    requires stand { StandOfRun O.opening regions.items }
{
    let Some(first) = regions.first() else {
        return Ok(None);
    };
    let floor = first.floor();
    let locks: Locks<O> = Locks::open(alloc, regions)?;
    if locks.count() < 2 {
        return Ok(None);
    }
    let apart = work_apart(rt, alloc, &locks)?;
    let crosswise = meet_crosswise(rt, alloc, &locks)?;
    let back = locks.take_back(alloc, floor)?.len();
    Ok(Some((apart, crosswise, back)))
}

// The same for the regions of a scene without disks; none also if its rules are refused.
fn found<R: Threads + Wait + Sync>(rt: &R, alloc: Global) -> Result<Option<Found>, AllocError> {
    match empty_scene(alloc) {
        Some(scene) => found_in::<R>(rt, alloc, &scene),
        None => Ok(None),
    }
}

// Here the proof picks the state with which the run begins.
fn found_in<R: Threads + Wait + Sync>(
    rt: &R,
    alloc: Global,
    scene: &Scene,
) -> Result<Option<Found>, AllocError> {
    found_under_locks::<Brand, R>(rt, alloc, scene, opened(alloc, scene)?)
}

// Only this test says that each region has a lock of its own, and in which order two are taken.
#[test]
fn threads_with_other_regions_work_at_once(rt: HostRuntime) -> Result<(), Fail> {
    let found = found(&rt, rt.alloc())?;
    expect(&rt, "four regions", found, Some((true, true, 4)));
    Ok(())
}
