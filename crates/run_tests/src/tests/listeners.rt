//! When runs over regions tell a listener what is final.

use super::cases::expect;
use super::scenes::valid_scene;
use event_rules::{Change, Deaf, Listener, RunFault};
use fixed_motion::Scene;
use region_core::{Beside, Burst, Region};
use run_core::simulate;
use std::alloc::{AllocError, Global};
use std::process::Abort;
use std::sync::atomic::{AtomicU64, Ordering};
use std::test::Fail;
use std::thread::Threads;
use test_scenes::{FOUR_IN_A_ROW, LONG, ROLLED_BACK};

// A listener that counts, in a word that others read, how often it was told, and refuses one of the tellings.
#[derive(Drop)]
struct Ear<'a> {
    told: &'a AtomicU64,
    refuses: Option<u64>,
    faults: u64,
}

impl<'a> Ear<'a> {
    fn new(told: &'a AtomicU64, refuses: Option<u64>) -> Ear<'a> {
        Ear {
            told,
            refuses,
            faults: 0,
        }
    }
}

impl<'a> Listener for Ear<'a> {
    ghost use Rattle.std.specs.Prelude.{None};

    ghost Meaning = { Unit {0} };

    ghost after = { λ m _. m };

    ghost torn = { λ _ _ _. Unit {0} };

    ghost awaits = { λ _ _. Unit {0} };

    ghost meaning = { λ _. None };

    ghost faults = { λ ear. ear.faults };

    fn faults(&self) -> u64 {
        self.faults
    }

    fn event(&mut self, _change: &Change) -> Result<(), Deaf> {
        let before = self.told.fetch_add(1, Ordering::SeqCst);
        if self.refuses == Some(before) {
            self.faults = self.faults.saturating_add(1);
            return Err(Deaf);
        }
        Ok(())
    }
}

// A burst that reads that word before and after it goes on with the work beside, and counts how often it was called.
#[derive(Drop)]
struct Reading<'a> {
    told: &'a AtomicU64,
    last: u64,
    beside: u64,
    calls: u32,
}

impl<'a, S: Beside<W>, W> Burst<S, W> for Reading<'a> {
    fn burst<R: Threads + Sync>(
        &mut self,
        _rt: &R,
        _alloc: Global,
        regions: Vec<Region>,
        beside: &mut S,
        lent: &mut W,
    ) -> Result<Vec<Region>, AllocError> {
        self.last = self.told.load(Ordering::SeqCst);
        let _more = beside.go_on(lent);
        let now = self.told.load(Ordering::SeqCst);
        self.beside = self.beside.wrapping_add(now.wrapping_sub(self.last));
        self.calls = self.calls.wrapping_add(1);
        Ok(regions)
    }
}

// Whether the run was cut short, how often the burst was called, how many changes had been told at its last call, and
// how many were told beside.
type Listened = (bool, u32, u64, u64);

// Runs a scene over four regions, with an ear that refuses this telling.
fn listen(
    rt: &(impl Threads + Sync),
    alloc: Global,
    scene: &Scene,
    refuses: Option<u64>,
) -> Listened {
    let told = AtomicU64::new(0);
    let mut ear = Ear::new(&told, refuses);
    let mut burst = Reading {
        told: &told,
        last: 0,
        beside: 0,
        calls: 0,
    };
    let answer = simulate(rt, alloc, scene, 4, &mut burst, &mut ear);
    let is_cut_short = matches!(&answer, Err(RunFault::Listener));
    (is_cut_short, burst.calls, burst.last, burst.beside)
}

// The run with an ear that refuses nothing, and the run with one that refuses the second telling.
fn whole_and_part(
    rt: &(impl Threads + Sync + Abort),
    alloc: Global,
) -> Result<(Listened, Listened), AllocError> {
    let scene = valid_scene(rt, alloc, LONG, 8, 20, ROLLED_BACK)?;
    let whole = listen(rt, alloc, &scene, None);
    let part = listen(rt, alloc, &scene, Some(1));
    Ok((whole, part))
}

#[test]
fn what_is_final_is_told_beside_the_next_burst(rt: HostRuntime) -> Result<(), Fail> {
    let (whole, part) = whole_and_part(&rt, rt.alloc())?;
    let (is_cut_short, calls, told_before, told_beside) = whole;
    let (is_part, calls_of_part, _, _) = part;
    let found = (
        is_cut_short,
        told_before > 0,
        told_beside > 0,
        is_part,
        calls_of_part < calls,
    );
    expect(&rt, (whole, part), found, (false, true, true, true, true));
    Ok(())
}

// A burst that lets the only region step until nothing is due, and counts how often it was called.
#[derive(Drop)]
struct CallCounter {
    calls: u32,
}

impl<S: Beside<W>, W> Burst<S, W> for CallCounter {
    fn burst<R: Threads + Sync>(
        &mut self,
        _rt: &R,
        alloc: Global,
        mut regions: Vec<Region>,
        _beside: &mut S,
        _lent: &mut W,
    ) -> Result<Vec<Region>, AllocError> {
        self.calls = self.calls.wrapping_add(1);
        if let Some(region) = regions.first_mut() {
            region.run(alloc, 4_096)?;
        }
        Ok(regions)
    }
}

// Whether the four disks' run over one region came to its end, how often the burst was called, and how often the
// ear was told.
fn counted(
    rt: &(impl Threads + Sync + Abort),
    alloc: Global,
) -> Result<(bool, u32, u64), AllocError> {
    let scene = valid_scene(rt, alloc, LONG, 8, 40, FOUR_IN_A_ROW)?;
    let told = AtomicU64::new(0);
    let mut ear = Ear::new(&told, None);
    let mut burst = CallCounter { calls: 0 };
    let is_done = simulate(rt, alloc, &scene, 1, &mut burst, &mut ear).is_ok();
    Ok((is_done, burst.calls, told.load(Ordering::SeqCst)))
}

#[test]
fn what_a_burst_did_is_taken_over(rt: HostRuntime) -> Result<(), Fail> {
    let (is_done, calls, told) = counted(&rt, rt.alloc())?;
    let found = (is_done, told, calls <= 2);
    expect(&rt, ("bursts", calls), found, (true, 4, true));
    Ok(())
}
