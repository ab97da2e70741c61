//! What workers do, as far as their gates see it.

use super::helpers::{AMPLE_ROOM, FOUR_IN_A_ROW_REPORT, expect, output_through, row_source};
use hard_disks::Status;
use region_core::Gate;
use report_ports::MemorySink;
use std::alloc::{AllocError, Global};
use std::process::Abort;
use std::sync::Wait;
use std::sync::atomic::{AtomicBool, AtomicU64, Ordering};
use std::test::Fail;
use std::thread;
use std::thread::Threads;

// Stops a test if the four disks don't write their report with these words and through this gate.
fn expect_report_through<G: Gate>(
    rt: &(impl Threads + Wait + Sync + Abort),
    alloc: Global,
    words: &[&str],
    gate: &G,
) -> Result<(), AllocError> {
    let found = output_of_row(rt, alloc, words, gate)?;
    expect(rt, &words, &found, Status::Done, FOUR_IN_A_ROW_REPORT);
    Ok(())
}

// What is written of the four disks with these words and through this gate, and the status.
fn output_of_row<G: Gate>(
    rt: &(impl Threads + Wait + Sync),
    alloc: Global,
    words: &[&str],
    gate: &G,
) -> Result<(MemorySink, Status), AllocError> {
    let source = row_source(alloc)?;
    let sink = MemorySink::new(alloc, &[], AMPLE_ROOM)?;
    Ok(output_through(rt, alloc, words, source, sink, gate))
}

// A gate at which worker 0 waits before its first turn until worker 1 has come to one of its own, and notes whether it
// has.
#[derive(Drop)]
struct Meeting {
    first: AtomicBool,
    came: AtomicBool,
    met: AtomicBool,
}

impl Meeting {
    fn sees_the_other(&self) -> bool {
        for _ in 0..10_000_000u32 {
            if self.came.load(Ordering::SeqCst) {
                return true;
            }
            thread::yield_now();
        }
        false
    }
}

impl Gate for Meeting {
    fn turn(&self, worker: u32, _turn: u32) {
        if worker == 1 {
            self.came.store(true, Ordering::SeqCst);
        } else if !self.first.swap(true, Ordering::SeqCst) {
            self.met.store(self.sees_the_other(), Ordering::SeqCst);
        }
    }
}

#[test]
fn two_workers_work_at_once(rt: HostRuntime) -> Result<(), Fail> {
    let gate = Meeting {
        first: AtomicBool::new(false),
        came: AtomicBool::new(false),
        met: AtomicBool::new(false),
    };
    let words = ["--regions", "4", "--workers", "2"];
    expect_report_through(&rt, rt.alloc(), &words, &gate)?;
    let (came, met) = (
        gate.came.load(Ordering::SeqCst),
        gate.met.load(Ordering::SeqCst),
    );
    assert!(rt;
        met,
        "worker 0 waited for worker 1 in vain, which came later: {came}"
    );
    Ok(())
}

// A gate that counts the turns.
#[derive(Drop)]
struct TurnCounter {
    turns: AtomicU64,
}

impl Gate for TurnCounter {
    fn turn(&self, _worker: u32, _turn: u32) {
        self.turns.fetch_add(1, Ordering::SeqCst);
    }
}

// The steps of a turn, if a burst has one turn, and the least and the greatest number of bursts. The run has 16
// actions, so in steps of one it needs at least ten bursts, and with many steps one burst is enough.
const BURSTS: &[(&str, u64, u64)] = &[("4096", 1, 2), ("1", 10, 17)];

#[test]
fn bursts_do_the_work(rt: HostRuntime) -> Result<(), Fail> {
    for &(steps, least, most) in BURSTS {
        let turns = turns_with(&rt, rt.alloc(), steps)?;
        assert!(rt;
            least <= turns && turns <= most,
            "{turns} bursts of {steps} steps, and not {least} to {most}"
        );
    }
    Ok(())
}

// How many bursts of one turn with `steps` steps there are.
fn turns_with(
    rt: &(impl Threads + Wait + Sync + Abort),
    alloc: Global,
    steps: &str,
) -> Result<u64, AllocError> {
    let gate = TurnCounter {
        turns: AtomicU64::new(0),
    };
    let words = ["--regions=1", "--workers=1", "--turns=1", "--steps", steps];
    expect_report_through(rt, alloc, &words, &gate)?;
    Ok(gate.turns.load(Ordering::SeqCst))
}
