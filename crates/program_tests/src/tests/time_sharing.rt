//! When a worker gives its processor away, by a clock that stands still except while somebody sleeps.

use super::helpers::StandingClock;
use region_core::Gate;
use std::alloc::Global;
use std::sync::atomic::Ordering;
use terminal_line::TimeSharing;

// Why a worker comes to the gate: for a turn of this number, or for a phase.
#[derive(Clone, Copy, Debug, PartialEq, Eq)]
enum Coming {
    Turn(u32),
    Phase,
}

use Coming::{Phase, Turn};

// The worker, why it comes, when, in microseconds, and whether it sleeps then.
type ComingRow = (u32, Coming, u64, bool);

const COMINGS: &[ComingRow] = &[
    (0, Turn(0), 10_000, false),
    // Nobody else wants its processor.
    (0, Phase, 10_900, false),
    (0, Phase, 11_800, false),
    (0, Phase, 12_700, false),
    (0, Phase, 13_600, false),
    // It comes late, so somebody else does.
    (0, Phase, 15_600, false),
    (0, Phase, 16_500, false),
    (0, Phase, 17_400, false),
    (0, Phase, 18_300, false),
    (0, Phase, 18_600, false),
    (0, Phase, 18_601, true),
    // It has been given one again.
    (0, Phase, 19_600, false),
    (0, Phase, 20_600, false),
    (0, Phase, 21_600, false),
    (0, Phase, 21_651, false),
    (0, Phase, 21_652, true),
    // The first worker keeps its processor while the others wait for a burst.
    (0, Turn(0), 24_000, false),
    (0, Phase, 24_702, false),
    (0, Phase, 24_703, true),
    // Some time after it was late last, nobody is taken to want the processor any more.
    (0, Turn(0), 115_000, false),
    (0, Phase, 115_599, true),
    (0, Turn(0), 119_000, false),
    (0, Phase, 119_100, false),
    // Another worker is a thread that has been given a processor for the burst.
    (1, Turn(0), 30_000, false),
    (1, Phase, 31_001, false),
    (1, Turn(0), 33_000, false),
    (1, Phase, 33_900, false),
    (1, Phase, 34_800, false),
    (1, Phase, 35_700, false),
    (1, Phase, 36_000, false),
    (1, Phase, 36_001, true),
    // A later turn makes no difference: the worker came late to this phase.
    (1, Turn(1), 36_900, false),
    (1, Phase, 37_052, false),
    (1, Phase, 38_000, false),
    (1, Phase, 39_000, false),
    (1, Phase, 39_950, false),
    (1, Phase, 40_052, false),
    (1, Phase, 40_053, true),
    // It is late by more than half a second, in the next second of the clock.
    (2, Turn(0), 999_500, false),
    (2, Phase, 1_600_000, false),
    (2, Phase, 1_600_900, false),
    (2, Phase, 1_601_800, false),
    (2, Phase, 1_602_700, false),
    (2, Phase, 1_603_000, false),
    (2, Phase, 1_603_001, true),
    // The last of all workers, and one that can't exist.
    (63, Phase, 200_000, false),
    (63, Phase, 200_900, false),
    (63, Phase, 201_800, false),
    (63, Phase, 202_700, false),
    (63, Phase, 203_000, false),
    (63, Phase, 203_001, true),
    (64, Phase, 203_002, false),
];

#[test]
fn a_processor_is_given_away_in_time(rt: HostRuntime) {
    assert_eq!(rt; first_wrong(rt.alloc()), None);
}

// The first row at which a worker sleeps that shouldn't, or doesn't sleep though it should.
fn first_wrong(alloc: Global) -> Option<ComingRow> {
    let clock = StandingClock::new();
    let gate = TimeSharing::new(&clock, alloc);
    wrong_at(&clock, &gate)
}

fn wrong_at(clock: &StandingClock, gate: &impl Gate) -> Option<ComingRow> {
    for &(worker, coming, now, is_asleep) in COMINGS {
        if sleeps(clock, gate, worker, coming, now) != is_asleep {
            return Some((worker, coming, now, is_asleep));
        }
    }
    None
}

// Whether the worker sleeps when it comes to the gate at this time.
fn sleeps(clock: &StandingClock, gate: &impl Gate, worker: u32, coming: Coming, now: u64) -> bool {
    clock.micros.store(now, Ordering::SeqCst);
    match coming {
        Turn(turn) => gate.turn(worker, turn),
        Phase => gate.pause(worker),
    }
    clock.micros.load(Ordering::SeqCst) != now
}

// A worker, and for how many microseconds it rests.
const RESTS: &[(u32, u64)] = &[(0, 20), (3, 20), (4, 40), (24, 1_280), (63, 1_280)];

#[test]
fn workers_that_are_seldom_needed_rest_longer(rt: HostRuntime) {
    let clock = StandingClock::exact();
    let gate = TimeSharing::new(&clock, rt.alloc());
    for &(worker, micros) in RESTS {
        assert_eq!(rt; rest_at(&clock, &gate, worker), micros, "worker {worker}");
    }
}

// For how long the worker rests when the gate lets it.
fn rest_at(clock: &StandingClock, gate: &impl Gate, worker: u32) -> u64 {
    clock.micros.store(0, Ordering::SeqCst);
    gate.rest(worker);
    clock.micros.load(Ordering::SeqCst)
}
