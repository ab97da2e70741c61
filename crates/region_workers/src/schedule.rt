//! The slices in which the turns of a burst are made.

ghost use Rattle.std.specs.Prelude.{◌<◌};

use crate::pace::{Pace, Slice};
use std::sync::atomic::{AtomicBool, AtomicU64, Ordering};

// By one in this many parts of it the work beside may be behind the steps.
const MOST_BEHIND: u64 = 8;

// The least number of steps of a burst that ends early.
const SHORT_STEPS: u64 = 1_024;

// A burst that ends early makes at least one in this many of its steps: the turns that are left still pass the gate.
const SHORT_PART: u64 = 16;

/// The slices of a burst, one after another. Each is run by all regions, and may go over the end of a turn. In the last
/// one no region makes a step: they only hear each other.
#[derive(Drop)]
pub(crate) struct Schedule {
    // The number of steps in a turn.
    steps: u32,
    // The number of steps of the burst, and how many of them come after the present slice.
    all: u64,
    left: AtomicU64,
    // Whether the last slice has begun.
    is_at_last: AtomicBool,
    // The turn in which the present slice begins.
    turn: AtomicU64,
    // The slice: its steps and its bound.
    slice_steps: AtomicU64,
    slice_bound: AtomicU64,
    ghost some_steps: { 0 < steps },
}

impl Schedule {
    /// The slices of a burst, by how many turns it has and how many steps a turn has, at the first one.
    pub(crate) fn new(turns: u32, steps: u32, pace: &Pace) -> Schedule
        requires { 0 < steps }
    {
        let all = steps_of_burst(turns, steps, pace);
        let schedule = Schedule {
            steps,
            all,
            left: AtomicU64::new(all),
            is_at_last: AtomicBool::new(false),
            turn: AtomicU64::new(0),
            slice_steps: AtomicU64::new(0),
            slice_bound: AtomicU64::new(0),
        };
        schedule.go_on(pace);
        schedule
    }

    /// How many slices begin in a turn at most: one for each of its steps, and the last one.
    pub(crate) fn most_slices(&self) -> u32 {
        self.steps.saturating_add(1)
    }

    /// The turn that they are at.
    pub(crate) fn turn(&self) -> u64 {
        self.turn.load(Ordering::SeqCst)
    }

    /// Whether a greater part of the burst's steps is made than is done of some work, of which so much is left, and there
    /// was so much at first. The work may be behind by a part of it.
    pub(crate) fn is_ahead_of(&self, left: u64, all: u64) -> bool {
        let made = self.all.saturating_sub(self.left.load(Ordering::SeqCst));
        let done = all.saturating_sub(left).saturating_add(all / MOST_BEHIND);
        done.saturating_mul(self.all) < made.saturating_mul(all)
    }

    /// The slice that they are at.
    pub(crate) fn slice(&self) -> Slice
        ensures { 0 < result.steps }
    {
        let steps = self.slice_steps.load(Ordering::SeqCst);
        Slice {
            steps: steps.clamp(1, u64::from(u32::MAX)) as u32,
            bound: self.slice_bound.load(Ordering::SeqCst),
        }
    }

    /// Goes on to the next slice. False if there is none. It is called by one worker alone, while no region runs.
    pub(crate) fn go_on(&self, pace: &Pace) -> bool {
        let left = self.left.load(Ordering::SeqCst);
        if left > 0 {
            self.go_ahead(pace, left);
            return true;
        }
        self.slice_bound.store(0, Ordering::SeqCst);
        !self.is_at_last.swap(true, Ordering::SeqCst)
    }

    // The next slice, by how many steps are left.
    fn go_ahead(&self, pace: &Pace, left: u64)
        requires { 0 < left }
    {
        let slice = pace.next_slice(left.min(u64::from(u32::MAX)) as u32);
        let turn = self.all.saturating_sub(left) / u64::from(self.steps);
        self.turn.store(turn, Ordering::SeqCst);
        self.left
            .store(left - u64::from(slice.steps), Ordering::SeqCst);
        self.slice_steps
            .store(u64::from(slice.steps), Ordering::SeqCst);
        self.slice_bound.store(slice.bound, Ordering::SeqCst);
    }
}

// How many steps a burst makes in its turns, by how many there are and how many steps each has. One region alone has no
// other to wait for, so the burst ends early: what was done is told while the cache still has it.
fn steps_of_burst(turns: u32, steps: u32, pace: &Pace) -> u64 {
    let planned = u64::from(turns) * u64::from(steps);
    if pace.is_alone() {
        planned.min(SHORT_STEPS.max(planned / SHORT_PART))
    } else {
        planned
    }
}
