//! What a run tells, and how it ends.
//!
//! A report is a function of the scene, of the changes of its run and of how the run ends: if two runs have the same
//! changes and end, they have the same report. Changes and disks are summed up as they come, in order, so that none has
//! to be kept.

use super::cases::{Case, expect};
use all_pairs::simulate_plain;
use event_rules::{Change, Deaf, Limit, Listener, Outcome, RunFault, Spot};
use fixed_motion::{Disk, Scene};
use std::alloc::{AllocError, Global};
use std::process::Abort;

/// How many changes a run told, the last of them, and the sum of all.
pub type Changes = (usize, Option<Change>, i64);

/// The changes of a run, the limit at which it ended, if it did at one, and else the sum over the spots of all disks at
/// the end.
pub type Told = (Changes, Option<Limit>, i64);

/// Sums up the changes that it is told.
#[derive(Drop)]
pub struct Summing {
    count: usize,
    last: Option<Change>,
    sum: i64,
}

impl Summing {
    /// A listener that was told nothing.
    pub fn new() -> Summing {
        Summing {
            count: 0,
            last: None,
            sum: 0,
        }
    }

    /// Adds one change.
    pub fn add(&mut self, change: &Change) {
        self.count = self.count.wrapping_add(1);
        self.last = Some(*change);
        self.sum = with_change(self.sum, change);
    }

    /// What it was told.
    pub fn changes(&self) -> Changes {
        (self.count, self.last, self.sum)
    }
}

impl Listener for Summing {
    ghost use Rattle.std.specs.Prelude.{None};

    ghost Meaning = { Unit {0} };

    ghost after = { λ m _. m };

    ghost torn = { λ _ _ _. Unit {0} };

    ghost awaits = { λ _ _. Unit {0} };

    ghost meaning = { λ _. None };

    ghost faults = { λ _. 0 };

    fn faults(&self) -> u64 {
        0
    }

    fn event(&mut self, change: &Change) -> Result<(), Deaf> {
        self.add(change);
        Ok(())
    }
}

fn with_change(sum: i64, change: &Change) -> i64 {
    let stamp = &change.stamp;
    let numbers = [
        stamp.tick.cast_signed(),
        i64::from(stamp.round),
        i64::from(stamp.first),
        i64::from(stamp.second),
    ];
    let sum = with_disk(with_all(sum, &numbers), &change.first);
    match &change.second {
        Some(disk) => with_disk(sum, disk),
        None => sum,
    }
}

fn with_disk(sum: i64, disk: &Disk) -> i64 {
    let base = disk.base.cast_signed();
    let mark = i64::from(disk.mark);
    with_all(
        sum,
        &[disk.x, disk.y, disk.vx, disk.vy, disk.size, base, mark],
    )
}

/// The sum with one more disk at the end.
pub fn with_spot(sum: i64, spot: &Spot) -> i64 {
    with_all(sum, &[spot.x, spot.y, spot.vx, spot.vy])
}

// The sum with more numbers; their order counts.
fn with_all(sum: i64, numbers: &[i64]) -> i64 {
    let mut sum = sum;
    for number in numbers {
        sum = sum.wrapping_mul(1_099_511_628_211).wrapping_add(*number);
    }
    sum
}

/// What a listener was told in a run with this end.
pub fn told_of(
    listener: &Summing,
    outcome: &Result<Outcome, RunFault>,
) -> Result<Told, AllocError> {
    match outcome {
        Ok(Outcome::Done(state)) => Ok((listener.changes(), None, sum_of(state.as_slice()))),
        Ok(Outcome::Limit(limit)) => Ok((listener.changes(), Some(*limit), 0)),
        // A run that tells `Summing` is cut short only if memory runs out.
        Err(_) => Err(AllocError),
    }
}

fn sum_of(spots: &[Spot]) -> i64 {
    let mut sum = 0;
    for spot in spots {
        sum = with_spot(sum, spot);
    }
    sum
}

/// Stops a test if a run of a scene told something else than the engine that looks at all pairs tells.
pub fn expect_plain(
    rt: &impl Abort,
    alloc: Global,
    case: Case<'_>,
    scene: &Scene,
    found: Told,
) -> Result<(), AllocError> {
    let want = told_plainly(alloc, scene)?;
    expect(rt, case, found, want);
    Ok(())
}

fn told_plainly(alloc: Global, scene: &Scene) -> Result<Told, AllocError> {
    let mut listener = Summing::new();
    let outcome = simulate_plain(alloc, scene, &mut listener);
    told_of(&listener, &outcome)
}
