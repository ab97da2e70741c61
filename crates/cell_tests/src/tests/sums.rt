//! What a collision adds to the sums, and which places are in the part.

ghost use Rattle.fixed_motion.specs.Rules.{IsChecked};
ghost use Rattle.fixed_motion.specs.Motion.{IsValidDisk};

use super::rows::{expect, is_valid};
use collision_sums::{Sums, is_spot_in_part};
use event_rules::{Change, Spot};
use event_stamps::{Kind, Stamp};
use fixed_motion::{Disk, Rules};

const RULES: Rules = Rules {
    width: 40,
    height: 20,
    diameter: 4,
    speed_limit: 8,
    round_limit: 8,
    end: 5,
};

// A place and a velocity.
type Record = (i64, i64, i64, i64);

// What is summed: pairs, virial, walls, and what the left, the right, the lower and the upper side took.
type Sum = (u128, u128, u128, u128, u128, u128, u128);

// A margin, the first disk's velocity before, the new records of both disks, and the sums.
type PairRow = (u32, (i64, i64), Record, Record, Sum);

const PAIRS: &[PairRow] = &[
    // Head on: r = (-4, 0) and J = (-2, 0), and the middle is (15, 10).
    (
        0,
        (1, 0),
        (13, 10, -1, 0),
        (17, 10, 1, 0),
        (1, 8, 0, 0, 0, 0, 0),
    ),
    (
        10,
        (1, 0),
        (13, 10, -1, 0),
        (17, 10, 1, 0),
        (1, 8, 0, 0, 0, 0, 0),
    ),
    (
        11,
        (1, 0),
        (13, 10, -1, 0),
        (17, 10, 1, 0),
        (0, 0, 0, 0, 0, 0, 0),
    ),
    // Aslant: r = (-8, -3) and J = (-14, -5), and the middle is (14, 11 1/2).
    (
        8,
        (8, 0),
        (10, 10, -6, -5),
        (18, 13, 6, 5),
        (1, 127, 0, 0, 0, 0, 0),
    ),
    (
        9,
        (8, 0),
        (10, 10, -6, -5),
        (18, 13, 6, 5),
        (0, 0, 0, 0, 0, 0, 0),
    ),
    // The other disk first: r and J point the other way.
    (
        8,
        (-8, 0),
        (18, 13, 6, 5),
        (10, 10, -6, -5),
        (1, 127, 0, 0, 0, 0, 0),
    ),
    // One disk is in the part and the other isn't: only the middle counts, here (7, 10) and (34, 10).
    (
        7,
        (0, 0),
        (5, 10, -4, 0),
        (9, 10, 4, 0),
        (1, 16, 0, 0, 0, 0, 0),
    ),
    (
        8,
        (0, 0),
        (5, 10, -4, 0),
        (9, 10, 4, 0),
        (0, 0, 0, 0, 0, 0, 0),
    ),
    (
        6,
        (4, 0),
        (32, 10, 0, 0),
        (36, 10, 4, 0),
        (1, 16, 0, 0, 0, 0, 0),
    ),
    (
        7,
        (4, 0),
        (32, 10, 0, 0),
        (36, 10, 4, 0),
        (0, 0, 0, 0, 0, 0, 0),
    ),
];

// A margin, a side, the new record of the disk there, and the sums.
type WallRow = (u32, u32, Record, Sum);

const WALLS: &[WallRow] = &[
    // In the lower left corner: the left side, and then the bottom.
    (0, 0, (3, 3, 2, -2), (0, 0, 1, 4, 0, 0, 0)),
    (0, 2, (3, 3, 2, 2), (0, 0, 1, 0, 0, 4, 0)),
    (3, 0, (3, 3, 2, -2), (0, 0, 1, 4, 0, 0, 0)),
    (4, 0, (3, 3, 2, -2), (0, 0, 0, 0, 0, 0, 0)),
    (4, 2, (3, 3, 2, 2), (0, 0, 0, 0, 0, 0, 0)),
    // In the upper right corner: 3 from the top, and 2 from the right side.
    (2, 1, (38, 17, -3, 1), (0, 0, 1, 0, 6, 0, 0)),
    (2, 3, (38, 17, -3, -1), (0, 0, 1, 0, 0, 0, 2)),
    (3, 1, (38, 17, -3, 1), (0, 0, 1, 0, 6, 0, 0)),
    (3, 3, (38, 17, -3, -1), (0, 0, 0, 0, 0, 0, 0)),
    (4, 1, (38, 17, -3, 1), (0, 0, 0, 0, 0, 0, 0)),
    // In the middle of a side, however near the side itself is.
    (10, 1, (38, 10, -3, 0), (0, 0, 1, 0, 6, 0, 0)),
    (11, 1, (38, 10, -3, 0), (0, 0, 0, 0, 0, 0, 0)),
    (20, 3, (20, 18, 5, -4), (0, 0, 1, 0, 0, 0, 8)),
    (21, 3, (20, 18, 5, -4), (0, 0, 0, 0, 0, 0, 0)),
];

#[test]
fn a_pair_adds_its_push(rt: HostRuntime) {
    for (row, &(margin, before, first, second, want)) in PAIRS.iter().enumerate() {
        expect(&rt, row, of_pair(margin, before, first, second), Some(want));
    }
}

#[test]
fn a_side_takes_what_it_turns(rt: HostRuntime) {
    for (row, &(margin, side, record, want)) in WALLS.iter().enumerate() {
        expect(&rt, row, of_wall(margin, side, record), Some(want));
    }
}

// The sums after a collision of two disks; none if they aren't valid.
fn of_pair(margin: u32, before: (i64, i64), first: Record, second: Record) -> Option<Sum> {
    let old = disk_of((first.0, first.1, before.0, before.1));
    let (first, second) = (disk_of(first), disk_of(second));
    if !is_valid(&RULES, &old) || !is_valid(&RULES, &first) || !is_valid(&RULES, &second) {
        return None;
    }
    Some(numbers_of(after_pair(&RULES, margin, old, first, second)))
}

// The sums after a collision with a side.
fn of_wall(margin: u32, side: u32, record: Record) -> Option<Sum> {
    let disk = disk_of(record);
    if !is_valid(&RULES, &disk) {
        return None;
    }
    Some(numbers_of(after_wall(&RULES, margin, side, disk)))
}

fn after_pair(rules: &Rules, margin: u32, old: Disk, first: Disk, second: Disk) -> Sums
    requires rules { IsChecked rules.now }
    requires old { IsValidDisk rules.now old }
    requires first { IsValidDisk rules.now first }
    requires second { IsValidDisk rules.now second }
{
    let mut sums = Sums::none();
    let change = Change {
        stamp: stamp_of(Kind::Pair, 1),
        first,
        second: Some(second),
    };
    sums.add(rules, margin, &[old], &change);
    sums
}

fn after_wall(rules: &Rules, margin: u32, side: u32, disk: Disk) -> Sums
    requires rules { IsChecked rules.now }
    requires disk { IsValidDisk rules.now disk }
{
    let mut sums = Sums::none();
    let change = Change {
        stamp: stamp_of(Kind::Wall, side),
        first: disk,
        second: None,
    };
    sums.add(rules, margin, &[disk], &change);
    sums
}

fn stamp_of(kind: Kind, second: u32) -> Stamp {
    Stamp {
        tick: 0,
        round: 0,
        kind,
        first: 0,
        second,
    }
}

fn disk_of((x, y, vx, vy): Record) -> Disk {
    Disk {
        x,
        y,
        vx,
        vy,
        size: 4,
        base: 0,
        mark: 1,
    }
}

fn numbers_of(s: Sums) -> Sum {
    (s.pairs, s.virial, s.walls, s.left, s.right, s.bottom, s.top)
}

// A margin, a place, and whether it is in the part.
const PLACES: &[(u32, i64, i64, bool)] = &[
    (0, 0, 0, true),
    (0, 40, 20, true),
    (0, 41, 20, false),
    (0, 40, -1, false),
    (5, 5, 5, true),
    (5, 4, 10, false),
    (5, 35, 15, true),
    (5, 36, 10, false),
    (5, 20, 16, false),
    (10, 20, 10, true),
    (11, 20, 10, false),
    (4_294_967_295, 20, 10, false),
];

#[test]
fn a_place_is_in_the_part_from_margin_to_margin(rt: HostRuntime) {
    for (row, &(margin, x, y, want)) in PLACES.iter().enumerate() {
        expect(&rt, row, is_in_part(&RULES, margin, x, y), Some(want));
    }
}

fn is_in_part(rules: &Rules, margin: u32, x: i64, y: i64) -> Option<bool> {
    if rules.check().is_err() {
        return None;
    }
    let spot = Spot { x, y, vx: 0, vy: 0 };
    Some(is_spot_in_part(rules, margin, &spot))
}
