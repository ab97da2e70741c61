//! When disks hit each other and the sides of the box next, and what the hits change.

ghost use Rattle.std.specs.Prelude.{IsTrue};
ghost use Rattle.fixed_motion.specs.Rules.{IsChecked};
ghost use Rattle.fixed_motion.specs.Motion.{IsValidDisk};

use super::rows::{expect, is_valid};
use event_rules::{
    Change, EachReach, Limit, apply, each_may_hit, may_hit, pair_event, reach_square, wall_event,
};
use event_stamps::{Kind, Stamp};
use fixed_motion::{Disk, Rules};

const RULES: Rules = Rules {
    width: 40,
    height: 20,
    diameter: 4,
    speed_limit: 8,
    round_limit: 8,
    end: 5,
};

// A tick and a round, if there is an event.
type Event = Option<(u64, u32)>;

fn event_of(found: Option<Stamp>) -> Event {
    let stamp = found?;
    Some((stamp.tick, stamp.round))
}

// A place, a velocity, a base tick and a mark.
type Record = (i64, i64, i64, i64, u64, u32);

fn disk_of((x, y, vx, vy, base, mark): Record) -> Disk {
    Disk {
        x,
        y,
        vx,
        vy,
        size: 4,
        base,
        mark,
    }
}

const LEFT: Record = (10, 10, 1, 0, 0, 0);

const RIGHT: Record = (20, 10, -1, 0, 0, 0);

const NEAR: Record = (14, 10, -1, 0, 0, 0);

const TANGENT: Record = (20, 14, -1, 0, 0, 0);

const FAST: Record = (10, 10, 8, 0, 0, 0);

const PASSING: Record = (18, 13, -8, 0, 0, 0);

const MARKED: Record = (10, 10, 1, 0, 2, 3);

const MARKED_TOO: Record = (14, 10, -1, 0, 2, 1);

const MARKED_BEFORE: Record = (15, 10, -1, 0, 1, 5);

const MARKED_LATER: Record = (20, 10, -1, 0, 2, 4);

const STILL: Record = (10, 10, 0, 0, 0, 0);

// The end of the run, two disks, and the tick and round at which they hit each other.
type PairRow = (u64, Record, Record, Event);

const PAIRS: &[PairRow] = &[
    (5, LEFT, RIGHT, Some((3, 0))),
    (4, LEFT, RIGHT, Some((3, 0))),
    (3, LEFT, RIGHT, None),
    (0, LEFT, NEAR, None),
    (1, LEFT, NEAR, Some((0, 0))),
    (10, LEFT, TANGENT, None),
    (1, FAST, PASSING, Some((0, 0))),
    (5, MARKED, MARKED_TOO, Some((2, 3))),
    (5, MARKED, MARKED_BEFORE, Some((2, 3))),
    (9, MARKED, MARKED_LATER, Some((5, 0))),
    (9, STILL, STILL, None),
    // one after the other towards a side: at it in the tick of the contact, and past it
    (5, (35, 10, 1, 0, 0, 0), (28, 10, 2, 0, 0, 0), Some((3, 0))),
    (5, (36, 10, 1, 0, 0, 0), (29, 10, 2, 0, 0, 0), None),
    (5, (12, 10, -2, 0, 0, 0), (5, 10, -1, 0, 0, 0), Some((3, 0))),
    (5, (11, 10, -2, 0, 0, 0), (4, 10, -1, 0, 0, 0), None),
    (5, (10, 15, 0, 1, 0, 0), (10, 8, 0, 2, 0, 0), Some((3, 0))),
    (5, (10, 16, 0, 1, 0, 0), (10, 9, 0, 2, 0, 0), None),
    (5, (10, 12, 0, -2, 0, 0), (10, 5, 0, -1, 0, 0), Some((3, 0))),
    (5, (10, 11, 0, -2, 0, 0), (10, 4, 0, -1, 0, 0), None),
];

#[test]
fn finds_when_two_disks_meet(rt: HostRuntime) {
    for (row, &(end, first, second, want)) in PAIRS.iter().enumerate() {
        let rules = Rules { end, ..RULES };
        let found = meeting(&rules, &disk_of(first), &disk_of(second));
        expect(&rt, row, found, Some(want));
    }
}

// When two disks hit each other; none if the rules or the disks aren't valid.
fn meeting(rules: &Rules, a: &Disk, b: &Disk) -> Option<Event> {
    if !are_valid(rules, a, b) {
        return None;
    }
    Some(event_of(pair_event(rules, 1, a, 2, b)))
}

// Whether the rules are valid, and two disks by them.
fn are_valid(rules: &Rules, a: &Disk, b: &Disk) -> bool
    ensures checked { IsTrue result → IsChecked rules.now }
    ensures first { IsTrue result → IsValidDisk rules.now a.now }
    ensures second { IsTrue result → IsValidDisk rules.now b.now }
{
    is_valid(rules, a) && is_valid(rules, b)
}

// A width, a height, and the greatest speed.
type Sizes = (i64, i64, i64);

const SLOW_AND_WIDE: Sizes = (536_870_912, 536_870_911, 1);

const QUICK: Sizes = (524_288, 524_287, 1024);

// The greatest box, with the greatest speed and with the least.
const GREATEST: Sizes = (1_073_741_824, 1_073_741_824, 1_048_576);

const VAST_AND_SLOW: Sizes = (1_073_741_824, 1_073_741_824, 1);

// A box, two disks, whether they come nearer on paths that cross, and when they hit each other.
type FarRow = (Sizes, Record, Record, bool, Event);

const QUICK_LEFT: Record = (2, 100, 1024, 0, 0, 0);

const QUICK_RIGHT: Record = (524_286, 100, -1024, 0, 0, 0);

const FAR_PAIRS: &[FarRow] = &[
    // from corner to corner: at (-4, -3) they are apart, and one tick later, at (-2, -1), they overlap
    (
        SLOW_AND_WIDE,
        (2, 2, 1, 1, 0, 0),
        (536_870_910, 536_870_909, -1, -1, 0, 0),
        true,
        Some((268_435_452, 0)),
    ),
    // at (-2044, -2043), and one tick later past each other, at (4, 5)
    (
        QUICK,
        (2, 2, 1024, 1024, 0, 0),
        (524_286, 524_285, -1024, -1024, 0, 0),
        true,
        Some((255, 0)),
    ),
    // head on, one unit less than tangent, tangent
    (QUICK, QUICK_LEFT, QUICK_RIGHT, true, Some((255, 0))),
    (
        QUICK,
        QUICK_LEFT,
        (524_286, 103, -1024, 0, 0, 0),
        true,
        Some((255, 0)),
    ),
    (
        QUICK,
        QUICK_LEFT,
        (524_286, 104, -1024, 0, 0, 0),
        false,
        None,
    ),
    // one of them from tick 100 on, when they are 421,884 units apart
    (
        QUICK,
        QUICK_LEFT,
        (524_286, 100, -1024, 0, 100, 0),
        true,
        Some((305, 0)),
    ),
    (
        QUICK,
        (2, 100, 1024, 0, 100, 0),
        QUICK_RIGHT,
        true,
        Some((305, 0)),
    ),
    // receding, overlapping
    (QUICK, (2, 100, -1024, 0, 0, 0), QUICK_RIGHT, false, None),
    (
        QUICK,
        (100, 100, 10, 0, 0, 0),
        (102, 100, -10, 0, 0, 0),
        true,
        None,
    ),
    // one of them has left the box at the later base tick: by less than a box is long, and by more
    (
        QUICK,
        (500_000, 100, 1000, 0, 0, 0),
        (524_286, 100, 1024, 0, 100, 0),
        true,
        None,
    ),
    (
        QUICK,
        (500_000, 100, 1000, 0, 0, 0),
        (524_286, 100, 1024, 0, 600, 0),
        true,
        None,
    ),
    // from corner to corner of the greatest box: at (-2097148, -2097148), and one tick later past each other, at (4, 4)
    (
        GREATEST,
        (2, 2, 1_048_576, 1_048_576, 0, 0),
        (1_073_741_822, 1_073_741_822, -1_048_576, -1_048_576, 0, 0),
        true,
        Some((511, 0)),
    ),
    // along it: tangent, one unit less than tangent, and so slow that floats guess other ticks
    (
        GREATEST,
        (2, 100, 1_048_576, 0, 0, 0),
        (1_073_741_822, 104, -1_048_576, 0, 0, 0),
        false,
        None,
    ),
    (
        GREATEST,
        (2, 100, 1_048_576, 0, 0, 0),
        (1_073_741_822, 103, -1_048_576, 0, 0, 0),
        true,
        Some((511, 0)),
    ),
    (
        VAST_AND_SLOW,
        (2, 100, 1, 0, 0, 0),
        (1_073_741_822, 104, -1, 0, 0, 0),
        false,
        None,
    ),
    (
        VAST_AND_SLOW,
        (2, 100, 1, 0, 0, 0),
        (1_073_741_822, 103, -1, 0, 0, 0),
        true,
        Some((536_870_908, 0)),
    ),
    (
        VAST_AND_SLOW,
        (2, 100, 1, 0, 0, 0),
        (1_073_741_822, 103, 0, 0, 0, 0),
        true,
        Some((1_073_741_817, 0)),
    ),
];

#[test]
fn finds_when_disks_meet_from_afar(rt: HostRuntime) {
    for (row, &(sizes, first, second, crosses, want)) in FAR_PAIRS.iter().enumerate() {
        let rules = rules_of(sizes);
        let (first, second) = (disk_of(first), disk_of(second));
        let found = (
            crossing(&rules, &first, &second),
            meeting(&rules, &first, &second),
        );
        expect(&rt, row, found, (Some(crosses), Some(want)));
    }
}

// Whether two disks come nearer on paths that cross; none if the rules or the disks aren't valid.
fn crossing(rules: &Rules, a: &Disk, b: &Disk) -> Option<bool> {
    if !are_valid(rules, a, b) {
        return None;
    }
    Some(may_hit(a, b, reach_square(rules, a)))
}

// No number is rounded in it.
const SMALL: Sizes = (32_767, 32_767, 16_383);

// A box, two disks of one base tick, a third one, and which of the two may hit the third.
type AtOnceRow = (Sizes, Record, Record, Record, (bool, bool));

const AT_ONCE: &[AtOnceRow] = &[
    // as far apart as the box is long, in either order
    (
        SLOW_AND_WIDE,
        (2, 2, 1, 0, 0, 0),
        (2, 2, -1, 0, 0, 0),
        (536_870_909, 2, -1, 0, 0, 0),
        (true, false),
    ),
    (
        SLOW_AND_WIDE,
        (2, 2, -1, 0, 0, 0),
        (2, 2, 1, 0, 0, 0),
        (536_870_909, 2, -1, 0, 0, 0),
        (false, true),
    ),
    // and from corner to corner: one comes straight towards it, the other one doesn't
    (
        SLOW_AND_WIDE,
        (2, 2, 1, 1, 0, 0),
        (2, 2, 1, -1, 0, 0),
        (536_870_909, 536_870_909, -1, -1, 0, 0),
        (true, false),
    ),
    // paths whose nearest points are a diameter apart, and a unit less
    (
        SMALL,
        (100, 100, 1, 0, 0, 0),
        (100, 101, 1, 0, 0, 0),
        (200, 104, -1, 0, 0, 0),
        (false, true),
    ),
    // the third disk has crossed the whole box before the two begin, or has stood for very long
    (
        SLOW_AND_WIDE,
        (536_870_862, 100, -1, 0, 536_870_812, 0),
        (536_870_862, 100, 1, 0, 536_870_812, 0),
        (2, 100, 1, 0, 0, 0),
        (true, false),
    ),
    (
        SMALL,
        (100, 100, 1, 0, 8_589_934_592, 0),
        (100, 100, -1, 0, 8_589_934_592, 0),
        (104, 100, 0, 0, 0, 0),
        (true, false),
    ),
];

#[test]
fn tells_of_two_disks_at_once(rt: HostRuntime) {
    for (row, &(sizes, first, second, third, want)) in AT_ONCE.iter().enumerate() {
        let rules = rules_of(sizes);
        let found = told_of_each(&rules, disk_of(first), disk_of(second), &disk_of(third));
        expect(&rt, row, found, Some(want));
    }
}

// None if the rules or one of the two aren't valid, or the third one has a later base tick.
fn told_of_each(rules: &Rules, first: Disk, second: Disk, third: &Disk) -> Told {
    if first.base != second.base || third.base > first.base {
        return None;
    }
    if !are_valid(rules, &first, &second) {
        return None;
    }
    let may = each_may_hit(first, second, third, EachReach::of(rules, &first, &second));
    Some((may.first(), may.second()))
}

type Told = Option<(bool, bool)>;

#[test]
fn each_of_two_disks_reaches_as_far_as_its_size_lets_it(rt: HostRuntime) {
    let (rules, third) = (rules_of(SMALL), disk_of((200, 103, -1, 0, 0, 0)));
    let wide = disk_of((100, 100, 1, 0, 0, 0));
    let narrow = sized(wide, 2);
    let found = told_of_each(&rules, narrow, wide, &third);
    expect(&rt, 0, found, Some((false, true)));
    let turned = told_of_each(&rules, wide, narrow, &third);
    expect(&rt, 1, turned, Some((true, false)));
}

// The sides of a box, and the greatest speed, for which coordinates are rounded by 0 to 16 bits, and velocities by 0 to 7.
const SCALES: &[(i64, i64)] = &[
    (32_767, 16_383),
    (65_535, 16_383),
    (32_767, 32_767),
    (131_071, 65_535),
    (262_143, 131_071),
    (524_287, 262_143),
    (1_048_575, 524_287),
    (2_097_151, 1_048_575),
    (1_073_741_823, 1_048_575),
    (1_073_741_824, 1_048_576),
    (1_073_741_824, 16_383),
    (32_767, 1_048_576),
];

#[test]
fn tells_of_two_disks_at_each_scale(rt: HostRuntime) {
    for (row, &(side, speed)) in SCALES.iter().enumerate() {
        let found = (
            from_corner_to_corner(side, speed),
            one_unit_nearer_than_tangent(side, speed),
            far_aside(side, speed),
        );
        let wanted = (
            Some((true, false)),
            Some((true, false)),
            Some((false, true)),
        );
        expect(&rt, row, found, wanted);
    }
}

// One of the two comes straight towards the third disk, and the other one at a right angle to it.
fn from_corner_to_corner(side: i64, speed: i64) -> Told {
    let (far, back) = (side.wrapping_sub(2), speed.wrapping_neg());
    told_of_each(
        &rules_of((side, side, speed)),
        disk_of((2, 2, speed, speed, 0, 0)),
        disk_of((2, 2, speed, back, 0, 0)),
        &disk_of((far, far, back, back, 0, 0)),
    )
}

// One of the two just touches the third disk's path, and the other one keeps its distance.
fn one_unit_nearer_than_tangent(side: i64, speed: i64) -> Told {
    let (far, back) = (side.wrapping_sub(2), speed.wrapping_neg());
    told_of_each(
        &rules_of((side, side, speed)),
        disk_of((2, 10, speed, 0, 0, 0)),
        disk_of((2, 10, back, 0, 0, 0)),
        &disk_of((far, 13, back, 0, 0, 0)),
    )
}

// One of the two passes the third disk half a box away, and the other one beside it.
fn far_aside(side: i64, speed: i64) -> Told {
    let (far, back) = (side.wrapping_sub(2), speed.wrapping_neg());
    let middle = side.wrapping_div(2);
    told_of_each(
        &rules_of((side, side, speed)),
        disk_of((2, 10, speed, 0, 0, 0)),
        disk_of((2, middle.wrapping_add(3), speed, 0, 0, 0)),
        &disk_of((far, middle, back, 0, 0, 0)),
    )
}

// A box, the diameter of two disks, how far apart their centres are, how fast each comes towards the other, and the
// tick at which they hit each other.
type HeadOnRow = (Sizes, i64, i64, i64, u64);

const HEAD_ON: &[HeadOnRow] = &[
    // a squared gap just below 2^53, up to which a float has each whole number, and just above
    (SLOW_AND_WIDE, 4, 94_906_265, 1, 47_453_130),
    (SLOW_AND_WIDE, 4, 94_906_266, 1, 47_453_131),
    // a discriminant just below it, and just above: they touch exactly, and are one unit nearer
    (QUICK, 46_340, 251_140, 1024, 100),
    (QUICK, 46_340, 251_139, 1024, 99),
    (QUICK, 46_342, 251_142, 1024, 100),
    (QUICK, 46_342, 251_141, 1024, 99),
];

#[test]
fn finds_when_disks_meet_head_on(rt: HostRuntime) {
    for (row, &(sizes, diameter, apart, speed, want)) in HEAD_ON.iter().enumerate() {
        let found = head_on(sizes, diameter, apart, speed);
        expect(&rt, row, found, Some(Some((want, 0))));
    }
}

fn head_on(sizes: Sizes, diameter: i64, apart: i64, speed: i64) -> Option<Event> {
    let place: i64 = 100_000;
    let left = (place, place, speed, 0, 0, 0);
    let right = (
        place.wrapping_add(apart),
        place,
        speed.wrapping_neg(),
        0,
        0,
        0,
    );
    let rules = Rules {
        diameter,
        ..rules_of(sizes)
    };
    meeting(
        &rules,
        &sized(disk_of(left), diameter),
        &sized(disk_of(right), diameter),
    )
}

// The same disk in another size.
fn sized(a: Disk, size: i64) -> Disk {
    Disk { size, ..a }
}

// The rules of a box, with the greatest end.
fn rules_of((width, height, speed_limit): Sizes) -> Rules {
    Rules {
        width,
        height,
        speed_limit,
        end: 1_099_511_627_776,
        ..RULES
    }
}

// The end of the run, a disk, a side (left, right, bottom, top) and when the disk hits it.
type WallRow = (u64, Record, u32, Event);

const CORNERED: Record = (3, 3, -2, -2, 0, 0);

const BESIDE: Record = (3, 10, -2, 0, 2, 3);

const COMING: Record = (5, 10, -2, 0, 2, 3);

const RISING: Record = (10, 10, 0, 8, 0, 0);

const LEAVING: Record = (10, 10, 7, 0, 0, 0);

const WALLS: &[WallRow] = &[
    (3, CORNERED, 0, Some((0, 0))),
    (3, CORNERED, 1, None),
    (3, CORNERED, 2, Some((0, 0))),
    (3, CORNERED, 3, None),
    (0, CORNERED, 0, None),
    (0, CORNERED, 2, None),
    (5, BESIDE, 0, Some((2, 3))),
    (5, BESIDE, 1, None),
    (5, BESIDE, 2, None),
    (5, BESIDE, 3, None),
    (5, COMING, 0, Some((3, 0))),
    (3, COMING, 0, None),
    (5, RISING, 3, Some((1, 0))),
    (5, LEAVING, 1, Some((4, 0))),
    (9, STILL, 0, None),
    (9, STILL, 3, None),
];

#[test]
fn finds_when_a_disk_hits_each_side(rt: HostRuntime) {
    for (row, &(end, record, side, want)) in WALLS.iter().enumerate() {
        expect(&rt, row, hit(end, &disk_of(record), side), Some(want));
    }
}

// None if the rules, the disk or the side aren't valid.
fn hit(end: u64, a: &Disk, side: u32) -> Option<Event> {
    let rules = Rules { end, ..RULES };
    if !is_valid(&rules, a) {
        return None;
    }
    if side > 3 {
        return None;
    }
    Some(event_of(wall_event(&rules, 1, a, side)))
}

// In tick 0, after an event of round 0 that one of the disks took part in.
const LATE: Stamp = Stamp {
    tick: 0,
    round: 1,
    kind: Kind::Pair,
    first: 0,
    second: 1,
};

// FAST, which was in an event of its base tick, and PASSING after they hit each other.
const HIT: Change = Change {
    stamp: LATE,
    first: Disk {
        x: 10,
        y: 10,
        vx: -6,
        vy: -5,
        size: 4,
        base: 0,
        mark: 2,
    },
    second: Some(Disk {
        x: 18,
        y: 13,
        vx: 6,
        vy: 5,
        size: 4,
        base: 0,
        mark: 2,
    }),
};

const FAST_AGAIN: Record = (10, 10, 8, 0, 0, 1);

#[test]
fn changes_velocities_or_meets_a_limit(rt: HostRuntime) {
    let (a, b) = (disk_of(FAST_AGAIN), disk_of(PASSING));
    expect(&rt, 2, collision(2, &a, &b), Some(Ok(HIT)));
    let limit = Limit::Rounds(LATE);
    expect(&rt, 1, collision(1, &a, &b), Some(Err(limit)));
}

// The collision of the disks 0 and 1; none if the rules or the disks aren't valid, or the disks don't meet.
fn collision(round_limit: u32, a: &Disk, b: &Disk) -> Option<Result<Change, Limit>> {
    let rules = Rules {
        round_limit,
        ..RULES
    };
    if !are_valid(&rules, a, b) {
        return None;
    }
    let stamp = pair_event(&rules, 0, a, 1, b)?;
    Some(apply(&rules, &stamp, a, Some(b)))
}
