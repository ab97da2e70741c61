//! Where disks are, and which places overlap.

use super::rows::{expect, is_valid};
use fixed_motion::{Disk, Rules, overlap};

const RULES: Rules = Rules {
    width: 40,
    height: 20,
    diameter: 4,
    speed_limit: 8,
    round_limit: 8,
    end: 5,
};

// A size, a tick, and the place of a disk of that size then.
type PlaceRow = (i64, u64, Option<(i64, i64)>);

const PLACES: &[PlaceRow] = &[
    (4, 1, None),
    (4, 2, Some((10, 5))),
    (4, 4, Some((16, 3))),
    (4, 5, Some((19, 2))),
    (4, 6, None),
    (2, 6, Some((22, 1))),
    (2, 7, None),
];

#[test]
fn a_disk_has_a_place_from_its_base_to_the_side(rt: HostRuntime) {
    for (row, &(size, tick, want)) in PLACES.iter().enumerate() {
        expect(&rt, row, place_of(size, tick), Some(want));
    }
}

// The place of a disk of that size that was at (10, 5) at tick 2; none if the disk or the tick isn't valid.
fn place_of(size: i64, tick: u64) -> Option<Option<(i64, i64)>> {
    let disk = Disk {
        x: 10,
        y: 5,
        vx: 3,
        vy: -1,
        size,
        base: 2,
        mark: 1,
    };
    if !is_valid(&RULES, &disk) {
        return None;
    }
    if tick > 9 {
        return None;
    }
    Some(disk.place(&RULES, tick))
}

#[test]
fn places_overlap_below_the_distance(rt: HostRuntime) {
    let middle = (20, 10);
    let cases = [
        (overlap(4, middle, (24, 10)), false),
        (overlap(4, middle, (23, 10)), true),
        (overlap(4, middle, (20, 6)), false),
        (overlap(4, middle, (20, 7)), true),
        (overlap(4, middle, (23, 13)), false),
        (overlap(5, middle, (23, 13)), true),
        (overlap(5, middle, (17, 14)), false),
        (overlap(2, middle, (19, 9)), true),
    ];
    for (row, &(found, want)) in cases.iter().enumerate() {
        expect(&rt, row, found, want);
    }
}
