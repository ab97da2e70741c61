//! `contact`, `stay` and `Approach` on tables worked out by hand.

ghost use Rattle.std.specs.Prelude.{IsTrue};
ghost use Rattle.plane_vectors.specs.Vectors.{IsWithin};
ghost use Rattle.contact_predictor.specs.Approach.{IsFit};

use super::rows::expect;
use contact_predictor::{Approach, contact, stay};
use plane_vectors::Vector;

// The greatest sizes: 2^30 units apart, 2^21 units per tick, and 2^31 units for a coordinate that stays.
const FAR: u64 = 1073741824;

const FAST: u64 = 2097152;

const WIDE: i64 = 2147483648;

// A separation, a relative velocity, a diameter, a span, and the answer of `contact`.
type ContactRow = ((i64, i64), (i64, i64), i64, u64, Option<u64>);

const CONTACTS: &[ContactRow] = &[
    // head on: at x = -4 they touch, and one tick later overlap
    ((-10, 0), (2, 0), 4, 100, Some(3)),
    ((-10, 0), (2, 0), 4, 3, Some(3)),
    ((-10, 0), (2, 0), 4, 2, None),
    ((0, 10), (0, -2), 4, 100, Some(3)),
    // tangent, one unit nearer, one unit farther
    ((-10, -4), (2, 0), 4, 100, None),
    ((-10, -3), (2, 0), 4, 100, Some(3)),
    ((-10, -5), (2, 0), 4, 100, None),
    // the disks cross between two ticks at which they are apart
    ((-8, -3), (16, 0), 4, 4, Some(0)),
    ((-9, -3), (6, 0), 4, 10, Some(1)),
    // aslant: apart at (2, -2), and overlapping at (1, -1)
    ((10, -10), (-1, 1), 2, 100, Some(8)),
    // touching at the start, and a span of 0
    ((-4, 0), (1, 0), 4, 0, Some(0)),
    ((-6, 0), (1, 0), 4, 0, None),
    // the last tick of the span, and one tick past it
    ((-6, 0), (1, 0), 4, 2, Some(2)),
    ((-6, 0), (1, 0), 4, 1, None),
    // overlapping, receding, at rest
    ((-3, 0), (2, 0), 4, 100, None),
    ((10, 0), (2, 0), 4, 100, None),
    ((-10, 0), (0, 0), 4, 100, None),
    // the greatest sizes
    ((-1073741824, 0), (2097152, 0), 1024, 2, None),
    ((-1073741824, 0), (2097152, 0), 1024, 512, Some(511)),
    ((-1073741824, 0), (2097152, 0), 2, 1024, Some(511)),
    (
        (-1073741824, -1073741824),
        (2097152, 2097152),
        1073741824,
        1024,
        Some(149),
    ),
    ((-1073741824, 0), (1, 0), 2, 1073741824, Some(1073741822)),
    ((1073741824, 0), (-2, 0), 2, 1073741824, Some(536870911)),
    // a separation of -4 after 2^29 ticks
    ((-536870916, 0), (1, 0), 4, 1073741824, Some(536870912)),
    // from corner to corner at the greatest speeds
    (
        (-1073741824, -1073741824),
        (2097152, 2097152),
        2,
        1024,
        Some(511),
    ),
    ((1073741824, -1073741824), (-2097152, 2097152), 2, 510, None),
    // touching, with a scalar product of -1, and with a diameter of one unit less
    ((-4, 3), (1, 1), 5, 10, Some(0)),
    ((-4, 3), (1, 1), 4, 10, None),
    (
        (-159140520, 159140519),
        (1, 1),
        225058681,
        268435456,
        Some(0),
    ),
    ((-159140520, 159140519), (1, 1), 225058680, 268435456, None),
    // tangent at a distance of 2^30, one unit nearer, one unit less in diameter
    (
        (-1073741824, 1073741824),
        (1, 0),
        1073741824,
        1073741824,
        None,
    ),
    (
        (-1073741824, 1073741823),
        (1, 0),
        1073741824,
        1073741824,
        Some(1073695483),
    ),
    (
        (-1073741824, 1073741824),
        (1, 0),
        1073741823,
        1073741824,
        None,
    ),
    (
        (-1073741824, 1073741823),
        (2097152, 0),
        1073741824,
        1024,
        Some(511),
    ),
    // a discriminant of 1, and of -1
    (
        (-1073741824, -755460785),
        (1, 1),
        225058681,
        1073741824,
        Some(914601304),
    ),
    (
        (-1073741824, -305343423),
        (1, 1),
        543339720,
        1073741824,
        None,
    ),
    // floats guess 11 ticks late, 10 ticks early, one late, one early
    (
        (-1073741229, -1073741824),
        (1, 1),
        421,
        1073741824,
        Some(1073741515),
    ),
    (
        (-1073741660, -1073741824),
        (1, 1),
        116,
        1073741824,
        Some(1073741740),
    ),
    (
        (-536870909, -1073741824),
        (1, 2),
        3,
        1073741824,
        Some(536870910),
    ),
    (
        (-357912651, -1073741823),
        (1, 3),
        1224,
        536870912,
        Some(357913805),
    ),
    // their guess is 2^30 or more
    ((-1073741824, -2), (1, 0), 3, 1073741824, Some(1073741821)),
    (
        (-1073741824, -1073741824),
        (1, 1),
        2,
        1073741824,
        Some(1073741822),
    ),
];

#[test]
fn finds_each_contact(rt: HostRuntime) {
    for (row, &(separation, velocity, diameter, span, want)) in CONTACTS.iter().enumerate() {
        let found = contact_of(separation, velocity, diameter, span);
        expect(&rt, row, found, Ok(want));
    }
}

// Whether each component of a vector is within a bound.
fn is_near(a: Vector, most: u64) -> bool
    ensures { IsTrue result → IsWithin most a }
{
    a.x.unsigned_abs() <= most && a.y.unsigned_abs() <= most
}

// An error if `contact` doesn't take these numbers.
fn contact_of(
    (rx, ry): (i64, i64),
    (ux, uy): (i64, i64),
    diameter: i64,
    span: u64,
) -> Result<Option<u64>, ()> {
    let separation = Vector { x: rx, y: ry };
    if !is_near(separation, FAR) {
        return Err(());
    }
    let velocity = Vector { x: ux, y: uy };
    if !is_near(velocity, FAST) {
        return Err(());
    }
    if diameter < 2 || diameter.unsigned_abs() > FAR || span > FAR {
        return Err(());
    }
    let later = separation.after(velocity, span);
    if !is_near(later, FAR) {
        return Err(());
    }
    Ok(contact(rx, ry, ux, uy, diameter, span))
}

// The numbers a, b and c of an approach, and after how many ticks its disks are at their last whole tick before they
// overlap.
type ApproachRow = (i64, i64, i64, Option<u64>);

const APPROACHES: &[ApproachRow] = &[
    // touching, with b = -1
    (1, -1, 0, Some(0)),
    (2, -1, 0, Some(0)),
    (1, -1, 1, None),
    // overlapping, receding
    (1, -10, -1, None),
    (1, 10, 20, None),
    // the greatest numbers: tangent, and one less
    (8796093022208, -4503599627370496, 2305843009213693952, None),
    (
        8796093022208,
        -4503599627370496,
        2305843009213693951,
        Some(511),
    ),
    (1, -4503599627370496, 2305843009213693952, Some(256)),
    // c / |b| is past 2^30, and so is the contact
    (1, -1073741826, 1152921508901814275, Some(1073741825)),
    (1, -1500000000, 2249999999999999999, Some(1499999999)),
    (1, -1500000000, 2250000000000000000, None),
];

#[test]
fn finds_the_contact_of_each_approach(rt: HostRuntime) {
    for (row, &(square, closing, gap, want)) in APPROACHES.iter().enumerate() {
        let found = contact_of_approach(Approach {
            square,
            closing,
            gap,
        });
        expect(&rt, row, found, Ok(want));
    }
}

// An error if the numbers are greater than those of disks in a box.
fn contact_of_approach(approach: Approach) -> Result<Option<u64>, ()> {
    if !is_fit(approach) {
        return Err(());
    }
    if approach.overlap() || !approach.is_course() {
        return Ok(None);
    }
    Ok(Some(approach.contact()))
}

// Whether the numbers are at most as great as those of disks in a box.
fn is_fit(approach: Approach) -> bool
    ensures { IsTrue result → IsFit approach }
{
    approach.square >= 0
        && approach.square.unsigned_abs() <= 1 << 43
        && approach.closing.unsigned_abs() <= 1 << 52
        && approach.gap.unsigned_abs() <= 1 << 61
}

// Two bounds, a coordinate, a velocity, and the answer of `stay`.
type StayRow = (i64, i64, i64, i64, Option<u64>);

const STAYS: &[StayRow] = &[
    (2, 38, 10, -3, Some(2)),
    (2, 38, 10, 0, None),
    // at each edge, with either sign
    (2, 38, 2, -1, Some(0)),
    (2, 38, 2, 1, Some(36)),
    (2, 38, 38, 1, Some(0)),
    (2, 38, 38, -1, Some(36)),
    (2, 38, 37, 1, Some(1)),
    // the edge is reached, just not reached, and jumped over
    (0, 10, 0, 5, Some(2)),
    (0, 10, 0, 4, Some(2)),
    (0, 10, 0, 11, Some(0)),
    (-9, -1, -5, 2, Some(2)),
    (5, 5, 5, -1, Some(0)),
    // the greatest sizes
    (-2147483648, 2147483648, -2147483648, 1, Some(4294967296)),
    (-2147483648, 2147483648, 2147483648, -2147483648, Some(2)),
];

#[test]
fn finds_how_long_a_coordinate_stays(rt: HostRuntime) {
    for (row, &(lo, hi, x, v, want)) in STAYS.iter().enumerate() {
        expect(&rt, row, stay_of(lo, hi, x, v), Ok(want));
    }
}

// An error if `stay` doesn't take these numbers.
fn stay_of(lo: i64, hi: i64, x: i64, v: i64) -> Result<Option<u64>, ()> {
    if -WIDE <= lo && lo <= x && x <= hi && hi <= WIDE && -WIDE <= v && v <= WIDE {
        Ok(stay(lo, hi, x, v))
    } else {
        Err(())
    }
}
