//! The order of stamps.

use super::rows::expect;
use event_stamps::{Kind, Stamp, compare, earlier};
use std::cmp::Ordering;
use std::cmp::Ordering::{Equal, Greater, Less};

// A tick, a round, a kind and two numbers.
type Parts = (u64, u32, Kind, u32, u32);

// Two stamps, the first of which is before the second, since a part decides before all parts after it.
const RISING: &[(Parts, Parts)] = &[
    ((0, 0, Kind::Cross, 0, 0), (0, 0, Kind::Cross, 0, 1)),
    ((0, 0, Kind::Cross, 0, 1), (0, 0, Kind::Cross, 1, 0)),
    ((0, 0, Kind::Cross, 1, 0), (0, 0, Kind::Wall, 0, 1)),
    ((0, 0, Kind::Wall, 0, 1), (0, 0, Kind::Wall, 1, 0)),
    ((0, 0, Kind::Wall, 1, 0), (0, 0, Kind::Pair, 0, 0)),
    ((0, 0, Kind::Cross, 1, 0), (0, 0, Kind::Pair, 0, 0)),
    ((0, 0, Kind::Pair, 1, 1), (0, 1, Kind::Cross, 0, 0)),
    ((0, 1, Kind::Pair, 1, 1), (1, 0, Kind::Cross, 0, 0)),
];

fn stamp_of((tick, round, kind, first, second): Parts) -> Stamp {
    Stamp {
        tick,
        round,
        kind,
        first,
        second,
    }
}

#[test]
fn orders_stamps(rt: HostRuntime) {
    for (row, &(first, second)) in RISING.iter().enumerate() {
        let (a, b) = (stamp_of(first), stamp_of(second));
        let wanted = (Less, Greater, Equal, Some(a), Some(a));
        expect(&rt, row, orders(a, b), wanted);
    }
}

// The orders of the first with the second, of the second with the first and with itself, and the earlier of the two,
// asked either way.
type Orders = (Ordering, Ordering, Ordering, Option<Stamp>, Option<Stamp>);

fn orders(a: Stamp, b: Stamp) -> Orders {
    (
        compare(&a, &b),
        compare(&b, &a),
        compare(&b, &b),
        earlier(Some(a), Some(b)),
        earlier(Some(b), Some(a)),
    )
}
