//! Keys as codes, at the edges of what has one: no clause says which stamps have one.

use super::rows::expect;
use event_stamps::{Kind, Stamp};
use event_tree::{Code, Packed};

// A tick, a round, a kind and two numbers.
type Parts = (u64, u32, Kind, u32, u32);

// The last tick that has codes.
const LAST: u64 = (1 << 27) - 1;

// Stamps that have a code.
const CODED: &[Parts] = &[
    (0, 0, Kind::Cross, 0, 0),
    (0, 0, Kind::Cross, 65535, 0),
    (0, 0, Kind::Wall, 0, 0),
    (0, 0, Kind::Wall, 65535, 3),
    (0, 0, Kind::Pair, 0, 1),
    (0, 0, Kind::Pair, 65534, 65535),
    (0, 1, Kind::Cross, 0, 0),
    (0, 7, Kind::Pair, 65534, 65535),
    (1, 0, Kind::Cross, 0, 0),
    (LAST, 0, Kind::Cross, 65535, 0),
    (LAST, 7, Kind::Pair, 65535, 65535),
];

// Stamps that have none.
const BEYOND: &[Parts] = &[
    (0, 8, Kind::Cross, 0, 0),
    (0, 65536, Kind::Pair, 0, 1),
    (LAST, 8, Kind::Pair, 0, 1),
    (LAST + 1, 0, Kind::Cross, 0, 0),
    (1 << 40, 7, Kind::Wall, 65535, 3),
];

fn stamp_of((tick, round, kind, first, second): Parts) -> Stamp {
    Stamp {
        tick,
        round,
        kind,
        first,
        second,
    }
}

// The code of a stamp; none if it has none.
fn code_of(parts: Parts) -> Option<Code> {
    let stamp = stamp_of(parts);
    if stamp.round > 65536 || stamp.first > 65535 || stamp.second > 65535 {
        return None;
    }
    Code::of(Packed::new(Some(stamp)))
}

#[test]
fn stamps_come_back_from_codes(rt: HostRuntime) {
    for (row, &parts) in CODED.iter().enumerate() {
        let stamp = Some(stamp_of(parts));
        expect(&rt, row, taken_apart(parts), Some((stamp, stamp)));
    }
    for (row, &parts) in BEYOND.iter().enumerate() {
        expect(&rt, row, taken_apart(parts), None);
    }
}

// The stamp of the code of a stamp, taken from the code and from the packed key.
fn taken_apart(parts: Parts) -> Option<(Option<Stamp>, Option<Stamp>)> {
    let code = code_of(parts)?;
    Some((code.stamp(), code.packed().key()))
}
