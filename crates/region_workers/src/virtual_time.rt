//! Virtual time in numbers.
//!
//! A tick has parts: crossings come in its first half, walls in the middle, and pairs in the second half, each in the
//! order of the disks. An event with a cause in its own tick comes in the last part. So the order of parts is that of
//! stamps, except for stamps in one part.

use event_stamps::{Kind, Stamp};

// How many parts a tick has.
const PARTS: u64 = 1 << 17;

// The part of walls in a tick.
const HALF: u64 = PARTS / 2;

/// The part of a stamp, counted from time 0 on, if there are this many disks.
pub fn to_parts(stamp: &Stamp, disks: u64) -> u64 {
    let start = stamp.tick.saturating_mul(PARTS);
    if stamp.round > 0 {
        return start.saturating_add(PARTS - 1);
    }
    let place = (u64::from(stamp.first) * HALF / disks.max(1)).min(HALF - 1);
    start.saturating_add(match stamp.kind {
        Kind::Cross => place,
        Kind::Wall => HALF,
        Kind::Pair => HALF + place,
    })
}

/// The first stamp of a part, if there are this many disks: stamps of the parts before it are before it.
pub fn from_parts(parts: u64, disks: u64) -> Stamp {
    let part = parts % PARTS;
    let (kind, place) = if part < HALF {
        (Kind::Cross, part)
    } else if part == HALF {
        (Kind::Wall, 0)
    } else {
        (Kind::Pair, part - HALF)
    };
    let first = place.saturating_mul(disks).saturating_add(HALF - 1) / HALF;
    Stamp {
        tick: parts / PARTS,
        round: 0,
        kind,
        first: first.min(u64::from(u32::MAX)) as u32,
        second: 0,
    }
}
