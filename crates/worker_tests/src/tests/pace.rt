//! How far regions run, and how far a burst is.

use super::cases::expect;
use super::regions::{RULES, empty_scene, opened};
use event_stamps::{Kind, Stamp};
use region_locks::RegionProgress;
use region_workers::pace::{Pace, Slice};
use region_workers::rendezvous::Rendezvous;
use region_workers::roll::{Roll, Share};
use region_workers::virtual_time::{from_parts, to_parts};
use std::alloc::{AllocError, Global};

// A number of regions whose work is done, and whether any of them moved.
type ShareRow = (u32, bool);

// The phase, the number of regions for which it is done, and whether any of them moved.
type RollRow = (u32, u32, bool);

// Shares of the work on four regions, and what the roll says after each.
type Course = &'static [(ShareRow, RollRow)];

const COURSES: &[Course] = &[
    &[
        // One worker does all.
        ((4, true), (1, 0, false)),
        // It is enough that one of them moved.
        ((1, false), (1, 1, false)),
        ((2, true), (1, 3, true)),
        ((1, false), (2, 0, false)),
        // None has anything to do.
        ((3, false), (2, 3, false)),
        ((1, false), (u32::MAX, 0, false)),
        ((1, true), (u32::MAX, 0, false)),
    ],
    &[
        // Before the first phase nothing was posted that a region could have heard.
        ((4, false), (1, 0, false)),
        // The last one moved.
        ((3, false), (1, 3, false)),
        ((1, true), (2, 0, false)),
        ((4, false), (u32::MAX, 0, false)),
    ],
];

// The roll that a word keeps after a share of the work on four regions.
fn kept(roll: Roll, &(regions, moved): &ShareRow) -> Roll {
    let with = roll.with(&Share { regions, moved });
    Roll::of((if with.done == 4 { with.next() } else { with }).word())
}

#[test]
fn a_phase_ends_when_it_is_done_of_all_regions(rt: HostRuntime) {
    for course in COURSES {
        let mut roll = Roll::of(0);
        for (row, (share, want)) in course.iter().enumerate() {
            roll = kept(roll, share);
            expect(&rt, row, (roll.phase, roll.done, roll.moved), *want);
        }
    }
}

// The number of regions for which a phase is done, if the answer tells it after a share of the work on one of three.
fn done_after_one(meeting: &Rendezvous) -> Option<u32> {
    let share = Share {
        regions: 1,
        moved: true,
    };
    meeting.note(&share).map(|done| done.done)
}

// The answers after each of three shares.
fn done_in_turn(alloc: Global) -> Result<[Option<u32>; 3], AllocError> {
    let meeting = Rendezvous::new(alloc, 3)?;
    let first = done_after_one(&meeting);
    let second = done_after_one(&meeting);
    Ok([first, second, done_after_one(&meeting)])
}

#[test]
fn whoever_notes_the_last_region_is_told(rt: HostRuntime) -> Result<(), AllocError> {
    let found = done_in_turn(rt.alloc())?;
    expect(&rt, "shares", found, [None, None, Some(3)]);
    Ok(())
}

// Stamps in their order: the tick, the round, what happens, and the disk.
const RISING: &[(u64, u32, Kind, u32)] = &[
    (0, 0, Kind::Cross, 0),
    (2, 0, Kind::Cross, 999),
    (2, 0, Kind::Wall, 0),
    (2, 0, Kind::Wall, 999),
    (2, 0, Kind::Pair, 0),
    (2, 0, Kind::Pair, 998),
    (2, 1, Kind::Wall, 3),
    (2, 7, Kind::Pair, 5),
    (1 << 40, 0, Kind::Cross, 999),
];

// The first row whose part is before that of the row above it, or which isn't before the part after its own, if there
// are `disks` disks.
fn first_out_of_order(disks: u64) -> Option<usize> {
    let mut before = 0;
    for (row, &(tick, round, kind, first)) in RISING.iter().enumerate() {
        let stamp = Stamp {
            tick,
            round,
            kind,
            first,
            second: 1,
        };
        let part = to_parts(&stamp, disks);
        if part < before || stamp >= from_parts(part.saturating_add(1), disks) {
            return Some(row);
        }
        before = part;
    }
    None
}

#[test]
fn parts_are_in_the_order_of_stamps(rt: HostRuntime) {
    for &disks in &[1u64, 1000, 65_536] {
        expect(&rt, disks, first_out_of_order(disks), None);
    }
}

// The progress of a region that made `steps` steps. Before them the end stamp of the tick `began` was due there, after
// them that of `due`.
fn progress(steps: u32, began: u64, due: u64) -> RegionProgress {
    RegionProgress {
        has_news: false,
        began: Stamp::end_of(began),
        steps,
        due: Stamp::end_of(due),
    }
}

// The steps of a slice, and where it ends.
type Seen = (u32, Stamp);

fn seen(pace: &Pace, slice: &Slice) -> Seen {
    (slice.steps, pace.bound(slice))
}

// The next slice once the first steps are made, and the next one after a message made an earlier stamp due.
fn later_slices(pace: &Pace) -> (Seen, Seen) {
    pace.ran(0, &progress(16, 2, 10));
    pace.ran(1, &progress(0, 20, 20));
    let next = seen(pace, &pace.next_slice(3));
    pace.ran(0, &progress(16, 1, 9));
    (next, seen(pace, &pace.next_slice(64)))
}

// The steps of the first slice of four regions without disks, whether it goes past their end, and later slices; none if
// the rules are refused.
type Slices = ((u32, bool), (Seen, Seen));

fn slices(alloc: Global) -> Result<Option<Slices>, AllocError> {
    let Some(scene) = empty_scene(alloc) else {
        return Ok(None);
    };
    let pace = Pace::new(alloc, &opened(alloc, &scene)?)?;
    let (steps, end) = seen(&pace, &pace.next_slice(64));
    let is_open = end > Stamp::end_of(RULES.end);
    Ok(Some(((steps, is_open), later_slices(&pace))))
}

#[test]
fn a_slice_goes_as_far_as_its_steps_took_lately(rt: HostRuntime) -> Result<(), AllocError> {
    // Nothing is known at first.
    let first = (16, true);
    // Sixteen steps took eight ticks, so that the next go seven ticks on. A region without events makes no difference.
    let next = (3, Stamp::end_of(17));
    // A message makes an earlier stamp due.
    let earlier = (16, Stamp::end_of(16));
    let found = slices(rt.alloc())?;
    let want: Slices = (first, (next, earlier));
    expect(&rt, "steps and ends", found, Some(want));
    Ok(())
}
