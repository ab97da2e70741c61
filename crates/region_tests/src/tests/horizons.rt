//! The commit horizon of a script that was worked out by hand.

ghost use Rattle.commit_horizon.specs.Horizon.{AllStand};

use super::cases::expect;
use super::opened::{Call, committed_of, regions_after};
use commit_horizon::Committed;
use event_stamps::{Kind, Stamp};
use region_core::Region;
use region_view::Action;
use std::alloc::{AllocError, Global};
use std::test::Fail;
use test_scenes::ROLLED_BACK;

// A tick, a round, a kind and two numbers.
type Key = (u64, u32, Kind, u32, u32);

// Disk 1 hits ten sides in region 1, region 2 hears of it, and disk 0 comes into region 0's last column.
const UNHEARD: &[Call] = &[(10, 1, None), (1, 2, Some(1)), (10, 2, None), (1, 0, None)];

// Then region 1 hears of disk 0, and region 2 of what region 1 takes back.
const HEARD: &[Call] = &[
    (10, 1, None),
    (1, 2, Some(1)),
    (10, 2, None),
    (1, 0, None),
    (1, 1, Some(0)),
    (1, 2, Some(1)),
];

const CROSSING: Key = (4, 0, Kind::Cross, 0, 0);

const END: Key = (20, 0, Kind::Cross, 0, 0);

// What bounds the horizon, the calls, and what each of the four regions then has due.
type Row = (&'static str, &'static [Call], [Option<Key>; 4]);

const ROWS: &[Row] = &[
    (
        "news that weren't heard",
        UNHEARD,
        [Some(END), Some(END), Some(END), Some(END)],
    ),
    (
        "news that wait",
        HEARD,
        [Some(END), Some(CROSSING), Some(END), Some(END)],
    ),
];

// The actions that are committed, and nothing after them: the horizon is at the crossing.
const COMMITTED: [Option<Key>; 3] = [
    Some((1, 0, Kind::Wall, 1, 3)),
    Some((3, 0, Kind::Wall, 1, 2)),
    None,
];

// The number of regions, what the first four have due, the horizon, and the first actions that a commit makes final
// then.
type Found = (usize, [Option<Key>; 4], Key, [Option<Key>; 3]);

// What is found after some calls; none if the scene is refused.
fn found_after(alloc: Global, calls: &[Call]) -> Result<Option<Found>, AllocError> {
    match committed_of(alloc, ROLLED_BACK, 20, 4)? {
        Some(mut committed) => Ok(Some(found_by(alloc, &mut committed, calls)?)),
        None => Ok(None),
    }
}

fn found_by(alloc: Global, committed: &mut Committed, calls: &[Call]) -> Result<Found, AllocError> {
    let mut regions = regions_after(alloc, committed, calls)?;
    found_in(alloc, committed, &mut regions)
}

fn found_in(
    alloc: Global,
    committed: &mut Committed,
    regions: &mut [Region],
) -> Result<Found, AllocError>
    requires { AllStand committed.old regions.old }
{
    let due = [
        due_at(regions, 0),
        due_at(regions, 1),
        due_at(regions, 2),
        due_at(regions, 3),
    ];
    let horizon = key_of(&committed.horizon(regions));
    let keys = committed_by(alloc, committed, regions)?;
    Ok((regions.len(), due, horizon, keys))
}

// The stamp that the region at a place has due.
fn due_at(regions: &[Region], place: usize) -> Option<Key> {
    let region = regions.get(place)?;
    Some(key_of(&region.due()))
}

// The stamps of the first three actions that a commit makes final.
fn committed_by(
    alloc: Global,
    committed: &mut Committed,
    regions: &mut [Region],
) -> Result<[Option<Key>; 3], AllocError>
    requires { AllStand committed.old regions.old }
{
    let batch = committed.commit(alloc, regions)?;
    let actions = batch.as_slice();
    Ok([key_at(actions, 0), key_at(actions, 1), key_at(actions, 2)])
}

fn key_at(actions: &[Action], place: usize) -> Option<Key> {
    let action = actions.get(place)?;
    Some(key_of(&action.stamp()))
}

fn key_of(stamp: &Stamp) -> Key {
    (
        stamp.tick,
        stamp.round,
        stamp.kind,
        stamp.first,
        stamp.second,
    )
}

#[test]
fn what_isnt_heard_or_waits_bounds_the_horizon(rt: HostRuntime) -> Result<(), Fail> {
    for &(bound, calls, due) in ROWS {
        let found = found_after(rt.alloc(), calls)?;
        expect(&rt, bound, found, Some((4, due, CROSSING, COMMITTED)));
    }
    Ok(())
}
