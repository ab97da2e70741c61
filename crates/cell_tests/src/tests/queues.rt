//! Queues of regions that are kept while a cell run goes on, compared with queues that are opened again, and with rows
//! worked out by hand.

ghost use Rattle.std.specs.Prelude.{◌≡◌, IfOk};
ghost use Rattle.cell_grid.specs.Grid.{IsRegion};
ghost use Rattle.region_queue.specs.Queue.{IsOf};

use super::helpers::{opened, run_next, view_of};
use super::rows::expect;
use cell_sequence::CellState;
use event_stamps::{Kind, Stamp};
use region_queue::Queue;
use std::alloc::{AllocError, Global};
use std::test::Fail;
use test_scenes::SLOW_CROSSING;

// A disk that goes from column 4 to the right, of a box of 20 columns.
const ONE: &str = "width = 400\n\
    height = 20\n\
    diameter = 4\n\
    speed_limit = 8\n\
    round_limit = 8\n\
    end = 60\n\
    disks = [[96, 10, 1, 0]]\n";

// Disk 0 in column 5 and disk 1 in column 4, which hit each other.
const TWO: &str = "width = 400\n\
    height = 20\n\
    diameter = 4\n\
    speed_limit = 8\n\
    round_limit = 8\n\
    end = 60\n\
    disks = [[104, 10, -1, 0], [96, 10, 1, 0]]\n";

// Region 0 has the columns 0 to 4, and so on.
const REGIONS: u32 = 4;

// A tick, a kind and two numbers, of an event of round 0.
type Event = Option<(u64, Kind, u32, u32)>;

// A scene, a region, and its own next event before and after the first event of the run.
type Row = (&'static str, u32, Event, Event);

const ROWS: &[Row] = &[
    // disk 1 hits a wall, in column 9
    (
        SLOW_CROSSING,
        0,
        Some((4, Kind::Cross, 0, 0)),
        Some((4, Kind::Cross, 0, 0)),
    ),
    (
        SLOW_CROSSING,
        1,
        Some((1, Kind::Wall, 1, 3)),
        Some((3, Kind::Wall, 1, 2)),
    ),
    // region 2 sees it, and doesn't own its column
    (SLOW_CROSSING, 2, None, None),
    // the disk goes from region 0 to region 1
    (ONE, 0, Some((4, Kind::Cross, 0, 0)), None),
    (ONE, 1, None, Some((24, Kind::Cross, 0, 0))),
    // two disks hit each other, in the region of disk 0
    (
        TWO,
        0,
        Some((4, Kind::Cross, 1, 0)),
        Some((21, Kind::Cross, 1, 0)),
    ),
    (
        TWO,
        1,
        Some((2, Kind::Pair, 0, 1)),
        Some((20, Kind::Cross, 0, 0)),
    ),
];

// What a queue finds at the start, what it finds once it has taken in the first event, and what a queue opened again
// finds then.
type Found = (Event, Event, Event);

#[test]
fn queues_find_what_was_worked_out_by_hand(rt: HostRuntime) {
    for (row, &(text, region, before, after)) in ROWS.iter().enumerate() {
        let found = found_of(rt.alloc(), text, region);
        expect(&rt, row, found, Some((before, after, after)));
    }
}

// None if the scene is refused, or the grid has no such region.
fn found_of(alloc: Global, text: &str, region: u32) -> Option<Found> {
    let mut state = opened(alloc, text, REGIONS)?;
    found_in(alloc, &mut state, region)
}

fn found_in(alloc: Global, state: &mut CellState, region: u32) -> Option<Found> {
    if region >= state.grid().regions() {
        return None;
    }
    let before = least_anew(alloc, state, region).ok()?;
    let kept = least_kept(alloc, state, region).ok()?;
    let anew = least_anew(alloc, state, region).ok()?;
    Some((before, kept, anew))
}

// What a queue finds after it has taken in the next event of the run.
fn least_kept(alloc: Global, state: &mut CellState, region: u32) -> Result<Event, AllocError>
    requires { IsRegion state.old.grid region }
    ensures { state.new.grid ≡ state.old.grid }
{
    let mut queue = queue_of(alloc, state, region)?;
    let took_in = take_in_next(alloc, state, &mut queue, region);
    let found = event_of(queue.least());
    drop(queue);
    took_in?;
    Ok(found)
}

// What a queue finds that is opened again.
fn least_anew(alloc: Global, state: &CellState, region: u32) -> Result<Event, AllocError>
    requires { IsRegion state.now.grid region }
{
    let queue = queue_of(alloc, state, region)?;
    let found = event_of(queue.least());
    drop(queue);
    Ok(found)
}

fn event_of(found: Option<Stamp>) -> Event {
    let stamp = found?;
    Some((stamp.tick, stamp.kind, stamp.first, stamp.second))
}

// The queue of a region in what it sees of a state.
fn queue_of(alloc: Global, state: &CellState, region: u32) -> Result<Queue, AllocError>
    requires { IsRegion state.now.grid region }
    ensures { IfOk result (λ queue. IsOf queue state.now.rules state.now.grid region) }
{
    let view = view_of(alloc, state, region)?;
    Queue::open(alloc, &view, state.grid(), state.rules(), region)
}

// Runs the next event, and has the queue take in what it changed, by the call for its kind. False if there was none.
fn take_in_next(
    alloc: Global,
    state: &mut CellState,
    queue: &mut Queue,
    region: u32,
) -> Result<bool, AllocError>
    requires region { IsRegion state.old.grid region }
    requires queue { IsOf queue.old state.old.rules state.old.grid region }
    ensures grid { state.new.grid ≡ state.old.grid }
    ensures queue { IsOf queue.new state.new.rules state.new.grid region }
{
    let Some((_, _, kind, first, second, _)) = run_next(state) else {
        return Ok(false);
    };
    let view = view_of(alloc, state, region)?;
    match kind {
        Kind::Pair => queue.struck(alloc, &view, first, second)?,
        Kind::Cross => queue.crossed(alloc, &view, first)?,
        // The number of a side may also be the number of a disk that didn't change: the queue looks at that disk in
        // vain.
        Kind::Wall => queue.touched(alloc, &view, &[first, second])?,
    }
    Ok(true)
}

// A box of 6 columns and 3 rows, and disks that are far apart and slow.
const CROWD: &str = "width = 124\n\
    height = 64\n\
    diameter = 4\n\
    speed_limit = 8\n\
    round_limit = 8\n\
    end = 300\n\
    disks = [\
    [12, 8, 2, 1], [12, 32, 2, -2], [32, 20, 1, -2], [32, 44, -2, -2], [52, 8, 2, 3], [52, 56, -1, 1], \
    [72, 20, 1, -2], [72, 44, -1, 1], [92, 8, -2, 2], [92, 32, -1, 2], [112, 20, -3, 2], [112, 44, 1, -2]]\n";

// The same 2^23 times as far apart, and 2^18 times as fast: in nearly the greatest box, with the greatest speed limit.
const VAST: &str = "width = 1040187392\n\
    height = 536870912\n\
    diameter = 33554432\n\
    speed_limit = 1048576\n\
    round_limit = 8\n\
    end = 9600\n\
    disks = [\
    [100663296, 67108864, 524288, 262144], [100663296, 268435456, 524288, -524288], [268435456, 167772160, 262144, -524288], \
    [268435456, 369098752, -524288, -524288], [436207616, 67108864, 524288, 786432], [436207616, 469762048, -262144, 262144], \
    [603979776, 167772160, 262144, -524288], [603979776, 369098752, -262144, 262144], [771751936, 67108864, -524288, 524288], \
    [771751936, 268435456, -262144, 524288], [939524096, 167772160, -786432, 524288], [939524096, 369098752, 262144, -524288]]\n";

// Disks in a line that touch but for one unit: a velocity goes from the first to the last within one tick, by rounds
// from 0 to 10.
const ROUNDS: &str = "width = 124\n\
    height = 20\n\
    diameter = 4\n\
    speed_limit = 8\n\
    round_limit = 64\n\
    end = 60\n\
    disks = [\
    [10, 10, 2, 0], [15, 10, 0, 0], [20, 10, 0, 0], [25, 10, 0, 0], [30, 10, 0, 0], [35, 10, 0, 0], \
    [40, 10, 0, 0], [45, 10, 0, 0], [50, 10, 0, 0], [55, 10, 0, 0], [60, 10, 0, 0], [65, 10, 0, 0]]\n";

// Disks so slow and so far apart that pairs of them meet a tick before 2^27, at it and a tick after it.
const TICKS: &str = "width = 536870912\n\
    height = 134217728\n\
    diameter = 16777216\n\
    speed_limit = 8\n\
    round_limit = 8\n\
    end = 268435456\n\
    disks = [\
    [16777216, 16777216, 1, 0], [167772159, 16777216, 0, 0], [16777216, 50331648, 1, 0], \
    [167772160, 50331648, 0, 0], [16777216, 83886080, 1, 0], [167772161, 83886080, 0, 0]]\n";

// A box of three columns and rows of cells, in all of which there are more disks than are gathered at once, a sixth of
// them of half the diameter.
const DENSE: &str = "width = 66\n\
    height = 66\n\
    diameter = 4\n\
    speed_limit = 8\n\
    round_limit = 8\n\
    end = 30\n\
    disks = [\
    [7, 8, 3, 3], [7, 17, 1, 3], [8, 26, -2, 3], [8, 37, 2, 1], [6, 46, 0, -1], [6, 56, 1, 3, 2], \
    [18, 8, -3, 1], [17, 17, 2, 2], [18, 28, -2, 1], [16, 38, -3, -3], [16, 46, -2, 1], [16, 57, -1, 0, 2], \
    [28, 6, 1, -2], [28, 17, 0, -3], [28, 26, 0, 2], [27, 37, 1, 3], [26, 48, -1, -1], [26, 58, -1, -3, 2], \
    [36, 8, 3, -3], [37, 16, 3, -1], [37, 26, -3, 3], [38, 36, -2, -2], [36, 47, 0, 2], [37, 57, -3, 1, 2], \
    [48, 6, 3, 2], [47, 17, -3, -1], [47, 26, 0, 3], [46, 36, -2, 2], [46, 46, -3, 0], [47, 56, 2, 1, 2], \
    [56, 7, 1, -2], [58, 16, 0, 2], [57, 26, 0, 0], [56, 36, -1, 3], [58, 47, -3, -2], [56, 57, 3, 1, 2]]\n";

// The smallest disks, so fast that they pass each other, and the sides, within a tick.
const PASSING: &str = "width = 1024\n\
    height = 64\n\
    diameter = 2\n\
    speed_limit = 1024\n\
    round_limit = 64\n\
    end = 60\n\
    disks = [\
    [10, 10, 700, 1], [1000, 10, -600, 0], [10, 30, 500, 0], [900, 31, -900, 1], [500, 50, 300, -1], [700, 50, -1000, 0]]\n";

// A lattice in which disks come to touch exactly, two and two, and then four and four.
const LATTICE: &str = "width = 124\n\
    height = 64\n\
    diameter = 4\n\
    speed_limit = 8\n\
    round_limit = 64\n\
    end = 200\n\
    disks = [\
    [20, 20, 1, 0], [28, 20, -1, 0], [20, 28, 1, 0], [28, 28, -1, 0], [60, 20, 1, 1], [68, 20, -1, 1], \
    [60, 28, 1, -1], [68, 28, -1, -1], [100, 20, 1, 0], [104, 20, -1, 0], [100, 24, 0, -1], [104, 24, 0, -1]]\n";

// One disk twenty times as wide as the others.
const GREAT: &str = "width = 300\n\
    height = 124\n\
    diameter = 40\n\
    speed_limit = 8\n\
    round_limit = 8\n\
    end = 200\n\
    disks = [\
    [60, 60, 1, 1], [20, 20, 2, 3, 2], [20, 100, 3, -2, 2], [100, 60, -2, 0, 2], [104, 64, -3, -1, 2], \
    [140, 20, -2, 2, 2], [143, 24, 1, 1, 2], [200, 100, -3, -3, 2], [240, 60, -4, 0, 2], [244, 60, -5, 0, 2]]\n";

// A row of the comparison is ten times the place of the scene, and the region.
const SCENES: &[&str] = &[CROWD, VAST, ROUNDS, TICKS, DENSE, PASSING, LATTICE, GREAT];

// More events than a run has.
const MOST_EVENTS: u32 = 10_000;

const LEAST_CALLS: u32 = 2_000;

// The number of changes that a queue took in, and the number of these after which it found an event, up to the change
// after which a queue opened again found another event; and what both found there.
type Course = (u32, u32, Option<(Event, Event)>);

#[test]
fn queues_that_are_kept_find_what_queues_opened_anew_find(rt: HostRuntime) -> Result<(), Fail> {
    let (mut calls, mut events): (u32, u32) = (0, 0);
    for (scene, text) in SCENES.iter().enumerate() {
        for region in 0..REGIONS {
            let (more, found, wrong) = course_of(rt.alloc(), text, region)?;
            let row = scene.wrapping_mul(10).wrapping_add(region as usize);
            // else the scene is refused
            let has_changes = more > 0 || region > 0;
            expect(&rt, row, (wrong, has_changes), (None, true));
            calls = calls.wrapping_add(more);
            events = events.wrapping_add(found);
        }
    }
    let is_enough = calls >= LEAST_CALLS && events >= 200;
    expect(&rt, calls as usize, is_enough, true);
    Ok(())
}

// No calls if the scene is refused, or the grid has no such region.
fn course_of(alloc: Global, text: &str, region: u32) -> Result<Course, AllocError> {
    match opened(alloc, text, REGIONS) {
        Some(mut state) if region < state.grid().regions() => follow(alloc, &mut state, region),
        _ => Ok((0, 0, None)),
    }
}

// Compares the queue of a region after each event of the run.
fn follow(alloc: Global, state: &mut CellState, region: u32) -> Result<Course, AllocError>
    requires { IsRegion state.old.grid region }
{
    let mut queue = queue_of(alloc, state, region)?;
    let course = follow_on(alloc, state, &mut queue, region);
    drop(queue);
    course
}

fn follow_on(
    alloc: Global,
    state: &mut CellState,
    queue: &mut Queue,
    region: u32,
) -> Result<Course, AllocError>
    requires region { IsRegion state.old.grid region }
    requires queue { IsOf queue.old state.old.rules state.old.grid region }
{
    let (mut calls, mut events): (u32, u32) = (0, 0);
    for _ in 0..MOST_EVENTS {
        if !take_in_next(alloc, state, queue, region)? {
            break;
        }
        let (kept, anew) = (event_of(queue.least()), least_anew(alloc, state, region)?);
        if kept != anew {
            return Ok((calls, events, Some((kept, anew))));
        }
        calls = calls.wrapping_add(1);
        events = events.wrapping_add(u32::from(kept.is_some()));
    }
    Ok((calls, events, None))
}
