//! Grids, lists of the disks in cells, and when disks leave their cells: tables worked out by hand, and a body that
//! tries each tick.

use super::rows::expect;
use cell_grid::{Departure, Grid};
use cell_lists::{Gathered, Lists, block_around};
use event_stamps::Stamp;
use fixed_motion::{Disk, Rules};
use std::alloc::{AllocError, Global};
use test_scenes::DrawnNumbers;

// A box of 20 columns of 20 units, and of one row.
const LONG: Rules = Rules {
    width: 400,
    height: 20,
    diameter: 4,
    speed_limit: 8,
    round_limit: 8,
    end: 20,
};

// A box of 3 columns of 21 units and 2 rows of 22, with 2 and 1 units left over.
const BLOCK: Rules = Rules {
    width: 65,
    height: 45,
    diameter: 4,
    speed_limit: 8,
    round_limit: 8,
    end: 40,
};

// A place, a velocity, a base tick and a mark.
type Record = (i64, i64, i64, i64, u64, u32);

fn disk_of((x, y, vx, vy, base, mark): Record) -> Disk {
    Disk {
        x,
        y,
        vx,
        vy,
        size: 4,
        base,
        mark,
    }
}

// A tick and a round, if there is an event.
type Event = Option<(u64, u32)>;

// When disk 7 leaves a cell, and the answer of `leaving` about that, if it isn't `Unknown`; none if the rules, the disk
// or the cell aren't valid.
fn crossing_of(rules: &Rules, a: &Disk, cell: u32) -> Option<(Event, Option<Event>)> {
    match rules.check() {
        Ok(()) => {
            let grid = Grid::new(rules, 4);
            if !a.is_valid(rules) || cell >= grid.rows() * grid.columns() {
                return None;
            }
            let event = event_of(grid.crossing(rules, 7, a, cell));
            Some((event, event_told(grid.leaving(rules, a, cell))))
        }
        Err(_) => None,
    }
}

fn event_told(found: Departure) -> Option<Event> {
    match found {
        Departure::At(tick) => Some(Some((tick, 0))),
        Departure::Never => Some(None),
        Departure::Unknown => None,
    }
}

// A box of 511 columns and rows of 2,101,256 units, with 8 left over, of the greatest speed and the latest end.
const GREAT: Rules = Rules {
    width: 1_073_741_824,
    height: 1_073_741_824,
    diameter: 4,
    speed_limit: 1_048_576,
    round_limit: 8,
    end: 1_099_511_627_776,
};

// Rules, a record, a cell, the tick and round of the crossing, and whether they are told at once.
type CrossingRow = (Rules, Record, u32, Event, bool);

const CROSSINGS: &[CrossingRow] = &[
    // x = 100 is in the next column, and the disk is there at tick 4
    (LONG, (96, 10, 1, 0, 0, 0), 4, Some((4, 0)), true),
    (LONG, (100, 10, 1, 0, 4, 0), 5, None, true),
    // the same backwards: 99 is in column 4
    (LONG, (104, 10, -1, 0, 0, 0), 5, Some((5, 0)), true),
    // up and down in one row
    (LONG, (190, 10, 0, 8, 0, 0), 9, None, true),
    // due at the end, and one tick before it
    (
        Rules { end: 4, ..LONG },
        (96, 10, 1, 0, 0, 0),
        4,
        None,
        true,
    ),
    (
        Rules { end: 5, ..LONG },
        (96, 10, 1, 0, 0, 0),
        4,
        Some((4, 0)),
        true,
    ),
    // at rest: in the recorded cell, and in another one, so that it has left the recorded cell at once
    (LONG, (100, 10, 0, 0, 3, 2), 5, None, false),
    (LONG, (100, 10, 0, 0, 3, 2), 4, Some((3, 2)), false),
    // into the recorded cell at tick 4, and out of it at tick 24
    (
        Rules { end: 40, ..LONG },
        (96, 10, 1, 0, 0, 0),
        5,
        Some((24, 0)),
        true,
    ),
    // away from the recorded cell, and past it
    (LONG, (96, 10, -1, 0, 2, 1), 5, Some((2, 1)), false),
    // through the recorded cell, and out of it when it is out of the box too
    (BLOCK, (18, 14, 1, 8, 1, 1), 4, None, true),
    // past the row of the recorded cell before it comes to its column
    (BLOCK, (12, 14, 1, 8, 1, 1), 4, Some((1, 1)), false),
    // column and row at one tick
    (BLOCK, (18, 18, 2, 2, 0, 0), 0, Some((2, 0)), true),
    // the last column has what is left over, and ends at the wall: no crossing
    (BLOCK, (41, 10, 1, 0, 0, 0), 2, None, true),
    (BLOCK, (59, 10, -1, 0, 0, 0), 2, Some((18, 0)), true),
    // the top row likewise
    (BLOCK, (10, 21, 0, 1, 0, 0), 3, None, true),
    // as fast as may be, and as late; to the last tick before the end, and to the end
    (GREAT, (2, 2, 1_048_576, 0, 0, 0), 0, Some((3, 0)), true),
    (
        GREAT,
        (2, 2, 1, 0, 1_099_508_627_776, 1),
        0,
        Some((1_099_510_729_030, 0)),
        true,
    ),
    (
        GREAT,
        (2, 2, 0, 1, 1_099_509_526_521, 1),
        0,
        Some((1_099_511_627_775, 0)),
        true,
    ),
    (GREAT, (2, 2, 0, 1, 1_099_509_526_522, 1), 0, None, true),
    // into the recorded cell at tick 3, and out of it two ticks later
    (GREAT, (2, 2, 1_048_576, 0, 0, 0), 1, Some((5, 0)), true),
];

#[test]
fn disks_leave_their_cells(rt: HostRuntime) {
    for (row, &(rules, record, cell, want, is_told)) in CROSSINGS.iter().enumerate() {
        let found = crossing_of(&rules, &disk_of(record), cell);
        let told = if is_told { Some(want) } else { None };
        expect(&rt, row, found, Some((want, told)));
    }
}

fn event_of(found: Option<Stamp>) -> Event {
    let stamp = found?;
    Some((stamp.tick, stamp.round))
}

// The number of generated disks, the least number of these that cross, and a number of ticks within which each leaves
// its box, and so its cell, unless it stands still.
const DISKS: u32 = 2_000;

const LEAST_CROSSINGS: u32 = 1_000;

const TICKS: u64 = 80;

#[test]
fn finds_what_trying_each_tick_finds(rt: HostRuntime) {
    let mut numbers = DrawnNumbers { state: 1 };
    let mut crossings: u32 = 0;
    for number in 0..DISKS {
        let (rules, disk) = generated(&mut numbers);
        let cell = number % 6;
        if let Some((found, told)) = crossing_of(&rules, &disk, cell) {
            let want = crossing_by_trying(&rules, &disk, cell);
            expect(&rt, number as usize, found, want);
            expect(&rt, number as usize, told.unwrap_or(want), want);
            crossings = crossings.wrapping_add(u32::from(found.is_some()));
        }
    }
    expect(&rt, DISKS as usize, crossings >= LEAST_CROSSINGS, true);
}

// Rules with some end of the run, and a disk of mark 0.
fn generated(numbers: &mut DrawnNumbers) -> (Rules, Disk) {
    let rules = Rules {
        end: numbers.next(0, 60).unsigned_abs(),
        ..BLOCK
    };
    let (x, y) = (numbers.next(2, 62), numbers.next(2, 42));
    let (vx, vy) = (numbers.next(-8, 17), numbers.next(-8, 17));
    let base = numbers.next(0, 5).unsigned_abs();
    (rules, disk_of((x, y, vx, vy, base, 0)))
}

// The tick at which a disk leaves a cell, found by trying each one. The numbers are small, so nothing wraps, and
// nothing has to be proved about that.
fn crossing_by_trying(rules: &Rules, disk: &Disk, cell: u32) -> Event {
    let mut left = 0;
    for ticks in 0..TICKS {
        if cell_after(disk, ticks) == Some(cell) {
            left = ticks.wrapping_add(1);
        }
    }
    let tick = disk.base.wrapping_add(left);
    if tick < rules.end && cell_after(disk, left).is_some() && left < TICKS {
        Some((tick, 0))
    } else {
        None
    }
}

// The cell of the disk; none outside the box. Here the bounds of the cells are written out, and `crossing` divides.
fn cell_after(disk: &Disk, ticks: u64) -> Option<u32> {
    let ticks = ticks.cast_signed();
    let x = disk.x.wrapping_add(disk.vx.wrapping_mul(ticks));
    let y = disk.y.wrapping_add(disk.vy.wrapping_mul(ticks));
    match (x, y) {
        (2..=20, 2..=21) => Some(0),
        (21..=41, 2..=21) => Some(1),
        (42..=63, 2..=21) => Some(2),
        (2..=20, 22..=43) => Some(3),
        (21..=41, 22..=43) => Some(4),
        (42..=63, 22..=43) => Some(5),
        _ => None,
    }
}

// A cell of a row of 20 columns, a region of 4, the region that owns the cell, and whether the first one reaches it.
type StripRow = (u32, u32, u32, bool);

const STRIPS: &[StripRow] = &[
    (0, 0, 0, true),
    (0, 1, 0, false),
    (3, 0, 0, true),
    (3, 1, 0, false),
    (4, 0, 0, true),
    (4, 1, 0, true),
    (4, 2, 0, false),
    (5, 0, 1, true),
    (5, 1, 1, true),
    (5, 2, 1, false),
    (6, 0, 1, false),
    (6, 1, 1, true),
    (9, 1, 1, true),
    (9, 2, 1, true),
    (10, 1, 2, true),
    (10, 2, 2, true),
    (14, 1, 2, false),
    (14, 2, 2, true),
    (14, 3, 2, true),
    (15, 2, 3, true),
    (15, 3, 3, true),
    (19, 2, 3, false),
    (19, 3, 3, true),
];

// Regions by 4, 20 and 64 that are asked for, two of them, and whether these are linked.
type LinkRow = (u32, u32, u32, bool);

const LINKS: &[LinkRow] = &[
    (4, 0, 1, true),
    (4, 1, 0, true),
    (4, 2, 3, true),
    (4, 0, 2, false),
    (4, 3, 1, false),
    (4, 1, 1, false),
    // of one column each: 0 reaches the columns 0 and 1, and 2 the columns 1 to 3
    (20, 0, 2, true),
    (20, 0, 3, false),
    (64, 19, 17, true),
    (64, 19, 16, false),
];

#[test]
fn strips_own_and_reach_cells(rt: HostRuntime) {
    for (row, &(cell, region, owner, reached)) in STRIPS.iter().enumerate() {
        let found = strip_of(cell, region);
        expect(&rt, row, found, Some((owner, reached)));
    }
}

// The owner of a cell, and whether the region reaches it; none if the grid has no such cell or region.
fn strip_of(cell: u32, region: u32) -> Option<(u32, bool)> {
    let grid = Grid::new(&LONG, 4);
    if cell < grid.columns() * grid.rows() && region < grid.regions() {
        Some((grid.owner(cell), grid.in_reach(region, cell)))
    } else {
        None
    }
}

#[test]
fn links_regions_that_reach_a_cell_in_common(rt: HostRuntime) {
    for (row, &(asked, a, b, want)) in LINKS.iter().enumerate() {
        expect(&rt, row, link_of(asked, a, b), Some(want));
    }
}

// Whether two regions are linked; none if the grid can't have that many regions, or doesn't have these.
fn link_of(asked: u32, a: u32, b: u32) -> Option<bool> {
    if asked < 1 || asked > 64 {
        return None;
    }
    let grid = Grid::new(&LONG, asked);
    if a < grid.regions() && b < grid.regions() {
        Some(grid.linked(a, b))
    } else {
        None
    }
}

// What is found for a disk that is listed: the first in its cell; how many are gathered around its cell and the first
// of them, and whether the gathering came to its end; and the first in its cell once the disk is taken off.
type Listed = (Option<u32>, usize, Option<u32>, bool, Option<u32>);

// No clause says that anything is ever gathered.
#[test]
fn a_disk_is_listed_and_gathered_and_taken_off(rt: HostRuntime) {
    let want = (Some(ONE), 1, Some(ONE), true, None);
    expect(&rt, 0, found_of_one(rt.alloc()).ok(), Some(want));
    expect(&rt, 1, near_one(rt.alloc()).ok(), Some((1, Some(ONE))));
}

const ONE: u32 = 7;

fn found_of_one(alloc: Global) -> Result<Listed, AllocError> {
    let grid = Grid::new(&BLOCK, 1);
    let cell = grid.cell_of(30, 30);
    let mut lists = Lists::new(alloc, &grid)?;
    lists.put(alloc, ONE, cell)?;
    let first = lists.first_in(cell);
    let mut around = Gathered::new();
    let done = lists.gather(block_around(&grid, cell), &mut around);
    let disks = around.as_slice();
    lists.take(ONE, cell);
    Ok((
        first,
        disks.len(),
        disks.first().copied(),
        done,
        lists.first_in(cell),
    ))
}

// How many disks there are near the cell of the only one, and the first of them.
fn near_one(alloc: Global) -> Result<(usize, Option<u32>), AllocError> {
    let grid = Grid::new(&BLOCK, 1);
    let cell = grid.cell_of(30, 30);
    let mut lists = Lists::new(alloc, &grid)?;
    lists.put(alloc, ONE, cell)?;
    let near = lists.near(alloc, cell)?;
    Ok((near.len(), near.first().copied()))
}
