//! What regions see of a scene of two disks, and what they are told of some actions.

ghost use Rattle.std.specs.Prelude.{IsTrue};
ghost use Rattle.cell_grid.specs.Grid.{IsRegion};
ghost use Rattle.region_view.specs.Setting.{IsInOrder};
ghost use Rattle.region_view.specs.Messages.{RecordsCell};

use super::helpers::{opened, view_of};
use super::rows::expect;
use cell_grid::Grid;
use cell_sequence::CellState;
use event_rules::Change;
use event_stamps::{Kind, Stamp};
use fixed_motion::Disk;
use region_view::{Action, Message, Placed, View, message_for};
use std::alloc::Global;
use test_scenes::SLOW_CROSSING;

const REGIONS: u32 = 4;

// The cells in which the disks 0 and 1 are seen.
type Seen = (Option<u32>, Option<u32>);

// What the regions see at the start, by number.
const AT_THE_START: &[Seen] = &[
    (Some(4), None),
    (Some(4), Some(9)),
    (None, Some(9)),
    (None, None),
];

const CROSSING: Stamp = Stamp {
    tick: 4,
    round: 0,
    kind: Kind::Cross,
    first: 0,
    second: 0,
};

const HIT: Stamp = Stamp {
    tick: 1,
    round: 0,
    kind: Kind::Wall,
    first: 1,
    second: 3,
};

// Disk 0 goes to the right, as it does in the scene, or to the left, out of what region 1 sees.
const RIGHT: Action = Action::Cross {
    stamp: CROSSING,
    cell: 5,
};

const LEFT: Action = Action::Cross {
    stamp: CROSSING,
    cell: 3,
};

// Disk 1 hits the wall above.
const UP: Action = Action::Hit(Change {
    stamp: HIT,
    first: Disk {
        x: 190,
        y: 18,
        vx: 0,
        vy: -8,
        size: 4,
        base: 1,
        mark: 1,
    },
    second: None,
});

// The stamp of a message, how many rows it tells, and the number and cell of the disk in its first row; no cell if the
// row says that nothing stands there.
type Told = Option<(Stamp, usize, u32, Option<u32>)>;

// An action, its home, another region, what that region is told, and what it then sees.
type ActionRow = (Action, u32, u32, Told, Seen);

const ACTIONS: &[ActionRow] = &[
    (
        RIGHT,
        0,
        1,
        Some((CROSSING, 1, 0, Some(5))),
        (Some(5), Some(9)),
    ),
    (RIGHT, 0, 2, None, (None, Some(9))),
    (RIGHT, 0, 3, None, (None, None)),
    (LEFT, 0, 1, Some((CROSSING, 1, 0, None)), (None, Some(9))),
    (LEFT, 0, 2, None, (None, Some(9))),
    (UP, 1, 0, None, (Some(4), None)),
    (UP, 1, 2, Some((HIT, 1, 1, Some(9))), (None, Some(9))),
    (UP, 1, 3, None, (None, None)),
];

#[test]
fn regions_see_what_is_in_their_reach(rt: HostRuntime) {
    for (region, &want) in AT_THE_START.iter().enumerate() {
        let found = seen_at_the_start(rt.alloc(), region as u32);
        expect(&rt, region, found, Some(want));
    }
}

// None if the scene is refused, or the grid has no such region.
fn seen_at_the_start(alloc: Global, region: u32) -> Option<Seen> {
    let state = opened(alloc, SLOW_CROSSING, REGIONS)?;
    seen_after(alloc, &state, region, None)
}

#[test]
fn regions_are_told_what_they_see(rt: HostRuntime) {
    for (row, (action, home, region, told, seen)) in ACTIONS.iter().enumerate() {
        let found = heard(rt.alloc(), action, *home, *region);
        expect(&rt, row, found, Some((*told, *seen)));
    }
}

// What a region is told of an action, and what it sees then; none if the scene is refused, or the grid doesn't have
// such a region or the new cell.
fn heard(alloc: Global, action: &Action, home: u32, region: u32) -> Option<(Told, Seen)> {
    let state = opened(alloc, SLOW_CROSSING, REGIONS)?;
    let message = sent(alloc, &state, action, home, region)?;
    let seen = seen_after(alloc, &state, region, message.as_ref())?;
    Some((told_by(message.as_ref()), seen))
}

fn sent(
    alloc: Global,
    state: &CellState,
    action: &Action,
    home: u32,
    region: u32,
) -> Option<Option<Message>> {
    let grid = state.grid();
    if home >= grid.regions() || region >= grid.regions() || !is_fit(action, grid) {
        return None;
    }
    let before = view_of(alloc, state, home).ok()?;
    Some(message_for(&before, action, grid, region))
}

// What a region sees once it has taken in what it is told.
fn seen_after(
    alloc: Global,
    state: &CellState,
    region: u32,
    message: Option<&Message>,
) -> Option<Seen> {
    if region >= state.grid().regions() {
        return None;
    }
    let mut view = view_of(alloc, state, region).ok()?;
    let seen = taken_in(&mut view, message);
    drop(view);
    seen
}

fn taken_in(view: &mut View, message: Option<&Message>) -> Option<Seen> {
    if let Some(rows) = message {
        view.take_in(rows).ok()?;
    }
    Some((cell_of(view.get(0)), cell_of(view.get(1))))
}

fn cell_of(row: Option<Placed>) -> Option<u32> {
    let placed = row?;
    Some(placed.cell)
}

// Whether the new cell of a crossing is one of the grid, and two disks that collide are in order.
fn is_fit(action: &Action, grid: &Grid) -> bool
    ensures { IsTrue result → IsInOrder action.now × RecordsCell grid.now action.now }
{
    match action {
        Action::Cross { cell, .. } => *cell < grid.columns() * grid.rows(),
        Action::Hit(change) => change.second.is_none(),
    }
}

fn told_by(message: Option<&Message>) -> Told {
    let told = message?;
    let rows = told.rows.as_slice();
    let (disk, row) = rows.first()?;
    Some((told.stamp, rows.len(), *disk, cell_of(*row)))
}
