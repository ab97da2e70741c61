//! A log together with a view, and a log by itself.

ghost use Rattle.std.specs.Prelude.{IsTrue};
ghost use Rattle.region_view.specs.Setting.{IsInOrder};

use super::cases::expect;
use cell_grid::Grid;
use event_log::EventLog;
use event_rules::Change;
use event_stamps::{Kind, Stamp};
use fixed_motion::{Disk, Rules};
use local_run::{Entry, MAX_ENTRIES};
use region_view::{Action, Message, Placed, Rows, View, opening};
use std::alloc::{AllocError, Global};
use std::test::Fail;

// A box of five columns of 20 units.
const RULES: Rules = Rules {
    width: 100,
    height: 20,
    diameter: 4,
    speed_limit: 8,
    round_limit: 8,
    end: 20,
};

const AT_REST: Disk = Disk {
    x: 30,
    y: 10,
    vx: 0,
    vy: 0,
    size: 4,
    base: 0,
    mark: 0,
};

const RISING: Disk = Disk {
    x: 30,
    y: 10,
    vx: 0,
    vy: 5,
    size: 4,
    base: 3,
    mark: 1,
};

// A disk so far away that its row has no narrow form.
const FAR: Disk = Disk {
    x: 1_000_000_000_000,
    y: 10,
    vx: 0,
    vy: 0,
    size: 4,
    base: 5,
    mark: 1,
};

// The stamp of a message about disks 0 and 1.
const TOLD: Stamp = Stamp {
    tick: 1,
    round: 0,
    kind: Kind::Cross,
    first: 0,
    second: 0,
};

const FIRST: Placed = Placed {
    disk: AT_REST,
    cell: 1,
};

const SECOND: Placed = Placed {
    disk: RISING,
    cell: 2,
};

const CROSSING: Action = Action::Cross {
    stamp: Stamp {
        tick: 2,
        round: 0,
        kind: Kind::Cross,
        first: 0,
        second: 0,
    },
    cell: 2,
};

const HIT: Action = Action::Hit(Change {
    stamp: Stamp {
        tick: 3,
        round: 0,
        kind: Kind::Wall,
        first: 1,
        second: 3,
    },
    first: AT_REST,
    second: None,
});

const BOTH_HIT: Action = Action::Hit(Change {
    stamp: Stamp {
        tick: 4,
        round: 0,
        kind: Kind::Pair,
        first: 0,
        second: 1,
    },
    first: RISING,
    second: Some(AT_REST),
});

// A hit of a disk that has no row.
const UNSEEN_HIT: Action = Action::Hit(Change {
    stamp: Stamp {
        tick: 5,
        round: 0,
        kind: Kind::Wall,
        first: 7,
        second: 3,
    },
    first: RISING,
    second: None,
});

const FAR_HIT: Action = Action::Hit(Change {
    stamp: Stamp {
        tick: 6,
        round: 0,
        kind: Kind::Wall,
        first: 0,
        second: 3,
    },
    first: FAR,
    second: None,
});

// One action of each form that entries are kept in.
const ACTIONS: &[Action] = &[CROSSING, HIT, BOTH_HIT, UNSEEN_HIT];

// The message of region 1 about both disks.
fn message() -> Entry {
    Entry::Heard {
        from: 1,
        message: Message {
            stamp: TOLD,
            rows: both_rows(),
        },
    }
}

fn both_rows() -> Rows {
    Rows::two((0, Some(FIRST)), (1, Some(SECOND)))
}

// A view of no disk; none if the rules are refused.
fn empty_view(alloc: Global) -> Result<Option<View>, AllocError> {
    match RULES.check() {
        Ok(()) => Ok(Some(opening(alloc, &[], &Grid::new(&RULES, 1), 0)?)),
        Err(_) => Ok(None),
    }
}

// Whether two disks that collide are in order.
fn is_in_order(action: &Action) -> bool
    ensures { IsTrue result → IsInOrder action.now }
{
    match action {
        Action::Cross { .. } => true,
        Action::Hit(change) => {
            change.second.is_none() || change.stamp.first < change.stamp.second
        }
    }
}

// Hears the message, and then runs the actions. False if there wasn't room for all.
fn run_all(log: &mut EventLog, view: &mut View) -> Result<bool, AllocError> {
    if log.len() >= MAX_ENTRIES {
        return Ok(false);
    }
    log.append(view, &message(), &both_rows())?;
    for action in ACTIONS.iter() {
        if log.len() >= MAX_ENTRIES || !is_in_order(action) {
            return Ok(false);
        }
        log.act(view, action)?;
    }
    Ok(true)
}

// The entry that is taken back last, if any, and what the view then says of disks 0 and 1, and of disk 0 before the
// log.
type Taken = (
    Option<Entry>,
    Option<Placed>,
    Option<Placed>,
    Option<Placed>,
);

// What there is after `times` entries are taken back; none if the rules are refused, or there is no room.
fn taken_back(alloc: Global, times: usize) -> Result<Option<Taken>, AllocError> {
    match empty_view(alloc)? {
        Some(mut view) => taken_from(alloc, &mut view, times),
        None => Ok(None),
    }
}

fn taken_from(alloc: Global, view: &mut View, times: usize) -> Result<Option<Taken>, AllocError> {
    let mut log = EventLog::new(alloc);
    if run_all(&mut log, view)? {
        Ok(Some(take_back(&mut log, view, times)?))
    } else {
        Ok(None)
    }
}

fn take_back(log: &mut EventLog, view: &mut View, times: usize) -> Result<Taken, AllocError> {
    let mut entry = None;
    for _ in 0..times {
        entry = log.take_back(view)?;
    }
    let before = log.first_row(view, 0);
    Ok((entry, view.get(0), view.get(1), before))
}

// What there has to be after no entry is taken back, after one, and so on.
fn all_taken() -> [Taken; 7] {
    let rising = Some(Placed {
        disk: RISING,
        cell: 2,
    });
    let at_rest = Some(Placed {
        disk: AT_REST,
        cell: 2,
    });
    [
        (None, rising, at_rest, None),
        (Some(Entry::Native(UNSEEN_HIT)), rising, at_rest, None),
        (Some(Entry::Native(BOTH_HIT)), at_rest, at_rest, None),
        (Some(Entry::Native(HIT)), at_rest, rising, None),
        (
            Some(Entry::Native(CROSSING)),
            Some(FIRST),
            Some(SECOND),
            None,
        ),
        (Some(message()), None, None, None),
        (None, None, None, None),
    ]
}

// The stamp of what was taken back last.
fn stamp_taken(found: Option<Taken>) -> Option<Stamp> {
    let (entry, _, _, _) = found?;
    Some(entry?.stamp())
}

#[test]
fn taking_back_leads_to_the_first_view(rt: HostRuntime) -> Result<(), Fail> {
    for (times, taken) in all_taken().iter().enumerate() {
        let found = taken_back(rt.alloc(), times)?;
        let case = (times, stamp_taken(found));
        expect(&rt, case, found == Some(*taken), true);
    }
    Ok(())
}

// Whether an action is refused, and the length of the log and the row of disk 0 after it.
type Refused = (bool, usize, Option<Placed>);

fn refused(log: &mut EventLog, view: &mut View, action: &Action) -> Option<Refused> {
    if log.len() >= MAX_ENTRIES || !is_in_order(action) {
        return None;
    }
    let is_refused = log.act(view, action).is_err();
    Some((is_refused, log.len(), view.get(0)))
}

// What comes of a hit by which a disk is far away, after the others; none if the rules are refused, or there is no room.
fn far_hit_refused(alloc: Global) -> Result<Option<Refused>, AllocError> {
    let Some(mut view) = empty_view(alloc)? else {
        return Ok(None);
    };
    let mut log = EventLog::new(alloc);
    if run_all(&mut log, &mut view)? {
        Ok(refused(&mut log, &mut view, &FAR_HIT))
    } else {
        Ok(None)
    }
}

#[test]
fn a_row_too_great_for_its_form_is_refused(rt: HostRuntime) -> Result<(), Fail> {
    let found = far_hit_refused(rt.alloc())?;
    let rising = Some(Placed {
        disk: RISING,
        cell: 2,
    });
    let length = ACTIONS.len() + 1;
    expect(&rt, length, found == Some((true, length, rising)), true);
    Ok(())
}

// Appends a crossing out of a cell, and puts the message before it. False if there wasn't room for both.
fn put_both(log: &mut EventLog) -> Result<bool, AllocError> {
    if log.len() >= MAX_ENTRIES {
        return Ok(false);
    }
    log.push(&Entry::Native(CROSSING), &Rows::one((0, Some(FIRST))))?;
    if log.len() >= MAX_ENTRIES {
        return Ok(false);
    }
    log.insert(0, &message(), &Rows::two((0, None), (1, None)))?;
    Ok(true)
}

// The last two entries, with the rows that lead back over them, and how many entries are left when they are taken off.
type Dropped = (Option<(Entry, Rows)>, Option<(Entry, Rows)>, usize);

fn dropped(log: &mut EventLog) -> Dropped {
    let last = log.drop_last();
    let first = log.drop_last();
    (last, first, log.len())
}

// The end of a log into which a message came late; none if there is no room.
fn put_late(alloc: Global) -> Result<Option<Dropped>, AllocError> {
    let mut log = EventLog::new(alloc);
    if put_both(&mut log)? {
        Ok(Some(dropped(&mut log)))
    } else {
        Ok(None)
    }
}

// The stamps of the last two entries, and how many are left.
fn stamps_dropped(found: Option<Dropped>) -> Option<(Stamp, Stamp, usize)> {
    let (last, first, left) = found?;
    Some((last?.0.stamp(), first?.0.stamp(), left))
}

#[test]
fn a_late_message_is_put_before_later_entries(rt: HostRuntime) -> Result<(), Fail> {
    let last = (Entry::Native(CROSSING), Rows::one((0, Some(FIRST))));
    let first = (message(), Rows::two((0, None), (1, None)));
    let found = put_late(rt.alloc())?;
    let want: Dropped = (Some(last), Some(first), 0);
    expect(&rt, stamps_dropped(found), found == Some(want), true);
    Ok(())
}
