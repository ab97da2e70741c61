//! What keeps a message from being put before some entries of a log: one of them has a disk of the message, or changes
//! a disk that would touch one of these.

ghost use Rattle.std.specs.Prelude.{◌≡◌, ◌<◌, ℕ, length, drop, slice_get, All, Option, None, Some, IfSome, false};
ghost use Rattle.std.specs.List.{Contains};
ghost use Rattle.event_stamps.specs.declared.Stamp.{Stamp};
ghost use Rattle.event_stamps.specs.Order.{Before};
ghost use Rattle.region_view.specs.declared.action.Placed.{Placed};
ghost use Rattle.region_view.specs.Setting.{IsValidPlaced, numbers_of};
ghost use Rattle.region_messages.specs.Trails.{IsAmong};
ghost use Rattle.region_view.specs.Naming.{Names};
ghost use Rattle.local_run.specs.LocalRun.{IsInPlace};
ghost use Rattle.local_run.specs.Weaving.{IsApart, AreOthers};
ghost use Rattle.event_log.specs.Logged.{entries_in};
ghost use Rattle.region_parts.specs.Aside.{IsOwnTouch, TouchAfter, AllTouchAfter, IsStepAside, IsLateAside, IsOutOfWay, IsValidBack, MayStand};

use event_log::EventLog;
use event_stamps::{Kind, Stamp, is_before};
use local_run::{Entry, Home};
use region_view::{Placed, Rows, near_event};

/// The stamp of the first entry of a log, from a place on, that is in the way of some rows: it has one of their disks,
/// or a row that leads back over it would touch them.
pub fn first_in_way(log: &EventLog, kept: usize, rows: &Rows, home: &Home) -> Option<Stamp>
    requires valid { All (λ l. IsValidBack home.now l.1) log.now }
    requires rows { MayStand home.now rows.now }
    ensures apart { result ≡ None → All (IsApart rows.now) (drop kept (entries_in log.now)) }
    ensures aside { result ≡ None → All (IsLateAside home.now rows.now) (drop kept log.now) }
{
    let mut next = kept;
    while let Some(i) = log.next_near(next, rows, &home.grid) {
        if is_hindrance(log, i, rows, home) {
            return Some(log.stamp(i));
        }
        next = i + 1;
    }
    None
}

// Whether an entry of a log, by its place, is in the way of some rows: it has one of their disks, or a row that leads
// back over it would touch them.
fn is_hindrance(log: &EventLog, i: usize, rows: &Rows, home: &Home) -> bool
    requires valid { All (λ l. IsValidBack home.now l.1) log.now }
    requires rows { MayStand home.now rows.now }
    requires within { i < length log.now }
    ensures { result ≡ false → IfSome (slice_get log.now i) (IsOutOfWay home.now rows.now) }
{
    has_disk(log, i, rows) || is_in_way(&log.stamp(i), &log.back(i), rows, home)
}

// Whether one of the disks of some rows is that of an entry of a log, by its place.
fn has_disk(log: &EventLog, i: usize, rows: &Rows) -> bool
    requires within { i < length log.now }
    ensures { result ≡ false → IfSome (slice_get (entries_in log.now) i) (IsApart rows.now) }
{
    match log.native_stamp(i) {
        Some(stamp) => names_any(&stamp, rows),
        None => is_named(&log.entry(i), rows),
    }
}

// Whether one of the disks of some rows is the entry's.
fn is_named(entry: &Entry, rows: &Rows) -> bool
    ensures { result ≡ false → IsApart rows.now entry.now }
{
    match entry {
        Entry::Native(action) => names_any(&action.stamp(), rows),
        Entry::Heard { message, .. } => have_common(&message.rows, rows),
    }
}

// Whether an event has one of the disks of some rows.
fn names_any(stamp: &Stamp, rows: &Rows) -> bool
    ensures { result ≡ false → (i : ℕ) → Names stamp.now i → ¬ Contains (numbers_of rows.now) i }
{
    has_row(rows, stamp.first) || (stamp.kind == Kind::Pair && has_row(rows, stamp.second))
}

// Whether some rows have a disk in common with others.
fn have_common(a: &Rows, b: &Rows) -> bool
    ensures { result ≡ false → AreOthers a.now b.now }
{
    match a.as_slice() {
        [] => false,
        [row] => has_row(b, row.0),
        [first, second, ..] => has_row(b, first.0) || has_row(b, second.0),
    }
}

// Whether there is a row of a disk.
fn has_row(rows: &Rows, disk: u32) -> bool
    ensures { result ≡ false → ¬ Contains (numbers_of rows.now) disk }
{
    match rows.as_slice() {
        [] => false,
        [row] => row.0 == disk,
        [first, second, ..] => first.0 == disk || second.0 == disk,
    }
}

// Whether rows that lead back have a disk of some rows, or would touch these up to a stamp.
fn is_in_way(at: &Stamp, back: &Rows, rows: &Rows, home: &Home) -> bool
    requires back { IsValidBack home.now back.now }
    requires rows { MayStand home.now rows.now }
    ensures { result ≡ false → IsStepAside home.now rows.now at.now back.now }
{
    have_common(rows, back) || is_one_touched(at, back, rows, home)
}

// Whether one of the rows that lead back would touch some others up to a stamp.
fn is_one_touched(at: &Stamp, back: &Rows, rows: &Rows, home: &Home) -> bool
    requires back { IsValidBack home.now back.now }
    requires rows { MayStand home.now rows.now }
    ensures { result ≡ false → AllTouchAfter home.now at.now back.now rows.now }
{
    match back.as_slice() {
        [] => false,
        [row] => is_touched(at, *row, rows, home),
        [first, second, ..] => {
            is_touched(at, *first, rows, home) || is_touched(at, *second, rows, home)
        }
    }
}

// Whether a row would touch one of some rows up to a stamp.
fn is_touched(at: &Stamp, row: (u32, Option<Placed>), rows: &Rows, home: &Home) -> bool
    requires row { IsValidPlaced home.now.rules home.now.grid row.1 }
    requires rows { MayStand home.now rows.now }
    ensures { result ≡ false → (other : ℕ × Option Placed) → IsAmong other rows.now →
        TouchAfter home.now at.now row other }
{
    match rows.as_slice() {
        [] => false,
        [other] => do_touch(at, row, *other, home),
        [first, second, ..] => {
            do_touch(at, row, *first, home) || do_touch(at, row, *second, home)
        }
    }
}

// Whether two rows would touch up to a stamp.
fn do_touch(
    at: &Stamp,
    row: (u32, Option<Placed>),
    other: (u32, Option<Placed>),
    home: &Home,
) -> bool
    requires place { IsInPlace home.now }
    requires row { IsValidPlaced home.now.rules home.now.grid row.1 }
    requires other { IsValidPlaced home.now.rules home.now.grid other.1 }
    ensures { result ≡ false → TouchAfter home.now at.now row other }
{
    let Some(p) = row.1 else {
        return false;
    };
    let Some(q) = other.1 else {
        return false;
    };
    touches_by(at, row.0, &p, other.0, &q, home) || touches_by(at, other.0, &q, row.0, &p, home)
}

// Whether the region runs an event of two disks, the first of the lesser number, up to a stamp.
fn touches_by(at: &Stamp, i: u32, first: &Placed, j: u32, second: &Placed, home: &Home) -> bool
    requires place { IsInPlace home.now }
    requires first { IsValidPlaced home.now.rules home.now.grid (Some first.now) }
    requires second { IsValidPlaced home.now.rules home.now.grid (Some second.now) }
    ensures { result ≡ false → (s : Stamp) → IsOwnTouch home.now i first.now j second.now s →
        Before at.now s }
{
    if i >= j {
        return false;
    }
    match near_event(&home.rules, &home.grid, i, first, j, second) {
        Some(event) => !is_before(at, &event) && home.grid.owner(first.cell) == home.number,
        None => false,
    }
}
