//! An entry where it is kept: all that is read of one goes through here.

ghost use Rattle.std.specs.Prelude.{◌≡◌, option_map};
ghost use Rattle.region_view.specs.Acting.{stamp_of};
ghost use Rattle.local_run.specs.Entries.{native_of};
ghost use Rattle.event_log.specs.Logged.{sets, sender_of};
ghost use Rattle.event_log.specs.Collisions.{change_in};
ghost use Rattle.event_log.specs.Heads.{disk_or};
ghost use Rattle.event_log.specs.Laid.{logged_by, HasRows, HasWhole, HasOrder};

use crate::heads::{Form, Head};
use event_rules::Change;
use event_stamps::Stamp;
use fixed_motion::Disk;
use local_run::Entry;
use region_view::{Action, Compact, Rows};

/// The head of an entry, and the lists in which the rest of it is kept.
#[derive(Drop)]
pub struct Laid<'l> {
    /// Its head.
    pub head: &'l Head,
    /// The narrow rows of all entries.
    pub rows: &'l [Compact],
    /// All entries that are kept whole.
    pub wholes: &'l [(Entry, Rows)],
}

impl<'l> Laid<'l> {
    /// The entry.
    #[inline(always)]
    pub fn entry(&self) -> Entry
        requires rows { HasRows self.now }
        requires whole { HasWhole self.now }
        ensures { result ≡ (logged_by self.now).0 }
    {
        let row = self.head.row as usize;
        match self.head.form {
            Form::Crossing => Entry::Native(Action::Cross {
                stamp: self.head.stamp,
                cell: self.head.cell,
            }),
            Form::Single => Entry::Native(Action::Hit(Change {
                stamp: self.head.stamp,
                first: disk_in(&self.rows[row + 1]),
                second: None,
            })),
            Form::Double => Entry::Native(Action::Hit(Change {
                stamp: self.head.stamp,
                first: disk_in(&self.rows[row + 2]),
                second: Some(disk_in(&self.rows[row + 3])),
            })),
            Form::Whole => self.wholes[self.head.whole as usize].0,
        }
    }

    /// The rows that lead back over it.
    #[inline(always)]
    pub fn back(&self) -> Rows
        requires rows { HasRows self.now }
        requires whole { HasWhole self.now }
        requires order { HasOrder self.now }
        ensures { result ≡ (logged_by self.now).1 }
    {
        let row = self.head.row as usize;
        let stamp = &self.head.stamp;
        match self.head.form {
            Form::Crossing | Form::Single => Rows::one((stamp.first, self.rows[row].get())),
            Form::Double => Rows::two(
                (stamp.first, self.rows[row].get()),
                (stamp.second, self.rows[row + 1].get()),
            ),
            Form::Whole => self.wholes[self.head.whole as usize].1,
        }
    }

    /// The collision; none if it is a crossing or a message.
    #[inline(always)]
    pub fn change(&self) -> Option<Change>
        requires rows { HasRows self.now }
        requires whole { HasWhole self.now }
        ensures { result ≡ change_in (native_of (logged_by self.now).0) }
    {
        let row = self.head.row as usize;
        match self.head.form {
            Form::Crossing => None,
            Form::Single => Some(Change {
                stamp: self.head.stamp,
                first: disk_in(&self.rows[row + 1]),
                second: None,
            }),
            Form::Double => Some(Change {
                stamp: self.head.stamp,
                first: disk_in(&self.rows[row + 2]),
                second: Some(disk_in(&self.rows[row + 3])),
            }),
            Form::Whole => change_of(&self.wholes[self.head.whole as usize].0),
        }
    }

    /// The stamp of the action; none if it is a message.
    #[inline(always)]
    pub fn native_stamp(&self) -> Option<Stamp>
        requires { HasWhole self.now }
        ensures { result ≡ option_map stamp_of (native_of (logged_by self.now).0) }
    {
        match self.head.form {
            Form::Crossing | Form::Single | Form::Double => Some(self.head.stamp),
            Form::Whole => match &self.wholes[self.head.whole as usize].0 {
                Entry::Native(action) => Some(action.stamp()),
                Entry::Heard { .. } => None,
            },
        }
    }

    /// The region that sent the message; none if it is an action.
    #[inline(always)]
    pub fn sender(&self) -> Option<u32>
        requires { HasWhole self.now }
        ensures { result ≡ sender_of (logged_by self.now).0 }
    {
        match self.head.form {
            Form::Crossing | Form::Single | Form::Double => None,
            Form::Whole => match &self.wholes[self.head.whole as usize].0 {
                Entry::Native(_) => None,
                Entry::Heard { from, .. } => Some(*from),
            },
        }
    }

    /// Whether it sets the row of a disk. No row is read but those of an entry kept whole.
    #[inline(always)]
    pub fn sets(&self, disk: u32) -> bool
        requires { HasWhole self.now }
        ensures { result ≡ sets disk (logged_by self.now).1 }
    {
        let stamp = &self.head.stamp;
        match self.head.form {
            Form::Crossing | Form::Single => stamp.first == disk,
            Form::Double => stamp.first == disk || stamp.second == disk,
            Form::Whole => has_row(&self.wholes[self.head.whole as usize].1, disk),
        }
    }
}

// The disk that is read if there is no row, which never happens.
const NO_DISK: Disk = Disk {
    x: 0,
    y: 0,
    vx: 0,
    vy: 0,
    size: 0,
    base: 0,
    mark: 0,
};

// The record in a row.
#[inline(always)]
fn disk_in(row: &Compact) -> Disk
    ensures { result ≡ disk_or row.now }
{
    match row.get() {
        Some(placed) => placed.disk,
        None => NO_DISK,
    }
}

// The collision of an entry; none if it is a crossing or a message.
#[inline(always)]
fn change_of(entry: &Entry) -> Option<Change>
    ensures { result ≡ change_in (native_of entry.now) }
{
    match entry {
        Entry::Native(Action::Hit(change)) => Some(*change),
        Entry::Native(Action::Cross { .. }) | Entry::Heard { .. } => None,
    }
}

// Whether one of some rows is that of a disk.
fn has_row(rows: &Rows, disk: u32) -> bool
    ensures { result ≡ sets disk rows.now }
{
    match rows.as_slice() {
        [] => false,
        [row] => row.0 == disk,
        [first, second, ..] => first.0 == disk || second.0 == disk,
    }
}
