//! A log together with the view after it.

ghost use Rattle.std.specs.Prelude.{◌≡◌, ℕ, ◌-◌, ◌<◌, ◌≤◌, [], ◌∷◌, ◌++◌, length, take, slice_get, None, IsTrue, false, IfOk, OnOk, OnErr};
ghost use Rattle.std.specs.FinMap as map;
ghost use Rattle.region_view.specs.Views.{rows_in};
ghost use Rattle.region_view.specs.Setting.{set_rows, rows_at, get_over};
ghost use Rattle.event_log.specs.Logged.{entries_in, backs_in, sets};
ghost use Rattle.event_log.specs.Undoing.{undone, last_back};

use crate::EventLog;
use local_run::{Entry, MAX_ENTRIES};
use region_view::{Placed, Rows, View};
use std::alloc::AllocError;

impl EventLog {
    /// Sets the rows of an entry in the view after the whole log, and appends the entry with the rows that stood there
    /// before.
    ///
    /// # Errors
    /// Out of memory: nothing changes.
    pub fn append(&mut self, view: &mut View, entry: &Entry, rows: &Rows) -> Result<(), AllocError>
        requires room { length self.old < MAX_ENTRIES }
        ensures log { OnOk result
            (self.new ≡ self.old ++ (entry.now, rows_at (rows_in view.old) rows.now) ∷ []) }
        ensures view { OnOk result (view.new ≡ set_rows view.old rows.now) }
        ensures log_unchanged { OnErr result (self.new ≡ self.old) }
        ensures view_unchanged { OnErr result (view.new ≡ view.old) }
    {
        let count = self.len();
        self.push(entry, &rows_before(view, rows))?;
        let mut changed = *rows;
        match view.swap(&mut changed) {
            Ok(()) => Ok(()),
            Err(error) => {
                self.truncate(count);
                Err(error)
            }
        }
    }

    /// Takes the last entry back, also in the view after the whole log, and answers it; none if there is no entry.
    ///
    /// # Errors
    /// Out of memory: nothing changes.
    pub fn take_back(&mut self, view: &mut View) -> Result<Option<Entry>, AllocError>
        ensures log { OnOk result (self.new ≡ take (length self.old - 1) self.old) }
        ensures view { OnOk result (view.new ≡ set_rows view.old (last_back self.old)) }
        ensures entry { IfOk result (λ e. e ≡ slice_get (entries_in self.old) (length self.old - 1)) }
        ensures log_unchanged { OnErr result (self.new ≡ self.old) }
        ensures view_unchanged { OnErr result (view.new ≡ view.old) }
    {
        let count = self.len();
        if count == 0 {
            return Ok(None);
        }
        let last = count - 1;
        let entry = self.entry(last);
        let mut back = self.back(last);
        view.swap(&mut back)?;
        self.truncate(last);
        Ok(Some(entry))
    }

    /// The row of a disk in the view before the log, given the view after it: the row that the first entry setting that
    /// disk found there.
    pub fn first_row(&self, newest: &View, disk: u32) -> Option<Placed>
        ensures { result ≡ map.get (undone newest.now (backs_in self.now)) disk }
    {
        for i in 0..self.len() {
            if self.sets(i, disk) {
                return row_of(&self.back(i), disk);
            }
        }
        newest.get(disk)
    }

    /// How many numbers, from 0 on, may have rows in the view before the log, given the view after it: no disk from
    /// this number on has one there.
    pub fn first_room(&self, newest: &View) -> usize
        ensures { (disk : ℕ) → result ≤ disk → map.get (undone newest.now (backs_in self.now)) disk ≡ None }
    {
        let mut room = newest.room();
        for i in 0..self.len() {
            room = room.max(room_set(&self.back(i)));
        }
        room
    }
}

// What stands at the numbers of some rows.
#[inline(always)]
fn rows_before(view: &View, rows: &Rows) -> Rows
    ensures { result ≡ rows_at (rows_in view.now) rows.now }
{
    match rows.as_slice() {
        [] => Rows::none(),
        [row] => Rows::one((row.0, view.get(row.0))),
        [first, second, ..] => {
            Rows::two((first.0, view.get(first.0)), (second.0, view.get(second.0)))
        }
    }
}

// The least number from which on rows set nothing.
fn room_set(rows: &Rows) -> usize
    ensures { (disk : ℕ) → result ≤ disk → sets disk rows.now ≡ false }
{
    match rows.as_slice() {
        [] => 0,
        [row] => row.0 as usize + 1,
        [first, second, ..] => (first.0 as usize).max(second.0 as usize) + 1,
    }
}

// What some rows say of a disk.
fn row_of(rows: &Rows, disk: u32) -> Option<Placed>
    requires { IsTrue (sets disk rows.now) }
    ensures { result ≡ get_over rows.now disk None }
{
    match rows.as_slice() {
        [] => None,
        [row] => row.1,
        [first, second, ..] => { if second.0 == disk { second.1 } else { first.1 } }
    }
}
