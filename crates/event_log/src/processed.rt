//! The log itself.

use crate::heads::Head;
use local_run::Entry;
use region_view::{Compact, Rows};
use std::marker::Model;

/// What a region did, oldest first: entries, and the rows that lead back over each of them.
///
/// An action that was run takes 40 bytes, and besides these 32 (a crossing), 64 (a collision of one disk) or 128 (of
/// two), if its numbers are small, as those of valid disks are. An entry that is put in as it is, like a message, takes
/// 40 bytes and the size of an entry and its rows.
#[derive(Drop)]
pub struct EventLog {
    heads: Vec<Head>,
    // The rows of the crossings and collisions, in the order of the entries.
    rows: Vec<Compact>,
    // Entries that are kept as they are, in their order, with the rows that lead back.
    wholes: Vec<(Entry, Rows)>,
}

impl Model for EventLog {
    ghost use Rattle.std.specs.Prelude.{List};
    ghost use Rattle.std.specs.Coded.{coded_list, coded×, coded_ℕ, coded_option};
    ghost use Rattle.local_run.specs.contracts.entry.Entry as entry;
    ghost use Rattle.region_view.specs.contracts.action.Placed as placed;
    ghost use Rattle.event_log.specs.Logged.{Logged};

    ghost Value = { List Logged };

    ghost coded = { coded_list (coded× entry.the_row.coded
        (coded_list (coded× coded_ℕ (coded_option placed.the_row.coded)))) };

    ghost use Rattle.event_log.specs.Heads.{AreLaid, log_of};

    ghost view = { λ a. log_of a.rows.items a.wholes.items a.heads.items };

    ghost invariant = { λ a. AreLaid a.rows.items a.wholes.items a.heads.items };
}

ghost use Rattle.std.specs.Prelude.{◌≡◌, ◌+◌, ◌-◌, ◌<◌, ◌≤◌, [], ◌∷◌, ◌++◌, length, take, drop, slice_get, option_map, Some, None, IfSome, OnOk, OnErr, vec_len};
ghost use Rattle.std.specs.Vec.{vec_capacity};
ghost use Rattle.std.specs.List.{insert};
ghost use Rattle.event_stamps.specs.declared.Stamp.{Stamp};
ghost use Rattle.region_view.specs.Acting.{stamp_of};
ghost use Rattle.local_run.specs.Entries.{native_of, RiseFrom, entries_below, entries_from};
ghost use Rattle.event_log.specs.Logged.{entries_in, backs_in, stamps_in, senders_in, setters_in, native_at};
ghost use Rattle.event_log.specs.Collisions.{change_at};
ghost use Rattle.event_log.specs.Heads.{row_count, whole_count, logged, IsOrdered};
ghost use Rattle.event_log.specs.Laid.{logged_by, HasRows, HasWhole, HasOrder};
ghost use Rattle.event_log.specs.Nearness.{IsFar, AllUpTo};

use crate::heads::{Form, count_earlier, edge, lower, raise_from};
use crate::nearness::first_near;
use crate::reading::Laid;
use cell_grid::Grid;
use event_rules::Change;
use event_stamps::Stamp;
use local_run::MAX_ENTRIES;
use region_view::Action;
use std::alloc::{AllocError, Global};
use std::mem::swap;

impl EventLog {
    /// No entries.
    pub fn new(alloc: Global) -> EventLog
        ensures { result ≡ [] }
    {
        EventLog {
            heads: Vec::new(alloc),
            rows: Vec::new(alloc),
            wholes: Vec::new(alloc),
        }
    }

    /// The number of entries.
    #[inline(always)]
    pub fn len(&self) -> usize
        ensures { result ≡ length self.now }
    {
        self.heads.len()
    }

    /// The stamp of an entry, by its place.
    #[inline(always)]
    pub fn stamp(&self, i: usize) -> Stamp
        requires within { i < length self.now }
        ensures { slice_get (stamps_in self.now) i ≡ Some result }
    {
        self.heads[i].stamp
    }

    /// The stamp of the last entry; none if there is no entry.
    #[inline(always)]
    pub fn last_stamp(&self) -> Option<Stamp>
        ensures { result ≡ slice_get (stamps_in self.now) (length self.now - 1) }
    {
        match self.heads.last() {
            Some(head) => Some(head.stamp),
            None => None,
        }
    }

    /// How many entries of a log, whose stamps rise, are before a stamp.
    pub fn count_before(&self, at: Stamp) -> usize
        requires { (floor : Stamp) × RiseFrom floor (entries_in self.now) }
        ensures within { result ≤ length self.now }
        ensures before { take result (entries_in self.now) ≡ entries_below at (entries_in self.now) }
        ensures from { drop result (entries_in self.now) ≡ entries_from at (entries_in self.now) }
    {
        count_earlier(&self.heads, at)
    }

    // An entry where it is kept, by its place.
    #[inline(always)]
    fn laid(&self, i: usize) -> Laid<'_>
        requires { i < length self.now }
        ensures logged { slice_get self.now i ≡ Some (logged_by result) }
        ensures rows { HasRows result }
        ensures whole { HasWhole result }
        ensures order { HasOrder result }
    {
        Laid {
            head: &self.heads[i],
            rows: &self.rows,
            wholes: &self.wholes,
        }
    }

    /// An entry, by its place.
    #[inline(always)]
    pub fn entry(&self, i: usize) -> Entry
        requires within { i < length self.now }
        ensures { slice_get (entries_in self.now) i ≡ Some result }
    {
        self.laid(i).entry()
    }

    /// The rows that lead back over an entry, by its place.
    pub fn back(&self, i: usize) -> Rows
        requires within { i < length self.now }
        ensures { slice_get (backs_in self.now) i ≡ Some result }
    {
        self.laid(i).back()
    }

    /// The action of an entry, by its place; none if and only if there is no such entry, or it is a message.
    #[inline(always)]
    pub fn native(&self, i: usize) -> Option<Action>
        ensures { result ≡ native_at self.now i }
    {
        if i < self.len() {
            native_of(&self.entry(i))
        } else {
            None
        }
    }

    /// The collision of an entry, by its place; none if and only if there is no such entry, or it is a crossing or a
    /// message.
    #[inline(always)]
    pub fn change(&self, i: usize) -> Option<Change>
        ensures { result ≡ change_at self.now i }
    {
        if self.len() <= i {
            return None;
        }
        self.laid(i).change()
    }

    /// The stamp of the action of an entry, by its place; none if and only if [`native`](EventLog::native) is none.
    #[inline(always)]
    pub fn native_stamp(&self, i: usize) -> Option<Stamp>
        ensures { result ≡ option_map stamp_of (native_at self.now i) }
    {
        if self.len() <= i {
            return None;
        }
        self.laid(i).native_stamp()
    }

    /// The region that sent the message of an entry, by its place; none if the entry is an event of the region's own
    /// columns.
    #[inline(always)]
    pub fn sender(&self, i: usize) -> Option<u32>
        requires within { i < length self.now }
        ensures { slice_get (senders_in self.now) i ≡ Some result }
    {
        self.laid(i).sender()
    }

    /// Whether an entry, by its place, sets the row of a disk. It looks at the head alone, unless the entry is kept
    /// whole.
    #[inline(always)]
    pub fn sets(&self, i: usize, disk: u32) -> bool
        requires within { i < length self.now }
        ensures { slice_get (setters_in disk self.now) i ≡ Some result }
    {
        self.laid(i).sets(disk)
    }

    /// The first entry from a place on that may have to do with some rows: it has one of their disks, or a row that
    /// leads back over it is of one of them, or in a cell that is adjacent to one of theirs. None if there is no such
    /// entry. It may be one that has nothing to do with them, since the search looks at heads and cells alone.
    #[inline(always)]
    pub fn next_near(&self, from: usize, rows: &Rows, grid: &Grid) -> Option<usize>
        ensures place { IfSome result (λ i. (from ≤ i) × (i < length self.now)) }
        ensures far { AllUpTo (IsFar grid.now rows.now) self.now from result }
        ensures few { length self.now ≤ MAX_ENTRIES }
    {
        first_near(&self.heads, &self.rows, from, rows, grid)
    }

    /// Appends an entry as it is, with the rows that lead back over it.
    ///
    /// # Errors
    /// Out of memory: nothing changes.
    #[inline(always)]
    pub fn push(&mut self, entry: &Entry, back: &Rows) -> Result<(), AllocError>
        requires room { length self.old < MAX_ENTRIES }
        ensures pushed { OnOk result (self.new ≡ self.old ++ (entry.now, back.now) ∷ []) }
        ensures unchanged { OnErr result (self.new ≡ self.old) }
    {
        let end = self.len();
        self.insert(end, entry, back)
    }

    // Appends an entry that has narrow rows.
    #[inline(always)]
    pub(crate) fn keep(
        &mut self,
        stamp: Stamp,
        cell: u32,
        form: Form,
        rows: &[Compact],
    ) -> Result<(), AllocError>
        requires room { length self.old < MAX_ENTRIES }
        requires rows { length rows.now ≡ row_count form }
        requires narrow { whole_count form ≡ 0 }
        requires order { IsOrdered stamp form }
        ensures pushed { OnOk result (self.new ≡ self.old ++ logged rows.now [] (record {
          stamp = stamp;
          cell = cell;
          row = 0;
          whole = 0;
          form = form;
        }) ∷ []) }
        ensures unchanged { OnErr result (self.new ≡ self.old) }
    {
        let head = Head {
            stamp,
            cell,
            row: self.rows.len() as u32,
            whole: self.wholes.len() as u32,
            form,
        };
        // Room is made before anything changes.
        self.heads.reserve(1)?;
        self.rows.reserve(rows.len())?;
        push_rows(&mut self.rows, rows);
        self.heads.push_reserved(head);
        Ok(())
    }

    /// Puts an entry at a place, before those from there on, with the rows that lead back over it.
    ///
    /// # Errors
    /// Out of memory: nothing changes.
    pub fn insert(&mut self, at: usize, entry: &Entry, back: &Rows) -> Result<(), AllocError>
        requires place { at ≤ length self.old }
        requires room { length self.old < MAX_ENTRIES }
        ensures inserted { OnOk result (self.new ≡ insert self.old at (entry.now, back.now)) }
        ensures unchanged { OnErr result (self.new ≡ self.old) }
    {
        let (row, whole) = edge(&self.heads, at, self.rows.len(), self.wholes.len());
        let head = Head {
            stamp: entry.stamp(),
            cell: 0,
            row: row as u32,
            whole: whole as u32,
            form: Form::Whole,
        };
        // Room is made before anything changes.
        self.heads.reserve(1)?;
        self.wholes.insert(whole, (*entry, *back))?;
        raise_from(&mut self.heads, at);
        self.heads.insert(at, head).unwrap();
        Ok(())
    }

    /// Takes the last entry away, and answers it with the rows that lead back over it; none if there is no entry. Takes
    /// no memory.
    pub fn drop_last(&mut self) -> Option<(Entry, Rows)>
        ensures log { self.new ≡ take (length self.old - 1) self.old }
        ensures last { result ≡ slice_get self.old (length self.old - 1) }
    {
        if self.heads.is_empty() {
            return None;
        }
        let last = self.heads.len() - 1;
        let answer = (self.entry(last), self.back(last));
        self.truncate(last);
        Some(answer)
    }

    /// Takes all entries away but the first `kept`. Takes no memory.
    pub fn truncate(&mut self, kept: usize)
        requires place { kept ≤ length self.old }
        ensures { self.new ≡ take kept self.old }
    {
        let (row, whole) = edge(&self.heads, kept, self.rows.len(), self.wholes.len());
        self.heads.truncate(kept);
        self.rows.truncate(row);
        self.wholes.truncate(whole);
    }

    /// Takes the first `gone` entries away. Takes no memory.
    pub fn drop_first(&mut self, gone: usize)
        requires place { gone ≤ length self.old }
        ensures { self.new ≡ drop gone self.old }
    {
        let (row, whole) = edge(&self.heads, gone, self.rows.len(), self.wholes.len());
        drop_front(&mut self.heads, gone);
        drop_front(&mut self.rows, row);
        drop_front(&mut self.wholes, whole);
        lower(&mut self.heads, row as u32, whole as u32);
    }

    /// Moves the first `gone` entries into another log, whose own entries go, and keeps the others. The two logs
    /// exchange their memory, and only the entries that stay are copied: so if two logs are cut again and again,
    /// neither takes memory once both have room.
    ///
    /// # Errors
    /// Out of memory: nothing changes here, and what was in the other log may be gone.
    pub fn cut_first(&mut self, gone: usize, into: &mut EventLog) -> Result<(), AllocError>
        requires place { gone ≤ length self.old }
        ensures kept { OnOk result (self.new ≡ drop gone self.old) }
        ensures cut { OnOk result (into.new ≡ take gone self.old) }
        ensures unchanged { OnErr result (self.new ≡ self.old) }
    {
        self.copy_rest(gone, into)?;
        self.truncate(gone);
        swap(self, into);
        Ok(())
    }

    // Copies the entries from a place on into another log, whose own entries go.
    fn copy_rest(&self, from: usize, into: &mut EventLog) -> Result<(), AllocError>
        requires place { from ≤ length self.now }
        ensures { OnOk result (into.new ≡ drop from self.now) }
    {
        let (row, whole) = edge(&self.heads, from, self.rows.len(), self.wholes.len());
        let heads = rest_of(&self.heads, from);
        let rows = rest_of(&self.rows, row);
        let wholes = rest_of(&self.wholes, whole);
        into.truncate(0);
        // Room is made before anything is copied.
        into.heads.reserve(heads.len())?;
        into.rows.reserve(rows.len())?;
        into.wholes.extend_from_slice(wholes)?;
        into.rows.extend_from_slice(rows).unwrap();
        into.heads.extend_from_slice(heads).unwrap();
        lower(&mut into.heads, row as u32, whole as u32);
        Ok(())
    }
}

// Appends rows for which there is room: the number of rows is mostly known where this is called, so nothing is tested.
#[inline(always)]
fn push_rows(into: &mut Vec<Compact>, rows: &[Compact])
    requires { vec_len into.old + length rows.now ≤ vec_capacity into.old }
    ensures { into.new.items ≡ into.old.items ++ rows.now }
{
    for row in rows {
        into.push_reserved(*row);
    }
}

// The action of an entry; none if it is a message.
#[inline(always)]
fn native_of(entry: &Entry) -> Option<Action>
    ensures { result ≡ native_of entry.now }
{
    match entry {
        Entry::Native(action) => Some(*action),
        Entry::Heard { .. } => None,
    }
}

// The items from a place on.
#[inline(always)]
fn rest_of<T>(items: &[T], from: usize) -> &[T]
    requires { from ≤ length items.now }
    ensures { result.now ≡ drop from items.now }
{
    &items[from..]
}

// Takes the first `gone` items away. Only those that stay move.
fn drop_front<T: Copy>(items: &mut Vec<T>, gone: usize)
    requires { gone ≤ length items.old.items }
    ensures { items.new.items ≡ drop gone items.old.items }
{
    items.drain(..gone);
}
