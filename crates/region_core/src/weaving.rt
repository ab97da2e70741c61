//! Weaving: a message that comes late is taken in at its place, and what was done since stays.

ghost use Rattle.std.specs.Prelude.{◌≡◌, ◌↔◌, ◌<◌, ◌≤◌, ◌∷◌, [], length, take, drop, None, IfSome, IfOk, OnOk, IsTrue, All, option_copied};
ghost use Rattle.event_stamps.specs.Order.{Before};
ghost use Rattle.cell_grid.specs.Grid.{IsRegion};
ghost use Rattle.region_messages.specs.Trails.{IsAmong};
ghost use Rattle.region_view.specs.Placing.{IsValidPlacing};
ghost use Rattle.region_view.specs.Naming.{IsMoved};
ghost use Rattle.region_view.specs.Setting.{set_rows, rows_at, AreValidRows};
ghost use Rattle.region_view.specs.Views.{ViewData, rows_in};
ghost use Rattle.region_queue.specs.Queue.{IsOf, StandsFor};
ghost use Rattle.local_run.specs.Entries.{entries_below, entries_from};
ghost use Rattle.local_run.specs.LocalRun.{IsHearable};
ghost use Rattle.event_log.specs.Logged.{entries_in};
ghost use Rattle.region_core.specs.Live.{base_in, run_in, IsLive};
ghost use Rattle.region_parts.specs.Aside.{IsLateAside};
ghost use Rattle.region_core.specs.Weaving.{record_in, Weaves, IsSetLate, BeginsAfter, IsTried};

use crate::appending::touch;
use crate::live::Live;
use crate::{Entry, MAX_ENTRIES};
use event_log::EventLog;
use event_stamps::{Stamp, is_before};
use region_messages::{News, Trail};
use region_parts::{Place, first_in_way};
use region_queue::Queue;
use region_view::{Message, Placed, Rows, View};
use std::alloc::{AllocError, Global};

impl Live {
    /// Takes in what is new in what a region sends, message by message, each at its place, as long as that is possible.
    /// `first` is where that begins.
    /// What was done from the first hindrance on is taken back. The answer is the stamp from which on messages are
    /// still to be heard; none if nothing is new any more.
    ///
    /// # Errors
    /// Out of memory: what is left is to be dropped.
    pub(crate) fn weave_news(
        &mut self,
        alloc: Global,
        place: &Place,
        from: u32,
        sent: &Trail,
        clock: Option<Stamp>,
        first: News,
    ) -> Result<Option<Stamp>, AllocError>
        requires live { IsLive place.now self.old }
        requires region { IsRegion place.now.home.grid from }
        requires hearable { IsHearable place.now.home place.now.floor from sent.now }
        ensures live { OnOk result (IsLive place.now self.new) }
        ensures base { OnOk result (base_in self.new ≡ base_in self.old) }
    {
        let mut news = first;
        for _ in 0..MAX_ENTRIES {
            let Some(message) = told_at(sent, &news) else {
                return Ok(Some(news.at));
            };
            if !self.weave_or_rewind(alloc, place, from, message)? {
                return Ok(Some(news.at));
            }
            let Some(next) = self.inbox.first_news(from, sent, clock, news.known) else {
                return Ok(None);
            };
            news = next;
        }
        Ok(Some(news.at))
    }

    // Takes in a message at its place, or takes back what was done from the first hindrance on. False if it did
    // neither, since nothing is after the message, or the message itself is the hindrance.
    fn weave_or_rewind(
        &mut self,
        alloc: Global,
        place: &Place,
        from: u32,
        message: Message,
    ) -> Result<bool, AllocError>
        requires live { IsLive place.now self.old }
        requires region { IsRegion place.now.home.grid from }
        requires hearable { IsHearable place.now.home place.now.floor from (message ∷ []) }
        ensures live { OnOk result (IsLive place.now self.new) }
        ensures base { OnOk result (base_in self.new ≡ base_in self.old) }
    {
        let Some(at) = self.weave(alloc, place, from, message)? else {
            return Ok(true);
        };
        if !is_before(&message.stamp, &at) {
            return Ok(false);
        }
        self.rewind(alloc, place, at)?;
        Ok(true)
    }

    /// Takes in a message of a region that comes late at its place in the log, if what was done since has nothing to do
    /// with its disks. If not, all is as it was, and the answer is the stamp of the first hindrance. That is the
    /// message's own stamp if it isn't late, or can't be taken in at all.
    ///
    /// # Errors
    /// Out of memory: what is left is to be dropped.
    pub(crate) fn weave(
        &mut self,
        alloc: Global,
        place: &Place,
        from: u32,
        message: Message,
    ) -> Result<Option<Stamp>, AllocError>
        requires live { IsLive place.now self.old }
        requires region { IsRegion place.now.home.grid from }
        requires hearable { IsHearable place.now.home place.now.floor from (message ∷ []) }
        ensures live { OnOk result (IsLive place.now self.new) }
        ensures weaves { IfOk result (λ hindrance.
            Weaves from message (run_in place.now.floor self.old) hindrance (run_in place.now.floor self.new)) }
        ensures hindrance { IfOk result (λ hindrance. IfSome hindrance (λ at. ¬ Before at message.stamp)) }
    {
        let hindrance = self.weave_if_aside(alloc, place, from, message)?;
        Ok(not_before(hindrance, &message.stamp))
    }

    // The same, but the stamp may be that of a native candidate before the message.
    fn weave_if_aside(
        &mut self,
        alloc: Global,
        place: &Place,
        from: u32,
        message: Message,
    ) -> Result<Option<Stamp>, AllocError>
        requires live { IsLive place.now self.old }
        requires region { IsRegion place.now.home.grid from }
        requires hearable { IsHearable place.now.home place.now.floor from (message ∷ []) }
        ensures { IfOk result (λ hindrance. IsLive place.now self.new
            × Weaves from message (run_in place.now.floor self.old) hindrance (run_in place.now.floor self.new)) }
    {
        let kept = self.log.count_before(message.stamp);
        match self.hindrance(place, from, kept, &message) {
            Some(at) => Ok(Some(at)),
            None => self.weave_at(alloc, place, from, kept, message),
        }
    }

    // What keeps a message of a region from being put before the entries from a place on, as far as the log and the
    // messages heard tell.
    fn hindrance(&self, place: &Place, from: u32, kept: usize, message: &Message) -> Option<Stamp>
        requires live { IsLive place.now self.now }
        requires region { IsRegion place.now.home.grid from }
        requires rows { AreValidRows place.now.home.rules place.now.home.grid message.now.rows }
        ensures tried { result ≡ None → IsTried from kept message.now self.now }
        ensures aside { result ≡ None → All (IsLateAside place.now.home message.now.rows) (drop kept self.now.log) }
    {
        if !begins_after(&self.log, kept, &message.stamp) {
            return Some(message.stamp);
        }
        if !self.inbox.is_free(from, message.stamp) {
            return Some(message.stamp);
        }
        if self.log.len() >= MAX_ENTRIES {
            return Some(self.log.last_stamp().unwrap_or(message.stamp));
        }
        first_in_way(&self.log, kept, &message.rows, &place.home)
    }

    // Puts the message before the entries from a place on, if these are no hindrance.
    fn weave_at(
        &mut self,
        alloc: Global,
        place: &Place,
        from: u32,
        kept: usize,
        message: Message,
    ) -> Result<Option<Stamp>, AllocError>
        requires live { IsLive place.now self.old }
        requires region { IsRegion place.now.home.grid from }
        requires hearable { IsHearable place.now.home place.now.floor from (message ∷ []) }
        requires below { take kept (entries_in self.old.log) ≡ entries_below message.stamp (entries_in self.old.log) }
        requires rest { drop kept (entries_in self.old.log) ≡ entries_from message.stamp (entries_in self.old.log) }
        requires within { kept ≤ length self.old.log }
        requires tried { IsTried from kept message self.old }
        requires aside { All (IsLateAside place.now.home message.rows) (drop kept self.old.log) }
        ensures { IfOk result (λ hindrance. IsLive place.now self.new
            × Weaves from message (run_in place.now.floor self.old) hindrance (run_in place.now.floor self.new)) }
    {
        let Some(last) = self.log.last_stamp() else {
            return Ok(Some(message.stamp));
        };
        let rows = &message.rows;
        let mut back = *rows;
        if let Some(at) = set_late(alloc, &mut self.queue, &mut self.view, &mut back, &last)? {
            return Ok(Some(at));
        }
        let entry = Entry::Heard { from, message };
        self.log.insert(kept, &entry, &back)?;
        self.inbox.weave(from, message)?;
        Ok(None)
    }
}

// The message that is news; none if the news is that a message is gone.
#[inline(always)]
fn told_at(sent: &Trail, news: &News) -> Option<Message>
    ensures { IfSome result (λ message. IsAmong message sent.now) }
{
    let Some(message) = sent.get(news.known) else {
        return None;
    };
    if message.stamp == news.at {
        Some(*message)
    } else {
        None
    }
}

// A stamp, or `least` if the stamp is before that.
fn not_before(at: Option<Stamp>, least: &Stamp) -> Option<Stamp>
    ensures none { (result ≡ None) ↔ (at ≡ None) }
    ensures some { IfSome result (λ stamp. ¬ Before stamp least.now) }
{
    let stamp = at?;
    if is_before(&stamp, least) {
        Some(*least)
    } else {
        Some(stamp)
    }
}

// Whether there is an entry at a place of a log, and it comes after a stamp.
fn begins_after(log: &EventLog, kept: usize, at: &Stamp) -> bool
    ensures { IsTrue result → BeginsAfter at.now (drop kept (entries_in log.now)) }
{
    kept < log.len() && is_before(at, &log.stamp(kept))
}

// Sets rows in a view, and tells the queue of it. If the least native candidate isn't after a stamp then, it undoes
// that, and answers the candidate's stamp.
fn set_late(
    alloc: Global,
    queue: &mut Queue,
    view: &mut View,
    rows: &mut Rows,
    last: &Stamp,
) -> Result<Option<Stamp>, AllocError>
    requires valid { IsValidPlacing queue.old.rules queue.old.grid (rows_in view.old) }
    requires later { IsValidPlacing queue.old.rules queue.old.grid (rows_in (set_rows view.old rows.old)) }
    ensures queue { IsOf queue.new queue.old.rules queue.old.grid queue.old.region }
    ensures late { IfOk result (λ hindrance. StandsFor queue.old view.old →
        IsSetLate last.now view.old rows.old queue.new view.new rows.new hindrance) }
{
    let set = *rows;
    view.swap(rows)?;
    tell_of(alloc, queue, view, &set, rows)?;
    let Some(least) = not_after(queue.least(), last) else {
        return Ok(None);
    };
    view.swap(rows)?;
    touch(alloc, queue, view, &set)?;
    Ok(Some(least))
}

// Tells the queue of rows that were set in a view, given what stood there before. A disk that is only in another cell
// keeps its course.
#[inline(always)]
fn tell_of(
    alloc: Global,
    queue: &mut Queue,
    view: &View,
    rows: &Rows,
    before: &Rows,
) -> Result<(), AllocError>
    requires valid { IsValidPlacing queue.old.rules queue.old.grid (rows_in view.now) }
    ensures queue { IsOf queue.new queue.old.rules queue.old.grid queue.old.region }
    ensures stands { OnOk result ((was : ViewData) → StandsFor queue.old was →
        view.now ≡ set_rows was rows.now → before.now ≡ rows_at (rows_in was) rows.now →
        StandsFor queue.new view.now) }
{
    match moved_disk(rows, before) {
        Some(disk) => queue.crossed(alloc, view, disk),
        None => touch(alloc, queue, view, rows),
    }
}

// The disk of the rows, if there is one row alone and it differs from the row before only in the cell.
fn moved_disk(rows: &Rows, before: &Rows) -> Option<u32>
    ensures { IfSome result (λ disk. (was : ViewData) → before.now ≡ rows_at (rows_in was) rows.now →
        IsMoved disk was (set_rows was rows.now)) }
{
    let Some(row) = only_row(rows) else {
        return None;
    };
    let Some(old) = only_row(before) else {
        return None;
    };
    if is_same_disk(&row.1, &old.1) {
        Some(row.0)
    } else {
        None
    }
}

// The row, if there is exactly one.
fn only_row(rows: &Rows) -> Option<&(u32, Option<Placed>)>
    ensures { IfSome (option_copied result) (λ row. rows.now ≡ row ∷ []) }
{
    match rows.as_slice() {
        [row] => Some(row),
        _ => None,
    }
}

// Whether both rows have a disk, with the same record.
fn is_same_disk(row: &Option<Placed>, old: &Option<Placed>) -> bool
    ensures { IsTrue result → record_in row.now ≡ record_in old.now }
{
    match (row, old) {
        (Some(new), Some(was)) => new.disk == was.disk,
        _ => false,
    }
}

// A stamp, if there is one that isn't after another.
fn not_after(least: Option<Stamp>, last: &Stamp) -> Option<Stamp>
    ensures { result ≡ None → IfSome least (Before last.now) }
{
    let stamp = least?;
    if is_before(last, &stamp) {
        None
    } else {
        Some(stamp)
    }
}
