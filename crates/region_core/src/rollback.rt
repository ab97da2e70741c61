//! Rollback: taking back what a region did too early.

ghost use Rattle.std.specs.Prelude.{◌≡◌, ◌-◌, length, take, OnOk};
ghost use Rattle.region_view.specs.Placing.{IsValidPlacing};
ghost use Rattle.region_view.specs.Views.{rows_in};
ghost use Rattle.region_queue.specs.Queue.{IsOf, StandsFor};
ghost use Rattle.local_run.specs.Entries.{entries_below};
ghost use Rattle.local_run.specs.LocalRun.{At, IsMove, after_entry};
ghost use Rattle.event_log.specs.Logged.{entries_in};
ghost use Rattle.region_core.specs.Live.{base_in, IsLive, IsAlong};

use crate::appending::touch;
use crate::live::Live;
use crate::{Entry, Home};
use event_stamps::Stamp;
use region_parts::{Place, cut_from};
use region_queue::Queue;
use region_view::View;
use std::alloc::{AllocError, Global};

impl Live {
    /// Takes away the entries from the stamp `at` on. The messages that they took in wait again, and those that they
    /// sent are gone.
    ///
    /// # Errors
    /// Out of memory: what is left is to be dropped.
    pub(crate) fn rewind(
        &mut self,
        alloc: Global,
        place: &Place,
        at: Stamp,
    ) -> Result<(), AllocError>
        requires { IsLive place.now self.old }
        ensures base { OnOk result (base_in self.new ≡ base_in self.old) }
        ensures heard { OnOk result (self.new.inbox.heard ≡ self.old.inbox.heard) }
        ensures log { OnOk result (entries_in self.new.log ≡ entries_below at (entries_in self.old.log)) }
        ensures live { OnOk result (IsLive place.now self.new) }
    {
        let kept = self.log.count_before(at);
        self.inbox.give_back(&self.log, kept);
        cut_from(&mut self.sent, at);
        self.drop_down_to(alloc, place, kept)?;
        Ok(())
    }

    // Takes entries back, the last one first, until no more than `kept` are left.
    fn drop_down_to(&mut self, alloc: Global, place: &Place, kept: usize) -> Result<(), AllocError>
        requires { IsAlong place.now self.old }
        ensures along { OnOk result (IsAlong place.now self.new) }
        ensures log { OnOk result (self.new.log ≡ take kept self.old.log) }
        ensures base { OnOk result (base_in self.new ≡ base_in self.old) }
        ensures inbox { self.new.inbox ≡ self.old.inbox }
        ensures sent { self.new.sent ≡ self.old.sent }
    {
        while self.log.len() > kept {
            self.drop_last(alloc, place)?;
        }
        Ok(())
    }

    // Takes the last entry back, if there is one.
    fn drop_last(&mut self, alloc: Global, place: &Place) -> Result<(), AllocError>
        requires { IsAlong place.now self.old }
        ensures along { OnOk result (IsAlong place.now self.new) }
        ensures log { OnOk result (self.new.log ≡ take (length self.old.log - 1) self.old.log) }
        ensures base { OnOk result (base_in self.new ≡ base_in self.old) }
        ensures inbox { self.new.inbox ≡ self.old.inbox }
        ensures sent { self.new.sent ≡ self.old.sent }
    {
        let Some(entry) = self.log.take_back(&mut self.view)? else {
            return Ok(());
        };
        take_back(alloc, &place.home, &mut self.queue, &self.view, &entry)
    }
}

// Tells the queue that an entry is taken back, given the view before it.
fn take_back(
    alloc: Global,
    home: &Home,
    queue: &mut Queue,
    view: &View,
    entry: &Entry,
) -> Result<(), AllocError>
    requires of { IsOf queue.old home.now.rules home.now.grid home.now.number }
    requires valid { IsValidPlacing home.now.rules home.now.grid (rows_in view.now) }
    requires moves { (before : At) × (before.view ≡ view.now) × IsMove home.now before entry.now }
    ensures queue { IsOf queue.new home.now.rules home.now.grid home.now.number }
    ensures stands { OnOk result ((before : At) → before.view ≡ view.now →
        StandsFor queue.old (after_entry before entry.now).view → StandsFor queue.new view.now) }
{
    match entry {
        Entry::Native(action) => queue.take_back(alloc, view, &action.stamp()),
        Entry::Heard { message, .. } => touch(alloc, queue, view, &message.rows),
    }
}
