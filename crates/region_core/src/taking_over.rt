//! Hearing: taking over what another region sends, instead of what was heard from it before.

ghost use Rattle.std.specs.Prelude.{◌≡◌, ◌⊎◌, ◌↔◌, ◌<◌, List, length, IfOk, OnOk, IsTrue};
ghost use Rattle.event_stamps.specs.declared.Stamp.{Stamp};
ghost use Rattle.cell_grid.specs.Grid.{IsRegion};
ghost use Rattle.region_view.specs.declared.rows.Message.{Message};
ghost use Rattle.region_messages.specs.Trails.{IsAmong, Rises};
ghost use Rattle.local_run.specs.declared.entry.Entry.{Entry};
ghost use Rattle.local_run.specs.Entries.{RiseFrom, entries_below, last_entry_stamp};
ghost use Rattle.local_run.specs.LocalRun.{IsHearable, trail_of};
ghost use Rattle.local_run.specs.Answers.{HearsFrom};
ghost use Rattle.region_core.specs.Live.{base_in, run_in, IsLive};
ghost use Rattle.region_parts.specs.Inbox.{mixed};
ghost use Rattle.region_core.specs.Replaced.{HearsOn, IsReplaced};

use crate::Hearing;
use crate::live::Live;
use event_stamps::{Stamp, is_before};
use region_messages::Trail;
use region_parts::Place;
use std::alloc::{AllocError, Global};

impl Live {
    /// Hears what a region sends, by its number. What was done from the first news on is taken back.
    ///
    /// # Errors
    /// Out of memory: what is left is to be dropped.
    pub(crate) fn hear(
        &mut self,
        alloc: Global,
        place: &Place,
        from: u32,
        sent: &Trail,
    ) -> Result<Hearing, AllocError>
        requires live { IsLive place.now self.old }
        requires region { IsRegion place.now.home.grid from }
        ensures hears { IfOk result (λ answer.
            HearsFrom from sent.now (run_in place.now.floor self.old) answer (run_in place.now.floor self.new)) }
        ensures live { OnOk result (IsHearable place.now.home place.now.floor from sent.now →
            IsLive place.now self.new) }
    {
        let Some(at) = self.inbox.first_new(from, sent) else {
            return Ok(Hearing::Same);
        };
        self.hear_from(alloc, place, from, at, sent)
    }

    /// Hears what is new since the other's last mark. All that was there then is taken to be heard, and a message that
    /// isn't sent any more counts only once the other's `clock` is past it. A message that comes late is taken in at
    /// its place if that is possible; else what was done since it is taken back. False if nothing is new.
    ///
    /// # Errors
    /// Out of memory: what is left is to be dropped.
    pub(crate) fn catch_up(
        &mut self,
        alloc: Global,
        place: &Place,
        from: u32,
        sent: &Trail,
        clock: Option<Stamp>,
    ) -> Result<bool, AllocError>
        requires live { IsLive place.now self.old }
        requires region { IsRegion place.now.home.grid from }
        requires hearable { IsHearable place.now.home place.now.floor from sent.now }
        ensures base { OnOk result (base_in self.new ≡ base_in self.old) }
        ensures live { OnOk result (IsLive place.now self.new) }
    {
        let Some(first) = self.inbox.first_news(from, sent, clock, 0) else {
            return Ok(false);
        };
        let Some(at) = self.weave_news(alloc, place, from, sent, clock, first)? else {
            return Ok(true);
        };
        self.hear_from(alloc, place, from, at, sent)?;
        Ok(true)
    }

    // Hears what a region sends from a stamp on; what was heard from it before the stamp stays.
    fn hear_from(
        &mut self,
        alloc: Global,
        place: &Place,
        from: u32,
        at: Stamp,
        sent: &Trail,
    ) -> Result<Hearing, AllocError>
        requires live { IsLive place.now self.old }
        requires region { IsRegion place.now.home.grid from }
        ensures hears { IfOk result (λ answer. HearsOn at from (mixed at (trail_of self.old.inbox.heard from) sent.now)
            (run_in place.now.floor self.old) answer (run_in place.now.floor self.new)) }
        ensures base { OnOk result (base_in self.new ≡ base_in self.old) }
        ensures live { OnOk result (IsHearable place.now.home place.now.floor from sent.now →
            IsLive place.now self.new) }
    {
        if ends_before(self.log.last_stamp(), at) {
            self.replace(from, at, sent)?;
            Ok(Hearing::Later(at))
        } else {
            self.rewind(alloc, place, at)?;
            self.replace(from, at, sent)?;
            Ok(Hearing::Rewound(at))
        }
    }

    // Hears what a region sends from a stamp on, if all entries are before it.
    fn replace(&mut self, from: u32, at: Stamp, sent: &Trail) -> Result<(), AllocError>
        requires { from < length self.old.inbox.heard }
        ensures { OnOk result (IsReplaced from
            (mixed at (trail_of self.old.inbox.heard from) sent.now) self.old self.new) }
    {
        self.inbox.replace(from, at, sent)
    }

    /// Marks what goes to a region now. `heard` is how many of these messages that region has (see [`Trail::mark`]).
    pub(crate) fn mark_sent(&mut self, to: u32, heard: usize)
        ensures sent { self.new.sent.items ≡ self.old.sent.items }
        ensures rest { self.new ≡ record self.old { sent = self.new.sent } }
    {
        if let Some(trail) = self.sent.get_mut(to as usize) {
            trail.mark(heard);
        }
    }

    /// Brings a copy of what goes to a region up to date (see [`Trail::post_to`]).
    ///
    /// # Errors
    /// Out of memory: the copy lacks its last messages.
    pub(crate) fn post(&mut self, to: u32, copy: &mut Trail) -> Result<(), AllocError>
        ensures sent { self.new.sent.items ≡ self.old.sent.items }
        ensures rest { self.new ≡ record self.old { sent = self.new.sent } }
        ensures rises { Rises copy.old → Rises copy.new }
        ensures among { (m : Message) → IsAmong m copy.new →
            IsAmong m copy.old ⊎ IsAmong m (trail_of self.old.sent.items to) }
    {
        let Some(trail) = self.sent.get_mut(to as usize) else {
            return Ok(());
        };
        trail.post_to(copy)
    }

    /// Forgets the mark of what goes to a region (see [`Trail::forget`]).
    pub(crate) fn forget_sent(&mut self, to: u32)
        ensures sent { self.new.sent.items ≡ self.old.sent.items }
        ensures rest { self.new ≡ record self.old { sent = self.new.sent } }
    {
        if let Some(trail) = self.sent.get_mut(to as usize) {
            trail.forget();
        }
    }
}

impl Live {
    /// Whether a region that it sends to may find something new (see [`Trail::has_news`]).
    pub(crate) fn has_news(&self, to: u32) -> bool {
        match self.sent.get(to as usize) {
            Some(trail) => trail.has_news(),
            None => false,
        }
    }

    /// How many messages it has of a region, by number.
    pub(crate) fn count_heard(&self, from: u32) -> usize {
        match self.inbox.heard(from) {
            Some(trail) => trail.len(),
            None => 0,
        }
    }
}

// Whether all entries of a log are before a stamp, given the stamp of the last one. The stamps of the log rise.
fn ends_before(last: Option<Stamp>, at: Stamp) -> bool
    ensures { (floor : Stamp) (log : List Entry) → RiseFrom floor log → last ≡ last_entry_stamp log →
        IsTrue result ↔ (entries_below at log ≡ log) }
{
    match last {
        Some(stamp) => is_before(&stamp, &at),
        None => true,
    }
}
