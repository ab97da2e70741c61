//! How a rollback and a hearing change the input queue.

ghost use Rattle.std.specs.Prelude.{◌≡◌, ◌↔◌, ℕ, ◌+◌, ◌<◌, ◌≤◌, length, get_or, slice_set, take, drop, map, MatchOption, OnOk, IsTrue};
ghost use Rattle.region_messages.specs.Trails.{AgreesUpTo, IsFree, with_message, from};
ghost use Rattle.local_run.specs.LocalRun.{trail_of};
ghost use Rattle.region_parts.specs.Inbox.{taken_from, mixed};
ghost use Rattle.local_run.specs.Taken.{taken_of};
ghost use Rattle.event_log.specs.Logged.{entries_in};

use crate::inbox::{Inbox, least_head};
use crate::trails::drop_before;
use event_log::EventLog;
use event_stamps::Stamp;
use local_run::MAX_ENTRIES;
use region_messages::{News, Trail, first_disagreement, first_news};
use region_view::Message;
use std::alloc::{AllocError, Global};

impl Inbox {
    /// Takes back the messages that the entries of a log from a place on took in: they wait again.
    pub fn give_back(&mut self, log: &EventLog, kept: usize)
        requires kept { kept ≤ length log.now }
        requires taken { (q : ℕ) → taken_of q (drop kept (entries_in log.now)) ≤ taken_from self.old q }
        ensures heard { self.new.heard ≡ self.old.heard }
        ensures counts { length self.new.taken ≡ length self.old.taken }
        ensures taken { (q : ℕ) → taken_from self.new q + taken_of q (drop kept (entries_in log.now))
            ≡ taken_from self.old q }
    {
        count_down(&mut self.taken, log, kept, log.len());
        self.head = least_head(self.regions, &self.heard, &self.taken);
    }

    /// Takes away the messages before a stamp, which the first `gone` entries of a log took in.
    pub fn drop_before(&mut self, to: Stamp, log: &EventLog, gone: usize)
        requires gone { gone ≤ length log.now }
        requires taken { (q : ℕ) → taken_from self.old q ≡ taken_of q (entries_in log.now) }
        ensures heard { self.new.heard ≡ map (from to) self.old.heard }
        ensures counts { length self.new.taken ≡ length self.old.taken }
        ensures taken { (q : ℕ) → taken_from self.new q + taken_of q (take gone (entries_in log.now))
            ≡ taken_from self.old q }
    {
        drop_before(&mut self.heard, to);
        recount(&mut self.taken, log, gone);
        self.head = least_head(self.regions, &self.heard, &self.taken);
    }

    /// The stamp from which on the messages that a region sends differ from those heard from it; none if they are the
    /// same.
    pub fn first_new(&self, from: u32, sent: &Trail) -> Option<Stamp>
        requires { from < length self.now.heard }
        ensures { MatchOption result (trail_of self.now.heard from ≡ sent.now)
            (λ at. AgreesUpTo (trail_of self.now.heard from) sent.now at) }
    {
        first_disagreement(&self.heard[from as usize], sent)
    }

    /// The same, but messages that haven't changed since `sent` was last marked are taken to be heard, and a message
    /// that is missing counts only once the other's `clock` is past it. None if nothing is new.
    pub fn first_news(
        &self,
        from: u32,
        sent: &Trail,
        clock: Option<Stamp>,
        known: usize,
    ) -> Option<News>
        requires { from < length self.now.heard }
    {
        first_news(&self.heard[from as usize], sent, clock, known)
    }

    /// Whether no message that was heard from a region has this stamp.
    pub fn is_free(&self, from: u32, at: Stamp) -> bool
        requires { from < length self.now.heard }
        ensures { IsTrue result ↔ IsFree at (trail_of self.now.heard from) }
    {
        self.heard[from as usize].is_free(at)
    }

    /// Hears a message of a region at its place, and takes it in.
    ///
    /// # Errors
    /// Out of memory.
    pub fn weave(&mut self, from: u32, message: Message) -> Result<(), AllocError>
        requires heard { from < length self.old.heard }
        requires taken { from < length self.old.taken }
        requires room { taken_from self.old from < MAX_ENTRIES }
        requires free { IsFree message.stamp (trail_of self.old.heard from) }
        ensures heard { OnOk result (self.new.heard
            ≡ slice_set self.old.heard from (with_message message (trail_of self.old.heard from))) }
        ensures taken { OnOk result (self.new.taken
            ≡ slice_set self.old.taken from (taken_from self.old from + 1)) }
    {
        self.heard[from as usize].insert(message)?;
        self.taken[from as usize] += 1;
        self.head = least_head(self.regions, &self.heard, &self.taken);
        Ok(())
    }

    /// Hears from a region what it sends from a stamp on; what was heard from it from there on goes.
    ///
    /// # Errors
    /// Out of memory: what is heard of that region is only a part of it.
    pub fn replace(&mut self, from: u32, at: Stamp, sent: &Trail) -> Result<(), AllocError>
        requires { from < length self.old.heard }
        ensures heard { OnOk result (self.new.heard
            ≡ slice_set self.old.heard from (mixed at (trail_of self.old.heard from) sent.now)) }
        ensures taken { OnOk result (self.new.taken ≡ self.old.taken) }
    {
        let replaced = self.heard[from as usize].replace_from(at, sent);
        self.head = least_head(self.regions, &self.heard, &self.taken);
        replaced
    }
}

// Counts one less for each message that the entries of a log took in, those from the place `from` on and before `end`,
// by the number of the region.
fn count_down(counts: &mut [usize], log: &EventLog, from: usize, end: usize)
    requires order { from ≤ end }
    requires within { end ≤ length log.now }
    requires taken { (q : ℕ) → taken_of q (take end (entries_in log.now))
        ≤ get_or counts.old q 0 + taken_of q (take from (entries_in log.now)) }
    ensures { (q : ℕ) → get_or counts.new q 0 + taken_of q (take end (entries_in log.now))
        ≡ get_or counts.old q 0 + taken_of q (take from (entries_in log.now)) }
{
    for i in from..end {
        if let Some(sender) = log.sender(i) {
            counts[sender as usize] -= 1;
        }
    }
}

// Counts the messages that the entries of a log from a place on took in, by the number of the region. They are mostly
// few, where those before the place are thousands.
fn recount(counts: &mut [usize], log: &EventLog, from: usize)
    requires within { from ≤ length log.now }
    requires numbers { (q : ℕ) → length counts.old ≤ q → taken_of q (entries_in log.now) ≡ 0 }
    ensures { (q : ℕ) → get_or counts.new q 0 ≡ taken_of q (drop from (entries_in log.now)) }
{
    counts.fill(0);
    for i in from..log.len() {
        if let Some(sender) = log.sender(i) {
            counts[sender as usize] += 1;
        }
    }
}
