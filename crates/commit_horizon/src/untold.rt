//! Actions that are final and weren't told yet.

ghost use Rattle.std.specs.Prelude.{◌≡◌, ◌+◌, ◌<◌, List, [], ◌∷◌, length, map, drop, false, true, None, Some, IfSome, IfOk, OnOk, OnErr};
ghost use Rattle.std.specs.Option.{IsSome};
ghost use Rattle.event_rules.specs.Told.{Told, AwaitsAll, CountsRefusal};
ghost use Rattle.region_view.specs.declared.action.Action.{Action};
ghost use Rattle.cell_sequence.specs.Run.{hits};
ghost use Rattle.event_log.specs.Logged.{entries_in, native_at};
ghost use Rattle.commit_horizon.specs.Merging.{head_in, heads_in};
ghost use Rattle.commit_horizon.specs.Telling.{MayBeTold, IsHitAwaited, HitRefused};
ghost use Rattle.commit_horizon.specs.Untold.{actions_in, BeginsInRange, AllBeginInRange, IsNextHead, IsNextHit, AreFirstHeads, AllCanBeTold, CanBeTellings, lefts, merged_of, AreUntold};
ghost use Rattle.commit_horizon.specs.TellingOn.{TellsFirst, TellsHits, TellsTorn};

use crate::leading::{Leader, PackedHead, find_leader, leader_after, no_head};
use event_log::EventLog;
use event_rules::{Deaf, Listener};
use event_tree::Packed;
use region_view::Action;
use std::alloc::{AllocError, Global};
use std::marker::Model;
use std::mem::replace;

/// Actions that are final and are to be told, in the order of their stamps. They are in the logs of the regions that
/// ran them, which are merged only when they are told.
#[derive(Drop)]
pub struct Untold {
    // A log of each region.
    logs: Vec<EventLog>,
    // The next action of each log that is untold.
    heads: Vec<PackedHead>,
    // The first of these.
    first: Leader,
}

impl Model for Untold {
    ghost Value = { List Action };

    ghost view = { λ s. merged_of (lefts (map entries_in s.logs.items) (heads_in s.heads.items)) };

    ghost invariant = { λ s. AreUntold (map entries_in s.logs.items) (heads_in s.heads.items) s.first };
}

impl Untold {
    /// Nothing.
    pub fn new(alloc: Global) -> Untold
        ensures { result ≡ [] }
    {
        Untold {
            logs: Vec::new(alloc),
            heads: Vec::new(alloc),
            first: find_leader(&[]),
        }
    }

    /// Takes the logs out, to be filled again. Nothing is untold then.
    pub(crate) fn take_logs(&mut self, alloc: Global) -> Vec<EventLog>
        ensures { self.new ≡ [] }
    {
        let Untold { logs, .. } = replace(self, Untold::new(alloc));
        logs
    }

    /// Takes logs in: their actions are untold, and nothing else is.
    ///
    /// # Errors
    /// Out of memory: nothing changes.
    pub(crate) fn begin(&mut self, alloc: Global, logs: Vec<EventLog>) -> Result<(), AllocError>
        requires { (xs : List Action) × CanBeTellings (map actions_in (map entries_in logs.items)) xs }
        ensures begun { OnOk result ((xs : List Action) →
            CanBeTellings (map actions_in (map entries_in logs.items)) xs → self.new ≡ xs) }
        ensures unchanged { OnErr result (self.new ≡ self.old) }
    {
        let heads = first_heads(alloc, &logs)?;
        let first = find_leader(&heads);
        drop(replace(self, Untold { logs, heads, first }));
        Ok(())
    }

    /// About how much is left to tell: the entries of the logs that aren't passed yet, those that are messages
    /// included. Nothing is claimed of it.
    pub fn left(&self) -> usize {
        let mut left: usize = 0;
        for (log, head) in self.logs.iter().zip(&self.heads) {
            left = left.saturating_add(left_in(log, head));
        }
        left
    }

    /// Takes the next action out, if any is left.
    pub(crate) fn take_next(&mut self) -> Option<Action>
        ensures next { IfSome result (λ action. self.old ≡ action ∷ self.new) }
        ensures none { result ≡ None → self.old ≡ [] }
    {
        let first = self.first;
        if first.is_none() {
            return None;
        }
        let log = &self.logs[first.number];
        let action = action_in(log, first.place);
        self.heads[first.number] = head_after(log, first.place);
        self.first = leader_after(&self.heads, &first);
        Some(action)
    }

    /// Tells the next collisions, `most` at most, and passes crossings between them. Whether more may be left.
    ///
    /// # Errors
    /// The listener refused a collision, and its count of refusals rose.
    #[inline(always)]
    pub fn tell_some<L: Listener>(&mut self, listener: &mut L, most: u32) -> Result<bool, Deaf>
        requires { AwaitsAll L.after L.awaits (L.meaning listener.old) (hits self.old) }
        ensures told { OnOk result (TellsHits L.after self.old (L.meaning listener.old) (L.faults listener.old)
            self.new (L.meaning listener.new) (L.faults listener.new)) }
        ensures awaits { OnOk result (AwaitsAll L.after L.awaits (L.meaning listener.new) (hits self.new)) }
        ensures rest { IfOk result (λ more. more ≡ false → self.new ≡ []) }
        ensures torn { OnErr result (TellsTorn L.after L.torn self.old (L.meaning listener.old)
            (L.faults listener.old) (L.meaning listener.new) (L.faults listener.new)) }
    {
        for _ in 0..most {
            let more = self.tell_hit(listener)?;
            if !more {
                return Ok(false);
            }
        }
        Ok(true)
    }

    /// Tells all collisions that are left.
    ///
    /// # Errors
    /// The listener refused a collision, and its count of refusals rose.
    pub fn tell_rest<L: Listener>(&mut self, listener: &mut L) -> Result<(), Deaf>
        requires { AwaitsAll L.after L.awaits (L.meaning listener.old) (hits self.old) }
        ensures told { OnOk result (TellsFirst L.after self.old (L.meaning listener.old) (L.faults listener.old)
            self.new (L.meaning listener.new) (L.faults listener.new)) }
        ensures rest { OnOk result (self.new ≡ []) }
        ensures torn { OnErr result (TellsTorn L.after L.torn self.old (L.meaning listener.old)
            (L.faults listener.old) (L.meaning listener.new) (L.faults listener.new)) }
    {
        'actions: loop {
            let more = self.tell_hit(listener)?;
            if !more {
                return Ok(());
            }
        }
    }

    // Passes the next action, and tells it if it is a collision; passes the crossings after it in its log too. False if
    // there was no action.
    #[inline(always)]
    fn tell_hit<L: Listener>(&mut self, listener: &mut L) -> Result<bool, Deaf>
        requires { AwaitsAll L.after L.awaits (L.meaning listener.old) (hits self.old) }
        ensures told { OnOk result (TellsHits L.after self.old (L.meaning listener.old) (L.faults listener.old)
            self.new (L.meaning listener.new) (L.faults listener.new)) }
        ensures rest { IfOk result (λ more. more ≡ false → self.new ≡ []) }
        ensures fewer { IfOk result (λ more. more ≡ true → length self.new < length self.old) }
        ensures torn { OnErr result (TellsTorn L.after L.torn self.old (L.meaning listener.old)
            (L.faults listener.old) (L.meaning listener.new) (L.faults listener.new)) }
    {
        let first = self.first;
        if first.is_none() {
            return Ok(false);
        }
        let log = &self.logs[first.number];
        tell_in(log, first.place, listener)?;
        self.heads[first.number] = hit_after(log, first.place);
        self.first = leader_after(&self.heads, &first);
        Ok(true)
    }
}

// Tells the collision at a place of a log, if there is one: a crossing isn't even read.
#[inline(always)]
fn tell_in<L: Listener>(log: &EventLog, place: usize, listener: &mut L) -> Result<(), Deaf>
    requires tellable { IfSome (native_at log.now place) MayBeTold }
    requires awaited { IfSome (native_at log.now place) (IsHitAwaited L.awaits (L.meaning listener.old)) }
    ensures told { OnOk result (IfSome (native_at log.now place)
        (λ x. Told L.after (L.meaning listener.old) (hits (x ∷ [])) (L.meaning listener.new))) }
    ensures refused { OnErr result (IfSome (native_at log.now place)
        (λ x. HitRefused L.torn (L.meaning listener.old) x (L.meaning listener.new))) }
    ensures counts { CountsRefusal (L.faults listener.old) (L.faults listener.new) result }
{
    match log.change(place) {
        Some(change) => listener.event(&change),
        None => Ok(()),
    }
}

// How many entries of a log come from its head on; none if it has no head.
fn left_in(log: &EventLog, head: &PackedHead) -> usize {
    match head.stamp.key() {
        Some(_) => log.len().saturating_sub(head.place),
        None => 0,
    }
}

// The action at a place of a log, which has one there.
#[inline(always)]
fn action_in(log: &EventLog, place: usize) -> Action
    requires { IsSome (native_at log.now place) }
    ensures { native_at log.now place ≡ Some result }
{
    log.native(place).unwrap()
}

// The head of each log.
fn first_heads(alloc: Global, logs: &[EventLog]) -> Result<Vec<PackedHead>, AllocError>
    requires { AllBeginInRange (map entries_in logs.now) }
    ensures { IfOk result (λ heads. AreFirstHeads (map entries_in logs.now) (length logs.now) (heads_in heads.items)) }
{
    let mut heads = Vec::new(alloc);
    for log in logs {
        heads.push(head_from(log, 0, log.len()))?;
    }
    Ok(heads)
}

// The head after the one at a place.
#[inline(always)]
fn head_after(log: &EventLog, place: usize) -> PackedHead
    requires within { place < length log.now }
    requires range { BeginsInRange (actions_in (drop (place + 1) (entries_in log.now))) }
    ensures { IsNextHead (entries_in log.now) (place + 1) (head_in result) }
{
    let end = log.len();
    head_from(log, place + 1, end)
}

// The head of the first collision after a place; the crossings before it are passed.
#[inline(always)]
fn hit_after(log: &EventLog, place: usize) -> PackedHead
    requires within { place < length log.now }
    requires can { AllCanBeTold (actions_in (drop (place + 1) (entries_in log.now))) }
    ensures { IsNextHit (entries_in log.now) (place + 1) (head_in result) }
{
    let end = log.len();
    hit_from(log, place + 1, end)
}

// The first collision from a place on, up to the end of the log.
#[inline(always)]
fn hit_from(log: &EventLog, done: usize, end: usize) -> PackedHead
    requires end { end ≡ length log.now }
    requires can { AllCanBeTold (actions_in (drop done (entries_in log.now))) }
    ensures { IsNextHit (entries_in log.now) done (head_in result) }
{
    for place in done..end {
        if let Some(change) = log.change(place) {
            return PackedHead {
                stamp: Packed::new(Some(change.stamp)),
                place,
            };
        }
    }
    no_head()
}

// The first action from a place on, up to the end of the log.
#[inline(always)]
fn head_from(log: &EventLog, done: usize, end: usize) -> PackedHead
    requires end { end ≡ length log.now }
    requires range { BeginsInRange (actions_in (drop done (entries_in log.now))) }
    ensures { IsNextHead (entries_in log.now) done (head_in result) }
{
    for place in done..end {
        if let Some(stamp) = log.native_stamp(place) {
            return PackedHead {
                stamp: Packed::new(Some(stamp)),
                place,
            };
        }
    }
    no_head()
}
