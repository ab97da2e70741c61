//! What a region does next.

ghost use Rattle.std.specs.Prelude.{◌≡◌, ◌↔◌, false, IsTrue, IfOk, IfSome, OnOk, MatchOption};
ghost use Rattle.event_stamps.specs.Least.{IsLeastOf};
ghost use Rattle.region_view.specs.Placing.{IsValidPlacing};
ghost use Rattle.region_view.specs.Views.{rows_in};
ghost use Rattle.local_run.specs.declared.answers.Step.TheVariants.{Halted};
ghost use Rattle.local_run.specs.LocalRun.{At, IsOwn, IsOffered, IsDue, IsDueOrEnd, IsWaiting, ComesToInView};
ghost use Rattle.local_run.specs.Answers.{HasDue, IsInTurn, StepsTo};
ghost use Rattle.region_core.specs.Choices.{Chooses, IsAtTurn};
ghost use Rattle.region_parts.specs.Inbox.{head_stamp, IsLeastHead, IsHeadOf};
ghost use Rattle.region_parts.specs.declared.place.Place.{Place};
ghost use Rattle.region_parts.specs.Place.{IsPlace};
ghost use Rattle.region_core.specs.declared.live.Live.{Live};
ghost use Rattle.region_core.specs.Live.{run_in, now_in, IsLive, HasDueBefore, IsHeldBack};
ghost use Rattle.region_core.specs.RunsOn.{FailsLimit};
ghost use Rattle.local_run.specs.Moves.{ComesAfter};

use crate::live::Live;
use crate::{Home, MAX_ENTRIES, Step};
use event_rules::Limit;
use event_stamps::{Kind, Stamp, earlier, is_before};
use region_parts::Place;
use region_view::{Action, Message, View, act};
use std::alloc::{AllocError, Global};

/// What a region does next.
pub(crate) enum Choice {
    /// Nothing: it answers this.
    Answer(Step),
    /// It runs the event with this stamp, of its own columns.
    Run(Stamp),
    /// It takes in the first message of a region.
    TakeIn {
        /// The number of the region that sent it.
        from: u32,
        /// The message.
        message: Message,
    },
}

impl Live {
    /// The least stamp of its native candidates.
    pub(crate) fn least_own(&self) -> Option<Stamp>
        ensures { (place : Place) → IsLive place self.now →
            IsLeastOf (IsOwn place.home (now_in self.now).view) result }
    {
        self.queue.least()
    }

    /// The stamp that is due; none if and only if nothing is due.
    pub(crate) fn due(&self) -> Option<Stamp>
        ensures { (place : Place) → IsLive place self.now →
            IsLeastOf (IsOffered place.home (now_in self.now)) result }
    {
        self.due_beside(self.inbox.least())
    }

    // The same, given the least of the first messages.
    #[inline(always)]
    fn due_beside(&self, head: Option<(u32, Stamp)>) -> Option<Stamp>
        requires { IsLeastHead self.now.inbox head }
        ensures { (place : Place) → IsLive place self.now →
            IsLeastOf (IsOffered place.home (now_in self.now)) result }
    {
        let own = self.least_own();
        match head {
            Some(_) => earlier(own, stamp_of(head)),
            None => own,
        }
    }

    /// The stamp that is due, or the end stamp if nothing is.
    pub(crate) fn due_or_end(&self, place: &Place) -> Stamp
        requires { IsLive place.now self.now }
        ensures { IsDueOrEnd place.now.home (now_in self.now) result }
    {
        or_end(&place.home, self.due())
    }

    // What comes next, given the least of the first messages and the stamp that is due.
    fn next_move(&self, place: &Place, head: Option<(u32, Stamp)>, due: Option<Stamp>) -> Choice
        requires live { IsLive place.now self.now }
        requires head { IsLeastHead self.now.inbox head }
        requires due { IsLeastOf (IsOffered place.now.home (now_in self.now)) due }
        ensures { Chooses place.now.home (run_in place.now.floor self.now) result }
    {
        if self.log.len() >= MAX_ENTRIES {
            return Choice::Answer(Step::Held);
        }
        let Some(due) = due else {
            return Choice::Answer(Step::Idle);
        };
        let last = self.log.last_stamp();
        if !is_in_turn(&place.floor, last, &due) {
            let clock = last.unwrap_or(place.floor);
            return Choice::Answer(Step::Past { due, clock });
        }
        match sender_at(head, &due) {
            Some(from) => self.message_move(place, from, due),
            None => Choice::Run(due),
        }
    }

    /// Makes one step, and gives its answer. If a bound is given, the stamp that is due, or the end stamp, has to be
    /// before it. If it isn't, the answer is none and nothing changes.
    ///
    /// # Errors
    /// Out of memory: what is left is to be dropped.
    pub(crate) fn step(
        &mut self,
        alloc: Global,
        place: &Place,
        bound: Option<Stamp>,
    ) -> Result<Option<Step>, AllocError>
        requires live { IsLive place.now self.old }
        ensures live { OnOk result (IsLive place.now self.new) }
        ensures steps { IfOk result (λ answer. MatchOption answer
            (IsHeldBack place.now.home bound self.old × (self.new ≡ self.old))
            (λ step. IfSome bound (λ b. HasDueBefore place.now.home b self.old)
            × StepsTo place.now.home (run_in place.now.floor self.old) step (run_in place.now.floor self.new))) }
    {
        let head = self.inbox.least();
        let due = self.due_beside(head);
        if self.is_held_back(place, due, bound) {
            return Ok(None);
        }
        match self.next_move(place, head, due) {
            Choice::Answer(step) => Ok(Some(step)),
            Choice::Run(due) => {
                if self.run_event(alloc, place, &due)? {
                    Ok(Some(Step::Ran(due)))
                } else {
                    Ok(Some(Step::Halted(self.limit_of(place, &due))))
                }
            }
            Choice::TakeIn { from, message } => {
                let stamp = message.stamp;
                self.take_in(alloc, place, from, message)?;
                Ok(Some(Step::Heard(stamp)))
            }
        }
    }

    // The limit at which the event that is due fails.
    #[cold]
    fn limit_of(&self, place: &Place, due: &Stamp) -> Limit
        requires live { IsLive place.now self.now }
        requires turn { IsAtTurn place.now.home (run_in place.now.floor self.now) due.now }
        requires fails { FailsLimit place.now.home (now_in self.now).view due.now }
        ensures { StepsTo place.now.home (run_in place.now.floor self.now) (Halted result) (run_in place.now.floor self.now) }
    {
        outcome(place, &self.view, due).err().unwrap()
    }

    // Whether a bound is given, and the stamp that is due, or the end stamp, isn't before it.
    fn is_held_back(&self, place: &Place, due: Option<Stamp>, bound: Option<Stamp>) -> bool
        requires { IsLeastOf (IsOffered place.now.home (now_in self.now)) due }
        ensures held { IsTrue result → IsHeldBack place.now.home bound self.now }
        ensures free { result ≡ false → IfSome bound (λ b. HasDueBefore place.now.home b self.now) }
    {
        match bound {
            Some(bound) => !is_before(&or_end(&place.home, due), &bound),
            None => false,
        }
    }

    // Whether the stamp that is due is that of a native candidate.
    fn is_own(&self, due: &Stamp) -> bool
        ensures { (place : Place) → IsLive place self.now → IsDue place.home (now_in self.now) due.now →
            IsTrue result ↔ IsOwn place.home (now_in self.now).view due.now }
    {
        match self.least_own() {
            Some(own) => is_same(&own, due),
            None => false,
        }
    }

    // What comes next if the first message of a region has the due stamp, which is in turn.
    fn message_move(&self, place: &Place, from: u32, due: Stamp) -> Choice
        requires live { IsLive place.now self.now }
        requires due { HasDue place.now.home (run_in place.now.floor self.now) due }
        requires turn { IsInTurn (run_in place.now.floor self.now) due }
        requires first { IsHeadOf self.now.inbox from due }
        ensures { Chooses place.now.home (run_in place.now.floor self.now) result }
    {
        if self.is_own(&due) || self.inbox.is_shared(from, &due) {
            Choice::Answer(Step::Tied(due))
        } else {
            let message = *self.inbox.next(from).unwrap();
            Choice::TakeIn { from, message }
        }
    }
}

// A region whose first message has a stamp, given the least of the first messages; none if and only if no message has
// it. No message is before the stamp.
fn sender_at(head: Option<(u32, Stamp)>, due: &Stamp) -> Option<u32>
    ensures { (place : Place) (live : Live) → IsLive place live → IsLeastHead live.inbox head →
        IsDue place.home (now_in live) due.now →
        MatchOption result (¬ IsWaiting (now_in live).waiting due.now)
        (λ from. IsHeadOf live.inbox from due.now) }
{
    match head {
        Some((from, stamp)) => {
            if is_same(&stamp, due) {
                Some(from)
            } else {
                None
            }
        }
        None => None,
    }
}

// A stamp that is due, or the end stamp if nothing is.
fn or_end(home: &Home, due: Option<Stamp>) -> Stamp
    ensures { (a : At) → IsLeastOf (IsOffered home.now a) due → IsDueOrEnd home.now a result }
{
    match due {
        Some(due) => due,
        None => Stamp::end_of(home.rules.end),
    }
}

fn is_same(a: &Stamp, b: &Stamp) -> bool
    ensures { IsTrue result ↔ (a.now ≡ b.now) }
{
    *a == *b
}

// Whether the stamp isn't before the floor, and is after that of the last entry, if there is one.
pub(crate) fn is_in_turn(floor: &Stamp, clock: Option<Stamp>, stamp: &Stamp) -> bool
    ensures { IsTrue result ↔ ComesAfter floor.now clock stamp.now }
{
    if is_before(stamp, floor) {
        return false;
    }
    match clock {
        Some(last) => is_before(&last, stamp),
        None => true,
    }
}

fn stamp_of(head: Option<(u32, Stamp)>) -> Option<Stamp>
    ensures { result ≡ head_stamp head }
{
    match head {
        Some((_, stamp)) => Some(stamp),
        None => None,
    }
}

// The action of a native candidate of a view, or the limit at which it fails.
pub(crate) fn outcome(place: &Place, view: &View, stamp: &Stamp) -> Result<Action, Limit>
    requires place { IsPlace place.now }
    requires valid { IsValidPlacing place.now.home.rules place.now.home.grid (rows_in view.now) }
    requires own { IsOwn place.now.home view.now stamp.now }
    ensures { ComesToInView place.now.home view.now stamp.now result }
{
    let home = &place.home;
    let row = view.get(stamp.first).unwrap();
    match stamp.kind {
        Kind::Pair => {
            let other = view.get(stamp.second).unwrap();
            act(&home.rules, &home.grid, stamp, &row, Some(&other.disk))
        }
        _ => act(&home.rules, &home.grid, stamp, &row, None),
    }
}
