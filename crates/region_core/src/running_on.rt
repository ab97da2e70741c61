//! Going on with events of a region's own columns, between which no message comes.

ghost use Rattle.std.specs.Prelude.{◌≡◌, ◌↔◌, ◌+◌, ◌≤◌, length, IfOk, IfSome, OnOk, IsTrue};
ghost use Rattle.event_stamps.specs.Order.{Before, IsInRange};
ghost use Rattle.event_stamps.specs.Least.{IsLeastOf};
ghost use Rattle.local_run.specs.LocalRun.{IsOwn};
ghost use Rattle.region_parts.specs.declared.place.Place.{Place};
ghost use Rattle.region_core.specs.Live.{run_in, now_in, region_in, IsLive};
ghost use Rattle.region_core.specs.RunsOn.{IsClear, IsOwnInTurn, MayRunOn, RunsOn, answer_after};

use crate::live::Live;
use crate::moves::is_in_turn;
use crate::{MAX_ENTRIES, Step};
use event_stamps::{Stamp, is_before};
use event_tree::{Code, Packed};
use region_parts::Place;
use std::alloc::{AllocError, Global};

/// A run of steps so far.
#[derive(Clone, Copy)]
pub(crate) struct RunSoFar {
    /// The answer of the last step.
    pub(crate) answer: Step,
    /// How many more may follow.
    pub(crate) left: u32,
}

impl Live {
    /// Goes on with events of its own columns, at most as many as are left, as long as the next thing due is such an
    /// event and is before a bound. Steps would do the same.
    ///
    /// # Errors
    /// Out of memory: what is left is to be dropped.
    #[inline(always)]
    pub(crate) fn run_on(
        &mut self,
        alloc: Global,
        place: &Place,
        bound: &Stamp,
        so_far: RunSoFar,
    ) -> Result<RunSoFar, AllocError>
        requires live { IsLive place.now self.old }
        ensures live { OnOk result (IsLive place.now self.new) }
        ensures ran { IfOk result (RunsOn bound.now so_far (region_in place.now self.old)
            (region_in place.now self.new)) }
    {
        let limit = self.limit(bound);
        if !is_in_range(&limit) || !self.is_own_in_turn(place) {
            return Ok(so_far);
        }
        match self.top_own_code() {
            Some(top) => self.run_on_codes(alloc, place, &limit, top, so_far),
            None => self.run_on_packed(alloc, place, &limit, so_far),
        }
    }

    // The same up to a limit, while the queue has codes.
    #[inline(always)]
    fn run_on_codes(
        &mut self,
        alloc: Global,
        place: &Place,
        limit: &Stamp,
        mut top: Code,
        so_far: RunSoFar,
    ) -> Result<RunSoFar, AllocError>
        requires ready { MayRunOn place.now limit.now self.old }
        requires top { IsLeastOf (IsOwn place.now.home (now_in self.old).view) top }
        ensures live { OnOk result (IsLive place.now self.new) }
        ensures ran { IfOk result (RunsOn limit.now so_far (region_in place.now self.old)
            (region_in place.now self.new)) }
    {
        let limit_code = Code::limit(limit);
        let most = self.room().min(so_far.left);
        let mut ran = 0;
        let mut last = Code::none();
        while ran < most && top.is_before(limit_code) {
            let Some(due) = top.stamp() else {
                break;
            };
            if !self.run_event(alloc, place, &due)? {
                break;
            }
            ran += 1;
            last = top;
            // If the next event isn't after the last one, it isn't in turn.
            match self.top_own_code() {
                Some(next) if last.is_before(next) => top = next,
                _ => break,
            }
        }
        Ok(so_far.after(ran, last.stamp()))
    }

    // The same with stamps of any size.
    #[inline(never)]
    fn run_on_packed(
        &mut self,
        alloc: Global,
        place: &Place,
        limit: &Stamp,
        so_far: RunSoFar,
    ) -> Result<RunSoFar, AllocError>
        requires { MayRunOn place.now limit.now self.old }
        ensures live { OnOk result (IsLive place.now self.new) }
        ensures ran { IfOk result (RunsOn limit.now so_far (region_in place.now self.old)
            (region_in place.now self.new)) }
    {
        let limit_key = Packed::new(Some(*limit));
        let most = self.room().min(so_far.left);
        let mut ran = 0;
        let mut last = Packed::new(None);
        let mut top = self.top_own();
        while ran < most && top.is_before(limit_key) {
            let Some(due) = top.key() else {
                break;
            };
            if !self.run_event(alloc, place, &due)? {
                break;
            }
            ran += 1;
            last = top;
            top = self.top_own();
            // If the next event isn't after the last one, it isn't in turn.
            if !last.is_before(top) {
                break;
            }
        }
        Ok(so_far.after(ran, last.key()))
    }

    // The earlier of a bound and the stamp of the first message that waits.
    fn limit(&self, bound: &Stamp) -> Stamp
        ensures bound { ¬ Before bound.now result }
        ensures clear { (place : Place) → IsLive place self.now → IsClear result (now_in self.now).waiting }
    {
        match self.inbox.least() {
            Some((_, stamp)) => {
                if is_before(&stamp, bound) {
                    stamp
                } else {
                    *bound
                }
            }
            None => *bound,
        }
    }

    // The least stamp of its native candidates, packed.
    #[inline(always)]
    fn top_own(&self) -> Packed
        ensures { (place : Place) → IsLive place self.now →
            IsLeastOf (IsOwn place.home (now_in self.now).view) result }
    {
        self.queue.top()
    }

    // The same as a code; none if the queue has no codes.
    #[inline(always)]
    fn top_own_code(&self) -> Option<Code>
        ensures { IfSome result (λ code. (place : Place) → IsLive place self.now →
            IsLeastOf (IsOwn place.home (now_in self.now).view) code) }
    {
        self.queue.top_code()
    }

    // Whether the least of its native candidates, if there is one, is in turn.
    fn is_own_in_turn(&self, place: &Place) -> bool
        requires { IsLive place.now self.now }
        ensures { IsTrue result → IsOwnInTurn place.now.home (run_in place.now.floor self.now) }
    {
        match self.least_own() {
            Some(own) => is_in_turn(&place.floor, self.log.last_stamp(), &own),
            None => true,
        }
    }

    // How many more entries the log has room for.
    fn room(&self) -> u32
        requires { length self.now.log ≤ MAX_ENTRIES }
        ensures { length self.now.log + result ≡ MAX_ENTRIES }
    {
        (MAX_ENTRIES - self.log.len()) as u32
    }
}

impl RunSoFar {
    // The same after `steps` more steps. If an event is given, the last of them ran it.
    #[inline(always)]
    fn after(self, steps: u32, event: Option<Stamp>) -> RunSoFar
        requires { steps ≤ self.left }
        ensures answer { result.answer ≡ answer_after self.answer event }
        ensures left { result.left + steps ≡ self.left }
    {
        let answer = match event {
            Some(event) => Step::Ran(event),
            None => self.answer,
        };
        RunSoFar {
            answer,
            left: self.left - steps,
        }
    }
}

// Whether a stamp is in the ranges of the events of a run, so that it can be packed.
fn is_in_range(stamp: &Stamp) -> bool
    ensures { IsTrue result → IsInRange stamp.now }
{
    stamp.round <= 65536 && stamp.first < 65536 && stamp.second < 65536
}
