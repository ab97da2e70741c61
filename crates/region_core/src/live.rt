//! The parts of a region that isn't spent.

use event_log::EventLog;
use region_messages::Trail;
use region_parts::Inbox;
use region_queue::Queue;
use region_view::View;

/// The body of a region: the log of what it did from the floor on, and what follows from the log, kept up to date.
#[derive(Drop)]
pub(crate) struct Live {
    // The view after the whole log.
    pub(crate) view: View,
    // What it did from the floor on, and the rows that lead back over it: processed events and saved states in one.
    pub(crate) log: EventLog,
    // The events of its own columns that may come next.
    pub(crate) queue: Queue,
    pub(crate) inbox: Inbox,
    // The output queue: what it sent, by the number of the region that it goes to.
    pub(crate) sent: Vec<Trail>,
}

ghost use Rattle.std.specs.Prelude.{◌≡◌, [], replicate, IfOk, MatchOption};
ghost use Rattle.region_view.specs.Views.{rows_in};
ghost use Rattle.region_view.specs.Placing.{IsValidPlacing};
ghost use Rattle.local_run.specs.LocalRun.{trail_of, sent_to};
ghost use Rattle.event_log.specs.Logged.{entries_in};
ghost use Rattle.region_parts.specs.Inbox.{empty_inbox};
ghost use Rattle.region_parts.specs.Place.{IsPlace};
ghost use Rattle.region_core.specs.Live.{base_in, IsLive};
ghost use Rattle.local_run.specs.Keeping.{SendsTo, HearsOf};

use crate::Home;
use region_parts::{Place, empty_trails};
use std::alloc::{AllocError, Global};

impl Live {
    /// An empty log over a view, with nothing heard.
    pub(crate) fn open(alloc: Global, place: &Place, base: View) -> Result<Live, AllocError>
        requires place { IsPlace place.now }
        requires valid { IsValidPlacing place.now.home.rules place.now.home.grid (rows_in base) }
        ensures base { IfOk result (λ live. base_in live ≡ base) }
        ensures heard { IfOk result (λ live. live.inbox.heard ≡ replicate place.now.home.grid.regions []) }
        ensures log { IfOk result (λ live. live.log ≡ []) }
        ensures live { IfOk result (IsLive place.now) }
    {
        let home = &place.home;
        let queue = Queue::open(alloc, &base, &home.grid, &home.rules, home.number)?;
        let (inbox, sent) = no_messages(alloc, home)?;
        Ok(Live {
            view: base,
            log: EventLog::new(alloc),
            queue,
            inbox,
            sent,
        })
    }

    /// What goes to a region; none if the two aren't linked.
    pub(crate) fn sent_to(&self, place: &Place, to: u32) -> Option<&Trail>
        requires { IsLive place.now self.now }
        ensures { MatchOption result (¬ SendsTo place.now.home to)
            (λ trail. SendsTo place.now.home to
            × (trail.now ≡ sent_to place.now.home.grid to (base_in self.now) (entries_in self.now.log))) }
    {
        if place.home.sends_to(to) {
            self.sent.get(to as usize)
        } else {
            None
        }
    }

    /// What was heard from a region; none if the two aren't linked.
    pub(crate) fn heard_from(&self, place: &Place, from: u32) -> Option<&Trail>
        requires { IsLive place.now self.now }
        ensures { MatchOption result (¬ HearsOf place.now.home from)
            (λ trail. HearsOf place.now.home from × (trail.now ≡ trail_of self.now.inbox.heard from)) }
    {
        if place.home.hears_of(from) {
            self.inbox.heard(from)
        } else {
            None
        }
    }
}

// Nothing heard and nothing sent.
fn no_messages(alloc: Global, home: &Home) -> Result<(Inbox, Vec<Trail>), AllocError>
    ensures inbox { IfOk result (λ both. both.0 ≡ empty_inbox home.now.grid.regions) }
    ensures sent { IfOk result (λ both. both.1.items ≡ replicate home.now.grid.regions []) }
{
    let regions = home.grid.regions();
    let inbox = Inbox::new(alloc, regions)?;
    let sent = empty_trails(alloc, regions)?;
    Ok((inbox, sent))
}
