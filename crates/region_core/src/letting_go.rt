//! Raising the floor: letting go of what is final.

ghost use Rattle.std.specs.Prelude.{◌≡◌, OnOk, OnErr};
ghost use Rattle.event_stamps.specs.Order.{Before, end_stamp};
ghost use Rattle.region_parts.specs.Place.{at_floor};
ghost use Rattle.region_core.specs.Live.{run_in, IsLive};
ghost use Rattle.local_run.specs.Raising.{raised_run, HasNoneWaitingBelow};
ghost use Rattle.local_run.specs.Entries.{entries_below};
ghost use Rattle.event_log.specs.Logged.{entries_in};

use crate::live::Live;
use event_log::EventLog;
use event_stamps::Stamp;
use region_parts::{Place, drop_before};
use std::alloc::AllocError;

impl Live {
    /// Lets go of what is before the stamp `to`, before which nothing waits: the run then begins in the view after the
    /// entries before `to`, and keeps what it heard, did and sent from there on. Takes no memory.
    pub(crate) fn raise_floor(&mut self, place: &mut Place, to: Stamp)
        requires live { IsLive place.old self.old }
        requires in_time { ¬ Before (end_stamp place.old.home.rules.end) to }
        requires none_waiting { HasNoneWaitingBelow to (run_in place.old.floor self.old) }
        ensures place { place.new ≡ at_floor to place.old }
        ensures live { IsLive place.new self.new }
        ensures run { run_in to self.new ≡ raised_run to (run_in place.old.floor self.old) }
    {
        let gone = self.log.count_before(to);
        self.inbox.drop_before(to, &self.log, gone);
        drop_before(&mut self.sent, to);
        self.log.drop_first(gone);
        place.floor = to;
    }

    /// The same, and the entries before the stamp go into a log, whose own entries go.
    ///
    /// # Errors
    /// Out of memory: this is to be let go.
    pub(crate) fn cut_floor(
        &mut self,
        place: &mut Place,
        to: Stamp,
        into: &mut EventLog,
    ) -> Result<(), AllocError>
        requires live { IsLive place.old self.old }
        requires in_time { ¬ Before (end_stamp place.old.home.rules.end) to }
        requires none_waiting { HasNoneWaitingBelow to (run_in place.old.floor self.old) }
        ensures place { OnOk result (place.new ≡ at_floor to place.old) }
        ensures spent { OnErr result (place.new ≡ place.old) }
        ensures live { OnOk result (IsLive place.new self.new) }
        ensures run { OnOk result (run_in to self.new ≡ raised_run to (run_in place.old.floor self.old)) }
        ensures cut { OnOk result (entries_in into.new ≡ entries_below to (entries_in self.old.log)) }
    {
        let gone = self.log.count_before(to);
        self.inbox.drop_before(to, &self.log, gone);
        drop_before(&mut self.sent, to);
        self.log.cut_first(gone, into)?;
        place.floor = to;
        Ok(())
    }
}
