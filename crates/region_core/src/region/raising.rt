//! Raising a region's floor.

ghost use Rattle.std.specs.Prelude.{◌≡◌, IfSome, OnOk, OnErr};
ghost use Rattle.event_stamps.specs.Order.{Before, end_stamp};
ghost use Rattle.local_run.specs.Opening.{spent};
ghost use Rattle.local_run.specs.Raising.{raised_region, HasNoneWaitingBelow};
ghost use Rattle.local_run.specs.Entries.{entries_below};
ghost use Rattle.local_run.specs.Keeping.{entries_of};
ghost use Rattle.event_log.specs.Logged.{entries_in};

use crate::region::{Region, let_go};
use event_log::EventLog;
use event_stamps::Stamp;
use std::alloc::{AllocError, Global};

impl Region {
    /// Raises the floor to a stamp, which is neither before the floor nor after the end, and before which no message
    /// waits. What the region did and heard before the stamp is final, and is let go: the run begins with the view
    /// after it. A spent region stays spent.
    ///
    /// # Errors
    /// Out of memory: the region is spent.
    pub fn raise_floor(&mut self, alloc: Global, to: Stamp) -> Result<(), AllocError>
        requires not_lowered { ¬ Before to self.old.floor }
        requires in_time { ¬ Before (end_stamp self.old.home.rules.end) to }
        requires none_waiting { IfSome self.old.run (HasNoneWaitingBelow to) }
        ensures raised { OnOk result (self.new ≡ raised_region to self.old) }
        ensures spent { OnErr result (self.new ≡ spent self.old) }
    {
        let _alloc = alloc;
        let Some(live) = &mut self.live else {
            self.place.floor = to;
            return Ok(());
        };
        live.raise_floor(&mut self.place, to);
        Ok(())
    }

    /// Raises the floor as [`raise_floor`](Region::raise_floor) does, and puts the entries before it into a log, whose
    /// own entries go. A spent region puts none there.
    ///
    /// # Errors
    /// Out of memory: the region is spent.
    pub fn cut_floor(&mut self, to: Stamp, into: &mut EventLog) -> Result<(), AllocError>
        requires not_lowered { ¬ Before to self.old.floor }
        requires in_time { ¬ Before (end_stamp self.old.home.rules.end) to }
        requires none_waiting { IfSome self.old.run (HasNoneWaitingBelow to) }
        ensures raised { OnOk result (self.new ≡ raised_region to self.old) }
        ensures spent { OnErr result (self.new ≡ spent self.old) }
        ensures cut { OnOk result (entries_in into.new ≡ entries_below to (entries_of self.old)) }
    {
        let Some(live) = &mut self.live else {
            self.place.floor = to;
            into.truncate(0);
            return Ok(());
        };
        match live.cut_floor(&mut self.place, to, into) {
            Ok(()) => Ok(()),
            Err(error) => {
                let_go(&mut self.live);
                Err(error)
            }
        }
    }
}
