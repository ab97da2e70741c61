//! Events of a region's own columns. Those of each kind run in a function of their own, on narrow rows.

ghost use Rattle.std.specs.Prelude.{◌≡◌, IfOk, IfSome, OnOk, IsTrue, is_some};
ghost use Rattle.std.specs.FinMap as map;
ghost use Rattle.event_stamps.specs.declared.Kind.TheVariants.{Cross as Crossing, Pair};
ghost use Rattle.region_view.specs.declared.action.Action.TheVariants.{Cross, Hit};
ghost use Rattle.region_view.specs.Views.{rows_in};
ghost use Rattle.region_view.specs.Compact.{IsRowThere, IsSmallRow};
ghost use Rattle.local_run.specs.declared.entry.Entry.TheVariants.{Native};
ghost use Rattle.local_run.specs.declared.moves.Move.TheVariants.{Run};
ghost use Rattle.local_run.specs.Answers.{with_entry};
ghost use Rattle.local_run.specs.Moves.{Fits};
ghost use Rattle.event_log.specs.Heads.{disk_or};
ghost use Rattle.event_log.specs.Running.{collision, IsMovedRow};
ghost use Rattle.region_parts.specs.Border.{IsUntold};
ghost use Rattle.region_core.specs.Choices.{IsAtTurn};
ghost use Rattle.region_core.specs.Live.{run_in, IsLive};
ghost use Rattle.region_core.specs.RunsOn.{RunsOrFails};

use crate::live::Live;
use crate::moves::outcome;
use event_log::HitRows;
use event_rules::{Change, apply};
use event_stamps::{Kind, Stamp};
use fixed_motion::Disk;
use region_parts::{Place, send_crossing, send_hit};
use region_view::{Compact, Placed, crossed_cell};
use std::alloc::{AllocError, Global};

impl Live {
    /// Runs the event of its own columns that is due, and sends its messages. False if the event fails at a limit: then
    /// nothing changes.
    ///
    /// # Errors
    /// Out of memory: what is left is to be dropped.
    #[inline(always)]
    pub(crate) fn run_event(
        &mut self,
        alloc: Global,
        place: &Place,
        due: &Stamp,
    ) -> Result<bool, AllocError>
        requires live { IsLive place.now self.old }
        requires turn { IsAtTurn place.now.home (run_in place.now.floor self.old) due.now }
        ensures live { OnOk result (IsLive place.now self.new) }
        ensures steps { IfOk result (RunsOrFails place.now due.now self.old self.new) }
    {
        match due.kind {
            Kind::Cross => self.run_crossing(alloc, place, due),
            Kind::Pair => self.run_pair(alloc, place, due),
            Kind::Wall => self.run_any(alloc, place, due),
        }
    }

    // The same for a crossing. It is kept apart, so that it carries nothing along for other events.
    #[inline(never)]
    fn run_crossing(
        &mut self,
        alloc: Global,
        place: &Place,
        due: &Stamp,
    ) -> Result<bool, AllocError>
        requires live { IsLive place.now self.old }
        requires turn { IsAtTurn place.now.home (run_in place.now.floor self.old) due.now }
        requires kind { due.now.kind ≡ Crossing }
        ensures live { OnOk result (IsLive place.now self.new) }
        ensures steps { IfOk result (RunsOrFails place.now due.now self.old self.new) }
    {
        let Some(before) = self.view.narrow(due.first) else {
            return self.run_any(alloc, place, due);
        };
        let row = before.get().unwrap();
        match crossed_cell(&place.home.rules, &place.home.grid, due, &row.disk) {
            Some(cell) => {
                let is_untold = place.are_far(row.cell, cell);
                self.cross_and_send(alloc, place, due, &before, cell, is_untold)?;
                Ok(true)
            }
            None => Ok(false),
        }
    }

    // The same for a collision of two disks.
    #[inline(never)]
    fn run_pair(&mut self, alloc: Global, place: &Place, due: &Stamp) -> Result<bool, AllocError>
        requires live { IsLive place.now self.old }
        requires turn { IsAtTurn place.now.home (run_in place.now.floor self.old) due.now }
        requires kind { due.now.kind ≡ Pair }
        ensures live { OnOk result (IsLive place.now self.new) }
        ensures steps { IfOk result (RunsOrFails place.now due.now self.old self.new) }
    {
        let Some(before) = self.view.narrow(due.first) else {
            return self.run_any(alloc, place, due);
        };
        let Some(beside) = self.view.narrow(due.second) else {
            return self.run_any(alloc, place, due);
        };
        let first = before.get().unwrap();
        let second = beside.get().unwrap();
        match apply(&place.home.rules, due, &first.disk, Some(&second.disk)) {
            Ok(change) => {
                let is_untold = place.are_far(first.cell, second.cell);
                let partner = change.second.unwrap();
                let one = rows_of_hit(before, first.cell, change.first);
                let other = rows_of_hit(beside, second.cell, partner);
                self.collide_and_send(alloc, place, &change, &one, &other, is_untold)?;
                Ok(true)
            }
            Err(_) => Ok(false),
        }
    }

    // The same for any event.
    #[inline(never)]
    fn run_any(&mut self, alloc: Global, place: &Place, due: &Stamp) -> Result<bool, AllocError>
        requires live { IsLive place.now self.old }
        requires turn { IsAtTurn place.now.home (run_in place.now.floor self.old) due.now }
        ensures live { OnOk result (IsLive place.now self.new) }
        ensures steps { IfOk result (RunsOrFails place.now due.now self.old self.new) }
    {
        match outcome(place, &self.view, due) {
            Ok(action) => {
                self.run(alloc, place, action)?;
                Ok(true)
            }
            Err(_) => Ok(false),
        }
    }

    // Runs a crossing, which is the region's next move and whose disk has this row. Sends its messages, unless it is
    // known that nobody is told of it.
    #[inline(always)]
    fn cross_and_send(
        &mut self,
        alloc: Global,
        place: &Place,
        stamp: &Stamp,
        before: &Compact,
        cell: u32,
        is_untold: bool,
    ) -> Result<(), AllocError>
        requires live { IsLive place.now self.old }
        requires fits { Fits place.now.home (run_in place.now.floor self.old) (Run (Cross stamp.now cell)) }
        requires before { IsRowThere (map.get self.old.view stamp.now.first) before.now }
        requires untold { IsTrue is_untold → IsUntold place.now.home (rows_in self.old.view) (Cross stamp.now cell) }
        ensures live { OnOk result (IsLive place.now self.new) }
        ensures run { OnOk result (run_in place.now.floor self.new
            ≡ with_entry (run_in place.now.floor self.old) (Native (Cross stamp.now cell))) }
    {
        send_crossing(
            &mut self.sent,
            &place.home,
            &self.view,
            stamp,
            cell,
            is_untold,
        )?;
        self.log.cross(&mut self.view, stamp, before, cell)?;
        self.queue.crossed(alloc, &self.view, stamp.first)?;
        Ok(())
    }

    // The same for a collision of two disks, which have these rows before it and after it.
    #[inline(always)]
    fn collide_and_send(
        &mut self,
        alloc: Global,
        place: &Place,
        change: &Change,
        first: &HitRows,
        second: &HitRows,
        is_untold: bool,
    ) -> Result<(), AllocError>
        requires live { IsLive place.now self.old }
        requires fits { Fits place.now.home (run_in place.now.floor self.old) (Run (Hit change.now)) }
        requires change { change.now ≡ collision change.now.stamp first.now second.now }
        requires first { IsMovedRow (map.get self.old.view change.now.stamp.first) (disk_or first.now.after) first.now }
        requires second { IsMovedRow (map.get self.old.view change.now.stamp.second) (disk_or second.now.after) second.now }
        requires untold { IsTrue is_untold → IsUntold place.now.home (rows_in self.old.view) (Hit change.now) }
        ensures live { OnOk result (IsLive place.now self.new) }
        ensures run { OnOk result (run_in place.now.floor self.new
            ≡ with_entry (run_in place.now.floor self.old) (Native (Hit change.now))) }
    {
        send_hit(&mut self.sent, &place.home, &self.view, change, is_untold)?;
        let stamp = change.stamp;
        self.log.collide(&mut self.view, &stamp, first, second)?;
        self.queue
            .struck(alloc, &self.view, stamp.first, stamp.second)?;
        Ok(())
    }
}

// The row of a disk before a collision, and the row with the disk's new record after it.
#[inline(always)]
fn rows_of_hit(before: Compact, cell: u32, disk: Disk) -> HitRows
    requires there { IfSome before (λ p. p.cell ≡ cell) }
    requires some { IsTrue (is_some before) }
    requires small { IsSmallRow (record { disk = disk; cell = cell }) }
    ensures { IsMovedRow before disk result }
{
    HitRows {
        before,
        after: Compact::some(&Placed { disk, cell }),
    }
}
