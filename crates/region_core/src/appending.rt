//! One more entry of a log, and what it changes besides the log.

ghost use Rattle.std.specs.Prelude.{◌≡◌, ◌<◌, [], OnOk};
ghost use Rattle.region_view.specs.declared.action.Action.TheVariants.{Cross, Hit};
ghost use Rattle.region_view.specs.Placing.{IsValidPlacing};
ghost use Rattle.region_view.specs.Views.{ViewData, rows_in};
ghost use Rattle.region_view.specs.Setting.{after_action, numbers_of};
ghost use Rattle.region_view.specs.Naming.{IsSameBut};
ghost use Rattle.region_queue.specs.Queue.{IsOf, StandsFor};
ghost use Rattle.local_run.specs.declared.entry.Entry.TheVariants.{Native, Heard};
ghost use Rattle.local_run.specs.declared.moves.Move.TheVariants.{Run, TakeIn};
ghost use Rattle.local_run.specs.Answers.{with_entry};
ghost use Rattle.region_core.specs.Live.{run_in, IsLive};
ghost use Rattle.local_run.specs.Moves.{Fits};

use crate::Entry;
use crate::live::Live;
use region_parts::{Place, send};
use region_queue::Queue;
use region_view::{Action, Message, Rows, View};
use std::alloc::{AllocError, Global};

impl Live {
    /// Takes in the first message of a region, which is the region's next move.
    ///
    /// # Errors
    /// Out of memory: what is left is to be dropped.
    pub(crate) fn take_in(
        &mut self,
        alloc: Global,
        place: &Place,
        from: u32,
        message: Message,
    ) -> Result<(), AllocError>
        requires live { IsLive place.now self.old }
        requires fits { Fits place.now.home (run_in place.now.floor self.old) (TakeIn from message) }
        ensures live { OnOk result (IsLive place.now self.new) }
        ensures run { OnOk result
            (run_in place.now.floor self.new ≡ with_entry (run_in place.now.floor self.old) (Heard from message)) }
    {
        let entry = Entry::Heard { from, message };
        self.log.append(&mut self.view, &entry, &message.rows)?;
        touch(alloc, &mut self.queue, &self.view, &message.rows)?;
        self.inbox.take(from);
        Ok(())
    }
}

impl Live {
    /// Runs an event of its own columns, which is the region's next move, and sends its messages.
    ///
    /// # Errors
    /// Out of memory: what is left is to be dropped.
    pub(crate) fn run(
        &mut self,
        alloc: Global,
        place: &Place,
        action: Action,
    ) -> Result<(), AllocError>
        requires live { IsLive place.now self.old }
        requires fits { Fits place.now.home (run_in place.now.floor self.old) (Run action) }
        ensures live { OnOk result (IsLive place.now self.new) }
        ensures run { OnOk result
            (run_in place.now.floor self.new ≡ with_entry (run_in place.now.floor self.old) (Native action)) }
    {
        send(&mut self.sent, &place.home, &self.view, &action)?;
        self.log.act(&mut self.view, &action)?;
        tell(alloc, &mut self.queue, &self.view, &action)?;
        Ok(())
    }
}

// Tells the queue of an action that was run, given the view after it.
#[inline(always)]
pub(crate) fn tell(
    alloc: Global,
    queue: &mut Queue,
    view: &View,
    action: &Action,
) -> Result<(), AllocError>
    requires valid { IsValidPlacing queue.old.rules queue.old.grid (rows_in view.now) }
    ensures queue { IsOf queue.new queue.old.rules queue.old.grid queue.old.region }
    ensures stands { OnOk result ((before : ViewData) → StandsFor queue.old before →
        view.now ≡ after_action before action.now → StandsFor queue.new view.now) }
{
    match action {
        // Its disk keeps its course.
        Action::Cross { stamp, .. } => queue.crossed(alloc, view, stamp.first),
        Action::Hit(change) => match change.second {
            Some(_) => queue.touched(alloc, view, &[change.stamp.first, change.stamp.second]),
            None => queue.touched(alloc, view, &[change.stamp.first]),
        },
    }
}

/// Tells the queue of a view that differs in the disks of some rows from the view for which it stands.
#[inline(always)]
pub(crate) fn touch(
    alloc: Global,
    queue: &mut Queue,
    view: &View,
    rows: &Rows,
) -> Result<(), AllocError>
    requires valid { IsValidPlacing queue.old.rules queue.old.grid (rows_in view.now) }
    ensures queue { IsOf queue.new queue.old.rules queue.old.grid queue.old.region }
    ensures stands { OnOk result ((before : ViewData) → StandsFor queue.old before →
        IsSameBut (numbers_of rows.now) before view.now → StandsFor queue.new view.now) }
{
    match rows.as_slice() {
        [] => queue.touched(alloc, view, &[]),
        [row] => queue.touched(alloc, view, &[row.0]),
        [first, second, ..] => queue.touched(alloc, view, &[first.0, second.0]),
    }
}
