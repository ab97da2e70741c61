//! Running actions in the view after a log, on narrow rows if that is possible.

ghost use Rattle.std.specs.Prelude.{◌≡◌, ◌<◌, [], ◌∷◌, ◌++◌, length, None, Some, IfSome, OnOk, OnErr};
ghost use Rattle.std.specs.FinMap as map;
ghost use Rattle.region_view.specs.declared.action.Action.TheVariants.{Cross, Hit};
ghost use Rattle.region_view.specs.Compact.{IsRowThere};
ghost use Rattle.region_view.specs.Setting.{after_action, IsInOrder};
ghost use Rattle.event_log.specs.Heads.{disk_or};
ghost use Rattle.event_log.specs.Running.{logged_action, collision, IsMovedRow};

use crate::EventLog;
use crate::heads::Form;
use crate::narrow::narrow;
use event_rules::Change;
use event_stamps::Stamp;
use fixed_motion::Disk;
use local_run::{Entry, MAX_ENTRIES};
use region_view::{Action, Compact, Placed, View, rows_of};
use std::alloc::AllocError;

/// The rows of a disk before and after a collision.
#[derive(Clone, Copy)]
pub struct HitRows {
    /// The row before it.
    pub before: Compact,
    /// The row after it, with the new record, in the same cell.
    pub after: Compact,
}

impl EventLog {
    /// Runs an action in the view after the whole log, and appends it with the rows that stood there before.
    ///
    /// # Errors
    /// Out of memory: nothing changes.
    #[inline(always)]
    pub fn act(&mut self, view: &mut View, action: &Action) -> Result<(), AllocError>
        requires room { length self.old < MAX_ENTRIES }
        requires order { IsInOrder action.now }
        ensures log { OnOk result (self.new ≡ self.old ++ logged_action view.old action.now ∷ []) }
        ensures view { OnOk result (view.new ≡ after_action view.old action.now) }
        ensures log_unchanged { OnErr result (self.new ≡ self.old) }
        ensures view_unchanged { OnErr result (view.new ≡ view.old) }
    {
        match action {
            Action::Cross { stamp, cell } => self.cross_or_act(view, *stamp, *cell),
            Action::Hit(change) => match &change.second {
                None => self.hit_side(view, change),
                Some(second) => self.hit_other(view, change, second),
            },
        }
    }

    /// Runs a crossing in the view after the whole log, and appends it with what stood there: the row of its disk, as
    /// [`View::narrow`] answers it.
    ///
    /// # Errors
    /// Out of memory: nothing changes.
    #[inline(always)]
    pub fn cross(
        &mut self,
        view: &mut View,
        stamp: &Stamp,
        before: &Compact,
        cell: u32,
    ) -> Result<(), AllocError>
        requires room { length self.old < MAX_ENTRIES }
        requires before { IsRowThere (map.get view.old stamp.now.first) before.now }
        ensures log { OnOk result (self.new ≡ self.old ++ logged_action view.old (Cross stamp.now cell) ∷ []) }
        ensures view { OnOk result (view.new ≡ after_action view.old (Cross stamp.now cell)) }
        ensures log_unchanged { OnErr result (self.new ≡ self.old) }
        ensures view_unchanged { OnErr result (view.new ≡ view.old) }
    {
        self.keep(*stamp, cell, Form::Crossing, &[*before])?;
        view.set_narrow(stamp.first, &before.with_cell(cell));
        Ok(())
    }

    /// Runs a collision of two disks in the view after the whole log, and appends it with what stood there. It is given
    /// by their rows; those before it are as [`View::narrow`] answers them.
    ///
    /// # Errors
    /// Out of memory: nothing changes.
    #[inline(always)]
    pub fn collide(
        &mut self,
        view: &mut View,
        stamp: &Stamp,
        first: &HitRows,
        second: &HitRows,
    ) -> Result<(), AllocError>
        requires room { length self.old < MAX_ENTRIES }
        requires order { stamp.now.first < stamp.now.second }
        requires first { IsMovedRow (map.get view.old stamp.now.first) (disk_or first.now.after) first.now }
        requires second { IsMovedRow (map.get view.old stamp.now.second) (disk_or second.now.after) second.now }
        ensures log { OnOk result (self.new ≡
            self.old ++ logged_action view.old (Hit (collision stamp.now first.now second.now)) ∷ []) }
        ensures view { OnOk result (view.new ≡
            after_action view.old (Hit (collision stamp.now first.now second.now))) }
        ensures log_unchanged { OnErr result (self.new ≡ self.old) }
        ensures view_unchanged { OnErr result (view.new ≡ view.old) }
    {
        let rows = [first.before, second.before, first.after, second.after];
        self.keep(*stamp, 0, Form::Double, &rows)?;
        view.set_narrow(stamp.first, &first.after);
        view.set_narrow(stamp.second, &second.after);
        Ok(())
    }

    #[inline(always)]
    fn cross_or_act(&mut self, view: &mut View, stamp: Stamp, cell: u32) -> Result<(), AllocError>
        requires room { length self.old < MAX_ENTRIES }
        ensures log { OnOk result (self.new ≡ self.old ++ logged_action view.old (Cross stamp cell) ∷ []) }
        ensures view { OnOk result (view.new ≡ after_action view.old (Cross stamp cell)) }
        ensures log_unchanged { OnErr result (self.new ≡ self.old) }
        ensures view_unchanged { OnErr result (view.new ≡ view.old) }
    {
        match view.narrow(stamp.first) {
            Some(before) => self.cross(view, &stamp, &before, cell),
            None => self.act_wide(view, &Action::Cross { stamp, cell }),
        }
    }

    #[inline(always)]
    fn hit_side(&mut self, view: &mut View, change: &Change) -> Result<(), AllocError>
        requires room { length self.old < MAX_ENTRIES }
        requires alone { change.now.second ≡ None }
        ensures log { OnOk result (self.new ≡ self.old ++ logged_action view.old (Hit change.now) ∷ []) }
        ensures view { OnOk result (view.new ≡ after_action view.old (Hit change.now)) }
        ensures log_unchanged { OnErr result (self.new ≡ self.old) }
        ensures view_unchanged { OnErr result (view.new ≡ view.old) }
    {
        match moved(view, change.stamp.first, &change.first) {
            Some(rows) => {
                self.keep(change.stamp, 0, Form::Single, &[rows.before, rows.after])?;
                view.set_narrow(change.stamp.first, &rows.after);
                Ok(())
            }
            None => self.act_wide(view, &Action::Hit(*change)),
        }
    }

    #[inline(always)]
    fn hit_other(
        &mut self,
        view: &mut View,
        change: &Change,
        second: &Disk,
    ) -> Result<(), AllocError>
        requires room { length self.old < MAX_ENTRIES }
        requires both { change.now.second ≡ Some second.now }
        requires order { change.now.stamp.first < change.now.stamp.second }
        ensures log { OnOk result (self.new ≡ self.old ++ logged_action view.old (Hit change.now) ∷ []) }
        ensures view { OnOk result (view.new ≡ after_action view.old (Hit change.now)) }
        ensures log_unchanged { OnErr result (self.new ≡ self.old) }
        ensures view_unchanged { OnErr result (view.new ≡ view.old) }
    {
        let stamp = change.stamp;
        match moved(view, stamp.first, &change.first) {
            Some(one) => match moved(view, stamp.second, second) {
                Some(other) => self.collide(view, &stamp, &one, &other),
                None => self.act_wide(view, &Action::Hit(*change)),
            },
            None => self.act_wide(view, &Action::Hit(*change)),
        }
    }

    // Kept apart, since no valid disk needs it.
    #[cold]
    #[inline(never)]
    fn act_wide(&mut self, view: &mut View, action: &Action) -> Result<(), AllocError>
        requires room { length self.old < MAX_ENTRIES }
        requires order { IsInOrder action.now }
        ensures log { OnOk result (self.new ≡ self.old ++ logged_action view.old action.now ∷ []) }
        ensures view { OnOk result (view.new ≡ after_action view.old action.now) }
        ensures log_unchanged { OnErr result (self.new ≡ self.old) }
        ensures view_unchanged { OnErr result (view.new ≡ view.old) }
    {
        let rows = rows_of(view, action);
        self.append(view, &Entry::Native(*action), &rows)
    }
}

// The row of a disk, and the same row with another record; none if one of them has no narrow form, or there is no row.
#[inline(always)]
fn moved(view: &View, number: u32, disk: &Disk) -> Option<HitRows>
    ensures { IfSome result (IsMovedRow (map.get view.now number) disk.now) }
{
    let before = view.narrow(number)?;
    let placed = before.get()?;
    let after = narrow(Some(&Placed {
        disk: *disk,
        cell: placed.cell,
    }))?;
    Some(HitRows { before, after })
}
