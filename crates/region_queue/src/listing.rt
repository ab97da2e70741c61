//! Lists of the disks of a view by cell.

ghost use Rattle.std.specs.Prelude.{◌≡◌, OnOk};
ghost use Rattle.region_view.specs.Laws.{HasCells};
ghost use Rattle.region_view.specs.Views.{rows_in};
ghost use Rattle.region_view.specs.Naming.{Names};
ghost use Rattle.region_queue.specs.Finding.{cell_in, IsTakenOff, IsRelisted, AreRelisted, AreRelistedOf};

use crate::keys::is_of_pair;
use cell_lists::Lists;
use event_stamps::Stamp;
use region_view::View;
use std::alloc::{AllocError, Global};

// Lists these disks in the cells in which a view has them, and nowhere else.
pub(crate) fn list_again(
    alloc: Global,
    lists: &mut Lists,
    view: &View,
    disks: &[u32],
) -> Result<(), AllocError>
    requires { HasCells lists.old.grid (rows_in view.now) }
    ensures grid { lists.new.grid ≡ lists.old.grid }
    ensures listed { OnOk result (AreRelisted view.now disks.now lists.old.cells lists.new.cells) }
{
    for disk in disks {
        list_one(alloc, lists, view, *disk)?;
    }
    Ok(())
}

// Lists the disks of an event in the cells in which a view has them, and nowhere else.
pub(crate) fn list_event(
    alloc: Global,
    lists: &mut Lists,
    view: &View,
    event: &Stamp,
) -> Result<(), AllocError>
    requires { HasCells lists.old.grid (rows_in view.now) }
    ensures grid { lists.new.grid ≡ lists.old.grid }
    ensures listed { OnOk result (AreRelistedOf view.now (Names event.now) lists.old.cells lists.new.cells) }
{
    if is_of_pair(event) {
        list_again(alloc, lists, view, &[event.first, event.second])
    } else {
        list_again(alloc, lists, view, &[event.first])
    }
}

// Lists one disk in the cell in which a view has it, and nowhere else.
pub(crate) fn list_one(
    alloc: Global,
    lists: &mut Lists,
    view: &View,
    disk: u32,
) -> Result<(), AllocError>
    requires { HasCells lists.old.grid (rows_in view.now) }
    ensures grid { lists.new.grid ≡ lists.old.grid }
    ensures listed { OnOk result (IsRelisted view.now disk lists.old.cells lists.new.cells) }
{
    let cell = cell_in(view, disk);
    // Most disks keep their cell.
    if lists.cell_of(disk) == cell {
        return Ok(());
    }
    take_off(lists, disk);
    if let Some(cell) = cell {
        lists.put(alloc, disk, cell)?;
    }
    Ok(())
}

// The cell in which a view has a disk.
fn cell_in(view: &View, disk: u32) -> Option<u32>
    ensures { result ≡ cell_in view.now disk }
{
    Some(view.get(disk)?.cell)
}

// Takes a disk off its cell, if it is listed.
fn take_off(lists: &mut Lists, disk: u32)
    ensures { IsTakenOff disk lists.old lists.new }
{
    if let Some(cell) = lists.cell_of(disk) {
        lists.take(disk, cell);
    }
}
