//! The keys of a region's disks, and when they are taken again.

ghost use Rattle.std.specs.Prelude.{◌≡◌, ◌↔◌, [], ◌∷◌, Some, IsTrue, IfSome, OnOk};
ghost use Rattle.event_stamps.specs.declared.Kind.TheVariants.{Pair};
ghost use Rattle.event_stamps.specs.Least.{earlier_of};
ghost use Rattle.event_stamps.specs.Order.{IsInRange};
ghost use Rattle.event_tree.specs.Entries.{IsEntered};
ghost use Rattle.cell_grid.specs.Grid.{IsCell, Owns};
ghost use Rattle.region_view.specs.declared.action.Placed.{Placed};
ghost use Rattle.region_view.specs.Views.{ViewData, rows_in};
ghost use Rattle.region_view.specs.Naming.{IsMoved};
ghost use Rattle.region_queue.specs.Covering.{Covers};
ghost use Rattle.region_queue.specs.Finding.{IsReady, IsFound, AreListed, IsTakenAt, AreRetaken, AreRetakenOf, AreGiven, Settles, HasKey, IsHolder, cell_in};

use crate::finder::{Best, Codes, Finder, has_stamp};
use event_stamps::{Kind, Stamp};
use event_tree::{Entries, Packed};
use region_view::View;
use std::alloc::{AllocError, Global};

// Takes the keys of these disks again.
pub(crate) fn take_keys(
    alloc: Global,
    finder: &Finder,
    keys: &mut Entries,
    view: &View,
    disks: &[u32],
) -> Result<(), AllocError>
    requires { IsReady finder.now view.now }
    ensures { OnOk result (AreListed view.now finder.now.lists.cells →
        AreRetaken finder.now view.now disks.now keys.old keys.new) }
{
    if disks.len() == 2 {
        return take_both(alloc, finder, keys, view, disks[0], disks[1]);
    }
    for disk in disks {
        take_key(alloc, finder, keys, view, *disk)?;
    }
    Ok(())
}

// Takes the keys of two disks again that have just hit each other, by one look around both.
pub(crate) fn take_both(
    alloc: Global,
    finder: &Finder,
    keys: &mut Entries,
    view: &View,
    first: u32,
    second: u32,
) -> Result<(), AllocError>
    requires { IsReady finder.now view.now }
    ensures { OnOk result (AreListed view.now finder.now.lists.cells →
        AreRetaken finder.now view.now (first ∷ second ∷ []) keys.old keys.new) }
{
    match finder.codes_both(view, first, second) {
        Some((one, other)) => {
            set_codes(alloc, keys, first, one)?;
            set_codes(alloc, keys, second, other)
        }
        None => {
            take_key(alloc, finder, keys, view, first)?;
            take_key(alloc, finder, keys, view, second)
        }
    }
}

// Takes the key of a disk again.
fn take_key(
    alloc: Global,
    finder: &Finder,
    keys: &mut Entries,
    view: &View,
    disk: u32,
) -> Result<(), AllocError>
    requires { IsReady finder.now view.now }
    ensures { OnOk result (AreListed view.now finder.now.lists.cells →
        IsTakenAt finder.now view.now disk keys.old keys.new) }
{
    let best = finder.best(view, disk);
    set_best(alloc, keys, disk, best)
}

// Makes `best` the key and the bound of a disk.
fn set_best(alloc: Global, keys: &mut Entries, disk: u32, best: Best) -> Result<(), AllocError>
    ensures { OnOk result (IsEntered disk (earlier_of best.single best.pair, best.pair) keys.old keys.new) }
{
    let key = best.single.earlier(best.pair);
    keys.set(alloc, disk, key, best.pair)
}

// Makes `codes` the key and the bound of a disk.
#[inline(always)]
fn set_codes(alloc: Global, keys: &mut Entries, disk: u32, codes: Codes) -> Result<(), AllocError>
    ensures { OnOk result (IsEntered disk (earlier_of codes.single codes.pair, codes.pair) keys.old keys.new) }
{
    let key = codes.single.earlier(codes.pair);
    keys.set_codes(alloc, disk, key, codes.pair)
}

// Takes the key again of a disk that was in this cell before, or nowhere, and keeps its course.
pub(crate) fn take_crossed(
    alloc: Global,
    finder: &Finder,
    keys: &mut Entries,
    view: &View,
    disk: u32,
    cell: Option<u32>,
) -> Result<(), AllocError>
    requires ready { IsReady finder.now view.now }
    requires cell { IfSome cell (IsCell finder.now.grid) }
    ensures { OnOk result (AreListed view.now finder.now.lists.cells → (before : ViewData) →
        IsMoved disk before view.now → cell ≡ cell_in before disk →
        Covers (IsFound finder.now before) keys.old.keys keys.old.bounds →
        Covers (IsFound finder.now view.now) keys.new.keys keys.new.bounds) }
{
    let Some(cell) = cell else {
        return take_key(alloc, finder, keys, view, disk);
    };
    // Its pairs with disks beside both cells haven't changed, so only the others are looked for.
    if is_owner_kept(finder, view, disk, cell)
        && let Some(known) = keys.bound_code(disk)
        && known.is_pair_or_none()
        && let Some(beyond) = finder.codes_beyond(view, disk, cell)
    {
        let pair = known.earlier(beyond.pair);
        return set_codes(alloc, keys, disk, Codes { pair, ..beyond });
    }
    take_key(alloc, finder, keys, view, disk)
}

// Whether the region owns both this cell and that of a disk, or neither.
fn is_owner_kept(finder: &Finder, view: &View, disk: u32, cell: u32) -> bool
    requires ready { IsReady finder.now view.now }
    requires cell { IsCell finder.now.grid cell }
    ensures { IsTrue result → (p : Placed) → rows_in view.now disk ≡ Some p →
        (Owns finder.now.grid finder.now.region cell ↔ Owns finder.now.grid finder.now.region p.cell) }
{
    match view.get(disk) {
        Some(placed) => finder.owns(cell) == finder.owns(placed.cell),
        None => false,
    }
}

// Makes an event the key of its disks.
pub(crate) fn give_key(alloc: Global, keys: &mut Entries, event: &Stamp) -> Result<(), AllocError>
    requires { IsInRange event.now }
    ensures { OnOk result (AreGiven event.now keys.old keys.new) }
{
    let key = Packed::new(Some(*event));
    keys.set(alloc, event.first, key, key)?;
    if is_of_pair(event) {
        keys.set(alloc, event.second, key, key)?;
    }
    Ok(())
}

// Whether an event is one of two disks.
pub(crate) fn is_of_pair(event: &Stamp) -> bool
    ensures { IsTrue result ↔ (event.now.kind ≡ Pair) }
{
    event.kind == Kind::Pair
}

// Takes keys again until the least one is that of a native candidate. A least key that isn't one is that of a pair of
// which a disk has changed since, or that doesn't meet inside the box. No candidate is before it, so it is early enough
// to look at it when it is the least; then it is taken exactly, so the least key rises.
#[inline(always)]
pub(crate) fn settle(
    alloc: Global,
    finder: &Finder,
    keys: &mut Entries,
    view: &View,
) -> Result<(), AllocError>
    requires { IsReady finder.now view.now }
    ensures { OnOk result (Settles finder.now view.now keys.old keys.new) }
{
    // A key that is no pair's is that of a candidate.
    if let Some(top) = keys.top_code()
        && !top.is_pair_or_none()
    {
        return Ok(());
    }
    settle_pairs(alloc, finder, keys, view)
}

// The same, if the least key may be that of a pair.
#[inline(never)]
fn settle_pairs(
    alloc: Global,
    finder: &Finder,
    keys: &mut Entries,
    view: &View,
) -> Result<(), AllocError>
    requires { IsReady finder.now view.now }
    ensures { OnOk result (Settles finder.now view.now keys.old keys.new) }
{
    let mut least = keys.top();
    while let Some(stamp) = least.key() {
        if finder.is_fresh(view, &stamp) {
            break;
        }
        take_held(alloc, finder, keys, view, &stamp)?;
        // The least key is a later one, once all disks that had this key have theirs taken again.
        least = keys.top().if_after(least);
    }
    Ok(())
}

// Takes the keys again of the disks that have this one.
fn take_held(
    alloc: Global,
    finder: &Finder,
    keys: &mut Entries,
    view: &View,
    stamp: &Stamp,
) -> Result<(), AllocError>
    requires { IsReady finder.now view.now }
    ensures { OnOk result (AreListed view.now finder.now.lists.cells →
        AreRetakenOf finder.now view.now (IsHolder keys.old stamp.now) keys.old keys.new) }
{
    take_if_held(alloc, finder, keys, view, stamp, stamp.first)?;
    take_if_held(alloc, finder, keys, view, stamp, stamp.second)
}

// Takes the key of a disk again, if it is this one.
fn take_if_held(
    alloc: Global,
    finder: &Finder,
    keys: &mut Entries,
    view: &View,
    stamp: &Stamp,
    disk: u32,
) -> Result<(), AllocError>
    requires { IsReady finder.now view.now }
    ensures { OnOk result (AreListed view.now finder.now.lists.cells →
        AreRetakenOf finder.now view.now (HasKey keys.old disk stamp.now) keys.old keys.new) }
{
    if has_stamp(keys.key(disk).key(), stamp) {
        take_key(alloc, finder, keys, view, disk)?;
    }
    Ok(())
}
