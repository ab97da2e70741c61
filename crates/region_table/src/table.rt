//! Regions in the slots of one table.

ghost use Rattle.std.specs.Prelude.{◌≡◌, ◌<◌, ◌≤◌, [], length, map, false, true, Some, IfOk};
ghost use Rattle.cell_grid.specs.declared.grid.TheConstants.{MAX_REGIONS};
ghost use Rattle.local_run.specs.Bursts.{AreTogether};
ghost use Rattle.region_table.specs.Bases.{MayLieIn, AreReplaced};
ghost use Rattle.region_table.specs.Rule.{HasAll, first_view, is_held, halved, copied, joined_views};
ghost use Rattle.region_table.specs.Tables.{IsSeatOf, first_seat, with_view, TakesOut, PutsBack, AreLeft, Closes, RegionTableData, table_code, IsKeptTable};

use crate::closing::gather;
use crate::order::{place_of, turn};
use crate::rule::{Copies, Joins, Puts, Slots, Takes, Token, Undoes};
use crate::seat::MAX_HELD;
use crate::{TableSeat, TakeOut};
use arrayvec::ArrayVec;
use cell_grid::Grid;
use event_stamps::Stamp;
use fixed_motion::Rules;
use region_core::Region;
use std::alloc::{AllocError, Global};
use std::marker::Model;
use std::snapshot::Snapshot;

/// Regions, each in a slot of its own. A region is at home, or out with one seat.
///
/// Contracts see the table's name, and the regions that it was opened with.
#[derive(Drop)]
pub struct RegionTable {
    slots: Slots,
    rules: Rules,
    grid: Grid,
    floor: Stamp,
}

impl Model for RegionTable {
    ghost Value = { RegionTableData };

    ghost coded = { table_code };

    ghost view = { λ s. record { id = s.slots.shared.table_id; opened = s.slots.shared.key.value.items } };

    ghost invariant = { λ s. IsKeptTable s.slots.shared.table_id s.slots.shared.key.value.items s.rules s.grid s.floor };
}

// The word of a slot at home at the last version: each put counts on, and the lowest bit says that it is out.
const LAST_HOME: u64 = u64::MAX - 1;

// The mask that clears that bit.
const AT_HOME: u64 = u64::MAX - 1;

impl RegionTable {
    /// Puts regions into slots, which are numbered from 0 on in the order of the regions, and gives the first seat.
    ///
    /// # Errors
    /// Out of memory.
    pub fn open(alloc: Global, regions: Vec<Region>) -> Result<(RegionTable, TableSeat), AllocError>
        requires some { 0 < length regions.items }
        requires together { AreTogether regions.items }
        ensures opened { IfOk result (λ made. made.0.opened ≡ regions.items) }
        ensures seat { IfOk result (λ made. made.1 ≡ first_seat made.0) }
    {
        let first = regions.first().unwrap();
        let rules = *first.rules();
        let grid = *first.grid();
        let floor = first.floor();
        let (slots, token) = lay(alloc, regions)?;
        Ok((
            RegionTable {
                slots,
                rules,
                grid,
                floor,
            },
            TableSeat {
                token,
                order: ArrayVec::new(),
            },
        ))
    }

    /// One more seat, which knows what this one has seen of the versions.
    pub fn split(&self, seat: &mut TableSeat) -> TableSeat
        requires seat { IsSeatOf self.now seat.old }
        ensures halved { seat.new ≡ with_view seat.old (halved seat.old.view) }
        ensures copied { result ≡ with_view seat.old (copied seat.old.view) }
    {
        TableSeat {
            token: self.slots.shared.split_seat::<Copies>(&mut seat.token),
            order: ArrayVec::new(),
        }
    }

    /// Ends a seat, and passes what it knew on to another.
    pub fn join(&self, seat: &mut TableSeat, other: TableSeat)
        requires seat { IsSeatOf self.now seat.old }
        requires other { IsSeatOf self.now other }
        requires idle { other.view.held ≡ [] }
        ensures { seat.new ≡ with_view seat.old (joined_views seat.old.view other.view) }
    {
        let TableSeat { token, order: _ } = other;
        self.slots.shared.join_seat::<Joins>(&mut seat.token, token);
    }

    /// Takes a region out, by one step on the word of its slot: no lock, no wait and no memory.
    pub fn take_out(&self, seat: &mut TableSeat, region: u32) -> TakeOut
        requires seat { IsSeatOf self.now seat.old }
        requires region { region < length self.now.opened }
        requires free { is_held region seat.old.view.held ≡ false }
        ensures { TakesOut seat.old region result seat.new }
    {
        let slot = region as usize;
        let shared = &self.slots.shared;
        let word = shared.fetch_or::<Takes>(&mut seat.token, slot, 1);
        if word % 2 == 1 {
            return TakeOut::Away;
        }
        if word == LAST_HOME {
            shared.fetch_and::<Undoes>(&mut seat.token, slot, AT_HOME);
            return TakeOut::Worn;
        }
        let Some(taken) = shared.exchange(&mut seat.token, slot, None) else {
            unreachable!()
        };
        seat.order.insert(0, region);
        TakeOut::Out(taken)
    }

    /// Puts a region back, in the slot that the seat took out.
    pub fn put_back(&self, seat: &mut TableSeat, region: u32, value: Region)
        requires seat { IsSeatOf self.now seat.old }
        requires holds { is_held region seat.old.view.held ≡ true }
        requires base { MayLieIn self.now.opened region value }
        ensures { PutsBack seat.old region value seat.new }
    {
        let slot = region as usize;
        let shared = &self.slots.shared;
        let place = place_of(seat.order.as_slice(), region);
        let behind = seat.order.len() - 1 - place;
        turn(&mut seat.token, place);
        let None = shared.exchange(&mut seat.token, slot, Some(value)) else {
            unreachable!()
        };
        shared.fetch_add::<Puts>(&mut seat.token, slot, 1);
        turn(&mut seat.token, behind);
        seat.order.remove(place);
    }

    /// Ends the table: gives as many regions as it was opened with, a spent one in the place of one that is out.
    /// If every seat that was split off was joined again, none is out, and each is as it was put back last.
    ///
    /// # Errors
    /// Out of memory.
    pub fn close(self, alloc: Global, seat: TableSeat) -> Result<Vec<Region>, AllocError>
        requires seat { IsSeatOf self seat }
        requires idle { seat.view.held ≡ [] }
        ensures closed { IfOk result (λ regions. Closes self seat regions.items) }
        ensures bases { IfOk result (λ regions. AreReplaced self.opened regions.items) }
        ensures left { HasAll seat.view → IfOk result (λ regions. AreLeft self.opened seat.view regions.items) }
    {
        let RegionTable {
            slots,
            rules,
            grid,
            floor,
        } = self;
        let regions = Vec::with_capacity(alloc, slots.slot_count())?;
        let TableSeat { token, order: _ } = seat;
        Ok(gather(slots.close_with(token), regions, &rules, &grid, floor))
    }
}

// Lays regions into slots, all at home, at version 0.
fn lay(alloc: Global, regions: Vec<Region>) -> Result<(Slots, Token), AllocError>
    requires few { length regions.items ≤ MAX_REGIONS }
    ensures counts { IfOk result (λ made. (made.0.shared.table_id.words ≡ length regions.items)
        × (made.0.shared.table_id.slots ≡ length regions.items)) }
    ensures key { IfOk result (λ made. made.0.shared.key.value.items ≡ regions.items) }
    ensures token { IfOk result (λ made. (made.1.table_id ≡ made.0.shared.table_id)
        × (made.1.me ≡ (first_view regions.items, []))) }
{
    let about = Snapshot::of(&regions);
    let zeros = [0; MAX_HELD];
    let words = &zeros[..regions.len()];
    let contents = in_slots(alloc, regions)?;
    match Slots::new(alloc, words, contents, &about) {
        Ok(made) => Ok(made),
        Err(_) => Err(AllocError),
    }
}

// The contents of the slots at first.
fn in_slots(alloc: Global, regions: Vec<Region>) -> Result<Vec<Option<Region>>, AllocError>
    ensures { IfOk result (λ contents. contents.items ≡ map Some regions.items) }
{
    let mut contents = Vec::with_capacity(alloc, regions.len())?;
    for region in regions {
        contents.push(Some(region))?;
    }
    Ok(contents)
}
