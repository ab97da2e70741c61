//! The work of one worker in a burst.

ghost use Rattle.std.specs.Prelude.{◌≡◌, ◌≢◌, ◌<◌, ◌==◌, ◌∷◌, [], not, length, false, true, IfNone, IfSome, OnOk};
ghost use Rattle.std.specs.List.{filter, list_any};
ghost use Rattle.cell_grid.specs.Grid.{IsRegion};
ghost use Rattle.region_table.specs.Bases.{MayLieIn, StaysOrSpent};
ghost use Rattle.region_table.specs.Rule.{slots_of, is_held};
ghost use Rattle.region_table.specs.Tables.{IsSeatOf, IsIdleSeat};

use crate::calm::{Calm, Changes, Visit};
use crate::pace::{TablePace, TableSlice};
use crate::{RegionTable, TableSeat, TakeOut};
use cell_grid::Grid;
use event_stamps::Stamp;
use region_core::{Gate, Region};
use std::alloc::{AllocError, Global};

/// The work of one worker.
#[derive(Drop)]
pub(crate) struct TableJob<'a, G: Gate> {
    pub alloc: Global,
    pub table: &'a RegionTable,
    pub grid: &'a Grid,
    pub gate: &'a G,
    pub changes: &'a Changes,
    pub pace: &'a TablePace,
    pub worker: u32,
    /// The number of workers.
    pub workers: u32,
    /// How many steps a turn has, at least 1.
    pub steps: u32,
    ghost each: { length table.now.opened ≡ grid.now.regions },
    ghost some_steps: { 0 < steps },
}

impl<'a, G: Gate> TableJob<'a, G> {
    /// Makes the given number of turns. Once no region has anything to do, they only pass the gate.
    ///
    /// # Errors
    /// Out of memory.
    pub(crate) fn run(&self, seat: &mut TableSeat, turns: u32) -> Result<(), AllocError>
        requires seat { IsIdleSeat self.now.table.now seat.old }
        ensures seat { IsSeatOf self.now.table.now seat.new }
        ensures idle { OnOk result (seat.new.view.held ≡ []) }
    {
        let mut calm = Calm::new(self.changes);
        for turn in 0..turns {
            self.gate.turn(self.worker, turn);
            self.make_turn(seat, &mut calm)?;
        }
        Ok(())
    }

    // Makes the steps of a turn in slices, as long as any region may have something to do.
    fn make_turn(&self, seat: &mut TableSeat, calm: &mut Calm<'_>) -> Result<(), AllocError>
        requires seat { IsIdleSeat self.now.table.now seat.old }
        ensures seat { IsIdleSeat self.now.table.now seat.new }
    {
        let mut left = self.steps;
        for _ in 0..self.steps {
            if left == 0 || calm.is_of_all(self.grid.regions()) {
                break;
            }
            self.pause();
            calm.begin();
            let slice = self.pace.next_slice(left);
            self.make_slice(seat, calm, &slice)?;
            left = left.saturating_sub(calm.steps());
        }
        Ok(())
    }

    // If there are others, who go on meanwhile, the gate may hold the worker up.
    fn pause(&self) {
        if self.workers > 1 {
            self.gate.pause(self.worker);
        }
    }

    // Visits all regions.
    fn make_slice(
        &self,
        seat: &mut TableSeat,
        calm: &mut Calm<'_>,
        slice: &TableSlice,
    ) -> Result<(), AllocError>
        requires seat { IsIdleSeat self.now.table.now seat.old }
        ensures seat { IsIdleSeat self.now.table.now seat.new }
    {
        for region in 0..self.grid.regions() {
            let visit = self.visit(seat, region, slice)?;
            calm.note(region, visit);
        }
        Ok(())
    }

    // Lets a region run, and then hear those that it is linked with. A region that is away is passed over.
    fn visit(
        &self,
        seat: &mut TableSeat,
        region: u32,
        slice: &TableSlice,
    ) -> Result<Visit, AllocError>
        requires region { IsRegion self.now.grid.now region }
        requires seat { IsIdleSeat self.now.table.now seat.old }
        ensures seat { IsIdleSeat self.now.table.now seat.new }
    {
        let mut visit = self.step(seat, region, slice)?;
        for other in 0..self.grid.regions() {
            if other != region && self.grid.linked(region, other) {
                visit.is_whole &= self.hear(seat, region, other)?;
            }
        }
        Ok(visit)
    }

    // Lets a region run, if it is at home.
    fn step(
        &self,
        seat: &mut TableSeat,
        region: u32,
        slice: &TableSlice,
    ) -> Result<Visit, AllocError>
        requires region { IsRegion self.now.grid.now region }
        requires seat { IsIdleSeat self.now.table.now seat.old }
        ensures seat { IsIdleSeat self.now.table.now seat.new }
    {
        let Some(value) = take(self.table, seat, region) else {
            return Ok(Visit {
                is_whole: false,
                steps: 0,
            });
        };
        let steps = self.step_out(seat, region, value, slice)?;
        Ok(Visit {
            is_whole: true,
            steps,
        })
    }

    // Lets a region run that is out with the seat, and puts it back. The answer is the number of steps that it made.
    fn step_out(
        &self,
        seat: &mut TableSeat,
        region: u32,
        mut value: Region,
        slice: &TableSlice,
    ) -> Result<u32, AllocError>
        requires seat { IsSeatOf self.now.table.now seat.old }
        requires out { slots_of seat.old.view.held ≡ region ∷ [] }
        requires base { MayLieIn self.now.table.now.opened region value }
        ensures seat { IsIdleSeat self.now.table.now seat.new }
    {
        let done = run(self.alloc, self.changes, self.pace, &mut value, slice);
        put(self.table, seat, region, value);
        done
    }

    // Lets a region hear another, if both are at home. The answer says whether they were. The lower number is taken
    // first.
    fn hear(&self, seat: &mut TableSeat, hearer: u32, from: u32) -> Result<bool, AllocError>
        requires hearer { IsRegion self.now.grid.now hearer }
        requires from { IsRegion self.now.grid.now from }
        requires apart { hearer ≢ from }
        requires seat { IsIdleSeat self.now.table.now seat.old }
        ensures seat { IsIdleSeat self.now.table.now seat.new }
    {
        if hearer < from {
            let Some((hears, tells)) = take_both(self.table, seat, hearer, from) else {
                return Ok(false);
            };
            self.hear_out(seat, hearer, from, hears, tells)?;
        } else {
            let Some((tells, hears)) = take_both(self.table, seat, from, hearer) else {
                return Ok(false);
            };
            self.hear_out(seat, hearer, from, hears, tells)?;
        }
        Ok(true)
    }

    // Lets a region hear another, both out with the seat, and puts them back.
    fn hear_out(
        &self,
        seat: &mut TableSeat,
        hearer: u32,
        from: u32,
        mut hears: Region,
        mut tells: Region,
    ) -> Result<(), AllocError>
        requires seat { IsSeatOf self.now.table.now seat.old }
        requires hearer { is_held hearer seat.old.view.held ≡ true }
        requires from { list_any (λ s. from == s) (filter (λ s. not (hearer == s)) (slots_of seat.old.view.held)) ≡ true }
        requires both { filter (λ s. not (from == s)) (filter (λ s. not (hearer == s)) (slots_of seat.old.view.held)) ≡ [] }
        requires hears { MayLieIn self.now.table.now.opened hearer hears }
        requires tells { MayLieIn self.now.table.now.opened from tells }
        ensures seat { IsIdleSeat self.now.table.now seat.new }
    {
        let done = hear(self.alloc, self.changes, self.pace, &mut hears, &mut tells);
        put(self.table, seat, hearer, hears);
        put(self.table, seat, from, tells);
        done
    }
}

// Takes two regions out, one after the other, if both are at home and neither is worn.
fn take_both(
    table: &RegionTable,
    seat: &mut TableSeat,
    first: u32,
    second: u32,
) -> Option<(Region, Region)>
    requires first { first < length table.now.opened }
    requires second { second < length table.now.opened }
    requires apart { first ≢ second }
    requires seat { IsIdleSeat table.now seat.old }
    ensures seat { IsSeatOf table.now seat.new }
    ensures out { IfSome result (λ both. MayLieIn table.now.opened first both.0
        × MayLieIn table.now.opened second both.1 × (slots_of seat.new.view.held ≡ second ∷ first ∷ [])) }
    ensures left { IfNone result (slots_of seat.new.view.held ≡ []) }
{
    let Some(one) = take(table, seat, first) else {
        return None;
    };
    let Some(other) = take(table, seat, second) else {
        put(table, seat, first, one);
        return None;
    };
    Some((one, other))
}

// Takes a region out, if it is at home and isn't worn.
fn take(table: &RegionTable, seat: &mut TableSeat, region: u32) -> Option<Region>
    requires region { region < length table.now.opened }
    requires seat { IsSeatOf table.now seat.old }
    requires free { is_held region seat.old.view.held ≡ false }
    ensures seat { IsSeatOf table.now seat.new }
    ensures out { IfSome result (λ value. MayLieIn table.now.opened region value
        × (slots_of seat.new.view.held ≡ region ∷ slots_of seat.old.view.held)) }
    ensures left { IfNone result (slots_of seat.new.view.held ≡ slots_of seat.old.view.held) }
{
    match table.take_out(seat, region) {
        TakeOut::Out(value) => Some(value),
        TakeOut::Away | TakeOut::Worn => None,
    }
}

// Puts a region back.
fn put(table: &RegionTable, seat: &mut TableSeat, region: u32, value: Region)
    requires seat { IsSeatOf table.now seat.old }
    requires holds { is_held region seat.old.view.held ≡ true }
    requires base { MayLieIn table.now.opened region value }
    ensures seat { IsSeatOf table.now seat.new }
    ensures left { slots_of seat.new.view.held ≡ filter (λ s. not (region == s)) (slots_of seat.old.view.held) }
{
    table.put_back(seat, region, value);
}

// Lets a region run a slice, and says how many steps it made. It is put back after an error too.
fn run(
    alloc: Global,
    changes: &Changes,
    pace: &TablePace,
    value: &mut Region,
    slice: &TableSlice,
) -> Result<u32, AllocError>
    ensures { StaysOrSpent value.old value.new }
{
    let entries = value.entries();
    let began = value.due();
    value.run_before(alloc, slice.steps, slice.bound)?;
    let steps = value.entries().saturating_sub(entries) as u32;
    pace.ran(value.number(), began, value.due(), steps);
    changes.note(steps > 0);
    Ok(steps)
}

// Lets a region hear what is new of another since it last did.
fn hear(
    alloc: Global,
    changes: &Changes,
    pace: &TablePace,
    hears: &mut Region,
    tells: &mut Region,
) -> Result<(), AllocError>
    ensures hears { StaysOrSpent hears.old hears.new }
    ensures tells { tells.new ≡ tells.old }
{
    let before = standing(hears);
    hears.catch_up(alloc, tells)?;
    pace.heard(hears.number(), hears.due());
    changes.note(standing(hears) != before);
    Ok(())
}

// The number of entries of a region, the last one's stamp, and the stamp that is due there. If what it heard changes
// none of them, it goes on as it would have.
fn standing(region: &Region) -> (usize, Option<Stamp>, Stamp) {
    (region.entries(), region.clock(), region.due())
}
