//! Workers on regions in one table.
//!
//! The steps of a turn are made in slices. In a slice a worker goes through all regions: it takes one out, lets it run
//! some steps, but not far ahead of the last one, puts it back, and lets it hear what is new in those that it is linked
//! with. It passes over a region that another worker has out. Once it found that no region has anything to do, the
//! turns that it has left only pass the gate.

ghost use Rattle.std.specs.Prelude.{◌≡◌, [], length, All, IfOk, IsFalse};
ghost use Rattle.local_run.specs.Bursts.{AreTogether};
ghost use Rattle.local_run.specs.RunOn.{AreRunOn};
ghost use Rattle.region_table.specs.Bases.{AreAlive};
ghost use Rattle.region_table.specs.Tables.{IsSeatOf, IsIdleSeat};

use crate::calm::Changes;
use crate::job::TableJob;
use crate::pace::TablePace;
use crate::{RegionTable, TableSeat};
use cell_grid::Grid;
use region_core::{Gate, Region};
use region_workers::Workers;
use std::alloc::{AllocError, Global};
use std::thread;
use std::thread::Threads;

/// Lets workers work on the regions of a grid in a table, as a burst that keeps them: gives back each at its place, run
/// on. All threads that it starts have ended then.
///
/// # Errors
/// Out of memory.
pub fn burst_in_table<R: Threads + Sync, G: Gate>(
    workers: &Workers<'_, G>,
    rt: &R,
    alloc: Global,
    regions: Vec<Region>,
) -> Result<Vec<Region>, AllocError>
    requires together { AreTogether regions.items }
    ensures count { IfOk result (λ worked. length worked.items ≡ length regions.items) }
    ensures kept { IfOk result (λ worked. AreRunOn regions.items worked.items) }
{
    let Some(first) = regions.first() else {
        return Ok(regions);
    };
    let grid = *first.grid();
    let jobs = workers.threads(grid.regions());
    let pace = TablePace::new(alloc, &regions)?;
    let (table, mut seat) = RegionTable::open(alloc, regions)?;
    run_jobs(workers, rt, alloc, &table, &grid, &pace, jobs, &mut seat)?;
    let worked = table.close(alloc, seat)?;
    // A region is spent only if memory ran out, and then a worker said so; but no slot tells that.
    if has_spent(&worked) {
        return Err(AllocError);
    }
    Ok(worked)
}

// Runs the given number of jobs side by side. Each takes a seat along that is split off this one, and brings it back.
fn run_jobs<R: Threads + Sync, G: Gate>(
    workers: &Workers<'_, G>,
    rt: &R,
    alloc: Global,
    table: &RegionTable,
    grid: &Grid,
    pace: &TablePace,
    jobs: u32,
    seat: &mut TableSeat,
) -> Result<(), AllocError>
    requires each { length table.now.opened ≡ grid.now.regions }
    requires seat { IsSeatOf table.now seat.old }
    requires idle { seat.old.view.held ≡ [] }
    ensures seat { IsSeatOf table.now seat.new }
    ensures idle { seat.new.view.held ≡ [] }
{
    let changes = Changes::new();
    let run_one = |start: (u32, TableSeat)| -> Result<TableSeat, AllocError>
        requires { IsIdleSeat table.now start.1 × (length table.now.opened ≡ grid.now.regions) }
        ensures { IfOk result (λ seat. IsSeatOf table.entry.now seat × (seat.view.held ≡ [])) }
    {
        let (worker, mut seat) = start;
        let job = TableJob {
            alloc,
            table,
            grid,
            gate: workers.gate,
            changes: &changes,
            pace,
            worker,
            workers: jobs,
            steps: workers.steps,
        };
        job.run(&mut seat, workers.turns)?;
        Ok(seat)
    };
    let starts = starts_of(alloc, table, jobs, seat)?;
    for done in thread::map_vec(rt, starts, &run_one)? {
        table.join(seat, done?);
    }
    Ok(())
}

// Whether any region is spent.
fn has_spent(regions: &[Region]) -> bool
    ensures { IsFalse result → AreAlive regions.now }
{
    for region in regions {
        if region.is_spent() {
            return true;
        }
    }
    false
}

// As many seats as there are jobs, each with the number of its worker.
fn starts_of(
    alloc: Global,
    table: &RegionTable,
    jobs: u32,
    seat: &mut TableSeat,
) -> Result<Vec<(u32, TableSeat)>, AllocError>
    requires seat { IsSeatOf table.now seat.old }
    ensures seat { IsSeatOf table.now seat.new }
    ensures held { seat.new.view.held ≡ seat.old.view.held }
    ensures each { IfOk result (λ starts. All (λ start. IsIdleSeat table.now start.1) starts.items) }
{
    let mut starts = Vec::with_capacity(alloc, jobs as usize)?;
    for worker in 0..jobs {
        starts.push((worker, table.split(seat)))?;
    }
    Ok(starts)
}
