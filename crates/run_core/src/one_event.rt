//! One event of the cell run, for when nothing that the regions did is final.

ghost use Rattle.std.specs.Prelude.{◌≡◌, ◌<◌, length, map, IfOk, OnOk};
ghost use Rattle.cell_grid.specs.Grid.{IsRegion};
ghost use Rattle.cell_sequence.specs.State.{CellStateData};
ghost use Rattle.commit_horizon.specs.Horizon.{AllKept};
ghost use Rattle.run_core.specs.Passing.{StandOn, OnEachState};
ghost use Rattle.run_core.specs.Taking.{IsNextHome, OneTookIn, AllTookIn, at_floor, Refreshed, RunsEvent, StandOnCells};

use crate::pairs::{hear_at, step_at};
use crate::passes::pass;
use cell_grid::Grid;
use region_core::{Hearing, Region, Step};
use std::alloc::{AllocError, Global};

/// Has regions of a grid, which stand on a state, run the state's next event: the region that is its home makes a
/// step, which is answered, and if that ran the event, those that are linked with it take in what it sent. What they
/// did since the floor is taken back first.
///
/// # Errors
/// Out of memory.
pub(crate) fn run_event(
    alloc: Global,
    grid: &Grid,
    regions: &mut [Region],
) -> Result<Step, AllocError>
    requires { (state : CellStateData) × StandOnCells grid.now regions.old state }
    ensures { IfOk result (λ step. (state : CellStateData) → StandOnCells grid.now regions.old state →
        RunsEvent state regions.old step regions.new) }
{
    refresh(alloc, grid, regions)?;
    let home = least_due(regions);
    let step = step_at(alloc, regions, home)?;
    match step {
        Step::Ran(_) => {
            tell_all(alloc, grid, regions, home)?;
            Ok(step)
        }
        _ => Ok(step),
    }
}

// All regions take back what they did since the floor, and hear each other.
fn refresh(alloc: Global, grid: &Grid, regions: &mut [Region]) -> Result<(), AllocError>
    requires { (state : CellStateData) × StandOnCells grid.now regions.old state }
    ensures { OnOk result ((state : CellStateData) → StandOnCells grid.now regions.old state →
        Refreshed state regions.old regions.new) }
{
    rewind_all(alloc, regions)?;
    pass(alloc, grid, regions)?;
    Ok(())
}

// Each region takes back what it did since its floor.
fn rewind_all(alloc: Global, regions: &mut [Region]) -> Result<(), AllocError>
    ensures rewound { OnOk result (regions.new ≡ map at_floor regions.old) }
    ensures kept { OnOk result (AllKept regions.old) }
{
    for region in regions {
        let floor = region.floor();
        region.rewind(alloc, floor)?;
    }
    Ok(())
}

// The place of the first of the regions whose due stamp is the least.
fn least_due(regions: &[Region]) -> usize
    requires { 0 < length regions.now }
    ensures { IsNextHome regions.now result }
{
    let mut home = 0;
    let mut least = regions[0].due();
    for k in 1..regions.len() {
        let due = regions[k].due();
        if due < least {
            home = k;
            least = due;
        }
    }
    home
}

// The regions of a grid that are linked with the one at a place take in what it sent.
fn tell_all(
    alloc: Global,
    grid: &Grid,
    regions: &mut [Region],
    home: usize,
) -> Result<(), AllocError>
    requires stand { (state : CellStateData) × StandOn grid.now regions.old state }
    requires teller { home < length regions.old }
    ensures { OnOk result (OnEachState grid.now regions.old (λ state. AllTookIn state regions.old home regions.new)) }
{
    let number = regions[home].number();
    for hearer in 0..grid.regions() {
        take_in(alloc, grid, regions, hearer, number)?;
    }
    Ok(())
}

// One region takes in what another sent, if they are linked: it hears it, and steps if there is news.
fn take_in(
    alloc: Global,
    grid: &Grid,
    regions: &mut [Region],
    hearer: u32,
    from: u32,
) -> Result<(), AllocError>
    requires stand { (state : CellStateData) × StandOn grid.now regions.old state }
    requires hearer { IsRegion grid.now hearer }
    requires sender { IsRegion grid.now from }
    ensures { OnOk result (OnEachState grid.now regions.old (λ state. OneTookIn state regions.old regions.new from hearer)) }
{
    if !grid.linked(from, hearer) {
        return Ok(());
    }
    let hearing = hear_at(alloc, regions, hearer as usize, from as usize)?;
    match hearing {
        Hearing::Later(_) => {
            step_at(alloc, regions, hearer as usize)?;
            Ok(())
        }
        _ => Ok(()),
    }
}
