//! Passes: all regions hear each other, until a pass takes nothing back.

ghost use Rattle.std.specs.Prelude.{◌≡◌, IfOk, OnOk};
ghost use Rattle.cell_grid.specs.Grid.{IsRegion};
ghost use Rattle.cell_sequence.specs.State.{CellStateData};
ghost use Rattle.run_core.specs.Passing.{StandOn, OnEachState, is_rewound, HeardOn, HearsOne, HearsUpTo, AllHearUpTo, AgreeAndStand};

use crate::pairs::hear_at;
use cell_grid::Grid;
use region_core::{Hearing, Region};
use std::alloc::{AllocError, Global};

/// Passes of the regions of a grid that stand on a state, up to the first that takes nothing back.
///
/// # Errors
/// Out of memory.
pub(crate) fn agree(alloc: Global, grid: &Grid, regions: &mut [Region]) -> Result<(), AllocError>
    requires { (state : CellStateData) × StandOn grid.now regions.old state }
    ensures { OnOk result (OnEachState grid.now regions.old (λ state. AgreeAndStand state regions.old regions.new)) }
{
    'passes: loop {
        let more = pass(alloc, grid, regions)?;
        if !more {
            return Ok(());
        }
    }
}

/// Each region hears each that is linked with it. The answer says whether any of them was rewound.
///
/// # Errors
/// Out of memory.
pub(crate) fn pass(alloc: Global, grid: &Grid, regions: &mut [Region]) -> Result<bool, AllocError>
    requires { (state : CellStateData) × StandOn grid.now regions.old state }
    ensures { IfOk result (λ more. HeardOn grid.now regions.old regions.new more (λ state. AllHearUpTo state state.grid.regions)) }
{
    let mut more = false;
    for hearer in 0..grid.regions() {
        more |= hear_all(alloc, grid, regions, hearer)?;
    }
    Ok(more)
}

// One region hears each that is linked with it. The answer says whether it was rewound.
fn hear_all(
    alloc: Global,
    grid: &Grid,
    regions: &mut [Region],
    hearer: u32,
) -> Result<bool, AllocError>
    requires stand { (state : CellStateData) × StandOn grid.now regions.old state }
    requires hearer { IsRegion grid.now hearer }
    ensures { IfOk result (λ more. HeardOn grid.now regions.old regions.new more (λ state. HearsUpTo state hearer state.grid.regions)) }
{
    let mut more = false;
    for from in 0..grid.regions() {
        more |= hear_one(alloc, grid, regions, hearer, from)?;
    }
    Ok(more)
}

// One region hears another, if they are linked; whether it was rewound.
fn hear_one(
    alloc: Global,
    grid: &Grid,
    regions: &mut [Region],
    hearer: u32,
    from: u32,
) -> Result<bool, AllocError>
    requires stand { (state : CellStateData) × StandOn grid.now regions.old state }
    requires hearer { IsRegion grid.now hearer }
    requires sender { IsRegion grid.now from }
    ensures { IfOk result (λ more. HeardOn grid.now regions.old regions.new more (λ state. HearsOne state hearer from)) }
{
    if !grid.linked(from, hearer) {
        return Ok(false);
    }
    let hearing = hear_at(alloc, regions, hearer as usize, from as usize)?;
    Ok(is_rewound(&hearing))
}

fn is_rewound(hearing: &Hearing) -> bool
    ensures { result ≡ is_rewound hearing.now }
{
    match hearing {
        Hearing::Rewound(_) => true,
        _ => false,
    }
}
