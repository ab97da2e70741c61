//! Committed states at the start, and calls on regions.

ghost use Rattle.std.specs.Prelude.{IfOk};
ghost use Rattle.cell_grid.specs.Grid.{IsAsked};
ghost use Rattle.commit_horizon.specs.Horizon.{AllStand};

use commit_horizon::Committed;
use region_core::Region;
use std::alloc::{AllocError, Global};
use test_scenes::{LONG, scene, scene_of};

/// The committed state with which the run of some disks begins in a box of 20 columns.
pub fn committed_of(
    alloc: Global,
    disks: &str,
    end: u32,
    regions: u32,
) -> Result<Option<Committed>, AllocError>
    requires { IsAsked regions }
{
    let text = scene(alloc, LONG, 8, end, disks)?;
    match scene_of(alloc, text.as_str())? {
        Some(scene) => Ok(Some(Committed::open(alloc, &scene, regions)?)),
        None => Ok(None),
    }
}

/// How often a region, by number, makes a step or hears another one.
pub type Call = (u32, usize, Option<usize>);

/// The regions of a committed state after some calls; they still stand on it.
pub fn regions_after(
    alloc: Global,
    committed: &Committed,
    calls: &[Call],
) -> Result<Vec<Region>, AllocError>
    ensures { IfOk result (λ regions. AllStand committed.now regions.items) }
{
    let mut regions = committed.open_all(alloc)?;
    make_calls(alloc, &mut regions, calls)?;
    committed.adopt_all(alloc, regions)
}

fn make_calls(alloc: Global, regions: &mut [Region], calls: &[Call]) -> Result<(), AllocError> {
    for &(times, place, from) in calls {
        for _ in 0..times {
            act(alloc, regions, place, from)?;
        }
    }
    Ok(())
}

// Lets the region at a place hear the one at another, or make a step if there is no other.
fn act(
    alloc: Global,
    regions: &mut [Region],
    place: usize,
    from: Option<usize>,
) -> Result<(), AllocError> {
    match from {
        None => step(alloc, regions.get_mut(place)),
        Some(from) => hear(alloc, regions, place, from),
    }
}

fn step(alloc: Global, region: Option<&mut Region>) -> Result<(), AllocError> {
    if let Some(region) = region {
        region.step(alloc)?;
    }
    Ok(())
}

fn hear(
    alloc: Global,
    regions: &mut [Region],
    place: usize,
    from: usize,
) -> Result<(), AllocError> {
    let Some(between) = regions.get_mut(place.min(from)..=place.max(from)) else {
        return Ok(());
    };
    match between {
        [hearer, .., sender] if place < from => hear_one(alloc, hearer, sender),
        [sender, .., hearer] => hear_one(alloc, hearer, sender),
        _ => Ok(()),
    }
}

fn hear_one(alloc: Global, hearer: &mut Region, sender: &Region) -> Result<(), AllocError> {
    hearer.hear(alloc, sender)?;
    Ok(())
}
