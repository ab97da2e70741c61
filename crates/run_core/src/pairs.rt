//! Steps and hearings of one of some regions, by their places.

ghost use Rattle.std.specs.Prelude.{◌≢◌, ◌<◌, length, IfOk, OnErr};
ghost use Rattle.run_core.specs.Turns.{Turns, Meets, SpendsOne};

use region_core::{Hearing, Region, Step};
use std::alloc::{AllocError, Global};

/// The region at a place makes a step.
///
/// # Errors
/// Out of memory: the region is spent.
pub(crate) fn step_at(alloc: Global, regions: &mut [Region], k: usize) -> Result<Step, AllocError>
    requires { k < length regions.old }
    ensures step { IfOk result (λ answer. Turns regions.old k answer regions.new) }
    ensures spent { OnErr result (SpendsOne regions.old k regions.new) }
{
    regions[k].step(alloc)
}

/// The region at a place hears the one at another.
///
/// # Errors
/// Out of memory: the one that hears is spent.
pub(crate) fn hear_at(
    alloc: Global,
    regions: &mut [Region],
    hearer: usize,
    from: usize,
) -> Result<Hearing, AllocError>
    requires hearer { hearer < length regions.old }
    requires sender { from < length regions.old }
    requires other { hearer ≢ from }
    ensures hears { IfOk result (λ answer. Meets regions.old hearer from answer regions.new) }
    ensures spent { OnErr result (SpendsOne regions.old hearer regions.new) }
{
    if hearer < from {
        let (front, back) = regions.split_at_mut(from);
        front[hearer].hear(alloc, &back[0])
    } else {
        let (front, back) = regions.split_at_mut(hearer);
        back[0].hear(alloc, &front[from])
    }
}
