//! How the state on which regions stand goes on, while the committed actions are left to be told.

ghost use Rattle.std.specs.Prelude.{◌≡◌, [], IfOk};
ghost use Rattle.cell_sequence.specs.State.{CellStateData};
ghost use Rattle.commit_horizon.specs.Horizon.{runs_of, AllStand, AllKept};
ghost use Rattle.run_core.specs.AdvancesUntold.{AdvanceMade, PartsMade, EventMade, answer_with};
ghost use Rattle.run_core.specs.Simulates.{AdvancesBy};
ghost use Rattle.run_core.specs.Standing.{ComesOf, OnEachFrom, GoesOnTo};

use crate::answers::AdvanceKind;
use crate::one_event::run_event;
use crate::one_state::Standing;
use crate::passes::agree;
use cell_sequence::CellState;
use commit_horizon::{Committed, Final, Untold, commit_cutting};
use event_stamps::Stamp;
use region_core::{Region, Step};
use std::alloc::{AllocError, Global};

/// Makes final what [`advance`](crate::advance) makes final, of regions that stand on a state to which the run goes on
/// from an earlier one by actions of which the last has the stamp `last`. The batch is untold then, and the rows of the
/// state stay with the regions.
///
/// # Errors
/// Out of memory.
pub(crate) fn advance_untold(
    alloc: Global,
    earlier: Committed,
    last: Option<Stamp>,
    mut regions: Vec<Region>,
    untold: &mut Untold,
) -> Result<(AdvanceKind, Standing), AllocError>
    requires stand { (state : CellStateData) × (floor : Stamp) × GoesOnTo earlier last floor regions.items state }
    requires told { untold.old ≡ [] }
    ensures { IfOk result (λ advanced. (state : CellStateData) (floor : Stamp) →
        GoesOnTo earlier last floor regions.items state →
        AdvancesBy state (runs_of regions.items) (answer_with advanced.0 untold.new) advanced.1) }
{
    let (kind, made) = make_final(alloc, earlier.state(), &mut regions, untold)?;
    let standing = Standing::after(earlier, made.last.or(last), made.floor, regions);
    Ok((kind, standing))
}

/// The same for the regions themselves, which stand on a state with the rules and the grid of an earlier one.
///
/// # Errors
/// Out of memory.
pub(crate) fn make_final(
    alloc: Global,
    earlier: &CellState,
    regions: &mut [Region],
    untold: &mut Untold,
) -> Result<(AdvanceKind, Final), AllocError>
    requires stand { (state : CellStateData) × ComesOf earlier.now state.floor regions.old state }
    requires told { untold.old ≡ [] }
    ensures { IfOk result (λ advanced. OnEachFrom earlier.now regions.old (λ state.
        AdvanceMade state regions.old advanced.0 untold.new advanced.1 regions.new)) }
{
    let at_once = commit_cutting(alloc, earlier.rules(), regions, untold)?;
    if at_once.last.is_some() {
        return Ok((AdvanceKind::Raised, at_once));
    }
    agree_and_make(alloc, earlier, regions, untold)
}

// The same for regions of which nothing is final as they are: they agree first.
fn agree_and_make(
    alloc: Global,
    earlier: &CellState,
    regions: &mut [Region],
    untold: &mut Untold,
) -> Result<(AdvanceKind, Final), AllocError>
    requires stand { (state : CellStateData) × ComesOf earlier.now state.floor regions.old state }
    requires told { untold.old ≡ [] }
    ensures { IfOk result (λ advanced. OnEachFrom earlier.now regions.old (λ state.
        PartsMade state regions.old advanced.0 untold.new advanced.1 regions.new)) }
{
    none_is_spent(regions);
    agree(alloc, earlier.grid(), regions)?;
    let made = commit_cutting(alloc, earlier.rules(), regions, untold)?;
    if made.last.is_some() {
        return Ok((AdvanceKind::Raised, made));
    }
    make_event(alloc, earlier, made.floor, regions, untold)
}

// Asserts that none of some regions is spent, which stand on a state.
fn none_is_spent(regions: &[Region])
    requires { (state : CellStateData) × AllStand state regions.now }
    ensures { AllKept regions.now }
{
    for region in regions {
        prove!(!region.is_spent());
    }
}

// Runs the next event of the state on which regions stand, and commits it. The state has the rules and the grid of an
// earlier one.
fn make_event(
    alloc: Global,
    earlier: &CellState,
    floor: Stamp,
    regions: &mut [Region],
    untold: &mut Untold,
) -> Result<(AdvanceKind, Final), AllocError>
    requires stand { (state : CellStateData) × ComesOf earlier.now floor regions.old state }
    requires told { untold.old ≡ [] }
    ensures { IfOk result (λ advanced. (state : CellStateData) → ComesOf earlier.now floor regions.old state →
        EventMade state regions.old advanced.0 untold.new advanced.1 regions.new) }
{
    let step = run_event(alloc, earlier.grid(), regions)?;
    match step {
        Step::Ran(_) => {
            let made = commit_cutting(alloc, earlier.rules(), regions, untold)?;
            Ok((AdvanceKind::Raised, made))
        }
        Step::Halted(limit) => Ok((AdvanceKind::Limit(limit), Final { last: None, floor })),
        _ => Ok((AdvanceKind::End, Final { last: None, floor })),
    }
}
