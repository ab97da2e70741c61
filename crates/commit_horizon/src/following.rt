//! Going on by the actions that were made final.

ghost use Rattle.std.specs.Prelude.{◌≡◌, List, IfOk, OnOk};
ghost use Rattle.region_view.specs.declared.action.Placed.{Placed};
ghost use Rattle.cell_sequence.specs.Run.{CellSteps};
ghost use Rattle.cell_sequence.specs.State.{followed_by};

use crate::untold::Untold;
use cell_sequence::CellState;
use region_view::Action;
use std::alloc::{AllocError, Global};

/// Goes on by all actions that are untold, which the cell run does next, and answers them.
///
/// # Errors
/// Out of memory.
pub(crate) fn follow_all(
    state: &mut CellState,
    alloc: Global,
    mut untold: Untold,
) -> Result<Vec<Action>, AllocError>
    requires { (later : List Placed) × CellSteps state.old.rules state.old.grid state.old.placed untold later }
    ensures actions { IfOk result (λ actions. actions.items ≡ untold) }
    ensures state { OnOk result (state.new ≡ followed_by state.old untold) }
{
    let mut actions = Vec::new(alloc);
    'actions: while let Some(action) = untold.take_next() {
        state.follow(&action);
        actions.push(action)?;
    }
    Ok(actions)
}
