//! Calls on a cell state that several tests make.

ghost use Rattle.std.specs.Prelude.{◌≡◌, IfOk};
ghost use Rattle.cell_grid.specs.Grid.{IsAsked, IsRegion};
ghost use Rattle.region_view.specs.Placing.{IsValidPlacing};
ghost use Rattle.region_view.specs.Views.{rows_in};

use cell_sequence::CellState;
use event_stamps::{Kind, Stamp};
use region_view::{Action, View, opening};
use std::alloc::{AllocError, Global};
use test_scenes::scene_of;

/// The cell state at the start of the scene of a text; none if the text is refused, or memory runs out.
pub fn opened(alloc: Global, text: &str, regions: u32) -> Option<CellState>
    requires { IsAsked regions }
{
    let scene = scene_of(alloc, text).ok()??;
    CellState::open(alloc, &scene, regions).ok()
}

/// A tick, a round, a kind, two numbers, and the new cell of a crossing.
pub type Step = (u64, u32, Kind, u32, u32, Option<u32>);

/// Runs the next event, and answers it; none if there is none, and if it fails at a limit.
pub fn run_next(state: &mut CellState) -> Option<Step>
    ensures rules { state.new.rules ≡ state.old.rules }
    ensures grid { state.new.grid ≡ state.old.grid }
{
    let Stamp {
        tick,
        round,
        kind,
        first,
        second,
    } = state.next()?;
    let cell = match state.run_next() {
        Ok(Action::Cross { cell, .. }) => Some(cell),
        Ok(Action::Hit(_)) => None,
        Err(_) => return None,
    };
    Some((tick, round, kind, first, second, cell))
}

/// What a region sees of a state.
pub fn view_of(alloc: Global, state: &CellState, region: u32) -> Result<View, AllocError>
    requires { IsRegion state.now.grid region }
    ensures { IfOk result (λ view. IsValidPlacing state.now.rules state.now.grid (rows_in view)) }
{
    opening(alloc, state.placed(), state.grid(), region)
}
