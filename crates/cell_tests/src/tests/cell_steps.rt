//! The first steps of cell runs.

use super::helpers::{Step, opened, run_next};
use super::rows::expect;
use cell_sequence::CellState;
use event_stamps::Kind;
use std::alloc::Global;
use test_scenes::SLOW_CROSSING;

// A box of 4 columns; the cells of the disks are adjacent only from the tick of their contact on.
const COMING_NEAR: &str = "width = 32\n\
    height = 8\n\
    diameter = 2\n\
    speed_limit = 3\n\
    round_limit = 8\n\
    end = 8\n\
    disks = [[1, 5, 2, 0], [22, 5, -3, 0]]\n";

// A scene, the number of a step of its cell run, from 0 on, and the step.
const STEPS: &[(&str, u32, Step)] = &[
    (SLOW_CROSSING, 0, (1, 0, Kind::Wall, 1, 3, None)),
    (SLOW_CROSSING, 1, (3, 0, Kind::Wall, 1, 2, None)),
    (SLOW_CROSSING, 2, (4, 0, Kind::Cross, 0, 0, Some(5))),
    (COMING_NEAR, 0, (3, 0, Kind::Cross, 1, 0, Some(1))),
    (COMING_NEAR, 1, (3, 0, Kind::Pair, 0, 1, None)),
];

#[test]
fn runs_one_event_after_the_other(rt: HostRuntime) {
    for (row, &(text, number, want)) in STEPS.iter().enumerate() {
        expect(&rt, row, step_of(rt.alloc(), text, number), Some(want));
    }
}

// None if the scene is refused, or has no such step.
fn step_of(alloc: Global, text: &str, number: u32) -> Option<Step> {
    let mut state = opened(alloc, text, 1)?;
    step_after(&mut state, number)
}

// The step after `others` other ones.
fn step_after(state: &mut CellState, others: u32) -> Option<Step> {
    for _ in 0..others {
        run_next(state)?;
    }
    run_next(state)
}
