//! Laws of cell runs, for those who read the definitions alone.

ghost use Rattle.cell_sequence.specs.Laws.{OneCellRun, CellStepsBegin, HitsAreChanges, HitsAreSteps, ActionsRise, EachSceneCellRuns, CellStatesAreOrderly, StepsJoin, RunsJoin, HitsJoin, NextActionsAreSeen};

/// A cell state has one run.
pub fn one_cell_run()
    ensures { OneCellRun }
{}

/// Running the next actions one by one gives a beginning of the cell run.
pub fn cell_steps_begin()
    ensures { CellStepsBegin }
{}

/// The collisions of the cell run of a scene are the changes of its run over all pairs, in order, and both runs have
/// the same outcome.
pub fn hits_are_changes()
    ensures { HitsAreChanges }
{}

/// The collisions among the first actions of the cell run of a scene are the first changes of its run over all
/// pairs, and lead to the same records.
pub fn hits_are_steps()
    ensures { HitsAreSteps }
{}

/// The stamps of a cell run rise strictly, after the first stamp of all and before the end stamp. The stamps of
/// crossings are among them.
pub fn actions_rise()
    ensures { ActionsRise }
{}

/// Each scene has a cell run, which ends.
pub fn each_scene_cell_runs()
    ensures { EachSceneCellRuns }
{}

/// The rows of a cell state are valid, its events come after its last action and before the end, a crossing
/// fails no limit and leads to an adjacent cell, and what an action touches stays in the reach of its home.
pub fn cell_states_are_orderly()
    ensures { CellStatesAreOrderly }
{}

/// If some actions lead from one state to a second, and further actions from there to a third, then all of them lead
/// from the first to the third.
pub fn steps_join()
    ensures { StepsJoin }
{}

/// If some actions lead to a state, then they and a run from that state are a run from where they began.
pub fn runs_join()
    ensures { RunsJoin }
{}

/// The collisions of two lists of actions, one after the other, are those of the first and then those of the
/// second.
pub fn hits_join()
    ensures { HitsJoin }
{}

/// The next action of a cell state leads to another cell state, whose events come after it. Its home sees by itself how
/// the disks are changed, and the other regions see it by the messages that it sends.
pub fn next_actions_are_seen()
    ensures { NextActionsAreSeen }
{}
