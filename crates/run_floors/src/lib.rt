//! The states of one cell run, told apart by their floors.
#![tactic(auto)]

ghost use Rattle.run_floors.specs.Laws.{OneStateAtAFloor, SameFloorBeginsAlike, FloorsAloneDontTell};

/// Two states of one cell run with the same floor, which comes after the last action of each, are the same.
pub fn one_state_at_a_floor()
    ensures { OneStateAtAFloor }
{}

/// Two regions of one number that stand on such states, and have the same floor, begin alike.
pub fn same_floor_begins_alike()
    ensures { SameFloorBeginsAlike }
{}

/// If the floor may be the last action's stamp, two states of one run have it: before the action and after it.
pub fn floors_alone_dont_tell()
    ensures { FloorsAloneDontTell }
{}
