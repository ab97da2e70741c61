//! Laws of events and their homes, and of rows that are set and told, for those who read the definitions
//! alone.

ghost use Rattle.region_view.specs.Laws.{EachEventHasOneHome, NativesAreHome, NativesActAlike, SetRowsArePutOver, SwapIsUndone, SettingKeepsValid, ActionsHaveRows, ActionsAreValid, MessagesAreFaithful, HomeSees, ToldSees};
ghost use Rattle.region_view.specs.Naming.{NativesStay};

/// Each event of placed disks has exactly one home.
pub fn each_event_has_one_home()
    ensures { EachEventHasOneHome }
{}

/// The native candidates of a region in its view are exactly the events of the state whose home it is.
pub fn natives_are_home()
    ensures { NativesAreHome }
{}

/// Such an event does the same in the view as in the state.
pub fn natives_act_alike()
    ensures { NativesActAlike }
{}

/// An event that names no changed disk is a native candidate if and only if it was one before.
pub fn natives_stay()
    ensures { NativesStay }
{}

/// Looking up after rows are set is looking up with the rows put over: a later row of a number wins.
pub fn set_rows_are_put_over()
    ensures { SetRowsArePutOver }
{}

/// Setting some rows is undone by setting what stood at their numbers before.
pub fn swap_is_undone()
    ensures { SwapIsUndone }
{}

/// Valid rows leave a valid view valid.
pub fn setting_keeps_valid()
    ensures { SettingKeepsValid }
{}

/// An action sets at most two rows, the lesser number first.
pub fn actions_have_rows()
    ensures { ActionsHaveRows }
{}

/// The effect of an event of valid placed disks sets valid rows, also if disks overlap.
pub fn actions_are_valid()
    ensures { ActionsAreValid }
{}

/// The rows of a message are in order, and they are valid if those of its action are.
pub fn messages_are_faithful()
    ensures { MessagesAreFaithful }
{}

/// A region that reaches all disks that an action changes sees how they are changed.
pub fn home_sees()
    ensures { HomeSees }
{}

/// A region that hears the message of an action sees the state after the action, and so does a region to which the
/// action has no message.
pub fn told_sees()
    ensures { ToldSees }
{}
