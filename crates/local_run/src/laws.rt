//! Laws of local runs, for those who read the definitions alone.

ghost use Rattle.local_run.specs.Laws.{EntriesWereDue, WaitsIfNotTaken, MessagesAreInTurn, LogsGoOneWay, StepsGoOneWay, HearingsHaveOneAnswer, StepsKeepRight, HearingsKeepRight, RollbacksKeepRight, ViewsAreValid, SentMayBeHeard, RaisingKeepsRight};
ghost use Rattle.local_run.specs.Weaving.{WeavingKeepsRight};
ghost use Rattle.local_run.specs.Begun.{BegunStillStand};

/// Each entry of a right log was due at its place: no native candidate and no message that waited there came before it.
pub fn entries_were_due()
    ensures { EntriesWereDue }
{}

/// The views along a right log are valid, also if they are mistaken: the numbers are those of disks, the records are
/// valid, and the cells are those of the grid.
pub fn views_are_valid()
    ensures { ViewsAreValid }
{}

/// A message waits after some entries of a right log if and only if it was heard and isn't among them. An entry that
/// takes away the first message of a trail names that message.
pub fn waits_if_not_taken()
    ensures { WaitsIfNotTaken }
{}

/// A message that waits comes after the last entry, and not before the floor: only an event of the region's own columns
/// can be late.
pub fn messages_are_in_turn()
    ensures { MessagesAreInTurn }
{}

/// A region has one way to go on: of two right logs over the same view, with the same messages heard, the longer begins
/// with the other.
pub fn logs_go_one_way()
    ensures { LogsGoOneWay }
{}

/// A step has one answer, and leaves one local run.
pub fn steps_go_one_way()
    ensures { StepsGoOneWay }
{}

/// A hearing has one answer.
pub fn hearings_have_one_answer()
    ensures { HearingsHaveOneAnswer }
{}

/// A step leaves a right local run right, whatever it answers.
pub fn steps_keep_right()
    ensures { StepsKeepRight }
{}

/// So does a hearing of messages that the sender may send.
pub fn hearings_keep_right()
    ensures { HearingsKeepRight }
{}

/// A rollback leaves a right local run right, and withdraws exactly what was sent from its stamp on.
pub fn rollbacks_keep_right()
    ensures { RollbacksKeepRight }
{}

/// A linked region of the same rules, grid and floor may hear what a region sends to it.
pub fn sent_may_be_heard()
    ensures { SentMayBeHeard }
{}

/// Suppose that nothing that waits is before a later floor. Then a right local run from that floor on is right, has the
/// same view and the same messages waiting, and sends the messages that it sent from there on.
pub fn raising_keeps_right()
    ensures { RaisingKeepsRight }
{}

/// A message that comes late may be taken in at its place: if the entries after it have nothing to do with its disks,
/// the log stays right with it in the middle, leads to the same view with the rows of the message set, and sends the
/// same messages.
pub fn weaving_keeps_right()
    ensures { WeavingKeepsRight }
{}

/// If a region stands on a state, each one that begins as it did stands on it too, unless it is spent.
pub fn begun_still_stand()
    ensures { BegunStillStand }
{}
