//! What reports are made of, for those who read the definitions alone.

ghost use Rattle.collision_report.specs.Laws.{ReportsJoin, ReportsBegin, ReportsBreakOff, BlocksShowStates, BlocksStandOnce, TablesServe};
ghost use Rattle.collision_report.specs.ShortLines.{ReportsHaveShortLines};

/// What a reporter writes while it is told a run, and what it writes at the end, make the report of the run.
pub fn reports_join()
    ensures { ReportsJoin }
{}

/// If a run broke off, what a reporter wrote by then is a prefix of the report of the run.
pub fn reports_begin()
    ensures { ReportsBegin }
{}

/// What a reporter writes while it is told a run, together with a part of what it writes at the end, is a prefix of the
/// report of the run.
pub fn reports_break_off()
    ensures { ReportsBreakOff }
{}

/// A block that comes before the first change of its tick or a later one, and after all earlier changes, shows the
/// state of the run at its tick.
pub fn blocks_show_states()
    ensures { BlocksShowStates }
{}

/// In the report of a run there is one block for each multiple below the end and up to the last tick,
/// in ascending order.
pub fn blocks_stand_once()
    ensures { BlocksStandOnce }
{}

/// The table of a reporter that was told some changes of a run is one for the scene of the run.
pub fn tables_serve()
    ensures { TablesServe }
{}

/// The report of a run consists of lines of at most 128 bytes, each followed by a newline.
pub fn reports_have_short_lines()
    ensures { ReportsHaveShortLines }
{}
