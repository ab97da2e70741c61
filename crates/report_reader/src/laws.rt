//! A report says its run, for those who read the definitions alone.

ghost use Rattle.report_reader.specs.Reader.{ReportsReadBack, ReportsSayRuns};
ghost use Rattle.report_reader.specs.Parts.{PartsReadAsOne};

/// The stamps and velocities of a run, and how it ends, are read back from the text of its report.
pub fn reports_read_back()
    ensures { ReportsReadBack }
{}

/// Two runs with the same report, whatever their scenes are, have the same stamps and velocities and the same end.
pub fn reports_say_runs()
    ensures { ReportsSayRuns }
{}

/// Read the report of a run up to a tick, and then that of the rest with its ticks raised: that gives what the report
/// of the whole run gives.
pub fn parts_read_as_one()
    ensures { PartsReadAsOne }
{}
