//! Mirrored scenes, their runs and their reports, for those who read the definitions alone.

ghost use Rattle.mirrored_runs.specs.Mirror.{RunsMirror, MirrorsAreValid};
ghost use Rattle.mirrored_runs.specs.Reports.{ReportsMirror};

/// A scene mirrored left to right, or bottom to top, is valid if the scene is.
pub fn mirrors_are_valid()
    ensures { MirrorsAreValid }
{}

/// The run of a scene mirrored left to right, or bottom to top, is the scene's run, mirrored.
pub fn runs_mirror()
    ensures { RunsMirror }
{}

/// The report of a mirrored scene's run is the report of the scene's run, mirrored line by line.
pub fn reports_mirror()
    ensures { ReportsMirror }
{}
