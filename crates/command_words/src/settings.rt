//! What the words ask for.

/// What the program does.
#[derive(Clone, Copy, Debug, PartialEq, Eq)]
pub enum Mode {
    /// Runs the scene over regions, and writes the report.
    Run,
    /// Runs the scene by the reference engine, and writes the report.
    Plain,
    /// Writes the canonical text of the scene.
    Check,
    /// Makes a scene instead of reading one, runs it over regions, and writes the report.
    Load,
    /// Runs the scene over regions up to a tick, and writes what is left of it as a scene.
    Cut,
    /// Runs the scene over regions, and compares the report with a claimed one, which follows the scene.
    Audit,
}

/// The form of what is written.
#[derive(Clone, Copy, Debug, PartialEq, Eq)]
pub enum OutputFormat {
    /// A line for each collision, and then the end of the report with all disks.
    Lines,
    /// The end of the report without the disks.
    Summary,
    /// What `Lines` has, without the lines of collisions.
    States,
    /// Sums over the collisions, and then the end of the report without the disks.
    Sums,
}

/// Where the regions lie while workers run them, between two commits.
#[derive(Clone, Copy, Debug, PartialEq, Eq)]
pub enum BurstKind {
    /// Each under a lock of its own; each worker has regions of its own.
    Locks,
    /// In the slots of one table; each worker takes any region that is at home.
    Table,
}

/// What the words ask for; what they don't name has its default.
#[derive(Clone, Copy, Debug, PartialEq, Eq)]
pub struct Settings {
    /// What is done, `--mode`; [`Mode::Run`] by default.
    pub mode: Mode,
    /// The form of what is written, `--format`; [`OutputFormat::Lines`] by default.
    pub format: OutputFormat,
    /// The number of regions that are asked for, `--regions`, 1 to 64; 4 by default.
    pub regions: u32,
    /// The number of workers, `--workers`, 1 to 64; 2 by default.
    pub workers: u32,
    /// The number of turns that a worker makes between two commits, `--turns`, 1 to 65,536; 16 by default.
    pub turns: u32,
    /// The number of steps that a region makes in a turn, `--steps`, 1 to 4,096; 64 by default.
    pub steps: u32,
    /// The number of the scene that is made, `--number`; 1 by default.
    pub number: u64,
    /// The number of its disks, `--disks`, 0 to 65,536; 100 by default.
    pub disks: u32,
    /// The tick at which a run is cut, `--at`, 0 to 1,099,511,627,776; 0 by default.
    pub at: u64,
    /// How far from the sides of the box collisions are summed, in units of length, `--margin`, 0 to 1,073,741,824; 0 by
    /// default.
    pub margin: u32,
    /// Where the regions lie while workers run them, `--burst`; [`BurstKind::Locks`] by default.
    pub burst: BurstKind,
}

/// Why there are no settings.
#[derive(Clone, Copy, Debug, PartialEq, Eq)]
pub enum WordsFault {
    /// The words have no settings.
    BadWords,
    /// Out of memory.
    NoMemory,
}
