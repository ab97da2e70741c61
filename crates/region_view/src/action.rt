//! Placed disks, and what a cell run does.

ghost use Rattle.std.specs.Prelude.{◌≡◌};
ghost use Rattle.region_view.specs.Acting.{stamp_of};

use event_rules::Change;
use event_stamps::Stamp;
use fixed_motion::Disk;

/// A disk with its recorded cell.
#[derive(Clone, Copy, Debug, PartialEq, Eq)]
pub struct Placed {
    /// Its record.
    pub disk: Disk,
    /// The number of its recorded cell.
    pub cell: u32,
}

/// What one event of a cell run did.
#[derive(Clone, Copy, Debug, PartialEq, Eq)]
pub enum Action {
    /// The disk of the stamp left its recorded cell.
    Cross {
        /// The stamp of the crossing.
        stamp: Stamp,
        /// The number of its recorded cell from then on.
        cell: u32,
    },
    /// A collision.
    Hit(Change),
}

impl Action {
    /// The stamp of the event.
    pub fn stamp(&self) -> Stamp
        ensures { result ≡ stamp_of self.now }
    {
        match self {
            Action::Cross { stamp, .. } => *stamp,
            Action::Hit(change) => change.stamp,
        }
    }
}
