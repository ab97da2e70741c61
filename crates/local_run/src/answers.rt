//! What the calls of a region answer.

use event_rules::Limit;
use event_stamps::Stamp;

/// The answer of one step.
#[derive(Clone, Copy, Debug, PartialEq, Eq)]
pub enum Step {
    /// The event with this stamp was run.
    Ran(Stamp),
    /// The message with this stamp was taken in.
    Heard(Stamp),
    /// Nothing is due.
    Idle,
    /// What is due is before the floor, or not after the last entry.
    Past {
        /// The stamp that is due.
        due: Stamp,
        /// The stamp of the last entry; if the log is empty, the floor.
        clock: Stamp,
    },
    /// Two or more of the events and messages have the stamp that is due.
    Tied(Stamp),
    /// The event that is due fails this limit.
    Halted(Limit),
    /// The log is full.
    Held,
    /// The region is spent.
    Spent,
}

/// The answer of one hearing.
#[derive(Clone, Copy, Debug, PartialEq, Eq)]
pub enum Hearing {
    /// Nothing is new.
    Same,
    /// From this stamp on something is new, and the entries from it on are taken back.
    Rewound(Stamp),
    /// From this stamp on something is new; it is after the last entry.
    Later(Stamp),
    /// The two can't hear each other: one is spent, they have other rules, grids or floors, or they aren't linked.
    Apart,
}

/// The first thing in which a region doesn't stand on a cell state.
#[derive(Clone, Copy, Debug, PartialEq, Eq)]
pub enum Differs {
    /// It is spent.
    Spent,
    /// It has another number.
    Number {
        /// The number that was asked for.
        kept: u32,
        /// The number that the region has.
        given: u32,
    },
    /// It has other rules.
    Rules,
    /// It has another grid.
    Grid,
    /// It has another floor.
    Floor {
        /// The floor of the state.
        kept: Stamp,
        /// The floor of the region.
        given: Stamp,
    },
    /// It begins with another row of this disk, the least such number.
    Row(u32),
}
