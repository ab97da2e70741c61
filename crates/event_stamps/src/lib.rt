//! Stamps, the keys that order the events of a run.
//!
//! A stamp is what the literature on event-driven simulation calls an event key: a virtual time
//! that orders all events totally (Jefferson, Virtual Time, 1985).
#![tactic(auto)]

ghost use Rattle.std.specs.Prelude.{◌≡◌, ◌↔◌, IsTrue};
ghost use Rattle.event_stamps.specs.Order.{Before, stamp_cmp, first_stamp, end_stamp};
ghost use Rattle.event_stamps.specs.Least.{earlier_of};

use std::cmp::Ordering;

mod laws;

pub use laws::{
    cross_before, least_or_none, none_before_first, order_is_exact, order_is_total, ranks_agree,
};

/// What happens at an event; the order of the variants is that of events of one tick and round.
#[derive(Clone, Copy, Debug, PartialEq, Eq, PartialOrd, Ord)]
pub enum Kind {
    /// A disk leaves its recorded cell.
    Cross,
    /// A disk hits a side of the box.
    Wall,
    /// Two disks hit each other.
    Pair,
}

/// The key of an event. Stamps are compared part by part, in the order of the fields.
#[derive(Clone, Copy, Debug, PartialEq, Eq, PartialOrd, Ord)]
pub struct Stamp {
    /// The tick of the event, at most 2^40.
    pub tick: u64,
    /// How many causes it has within its tick, at most 65,536.
    pub round: u32,
    /// What happens.
    pub kind: Kind,
    /// The number of the disk; of two disks, the lower.
    pub first: u32,
    /// 0 for a crossing, the side of the box for a wall, and the higher disk for a pair.
    pub second: u32,
}

impl Stamp {
    /// The least stamp that an event of any kind can have.
    pub fn first_of_all() -> Stamp
        ensures { result ≡ first_stamp }
    {
        Stamp {
            tick: 0,
            round: 0,
            kind: Kind::Cross,
            first: 0,
            second: 0,
        }
    }

    /// The stamp at which a run with the last tick `end` ends: all its events are before it.
    pub fn end_of(end: u64) -> Stamp
        ensures { result ≡ end_stamp end }
    {
        Stamp {
            tick: end,
            ..Stamp::first_of_all()
        }
    }
}

/// How two stamps are ordered.
pub fn compare(a: &Stamp, b: &Stamp) -> Ordering
    ensures { result ≡ stamp_cmp a.now b.now }
{
    a.cmp(b)
}

/// Whether a stamp is before another.
pub fn is_before(a: &Stamp, b: &Stamp) -> bool
    ensures { IsTrue result ↔ Before a.now b.now }
{
    compare(a, b) == Ordering::Less
}

/// The earlier of two stamps that are both there; else the one that is there, if any.
pub fn earlier(a: Option<Stamp>, b: Option<Stamp>) -> Option<Stamp>
    ensures { result ≡ earlier_of a b }
{
    match (a, b) {
        (None, b) => b,
        (a, None) => a,
        (Some(s), Some(t)) => Some(if t < s { t } else { s }),
    }
}
