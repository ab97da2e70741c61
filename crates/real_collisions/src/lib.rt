//! The events of a run against those of real disks: when each comes, and how near its impulse is to the exact one.
#![tactic(auto)]

mod laws;

pub use laws::{
    contact_ticks_are_real, events_are_elastic, events_are_elastic_at_the_touch, events_are_real,
    exact_impulses_are_elastic, failing_events_are_real, flight_keeps_turning,
    impulses_are_elastic, impulses_are_near_until_the_touch,
};
