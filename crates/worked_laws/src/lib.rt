//! Laws applied to small rows worked by hand, each that README names among them. If a law says less of its row, a proof
//! here fails.
#![tactic(auto)]

mod alike;
mod collisions;
mod conserved;
mod overlaps;
mod runs;
mod sums;
mod texts;

pub use alike::{
    far_disks_dont_meet, greater_limits_change_nothing, the_exchanged_glance_runs,
    the_exchanged_pair_runs_alike, the_pair_runs_alone, the_standing_disk_doesnt_matter,
};
pub use collisions::{events_come_when_due, events_turn_velocities, the_touch_is_at_tick_three};
pub use conserved::{energy_in_the_rows, momentum_in_the_rows};
pub use overlaps::{the_pair_never_overlaps, the_pair_never_overlaps_between};
pub use runs::{the_pair_has_one_run, the_pair_runs};
pub use sums::{
    the_bottom_takes_momentum, the_bottom_tells_the_virial, the_parts_of_the_glance_add_up,
    the_push_of_the_glance, the_squares_of_the_glance, the_sums_of_the_glance_never_stop,
    the_virial_of_the_glance,
};
pub use texts::{the_report_says_the_run, the_states_leave_out_the_hit, the_sums_are_of_two_ticks};
