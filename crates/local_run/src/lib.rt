//! The local run of one region: its first view, what it heard, and its log, entry by entry; which moves are
//! right, what steps and hearings answer, and what is sent.
//!
//! Nothing here says how a run is kept.
#![tactic(auto)]

mod answers;
mod entry;
mod home;
mod laws;
mod moves;

pub use answers::{Differs, Hearing, Step};
pub use entry::{Entry, MAX_ENTRIES};
pub use home::{FARTHEST, Home};
pub use laws::{
    begun_still_stand, entries_were_due, hearings_have_one_answer, hearings_keep_right,
    logs_go_one_way, messages_are_in_turn, raising_keeps_right, rollbacks_keep_right,
    sent_may_be_heard, steps_go_one_way, steps_keep_right, views_are_valid, waits_if_not_taken,
    weaving_keeps_right,
};
pub use moves::Move;
