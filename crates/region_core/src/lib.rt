//! One region's run ahead of the others: it steps, hears what its neighbours send, and rolls back if it was wrong.
//!
//! A region is a logical process with a local virtual time, an input queue, an output queue and saved states
//! (Jefferson, Virtual Time, 1985).
//!
//! - **A contract sees** a [`Region`] as a local run: its number, rules, grid and floor, the view at the floor, what it
//!   heard, and its log; or as spent, if memory ran out. The queue, the newest view, trails and marks are private.
//! - **Proved**: a region is always a right local run, whatever it is told, in any order, by whichever thread
//!   (`IsKept`). A step makes the one next move; a hearing keeps what agrees and takes the rest back; a late message is
//!   woven in only where that is as if it had come in time. A [`Burst`] owes that it gives each region back at its place.
//! - **Not claimed**: that a region runs at all, how far, and what it hears in a burst. A commit believes only what it
//!   finds ([`Region::due`], [`Region::sent`], [`Region::heard`]).
//! - **Only tested**: that a step is heard by a neighbour, and that late messages are mostly woven in.
//! - **Where to begin**: `region.rt` has the type and its public calls, `moves.rt` a step, `region/hearing.rt` hearing,
//!   `rollback.rt` what takes entries back, `weaving.rt` late messages.
#![tactic(auto)]

mod appending;
mod beside;
mod burst;
mod gate;
mod letting_go;
mod live;
mod moves;
mod region;
mod rollback;
mod running_events;
mod running_on;
mod taking_over;
mod weaving;

pub use beside::{Beside, Idle};
pub use burst::Burst;
pub use gate::{Gate, OpenGate};
pub use local_run::{
    Differs, Entry, Hearing, Home, MAX_ENTRIES, Step, entries_were_due, hearings_have_one_answer,
    hearings_keep_right, logs_go_one_way, messages_are_in_turn, raising_keeps_right,
    rollbacks_keep_right, sent_may_be_heard, steps_go_one_way, steps_keep_right, views_are_valid,
    waits_if_not_taken, weaving_keeps_right,
};
pub use region::Region;
