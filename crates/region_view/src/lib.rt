//! Disks with their recorded cells, the events that they may have next, and what a region sees of them.
//!
//! A region runs the events whose first disk is in its own columns. What it sees reaches one column further,
//! so it sees all disks of these events.
//!
//! - **A contract sees** a [`View`] as a list of rows by disk number, each a disk with its cell, or nothing for a disk out
//!   of sight. An [`Action`] is an event or a crossing, with what it does; a [`Message`] is what another region is told
//!   of one.
//! - **Proved**: each event has one home, which sees it, and in which it does the same as in the state of the whole
//!   ([`each_event_has_one_home`], [`natives_act_alike`]). Who is told of an action sees the state after it, too
//!   ([`told_sees`]). What a disk does by itself, and two in adjacent cells, is found exactly.
//! - **Not proved**: what a row costs. It is kept in 32 bytes ([`Compact`]), into which each valid disk fits, so a view of
//!   65,536 disks has 2 MiB, and setting a row writes half a line of a cache.
#![tactic(auto)]

mod action;
mod compact;
mod events;
mod laws;
mod messages;
mod rows;
mod slots;
mod view;

pub use action::{Action, Placed};
pub use compact::{Compact, is_small};
pub use events::{act, crossed_cell, first_alone, near_event};
pub use laws::{
    actions_are_valid, actions_have_rows, each_event_has_one_home, home_sees,
    messages_are_faithful, natives_act_alike, natives_are_home, natives_stay,
    set_rows_are_put_over, setting_keeps_valid, swap_is_undone, told_sees,
};
pub use messages::{message_for, rows_of};
pub use rows::{Message, Rows};
pub use view::{View, opening};
