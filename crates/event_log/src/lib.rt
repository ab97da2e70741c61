//! The log of what a region did: each entry, and the rows that lead back over it, in small records.
//!
//! It is the queue of processed events and the state queue of Time Warp in one: an entry and the rows that undo it are
//! side by side.
//!
//! - **A contract sees** an [`EventLog`] as a list of entries, each an action or a message with the rows that were set in
//!   it before. Heads, records and where they lie are private.
//! - **Proved**: an action is logged and done in a view, or neither; taken back, the view is as it was
//!   ([`EventLog::act`], [`EventLog::take_back`]). The view before the whole log is that after it with the rows set that
//!   lead back ([`base_is_undone`]), so it needn't be kept. The first entry that sets a disk is found ([`firsts_are_found`]).
//! - **Only tested**: that a full log, of 4,096 entries, is told and not overrun, beside what clauses say of it.
//! - **Cost**: some 115 bytes an entry. The log is the greater part of what a region touches, so bursts are kept short
//!   where one region is alone.
#![tactic(auto)]

mod beside;
mod heads;
mod laws;
mod narrow;
mod nearness;
mod processed;
mod reading;
mod running;

pub use laws::{
    base_is_undone, base_views_are_found, changes_lead_back, firsts_are_found, sparing_is_aside,
    woven_leads_back,
};
pub use processed::EventLog;
pub use running::HitRows;
