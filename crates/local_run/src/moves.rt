//! What a region may do next.

use crate::Step;
use region_view::{Action, Message};

/// What a region does next.
#[derive(Clone, Copy)]
pub enum Move {
    /// Nothing: it answers this.
    Answer(Step),
    /// It runs an event of its own columns.
    Run(Action),
    /// It takes in the first message of a region.
    TakeIn {
        /// The number of the region that sent it.
        from: u32,
        /// The message.
        message: Message,
    },
}
