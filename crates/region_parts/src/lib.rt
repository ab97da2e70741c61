//! Parts of a region that can be described without the others: its input queue, the columns that no other region sees,
//! the messages that it sends for an action, and what keeps a late message from its place in a log.
//!
//! Nothing here has to do with a region that runs: `region_core` puts these parts together.
#![tactic(auto)]

mod aside;
mod border;
mod inbox;
mod place;
mod sending;
mod trails;

pub use aside::first_in_way;
pub use border::Border;
pub use inbox::Inbox;
pub use place::Place;
pub use sending::{send, send_crossing, send_hit};
pub use trails::{cut_from, drop_before, empty_trails};
