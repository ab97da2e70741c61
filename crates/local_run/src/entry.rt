//! What a region did.

ghost use Rattle.std.specs.Prelude.{◌≡◌};

use event_stamps::Stamp;
use region_view::{Action, Message};

/// The greatest number of entries in a log.
pub const MAX_ENTRIES: usize = 4096;

/// One move of a region, in its log of processed events.
#[derive(Clone, Copy, PartialEq, Eq)]
pub enum Entry {
    /// An event of its own columns, which it ran.
    Native(Action),
    /// A message that it took in.
    Heard {
        /// The number of the region that sent it.
        from: u32,
        /// The message.
        message: Message,
    },
}

impl Entry {
    ghost use Rattle.local_run.specs.Entries.{entry_stamp};

    /// Its stamp.
    pub fn stamp(&self) -> Stamp
        ensures { result ≡ entry_stamp self.now }
    {
        match self {
            Entry::Native(action) => action.stamp(),
            Entry::Heard { message, .. } => message.stamp,
        }
    }
}
