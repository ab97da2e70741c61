//! Letters to workers.

use region_locks::try_often;
use std::alloc::{AllocError, Global};
use std::sync::Mutex;

/// Room for a letter to each worker, by number. Locks are only tried: if somebody else is just there, a letter isn't
/// left, or isn't found.
#[derive(Drop)]
pub(crate) struct Letters<T> {
    rooms: Vec<Mutex<Option<T>>>,
}

impl<T: Drop> Letters<T> {
    /// No letters yet, to this many workers.
    ///
    /// # Errors
    /// Out of memory.
    pub(crate) fn new(alloc: Global, workers: u32) -> Result<Letters<T>, AllocError> {
        let mut rooms = Vec::with_capacity(alloc, workers as usize)?;
        for _ in 0..workers {
            rooms.push(Mutex::new(None))?;
        }
        Ok(Letters { rooms })
    }

    /// To how many workers there may be letters.
    pub(crate) fn workers(&self) -> usize {
        self.rooms.len()
    }

    /// Leaves a letter, in place of one that wasn't taken.
    pub(crate) fn put(&self, worker: u32, letter: T) {
        let Some(room) = self.rooms.get(worker as usize) else {
            return;
        };
        if let Some(mut held) = try_often(room) {
            *held = Some(letter);
        }
    }

    /// Takes the letter to a worker.
    pub(crate) fn take(&self, worker: u32) -> Option<T> {
        let room = self.rooms.get(worker as usize)?;
        let mut held = try_often(room)?;
        held.take()
    }
}
