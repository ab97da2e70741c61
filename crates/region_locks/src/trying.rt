//! Locks that are tried, and not waited for.

use crate::pause::Pause;
use std::sync::{Mutex, MutexGuard};

// How often a lock is tried: for some 40 microseconds. A lock is mostly let go sooner. But if other programs want the
// processors, the holder of the lock may have none.
const LOOKS: u32 = 600;

/// Takes a lock, if it is free at one of some looks.
pub fn try_often<T>(lock: &Mutex<T>) -> Option<MutexGuard<'_, T>> {
    let mut pause = Pause::new();
    for _ in 0..LOOKS {
        if let Some(held) = lock.try_lock() {
            return Some(held);
        }
        if !pause.wait() {
            break;
        }
    }
    None
}
