//! The gate that workers pass.

use std::thread::yield_now;

/// Is called by each worker before each of its turns, so that the caller who runs workers can count their turns, or
/// hold one up.
pub trait Gate: Sync {
    /// A worker is about to make a turn of the present burst, both counted from 0 on.
    fn turn(&self, worker: u32, turn: u32);

    /// A worker, which holds no region, may be held up here for a moment: the others do its work. It may come
    /// here any number of times in a turn.
    fn pause(&self, _worker: u32) {}

    /// A worker, which holds no region, has nothing to do until others come further. It may rest here for a moment, any
    /// number of times.
    fn rest(&self, _worker: u32) {
        yield_now();
    }
}

/// A gate that lets all pass.
#[derive(Clone, Copy)]
pub struct OpenGate;

impl Gate for OpenGate {
    fn turn(&self, _worker: u32, _turn: u32) {}
}
