//! Moments by the clock, to measure short times between them.

use std::time::Clock;

// The microseconds since some moment; 0 if the clock can't be read.
pub(crate) fn micros<C: Clock>(clock: &C) -> u64 {
    match clock.monotonic() {
        Ok(time) => (time.as_micros() % (1 << 62)) as u64,
        Err(_) => 0,
    }
}
