//! How long a pause takes.

use super::cases::expect;
use region_locks::Pause;
use std::io;
use std::time::Clock;

// These take some 140 milliseconds, and two if the divisions of a pause are left out.
const PAUSES: u32 = 2_000_000;

// The least time that they take, however quickly a processor divides.
const LEAST_MILLIS: u128 = 10;

// Whether each of `pauses` pauses went as it should.
fn wait_often(pauses: u32) -> bool {
    let mut pause = Pause::new();
    for _ in 0..pauses {
        if !pause.wait() {
            return false;
        }
    }
    true
}

// Whether pauses went as they should, and whether they took at least the least time.
fn timed_pauses<R: Clock>(rt: &R) -> io::Result<(bool, bool)> {
    let before = rt.monotonic()?;
    let went = wait_often(PAUSES);
    let after = rt.monotonic()?;
    let millis = after.saturating_sub(before).as_millis();
    Ok((went, millis >= LEAST_MILLIS))
}

#[test]
fn pauses_take_time(rt: HostRuntime) {
    let found = timed_pauses(&rt).ok();
    expect(&rt, PAUSES, found, Some((true, true)));
}
