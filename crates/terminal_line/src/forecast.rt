//! How much longer a run takes.

// The least age, in microseconds, of the later of two marks before it becomes the earlier one.
const HALF_MINUTE: u64 = 30_000_000;

/// How much longer a run takes, if it goes on as in the last minute.
#[derive(Drop)]
pub(crate) struct Forecast {
    // The mark from which on the run is measured: half a minute to a minute ago, once the run has gone on for so long.
    from: Milestone,
    // The mark that takes its place.
    next: Milestone,
}

// When a run came to a tick.
#[derive(Clone, Copy)]
struct Milestone {
    micros: u64,
    tick: u64,
}

impl Forecast {
    /// The forecast of a run that begins now.
    pub(crate) fn new(now: u64) -> Forecast {
        let begin = Milestone {
            micros: now,
            tick: 0,
        };
        Forecast {
            from: begin,
            next: begin,
        }
    }

    /// How many seconds a run still takes to its end, if it is at this tick now; none if it didn't come further lately.
    pub(crate) fn seconds_left(&mut self, now: u64, tick: u64, end: u64) -> Option<u64> {
        if now.saturating_sub(self.next.micros) >= HALF_MINUTE {
            self.from = self.next;
            self.next = Milestone { micros: now, tick };
        }
        let ticks = tick.saturating_sub(self.from.tick);
        let millis = now.saturating_sub(self.from.micros) / 1_000;
        let left = end.saturating_sub(tick);
        Some(millis.saturating_mul(left).checked_div(ticks)? / 1_000)
    }
}
