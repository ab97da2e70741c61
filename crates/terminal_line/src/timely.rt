//! A sink that gathers, but holds nothing back for long from a reader that waits for it.

ghost use Rattle.std.specs.Prelude.{◌≡◌, is_some};
ghost use Rattle.report_ports.specs.Ports.{Gives, CountsGive};

use crate::moments::micros;
use gathered_sink::GatheringSink;
use report_ports::{Given, Sink};
use std::time::Clock;

// For how many microseconds pieces are held while more of them come.
const PATIENCE: u64 = 100_000;

/// A sink that gathers pieces. It gives those that it holds to the sink below with the first piece that comes a tenth
/// of a second or more after it last did so.
///
/// It looks at the clock when a piece comes, and at no other time.
#[derive(Drop)]
pub struct Timely<'c, C: Clock, K: Sink> {
    /// The gathering sink, which holds the pieces.
    pub gathered: GatheringSink<K>,
    /// The clock that it looks at.
    pub clock: &'c C,
    /// The time of the last flush, in microseconds.
    pub flushed: u64,
}

impl<'c, C: Clock, K: Sink> Timely<'c, C, K> {
    /// A timely sink that begins to count time now.
    pub fn new(clock: &'c C, gathered: GatheringSink<K>) -> Timely<'c, C, K>
        ensures { result.gathered ≡ gathered }
    {
        Timely {
            gathered,
            clock,
            flushed: micros(clock),
        }
    }

    // Whether it is time for a flush. If so, the flush counts as done then.
    fn is_due(&mut self) -> bool
        ensures { self.new.gathered ≡ self.old.gathered }
    {
        let now = micros(self.clock);
        let is_due = now.saturating_sub(self.flushed) >= PATIENCE;
        if is_due {
            self.flushed = now;
        }
        is_due
    }
}

impl<C: Clock, K: Sink> Sink for Timely<'_, C, K> {
    ghost Lasting = { K.Lasting };

    ghost lasting = { λ t. K.lasting t.gathered.below };

    ghost allows = { K.allows };

    ghost taken = { λ t. t.gathered.told };

    ghost faults = { λ t. t.gathered.faults };

    fn faults(&self) -> u64 {
        self.gathered.faults()
    }

    fn give(&mut self, piece: &[u8]) -> Given {
        let given = self.gathered.give(piece);
        if given == Given::All && self.is_due() {
            self.gathered.flush()
        } else {
            given
        }
    }
}
