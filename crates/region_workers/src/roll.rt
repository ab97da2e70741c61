//! Where a burst stands, in one word, so that all of it changes at once.

ghost use Rattle.std.specs.Prelude.{◌<◌};

// The phase has the low 32 bits.
const PHASES: u64 = 1 << 32;

// The count of regions has seven bits, enough for the most that a grid has.
const COUNTS: u64 = 1 << 7;

// The lowest bit of the count.
const DONE_BIT: u32 = 32;

// The bit that says whether anything moved.
const MOVED_BIT: u32 = 39;

// The phase of a burst that is over: more than any burst has.
const OVER: u32 = u32::MAX;

/// How far the workers of a burst are.
#[derive(Clone, Copy)]
pub struct Roll {
    /// The slice that they are at, counted from 0 on.
    pub phase: u32,
    /// The number of regions for which it is done.
    pub done: u32,
    /// Whether any of these heard anything new, or could go on.
    pub moved: bool,
}

/// A worker's share of a phase.
#[derive(Clone, Copy)]
pub struct Share {
    /// The number of regions for which it did the phase's work.
    pub regions: u32,
    /// Whether any of them heard anything new, or could go on.
    pub moved: bool,
}

impl Share {
    /// No region yet.
    pub fn none() -> Share {
        Share {
            regions: 0,
            moved: false,
        }
    }

    /// Adds one region.
    pub fn add(&mut self, moved: bool) {
        self.regions = self.regions.saturating_add(1);
        self.moved = self.moved || moved;
    }
}

impl Roll {
    /// The roll that a word keeps.
    pub fn of(word: u64) -> Roll {
        Roll {
            phase: (word % PHASES) as u32,
            done: ((word >> DONE_BIT) % COUNTS) as u32,
            moved: flag_at(word, MOVED_BIT),
        }
    }

    /// The word that keeps the roll.
    pub fn word(&self) -> u64 {
        u64::from(self.phase)
            | u64::from(self.done) << DONE_BIT
            | u64::from(self.moved) << MOVED_BIT
    }

    /// Whether nothing is to be done any more in this burst.
    pub fn is_over(&self) -> bool {
        self.phase == OVER
    }

    /// The roll after a worker's share of the phase's work. If the burst is over, the roll stays the same.
    pub fn with(self, share: &Share) -> Roll {
        if self.is_over() {
            return self;
        }
        Roll {
            phase: self.phase,
            done: self.done.saturating_add(share.regions),
            moved: self.moved || share.moved,
        }
    }

    /// The phase after this one, which is done of all regions. If none heard anything new nor could go on, the burst is
    /// over: nothing would ever change, as all had heard what the others did before, and none did anything since. In
    /// the first phase there is nothing to hear yet. (It doesn't count whether there may be news: a message that was
    /// taken back, and that its hearer keeps until the sender is past it, may be news for ever.)
    pub fn next(self) -> Roll {
        if self.is_over() || !self.moved && self.phase > 0 {
            return Roll::over();
        }
        Roll {
            phase: self.phase.saturating_add(1),
            done: 0,
            moved: false,
        }
    }

    /// The roll of a burst that is over.
    pub fn over() -> Roll {
        Roll {
            phase: OVER,
            done: 0,
            moved: false,
        }
    }
}

// Whether a bit of a word is set.
fn flag_at(word: u64, at: u32) -> bool
    requires { at < 64 }
{
    (word >> at) % 2 == 1
}
