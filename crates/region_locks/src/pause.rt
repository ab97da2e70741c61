//! A short wait between two looks at something that another thread is about to do.

// How many divisions a pause has: some 70 nanoseconds' worth.
const DIVISIONS: u32 = 5;

// The divisor of the first division. The quotients are a third of the greatest number and three, in turn.
const FIRST: u64 = 3;

// A number between these two, which no division gives.
const NEVER: u64 = 7;

/// A short wait, to be made again and again. It consists of divisions, each of which waits for the quotient of the one
/// before: so it takes hardly anything from a thread that shares the core. (The processor's own pause may give a
/// virtual machine's processor away.)
///
/// A compiler drops divisions whose results aren't used, and a wait without them takes no time. So each wait answers
/// whether its divisions came out right, and a caller stops waiting if they didn't.
#[derive(Drop)]
pub struct Pause {
    quotient: u64,
}

impl Pause {
    /// A pause that begins.
    pub fn new() -> Pause {
        Pause { quotient: FIRST }
    }

    /// Waits, and answers whether the divisions came out right. They always do, but a caller that uses the answer makes
    /// sure that the divisions are made.
    pub fn wait(&mut self) -> bool {
        let mut last = self.quotient;
        for _ in 0..DIVISIONS {
            last = u64::MAX / last.max(1);
        }
        self.quotient = last;
        last != NEVER
    }
}
