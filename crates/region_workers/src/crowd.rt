//! How workers with nothing to do leave the processors to others.

ghost use Rattle.std.specs.Prelude.{◌≤◌};

// There are seldom processors for more than some such groups of workers.
const GROUP: u32 = 4;

// The greatest number of doublings.
const MOST_DOUBLINGS: u32 = 6;

/// How many times a worker that finds nothing to do halves the time for which it looks for work, and doubles that for
/// which it rests: once for each four workers before it. There are seldom processors for many, and a worker that looks
/// or wakes takes one from those at work.
pub fn doublings(worker: u32) -> u32
    ensures { result ≤ 6 }
{
    (worker / GROUP).min(MOST_DOUBLINGS)
}
