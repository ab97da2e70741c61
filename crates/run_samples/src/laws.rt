//! What samples are made of, for those who read the definitions alone.

ghost use Rattle.run_samples.specs.Laws.{SamplesJoin, SamplesBegin, SamplesBreakOff, StatesAreOfLines};

/// What a sampler writes while it is told a run, and what it writes at the end, make the samples of the run.
pub fn samples_join()
    ensures { SamplesJoin }
{}

/// If a run broke off, what a sampler wrote by then is a prefix of the samples of the run.
pub fn samples_begin()
    ensures { SamplesBegin }
{}

/// What a sampler writes while it is told a run, together with a part of what it writes at the end, is a prefix of the
/// samples of the run.
pub fn samples_break_off()
    ensures { SamplesBreakOff }
{}

/// The states of a run are its report without the lines of collisions, in the same order.
pub fn states_are_of_lines()
    ensures { StatesAreOfLines }
{}
