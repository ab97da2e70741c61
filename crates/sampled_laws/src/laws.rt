//! Laws of samples, for those who read the definitions alone.

ghost use Rattle.sampled_laws.specs.Laws.{SamplesAreOfTicks, SquaresAreEnergy, LastSquaresAreEnergy, SidesTakeMomentum, VirialsArePushes, SumsNeverStop};
ghost use Rattle.sampled_laws.specs.Virial.{VirialTheorem, VirialTheoremAtEnd, SidesTurnAtTheirPlaces, SidesTellTheVirial};
ghost use Rattle.sampled_laws.specs.InParts.{SumsOfPartsAddUp};

/// The samples of a run are those at each multiple of `every` below the end, up to the last tick, and the end: each of the
/// state and the sums after all events whose tick is below its own.
pub fn samples_are_of_ticks()
    ensures { SamplesAreOfTicks }
{}

/// Over the whole box, the sums over the disks are over all of them, at each tick of a run: their number, and the sum of
/// their squared speeds. At the end this is the second number of the line `energy`.
pub fn squares_are_energy()
    ensures ticks { SquaresAreEnergy }
    ensures end { LastSquaresAreEnergy }
{}

/// Over the whole box, the momentum at the end is that at the start, plus what the left side and the bottom took, less
/// what the right side and the top took.
pub fn sides_take_momentum()
    ensures { SidesTakeMomentum }
{}

/// What an event of two disks adds to the virial, if it counts, is r · J, and that is above 0: r is the place of the first
/// less that of the second at the event's tick, and J the impulse that the first got.
pub fn virials_are_pushes()
    ensures { VirialsArePushes }
{}

/// The virial theorem, exactly. At each tick of a run, and at its end, the sum of r · v over the disks is that at the start,
/// plus the squared speeds of all disks over the ticks since, plus the virial over the whole box, plus the sum of r · Δv over
/// the events at sides.
pub fn virial_theorem()
    ensures ticks { VirialTheorem }
    ensures end { VirialTheoremAtEnd }
{}

/// If all disks have one size, what the sides took, each times the place of a disk that touches it, is what the virial
/// theorem asks of them, or more: by at most the speed limit times what they took together, since an event comes up to a
/// tick before the touch. So pressure by the sides is pressure by the virial, but for the sums of r · v at start and end.
pub fn sides_tell_the_virial()
    ensures turned { SidesTurnAtTheirPlaces }
    ensures told { SidesTellTheVirial }
{}

/// If a run is cut at a tick, its sums are those of the run up to there and those of the rest's run, added: for each margin.
pub fn sums_of_parts_add_up()
    ensures { SumsOfPartsAddUp }
{}

/// No sum of a run comes near the greatest number of its type, at which it would stop.
pub fn sums_never_stop()
    ensures { SumsNeverStop }
{}
