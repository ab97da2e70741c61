//! The rules of a scene.

ghost use Rattle.std.specs.Prelude.{◌≡◌, ◌&&◌, int_le, None, Some, MatchResult};
ghost use Rattle.fixed_motion.specs.Rules.{IsChecked, is_in, is_size, rule_fault, six_numbers};

/// The greatest width and height, in units of length.
pub const MAX_SIDE: i64 = 1_073_741_824;

/// The greatest speed limit, in units of length per tick.
pub const MAX_SPEED: i64 = 1_048_576;

/// The greatest round limit.
pub const MAX_ROUNDS: u32 = 65_536;

/// The greatest last tick.
pub const MAX_END: u64 = 1_099_511_627_776;

/// The box, the greatest size of a disk, and the limits of a run.
#[derive(Clone, Copy, Debug, PartialEq, Eq)]
pub struct Rules {
    /// The width of the box, 2 to [`MAX_SIDE`] units of length.
    pub width: i64,
    /// The height of the box, 2 to [`MAX_SIDE`] units of length.
    pub height: i64,
    /// The greatest diameter of a disk, even, 2 to the smaller side of the box, in units of length.
    pub diameter: i64,
    /// The greatest size of a velocity component, 1 to [`MAX_SPEED`] units of length per tick.
    pub speed_limit: i64,
    /// The round at which no event is run, 1 to [`MAX_ROUNDS`].
    pub round_limit: u32,
    /// The tick at which a run ends, 0 to [`MAX_END`].
    pub end: u64,
}

/// The first number of the rules that is out of its range.
#[derive(Clone, Copy, Debug, PartialEq, Eq)]
pub enum RuleFault {
    /// The width.
    Width,
    /// The height.
    Height,
    /// The diameter: it is odd, below 2, or greater than a side of the box.
    Diameter,
    /// The speed limit.
    Speed,
    /// The round limit.
    Rounds,
    /// The last tick.
    End,
}

impl Rules {
    /// Tests each number against its range, in the order of [`RuleFault`].
    pub fn check(&self) -> Result<(), RuleFault>
        ensures { MatchResult result (λ _. (rule_fault (six_numbers self.now) ≡ None) × IsChecked self.now)
            (λ fault. rule_fault (six_numbers self.now) ≡ Some fault) }
    {
        if !is_in(2, MAX_SIDE, self.width) {
            return Err(RuleFault::Width);
        }
        if !is_in(2, MAX_SIDE, self.height) {
            return Err(RuleFault::Height);
        }
        if !self.has_fitting_diameter() {
            return Err(RuleFault::Diameter);
        }
        if !is_in(1, MAX_SPEED, self.speed_limit) {
            return Err(RuleFault::Speed);
        }
        if self.round_limit < 1 || self.round_limit > MAX_ROUNDS {
            return Err(RuleFault::Rounds);
        }
        if self.end > MAX_END {
            return Err(RuleFault::End);
        }
        Ok(())
    }

    fn has_fitting_diameter(&self) -> bool
        ensures { result ≡ (is_size self.now.width self.now.diameter && int_le self.now.diameter self.now.height) }
    {
        is_size(self.width, self.diameter) && self.diameter <= self.height
    }
}

/// Whether a number is from the least to the greatest of a range.
pub(crate) fn is_in(least: i64, greatest: i64, n: i64) -> bool
    ensures { result ≡ is_in (least, greatest) n }
{
    least <= n && n <= greatest
}

/// Whether a diameter, in units of length, is even, at least 2, and at most the greatest one.
pub(crate) fn is_size(greatest: i64, n: i64) -> bool
    ensures { result ≡ is_size greatest n }
{
    is_in(2, greatest, n) && n % 2 == 0
}
