//! Numbers that look random, and are the same in each run.

ghost use Rattle.std.specs.Prelude.{◌<◌};

/// A linear congruential generator, of which the high bits are good enough for test data.
#[derive(Drop)]
pub struct DrawnNumbers {
    /// The last state; any number begins a sequence.
    pub state: u64,
}

impl DrawnNumbers {
    /// One of the `count` numbers from `least` on.
    pub fn next(&mut self, least: i64, count: u64) -> i64
        requires { 0 < count }
    {
        self.state = self
            .state
            .wrapping_mul(6_364_136_223_846_793_005)
            .wrapping_add(1_442_695_040_888_963_407);
        least.wrapping_add(((self.state >> 33) % count) as i64)
    }
}
