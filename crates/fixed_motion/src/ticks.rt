//! Numbers of ticks, each of which may be there or not.

ghost use Rattle.std.specs.Prelude.{◌≡◌};
ghost use Rattle.fixed_motion.specs.Ticks.{sooner_of};

/// The sooner of two numbers of ticks that are both there; else the one that is there, if any.
pub fn sooner(first: Option<u64>, second: Option<u64>) -> Option<u64>
    ensures { result ≡ sooner_of first second }
{
    match first {
        None => second,
        Some(m) => match second {
            None => first,
            Some(n) => Some(m.min(n)),
        },
    }
}
