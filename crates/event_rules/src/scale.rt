//! By how many bits the numbers of two disks are shifted, so that 32 bits are enough for them.

ghost use Rattle.std.specs.Prelude.{◌≡◌, ◌≤◌, pos, ◌≤ℤ◌};
ghost use Rattle.fixed_motion.specs.Rules.{IsChecked};
ghost use Rattle.event_rules.specs.Scale.{bits_past, speed_bits, place_bits};

use fixed_motion::Rules;

// By how many bits numbers are shifted: as many for places, and as many for speeds, as the box and the speed limit of a
// scene ask for.
#[derive(Clone, Copy)]
pub(crate) struct Scale {
    pub(crate) speeds: u32,
    pub(crate) places: u32,
    ghost few_speeds: { speeds ≤ 7 },
    ghost few_places: { places ≤ 16 },
}

impl Scale {
    // That of a scene.
    #[inline(always)]
    pub(crate) fn of(rules: &Rules) -> Scale
        requires { IsChecked rules.now }
        ensures speeds { result.speeds ≡ speed_bits rules.now }
        ensures places { result.places ≡ place_bits rules.now }
    {
        Scale {
            speeds: bits_past(rules.speed_limit, 14),
            places: bits_past(rules.width, 15).max(bits_past(rules.height, 15)),
        }
    }
}

// How many bits a number has beyond these.
#[inline(always)]
fn bits_past(number: i64, bits: u32) -> u32
    ensures { result ≡ bits_past bits number }
{
    (64 - number.leading_zeros()).saturating_sub(bits)
}
