//! The smaller root of a quadratic, up to rounding: the proofs need to know nothing of it.

ghost use Rattle.std.specs.Prelude.{◌^◌, ◌<◌, nat_abs};

// Each whole number below this is a float.
const PAST_FLOATS: u64 = 1 << 53;

// From here on neighbouring floats are one apart, so that a sum with it is rounded to a whole number.
const WHOLE: f64 = 6755399441055744.0;

// The bits of `WHOLE`. The bits of a float that is greater by a whole number are greater by that number.
const WHOLE_BITS: u64 = 0x4338_0000_0000_0000;

// `WHOLE` and 2^30.
const PAST_WHOLE: f64 = 6755400514797568.0;

// The whole part of the smaller root of the quadratic a s^2 + 2 b s + c, with b negative and c not, up to rounding, in
// the form without cancelling. If that isn't below 2^30, the answer is any number that isn't.
#[inline(always)]
pub(crate) fn smaller_root(a: i64, b: i64, c: i64) -> u64
    requires square { nat_abs a < 2 ^ 53 }
    requires closing { nat_abs b < 2 ^ 53 }
{
    let closing = b as f64;
    let gap = nearest(c.cast_unsigned());
    let discriminant = closing * closing - a as f64 * gap;
    // Less nearly a half, as the sum is rounded to the nearest whole number.
    let shifted = (gap / (discriminant.sqrt() - closing) - 0.49999999) + WHOLE;
    if shifted < PAST_WHOLE {
        f64::to_bits(shifted).wrapping_sub(WHOLE_BITS)
    } else {
        u64::MAX
    }
}

// The float nearest to a number. Each whole number below 2^53 is a float; each half of a greater one is, and so is the
// upper half times 2^32.
#[inline(always)]
fn nearest(n: u64) -> f64 {
    if n < PAST_FLOATS {
        n.cast_signed() as f64
    } else {
        ((n >> 32) as f64) * 4294967296.0 + ((n & 0xffff_ffff) as f64)
    }
}
