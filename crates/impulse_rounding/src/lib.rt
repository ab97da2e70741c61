//! The impulse of two disks that collide, in whole numbers.
//!
//! The exact impulse acts along the line of centres and mirrors the relative velocity; here its
//! components are rounded to whole numbers, so that momentum is kept exactly and energy nearly.
#![tactic(auto)]

ghost use Rattle.std.specs.Prelude.{◌≡◌, ◌+◌, ◌*◌, ◌^◌, ◌≤◌, ◌<◌, pos, ◌<ℤ◌, nat_abs};
ghost use Rattle.plane_vectors.specs.Vectors.{vector, dot, IsWithin};
ghost use Rattle.impulse_rounding.specs.Impulse.{nearest, ceiling, signed, with_signs};
ghost use Rattle.impulse_rounding.specs.Impulse.{impulse_of, parting, energy_change};
ghost use Rattle.impulse_rounding.specs.Laws.{RoundsRight, ImpulseEnergyNearlyStays};

use plane_vectors::Vector;

// If a number is below this, twice the number plus a divisor of 61 bits fits 64 bits.
const MAX_NARROW: u128 = 1 << 62;

/// The impulse, in units per tick, that the first of two disks gets and the second loses.
///
/// (`rx`, `ry`) is the first centre less the second in units of length, at most 2^30 in each
/// component, and (`ux`, `uy`) the first velocity less the second in units per tick, at most 2^21
/// in each component. The two approach each other, so the centres differ.
pub fn impulse(rx: i64, ry: i64, ux: i64, uy: i64) -> (i64, i64)
    requires approaching { dot (vector rx ry) (vector ux uy) <ℤ pos 0 }
    requires rx_size { nat_abs rx ≤ 2 ^ 30 }
    requires ry_size { nat_abs ry ≤ 2 ^ 30 }
    requires ux_size { nat_abs ux ≤ 2 ^ 21 }
    requires uy_size { nat_abs uy ≤ 2 ^ 21 }
    ensures value { vector result.0 result.1 ≡ impulse_of (vector rx ry) (vector ux uy) }
    ensures recedes { pos 0 <ℤ parting (vector rx ry) (vector ux uy) (vector result.0 result.1) }
    ensures x_size { nat_abs result.0 ≤ 2 ^ 23 }
    ensures y_size { nat_abs result.1 ≤ 2 ^ 23 }
    ensures energy { nat_abs (energy_change (vector ux uy) (vector result.0 result.1))
        ≤ 3 * (nat_abs ux + nat_abs uy) + 4 }
{
    let change = impulse_between(Vector { x: rx, y: ry }, Vector { x: ux, y: uy });
    (change.x, change.y)
}

/// The impulse, in units per tick, that the first of two disks gets and the second loses.
///
/// `r` is the first centre less the second in units of length, at most 2^30 in each component, and
/// `u` the first velocity less the second in units per tick, at most 2^21 in each component. The
/// two approach each other, so the centres differ.
#[inline(always)]
pub fn impulse_between(r: Vector, u: Vector) -> Vector
    requires approaching { dot r u <ℤ pos 0 }
    requires r_size { IsWithin (2 ^ 30) r }
    requires u_size { IsWithin (2 ^ 21) u }
    ensures value { result ≡ impulse_of r u }
    ensures recedes { pos 0 <ℤ parting r u result }
    ensures size { IsWithin (2 ^ 23) result }
    ensures energy { nat_abs (energy_change u result) ≤ 3 * (nat_abs u.x + nat_abs u.y) + 4 }
{
    rounded(r, u)
}

/// The roundings of [`impulse`]: to the nearest whole number with ties up, and up.
pub fn rounds_right()
    ensures { RoundsRight }
{}

/// The energy of two disks that approach each other is kept up to the roundings of [`impulse`], however great the
/// numbers are.
pub fn energy_nearly_stays()
    ensures { ImpulseEnergyNearlyStays }
{}

// The exact impulse rounded to nearest, or rounded up if the two wouldn't recede then.
#[inline(always)]
fn rounded(r: Vector, u: Vector) -> Vector
    requires approaching { dot r u <ℤ pos 0 }
    requires r_size { IsWithin (2 ^ 30) r }
    requires u_size { IsWithin (2 ^ 21) u }
    ensures value { result ≡ impulse_of r u }
    ensures size { IsWithin (2 ^ 22) result }
{
    let exact = exact_sizes(r, u);
    let near = rounded_to_nearest(r, exact);
    if parting_speed(r, u, near) > 0 {
        near
    } else {
        rounded_up(r, exact)
    }
}

// The vector of the exact sizes rounded to nearest, with the signs of r.
fn rounded_to_nearest(r: Vector, exact: ExactSizes) -> Vector
    requires x_size { exact.x ≤ 2 ^ 22 * exact.divisor }
    requires y_size { exact.y ≤ 2 ^ 22 * exact.divisor }
    requires divisor_size { exact.divisor ≤ 2 ^ 61 }
    requires positive { 0 < exact.divisor }
    ensures value { result ≡ with_signs r (nearest exact.x exact.divisor) (nearest exact.y exact.divisor) }
    ensures size { IsWithin (2 ^ 22) result }
{
    with_signs(
        r,
        divide_to_nearest(exact.x, exact.divisor),
        divide_to_nearest(exact.y, exact.divisor),
    )
}

// The vector of the exact sizes rounded up, with the signs of r.
#[inline(never)]
fn rounded_up(r: Vector, exact: ExactSizes) -> Vector
    requires x_size { exact.x ≤ 2 ^ 22 * exact.divisor }
    requires y_size { exact.y ≤ 2 ^ 22 * exact.divisor }
    requires divisor_size { exact.divisor ≤ 2 ^ 61 }
    requires positive { 0 < exact.divisor }
    ensures value { result ≡ with_signs r (ceiling exact.x exact.divisor) (ceiling exact.y exact.divisor) }
    ensures size { IsWithin (2 ^ 22) result }
{
    with_signs(
        r,
        divide_up(exact.x, exact.divisor),
        divide_up(exact.y, exact.divisor),
    )
}

// The sizes of the exact impulse's components, x / divisor and y / divisor.
#[derive(Clone, Copy)]
struct ExactSizes {
    x: u128,
    y: u128,
    divisor: u64,
}

// The exact impulse of two disks that approach each other.
fn exact_sizes(r: Vector, u: Vector) -> ExactSizes
    requires approaching { dot r u <ℤ pos 0 }
    requires r_size { IsWithin (2 ^ 30) r }
    requires u_size { IsWithin (2 ^ 21) u }
    ensures x { result.x ≡ nat_abs (dot r u) * nat_abs r.x }
    ensures y { result.y ≡ nat_abs (dot r u) * nat_abs r.y }
    ensures divisor { result.divisor ≡ nat_abs (dot r r) }
    ensures x_size { result.x ≤ 2 ^ 22 * result.divisor }
    ensures y_size { result.y ≤ 2 ^ 22 * result.divisor }
    ensures divisor_size { result.divisor ≤ 2 ^ 61 }
    ensures positive { 0 < result.divisor }
{
    let closing = u128::from(r.dot(u).unsigned_abs());
    ExactSizes {
        x: closing * u128::from(r.x.unsigned_abs()),
        y: closing * u128::from(r.y.unsigned_abs()),
        divisor: r.dot(r).unsigned_abs(),
    }
}

// How fast the two would part along r after the impulse.
fn parting_speed(r: Vector, u: Vector, impulse: Vector) -> i64
    requires r_size { IsWithin (2 ^ 30) r }
    requires u_size { IsWithin (2 ^ 30) u }
    requires impulse_size { IsWithin (2 ^ 30) impulse }
    ensures { result ≡ parting r u impulse }
{
    r.dot(u) + 2 * r.dot(impulse)
}

// n / d to the nearest whole number, ties up. A division of 128 bits costs many of 64, and mostly 64 are enough.
#[inline(always)]
fn divide_to_nearest(n: u128, d: u64) -> u64
    requires d { 0 < d }
    requires small { d ≤ 2 ^ 61 }
    requires n { n ≤ 2 ^ 22 * d }
    ensures value { result ≡ nearest n d }
    ensures size { result ≤ 2 ^ 22 }
{
    if n < MAX_NARROW {
        divide_narrow_to_nearest(n as u64, d)
    } else {
        divide_wide_to_nearest(n, d)
    }
}

// The same, if 64 bits are enough.
#[inline(always)]
fn divide_narrow_to_nearest(n: u64, d: u64) -> u64
    requires d { 0 < d }
    requires small { d ≤ 2 ^ 61 }
    requires n { n < 2 ^ 62 }
    ensures { result ≡ nearest n d }
{
    (2 * n + d) / (2 * d)
}

// The same, if they may not be.
#[inline(never)]
fn divide_wide_to_nearest(n: u128, d: u64) -> u64
    requires d { 0 < d }
    requires small { d ≤ 2 ^ 61 }
    requires n { n ≤ 2 ^ 22 * d }
    ensures { result ≡ nearest n d }
{
    let wide = u128::from(d);
    ((2 * n + wide) / (2 * wide)) as u64
}

// n / d, rounded up.
fn divide_up(n: u128, d: u64) -> u64
    requires d { 0 < d }
    requires small { d ≤ 2 ^ 61 }
    requires n { n ≤ 2 ^ 22 * d }
    ensures value { result ≡ ceiling n d }
    ensures size { result ≤ 2 ^ 22 }
{
    let wide = u128::from(d);
    ((n + (wide - 1)) / wide) as u64
}

// The vector of these sizes, with the signs of r.
fn with_signs(r: Vector, x: u64, y: u64) -> Vector
    requires x_size { x ≤ 2 ^ 22 }
    requires y_size { y ≤ 2 ^ 22 }
    ensures value { result ≡ with_signs r x y }
    ensures size { IsWithin (2 ^ 22) result }
{
    Vector {
        x: with_sign(r.x, x),
        y: with_sign(r.y, y),
    }
}

// This size, with the sign of x.
fn with_sign(x: i64, size: u64) -> i64
    requires { size ≤ 2 ^ 22 }
    ensures value { result ≡ signed x size }
    ensures size { nat_abs result ≤ 2 ^ 22 }
{
    if x >= 0 { size as i64 } else { -(size as i64) }
}
