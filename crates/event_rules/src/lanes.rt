//! Whether each of two disks may hit a third one: the numbers of the two stand side by side, in lanes of 64 bits.

ghost use Rattle.std.specs.Prelude.{◌≡◌, ◌↔◌, ◌-◌, ◌*◌, ◌^◌, ◌≤◌, pos, ◌+ℤ◌, ◌-ℤ◌, ◌*ℤ◌, IsTrue, ℤ, false};
ghost use Rattle.std.specs.Int.{int_wrap, w32, w64};
ghost use Rattle.plane_vectors.specs.declared.Vector.{Vector};
ghost use Rattle.plane_vectors.specs.Vectors.{dot};
ghost use Rattle.fixed_motion.specs.declared.rules.Rules.{Rules};
ghost use Rattle.fixed_motion.specs.Rules.{IsChecked};
ghost use Rattle.fixed_motion.specs.Motion.{IsValidDisk};
ghost use Rattle.contact_predictor.specs.declared.approach.Approach.{Approach};
ghost use Rattle.event_rules.specs.Lanes.{Hold, wrapped_after};
ghost use Rattle.event_rules.specs.Scale.{bits_from, CrossRounded, FitRounded};
ghost use Rattle.event_rules.specs.Rounded.{IsReachOf, TellsRounded};

use crate::scale::Scale;
use crate::separation::{lead_of, reach_square};
use fixed_motion::{Disk, Rules};
use plane_vectors::Vector;
use std::marker::Model;
use std::simd::prelude::*;

/// Whether each of two disks may hit a third one, as two bits: they are counted without a branch.
#[derive(Drop)]
pub struct EachMay {
    bits: u64,
}

impl Model for EachMay {
    ghost use Rattle.std.specs.Prelude.{Bool, ◌/◌, not, nat_eq};
    ghost use Rattle.std.specs.Int.Bits.{bit_and};

    ghost Value = { Bool × Bool };

    ghost view = { λ e. (not (nat_eq (bit_and e.bits 1) 0), not (nat_eq (e.bits / 2) 0)) };
}

impl EachMay {
    /// Neither may.
    #[inline(always)]
    pub fn neither() -> EachMay
        ensures { result ≡ (false, false) }
    {
        EachMay { bits: 0 }
    }

    /// Whether the first of them may.
    #[inline(always)]
    pub fn first(&self) -> bool
        ensures { result ≡ self.now.0 }
    {
        self.bits & 1 != 0
    }

    /// Whether the second may.
    #[inline(always)]
    pub fn second(&self) -> bool
        ensures { result ≡ self.now.1 }
    {
        self.bits >> 1 != 0
    }
}

/// What is the same for all others that one of two disks may hit: the squares of the greatest distances at which each
/// touches one, and the scale.
#[derive(Clone, Copy)]
pub struct EachReach {
    squares: i64x2,
    scale: Scale,
}

impl EachReach {
    /// That of two disks of a scene.
    #[inline(always)]
    pub fn of(rules: &Rules, a: &Disk, b: &Disk) -> EachReach
        requires checked { IsChecked rules.now }
        requires first_valid { IsValidDisk rules.now a.now }
        requires second_valid { IsValidDisk rules.now b.now }
        ensures { IsReachOf rules.now a.now b.now result }
    {
        EachReach {
            squares: i64x2::from_array([reach_square(rules, a), reach_square(rules, b)]),
            scale: Scale::of(rules),
        }
    }
}

/// Whether each of two disks of one base tick may hit a third one that has begun its course no later, up to the rounding
/// of a scale: if the answer is no, they never hit each other. The numbers of the two stand side by side, so that both
/// answers cost little more than one.
#[inline(always)]
pub fn each_may_hit(a: Disk, b: Disk, other: &Disk, reach: EachReach) -> EachMay
    requires base { a.base ≡ b.base }
    requires begun { other.now.base ≤ a.base }
    ensures first { (rules : Rules) → IsReachOf rules a b reach → TellsRounded rules a other.now result.0 }
    ensures second { (rules : Rules) → IsReachOf rules a b reach → TellsRounded rules b other.now result.1 }
{
    let place = place_then(&a, other);
    let rx = low_differences(place.x, a.x, b.x);
    let ry = low_differences(place.y, a.y, b.y);
    let ux = low_differences(other.vx, a.vx, b.vx);
    let uy = low_differences(other.vy, a.vy, b.vy);
    are_courses(
        dots(ux, uy, ux, uy),
        dots(rx, ry, ux, uy),
        less(dots(rx, ry, rx, ry), reach.squares),
        reach.scale,
    )
}

// The place of the second of two disks at the base tick of the first, wrapped to 64 bits.
#[inline(always)]
fn place_then(a: &Disk, b: &Disk) -> Vector
    ensures { a.now.base ≤ 2 ^ 40 → b.now.base ≤ 2 ^ 40 → result ≡ wrapped_after b.now (pos a.now.base -ℤ pos b.now.base) }
{
    wrapped_place(b, lead_of(a, b))
}

// By how much a number is greater than each of two, wrapped to 32 bits: then a product of two such lanes takes one
// instruction.
#[inline(always)]
fn low_differences(number: i64, first: i64, second: i64) -> i64x2
    ensures { Hold result (int_wrap w32 (number -ℤ first)) (int_wrap w32 (number -ℤ second)) }
{
    low_numbers(i64x2::splat(number) - i64x2::from_array([first, second]))
}

// Two numbers, wrapped to 32 bits.
#[inline(always)]
fn low_numbers(numbers: i64x2) -> i64x2
    ensures { (m n : ℤ) → Hold numbers m n → Hold result (int_wrap w32 m) (int_wrap w32 n) }
{
    numbers << 32 >> 32
}

// The inner products of two vectors, and of two others, wrapped to 64 bits.
#[inline(always)]
fn dots(rx: i64x2, ry: i64x2, ux: i64x2, uy: i64x2) -> i64x2
    ensures { (r s u v : Vector) → Hold rx r.x s.x → Hold ry r.y s.y → Hold ux u.x v.x → Hold uy u.y v.y →
        Hold result (int_wrap w64 (dot r u)) (int_wrap w64 (dot s v)) }
{
    rx * ux + ry * uy
}

// Each of two numbers less another one, wrapped to 64 bits.
#[inline(always)]
fn less(numbers: i64x2, others: i64x2) -> i64x2
    ensures { (m n k l : ℤ) → Hold numbers m n → Hold others k l → Hold result (int_wrap w64 (m -ℤ k)) (int_wrap w64 (n -ℤ l)) }
{
    numbers - others
}

// Whether each of two quadratics falls, and is negative or has a root: by a and c rounded down and -b rounded up, so that
// the answer is yes where it is so for whole numbers. The numbers a and c are shifted by twice as many bits as speeds and
// places, and b by the sum.
#[inline(always)]
fn are_courses(square: i64x2, closing: i64x2, gap: i64x2, scale: Scale) -> EachMay
    ensures { (p q : Approach) → Hold square p.square q.square → Hold closing p.closing q.closing → Hold gap p.gap q.gap →
        (FitRounded scale.speeds scale.places p.square p.closing p.gap →
        IsTrue result.0 ↔ CrossRounded scale.speeds scale.places p.square p.closing p.gap)
        × (FitRounded scale.speeds scale.places q.square q.closing q.gap →
        IsTrue result.1 ↔ CrossRounded scale.speeds scale.places q.square q.closing q.gap) }
{
    let nearing = raised(closing, scale.speeds + scale.places);
    let product = shifted(square, 2 * scale.speeds) * shifted(gap, 2 * scale.places);
    let zero = i64x2::splat(0);
    let cross = product.simd_lt(nearing * nearing) | gap.simd_lt(zero);
    EachMay {
        bits: (closing.simd_lt(zero) & cross).to_bitmask(),
    }
}

// The opposites of two numbers, shifted by some bits and rounded up.
#[inline(always)]
fn raised(numbers: i64x2, bits: u32) -> i64x2
    requires { bits ≤ 32 }
    ensures { (m n : ℤ) → Hold numbers m n →
        Hold result (bits_from bits (int_wrap w64 (pos (2 ^ bits - 1) -ℤ m))) (bits_from bits (int_wrap w64 (pos (2 ^ bits - 1) -ℤ n))) }
{
    shifted(less(i64x2::splat((1 << bits) - 1), numbers), bits)
}

// The 32 bits of two numbers from this one on, so that a product of two takes one instruction.
#[inline(always)]
fn shifted(numbers: i64x2, bits: u32) -> i64x2
    requires { bits ≤ 32 }
    ensures { (m n : ℤ) → Hold numbers m n → Hold result (bits_from bits m) (bits_from bits n) }
{
    let words = u64x2::from_le_bytes(numbers.to_le_bytes());
    let low = (words >> bits as u64) & u64x2::splat(0xffff_ffff);
    low.cast::<i64>()
}

// The place of a disk `ticks` ticks after its base tick, wrapped to 64 bits.
#[inline(always)]
fn wrapped_place(a: &Disk, ticks: i64) -> Vector
    ensures { result ≡ wrapped_after a.now ticks }
{
    Vector {
        x: wrapping_way(a.x, a.vx, ticks),
        y: wrapping_way(a.y, a.vy, ticks),
    }
}

#[inline(always)]
fn wrapping_way(x: i64, v: i64, ticks: i64) -> i64
    ensures { result ≡ int_wrap w64 (x +ℤ (v *ℤ ticks)) }
{
    x.wrapping_add(v.wrapping_mul(ticks))
}
