//! Where one disk is from another at the later of their base ticks, and whether that tells that they never hit
//! each other.

ghost use Rattle.std.specs.Prelude.{◌≡◌, ◌↔◌, ◌^◌, ◌≤◌, pos, ◌-ℤ◌, ◌*ℤ◌, IsTrue};
ghost use Rattle.std.specs.Int.{int_wrap, w64};
ghost use Rattle.plane_vectors.specs.Vectors.{vector};
ghost use Rattle.fixed_motion.specs.declared.rules.Rules.{Rules};
ghost use Rattle.fixed_motion.specs.Rules.{IsChecked};
ghost use Rattle.fixed_motion.specs.Motion.{IsValidDisk, contact_distance};
ghost use Rattle.event_rules.specs.Predict.{IsSeparation, separation_of};
ghost use Rattle.event_rules.specs.Pairs.{IsValidPair, FitsTheBox, TellsByReach, IsApproachAt, reach_of};

use contact_predictor::Approach;
use fixed_motion::{Disk, Rules};
use plane_vectors::Vector;

// Where one disk is from another at the later of their base ticks, how fast that changes, and the distance of their
// centres at which they touch.
#[derive(Clone, Copy)]
pub(crate) struct Separation {
    pub(crate) start: u64,
    pub(crate) places: Vector,
    pub(crate) velocities: Vector,
    pub(crate) distance: i64,
}

/// The square of the greatest distance at which a disk touches another one of its scene: one of the greatest diameter.
#[inline(always)]
pub fn reach_square(rules: &Rules, a: &Disk) -> i64
    requires checked { IsChecked rules.now }
    requires valid { IsValidDisk rules.now a.now }
    ensures { result ≡ reach_of rules.now a.now *ℤ reach_of rules.now a.now }
{
    let distance = (rules.diameter + a.size) / 2;
    distance * distance
}

/// Whether the courses of two disks may bring them together, by products alone and with no branch, as if the second had
/// the greatest diameter: `square` is the [`reach_square`] of the first. This decides most pairs.
///
/// If the answer is no, two valid disks never hit each other. For disks that are no farther apart than the box is long
/// it tells exactly whether they come nearer, on paths that cross for such a diameter.
#[inline(always)]
pub fn may_hit(a: &Disk, b: &Disk, square: i64) -> bool
    ensures { TellsByReach square a.now b.now result }
{
    let s = separated(a, b);
    Approach::of_square(s.places, s.velocities, square).is_course()
}

// The separation of two disks; nothing is said of disks that aren't valid.
#[inline(always)]
pub(crate) fn separated(a: &Disk, b: &Disk) -> Separation
    ensures { (rules : Rules) → IsValidPair rules a.now b.now → IsSeparation a.now b.now result }
{
    Separation {
        start: a.base.max(b.base),
        places: places_apart(a, b),
        velocities: wrapping_difference(a.velocity(), b.velocity()),
        distance: distance_between(a, b),
    }
}

// Only the disk whose base tick is the earlier one moves until the other's, so one product is enough on each axis.
#[inline(always)]
fn places_apart(a: &Disk, b: &Disk) -> Vector
    ensures { (rules : Rules) → IsValidPair rules a.now b.now → result ≡ separation_of a.now b.now }
{
    let lead = lead_of(a, b);
    let moving = if lead < 0 { a.velocity() } else { b.velocity() };
    Vector {
        x: wrapping_apart(a.x, b.x, moving.x, lead),
        y: wrapping_apart(a.y, b.y, moving.y, lead),
    }
}

// How much later the base tick of the first is.
#[inline(always)]
pub(crate) fn lead_of(a: &Disk, b: &Disk) -> i64
    ensures { a.now.base ≤ 2 ^ 40 → b.now.base ≤ 2 ^ 40 → result ≡ pos a.now.base -ℤ pos b.now.base }
{
    a.base.wrapping_sub(b.base).cast_signed()
}

// The difference of two coordinates, less a way, wrapped to 64 bits.
#[inline(always)]
fn wrapping_apart(x: i64, y: i64, v: i64, ticks: i64) -> i64
    ensures { result ≡ int_wrap w64 ((x -ℤ y) -ℤ (v *ℤ ticks)) }
{
    x.wrapping_sub(y).wrapping_sub(v.wrapping_mul(ticks))
}

// The difference, wrapped to 64 bits.
#[inline(always)]
fn wrapping_difference(u: Vector, v: Vector) -> Vector
    ensures { result ≡ vector (int_wrap w64 (u.x -ℤ v.x)) (int_wrap w64 (u.y -ℤ v.y)) }
{
    Vector {
        x: u.x.wrapping_sub(v.x),
        y: u.y.wrapping_sub(v.y),
    }
}

// The distance of the centres at which two disks touch. Sizes are even, so one halving is enough.
#[inline(always)]
pub(crate) fn distance_between(a: &Disk, b: &Disk) -> i64
    ensures { (rules : Rules) → IsValidPair rules a.now b.now → result ≡ contact_distance a.now b.now }
{
    (a.size.wrapping_add(b.size).cast_unsigned() / 2).cast_signed()
}

// The quadratic of two disks at a separation.
#[inline(always)]
pub(crate) fn approach_at(s: &Separation) -> Approach
    ensures { IsApproachAt s.now result }
{
    Approach::new(s.places, s.velocities, s.distance)
}

// Whether two disks are no farther apart than the sides of the box are long, as two disks inside the box always are.
#[inline(always)]
pub(crate) fn fits_the_box(rules: &Rules, places: Vector) -> bool
    requires { IsChecked rules.now }
    ensures { IsTrue result ↔ FitsTheBox rules.now places }
{
    places.x.unsigned_abs() <= rules.width as u64 && places.y.unsigned_abs() <= rules.height as u64
}
