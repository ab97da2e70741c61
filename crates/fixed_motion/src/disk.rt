//! Disks that move on straight lines.

ghost use Rattle.std.specs.Prelude.{◌≡◌, ◌≤◌, ◌↔◌, ◌^◌, ◌-◌, pos, neg_ℤ, ◌≤ℤ◌, MatchOption, IsTrue};
ghost use Rattle.plane_vectors.specs.Vectors.{vector};
ghost use Rattle.fixed_motion.specs.Rules.{IsChecked, IsIn, is_size};
ghost use Rattle.fixed_motion.specs.Motion.{IsInside, is_inside, IsSize, IsValidDisk, is_valid_disk, radius_of, contact_distance, centre_of, velocity_of, place_of, mark_at, Overlaps, overlaps, IsSlow, is_slow, IsInBox};

use crate::Rules;
use crate::rules::{is_in, is_size};
use plane_vectors::Vector;

/// The record of a disk: where it was at its base tick, and how it has moved since.
#[derive(Clone, Copy, Debug, PartialEq, Eq)]
pub struct Disk {
    /// The centre at the base tick, in units of length from the left side.
    pub x: i64,
    /// The centre at the base tick, in units of length from the bottom side.
    pub y: i64,
    /// The velocity to the right, in units of length per tick.
    pub vx: i64,
    /// The velocity upwards, in units of length per tick.
    pub vy: i64,
    /// The disk's diameter, even, 2 to the greatest one of the rules, in units of length.
    pub size: i64,
    /// The tick of the last event that changed the disk, or 0.
    pub base: u64,
    /// One more than the round of that event, or 0.
    pub mark: u32,
}

impl Disk {
    /// The radius, in units of length.
    pub fn radius(&self) -> i64
        ensures value { result ≡ radius_of self.now }
        ensures size { IsIn (neg_ℤ (pos (2 ^ 62)), pos (2 ^ 62 - 1)) result }
    {
        self.size / 2
    }

    /// The distance of the centres, in units of length, at which the disk and another one touch.
    pub fn contact_distance(&self, other: &Disk) -> i64
        ensures { result ≡ contact_distance self.now other.now }
    {
        self.radius() + other.radius()
    }

    /// The centre at the base tick, in units of length.
    pub fn centre(&self) -> Vector
        ensures { result ≡ centre_of self.now }
    {
        Vector {
            x: self.x,
            y: self.y,
        }
    }

    /// The velocity, in units of length per tick.
    pub fn velocity(&self) -> Vector
        ensures { result ≡ velocity_of self.now }
    {
        Vector {
            x: self.vx,
            y: self.vy,
        }
    }

    /// The mark at a tick that isn't before the base tick. If the tick is later than that, the mark is 0.
    pub fn mark_at(&self, tick: u64) -> u32
        ensures { result ≡ mark_at self.now tick }
    {
        if self.base == tick { self.mark } else { 0 }
    }

    /// Whether the size is one that the rules allow.
    pub fn has_valid_size(&self, rules: &Rules) -> bool
        ensures fact { IsTrue result ↔ IsSize rules.now self.now.size }
        ensures test { result ≡ is_size rules.now.diameter self.now.size }
    {
        is_size(rules.diameter, self.size)
    }

    /// Whether the record is valid: the size is one that the rules allow, the disk is inside the box
    /// at its base tick and within the speed limit, the base tick is at most the last tick of the run,
    /// and the mark is at most the round limit.
    pub fn is_valid(&self, rules: &Rules) -> bool
        requires { IsChecked rules.now }
        ensures fact { IsTrue result ↔ IsValidDisk rules.now self.now }
        ensures test { result ≡ is_valid_disk rules.now self.now }
    {
        self.has_valid_size(rules)
            && self.is_inside(rules, self.centre())
            && rules.is_slow(self.velocity())
            && self.base <= rules.end
            && self.mark <= rules.round_limit
    }

    /// Whether the disk is inside the box if its centre is at the place, in units of length.
    pub fn is_inside(&self, rules: &Rules, place: Vector) -> bool
        requires { IsChecked rules.now }
        ensures fact { IsTrue result ↔ IsInside rules.now self.now place }
        ensures test { result ≡ is_inside rules.now self.now place }
    {
        let radius = self.radius();
        is_in(radius, rules.width - radius, place.x)
            && is_in(radius, rules.height - radius, place.y)
    }

    /// The centre at a tick from the base tick to 2^40, in units of length, if the disk keeps its
    /// course.
    ///
    /// The rules bound the disk's speed, and so how far it gets.
    pub fn centre_at(&self, rules: &Rules, tick: u64) -> Vector
        requires checked { IsChecked rules.now }
        requires valid { IsValidDisk rules.now self.now }
        requires base { self.now.base ≤ tick }
        requires tick { tick ≤ 2 ^ 40 }
        ensures { result ≡ place_of self.now tick }
    {
        let _rules = rules;
        self.centre().after(self.velocity(), tick - self.base)
    }

    /// The centre at a tick of at most 2^40, in units of length.
    ///
    /// None for a tick before the base tick, and for one at which the disk isn't inside the box.
    pub fn place(&self, rules: &Rules, tick: u64) -> Option<(i64, i64)>
        requires checked { IsChecked rules.now }
        requires valid { IsValidDisk rules.now self.now }
        requires tick { tick ≤ 2 ^ 40 }
        ensures { MatchOption result (self.now.base ≤ tick → IsInside rules.now self.now (place_of self.now tick) → ⊥)
            (λ place. (vector place.0 place.1 ≡ place_of self.now tick) × (self.now.base ≤ tick) × IsInside rules.now self.now (place_of self.now tick)) }
    {
        if tick < self.base {
            return None;
        }
        let place = self.centre_at(rules, tick);
        if self.is_inside(rules, place) {
            Some((place.x, place.y))
        } else {
            None
        }
    }
}

impl Rules {
    /// Whether no component of a velocity, in units of length per tick, is above the speed limit.
    pub fn is_slow(&self, velocity: Vector) -> bool
        ensures fact { IsTrue result ↔ IsSlow self.now velocity }
        ensures test { result ≡ is_slow self.now velocity }
    {
        velocity.x.unsigned_abs() <= self.speed_limit.unsigned_abs()
            && velocity.y.unsigned_abs() <= self.speed_limit.unsigned_abs()
    }
}

/// Whether two places are nearer than the distance, 2 to 2^30; their coordinates are 0 to 2^30. All
/// are in units of length.
pub fn overlap(distance: i64, first: (i64, i64), second: (i64, i64)) -> bool
    requires least { pos 2 ≤ℤ distance }
    requires most { distance ≤ℤ pos 1073741824 }
    requires first { IsInBox (vector first.0 first.1) }
    requires second { IsInBox (vector second.0 second.1) }
    ensures fact { IsTrue result ↔ Overlaps distance (vector first.0 first.1) (vector second.0 second.1) }
    ensures test { result ≡ overlaps distance (vector first.0 first.1) (vector second.0 second.1) }
{
    let first = Vector {
        x: first.0,
        y: first.1,
    };
    let second = Vector {
        x: second.0,
        y: second.1,
    };
    let between = first.minus(second);
    between.dot(between) < distance * distance
}
