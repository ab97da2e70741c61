//! The tick at which two disks that keep their courses come into contact.

ghost use Rattle.std.specs.Prelude.{◌≡◌, ◌↔◌, ℕ, ◌^◌, ◌<◌, ◌≤◌, pos, nat_abs, ◌-ℤ◌, IsTrue, MatchOption, ◌%◌, ◌≤ℤ◌};
ghost use Rattle.fixed_motion.specs.Rules.{IsChecked};
ghost use Rattle.fixed_motion.specs.Motion.{IsValidDisk, IsInside, half_of, place_of};
ghost use Rattle.contact_predictor.specs.Contact.{IsBetween};
ghost use Rattle.event_rules.specs.Events.{IsContactTick};
ghost use Rattle.event_rules.specs.Predict.{HaveBegun, IsTouch, AreInside, IsOnlyChance};

use crate::separation::{approach_at, fits_the_box, separated};
use fixed_motion::{Disk, Rules};

// The tick at which two disks touch inside the box.
#[inline(always)]
pub(crate) fn touching_tick(rules: &Rules, a: &Disk, b: &Disk) -> Option<u64>
    requires checked { IsChecked rules.now }
    requires first_valid { IsValidDisk rules.now a.now }
    requires second_valid { IsValidDisk rules.now b.now }
    ensures { MatchOption result ((tick : ℕ) → tick < rules.now.end → IsContactTick rules.now a.now b.now tick → ⊥)
        (IsTouch rules.now a.now b.now) }
{
    let tick = only_chance(rules, a, b)?;
    if are_inside_at(rules, a, b, tick) {
        Some(tick)
    } else {
        None
    }
}

// The only tick before the end at which two disks can hit each other. Whether they are inside the box then isn't
// tested. The cheap tests, which most pairs fail, come first.
#[inline(always)]
pub(crate) fn only_chance(rules: &Rules, a: &Disk, b: &Disk) -> Option<u64>
    requires checked { IsChecked rules.now }
    requires first_valid { IsValidDisk rules.now a.now }
    requires second_valid { IsValidDisk rules.now b.now }
    ensures { MatchOption result ((tick : ℕ) → tick < rules.now.end → IsContactTick rules.now a.now b.now tick → ⊥)
        (IsOnlyChance rules.now a.now b.now) }
{
    let s = separated(a, b);
    if !fits_the_box(rules, s.places) {
        // One of them isn't inside the box at the later base tick, and so at no later tick.
        return None;
    }
    let approach = approach_at(&s);
    if !approach.is_course() || approach.overlap() {
        return None;
    }
    let tick = s.start + approach.contact();
    if tick < rules.end { Some(tick) } else { None }
}

// Whether two disks are inside the box at a tick. They mostly are, so there is no branch between the two tests.
#[inline(always)]
pub(crate) fn are_inside_at(rules: &Rules, a: &Disk, b: &Disk, tick: u64) -> bool
    requires checked { IsChecked rules.now }
    requires first_valid { IsValidDisk rules.now a.now }
    requires second_valid { IsValidDisk rules.now b.now }
    requires begun { HaveBegun a.now b.now tick }
    requires tick { tick ≤ 2 ^ 40 }
    ensures { IsTrue result ↔ AreInside rules.now a.now b.now tick }
{
    is_inside_at(rules, a, tick) & is_inside_at(rules, b, tick)
}

// Whether a disk is inside the box at a tick.
#[inline(always)]
fn is_inside_at(rules: &Rules, a: &Disk, tick: u64) -> bool
    requires checked { IsChecked rules.now }
    requires valid { IsValidDisk rules.now a.now }
    requires base { a.now.base ≤ tick }
    requires tick { tick ≤ 2 ^ 40 }
    ensures { IsTrue result ↔ IsInside rules.now a.now (place_of a.now tick) }
{
    let place = a.centre_at(rules, tick);
    fits_between(a.size, rules.width, place.x) & fits_between(a.size, rules.height, place.y)
}

// Whether a disk of this size, whose centre has this coordinate, is between the ends of a side of the box: one unsigned
// comparison tells both.
#[inline(always)]
fn fits_between(size: i64, side: i64, coordinate: i64) -> bool
    requires size { pos 2 ≤ℤ size }
    requires even { nat_abs size % 2 ≡ 0 }
    requires fits { size ≤ℤ side }
    requires side { side ≤ℤ pos 1073741824 }
    requires near { nat_abs coordinate ≤ 2 ^ 62 }
    ensures { IsTrue result ↔ IsBetween (half_of size) (side -ℤ half_of size) coordinate }
{
    let above = coordinate - half(size);
    let room = side - size;
    above.cast_unsigned() <= room.cast_unsigned()
}

// Half a size, without a test of its sign.
#[inline(always)]
fn half(size: i64) -> i64
    requires least { pos 2 ≤ℤ size }
    requires most { size ≤ℤ pos 1073741824 }
    ensures { result ≡ half_of size }
{
    (size.cast_unsigned() / 2).cast_signed()
}
