//! When two disks hit each other next.

ghost use Rattle.std.specs.Prelude.{◌≡◌, ◌↔◌, ℕ, ◌<◌, ◌≤◌, IsTrue, MatchOption, max, min};
ghost use Rattle.fixed_motion.specs.Rules.{IsChecked};
ghost use Rattle.fixed_motion.specs.Motion.{IsValidDisk, IsInside, mark_at};
ghost use Rattle.event_stamps.specs.declared.Stamp.{Stamp};
ghost use Rattle.event_stamps.specs.declared.Kind.TheVariants.{Pair};
ghost use Rattle.event_stamps.specs.Least.{IsOnly};
ghost use Rattle.event_rules.specs.Events.{IsPairEvent, IsContactTick, TouchAt, IsChance, HaveNoEvent, pair_stamp};
ghost use Rattle.event_rules.specs.Predict.{HaveBegun, TouchInside, IsTouch, IsOnlyChance};

use crate::contact_ticks::{are_inside_at, only_chance, touching_tick};
use crate::separation::distance_between;
use contact_predictor::Approach;
use event_stamps::{Kind, Stamp};
use fixed_motion::{Disk, Rules};
use plane_vectors::Vector;

/// The stamp at which two disks next hit each other if they keep their courses, before the last tick of the run.
///
/// `first` and `second` are the numbers of the disks. None if they don't hit each other.
#[inline(always)]
pub fn pair_event(rules: &Rules, first: u32, a: &Disk, second: u32, b: &Disk) -> Option<Stamp>
    requires checked { IsChecked rules.now }
    requires first_valid { IsValidDisk rules.now a.now }
    requires second_valid { IsValidDisk rules.now b.now }
    requires order { first < second }
    ensures { MatchOption result ((s : Stamp) → IsPairEvent rules.now first a.now second b.now s → ⊥)
        (IsOnly (IsPairEvent rules.now first a.now second b.now)) }
{
    event_between(rules, first, a, second, b)
}

/// The stamp at which two different disks next hit each other, as [`pair_event`] tells it. Their numbers may come in
/// any order.
#[inline(always)]
pub fn event_between(rules: &Rules, i: u32, a: &Disk, j: u32, b: &Disk) -> Option<Stamp>
    requires checked { IsChecked rules.now }
    requires first_valid { IsValidDisk rules.now a.now }
    requires second_valid { IsValidDisk rules.now b.now }
    ensures rising { i < j → MatchOption result ((s : Stamp) → IsPairEvent rules.now i a.now j b.now s → ⊥)
        (IsOnly (IsPairEvent rules.now i a.now j b.now)) }
    ensures falling { j < i → MatchOption result ((s : Stamp) → IsPairEvent rules.now j b.now i a.now s → ⊥)
        (IsOnly (IsPairEvent rules.now j b.now i a.now)) }
{
    // Which number is lower can't be predicted, and it matters only if the disks hit each other: whether and when they
    // do is the same in either order.
    Some(stamp_at(i, a, j, b, touching_tick(rules, a, b)?))
}

/// A stamp that is that of the event of two different disks if they hit each other, which isn't told: whether they are
/// inside the box at that tick isn't tested. None says that they don't.
#[inline(always)]
pub fn chance_between(rules: &Rules, i: u32, a: &Disk, j: u32, b: &Disk) -> Option<Stamp>
    requires checked { IsChecked rules.now }
    requires first_valid { IsValidDisk rules.now a.now }
    requires second_valid { IsValidDisk rules.now b.now }
    ensures { MatchOption result (HaveNoEvent rules.now i a.now j b.now) (IsChance rules.now i a.now j b.now) }
{
    Some(stamp_at(i, a, j, b, only_chance(rules, a, b)?))
}

// The stamp of two disks that hit each other at this tick.
#[inline(always)]
fn stamp_at(i: u32, a: &Disk, j: u32, b: &Disk, tick: u64) -> Stamp
    requires { HaveBegun a.now b.now tick }
    ensures { result ≡ pair_stamp (min i j) a.now (max i j) b.now tick }
{
    Stamp {
        tick,
        round: round_at(a, b, tick),
        kind: Kind::Pair,
        first: i.min(j),
        second: i.max(j),
    }
}

// The greater of the marks of two disks at a tick. Both are 0 unless that is the later of their base ticks.
#[inline(always)]
fn round_at(a: &Disk, b: &Disk, tick: u64) -> u32
    requires { HaveBegun a.now b.now tick }
    ensures { result ≡ max (mark_at a.now tick) (mark_at b.now tick) }
{
    if tick == a.base.max(b.base) {
        a.mark_at(tick).max(b.mark_at(tick))
    } else {
        0
    }
}

/// Whether a stamp of a pair is that of the next event of two disks. It is tested by what defines such an event, and
/// nothing is predicted.
///
/// `a` and `b` are the disks of the lower and the higher of its numbers.
#[inline(always)]
pub fn is_pair_event(rules: &Rules, a: &Disk, b: &Disk, stamp: &Stamp) -> bool
    requires checked { IsChecked rules.now }
    requires first_valid { IsValidDisk rules.now a.now }
    requires second_valid { IsValidDisk rules.now b.now }
    requires pair { stamp.now.kind ≡ Pair }
    ensures { IsTrue result ↔ IsPairEvent rules.now stamp.now.first a.now stamp.now.second b.now stamp.now }
{
    if stamp.tick >= rules.end {
        return false;
    }
    let round = a.mark_at(stamp.tick).max(b.mark_at(stamp.tick));
    stamp.round == round && is_contact_tick(rules, a, b, stamp.tick)
}

// Whether a tick before the end is the contact tick of two disks.
#[inline(always)]
fn is_contact_tick(rules: &Rules, a: &Disk, b: &Disk, tick: u64) -> bool
    requires checked { IsChecked rules.now }
    requires first_valid { IsValidDisk rules.now a.now }
    requires second_valid { IsValidDisk rules.now b.now }
    requires before { tick < rules.now.end }
    ensures { IsTrue result ↔ IsContactTick rules.now a.now b.now tick }
{
    have_begun(a, b, tick) && touch_inside(rules, a, b, tick)
}

#[inline(always)]
fn have_begun(a: &Disk, b: &Disk, tick: u64) -> bool
    ensures { IsTrue result ↔ HaveBegun a.now b.now tick }
{
    a.base <= tick && b.base <= tick
}

// Whether two disks that have begun their courses are inside the box and in contact.
#[inline(always)]
fn touch_inside(rules: &Rules, a: &Disk, b: &Disk, tick: u64) -> bool
    requires checked { IsChecked rules.now }
    requires first_valid { IsValidDisk rules.now a.now }
    requires second_valid { IsValidDisk rules.now b.now }
    requires before { tick < rules.now.end }
    requires begun { HaveBegun a.now b.now tick }
    ensures { IsTrue result ↔ TouchInside rules.now a.now b.now tick }
{
    are_inside_at(rules, a, b, tick)
        && touch_at(
            rules,
            a,
            a.centre_at(rules, tick),
            b,
            b.centre_at(rules, tick),
        )
}

// Whether two disks that are inside the box at these places are in contact.
#[inline(always)]
fn touch_at(rules: &Rules, a: &Disk, p: Vector, b: &Disk, q: Vector) -> bool
    requires checked { IsChecked rules.now }
    requires first_valid { IsValidDisk rules.now a.now }
    requires second_valid { IsValidDisk rules.now b.now }
    requires first_inside { IsInside rules.now a.now p }
    requires second_inside { IsInside rules.now b.now q }
    ensures { IsTrue result ↔ TouchAt a.now p b.now q }
{
    let places = p.minus(q);
    let velocities = a.velocity().minus(b.velocity());
    let distance = distance_between(a, b);
    Approach::new(places, velocities, distance).is_contact()
}
