//! The sums.

ghost use Rattle.std.specs.Prelude.{◌≡◌, ◌*◌, ◌+◌, ◌^◌, ◌≤◌, ◌<◌, length, nat_abs, nat_lt, if◌then◌else◌, pos, ◌+ℤ◌, ◌*ℤ◌};
ghost use Rattle.plane_vectors.specs.Vectors.{vector, IsWithin};
ghost use Rattle.fixed_motion.specs.Rules.{IsChecked, IsIn, is_in};
ghost use Rattle.fixed_motion.specs.Motion.{IsInBox, centre_of};
ghost use Rattle.event_rules.specs.Conservation.{velocity_at};
ghost use Rattle.collision_sums.specs.Bounds.{AreNear, IsSummable, IsNear};
ghost use Rattle.collision_sums.specs.Sums as the;

use event_rules::{Change, Spot};
use fixed_motion::{Disk, Rules};
use plane_vectors::Vector;

/// Sums over the collisions in a part of the box so far. They stop at 2^128 - 1, which no run reaches.
#[derive(Clone, Copy, Debug, PartialEq, Eq)]
pub struct Sums {
    /// The number of collisions of two disks.
    pub pairs: u128,
    /// The sum of r · Δv over them, in squared units of length per tick.
    pub virial: u128,
    /// The number of collisions with sides.
    pub walls: u128,
    /// What the left side took of the momentum, in units of length per tick, for disks of mass one.
    pub left: u128,
    /// What the right side took.
    pub right: u128,
    /// What the bottom took.
    pub bottom: u128,
    /// What the top took.
    pub top: u128,
}

impl Sums {
    /// The sums before the first collision.
    pub fn none() -> Sums
        ensures { result ≡ the.no_sums }
    {
        Sums {
            pairs: 0,
            virial: 0,
            walls: 0,
            left: 0,
            right: 0,
            bottom: 0,
            top: 0,
        }
    }

    /// Adds a change of a state, if it happened in the part.
    pub fn add(&mut self, rules: &Rules, margin: u32, disks: &[Disk], change: &Change)
        requires rules { IsChecked rules.now }
        requires change { IsSummable disks.now change.now }
        ensures { self.new ≡ the.after_change rules.now margin disks.now self.old change.now }
    {
        match &change.second {
            Some(second) => {
                let before = velocity_before(disks, change.stamp.first);
                self.add_pair(rules, margin, before, &change.first, second);
            }
            None => self.add_wall(rules, margin, change.stamp.second, &change.first),
        }
    }

    fn add_pair(&mut self, rules: &Rules, margin: u32, before: Vector, first: &Disk, second: &Disk)
        requires rules { IsChecked rules.now }
        requires before { IsWithin (2 ^ 20) before }
        requires first { IsNear first.now }
        requires second { IsNear second.now }
        ensures { self.new ≡ the.after_pair rules.now margin self.old before first.now second.now }
    {
        if has_middle_in_part(rules, margin, first.centre(), second.centre()) {
            self.pairs = self.pairs.saturating_add(1);
            self.virial = self
                .virial
                .saturating_add(u128::from(virial_of(before, first, second)));
        }
    }

    fn add_wall(&mut self, rules: &Rules, margin: u32, side: u32, disk: &Disk)
        requires rules { IsChecked rules.now }
        requires disk { IsNear disk.now }
        ensures { self.new ≡ the.after_wall rules.now margin self.old side disk.now }
    {
        if is_along(rules, margin, side, disk) {
            self.take(side, taken_of(across_of(side, disk)));
        }
    }

    fn take(&mut self, side: u32, push: u128)
        ensures { self.new ≡ the.with_taken self.old side push }
    {
        self.walls = self.walls.saturating_add(1);
        match side {
            0 => self.left = self.left.saturating_add(push),
            1 => self.right = self.right.saturating_add(push),
            2 => self.bottom = self.bottom.saturating_add(push),
            _ => self.top = self.top.saturating_add(push),
        }
    }
}

// The velocity of a disk of a state, by its number; one that isn't there stands still.
fn velocity_before(disks: &[Disk], number: u32) -> Vector
    requires { AreNear disks.now }
    ensures value { result ≡ velocity_at disks.now number }
    ensures size { IsWithin (2 ^ 20) result }
{
    match disks.get(number as usize) {
        Some(disk) => disk.velocity(),
        None => Vector { x: 0, y: 0 },
    }
}

// The component of a velocity across a side.
fn across_of(side: u32, disk: &Disk) -> i64
    ensures { result ≡ the.across_of side disk.now }
{
    if side < 2 { disk.vx } else { disk.vy }
}

fn taken_of(across: i64) -> u128
    ensures { result ≡ the.taken_of across }
{
    2 * u128::from(across.unsigned_abs())
}

fn virial_of(before: Vector, first: &Disk, second: &Disk) -> u64
    requires before { IsWithin (2 ^ 20) before }
    requires first { IsNear first.now }
    requires second { IsNear second.now }
    ensures { result ≡ the.virial_of before first.now second.now }
{
    let apart = first.centre().minus(second.centre());
    let push = first.velocity().minus(before);
    apart.dot(push).unsigned_abs()
}

// Whether the middle of two places in the box is in the part.
fn has_middle_in_part(rules: &Rules, margin: u32, p: Vector, q: Vector) -> bool
    requires rules { IsChecked rules.now }
    requires first { IsInBox p }
    requires second { IsInBox q }
    ensures { result ≡ the.has_middle_in_part rules.now margin p q }
{
    is_middle_away(margin, rules.width, p.x, q.x) && is_middle_away(margin, rules.height, p.y, q.y)
}

// Whether the middle of two numbers is at least a margin from 0 and from a length.
fn is_middle_away(margin: u32, length: i64, a: i64, b: i64) -> bool
    requires length { IsIn (pos 0, pos (2 ^ 30)) length }
    requires first { IsIn (pos 0, pos (2 ^ 30)) a }
    requires second { IsIn (pos 0, pos (2 ^ 30)) b }
    ensures { result ≡ the.is_away (2 * margin) (pos 2 *ℤ length) (a +ℤ b) }
{
    is_away(2 * margin as u64, twice(length), together(a, b))
}

fn twice(length: i64) -> i64
    requires { IsIn (pos 0, pos (2 ^ 30)) length }
    ensures value { result ≡ pos 2 *ℤ length }
    ensures range { IsIn (pos 0, pos (2 ^ 31)) result }
{
    2 * length
}

fn together(a: i64, b: i64) -> i64
    requires first { IsIn (pos 0, pos (2 ^ 30)) a }
    requires second { IsIn (pos 0, pos (2 ^ 30)) b }
    ensures { result ≡ a +ℤ b }
{
    a + b
}

fn is_along(rules: &Rules, margin: u32, side: u32, disk: &Disk) -> bool
    requires rules { IsChecked rules.now }
    ensures { result ≡ the.is_along rules.now margin side disk.now }
{
    if side < 2 {
        is_away(margin as u64, rules.height, disk.y)
    } else {
        is_away(margin as u64, rules.width, disk.x)
    }
}

/// Whether a spot is in the part.
pub fn is_spot_in_part(rules: &Rules, margin: u32, spot: &Spot) -> bool
    requires rules { IsChecked rules.now }
    ensures { result ≡ the.is_in_part rules.now margin (the.spot_place spot.now) }
{
    is_away(margin as u64, rules.width, spot.x) && is_away(margin as u64, rules.height, spot.y)
}

// Whether a number is at least a margin from 0 and from a length.
fn is_away(margin: u64, length: i64, along: i64) -> bool
    requires margin { margin ≤ 2 ^ 33 }
    requires length { IsIn (pos 0, pos (2 ^ 31)) length }
    ensures { result ≡ the.is_away margin length along }
{
    let margin = margin as i64;
    margin <= along && along <= length - margin
}
