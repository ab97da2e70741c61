//! Keys as numbers, which are compared at once and not part by part.

use event_stamps::{Kind, Stamp};
use std::marker::Model;

// How many rounds a number distinguishes. This and the next two are powers of two, so that numbers are put together and
// taken apart by shifts.
const ROUNDS: u128 = 1 << 17;

// How many kinds.
const KINDS: u128 = 1 << 2;

// How many disks.
const DISKS: u128 = 1 << 16;

// The number of no key, above those of all stamps.
const NO_KEY: u128 = u128::MAX;

/// A key, a stamp or none, as a number of 16 bytes. The numbers are ordered as the keys are, and no key is
/// the greatest of all. The parts of a stamp are in the ranges of the events of a run.
#[derive(Clone, Copy)]
pub struct Packed {
    number: u128,
}

impl Model for Packed {
    ghost use Rattle.event_tree.specs.Keys.{Key};
    ghost use Rattle.event_tree.specs.Packing.{pack, unpack, IsPacked};

    ghost Value = { Key };

    ghost view = { λ a. unpack a.number };

    ghost invariant = { λ a. IsPacked a.number };

    ghost inverse = { λ key. record { number = pack key } };

    ghost inverse_ok = { λ a h i. record { number = h.exact i } };
}

ghost use Rattle.std.specs.Prelude.{◌≡◌, ◌↔◌, ◌<◌, ◌^◌, IfSome, IsTrue};
ghost use Rattle.event_stamps.specs.declared.Stamp.{Stamp};
ghost use Rattle.event_stamps.specs.Order.{Before, kind_number, IsInRange};
ghost use Rattle.event_stamps.specs.Least.{earlier_of};
ghost use Rattle.event_tree.specs.Keys.{IsKeyBefore};
ghost use Rattle.event_tree.specs.Packing.{pack, unpack, number_of_stamp, stamp_of_number, kind_of};
ghost use Rattle.event_tree.specs.Packing.{HasRoom, IsPacked};

impl Packed {
    /// A key, packed.
    #[inline(always)]
    pub fn new(key: Option<Stamp>) -> Packed
        requires { IfSome key IsInRange }
        ensures { result ≡ key }
    {
        Packed { number: pack(key) }
    }

    /// The key.
    #[inline(always)]
    pub fn key(self) -> Option<Stamp>
        ensures value { result ≡ self }
        ensures room { IfSome result HasRoom }
    {
        unpack(self.number)
    }

    // Its number.
    #[inline(always)]
    pub(crate) fn number(self) -> u128
        ensures key { unpack result ≡ self }
        ensures packed { IsPacked result }
    {
        self.number
    }

    // The key that has a number.
    #[inline(always)]
    pub(crate) fn numbered(number: u128) -> Packed
        requires { IsPacked number }
        ensures { result ≡ unpack number }
    {
        Packed { number }
    }

    /// Whether it is the same key.
    #[inline(always)]
    pub fn is(self, other: Packed) -> bool
        ensures { IsTrue result ↔ self ≡ other }
    {
        self.number == other.number
    }

    /// Whether it comes before another one; no key comes after all stamps.
    #[inline(always)]
    pub fn is_before(self, other: Packed) -> bool
        ensures { IsTrue result ↔ IsKeyBefore self other }
    {
        self.number < other.number
    }

    /// The key, if it comes after another one, which isn't none; else none.
    #[inline(always)]
    pub fn if_after(self, last: Packed) -> Packed
        ensures same { (s : Stamp) → last ≡ Some s → IfSome self (Before s) → result ≡ self }
        ensures after { (s : Stamp) → last ≡ Some s → IfSome result (Before s) }
        ensures room { IfSome result HasRoom }
    {
        if last.number < self.number {
            self
        } else {
            Packed::new(None)
        }
    }

    /// The earlier of two keys that are both there; else the one that is there, if any.
    #[inline(always)]
    pub fn earlier(self, other: Packed) -> Packed
        ensures { result ≡ earlier_of self other }
    {
        if other.number < self.number {
            other
        } else {
            self
        }
    }
}

// The number of a key.
#[inline(always)]
fn pack(key: Option<Stamp>) -> u128
    requires { IfSome key IsInRange }
    ensures value { result ≡ pack key }
    ensures room { IfSome key HasRoom }
{
    match key {
        Some(stamp) => number_of(stamp),
        None => NO_KEY,
    }
}

// The key that has a number.
fn unpack(number: u128) -> Option<Stamp>
    requires { IsPacked number }
    ensures { result ≡ unpack number }
{
    if number == NO_KEY {
        None
    } else {
        Some(stamp_of(number))
    }
}

// The number of a stamp.
fn number_of(stamp: Stamp) -> u128
    requires { IsInRange stamp }
    ensures value { result ≡ number_of_stamp stamp }
    ensures room { HasRoom stamp }
{
    let time = u128::from(stamp.tick) * ROUNDS + u128::from(stamp.round);
    let event = time * KINDS + kind_number(stamp.kind);
    (event * DISKS + u128::from(stamp.first)) * DISKS + u128::from(stamp.second)
}

// The stamp that has a number.
fn stamp_of(number: u128) -> Stamp
    requires { HasRoom (stamp_of_number number) }
    ensures { result ≡ stamp_of_number number }
{
    let event = number / DISKS / DISKS;
    let time = event / KINDS;
    Stamp {
        tick: (time / ROUNDS) as u64,
        round: (time % ROUNDS) as u32,
        kind: kind_of(event % KINDS),
        first: (number / DISKS % DISKS) as u32,
        second: (number % DISKS) as u32,
    }
}

// The number of a kind.
pub(crate) fn kind_number(kind: Kind) -> u128
    ensures value { result ≡ kind_number kind }
    ensures small { result < 3 }
{
    match kind {
        Kind::Cross => 0,
        Kind::Wall => 1,
        Kind::Pair => 2,
    }
}

// The kind that has a number.
pub(crate) fn kind_of(number: u128) -> Kind
    ensures { result ≡ kind_of number }
{
    if number == 0 {
        return Kind::Cross;
    }
    if number == 1 {
        return Kind::Wall;
    }
    Kind::Pair
}
