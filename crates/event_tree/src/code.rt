//! Keys as numbers of 8 bytes, if they are small.

ghost use Rattle.std.specs.Prelude.{◌≡◌, ◌≢◌, ◌↔◌, ◌-◌, ◌<◌, ◌^◌, Some, None, IfSome, IsTrue};
ghost use Rattle.event_stamps.specs.declared.Stamp.{Stamp};
ghost use Rattle.event_stamps.specs.declared.Kind.TheVariants.{Cross, Pair};
ghost use Rattle.event_stamps.specs.Order.{Before, IsInRange};
ghost use Rattle.event_stamps.specs.Least.{earlier_of};
ghost use Rattle.event_tree.specs.Keys.{IsKeyBefore};
ghost use Rattle.event_tree.specs.Packing.{HasRoom, IsPacked};
ghost use Rattle.event_tree.specs.Codes.{narrowed, widened, key_of, HasCode, IsCoded};

use crate::packed::{Packed, kind_number, kind_of};
use event_stamps::{Kind, Stamp};
use std::marker::Model;

// How many numbers belong to one tick.
const TICK: u128 = 1 << 51;

// How many codes belong to one tick. Both are powers of two, so that codes are put together and taken apart by shifts.
const CODES: u64 = 1 << 37;

// How many ticks, rounds, kinds and disks codes distinguish.
const TICKS: u64 = 1 << 27;

const ROUNDS: u64 = 1 << 3;

const KINDS: u64 = 1 << 2;

const DISKS: u64 = 1 << 16;

// The bits of a round that have no room in a code, as a power of two.
const ROUNDS_LEFT_OUT: u128 = 1 << 14;

// The number of no key, and its code, above those of all stamps.
const NO_KEY: u128 = u128::MAX;

const NO_CODE: u64 = u64::MAX;

/// A key, a stamp or none, as a number of 8 bytes: its number of 16 bytes without the upper 14 bits of the round, which
/// are 0. The codes are ordered as the keys are, and no key is the greatest of all.
#[derive(Clone, Copy)]
pub struct Code {
    code: u64,
}

impl Model for Code {
    ghost use Rattle.event_tree.specs.Keys.{Key};
    ghost use Rattle.event_tree.specs.Packing.{pack};
    ghost use Rattle.event_tree.specs.Codes.{key_of, narrowed, IsCode};

    ghost Value = { Key };

    ghost view = { λ a. key_of a.code };

    ghost invariant = { λ a. IsCode a.code };

    ghost inverse = { λ key. record { code = narrowed (pack key) } };

    ghost inverse_ok = { λ a h i. record { code = h.exact i } };
}

impl Code {
    /// No key.
    #[inline(always)]
    pub fn none() -> Code
        ensures { result ≡ None }
    {
        Code { code: NO_CODE }
    }

    /// The code of a key; none if the key doesn't fit.
    #[inline(always)]
    pub fn of(key: Packed) -> Option<Code>
        ensures { IfSome result (λ code. code ≡ key) }
    {
        let number = key.number();
        if has_code(number) {
            Some(Code {
                code: narrowed(number),
            })
        } else {
            None
        }
    }

    /// The code of a disk's crossing in round 0.
    #[inline(always)]
    pub fn crossing(tick: u64, disk: u32) -> Code
        requires tick { tick < 2 ^ 27 }
        requires disk { disk < 2 ^ 16 }
        ensures { result ≡ Some (record { tick = tick; round = 0; kind = Cross; first = disk; second = 0 }) }
    {
        Code::of_stamp(Stamp {
            tick,
            round: 0,
            kind: Kind::Cross,
            first: disk,
            second: 0,
        })
    }

    /// The code of an event of two disks, the lower one first.
    #[inline(always)]
    pub fn pair(tick: u64, round: u32, first: u32, second: u32) -> Code
        requires tick { tick < 2 ^ 27 }
        requires round { round < 8 }
        requires first { first < 2 ^ 16 }
        requires second { second < 2 ^ 16 }
        ensures { result ≡ Some (record { tick = tick; round = round; kind = Pair; first = first; second = second }) }
    {
        Code::of_stamp(Stamp {
            tick,
            round,
            kind: Kind::Pair,
            first,
            second,
        })
    }

    /// A bound for codes: those of the stamps before this one are before it, and no others.
    pub fn limit(stamp: &Stamp) -> Code
        requires { IsInRange stamp.now }
        ensures { (s : Stamp) → IsCoded s → (IsKeyBefore (Some s) result ↔ Before s stamp.now) }
    {
        if stamp.tick >= TICKS {
            return Code::none();
        }
        if u64::from(stamp.round) < ROUNDS {
            return Code::of_stamp(*stamp);
        }
        // All codes of its tick are of earlier rounds.
        let next = stamp.tick + 1;
        if next < TICKS {
            Code::of_stamp(Stamp::end_of(next))
        } else {
            Code::none()
        }
    }

    // The code of a stamp.
    #[inline(always)]
    fn of_stamp(stamp: Stamp) -> Code
        requires { IsCoded stamp }
        ensures { result ≡ Some stamp }
    {
        let time = stamp.tick * ROUNDS + u64::from(stamp.round);
        let event = time * KINDS + kind_number(stamp.kind) as u64;
        Code {
            code: (event * DISKS + u64::from(stamp.first)) * DISKS + u64::from(stamp.second),
        }
    }

    /// The key.
    #[inline(always)]
    pub fn stamp(self) -> Option<Stamp>
        ensures value { result ≡ self }
        ensures room { IfSome result HasRoom }
        ensures coded { IfSome result IsCoded }
    {
        if self.code == NO_CODE {
            None
        } else {
            Some(stamp_of(self.code))
        }
    }

    /// The key, packed.
    #[inline(always)]
    pub fn packed(self) -> Packed
        ensures { result ≡ self }
    {
        Packed::numbered(widened(self.code))
    }

    /// Whether it is the same key.
    #[inline(always)]
    pub fn is(self, other: Code) -> bool
        ensures { IsTrue result ↔ self ≡ other }
    {
        self.code == other.code
    }

    /// Whether it comes before another one; no key comes after all stamps.
    #[inline(always)]
    pub fn is_before(self, other: Code) -> bool
        ensures { IsTrue result ↔ IsKeyBefore self other }
    {
        self.code < other.code
    }

    /// Whether it is no key or that of a pair's event: both have the upper bit of the kind.
    #[inline(always)]
    pub fn is_pair_or_none(self) -> bool
        ensures { IsTrue result ↔ IfSome self (λ stamp. stamp.kind ≡ Pair) }
    {
        self.code / (2 * DISKS * DISKS) % 2 == 1
    }

    /// The earlier of two keys that are both there; else the one that is there, if any.
    #[inline(always)]
    pub fn earlier(self, other: Code) -> Code
        ensures { result ≡ earlier_of self other }
    {
        if other.code < self.code { other } else { self }
    }
}

// Whether the key of a number has a code: its tick is below 2^27 and its round below 8, or it is no key.
#[inline(always)]
fn has_code(number: u128) -> bool
    ensures { IsTrue result ↔ HasCode number }
{
    number == NO_KEY
        || (number / u128::from(CODES) % ROUNDS_LEFT_OUT == 0 && number / TICK < u128::from(TICKS))
}

// The code of a number.
#[inline(always)]
fn narrowed(number: u128) -> u64
    ensures { result ≡ narrowed number }
{
    let tick = (number / TICK % u128::from(TICKS)) as u64;
    tick * CODES + (number % u128::from(CODES)) as u64
}

// The number of a code.
#[inline(always)]
fn widened(code: u64) -> u128
    ensures { result ≡ widened code }
{
    if code == NO_CODE {
        return NO_KEY;
    }
    u128::from(code / CODES) * TICK + u128::from(code % CODES)
}

// The stamp of a code that isn't that of no key.
#[inline(always)]
fn stamp_of(code: u64) -> Stamp
    requires { code ≢ (2 ^ 64 - 1) }
    ensures key { key_of code ≡ Some result }
    ensures coded { IsCoded result }
{
    let event = code / DISKS / DISKS;
    let time = event / KINDS;
    Stamp {
        tick: time / ROUNDS,
        round: (time % ROUNDS) as u32,
        kind: kind_of(u128::from(event % KINDS)),
        first: (code / DISKS % DISKS) as u32,
        second: (code % DISKS) as u32,
    }
}
