//! The squared gap of two disks on straight paths as a quadratic of the ticks, in 64 bits.

ghost use Rattle.std.specs.Prelude.{◌≡◌, ◌↔◌, ℤ, pos, ◌+ℤ◌, ◌*ℤ◌, ◌≤ℤ◌, ◌<ℤ◌, IsTrue};
ghost use Rattle.std.specs.Int.{int_wrap, w64};
ghost use Rattle.plane_vectors.specs.declared.Vector.{Vector};
ghost use Rattle.plane_vectors.specs.Vectors.{dot};
ghost use Rattle.contact_predictor.specs.Contact.{IsContact, IsOnlyContactAfter};
ghost use Rattle.contact_predictor.specs.Approach.{FitsApproach, IsApproachOf, IsFit, IsCourse, IsEarly, closing_after, gap_after};

use crate::roots::smaller_root;
use plane_vectors::Vector;

/// The quadratic a s^2 + 2 b s + c in the number s of ticks, for two disks on straight paths: their squared gap, which
/// is the squared distance of their centres less the squared distance at which they touch.
#[derive(Clone, Copy)]
pub struct Approach {
    /// The number a: the square of the relative velocity.
    pub square: i64,
    /// The number b: the scalar product of the separation and the relative velocity, negative if they approach.
    pub closing: i64,
    /// The number c: the squared gap now, negative if they overlap.
    pub gap: i64,
}

impl Approach {
    /// The quadratic of two disks at the separation `r` with the relative velocity `u`. If one of the three numbers
    /// doesn't fit 64 bits, nothing is said of the answer.
    #[inline(always)]
    pub fn new(r: Vector, u: Vector, distance: i64) -> Approach
        ensures { FitsApproach r u distance → IsApproachOf r u distance result }
    {
        Approach {
            square: wrapping_dot(u, u),
            closing: wrapping_dot(r, u),
            gap: wrapping_dot(r, r).wrapping_sub(distance.wrapping_mul(distance)),
        }
    }

    /// The same, if `square` is the square of the distance at which they touch.
    #[inline(always)]
    pub fn of_square(r: Vector, u: Vector, square: i64) -> Approach
        ensures { (distance : ℤ) → square ≡ distance *ℤ distance → FitsApproach r u distance → IsApproachOf r u distance result }
    {
        Approach {
            square: wrapping_dot(u, u),
            closing: wrapping_dot(r, u),
            gap: wrapping_dot(r, r).wrapping_sub(square),
        }
    }

    /// Whether the disks approach each other on paths that cross, if they don't overlap. The products take 128 bits.
    #[inline(always)]
    pub fn is_course(self) -> bool
        ensures { IsTrue result ↔ IsCourse self }
    {
        let product = i128::from(self.square) * i128::from(self.gap);
        let square = i128::from(self.closing) * i128::from(self.closing);
        (self.closing < 0) & (product < square)
    }

    /// Whether the disks overlap.
    #[inline(always)]
    pub fn overlap(self) -> bool
        ensures { IsTrue result ↔ (self.gap <ℤ pos 0) }
    {
        self.gap < 0
    }

    /// After how many ticks two disks that are apart, and approach each other on paths that cross, are at their last
    /// whole tick before they overlap.
    #[inline(always)]
    pub fn contact(self) -> u64
        requires fits { IsFit self }
        requires apart { pos 0 ≤ℤ self.gap }
        requires course { IsCourse self }
        ensures found { (r u : Vector) (distance : ℤ) → IsApproachOf r u distance self → IsOnlyContactAfter r u distance result }
        ensures early { IsEarly self result }
    {
        let ticks = smaller_root(self.square, self.closing, self.gap);
        if self.is_early(ticks) && self.ends_after(ticks) {
            ticks
        } else {
            self.contact_by_halving()
        }
    }

    // Whether this many ticks are at most c / |b|, as the smaller root is. For so many 64 bits are enough.
    #[inline(always)]
    fn is_early(self, ticks: u64) -> bool
        ensures { IsTrue result ↔ IsEarly self ticks }
    {
        u128::from(ticks) * u128::from(self.closing.unsigned_abs())
            <= u128::from(self.gap.unsigned_abs())
    }

    // The same as `contact`, by halving the span in which it must be: in as many steps as that has bits. It is seldom
    // called, so it is kept apart.
    #[inline(never)]
    fn contact_by_halving(self) -> u64
        requires fits { IsFit self }
        requires apart { pos 0 ≤ℤ self.gap }
        requires course { IsCourse self }
        ensures found { (r u : Vector) (distance : ℤ) → IsApproachOf r u distance self → IsOnlyContactAfter r u distance result }
        ensures early { IsEarly self result }
    {
        // The ticks at which the disks approach are the first ones, up to the contact.
        let mut low = 0;
        let mut high = self.gap.unsigned_abs() / self.closing.unsigned_abs() + 1;
        while high - low > 1 {
            let middle = low + (high - low) / 2;
            if self.after(middle as i64).is_approaching() {
                low = middle;
            } else {
                high = middle;
            }
        }
        low
    }

    // Whether they approach after `ticks` ticks for the last time.
    #[inline(always)]
    fn ends_after(self, ticks: u64) -> bool
        requires fits { IsFit self }
        requires apart { pos 0 ≤ℤ self.gap }
        requires course { IsCourse self }
        requires early { IsEarly self ticks }
        ensures { IsTrue result → (r u : Vector) (distance : ℤ) → IsApproachOf r u distance self →
            IsOnlyContactAfter r u distance ticks }
    {
        let then = self.after(ticks as i64);
        then.is_approaching() && !then.after(1).is_approaching()
    }

    /// Whether the disks are at their last whole tick before they overlap. If its numbers are greater than those of
    /// disks in a box, nothing is said of the answer.
    #[inline(always)]
    pub fn is_contact(self) -> bool
        ensures { IsFit self → (r u : Vector) (distance : ℤ) → IsApproachOf r u distance self →
            IsTrue result ↔ IsContact r u distance }
    {
        if self.overlap() {
            return false;
        }
        self.is_course() && !self.after(1).is_approaching()
    }

    // The quadratic of the same disks `ticks` ticks later.
    #[inline(always)]
    fn after(self, ticks: i64) -> Approach
        ensures square { result.square ≡ self.square }
        ensures closing { result.closing ≡ int_wrap w64 (closing_after self ticks) }
        ensures gap { result.gap ≡ int_wrap w64 (gap_after self ticks) }
    {
        let closing = wrapping_line(self.closing, self.square, ticks);
        let twice = self.closing.wrapping_add(closing);
        Approach {
            square: self.square,
            closing,
            gap: wrapping_line(self.gap, twice, ticks),
        }
    }

    #[inline(always)]
    fn is_approaching(self) -> bool
        ensures { IsTrue result ↔ ((pos 0 ≤ℤ self.gap) × (self.closing <ℤ pos 0)) }
    {
        self.gap >= 0 && self.closing < 0
    }
}

// The scalar product, wrapped to 64 bits.
#[inline(always)]
fn wrapping_dot(r: Vector, u: Vector) -> i64
    ensures { result ≡ int_wrap w64 (dot r u) }
{
    r.x.wrapping_mul(u.x).wrapping_add(r.y.wrapping_mul(u.y))
}

// The value after `ticks` ticks of a number that grows by `slope` a tick from `start`, wrapped to 64 bits.
#[inline(always)]
fn wrapping_line(start: i64, slope: i64, ticks: i64) -> i64
    ensures { result ≡ int_wrap w64 (start +ℤ (slope *ℤ ticks)) }
{
    start.wrapping_add(slope.wrapping_mul(ticks))
}
