//! When two disks on straight paths touch, and how long a coordinate keeps within its bounds.
//!
//! The contact is the last whole tick not after the touching, in place of the smaller root of the
//! quadratic of Alder and Wainwright (Studies in Molecular Dynamics I, 1959).
//!
//! Two disks are given by the separation `r` of their centres in units of length, their relative
//! velocity `u` in units of length per tick, and the distance of their centres at which they touch.
#![tactic(auto)]

ghost use Rattle.std.specs.Prelude.{◌≡◌, ◌↔◌, ◌^◌, ◌≤◌, ℕ, pos, ◌≤ℤ◌, nat_abs, MatchOption, IfSome, IsNone};
ghost use Rattle.plane_vectors.specs.Vectors.{vector};
ghost use Rattle.contact_predictor.specs.Contact.{coordinate_after, IsContactAfter, StaysUntil};
ghost use Rattle.contact_predictor.specs.Laws.{FarPairsDontTouch};

mod approach;
mod roots;

pub use approach::Approach;
use plane_vectors::Vector;

/// How many ticks the coordinate `x`, in units of length, keeps within `lo` and `hi` at `v` units per tick.
///
/// None if it stands still. All four are at most 2^31 in size.
pub fn stay(lo: i64, hi: i64, x: i64, v: i64) -> Option<u64>
    requires low { lo ≤ℤ x }
    requires high { x ≤ℤ hi }
    requires lo_size { nat_abs lo ≤ 2 ^ 31 }
    requires hi_size { nat_abs hi ≤ 2 ^ 31 }
    requires x_size { nat_abs x ≤ 2 ^ 31 }
    requires v_size { nat_abs v ≤ 2 ^ 31 }
    ensures still { IsNone result ↔ (v ≡ pos 0) }
    ensures last { IfSome result (StaysUntil lo hi x v) }
    ensures short { IfSome result (λ s. s ≤ 2 ^ 32) }
{
    if v > 0 {
        Some((hi - x) as u64 / v as u64)
    } else if v < 0 {
        Some((x - lo) as u64 / (-v) as u64)
    } else {
        None
    }
}

/// After how many ticks, at most `span`, two disks are at their last whole tick before they overlap.
///
/// The separation of the centres is (`rx`, `ry`) units of length now and at most 2^30 in each component now and after
/// `span` ticks; the relative velocity is (`ux`, `uy`) units per tick, at most 2^21 in each component. The diameter is
/// 2 to 2^30 units, the span at most 2^30 ticks.
///
/// None if no tick up to `span` is the last before a contact: the disks overlap already, don't approach, pass each
/// other, are merely tangent, or touch later.
pub fn contact(rx: i64, ry: i64, ux: i64, uy: i64, diameter: i64, span: u64) -> Option<u64>
    requires rx_size { nat_abs rx ≤ 2 ^ 30 }
    requires ry_size { nat_abs ry ≤ 2 ^ 30 }
    requires ux_size { nat_abs ux ≤ 2 ^ 21 }
    requires uy_size { nat_abs uy ≤ 2 ^ 21 }
    requires diameter_least { pos 2 ≤ℤ diameter }
    requires diameter_size { nat_abs diameter ≤ 2 ^ 30 }
    requires span_size { span ≤ 2 ^ 30 }
    requires rx_later { nat_abs (coordinate_after rx ux span) ≤ 2 ^ 30 }
    requires ry_later { nat_abs (coordinate_after ry uy span) ≤ 2 ^ 30 }
    ensures found { MatchOption result ((s : ℕ) → s ≤ span → ¬ IsContactAfter (vector rx ry) (vector ux uy) diameter s)
        (λ s. (s ≤ span) × IsContactAfter (vector rx ry) (vector ux uy) diameter s) }
    ensures only { IfSome result (λ s. (t : ℕ) → IsContactAfter (vector rx ry) (vector ux uy) diameter t → t ≡ s) }
{
    let approach = Approach::new(Vector { x: rx, y: ry }, Vector { x: ux, y: uy }, diameter);
    if approach.overlap() || !approach.is_course() {
        return None;
    }
    let ticks = approach.contact();
    if ticks <= span { Some(ticks) } else { None }
}

/// Two disks have no contact now if their separation on an axis is at least the sum of the distance at which they touch
/// and the way of one tick on that axis.
pub fn far_pairs_dont_touch()
    ensures { FarPairsDontTouch }
{}
