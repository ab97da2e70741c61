//! Laws of stamps, for those who read the definitions alone.
#![tactic(auto)]

ghost use Rattle.std.specs.Cmp.{IsTotalOrder};
ghost use Rattle.std.proofs.lemmas.Map.Lookups.{CmpEqualImpliesEq};
ghost use Rattle.event_stamps.specs.Order.{stamp_cmp};
ghost use Rattle.event_stamps.specs.Laws.{RanksAgree, LeastOrNone, CrossBefore, NoneBeforeFirst};

/// Stamps are ordered totally.
pub fn order_is_total()
    ensures { IsTotalOrder stamp_cmp }
{}

/// Only equal stamps compare as equal.
pub fn order_is_exact()
    ensures { CmpEqualImpliesEq stamp_cmp }
{}

/// The rank of a stamp, one number, orders stamps as their order does.
pub fn ranks_agree()
    ensures { RanksAgree }
{}

/// Of the stamps with ranks below a bound that pass a test there is a least one, or there are none.
pub fn least_or_none()
    ensures { LeastOrNone }
{}

/// Within a tick a crossing of round 0 is before each collision.
pub fn cross_before()
    ensures { CrossBefore }
{}

/// No stamp is before the first of all.
pub fn none_before_first()
    ensures { NoneBeforeFirst }
{}
