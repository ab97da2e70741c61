//! Rows of tables, each with the values that have to be found.

ghost use Rattle.std.specs.Prelude.{IsTrue};
ghost use Rattle.fixed_motion.specs.Rules.{IsChecked};
ghost use Rattle.fixed_motion.specs.Motion.{IsValidDisk};

use fixed_motion::{Disk, Rules};
use std::fmt::Debug;
use std::process::Abort;

/// The value found for a row has to be the one wanted.
pub(super) fn expect<V: PartialEq + Debug + Copy>(
    rt: &impl Abort,
    row: usize,
    found: V,
    wanted: V,
) {
    assert!(rt; found == wanted, "row {row}: {found:?}, not {wanted:?}");
}

/// Whether the rules are valid, and a disk by them.
pub(super) fn is_valid(rules: &Rules, a: &Disk) -> bool
    ensures checked { IsTrue result → IsChecked rules.now }
    ensures disk { IsTrue result → IsValidDisk rules.now a.now }
{
    rules.check().is_ok() && a.is_valid(rules)
}
