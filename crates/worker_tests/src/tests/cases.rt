//! Cases of tests, and the values that have to be found in them.

use std::fmt::Debug;
use std::process::Abort;

/// The value found in a case has to be the one wanted.
pub fn expect<C: Debug + Copy, V: PartialEq + Debug + Copy>(
    rt: &impl Abort,
    case: C,
    found: V,
    wanted: V,
) {
    assert_eq!(rt; found, wanted, "{case:?}");
}
