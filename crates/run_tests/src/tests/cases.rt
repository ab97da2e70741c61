//! Cases of tests, and the values that have to be found in them.

use std::fmt::Debug;
use std::process::Abort;

/// The number of a row, and the disks or the text of its scene.
pub type Case<'a> = (usize, &'a str);

/// The value found in a case has to be the one wanted.
pub fn expect<C: Debug + Copy, V: PartialEq + Debug + Copy>(
    rt: &impl Abort,
    case: C,
    found: V,
    wanted: V,
) {
    assert_eq!(rt; found, wanted, "{case:?}");
}
