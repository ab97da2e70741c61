//! Impulses, worked out by hand.

use super::rows::expect;
use impulse_rounding::impulse;

#[test]
fn rounds_the_exact_impulse(rt: HostRuntime) {
    let cases = [
        // 14.03 and 5.26
        (impulse(-8, -3, 16, 0), (-14, -5)),
        // 0.24 and 0.42: rounded to nearest, the two wouldn't recede
        (impulse(-5, -9, 1, 0), (-1, -1)),
        // head on
        (impulse(-4, 0, 2, 0), (-2, 0)),
        // 9.76 and 7.32
        (impulse(-4, 3, 16, 1), (-10, 7)),
        // 1.5 and 1.5
        (impulse(-1, 1, 3, 0), (-2, 2)),
        // 4.5 and 1.5
        (impulse(3, -1, -5, 0), (5, -2)),
        // the largest numbers
        (
            impulse(-1073741824, -1073741824, 2097152, 2097152),
            (-2097152, -2097152),
        ),
        // just above a half and just below, and both just below
        (impulse(1073741824, 1073741823, -1, 0), (1, 0)),
        (impulse(1073741824, 1073741823, 0, -1), (1, 1)),
        // the product of 2^30 and the closing speed along r: 3 times 2^60, 2^62 but for 2^33, 2^62, 5 times 2^60
        (impulse(1073741824, 1073741823, -3, 0), (2, 1)),
        (impulse(1073741823, 1073741824, -4, 0), (2, 2)),
        (impulse(1073741824, 1073741823, -4, 0), (2, 2)),
        (impulse(1073741824, 1073741823, -5, 0), (3, 2)),
    ];
    for (row, &(found, want)) in cases.iter().enumerate() {
        expect(&rt, row, found, want);
    }
}
