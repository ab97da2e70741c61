//! Laws of sizes and ranges, for those who read the definitions alone.

ghost use Rattle.fixed_motion.specs.Rules.{RangesAgree};
ghost use Rattle.fixed_motion.specs.Motion.{SizesBounded};

/// There is no fault in the numbers of the rules if and only if each is in its range.
pub fn ranges_agree()
    ensures { RangesAgree }
{}

/// The radius of a disk is at least 1 and at most half the diameter of the rules, and two disks touch at a
/// distance of at least 2 and at most that diameter.
pub fn sizes_are_bounded()
    ensures { SizesBounded }
{}
