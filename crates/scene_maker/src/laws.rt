//! The law of the scenes that are made, for those who read the definitions alone.

ghost use Rattle.scene_maker.specs.Laws.{OneScene};

/// For each number and number of disks exactly one scene is made, and it is valid.
pub fn one_scene()
    ensures { OneScene }
{}
