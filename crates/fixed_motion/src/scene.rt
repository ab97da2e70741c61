//! Scenes: what a run begins with.

use crate::{Disk, Rules};
use std::marker::Model;

/// The greatest number of disks.
pub const MAX_DISKS: usize = 65_536;

/// A valid scene.
///
/// - Its rules are checked.
/// - It has at most [`MAX_DISKS`] disks, each inside the box, of a size that the rules allow, with base tick and mark
///   0, and with no component of the velocity above the speed limit. No two overlap.
/// - If `every` is there, each disk's state is wanted again and again, that many ticks apart.
#[derive(Drop)]
pub struct Scene {
    /// The rules.
    pub rules: Rules,
    /// The disks, numbered from 0.
    pub disks: Vec<Disk>,
    /// The state of all disks is asked for at each multiple of this many ticks, 1 to [`MAX_END`](crate::MAX_END), below
    /// the end.
    pub every: Option<u64>,
}

impl Model for Scene {
    ghost use Rattle.fixed_motion.specs.Scene.{SceneData, IsValidScene};

    ghost Value = { SceneData };

    ghost view = { λ s. record { rules = s.rules; disks = s.disks.items; every = s.every } };

    ghost invariant = { λ s. IsValidScene (record { rules = s.rules; disks = s.disks.items; every = s.every }) };
}

ghost use Rattle.std.specs.Prelude.{◌≡◌, length};
ghost use Rattle.fixed_motion.specs.Scene.{SceneData, IsValidScene};

impl Scene {
    /// The scene with these rules, disks and state ticks, which are known to make a valid one.
    pub fn new(rules: Rules, disks: Vec<Disk>, every: Option<u64>) -> Scene
        requires { IsValidScene (record { rules = rules; disks = disks.items; every = every }) }
        ensures { result ≡ record { rules = rules; disks = disks.items; every = every } }
    {
        Scene {
            rules,
            disks,
            every,
        }
    }

    /// The number of disks.
    pub fn count(&self) -> u32
        ensures count { result ≡ length self.now.disks }
        ensures valid { IsValidScene self.now }
    {
        self.disks.len() as u32
    }
}
