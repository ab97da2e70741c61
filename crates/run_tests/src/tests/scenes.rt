//! Scenes that no rule refuses.

use fixed_motion::Scene;
use std::alloc::{AllocError, Global};
use std::process::Abort;
use test_scenes::{scene, scene_of};

/// The scene of some disks, with these sizes and limits. Stops a test if a rule refuses it.
pub fn valid_scene(
    rt: &impl Abort,
    alloc: Global,
    sizes: &str,
    rounds: u32,
    end: u32,
    disks: &str,
) -> Result<Scene, AllocError> {
    let text = scene(alloc, sizes, rounds, end, disks)?;
    match scene_of(alloc, text.as_str())? {
        Some(scene) => Ok(scene),
        None => Err(refused(rt, disks)),
    }
}

fn refused(rt: &impl Abort, disks: &str) -> AllocError {
    assert!(rt; false, "refused: {disks}");
    AllocError
}
