//! The two scenes of a run that is cut at a tick.

ghost use Rattle.std.specs.Prelude.{◌≡◌, ◌≤◌, IfOk};
ghost use Rattle.event_rules.specs.Run.{IsRun};
ghost use Rattle.event_rules.specs.declared.outcome.Outcome.TheVariants.{Done};
ghost use Rattle.resume.specs.Parts.{before_scene, rest_scene, ending_at, disks_from, started, IsEndOf};
ghost use Rattle.resume.specs.Laws.{Resumes};

use event_rules::{FinalState, Spot};
use fixed_motion::{Disk, Rules, Scene};
use std::alloc::{AllocError, Global};

/// The scene whose run ends at a tick, which is at most the scene's own last one.
///
/// # Errors
/// Out of memory.
pub fn before(alloc: Global, scene: &Scene, at: u64) -> Result<Scene, AllocError>
    requires { at ≤ scene.now.rules.end }
    ensures { IfOk result (λ part. part ≡ before_scene scene.now at) }
{
    let disks = scene.disks.as_slice().to_vec(alloc)?;
    let rules = ending_at(&scene.rules, at);
    Ok(Scene::new(rules, disks, scene.every))
}

/// The rest of a scene after a tick, as a scene that starts there. `state` says where its disks are at the tick. The
/// rest doesn't ask for the states of all disks, since its ticks are others.
///
/// # Errors
/// Out of memory.
pub fn rest(alloc: Global, scene: &Scene, at: u64, state: &FinalState) -> Result<Scene, AllocError>
    requires at { at ≤ scene.now.rules.end }
    requires state { IsEndOf (before_scene scene.now at) state.now }
    ensures scene { IfOk result (λ part. part ≡ rest_scene scene.now at state.now) }
    ensures resumes { IfOk result (λ part. (changes : _) →
        IsRun (before_scene scene.now at) changes (Done state.now) → Resumes scene.now at changes part) }
{
    let disks = starts(alloc, scene.disks.as_slice(), state.as_slice())?;
    let rules = ending_at(&scene.rules, scene.rules.end - at);
    Ok(Scene::new(rules, disks, None))
}

// The same rules with another last tick.
fn ending_at(rules: &Rules, end: u64) -> Rules
    ensures { result ≡ ending_at end rules.now }
{
    let mut other = *rules;
    other.end = end;
    other
}

// The records of disks of these sizes that start at these spots.
fn starts(alloc: Global, disks: &[Disk], spots: &[Spot]) -> Result<Vec<Disk>, AllocError>
    ensures { IfOk result (λ made. made.items ≡ disks_from disks.now spots.now) }
{
    disks
        .iter()
        .zip(spots)
        .map(|(disk, spot)| start(disk, spot))
        .collect(alloc)
}

// The record of a disk that starts at a spot.
fn start(disk: &Disk, spot: &Spot) -> Disk
    ensures { result ≡ started (disk.now, spot.now) }
{
    Disk {
        x: spot.x,
        y: spot.y,
        vx: spot.vx,
        vy: spot.vy,
        size: disk.size,
        base: 0,
        mark: 0,
    }
}
