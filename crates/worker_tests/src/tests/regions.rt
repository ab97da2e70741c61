//! Regions of scenes, and a scene without disks.

ghost use Rattle.std.specs.Prelude.{◌<◌, ◌^◌, length, IfOk};
ghost use Rattle.cell_grid.specs.Grid.{IsAsked};
ghost use Rattle.cell_sequence.specs.State.{opening_state};
ghost use Rattle.local_run.specs.Bursts.{AreTogether};
ghost use Rattle.run_floors.specs.Regions.{StandOfRun};

use commit_horizon::Committed;
use fixed_motion::{Rules, Scene};
use region_core::Region;
use std::alloc::{AllocError, Global};

/// A box of five columns of 20 units.
pub const RULES: Rules = Rules {
    width: 100,
    height: 20,
    diameter: 4,
    speed_limit: 8,
    round_limit: 8,
    end: 20,
};

/// A scene without disks; none if its rules are refused.
pub fn empty_scene(alloc: Global) -> Option<Scene> {
    empty_scene_of(alloc, RULES)
}

/// The scene of these rules without disks; none if they are refused.
pub fn empty_scene_of(alloc: Global, rules: Rules) -> Option<Scene> {
    match rules.check() {
        Ok(()) => Some(Scene::new(rules, Vec::new(alloc), None)),
        Err(_) => None,
    }
}

/// The number of regions that are asked for.
pub const REGIONS: u32 = 4;

/// The regions with which the run of a scene begins.
pub fn opened(alloc: Global, scene: &Scene) -> Result<Vec<Region>, AllocError>
    ensures few { IfOk result (λ regions. length regions.items < 2 ^ 32) }
    ensures together { IfOk result (λ regions. AreTogether regions.items) }
    ensures stand { IfOk result (λ regions. StandOfRun (opening_state scene.now 4) regions.items) }
{
    opened_in(alloc, scene, REGIONS)
}

/// The same if this many are asked for.
pub fn opened_in(alloc: Global, scene: &Scene, asked: u32) -> Result<Vec<Region>, AllocError>
    requires { IsAsked asked }
    ensures few { IfOk result (λ regions. length regions.items < 2 ^ 32) }
    ensures together { IfOk result (λ regions. AreTogether regions.items) }
    ensures stand { IfOk result (λ regions. StandOfRun (opening_state scene.now asked) regions.items) }
{
    // The clause of this call says that the scene is valid, so it has a run.
    let _count = scene.count();
    let committed = Committed::open(alloc, scene, asked)?;
    committed.open_all(alloc)
}
