//! Workers go on with the work beside a burst.

ghost use Rattle.local_run.specs.Bursts.{AreTogether};
ghost use Rattle.run_floors.specs.Regions.{StandOfRun};

use super::cases::expect;
use super::regions::opened;
use fixed_motion::Scene;
use region_core::{Beside, OpenGate, Region};
use region_locks::Origin;
use region_workers::{Bell, Workers};
use std::alloc::{AllocError, Global};
use std::marker::Brand;
use std::test::Fail;
use test_scenes::{LONG, scene, scene_of};

// One disk in each region that bounces up and down, every other tick or so.
const BOUNCING_APART: &str = "[50, 10, 0, 8], [150, 10, 0, 8], [250, 10, 0, 8], [350, 10, 0, 8]";

// Work of `all` pieces, some of which are done.
#[derive(Drop)]
struct Pieces {
    done: u32,
    all: u32,
}

impl Beside<()> for Pieces {
    ghost fits = { λ x u. Unit {0} };

    ghost goes = { λ x u y v. Unit {0} };

    ghost stays = { λ x u. tt };

    ghost goes_further = { λ x y z u v w a b. tt };

    ghost still_fits = { λ x y u v a b. tt };

    fn go_on(&mut self, _lent: &mut ()) -> bool {
        self.done = self.all.min(self.done.saturating_add(1));
        self.done < self.all
    }

    fn left(&self) -> usize {
        self.all.saturating_sub(self.done) as usize
    }
}

// Has the first of two workers make a burst with this many pieces of work beside it. Nobody comes as the other one.
fn burst_beside<O: Origin>(
    alloc: Global,
    _scene: &Scene,
    regions: Vec<Region>,
    pieces: &mut Pieces,
) -> Result<(), AllocError>
    requires together { AreTogether regions.items }
    requires stand { StandOfRun O.opening regions.items }
{
    let workers = Workers {
        workers: 2,
        turns: 64,
        steps: 64,
        gate: &OpenGate,
    };
    let bell: Bell<O> = Bell::new(alloc, 2)?;
    let _worked = workers.burst(&bell, alloc, regions, pieces, &mut ())?;
    Ok(())
}

// How many of `all` pieces are done after a burst; none if there is no scene.
fn done_beside(alloc: Global, all: u32) -> Result<Option<u32>, AllocError> {
    let text = scene(alloc, LONG, 8, 1000, BOUNCING_APART)?;
    let Some(scene) = scene_of(alloc, text.as_str())? else {
        return Ok(None);
    };
    Ok(Some(done_in(alloc, &scene, all)?))
}

// Here the proof picks the state with which the run begins.
fn done_in(alloc: Global, scene: &Scene, all: u32) -> Result<u32, AllocError> {
    let mut pieces = Pieces { done: 0, all };
    burst_beside::<Brand>(alloc, scene, opened(alloc, scene)?, &mut pieces)?;
    Ok(pieces.done)
}

// In the second half of a burst the pieces come before the first worker's own regions, so it does all of them.
#[test]
fn workers_go_on_with_what_is_beside(rt: HostRuntime) -> Result<(), Fail> {
    let found = done_beside(rt.alloc(), 8)?;
    expect(&rt, "pieces", found, Some(8));
    Ok(())
}
