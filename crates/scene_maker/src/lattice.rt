//! Scenes that are made from a number.

ghost use Rattle.std.specs.Prelude.{◌≡◌, ℕ, ◌+◌, ◌*◌, ◌<◌, ◌≤◌, pos, IfOk};
ghost use Rattle.scene_maker.specs.Made.{IsSide, IsMade, made_rules, made_disk, state_after, drawn};

use fixed_motion::{Disk, MAX_DISKS, Rules, Scene};
use std::alloc::{AllocError, Global};

// The diameter of each disk, in units of length.
const DIAMETER: i64 = 1_024;

// The side of the square that each disk has for itself, in units of length.
const SPACING: i64 = 2_048;

/// The scene of a number, with `count` disks, at most [`MAX_DISKS`](fixed_motion::MAX_DISKS).
///
/// The disks stand in a square lattice, row after row from the bottom, each from left to right. Each has a diameter of
/// 1,024 units of length and stands in the middle of a square of 2,048 units, so neighbours are 1,024 units apart and
/// the walls 512 away. The box is the smallest square of such squares that has room for all disks, and has at least
/// one. The velocity components are whole numbers from -64 to 64 units of length per tick, which a linear congruential
/// generator draws: its state begins with the number, and each disk in its turn takes one draw for its velocity to the
/// right and then one for its velocity upwards. The speed limit is 512, the round limit is 64, the run ends at tick
/// 1,000, and the state of all disks is asked for at no tick between.
///
/// # Errors
/// Out of memory.
pub fn make(alloc: Global, number: u64, count: u32) -> Result<Scene, AllocError>
    requires { count ≤ MAX_DISKS }
    ensures { IfOk result (λ scene. IsMade number count scene) }
{
    let side = side_for(count);
    let mut generator = Generator { state: number };
    let mut disks = Vec::new(alloc);
    for index in 0..count {
        disks.push(generator.next_disk(side, index))?;
    }
    Ok(Scene::new(rules_of(side), disks, None))
}

// How many disks a row has room for in the smallest lattice for `count` disks, at least 1.
fn side_for(count: u32) -> u32
    requires { count ≤ MAX_DISKS }
    ensures is_side { IsSide count result }
    ensures most { result ≤ 256 }
{
    let mut side = 1;
    while side * side < count {
        side += 1;
    }
    side
}

fn rules_of(side: u32) -> Rules
    requires { side ≤ 256 }
    ensures { result ≡ made_rules side }
{
    let length = SPACING * i64::from(side);
    Rules {
        width: length,
        height: length,
        diameter: DIAMETER,
        speed_limit: 512,
        round_limit: 64,
        end: 1_000,
    }
}

// The generator of velocity components, a linear congruential one.
#[derive(Drop)]
struct Generator {
    state: u64,
}

impl Generator {
    // The next velocity component, -64 to 64, in units of length per tick. The high half of the
    // state is the more random one.
    fn next_component(&mut self) -> i64
        ensures state { self.new.state ≡ state_after self.old.state 1 }
        ensures component { result ≡ drawn self.old.state 1 }
    {
        self.state = self
            .state
            .wrapping_mul(6_364_136_223_846_793_005)
            .wrapping_add(1_442_695_040_888_963_407);
        ((self.state >> 32) % 129) as i64 - 64
    }

    // The disk of an index, after those before it have had their components.
    fn next_disk(&mut self, side: u32, index: u32) -> Disk
        requires some { 1 ≤ side }
        requires index { index < MAX_DISKS }
        ensures state { self.new.state ≡ state_after self.old.state 2 }
        ensures disk { (number : ℕ) → self.old.state ≡ state_after number (2 * index) → result ≡ made_disk number side index }
    {
        Disk {
            x: centre_of(index % side),
            y: centre_of(index / side),
            vx: self.next_component(),
            vy: self.next_component(),
            size: DIAMETER,
            base: 0,
            mark: 0,
        }
    }
}

// The middle of a place in a row or a column, in units of length from the wall.
fn centre_of(place: u32) -> i64
    requires { place < MAX_DISKS }
    ensures { result ≡ pos (1024 + 2048 * place) }
{
    SPACING / 2 + SPACING * i64::from(place)
}
