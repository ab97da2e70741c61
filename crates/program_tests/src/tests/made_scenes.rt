//! Made scenes, whose components another program worked out.

use fixed_motion::MAX_DISKS;
use scene_maker::{make, scene_text};
use std::alloc::{AllocError, Global};

// The number, the number of disks, and the text.
type MadeRow = (u64, u32, &'static str);

const NONE: &str = "width = 2048\n\
    height = 2048\n\
    diameter = 1024\n\
    speed_limit = 512\n\
    round_limit = 64\n\
    end = 1000\n\
    disks = [\n]\n";

const ONE: &str = "width = 2048\n\
    height = 2048\n\
    diameter = 1024\n\
    speed_limit = 512\n\
    round_limit = 64\n\
    end = 1000\n\
    disks = [\n  [1024, 1024, 63, -54],\n]\n";

const OF_SEVEN: &str = "width = 2048\n\
    height = 2048\n\
    diameter = 1024\n\
    speed_limit = 512\n\
    round_limit = 64\n\
    end = 1000\n\
    disks = [\n  [1024, 1024, -51, 13],\n]\n";

const FIVE: &str = "width = 6144\n\
    height = 6144\n\
    diameter = 1024\n\
    speed_limit = 512\n\
    round_limit = 64\n\
    end = 1000\n\
    disks = [\n  \
        [1024, 1024, 63, -54],\n  \
        [3072, 1024, -2, 29],\n  \
        [5120, 1024, -54, -42],\n  \
        [1024, 3072, -21, 18],\n  \
        [3072, 3072, -42, -27],\n]\n";

const MADE: &[MadeRow] = &[(0, 0, NONE), (0, 1, ONE), (7, 1, OF_SEVEN), (0, 5, FIVE)];

#[test]
fn makes_the_scenes_of_numbers(rt: HostRuntime) {
    for &(number, count, text) in MADE {
        let is_made = is_made(rt.alloc(), number, count, text);
        assert!(rt; is_made == Ok(true), "{text}");
    }
}

// Whether a text is that of a made scene.
fn is_made(alloc: Global, number: u64, count: u32, text: &str) -> Result<bool, AllocError> {
    if count as usize > MAX_DISKS {
        return Ok(false);
    }
    let scene = make(alloc, number, count)?;
    let made = scene_text(alloc, &scene)?;
    Ok(made.as_bytes() == text.as_bytes())
}
