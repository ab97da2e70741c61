//! The trails of all regions at once, by number.

ghost use Rattle.std.specs.Prelude.{◌≡◌, [], replicate, map, IfOk};
ghost use Rattle.region_messages.specs.Trails.{below, from};

use event_stamps::Stamp;
use region_messages::Trail;
use std::alloc::{AllocError, Global};

/// `count` trails without messages.
///
/// # Errors
/// Out of memory.
pub fn empty_trails(alloc: Global, count: u32) -> Result<Vec<Trail>, AllocError>
    ensures { IfOk result (λ trails. trails.items ≡ replicate count []) }
{
    let mut trails = Vec::new(alloc);
    for _ in 0..count {
        trails.push(Trail::new(alloc))?;
    }
    Ok(trails)
}

/// Takes away the messages before a stamp.
pub fn drop_before(trails: &mut [Trail], to: Stamp)
    ensures { trails.new ≡ map (from to) trails.old }
{
    for trail in trails {
        trail.drop_before(to);
    }
}

/// Takes away the messages from a stamp on.
pub fn cut_from(trails: &mut [Trail], at: Stamp)
    ensures { trails.new ≡ map (below at) trails.old }
{
    for trail in trails {
        trail.cut_from(at);
    }
}
