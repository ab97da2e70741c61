//! The post of a region to another.

use crate::origin::Origin;
use event_stamps::Stamp;
use region_messages::Trail;
use std::marker::{Model, PhantomData};

/// A copy of what one region of the run sends to another, both by number and from one floor on, as it was when it was
/// last brought up to date, and the stamp of the sender's last entry then. So it says itself for whom it is: a worker
/// that holds the post's lock finds nothing there that such a region may not hear. Contracts see nothing else of it.
#[derive(Drop)]
pub struct Post<O: Origin> {
    trail: Trail,
    clock: Option<Stamp>,
    from: u32,
    to: u32,
    floor: Stamp,
    of: PhantomData<O>,
}

impl<O: Origin> Model for Post<O> {
    ghost use Rattle.local_run.specs.LocalRun.{IsHearable};
    ghost use Rattle.local_run.specs.Opening.{home_of};

    ghost Value = { Unit {0} };

    ghost view = { λ _. tt };

    ghost invariant = { λ s. IsHearable (home_of O.opening s.to) s.floor s.from s.trail };
}

ghost use Rattle.std.specs.Prelude.{◌≡◌, ◌≢◌, IsTrue, None};
ghost use Rattle.region_locks.specs.Holding.{IsHeld};

use region_core::Region;
use std::alloc::{AllocError, Global};

impl<O: Origin> Post<O> {
    /// Nothing posted yet.
    pub(crate) fn new(alloc: Global, from: u32, to: u32, floor: Stamp) -> Post<O> {
        Post {
            trail: Trail::new(alloc),
            clock: None,
            from,
            to,
            floor,
            of: PhantomData,
        }
    }

    /// Brings it up to date: see [`Region::post`]. If the region isn't the one that sends, has another floor, or is
    /// spent, nothing is done.
    ///
    /// # Errors
    /// Out of memory: it lacks the last messages.
    pub(crate) fn bring(&mut self, region: &mut Region) -> Result<(), AllocError>
        requires { IsHeld O.opening region.old }
        ensures { region.new ≡ region.old }
    {
        if !is_at(region, self.from as usize, self.floor) {
            return Ok(());
        }
        self.clock = region.clock();
        region.post(self.to, &mut self.trail)
    }

    /// Has the region to which it goes hear what is new in it, and says whether anything was: see
    /// [`Region::catch_up_posted`]. If the region is another, has another floor, or is spent, nothing is done.
    ///
    /// # Errors
    /// Out of memory: the region is spent.
    pub(crate) fn hear(&mut self, alloc: Global, region: &mut Region) -> Result<bool, AllocError>
        requires { IsHeld O.opening region.old }
        ensures { IsHeld O.opening region.new }
    {
        if !is_at(region, self.to as usize, self.floor) {
            return Ok(false);
        }
        region.catch_up_posted(alloc, self.from, &mut self.trail, self.clock)
    }

    /// Whether the region to which it goes may find something new.
    pub(crate) fn has_news(&self) -> bool {
        self.trail.has_news()
    }
}

/// Whether a region isn't spent, and has this number and this floor.
pub(crate) fn is_at(region: &Region, number: usize, floor: Stamp) -> bool
    ensures alive { IsTrue result → region.now.run ≢ None }
    ensures number { IsTrue result → region.now.home.number ≡ number }
    ensures floor_is { IsTrue result → region.now.floor ≡ floor }
{
    if region.is_spent() {
        return false;
    }
    if region.floor() != floor {
        return false;
    }
    region.number() as usize == number
}
