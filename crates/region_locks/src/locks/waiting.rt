//! Turns and meetings under locks that are waited for. The program makes none: it goes by [`Locks::hear_and_run`].

ghost use Rattle.std.specs.Prelude.{◌≢◌, ◌<◌};

use super::Locks;
use crate::held::Held;
use crate::origin::Origin;
use event_stamps::Stamp;
use std::alloc::{AllocError, Global};
use std::sync::{MutexGuard, Wait};

impl<O: Origin> Locks<O> {
    /// Takes the lock of a region. Nobody else works on that region until the guard that is answered is dropped; others
    /// may work on all other regions meanwhile.
    pub fn hold<R: Wait>(&self, rt: &R, region: u32) -> MutexGuard<'_, Held<O>>
        requires region { region < self.now }
    {
        self.regions[region as usize].held.lock(rt)
    }

    /// Under the lock of a region, lets it run `steps` steps: see [`Region::run`](region_core::Region::run). If it was
    /// taken back, nothing is done.
    ///
    /// # Errors
    /// Out of memory: the region is spent.
    pub fn turn<R: Wait>(
        &self,
        rt: &R,
        alloc: Global,
        region: u32,
        steps: u32,
    ) -> Result<(), AllocError>
        requires region { region < self.now }
        requires steps { 0 < steps }
    {
        let mut held = self.hold(rt, region);
        held.run_before(alloc, steps, Stamp::end_of(u64::MAX))?;
        Ok(())
    }

    /// Under the locks of two regions, lets one hear what is new in the other since it last did: see
    /// [`Region::catch_up`](region_core::Region::catch_up). If either was taken back, nothing is done. The lock of the
    /// lower number is taken first, so that no two threads wait for each other. It isn't to be called in a burst in
    /// which regions post what they send ([`Locks::hear_and_run`]): it marks as heard what wasn't posted yet.
    ///
    /// # Errors
    /// Out of memory: the region that hears is spent.
    pub fn meet<R: Wait>(
        &self,
        rt: &R,
        alloc: Global,
        hearer: u32,
        from: u32,
    ) -> Result<(), AllocError>
        requires hearer { hearer < self.now }
        requires from { from < self.now }
        requires apart { hearer ≢ from }
    {
        let (mut hears, mut tells) = self.hold_both(rt, hearer, from);
        hears.catch_up(alloc, &mut tells)
    }

    // Takes the locks of two regions, that of the lower number first.
    fn hold_both<R: Wait>(
        &self,
        rt: &R,
        one: u32,
        other: u32,
    ) -> (MutexGuard<'_, Held<O>>, MutexGuard<'_, Held<O>>)
        requires one { one < self.now }
        requires other { other < self.now }
        requires apart { one ≢ other }
    {
        let low = self.hold(rt, one.min(other));
        let high = self.hold(rt, one.max(other));
        if one < other {
            (low, high)
        } else {
            (high, low)
        }
    }
}
