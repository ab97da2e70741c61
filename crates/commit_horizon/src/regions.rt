//! All regions of the committed state.

ghost use Rattle.std.specs.Prelude.{◌≡◌, ◌<◌, ◌^◌, length, map, Ok, IfOk, OnOk};
ghost use Rattle.commit_horizon.specs.Horizon.{AllStand};
ghost use Rattle.cell_grid.specs.Grid.{IsRegion};
ghost use Rattle.local_run.specs.Opening.{IsOpened};
ghost use Rattle.commit_horizon.specs.Commits.{IsAdopted, AllAdopted};

use crate::Committed;
use region_core::Region;
use std::alloc::{AllocError, Global};
use std::thread::{Threads, for_each_mut};

// What opening a region answers.
type Opened = Result<Region, AllocError>;

impl Committed {
    /// The regions of the committed state, by number, with nothing done and nothing heard.
    ///
    /// # Errors
    /// Out of memory.
    pub fn open_all(&self, alloc: Global) -> Result<Vec<Region>, AllocError>
        ensures { IfOk result (λ regions. AllStand self.now regions.items) }
    {
        let mut regions = Vec::new(alloc);
        for number in 0..self.state.grid().regions() {
            regions.push(Region::open(alloc, &self.state, number)?)?;
        }
        Ok(regions)
    }

    /// The same, opened in at most this many threads, the caller's among them; 0 counts as 1. Each opens regions that
    /// follow one another.
    ///
    /// # Errors
    /// Out of memory.
    pub fn open_side_by_side<R: Threads + Sync>(
        &self,
        rt: &R,
        alloc: Global,
        threads: u32,
    ) -> Result<Vec<Region>, AllocError>
        ensures { IfOk result (λ regions. AllStand self.now regions.items) }
    {
        let state = &self.state;
        let open = move |number: usize, place: &mut Opened|
            requires { IsRegion state.now.grid number × (number < 2 ^ 32) }
            ensures { IfOk place.new (IsOpened state.entry.now number) }
        { fill(place, Region::open(alloc, state, number as u32)) };
        let mut opened = none_opened(alloc, state.grid().regions())?;
        for_each_mut(rt, &mut opened, threads.max(1) as usize, &open);
        all_or_none(alloc, opened)
    }

    /// Regions that stand on the committed state, by number: of the given ones exactly those that stand on it, as
    /// [`adopt`](Committed::adopt) answers for each place, and regions that are opened again at the other places.
    ///
    /// # Errors
    /// Out of memory.
    pub fn adopt_all(&self, alloc: Global, given: Vec<Region>) -> Result<Vec<Region>, AllocError>
        requires { length given.items ≡ self.now.grid.regions }
        ensures adopted { IfOk result (λ regions. AllAdopted self.now given.items regions.items) }
        ensures stand { IfOk result (λ regions. AllStand self.now regions.items) }
    {
        let mut regions = given;
        self.renew_all(alloc, &mut regions)?;
        Ok(regions)
    }

    // Opens each region again that doesn't stand on the committed state by its number.
    fn renew_all(&self, alloc: Global, regions: &mut [Region]) -> Result<(), AllocError>
        requires { length regions.old ≡ self.now.grid.regions }
        ensures adopted { OnOk result (AllAdopted self.now regions.old regions.new) }
        ensures stand { OnOk result (AllStand self.now regions.new) }
    {
        for number in 0..self.state.grid().regions() {
            self.renew(alloc, number, &mut regions[number as usize])?;
        }
        Ok(())
    }

    // Opens a region again if it doesn't stand on the committed state with a number.
    fn renew(&self, alloc: Global, number: u32, region: &mut Region) -> Result<(), AllocError>
        requires { IsRegion self.now.grid number }
        ensures { OnOk result (IsAdopted self.now number region.old region.new) }
    {
        let Err(_) = region.stands_on(&self.state, number) else {
            return Ok(());
        };
        let made = Region::open(alloc, &self.state, number)?;
        // These are calls, since an assignment that drops the old region takes long to prove.
        drop(std::mem::replace(region, made));
        Ok(())
    }
}

// A place for each of this many regions, of which none is opened.
fn none_opened(alloc: Global, count: u32) -> Result<Vec<Opened>, AllocError>
    ensures { IfOk result (λ places. length places.items ≡ count) }
{
    let mut places = Vec::new(alloc);
    for _ in 0..count {
        places.push(Err(AllocError))?;
    }
    Ok(places)
}

// These are calls, since an assignment that drops what was there takes long to prove.
fn fill(place: &mut Opened, opened: Opened)
    ensures { place.new ≡ opened }
{
    drop(std::mem::replace(place, opened));
}

// All regions that were opened, or the first failure.
fn all_or_none(alloc: Global, opened: Vec<Opened>) -> Result<Vec<Region>, AllocError>
    ensures { IfOk result (λ regions. map Ok regions.items ≡ opened.items) }
{
    let mut regions = Vec::new(alloc);
    for region in opened {
        regions.push(region?)?;
    }
    Ok(regions)
}
