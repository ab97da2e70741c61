//! A region.

mod hearing;
mod raising;
mod running;
mod standing;

use crate::Home;
use crate::live::Live;
use event_stamps::Stamp;
use region_parts::{Border, Place};
use std::marker::Model;

/// One region of a grid, with its run from a floor on.
///
/// If memory runs out it is spent: it has no run any more, and is opened again.
pub struct Region {
    place: Place,
    // None: it is spent.
    live: Option<Live>,
}

// The drop is written out, so that it is proved once, here. If it were derived, each crate with a list of regions would
// prove again how all parts of a region are dropped.
impl Drop for Region {
    fn drop(self) {
        let Region { place: _, live: _ } = self;
    }
}

impl Model for Region {
    ghost use Rattle.std.specs.Prelude.{option_map};
    ghost use Rattle.local_run.specs.Opening.{RegionData};
    ghost use Rattle.local_run.specs.Codes.{region_code};
    ghost use Rattle.region_core.specs.Live.{run_in, IsSound};

    ghost Value = { RegionData };

    ghost coded = { region_code };

    ghost view = { λ s. record {
      home = s.place.home;
      floor = s.place.floor;
      run = option_map (run_in s.place.floor) s.live;
    } };

    ghost invariant = { λ s. IsSound s.place s.live };
}

ghost use Rattle.std.specs.Prelude.{◌≡◌, ◌↔◌, ◌⊎◌, List, length, slice_get, None, option_map, IsTrue, IfOk, IfSome, OnErr, MatchOption};
ghost use Rattle.event_stamps.specs.Order.{Before, IsInRange, end_stamp};
ghost use Rattle.cell_grid.specs.Grid.{IsRegion};
ghost use Rattle.local_run.specs.LocalRun.{IsInPlace};
ghost use Rattle.region_view.specs.Acting.{stamp_of};
ghost use Rattle.local_run.specs.Opening.{IsOpened, spent};
ghost use Rattle.local_run.specs.Steps.{RegionSteps};
ghost use Rattle.region_core.specs.FirstRows.{first_row};
ghost use Rattle.local_run.specs.Entries.{native_in, last_entry_stamp};
ghost use Rattle.local_run.specs.Keeping.{IsKept, entries_of, IsDueIn, SendsTo, HearsOf, IsSent, IsHeard};

use crate::Step;
use cell_grid::Grid;
use cell_sequence::CellState;
use fixed_motion::Rules;
use region_messages::Trail;
use region_view::{Action, Placed, opening};
use std::alloc::{AllocError, Global};

impl Region {
    /// A region of a cell state, by number: nothing done and nothing heard since the floor of the state.
    ///
    /// # Errors
    /// Out of memory.
    pub fn open(alloc: Global, state: &CellState, number: u32) -> Result<Region, AllocError>
        requires { IsRegion state.now.grid number }
        ensures { IfOk result (λ region. IsOpened state.now number region) }
    {
        let home = Home {
            number,
            rules: *state.rules(),
            grid: *state.grid(),
        };
        let base = opening(alloc, state.placed(), state.grid(), number)?;
        let place = Place {
            home,
            border: Border::new(&home),
            floor: state.floor(),
        };
        let live = Live::open(alloc, &place, base)?;
        Ok(Region {
            place,
            live: Some(live),
        })
    }

    /// A region that is spent, with checked rules and a grid of them, and with a floor that isn't after the end.
    pub fn spent(number: u32, rules: &Rules, grid: &Grid, floor: Stamp) -> Region
        requires place { IsInPlace (record { number = number; rules = rules.now; grid = grid.now }) }
        requires in_time { ¬ Before (end_stamp rules.now.end) floor }
        ensures { result ≡ record {
          home = record { number = number; rules = rules.now; grid = grid.now };
          floor = floor;
          run = None;
        } }
    {
        let home = Home {
            number,
            rules: *rules,
            grid: *grid,
        };
        Region {
            place: Place {
                home,
                border: Border::new(&home),
                floor,
            },
            live: None,
        }
    }

    /// Takes the region out; what stays here is spent.
    pub fn take(&mut self) -> Region
        ensures taken { result ≡ self.old }
        ensures spent { self.new ≡ spent self.old }
    {
        Region {
            place: self.place,
            live: self.live.take(),
        }
    }

    /// One step: runs the event that is due, or takes in the message that is due.
    ///
    /// # Errors
    /// Out of memory: the region is spent.
    pub fn step(&mut self, alloc: Global) -> Result<Step, AllocError>
        ensures step { IfOk result (λ answer. RegionSteps self.old answer self.new) }
        ensures spent { OnErr result (self.new ≡ spent self.old) }
    {
        let Some(live) = &mut self.live else {
            return Ok(Step::Spent);
        };
        match live.step(alloc, &self.place, None) {
            Ok(Some(step)) => Ok(step),
            Ok(None) => unreachable!(),
            Err(error) => {
                let_go(&mut self.live);
                Err(error)
            }
        }
    }

    /// The number of the region.
    pub fn number(&self) -> u32
        ensures value { result ≡ self.now.home.number }
        ensures kept { IsKept self.now }
    {
        self.place.home.number
    }

    /// The rules of the scene.
    pub fn rules(&self) -> &Rules
        ensures value { result.now ≡ self.now.home.rules }
        ensures kept { IsKept self.now }
    {
        &self.place.home.rules
    }

    /// The grid.
    pub fn grid(&self) -> &Grid
        ensures value { result.now ≡ self.now.home.grid }
        ensures kept { IsKept self.now }
    {
        &self.place.home.grid
    }

    /// The stamp from which on it runs events.
    pub fn floor(&self) -> Stamp
        ensures value { result ≡ self.now.floor }
        ensures kept { IsKept self.now }
    {
        self.place.floor
    }

    /// Whether it has no run any more, since there was no memory for it.
    pub fn is_spent(&self) -> bool
        ensures value { IsTrue result ↔ (self.now.run ≡ None) }
        ensures kept { IsKept self.now }
    {
        self.live.is_none()
    }

    /// How many numbers of disks, from 0 on, it has room for; 0 if it is spent. That is at most the number of all
    /// disks, and the greatest room of all regions is the number of all disks; but no clause says so.
    pub fn room(&self) -> usize {
        match &self.live {
            Some(live) => live.view.room(),
            None => 0,
        }
    }

    /// The number of entries of its log, at most [`MAX_ENTRIES`](crate::MAX_ENTRIES); 0 if it is spent.
    pub fn entries(&self) -> usize
        ensures value { result ≡ length (entries_of self.now) }
        ensures kept { IsKept self.now }
    {
        match &self.live {
            Some(live) => live.log.len(),
            None => 0,
        }
    }

    /// The action of an entry, by its place in the log from 0 on. None if and only if there is no such entry, or it is
    /// a message that was taken in.
    #[inline(always)]
    pub fn native(&self, i: usize) -> Option<Action>
        ensures value { result ≡ native_in (slice_get (entries_of self.now) i) }
        ensures kept { IsKept self.now }
    {
        match &self.live {
            Some(live) => live.log.native(i),
            None => None,
        }
    }

    /// The stamp of the action of an entry, by its place, in the ranges of the events of a run; none if and only if
    /// [`native`](Region::native) is none.
    #[inline(always)]
    pub fn native_stamp(&self, i: usize) -> Option<Stamp>
        ensures value { result ≡ option_map stamp_of (native_in (slice_get (entries_of self.now) i)) }
        ensures range { IfSome result IsInRange }
        ensures kept { IsKept self.now }
    {
        match &self.live {
            Some(live) => live.log.native_stamp(i),
            None => None,
        }
    }

    /// The row of a disk in the view with which its run begins, at the floor. None if and only if the region is spent,
    /// or doesn't see the disk there.
    pub fn first_row(&self, disk: u32) -> Option<Placed>
        ensures value { result ≡ first_row self.now disk }
        ensures kept { IsKept self.now }
    {
        match &self.live {
            Some(live) => live.log.first_row(&live.view, disk),
            None => None,
        }
    }

    /// The stamp of the last entry; none if and only if there is no entry.
    pub fn clock(&self) -> Option<Stamp>
        ensures value { result ≡ last_entry_stamp (entries_of self.now) }
        ensures kept { IsKept self.now }
    {
        match &self.live {
            Some(live) => live.log.last_stamp(),
            None => None,
        }
    }

    /// The stamp that is due: the least of its own events that may come next and of the messages that wait; the end
    /// stamp if there are none. For a spent region, the floor.
    pub fn due(&self) -> Stamp
        ensures value { IsDueIn self.now result }
        ensures kept { IsKept self.now }
    {
        match &self.live {
            Some(live) => live.due_or_end(&self.place),
            None => self.place.floor,
        }
    }

    /// What it sends to a region, by number. None if and only if it is spent, or isn't linked with that region.
    pub fn sent(&self, to: u32) -> Option<&Trail>
        ensures value { MatchOption result ((self.now.run ≡ None) ⊎ ¬ SendsTo self.now.home to)
            (λ trail. IsSent self.now to trail.now) }
        ensures kept { IsKept self.now }
    {
        match &self.live {
            Some(live) => live.sent_to(&self.place, to),
            None => None,
        }
    }

    /// What it heard from a region, by number. None if and only if it is spent, or isn't linked with that region.
    pub fn heard(&self, from: u32) -> Option<&Trail>
        ensures value { MatchOption result ((self.now.run ≡ None) ⊎ ¬ HearsOf self.now.home from)
            (λ trail. IsHeard self.now from trail.now) }
        ensures kept { IsKept self.now }
    {
        match &self.live {
            Some(live) => live.heard_from(&self.place, from),
            None => None,
        }
    }
}

// Lets a run go. It is kept apart, since it drops all parts of a run, and a step seldom comes here.
#[cold]
#[inline(never)]
pub(crate) fn let_go(live: &mut Option<Live>)
    ensures { live.new ≡ None }
{
    *live = None;
}
