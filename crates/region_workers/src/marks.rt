//! How far the regions of a burst came in their last slices.
//!
//! Workers under locks ([`crate::pace`]) and those on a table (`region_table`) go by it to say how far regions run next.
//! Each region has a mark: what is due there, and its *lead*. That is the virtual time that a slice's steps covered there
//! lately, less an eighth, so that slices are seldom cut by their number of steps.
//!
//! Nothing is claimed of it: the regions stay right, however far they run.

ghost use Rattle.std.specs.Prelude.{◌<◌};

use crate::virtual_time::{from_parts, to_parts};
use crossbeam_utils::CachePadded;
use event_stamps::Stamp;
use region_core::Region;
use std::alloc::{AllocError, Global};
use std::sync::atomic::{AtomicU64, Ordering};

// The number of disks for each step of a slice: few disks are touched twice in one slice then.
const DISKS_A_STEP: u64 = 32;

/// The least number of steps of a region in a slice, however few disks there are. A slice without a bound, which
/// measures how far to run, has no more.
pub const LEAST_STEPS: u32 = 16;

// The greatest number of steps.
const MOST_STEPS: u32 = 128;

/// Stands for a lead that isn't known yet, and for a bound that comes of no other leads.
pub const UNKNOWN: u64 = u64::MAX;

/// The marks of a burst's regions.
#[derive(Drop)]
pub struct Marks {
    // For how many disks the regions have room, 1 at least.
    disks: u64,
    // The greatest number of steps that a region makes in a slice.
    steps: u32,
    // Padded, since workers write them side by side.
    marks: Vec<CachePadded<Mark>>,
    ghost some_steps: { 0 < steps },
}

// How far a region came.
#[derive(Drop)]
struct Mark {
    // What is due, in parts of a tick.
    due: AtomicU64,
    // The lead, in parts of a tick.
    lead: AtomicU64,
}

/// How a region's lead grows by a slice.
#[derive(Clone, Copy)]
pub struct Growth {
    /// How many times as long it gets if the region makes no step.
    pub idle: u64,
    /// If the region makes steps, its lead becomes the mean of itself and of what a slice of as fast steps would cover,
    /// which counts as at most this many leads. `None`: it has no limit.
    pub most: Option<u64>,
}

/// The least that stands in any mark.
#[derive(Clone, Copy)]
pub struct Least {
    /// The least of what is due, in parts of a tick.
    pub due: u64,
    /// The least lead, in parts of a tick; [`UNKNOWN`] if none is known.
    pub lead: u64,
}

impl Growth {
    // What a slice of as fast steps would cover, limited by the lead before.
    #[inline(always)]
    fn limited(self, found: u64, lead: u64) -> u64 {
        match self.most {
            Some(most) => found.min(lead.saturating_mul(most)),
            None => found,
        }
    }
}

impl Marks {
    /// A mark for each region, with no lead yet.
    ///
    /// # Errors
    /// Out of memory.
    pub fn open(alloc: Global, regions: &[Region]) -> Result<Marks, AllocError> {
        let disks = most_room(regions);
        let mut marks = Vec::with_capacity(alloc, regions.len())?;
        for region in regions {
            marks.push(CachePadded::new(Mark {
                due: AtomicU64::new(to_parts(&region.due(), disks)),
                lead: AtomicU64::new(UNKNOWN),
            }))?;
        }
        Ok(Marks {
            disks,
            steps: most_steps(disks, regions.len() as u64),
            marks,
        })
    }

    /// How many regions there are.
    pub fn regions(&self) -> usize {
        self.marks.len()
    }

    /// How many steps a region makes in a slice at most.
    pub fn steps(&self) -> u32
        ensures { 0 < result }
    {
        self.steps
    }

    /// What is due first in any region, and the least lead of any.
    pub fn least(&self) -> Least {
        let mut due = u64::MAX;
        let mut lead = UNKNOWN;
        for mark in &self.marks {
            due = due.min(mark.due.load(Ordering::SeqCst));
            lead = lead.min(mark.lead.load(Ordering::SeqCst));
        }
        Least { due, lead }
    }

    /// The least of what is due in a region and its lead together, in parts of a tick: the slowest region gets there in
    /// a slice. [`UNKNOWN`] if no lead is known.
    pub fn least_reach(&self) -> u64 {
        let mut reach = UNKNOWN;
        for mark in &self.marks {
            let due = mark.due.load(Ordering::SeqCst);
            reach = reach.min(due.saturating_add(mark.lead.load(Ordering::SeqCst)));
        }
        reach
    }

    /// The first stamp of a part, counted in parts of a tick from time 0 on.
    pub fn stamp_at(&self, part: u64) -> Stamp {
        from_parts(part, self.disks)
    }

    /// Takes in what is due in a region after it heard another.
    pub fn heard(&self, region: u32, due: Stamp) {
        if let Some(mark) = self.marks.get(region as usize) {
            mark.due.store(to_parts(&due, self.disks), Ordering::SeqCst);
        }
    }

    /// Takes in that a region made some steps: what was due there before, what is due now, and how its lead grows.
    // Inlined, since the growth is a constant at each of its two calls.
    #[inline(always)]
    pub fn ran(&self, region: u32, began: Stamp, due: Stamp, steps: u32, growth: Growth) {
        let Some(mark) = self.marks.get(region as usize) else {
            return;
        };
        let due = to_parts(&due, self.disks);
        let span = due.saturating_sub(to_parts(&began, self.disks));
        let lead = mark.lead.load(Ordering::SeqCst);
        mark.due.store(due, Ordering::SeqCst);
        mark.lead.store(self.lead_after(lead, span, steps, growth), Ordering::SeqCst);
    }

    // The lead of a region that had this lead and then covered a span, in parts of a tick, in some steps.
    #[inline(always)]
    fn lead_after(&self, lead: u64, span: u64, steps: u32, growth: Growth) -> u64 {
        if steps == 0 {
            return lead.saturating_mul(growth.idle);
        }
        let found = span.saturating_mul(u64::from(self.steps)) / u64::from(steps) / 8 * 7;
        if lead == UNKNOWN {
            return found.max(1);
        }
        (lead / 2 + growth.limited(found, lead) / 2).max(1)
    }
}

// The greatest number of disks for which a region has room, or 1.
fn most_room(regions: &[Region]) -> u64 {
    let mut disks = 1;
    for region in regions {
        disks = disks.max(region.room() as u64);
    }
    disks
}

// How many steps of a region a slice has at most, by the number of disks and of regions.
fn most_steps(disks: u64, regions: u64) -> u32
    ensures { 0 < result }
{
    let share = disks / DISKS_A_STEP.saturating_mul(regions).max(1);
    share.clamp(u64::from(LEAST_STEPS), u64::from(MOST_STEPS)) as u32
}
