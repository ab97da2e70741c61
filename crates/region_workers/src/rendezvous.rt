//! Where workers take the regions of each phase, and wait for each other at its end.
//!
//! A worker takes its own regions first, and then those that nobody has taken. So no phase waits for a thread that
//! isn't there, or that has no processor: the others do its work, and if need be one does all. Only those are waited
//! for that are at work on a region.
//!
//! A worker that waits looks for a while, since if each has a processor of its own the others mostly come soon, and
//! a rest would take longer than a slice: a worker that rests comes late, so that others rest, and so on. Only then it
//! rests at the gate, again and again.

use crate::roll::{Roll, Share};
use crossbeam_utils::CachePadded;
use region_locks::Pause;
use std::alloc::{AllocError, Global};
use std::sync::atomic::{AtomicU64, Ordering};

// How often a worker tries to note its share. Each time another one noted its own in between, or ended the burst: in a
// phase no worker does more than that.
const TRIES: u32 = 1_000;

/// Where the workers of a burst meet in each phase.
#[derive(Drop)]
pub struct Rendezvous {
    // The word of the roll.
    roll: AtomicU64,
    // The phase in which each region is to be taken next. They are padded, since mostly one worker takes a region.
    untaken: Vec<CachePadded<AtomicU64>>,
}

impl Rendezvous {
    /// A rendezvous of this many regions, to which nobody has come.
    pub fn new(alloc: Global, regions: usize) -> Result<Rendezvous, AllocError> {
        let mut untaken = Vec::with_capacity(alloc, regions)?;
        for _ in 0..regions {
            untaken.push(CachePadded::new(AtomicU64::new(0)))?;
        }
        Ok(Rendezvous {
            roll: AtomicU64::new(0),
            untaken,
        })
    }

    /// How far the burst is.
    pub fn roll(&self) -> Roll {
        Roll::of(self.roll.load(Ordering::SeqCst))
    }

    /// Takes a region in a phase. False if somebody has taken it before, or the phase is past. Until the work on the
    /// region is noted, the phase goes on.
    pub fn takes(&self, region: u32, phase: u32) -> bool {
        let Some(untaken) = self.untaken.get(region as usize) else {
            return false;
        };
        let phase = u64::from(phase);
        untaken.load(Ordering::SeqCst) == phase
            && untaken
                .compare_exchange(phase, phase + 1, Ordering::SeqCst, Ordering::SeqCst)
                .is_ok()
    }

    /// Notes a worker's share of the phase's work. The roll, if that was the last of it: then the worker is to begin the
    /// next phase.
    pub fn note(&self, share: &Share) -> Option<Roll> {
        if share.regions == 0 {
            return None;
        }
        let roll = self.add(share)?;
        if roll.done as usize >= self.untaken.len() {
            Some(roll)
        } else {
            None
        }
    }

    // Adds a share to the roll, which is answered.
    fn add(&self, share: &Share) -> Option<Roll> {
        for _ in 0..TRIES {
            let word = self.roll.load(Ordering::SeqCst);
            let roll = Roll::of(word).with(share);
            if self
                .roll
                .compare_exchange(word, roll.word(), Ordering::SeqCst, Ordering::SeqCst)
                .is_ok()
            {
                return Some(roll);
            }
        }
        None
    }

    /// Begins the phase after one that is done, unless a worker has left meanwhile.
    pub fn begin(&self, done: Roll, next: Roll) {
        let _begun = self.roll.compare_exchange(
            done.word(),
            next.word(),
            Ordering::SeqCst,
            Ordering::SeqCst,
        );
    }

    /// Ends the burst for all.
    pub(crate) fn end(&self) {
        self.roll.store(Roll::over().word(), Ordering::SeqCst);
    }

    /// Whether a phase is past.
    pub(crate) fn is_past(&self, phase: u32) -> bool {
        self.roll().phase != phase
    }

    /// Looks for the end of a phase the given number of times at most, and says whether it came.
    pub(crate) fn is_seen_to_pass(&self, phase: u32, looks: u32) -> bool {
        let mut pause = Pause::new();
        for _ in 0..looks {
            if self.is_past(phase) {
                return true;
            }
            if !pause.wait() {
                break;
            }
        }
        false
    }
}
