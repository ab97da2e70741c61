//! Some disks, side by side.

use crate::places::Places;
use crate::pointer::Pointer;
use std::marker::Model;

/// How many disks are gathered at most.
pub const MOST_GATHERED: usize = 32;

/// Some disks, at most [`MOST_GATHERED`]: few enough to need no memory of their own.
#[derive(Drop)]
pub struct Gathered {
    pub(crate) disks: [u32; MOST_GATHERED],
    pub(crate) count: usize,
}

impl Model for Gathered {
    ghost use Rattle.std.specs.Prelude.{List, ℕ, take, ◌≤◌};
    ghost use Rattle.cell_lists.specs.declared.gathered.TheConstants.{MOST_GATHERED};

    ghost Value = { List ℕ };

    ghost view = { λ g. take g.count g.disks };

    ghost invariant = { λ g. g.count ≤ MOST_GATHERED };
}

ghost use Rattle.std.specs.Prelude.{◌≡◌, ◌⊎◌, ◌↔◌, ℕ, ◌+◌, ◌<◌, ◌≤◌, [], length, take, slice_index, slice_set};
ghost use Rattle.cell_lists.specs.declared.gathered.TheConstants.{MOST_GATHERED};
ghost use Rattle.cell_lists.specs.Pointer.{disk_of, SaysMore};
ghost use Rattle.cell_lists.specs.Places.{Holds};
ghost use Rattle.cell_lists.specs.Gathering.{with_offered};

impl Gathered {
    /// No disk.
    #[inline(always)]
    pub fn new() -> Gathered
        ensures { result ≡ [] }
    {
        Gathered {
            disks: [0; MOST_GATHERED],
            count: 0,
        }
    }

    /// A copy.
    #[inline(always)]
    pub fn copy(&self) -> Gathered
        ensures { result ≡ self.now }
    {
        Gathered {
            disks: self.disks,
            count: self.count,
        }
    }

    /// The number of disks.
    #[inline(always)]
    pub fn len(&self) -> usize
        ensures { result ≡ length self.now }
    {
        self.count
    }

    /// The disk at a place.
    #[inline(always)]
    pub fn at(&self, place: usize) -> u32
        requires { place < length self.now }
        ensures { result ≡ slice_index self.now place }
    {
        self.as_slice()[place]
    }

    /// Puts a disk at a place, replacing the one that was there.
    #[inline(always)]
    pub fn put(&mut self, place: usize, disk: u32)
        requires { place < length self.old }
        ensures { self.new ≡ slice_set self.old place disk }
    {
        let disks = &mut self.disks;
        disks[place] = disk;
    }

    /// Keeps the first `count` of them.
    #[inline(always)]
    pub fn cut(&mut self, count: usize)
        requires { count ≤ length self.old }
        ensures { self.new ≡ take count self.old }
    {
        self.count = count;
    }

    /// The disks.
    #[inline(always)]
    pub fn as_slice(&self) -> &[u32]
        ensures { result.now ≡ self.now }
    {
        &self.disks[..self.count]
    }
}

// How many disks were gathered so far, and the places of those whose next disk is still to be gathered.
#[derive(Clone, Copy)]
pub(crate) struct SoFar {
    pub(crate) count: usize,
    pub(crate) pending: Places,
}

impl SoFar {
    // Writes the disk of the pointer, if it has one, behind those so far. Whether it has one can't be predicted, so its
    // number is written in any case, and counted if it is a disk. The count goes in and out by value, so that it
    // needn't be read from memory again after each write beside it.
    #[inline(always)]
    pub(crate) fn offer(self, disks: &mut [u32; MOST_GATHERED], pointer: Pointer) -> SoFar
        requires { self.count < MOST_GATHERED }
        ensures room { result.count ≤ MOST_GATHERED }
        ensures more { self.count ≤ result.count }
        ensures one { result.count ≤ self.count + 1 }
        ensures offered { take result.count disks.new ≡ with_offered (take self.count disks.old) (disk_of pointer) }
        ensures pending { (p : ℕ) → (Holds result.pending p ↔ (Holds self.pending p ⊎ ((p ≡ self.count) × SaysMore pointer))) }
    {
        disks[self.count] = pointer.number();
        SoFar {
            count: self.count + pointer.is_some() as usize,
            pending: self.pending.with(self.count, pointer.has_next()),
        }
    }
}
