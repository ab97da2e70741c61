//! Some of the places of gathered disks.

use crate::gathered::MOST_GATHERED;

// Some of the places below `MOST_GATHERED`, each as a bit of a word.
#[derive(Clone, Copy)]
pub struct Places {
    bits: u32,
}

ghost use Rattle.std.specs.Prelude.{◌≡◌, ◌≢◌, ◌⊎◌, ◌↔◌, ℕ, ◌<◌, IsTrue, MatchOption};
ghost use Rattle.cell_lists.specs.declared.gathered.TheConstants.{MOST_GATHERED};
ghost use Rattle.cell_lists.specs.Places.{Holds};

impl Places {
    pub fn none() -> Places
        ensures { (p : ℕ) → ¬ Holds result p }
    {
        Places { bits: 0 }
    }

    // The least of them.
    #[inline(always)]
    pub fn first(self) -> Option<usize>
        ensures { MatchOption result ((p : ℕ) → ¬ Holds self p) (Holds self) }
    {
        let bits = self.bits;
        if bits == 0 {
            None
        } else {
            Some(bits.trailing_zeros() as usize)
        }
    }

    // These places, and one more if `is_one`.
    #[inline(always)]
    pub fn with(self, place: usize, is_one: bool) -> Places
        requires { place < MOST_GATHERED }
        ensures { (p : ℕ) → (Holds result p ↔ (Holds self p ⊎ ((p ≡ place) × IsTrue is_one))) }
    {
        Places {
            bits: self.bits | (is_one as u32) << place,
        }
    }

    // These places without one.
    #[inline(always)]
    pub fn without(self, place: usize) -> Places
        requires { place < MOST_GATHERED }
        ensures { (p : ℕ) → (Holds result p ↔ (Holds self p × (p ≢ place))) }
    {
        let bits = self.bits;
        Places {
            bits: bits & !(1 << place),
        }
    }
}
