//! Calls that work on the regions of one run.

ghost use Rattle.std.specs.Prelude.{◌≡◌, length, IfOk};
ghost use Rattle.local_run.specs.Bursts.{AreTogether};
ghost use Rattle.local_run.specs.RunOn.{AreRunOn};
ghost use Rattle.run_floors.specs.Regions.{StandOfRun};

use region_core::{Beside, Region};
use region_locks::Origin;
use std::alloc::AllocError;

/// A call that works on the regions of one run while something is done beside it, as any closure that takes and gives
/// them.
pub trait RunCall<O: Origin, S: Beside<W>, W> {
    /// Whether it may be called with any regions of the run, gives back each at its place, run on, and does nothing with
    /// the work beside but go on with it.
    ghost keeping: { Self → Type 0 };

    /// Works on regions that stand on a state of the run, each at the place of its number, and gives back each at its
    /// place, run on. Meanwhile it may go on with the work beside.
    ///
    /// # Errors
    /// Out of memory.
    fn work(
        &self,
        regions: Vec<Region>,
        beside: &mut S,
        lent: &mut W,
    ) -> Result<Vec<Region>, AllocError>
        requires keeping { keeping self.now }
        requires together { AreTogether regions.items }
        requires stand { StandOfRun O.opening regions.items }
        requires fits { S.fits beside.old lent.old }
        ensures count { IfOk result (λ worked. length worked.items ≡ length regions.items) }
        ensures kept { IfOk result (λ worked. AreRunOn regions.items worked.items) }
        ensures beside { S.goes beside.old lent.old beside.new lent.new };
}

impl<
    O: Origin,
    S: Beside<W>,
    W,
    F: Fn(Vec<Region>, &mut S, &mut W) -> Result<Vec<Region>, AllocError>,
> RunCall<O, S, W> for F {
    ghost keeping = { λ call.
        ((regions : _) (beside : _) (lent : _) → AreTogether regions.items → StandOfRun O.opening regions.items →
        S.fits beside.now lent.now → F.pre call regions beside lent)
        × ((regions : _) (beside : _) (lent : _) (worked : _) (beside' : _) (lent' : _) →
        F.post call regions beside lent worked beside' lent' →
        IfOk worked (λ found. (length found.items ≡ length regions.items)
        × AreRunOn regions.items found.items)
        × S.goes beside.now lent.now beside'.now lent'.now) };

    fn work(
        &self,
        regions: Vec<Region>,
        beside: &mut S,
        lent: &mut W,
    ) -> Result<Vec<Region>, AllocError> {
        self(regions, beside, lent)
    }
}
