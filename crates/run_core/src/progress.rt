//! How the committed state goes on.

ghost use Rattle.std.specs.Prelude.{IfOk, OnOk};
ghost use Rattle.commit_horizon.specs.Horizon.{runs_of, AllStand};
ghost use Rattle.run_core.specs.Advances.{IsAdvance, Works};

use crate::Advance;
use crate::advance_untold::make_final;
use commit_horizon::{Committed, Untold};
use region_core::Region;
use std::alloc::{AllocError, Global};

/// Makes final what the regions did, which stand on the committed state by number: what they did before the commit
/// horizon is committed. If that is nothing, they hear each other until that takes nothing back, and there is a
/// commit again. If that one is empty too, the next event of the cell run is made by its home, and committed; or there
/// is none, or it fails a limit.
///
/// # Errors
/// Out of memory: the committed state and the regions are to be given up.
pub fn advance(
    alloc: Global,
    committed: &mut Committed,
    regions: &mut [Region],
) -> Result<Advance, AllocError>
    requires { AllStand committed.old regions.old }
    ensures answer { IfOk result (λ answer.
        IsAdvance committed.old (runs_of regions.old) answer committed.new) }
    ensures works { IfOk result (λ answer.
        Works committed.old (runs_of regions.old) answer committed.new regions.new) }
    ensures stand { OnOk result (AllStand committed.new regions.new) }
{
    let mut untold = Untold::new(alloc);
    let (kind, made) = make_final(alloc, committed.state(), regions, &mut untold)?;
    let batch = committed.follow(alloc, untold, made.floor)?;
    Ok(kind.answer_with(batch))
}
