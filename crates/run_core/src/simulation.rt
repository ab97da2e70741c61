//! The run of a scene over regions.

ghost use Rattle.std.specs.Prelude.{◌≡◌, None, IfOk, IfErr};
ghost use Rattle.event_rules.specs.Told.{Told, AwaitsAll};
ghost use Rattle.event_rules.specs.Tellings.{AwaitsRun, RunTold, RunCutShort, CountsRun};
ghost use Rattle.cell_grid.specs.Grid.{IsAsked};
ghost use Rattle.cell_sequence.specs.Run.{hits};
ghost use Rattle.cell_sequence.specs.State.{opening_state};
ghost use Rattle.run_floors.specs.Floors.{IsOfRun};
ghost use Rattle.commit_horizon.specs.Telling.{HitsCutShort};
ghost use Rattle.run_core.specs.AdvancesUntold.{answer_with};
ghost use Rattle.run_core.specs.Simulates.{Advances, FewBursts};
ghost use Rattle.run_core.specs.Standing.{WorksOnce};

use crate::advance_untold::advance_untold;
use crate::answers::AdvanceKind;
use crate::one_state::Standing;
use crate::run_burst::{AnyRun, RunBurst};
use crate::telling::Telling;
use event_rules::{Listener, Outcome, RunFault};
use fixed_motion::{MAX_DISKS, Scene};
use region_core::Burst;
use std::alloc::Global;
use std::thread::Threads;

/// Runs a scene over this many regions, 1 to [`MAX_REGIONS`](cell_grid::MAX_REGIONS), and tells each change in
/// the order of the stamps: what a burst made final is told beside the next one, and what is left of it after that.
/// The burst may do with the regions what it will: the run is the same. The caller's thread alone opens them.
///
/// # Errors
/// The listener refused a change, and its count of refusals rose; or out of memory.
pub fn simulate<B: Burst<Telling, L>, R: Threads + Sync, L: Listener>(
    rt: &R,
    alloc: Global,
    scene: &Scene,
    regions: u32,
    burst: &mut B,
    listener: &mut L,
) -> Result<Outcome, RunFault>
    requires asked { IsAsked regions }
    requires awaited { AwaitsRun L.after L.awaits scene.now (L.meaning listener.old) }
    ensures run { IfOk result (λ outcome.
        RunTold L.after scene.now outcome (L.meaning listener.old) (L.meaning listener.new)) }
    ensures cut_short { IfErr result (λ fault.
        RunCutShort L.after L.torn scene.now fault
        (L.meaning listener.old) (L.meaning listener.new)) }
    ensures counts { CountsRun (L.faults listener.old) (L.faults listener.new) result }
{
    let mut any = AnyRun { burst, threads: 1 };
    simulate_by(rt, alloc, scene, regions, &mut any, listener)
}

/// The same with a burst that may be of this run alone. The regions are opened in as many threads as it has. It works in at
/// most one burst more than the cell run has actions.
///
/// # Errors
/// The listener refused a change, and its count of refusals rose; or out of memory.
pub fn simulate_by<B: RunBurst<Telling, L>, R: Threads + Sync, L: Listener>(
    rt: &R,
    alloc: Global,
    scene: &Scene,
    regions: u32,
    burst: &mut B,
    listener: &mut L,
) -> Result<Outcome, RunFault>
    requires asked { IsAsked regions }
    requires of { IsOfRun (B.of burst.old) (opening_state scene.now regions) }
    requires awaited { AwaitsRun L.after L.awaits scene.now (L.meaning listener.old) }
    ensures run { IfOk result (λ outcome.
        RunTold L.after scene.now outcome (L.meaning listener.old) (L.meaning listener.new)) }
    ensures few_bursts { IfOk result (λ outcome. FewBursts scene.now regions outcome (B.bursts burst.old) (B.bursts burst.new)) }
    ensures cut_short { IfErr result (λ fault.
        RunCutShort L.after L.torn scene.now fault
        (L.meaning listener.old) (L.meaning listener.new)) }
    ensures counts { CountsRun (L.faults listener.old) (L.faults listener.new) result }
{
    prove!(scene.disks.len() <= MAX_DISKS);
    let mut standing = Standing::open(rt, alloc, scene, regions, burst.threads())?;
    let mut telling = Telling::new(alloc);
    'bursts: loop {
        let (kind, left) = work(rt, alloc, standing, burst, &mut telling, listener)?;
        if let AdvanceKind::Raised = kind {
            standing = left;
            continue 'bursts;
        }
        telling.tell_rest(listener)?;
        if let AdvanceKind::Limit(limit) = kind {
            return Ok(Outcome::Limit(limit));
        }
        let spots = left.final_state(alloc)?;
        return Ok(Outcome::Done(spots));
    }
}

// Lets a burst work on regions, while actions that are untold are told beside it, and then advances. All that was
// untold before is told then, and what the advance made final is untold.
fn work<B: RunBurst<Telling, L>, R: Threads + Sync, L: Listener>(
    rt: &R,
    alloc: Global,
    standing: Standing,
    burst: &mut B,
    telling: &mut Telling,
    listener: &mut L,
) -> Result<(AdvanceKind, Standing), RunFault>
    requires of { IsOfRun (B.of burst.old) standing }
    requires heard { telling.old.fault ≡ None }
    requires awaited { AwaitsAll L.after L.awaits (L.meaning listener.old) (hits telling.old.untold) }
    ensures once { WorksOnce B.of B.bursts burst.old burst.new }
    ensures advances { IfOk result (λ advanced.
        Advances standing (answer_with advanced.0 telling.new.untold) advanced.1) }
    ensures told { IfOk result (λ _.
        Told L.after (L.meaning listener.old) (hits telling.old.untold) (L.meaning listener.new)) }
    ensures heard { IfOk result (λ _. telling.new.fault ≡ None) }
    ensures cut_short { IfErr result (λ fault. HitsCutShort L.after L.torn telling.old.untold fault
        (L.meaning listener.old) (L.meaning listener.new)) }
    ensures counts { CountsRun (L.faults listener.old) (L.faults listener.new) result }
{
    match standing.work(rt, alloc, burst, telling, listener) {
        Ok(worked) => {
            telling.tell_rest(listener)?;
            let Standing {
                earlier,
                last,
                floor: _,
                regions,
            } = worked;
            let advanced = advance_untold(alloc, earlier, last, regions, &mut telling.untold)?;
            Ok(advanced)
        }
        // A refusal comes first: once it is counted, running out of memory isn't the answer.
        Err(_) => match telling.fault {
            Some(_) => Err(RunFault::Listener),
            None => Err(RunFault::NoMemory),
        },
    }
}
