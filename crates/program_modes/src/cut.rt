//! A run up to a tick, and the rest of it.

ghost use Rattle.std.specs.Prelude.{◌≤◌, IfOk, IfErr};
ghost use Rattle.cell_grid.specs.Grid.{IsAsked};
ghost use Rattle.event_rules.specs.Tellings.{AwaitsRun, RunCutShort, CountsRun};
ghost use Rattle.resume.specs.Parts.{before_scene};
ghost use Rattle.program_modes.specs.Cut.{CutTold};
ghost use Rattle.program_modes.specs.Runs.{TellsRun};

use crate::engines::Engine;
use event_rules::{Limit, Listener, Outcome, RunFault};
use fixed_motion::Scene;
use region_core::{Burst, Gate, Idle};
use resume::{before, rest};
use std::alloc::Global;
use std::thread::Threads;

/// How a run up to a tick ends.
#[derive(Drop)]
pub enum Cut {
    /// The tick is reached; this is the rest.
    Rest(Scene),
    /// An event before the tick fails.
    Limit(Limit),
}

/// Runs a scene over `regions` regions, 1 to [`MAX_REGIONS`](cell_grid::MAX_REGIONS), up to a tick, which is at most
/// its last one, tells each change before it in the order of the stamps, and answers the rest as a scene of its own.
/// The burst may do anything with the regions: what is told and the rest are the same.
///
/// # Errors
/// The listener refused a change, and its count of refusals rose; or out of memory.
pub fn cut_at<R: Threads + Sync, B: Burst<Idle, ()>, L: Listener>(
    rt: &R,
    alloc: Global,
    scene: &Scene,
    at: u64,
    regions: u32,
    burst: &mut B,
    listener: &mut L,
) -> Result<Cut, RunFault>
    requires asked { IsAsked regions }
    requires at { at ≤ scene.now.rules.end }
    requires awaited { AwaitsRun L.after L.awaits (before_scene scene.now at) (L.meaning listener.old) }
    ensures cut { IfOk result (λ cut.
        CutTold L.after scene.now at cut (L.meaning listener.old) (L.meaning listener.new)) }
    ensures cut_short { IfErr result (λ fault.
        RunCutShort L.after L.torn (before_scene scene.now at) fault
        (L.meaning listener.old) (L.meaning listener.new)) }
    ensures counts { CountsRun (L.faults listener.old) (L.faults listener.new) result }
{
    let mut engine = Engine::over(regions, burst);
    cut_by(rt, alloc, scene, at, &mut engine, listener)
}

/// The same by an engine.
pub fn cut_by<R: Threads + Sync, G: Gate, B: Burst<Idle, ()>, L: Listener>(
    rt: &R,
    alloc: Global,
    scene: &Scene,
    at: u64,
    engine: &mut Engine<'_, G, B>,
    listener: &mut L,
) -> Result<Cut, RunFault>
    requires at { at ≤ scene.now.rules.end }
    requires awaited { AwaitsRun L.after L.awaits (before_scene scene.now at) (L.meaning listener.old) }
    ensures cut { IfOk result (λ cut.
        CutTold L.after scene.now at cut (L.meaning listener.old) (L.meaning listener.new)) }
    ensures cut_short { IfErr result (λ fault.
        RunCutShort L.after L.torn (before_scene scene.now at) fault
        (L.meaning listener.old) (L.meaning listener.new)) }
    ensures counts { CountsRun (L.faults listener.old) (L.faults listener.new) result }
{
    // A scene that is read is known to be valid.
    let _end = scene.rules.end;
    match run_before(rt, alloc, scene, at, engine, listener)? {
        Outcome::Done(state) => Ok(Cut::Rest(rest(alloc, scene, at, &state)?)),
        Outcome::Limit(limit) => Ok(Cut::Limit(limit)),
    }
}

// Runs the part of a scene before the tick.
fn run_before<R: Threads + Sync, G: Gate, B: Burst<Idle, ()>, L: Listener>(
    rt: &R,
    alloc: Global,
    scene: &Scene,
    at: u64,
    engine: &mut Engine<'_, G, B>,
    listener: &mut L,
) -> Result<Outcome, RunFault>
    requires at { at ≤ scene.now.rules.end }
    requires awaited { AwaitsRun L.after L.awaits (before_scene scene.now at) (L.meaning listener.old) }
    ensures { TellsRun L.after L.torn L.meaning L.faults (before_scene scene.now at)
        listener.old listener.new result }
{
    // A scene that is read is known to be valid.
    let _end = scene.rules.end;
    let first = before(alloc, scene, at)?;
    engine.run(rt, alloc, &first, listener)
}
