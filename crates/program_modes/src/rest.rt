//! What mode `cut` writes: the rest of a scene after a tick, as a scene of its own.

ghost use Rattle.std.specs.Prelude.{◌≤◌};
ghost use Rattle.program_modes.specs.Output.{IsCutText};
ghost use Rattle.program_modes.specs.Answers.{Wrote, CountsWrites, MayWrite};
ghost use Rattle.program_modes.specs.Shows.{IsOfScene};

use crate::cut::{Cut, cut_by};
use crate::engines::Engine;
use crate::refusals::late_cut_line;
use crate::showing::{status_at_end, status_of_fault, write_scene, write_text};
use crate::status::Status;
use collision_report::{Format, Reporter, StateTable};
use event_rules::Outcome;
use fixed_motion::Scene;
use region_core::{Burst, Gate, Idle};
use report_ports::Sink;
use std::alloc::Global;
use std::thread::Threads;

/// Runs the scene by an engine up to a tick, and writes the rest. A tick after the scene's last one is refused.
pub fn write_cut<R: Threads + Sync, G: Gate, B: Burst<Idle, ()>, K: Sink>(
    rt: &R,
    alloc: Global,
    engine: &mut Engine<'_, G, B>,
    format: Format,
    at: u64,
    scene: &Scene,
    sink: &mut K,
) -> Status
    requires allowed { MayWrite (IsCutText format at scene.now) (K.allows (K.lasting sink.old)) (K.taken sink.old) }
    ensures wrote { Wrote (IsCutText format at scene.now) (K.taken sink.old) (K.taken sink.new) result }
    ensures of_scene { IsOfScene result }
    ensures counts { CountsWrites (K.faults sink.old) (K.faults sink.new) result }
{
    if at > scene.rules.end {
        write_text(sink, late_cut_line().as_bytes(), Status::SceneRefused)
    } else {
        write_rest(rt, alloc, engine, format, at, scene, sink)
    }
}

// The same, for a tick that isn't after the last one.
fn write_rest<R: Threads + Sync, G: Gate, B: Burst<Idle, ()>, K: Sink>(
    rt: &R,
    alloc: Global,
    engine: &mut Engine<'_, G, B>,
    format: Format,
    at: u64,
    scene: &Scene,
    sink: &mut K,
) -> Status
    requires at { at ≤ scene.now.rules.end }
    requires allowed { MayWrite (IsCutText format at scene.now) (K.allows (K.lasting sink.old)) (K.taken sink.old) }
    ensures wrote { Wrote (IsCutText format at scene.now) (K.taken sink.old) (K.taken sink.new) result }
    ensures of_scene { IsOfScene result }
    ensures counts { CountsWrites (K.faults sink.old) (K.faults sink.new) result }
{
    // The clause of this call says that the scene is valid, so it has a run.
    let _count = scene.count();
    let Ok(mut table) = StateTable::new(alloc, scene) else {
        return Status::NoMemory;
    };
    // If the run passes a limit before the tick, its report is written, in the short form, which has only the end.
    let mut reporter = Reporter::new(&mut table, sink, Format::Summary);
    match cut_by(rt, alloc, scene, at, engine, &mut reporter) {
        Ok(Cut::Rest(rest)) => write_scene(alloc, "rest", format, &rest, sink),
        Ok(Cut::Limit(limit)) => {
            let outcome = Outcome::Limit(limit);
            status_at_end(reporter.end(scene, &outcome), &outcome)
        }
        Err(fault) => status_of_fault(fault),
    }
}
