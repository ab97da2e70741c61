//! Samples of a run: the states of all disks, or sums over the collisions.

ghost use Rattle.std.specs.Prelude.{◌≡◌, []};
ghost use Rattle.fixed_motion.specs.Scene.{IsValidScene};
ghost use Rattle.run_samples.specs.Meaning.{sampled_so_far, nothing_sampled};
ghost use Rattle.program_modes.specs.Reports.{IsSampled};
ghost use Rattle.program_modes.specs.Answers.{Wrote, CountsWrites, MayWrite};
ghost use Rattle.program_modes.specs.Shows.{IsOfScene};
ghost use Rattle.program_modes.specs.Publishes.{PublishesRun};

use crate::engines::Engine;
use crate::showing::{status_at_end, status_of_fault};
use crate::status::Status;
use collision_report::StateTable;
use fixed_motion::Scene;
use live_progress::{Board, Pen, Watched};
use region_core::{Burst, Gate, Idle};
use report_ports::Sink;
use run_samples::{Sample, Sampler};
use std::alloc::Global;
use std::sync::Wait;
use std::thread::Threads;

/// Runs the scene by an engine, publishes each change on the board, and writes samples of the run.
pub fn write_samples<R: Threads + Wait + Sync, G: Gate, B: Burst<Idle, ()>, K: Sink>(
    rt: &R,
    alloc: Global,
    engine: &mut Engine<'_, G, B>,
    sample: Sample,
    scene: &Scene,
    sink: &mut K,
    board: &Board,
    pen: &mut Pen,
) -> Status
    requires board { pen.old.board ≡ board.now }
    requires unwritten { pen.old.list ≡ [] }
    requires allowed { MayWrite (IsSampled sample scene.now) (K.allows (K.lasting sink.old)) (K.taken sink.old) }
    ensures wrote { Wrote (IsSampled sample scene.now) (K.taken sink.old) (K.taken sink.new) result }
    ensures of_scene { IsOfScene result }
    ensures counts { CountsWrites (K.faults sink.old) (K.faults sink.new) result }
    ensures board_kept { pen.new.board ≡ pen.old.board }
    ensures published { PublishesRun scene.now result pen.new.list }
{
    // The clause of this call says that the scene is valid, so it has a run.
    let _count = scene.count();
    let Ok(mut table) = StateTable::new(alloc, scene) else {
        return Status::NoMemory;
    };
    board.announce(scene.rules.end);
    let sampler = Sampler::new(&mut table, sink, sample);
    let mut watched = Watched {
        rt,
        board,
        pen,
        inner: sampler,
    };
    sample_run(rt, alloc, engine, scene, &mut watched)
}

// Runs the scene by an engine, which tells each change to a sampler that was told nothing before, and writes the end of
// the samples.
fn sample_run<R: Threads + Wait + Sync, G: Gate, B: Burst<Idle, ()>, K: Sink>(
    rt: &R,
    alloc: Global,
    engine: &mut Engine<'_, G, B>,
    scene: &Scene,
    watched: &mut Watched<'_, R, Sampler<'_, K>>,
) -> Status
    requires valid { IsValidScene scene.now }
    requires unwritten { watched.old.pen.now.list ≡ [] }
    requires first { sampled_so_far watched.old.inner.sample watched.old.inner.table.now watched.old.inner.sums
        (K.taken watched.old.inner.sink.now) watched.old.inner.walls watched.old.inner.pairs
        ≡ nothing_sampled watched.old.inner.sample scene.now (K.taken watched.old.inner.sink.now) }
    requires allowed { MayWrite (IsSampled watched.old.inner.sample scene.now)
        (K.allows (K.lasting watched.old.inner.sink.now)) (K.taken watched.old.inner.sink.now) }
    ensures pen_loan { watched.new.pen.ghost_name ≡ watched.old.pen.ghost_name }
    ensures loan { watched.new.inner.sink.ghost_name ≡ watched.old.inner.sink.ghost_name }
    ensures wrote { Wrote (IsSampled watched.old.inner.sample scene.now)
        (K.taken watched.old.inner.sink.now) (K.taken watched.new.inner.sink.now) result }
    ensures of_scene { IsOfScene result }
    ensures counts { CountsWrites (K.faults watched.old.inner.sink.now) (K.faults watched.new.inner.sink.now) result }
    ensures board_kept { watched.new.pen.now.board ≡ watched.old.pen.now.board }
    ensures published { PublishesRun scene.now result watched.new.pen.now.list }
{
    match engine.run(rt, alloc, scene, watched) {
        Ok(outcome) => status_at_end(watched.inner.end(scene, &outcome), &outcome),
        Err(fault) => status_of_fault(fault),
    }
}
