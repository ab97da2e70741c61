//! The modes that show a scene.

ghost use Rattle.std.specs.Prelude.{◌≡◌, ◌≢◌, ◌≤◌, [], length};
ghost use Rattle.report_ports.specs.Ports.{MayTake};
ghost use Rattle.fixed_motion.specs.Scene.{IsValidScene};
ghost use Rattle.collision_report.specs.Meaning.{so_far, nothing_yet};
ghost use Rattle.collision_report.specs.Lines.{number_line};
ghost use Rattle.command_words.specs.Ranges.{AreInRange};
ghost use Rattle.program_modes.specs.Output.{format_of, Shows, OfMade, IsShownRun, IsSceneText};
ghost use Rattle.program_modes.specs.Reports.{status_of, IsReport};
ghost use Rattle.program_modes.specs.Answers.{Wrote, CountsWrites, MayWrite};
ghost use Rattle.program_modes.specs.Shows.{WritesText, IsOfScene, status_at_end, status_of_fault};
ghost use Rattle.program_modes.specs.Publishes.{PublishesRun, PublishesMade, PublishesShown};

use crate::engines::Engine;
use crate::rest::write_cut;
use crate::samples::write_samples;
use crate::status::Status;
use collision_report::{Format, Reporter, StateTable};
use command_words::{Mode, OutputFormat, Settings};
use event_rules::{Deaf, Limit, Outcome, RunFault};
use fixed_motion::Scene;
use live_progress::{Board, Pen, Watched};
use region_core::{Burst, Gate, Idle};
use report_ports::{Given, Sink};
use run_samples::Sample;
use scene_maker::{make, scene_text};
use std::alloc::Global;
use std::sync::Wait;
use std::thread::Threads;
use text_lines::TextLine;

/// Gives a text as one piece; the status is `own` if all of it was taken.
pub fn write_text<K: Sink>(sink: &mut K, text: &[u8], own: Status) -> Status
    requires own { own ≢ Status.WriteFault }
    requires allowed { MayTake (K.allows (K.lasting sink.old)) (K.taken sink.old) text.now }
    ensures text { WritesText text.now own (K.taken sink.old) (K.taken sink.new) result }
    ensures counts { CountsWrites (K.faults sink.old) (K.faults sink.new) result }
{
    match sink.give(text) {
        Given::All => own,
        Given::Failed => Status::WriteFault,
    }
}

/// Does with a scene what the settings ask for.
pub fn show<R: Threads + Wait + Sync, K: Sink, G: Gate>(
    rt: &R,
    alloc: Global,
    settings: &Settings,
    scene: &Scene,
    sink: &mut K,
    gate: &G,
    board: &Board,
    pen: &mut Pen,
) -> Status
    requires ranges { AreInRange settings.now }
    requires board { pen.old.board ≡ board.now }
    requires unwritten { pen.old.list ≡ [] }
    requires shows { settings.now.mode ≢ Mode.Audit }
    requires allowed { MayWrite (Shows settings.now.mode settings.now scene.now)
        (K.allows (K.lasting sink.old)) (K.taken sink.old) }
    ensures wrote { Wrote (Shows settings.now.mode settings.now scene.now)
        (K.taken sink.old) (K.taken sink.new) result }
    ensures of_scene { IsOfScene result }
    ensures counts { CountsWrites (K.faults sink.old) (K.faults sink.new) result }
    ensures board_kept { pen.new.board ≡ pen.old.board }
    ensures published { PublishesShown settings.now.mode scene.now result pen.new.list }
{
    let mut engine = Engine::new(settings, gate);
    let format = format_of(settings.format);
    match settings.mode {
        Mode::Check => write_scene(alloc, "scene", format, scene, sink),
        Mode::Cut => write_cut(rt, alloc, &mut engine, format, settings.at, scene, sink),
        _ => write_run(rt, alloc, &mut engine, settings, scene, sink, board, pen),
    }
}

/// Makes the scene of the settings' number and number of disks, and shows its run.
pub fn show_made<R: Threads + Wait + Sync, K: Sink, G: Gate>(
    rt: &R,
    alloc: Global,
    settings: &Settings,
    sink: &mut K,
    gate: &G,
    board: &Board,
    pen: &mut Pen,
) -> Status
    requires ranges { AreInRange settings.now }
    requires board { pen.old.board ≡ board.now }
    requires unwritten { pen.old.list ≡ [] }
    requires allowed { MayWrite (OfMade settings.now.number settings.now.disks
        (IsShownRun settings.now.format settings.now.margin))
        (K.allows (K.lasting sink.old)) (K.taken sink.old) }
    ensures wrote { Wrote (OfMade settings.now.number settings.now.disks
        (IsShownRun settings.now.format settings.now.margin))
        (K.taken sink.old) (K.taken sink.new) result }
    ensures of_scene { IsOfScene result }
    ensures counts { CountsWrites (K.faults sink.old) (K.faults sink.new) result }
    ensures board_kept { pen.new.board ≡ pen.old.board }
    ensures published { PublishesMade settings.now.number settings.now.disks result pen.new.list }
{
    let Ok(scene) = make(alloc, settings.number, settings.disks) else {
        return Status::NoMemory;
    };
    let mut engine = Engine::new(settings, gate);
    write_run(rt, alloc, &mut engine, settings, &scene, sink, board, pen)
}

/// The form of a scene that the words ask for: if they ask for samples of a run, that of the report that has the same end.
pub fn format_of(format: OutputFormat) -> Format
    ensures { result ≡ format_of format }
{
    match format {
        OutputFormat::Lines | OutputFormat::States => Format::Lines,
        OutputFormat::Summary | OutputFormat::Sums => Format::Summary,
    }
}

/// Runs the scene by an engine, publishes each change on the board, and writes what the settings ask for of the run.
fn write_run<R: Threads + Wait + Sync, G: Gate, B: Burst<Idle, ()>, K: Sink>(
    rt: &R,
    alloc: Global,
    engine: &mut Engine<'_, G, B>,
    settings: &Settings,
    scene: &Scene,
    sink: &mut K,
    board: &Board,
    pen: &mut Pen,
) -> Status
    requires board { pen.old.board ≡ board.now }
    requires unwritten { pen.old.list ≡ [] }
    requires allowed { MayWrite (IsShownRun settings.now.format settings.now.margin scene.now)
        (K.allows (K.lasting sink.old)) (K.taken sink.old) }
    ensures wrote { Wrote (IsShownRun settings.now.format settings.now.margin scene.now)
        (K.taken sink.old) (K.taken sink.new) result }
    ensures of_scene { IsOfScene result }
    ensures counts { CountsWrites (K.faults sink.old) (K.faults sink.new) result }
    ensures board_kept { pen.new.board ≡ pen.old.board }
    ensures published { PublishesRun scene.now result pen.new.list }
{
    match settings.format {
        OutputFormat::Lines => {
            write_report(rt, alloc, engine, Format::Lines, scene, sink, board, pen)
        }
        OutputFormat::Summary => {
            write_report(rt, alloc, engine, Format::Summary, scene, sink, board, pen)
        }
        OutputFormat::States => {
            write_samples(rt, alloc, engine, Sample::States, scene, sink, board, pen)
        }
        OutputFormat::Sums => {
            let sums = Sample::Sums(settings.margin);
            write_samples(rt, alloc, engine, sums, scene, sink, board, pen)
        }
    }
}

/// Runs the scene by an engine, publishes each change on the board, and writes the report.
pub fn write_report<R: Threads + Wait + Sync, G: Gate, B: Burst<Idle, ()>, K: Sink>(
    rt: &R,
    alloc: Global,
    engine: &mut Engine<'_, G, B>,
    format: Format,
    scene: &Scene,
    sink: &mut K,
    board: &Board,
    pen: &mut Pen,
) -> Status
    requires board { pen.old.board ≡ board.now }
    requires unwritten { pen.old.list ≡ [] }
    requires allowed { MayWrite (IsReport format scene.now) (K.allows (K.lasting sink.old)) (K.taken sink.old) }
    ensures wrote { Wrote (IsReport format scene.now) (K.taken sink.old) (K.taken sink.new) result }
    ensures of_scene { IsOfScene result }
    ensures counts { CountsWrites (K.faults sink.old) (K.faults sink.new) result }
    ensures lasts { K.lasting sink.new ≡ K.lasting sink.old }
    ensures board_kept { pen.new.board ≡ pen.old.board }
    ensures published { PublishesRun scene.now result pen.new.list }
{
    // The clause of this call says that the scene is valid, so it has a run.
    let _count = scene.count();
    let Ok(mut table) = StateTable::new(alloc, scene) else {
        return Status::NoMemory;
    };
    board.announce(scene.rules.end);
    let reporter = Reporter::new(&mut table, sink, format);
    let mut watched = Watched {
        rt,
        board,
        pen,
        inner: reporter,
    };
    report_run(rt, alloc, engine, scene, &mut watched)
}

// Runs the scene by an engine, which tells each change to a reporter that was told nothing before, and writes the
// end of the report.
fn report_run<R: Threads + Wait + Sync, G: Gate, B: Burst<Idle, ()>, K: Sink>(
    rt: &R,
    alloc: Global,
    engine: &mut Engine<'_, G, B>,
    scene: &Scene,
    watched: &mut Watched<'_, R, Reporter<'_, K>>,
) -> Status
    requires valid { IsValidScene scene.now }
    requires unwritten { watched.old.pen.now.list ≡ [] }
    requires first { so_far watched.old.inner.format watched.old.inner.table.now
        (K.taken watched.old.inner.sink.now) watched.old.inner.walls watched.old.inner.pairs
        ≡ nothing_yet watched.old.inner.format scene.now (K.taken watched.old.inner.sink.now) }
    requires allowed { MayWrite (IsReport watched.old.inner.format scene.now)
        (K.allows (K.lasting watched.old.inner.sink.now)) (K.taken watched.old.inner.sink.now) }
    ensures pen_loan { watched.new.pen.ghost_name ≡ watched.old.pen.ghost_name }
    ensures loan { watched.new.inner.sink.ghost_name ≡ watched.old.inner.sink.ghost_name }
    ensures lasts { K.lasting watched.new.inner.sink.now ≡ K.lasting watched.old.inner.sink.now }
    ensures wrote { Wrote (IsReport watched.old.inner.format scene.now)
        (K.taken watched.old.inner.sink.now) (K.taken watched.new.inner.sink.now) result }
    ensures of_scene { IsOfScene result }
    ensures counts { CountsWrites (K.faults watched.old.inner.sink.now) (K.faults watched.new.inner.sink.now) result }
    ensures board_kept { watched.new.pen.now.board ≡ watched.old.pen.now.board }
    ensures published { PublishesRun scene.now result watched.new.pen.now.list }
{
    match engine.run(rt, alloc, scene, watched) {
        Ok(outcome) => status_at_end(watched.inner.end(scene, &outcome), &outcome),
        Err(fault) => status_of_fault(fault),
    }
}

/// How the program ends after a run with this outcome, the end of whose text was given or refused.
pub fn status_at_end(given: Result<(), Deaf>, outcome: &Outcome) -> Status
    ensures status { result ≡ status_at_end given outcome.now }
    ensures of_scene { IsOfScene result }
{
    match given {
        Ok(()) => status_of(outcome),
        Err(_) => Status::WriteFault,
    }
}

/// How the program ends after a run that broke off.
pub fn status_of_fault(fault: RunFault) -> Status
    ensures status { result ≡ status_of_fault fault }
    ensures of_scene { IsOfScene result }
{
    match fault {
        RunFault::Listener => Status::WriteFault,
        RunFault::NoMemory => Status::NoMemory,
    }
}

/// How the program ends after a run with this outcome.
pub fn status_of(outcome: &Outcome) -> Status
    ensures { result ≡ status_of outcome.now }
{
    match outcome {
        Outcome::Done(_) => Status::Done,
        Outcome::Limit(Limit::Speed(_)) => Status::SpeedLimit,
        Outcome::Limit(Limit::Rounds(_)) => Status::RoundLimit,
    }
}

/// Writes a scene itself, or a line with a name and the number of its disks.
pub fn write_scene<K: Sink>(
    alloc: Global,
    name: &str,
    format: Format,
    scene: &Scene,
    sink: &mut K,
) -> Status
    requires name { length name.now ≤ 32 }
    requires allowed { MayWrite (IsSceneText name.now format scene.now)
        (K.allows (K.lasting sink.old)) (K.taken sink.old) }
    ensures wrote { Wrote (IsSceneText name.now format scene.now)
        (K.taken sink.old) (K.taken sink.new) result }
    ensures of_scene { IsOfScene result }
    ensures counts { CountsWrites (K.faults sink.old) (K.faults sink.new) result }
{
    match format {
        Format::Lines => match scene_text(alloc, scene) {
            Ok(text) => write_text(sink, text.as_bytes(), Status::Done),
            Err(_) => Status::NoMemory,
        },
        Format::Summary => write_text(sink, count_line(name, scene).as_bytes(), Status::Done),
    }
}

fn count_line(name: &str, scene: &Scene) -> TextLine
    requires { length name.now ≤ 32 }
    ensures { result ≡ number_line name.now (length scene.now.disks) }
{
    let mut line = TextLine::new();
    line.push_text(name);
    line.push_number_field(u64::from(scene.count()));
    line.push_newline();
    line
}
