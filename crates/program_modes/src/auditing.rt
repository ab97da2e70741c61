//! The audit of a claimed report: whether it is the report of the scene that precedes it.

ghost use Rattle.std.specs.Prelude.{◌≡◌, IfOk};
ghost use Rattle.cell_grid.specs.Grid.{IsAsked};
ghost use Rattle.program_modes.specs.Answers.{Wrote, MayWrite};
ghost use Rattle.program_modes.specs.Reports.{IsReport};
ghost use Rattle.program_modes.specs.Shows.{IsOfScene};
ghost use Rattle.program_modes.specs.Audits.{IsAudit, Empties, CountsAudit, ReadsFront, ComparesRun, IsUnrefused, IsAuditFaultOf, answer_of, is_whole};

use crate::engines::Engine;
use crate::showing::write_report;
use crate::status::Status;
use collision_report::Format;
use fixed_motion::Scene;
use live_progress::Board;
use region_core::{Burst, Gate, Idle};
use report_audit::{Comparing, NoVerdict, Parted, Unread, Verdict};
use report_ports::{Sink, Source};
use scene_reader::{SceneFault, read_scene};
use std::alloc::Global;
use std::sync::Wait;
use std::thread::Threads;

/// Why there is no verdict.
#[derive(Drop)]
pub enum AuditFault {
    /// The scene was refused. The refusal is never `ReadFault` or `NoMemory`, which have variants here.
    Scene(SceneFault),
    /// The source failed.
    ReadFault,
    /// Out of memory.
    NoMemory,
}

/// Reads a scene from the bytes before the parting line, runs it over `regions` regions, 1 to
/// [`MAX_REGIONS`](cell_grid::MAX_REGIONS), and compares the report of its run with the bytes after that line while the
/// run tells it. The run ends at the end of the first line that is wrong. The burst may do anything with the regions:
/// the verdict is the same.
///
/// # Errors
/// The scene was refused, the source failed, or out of memory.
pub fn audit<R: Threads + Wait + Sync, S: Source, B: Burst<Idle, ()>>(
    rt: &R,
    alloc: Global,
    source: &mut S,
    regions: u32,
    burst: &mut B,
) -> Result<Verdict, AuditFault>
    requires asked { IsAsked regions }
    ensures audits { IsAudit (S.left source.old) result }
    // If the claimed report is the report, the source was read to its end.
    ensures emptied { Empties (S.left source.old) (S.left source.new) result }
    // The answer says that the source failed if and only if it did. So if it didn't, the answer is a verdict or a
    // refusal, unless memory ran out.
    ensures counts { CountsAudit (S.faults source.old) (S.faults source.new) result }
{
    let mut engine = Engine::over(regions, burst);
    audit_by(rt, alloc, source, &mut engine)
}

/// The same by an engine.
pub fn audit_by<R: Threads + Wait + Sync, S: Source, G: Gate, B: Burst<Idle, ()>>(
    rt: &R,
    alloc: Global,
    source: &mut S,
    engine: &mut Engine<'_, G, B>,
) -> Result<Verdict, AuditFault>
    ensures audits { IsAudit (S.left source.old) result }
    ensures emptied { Empties (S.left source.old) (S.left source.new) result }
    ensures counts { CountsAudit (S.faults source.old) (S.faults source.new) result }
{
    let mut parted = Parted::new(source);
    let scene = read_front(alloc, &mut parted)?;
    match parted.turn() {
        Ok(()) => {}
        Err(Unread) => return Err(AuditFault::ReadFault),
    }
    // The place of the answer: the comparison writes it, and what stands here before is never given back.
    let mut answer = Err(AuditFault::NoMemory);
    let _parted = compare_run(rt, alloc, engine, &scene, parted, &mut answer);
    answer
}

// Reads a scene to the end of its source.
fn read_front<T: Source>(alloc: Global, source: &mut T) -> Result<Scene, AuditFault>
    ensures reads { ReadsFront (T.left source.old) (T.left source.new) result }
    ensures counts { CountsAudit (T.faults source.old) (T.faults source.new) result }
    ensures lasts { T.lasting source.new ≡ T.lasting source.old }
{
    match read_scene(alloc, source) {
        Ok(scene) => {
            // The clause of this call says that the scene is valid.
            let _count = scene.count();
            Ok(scene)
        }
        Err(fault) => Err(audit_fault(fault)),
    }
}

// The fault of an audit whose scene has this fault.
fn audit_fault(fault: SceneFault) -> AuditFault
    ensures { IsAuditFaultOf fault result }
{
    match fault {
        SceneFault::ReadFault => AuditFault::ReadFault,
        SceneFault::NoMemory => AuditFault::NoMemory,
        other => AuditFault::Scene(other),
    }
}

// Compares the report of the scene's run with what the source has left, and gives the source back. The answer comes by
// a reference: if the source were given back within a pair, a caller wouldn't know which loan it holds.
fn compare_run<R: Threads + Wait + Sync, C: Source, G: Gate, B: Burst<Idle, ()>>(
    rt: &R,
    alloc: Global,
    engine: &mut Engine<'_, G, B>,
    scene: &Scene,
    claimed: C,
    answer: &mut Result<Verdict, AuditFault>,
) -> C
    ensures compares { IfOk answer.new (ComparesRun scene.now (C.left claimed) (C.left result)) }
    ensures counts { CountsAudit (C.faults claimed) (C.faults result) answer.new }
    ensures unrefused { IsUnrefused answer.new }
    ensures lasts { C.lasting result ≡ C.lasting claimed }
{
    // The clause of this call says that the scene is valid, so the lines of its report are short.
    let _count = scene.count();
    let mut comparing = Comparing::new(claimed);
    let status = write_unwatched(rt, alloc, engine, scene, &mut comparing);
    let (verdict, claimed) = comparing.judge(is_whole(status));
    *answer = answer_of(verdict);
    claimed
}

// The answer of an audit with this verdict, or with none.
fn answer_of(verdict: Result<Verdict, NoVerdict>) -> Result<Verdict, AuditFault>
    ensures { result ≡ answer_of verdict }
{
    match verdict {
        Ok(verdict) => Ok(verdict),
        Err(NoVerdict::Unread) => Err(AuditFault::ReadFault),
        Err(NoVerdict::Unfinished) => Err(AuditFault::NoMemory),
    }
}

// Whether the report was written to its end.
fn is_whole(status: Status) -> bool
    ensures { result ≡ is_whole status }
{
    matches!(
        status,
        Status::Done | Status::SpeedLimit | Status::RoundLimit
    )
}

// Writes the report of the scene's run without publishing it: nobody looks at its board.
fn write_unwatched<R: Threads + Wait + Sync, G: Gate, B: Burst<Idle, ()>, K: Sink>(
    rt: &R,
    alloc: Global,
    engine: &mut Engine<'_, G, B>,
    scene: &Scene,
    sink: &mut K,
) -> Status
    requires allowed { MayWrite (IsReport Format.Lines scene.now) (K.allows (K.lasting sink.old)) (K.taken sink.old) }
    ensures wrote { Wrote (IsReport Format.Lines scene.now) (K.taken sink.old) (K.taken sink.new) result }
    ensures of_scene { IsOfScene result }
    ensures lasts { K.lasting sink.new ≡ K.lasting sink.old }
{
    // The clause of this call says that the scene is valid, so it has a run.
    let _count = scene.count();
    let Ok((board, mut pen)) = Board::open(alloc) else {
        return Status::NoMemory;
    };
    let (lines, pen) = (Format::Lines, &mut pen);
    write_report(rt, alloc, engine, lines, scene, sink, &board, pen)
}
