//! What glasses see of a run by the top call while it goes on.

ghost use Rattle.std.specs.Prelude.{◌≡◌, [], None};

use super::helpers::{AMPLE_ROOM, BOTH_ENGINES, row_source};
use hard_disks::{Status, top_watched};
use live_progress::{Board, Glass, Pen, Progress};
use region_core::OpenGate;
use report_ports::{Given, MemorySink, MemorySource, Sink};
use std::alloc::{AllocError, Global};
use std::process::Abort;
use std::sync::Wait;
use std::sync::atomic::{AtomicBool, Ordering};
use std::test::Fail;
use std::thread;
use std::thread::Threads;

const NOTHING: Progress = Progress { events: 0, tick: 0 };

// The number of events, and the tick of the last, before each of the four lines of the row's events.
const PAIRS: [Progress; 4] = [
    Progress { events: 1, tick: 4 },
    Progress {
        events: 2,
        tick: 18,
    },
    Progress {
        events: 3,
        tick: 30,
    },
    Progress {
        events: 4,
        tick: 37,
    },
];

// A sink that looks at a board before each piece that it takes, and keeps the first four pairs.
#[derive(Drop)]
struct Looking<'b, R: Wait> {
    rt: &'b R,
    board: &'b Board,
    glass: Glass,
    pieces: usize,
    seen: [Progress; 4],
    ghost of_board: { glass.board ≡ board.now },
}

impl<R: Wait> Sink for Looking<'_, R> {
    ghost Lasting = { Unit {0} };

    ghost lasting = { λ _. tt };

    ghost allows = { λ _ _. Unit {0} };

    ghost taken = { λ _. None };

    ghost faults = { λ _. 0 };

    fn faults(&self) -> u64 {
        0
    }

    fn give(&mut self, _piece: &[u8]) -> Given {
        let shown = self.board.look(self.rt, &mut self.glass);
        if let Some(place) = self.seen.get_mut(self.pieces) {
            *place = shown;
        }
        self.pieces = self.pieces.saturating_add(1);
        Given::All
    }
}

#[test]
fn each_event_is_shown_before_its_line(rt: HostRuntime) -> Result<(), Fail> {
    for words in BOTH_ENGINES {
        expect_shown(&rt, rt.alloc(), words)?;
    }
    Ok(())
}

fn expect_shown(
    rt: &(impl Threads + Wait + Sync + Abort),
    alloc: Global,
    words: &[&str],
) -> Result<(), AllocError> {
    let (status, seen, last) = seen_of(rt, alloc, words)?;
    let is_right = seen.as_slice() == PAIRS.as_slice() && last == PAIRS[3];
    assert!(rt;
        status == Status::Done && is_right,
        "{words:?}: {status:?}, {seen:?}, then {last:?}"
    );
    Ok(())
}

// The status of a run, the pairs that its sink sees before the first four pieces, and the one after the run.
fn seen_of<R: Threads + Wait + Sync>(
    rt: &R,
    alloc: Global,
    words: &[&str],
) -> Result<(Status, [Progress; 4], Progress), AllocError> {
    let source = row_source(alloc)?;
    let (board, mut pen) = Board::open(alloc)?;
    Ok(seen_on(rt, alloc, words, source, &board, &mut pen))
}

fn seen_on<R: Threads + Wait + Sync>(
    rt: &R,
    alloc: Global,
    words: &[&str],
    mut source: MemorySource,
    board: &Board,
    pen: &mut Pen,
) -> (Status, [Progress; 4], Progress)
    requires board { pen.old.board ≡ board.now }
    requires unwritten { pen.old.list ≡ [] }
{
    let mut sink = Looking {
        rt,
        board,
        glass: board.glass(rt, pen),
        pieces: 0,
        seen: [NOTHING; 4],
    };
    let gate = &OpenGate;
    let status = top_watched(rt, alloc, words, &mut source, &mut sink, gate, board, pen);
    let mut after = board.glass(rt, pen);
    (status, sink.seen, board.look(rt, &mut after))
}

const LOAD: &[&str] = &[
    "--mode", "load", "--number", "7", "--disks", "1000", "--format", "summary",
];

// The walls and pairs of that run.
const EVENTS: u64 = 1_451 + 22_220;

#[test]
fn neither_number_falls_while_a_run_goes_on(rt: HostRuntime) -> Result<(), Fail> {
    let (status, last) = watched_from_aside(&rt, rt.alloc())?;
    let events = last.map(|shown| shown.events);
    assert!(rt;
        status == Status::Done && events == Some(EVENTS),
        "{status:?}, {events:?}"
    );
    Ok(())
}

// The status of the run, and what another thread that looked meanwhile saw last; none if a number fell.
fn watched_from_aside<R: Threads + Wait + Sync>(
    rt: &R,
    alloc: Global,
) -> Result<(Status, Option<Progress>), AllocError> {
    let (board, pen) = Board::open(alloc)?;
    let (last, status) = watched_on(rt, alloc, &board, pen);
    Ok((status?, last))
}

fn watched_on<R: Threads + Wait + Sync>(
    rt: &R,
    alloc: Global,
    board: &Board,
    mut pen: Pen,
) -> (Option<Progress>, Result<Status, AllocError>)
    requires board { pen.board ≡ board.now }
    requires unwritten { pen.list ≡ [] }
{
    let glass = board.glass(rt, &mut pen);
    let over = AtomicBool::new(false);
    thread::join(
        rt,
        || rising(rt, board, glass, &over),
        || -> Result<Status, AllocError>
            requires { (pen.board ≡ board.now) × (pen.list ≡ []) }
        { run_to_its_end(rt, alloc, board, pen, &over) },
    )
}

// Runs the made scene, and then says that the run is over.
fn run_to_its_end<R: Threads + Wait + Sync>(
    rt: &R,
    alloc: Global,
    board: &Board,
    pen: Pen,
    over: &AtomicBool,
) -> Result<Status, AllocError>
    requires board { pen.board ≡ board.now }
    requires unwritten { pen.list ≡ [] }
{
    let status = run_made(rt, alloc, board, pen);
    over.store(true, Ordering::SeqCst);
    status
}

fn run_made<R: Threads + Wait + Sync>(
    rt: &R,
    alloc: Global,
    board: &Board,
    mut pen: Pen,
) -> Result<Status, AllocError>
    requires board { pen.board ≡ board.now }
    requires unwritten { pen.list ≡ [] }
{
    let mut source = MemorySource::new(alloc, b"", &[])?;
    let mut sink = MemorySink::new(alloc, &[], AMPLE_ROOM)?;
    let gate = &OpenGate;
    Ok(top_watched(
        rt,
        alloc,
        LOAD,
        &mut source,
        &mut sink,
        gate,
        board,
        &mut pen,
    ))
}

// Looks until the run is over, and once more; none if a number falls.
fn rising<R: Wait>(rt: &R, board: &Board, mut glass: Glass, over: &AtomicBool) -> Option<Progress>
    requires { glass.board ≡ board.now }
{
    let mut last = NOTHING;
    for _ in rt.forever() {
        let is_over = over.load(Ordering::SeqCst);
        let shown = board.look(rt, &mut glass);
        if shown.events < last.events || shown.tick < last.tick {
            return None;
        }
        last = shown;
        if is_over {
            break;
        }
        thread::yield_now();
    }
    Some(last)
}
