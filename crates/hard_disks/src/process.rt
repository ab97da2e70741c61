//! What the process does with its words: the top call over standard input and output.
//!
//! Nothing is known of the bytes of standard input and output, so only that part of the status is proved which the
//! words decide. For a reader and a writer whose bytes are known, the whole is proved. Nothing is known either of which
//! of their calls fail: what failures are answered, and what each byte is at its time, [`run_over`] says of any source
//! and sink.

ghost use Rattle.std.specs.Prelude.{◌≡◌, [], map, None, Some, IsSome, string_bytes};
ghost use Rattle.program_modes.specs.Answers.{Answers, MayAnswer};
ghost use Rattle.hard_disks.specs.Gathers.{IsFresh, Serves};
ghost use Rattle.command_words.specs.Words.{settings_of};

use crate::gathering::{gather, top_gathered};
use live_progress::{Board, Pen};
use program_modes::Status;
use report_ports::{Sink, Source, StdSink, StdSource};
use std::io::{Read, Write};
use std::sync::Wait;
use std::thread::Threads;
use std::time::Clock;
use std::{io, thread};
use terminal_line::{BesideLine, ProgressLine, Terminal, TimeSharing};

// How many bytes of output are written together, unless it goes to a terminal: what a pipe holds.
const ROOM: usize = 65_536;

/// Which of the two streams that the process writes to are terminals.
#[derive(Clone, Copy, Debug)]
pub struct Terminals {
    /// Whether standard output is one.
    pub output: bool,
    /// Whether standard error is one.
    pub errors: bool,
}

/// Does what the words ask for, which follow the program's name: reads standard input, and writes standard output.
/// If standard error is a terminal, a line there says how far the run is. If standard output is none, the output is
/// written in larger pieces, and no line is held for long while others follow. `terminal` is asked whether the line may
/// be shown.
///
/// What is read and written is what [`top`] says.
pub fn run_process<
    R: AllocGlobal + Input + Print + Eprint + Threads + Wait + Clock + Sync,
    T: Terminal + Sync,
>(rt: &R, words: &[String], terminals: Terminals, terminal: &T) -> Status
    ensures { Answers (settings_of (map string_bytes words.now)) None None None result }
{
    let Ok(words) = words
        .iter()
        .map(|word| word.as_str())
        .collect::<Vec<&str>>(rt.alloc())
    else {
        return Status::NoMemory;
    };
    let source = StdSource::new(rt.reader());
    let sink = StdSink::new(io::writer(rt));
    let (status, _, _) = run_over(rt, &words, source, sink, terminals, terminal);
    status
}

/// Does over any reader and writer whose bytes are known what [`run_process`] does over standard input and output. The
/// writer holds none yet, and is given back.
pub fn run_process_over<
    R: AllocGlobal + Eprint + Threads + Wait + Clock + Sync,
    I: Read + Drop,
    O: Write + Drop,
    T: Terminal + Sync,
>(rt: &R, words: &[&str], input: I, output: O, terminals: Terminals, terminal: &T) -> (Status, O)
    requires known { IsSome (I.remaining input) }
    requires empty { O.contents output ≡ Some [] }
    ensures { Answers (settings_of (map (λ w. w.now) words.now)) (I.remaining input)
        (O.contents output) (O.contents result.1) result.0 }
{
    let source = StdSource::telling(input);
    let sink = StdSink::telling(output);
    let (status, _, sink) = run_over(rt, words, source, sink, terminals, terminal);
    (status, sink.into_writer())
}

/// Does what [`run_process_over`] does if standard error is no terminal. `is_terminal` says whether the writer is one.
pub fn run_streams<R: AllocGlobal + Threads + Wait + Clock + Sync, I: Read + Drop, O: Write + Drop>(
    rt: &R,
    words: &[&str],
    input: I,
    output: O,
    is_terminal: bool,
) -> (Status, O)
    requires known { IsSome (I.remaining input) }
    requires empty { O.contents output ≡ Some [] }
    ensures { Answers (settings_of (map (λ w. w.now) words.now)) (I.remaining input)
        (O.contents output) (O.contents result.1) result.0 }
{
    let mut source = StdSource::telling(input);
    let sink = StdSink::telling(output);
    let gate = TimeSharing::new(rt, rt.alloc());
    let room = room_of(is_terminal);
    let (status, written) = top_gathered(rt, rt.alloc(), words, &mut source, sink, room, &gate, rt);
    (status, written.into_writer())
}

// How many bytes are gathered: on a terminal each line is shown at once.
fn room_of(is_terminal: bool) -> usize {
    if is_terminal { 0 } else { ROOM }
}

/// Does over any source and sink what [`run_process`] does over standard input and output, and gives both back. If the
/// sink tells its bytes, it has taken none, and no call of it has failed. Of each byte that it is given, at any time, it
/// may ask that it extends what was taken to a prefix of an output.
pub fn run_over<
    R: AllocGlobal + Eprint + Threads + Wait + Clock + Sync,
    S: Source + Drop,
    K: Sink + Drop,
    T: Terminal + Sync,
>(
    rt: &R,
    words: &[&str],
    mut source: S,
    sink: K,
    terminals: Terminals,
    terminal: &T,
) -> (Status, S, K)
    requires fresh { IsFresh (K.taken sink) }
    requires whole { K.faults sink ≡ 0 }
    requires allowed { MayAnswer (settings_of (map (λ w. w.now) words.now)) (S.left source)
        (K.allows (K.lasting sink)) (K.taken sink) }
    ensures serves { Serves S.left S.faults K.taken K.faults (settings_of (map (λ w. w.now) words.now))
        source result.1 sink result.2 result.0 }
{
    let is_shared = terminals.output;
    if terminals.errors
        && let Ok((board, pen)) = Board::open(rt.alloc())
    {
        return run_shown(rt, words, source, sink, is_shared, terminal, &board, pen);
    }
    let gate = TimeSharing::new(rt, rt.alloc());
    let room = room_of(is_shared);
    let (status, sink) = top_gathered(rt, rt.alloc(), words, &mut source, sink, room, &gate, rt);
    (status, source, sink)
}

// Another thread shows the line while the run goes on; then the line is ended.
fn run_shown<
    R: AllocGlobal + Eprint + Threads + Wait + Clock + Sync,
    S: Source + Drop,
    K: Sink + Drop,
    T: Terminal + Sync,
>(
    rt: &R,
    words: &[&str],
    source: S,
    sink: K,
    is_shared: bool,
    terminal: &T,
    board: &Board,
    mut pen: Pen,
) -> (Status, S, K)
    requires fresh { IsFresh (K.taken sink) }
    requires whole { K.faults sink ≡ 0 }
    requires board { pen.board ≡ board.now }
    requires unwritten { pen.list ≡ [] }
    requires allowed { MayAnswer (settings_of (map (λ w. w.now) words.now)) (S.left source)
        (K.allows (K.lasting sink)) (K.taken sink) }
    ensures serves { Serves S.left S.faults K.taken K.faults (settings_of (map (λ w. w.now) words.now))
        source result.1 sink result.2 result.0 }
{
    let glass = board.glass(rt, &mut pen);
    let line = ProgressLine::new();
    let (_, ended) = thread::join(
        rt,
        || line.show(rt, terminal, board, glass),
        || -> (Status, S, K)
            requires { IsFresh (K.taken sink) × (K.faults sink ≡ 0)
                × (pen.board ≡ board.now) × (pen.list ≡ [])
                × MayAnswer (settings_of (map (λ w. w.now) words.now)) (S.left source)
                (K.allows (K.lasting sink)) (K.taken sink) }
            ensures serves { Serves S.left S.faults K.taken K.faults (settings_of (map (λ w. w.now) words.entry.now))
                source result.1 sink result.2 result.0 }
        {
            let (mut source, mut pen) = (source, pen);
            let line = &line;
            let beside = BesideLine {
                rt,
                line,
                is_shared,
                sink,
            };
            let gate = TimeSharing::new(rt, rt.alloc());
            let room = room_of(is_shared);
            let (status, beside) = gather(
                rt,
                rt.alloc(),
                words,
                &mut source,
                beside,
                room,
                &gate,
                rt,
                board,
                &mut pen,
            );
            line.end(rt);
            (status, source, beside.sink)
        },
    );
    ended
}
