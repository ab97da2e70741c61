//! The top call over a sink that gathers the pieces that it is given.

ghost use Rattle.std.specs.Prelude.{◌≡◌, [], map, Option, List, ℕ};
ghost use Rattle.command_words.specs.declared.settings.Settings.{Settings};
ghost use Rattle.command_words.specs.Words.{settings_of};
ghost use Rattle.program_modes.specs.Answers.{Answers, MayAnswer, CountsWrites};
ghost use Rattle.hard_disks.specs.Gathers.{IsFresh, Finishes, Serves};

use crate::calls::top_watched;
use gathered_sink::GatheringSink;
use live_progress::{Board, Pen};
use program_modes::Status;
use region_core::Gate;
use report_ports::{Given, Sink, Source};
use std::alloc::Global;
use std::sync::Wait;
use std::thread::Threads;
use std::time::Clock;
use terminal_line::Timely;

/// Does what [`top`] does, but gathers the pieces of the output, up to `room` bytes, before it gives them to the sink;
/// the rest is given before the call returns. At the beginning the sink has taken nothing, if it tells its bytes, and
/// no call of it has failed. Of each byte that it is given it may ask what a sink of [`top`] may. It is given back.
///
/// If the rest can't be given, the status is [`Status::WriteFault`], whatever it was before. The gathering takes memory
/// only for the room; if there is none, each piece is given at once.
pub fn top_gathered<R: Threads + Wait + Sync, S: Source, K: Sink, G: Gate, C: Clock>(
    rt: &R,
    alloc: Global,
    words: &[&str],
    source: &mut S,
    sink: K,
    room: usize,
    gate: &G,
    clock: &C,
) -> (Status, K)
    requires fresh { IsFresh (K.taken sink) }
    requires whole { K.faults sink ≡ 0 }
    requires allowed { MayAnswer (settings_of (map (λ w. w.now) words.now)) (S.left source.old)
        (K.allows (K.lasting sink)) (K.taken sink) }
    ensures serves { Serves S.left S.faults K.taken K.faults (settings_of (map (λ w. w.now) words.now))
        source.old source.new sink result.1 result.0 }
{
    let Ok((board, mut pen)) = Board::open(alloc) else {
        return (Status::NoMemory, sink);
    };
    gather(
        rt, alloc, words, source, sink, room, gate, clock, &board, &mut pen,
    )
}

// Does the same, and publishes the changes of the run on a board that is handed in.
pub(crate) fn gather<R: Threads + Wait + Sync, S: Source, K: Sink, G: Gate, C: Clock>(
    rt: &R,
    alloc: Global,
    words: &[&str],
    source: &mut S,
    sink: K,
    room: usize,
    gate: &G,
    clock: &C,
    board: &Board,
    pen: &mut Pen,
) -> (Status, K)
    requires fresh { IsFresh (K.taken sink) }
    requires whole { K.faults sink ≡ 0 }
    requires board { pen.old.board ≡ board.now }
    requires unwritten { pen.old.list ≡ [] }
    requires allowed { MayAnswer (settings_of (map (λ w. w.now) words.now)) (S.left source.old)
        (K.allows (K.lasting sink)) (K.taken sink) }
    ensures serves { Serves S.left S.faults K.taken K.faults (settings_of (map (λ w. w.now) words.now))
        source.old source.new sink result.1 result.0 }
{
    let gathered = GatheringSink::new(alloc, sink, room);
    let mut timely = Timely::new(clock, gathered);
    let status = top_watched(rt, alloc, words, source, &mut timely, gate, board, pen);
    finish(timely.gathered, status)
}

// Gives the rest of what was gathered, after the call that gathered it ended with the status.
#[tactic(auto, using(crate::proofs::PassedOn::answered_torn, crate::proofs::PassedOn::answered_unread, crate::proofs::PassedOn::answered_whole, crate::proofs::PassedOn::writes, crate::proofs::PassedOn::counted_whole, crate::proofs::PassedOn::counted_torn,))]
fn finish<K: Sink>(mut gathered: GatheringSink<K>, status: Status) -> (Status, K)
    ensures answers { (settings : Option Settings) (left taken : Option (List ℕ)) → IsFresh taken →
        Answers settings left taken gathered.told status →
        Answers settings left taken (K.taken result.1) result.0 }
    ensures writes { CountsWrites 0 gathered.faults status → CountsWrites 0 (K.faults result.1) result.0 }
    ensures kept { Finishes status (K.faults result.1) result.0 }
{
    match status {
        Status::ReadFault => (Status::ReadFault, gathered.into_sink()),
        Status::WriteFault => (Status::WriteFault, gathered.into_sink()),
        _ => match gathered.flush() {
            Given::All => (status, gathered.into_sink()),
            Given::Failed => (Status::WriteFault, gathered.into_sink()),
        },
    }
}
