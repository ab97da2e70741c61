//! Pieces that are gathered over a sink of which one call fails: the answers, and what is written.

use super::rows::expect;
use gathered_sink::GatheringSink;
use report_ports::{Given, MemorySink, Sink};
use std::alloc::{AllocError, Global};
use std::process::Abort;
use std::test::Fail;

const PIECES: &[&[u8]] = &[b"one\n", b"two\n", b"three\n", b"four\n"];

// The room, the call of the sink below that fails, whether each of the four pieces was taken and then the flush
// (`+`, or `-`), and how many of the pieces were written.
type Row = (usize, u64, &'static [u8], usize);

const ROWS: &[Row] = &[
    // Each piece at once.
    (0, 0, b"-----", 0),
    (0, 1, b"+----", 1),
    (0, 2, b"++---", 2),
    (0, 3, b"+++--", 3),
    (0, 4, b"+++++", 4),
    // The third is greater than the room.
    (5, 0, b"+----", 0),
    (5, 1, b"++---", 1),
    (5, 2, b"++---", 2),
    (5, 3, b"++++-", 3),
    (5, 4, b"+++++", 4),
    // Two together, and then one by one.
    (8, 0, b"++---", 0),
    (8, 1, b"+++--", 2),
    (8, 2, b"++++-", 3),
    (8, 3, b"+++++", 4),
    // Three together.
    (14, 0, b"+++--", 0),
    (14, 1, b"++++-", 3),
    (14, 2, b"+++++", 4),
    // All together.
    (19, 0, b"++++-", 0),
    (19, 1, b"+++++", 4),
    (65_536, 0, b"++++-", 0),
    (65_536, 1, b"+++++", 4),
];

#[test]
fn gathers_pieces_over_a_failing_sink(rt: HostRuntime) -> Result<(), Fail> {
    for (row, &(room, failing, answers, written)) in ROWS.iter().enumerate() {
        expect_row(&rt, rt.alloc(), row, room, failing, answers, written)?;
    }
    Ok(())
}

// Gives the pieces, flushes, and looks at what the sink below has taken.
fn expect_row(
    rt: &impl Abort,
    alloc: Global,
    row: usize,
    room: usize,
    failing: u64,
    answers: &[u8],
    written: usize,
) -> Result<(), AllocError> {
    let below = MemorySink::new(alloc, &[failing], 64)?;
    let mut sink = GatheringSink::new(alloc, below, room);
    let mut found = Vec::new(alloc);
    for piece in PIECES {
        let answer = sink.give(piece);
        found.push(sign_of(answer))?;
    }
    let answer = sink.flush();
    found.push(sign_of(answer))?;
    expect(rt, row, found.as_slice() == answers, true);
    let mut text = Vec::new(alloc);
    for piece in PIECES.iter().take(written) {
        text.extend_from_slice(piece)?;
    }
    expect(rt, row, sink.into_sink().bytes() == text.as_slice(), true);
    Ok(())
}

fn sign_of(given: Given) -> u8 {
    match given {
        Given::All => b'+',
        Given::Failed => b'-',
    }
}
