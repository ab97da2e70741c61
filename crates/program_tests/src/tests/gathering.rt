//! Output that is gathered: what is written if a call of the sink fails, and what is written at which time.

use super::helpers::{
    AMPLE_ROOM, BOTH_ENGINES, MEETING, MEETING_REPORT, PLAIN, StandingClock, expect, first_lines,
};
use gathered_sink::GatheringSink;
use hard_disks::{Status, run_streams, top_gathered};
use region_core::OpenGate;
use report_ports::{Given, MemorySink, MemorySource, Sink};
use std::alloc::{AllocError, Global};
use std::process::Abort;
use std::sync::Wait;
use std::sync::atomic::Ordering;
use std::test::Fail;
use std::thread::Threads;
use terminal_line::Timely;

// The room, the call of the sink that fails, the status, and how many lines of the report the sink has taken.
type Row = (usize, u64, Status, usize);

const ROWS: &[Row] = &[
    // Each line at once.
    (0, 0, Status::WriteFault, 0),
    (0, 1, Status::WriteFault, 1),
    (0, 6, Status::WriteFault, 6),
    (0, 7, Status::WriteFault, 7),
    (0, 8, Status::Done, 8),
    // The first line is greater than the room, and goes alone.
    (21, 0, Status::WriteFault, 0),
    (21, 1, Status::WriteFault, 1),
    (21, 2, Status::WriteFault, 3),
    (21, 3, Status::WriteFault, 5),
    (21, 4, Status::WriteFault, 6),
    (21, 5, Status::WriteFault, 7),
    (21, 6, Status::Done, 8),
    // 29 bytes in two lines, 29 in three, 29 in two, and the last line at the end.
    (30, 0, Status::WriteFault, 0),
    (30, 1, Status::WriteFault, 2),
    (30, 2, Status::WriteFault, 5),
    (30, 3, Status::WriteFault, 7),
    (30, 4, Status::Done, 8),
    // All but the last byte fits.
    (103, 0, Status::WriteFault, 0),
    (103, 1, Status::WriteFault, 7),
    (103, 2, Status::Done, 8),
    // All at the end.
    (104, 0, Status::WriteFault, 0),
    (104, 1, Status::Done, 8),
    (65_536, 0, Status::WriteFault, 0),
    (65_536, 1, Status::Done, 8),
];

#[test]
fn writes_the_pieces_before_the_give_that_fails(rt: HostRuntime) -> Result<(), Fail> {
    for words in BOTH_ENGINES {
        expect_rows(&rt, rt.alloc(), words)?;
    }
    Ok(())
}

fn expect_rows(
    rt: &(impl Threads + Wait + Sync + Abort),
    alloc: Global,
    words: &[&str],
) -> Result<(), AllocError> {
    for &(room, failing, status, lines) in ROWS {
        let want = first_lines(alloc, MEETING_REPORT, lines)?;
        let found = gathered_output(rt, alloc, words, &[], room, failing)?;
        let case = (words, "room", room, "failing", failing);
        expect(rt, &case, &found, status, want.as_str());
    }
    Ok(())
}

// What is written of the meeting through this room, if these calls of the source and this one of the sink fail, and the
// status. No time passes.
fn gathered_output(
    rt: &(impl Threads + Wait + Sync),
    alloc: Global,
    words: &[&str],
    takes: &[u64],
    room: usize,
    failing: u64,
) -> Result<(MemorySink, Status), AllocError> {
    let mut source = MemorySource::new(alloc, MEETING.as_bytes(), takes)?;
    let sink = MemorySink::new(alloc, &[failing], AMPLE_ROOM)?;
    let clock = StandingClock::new();
    let (status, sink) = top_gathered(rt, alloc, words, &mut source, sink, room, &OpenGate, &clock);
    Ok((sink, status))
}

// The words, the calls of the source that fail, the status if the first call of the sink fails, and the status and the
// output if none does.
type EndRow = (
    &'static [&'static str],
    &'static [u64],
    Status,
    Status,
    &'static str,
);

const ENDS: &[EndRow] = &[
    (
        &["extra"],
        &[],
        Status::WriteFault,
        Status::BadWords,
        "bad words\n",
    ),
    (PLAIN, &[0], Status::ReadFault, Status::ReadFault, ""),
    (PLAIN, &[1], Status::ReadFault, Status::ReadFault, ""),
    (
        &["--mode", "check"],
        &[],
        Status::WriteFault,
        Status::Done,
        MEETING,
    ),
];

#[test]
fn a_fault_at_the_end_is_told(rt: HostRuntime) -> Result<(), Fail> {
    for row in ENDS {
        expect_end(&rt, rt.alloc(), row)?;
    }
    Ok(())
}

fn expect_end(
    rt: &(impl Threads + Wait + Sync + Abort),
    alloc: Global,
    &(words, takes, failed, status, want): &EndRow,
) -> Result<(), AllocError> {
    let found = gathered_output(rt, alloc, words, takes, AMPLE_ROOM, 0)?;
    expect(rt, &(words, takes, "failing"), &found, failed, "");
    let found = gathered_output(rt, alloc, words, takes, AMPLE_ROOM, u64::MAX)?;
    expect(rt, &(words, takes), &found, status, want);
    Ok(())
}

// The greatest number of bytes that are held while time passes: five pieces.
const ROOM: usize = 25;

// When a piece of five bytes comes, in microseconds, and how many bytes the sink below has then.
type TimeRow = (u64, usize);

const TIMES: &[TimeRow] = &[
    (0, 0),
    (60_000, 0),
    (99_999, 0),
    (100_000, 20),
    (100_001, 20),
    (199_999, 20),
    // If no piece came, nothing was given either.
    (350_000, 35),
    (449_999, 35),
    (450_000, 45),
    // If the clock goes back, nothing is given until it has caught up.
    (1_000, 45),
    (549_999, 45),
    (550_000, 60),
    // The sixth of these doesn't fit beside the others.
    (550_001, 60),
    (550_002, 60),
    (550_003, 60),
    (550_004, 60),
    (550_005, 60),
    (550_006, 85),
    (649_999, 85),
    (650_000, 100),
    // A whole second later there is no less time between.
    (1_600_000, 105),
];

#[test]
fn a_reader_and_a_writer_in_memory_get_the_report(rt: HostRuntime) -> Result<(), Fail> {
    for words in BOTH_ENGINES {
        let output: Vec<u8> = Vec::new(rt.alloc());
        let (status, output) = run_streams(&rt, words, MEETING.as_bytes(), output, false);
        let text = str::from_utf8(output.as_slice()).unwrap_or("no text");
        assert_eq!(rt; (status, text), (Status::Done, MEETING_REPORT), "{words:?}");
    }
    Ok(())
}

#[test]
fn nothing_is_held_for_long(rt: HostRuntime) -> Result<(), Fail> {
    let wrong = first_wrong(rt.alloc())?;
    assert_eq!(rt; wrong, None);
    Ok(())
}

// The first row after which the sink below has another number of bytes.
fn first_wrong(alloc: Global) -> Result<Option<TimeRow>, AllocError> {
    for (last, &(now, want)) in TIMES.iter().enumerate() {
        if given_until(alloc, last)? != want {
            return Ok(Some((now, want)));
        }
    }
    Ok(None)
}

// How many bytes the sink below has after the piece of this number, or more than it can have if a call failed.
fn given_until(alloc: Global, last: usize) -> Result<usize, AllocError> {
    let clock = StandingClock::new();
    let below = MemorySink::new(alloc, &[], AMPLE_ROOM)?;
    let mut sink = Timely::new(&clock, GatheringSink::new(alloc, below, ROOM));
    for (number, &(now, _)) in TIMES.iter().enumerate() {
        clock.micros.store(now, Ordering::SeqCst);
        if number <= last && sink.give(b"five\n") == Given::Failed {
            return Ok(usize::MAX);
        }
    }
    Ok(sink.gathered.into_sink().bytes().len())
}
