//! Calls of the source and the sink that fail.

use super::helpers::{
    AMPLE_ROOM, BOTH_ENGINES, MEETING, MEETING_REPORT, PLAIN, RUN, expect, first_lines,
    output_between,
};
use hard_disks::Status;
use report_ports::{MemorySink, MemorySource};
use std::alloc::{AllocError, Global};
use std::process::Abort;
use std::sync::Wait;
use std::test::Fail;
use std::thread::Threads;

const AUDIT: &[&str] = &["--mode", "audit", "--regions", "4"];

// The meeting with its report, for an audit.
const AUDITED: &str = "width = 40\n\
    height = 20\n\
    diameter = 4\n\
    speed_limit = 8\n\
    round_limit = 8\n\
    end = 5\n\
    disks = [\n  \
    [10, 10, 1, 0],\n  \
    [20, 10, -1, 0],\n\
    ]\n\
    ===\n\
    3 0 pair 0 1 -1 0 1 0\n\
    done 5\n\
    walls 0\n\
    pairs 1\n\
    momentum 0 0\n\
    energy 2 2\n\
    disk 0 11 10 -1 0\n\
    disk 1 19 10 1 0\n";

// The words, the input, and the output if no call fails.
type TakeRow = (&'static [&'static str], &'static str, &'static str);

const TAKES: &[TakeRow] = &[
    (PLAIN, MEETING, MEETING_REPORT),
    (RUN, MEETING, MEETING_REPORT),
    (AUDIT, AUDITED, "audit ok 8\n"),
];

#[test]
fn writes_nothing_where_a_take_fails(rt: HostRuntime) -> Result<(), Fail> {
    for row in TAKES {
        expect_all_taken(&rt, rt.alloc(), row)?;
    }
    Ok(())
}

// A source in steps of one byte gives the input call by call, and says in one call more that nothing is left.
fn expect_all_taken(
    rt: &(impl Threads + Wait + Sync + Abort),
    alloc: Global,
    &(words, text, want): &TakeRow,
) -> Result<(), AllocError> {
    let calls = text.len() as u64;
    for call in 0..=calls {
        expect_taken(rt, alloc, words, text, call, Status::ReadFault, "")?;
    }
    expect_taken(rt, alloc, words, text, calls + 1, Status::Done, want)
}

// Stops a test if the call with an input, of which this take fails, has another result.
fn expect_taken(
    rt: &(impl Threads + Wait + Sync + Abort),
    alloc: Global,
    words: &[&str],
    text: &str,
    call: u64,
    status: Status,
    want: &str,
) -> Result<(), AllocError> {
    let found = output_without_take(rt, alloc, words, text, call)?;
    expect(rt, &(words, "take", call), &found, status, want);
    Ok(())
}

// What is written of an input, of which this take fails, and the status.
fn output_without_take(
    rt: &(impl Threads + Wait + Sync),
    alloc: Global,
    words: &[&str],
    text: &str,
    call: u64,
) -> Result<(MemorySink, Status), AllocError> {
    let source = MemorySource::in_steps(alloc, text.as_bytes(), &[call], 1)?;
    let sink = MemorySink::new(alloc, &[], AMPLE_ROOM)?;
    Ok(output_between(rt, alloc, words, source, sink))
}

// The calls of the sink that fail, its room, the status, and how many lines it has taken.
type GiveRow = (&'static [u64], usize, Status, usize);

const GIVES: &[GiveRow] = &[
    (&[0], AMPLE_ROOM, Status::WriteFault, 0),
    (&[1], AMPLE_ROOM, Status::WriteFault, 1),
    (&[2], AMPLE_ROOM, Status::WriteFault, 2),
    (&[3], AMPLE_ROOM, Status::WriteFault, 3),
    (&[4], AMPLE_ROOM, Status::WriteFault, 4),
    (&[5], AMPLE_ROOM, Status::WriteFault, 5),
    (&[6], AMPLE_ROOM, Status::WriteFault, 6),
    (&[7], AMPLE_ROOM, Status::WriteFault, 7),
    (&[8], AMPLE_ROOM, Status::Done, 8),
    (&[], 21, Status::WriteFault, 0),
    (&[], 22, Status::WriteFault, 1),
    (&[], 103, Status::WriteFault, 7),
    (&[], 104, Status::Done, 8),
];

#[test]
fn writes_the_lines_before_the_give_that_fails(rt: HostRuntime) -> Result<(), Fail> {
    for words in BOTH_ENGINES {
        expect_all_given(&rt, rt.alloc(), words)?;
    }
    Ok(())
}

fn expect_all_given(
    rt: &(impl Threads + Wait + Sync + Abort),
    alloc: Global,
    words: &[&str],
) -> Result<(), AllocError> {
    for row in GIVES {
        expect_given(rt, alloc, words, row)?;
    }
    Ok(())
}

fn expect_given(
    rt: &(impl Threads + Wait + Sync + Abort),
    alloc: Global,
    words: &[&str],
    row: &GiveRow,
) -> Result<(), AllocError> {
    let want = first_lines(alloc, MEETING_REPORT, row.3)?;
    expect_text(rt, alloc, words, row, want.as_str())
}

fn expect_text(
    rt: &(impl Threads + Wait + Sync + Abort),
    alloc: Global,
    words: &[&str],
    &(failing, room, status, _): &GiveRow,
    want: &str,
) -> Result<(), AllocError> {
    let found = output_with(rt, alloc, words, MEETING, &[], failing, room)?;
    let case = (words, "gives", failing, "room", room);
    expect(rt, &case, &found, status, want);
    Ok(())
}

// What is written of a text to a sink with this room, if these calls of the source and of the sink fail, and the
// status.
fn output_with(
    rt: &(impl Threads + Wait + Sync),
    alloc: Global,
    words: &[&str],
    text: &str,
    takes: &[u64],
    gives: &[u64],
    room: usize,
) -> Result<(MemorySink, Status), AllocError> {
    let source = MemorySource::new(alloc, text.as_bytes(), takes)?;
    let sink = MemorySink::new(alloc, gives, room)?;
    Ok(output_between(rt, alloc, words, source, sink))
}

// The same scene with a diameter that is out of its range.
const ODD_DIAMETER: &str = "width = 40\n\
    height = 20\n\
    diameter = 5\n\
    speed_limit = 8\n\
    round_limit = 8\n\
    end = 5\n\
    disks = [\n  \
    [10, 10, 1, 0],\n  \
    [20, 10, -1, 0],\n\
    ]\n";

// The words, the text, the calls of the source and of the sink that fail, and the status.
type UntoldRow = (
    &'static [&'static str],
    &'static str,
    &'static [u64],
    &'static [u64],
    Status,
);

const UNTOLD: &[UntoldRow] = &[
    (&["extra"], MEETING, &[], &[0], Status::WriteFault),
    (&["extra"], MEETING, &[0], &[0], Status::WriteFault),
    (PLAIN, ODD_DIAMETER, &[], &[0], Status::WriteFault),
    (PLAIN, ODD_DIAMETER, &[0], &[0], Status::ReadFault),
    (PLAIN, MEETING, &[0], &[], Status::ReadFault),
    (PLAIN, MEETING, &[1], &[], Status::ReadFault),
    (RUN, ODD_DIAMETER, &[], &[0], Status::WriteFault),
    (RUN, MEETING, &[0], &[], Status::ReadFault),
];

#[test]
fn writes_no_line_where_the_first_call_fails(rt: HostRuntime) -> Result<(), Fail> {
    for row in UNTOLD {
        expect_untold(&rt, rt.alloc(), row)?;
    }
    Ok(())
}

fn expect_untold(
    rt: &(impl Threads + Wait + Sync + Abort),
    alloc: Global,
    &(words, text, takes, gives, status): &UntoldRow,
) -> Result<(), AllocError> {
    let found = output_with(rt, alloc, words, text, takes, gives, AMPLE_ROOM)?;
    let case = (words, "takes", takes, "gives", gives, text);
    expect(rt, &case, &found, status, "");
    Ok(())
}
