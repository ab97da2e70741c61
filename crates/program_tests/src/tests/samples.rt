//! Samples of runs, worked out by hand: the states of all disks, and sums over the collisions.

use super::helpers::{
    AMPLE_ROOM, MEETING, MEETING_STATES, MEETING_SUMS, expect, first_lines, output_between,
};
use hard_disks::Status;
use report_ports::{MemorySink, MemorySource};
use std::alloc::{AllocError, Global};
use std::process::Abort;
use std::sync::Wait;
use std::test::Fail;
use std::thread::Threads;

const SUMS: &[&str] = &["--format", "sums"];

const STATES: &[&str] = &["--format", "states"];

// Two disks that meet at tick 3, with a sample at every second tick.
const STATED: &str = "width = 40\n\
    height = 20\n\
    diameter = 4\n\
    speed_limit = 8\n\
    round_limit = 8\n\
    end = 5\n\
    every = 2\n\
    disks = [[10, 10, 1, 0], [20, 10, -1, 0]]\n";

const STATED_SUMS: &str = "inside 2 2 2 0 0\n\
    sides 2 0 0 0 0 0\n\
    inside 4 2 2 1 8\n\
    sides 4 0 0 0 0 0\n\
    done 5\n\
    walls 0\n\
    pairs 1\n\
    momentum 0 0\n\
    energy 2 2\n\
    inside 5 2 2 1 8\n\
    sides 5 0 0 0 0 0\n";

const STATED_STATES: &str = "state 2\n\
    disk 0 12 10 1 0\n\
    disk 1 18 10 -1 0\n\
    state 4\n\
    disk 0 12 10 -1 0\n\
    disk 1 18 10 1 0\n\
    done 5\n\
    walls 0\n\
    pairs 1\n\
    momentum 0 0\n\
    energy 2 2\n\
    disk 0 11 10 -1 0\n\
    disk 1 19 10 1 0\n";

// One disk turns at the left side and at the bottom, both times at (3, 3).
const CORNER: &str = "width = 40\n\
    height = 20\n\
    diameter = 4\n\
    speed_limit = 8\n\
    round_limit = 8\n\
    end = 3\n\
    disks = [[3, 3, -2, -2]]\n";

// Two disks whose paths cross between two ticks.
const PASSING: &str = "width = 40\n\
    height = 20\n\
    diameter = 4\n\
    speed_limit = 8\n\
    round_limit = 8\n\
    end = 1\n\
    disks = [[10, 10, 8, 0], [18, 13, -8, 0]]\n";

// Three disks in a line, of which the second is hit at tick 3, and would hit the third in round 1.
const CRADLE: &str = "width = 40\n\
    height = 20\n\
    diameter = 4\n\
    speed_limit = 8\n\
    round_limit = 1\n\
    end = 8\n\
    every = 2\n\
    disks = [[4, 10, 2, 0], [15, 10, 0, 0], [20, 10, 0, 0]]\n";

// A disk and a smaller one, which touch at tick 3; then the first hits the left side, and the second the right one.
const SIZES: &str = "width = 40\n\
    height = 20\n\
    diameter = 4\n\
    speed_limit = 8\n\
    round_limit = 8\n\
    end = 30\n\
    disks = [[10, 10, 1, 0], [19, 10, -1, 0, 2]]\n";

// The words, the scene, the status and the output.
type Row = (&'static [&'static str], &'static str, Status, &'static str);

const ROWS: &[Row] = &[
    (SUMS, STATED, Status::Done, STATED_SUMS),
    (
        &["--format", "sums", "--mode", "plain"],
        STATED,
        Status::Done,
        STATED_SUMS,
    ),
    (STATES, STATED, Status::Done, STATED_STATES),
    (
        &["--format", "states", "--mode", "plain"],
        STATED,
        Status::Done,
        STATED_STATES,
    ),
    (
        SUMS,
        CORNER,
        Status::Done,
        "done 3\nwalls 2\npairs 0\nmomentum 2 2\nenergy 8 8\ninside 3 1 8 0 0\nsides 3 2 4 0 4 0\n",
    ),
    // The disk is as near to the ends of both sides as it may be.
    (
        &["--format", "sums", "--margin", "3"],
        CORNER,
        Status::Done,
        "done 3\nwalls 2\npairs 0\nmomentum 2 2\nenergy 8 8\ninside 3 1 8 0 0\nsides 3 2 4 0 4 0\n",
    ),
    // It is too near to them, and away from the sides at the end.
    (
        &["--format", "sums", "--margin", "4"],
        CORNER,
        Status::Done,
        "done 3\nwalls 2\npairs 0\nmomentum 2 2\nenergy 8 8\ninside 3 1 8 0 0\nsides 3 0 0 0 0 0\n",
    ),
    (
        SUMS,
        PASSING,
        Status::Done,
        "done 1\nwalls 0\npairs 1\nmomentum 0 0\nenergy 128 122\ninside 1 2 122 1 127\nsides 1 0 0 0 0 0\n",
    ),
    // Without state blocks there is the end alone.
    (SUMS, MEETING, Status::Done, MEETING_SUMS),
    (STATES, MEETING, Status::Done, MEETING_STATES),
    // The part is a line at half the height, on which all happens.
    (
        &["--format", "sums", "--margin", "10"],
        MEETING,
        Status::Done,
        MEETING_SUMS,
    ),
    // It is empty.
    (
        &["--format", "sums", "--margin", "11"],
        MEETING,
        Status::Done,
        "done 5\nwalls 0\npairs 1\nmomentum 0 0\nenergy 2 2\ninside 5 0 0 0 0\nsides 5 0 0 0 0 0\n",
    ),
    (
        &["--format", "sums", "--margin", "1073741824"],
        CORNER,
        Status::Done,
        "done 3\nwalls 2\npairs 0\nmomentum 2 2\nenergy 8 8\ninside 3 0 0 0 0\nsides 3 0 0 0 0 0\n",
    ),
    // A run that ends at a limit has no sums at its end.
    (
        SUMS,
        CRADLE,
        Status::RoundLimit,
        "inside 2 3 4 0 0\nsides 2 0 0 0 0 0\nlimit rounds 3 1 pair 1 2\nwalls 0\npairs 1\n",
    ),
    (
        STATES,
        CRADLE,
        Status::RoundLimit,
        "state 2\ndisk 0 8 10 2 0\ndisk 1 15 10 0 0\ndisk 2 20 10 0 0\nlimit rounds 3 1 pair 1 2\nwalls 0\npairs 1\n",
    ),
    // At the end the smaller disk is outside the part.
    (
        &["--format", "sums", "--margin", "6"],
        SIZES,
        Status::Done,
        "done 30\nwalls 2\npairs 1\nmomentum 0 0\nenergy 2 2\ninside 30 1 1 1 6\nsides 30 2 2 2 0 0\n",
    ),
];

#[test]
fn samples_of_scenes(rt: HostRuntime) -> Result<(), Fail> {
    for row in ROWS {
        expect_samples(&rt, rt.alloc(), row)?;
    }
    Ok(())
}

fn expect_samples(
    rt: &(impl Threads + Wait + Sync + Abort),
    alloc: Global,
    &(words, text, status, want): &Row,
) -> Result<(), AllocError> {
    let found = output_without_give(rt, alloc, words, text, &[])?;
    expect(rt, &(words, text), &found, status, want);
    Ok(())
}

// What is written of a scene to a sink of which these calls fail, and the status.
fn output_without_give(
    rt: &(impl Threads + Wait + Sync),
    alloc: Global,
    words: &[&str],
    text: &str,
    failing: &[u64],
) -> Result<(MemorySink, Status), AllocError> {
    let source = MemorySource::new(alloc, text.as_bytes(), &[])?;
    let sink = MemorySink::new(alloc, failing, AMPLE_ROOM)?;
    Ok(output_between(rt, alloc, words, source, sink))
}

// The words, and the samples of two disks that meet.
const WHOLE: &[(&[&str], &str)] = &[
    (SUMS, STATED_SUMS),
    (&["--format", "sums", "--mode", "plain"], STATED_SUMS),
    (STATES, STATED_STATES),
];

#[test]
fn writes_the_lines_before_the_give_that_fails(rt: HostRuntime) -> Result<(), Fail> {
    for &(words, want) in WHOLE {
        expect_each_given(&rt, rt.alloc(), words, want)?;
    }
    Ok(())
}

// Each line is a piece, so the sink is called as often as there are lines.
fn expect_each_given(
    rt: &(impl Threads + Wait + Sync + Abort),
    alloc: Global,
    words: &[&str],
    want: &str,
) -> Result<(), AllocError> {
    let lines = want.lines().count();
    for call in 0..lines {
        expect_given(rt, alloc, words, call, Status::WriteFault, want)?;
    }
    expect_given(rt, alloc, words, lines, Status::Done, want)
}

// Stops a test if the call of whose sink this give fails has another status than this, or has not written the lines
// before it.
fn expect_given(
    rt: &(impl Threads + Wait + Sync + Abort),
    alloc: Global,
    words: &[&str],
    call: usize,
    status: Status,
    whole: &str,
) -> Result<(), AllocError> {
    let want = first_lines(alloc, whole, call)?;
    let found = output_without_give(rt, alloc, words, STATED, &[call as u64])?;
    expect(rt, &(words, "give", call), &found, status, want.as_str());
    Ok(())
}
