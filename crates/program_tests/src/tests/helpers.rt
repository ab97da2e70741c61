//! Words, scenes and calls that several tests share.

use hard_disks::{Status, Terminals, top};
use region_core::{Gate, OpenGate};
use report_ports::{MemorySink, MemorySource};
use std::alloc::{AllocError, Global};
use std::fmt::Debug;
use std::io;
use std::process::Abort;
use std::sync::Wait;
use std::sync::atomic::{AtomicU64, Ordering};
use std::thread::Threads;
use std::time::{Clock, Duration};
use terminal_line::Terminal;
use test_scenes::{FOUR_IN_A_ROW, LONG, scene};

pub const RUN: &[&str] = &["--mode", "run"];

pub const PLAIN: &[&str] = &["--mode", "plain"];

/// Words with which a scene is run by each engine.
pub const BOTH_ENGINES: &[&[&str]] = &[PLAIN, RUN];

/// The canonical text of two disks that meet at tick 3.
pub const MEETING: &str = "width = 40\n\
    height = 20\n\
    diameter = 4\n\
    speed_limit = 8\n\
    round_limit = 8\n\
    end = 5\n\
    disks = [\n  \
    [10, 10, 1, 0],\n  \
    [20, 10, -1, 0],\n\
    ]\n";

/// Its report.
pub const MEETING_REPORT: &str = "3 0 pair 0 1 -1 0 1 0\n\
    done 5\n\
    walls 0\n\
    pairs 1\n\
    momentum 0 0\n\
    energy 2 2\n\
    disk 0 11 10 -1 0\n\
    disk 1 19 10 1 0\n";

/// Its states: the end alone, since it asks for none before.
pub const MEETING_STATES: &str = "done 5\n\
    walls 0\n\
    pairs 1\n\
    momentum 0 0\n\
    energy 2 2\n\
    disk 0 11 10 -1 0\n\
    disk 1 19 10 1 0\n";

/// The sums over its collision: r·J of (−4, 0) and (−2, 0).
pub const MEETING_SUMS: &str = "done 5\n\
    walls 0\n\
    pairs 1\n\
    momentum 0 0\n\
    energy 2 2\n\
    inside 5 2 2 1 8\n\
    sides 5 0 0 0 0 0\n";

/// What four disks in a row do up to tick 40.
pub const FOUR_IN_A_ROW_REPORT: &str = "4 0 pair 0 1 0 0 8 0\n\
    18 0 pair 1 2 0 0 8 0\n\
    30 0 pair 2 3 0 0 8 0\n\
    37 0 wall 3 1 -8 0\n\
    done 40\n\
    walls 1\n\
    pairs 3\n\
    momentum -8 0\n\
    energy 64 64\n\
    disk 0 112 10 0 0\n\
    disk 1 232 10 0 0\n\
    disk 2 336 10 0 0\n\
    disk 3 372 10 -8 0\n";

/// More bytes than each report of a test has.
pub const AMPLE_ROOM: usize = 65_536;

// How many microseconds a sleep takes at least, as that of a system does.
const LEAST_SLEEP: u64 = 50;

/// A clock that stands still except while somebody sleeps.
#[derive(Drop)]
pub struct StandingClock {
    /// The time that it shows.
    pub micros: AtomicU64,
    // How many microseconds a sleep takes at least.
    least: u64,
}

impl StandingClock {
    /// A clock that shows 0.
    pub fn new() -> StandingClock {
        StandingClock {
            micros: AtomicU64::new(0),
            least: LEAST_SLEEP,
        }
    }

    /// A clock that shows 0, and by which each sleep is as long as it is to be.
    pub fn exact() -> StandingClock {
        StandingClock {
            micros: AtomicU64::new(0),
            least: 0,
        }
    }
}

impl Clock for StandingClock {
    fn monotonic(&self) -> io::Result<Duration> {
        Ok(Duration::from_micros(self.micros.load(Ordering::SeqCst)))
    }

    fn since_1970(&self) -> io::Result<Duration> {
        self.monotonic()
    }

    fn sleep(&self, duration: Duration) {
        let micros = (duration.as_micros() % (1 << 62)) as u64;
        self.micros
            .fetch_add(micros.max(self.least), Ordering::SeqCst);
    }
}

/// Standard error is a terminal, and standard output is none. No line is shown there before a second has passed.
pub const BESIDE_A_LINE: Terminals = Terminals {
    output: false,
    errors: true,
};

/// A terminal to which the process may always write.
#[derive(Drop)]
pub struct OwnTerminal;

impl Terminal for OwnTerminal {
    fn is_ours(&self) -> bool {
        true
    }
}

/// A source that gives the scene of four disks in a row.
pub fn row_source(alloc: Global) -> Result<MemorySource, AllocError> {
    let text = scene(alloc, LONG, 8, 40, FOUR_IN_A_ROW)?;
    MemorySource::new(alloc, text.as_bytes(), &[])
}

/// What the top call writes to a sink, and its status.
pub fn output_between(
    rt: &(impl Threads + Wait + Sync),
    alloc: Global,
    words: &[&str],
    source: MemorySource,
    sink: MemorySink,
) -> (MemorySink, Status) {
    output_through(rt, alloc, words, source, sink, &OpenGate)
}

/// The same through a gate.
pub fn output_through<G: Gate>(
    rt: &(impl Threads + Wait + Sync),
    alloc: Global,
    words: &[&str],
    mut source: MemorySource,
    mut sink: MemorySink,
    gate: &G,
) -> (MemorySink, Status) {
    let status = top(rt, alloc, words, &mut source, &mut sink, gate);
    (sink, status)
}

/// The first lines of a text.
pub fn first_lines(alloc: Global, text: &str, count: usize) -> Result<String, AllocError> {
    let mut lines = String::new(alloc);
    for line in text.lines().take(count) {
        lines.push_str(line)?;
        lines.push_str("\n")?;
    }
    Ok(lines)
}

// The text that a call wrote.
fn written(found: &(MemorySink, Status)) -> &str {
    str::from_utf8(found.0.bytes()).unwrap_or("no text")
}

/// Stops a test if a call ended with another status than this, or wrote another text.
pub fn expect(
    rt: &impl Abort,
    case: &impl Debug,
    found: &(MemorySink, Status),
    status: Status,
    want: &str,
) {
    assert_eq!(rt; (found.1, written(found)), (status, want), "{case:?}");
}
