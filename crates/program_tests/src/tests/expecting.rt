//! A sink that asks for the output: with each byte that it takes, it has taken a prefix of it.

ghost use Rattle.std.specs.Prelude.{◌≡◌, ◌≤◌, [], map, length, take, Some, IfOk, IfSome, List, ℕ};
ghost use Rattle.command_words.specs.Words.{settings_of};
ghost use Rattle.program_modes.specs.Answers.{Answers};
ghost use Rattle.program_modes.specs.Laws.{Begins};

use super::helpers::{
    AMPLE_ROOM, MEETING, MEETING_REPORT, MEETING_STATES, MEETING_SUMS, PLAIN, RUN,
};
use gathered_sink::GatheringSink;
use hard_disks::{Status, prefixes_may_be_asked, top};
use region_core::OpenGate;
use report_ports::{Given, MemorySink, MemorySource, Sink};
use std::alloc::{AllocError, Global};
use std::io;
use std::process::Abort;
use std::sync::Wait;
use std::sync::atomic::{AtomicU64, Ordering};
use std::test::Fail;
use std::thread::Threads;
use std::time::{Clock, Duration};
use terminal_line::Timely;

// A sink that takes a text, and nothing else. That it is never given another byte is proved.
#[derive(Drop)]
struct Expecting {
    want: Vec<u8>,
    at: usize,
    ghost within: { at ≤ length want.items },
}

impl Expecting {
    fn new(alloc: Global, text: &[u8]) -> Result<Expecting, AllocError>
        ensures { IfOk result (λ sink. (sink.want.items ≡ text.now) × (sink.at ≡ 0)) }
    {
        Ok(Expecting {
            want: text.to_vec(alloc)?,
            at: 0,
        })
    }
}

impl Sink for Expecting {
    ghost Lasting = { List ℕ };

    ghost lasting = { λ e. e.want.items };

    ghost allows = { Begins };

    ghost taken = { λ e. Some (take e.at e.want.items) };

    ghost faults = { λ _. 0 };

    fn faults(&self) -> u64 {
        0
    }

    fn give(&mut self, piece: &[u8]) -> Given {
        if !self.want[self.at..].starts_with(piece) {
            unreachable!();
        }
        self.at += piece.len();
        Given::All
    }
}

// The words, and what they make of the meeting.
type Row = (&'static [&'static str], &'static str);

const ROWS: &[Row] = &[
    (PLAIN, MEETING_REPORT),
    (RUN, MEETING_REPORT),
    (&["--format", "states"], MEETING_STATES),
    (&["--format", "sums"], MEETING_SUMS),
    (&["--mode", "check"], MEETING),
];

#[test]
fn a_sink_may_ask_for_the_output(rt: HostRuntime) -> Result<(), Fail> {
    for &(words, want) in ROWS {
        expect_taken(&rt, rt.alloc(), words, MEETING.as_bytes(), want)?;
    }
    Ok(())
}

fn expect_taken(
    rt: &(impl Threads + Wait + Sync + Abort),
    alloc: Global,
    words: &[&str],
    scene: &[u8],
    want: &str,
) -> Result<(), AllocError> {
    let Some(output) = output_of(rt, alloc, words, scene)? else {
        panic!(rt; "{words:?} didn't end well");
    };
    let text = str::from_utf8(output.as_slice()).unwrap_or("no text");
    assert_eq!(rt; text, want, "{words:?}");
    let whole = (Status::Done, output.len());
    let bare = taken_bare(rt, alloc, words, scene, output.as_slice())?;
    assert_eq!(rt; bare, whole, "{words:?}, bare");
    let gathered = taken_gathered(rt, alloc, words, scene, output.as_slice())?;
    assert_eq!(rt; gathered, whole, "{words:?}, gathered");
    let timely = taken_timely(rt, alloc, words, scene, output.as_slice())?;
    assert_eq!(rt; timely, whole, "{words:?}, timely");
    Ok(())
}

// The output, if the call ends well.
fn output_of(
    rt: &(impl Threads + Wait + Sync),
    alloc: Global,
    words: &[&str],
    scene: &[u8],
) -> Result<Option<Vec<u8>>, AllocError>
    ensures { IfOk result (λ found. IfSome found (λ output.
        Answers (settings_of (map (λ w. w.now) words.now)) (Some scene.now) (Some []) (Some output.items) Status.Done)) }
{
    let mut source = MemorySource::new(alloc, scene, &[])?;
    let mut sink = MemorySink::new(alloc, &[], AMPLE_ROOM)?;
    match top(rt, alloc, words, &mut source, &mut sink, &OpenGate) {
        Status::Done => Ok(Some(sink.bytes().to_vec(alloc)?)),
        _ => Ok(None),
    }
}

// How a call ends whose sink asks for the output, and how many bytes that sink has taken then.
fn taken_bare(
    rt: &(impl Threads + Wait + Sync),
    alloc: Global,
    words: &[&str],
    scene: &[u8],
    output: &[u8],
) -> Result<(Status, usize), AllocError>
    requires { Answers (settings_of (map (λ w. w.now) words.now)) (Some scene.now) (Some []) (Some output.now) Status.Done }
{
    let mut source = MemorySource::new(alloc, scene, &[])?;
    let mut sink = Expecting::new(alloc, output)?;
    // So the sink may be lent.
    prefixes_may_be_asked();
    let status = top(rt, alloc, words, &mut source, &mut sink, &OpenGate);
    Ok((status, sink.at))
}

// How many bytes are gathered: two or three lines of the report.
const ROOM: usize = 30;

// The same under a sink that gathers.
fn taken_gathered(
    rt: &(impl Threads + Wait + Sync),
    alloc: Global,
    words: &[&str],
    scene: &[u8],
    output: &[u8],
) -> Result<(Status, usize), AllocError>
    requires { Answers (settings_of (map (λ w. w.now) words.now)) (Some scene.now) (Some []) (Some output.now) Status.Done }
{
    let mut source = MemorySource::new(alloc, scene, &[])?;
    let mut gathered = GatheringSink::new(alloc, Expecting::new(alloc, output)?, ROOM);
    prefixes_may_be_asked();
    let status = top(rt, alloc, words, &mut source, &mut gathered, &OpenGate);
    let _ = gathered.flush();
    Ok((status, gathered.into_sink().at))
}

// The same under one that holds nothing for long.
fn taken_timely(
    rt: &(impl Threads + Wait + Sync),
    alloc: Global,
    words: &[&str],
    scene: &[u8],
    output: &[u8],
) -> Result<(Status, usize), AllocError>
    requires { Answers (settings_of (map (λ w. w.now) words.now)) (Some scene.now) (Some []) (Some output.now) Status.Done }
{
    let mut source = MemorySource::new(alloc, scene, &[])?;
    let clock = QuickClock {
        micros: AtomicU64::new(0),
    };
    let gathered = GatheringSink::new(alloc, Expecting::new(alloc, output)?, AMPLE_ROOM);
    let mut timely = Timely::new(&clock, gathered);
    prefixes_may_be_asked();
    let status = top(rt, alloc, words, &mut source, &mut timely, &OpenGate);
    let _ = timely.gathered.flush();
    Ok((status, timely.gathered.into_sink().at))
}

// How many microseconds pass between two looks at the clock: no line is held while two others come.
const BETWEEN_LOOKS: u64 = 60_000;

// A clock that goes on whenever somebody looks at it.
#[derive(Drop)]
struct QuickClock {
    micros: AtomicU64,
}

impl Clock for QuickClock {
    fn monotonic(&self) -> io::Result<Duration> {
        let now = self.micros.fetch_add(BETWEEN_LOOKS, Ordering::SeqCst);
        Ok(Duration::from_micros(now))
    }

    fn since_1970(&self) -> io::Result<Duration> {
        self.monotonic()
    }

    fn sleep(&self, _duration: Duration) {}
}
