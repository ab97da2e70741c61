//! What the line shows, on a screen in memory, and by a clock that stands still except while somebody sleeps.

ghost use Rattle.std.specs.Prelude.{◌≡◌, []};

use super::helpers::StandingClock;
use live_progress::{Board, Pen, Progress};
use std::alloc::{AllocError, Global};
use std::fmt::Display;
use std::io;
use std::process::Abort;
use std::sync::atomic::Ordering;
use std::sync::{Mutex, Wait};
use std::test::Fail;
use std::time::{Clock, Duration};
use terminal_line::{ProgressLine, Terminal};

// The end of a run if that is known, else 0; what was published of it; whether the terminal is ours; for how many
// milliseconds the run goes on; and the form of the line that is shown last, if there is one.
type Row = (u64, Progress, bool, u64, &'static str);

const AT_250: Progress = Progress {
    events: 7,
    tick: 250,
};

const AT_4: Progress = Progress {
    events: 90,
    tick: 4,
};

const AT_BEGIN: Progress = Progress { events: 0, tick: 0 };

const ROWS: &[Row] = &[
    // Too short for a line; just long enough.
    (1_000, AT_250, true, 0, ""),
    (1_000, AT_250, true, 400, ""),
    (1_000, AT_250, true, 999, ""),
    (
        1_000,
        AT_250,
        true,
        1_100,
        "tick 250 of 1000 (25 %), 7 collisions, 3 s to go",
    ),
    // The end isn't known, and nothing has happened.
    (0, AT_BEGIN, true, 1_100, ""),
    // In the background.
    (1_000, AT_250, false, 1_100, ""),
    // Before the first event.
    (
        1_000,
        AT_BEGIN,
        true,
        1_100,
        "tick 0 of 1000 (0 %), 0 collisions",
    ),
    // Seconds, minutes and hours.
    (
        483,
        AT_4,
        true,
        1_100,
        "tick 4 of 483 (0 %), 90 collisions, 119 s to go",
    ),
    (
        484,
        AT_4,
        true,
        1_100,
        "tick 4 of 484 (0 %), 90 collisions, 2 min to go",
    ),
    (
        28_803,
        AT_4,
        true,
        1_100,
        "tick 4 of 28803 (0 %), 90 collisions, 119 min to go",
    ),
    (
        28_804,
        AT_4,
        true,
        1_100,
        "tick 4 of 28804 (0 %), 90 collisions, 2 h to go",
    ),
    (
        43_204,
        AT_4,
        true,
        1_100,
        "tick 4 of 43204 (0 %), 90 collisions, 3 h to go",
    ),
    // At the end.
    (
        250,
        AT_250,
        true,
        1_100,
        "tick 250 of 250 (100 %), 7 collisions, 0 s to go",
    ),
    // After nearly a minute, and after a minute in which it came no further.
    (
        1_000,
        AT_250,
        true,
        59_900,
        "tick 250 of 1000 (25 %), 7 collisions, 2 min to go",
    ),
    (
        1_000,
        AT_250,
        true,
        61_000,
        "tick 250 of 1000 (25 %), 7 collisions",
    ),
];

// How many microseconds later than the run the line is over at most.
const SOON: u64 = 100_000;

// What was written to a terminal, and a clock.
#[derive(Drop)]
struct Screen {
    alloc: Global,
    clock: StandingClock,
    text: Mutex<String>,
}

impl Screen {
    fn new(alloc: Global) -> Screen {
        Screen {
            alloc,
            clock: StandingClock::exact(),
            text: Mutex::new(String::new(alloc)),
        }
    }

    fn micros(&self) -> u64 {
        self.clock.micros.load(Ordering::SeqCst)
    }
}

impl Clock for Screen {
    fn monotonic(&self) -> io::Result<Duration> {
        self.clock.monotonic()
    }

    fn since_1970(&self) -> io::Result<Duration> {
        self.clock.since_1970()
    }

    fn sleep(&self, duration: Duration) {
        self.clock.sleep(duration);
    }
}

impl Eprint for Screen {
    fn eprint<D: Display + Drop>(&self, value: D) -> io::Result<()> {
        let piece = format!(in self.alloc; "{value}")?;
        if let Some(mut text) = self.text.try_lock() {
            text.push_str(&piece)?;
        }
        Ok(())
    }

    fn eprintln<D: Display + Drop>(&self, value: D) -> io::Result<()> {
        self.eprint(value)
    }
}

// The runtime of the thread that shows a line. The run is over at a time of its own, while that thread sleeps.
#[derive(Drop)]
struct Showing<'s, R> {
    rt: &'s R,
    screen: &'s Screen,
    line: &'s ProgressLine,
    over: u64,
}

impl<R: Wait> Wait for Showing<'_, R> {}

impl<R> Alloc for Showing<'_, R> {
    type A = Global;

    fn alloc(&self) -> Global {
        self.screen.alloc
    }
}

impl<R> Eprint for Showing<'_, R> {
    fn eprint<D: Display + Drop>(&self, value: D) -> io::Result<()> {
        self.screen.eprint(value)
    }

    fn eprintln<D: Display + Drop>(&self, value: D) -> io::Result<()> {
        self.screen.eprintln(value)
    }
}

impl<R> Clock for Showing<'_, R> {
    fn monotonic(&self) -> io::Result<Duration> {
        self.screen.monotonic()
    }

    fn since_1970(&self) -> io::Result<Duration> {
        self.screen.since_1970()
    }

    fn sleep(&self, duration: Duration) {
        self.screen.sleep(duration);
        if self.screen.micros() >= self.over {
            self.line.end(self.screen);
        }
    }
}

// A terminal that is ours or isn't.
#[derive(Drop)]
struct Place {
    is_ours: bool,
}

impl Terminal for Place {
    fn is_ours(&self) -> bool {
        self.is_ours
    }
}

#[test]
fn the_line_says_how_far_a_run_is_until_it_is_over(rt: HostRuntime) -> Result<(), Fail> {
    for row in ROWS {
        expect_shown(&rt, rt.alloc(), row)?;
    }
    Ok(())
}

fn expect_shown(rt: &(impl Wait + Abort), alloc: Global, row: &Row) -> Result<(), AllocError> {
    let &(_, _, _, millis, form) = row;
    let (text, over) = shown(rt, alloc, row)?;
    let late = over.saturating_sub(millis.saturating_mul(1_000));
    let want = last_written(alloc, form)?;
    assert!(rt;
        is_right(&text, &want) && late <= SOON,
        "{row:?}: {text:?}, and {late} microseconds late"
    );
    Ok(())
}

// What is written for the form that is shown last, and to clear it.
fn last_written(alloc: Global, form: &str) -> Result<String, AllocError> {
    if form.is_empty() {
        return Ok(String::new(alloc));
    }
    format!(in alloc; "\r\x1b[K\x1b[?7l{form}\x1b[?7h\n\x1b[A\r\x1b[K")
}

// Whether this is the last that was written, and the row above was left alone before anything was.
fn is_right(text: &str, last: &str) -> bool {
    if last.is_empty() {
        text.is_empty()
    } else {
        text.ends_with(last) && !text.starts_with("\x1b[A")
    }
}

// What is written beside a run, and when the line is over.
fn shown<R: Wait>(rt: &R, alloc: Global, row: &Row) -> Result<(String, u64), AllocError> {
    let &(end, progress, is_ours, millis, _) = row;
    let (board, mut pen) = Board::open(alloc)?;
    board.announce(end);
    publish(rt, &board, &mut pen, progress);
    let glass = board.glass(rt, &mut pen);
    let screen = Screen::new(alloc);
    let line = ProgressLine::new();
    let showing = Showing {
        rt,
        screen: &screen,
        line: &line,
        over: millis.saturating_mul(1_000),
    };
    line.show(&showing, &Place { is_ours }, &board, glass);
    let over = screen.micros();
    Ok((screen.text.into_inner(), over))
}

fn publish<R: Wait>(rt: &R, board: &Board, pen: &mut Pen, progress: Progress)
    requires board { pen.old.board ≡ board.now }
    requires unwritten { pen.old.list ≡ [] }
    ensures { pen.new.board ≡ pen.old.board }
{
    board.publish(rt, pen, progress);
}
