//! The line on a terminal that says how far a run is.
//!
//! The cursor waits on the row below it, so that another program that writes there next, as a shell after an interrupt,
//! begins a row of its own. The terminal cuts the line at its width. Nothing is shown while the process is in the
//! background.
//!
//! Neither the thread that shows the line nor the one that ends it waits for the other without end: both look again and
//! again after short sleeps, and each look is counted. The thread that shows the line may have to wait for a step of
//! the board's cell (see [`Board::look`]).

ghost use Rattle.std.specs.Prelude.{◌≡◌};

use crate::forecast::Forecast;
use crate::foreground::Terminal;
use crate::moments::micros;
use live_progress::{Board, Glass, Progress};
use report_ports::{Given, Sink};
use std::fmt;
use std::fmt::{Display, Formatter, Write};
use std::sync::atomic::{AtomicBool, Ordering};
use std::sync::{Mutex, Wait};
use std::time::{Clock, Duration};

// How many milliseconds a run goes on before the line is shown, and how many pass before it is rewritten.
const PATIENCE: u64 = 1_000;

const PAUSE: u64 = 250;

// How many milliseconds the thread that shows the line sleeps between two looks whether it is ended.
const MOMENT: u64 = 5;

// How many pauses there are at most: thousands of years.
const PAUSES: u64 = 1 << 40;

// For how many milliseconds the end of a line waits for the terminal to take a form of it that is being written.
const HELD_UP: u64 = 5_000;

// If no new form was shown for this many microseconds, the process was stopped, and another program may have written.
const LOST: u64 = 5_000_000;

// From how many seconds on the line counts in minutes, and from how many on in hours.
const MINUTES: u64 = 120;

const HOURS: u64 = 7_200;

// Control sequences: to the row above; to its beginning, and clear it; cut lines that are too long; wrap them again.
const BACK: &str = "\x1b[A";

const CLEAR: &str = "\r\x1b[K";

const CUT: &str = "\x1b[?7l";

const WRAP: &str = "\x1b[?7h";

/// A line on standard error, which one thread rewrites until another ends it.
#[derive(Drop)]
pub struct ProgressLine {
    stage: Mutex<LineState>,
    is_over: AtomicBool,
}

// Whether the line is on the row above the cursor.
#[derive(Clone, Copy, Debug, PartialEq, Eq)]
enum LineState {
    Hidden,
    Shown,
    Ended,
}

impl ProgressLine {
    /// A line that isn't shown yet.
    pub fn new() -> ProgressLine {
        ProgressLine {
            stage: Mutex::new(LineState::Hidden),
            is_over: AtomicBool::new(false),
        }
    }

    /// Shows what the board shows, some times a second, until the line is ended. The line stays hidden in the first
    /// second, and as long as no scene was read.
    pub fn show<R: AllocGlobal + Eprint + Wait + Clock, T: Terminal>(
        &self,
        rt: &R,
        terminal: &T,
        board: &Board,
        mut glass: Glass,
    )
        requires { glass.board ≡ board.now }
    {
        let mut pause = PATIENCE;
        let mut last = micros(rt);
        let mut forecast = Forecast::new(last);
        for _ in 0..PAUSES {
            if !self.pause(rt, pause) {
                break;
            }
            let now = micros(rt);
            let shown = board.look(rt, &mut glass);
            let sight = ShownProgress {
                shown,
                end: board.end(),
                seconds_left: forecast.seconds_left(now, shown.tick, board.end()),
            };
            let is_ours = terminal.is_ours();
            let is_lost = !is_ours || now.saturating_sub(last) > LOST;
            self.rewrite(rt, &sight, is_ours, is_lost);
            last = now;
            pause = PAUSE;
        }
    }

    // Sleeps for so many milliseconds. False if the line is ended meanwhile.
    fn pause<R: Clock>(&self, rt: &R, millis: u64) -> bool {
        for _ in 0..millis / MOMENT {
            if self.is_over.load(Ordering::SeqCst) {
                return false;
            }
            rt.sleep(Duration::from_millis(MOMENT));
        }
        !self.is_over.load(Ordering::SeqCst)
    }

    // Shows this, if there is anything to show, the terminal is ours and the line isn't ended. `is_lost` says that the
    // row above the cursor isn't the line any more.
    fn rewrite<R: AllocGlobal + Eprint>(
        &self,
        rt: &R,
        sight: &ShownProgress,
        is_ours: bool,
        is_lost: bool,
    ) {
        // Only the thread that ends the line may have the lock.
        let Some(mut stage) = self.stage.try_lock() else {
            return;
        };
        if *stage == LineState::Ended {
            return;
        }
        if is_lost {
            *stage = LineState::Hidden;
        }
        if is_ours && sight.is_any() {
            let back = if *stage == LineState::Shown { BACK } else { "" };
            // A form that can't be shown is left out.
            if let Ok(text) = format!(in rt.alloc(); "{back}{CLEAR}{CUT}{sight}{WRAP}\n") {
                let _ = eprint!(rt; "{text}");
                *stage = LineState::Shown;
            }
        }
    }

    /// Clears the line, which isn't shown from now on. If the terminal doesn't take a form of it for five seconds, the
    /// line is left there.
    pub fn end<R: Eprint + Clock>(&self, rt: &R) {
        self.is_over.store(true, Ordering::SeqCst);
        for _ in 0..HELD_UP {
            if self.clear(rt) {
                break;
            }
            rt.sleep(Duration::from_millis(1));
        }
    }

    // Clears the line, if it isn't just being written. False if it is.
    fn clear<R: Eprint>(&self, rt: &R) -> bool {
        let Some(mut stage) = self.stage.try_lock() else {
            return false;
        };
        if *stage == LineState::Shown {
            let _ = eprint!(rt; "{BACK}{CLEAR}");
        }
        *stage = LineState::Ended;
        true
    }
}

// What the line shows of a run.
#[derive(Drop)]
struct ShownProgress {
    shown: Progress,
    // The tick at which it ends; 0 if that isn't known.
    end: u64,
    seconds_left: Option<u64>,
}

impl ShownProgress {
    // Whether there is anything to see.
    fn is_any(&self) -> bool {
        self.end > 0 || self.shown.events > 0
    }
}

impl Display for ShownProgress {
    fn fmt<W: Write>(&self, f: &mut Formatter<W>) -> fmt::Result {
        let Progress { events, tick } = self.shown;
        let end = self.end;
        write!(f, "tick {tick}")?;
        if let Some(percent) = tick.saturating_mul(100).checked_div(end) {
            write!(f, " of {end} ({percent} %)")?;
        }
        write!(f, ", {events} collisions")?;
        match self.seconds_left {
            Some(seconds) => {
                let (count, unit) = in_units(seconds);
                write!(f, ", {count} {unit} to go")
            }
            None => Ok(()),
        }
    }
}

// A number of seconds in the unit in which it is shown.
fn in_units(seconds: u64) -> (u64, &'static str) {
    if seconds < MINUTES {
        (seconds, "s")
    } else if seconds < HOURS {
        (seconds / 60, "min")
    } else {
        (seconds / 3_600, "h")
    }
}

/// A sink that may write to the terminal of the line: there it ends the line before its first piece.
#[derive(Drop)]
pub struct BesideLine<'l, R: Eprint + Clock, K: Sink> {
    /// The runtime.
    pub rt: &'l R,
    /// The line.
    pub line: &'l ProgressLine,
    /// Whether the sink writes to the terminal of the line.
    pub is_shared: bool,
    /// The sink that takes the pieces.
    pub sink: K,
}

impl<R: Eprint + Clock, K: Sink> Sink for BesideLine<'_, R, K> {
    ghost Lasting = { K.Lasting };

    ghost lasting = { λ b. K.lasting b.sink };

    ghost allows = { K.allows };

    ghost taken = { λ b. K.taken b.sink };

    ghost faults = { λ b. K.faults b.sink };

    fn faults(&self) -> u64 {
        self.sink.faults()
    }

    fn give(&mut self, piece: &[u8]) -> Given {
        if self.is_shared {
            self.line.end(self.rt);
            self.is_shared = false;
        }
        self.sink.give(piece)
    }
}
