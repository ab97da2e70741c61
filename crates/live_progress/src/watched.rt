//! A listener that publishes what it is told.

ghost use Rattle.std.specs.Prelude.{◌≡◌, Some, is_some};
ghost use Rattle.live_progress.specs.Watching.{SoFar, next_of, with_published, IsTorn, IsAwaitedWithin};

use crate::{Board, Pen, Progress};
use event_rules::{Change, Deaf, Listener};
use std::sync::Wait;

/// A listener that publishes each event and then tells it on.
///
/// Publishing needs a runtime, and telling a listener doesn't pass one: so the runtime is kept here, and telling this
/// listener may wait, as [`Board::publish`] may. Its meaning consists of what the pen has published, the loan of the
/// pen, its board, and the meaning of the listener within, if that tells one.
#[derive(Drop)]
pub struct Watched<'p, R: Wait, L: Listener> {
    /// The runtime.
    pub rt: &'p R,
    /// The board that shows each event.
    pub board: &'p Board,
    /// The pen of the board.
    pub pen: &'p mut Pen,
    /// The listener that is told of each event after it was published.
    pub inner: L,
    /// The pen is of the board.
    pub ghost of_board: { pen.now.board ≡ board.now },
    /// Whether the listener within tells its meaning depends only on its type.
    pub ghost alike: { (one other : _) → is_some (L.meaning one) ≡ is_some (L.meaning other) },
}

impl<'p, R: Wait, L: Listener> Listener for Watched<'p, R, L> {
    ghost Meaning = { SoFar L.Meaning };

    ghost after = { with_published L.after };

    ghost torn = { IsTorn L.torn };

    ghost awaits = { IsAwaitedWithin L.awaits };

    ghost meaning = { λ w. Some
        (record { loan = w.pen.ghost_name; board = w.pen.now.board; list = w.pen.now.list; inner = L.meaning w.inner }) };

    ghost faults = { λ w. L.faults w.inner };

    /// The count of the listener within.
    fn faults(&self) -> u64 {
        self.inner.faults()
    }

    /// Publishes one more event, at the change's tick, and then tells the listener within.
    #[inline(always)]
    fn event(&mut self, change: &Change) -> Result<(), Deaf> {
        let next = next(self.pen.last(), change);
        self.board.publish(self.rt, self.pen, next);
        self.inner.event(change)
    }
}

// One more event, of this change.
fn next(last: Progress, change: &Change) -> Progress
    ensures { result ≡ next_of last change.now }
{
    Progress {
        events: last.events.saturating_add(1),
        tick: last.tick.max(change.stamp.tick),
    }
}
