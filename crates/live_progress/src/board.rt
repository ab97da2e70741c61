//! The board, its pen, and the glasses that look at it.
//!
//! The pair that is shown stands in a cell of two words. Two steps of the cell can meet, and one of them waits then: so
//! each is made with a runtime that may wait. Nobody has the cell for long: the pen has it while it reads and writes the
//! two words. A glass reads them without having it; if the pen came between, it has the cell while it reads them again.

ghost use Rattle.std.specs.Prelude.{◌≡◌, [], ◌∷◌, ◌++◌, IfOk};
ghost use Rattle.crossbeam_utils.specs.Register.{Turns};
ghost use Rattle.crossbeam_utils.specs.Seq.{cell_view};
ghost use Rattle.live_progress.specs.Lists.{last_of, IsNoLess, StartsWith};
ghost use Rattle.live_progress.specs.Rule.{IsShown, Publishing, Checking};

use crate::rule::{Cell, Checks, HandsOut, Leaves, Looks, Publishes, Token};
use crate::words::{pair_of, words_of};
use std::alloc::{AllocError, Global};
use std::marker::Model;
use std::sync::Wait;
use std::sync::atomic::{AtomicU64, Ordering};

/// How far a run is.
#[derive(Clone, Copy, Debug, PartialEq, Eq)]
pub struct Progress {
    /// How many events are final, at most `u64::MAX`.
    pub events: u64,
    /// The tick of the last of them; 0 before the first.
    pub tick: u64,
}

/// A board, which shows the last pair that its pen published, and (0, 0) before the first. It also has the tick at
/// which the run ends, of which nothing is claimed.
///
/// Contracts see its name.
#[derive(Drop)]
pub struct Board {
    cell: Cell,
    end: AtomicU64,
}

impl Model for Board {
    ghost use Rattle.atomic_table.specs.Seated.{TableId};

    ghost Value = { TableId };

    ghost view = { λ b. b.cell.table.shared.table_id };
}

/// A pen, which publishes on a board. A board has one.
///
/// Contracts see its board's name, and the list of what it published.
#[derive(Drop)]
pub struct Pen {
    token: Token,
    last: Progress,
}

impl Model for Pen {
    ghost use Rattle.std.specs.Prelude.{◌≡◌, true};
    ghost use Rattle.crossbeam_utils.specs.Seq.{cell_view};
    ghost use Rattle.live_progress.specs.Lists.{Known, last_of};

    ghost Value = { Known };

    ghost view = { λ p. record { board = p.token.table_id; list = (cell_view p.token).list } };

    ghost invariant = { λ p. ((cell_view p.token).writes ≡ true) × (p.last ≡ last_of (cell_view p.token).list) };
}

/// A glass, which looks at a board.
///
/// Contracts see its board's name, and a list of published pairs, which goes up to the one that it saw last.
#[derive(Drop)]
pub struct Glass {
    token: Token,
}

impl Model for Glass {
    ghost use Rattle.std.specs.Prelude.{◌≡◌, false};
    ghost use Rattle.crossbeam_utils.specs.Seq.{cell_view};
    ghost use Rattle.live_progress.specs.Lists.{Known};

    ghost Value = { Known };

    ghost view = { λ g. record { board = g.token.table_id; list = (cell_view g.token).list } };

    ghost invariant = { λ g. (cell_view g.token).writes ≡ false };
}

impl Board {
    /// A new board and its pen, which has published nothing.
    ///
    /// # Errors
    /// Out of memory.
    #[tactic(auto, using(crate::proofs::Moves::begins))]
    pub fn open(alloc: Global) -> Result<(Board, Pen), AllocError>
        ensures { IfOk result (λ opened. opened.1 ≡ record { board = opened.0; list = [] }) }
    {
        let (cell, token) = Cell::ruled(alloc, [0, 0])?;
        let last = Progress { events: 0, tick: 0 };
        let end = AtomicU64::new(0);
        Ok((Board { cell, end }, Pen { token, last }))
    }

    /// Sets the tick at which the run that is shown ends.
    pub fn announce(&self, end: u64) {
        self.end.store(end, Ordering::SeqCst);
    }

    /// The tick at which the run ends; 0 as long as it isn't set.
    pub fn end(&self) -> u64 {
        self.end.load(Ordering::SeqCst)
    }

    /// A glass that has seen what the pen has published.
    #[tactic(auto, using(crate::proofs::Moves::copies))]
    pub fn glass<R: Wait>(&self, _rt: &R, pen: &mut Pen) -> Glass
        requires { pen.old.board ≡ self.now }
        ensures pen { pen.new ≡ pen.old }
        ensures glass { result ≡ pen.old }
    {
        Glass {
            token: self.cell.split_pass::<HandsOut>(&mut pen.token),
        }
    }

    /// Publishes a pair, whose numbers are no less than those that the pen published before.
    #[inline(always)]
    pub fn publish<R: Wait>(&self, rt: &R, pen: &mut Pen, to: Progress)
        requires board { pen.old.board ≡ self.now }
        requires rises { IsNoLess (last_of pen.old.list) to }
        ensures board { pen.new.board ≡ pen.old.board }
        ensures list { pen.new.list ≡ pen.old.list ++ to ∷ [] }
    {
        self.put(rt, &mut pen.token, words_of(to));
        pen.last = to;
    }

    // Writes the words of a pair, as the rule requires of the pen.
    #[inline(always)]
    fn put<R: Wait>(&self, rt: &R, token: &mut Token, words: [u64; 2])
        requires board { token.old.table_id ≡ self.now }
        requires rule { Turns IsShown token.old.id (cell_view token.old) (λ _. words) Publishing }
        ensures board { token.new.table_id ≡ token.old.table_id }
        ensures rule { Publishing (cell_view token.old) [] words (cell_view token.new) }
    {
        self.cell.swap_as::<Publishes, R>(rt, token, words);
    }

    /// The pair that the board shows. Neither number is less than in any pair that the glass saw before.
    #[tactic(auto, using(crate::proofs::Moves::looks))]
    pub fn look<R: Wait>(&self, rt: &R, glass: &mut Glass) -> Progress
        requires { glass.old.board ≡ self.now }
        ensures board { glass.new.board ≡ glass.old.board }
        ensures more { StartsWith glass.new.list glass.old.list }
        ensures last { result ≡ last_of glass.new.list }
        ensures rises { IsNoLess (last_of glass.old.list) result }
    {
        let words = self.cell.load_as::<Looks, R>(rt, &mut glass.token);
        pair_of(words)
    }

    /// Takes a glass back: all that it saw was published by the pen, in this order.
    #[tactic(auto, using(crate::proofs::Moves::leaves, crate::proofs::Moves::takes_in))]
    pub fn retire<R: Wait>(&self, rt: &R, pen: &mut Pen, glass: Glass)
        requires pen { pen.old.board ≡ self.now }
        requires glass { glass.board ≡ self.now }
        ensures pen { pen.new ≡ pen.old }
        ensures seen { StartsWith pen.old.list glass.list }
    {
        let Glass { token: mut left } = glass;
        let token = self.cell.split_pass::<Leaves>(&mut left);
        self.cell.join_pass::<Leaves>(&mut pen.token, token);
        self.check(rt, &mut pen.token);
    }

    // Looks at the board, as the rule requires of a pen that was told what a glass has seen.
    fn check<R: Wait>(&self, rt: &R, token: &mut Token)
        requires board { token.old.table_id ≡ self.now }
        requires rule { Turns IsShown token.old.id (cell_view token.old) (λ x. x) Checking }
        ensures board { token.new.table_id ≡ token.old.table_id }
        ensures rule { Checking (cell_view token.old) [] [] (cell_view token.new) }
    {
        self.cell.load_as::<Checks, R>(rt, token);
    }
}

impl Pen {
    /// The last pair that the pen published, and (0, 0) before the first.
    pub fn last(&self) -> Progress
        ensures { result ≡ last_of self.now.list }
    {
        self.last
    }
}
