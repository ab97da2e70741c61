//! Work that is done beside a burst.

/// Work that is done piece by piece beside a burst, with something that is lent to it. A worker that would wait does
/// it, any number of pieces or none.
//
// Work and what is lent come as two loans: a struct that holds a loan would need a lifetime in the bound of `simulate`.
// A closure's clause can't quote the relation of an impl, so there it is written out. Laws of an impl can't cite proofs of
// their own crate, so those of telling are proved in `commit_horizon`.
pub trait Beside<W> {
    /// Whether the work may go on with what is lent.
    ghost fits: { Self → W → Type 0 };

    /// What the work and what is lent may have become after some pieces.
    ghost goes: { Self → W → Self → W → Type 0 };

    /// Does a piece of the work, and says whether there may be more.
    fn go_on(&mut self, lent: &mut W) -> bool
        requires { fits self.old lent.old }
        ensures { goes self.old lent.old self.new lent.new };

    /// About how much of the work is left, in any measure. Nothing is claimed of it.
    fn left(&self) -> usize;

    /// Doing no piece leaves both as they are.
    ghost stays: { (x : Self) (u : W) → goes x u x u };

    /// Some pieces and then some more are some pieces.
    ghost goes_further: { (x y z : Self) (u v w : W) → goes x u y v → goes y v z w → goes x u z w };

    /// After some pieces it may still go on.
    ghost still_fits: { (x y : Self) (u v : W) → fits x u → goes x u y v → fits y v };
}

/// Nothing to do beside a burst.
#[derive(Clone, Copy, Debug, Drop)]
pub struct Idle;

impl Beside<()> for Idle {
    ghost fits = { λ x u. Unit {0} };

    ghost goes = { λ x u y v. Unit {0} };

    ghost stays = { λ x u. tt };

    ghost goes_further = { λ x y z u v w a b. tt };

    ghost still_fits = { λ x y u v a b. tt };

    fn go_on(&mut self, _lent: &mut ()) -> bool {
        false
    }

    fn left(&self) -> usize {
        0
    }
}
