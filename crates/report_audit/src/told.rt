//! Bytes that were told, for proofs alone.

ghost use Rattle.std.specs.Prelude.{◌≡◌, ℕ, List, [], ◌++◌};
ghost use Rattle.std.specs.Borrow.{ftrue};

use std::marker::Model;

/// Bytes that only clauses read: a history. It takes no memory, and its calls do nothing when the program runs.
#[derive(Drop)]
pub struct Told {
    pub ghost bytes: { List ℕ },
}

impl Model for Told {
    ghost also_owns = { λ _. ftrue };
}

impl Told {
    /// None yet.
    pub fn new() -> Told
        ensures { result.bytes ≡ [] }
    {
        Told {}
    }

    /// Adds the bytes of a piece after the others.
    pub fn add(&mut self, _piece: &[u8])
        ensures { self.new.bytes ≡ self.old.bytes ++ _piece.now }
    {}
}
