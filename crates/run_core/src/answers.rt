//! The answers of an advance of the committed state.

use commit_horizon::Batch;
use event_rules::Limit;

/// The answer of an advance.
#[derive(Drop)]
pub enum Advance {
    /// Some actions were committed.
    Raised(Batch),
    /// These were committed, and no event is left.
    End(Batch),
    /// These were committed, and the next event fails the limit.
    Limit(Batch, Limit),
}

/// The kind of an advance, whatever it committed.
#[derive(Clone, Copy)]
pub(crate) enum AdvanceKind {
    /// Some actions were committed.
    Raised,
    /// No event is left.
    End,
    /// The next event fails the limit.
    Limit(Limit),
}

ghost use Rattle.std.specs.Prelude.{◌≡◌};
ghost use Rattle.run_core.specs.AdvancesUntold.{answer_with};
ghost use Rattle.run_core.specs.Simulates.{batch_of};

impl Advance {
    /// The actions that were committed.
    pub fn batch(&self) -> &Batch
        ensures { result.now ≡ batch_of self.now }
    {
        match self {
            Advance::Raised(batch) => batch,
            Advance::End(batch) => batch,
            Advance::Limit(batch, _) => batch,
        }
    }
}

impl AdvanceKind {
    /// The answer of an advance that committed a batch.
    pub(crate) fn answer_with(self, batch: Batch) -> Advance
        ensures { result ≡ answer_with self batch }
    {
        match self {
            AdvanceKind::Raised => Advance::Raised(batch),
            AdvanceKind::End => Advance::End(batch),
            AdvanceKind::Limit(limit) => Advance::Limit(batch, limit),
        }
    }
}
