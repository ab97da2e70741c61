//! Telling what is final beside a burst.

ghost use Rattle.std.specs.Prelude.{◌≡◌, [], None, Some, OnOk, IfErr};
ghost use Rattle.commit_horizon.specs.TellingOn.{AwaitsUntold, TellsOn};
ghost use Rattle.commit_horizon.proofs.Goes.{still_awaited, tells_further, tells_none};

use commit_horizon::Untold;
use event_rules::{Deaf, Listener};
use region_core::Beside;
use std::alloc::Global;

// How many collisions are told at a time. In between, the teller looks whether the burst goes on.
const MOST_AT_ONCE: u32 = 8;

/// What is final and wasn't told yet, and the refusal that ended the telling, if there was one.
#[derive(Drop)]
pub struct Telling {
    /// The actions that are still to be told.
    pub untold: Untold,
    /// Set if the listener refused one: nothing is told any more.
    pub fault: Option<Deaf>,
}

impl Telling {
    /// Nothing is to be told, and nothing was refused.
    pub(crate) fn new(alloc: Global) -> Telling
        ensures untold { result.untold ≡ [] }
        ensures heard { result.fault ≡ None }
    {
        Telling {
            untold: Untold::new(alloc),
            fault: None,
        }
    }

    /// Tells all that is left, unless a refusal is kept.
    ///
    /// # Errors
    /// The listener refused a collision, now or before.
    pub(crate) fn tell_rest<L: Listener>(&mut self, listener: &mut L) -> Result<(), Deaf>
        requires { AwaitsUntold L.after L.awaits self.old.untold self.old.fault (L.meaning listener.old) }
        ensures told { OnOk result (TellsOn L.after L.torn self.old.untold self.old.fault
            (L.meaning listener.old) (L.faults listener.old) [] None (L.meaning listener.new) (L.faults listener.new)) }
        ensures rest { OnOk result (self.new.untold ≡ []) }
        ensures heard { OnOk result (self.new.fault ≡ None) }
        ensures refused { IfErr result (λ deaf. TellsOn L.after L.torn self.old.untold self.old.fault
            (L.meaning listener.old) (L.faults listener.old) self.new.untold (Some deaf)
            (L.meaning listener.new) (L.faults listener.new)) }
    {
        match self.fault {
            Some(deaf) => Err(deaf),
            None => self.untold.tell_rest(listener),
        }
    }
}

impl<L: Listener> Beside<L> for Telling {
    ghost fits = { λ x u. AwaitsUntold L.after L.awaits x.untold x.fault (L.meaning u) };

    ghost goes = { λ x u y v. TellsOn L.after L.torn x.untold x.fault (L.meaning u) (L.faults u)
        y.untold y.fault (L.meaning v) (L.faults v) };

    ghost stays = { λ x u. tells_none L.after L.torn x.untold x.fault (L.meaning u) (L.faults u) };

    ghost goes_further = { λ x y z u v w a b. tells_further L.after L.torn x.untold y.untold z.untold
        x.fault y.fault z.fault (L.meaning u) (L.meaning v) (L.meaning w) (L.faults u) (L.faults v) (L.faults w) a b };

    ghost still_fits = { λ x y u v a b. still_awaited L.after L.torn L.awaits x.untold y.untold x.fault y.fault
        (L.meaning u) (L.meaning v) (L.faults u) (L.faults v) a b };

    fn left(&self) -> usize {
        self.untold.left()
    }

    fn go_on(&mut self, lent: &mut L) -> bool {
        if self.fault.is_some() {
            return false;
        }
        match self.untold.tell_some(lent, MOST_AT_ONCE) {
            Ok(more) => more,
            Err(deaf) => {
                self.fault = Some(deaf);
                false
            }
        }
    }
}
