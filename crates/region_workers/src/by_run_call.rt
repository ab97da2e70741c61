//! A burst by a call that is of one run.

use crate::run_call::RunCall;
use region_core::{Beside, Region};
use region_locks::Origin;
use run_core::RunBurst;
use std::alloc::{AllocError, Global};
use std::marker::{Model, PhantomData};
use std::thread::Threads;

/// A burst that hands the regions of a run to a call. The state with which the run begins is known by a type.
///
/// A trait's method can't call workers whose gate it doesn't name, since it isn't known there that threads may share the
/// gate. So the call is made where the gate is known, and this makes a burst of it.
#[derive(Drop)]
pub struct ByRunCall<O: Origin, S: Beside<W>, W, C: RunCall<O, S, W>> {
    call: C,
    // How many threads work on the regions, the caller's counted.
    threads: u32,
    // The run, the work beside, and what is lent to it.
    run: PhantomData<O>,
    of: PhantomData<S>,
    lent: PhantomData<W>,
}

// What is known of the call; contracts see nothing else of it.
impl<O: Origin, S: Beside<W>, W, C: RunCall<O, S, W>> Model for ByRunCall<O, S, W, C> {
    ghost Value = { Unit {0} };

    ghost view = { λ _. tt };

    ghost invariant = { λ s. C.keeping s.call };
}

impl<O: Origin, S: Beside<W>, W, C: RunCall<O, S, W>> ByRunCall<O, S, W, C> {
    /// A burst by this call, which has this many threads, the caller's counted.
    pub fn new(call: C, threads: u32) -> ByRunCall<O, S, W, C>
        requires { C.keeping call }
    {
        ByRunCall {
            call,
            threads,
            run: PhantomData,
            of: PhantomData,
            lent: PhantomData,
        }
    }
}

ghost use Rattle.std.specs.Prelude.{Some};

impl<O: Origin, S: Beside<W>, W, C: RunCall<O, S, W>> RunBurst<S, W> for ByRunCall<O, S, W, C> {
    ghost of = { λ _. Some O.opening };

    ghost keeping = { λ _. Unit {0} };

    fn keeps(&self) -> bool {
        true
    }

    fn threads(&self) -> u32 {
        self.threads
    }

    fn burst<R: Threads + Sync>(
        &mut self,
        _rt: &R,
        _alloc: Global,
        regions: Vec<Region>,
        beside: &mut S,
        lent: &mut W,
    ) -> Result<Vec<Region>, AllocError> {
        self.call.work(regions, beside, lent)
    }
}
