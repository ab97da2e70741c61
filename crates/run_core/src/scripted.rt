//! A burst that makes given calls.

ghost use Rattle.std.specs.Prelude.{◌≡◌, List, [], length, IfOk, OnOk};
ghost use Rattle.run_core.specs.declared.playing.Answer.{Answer};
ghost use Rattle.run_core.specs.Plays.{Plays};
ghost use Rattle.run_core.specs.declared.playing.CoreStep.{CoreStep};

use crate::playing::{CoreStep, play};
use region_core::{Beside, Burst, Region};
use std::alloc::{AllocError, Global};
use std::marker::Model;
use std::thread::Threads;

/// Makes the calls of a list in one burst, and none in the next ones.
#[derive(Drop)]
pub struct Scripted {
    steps: Vec<CoreStep>,
}

impl Model for Scripted {
    ghost Value = { List CoreStep };

    ghost view = { λ s. s.steps.items };
}

impl Scripted {
    /// The burst of these calls.
    ///
    /// # Errors
    /// Out of memory.
    pub fn new(alloc: Global, steps: &[CoreStep]) -> Result<Scripted, AllocError>
        ensures { IfOk result (λ scripted. scripted ≡ steps.now) }
    {
        Ok(Scripted {
            steps: Vec::from_slice(alloc, steps)?,
        })
    }
}

impl<S: Beside<W>, W> Burst<S, W> for Scripted {
    fn burst<R: Threads + Sync>(
        &mut self,
        _rt: &R,
        alloc: Global,
        mut regions: Vec<Region>,
        _beside: &mut S,
        _lent: &mut W,
    ) -> Result<Vec<Region>, AllocError>
        ensures count { IfOk result (λ worked. length worked.items ≡ length regions.items) }
        ensures plays { IfOk result (λ worked.
            (answers : List Answer) × Plays regions.items self.old answers worked.items) }
        ensures empty { OnOk result (self.new ≡ []) }
        ensures beside { S.goes _beside.old _lent.old _beside.new _lent.new }
    {
        play(alloc, &mut regions, &self.steps)?;
        self.steps.clear();
        Ok(regions)
    }
}
