//! Steps and hearings of some regions in the order of a list.

ghost use Rattle.std.specs.Prelude.{◌≡◌, ◌++◌, IfOk, OnOk, OnErr, List};
ghost use Rattle.run_core.specs.Plays.{answers_of, PlaysOne, Plays, SpendsOneAtMost, PlaysSome, GoOnStanding};
ghost use Rattle.run_core.specs.declared.playing.Answer.{Answer};

use crate::pairs::{hear_at, step_at};
use region_core::{Hearing, Region, Step};
use std::alloc::{AllocError, Global};
use std::marker::Model;

/// A call on some regions, which are named by their places.
#[derive(Clone, Copy, Debug, PartialEq, Eq)]
pub enum CoreStep {
    /// This region makes a step.
    Turn(u32),
    /// One region hears another.
    Hear {
        /// The one that hears.
        hearer: u32,
        /// The one that it hears.
        from: u32,
    },
}

/// The answer of a call.
#[derive(Clone, Copy, Debug, PartialEq, Eq)]
pub enum Answer {
    /// The answer of a step.
    Step(Step),
    /// The answer of a hearing.
    Hearing(Hearing),
}

/// The answers of calls, in order; a call that was passed over has none.
#[derive(Drop)]
pub struct Played {
    answers: Vec<Answer>,
}

impl Model for Played {
    ghost Value = { List Answer };

    ghost view = { λ s. s.answers.items };
}

impl Played {
    /// The answers, in order.
    pub fn as_slice(&self) -> &[Answer]
        ensures { result.now ≡ self.now }
    {
        &self.answers
    }
}

/// Makes calls on some regions, in the order of a list. A call is passed over if there is no region at a place that it
/// names, or if it names the same place twice.
///
/// # Errors
/// Out of memory: the first calls were made, and at most one region was spent.
pub fn play(alloc: Global, regions: &mut [Region], steps: &[CoreStep]) -> Result<Played, AllocError>
    ensures plays { IfOk result (λ played. Plays regions.old steps.now played regions.new) }
    ensures stand { OnOk result (GoOnStanding regions.old regions.new) }
    ensures cut_short { OnErr result (PlaysSome regions.old steps.now regions.new) }
{
    let mut answers = Vec::new(alloc);
    for call in steps {
        let answer = play_one(alloc, regions, call)?;
        push_some(&mut answers, answer)?;
    }
    Ok(Played { answers })
}

// One call.
fn play_one(
    alloc: Global,
    regions: &mut [Region],
    call: &CoreStep,
) -> Result<Option<Answer>, AllocError>
    ensures plays { IfOk result (λ answer. PlaysOne regions.old call.now answer regions.new) }
    ensures cut_short { OnErr result (SpendsOneAtMost regions.old regions.new) }
{
    match call {
        CoreStep::Turn(k) => {
            let k = *k as usize;
            if k < regions.len() {
                let step = step_at(alloc, regions, k)?;
                return Ok(Some(Answer::Step(step)));
            }
            Ok(None)
        }
        CoreStep::Hear { hearer, from } => {
            let k = *hearer as usize;
            let q = *from as usize;
            if k < regions.len() && q < regions.len() && k != q {
                let hearing = hear_at(alloc, regions, k, q)?;
                return Ok(Some(Answer::Hearing(hearing)));
            }
            Ok(None)
        }
    }
}

// One more answer, if there is one.
fn push_some(answers: &mut Vec<Answer>, answer: Option<Answer>) -> Result<(), AllocError>
    ensures { OnOk result (answers.new.items ≡ answers.old.items ++ answers_of answer) }
{
    if let Some(answer) = answer {
        answers.push(answer)?;
    }
    Ok(())
}
