//! A source in two parts: the bytes before the parting line, and then those after it.

ghost use base.Fml.{GName};
ghost use Rattle.std.specs.Prelude.{◌≡◌, ◌≤◌, ◌<◌, ◌-◌, ◌^◌, ◌==◌, ℕ, Bool, List, Option, [], true, false, length, drop, get_or, is_some, Some, None, IfOk};
ghost use Rattle.report_ports.specs.Ports.{Takes, CountsTake};
ghost use Rattle.report_audit.specs.Lines.{line_length};
ghost use Rattle.report_audit.specs.Parting.{all_left, front_of_known, rest_of_known};
ghost use Rattle.report_audit.specs.Stages.{left_in, coming_in, IsRestNext, PassesBytes};
ghost use Rattle.report_audit.specs.Ready.{CountsUnread};

use crate::ahead::Ahead;
use crate::lines::{NEWLINE, line_length};
use crate::ready::{Ready, give_line, look_ahead};
use report_ports::{Source, Taken};

/// The source failed.
#[derive(Clone, Copy, Debug, PartialEq, Eq)]
pub struct Unread;

/// How far a parted source has come.
#[derive(Clone, Copy)]
pub enum Stage {
    /// Before the parting line; true if the next byte starts a line.
    Front(bool),
    /// At the front's end: the parting line was passed, or the source ended.
    Met,
    /// Turned; true if the front's end was met before.
    Rest(bool),
}

/// A source over a lent one. At first it gives the bytes before the first line that is exactly `===`; once it is
/// turned, it gives the bytes after that line.
///
/// One value serves for both, since it holds the loan: so the lender knows afterwards that all was taken from the
/// source. Its calls take no memory; bytes that are read ahead are kept in an array.
#[derive(Drop)]
pub struct Parted<'s, S: Source> {
    source: &'s mut S,
    ahead: Ahead,
    stage: Stage,
}

impl<'s, S: Source> Parted<'s, S> {
    /// The bytes that the source has left before the parting line.
    pub fn new(source: &'s mut S) -> Parted<'s, S>
        ensures loan { result.source.ghost_name ≡ source.entry.ghost_name }
        ensures source { result.source.now ≡ source.entry.now }
        ensures left { left_in result.stage (all_left result.ahead (S.left result.source.now))
            ≡ front_of_known (S.left source.entry.now) }
        ensures coming { coming_in result.stage (all_left result.ahead (S.left result.source.now))
            ≡ rest_of_known (S.left source.entry.now) }
    {
        Parted {
            source,
            ahead: Ahead::new(),
            stage: Stage::Front(true),
        }
    }

    /// Turns to the bytes after the parting line, or to none if there is no such line. What was left before the line is
    /// skipped. If it is turned already, nothing happens.
    ///
    /// # Errors
    /// The source failed. The call may be made again, and goes on where this one broke off.
    pub fn turn(&mut self) -> Result<(), Unread>
        ensures turned { IfOk result (λ _. (front bytes : List ℕ) →
            left_in self.old.stage (all_left self.old.ahead (S.left self.old.source.now)) ≡ Some front →
            length front < 2 ^ 64 →
            coming_in self.old.stage (all_left self.old.ahead (S.left self.old.source.now)) ≡ Some bytes →
            left_in self.new.stage (all_left self.new.ahead (S.left self.new.source.now)) ≡ Some bytes) }
        ensures last { IfOk result (λ _.
            coming_in self.new.stage (all_left self.new.ahead (S.left self.new.source.now)) ≡ None) }
        ensures again { (met : Bool) → self.old.stage ≡ Stage.Rest met → self.new.stage ≡ self.old.stage }
        ensures counts { CountsUnread (S.faults self.old.source.now) (S.faults self.new.source.now) result }
        ensures loan { self.new.source.ghost_name ≡ self.old.source.ghost_name }
        ensures lasts { S.lasting self.new.source.now ≡ S.lasting self.old.source.now }
    {
        if matches!(self.stage, Stage::Rest(_)) {
            return Ok(());
        }
        let met = self.skip()?;
        self.stage = Stage::Rest(met);
        Ok(())
    }

    // Goes on to the front's end. True if it came there.
    fn skip(&mut self) -> Result<bool, Unread>
        ensures met { IfOk result (λ met. met ≡ true →
            IsRestNext self.new.stage (all_left self.new.ahead (S.left self.new.source.now))) }
        ensures passes { IfOk result (λ met. met ≡ false → PassesBytes (2 ^ 64)
            (left_in self.old.stage (all_left self.old.ahead (S.left self.old.source.now)))
            (left_in self.new.stage (all_left self.new.ahead (S.left self.new.source.now)))) }
        ensures coming { coming_in self.new.stage (all_left self.new.ahead (S.left self.new.source.now))
            ≡ coming_in self.old.stage (all_left self.old.ahead (S.left self.old.source.now)) }
        ensures counts { CountsUnread (S.faults self.old.source.now) (S.faults self.new.source.now) result }
        ensures loan { self.new.source.ghost_name ≡ self.old.source.ghost_name }
        ensures lasts { S.lasting self.new.source.now ≡ S.lasting self.old.source.now }
    {
        let mut met = self.skip_line()?;
        // A source that knows no bytes may give lines for ever.
        for _ in 0..u64::MAX {
            if met {
                break;
            }
            met = self.skip_line()?;
        }
        Ok(met)
    }

    // Skips a line of the front. True if the front's end is met.
    fn skip_line(&mut self) -> Result<bool, Unread>
        ensures met { IfOk result (λ met. met ≡ true →
            IsRestNext self.new.stage (all_left self.new.ahead (S.left self.new.source.now))) }
        ensures passes { IfOk result (λ met. met ≡ false → PassesBytes 1
            (left_in self.old.stage (all_left self.old.ahead (S.left self.old.source.now)))
            (left_in self.new.stage (all_left self.new.ahead (S.left self.new.source.now)))) }
        ensures coming { coming_in self.new.stage (all_left self.new.ahead (S.left self.new.source.now))
            ≡ coming_in self.old.stage (all_left self.old.ahead (S.left self.old.source.now)) }
        ensures counts { CountsUnread (S.faults self.old.source.now) (S.faults self.new.source.now) result }
        ensures loan { self.new.source.ghost_name ≡ self.old.source.ghost_name }
        ensures lasts { S.lasting self.new.source.now ≡ S.lasting self.old.source.now }
    {
        let starts = match self.stage {
            Stage::Front(starts) => starts,
            Stage::Met => return Ok(true),
            Stage::Rest(_) => return Ok(true),
        };
        match look_ahead(self.source, &mut self.ahead, starts) {
            Ready::Failed => Err(Unread),
            Ready::End => {
                self.stage = Stage::Met;
                Ok(true)
            }
            Ready::Parting(count) => {
                self.ahead.pass(count);
                self.stage = Stage::Met;
                Ok(true)
            }
            Ready::Line => {
                let (_, ends) = pass_line(&mut self.ahead);
                self.stage = Stage::Front(ends);
                Ok(false)
            }
        }
    }

    // Gives bytes of at most one line of the front. At the front's end it answers that nothing is left.
    fn take_line(&mut self, starts: bool, into: &mut [u8]) -> Taken
        requires stage { self.old.stage ≡ Stage.Front starts }
        requires room { 0 < length into.old }
        ensures takes { Takes (left_in self.old.stage (all_left self.old.ahead (S.left self.old.source.now)))
            (left_in self.new.stage (all_left self.new.ahead (S.left self.new.source.now))) result into.new }
        ensures coming { coming_in self.new.stage (all_left self.new.ahead (S.left self.new.source.now))
            ≡ coming_in self.old.stage (all_left self.old.ahead (S.left self.old.source.now)) }
        ensures knows { is_some (left_in self.new.stage (all_left self.new.ahead (S.left self.new.source.now)))
            ≡ is_some (left_in self.old.stage (all_left self.old.ahead (S.left self.old.source.now))) }
        ensures counts { CountsTake (S.faults self.old.source.now) (S.faults self.new.source.now) result }
        ensures loan { self.new.source.ghost_name ≡ self.old.source.ghost_name }
        ensures lasts { S.lasting self.new.source.now ≡ S.lasting self.old.source.now }
    {
        match look_ahead(self.source, &mut self.ahead, starts) {
            Ready::Failed => Taken::Failed,
            Ready::End => Taken::End,
            Ready::Parting(count) => {
                self.ahead.pass(count);
                self.stage = Stage::Met;
                Taken::End
            }
            Ready::Line => {
                let (count, ends) = give_line(&mut self.ahead, into);
                self.stage = Stage::Front(ends);
                Taken::Got(count)
            }
        }
    }

    // Gives what was read ahead, and then what the source gives.
    fn take_rest(&mut self, into: &mut [u8]) -> Taken
        requires { 0 < length into.old }
        ensures takes { Takes (all_left self.old.ahead (S.left self.old.source.now))
            (all_left self.new.ahead (S.left self.new.source.now)) result into.new }
        ensures knows { is_some (all_left self.new.ahead (S.left self.new.source.now))
            ≡ is_some (all_left self.old.ahead (S.left self.old.source.now)) }
        ensures stage { self.new.stage ≡ self.old.stage }
        ensures counts { CountsTake (S.faults self.old.source.now) (S.faults self.new.source.now) result }
        ensures loan { self.new.source.ghost_name ≡ self.old.source.ghost_name }
        ensures lasts { S.lasting self.new.source.now ≡ S.lasting self.old.source.now }
    {
        if self.ahead.as_slice().is_empty() {
            return self.source.take(into);
        }
        let (count, _) = give_line(&mut self.ahead, into);
        Taken::Got(count)
    }
}

impl<'s, S: Source> Source for Parted<'s, S> {
    ghost Lasting = { GName × Option (List ℕ) × S.Lasting };

    // The loan that it holds, the bytes after the parting line as long as it isn't turned, and what lasts of the
    // source.
    ghost lasting = { λ p. (
      p.source.ghost_name,
      coming_in p.stage (all_left p.ahead (S.left p.source.now)),
      S.lasting p.source.now,
    ) };

    ghost left = { λ p. left_in p.stage (all_left p.ahead (S.left p.source.now)) };

    ghost faults = { λ p. S.faults p.source.now };

    /// How many calls of the source failed, at most `u64::MAX`.
    fn faults(&self) -> u64 {
        self.source.faults()
    }

    /// Before it is turned, it gives bytes of at most one line, and answers at the parting line that nothing is left.
    fn take(&mut self, into: &mut [u8]) -> Taken {
        match self.stage {
            Stage::Front(starts) => self.take_line(starts, into),
            Stage::Met => Taken::End,
            Stage::Rest(_) => self.take_rest(into),
        }
    }
}

// Drops the bytes of the first line. The answer says how many these were, and whether the line ends with them.
fn pass_line(ahead: &mut Ahead) -> (usize, bool)
    requires { 0 < length ahead.old }
    ensures least { 1 ≤ result.0 }
    ensures line { result.0 ≤ line_length ahead.old }
    ensures left { ahead.new ≡ drop result.0 ahead.old }
    ensures ends { result.1 ≡ (get_or ahead.old (result.0 - 1) 0 == NEWLINE) }
{
    let bytes = ahead.as_slice();
    let count = line_length(bytes);
    let ends = bytes[count - 1] == NEWLINE;
    ahead.pass(count);
    (count, ends)
}
