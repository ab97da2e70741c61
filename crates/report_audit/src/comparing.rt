//! A sink that compares what it is given with a claimed report.

ghost use Rattle.std.specs.Prelude.{◌≡◌, ℕ, List, Some, [], is_some, true, IfOk, ◌++◌};
ghost use Rattle.report_ports.specs.Ports.{Gives, CountsGive};
ghost use Rattle.report_audit.specs.Comparing.{Grows, Advances, KeepsTheRest, CountsJudged, HasNoWrongLine, ComparingData, IsCourse, CountsCourse};
ghost use Rattle.report_audit.specs.Compared.{HasShortLines, Compares};
ghost use Rattle.std.specs.Io.KnownBytes.{Consumes};
ghost use Rattle.report_audit.specs.Parting.{all_left};
ghost use Rattle.report_audit.specs.Place.{place_in};

use crate::agreeing::{Course, agree};
use crate::ahead::Ahead;
use crate::judging::{in_line, verdict_at};
use crate::place::Place;
use crate::told::Told;
use crate::verdict::{NoVerdict, Verdict};
use report_ports::{Given, Sink, Source};
use std::marker::Model;
use std::snapshot::Snapshot;

/// A sink that compares a report with a claimed one while the report is told.
///
/// It takes what agrees. In the first line that differs it takes the rest of the line too, and then fails, since what
/// is told after that can't change the verdict. It keeps only the beginning of one line and what it has read ahead.
#[derive(Drop)]
pub struct Comparing<C: Source> {
    claimed: C,
    // The claimed source as it was when the comparison began. It takes no memory, and only says what the source had
    // left then.
    given: Snapshot<C>,
    ahead: Ahead,
    // Of the bytes that were taken, those that agree, and then the others.
    agreed: Told,
    other: Told,
    place: Place,
    course: Course,
    faults: u64,
}

impl<C: Source> Model for Comparing<C> {
    ghost Value = { ComparingData C };

    ghost view = { λ c. record {
      given = c.given.value;
      taken = c.agreed.bytes ++ c.other.bytes;
      course = c.course;
      faults = c.faults;
    } };

    ghost invariant = { λ c. (c.place ≡ place_in c.agreed.bytes c.other.bytes)
        × IsCourse c.course c.other.bytes (all_left c.ahead (C.left c.claimed))
        × Consumes (C.left c.given.value) (all_left c.ahead (C.left c.claimed)) c.agreed.bytes
        × CountsCourse (C.faults c.given.value) (C.faults c.claimed) c.course
        × (C.lasting c.claimed ≡ C.lasting c.given.value) };
}

impl<C: Source> Comparing<C> {
    /// A comparison that has taken nothing.
    pub fn new(claimed: C) -> Comparing<C>
        ensures given { result.given ≡ claimed }
        ensures taken { result.taken ≡ [] }
        ensures faults { result.faults ≡ 0 }
    {
        let given = Snapshot::of(&claimed);
        Comparing {
            claimed,
            given,
            ahead: Ahead::new(),
            agreed: Told::new(),
            other: Told::new(),
            place: Place::new(),
            course: Course::Agrees,
            faults: 0,
        }
    }

    // Compares a piece, if all agrees so far.
    fn compare(&mut self, piece: &[u8])
        requires { self.old.course ≡ Course.Agrees }
        ensures grows { Grows self.new.course self.old.taken self.new.taken piece.now }
        ensures rest { KeepsTheRest self.old self.new }
    {
        let (count, course) = agree(&mut self.claimed, &mut self.ahead, piece);
        let (same, rest) = piece.split_at(count);
        self.agreed.add(same);
        self.place.pass(same);
        self.course = course;
        if let Course::Differs = course {
            self.other.add(rest);
            self.course = in_line(&mut self.place, rest);
        }
    }

    // Takes more of the line that differs.
    fn go_on(&mut self, piece: &[u8])
        requires { self.old.course ≡ Course.Differs }
        ensures grows { Grows self.new.course self.old.taken self.new.taken piece.now }
        ensures rest { KeepsTheRest self.old self.new }
    {
        self.other.add(piece);
        self.course = in_line(&mut self.place, piece);
    }

    // Takes a piece, unless a line is wrong or the source failed.
    fn advance(&mut self, piece: &[u8])
        ensures advances { Advances self.old.course self.new.course self.old.taken self.new.taken piece.now }
        ensures rest { KeepsTheRest self.old self.new }
    {
        match self.course {
            Course::Agrees => self.compare(piece),
            Course::Differs => self.go_on(piece),
            Course::Wrong => {}
            Course::Failed => {}
        }
    }

    /// The verdict on the report, of which all or a front was told. The source is given back.
    ///
    /// # Errors
    /// The source failed, or no line is known to be wrong, though the report isn't told to its end.
    pub fn judge(self, is_whole: bool) -> (Result<Verdict, NoVerdict>, C)
        ensures judges { IfOk result.0 (λ verdict.
            (more : List ℕ) → (is_whole ≡ true → more ≡ []) → HasShortLines (self.taken ++ more) →
            Compares (self.taken ++ more) (C.left self.given) (C.left result.1) verdict) }
        ensures counts { CountsJudged (C.faults self.given) (C.faults result.1) result.0 }
        ensures lasts { C.lasting result.1 ≡ C.lasting self.given }
    {
        let Comparing {
            mut claimed,
            mut ahead,
            place,
            course,
            ..
        } = self;
        let verdict = verdict_at(&place, course, is_whole, &mut claimed, &mut ahead);
        (verdict, claimed)
    }
}

impl<C: Source> Sink for Comparing<C> {
    ghost Lasting = { C };

    ghost lasting = { λ c. c.given };

    ghost allows = { λ _ _. Unit {0} };

    ghost taken = { λ c. Some c.taken };

    ghost faults = { λ c. c.faults };

    /// How many calls failed, at most `u64::MAX`.
    fn faults(&self) -> u64 {
        self.faults
    }

    /// Takes the piece, if it agrees with the claimed report, or has more of a line that differs but not its end. Else it
    /// takes the piece up to a fault of the claimed source, or all of it, and fails. From then on it takes nothing.
    fn give(&mut self, piece: &[u8]) -> Given
        ensures gives { Gives (Some self.old.taken) (Some self.new.taken) result piece.now }
        ensures knows { is_some (Some self.new.taken) ≡ is_some (Some self.old.taken) }
        ensures counts { CountsGive self.old.faults self.new.faults result }
        ensures given { self.new.given ≡ self.old.given }
        // So at the end of the first wrong line it fails.
        ensures ends { result ≡ Given.All → (claimed : List ℕ) → C.left self.old.given ≡ Some claimed →
            HasNoWrongLine self.new.taken claimed }
    {
        self.advance(piece);
        match self.course {
            Course::Agrees => Given::All,
            Course::Differs => Given::All,
            _ => {
                self.faults = self.faults.saturating_add(1);
                Given::Failed
            }
        }
    }
}
