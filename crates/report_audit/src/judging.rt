//! The verdict at the end of a comparison.

ghost use Rattle.std.specs.Prelude.{◌≡◌, ◌++◌, ℕ, List, Option, [], true, IfOk};
ghost use Rattle.std.specs.Io.KnownBytes.{Consumes};
ghost use Rattle.report_audit.specs.Parting.{all_left};
ghost use Rattle.report_audit.specs.Compared.{HasShortLines, Compares};
ghost use Rattle.report_audit.specs.Place.{place_in, in_line};
ghost use Rattle.report_audit.specs.Comparing.{IsCourse, IsLine, CountsCourse, CountsJudged};
ghost use Rattle.report_audit.specs.declared.verdict.NoVerdict.TheVariants as none;

use crate::agreeing::{Course, has_more};
use crate::ahead::Ahead;
use crate::parted::Unread;
use crate::place::{Place, Uncounted};
use crate::verdict::{NoVerdict, Verdict};
use report_ports::Source;

impl From<Uncounted> for NoVerdict {
    ghost from_gives = { λ _ fault. fault ≡ none.Unfinished };

    fn from(_uncounted: Uncounted) -> NoVerdict {
        NoVerdict::Unfinished
    }
}

impl From<Unread> for NoVerdict {
    ghost from_gives = { λ _ fault. fault ≡ none.Unread };

    fn from(_unread: Unread) -> NoVerdict {
        NoVerdict::Unread
    }
}

/// Goes on in a line that differs, and says whether it has ended.
pub fn in_line(place: &mut Place, bytes: &[u8]) -> Course
    ensures line { place.new ≡ in_line place.old bytes.now }
    ensures course { IsLine bytes.now result }
{
    if place.end(bytes) {
        Course::Wrong
    } else {
        Course::Differs
    }
}

/// The verdict on a report, given the line that the comparison has reached and how it went.
///
/// # Errors
/// The source failed, or no line is known to be wrong, though the report isn't told to its end.
pub fn verdict_at<C: Source>(
    place: &Place,
    course: Course,
    is_whole: bool,
    claimed: &mut C,
    ahead: &mut Ahead,
) -> Result<Verdict, NoVerdict>
    ensures judges { IfOk result (λ verdict. (start : Option (List ℕ)) (agreed other more : List ℕ) →
        place.now ≡ place_in agreed other → IsCourse course other (all_left ahead.old (C.left claimed.old)) →
        Consumes start (all_left ahead.old (C.left claimed.old)) agreed → (is_whole ≡ true → more ≡ []) →
        HasShortLines ((agreed ++ other) ++ more) →
        Compares ((agreed ++ other) ++ more) start (C.left claimed.new) verdict) }
    ensures counts { (before : ℕ) → CountsCourse before (C.faults claimed.old) course →
        CountsJudged before (C.faults claimed.new) result }
    ensures lasts { C.lasting claimed.new ≡ C.lasting claimed.old }
{
    match course {
        Course::Wrong => Ok(place.wrong()?),
        Course::Failed => Err(NoVerdict::Unread),
        Course::Differs => {
            if !is_whole {
                return Err(NoVerdict::Unfinished);
            }
            Ok(place.wrong()?)
        }
        Course::Agrees => {
            if !is_whole {
                return Err(NoVerdict::Unfinished);
            }
            if has_more(claimed, ahead)? {
                Ok(place.longer()?)
            } else {
                Ok(place.same()?)
            }
        }
    }
}
