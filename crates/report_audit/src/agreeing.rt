//! How far a piece of a report agrees with a claimed one.

ghost use Rattle.std.specs.Prelude.{◌≡◌, ◌≤◌, ◌<◌, ◌++◌, ℕ, List, true, false, drop, length, take, IfOk};
ghost use Rattle.std.specs.Io.KnownBytes.{Consumes, IsAtEnd};
ghost use Rattle.report_audit.specs.Parting.{all_left};
ghost use Rattle.report_audit.specs.Ready.{CountsUnread};
ghost use Rattle.report_audit.specs.Compared.{Part};
ghost use Rattle.report_audit.specs.Comparing.{GoesOn, CountsCourse};

use crate::ahead::Ahead;
use crate::parted::Unread;
use report_ports::{Source, Taken};

/// How a comparison is going.
#[derive(Clone, Copy)]
pub enum Course {
    /// All that was told so far agrees.
    Agrees,
    /// They differ, and more of the line that differs may be told.
    Differs,
    /// They differ, and the line that differs was told to its end.
    Wrong,
    /// The claimed source failed.
    Failed,
}

/// Compares a piece with the claimed bytes that are left, those read ahead and then those of the source. The answer
/// says how many bytes of the piece agree, and how the comparison goes on. The bytes that agree are taken from the
/// source.
pub fn agree<C: Source>(claimed: &mut C, ahead: &mut Ahead, piece: &[u8]) -> (usize, Course)
    ensures most { result.0 ≤ length piece.now }
    ensures took { Consumes (all_left ahead.old (C.left claimed.old)) (all_left ahead.new (C.left claimed.new)) (take result.0 piece.now) }
    ensures course { GoesOn result.1 (drop result.0 piece.now) (all_left ahead.new (C.left claimed.new)) }
    ensures counts { CountsCourse (C.faults claimed.old) (C.faults claimed.new) result.1 }
    ensures lasts { C.lasting claimed.new ≡ C.lasting claimed.old }
{
    let mut at = 0;
    while at < piece.len() {
        match has_more(claimed, ahead) {
            Ok(more) => {
                if !more {
                    return (at, Course::Differs);
                }
            }
            Err(Unread) => return (at, Course::Failed),
        }
        let same = agreement(&piece[at..], ahead.as_slice());
        if same == 0 {
            return (at, Course::Differs);
        }
        ahead.pass(same);
        at += same;
    }
    (at, Course::Agrees)
}

/// Whether any claimed byte is left. If so, some bytes are read ahead afterwards.
///
/// # Errors
/// The source failed.
pub fn has_more<C: Source>(claimed: &mut C, ahead: &mut Ahead) -> Result<bool, Unread>
    ensures same { all_left ahead.new (C.left claimed.new) ≡ all_left ahead.old (C.left claimed.old) }
    ensures more { IfOk result (λ more. more ≡ true → 0 < length ahead.new) }
    ensures end { IfOk result (λ more. more ≡ false → IsAtEnd (all_left ahead.new (C.left claimed.new))) }
    ensures counts { CountsUnread (C.faults claimed.old) (C.faults claimed.new) result }
    ensures lasts { C.lasting claimed.new ≡ C.lasting claimed.old }
{
    if !ahead.as_slice().is_empty() {
        return Ok(true);
    }
    match ahead.fill(claimed) {
        Taken::Got(_) => Ok(true),
        Taken::End => Ok(false),
        Taken::Failed => Err(Unread),
    }
}

// How many bytes two texts have in common at the front.
fn agreement(first: &[u8], second: &[u8]) -> usize
    ensures first { result ≤ length first.now }
    ensures second { result ≤ length second.now }
    ensures same { take result first.now ≡ take result second.now }
    ensures part { result < length second.now → (more : List ℕ) → Part (drop result first.now) (drop result second.now ++ more) }
{
    let mut at = 0;
    while at < first.len() && at < second.len() {
        if first[at] != second[at] {
            return at;
        }
        at += 1;
    }
    at
}
