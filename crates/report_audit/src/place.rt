//! The line that a report has reached.

ghost use Rattle.std.specs.Prelude.{◌≡◌, ◌<◌, ◌+◌, ◌-◌, ◌^◌, ℕ, List, ◌++◌, ◌∷◌, [], true, false, IfOk};
ghost use Rattle.report_audit.specs.Compared.{newlines};
ghost use Rattle.report_audit.specs.Place.{place_of, in_line, IsSame, IsLonger, IsWrong, PlaceData};

use crate::lines::NEWLINE;
use crate::verdict::{Line, Verdict};
use std::marker::Model;

/// A report has too many lines to count them.
#[derive(Clone, Copy, Debug, PartialEq, Eq)]
pub struct Uncounted;

/// How many lines of a report have ended, and the first 128 bytes of the line after them, as far as it was told.
///
/// The count of lines stops at 2^128 - 1.
#[derive(Drop)]
pub struct Place {
    lines: u128,
    line: Line,
}

impl Model for Place {
    ghost Value = { PlaceData };

    ghost view = { λ p. record { lines = p.lines; line = p.line } };
}

impl Place {
    /// The place before a report.
    pub fn new() -> Place
        ensures { result ≡ place_of [] }
    {
        Place {
            lines: 0,
            line: Line::new(&[]),
        }
    }

    /// Goes on past these bytes.
    pub fn pass(&mut self, bytes: &[u8])
        ensures { (before : List ℕ) → self.old ≡ place_of before → self.new ≡ place_of (before ++ bytes.now) }
    {
        let mut at = 0;
        while at < bytes.len() {
            self.push(bytes[at]);
            at += 1;
        }
    }

    fn push(&mut self, byte: u8)
        ensures { (before : List ℕ) → self.old ≡ place_of before → self.new ≡ place_of (before ++ byte ∷ []) }
    {
        if byte == NEWLINE {
            self.lines = self.lines.saturating_add(1);
            self.line = Line::new(&[]);
        } else {
            self.line.push(byte);
        }
    }

    /// Goes on to the end of the line, if it is in these bytes. The answer says whether it is.
    pub fn end(&mut self, bytes: &[u8]) -> bool
        ensures line { self.new ≡ in_line self.old bytes.now }
        ensures ended { result ≡ true → 0 < newlines bytes.now }
        ensures open { result ≡ false → newlines bytes.now ≡ 0 }
    {
        // The clause of this call says that the line has no more bytes than fit.
        let _line = self.line.as_slice();
        let mut at = 0;
        while at < bytes.len() {
            if bytes[at] == NEWLINE {
                return true;
            }
            self.line.push(bytes[at]);
            at += 1;
        }
        false
    }

    /// The verdict that a report that ends here is the claimed one.
    ///
    /// # Errors
    /// Its lines weren't counted.
    pub fn same(&self) -> Result<Verdict, Uncounted>
        ensures { IfOk result (IsSame self.now) }
    {
        let next = self.number()?;
        if self.line.as_slice().is_empty() {
            return Ok(Verdict::Same { lines: self.lines });
        }
        Ok(Verdict::Same { lines: next })
    }

    /// The verdict that the claimed report goes on after the report's end.
    ///
    /// # Errors
    /// Its lines weren't counted.
    pub fn longer(&self) -> Result<Verdict, Uncounted>
        ensures { IfOk result (IsLonger self.now) }
    {
        if self.line.as_slice().is_empty() {
            let number = self.number()?;
            return Ok(Verdict::Line {
                number,
                expected: None,
            });
        }
        self.wrong()
    }

    /// The verdict that this line is wrong.
    ///
    /// # Errors
    /// Its lines weren't counted.
    pub fn wrong(&self) -> Result<Verdict, Uncounted>
        ensures { IfOk result (IsWrong self.now) }
    {
        let number = self.number()?;
        Ok(Verdict::Line {
            number,
            expected: Some(Line::new(self.line.as_slice())),
        })
    }

    // The number of the line, from 1.
    fn number(&self) -> Result<u128, Uncounted>
        ensures { IfOk result (λ number. (self.now.lines < 2 ^ 128 - 1) × (number ≡ self.now.lines + 1)) }
    {
        if self.lines < u128::MAX {
            Ok(self.lines + 1)
        } else {
            Err(Uncounted)
        }
    }
}
