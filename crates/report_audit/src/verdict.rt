//! The verdict of a comparison.

ghost use Rattle.std.specs.Prelude.{◌≡◌, ◌≤◌, ◌++◌, ◌∷◌, [], take, length, ℕ, List};
ghost use Rattle.report_audit.specs.declared.verdict.TheConstants.{MAX_LINE};

use std::marker::Model;

/// The most bytes of a line, without its newline.
pub const MAX_LINE: usize = 128;

/// A line, without its newline.
#[derive(Drop)]
pub struct Line {
    bytes: [u8; 128],
    size: usize,
}

impl Model for Line {
    ghost Value = { List ℕ };

    ghost view = { λ l. take l.size l.bytes };

    ghost invariant = { λ l. l.size ≤ 128 };
}

impl Line {
    /// The line of these bytes.
    pub fn new(text: &[u8]) -> Line
        requires { length text.now ≤ 128 }
        ensures { result ≡ text.now }
    {
        let mut bytes = [0; 128];
        let size = text.len();
        bytes[..size].copy_from_slice(text);
        Line { bytes, size }
    }

    /// Appends a byte, unless it has [`MAX_LINE`] of them.
    pub fn push(&mut self, byte: u8)
        ensures { self.new ≡ take 128 (self.old ++ byte ∷ []) }
    {
        if self.size < MAX_LINE {
            self.bytes[self.size] = byte;
            self.size += 1;
        }
    }

    /// Its bytes, at most [`MAX_LINE`].
    pub fn as_slice(&self) -> &[u8]
        ensures bytes { result.now ≡ self.now }
        ensures short { length result.now ≤ 128 }
    {
        &self.bytes[..self.size]
    }
}

/// The verdict of a comparison of a report with a claimed one.
#[derive(Drop)]
pub enum Verdict {
    /// They are the same, and have this number of lines.
    Same {
        lines: u128,
    },
    /// The line of this number, from 1, is the first at which they differ or that only one of them has;
    /// `expected` is the report's line there, if it has one.
    Line {
        number: u128,
        expected: Option<Line>,
    },
}

/// Why a comparison has no verdict.
#[derive(Clone, Copy, Debug, PartialEq, Eq)]
pub enum NoVerdict {
    /// The claimed source failed.
    Unread,
    /// No line is known to be wrong, but the report wasn't told to its end, or it has too many lines to count them.
    Unfinished,
}
