//! Lines of text, made on the stack.
#![tactic(auto)]

ghost use Rattle.std.specs.Prelude.{◌≡◌, ◌+◌, ◌<◌, ◌≤◌, ◌∷◌, ◌++◌, [], decimal, length};
ghost use Rattle.std.specs.Fmt.{signed_decimal};

use itoa::{Buffer, write_digits};
use std::marker::Model;

/// The bytes of one line of text, in a buffer of 256 bytes.
#[derive(Drop)]
pub struct TextLine {
    bytes: [u8; 256],
    len: usize,
}

impl Model for TextLine {
    ghost use Rattle.std.specs.Prelude.{List, ℕ, take, ◌≤◌};

    ghost Value = { List ℕ };

    ghost view = { λ l. take l.len l.bytes };

    ghost invariant = { λ l. l.len ≤ 256 };
}

impl TextLine {
    /// A line with no bytes.
    pub fn new() -> TextLine
        ensures { result ≡ [] }
    {
        TextLine {
            bytes: [0; 256],
            len: 0,
        }
    }

    /// The number of bytes, at most 256.
    pub fn len(&self) -> usize
        ensures len { result ≡ length self.now }
        ensures most { result ≤ 256 }
    {
        self.len
    }

    /// The bytes so far.
    pub fn as_bytes(&self) -> &[u8]
        ensures { result.now ≡ self.now }
    {
        &self.bytes[..self.len]
    }

    /// Appends bytes, for which there is room.
    pub fn push_bytes(&mut self, piece: &[u8])
        requires { length self.old + length piece.now ≤ 256 }
        ensures after { self.new ≡ self.old ++ piece.now }
        ensures len { length self.new ≡ length self.old + length piece.now }
    {
        let end = self.len + piece.len();
        self.bytes[self.len..end].copy_from_slice(piece);
        self.len = end;
    }

    // Appends a byte, for which there is room.
    #[inline(always)]
    fn push_byte(&mut self, byte: u8)
        requires { length self.old + 1 ≤ 256 }
        ensures after { self.new ≡ self.old ++ byte ∷ [] }
        ensures len { length self.new ≡ length self.old + 1 }
    {
        self.bytes[self.len] = byte;
        self.len += 1;
    }

    // Appends the digits of a number, for which there is room. They are written directly into the line.
    #[inline(always)]
    fn push_digits(&mut self, n: u64)
        requires { length self.old + length (decimal n) ≤ 256 }
        ensures after { self.new ≡ self.old ++ decimal n }
        ensures len { length self.new ≡ length self.old + length (decimal n) }
    {
        let after = self.len + digit_count(n);
        let _start = write_digits(n, &mut self.bytes, after);
        self.len = after;
    }

    /// Appends a text, for which there is room.
    pub fn push_text(&mut self, text: &str)
        requires { length self.old + length text.now ≤ 256 }
        ensures after { self.new ≡ self.old ++ text.now }
        ensures len { length self.new ≡ length self.old + length text.now }
    {
        self.push_bytes(text.as_bytes());
    }

    /// Appends the digits of a number, at most 20 bytes.
    pub fn push_number(&mut self, n: u64)
        requires { length self.old + 20 ≤ 256 }
        ensures after { self.new ≡ self.old ++ decimal n }
        ensures len { length self.new ≤ length self.old + 20 }
    {
        self.push_digits(n);
    }

    /// Appends the digits of a number, at most 39 bytes.
    pub fn push_wide(&mut self, n: u128)
        requires { length self.old + 39 ≤ 256 }
        ensures after { self.new ≡ self.old ++ decimal n }
        ensures len { length self.new ≤ length self.old + 39 }
    {
        let mut buffer = Buffer::new();
        self.push_text(buffer.format(n));
    }

    /// Appends a number with the sign of a negative one, at most 20 bytes.
    pub fn push_signed(&mut self, n: i64)
        requires { length self.old + 20 ≤ 256 }
        ensures after { self.new ≡ self.old ++ signed_decimal n }
        ensures len { length self.new ≤ length self.old + 20 }
    {
        if n < 0 {
            self.push_byte(b'-');
        }
        self.push_digits(n.unsigned_abs());
    }

    /// Appends a space and the digits of a number, at most 21 bytes.
    pub fn push_number_field(&mut self, n: u64)
        requires { length self.old + 21 ≤ 256 }
        ensures after { self.new ≡ self.old ++ (32 ∷ decimal n) }
        ensures len { length self.new ≤ length self.old + 21 }
    {
        self.push_byte(b' ');
        self.push_number(n);
    }

    /// Appends a space and a number with the sign of a negative one, at most 21 bytes.
    pub fn push_signed_field(&mut self, n: i64)
        requires { length self.old + 21 ≤ 256 }
        ensures after { self.new ≡ self.old ++ (32 ∷ signed_decimal n) }
        ensures len { length self.new ≤ length self.old + 21 }
    {
        self.push_byte(b' ');
        self.push_signed(n);
    }

    /// Appends two fields of signed numbers, each after a space, at most 42 bytes.
    pub fn push_signed_pair(&mut self, x: i64, y: i64)
        requires { length self.old + 42 ≤ 256 }
        ensures after { self.new ≡ self.old ++ (32 ∷ signed_decimal x ++ 32 ∷ signed_decimal y) }
        ensures len { length self.new ≤ length self.old + 42 }
    {
        self.push_signed_field(x);
        self.push_signed_field(y);
    }

    /// Appends a space and a text, for which there is room.
    pub fn push_text_field(&mut self, text: &str)
        requires { length self.old + length text.now + 1 ≤ 256 }
        ensures after { self.new ≡ self.old ++ (32 ∷ text.now) }
        ensures len { length self.new ≡ length self.old + length text.now + 1 }
    {
        self.push_byte(b' ');
        self.push_text(text);
    }

    /// Ends the line, with one byte.
    pub fn push_newline(&mut self)
        requires { length self.old + 1 ≤ 256 }
        ensures after { self.new ≡ self.old ++ 10 ∷ [] }
        ensures len { length self.new ≡ length self.old + 1 }
    {
        self.push_byte(b'\n');
    }
}

// How many digits a number has when it is written.
#[inline(always)]
fn digit_count(n: u64) -> usize
    ensures value { result ≡ length (decimal n) }
    ensures most { result ≤ 20 }
{
    let mut left = n;
    let mut count = 0;
    while left >= 10_000 {
        left /= 10_000;
        count += 4;
    }
    count + short_count(left)
}

// The same for a number below 10,000.
#[inline(always)]
fn short_count(n: u64) -> usize
    requires { n < 10000 }
    ensures value { result ≡ length (decimal n) }
    ensures most { result ≤ 4 }
{
    if n < 10 {
        1
    } else if n < 100 {
        2
    } else if n < 1_000 {
        3
    } else {
        4
    }
}
